//! A condition over the columns of a Parquet file, with its proofs over statistics.
ghost use Rattle.std.specs.Prelude.{◌≡◌, ◌∷◌, [], IfErr, IfOk, Ok, Some, false, length, map};
ghost use Rattle.vortex_predicates.specs.Conditions.Conditions.{max_levels, pruning_of, schema_of};
ghost use Rattle.vortex_predicates.specs.Pruning.{IsMadeBy, skipped_places, whole_places};
ghost use Rattle.vortex_parquet.specs.Columns.{column_views};
ghost use Rattle.vortex_parquet.specs.Records.{file_view};
ghost use Rattle.vortex_parquet.specs.Stats.{group_view, groups_of as groups_in};
ghost use Rattle.vortex_predicates.specs.RowGroups.Pruning.{zone_data};
ghost use Rattle.vortex_predicates.specs.Footers.Choosing.{IsSchemaFor};
ghost use Rattle.vortex_predicates.specs.Footers.Mentions.{mentions};
ghost use Rattle.vortex_predicates.specs.Footers.Pruning.{PrunesCondition};
ghost use Rattle.vortex_predicates.specs.Footers.Refusals.{IsGroupFault, IsToldOf};
ghost use Rattle.vortex_prune.specs.Scanning.ZoneScans.{is_left_open, zone_verdicts};
ghost use Rattle.vortex_zone_map.specs.Zone.{AreZonesOf};
ghost use Rattle.vortex_sql.specs.Lowering.{Says, opaques, span_of};
ghost use Rattle.vortex_sql.specs.Refusals.{misfits};
ghost use Rattle.vortex_sql.specs.Parsing.Joining.{Joins, ands};
ghost use Rattle.vortex_sql.specs.Parsing.Naming.{AreNamed};
ghost use Rattle.vortex_sql.specs.Parsing.Places.{Ascends, leaves};

use crate::parquet::chosen::{Scoped, schema_for};
use crate::parquet::error::FooterError;
use crate::row_groups::laws::groups_are_parts;
use crate::row_groups::zones::map_of;
use crate::sql::pruning_condition::PruningCondition;
use std::alloc::Global;
use vortex_parquet::columns::{Columns, Leaf};
use vortex_parquet::records::FileMetaData;
use vortex_parquet::stats::{GroupStats, groups_of};
use vortex_prune::Verdict;
use vortex_rewrite::rewrite::rules::{OwnRules, Rules};
use vortex_sql::error::SqlError;
use vortex_sql::syntax::parse::{Names, parse};

/// A condition in SQL over the columns of a file, with its proofs over statistics.
#[derive(Drop)]
pub struct FooterCondition {
    /// The leaf columns whose statistics are read: those of the condition's scope.
    pub leaves: Vec<Leaf>,
    pub condition: PruningCondition,
}

/// The statistics of each row group, and the verdict on it.
#[derive(Drop)]
pub struct GroupVerdicts {
    pub groups: Vec<GroupStats>,
    pub verdicts: Vec<Verdict>,
}

impl FooterCondition {
    /// Reads the text of a condition over the columns of a file, and makes its proofs by the
    /// built-in rules and those of a user.
    ///
    /// The scope has those columns alone that the condition names, so the statistics of no other
    /// column are read. Columns of dates, times, timestamps and decimals are compared by what their
    /// cells stand for. A test isn't read if it names a column that the file lacks, one of a type
    /// whose order isn't known, or one of which nobody knows what its cells stand for.
    ///
    /// `LeftOut` if a test names a column that is nested, repeated, or one of several of its name.
    /// `Sql` if the text is no condition over the columns. `Stats` if memory is refused for the
    /// proofs, or a rule of the user failed.
    pub fn try_new(
        alloc: Global,
        columns: &Columns<'_>,
        text: &str,
        names: Names,
        rules: &Rules,
    ) -> Result<FooterCondition, FooterError>
        // The scope has the columns of the file that are named and read, beside their leaves, and
        // no name refuses the condition.
        ensures chosen { IfOk result (λ made.
            IsSchemaFor (column_views columns.now.columns.items) columns.now.leaves
            (mentions made.condition.condition) (schema_of made.condition)
            made.leaves.items) }
        // The leaves of the condition that was read ascend within the text.
        ensures places { IfOk result (λ made.
            Ascends 0 (leaves made.condition.condition) (length text.now)) }
        // Between two of them stands AND exactly where AND joins them.
        ensures joined { IfOk result (λ made. Joins text.now 0 (leaves made.condition.condition)
            (false ∷ ands made.condition.condition)) }
        // The types of each fit.
        ensures typed { IfOk result (λ made.
            misfits (schema_of made.condition) made.condition.condition ≡ []) }
        // A name of several parts is the column of its last part where that is wanted, and else
        // isn't read.
        ensures named { IfOk result (λ made. AreNamed text.now names made.condition.condition) }
        // The proofs are those that the rules have of a predicate which means on each row what the
        // condition means.
        ensures says { IfOk result (λ made. Says (schema_of made.condition) made.condition.condition
            made.condition.predicate) }
        ensures made { let own = ⟦<Rules as OwnRules>⟧.own rules.now in
            IfOk result (λ made. IsMadeBy own (Some max_levels) (pruning_of made.condition)) }
        // A name is told only where it refuses the condition, and a place of the text where it is
        // no condition or its types don't fit. What the proofs are refused for, other than memory,
        // is a rule of the user.
        ensures refused { let own = ⟦<Rules as OwnRules>⟧.own rules.now in
            let cs = column_views columns.now.columns.items in
            IfErr result (IsToldOf own cs columns.now.leaves text.now) }
    {
        let condition = match parse(alloc, text, names) {
            Ok(condition) => condition,
            Err(refused) => return Err(FooterError::from(SqlError::Syntax(refused))),
        };
        let Scoped { schema, leaves } = schema_for(
            alloc,
            &columns.columns,
            columns.leaves,
            &condition,
        )?;
        let condition = PruningCondition::of_condition(alloc, text, condition, schema, rules)?;
        Ok(FooterCondition { leaves, condition })
    }

    /// Returns the bytes of the text at which each unread part begins and ends, ascending.
    pub fn unread(&self) -> &[(usize, usize)]
        ensures { result.now
            ≡ map span_of (opaques (schema_of self.now.condition) self.now.condition.condition) }
    {
        self.condition.unread()
    }

    /// Returns the verdict on each row group of a file with so many leaf columns: it is skipped if
    /// no row of it satisfies the condition, and whole if each does.
    ///
    /// `Footer` with the first fault of the row groups. `Stats` with `Mismatch` if the leaves
    /// aren't those of the condition's scope, with `OpenProof` if a user's rule named a column, and
    /// if memory is refused.
    pub fn prune(
        &self,
        alloc: Global,
        count: usize,
        file: &FileMetaData<'_>,
    ) -> Result<GroupVerdicts, FooterError>
        // Each row group is read.
        ensures known { IfOk result (λ found.
            groups_in self.now.leaves.items count (file_view file.now)
            ≡ Ok (map group_view found.groups.items)) }
        ensures counted { IfOk result (λ found.
            length found.groups.items ≡ file.now.groups.count) }
        ensures long { IfOk result (λ found.
            length found.verdicts.items ≡ length found.groups.items) }
        // Each is judged by its statistics.
        ensures verdicts { IfOk result (λ found. found.verdicts.items
            ≡ zone_verdicts self.now.condition.falsifier self.now.condition.satisfier
            self.now.condition.scope (map zone_data found.groups.items)) }
        // If the footer's statistics are true of the rows of a row group, then whatever the unread
        // leaves mean, none of these satisfies the condition where it is skipped, and each does
        // where it is whole.
        ensures sound { IfOk result (λ found. PrunesCondition (schema_of self.now.condition)
            self.now.condition.condition self.now.leaves.items (file_view file.now)
            (skipped_places found.verdicts.items) (whole_places found.verdicts.items)) }
        // The sets of each fit the scope, and no proof was left open.
        ensures fit { IfOk result (λ found.
            AreZonesOf self.now.condition.scope (map zone_data found.groups.items)) }
        ensures closed { IfOk result (λ found. is_left_open self.now.condition.falsifier
            (map (λ g. g.rows) found.groups.items) ≡ false) }
        // A fault is told only where the row groups have it, a misfit where a set fits no column of
        // the scope, an open proof where a rule of the user left one; else memory is refused.
        ensures refused { IfErr result (IsGroupFault self.now.condition
            (groups_in self.now.leaves.items count (file_view file.now))) }
    {
        groups_are_parts();
        let groups = groups_of(alloc, &self.leaves, count, file)?;
        let scope = self.condition.scope().try_clone()?;
        let map = map_of(alloc, scope, &groups)?;
        let verdicts = self.condition.prune(alloc, &map)?;
        Ok(GroupVerdicts { groups, verdicts })
    }
}
