//! A condition in SQL with its proofs over statistics, made once and good for any map of its scope.
ghost use Rattle.std.specs.Prelude.{◌≡◌, ◌∷◌, [], IfErr, IfOk, List, Some, length, false, map};
ghost use Rattle.vortex_rewrite.specs.Answers.{IsMemory};
ghost use Rattle.vortex_rewrite.specs.Causes.{IsRefusal, either_causes};
ghost use Rattle.vortex_rewrite.specs.Rewriting.Proof.{is_open};
ghost use Rattle.vortex_zone_map.specs.Zone.{ZoneData};
ghost use Rattle.vortex_prune.specs.Scanning.ZoneScans.{AreRowVerdicts, is_left_open, open_causes, zone_verdicts};
ghost use Rattle.vortex_zone_map.specs.ZoneMaps.{IsMapOf};
ghost use Rattle.vortex_predicates.specs.Pruning.{IsMadeBy, skipped_places, whole_places};
ghost use Rattle.vortex_sql.specs.Lowering.{Says, opaques, span_of};
ghost use Rattle.vortex_sql.specs.Refusals.{misfits};
ghost use Rattle.vortex_predicates.specs.Conditions.Conditions.{Confirms, IsSoundFor, Refutes};
ghost use Rattle.vortex_predicates.specs.Conditions.Conditions.{max_levels, pruning_of, schema_of};
ghost use Rattle.vortex_predicates.specs.Conditions.Refusals.{IsConditionRefusal, IsOfTextOrMemory};
ghost use Rattle.vortex_predicates.specs.Conditions.Refusals.{IsProvingRefusal};
ghost use Rattle.vortex_sql.specs.Parsing.Joining.{Joins, ands};
ghost use Rattle.vortex_sql.specs.Parsing.Naming.{AreNamed};
ghost use Rattle.vortex_sql.specs.Parsing.Places.{Ascends, leaves};

use crate::PruningPredicate;
use crate::sql::error::ConditionError;
use crate::sql::laws::proofs_tell_of_conditions;
use std::alloc::Global;
use std::marker::Model;
use vortex_base::scope::Scope;
use vortex_prune::scan::prune::prune_by;
use vortex_prune::scan::verdict::Verdict;
use vortex_rewrite::rewrite::rules::{OwnRules, Rules};
use vortex_sql::condition::{Predicate, over_schema};
use vortex_sql::error::SqlError;
use vortex_sql::schema::Schema;
use vortex_sql::syntax::parse::{Names, parse};
use vortex_sql::syntax::tree::Condition;
use vortex_stats::error::StatsError;
use vortex_zone_map::zone_map::ZoneMap;

/// The most levels of a normal form that takes part in the proofs.
pub const MAX_LEVELS: u32 = 128;

/// A condition in SQL with its proofs over statistics: one that no row satisfies it, and one that
/// every row does, where they exist.
///
/// The proofs hold whatever the unread parts mean, so a map needs no columns for those.
#[derive(Drop)]
pub struct PruningCondition {
    schema: Schema,
    sql: Predicate,
    proofs: PruningPredicate,
}

impl Model for PruningCondition {
    ghost use Rattle.std.specs.Prelude.{◌≡◌, map};
    ghost use Rattle.vortex_sql.specs.Lowering.{opaques, span_of};
    ghost use Rattle.vortex_predicates.specs.Conditions.ConditionCode.{condition_code};
    ghost use Rattle.vortex_predicates.specs.Conditions.Conditions.{AreProofsOf, ProvedCondition};

    ghost Value = { ProvedCondition };

    ghost coded = { condition_code };

    ghost view = { λ x. record {
      scope = x.schema.scope;
      cells = x.schema.cells;
      condition = x.sql.condition;
      predicate = x.proofs.predicate;
      falsifier = x.proofs.falsifier;
      satisfier = x.proofs.satisfier;
    } };

    ghost invariant = { λ x.
        let seen : ProvedCondition = record {
          scope = x.schema.scope;
          cells = x.schema.cells;
          condition = x.sql.condition;
          predicate = x.proofs.predicate;
          falsifier = x.proofs.falsifier;
          satisfier = x.proofs.satisfier;
        } in
        AreProofsOf seen
        × (x.sql.opaque.items ≡ map span_of (opaques x.schema x.sql.condition)) };
}

impl PruningCondition {
    /// Makes the proofs of a condition over the columns of a schema by the built-in rules and those
    /// of a user. The text that the condition was read from names its unread parts. Normal forms of
    /// more than `MAX_LEVELS` levels take no part.
    ///
    /// `Sql` if the types of a test don't fit. `Stats` if memory is refused for the proofs, or a
    /// rule of the user failed.
    pub fn of_condition(
        alloc: Global,
        text: &str,
        condition: Condition,
        schema: Schema,
        rules: &Rules,
    ) -> Result<PruningCondition, ConditionError>
        ensures condition { IfOk result (λ made. made.condition ≡ condition) }
        ensures schema { IfOk result (λ made. schema_of made ≡ schema) }
        // The types of each test fit.
        ensures typed { IfOk result (λ made. misfits schema condition ≡ []) }
        // The proofs are those that the rules have of a predicate which means on each row what the
        // condition means.
        ensures says { IfOk result (λ made. Says schema condition made.predicate) }
        ensures made { let own = ⟦<Rules as OwnRules>⟧.own rules.now in
            IfOk result (λ made. IsMadeBy own (Some max_levels) (pruning_of made)) }
        // Says what the proofs tell by statistics of the schema's columns, whatever the leaves mean
        // that aren't read, whichever lawful rules took part.
        ensures refutes { IfOk result (λ made. Refutes schema condition made.falsifier) }
        ensures confirms { IfOk result (λ made. Confirms schema condition made.satisfier) }
        // By built-in rules no proof has a column outside its placeholders.
        ensures closed { rules.now.own.items ≡ [] → IfOk result (λ made.
            (is_open made.falsifier ≡ false) × (is_open made.satisfier ≡ false)) }
        // A misfit is the first of the condition. A refusal for the proofs, other than for memory,
        // has its cause: a rule of the user asked at a node of the condition's predicate or of a
        // form of it.
        ensures refused { let own = ⟦<Rules as OwnRules>⟧.own rules.now in
            IfErr result (IsProvingRefusal own text.now schema condition) }
        // By built-in rules a condition is refused for its types or for memory alone.
        ensures memory { rules.now.own.items ≡ [] → IfErr result IsOfTextOrMemory }
    {
        proofs_tell_of_conditions();
        let sql = over_schema(alloc, text, condition, &schema)?;
        // The scope of the predicate is one.
        let _columns = sql.scope.len();
        let proofs = PruningPredicate::try_new_within(alloc, &sql.predicate, rules, MAX_LEVELS)?;
        Ok(PruningCondition {
            schema,
            sql,
            proofs,
        })
    }

    /// Reads the text of a condition over the columns of a schema, and makes its proofs by the
    /// built-in rules and those of a user. Normal forms of more than `MAX_LEVELS` levels take no
    /// part.
    ///
    /// `Sql` if the text is no condition over the columns. `Stats` if memory is refused for the
    /// proofs, or a rule of the user failed.
    pub fn try_new(
        alloc: Global,
        text: &str,
        schema: Schema,
        names: Names,
        rules: &Rules,
    ) -> Result<PruningCondition, ConditionError>
        ensures schema { IfOk result (λ made. schema_of made ≡ schema) }
        // A name of several parts is the column of its last part where that is wanted, and else
        // isn't read.
        ensures named { IfOk result (λ made. AreNamed text.now names made.condition) }
        // The leaves of the condition that was read ascend within the text.
        ensures places { IfOk result (λ made. Ascends 0 (leaves made.condition) (length text.now)) }
        // Between two of them stands AND exactly where AND joins them.
        ensures joined { IfOk result (λ made.
            Joins text.now 0 (leaves made.condition) (false ∷ ands made.condition)) }
        // The types of each fit.
        ensures typed { IfOk result (λ made. misfits schema made.condition ≡ []) }
        // The proofs are those that the rules have of a predicate which means on each row what the
        // condition means.
        ensures says { IfOk result (λ made. Says schema made.condition made.predicate) }
        ensures made { let own = ⟦<Rules as OwnRules>⟧.own rules.now in
            IfOk result (λ made. IsMadeBy own (Some max_levels) (pruning_of made)) }
        // Says what the proofs tell by statistics of the schema's columns, whatever the leaves mean
        // that aren't read, whichever lawful rules took part.
        ensures refutes { IfOk result (λ made. Refutes schema made.condition made.falsifier) }
        ensures confirms { IfOk result (λ made. Confirms schema made.condition made.satisfier) }
        // By built-in rules no proof has a column outside its placeholders.
        ensures closed { rules.now.own.items ≡ [] → IfOk result (λ made.
            (is_open made.falsifier ≡ false) × (is_open made.satisfier ≡ false)) }
        // A refusal for the text has a place in it; a misfit is the first of the condition. One for
        // the proofs, other than for memory, has its cause: a rule of the user asked at a node of
        // the condition's predicate or of a form of it.
        ensures refused { let own = ⟦<Rules as OwnRules>⟧.own rules.now in
            IfErr result (IsConditionRefusal own text.now schema) }
        // By built-in rules a condition is refused for its text or for memory alone.
        ensures memory { rules.now.own.items ≡ [] → IfErr result IsOfTextOrMemory }
    {
        match parse(alloc, text, names) {
            Ok(condition) => PruningCondition::of_condition(alloc, text, condition, schema, rules),
            Err(refused) => Err(ConditionError::Sql(SqlError::Syntax(refused))),
        }
    }

    /// Returns the columns that the condition may name.
    pub fn scope(&self) -> &Scope
        ensures { result.now ≡ self.now.scope }
    {
        self.schema.scope()
    }

    /// Returns the predicate that the condition is, with its proofs. Its scope has a column for
    /// each unread part behind those of the condition's.
    pub fn proofs(&self) -> &PruningPredicate
        ensures { result.now ≡ pruning_of self.now }
    {
        &self.proofs
    }

    /// Returns the condition as it was read.
    pub fn condition(&self) -> &Condition
        ensures { result.now ≡ self.now.condition }
    {
        &self.sql.condition
    }

    /// Returns the bytes of the text at which each unread part begins and ends, ascending.
    pub fn unread(&self) -> &[(usize, usize)]
        ensures { result.now ≡ map span_of (opaques (schema_of self.now) self.now.condition) }
    {
        &self.sql.opaque
    }

    /// Returns the verdict on each zone of a map of the condition's scope: the zone is skipped if
    /// no row of it satisfies the condition, and whole if each does. Each proof is bound once, for
    /// all zones.
    ///
    /// `OpenProof` if a proof that is about to be bound has a column outside its placeholders,
    /// which a user's rule may have named, and else `Memory` alone.
    pub fn prune(&self, alloc: Global, map: &ZoneMap) -> Result<Vec<Verdict>, StatsError>
        requires { map.now.scope ≡ self.now.scope }
        // On each row of the table, whatever it was made of, by what the row holds.
        ensures rows { IfOk result (λ vs.
            AreRowVerdicts self.now.falsifier self.now.satisfier map.now vs.items) }
        // So where the map is that of zones, by their statistics.
        ensures verdicts { IfOk result (λ vs. (zones : List ZoneData) → IsMapOf zones map.now
            → vs.items ≡ zone_verdicts self.now.falsifier self.now.satisfier map.now.scope zones) }
        ensures long { IfOk result (λ vs. length vs.items ≡ length map.now.rows) }
        // Whatever rows stand in a zone, if its statistics are true of them, and whatever the
        // unread leaves mean: none satisfies the condition where the zone is skipped, and each
        // does where it is whole.
        ensures sound { IfOk result (λ vs. (zones : List ZoneData) → IsMapOf zones map.now
            → IsSoundFor (schema_of self.now) self.now.condition zones (skipped_places vs.items)
            (whole_places vs.items)) }
        // No falsifier that has a column outside its placeholders was bound.
        ensures shut { IfOk result (λ _. is_left_open self.now.falsifier map.now.rows ≡ false) }
        // A refusal other than for memory is `OpenProof`, and only where a proof has a column
        // outside its placeholders and the map a zone.
        ensures refused { let f = open_causes self.now.falsifier map.now.rows in
            let s = open_causes self.now.satisfier map.now.rows in
            IfErr result (IsRefusal (either_causes f s)) }
        // Proofs that have no column outside their placeholders leave memory alone to refuse.
        ensures memory { is_open self.now.falsifier ≡ false → is_open self.now.satisfier ≡ false
            → IfErr result IsMemory }
    {
        prune_by(alloc, map, self.proofs.falsifier(), self.proofs.satisfier())
    }
}
