//! Pruning of row groups by a predicate over their columns.
ghost use Rattle.std.specs.Prelude.{◌≡◌, ℕ, IfErr, IfOk, IsTrue, Ok, map};
ghost use Rattle.vortex_expr.specs.Meanings.Fitting.{fits_scope};
ghost use Rattle.vortex_expr.specs.Trees.Tree.{is_plain};
ghost use Rattle.vortex_parquet.specs.Records.{FileData};
ghost use Rattle.vortex_parquet.specs.Stats.{group_view, groups_of};
ghost use Rattle.vortex_predicates.specs.RowGroups.Pruning.{IsPruningRefusal, PrunesSoundly};
ghost use Rattle.vortex_predicates.specs.RowGroups.Pruning.{zone_data};
ghost use Rattle.vortex_prune.specs.Scanning.ZoneScans.{skipped_zones, whole_zones};
ghost use Rattle.vortex_rewrite.specs.Rewriting.Falsifiers.{falsifier as falsifier_of};
ghost use Rattle.vortex_rewrite.specs.Rewriting.Falsifiers.{satisfier as satisfier_of};

use crate::row_groups::laws::groups_are_parts;
use crate::row_groups::zones::map_of;
use std::alloc::Global;
use vortex_base::scope::Scope;
use vortex_expr::bound_expression::BoundExpression;
use vortex_parquet::columns::Leaf;
use vortex_parquet::stats::GroupStats;
use vortex_prune::{Pruned, prune};
use vortex_rewrite::rewrite::rules::{OwnRules, Rules};
use vortex_stats::error::StatsError;

/// Returns which row groups hold no row that satisfies a predicate, and of which each row does. The
/// groups have the statistics of these leaf columns, which are the columns of the scope.
///
/// `NotPredicate` if its type isn't Bool. `Mismatch` if a set fits no column of the scope, as one of
/// other leaf columns. A rule of the user may fail, and memory may be refused.
pub fn prune_groups(
    alloc: Global,
    scope: Scope,
    leaves: &[Leaf],
    groups: &[GroupStats],
    predicate: &BoundExpression,
    rules: &Rules,
) -> Result<Pruned, StatsError>
    requires plain { IsTrue (is_plain predicate.now) }
    requires fits { IsTrue (fits_scope predicate.now scope) }
    // If the footer's statistics are true of the rows of a row group, none of these satisfies the
    // predicate where it is skipped, and each does where it is whole.
    ensures sound { IfOk result (λ pruned. (file : FileData) (count : ℕ)
        → groups_of leaves.now count file ≡ Ok (map group_view groups.now)
        → PrunesSoundly predicate.now scope leaves.now file pruned.skipped.items
        pruned.whole.items) }
    // A row group is skipped exactly if the falsifier is true by its statistics.
    ensures skipped { let own = ⟦<Rules as OwnRules>⟧.own rules.now in
        let proof = falsifier_of own predicate.now in
        IfOk result (λ pruned.
        pruned.skipped.items ≡ skipped_zones proof scope (map zone_data groups.now)) }
    // And whole exactly if it isn't skipped and the satisfier is.
    ensures whole { let own = ⟦<Rules as OwnRules>⟧.own rules.now in
        let f = falsifier_of own predicate.now in
        let s = satisfier_of own predicate.now in
        IfOk result (λ pruned.
        pruned.whole.items ≡ whole_zones f s scope (map zone_data groups.now)) }
    // It is refused if it is no predicate, if a set fits no column of the scope, or for a rule of
    // the user; and else for memory alone.
    ensures refused { let own = ⟦<Rules as OwnRules>⟧.own rules.now in
        IfErr result (IsPruningRefusal own predicate.now scope (map zone_data groups.now)) }
{
    groups_are_parts();
    let map = map_of(alloc, scope, groups)?;
    prune(alloc, &map, predicate, rules)
}
