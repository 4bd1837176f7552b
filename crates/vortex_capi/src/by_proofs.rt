//! The answers for the zones of a table by a falsifier and a satisfier, whatever they prove.
ghost use Rattle.std.specs.Prelude.{◌≡◌, IfOk, IsTrue, length};
ghost use Rattle.vortex_capi.specs.Prunes as spec;
ghost use Rattle.vortex_capi.specs.Refusals.{Answers};
ghost use Rattle.vortex_zone_map.specs.Zone.{zones_fit};

use crate::batches::table_answers;
use crate::fault::Refusal;
use crate::statistic::Statistic;
use crate::table::sources_given;
use std::alloc::Global;
use vortex_base::scope::Scope;
use vortex_predicates::PruningPredicate;

/// The answers for the zones of a scope by proofs that have no column outside their placeholders.
/// The predicate that they were made of is no matter here, nor the scope that it is over.
///
/// Refused as `vortex_prune` of the header is for statistics and their values, or for memory.
pub fn answers_by_proofs(
    alloc: Global,
    scope: &Scope,
    proofs: &PruningPredicate,
    rows: &[u64],
    stats: &[Statistic<'_>],
) -> Result<Vec<u8>, Refusal>
    requires closed { spec.AreClosed proofs.now.falsifier proofs.now.satisfier }
    // The answer that the statistics of each zone prove, or the first of them that is refused.
    ensures read { Answers (λ v. v.items) result (spec.table_answers proofs.now.falsifier
        proofs.now.satisfier scope.now (spec.zones_asked scope.now rows.now stats.now)) }
    // The sets of the zones fit the scope.
    ensures zones { IfOk result (λ v. IfOk (spec.zones_asked scope.now rows.now stats.now)
        (λ zones. IsTrue (zones_fit scope.now zones))) }
    ensures long { IfOk result (λ v. length v.items ≡ length rows.now) }
{
    let sources = sources_given(alloc, scope, rows.len(), stats)?;
    table_answers(alloc, scope, proofs, &sources, rows)
}
