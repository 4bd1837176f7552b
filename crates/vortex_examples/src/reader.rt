//! A reader of a footer, which fetches the zones that the footer doesn't rule out.
ghost use Rattle.std.specs.Prelude.{◌≡◌, ◌++◌, ◌⊎◌, ℕ, false, Contains, IfErr, IfOk, IsTrue, List};
ghost use Rattle.std.specs.Prelude.{OnErr, OnOk, Some, slice_get};
ghost use Rattle.std.specs.Bool.{MatchBool};
ghost use Rattle.vortex_expr.specs.Meanings.Fitting.{fits_scope};
ghost use Rattle.vortex_expr.specs.Trees.Tree.{is_plain};
ghost use Rattle.vortex_prune.specs.Part.{IsPartOf, IsTruePart, PartData};
ghost use Rattle.vortex_zone_map.specs.Zone.{ZoneData, zones_fit};
ghost use Rattle.vortex_prune.specs.Scanning.ZoneScans.{EachSatisfies};
ghost use Rattle.vortex_zone_map.specs.ZoneMaps.{IsMapOf, appended_map, zone_map};
ghost use Rattle.vortex_rewrite.specs.Answers.{IsMemory};
ghost use Rattle.vortex_rewrite.specs.Rewriting.Predicates.{is_predicate};
ghost use Rattle.vortex_stats.specs.declared.error.StatsError.TheVariants.{Mismatch};

use std::alloc::Global;
use vortex_expr::BoundExpression;
use vortex_prune::{Pruned, Rules, prune};
use vortex_stats::StatsError;
use vortex_zone_map::{Zone, ZoneMap};

/// The zones that needn't be fetched, ascending.
pub fn zones_left_out(
    alloc: Global,
    footer: &ZoneMap,
    predicate: &BoundExpression,
) -> Result<Vec<usize>, StatsError>
    requires plain { IsTrue (is_plain predicate.now) }
    requires fits { IsTrue (fits_scope predicate.now footer.now.scope) }
    // Whatever rows stand in a zone of which the footer is true: none of them is wanted.
    ensures lossless { IfOk result (λ left_out. (zones : List ZoneData) → IsMapOf zones footer.now
        → (i : ℕ) (zone : ZoneData) (part : PartData) → slice_get zones i ≡ Some zone
        → IsPartOf footer.now.scope zone part → IsTruePart part → Contains left_out.items i
        → EachSatisfies false predicate.now part.chunk) }
    ensures memory { IsTrue (is_predicate predicate.now) → IfErr result IsMemory }
{
    let rules = Rules::builtin(alloc);
    match prune(alloc, footer, predicate, &rules) {
        Ok(pruned) => {
            let Pruned { skipped, .. } = pruned;
            Ok(skipped)
        }
        Err(fault) => Err(fault),
    }
}

/// Puts zones that were appended to a file behind those of its footer, and returns the places of
/// those of all zones that needn't be fetched, ascending.
///
/// `Mismatch` where the sets of an appended zone don't fit the footer's scope. The footer is then
/// as it was; where memory is refused it has all of the appended zones, or none.
pub fn zones_left_out_of_all(
    alloc: Global,
    footer: &mut ZoneMap,
    appended: &[Zone<'_>],
    predicate: &BoundExpression,
) -> Result<Vec<usize>, StatsError>
    requires plain { IsTrue (is_plain predicate.now) }
    requires fits { IsTrue (fits_scope predicate.now footer.old.scope) }
    // Whatever its table was made of.
    ensures grown { let more = zone_map footer.old.scope appended.now in
        OnOk result (footer.new ≡ appended_map footer.old more) }
    // Whatever rows stand in a zone of which the footer or what was appended is true: none of them
    // is wanted.
    ensures lossless { IfOk result (λ left_out. (zones : List ZoneData) → IsMapOf zones footer.old
        → (i : ℕ) (zone : ZoneData) (part : PartData)
        → slice_get (zones ++ appended.now) i ≡ Some zone → IsPartOf footer.old.scope zone part
        → IsTruePart part → Contains left_out.items i
        → EachSatisfies false predicate.now part.chunk) }
    ensures error { IsTrue (is_predicate predicate.now) → IfErr result (λ f.
        MatchBool (zones_fit footer.old.scope appended.now) (IsMemory f) (f ≡ Mismatch)) }
    ensures refused { let more = zone_map footer.old.scope appended.now in
        OnErr result ((footer.new ≡ footer.old) ⊎ (footer.new ≡ appended_map footer.old more)) }
{
    match footer.extend(alloc, appended) {
        Ok(()) => zones_left_out(alloc, footer, predicate),
        Err(fault) => Err(fault),
    }
}
