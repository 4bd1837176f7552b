//! Scans of parts that stand with a map of zones, which decides for each part.
ghost use Rattle.std.specs.Prelude.{◌≡◌, Option, [], IfErr, IfOk, IsTrue};
ghost use Rattle.std.specs.Prelude.{alloc_error, length};
ghost use Rattle.std.specs.List.{AllByRecursion};
ghost use Rattle.vortex_expr.specs.Meanings.Fitting.{fits_scope};
ghost use Rattle.vortex_expr.specs.Trees.Tree.{Place, Tree, is_plain};
ghost use Rattle.vortex_rewrite.specs.Rewriting.ReadOnce.{has_disjoint_ands};
ghost use Rattle.vortex_prune.specs.Scanning.Complete.{SkipsExactly};
ghost use Rattle.vortex_prune.specs.Part.{AreParts, IsTruePart};
ghost use Rattle.vortex_rewrite.specs.Rewriting.Falsifiers.{falsifier as falsifier_of};
ghost use Rattle.vortex_prune.specs.Scanning.Promises.{RefusesByZones, ScansByZones, ScansParts};
ghost use Rattle.vortex_prune.specs.Scanning.Selection.{answered, full, skipped_parts};
ghost use Rattle.vortex_prune.specs.Scanning.ZoneScans.{IsShutIfKept, IsShutIfVerdict};
ghost use Rattle.vortex_prune.specs.Scanning.ZoneScans.{statistics_answers, zone_verdicts};
ghost use Rattle.vortex_prune.specs.Zones.{HaveScope, zones_of};
ghost use Rattle.vortex_stats.specs.declared.error.StatsError.TheVariants.{Memory};

use crate::bind::stat_binder::StatBinder;
use crate::bind::stats_binder::StatsBinder;
use crate::part::Part;
use crate::scan::outcome::Scan;
use crate::scan::part_scan::{PartTest, scan_parts};
use crate::scan::prune::verdicts;
use crate::scan::verdict::Verdict;
use crate::zones::Zones;
use std::alloc::Global;
use vortex_expr::bound_expression::BoundExpression;
use vortex_rewrite::rewrite::rules::{OwnRules, Rules};
use vortex_stats::error::StatsError;

// Decides by a list of verdicts that were found beforehand.
#[derive(Drop)]
struct ByVerdicts<'a> {
    verdicts: &'a [Verdict],
}

impl<'a> PartTest for ByVerdicts<'a> {
    ghost use Rattle.std.specs.Prelude.{◌≡◌, ◌<◌, Some, length, slice_get};

    ghost able = { λ s i. i < length s.verdicts.now };

    ghost tells = { λ s i part v. slice_get s.verdicts.now i ≡ Some v };

    ghost refuses = { λ s i part f. ⊥ };

    fn verdict(
        &mut self,
        _alloc: Global,
        place: usize,
        _part: &Part,
    ) -> Result<Verdict, StatsError> {
        Ok(self.verdicts[place])
    }
}

// The scan by a verdict on each part.
fn scan_verdicts(
    alloc: Global,
    zones: &Zones,
    predicate: &BoundExpression,
    verdicts: &[Verdict],
) -> Result<Scan, StatsError>
    requires plain { IsTrue (is_plain predicate.now) }
    requires fits { IsTrue (fits_scope predicate.now zones.now.scope) }
    requires long { length verdicts.now ≡ length zones.now.parts }
    ensures found { IfOk result (λ scan. (f s : Option (Tree Place))
        → verdicts.now ≡ zone_verdicts f s zones.now.scope (zones_of zones.now.parts)
        → ScansParts f s predicate.now (statistics_answers zones.now.parts) scan) }
    ensures kept_closed { IfOk result (λ scan. (s : Option (Tree Place))
        → IsShutIfVerdict s verdicts.now → IsShutIfKept scan.skipped.items s zones.now.parts) }
    ensures memory { IfErr result (λ f. f ≡ Memory alloc_error) }
{
    let mut test = ByVerdicts { verdicts };
    scan_parts(alloc, zones.parts(), predicate, &mut test)
}

// The scan by the falsifier and the satisfier of the predicate.
fn scan_rules(
    alloc: Global,
    zones: &Zones,
    predicate: &BoundExpression,
    rules: &Rules,
) -> Result<Scan, StatsError>
    requires plain { IsTrue (is_plain predicate.now) }
    requires fits { IsTrue (fits_scope predicate.now zones.now.scope) }
    ensures parts { AreParts zones.now.parts }
    ensures scoped { HaveScope zones.now.scope zones.now.parts }
    ensures answered { let own = ⟦<Rules as OwnRules>⟧.own rules.now in
        let answers = statistics_answers zones.now.parts in
        IfOk result (ScansByZones own predicate.now zones.now.parts answers) }
    ensures refused { let own = ⟦<Rules as OwnRules>⟧.own rules.now in
        RefusesByZones own predicate.now zones.now.parts result }
{
    // That the parts are of the scope and their map is kept.
    let _parts = zones.parts();
    let verdicts = verdicts(alloc, zones.map(), predicate, rules)?;
    scan_verdicts(alloc, zones, predicate, &verdicts)
}

/// Selects the rows of the parts that satisfy a predicate: what `scan` finds in these parts with a
/// `StatsBinder` each. A part whose falsifier is true by its row of the table is skipped, left out
/// unread; of another part whose satisfier is true all rows are selected and none is tested. The
/// predicate is rewritten once into both proofs, and each is bound once: the falsifier at first,
/// the satisfier if some part isn't skipped, and both are looked at as `prune` does. With no part
/// nothing is bound.
///
/// The caller knows that the predicate is plain (`BoundExpression::is_plain`) and fits the scope
/// (`BoundExpression::fits_scope`).
///
/// `NotPredicate` if the predicate isn't of type Bool, also where there are no parts. `Rule` if a
/// rule of the user failed or proved by an expression that isn't of type Bool, `OpenProof` if a
/// proof that is about to be bound has a column outside its placeholders, which would be read in
/// the table.
pub fn scan_zones<'a>(
    alloc: Global,
    zones: &'a Zones,
    predicate: &BoundExpression,
    rules: &Rules,
) -> Result<Scan, StatsError>
    requires plain { IsTrue (is_plain predicate.now) }
    requires fits { IsTrue (fits_scope predicate.now zones.now.scope) }
    // Where the statistics are true no wanted row is lost, whichever lawful rules took part.
    ensures selected { IfOk result (λ scan. AllByRecursion IsTruePart zones.now.parts
        → scan.selected.items ≡ full predicate.now zones.now.parts) }
    // A part is skipped exactly if the falsifier is true of it, as in the scan of these parts by
    // the binders of their own statistics.
    ensures skipped { let own = ⟦<Rules as OwnRules>⟧.own rules.now in
        let values = ⟦<StatsBinder<'a> as StatBinder>⟧.value in
        let answers = answered values zones.now.parts zones.now.parts in
        let places = skipped_parts (falsifier_of own predicate.now) answers in
        IfOk result (λ scan. scan.skipped.items ≡ places) }
    // By built-in rules a predicate whose ANDs are apart skips a part exactly if no values within
    // its bounds satisfy it.
    ensures complete { IfOk result (λ scan. rules.now.own.items ≡ []
        → IsTrue (has_disjoint_ands predicate.now)
        → SkipsExactly predicate.now zones.now.parts scan.skipped.items) }
    // Which parts are skipped and whole, which rows are selected and how many tested, as in that
    // scan; and that no open proof was bound.
    ensures answered { let own = ⟦<Rules as OwnRules>⟧.own rules.now in
        let values = ⟦<StatsBinder<'a> as StatBinder>⟧.value in
        let answers = answered values zones.now.parts zones.now.parts in
        IfOk result (ScansByZones own predicate.now zones.now.parts answers) }
    // When each refusal comes.
    ensures refused { let own = ⟦<Rules as OwnRules>⟧.own rules.now in
        RefusesByZones own predicate.now zones.now.parts result }
{
    scan_rules(alloc, zones, predicate, rules)
}
