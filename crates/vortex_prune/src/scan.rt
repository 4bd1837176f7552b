//! Scans: which rows of which parts a predicate selects, and which parts it needn't look at.
ghost use Rattle.std.specs.Prelude.{◌≡◌, [], All, Option, IfErr, IfOk, IsTrue};
ghost use Rattle.std.specs.Prelude.{length, option_copied};
ghost use Rattle.vortex_expr.specs.Meanings.Fitting.{fits_scope};
ghost use Rattle.vortex_expr.specs.Trees.Tree.{Place, Tree, is_plain};
ghost use Rattle.vortex_prune.specs.Scanning.Promises.{RefusesByBinders, ScansByBinders};
ghost use Rattle.vortex_prune.specs.Scanning.Selection.{AreByStatistics, AreFaithful, AreHonest};
ghost use Rattle.vortex_prune.specs.Scanning.Selection.{answered, full, skipped_parts};
ghost use Rattle.vortex_rewrite.specs.Causes.{Causes, IsRefusal, either_causes};
ghost use Rattle.vortex_prune.specs.Scanning.ScanRefusals.{asking_causes, binder_causes};
ghost use Rattle.vortex_prune.specs.Scanning.ScanRefusals.{kept_binders};
ghost use Rattle.vortex_rewrite.specs.Rewriting.ReadOnce.{has_disjoint_ands};
ghost use Rattle.vortex_prune.specs.Scanning.Complete.{SkipsExactly};
ghost use Rattle.vortex_rewrite.specs.Rewriting.Falsifiers.{falsifier as falsifier_of};
ghost use Rattle.vortex_rewrite.specs.Rewriting.Falsifiers.{satisfier as satisfier_of};

mod by_binders;
mod columns;
mod comparison;
mod gaps;
mod leaf;
mod like;
pub(crate) mod marks;
pub mod outcome;
mod part_scan;
mod pattern;
pub mod prune;
pub mod ranges;
mod search;
mod select;
pub mod selected_rows;
mod sides;
mod strings;
pub mod verdict;
mod within;
pub mod zones;

use crate::bind::stat_binder::StatBinder;
use crate::part::Part;
use crate::scan::by_binders::verdict;
use crate::scan::outcome::Scan;
use crate::scan::part_scan::{PartTest, scan_parts};
use crate::scan::verdict::Verdict;
use std::alloc::Global;
use vortex_expr::bound_expression::BoundExpression;
use vortex_rewrite::rewrite::rules::{OwnRules, Rules};
use vortex_rewrite::rewrite::{falsify, satisfy};
use vortex_stats::error::StatsError;

// The fate of a part by two proofs, as the part's binder binds them.
#[derive(Drop)]
struct ByBinders<'a, B: StatBinder> {
    falsifier: Option<&'a BoundExpression>,
    satisfier: Option<&'a BoundExpression>,
    binders: &'a [B],
}

impl<'a, B: StatBinder> PartTest for ByBinders<'a, B> {
    ghost use Rattle.std.specs.Prelude.{◌<◌, length, option_copied};
    ghost use Rattle.vortex_prune.specs.Scanning.PartScans.{binder_refuses, binder_tells};

    ghost able = { λ s i. i < length s.binders.now };

    ghost tells = { λ s. binder_tells B.answer B.is_missing B.is_faithful_over
        (option_copied s.falsifier) (option_copied s.satisfier) s.binders.now B.value };

    ghost refuses = { λ s. binder_refuses B.answer B.is_missing B.is_faithful_over
        (option_copied s.falsifier) (option_copied s.satisfier) s.binders.now B.value B.can_fault };

    fn verdict(&mut self, alloc: Global, place: usize, part: &Part) -> Result<Verdict, StatsError> {
        verdict(
            alloc,
            self.falsifier,
            self.satisfier,
            part,
            &self.binders[place],
        )
    }
}

// The scan by a falsifier and a satisfier, where there is one.
fn scan_by<B: StatBinder>(
    alloc: Global,
    parts: &[Part],
    binders: &[B],
    predicate: &BoundExpression,
    falsifier: Option<&BoundExpression>,
    satisfier: Option<&BoundExpression>,
) -> Result<Scan, StatsError>
    requires binders { length binders.now ≡ length parts.now }
    requires plain { IsTrue (is_plain predicate.now) }
    requires fits { All (λ part. IsTrue (fits_scope predicate.now part.chunk.scope)) parts.now }
    ensures answered { let f = option_copied falsifier.entry in
        let s = option_copied satisfier.entry in
        IfOk result (ScansByBinders B.StatBinder f s predicate.now parts.now binders.now) }
    ensures refusal { let causes : Option (Tree Place) → Causes = λ proof.
        binder_causes B.answer B.is_missing B.can_fault proof binders.now in
        IfErr result (IsRefusal (either_causes (causes (option_copied falsifier.entry))
        (causes (option_copied satisfier.entry)))) }
    ensures faithful { let causes = asking_causes B.answer B.is_missing B.can_fault in
        let f = option_copied falsifier.entry in
        IfErr result (λ e. AreFaithful B.is_faithful_over parts.now binders.now
        → IsRefusal (either_causes (causes f binders.now) (causes (option_copied satisfier.entry)
        (kept_binders B.value f parts.now binders.now))) e) }
{
    let mut test = ByBinders {
        falsifier,
        satisfier,
        binders,
    };
    scan_parts(alloc, parts, predicate, &mut test)
}

/// Selects the rows of the parts that satisfy a predicate. A part whose falsifier is true by what
/// its binder answers is skipped, left out unread. Of another part whose satisfier is true all rows
/// are selected and none is tested. The predicate is rewritten once into both proofs; then each
/// part's binder is asked, in order: for the falsifier, and if that isn't true for the satisfier.
/// Where there is neither proof no binder is asked.
///
/// The caller knows that there is one binder a part, that the predicate is plain
/// (`BoundExpression::is_plain`) and fits the scope of each part (`BoundExpression::fits_scope`).
///
/// `NotPredicate` if the predicate isn't of type Bool, also where there are no parts. `Rule` if a
/// rule of the user failed or proved by an expression that isn't of type Bool, `Binder` if a binder
/// failed or answered by another type than its placeholder's, `OpenProof` if a bound proof still
/// holds a placeholder or a column.
pub fn scan<B: StatBinder>(
    alloc: Global,
    parts: &[Part],
    binders: &[B],
    predicate: &BoundExpression,
    rules: &Rules,
) -> Result<Scan, StatsError>
    requires binders { length binders.now ≡ length parts.now }
    requires plain { IsTrue (is_plain predicate.now) }
    requires fits { All (λ part. IsTrue (fits_scope predicate.now part.chunk.scope)) parts.now }
    // With honest binders no wanted row is lost, whichever lawful rules took part.
    ensures selected { IfOk result (λ scan. AreFaithful B.is_faithful_over parts.now binders.now
        → AreHonest B.value parts.now binders.now
        → scan.selected.items ≡ full predicate.now parts.now) }
    // With faithful binders a part is skipped exactly if the falsifier is true of it.
    ensures skipped { let own = ⟦<Rules as OwnRules>⟧.own rules.now in
        IfOk result (λ scan. AreFaithful B.is_faithful_over parts.now binders.now
        → scan.skipped.items ≡ skipped_parts (falsifier_of own predicate.now)
        (answered B.value parts.now binders.now)) }
    // By built-in rules and the parts' own statistics, a predicate whose ANDs are apart skips a
    // part exactly if no values within its bounds satisfy it.
    ensures complete { IfOk result (λ scan. rules.now.own.items ≡ []
        → AreFaithful B.is_faithful_over parts.now binders.now
        → AreByStatistics B.value parts.now binders.now
        → IsTrue (has_disjoint_ands predicate.now)
        → SkipsExactly predicate.now parts.now scan.skipped.items) }
    // Which parts are skipped and whole, which rows are selected and how many tested, where the
    // binders are faithful; and what each binder has bound.
    ensures answered { let own = ⟦<Rules as OwnRules>⟧.own rules.now in
        let f = falsifier_of own predicate.now in
        let s = satisfier_of own predicate.now in
        IfOk result (ScansByBinders B.StatBinder f s predicate.now parts.now binders.now) }
    // When each refusal comes.
    ensures refused { let own = ⟦<Rules as OwnRules>⟧.own rules.now in
        RefusesByBinders B.StatBinder own predicate.now parts.now binders.now result }
{
    let falsifier = falsify(alloc, predicate, rules)?;
    let satisfier = satisfy(alloc, predicate, rules)?;
    scan_by(
        alloc,
        parts,
        binders,
        predicate,
        falsifier.as_ref(),
        satisfier.as_ref(),
    )
}
