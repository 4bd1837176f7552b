//! Fates of parts by their binders: the proofs are bound to what these answer, and evaluated.
ghost use Rattle.std.specs.Prelude.{◌≡◌, false, true, IfOk, IfErr, IsTrue, Some, alloc_error, option_copied};
ghost use Rattle.vortex_base.specs.Data.Columns.{row_count};
ghost use Rattle.vortex_expr.specs.Meanings.Fitting.{fits_row};
ghost use Rattle.vortex_expr.specs.Meanings.Meaning.{is_true as value_is_true, meaning};
ghost use Rattle.vortex_expr.specs.Trees.Tree.{has_placeholder};
ghost use Rattle.vortex_rewrite.specs.Rewriting.Proof.{proves};
ghost use Rattle.vortex_prune.specs.Scanning.PartScans.{UnlessSkipped};
ghost use Rattle.vortex_prune.specs.Scanning.Selection.{IsFaithfulFor, answers_for};
ghost use Rattle.vortex_prune.specs.Scanning.Selection.{is_proved as is_proved_of, verdict as verdict_of};
ghost use Rattle.vortex_prune.specs.Binding.BoundTo.{IsBoundTo};
ghost use Rattle.vortex_rewrite.specs.Causes.{IsRefusal, either_causes};
ghost use Rattle.vortex_prune.specs.Scanning.ScanRefusals.{IsClosed, if_faithful, proof_causes};
ghost use Rattle.vortex_prune.specs.Scanning.ScanRefusals.{verdict_causes};
ghost use Rattle.vortex_stats.specs.declared.error.StatsError.TheVariants.{Memory};

use crate::bind::bind_stats_of;
use crate::bind::stat_binder::StatBinder;
use crate::part::Part;
use crate::scan::verdict::Verdict;
use std::alloc::Global;
use vortex_base::row::Row;
use vortex_base::scalar_value::ScalarValue;
use vortex_expr::bound_expression::BoundExpression;
use vortex_expr::evaluate::evaluate;
use vortex_rewrite::built::expect_memory_only;
use vortex_stats::error::StatsError;

// Whether a value is true. False, null and a value of another kind aren't.
fn is_true(value: &Option<ScalarValue>) -> bool
    ensures { result ≡ value_is_true value.now }
{
    matches!(value, Some(ScalarValue::Bool(true)))
}

// Whether what a proof was bound to is true on a row of statistics.
fn is_true_on(bound: &BoundExpression, row: &Row<'_>, rows: u64) -> Result<bool, StatsError>
    requires free { has_placeholder bound.now ≡ false }
    requires fits { IsTrue (fits_row bound.now row.now) }
    ensures value { IfOk result (λ b. b ≡ value_is_true (meaning bound.now row.now rows)) }
    ensures memory { IfErr result (λ f. f ≡ Memory alloc_error) }
{
    let value = expect_memory_only(evaluate(bound, row, rows))?;
    Ok(is_true(&value))
}

// Whether a proof is true of a part. `OpenProof` if what is bound still holds a placeholder or a
// column.
pub(crate) fn is_proved<B: StatBinder>(
    alloc: Global,
    proof: &BoundExpression,
    part: &Part,
    binder: &B,
) -> Result<bool, StatsError>
    ensures value { let answers = answers_for (B.value binder.now) part.now in
        IfOk result (λ b. IsFaithfulFor (B.is_faithful_over binder.now) part.now
        → b ≡ proves proof.now answers (row_count part.now.chunk.columns)) }
    ensures closed { IfOk result (λ _.
        IsBoundTo (B.answer binder.now) (B.is_missing binder.now) proof.now true) }
    ensures refusal { IfErr result (IsRefusal (proof_causes (B.answer binder.now)
        (B.is_missing binder.now) (B.can_fault binder.now) (Some proof.now))) }
    ensures faithful { let causes = proof_causes (B.answer binder.now)
        (B.is_missing binder.now) (B.can_fault binder.now) (Some proof.now) in
        IfErr result (λ f. IsFaithfulFor (B.is_faithful_over binder.now) part.now
        → IsRefusal (if_faithful (Some proof.now) causes) f) }
{
    let bound = bind_stats_of(alloc, proof, binder)?;
    if !bound.is_closed() {
        return Err(StatsError::OpenProof);
    }
    let rows = part.chunk().rows() as u64;
    is_true_on(&bound, &Row::empty(), rows)
}

// Whether a proof, if there is one, is true of a part.
fn is_proved_by<B: StatBinder>(
    alloc: Global,
    proof: Option<&BoundExpression>,
    part: &Part,
    binder: &B,
) -> Result<bool, StatsError>
    ensures value { let answers = answers_for (B.value binder.now) part.now in
        IfOk result (λ b. IsFaithfulFor (B.is_faithful_over binder.now) part.now
        → b ≡ is_proved_of (option_copied proof.entry) part.now answers) }
    ensures closed { IfOk result (λ _. IsClosed (B.answer binder.now) (B.is_missing binder.now)
        (option_copied proof.entry)) }
    ensures refusal { IfErr result (IsRefusal (proof_causes (B.answer binder.now)
        (B.is_missing binder.now) (B.can_fault binder.now) (option_copied proof.entry))) }
    ensures faithful { let causes = proof_causes (B.answer binder.now)
        (B.is_missing binder.now) (B.can_fault binder.now) (option_copied proof.entry) in
        IfErr result (λ f. IsFaithfulFor (B.is_faithful_over binder.now) part.now
        → IsRefusal (if_faithful (option_copied proof.entry) causes) f) }
{
    match proof {
        None => Ok(false),
        Some(proof) => is_proved(alloc, proof, part, binder),
    }
}

// The fate of a part: its binder is asked for the falsifier, and, if that isn't true of the
// part, for the satisfier.
pub(crate) fn verdict<B: StatBinder>(
    alloc: Global,
    falsifier: Option<&BoundExpression>,
    satisfier: Option<&BoundExpression>,
    part: &Part,
    binder: &B,
) -> Result<Verdict, StatsError>
    ensures value { let answers = answers_for (B.value binder.now) part.now in
        IfOk result (λ v. IsFaithfulFor (B.is_faithful_over binder.now) part.now
        → v ≡ verdict_of (option_copied falsifier.entry) (option_copied satisfier.entry)
        part.now answers) }
    ensures closed { IfOk result (λ _. IsClosed (B.answer binder.now) (B.is_missing binder.now)
        (option_copied falsifier.entry)) }
    ensures kept_closed { IfOk result (λ v. UnlessSkipped v (IsClosed (B.answer binder.now)
        (B.is_missing binder.now) (option_copied satisfier.entry))) }
    ensures refusal { let causes = proof_causes (B.answer binder.now)
        (B.is_missing binder.now) (B.can_fault binder.now) in
        IfErr result (IsRefusal (either_causes (causes (option_copied falsifier.entry))
        (causes (option_copied satisfier.entry)))) }
    ensures faithful { let causes = verdict_causes (B.answer binder.now) (B.is_missing binder.now)
        (B.can_fault binder.now) (option_copied falsifier.entry) (option_copied satisfier.entry) in
        IfErr result (λ f. IsFaithfulFor (B.is_faithful_over binder.now) part.now
        → IsRefusal (causes part.now (answers_for (B.value binder.now) part.now)) f) }
{
    if is_proved_by(alloc, falsifier, part, binder)? {
        return Ok(Verdict::Skipped);
    }
    if is_proved_by(alloc, satisfier, part, binder)? {
        return Ok(Verdict::Whole);
    }
    Ok(Verdict::Tested)
}
