//! The answer for each zone of a table under a predicate.
ghost use Rattle.std.specs.Prelude.{◌≡◌, IfOk, IsTrue, Ok, length};
ghost use Rattle.vortex_expr.specs.Meanings.Fitting.{fits_scope};
ghost use Rattle.vortex_expr.specs.Trees.Tree.{Place, Tree, is_plain};
ghost use Rattle.vortex_capi.specs.Nesting.Halves.{halved};
ghost use Rattle.vortex_rewrite.specs.Rewriting.Predicates.{is_predicate};
ghost use Rattle.vortex_capi.specs.Prunes as spec;
ghost use Rattle.vortex_capi.specs.Refusals.{Answers, followed};
ghost use Rattle.vortex_capi.specs.Scopes.{AnswersText};

use crate::by_proofs::answers_by_proofs;
use crate::fault::{Fault, Refusal};
use crate::field::{Field, columns_given};
use crate::logical::Kinds;
use crate::named::pruning_of;
use crate::predicate::predicate_given;
use crate::statistic::Statistic;
use crate::status::Status;
use std::alloc::Global;
use vortex_base::scope::Scope;
use vortex_expr::bound_expression::BoundExpression;

// Refuses a flag that isn't known. The one that is asks for nothing more.
fn with_flags(flags: u8) -> Result<(), Refusal>
    ensures { result ≡ spec.with_flags flags }
{
    match flags {
        0 | 1 => Ok(()),
        _ => Err(Refusal::at_entry(Status::BadFlag, 0)),
    }
}

// The answers for the zones of a scope under a predicate, whose chains are joined in halves.
fn predicate_answers(
    alloc: Global,
    scope: &Scope,
    predicate: &BoundExpression,
    rows: &[u64],
    stats: &[Statistic<'_>],
) -> Result<Vec<u8>, Refusal>
    requires plain { IsTrue (is_plain predicate.now) }
    requires fits { IsTrue (fits_scope predicate.now scope.now) }
    requires predicate { IsTrue (is_predicate predicate.now) }
    ensures read { (given : Tree Place) → Answers (λ v. v.items) result (followed
        (spec.asked_of scope.now rows.now stats.now given predicate.now)
        (λ a. Ok (spec.answers_of a))) }
    ensures well { (given : Tree Place) → predicate.now ≡ halved given → IfOk result (λ v.
        IfOk (spec.asked_of scope.now rows.now stats.now given predicate.now)
        spec.IsWellAsked) }
    ensures long { IfOk result (λ v. length v.items ≡ length rows.now) }
{
    let proofs = pruning_of(alloc, predicate)?;
    answers_by_proofs(alloc, scope, &proofs, rows, stats)
}

// The answers that the arguments ask for.
fn answers_given(
    alloc: Global,
    fields: &[Field<'_>],
    rows: &[u64],
    stats: &[Statistic<'_>],
    text: &[u8],
    flags: u8,
    room: usize,
) -> Result<Vec<u8>, Refusal>
    ensures read { AnswersText (λ v. v.items) result (followed
        (spec.asked fields.now rows.now stats.now text.now flags room)
        (λ a. Ok (spec.answers_of a))) }
    ensures well { IfOk result (λ v.
        IfOk (spec.asked fields.now rows.now stats.now text.now flags room) spec.IsWellAsked) }
    ensures long { IfOk result (λ v. length v.items ≡ room) }
{
    with_flags(flags)?;
    if room != rows.len() {
        return Err(Refusal::at_entry(Status::BadLength, 0));
    }
    let columns = columns_given(alloc, Kinds::Plain, fields)?;
    let predicate = predicate_given(alloc, &columns, text)?;
    let scope = Scope::new_unchecked(columns.into_vec()).try_shared(alloc)?;
    predicate_answers(alloc, &scope, &predicate, rows, stats)
}

/// Answers for each zone of a table under a predicate, as `vortex_prune` of the header.
pub fn prune(
    alloc: Global,
    scope: &[Field<'_>],
    rows: &[u64],
    stats: &[Statistic<'_>],
    predicate: &[u8],
    flags: u8,
    answers: &mut [u8],
    fault: &mut Fault,
) -> u8
    // The answer that the statistics of each zone prove, or the arrays are as they were.
    ensures answers { let asked =
        spec.asked scope.now rows.now stats.now predicate.now flags (length answers.old) in
        spec.IsPruned asked answers.old result answers.new fault.new }
    // A place is told where the call is refused.
    ensures told { result ≡ 0 → fault.new ≡ fault.old }
    // Whatever rows a zone holds, if its statistics are true of them: of a skipped zone none
    // satisfies the predicate as it was given, and of a whole one each does.
    ensures sound { let asked =
        spec.asked scope.now rows.now stats.now predicate.now flags (length answers.old) in
        result ≡ 0 → IfOk asked (spec.IsSound answers.new) }
    // Each zone is skipped that the predicate's own falsifier by built-in rules skips, or that of
    // its normal form, and each that their satisfiers find whole is whole or skipped.
    ensures no_fewer { let asked =
        spec.asked scope.now rows.now stats.now predicate.now flags (length answers.old) in
        result ≡ 0 → IfOk asked (spec.IsNoFewer answers.new) }
    // A zone is skipped if no values within its bounds satisfy the predicate as it was given, where
    // its ANDs are apart or those of its normal form.
    ensures complete { let asked =
        spec.asked scope.now rows.now stats.now predicate.now flags (length answers.old) in
        result ≡ 0 → IfOk asked (spec.IsComplete answers.new) }
{
    match answers_given(alloc, scope, rows, stats, predicate, flags, answers.len()) {
        Ok(found) => {
            answers.copy_from_slice(&found);
            0
        }
        Err(refusal) => {
            *fault = refusal.fault;
            refusal.status.number()
        }
    }
}
