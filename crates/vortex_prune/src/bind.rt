//! Binding: each placeholder of an expression is replaced by what a binder answers to it.
ghost use Rattle.std.specs.Prelude.{◌≡◌, false, Ok, Err, IfOk, IfErr, IsTrue, MatchResult};
ghost use Rattle.vortex_expr.specs.Meanings.Fitting.{fits_row};
ghost use Rattle.vortex_expr.specs.Meanings.Meaning.{meaning};
ghost use Rattle.vortex_expr.specs.Trees.Tree.{stat, has_bare_column, has_placeholder};
ghost use Rattle.vortex_expr.specs.Meanings.Typing.{type_of};
ghost use Rattle.vortex_prune.specs.Binding.BoundTo as spec;
ghost use Rattle.vortex_prune.specs.Binding.BoundTo.{IsBinding, IsReplacement, Replaces, HasNoColumnOn, WhereFaithful, binding_causes, hook_causes};
ghost use Rattle.vortex_rewrite.specs.Causes.{IsRefusal};
ghost use Rattle.vortex_rewrite.specs.Rewriting.Proof.{value_under};
ghost use Rattle.vortex_stats.specs.declared.error.StatsError.TheVariants as fault;
ghost use Rattle.vortex_stats.specs.declared.error.BinderFault.TheVariants as binder_fault;

pub mod stat_binder;
pub mod stats_binder;
pub mod zone_binder;

use crate::bind::stat_binder::StatBinder;
use std::alloc::Global;
use vortex_base::aggregate::AggregateFnRef;
use vortex_base::dtype::DType;
use vortex_expr::bound;
use vortex_expr::bound_expression::BoundExpression;
use vortex_expr::bound_expression::parts::Parts;
use vortex_rewrite::built::expect_memory_only;
use vortex_rewrite::hook_fault::HookFault;
use vortex_stats::error::{BinderFault, StatsError};

// The answer of a binder, with its fault as binding tells it.
fn told<T>(answer: Result<T, HookFault>) -> Result<T, StatsError>
    ensures { MatchResult answer (λ v. result ≡ Ok v) (λ f. result ≡ Err (spec.binder_error f)) }
{
    match answer {
        Ok(value) => Ok(value),
        Err(HookFault::Memory(refused)) => Err(StatsError::Memory(refused)),
        Err(HookFault::Own(number)) => Err(StatsError::Binder(BinderFault::Own(number))),
    }
}

// The binder's answer to a placeholder of this type, or what stands for a missing one.
fn answered<B: StatBinder>(
    alloc: Global,
    input: &BoundExpression,
    aggregate: AggregateFnRef,
    dtype: DType,
    binder: &B,
) -> Result<BoundExpression, StatsError>
    ensures answer { IfOk result (IsReplacement (B.answer binder.now aggregate input.now dtype)
        (B.is_missing binder.now dtype)) }
    ensures refusal { IfErr result (IsRefusal (hook_causes (B.can_fault binder.now))) }
{
    match told(binder.bind_aggregate(alloc, input, &aggregate, &dtype))? {
        Some(answer) => Ok(answer),
        None => told(binder.missing_stat(alloc, dtype)),
    }
}

// The stand-in for a placeholder of this type, if it is of the type, nullability aside.
fn replaced<B: StatBinder>(
    alloc: Global,
    input: &BoundExpression,
    aggregate: AggregateFnRef,
    dtype: DType,
    binder: &B,
) -> Result<BoundExpression, StatsError>
    requires { type_of (stat aggregate input.now) ≡ Ok dtype }
    ensures replaces { IfOk result (Replaces (B.answer binder.now) (B.is_missing binder.now)
        aggregate input.now) }
    ensures typed { IfOk result (λ r.
        spec.base_type r ≡ spec.base_type (stat aggregate input.now)) }
    ensures refusal { IfErr result (IsRefusal (binding_causes (B.answer binder.now)
        (B.is_missing binder.now) (B.can_fault binder.now) (stat aggregate input.now))) }
{
    let answer = answered(alloc, input, aggregate, dtype, binder)?;
    if answer.dtype().eq_ignore_nullability(&dtype) {
        Ok(answer)
    } else {
        Err(StatsError::Binder(BinderFault::WrongType))
    }
}

// The expression with its placeholders replaced.
fn bound_stats<B: StatBinder>(
    alloc: Global,
    e: &BoundExpression,
    binder: &B,
) -> Result<BoundExpression, StatsError>
    ensures bound { IfOk result
        (IsBinding (Replaces (B.answer binder.now) (B.is_missing binder.now)) e.now) }
    ensures typed { IfOk result (λ r. spec.base_type r ≡ spec.base_type e.now) }
    ensures refusal { IfErr result (IsRefusal (binding_causes (B.answer binder.now)
        (B.is_missing binder.now) (B.can_fault binder.now) e.now)) }
{
    let dtype = e.dtype();
    match e.parts() {
        Parts::Column(place, _) => expect_memory_only(bound::col(alloc, place, dtype)),
        Parts::Literal(value) => expect_memory_only(bound::lit(
            alloc,
            expect_memory_only(value.try_clone())?,
        )),
        Parts::Binary(operator, left, right) => {
            let left = bound_stats(alloc, left, binder)?;
            let right = bound_stats(alloc, right, binder)?;
            expect_memory_only(bound::binary(alloc, operator, left, right))
        }
        Parts::Between(options, x, lower, upper) => {
            let x = bound_stats(alloc, x, binder)?;
            let lower = bound_stats(alloc, lower, binder)?;
            let upper = bound_stats(alloc, upper, binder)?;
            expect_memory_only(bound::between(alloc, x, lower, upper, options))
        }
        Parts::IsNull(x) => expect_memory_only(bound::is_null(
            alloc,
            bound_stats(alloc, x, binder)?,
        )),
        Parts::IsNotNull(x) => expect_memory_only(bound::is_not_null(
            alloc,
            bound_stats(alloc, x, binder)?,
        )),
        Parts::Not(x) => expect_memory_only(bound::not(alloc, bound_stats(alloc, x, binder)?)),
        Parts::Like(options, text, pattern) => {
            let text = bound_stats(alloc, text, binder)?;
            let pattern = bound_stats(alloc, pattern, binder)?;
            expect_memory_only(bound::like_with(alloc, text, pattern, options))
        }
        Parts::Stat(aggregate, input) => replaced(alloc, input, aggregate, dtype, binder),
        Parts::RowCount => expect_memory_only(bound::row_count(alloc)),
    }
}

// The answer of `bind_stats`, for an expression that is kept.
pub(crate) fn bind_stats_of<B: StatBinder>(
    alloc: Global,
    e: &BoundExpression,
    binder: &B,
) -> Result<BoundExpression, StatsError>
    ensures bound { IfOk result
        (IsBinding (Replaces (B.answer binder.now) (B.is_missing binder.now)) e.now) }
    ensures typed { IfOk result (λ r. spec.base_type r ≡ spec.base_type e.now) }
    ensures free { IfOk result (λ r. WhereFaithful (B.is_faithful_over binder.now)
        (λ row n. has_placeholder r ≡ false)) }
    ensures fits { IfOk result (λ r. WhereFaithful (B.is_faithful_over binder.now)
        (λ row n. has_bare_column e.now ≡ false → IsTrue (fits_row r row))) }
    ensures value { IfOk result (λ r. WhereFaithful (B.is_faithful_over binder.now)
        (λ row n. HasNoColumnOn e.now row
        → meaning r row n ≡ value_under (B.value binder.now row n) n e.now)) }
    ensures refusal { IfErr result (IsRefusal (binding_causes (B.answer binder.now)
        (B.is_missing binder.now) (B.can_fault binder.now) e.now)) }
    ensures right_types { WhereFaithful (B.is_faithful_over binder.now)
        (λ row n. IfErr result (λ f. ¬ (f ≡ fault.Binder binder_fault.WrongType))) }
{
    // That the expression has a type.
    let _typed = e.dtype();
    bound_stats(alloc, e, binder)
}

/// The expression with each placeholder replaced by the binder's answer, or, where that is `None`,
/// by what stands for a missing one. Placeholders are met from the top and from the left; one
/// inside the input of another is not met, nor is one in an answer. Everything else is kept, and
/// nothing is reduced.
///
/// `Binder` if the binder faults, or what it answers has not the placeholder's type, nullability
/// aside.
pub fn bind_stats<B: StatBinder>(
    alloc: Global,
    e: BoundExpression,
    binder: &B,
) -> Result<BoundExpression, StatsError>
    ensures bound { IfOk result
        (IsBinding (Replaces (B.answer binder.now) (B.is_missing binder.now)) e) }
    ensures typed { IfOk result (λ r. spec.base_type r ≡ spec.base_type e) }
    ensures free { IfOk result (λ r. WhereFaithful (B.is_faithful_over binder.now)
        (λ row n. has_placeholder r ≡ false)) }
    ensures fits { IfOk result (λ r. WhereFaithful (B.is_faithful_over binder.now)
        (λ row n. has_bare_column e ≡ false → IsTrue (fits_row r row))) }
    ensures value { IfOk result (λ r. WhereFaithful (B.is_faithful_over binder.now)
        (λ row n. HasNoColumnOn e row
        → meaning r row n ≡ value_under (B.value binder.now row n) n e)) }
    ensures refusal { IfErr result (IsRefusal (binding_causes (B.answer binder.now)
        (B.is_missing binder.now) (B.can_fault binder.now) e)) }
    ensures right_types { WhereFaithful (B.is_faithful_over binder.now)
        (λ row n. IfErr result (λ f. ¬ (f ≡ fault.Binder binder_fault.WrongType))) }
{
    bind_stats_of(alloc, &e, binder)
}
