//! Binders of a user for the tests, by what they answer wherever they are asked.
ghost use Rattle.std.specs.Prelude.{◌≡◌, ◌==◌, ⊤, MatchResult, None, Some, false};
ghost use Rattle.std.proofs.Common.{sym};
ghost use mathlib.Core.Bool.{true≢false};
ghost use Rattle.vortex_expr.specs.Trees.Tree.{stat as placeholder};
ghost use Rattle.vortex_rewrite.specs.HookFaults.{IsHookFault};
ghost use Rattle.vortex_testing.specs.Binders.{answered};

use crate::hooks::truth_answer;
use std::alloc::{AllocError, Global};
use vortex_base::{AggregateFnRef, BaseError, DType, Nullability, PType, Scalar, ScalarValue};
use vortex_expr::{BoundExpression, bound};
use vortex_prune::{HookFault, StatBinder};

const U64: DType = DType::Primitive(PType::U64, Nullability::NonNullable);

/// A binder's answer to each placeholder.
#[derive(Clone, Copy)]
pub enum Answerer {
    /// The placeholder.
    Itself,
    /// The placeholder of the least value.
    Least,
    /// The expression that the placeholder is over.
    Input,
    /// A truth.
    Truth,
    /// Nothing, for which the null of a count stands in.
    Quiet,
    /// Nothing, for which the count 0 stands in.
    Zero,
    /// Its fault.
    Faulty,
    /// A refusal of memory.
    Forgetful,
}

// A placeholder of an input. What refuses it, but memory, is told as the binder's fault.
fn placed(
    alloc: Global,
    input: &BoundExpression,
    aggregate: AggregateFnRef,
) -> Result<Option<BoundExpression>, HookFault>
    ensures { MatchResult result (λ o. o ≡ Some (placeholder aggregate input.now))
        (IsHookFault (λ k. k == 7)) }
{
    match bound::new_stat(alloc, input.try_clone()?, aggregate) {
        Ok(made) => Ok(Some(made)),
        Err(BaseError::Memory(refused)) => Err(HookFault::Memory(refused)),
        Err(_) => Err(HookFault::Own(7)),
    }
}

impl StatBinder for Answerer {
    ghost answer = { λ b f x t. answered b f x };

    ghost is_missing = { λ b t r. ⊤ };

    ghost allows_null = { λ b t. tt };

    ghost can_fault = { λ b k. k == 7 };

    ghost value = { λ b row n f x. None };

    ghost is_faithful_over = { λ b row n. false };

    ghost is_faithful = { λ b row n h. absurd (true≢false (sym h)) };

    fn bind_aggregate(
        &self,
        alloc: Global,
        input: &BoundExpression,
        aggregate: &AggregateFnRef,
        _stat_dtype: &DType,
    ) -> Result<Option<BoundExpression>, HookFault> {
        match self {
            Answerer::Itself => placed(alloc, input, *aggregate),
            Answerer::Least => placed(alloc, input, AggregateFnRef::Min),
            Answerer::Input => Ok(Some(input.try_clone()?)),
            Answerer::Truth => truth_answer(alloc, true),
            Answerer::Quiet | Answerer::Zero => Ok(None),
            Answerer::Faulty => Err(HookFault::Own(7)),
            Answerer::Forgetful => Err(HookFault::Memory(AllocError)),
        }
    }

    fn missing_stat(&self, alloc: Global, _dtype: DType) -> Result<BoundExpression, HookFault> {
        match self {
            Answerer::Zero => {
                let zero = Scalar::try_new(U64, Some(ScalarValue::from(0u64)))?;
                Ok(bound::lit(alloc, zero)?)
            }
            _ => Ok(bound::lit(alloc, Scalar::null(U64.as_nullable()))?),
        }
    }
}
