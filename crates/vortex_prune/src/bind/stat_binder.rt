//! Who tells what stands for the placeholders of a proof.
ghost use Rattle.std.specs.Prelude.{◌≡◌, ℕ, Bool, List, Option, IsTrue, MatchResult};
ghost use Rattle.vortex_base.specs.declared.dtype.DType.{DType};
ghost use Rattle.vortex_base.specs.Data.Scalars.{Constant, null_of};
ghost use Rattle.vortex_expr.specs.Trees.Tree.{Tree, Place, literal};
ghost use Rattle.vortex_base.specs.Data.Types.{as_nullable};
ghost use Rattle.vortex_prune.specs.Binding.Binders.{BinderAnswer, IsFaithful};
ghost use Rattle.vortex_rewrite.specs.HookFaults.{IsHookFault};
ghost use Rattle.vortex_rewrite.specs.Rewriting.Proof.{Assignment};

use std::alloc::Global;
use vortex_base::aggregate::AggregateFnRef;
use vortex_base::dtype::DType;
use vortex_base::scalar::Scalar;
use vortex_expr::bound;
use vortex_expr::bound_expression::BoundExpression;
use vortex_rewrite::hook_fault::HookFault;

/// Binds placeholders to what a store of statistics has for them: columns of a table of statistics,
/// or literals.
///
/// A binder names its answers, what may stand for a missing one, the numbers of its own faults, and
/// a value for each placeholder over a row of statistics and a row count. Where it says that it is
/// faithful, its answers have those values; it may be faithful nowhere.
pub trait StatBinder {
    // What it answers to the placeholder of an aggregate of an input, the type being given.
    ghost answer: { Self → BinderAnswer };
    // What may stand for a placeholder of a type of which it knows nothing.
    ghost is_missing: { Self → DType → Tree Place → Type 0 };
    // A proof that null may, so that `missing_stat` needn't be written.
    ghost allows_null: { (s : Self) (t : DType)
        → is_missing s t (literal (null_of (as_nullable t))) };
    // The numbers of the faults of its own that it may answer.
    ghost can_fault: { Self → ℕ → Bool };
    // The values that its answers have over a row of statistics, with a row count.
    ghost value: { Self → (row : List Constant) → (n : ℕ) → Assignment };
    // Over which rows of statistics, with which row counts, it is faithful.
    ghost is_faithful_over: { Self → (row : List Constant) → (n : ℕ) → Bool };
    // A proof that there its answers have the types asked for and those values.
    ghost is_faithful: { (s : Self) (row : List Constant) (n : ℕ)
        → IsTrue (is_faithful_over s row n)
        → IsFaithful (answer s) (is_missing s) (value s row n) row n };

    /// The stand-in for the placeholder of an aggregate of an input, whose type is given, or `None`
    /// where nothing is known of it.
    fn bind_aggregate(
        &self,
        alloc: Global,
        input: &BoundExpression,
        aggregate: &AggregateFnRef,
        stat_dtype: &DType,
    ) -> Result<Option<BoundExpression>, HookFault>
        ensures { MatchResult result
            (λ o. o ≡ answer self.now aggregate.now input.now stat_dtype.now)
            (IsHookFault (can_fault self.now)) };

    /// The stand-in for a placeholder of this type of which nothing is known: null.
    fn missing_stat(&self, alloc: Global, dtype: DType) -> Result<BoundExpression, HookFault>
        ensures { MatchResult result (is_missing self.now dtype)
            (IsHookFault (can_fault self.now)) }
    {
        Ok(bound::lit(alloc, Scalar::null(dtype.as_nullable()))?)
    }
}
