//! Placeholders for statistics, over bound expressions.
//!
//! Each has the type of the aggregate's state, with null. Where the aggregate does not support the
//! input's type, it is refused as `Unsupported`. The input is dropped where a call is refused.
ghost use Rattle.vortex_expr.specs.Trees.Tree as tree;
ghost use Rattle.vortex_expr.specs.Meanings.Typing.{type_of};
ghost use Rattle.vortex_rewrite.specs.Answers.{IfSupported, Makes};

use std::alloc::Global;
use vortex_base::aggregate::AggregateFnRef;
use vortex_base::error::BaseError;
use vortex_expr::bound::new_stat;
use vortex_expr::bound_expression::BoundExpression;
use vortex_stats::error::StatsError;

/// The placeholder for an aggregate of an input.
pub fn stat(
    alloc: Global,
    input: BoundExpression,
    aggregate: AggregateFnRef,
) -> Result<BoundExpression, StatsError>
    ensures { let s = tree.stat aggregate input in IfSupported (type_of s) (λ _. s) result }
{
    // That the input has a type.
    let _typed = input.dtype();
    match new_stat(alloc, input, aggregate) {
        Ok(placeholder) => Ok(placeholder),
        Err(BaseError::Memory(refused)) => Err(StatsError::Memory(refused)),
        Err(_) => Err(StatsError::Unsupported),
    }
}

/// The placeholder for the least and the greatest value of an input.
pub fn min_max(alloc: Global, input: BoundExpression) -> Result<BoundExpression, StatsError>
    ensures { let s = tree.stat AggregateFnRef.MinMax input in
        IfSupported (type_of s) (λ _. s) result }
{
    stat(alloc, input, AggregateFnRef::MinMax)
}

/// The placeholder for the sum of an input.
pub fn sum(alloc: Global, input: BoundExpression) -> Result<BoundExpression, StatsError>
    ensures { let s = tree.stat AggregateFnRef.Sum input in
        IfSupported (type_of s) (λ _. s) result }
{
    stat(alloc, input, AggregateFnRef::Sum)
}

/// The placeholder for the number of nulls of an input.
pub fn null_count(alloc: Global, input: BoundExpression) -> Result<BoundExpression, StatsError>
    ensures { Makes (tree.stat AggregateFnRef.NullCount input) result }
{
    // That the input has a type.
    let _typed = input.dtype();
    stat(alloc, input, AggregateFnRef::NullCount)
}

/// The placeholder for whether every value of an input is null.
pub fn all_null(alloc: Global, input: BoundExpression) -> Result<BoundExpression, StatsError>
    ensures { Makes (tree.stat AggregateFnRef.AllNull input) result }
{
    // That the input has a type.
    let _typed = input.dtype();
    stat(alloc, input, AggregateFnRef::AllNull)
}

/// The placeholder for whether no value of an input is null.
pub fn all_non_null(alloc: Global, input: BoundExpression) -> Result<BoundExpression, StatsError>
    ensures { Makes (tree.stat AggregateFnRef.AllNonNull input) result }
{
    // That the input has a type.
    let _typed = input.dtype();
    stat(alloc, input, AggregateFnRef::AllNonNull)
}
