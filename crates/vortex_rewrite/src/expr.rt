//! Placeholders for statistics, over expressions that are not bound yet.
//!
//! Each is refused for memory alone, and drops its input then.
ghost use Rattle.vortex_expr.specs.Trees.Tree as tree;
ghost use Rattle.vortex_rewrite.specs.Answers.{Makes};

pub mod bound;
pub mod proofs;

use crate::built::expect_memory_only;
use std::alloc::Global;
use vortex_base::aggregate::AggregateFnRef;
use vortex_expr::expression::Expression;
use vortex_stats::error::StatsError;

/// The placeholder for an aggregate of an input.
pub fn stat(
    alloc: Global,
    input: Expression,
    aggregate: AggregateFnRef,
) -> Result<Expression, StatsError>
    ensures { Makes (tree.stat aggregate input) result }
{
    expect_memory_only(Expression::new_stat(alloc, input, aggregate))
}

/// The placeholder for the least and the greatest value of an input.
pub fn min_max(alloc: Global, input: Expression) -> Result<Expression, StatsError>
    ensures { Makes (tree.stat AggregateFnRef.MinMax input) result }
{
    stat(alloc, input, AggregateFnRef::MinMax)
}

/// The placeholder for the sum of an input.
pub fn sum(alloc: Global, input: Expression) -> Result<Expression, StatsError>
    ensures { Makes (tree.stat AggregateFnRef.Sum input) result }
{
    stat(alloc, input, AggregateFnRef::Sum)
}

/// The placeholder for the number of nulls of an input.
pub fn null_count(alloc: Global, input: Expression) -> Result<Expression, StatsError>
    ensures { Makes (tree.stat AggregateFnRef.NullCount input) result }
{
    stat(alloc, input, AggregateFnRef::NullCount)
}

/// The placeholder for whether every value of an input is null.
pub fn all_null(alloc: Global, input: Expression) -> Result<Expression, StatsError>
    ensures { Makes (tree.stat AggregateFnRef.AllNull input) result }
{
    stat(alloc, input, AggregateFnRef::AllNull)
}

/// The placeholder for whether no value of an input is null.
pub fn all_non_null(alloc: Global, input: Expression) -> Result<Expression, StatsError>
    ensures { Makes (tree.stat AggregateFnRef.AllNonNull input) result }
{
    stat(alloc, input, AggregateFnRef::AllNonNull)
}
