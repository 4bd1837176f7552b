//! The constructors of typed expressions.
//!
//! Each answers `TypeFault`, or `Unsupported` for a placeholder, exactly where the typing table has
//! no type for the node, and drops what it was given where it refuses.
ghost use Rattle.vortex_expr.specs.Trees.Tree as tree;
ghost use Rattle.vortex_expr.specs.Patterns.Like.{plain};
ghost use Rattle.vortex_base.specs.Answer.{Makes};
ghost use Rattle.vortex_expr.specs.Answer.{Builds};

use crate::bound_expression::{BoundExpression, Node};
use crate::like::LikeOptions;
use crate::scalar_fn::{BetweenOptions, Operator};
use crate::typing;
use std::alloc::Global;
use vortex_base::aggregate::AggregateFnRef;
use vortex_base::dtype::DType;
use vortex_base::error::BaseError;
use vortex_base::scalar::Scalar;

/// The column at a place, of a type.
pub fn col(alloc: Global, place: usize, dtype: DType) -> Result<BoundExpression, BaseError>
    ensures { Makes (tree.column (record { index = place; dtype = dtype })) result }
{
    let node = Box::new(alloc, Node::Column(place))?;
    Ok(BoundExpression { dtype, node })
}

/// A literal.
pub fn lit(alloc: Global, value: Scalar) -> Result<BoundExpression, BaseError>
    ensures { Makes (tree.literal value) result }
{
    let dtype = value.dtype();
    let node = Box::new(alloc, Node::Literal(value))?;
    Ok(BoundExpression { dtype, node })
}

/// A comparison or a connective.
pub fn binary(
    alloc: Global,
    operator: Operator,
    left: BoundExpression,
    right: BoundExpression,
) -> Result<BoundExpression, BaseError>
    ensures { Builds (tree.binary operator left right) result }
{
    let dtype = typing::binary_type(operator, left.dtype(), right.dtype())?;
    let node = Box::new(alloc, Node::Binary(operator, left, right))?;
    Ok(BoundExpression { dtype, node })
}

/// Whether left equals right.
pub fn eq(
    alloc: Global,
    left: BoundExpression,
    right: BoundExpression,
) -> Result<BoundExpression, BaseError>
    ensures { Builds (tree.binary Operator.Eq left right) result }
{
    binary(alloc, Operator::Eq, left, right)
}

/// Whether left differs from right.
pub fn not_eq(
    alloc: Global,
    left: BoundExpression,
    right: BoundExpression,
) -> Result<BoundExpression, BaseError>
    ensures { Builds (tree.binary Operator.NotEq left right) result }
{
    binary(alloc, Operator::NotEq, left, right)
}

/// Whether left is greater than right.
pub fn gt(
    alloc: Global,
    left: BoundExpression,
    right: BoundExpression,
) -> Result<BoundExpression, BaseError>
    ensures { Builds (tree.binary Operator.Gt left right) result }
{
    binary(alloc, Operator::Gt, left, right)
}

/// Whether left is at least right.
pub fn gt_eq(
    alloc: Global,
    left: BoundExpression,
    right: BoundExpression,
) -> Result<BoundExpression, BaseError>
    ensures { Builds (tree.binary Operator.Gte left right) result }
{
    binary(alloc, Operator::Gte, left, right)
}

/// Whether left is less than right.
pub fn lt(
    alloc: Global,
    left: BoundExpression,
    right: BoundExpression,
) -> Result<BoundExpression, BaseError>
    ensures { Builds (tree.binary Operator.Lt left right) result }
{
    binary(alloc, Operator::Lt, left, right)
}

/// Whether left is at most right.
pub fn lt_eq(
    alloc: Global,
    left: BoundExpression,
    right: BoundExpression,
) -> Result<BoundExpression, BaseError>
    ensures { Builds (tree.binary Operator.Lte left right) result }
{
    binary(alloc, Operator::Lte, left, right)
}

/// The AND of two truths.
pub fn and(
    alloc: Global,
    left: BoundExpression,
    right: BoundExpression,
) -> Result<BoundExpression, BaseError>
    ensures { Builds (tree.binary Operator.And left right) result }
{
    binary(alloc, Operator::And, left, right)
}

/// The OR of two truths.
pub fn or(
    alloc: Global,
    left: BoundExpression,
    right: BoundExpression,
) -> Result<BoundExpression, BaseError>
    ensures { Builds (tree.binary Operator.Or left right) result }
{
    binary(alloc, Operator::Or, left, right)
}

/// Whether an operand lies between two ends.
pub fn between(
    alloc: Global,
    x: BoundExpression,
    lower: BoundExpression,
    upper: BoundExpression,
    options: BetweenOptions,
) -> Result<BoundExpression, BaseError>
    ensures { Builds (tree.between options x lower upper) result }
{
    let dtype = typing::between_type(x.dtype(), lower.dtype(), upper.dtype())?;
    let node = Box::new(alloc, Node::Between(options, x, lower, upper))?;
    Ok(BoundExpression { dtype, node })
}

/// Whether an operand is null.
pub fn is_null(alloc: Global, x: BoundExpression) -> Result<BoundExpression, BaseError>
    ensures { Makes (tree.is_null x) result }
{
    // That the operand has a type.
    let _typed = x.dtype();
    let node = Box::new(alloc, Node::IsNull(x))?;
    Ok(BoundExpression {
        dtype: typing::NULL_TEST,
        node,
    })
}

/// Whether an operand is not null.
pub fn is_not_null(alloc: Global, x: BoundExpression) -> Result<BoundExpression, BaseError>
    ensures { Makes (tree.is_not_null x) result }
{
    // That the operand has a type.
    let _typed = x.dtype();
    let node = Box::new(alloc, Node::IsNotNull(x))?;
    Ok(BoundExpression {
        dtype: typing::NULL_TEST,
        node,
    })
}

/// The opposite of a truth.
pub fn not(alloc: Global, x: BoundExpression) -> Result<BoundExpression, BaseError>
    ensures { Builds (tree.not x) result }
{
    let dtype = typing::not_type(x.dtype())?;
    let node = Box::new(alloc, Node::Not(x))?;
    Ok(BoundExpression { dtype, node })
}

/// Whether a text matches a pattern, case regarded.
pub fn like(
    alloc: Global,
    text: BoundExpression,
    pattern: BoundExpression,
) -> Result<BoundExpression, BaseError>
    ensures { Builds (tree.like plain text pattern) result }
{
    like_with(alloc, text, pattern, LikeOptions::default())
}

/// Whether a text matches a pattern, as the options say.
pub fn like_with(
    alloc: Global,
    text: BoundExpression,
    pattern: BoundExpression,
    options: LikeOptions,
) -> Result<BoundExpression, BaseError>
    ensures { Builds (tree.like options text pattern) result }
{
    let dtype = typing::like_type(text.dtype(), pattern.dtype())?;
    let node = Box::new(alloc, Node::Like(options, text, pattern))?;
    Ok(BoundExpression { dtype, node })
}

/// The placeholder for an aggregate of an input. `Unsupported` where the aggregate does not support
/// the input's type.
pub fn new_stat(
    alloc: Global,
    input: BoundExpression,
    aggregate: AggregateFnRef,
) -> Result<BoundExpression, BaseError>
    ensures { Builds (tree.stat aggregate input) result }
{
    let dtype = typing::stat_type(aggregate, input.dtype())?;
    let node = Box::new(alloc, Node::Stat(aggregate, input))?;
    Ok(BoundExpression { dtype, node })
}

/// The number of rows that is handed in beside a row.
pub fn row_count(alloc: Global) -> Result<BoundExpression, BaseError>
    ensures { Makes tree.row_count result }
{
    let node = Box::new(alloc, Node::RowCount)?;
    Ok(BoundExpression {
        dtype: typing::ROW_COUNT,
        node,
    })
}
