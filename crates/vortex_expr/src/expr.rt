//! Expressions over names by functions, as Vortex names them: `expr::eq(alloc, col, lit)` for
//! `Expression::eq`.
ghost use Rattle.vortex_base.specs.Made.{Makes};
ghost use Rattle.vortex_expr.specs.Patterns.Like.{plain};
ghost use Rattle.vortex_expr.specs.Trees.Tree as tree;

use crate::expression::Expression;
use crate::scalar_fn::{BetweenOptions, Operator};
use std::alloc::Global;
use vortex_base::error::BaseError;
use vortex_base::scalar::Scalar;

/// The column of a name.
pub fn col(alloc: Global, name: &str) -> Result<Expression, BaseError>
    ensures { Makes (tree.column name.now) result }
{
    Expression::col(alloc, name)
}

/// A literal.
pub fn lit(alloc: Global, value: Scalar) -> Result<Expression, BaseError>
    ensures { Makes (tree.literal value) result }
{
    Expression::lit(alloc, value)
}

/// Whether left equals right.
pub fn eq(alloc: Global, left: Expression, right: Expression) -> Result<Expression, BaseError>
    ensures { Makes (tree.binary Operator.Eq left right) result }
{
    Expression::eq(alloc, left, right)
}

/// Whether left differs from right.
pub fn not_eq(alloc: Global, left: Expression, right: Expression) -> Result<Expression, BaseError>
    ensures { Makes (tree.binary Operator.NotEq left right) result }
{
    Expression::not_eq(alloc, left, right)
}

/// Whether left is greater than right.
pub fn gt(alloc: Global, left: Expression, right: Expression) -> Result<Expression, BaseError>
    ensures { Makes (tree.binary Operator.Gt left right) result }
{
    Expression::gt(alloc, left, right)
}

/// Whether left is at least right.
pub fn gt_eq(alloc: Global, left: Expression, right: Expression) -> Result<Expression, BaseError>
    ensures { Makes (tree.binary Operator.Gte left right) result }
{
    Expression::gt_eq(alloc, left, right)
}

/// Whether left is less than right.
pub fn lt(alloc: Global, left: Expression, right: Expression) -> Result<Expression, BaseError>
    ensures { Makes (tree.binary Operator.Lt left right) result }
{
    Expression::lt(alloc, left, right)
}

/// Whether left is at most right.
pub fn lt_eq(alloc: Global, left: Expression, right: Expression) -> Result<Expression, BaseError>
    ensures { Makes (tree.binary Operator.Lte left right) result }
{
    Expression::lt_eq(alloc, left, right)
}

/// The AND of two truths.
pub fn and(alloc: Global, left: Expression, right: Expression) -> Result<Expression, BaseError>
    ensures { Makes (tree.binary Operator.And left right) result }
{
    Expression::and(alloc, left, right)
}

/// The OR of two truths.
pub fn or(alloc: Global, left: Expression, right: Expression) -> Result<Expression, BaseError>
    ensures { Makes (tree.binary Operator.Or left right) result }
{
    Expression::or(alloc, left, right)
}

/// Whether an operand lies between two ends.
pub fn between(
    alloc: Global,
    x: Expression,
    lower: Expression,
    upper: Expression,
    options: BetweenOptions,
) -> Result<Expression, BaseError>
    ensures { Makes (tree.between options x lower upper) result }
{
    Expression::between(alloc, x, lower, upper, options)
}

/// Whether an operand is null.
pub fn is_null(alloc: Global, x: Expression) -> Result<Expression, BaseError>
    ensures { Makes (tree.is_null x) result }
{
    Expression::is_null(alloc, x)
}

/// Whether an operand is not null.
pub fn is_not_null(alloc: Global, x: Expression) -> Result<Expression, BaseError>
    ensures { Makes (tree.is_not_null x) result }
{
    Expression::is_not_null(alloc, x)
}

/// The opposite of a truth.
pub fn not(alloc: Global, x: Expression) -> Result<Expression, BaseError>
    ensures { Makes (tree.not x) result }
{
    Expression::not(alloc, x)
}

/// Whether a text matches a pattern, case regarded.
pub fn like(alloc: Global, text: Expression, pattern: Expression) -> Result<Expression, BaseError>
    ensures { Makes (tree.like plain text pattern) result }
{
    Expression::like(alloc, text, pattern)
}
