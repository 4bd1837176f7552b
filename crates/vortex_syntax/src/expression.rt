//! Expressions in prefix form.
ghost use Rattle.std.specs.Prelude.{◌<◌, ◌≤◌, ℕ, IfOk, IsErrOf, IsTrue, length};
ghost use Rattle.vortex_base.specs.Data.Scopes.{named_columns};
ghost use Rattle.vortex_expr.specs.Trees.Tree as tree;
ghost use Rattle.vortex_syntax.specs.Expressions as spec;
ghost use Rattle.vortex_syntax.specs.Fails.{Gives};
ghost use Rattle.vortex_syntax.specs.Words.{words};

use crate::columns::Columns;
use crate::expected::Expected;
use crate::form::{Form, form_of, strictness_of};
use crate::line_error::LineError;
use crate::names::type_of;
use crate::value::optional_value_of;
use crate::word::{first_word, plain_word};
use std::alloc::Global;
use vortex_base::dtype::DType;
use vortex_base::scalar::Scalar;
use vortex_base::scalar_value::ScalarValue;
use vortex_expr::bound;
use vortex_expr::bound_expression::BoundExpression;
use vortex_expr::like::LikeOptions;
use vortex_expr::scalar_fn::{BetweenOptions, Operator};

// Names the type of an operand that is refused.
fn operand(x: &BoundExpression) -> Expected {
    Expected::Operand(x.dtype())
}

// Names the types of two operands that are refused.
fn operands(left: &BoundExpression, right: &BoundExpression) -> Expected {
    Expected::Operands(left.dtype(), right.dtype())
}

// Names the types of a BETWEEN's operand and of its first end that doesn't fit.
fn ends(x: &BoundExpression, lower: &BoundExpression, upper: &BoundExpression) -> Expected {
    if x.dtype().eq_ignore_nullability(&lower.dtype()) {
        operands(x, upper)
    } else {
        operands(x, lower)
    }
}

/// Makes an operator of two operands, or refuses operands that the typing table has no type for.
#[inline(never)]
pub fn binary(
    alloc: Global,
    operator: Operator,
    left: BoundExpression,
    right: BoundExpression,
    behind: usize,
) -> Result<BoundExpression, LineError>
    ensures { Gives (λ e. e) result (spec.typed (tree.binary operator left right)) }
{
    let operands = operands(&left, &right);
    match bound::binary(alloc, operator, left, right) {
        Ok(e) => Ok(e),
        Err(refusal) => Err(LineError::of_refusal(behind, operands, refusal)),
    }
}

/// Makes a BETWEEN, or refuses operands that the typing table has no type for.
#[inline(never)]
pub fn between(
    alloc: Global,
    options: BetweenOptions,
    x: BoundExpression,
    lower: BoundExpression,
    upper: BoundExpression,
    behind: usize,
) -> Result<BoundExpression, LineError>
    ensures { Gives (λ e. e) result (spec.typed (tree.between options x lower upper)) }
{
    let operands = ends(&x, &lower, &upper);
    match bound::between(alloc, x, lower, upper, options) {
        Ok(e) => Ok(e),
        Err(refusal) => Err(LineError::of_refusal(behind, operands, refusal)),
    }
}

/// Makes a LIKE, or refuses operands that the typing table has no type for.
#[inline(never)]
pub fn like(
    alloc: Global,
    options: LikeOptions,
    text: BoundExpression,
    pattern: BoundExpression,
    behind: usize,
) -> Result<BoundExpression, LineError>
    ensures { Gives (λ e. e) result (spec.typed (tree.like options text pattern)) }
{
    let operands = operands(&text, &pattern);
    match bound::like_with(alloc, text, pattern, options) {
        Ok(e) => Ok(e),
        Err(refusal) => Err(LineError::of_refusal(behind, operands, refusal)),
    }
}

/// Makes a NOT, or refuses an operand that is no truth.
#[inline(never)]
pub fn not(alloc: Global, x: BoundExpression, behind: usize) -> Result<BoundExpression, LineError>
    ensures { Gives (λ e. e) result (spec.typed (tree.not x)) }
{
    let operand = operand(&x);
    match bound::not(alloc, x) {
        Ok(e) => Ok(e),
        Err(refusal) => Err(LineError::of_refusal(behind, operand, refusal)),
    }
}

/// Makes an IS NULL.
#[inline(never)]
pub fn is_null(
    alloc: Global,
    x: BoundExpression,
    behind: usize,
) -> Result<BoundExpression, LineError>
    ensures { Gives (λ e. e) result (spec.typed (tree.is_null x)) }
{
    let operand = operand(&x);
    match bound::is_null(alloc, x) {
        Ok(e) => Ok(e),
        Err(refusal) => Err(LineError::of_refusal(behind, operand, refusal)),
    }
}

/// Makes an IS NOT NULL.
#[inline(never)]
pub fn is_not_null(
    alloc: Global,
    x: BoundExpression,
    behind: usize,
) -> Result<BoundExpression, LineError>
    ensures { Gives (λ e. e) result (spec.typed (tree.is_not_null x)) }
{
    let operand = operand(&x);
    match bound::is_not_null(alloc, x) {
        Ok(e) => Ok(e),
        Err(refusal) => Err(LineError::of_refusal(behind, operand, refusal)),
    }
}

/// Reads a column, `NAME`, and gives the line after it.
pub fn read_column<'a>(
    alloc: Global,
    columns: &Columns,
    line: &'a [u8],
) -> Result<(BoundExpression, &'a [u8]), LineError>
    ensures read { Gives (λ x. (x.0, words x.1.now)) result
        (spec.read_column (named_columns columns.now) (words line.now)) }
    ensures fewer { IfOk result (λ x. length (words x.1.now) < length (words line.now)) }
{
    let (name, rest) = plain_word(line, Expected::Column)?;
    let Some((place, dtype)) = columns.find(name) else {
        return Err(LineError::at(line.len(), Expected::Column));
    };
    match bound::col(alloc, place, dtype) {
        Ok(column) => Ok((column, rest)),
        Err(refusal) => Err(LineError::of_refusal(line.len(), Expected::Column, refusal)),
    }
}

fn constant(alloc: Global, scalar: Scalar, behind: usize) -> Result<BoundExpression, LineError>
    ensures { Gives (λ e. e) result (spec.typed (tree.literal scalar)) }
{
    match bound::lit(alloc, scalar) {
        Ok(e) => Ok(e),
        Err(refusal) => Err(LineError::of_refusal(behind, Expected::Type, refusal)),
    }
}

fn literal(
    alloc: Global,
    dtype: DType,
    value: Option<ScalarValue>,
    behind: usize,
) -> Result<BoundExpression, LineError>
    ensures { Gives (λ e. e) result
        (spec.typed (tree.literal (record { dtype = dtype; value = value }))) }
{
    match Scalar::try_new(dtype, value) {
        Ok(scalar) => constant(alloc, scalar, behind),
        Err(refusal) => Err(LineError::of_refusal(behind, Expected::Type, refusal)),
    }
}

/// Reads a literal, `TYPE VALUE`, and gives the line after it.
pub fn read_literal(alloc: Global, line: &[u8]) -> Result<(BoundExpression, &[u8]), LineError>
    ensures read { Gives (λ x. (x.0, words x.1.now)) result (spec.read_literal (words line.now)) }
    ensures fewer { IfOk result (λ x. length (words x.1.now) < length (words line.now)) }
{
    let (kind, behind) = plain_word(line, Expected::Type)?;
    let Some(dtype) = type_of(kind) else {
        return Err(LineError::at(line.len(), Expected::Type));
    };
    let (word, rest) = first_word(alloc, behind, Expected::ValueOrNull(dtype))?;
    let value = optional_value_of(alloc, dtype, word, behind.len())?;
    Ok((literal(alloc, dtype, value, line.len())?, rest))
}

/// Reads how the ends of a BETWEEN are compared, `LOP UOP`, and gives the line after it.
pub fn read_options(line: &[u8]) -> Result<(BetweenOptions, &[u8]), LineError>
    ensures read { Gives (λ x. (x.0, words x.1.now)) result (spec.read_options (words line.now)) }
    ensures fewer { IfOk result (λ x. length (words x.1.now) < length (words line.now)) }
{
    let (lower, behind) = plain_word(line, Expected::Strictness)?;
    let Some(lower_strict) = strictness_of(lower) else {
        return Err(LineError::at(line.len(), Expected::Strictness));
    };
    let (upper, rest) = plain_word(behind, Expected::Strictness)?;
    let Some(upper_strict) = strictness_of(upper) else {
        return Err(LineError::at(behind.len(), Expected::Strictness));
    };
    let options = BetweenOptions {
        lower_strict,
        upper_strict,
    };
    Ok((options, rest))
}

// What follows calls itself by way of `read_expression`, as deep as an expression nests: it matches
// on what its callees answer, since `?` makes the frame of each call larger.

// Two operands of an operator, one after the other.
#[cycle(expression)]
fn read_binary<'a>(
    alloc: Global,
    columns: &Columns,
    operator: Operator,
    line: &'a [u8],
) -> Result<(BoundExpression, &'a [u8]), LineError>
    ensures read { (most : ℕ) → length (words line.now) ≤ most
        → Gives (λ x. (x.0, words x.1.now)) result
        (spec.read_two (spec.expression_within (named_columns columns.now) most)
        (tree.binary operator) (words line.now)) }
    ensures fewer { IfOk result (λ x. length (words x.1.now) < length (words line.now)) }
{
    let (left, rest) = match read_expression(alloc, columns, line) {
        Ok(found) => found,
        Err(e) => return Err(e),
    };
    let (right, rest) = match read_expression(alloc, columns, rest) {
        Ok(found) => found,
        Err(e) => return Err(e),
    };
    match binary(alloc, operator, left, right, line.len()) {
        Ok(e) => Ok((e, rest)),
        Err(e) => Err(e),
    }
}

// A text and a pattern.
#[cycle(expression)]
fn read_like<'a>(
    alloc: Global,
    columns: &Columns,
    options: LikeOptions,
    line: &'a [u8],
) -> Result<(BoundExpression, &'a [u8]), LineError>
    ensures read { (most : ℕ) → length (words line.now) ≤ most
        → Gives (λ x. (x.0, words x.1.now)) result
        (spec.read_two (spec.expression_within (named_columns columns.now) most)
        (tree.like options) (words line.now)) }
    ensures fewer { IfOk result (λ x. length (words x.1.now) < length (words line.now)) }
{
    let (text, rest) = match read_expression(alloc, columns, line) {
        Ok(found) => found,
        Err(e) => return Err(e),
    };
    let (pattern, rest) = match read_expression(alloc, columns, rest) {
        Ok(found) => found,
        Err(e) => return Err(e),
    };
    match like(alloc, options, text, pattern, line.len()) {
        Ok(e) => Ok((e, rest)),
        Err(e) => Err(e),
    }
}

// How the ends of a BETWEEN are compared, its operand and its ends.
#[cycle(expression)]
fn read_between<'a>(
    alloc: Global,
    columns: &Columns,
    line: &'a [u8],
) -> Result<(BoundExpression, &'a [u8]), LineError>
    ensures read { (most : ℕ) → length (words line.now) ≤ most
        → Gives (λ x. (x.0, words x.1.now)) result
        (spec.read_between (spec.expression_within (named_columns columns.now) most)
        (words line.now)) }
    ensures fewer { IfOk result (λ x. length (words x.1.now) < length (words line.now)) }
{
    let (options, rest) = match read_options(line) {
        Ok(found) => found,
        Err(e) => return Err(e),
    };
    let (x, rest) = match read_expression(alloc, columns, rest) {
        Ok(found) => found,
        Err(e) => return Err(e),
    };
    let (lower, rest) = match read_expression(alloc, columns, rest) {
        Ok(found) => found,
        Err(e) => return Err(e),
    };
    let (upper, rest) = match read_expression(alloc, columns, rest) {
        Ok(found) => found,
        Err(e) => return Err(e),
    };
    match between(alloc, options, x, lower, upper, line.len()) {
        Ok(e) => Ok((e, rest)),
        Err(e) => Err(e),
    }
}

// The operand of a NOT.
#[cycle(expression)]
fn read_not<'a>(
    alloc: Global,
    columns: &Columns,
    line: &'a [u8],
) -> Result<(BoundExpression, &'a [u8]), LineError>
    ensures read { (most : ℕ) → length (words line.now) ≤ most
        → Gives (λ x. (x.0, words x.1.now)) result
        (spec.read_one (spec.expression_within (named_columns columns.now) most)
        tree.not (words line.now)) }
    ensures fewer { IfOk result (λ x. length (words x.1.now) < length (words line.now)) }
{
    let (x, rest) = match read_expression(alloc, columns, line) {
        Ok(found) => found,
        Err(e) => return Err(e),
    };
    match not(alloc, x, line.len()) {
        Ok(e) => Ok((e, rest)),
        Err(e) => Err(e),
    }
}

// The operand of an IS NULL.
#[cycle(expression)]
fn read_is_null<'a>(
    alloc: Global,
    columns: &Columns,
    line: &'a [u8],
) -> Result<(BoundExpression, &'a [u8]), LineError>
    ensures read { (most : ℕ) → length (words line.now) ≤ most
        → Gives (λ x. (x.0, words x.1.now)) result
        (spec.read_one (spec.expression_within (named_columns columns.now) most)
        tree.is_null (words line.now)) }
    ensures fewer { IfOk result (λ x. length (words x.1.now) < length (words line.now)) }
{
    let (x, rest) = match read_expression(alloc, columns, line) {
        Ok(found) => found,
        Err(e) => return Err(e),
    };
    match is_null(alloc, x, line.len()) {
        Ok(e) => Ok((e, rest)),
        Err(e) => Err(e),
    }
}

// The operand of an IS NOT NULL.
#[cycle(expression)]
fn read_is_not_null<'a>(
    alloc: Global,
    columns: &Columns,
    line: &'a [u8],
) -> Result<(BoundExpression, &'a [u8]), LineError>
    ensures read { (most : ℕ) → length (words line.now) ≤ most
        → Gives (λ x. (x.0, words x.1.now)) result
        (spec.read_one (spec.expression_within (named_columns columns.now) most)
        tree.is_not_null (words line.now)) }
    ensures fewer { IfOk result (λ x. length (words x.1.now) < length (words line.now)) }
{
    let (x, rest) = match read_expression(alloc, columns, line) {
        Ok(found) => found,
        Err(e) => return Err(e),
    };
    match is_not_null(alloc, x, line.len()) {
        Ok(e) => Ok((e, rest)),
        Err(e) => Err(e),
    }
}

/// The expression that a line begins with, and the line after it. Each call reads a word, so a line
/// bounds how deep the calls nest.
#[cycle(expression)]
pub fn read_expression<'a>(
    alloc: Global,
    columns: &Columns,
    line: &'a [u8],
) -> Result<(BoundExpression, &'a [u8]), LineError>
    ensures read { (most : ℕ) → length (words line.now) ≤ most
        → Gives (λ x. (x.0, words x.1.now)) result
        (spec.expression_within (named_columns columns.now) most (words line.now)) }
    ensures memory { IsErrOf result LineError.Memory
        → IsTrue (spec.begins_expression (words line.now)) }
    ensures fewer { IfOk result (λ x. length (words x.1.now) < length (words line.now)) }
{
    let (word, rest) = match plain_word(line, Expected::Expression) {
        Ok(found) => found,
        Err(e) => return Err(e),
    };
    let Some(form) = form_of(word) else {
        return Err(LineError::at(line.len(), Expected::Expression));
    };
    match form {
        Form::Column => read_column(alloc, columns, rest),
        Form::Literal => read_literal(alloc, rest),
        Form::Binary(operator) => read_binary(alloc, columns, operator, rest),
        Form::Between => read_between(alloc, columns, rest),
        Form::IsNull => read_is_null(alloc, columns, rest),
        Form::IsNotNull => read_is_not_null(alloc, columns, rest),
        Form::Not => read_not(alloc, columns, rest),
        Form::Like(options) => read_like(alloc, columns, options, rest),
    }
}
