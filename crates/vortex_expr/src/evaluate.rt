//! The value of an expression on a row.
ghost use Rattle.std.specs.Prelude.{◌≡◌, IsTrue, alloc_error, option_map};
ghost use Rattle.vortex_base.specs.Data.ArrayData.{value_of};
ghost use Rattle.vortex_base.specs.Data.Scalars.{is_long};
ghost use Rattle.vortex_expr.specs.Meanings.Meaning as spec;
ghost use Rattle.vortex_expr.specs.Meanings.Meaning.{can_evaluate, meaning};
ghost use Rattle.vortex_base.specs.Answer.{Answers};

use crate::bound_expression::{BoundExpression, Node};
use crate::like::LikeOptions;
use crate::scalar_fn::{BetweenOptions, Operator};
use std::cmp::Ordering;
use vortex_base::error::BaseError;
use vortex_base::pvalue::PValue;
use vortex_base::row::Row;
use vortex_base::scalar_value::ScalarValue;
use vortex_base::value_ref::{ValueRef, lend};

fn made<'a>(truth: Option<bool>) -> Option<ValueRef<'a>>
    ensures { option_map value_of result ≡ spec.truth_value truth }
{
    match truth {
        Some(truth) => Some(ValueRef::Bool(truth)),
        None => None,
    }
}

fn truth(value: Option<ValueRef<'_>>) -> Option<bool>
    ensures { result ≡ spec.truth (option_map value_of value.entry) }
{
    match value {
        Some(ValueRef::Bool(truth)) => Some(truth),
        _ => None,
    }
}

fn both(a: Option<bool>, b: Option<bool>) -> Option<bool>
    ensures { result ≡ spec.both a b }
{
    match (a, b) {
        (Some(false), _) | (_, Some(false)) => Some(false),
        (Some(true), Some(true)) => Some(true),
        _ => None,
    }
}

fn either(a: Option<bool>, b: Option<bool>) -> Option<bool>
    ensures { result ≡ spec.either a b }
{
    match (a, b) {
        (Some(true), _) | (_, Some(true)) => Some(true),
        (Some(false), Some(false)) => Some(false),
        _ => None,
    }
}

fn opposite(a: Option<bool>) -> Option<bool>
    ensures { result ≡ spec.opposite a }
{
    match a {
        Some(a) => Some(!a),
        None => None,
    }
}

fn holds(operator: Operator, order: Ordering) -> bool
    ensures { result ≡ spec.holds operator order }
{
    match operator {
        Operator::Eq => order.is_eq(),
        Operator::NotEq => !order.is_eq(),
        Operator::Gt => order.is_gt(),
        Operator::Gte => !order.is_lt(),
        Operator::Lt => order.is_lt(),
        Operator::Lte => !order.is_gt(),
        Operator::And | Operator::Or => false,
    }
}

pub(crate) fn compared(
    operator: Operator,
    a: Option<ValueRef<'_>>,
    b: Option<ValueRef<'_>>,
) -> Option<bool>
    ensures { result
        ≡ spec.compared operator (option_map value_of a.entry) (option_map value_of b.entry) }
{
    match (a, b) {
        (Some(a), Some(b)) => Some(holds(operator, a.order(b))),
        _ => None,
    }
}

fn applied(operator: Operator, a: Option<ValueRef<'_>>, b: Option<ValueRef<'_>>) -> Option<bool>
    ensures { result
        ≡ spec.applied operator (option_map value_of a.entry) (option_map value_of b.entry) }
{
    match operator {
        Operator::And => both(truth(a), truth(b)),
        Operator::Or => either(truth(a), truth(b)),
        _ => compared(operator, a, b),
    }
}

pub(crate) fn within(
    options: BetweenOptions,
    x: Option<ValueRef<'_>>,
    lower: Option<ValueRef<'_>>,
    upper: Option<ValueRef<'_>>,
) -> Option<bool>
    ensures { result ≡ spec.within options (option_map value_of x.entry)
        (option_map value_of lower.entry) (option_map value_of upper.entry) }
{
    let above = compared(options.lower_strict.to_operator(), lower, x);
    let below = compared(options.upper_strict.to_operator(), x, upper);
    both(above, below)
}

fn is_like(options: LikeOptions, text: ValueRef<'_>, pattern: ValueRef<'_>) -> bool
    ensures { result ≡ spec.is_like options (value_of text.entry) (value_of pattern.entry) }
{
    match (text, pattern) {
        (ValueRef::Utf8(text), ValueRef::Utf8(pattern)) => {
            options.matches(text.as_str(), pattern.as_str())
        }
        _ => false,
    }
}

pub(crate) fn liked(
    options: LikeOptions,
    text: Option<ValueRef<'_>>,
    pattern: Option<ValueRef<'_>>,
) -> Option<bool>
    ensures { result
        ≡ spec.liked options (option_map value_of text.entry) (option_map value_of pattern.entry) }
{
    match (text, pattern) {
        (Some(text), Some(pattern)) => Some(is_like(options, text, pattern)),
        _ => None,
    }
}

impl BoundExpression {
    pub(crate) fn value_on<'a>(&'a self, row: &'a Row<'_>, row_count: u64) -> Option<ValueRef<'a>>
        ensures { option_map value_of result ≡ meaning self.entry.now row.entry.now row_count }
    {
        match &*self.node {
            Node::Column(place) => row.value(*place),
            Node::Literal(scalar) => lend(scalar.value()),
            Node::Binary(operator, left, right) => {
                let left = left.value_on(row, row_count);
                let right = right.value_on(row, row_count);
                made(applied(*operator, left, right))
            }
            Node::Between(options, x, lower, upper) => {
                let x = x.value_on(row, row_count);
                let lower = lower.value_on(row, row_count);
                let upper = upper.value_on(row, row_count);
                made(within(*options, x, lower, upper))
            }
            Node::IsNull(x) => made(Some(x.value_on(row, row_count).is_none())),
            Node::IsNotNull(x) => made(Some(x.value_on(row, row_count).is_some())),
            Node::Not(x) => {
                let x = x.value_on(row, row_count);
                made(opposite(truth(x)))
            }
            Node::Like(options, text, pattern) => {
                let text = text.value_on(row, row_count);
                let pattern = pattern.value_on(row, row_count);
                made(liked(*options, text, pattern))
            }
            Node::Stat(_, _) => None,
            Node::RowCount => Some(ValueRef::Primitive(PValue::U64(row_count))),
        }
    }
}

/// The value of an expression on a row, `None` being null; the row count is what a row count in it
/// is worth. `Placeholder` if it holds a placeholder, and else `RowShape` if it holds a column that
/// the row lacks or that has another type there, nullability aside. Memory is taken only where the
/// answer is a text or bytes.
pub fn evaluate(
    expression: &BoundExpression,
    row: &Row<'_>,
    row_count: u64,
) -> Result<Option<ScalarValue>, BaseError>
    ensures value { Answers (can_evaluate expression.now row.now)
        (meaning expression.now row.now row_count) result }
    ensures memory { result ≡ Err (BaseError.Memory alloc_error)
        → IsTrue (is_long (meaning expression.now row.now row_count)) }
{
    if expression.has_placeholder() {
        return Err(BaseError::Placeholder);
    }
    if !expression.fits_row(row) {
        return Err(BaseError::RowShape);
    }
    match expression.value_on(row, row_count) {
        Some(value) => Ok(Some(value.to_value()?)),
        None => Ok(None),
    }
}
