//! Literals, and comparisons of two of them.
ghost use Rattle.std.specs.Prelude.{◌≡◌, Some};
ghost use Rattle.vortex_sql.specs.Readings as spec;
ghost use Rattle.vortex_sql.specs.Sql as sql;

use crate::comparison::holds;
use crate::fault::Fault;
use crate::syntax::tree::{ExactNumber, Operand};
use crate::typing::{KindFit, kind_fit};
use std::alloc::Global;
use std::cmp::Ordering;
use vortex_base::dtype::DType;
use vortex_base::scalar::Scalar;
use vortex_base::scalar_value::ScalarValue;
use vortex_base::types::Nullability;
use vortex_expr::bound;
use vortex_expr::bound_expression::BoundExpression;
use vortex_logical::comparison::Comparison;
use vortex_logical::logical_type::ExactKind;

/// Returns a value of a type as an expression.
pub(crate) fn constant(
    alloc: Global,
    dtype: DType,
    value: ScalarValue,
) -> Result<BoundExpression, Fault>
    ensures { spec.Yields (spec.constant dtype value) result }
{
    let scalar = Scalar::try_new(dtype, Some(value))?;
    Ok(bound::lit(alloc, scalar)?)
}

/// Returns a truth, or null, as an expression.
pub(crate) fn truth_literal(alloc: Global, truth: Option<bool>) -> Result<BoundExpression, Fault>
    ensures { spec.Yields (spec.truth_literal truth) result }
{
    let value = match truth {
        Some(truth) => Some(ScalarValue::Bool(truth)),
        None => None,
    };
    let scalar = Scalar::try_new(DType::Bool(Nullability::Nullable), value)?;
    Ok(bound::lit(alloc, scalar)?)
}

/// Returns a truth, or null, as what is said of a test.
pub(crate) fn said(alloc: Global, truth: Option<bool>) -> Result<Option<BoundExpression>, Fault>
    ensures { spec.Reads (spec.said (spec.truth_literal truth)) result }
{
    Ok(Some(truth_literal(alloc, truth)?))
}

fn truth_cmp(left: bool, right: bool) -> Ordering
    ensures { sql.item_cmp (sql.truth left) (sql.truth right) ≡ Some result }
{
    match (left, right) {
        (false, true) => Ordering::Less,
        (true, false) => Ordering::Greater,
        _ => Ordering::Equal,
    }
}

// Tells whether a literal is a whole number.
fn is_whole(number: ExactNumber) -> bool
    ensures { result ≡ spec.is_whole number }
{
    matches!(kind_fit(number.kind, ExactKind::Number), KindFit::Same) && number.scale == 0
}

// Returns the order of two whole numbers.
fn exact_order(left: ExactNumber, right: ExactNumber) -> Option<Ordering>
    ensures { result ≡ spec.literal_order (spec.whole_literal left (spec.is_whole left))
        (spec.whole_literal right (spec.is_whole right)) }
{
    if is_whole(left) && is_whole(right) {
        return Some(left.top.cmp(&right.top));
    }
    None
}

// Returns the order of two literals of one kind.
fn order_of(left: &Operand, right: &Operand) -> Option<Ordering>
    ensures { result ≡ spec.literal_order (spec.literal_of left.now) (spec.literal_of right.now) }
{
    match (left, right) {
        (Operand::Truth(left), Operand::Truth(right)) => Some(truth_cmp(*left, *right)),
        (Operand::Exact(left), Operand::Exact(right)) => exact_order(*left, *right),
        (Operand::Text(left), Operand::Text(right)) => Some(left.cmp(right)),
        (Operand::Binary(left), Operand::Binary(right)) => Some(left.cmp(right)),
        _ => None,
    }
}

// Tells whether a literal has a value or is null, or nothing of what is no literal.
pub(crate) fn has_value(operand: &Operand) -> Option<bool>
    ensures { result ≡ spec.has_value (spec.literal_of operand.now) }
{
    match operand {
        Operand::Column(_) | Operand::Float(_) | Operand::Other => None,
        Operand::Exact(number) if !is_whole(*number) => None,
        Operand::Null => Some(false),
        Operand::Truth(_) | Operand::Exact(_) | Operand::Text(_) | Operand::Binary(_) => {
            Some(true)
        }
    }
}

// Says a comparison of two literals by their order.
fn folded(
    alloc: Global,
    comparison: Comparison,
    order: Option<Ordering>,
) -> Result<Option<BoundExpression>, Fault>
    ensures { spec.Reads (spec.folded comparison order) result }
{
    match order {
        Some(order) => said(alloc, Some(holds(comparison, order))),
        None => Err(Fault::Misfit),
    }
}

/// Says a comparison of two operands of which neither is a column.
pub(crate) fn literals(
    alloc: Global,
    comparison: Comparison,
    left: &Operand,
    right: &Operand,
) -> Result<Option<BoundExpression>, Fault>
    ensures { spec.Reads
        (spec.literals comparison (spec.literal_of left.now) (spec.literal_of right.now)) result }
{
    match (has_value(left), has_value(right)) {
        (Some(false), _) | (_, Some(false)) => said(alloc, None),
        (Some(true), Some(true)) => folded(alloc, comparison, order_of(left, right)),
        _ => Ok(None),
    }
}

// Says whether two literals are distinct by whether each has a value and by their order.
fn distinct_by(
    alloc: Global,
    first: Option<bool>,
    second: Option<bool>,
    order: Option<Ordering>,
) -> Result<Option<BoundExpression>, Fault>
    ensures { spec.Reads (spec.distinct_by first second order) result }
{
    match (first, second) {
        (Some(first), Some(second)) => {
            if !first {
                said(alloc, Some(second))
            } else if second {
                folded(alloc, Comparison::NotEq, order)
            } else {
                said(alloc, Some(true))
            }
        }
        _ => Ok(None),
    }
}

/// Says whether two operands of which neither is a column are distinct.
pub(crate) fn distinct_literals(
    alloc: Global,
    left: &Operand,
    right: &Operand,
) -> Result<Option<BoundExpression>, Fault>
    ensures { spec.Reads
        (spec.distinct_literals (spec.literal_of left.now) (spec.literal_of right.now)) result }
{
    let order = order_of(left, right);
    distinct_by(alloc, has_value(left), has_value(right), order)
}
