//! Comparisons of a column with a literal, and columns of truths, as sides of an AND or OR.
ghost use Rattle.std.specs.Prelude.{◌≡◌, IfSome, IsTrue, option_map, slice_get, true};
ghost use Rattle.vortex_base.specs.Data.ArrayData.{value_of};
ghost use Rattle.vortex_base.specs.Data.Columns.{value_at};
ghost use Rattle.vortex_expr.specs.Meanings.Meaning.{is_true};
ghost use Rattle.vortex_prune.specs.Scanning.Gaps.{Covers, IsBeside, IsFlagOf, IsSideOf};
ghost use Rattle.vortex_prune.specs.Scanning.Gaps.{is_falling, is_rising, side_passes, upper as upper_of};

use crate::scan::leaf::{Test, column_of, is_comparison, literal_of, passes, swapped};
use vortex_base::chunk::Chunk;
use vortex_base::column::Column;
use vortex_base::value_ref::ValueRef;
use vortex_expr::bound_expression::BoundExpression;
use vortex_expr::bound_expression::parts::Parts;
use vortex_expr::scalar_fn::Operator;

/// A column compared with a value.
#[derive(Clone, Copy)]
pub(crate) struct Side<'a> {
    pub(crate) operand: &'a BoundExpression,
    pub(crate) column: &'a Column,
    pub(crate) operator: Operator,
    pub(crate) value: ValueRef<'a>,
}

/// A column that is itself a side: whether its truth is set.
#[derive(Clone, Copy)]
pub(crate) struct Flag<'a> {
    pub(crate) operand: &'a BoundExpression,
    pub(crate) column: &'a Column,
}

pub(crate) fn is_rising(operator: Operator) -> bool
    ensures { result ≡ is_rising operator }
{
    matches!(operator, Operator::Gt | Operator::Gte)
}

pub(crate) fn is_falling(operator: Operator) -> bool
    ensures { result ≡ is_falling operator }
{
    matches!(operator, Operator::Lt | Operator::Lte)
}

/// The comparison that no value above an upper end meets.
pub(crate) fn upper(operator: Operator) -> Operator
    ensures { result ≡ upper_of operator }
{
    match operator {
        Operator::Lt => Operator::Lt,
        _ => Operator::Lte,
    }
}

/// A column beside a literal, on either side.
pub(crate) fn beside<'a>(
    chunk: &'a Chunk,
    operator: Operator,
    left: &'a BoundExpression,
    right: &'a BoundExpression,
) -> Option<Side<'a>>
    ensures { IfSome result (λ s. IsBeside chunk.entry.now.columns operator left.entry.now
        right.entry.now s) }
{
    if let (Some(column), Some(value)) = (column_of(chunk, left), literal_of(right)) {
        let operand = left;
        return Some(Side {
            operand,
            column,
            operator,
            value,
        });
    }
    if let (Some(value), Some(column)) = (literal_of(left), column_of(chunk, right)) {
        let (operand, operator) = (right, swapped(operator));
        return Some(Side {
            operand,
            column,
            operator,
            value,
        });
    }
    None
}

/// The comparison of a column with a value that an expression is, if it is one.
pub(crate) fn side_of<'a>(chunk: &'a Chunk, e: &'a BoundExpression) -> Option<Side<'a>>
    ensures { IfSome result (λ s. IsSideOf chunk.entry.now.columns e.entry.now s) }
{
    match e.parts() {
        Parts::Binary(operator, left, right) if is_comparison(operator) => {
            beside(chunk, operator, left, right)
        }
        _ => None,
    }
}

/// The column that an expression is, if it is one.
pub(crate) fn flag_of<'a>(chunk: &'a Chunk, e: &'a BoundExpression) -> Option<Flag<'a>>
    ensures { IfSome result (λ f. IsFlagOf chunk.entry.now.columns e.entry.now f) }
{
    match column_of(chunk, e) {
        None => None,
        Some(column) => Some(Flag { operand: e, column }),
    }
}

/// Whether a comparison that rises is true wherever another one of the same operand is.
pub(crate) fn is_lower(side: Side<'_>, next: Side<'_>) -> bool
    ensures { IsTrue result → Covers side.entry next.entry }
{
    if side.operator != next.operator || !is_rising(side.operator) {
        return false;
    }
    if side.value.order(next.value).is_gt() {
        return false;
    }
    *side.operand == *next.operand
}

/// Whether another comparison of the same operand is true wherever one that falls is.
pub(crate) fn is_raised(side: Side<'_>, next: Side<'_>) -> bool
    ensures covers { IsTrue result → Covers next.entry side.entry }
    ensures falling { IsTrue result → is_falling side.entry.operator ≡ true }
    ensures same { IsTrue result → side.entry.operator ≡ next.entry.operator }
{
    if side.operator != next.operator || !is_falling(side.operator) {
        return false;
    }
    if side.value.order(next.value).is_gt() {
        return false;
    }
    *side.operand == *next.operand
}

pub(crate) fn passes_side(side: Side<'_>, value: Option<ValueRef<'_>>) -> bool
    ensures { result ≡ side_passes side.entry (option_map value_of value.entry) }
{
    passes(Test::Is(side.operator, side.value), value)
}

/// Whether a value is the truth that is set.
pub(crate) fn is_set(value: Option<ValueRef<'_>>) -> bool
    ensures { result ≡ is_true (option_map value_of value.entry) }
{
    match value {
        Some(ValueRef::Bool(truth)) => truth,
        _ => false,
    }
}

/// The value of a column at a place. Past the end stands null.
pub(crate) fn cell(column: &Column, place: usize) -> Option<ValueRef<'_>>
    ensures { option_map value_of result ≡ value_at (slice_get column.entry.now.values place) }
{
    if place < column.len() {
        column.get(place)
    } else {
        None
    }
}
