//! Whether a row satisfies an expression: its truth there, with no value made on the way.
//!
//! The truth that is asked for turns round at NOT, so that AND and OR stop at the first operand
//! that decides. What a column or a literal lends is compared where it stands; the arms for other
//! operands are functions of their own, which keeps the walk's frame small.
ghost use Rattle.std.specs.Prelude.{◌≡◌, is_none, option_map};
ghost use Rattle.vortex_expr.specs.Meanings.Meaning as spec;
ghost use Rattle.vortex_expr.specs.Meanings.Meaning.{meaning};
ghost use Rattle.vortex_base.specs.Data.ArrayData.{value_of};
ghost use Rattle.vortex_expr.specs.Meanings.RowTest.{Lends, is_wanted};

use crate::bound_expression::{BoundExpression, Node};
use crate::evaluate::{compared, liked, within};
use crate::like::LikeOptions;
use crate::scalar_fn::{BetweenOptions, Operator};
use vortex_base::row::Row;
use vortex_base::value_ref::{ValueRef, lend};

// The value that a column or a literal lends, `None` being null; or an inner node.
#[derive(Clone, Copy)]
enum Leaf<'a> {
    Of(Option<ValueRef<'a>>),
    Inner,
}

#[inline]
fn is_wanted_truth(wanted: bool, truth: Option<bool>) -> bool
    ensures { result ≡ is_wanted wanted truth }
{
    match truth {
        Some(truth) => truth == wanted,
        None => false,
    }
}

#[inline]
fn is_wanted_value(wanted: bool, value: Option<ValueRef<'_>>) -> bool
    ensures { result ≡ is_wanted wanted (spec.truth (option_map value_of value.entry)) }
{
    match value {
        Some(ValueRef::Bool(truth)) => truth == wanted,
        _ => false,
    }
}

impl BoundExpression {
    #[inline]
    fn leaf_on<'a>(&'a self, row: &'a Row<'_>, _row_count: u64) -> Leaf<'a>
        ensures { Lends result self.entry.now row.entry.now _row_count }
    {
        match &*self.node {
            Node::Column(place) => Leaf::Of(row.value(*place)),
            Node::Literal(scalar) => Leaf::Of(lend(scalar.value())),
            _ => Leaf::Inner,
        }
    }

    // Whether the expression is null on the row.
    fn is_null_on(&self, row: &Row<'_>, row_count: u64) -> bool
        ensures { result ≡ is_none (meaning self.now row.now row_count) }
    {
        match self.leaf_on(row, row_count) {
            Leaf::Of(value) => value.is_none(),
            Leaf::Inner => self.value_on(row, row_count).is_none(),
        }
    }
}

#[inline(never)]
fn are_compared(
    operator: Operator,
    left: &BoundExpression,
    right: &BoundExpression,
    row: &Row<'_>,
    row_count: u64,
) -> Option<bool>
    ensures { result ≡ spec.compared operator (meaning left.now row.now row_count)
        (meaning right.now row.now row_count) }
{
    let left = left.value_on(row, row_count);
    let right = right.value_on(row, row_count);
    compared(operator, left, right)
}

// The comparison of two expressions on a row.
fn compared_on(
    operator: Operator,
    left: &BoundExpression,
    right: &BoundExpression,
    row: &Row<'_>,
    row_count: u64,
) -> Option<bool>
    ensures { result ≡ spec.compared operator (meaning left.now row.now row_count)
        (meaning right.now row.now row_count) }
{
    match (left.leaf_on(row, row_count), right.leaf_on(row, row_count)) {
        (Leaf::Of(a), Leaf::Of(b)) => compared(operator, a, b),
        _ => are_compared(operator, left, right, row, row_count),
    }
}

#[inline(never)]
fn are_liked(
    options: LikeOptions,
    text: &BoundExpression,
    pattern: &BoundExpression,
    row: &Row<'_>,
    row_count: u64,
) -> Option<bool>
    ensures { result ≡ spec.liked options (meaning text.now row.now row_count)
        (meaning pattern.now row.now row_count) }
{
    let text = text.value_on(row, row_count);
    let pattern = pattern.value_on(row, row_count);
    liked(options, text, pattern)
}

// The match of two expressions on a row.
fn liked_on(
    options: LikeOptions,
    text: &BoundExpression,
    pattern: &BoundExpression,
    row: &Row<'_>,
    row_count: u64,
) -> Option<bool>
    ensures { result ≡ spec.liked options (meaning text.now row.now row_count)
        (meaning pattern.now row.now row_count) }
{
    match (
        text.leaf_on(row, row_count),
        pattern.leaf_on(row, row_count),
    ) {
        (Leaf::Of(text), Leaf::Of(pattern)) => liked(options, text, pattern),
        _ => are_liked(options, text, pattern, row, row_count),
    }
}

#[inline(never)]
fn are_within(
    options: BetweenOptions,
    x: &BoundExpression,
    lower: &BoundExpression,
    upper: &BoundExpression,
    row: &Row<'_>,
    row_count: u64,
) -> Option<bool>
    ensures { result ≡ spec.within options (meaning x.now row.now row_count)
        (meaning lower.now row.now row_count) (meaning upper.now row.now row_count) }
{
    let x = x.value_on(row, row_count);
    let lower = lower.value_on(row, row_count);
    let upper = upper.value_on(row, row_count);
    within(options, x, lower, upper)
}

// BETWEEN of three expressions on a row.
fn within_on(
    options: BetweenOptions,
    x: &BoundExpression,
    lower: &BoundExpression,
    upper: &BoundExpression,
    row: &Row<'_>,
    row_count: u64,
) -> Option<bool>
    ensures { result ≡ spec.within options (meaning x.now row.now row_count)
        (meaning lower.now row.now row_count) (meaning upper.now row.now row_count) }
{
    match (
        x.leaf_on(row, row_count),
        lower.leaf_on(row, row_count),
        upper.leaf_on(row, row_count),
    ) {
        (Leaf::Of(x), Leaf::Of(lower), Leaf::Of(upper)) => within(options, x, lower, upper),
        _ => are_within(options, x, lower, upper, row, row_count),
    }
}

impl BoundExpression {
    // Whether the expression's truth on the row is the wanted one.
    fn has_truth(&self, row: &Row<'_>, row_count: u64, wanted: bool) -> bool
        ensures { result ≡ is_wanted wanted (spec.truth (meaning self.now row.now row_count)) }
    {
        match &*self.node {
            Node::Column(place) => is_wanted_value(wanted, row.value(*place)),
            Node::Literal(scalar) => is_wanted_value(wanted, lend(scalar.value())),
            Node::Binary(Operator::And, left, right) => {
                if wanted {
                    left.has_truth(row, row_count, true) && right.has_truth(row, row_count, true)
                } else {
                    left.has_truth(row, row_count, false) || right.has_truth(row, row_count, false)
                }
            }
            Node::Binary(Operator::Or, left, right) => {
                if wanted {
                    left.has_truth(row, row_count, true) || right.has_truth(row, row_count, true)
                } else {
                    left.has_truth(row, row_count, false) && right.has_truth(row, row_count, false)
                }
            }
            Node::Binary(operator, left, right) => {
                is_wanted_truth(wanted, compared_on(*operator, left, right, row, row_count))
            }
            Node::Between(options, x, lower, upper) => {
                is_wanted_truth(wanted, within_on(*options, x, lower, upper, row, row_count))
            }
            Node::IsNull(x) => x.is_null_on(row, row_count) == wanted,
            Node::IsNotNull(x) => x.is_null_on(row, row_count) != wanted,
            Node::Not(x) => x.has_truth(row, row_count, !wanted),
            Node::Like(options, text, pattern) => {
                is_wanted_truth(wanted, liked_on(*options, text, pattern, row, row_count))
            }
            Node::Stat(_, _) | Node::RowCount => false,
        }
    }

    /// Whether the expression is true on a row: not false, not null and no other value. A
    /// placeholder and a column outside the row count as null. It takes no memory and is never
    /// refused.
    pub fn is_satisfied(&self, row: &Row<'_>, row_count: u64) -> bool
        ensures { result ≡ spec.satisfies self.now row.now row_count }
    {
        self.has_truth(row, row_count, true)
    }
}
