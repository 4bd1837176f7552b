//! Leaves of a predicate that ask something of the values of one column: a comparison with a
//! literal on either side, LIKE with a literal pattern, IS NULL and IS NOT NULL.
ghost use Rattle.std.specs.Prelude.{◌≡◌, IfSome, option_map};
ghost use Rattle.vortex_base.specs.Data.ArrayData.{value_of};
ghost use Rattle.vortex_expr.specs.Meanings.Meaning as spec;
ghost use Rattle.vortex_prune.specs.Scanning.Leaves.{IsColumnOf, IsComparison, IsLeaf, IsLike, IsValue};
ghost use Rattle.vortex_prune.specs.Scanning.Leaves.{is_comparison, passes, swapped};

use std::cmp::Ordering;
use vortex_base::chunk::Chunk;
use vortex_base::column::Column;
use vortex_base::value_ref::ValueRef;
use vortex_expr::bound_expression::BoundExpression;
use vortex_expr::bound_expression::parts::Parts;
use vortex_expr::like::LikeOptions;
use vortex_expr::scalar_fn::Operator;

/// A question that a leaf asks of a value.
#[derive(Clone, Copy)]
pub(crate) enum Test<'a> {
    /// Whether it compares so with another.
    Is(Operator, ValueRef<'a>),
    /// Whether it is a text that matches a pattern.
    Like(LikeOptions, &'a str),
    Null,
    NotNull,
}

/// A column, and what is asked of its values.
#[derive(Clone, Copy)]
pub(crate) struct Leaf<'a> {
    pub(crate) column: &'a Column,
    pub(crate) test: Test<'a>,
}

/// A column, and the ends between which its values are to lie.
#[derive(Clone, Copy)]
pub(crate) struct Ends<'a> {
    pub(crate) column: &'a Column,
    pub(crate) lower: Operator,
    pub(crate) low: ValueRef<'a>,
    pub(crate) upper: Operator,
    pub(crate) high: ValueRef<'a>,
}

/// Whether an operator holds of two values in this order. AND and OR compare nothing.
#[inline]
pub(crate) fn holds(operator: Operator, order: Ordering) -> bool
    ensures { result ≡ spec.holds operator order }
{
    match operator {
        Operator::Eq => order.is_eq(),
        Operator::NotEq => !order.is_eq(),
        Operator::Gt => order.is_gt(),
        Operator::Gte => !order.is_lt(),
        Operator::Lt => order.is_lt(),
        Operator::Lte => !order.is_gt(),
        Operator::And | Operator::Or => false,
    }
}

/// Whether a value, if there is one, passes.
#[inline]
pub(crate) fn passes(test: Test<'_>, value: Option<ValueRef<'_>>) -> bool
    ensures { result ≡ passes test.entry (option_map value_of value.entry) }
{
    match test {
        Test::Null => value.is_none(),
        Test::NotNull => value.is_some(),
        Test::Is(operator, other) => match value {
            None => false,
            Some(value) => holds(operator, value.order(other)),
        },
        Test::Like(options, pattern) => match value {
            Some(ValueRef::Utf8(text)) => options.matches(text.as_str(), pattern),
            _ => false,
        },
    }
}

/// Whether an operator compares its sides.
pub(crate) fn is_comparison(operator: Operator) -> bool
    ensures { result ≡ is_comparison operator }
{
    !matches!(operator, Operator::And | Operator::Or)
}

/// The comparison that says the same with its sides changed about.
pub(crate) fn swapped(operator: Operator) -> Operator
    ensures { result ≡ swapped operator }
{
    match operator {
        Operator::Gt => Operator::Lt,
        Operator::Gte => Operator::Lte,
        Operator::Lt => Operator::Gt,
        Operator::Lte => Operator::Gte,
        _ => operator,
    }
}

/// The column of a chunk that an expression is, if it is one.
pub(crate) fn column_of<'a>(chunk: &'a Chunk, e: &BoundExpression) -> Option<&'a Column>
    ensures { IfSome result (λ column.
        IsColumnOf chunk.entry.now.columns e.now column.now) }
{
    match e.parts() {
        Parts::Column(place, _) if place < chunk.scope().len() => Some(chunk.column(place)),
        _ => None,
    }
}

/// The value that an expression is, if it is a literal other than null.
pub(crate) fn literal_of(e: &BoundExpression) -> Option<ValueRef<'_>>
    ensures { IfSome result (λ value. IsValue e.entry.now (value_of value)) }
{
    match e.literal() {
        None => None,
        Some(literal) => match literal.value() {
            None => None,
            Some(value) => Some(value.lend()),
        },
    }
}

/// The leaf that tells of the comparison of two expressions, if one is a column and the other a
/// literal.
pub(crate) fn compared<'a>(
    chunk: &'a Chunk,
    operator: Operator,
    left: &'a BoundExpression,
    right: &'a BoundExpression,
) -> Option<Leaf<'a>>
    ensures { IfSome result (λ leaf. IsComparison chunk.entry.now.columns operator left.entry.now
        right.entry.now leaf.column.now leaf.test) }
{
    if let (Some(column), Some(value)) = (column_of(chunk, left), literal_of(right)) {
        let test = Test::Is(operator, value);
        return Some(Leaf { column, test });
    }
    if let (Some(value), Some(column)) = (literal_of(left), column_of(chunk, right)) {
        let test = Test::Is(swapped(operator), value);
        return Some(Leaf { column, test });
    }
    None
}

// The leaf of a column, if an expression is one.
fn asked<'a>(chunk: &'a Chunk, e: &BoundExpression, test: Test<'a>) -> Option<Leaf<'a>>
    ensures { IfSome result (λ leaf. IsColumnOf chunk.entry.now.columns e.now leaf.column.now
        × (leaf.test ≡ test.entry)) }
{
    match column_of(chunk, e) {
        None => None,
        Some(column) => Some(Leaf { column, test }),
    }
}

// The leaf that tells of a LIKE of two expressions, if the text is a column and the pattern a
// literal.
fn liked<'a>(
    chunk: &'a Chunk,
    options: LikeOptions,
    text: &BoundExpression,
    pattern: &'a BoundExpression,
) -> Option<Leaf<'a>>
    ensures { IfSome result (λ leaf. IsLike chunk.entry.now.columns options text.now
        pattern.entry.now leaf.column.now leaf.test) }
{
    match literal_of(pattern) {
        Some(ValueRef::Utf8(pattern)) => {
            asked(chunk, text, Test::Like(options, pattern.as_str()))
        }
        _ => None,
    }
}

/// The leaf that an expression is, if it is one.
pub(crate) fn leaf_of<'a>(chunk: &'a Chunk, e: &'a BoundExpression) -> Option<Leaf<'a>>
    ensures { IfSome result (λ leaf.
        IsLeaf chunk.entry.now.columns e.entry.now leaf.column.now leaf.test) }
{
    match e.parts() {
        Parts::Binary(operator, left, right) if is_comparison(operator) => {
            compared(chunk, operator, left, right)
        }
        Parts::Like(options, text, pattern) => liked(chunk, options, text, pattern),
        Parts::IsNull(x) => asked(chunk, x, Test::Null),
        Parts::IsNotNull(x) => asked(chunk, x, Test::NotNull),
        _ => None,
    }
}
