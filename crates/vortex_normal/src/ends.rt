//! Comparisons of a column with a value at an end of its type, and with a truth.
ghost use Rattle.std.specs.Prelude.{◌≡◌, Bool, IsOk, IsTrue, false, int_lt, not, option_map, true};
ghost use Rattle.vortex_base.specs.Data.Values.{greatest, is_value, least, number_of, ptype_of};
ghost use Rattle.vortex_base.specs.declared.scalar_value.ScalarValue.TheVariants as value;
ghost use Rattle.vortex_expr.specs.Meanings.Meaning as meanings;
ghost use Rattle.vortex_expr.specs.Meanings.Typing.{type_of};
ghost use Rattle.vortex_expr.specs.Trees.Tree as tree;
ghost use Rattle.vortex_rewrite.specs.Answers.{Makes};
ghost use Rattle.vortex_normal.specs.Ends as ends;
ghost use Rattle.vortex_normal.specs.Intervals.{place_at};

use crate::range_predicate::compared;
use std::alloc::Global;
use std::cmp::Ordering;
use vortex_base::dtype::DType;
use vortex_base::pvalue::PValue;
use vortex_base::scalar::Scalar;
use vortex_base::scalar_value::ScalarValue;
use vortex_expr::bound;
use vortex_expr::bound_expression::BoundExpression;
use vortex_expr::bound_expression::parts::Parts;
use vortex_expr::scalar_fn::Operator;
use vortex_rewrite::built::expect_memory_only;
use vortex_rewrite::predicate::Predicate;
use vortex_stats::error::StatsError;

fn is_least_number(number: PValue) -> bool
    ensures { result ≡ not (int_lt (least (ptype_of number)) (number_of number)) }
{
    number.prev().is_none()
}

fn is_greatest_number(number: PValue) -> bool
    ensures { result ≡ not (int_lt (number_of number) (greatest (ptype_of number))) }
{
    number.next().is_none()
}

fn is_least(value: &ScalarValue) -> bool
    ensures { result ≡ ends.is_least value.now }
{
    match value {
        ScalarValue::Bool(truth) => !*truth,
        ScalarValue::Primitive(number) => is_least_number(*number),
        ScalarValue::Utf8(text) => text.as_str().is_empty(),
        ScalarValue::Binary(bytes) => bytes.as_slice().is_empty(),
    }
}

fn is_greatest(value: &ScalarValue) -> bool
    ensures { result ≡ ends.is_greatest value.now }
{
    match value {
        ScalarValue::Bool(truth) => *truth,
        ScalarValue::Primitive(number) => is_greatest_number(*number),
        ScalarValue::Utf8(_) | ScalarValue::Binary(_) => false,
    }
}

fn holds(operator: Operator, order: Ordering) -> bool
    ensures { result ≡ meanings.holds operator order }
{
    match operator {
        Operator::Eq => order.is_eq(),
        Operator::NotEq => !order.is_eq(),
        Operator::Gt => order.is_gt(),
        Operator::Gte => !order.is_lt(),
        Operator::Lt => order.is_lt(),
        Operator::Lte => !order.is_gt(),
        Operator::And | Operator::Or => false,
    }
}

fn of_both(a: bool, b: bool) -> Option<bool>
    ensures { result ≡ ends.of_both a b }
{
    match (a, b) {
        (true, true) => Some(true),
        (false, false) => Some(false),
        _ => None,
    }
}

// The truth of a comparison with the value, if it is the same of each value of its type.
fn by_end(column_first: bool, operator: Operator, value: &ScalarValue) -> Option<bool>
    ensures { result ≡ ends.by_end column_first operator value.now }
{
    let equal = holds(operator, Ordering::Equal);
    let from_below = of_both(equal, holds(operator, Ordering::Greater));
    let from_above = of_both(holds(operator, Ordering::Less), equal);
    if is_least(value) {
        if column_first { from_below } else { from_above }
    } else if is_greatest(value) {
        if column_first { from_above } else { from_below }
    } else {
        None
    }
}

fn is_in_order(column_first: bool, operator: Operator, a: &ScalarValue, b: &ScalarValue) -> bool
    ensures { result ≡ ends.in_order column_first operator a.now b.now }
{
    if column_first {
        holds(operator, a.cmp(b))
    } else {
        holds(operator, b.cmp(a))
    }
}

// Whether a column has a value, or false.
fn each_value(
    alloc: Global,
    place: usize,
    dtype: DType,
    truth: bool,
) -> Result<Predicate, StatsError>
    ensures { Makes (ends.each_value (place_at place dtype) truth) result }
{
    if truth {
        let column = expect_memory_only(bound::col(alloc, place, dtype))?;
        Predicate::is_not_null(alloc, &column)
    } else {
        Predicate::truth(alloc, false)
    }
}

// Whether a column's truth is one of those that are let through.
fn of_truths(
    alloc: Global,
    place: usize,
    dtype: DType,
    when_false: bool,
    when_true: bool,
) -> Result<Predicate, StatsError>
    requires { (truth : Bool) → IsTrue (is_value (value.Bool truth) dtype) }
    ensures { Makes (ends.of_truths (place_at place dtype) when_false when_true) result }
{
    if when_false == when_true {
        each_value(alloc, place, dtype, when_true)
    } else {
        compared(
            alloc,
            place,
            dtype,
            Operator::Eq,
            &ScalarValue::Bool(when_true),
        )
    }
}

// A column beside a truth, if the column is one of truths.
fn at_truth(
    alloc: Global,
    column_first: bool,
    operator: Operator,
    place: usize,
    dtype: DType,
    truth: &ScalarValue,
) -> Result<Option<Predicate>, StatsError>
    ensures { let on_false = ends.in_order column_first operator (value.Bool false) truth.now in
        let on_true = ends.in_order column_first operator (value.Bool true) truth.now in
        Makes (ends.of_type (place_at place dtype) dtype on_false on_true) result }
{
    match dtype {
        DType::Bool(_) => {
            let on_false = is_in_order(column_first, operator, &ScalarValue::Bool(false), truth);
            let on_true = is_in_order(column_first, operator, &ScalarValue::Bool(true), truth);
            Ok(Some(of_truths(alloc, place, dtype, on_false, on_true)?))
        }
        _ => Ok(None),
    }
}

// Whether a column has a value, or false, if one of them is meant.
fn each_or_none(
    alloc: Global,
    place: usize,
    dtype: DType,
    truth: Option<bool>,
) -> Result<Option<Predicate>, StatsError>
    ensures { Makes (option_map (ends.each_value (place_at place dtype)) truth) result }
{
    match truth {
        Some(truth) => Ok(Some(each_value(alloc, place, dtype, truth)?)),
        None => Ok(None),
    }
}

// A column beside a value, where their comparison says less than it seems to, or a truth.
fn at_value(
    alloc: Global,
    column_first: bool,
    operator: Operator,
    place: usize,
    dtype: DType,
    value: &Scalar,
) -> Result<Option<Predicate>, StatsError>
    ensures { let column = place_at place dtype in
        Makes (ends.at_value column column_first operator value.now.value) result }
{
    match value.value() {
        None => Ok(None),
        Some(value) => match value {
            ScalarValue::Bool(_) => at_truth(alloc, column_first, operator, place, dtype, value),
            ScalarValue::Primitive(_) => {
                each_or_none(alloc, place, dtype, by_end(column_first, operator, value))
            }
            ScalarValue::Utf8(_) => {
                each_or_none(alloc, place, dtype, by_end(column_first, operator, value))
            }
            ScalarValue::Binary(_) => {
                each_or_none(alloc, place, dtype, by_end(column_first, operator, value))
            }
        },
    }
}

fn by_value(
    alloc: Global,
    operator: Operator,
    left: &BoundExpression,
    right: &BoundExpression,
) -> Result<Option<Predicate>, StatsError>
    ensures { Makes (ends.by_value operator left.now right.now) result }
{
    match (left.parts(), right.parts()) {
        (Parts::Column(place, dtype), Parts::Literal(value)) => {
            at_value(alloc, true, operator, place, dtype, value)
        }
        (Parts::Literal(value), Parts::Column(place, dtype)) => {
            at_value(alloc, false, operator, place, dtype, value)
        }
        _ => Ok(None),
    }
}

// So of a comparison alone.
fn known(
    alloc: Global,
    operator: Operator,
    left: &BoundExpression,
    right: &BoundExpression,
) -> Result<Option<Predicate>, StatsError>
    ensures { let known = ends.by_value operator left.now right.now in
        Makes (ends.of_comparison operator known) result }
{
    match operator {
        Operator::And | Operator::Or => Ok(None),
        Operator::Eq => by_value(alloc, operator, left, right),
        Operator::NotEq => by_value(alloc, operator, left, right),
        Operator::Gt => by_value(alloc, operator, left, right),
        Operator::Gte => by_value(alloc, operator, left, right),
        Operator::Lt => by_value(alloc, operator, left, right),
        Operator::Lte => by_value(alloc, operator, left, right),
    }
}

/// A comparison, by the ends of its column's type where the other operand is a value: never true,
/// a test that the column has a value, or an equality with a truth.
pub(crate) fn ended(
    alloc: Global,
    operator: Operator,
    left: BoundExpression,
    right: BoundExpression,
) -> Result<Predicate, StatsError>
    requires { IsOk (type_of (tree.binary operator left right)) }
    ensures { Makes (ends.ended operator left right) result }
{
    match known(alloc, operator, &left, &right)? {
        Some(known) => Ok(known),
        None => Predicate::binary(alloc, operator, left, right),
    }
}
