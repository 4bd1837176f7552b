//! Sets of values as predicates of a column.
ghost use Rattle.std.specs.Prelude.{◌≡◌, IsTrue, Some, false, map, option_map};
ghost use Rattle.vortex_expr.specs.Trees.Tree as tree;
ghost use Rattle.vortex_base.specs.Data.Values.{is_value};
ghost use Rattle.vortex_rewrite.specs.Answers.{Makes, OkOrMemory};
ghost use Rattle.vortex_rewrite.specs.Rewriting.Predicates.{is_connective};
ghost use Rattle.vortex_normal.specs.Intervals as spec;
ghost use Rattle.vortex_normal.specs.Intervals.{cut_of, interval_of};
ghost use Rattle.vortex_normal.specs.Groups.{cut_fits, interval_fits, set_fits};

use crate::balanced::balanced;
use crate::interval::{Cut, Interval, is_at_most};
use std::alloc::Global;
use vortex_base::dtype::DType;
use vortex_base::scalar::Scalar;
use vortex_base::scalar_value::ScalarValue;
use vortex_expr::bound;
use vortex_expr::bound_expression::BoundExpression;
use vortex_expr::scalar_fn::{BetweenOptions, Connective, Operator, StrictComparison};
use vortex_rewrite::built::expect_memory_only;
use vortex_rewrite::predicate::Predicate;
use vortex_stats::error::StatsError;

fn literal_as(
    alloc: Global,
    dtype: DType,
    value: &ScalarValue,
) -> Result<BoundExpression, StatsError>
    requires { IsTrue (is_value value.now dtype) }
    ensures { Makes (tree.literal (record { dtype = dtype; value = Some value.now })) result }
{
    let value = expect_memory_only(value.try_clone())?;
    match Scalar::try_new(dtype, Some(value)) {
        Ok(scalar) => expect_memory_only(bound::lit(alloc, scalar)),
        Err(_) => unreachable!(),
    }
}

// Whether a column's value compares so with a value of its type.
pub(crate) fn compared(
    alloc: Global,
    place: usize,
    dtype: DType,
    operator: Operator,
    value: &ScalarValue,
) -> Result<Predicate, StatsError>
    requires value { IsTrue (is_value value.now dtype) }
    requires comparison { is_connective operator ≡ false }
    ensures { let column = spec.place_at place dtype in
        Makes (tree.binary operator (tree.column column) (spec.literal_as column value.now))
        result }
{
    let column = expect_memory_only(bound::col(alloc, place, dtype))?;
    let literal = literal_as(alloc, dtype, value)?;
    Predicate::binary(alloc, operator, column, literal)
}

fn ranged(
    alloc: Global,
    place: usize,
    dtype: DType,
    options: BetweenOptions,
    lower: &ScalarValue,
    upper: &ScalarValue,
) -> Result<Predicate, StatsError>
    requires lower { IsTrue (is_value lower.now dtype) }
    requires upper { IsTrue (is_value upper.now dtype) }
    ensures { let column = spec.place_at place dtype in
        Makes (spec.range_of column options lower.now upper.now) result }
{
    let column = expect_memory_only(bound::col(alloc, place, dtype))?;
    let lower = literal_as(alloc, dtype, lower)?;
    let upper = literal_as(alloc, dtype, upper)?;
    Predicate::between(alloc, options, column, lower, upper)
}

const CLOSED: StrictComparison = StrictComparison::NonStrict;

const OPEN: StrictComparison = StrictComparison::Strict;

fn options(lower_strict: StrictComparison, upper_strict: StrictComparison) -> BetweenOptions
    ensures { result ≡ record { lower_strict = lower_strict; upper_strict = upper_strict } }
{
    BetweenOptions {
        lower_strict,
        upper_strict,
    }
}

// Whether a column's value lies from the one value to the other.
fn closed_range(
    alloc: Global,
    place: usize,
    dtype: DType,
    lower: &ScalarValue,
    upper: &ScalarValue,
) -> Result<Predicate, StatsError>
    requires lower { IsTrue (is_value lower.now dtype) }
    requires upper { IsTrue (is_value upper.now dtype) }
    ensures { let column = spec.place_at place dtype in
        Makes (spec.closed_range column lower.now upper.now) result }
{
    if is_at_most(upper, lower) && is_at_most(lower, upper) {
        compared(alloc, place, dtype, Operator::Eq, lower)
    } else {
        ranged(alloc, place, dtype, options(CLOSED, CLOSED), lower, upper)
    }
}

// Whether a column's value lies between two cuts.
fn between_cuts(
    alloc: Global,
    place: usize,
    dtype: DType,
    low: Cut<'_>,
    high: Cut<'_>,
) -> Result<Predicate, StatsError>
    requires low { IsTrue (cut_fits dtype (cut_of low)) }
    requires high { IsTrue (cut_fits dtype (cut_of high)) }
    ensures { let column = spec.place_at place dtype in
        Makes (spec.between_cuts column (cut_of low.entry) (cut_of high.entry)) result }
{
    match (low, high) {
        (Cut::Lowest, Cut::Highest) => {
            let column = expect_memory_only(bound::col(alloc, place, dtype))?;
            Predicate::is_not_null(alloc, &column)
        }
        (Cut::Lowest, Cut::Before(u)) => compared(alloc, place, dtype, Operator::Lt, u),
        (Cut::Lowest, Cut::After(u)) => compared(alloc, place, dtype, Operator::Lte, u),
        (Cut::Before(l), Cut::Highest) => compared(alloc, place, dtype, Operator::Gte, l),
        (Cut::After(l), Cut::Highest) => compared(alloc, place, dtype, Operator::Gt, l),
        (Cut::Before(l), Cut::Before(u)) => {
            ranged(alloc, place, dtype, options(CLOSED, OPEN), l, u)
        }
        (Cut::Before(l), Cut::After(u)) => closed_range(alloc, place, dtype, l, u),
        (Cut::After(l), Cut::Before(u)) => ranged(alloc, place, dtype, options(OPEN, OPEN), l, u),
        (Cut::After(l), Cut::After(u)) => ranged(alloc, place, dtype, options(OPEN, CLOSED), l, u),
        (Cut::Highest, _) | (_, Cut::Lowest) => Predicate::truth(alloc, false),
    }
}

// The one value that two intervals leave out, if there is nothing else that they do.
fn only_hole<'a>(first: &Interval<'a>, second: &Interval<'a>) -> Option<&'a ScalarValue>
    ensures { option_map (λ v. v.now) result
        ≡ spec.only_hole (interval_of first.now) (interval_of second.now) }
{
    match (first.low, first.high, second.low, second.high) {
        (Cut::Lowest, Cut::Before(u), Cut::After(l), Cut::Highest) => {
            if is_at_most(u, l) && is_at_most(l, u) {
                Some(u)
            } else {
                None
            }
        }
        _ => None,
    }
}

// Whether a column's value is in one of two intervals.
fn two_test(
    alloc: Global,
    place: usize,
    dtype: DType,
    first: &Interval<'_>,
    second: &Interval<'_>,
) -> Result<Predicate, StatsError>
    requires first { IsTrue (interval_fits dtype (interval_of first.now)) }
    requires second { IsTrue (interval_fits dtype (interval_of second.now)) }
    ensures { let column = spec.place_at place dtype in
        Makes (spec.two_test column (interval_of first.now) (interval_of second.now)) result }
{
    match only_hole(first, second) {
        Some(value) => compared(alloc, place, dtype, Operator::NotEq, value),
        None => {
            let first = between_cuts(alloc, place, dtype, first.low, first.high)?;
            let second = between_cuts(alloc, place, dtype, second.low, second.high)?;
            Predicate::connect(alloc, Operator::Or, first, second)
        }
    }
}

// Whether a column's value is in each of some intervals.
fn interval_tests(
    alloc: Global,
    place: usize,
    dtype: DType,
    set: &[Interval<'_>],
) -> Result<Vec<Predicate>, StatsError>
    requires { IsTrue (set_fits dtype (map interval_of set.now)) }
    ensures { let column = spec.place_at place dtype in OkOrMemory result (λ tests. tests.items
        ≡ map (spec.interval_test column) (map interval_of set.now)) }
{
    let mut tests = Vec::new(alloc);
    for interval in set {
        let test = between_cuts(alloc, place, dtype, interval.low, interval.high)?;
        tests.push(test)?;
    }
    Ok(tests)
}

// Whether a column's value is in a set.
fn set_test(
    alloc: Global,
    place: usize,
    dtype: DType,
    set: &[Interval<'_>],
) -> Result<Predicate, StatsError>
    requires { IsTrue (set_fits dtype (map interval_of set.now)) }
    ensures { let column = spec.place_at place dtype in
        Makes (spec.set_test column (map interval_of set.now)) result }
{
    match set {
        [] => Predicate::truth(alloc, false),
        [only] => between_cuts(alloc, place, dtype, only.low, only.high),
        [first, second] => two_test(alloc, place, dtype, first, second),
        _ => {
            let tests = interval_tests(alloc, place, dtype, set)?;
            balanced(alloc, Connective::Or, tests)
        }
    }
}

fn is_full(set: &[Interval<'_>]) -> bool
    ensures { result ≡ spec.is_full (map interval_of set.now) }
{
    match set {
        [] => false,
        [first, ..] => matches!((first.low, first.high), (Cut::Lowest, Cut::Highest)),
    }
}

fn null_test(alloc: Global, place: usize, dtype: DType) -> Result<Predicate, StatsError>
    ensures { let column = spec.place_at place dtype in
        Makes (tree.is_null (tree.column column)) result }
{
    let column = expect_memory_only(bound::col(alloc, place, dtype))?;
    Predicate::is_null(alloc, &column)
}

/// Whether a column has a value in a set, or is null where that counts.
pub(crate) fn values_test(
    alloc: Global,
    place: usize,
    dtype: DType,
    with_null: bool,
    set: &[Interval<'_>],
) -> Result<Predicate, StatsError>
    requires { IsTrue (set_fits dtype (map interval_of set.now)) }
    ensures { let column = spec.place_at place dtype in
        Makes (spec.values_test column with_null (map interval_of set.now)) result }
{
    if !with_null {
        return set_test(alloc, place, dtype, set);
    }
    if set.is_empty() {
        return null_test(alloc, place, dtype);
    }
    if is_full(set) {
        return Predicate::truth(alloc, true);
    }
    let null = null_test(alloc, place, dtype)?;
    let test = set_test(alloc, place, dtype, set)?;
    Predicate::connect(alloc, Operator::Or, null, test)
}
