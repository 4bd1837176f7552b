//! Normal forms of predicates over the columns a and b of I32 with nulls, c of Bool and s of texts.
use std::alloc::Global;
use std::process::Abort;
use vortex_base::{DType, Nullability, ScalarValue};
use vortex_expr::{BoundExpression, LikeOptions};
use vortex_normal::normalize::{narrow, normalize};
use vortex_stats::StatsError;
use vortex_testing::nodes::*;

mod deep;
mod turns;

const BOOL_OR_NULL: DType = DType::Bool(Nullability::Nullable);

const NOT_LIKE: LikeOptions = LikeOptions {
    negated: true,
    case_insensitive: false,
};

/// A comparison of the column a.
#[derive(Clone, Copy)]
enum Test {
    Lt,
    Gt,
    Eq,
    NotEq,
}

fn a(alloc: Global) -> Built {
    col(alloc, 0, I32_OR_NULL)
}

fn c(alloc: Global) -> Built {
    col(alloc, 2, BOOL_OR_NULL)
}

fn s(alloc: Global) -> Built {
    col(alloc, 3, UTF8)
}

// A number of the type of a and b.
fn num(alloc: Global, value: i32) -> Built {
    lit(alloc, I32_OR_NULL, ScalarValue::from(value))
}

// Whether a column of numbers stands so to this one.
fn tested(alloc: Global, place: usize, test: Test, value: i32) -> Built {
    let (column, value) = (col(alloc, place, I32_OR_NULL), num(alloc, value));
    match test {
        Test::Lt => lt(alloc, column, value),
        Test::Gt => gt(alloc, column, value),
        Test::Eq => eq(alloc, column, value),
        Test::NotEq => not_eq(alloc, column, value),
    }
}

fn a_lt(alloc: Global, value: i32) -> Built {
    tested(alloc, 0, Test::Lt, value)
}

fn a_gt(alloc: Global, value: i32) -> Built {
    tested(alloc, 0, Test::Gt, value)
}

fn a_eq(alloc: Global, value: i32) -> Built {
    tested(alloc, 0, Test::Eq, value)
}

fn a_not_eq(alloc: Global, value: i32) -> Built {
    tested(alloc, 0, Test::NotEq, value)
}

fn c_eq(alloc: Global, value: bool) -> Built {
    eq(
        alloc,
        c(alloc),
        lit(alloc, BOOL_OR_NULL, ScalarValue::from(value)),
    )
}

// From the one number to the other.
fn a_within(alloc: Global, low: i32, high: i32) -> Built {
    between(alloc, a(alloc), num(alloc, low), num(alloc, high), CLOSED)
}

fn s_like(alloc: Global, pattern: &str) -> Built {
    like(alloc, s(alloc), text(alloc, pattern))
}

fn expect(rt: &impl Abort, alloc: Global, predicate: Built, expected: Built) {
    let predicate = predicate.expect(rt, "predicate");
    let found = normalize(alloc, &predicate).expect(rt, "a normal form");
    assert!(rt; found == expected.expect(rt, "expected"));
}

#[test]
fn leaves(rt: HostRuntime) {
    let alloc = rt.alloc();
    let some = is_not_null(alloc, a(alloc));
    expect(
        &rt,
        alloc,
        lt_eq(alloc, a(alloc), num(alloc, i32::MAX)),
        some,
    );
    expect(&rt, alloc, a_lt(alloc, i32::MIN), truth(alloc, false));
    expect(&rt, alloc, c(alloc), c_eq(alloc, true));
    expect(
        &rt,
        alloc,
        gt(alloc, num(alloc, 5), a(alloc)),
        a_lt(alloc, 5),
    );
    expect(
        &rt,
        alloc,
        lt(alloc, num(alloc, 1), num(alloc, 2)),
        truth(alloc, true),
    );
    expect(&rt, alloc, null_of(alloc, BOOL), truth(alloc, false));
    let equal = eq(alloc, c(alloc), lt(alloc, num(alloc, 1), num(alloc, 2)));
    expect(&rt, alloc, equal, c_eq(alloc, true));
    let below = is_null(alloc, a(alloc));
    expect(&rt, alloc, not(alloc, is_not_null(alloc, a(alloc))), below);
}

#[test]
fn patterns(rt: HostRuntime) {
    let alloc = rt.alloc();
    expect(
        &rt,
        alloc,
        s_like(alloc, "a\\%b"),
        eq(alloc, s(alloc), text(alloc, "a%b")),
    );
    let (low, high) = (text(alloc, "abc"), text(alloc, "abd"));
    let range = between(alloc, s(alloc), low, high, OPEN_ABOVE);
    expect(&rt, alloc, s_like(alloc, "abc%"), range);
    expect(&rt, alloc, s_like(alloc, "%"), is_not_null(alloc, s(alloc)));
    expect(&rt, alloc, s_like(alloc, "a%c"), s_like(alloc, "a%c"));
    let unlike = like_with(alloc, s(alloc), text(alloc, "a%b"), NOT_LIKE);
    expect(&rt, alloc, not(alloc, s_like(alloc, "a%b")), unlike);
    let touching = or(alloc, s_like(alloc, "a%"), s_like(alloc, "b%"));
    let (low, high) = (text(alloc, "a"), text(alloc, "c"));
    expect(
        &rt,
        alloc,
        touching,
        between(alloc, s(alloc), low, high, OPEN_ABOVE),
    );
}

#[test]
fn sets(rt: HostRuntime) {
    let alloc = rt.alloc();
    let apart = and(alloc, a_gt(alloc, 5), a_lt(alloc, 3));
    expect(&rt, alloc, apart, truth(alloc, false));
    let all = or(alloc, a_lt(alloc, 5), a_gt(alloc, 3));
    expect(&rt, alloc, all, is_not_null(alloc, a(alloc)));
    let wider = or(alloc, a_within(alloc, 1, 4), a_within(alloc, 3, 9));
    expect(&rt, alloc, wider, a_within(alloc, 1, 9));
    let outside = or(alloc, a_lt(alloc, 4), a_gt(alloc, 6));
    expect(&rt, alloc, not(alloc, a_within(alloc, 4, 6)), outside);
    let hole = or(alloc, a_lt(alloc, 5), a_gt(alloc, 5));
    expect(&rt, alloc, hole, a_not_eq(alloc, 5));
    let some = and(alloc, is_not_null(alloc, a(alloc)), a_gt(alloc, 3));
    expect(&rt, alloc, some, a_gt(alloc, 3));
    let either = or(
        alloc,
        is_null(alloc, a(alloc)),
        is_not_null(alloc, a(alloc)),
    );
    expect(&rt, alloc, either, truth(alloc, true));
    let first = and(alloc, a_gt(alloc, 5), tested(alloc, 1, Test::Lt, 1));
    let first = and(alloc, first, a_lt(alloc, 9));
    let range = between(alloc, a(alloc), num(alloc, 5), num(alloc, 9), OPEN);
    expect(
        &rt,
        alloc,
        first,
        and(alloc, range, tested(alloc, 1, Test::Lt, 1)),
    );
}

// Asserts that a predicate is narrowed to another.
fn expect_narrow(rt: &impl Abort, alloc: Global, predicate: Built, expected: Built) {
    let predicate = predicate.expect(rt, "predicate");
    let found = narrow(alloc, &predicate).expect(rt, "a narrowed predicate");
    assert!(rt; found == expected.expect(rt, "expected"));
}

#[test]
fn sides_of_an_or_are_narrowed(rt: HostRuntime) {
    let alloc = rt.alloc();
    let b_gt = |value: i32| tested(alloc, 1, Test::Gt, value);
    let either = or(alloc, a_lt(alloc, 3), b_gt(2));
    let found = and(alloc, a_gt(alloc, 5), b_gt(2));
    expect_narrow(&rt, alloc, and(alloc, a_gt(alloc, 5), either), found);
    let apart = or(alloc, a_lt(alloc, 3), b_gt(2));
    let same = or(alloc, a_lt(alloc, 3), b_gt(2));
    expect_narrow(&rt, alloc, apart, same);
    let refused = narrow(alloc, &a(alloc).expect(&rt, "a column"));
    assert!(rt; matches!(refused, Err(StatsError::NotPredicate)));
}
