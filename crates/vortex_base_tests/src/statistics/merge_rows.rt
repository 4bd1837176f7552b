//! Merges and combinations of sets of numbers, each with all entries that it has to leave.
use crate::statistics::testing::{I32, Value, int, truth, word};
use std::alloc::Global;
use std::process::Abort;
use vortex_base::dtype::DType;
use vortex_base::scalar_value::ScalarValue;
use vortex_base::types::{Nullability, PType};
use vortex_stats::error::StatsError;
use vortex_stats::precision::Precision::{Absent, Exact};
use vortex_stats::stat::Stat::{
    self, IsConstant, IsSorted, IsStrictSorted, Max, Min, NullCount, Sum, UncompressedSizeInBytes,
};
use vortex_stats::stats_set::StatsSet;

const I64: DType = DType::Primitive(PType::I64, Nullability::NonNullable);

fn none(alloc: Global) -> StatsSet {
    StatsSet::new(alloc)
}

fn one(alloc: Global, stat: Stat, value: Value) -> StatsSet {
    StatsSet::of(alloc, stat, value)
}

// The set with one entry more.
fn and(mut set: StatsSet, stat: Stat, value: Value) -> StatsSet {
    set.put(stat, value);
    set
}

fn sum(value: i64) -> Value {
    Exact(ScalarValue::from(value))
}

// Whether the sets have the same entries in the same order.
fn are_alike(set: &StatsSet, other: &StatsSet) -> bool {
    set.len() == other.len() && set.iter().zip(other.iter()).all(|(x, y)| *x == *y)
}

// The sets of a column of this type merge to this one.
fn expect_merged_in(
    rt: &impl Abort,
    dtype: &DType,
    set: StatsSet,
    other: &StatsSet,
    merged: &StatsSet,
) {
    assert!(rt; set.fits(dtype) && other.fits(dtype));
    let found = set.merge_ordered(other, dtype).expect(rt, "a merge");
    assert!(rt; are_alike(&found, merged));
}

fn expect_merged(rt: &impl Abort, set: StatsSet, other: StatsSet, merged: StatsSet) {
    expect_merged_in(rt, &I32, set, &other, &merged);
}

#[test]
fn sums_that_leave_their_type_are_cleared(rt: HostRuntime) {
    let alloc = rt.alloc();
    let most = (
        one(alloc, Sum, sum(i64::MAX)),
        one(alloc, Sum, sum(i64::MAX)),
    );
    expect_merged_in(&rt, &I64, most.0, &most.1, &none(alloc));
    let counts = one(alloc, NullCount, word(u64::MAX).into_inexact());
    expect_merged(&rt, counts, one(alloc, NullCount, word(1)), none(alloc));
    let sums = (one(alloc, Sum, sum(37)), one(alloc, Sum, sum(42)));
    expect_merged(&rt, sums.0, sums.1, one(alloc, Sum, sum(79)));
}

// A least value and what is told of all values being equal.
fn constant(alloc: Global, min: Value, is_constant: Value) -> StatsSet {
    and(one(alloc, Min, min), IsConstant, is_constant)
}

#[test]
fn constants_are_compared_by_their_least_values(rt: HostRuntime) {
    let alloc = rt.alloc();
    let (yes, no) = (|| truth(true), || truth(false));
    let of_42 = || constant(alloc, int(42), truth(true));
    expect_merged(&rt, of_42(), of_42(), of_42());
    let of_7 = constant(alloc, int(7), yes());
    expect_merged(&rt, of_42(), of_7, constant(alloc, int(7), no()));
    let inexact = constant(alloc, int(42).into_inexact(), yes());
    expect_merged(&rt, of_42(), inexact, one(alloc, Min, int(42)));
    let told = constant(alloc, int(42), no());
    expect_merged(&rt, told, of_42(), constant(alloc, int(42), no()));
    let unsure = constant(alloc, int(42), yes().into_inexact());
    expect_merged(&rt, unsure, of_42(), one(alloc, Min, int(42)));
    let told = one(alloc, IsConstant, no());
    expect_merged(&rt, none(alloc), told, one(alloc, IsConstant, no()));
}

// The statistic is cleared where one side alone has it.
fn expect_cleared(rt: &impl Abort, alloc: Global, stat: Stat, value: (Value, Value)) {
    expect_merged(rt, one(alloc, stat, value.0), none(alloc), none(alloc));
    expect_merged(rt, none(alloc), one(alloc, stat, value.1), none(alloc));
}

#[test]
fn a_statistic_of_one_side_is_cleared(rt: HostRuntime) {
    let alloc = rt.alloc();
    expect_cleared(&rt, alloc, Min, (int(42), int(42)));
    expect_cleared(&rt, alloc, Max, (int(42), int(42)));
    expect_cleared(&rt, alloc, Sum, (sum(42), sum(42)));
    expect_cleared(&rt, alloc, IsStrictSorted, (truth(true), truth(true)));
}

#[test]
fn bounds_are_united(rt: HostRuntime) {
    let alloc = rt.alloc();
    let least = (one(alloc, Min, int(37)), one(alloc, Min, int(42)));
    expect_merged(&rt, least.0, least.1, one(alloc, Min, int(37)));
    let greatest = (one(alloc, Max, int(37)), one(alloc, Max, int(42)));
    expect_merged(&rt, greatest.0, greatest.1, one(alloc, Max, int(42)));
    let above = one(alloc, Max, int(43).into_inexact());
    let united = one(alloc, Max, int(43).into_inexact());
    expect_merged(&rt, one(alloc, Max, int(42)), above, united);
    let below = one(alloc, Min, int(5).into_inexact());
    expect_merged(&rt, below, one(alloc, Min, int(5)), one(alloc, Min, int(5)));
    let below = one(alloc, Min, int(4).into_inexact());
    let united = one(alloc, Min, int(4).into_inexact());
    expect_merged(&rt, below, one(alloc, Min, int(5)), united);
}

// Values that ascend strictly, or not, and one of their bounds.
fn strict(alloc: Global, is_strict: bool, stat: Stat, bound: Value) -> StatsSet {
    and(one(alloc, IsStrictSorted, truth(is_strict)), stat, bound)
}

#[test]
fn a_strict_order_lasts_where_the_seam_rises(rt: HostRuntime) {
    let alloc = rt.alloc();
    let up_to = |value| strict(alloc, true, Max, int(value));
    let from = |value| strict(alloc, true, Min, value);
    let lasts = || one(alloc, IsStrictSorted, truth(true));
    let unknown = || one(alloc, IsStrictSorted, truth(false).into_inexact());
    expect_merged(&rt, up_to(1), from(int(2)), lasts());
    expect_merged(&rt, up_to(1), from(int(2).into_inexact()), lasts());
    expect_merged(&rt, up_to(2), from(int(1)), unknown());
    expect_merged(&rt, up_to(1), from(int(1)), unknown());
    let unsorted = strict(alloc, false, Min, int(2));
    expect_merged(&rt, up_to(1), unsorted, none(alloc));
    expect_merged(&rt, up_to(1), lasts(), none(alloc));
}

// Statistics of numbers from 1 to 10000, with these counts of nulls and bytes.
fn known(alloc: Global, nulls: u64, bytes: u64) -> StatsSet {
    let bounds = and(one(alloc, Min, int(1)), Max, int(10000));
    let counts = and(bounds, NullCount, word(nulls));
    let sizes = and(counts, UncompressedSizeInBytes, word(bytes));
    and(sizes, IsConstant, truth(false))
}

#[test]
fn an_unordered_merge_forgets_the_order(rt: HostRuntime) {
    let alloc = rt.alloc();
    let sorted = || {
        let known = and(known(alloc, 2, 25), IsSorted, truth(true));
        and(known, IsStrictSorted, truth(true))
    };
    let (set, other) = (sorted(), sorted());
    assert!(rt; set.fits(&I32) && other.fits(&I32));
    let found = set.merge_unordered(&other, &I32).expect(&rt, "a merge");
    assert!(rt; are_alike(&found, &known(alloc, 4, 50)));
}

// The set is combined with the other, and this is left of it.
fn expect_combined(rt: &impl Abort, mut set: StatsSet, other: StatsSet, combined: StatsSet) {
    assert!(rt; set.fits(&I32) && other.fits(&I32));
    set.combine_sets(&other, &I32).expect(rt, "a combination");
    assert!(rt; are_alike(&set, &combined));
}

// The sets conflict at the statistic, and this is left of the first.
fn expect_conflict(
    rt: &impl Abort,
    mut set: StatsSet,
    other: StatsSet,
    at: Stat,
    combined: StatsSet,
) {
    assert!(rt; set.fits(&I32) && other.fits(&I32));
    let told = set.combine_sets(&other, &I32);
    assert!(rt; matches!(told, Err(StatsError::Conflict(stat)) if stat == at));
    assert!(rt; are_alike(&set, &combined));
}

#[test]
fn a_conflict_leaves_the_entries_before_it_combined(rt: HostRuntime) {
    let alloc = rt.alloc();
    let other = and(one(alloc, Max, int(9)), Min, int(4));
    let other = and(other, NullCount, word(0));
    let left = and(one(alloc, Min, int(5)), Max, int(9));
    expect_conflict(&rt, one(alloc, Min, int(5)), other, Min, left);
    let set = and(one(alloc, IsConstant, truth(true)), IsSorted, truth(true));
    let other = and(one(alloc, IsConstant, truth(false)), IsSorted, truth(true));
    let left = and(one(alloc, IsConstant, truth(true)), IsSorted, truth(true));
    expect_conflict(&rt, set, other, IsConstant, left);
}

#[test]
fn truths_are_combined_by_their_precision(rt: HostRuntime) {
    let alloc = rt.alloc();
    let told = |value| one(alloc, IsConstant, truth(value));
    let unsure = |value| one(alloc, IsConstant, truth(value).into_inexact());
    expect_combined(&rt, told(true), told(true), told(true));
    expect_combined(&rt, told(true), unsure(false), told(true));
    expect_combined(&rt, told(false), unsure(false), told(false));
    expect_combined(&rt, told(false), unsure(true), unsure(false));
}

#[test]
fn statistics_of_one_side_are_taken(rt: HostRuntime) {
    let alloc = rt.alloc();
    let first = || and(
        one(alloc, Min, int(42)),
        UncompressedSizeInBytes,
        word(1000),
    );
    let other = and(one(alloc, Max, int(100)), IsStrictSorted, truth(true));
    let all = and(and(first(), Max, int(100)), IsStrictSorted, truth(true));
    expect_combined(&rt, first(), other, all);
}

#[test]
fn exact_bounds_within_inexact_ones_agree(rt: HostRuntime) {
    let alloc = rt.alloc();
    let within = || one(alloc, Max, int(5));
    let below = || one(alloc, Max, int(7).into_inexact());
    expect_combined(&rt, within(), below(), within());
    expect_combined(&rt, below(), within(), within());
}

#[test]
fn absent_entries_say_nothing(rt: HostRuntime) {
    let alloc = rt.alloc();
    let absent = || one(alloc, Max, Absent);
    expect_combined(&rt, none(alloc), absent(), none(alloc));
    expect_combined(&rt, absent(), absent(), none(alloc));
    let greatest = || one(alloc, Max, int(9));
    expect_combined(&rt, greatest(), absent(), greatest());
    expect_combined(&rt, absent(), greatest(), greatest());
}
