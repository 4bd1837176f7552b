//! The table of statistics by the built code: their names, also as texts, and their numbers.
use std::alloc::{AllocError, Global};
use std::process::Abort;
use vortex_stats::error::StatsError;
use vortex_stats::stat::Stat;

// The statistic is shown as its name, and found by its number and its aggregate.
fn expect_named(rt: &impl Abort, alloc: Global, stat: Stat, name: &str) {
    let shown = format!(in alloc; "{stat}").expect(rt, "a text");
    assert!(rt; shown.as_str() == name && stat.name() == name);
    assert!(rt; Stat::from_number(stat.number()) == Some(stat));
    let found = stat
        .aggregate_fn()
        .and_then(|found| Stat::from_aggregate_fn(&found));
    assert!(rt; found.is_none_or(|found| found == stat));
}

#[test]
fn kinds(rt: HostRuntime) {
    let names = [
        "is_constant",
        "is_sorted",
        "is_strict_sorted",
        "max",
        "min",
        "sum",
        "null_count",
        "uncompressed_size_in_bytes",
        "nan_count",
    ];
    for (stat, name) in Stat::all().zip(&names) {
        expect_named(&rt, rt.alloc(), stat, name);
    }
    assert!(rt; Stat::default() == Stat::IsConstant && Stat::Max < Stat::Min);
    assert!(rt; Stat::Max.is_commutative() && Stat::Max.has_same_dtype_as_array());
    assert!(rt; StatsError::Memory(AllocError).number() == 1);
    assert!(rt; StatsError::Conflict(Stat::Min).number() == 5);
}

#[test]
fn max_and_min_alone_are_of_the_columns_type(rt: HostRuntime) {
    for stat in Stat::all() {
        let is_bound = stat == Stat::Max || stat == Stat::Min;
        assert!(rt; stat.has_same_dtype_as_array() == is_bound);
    }
}

#[test]
fn sorted_truths_alone_are_not_commutative(rt: HostRuntime) {
    for stat in Stat::all() {
        let is_sorted = stat == Stat::IsSorted || stat == Stat::IsStrictSorted;
        assert!(rt; stat.is_commutative() != is_sorted);
    }
}
