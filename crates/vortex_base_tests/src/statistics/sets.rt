//! Sets by the built code: writes, look-ups, readings and iterators.
use crate::statistics::callers::{counted, entries_of, statistics_of};
use crate::statistics::testing::{Entry, I32, UTF8, has, int, text, word};
use smallvec::SmallVec;
use std::alloc::{AllocError, Global};
use std::process::Abort;
use vortex_base::scalar_value::ScalarValue;
use vortex_stats::error::StatsError;
use vortex_stats::precision::Precision::{Absent, Exact};
use vortex_stats::stat::Stat::{self, Max, Min, NullCount, Sum};
use vortex_stats::stats_set::{StatsArray, StatsSet};

// Max 100 and then Min 42, which the caller knows to be of two statistics.
fn unchecked(alloc: Global) -> Result<StatsSet, StatsError> {
    let mut entries: StatsArray = SmallVec::new(alloc);
    entries.push((Max, int(100)))?;
    entries.push((Min, int(42)))?;
    Ok(StatsSet::new_unchecked(alloc, entries))
}

fn expect_statistics(rt: &impl Abort, alloc: Global, set: &StatsSet, expected: &[Stat]) {
    let found = statistics_of(alloc, set).expect(rt, "statistics");
    assert!(rt; found.as_slice() == expected && counted(set) == set.len());
}

#[test]
fn entries_keep_their_places(rt: HostRuntime) {
    let alloc = rt.alloc();
    let mut set = unchecked(alloc).expect(&rt, "a set");
    set.set(Max, int(4)).expect(&rt, "a maximum");
    set.set(Sum, Absent).expect(&rt, "no sum");
    expect_statistics(&rt, alloc, &set, &[Max, Min, Sum]);
    set.retain_only(&[Sum, Max]);
    expect_statistics(&rt, alloc, &set, &[Max, Sum]);
    set.clear(Max);
    set.clear(NullCount);
    let entries = entries_of(alloc, set).expect(&rt, "entries");
    assert!(rt; entries.len() == 1);
}

#[test]
fn texts(rt: HostRuntime) {
    let alloc = rt.alloc();
    let mut set = StatsSet::new(alloc);
    assert!(rt; set.is_empty());
    set.put(Max, text(alloc, "m").expect(&rt, "a text"));
    let copy = set.try_clone().expect(&rt, "a copy");
    let max = set.get(Max).expect(&rt, "a value");
    assert!(rt; has(&copy, Max, max));
    let read = copy.get_as::<String>(Max, &UTF8).expect(&rt, "a reading");
    assert!(rt;
        read.as_exact()
            .expect(&rt, "a string")
            .as_str()
            .starts_with("m and")
    );
}

// Max 1, Min 0 and Max inexactly 4.
fn three_items(alloc: Global) -> Result<Vec<Entry>, AllocError> {
    let mut items = Vec::new(alloc);
    items.push((Max, int(1)))?;
    items.push((Min, int(0)))?;
    items.push((Max, int(4).into_inexact()))?;
    Ok(items)
}

#[test]
fn items(rt: HostRuntime) {
    let alloc = rt.alloc();
    let mut set = StatsSet::of(alloc, Min, int(7));
    let items = three_items(alloc).expect(&rt, "items");
    set.try_extend(items.into_iter())
        .expect(&rt, "an extended set");
    expect_statistics(&rt, alloc, &set, &[Min, Max]);
    let items = three_items(alloc).expect(&rt, "items");
    let set = StatsSet::try_from_iter(alloc, items.into_iter()).expect(&rt, "a set");
    expect_statistics(&rt, alloc, &set, &[Max, Min]);
    assert!(rt; has(&set, Max, int(4).into_inexact()));
    assert!(rt; set.get_as::<u8>(Min, &I32).expect(&rt, "a number") == Exact(0));
    assert!(rt; StatsSet::value_fits(Max, &I32, &int(5)) && set.fits(&I32) && !set.fits(&UTF8));
}

#[test]
fn entries_are_lent_in_their_order(rt: HostRuntime) {
    let set = unchecked(rt.alloc()).expect(&rt, "a set");
    let mut entries = set.iter();
    let first = entries.next().expect(&rt, "an entry");
    assert!(rt; first.0 == Max && first.1 == int(100));
    let second = entries.next().expect(&rt, "an entry");
    assert!(rt; second.0 == Min && second.1 == int(42));
    assert!(rt; entries.next().is_none());
}

#[test]
fn entries_are_handed_over_in_their_order(rt: HostRuntime) {
    let mut entries = unchecked(rt.alloc()).expect(&rt, "a set").into_iter();
    assert!(rt; entries.next().expect(&rt, "an entry") == (Max, int(100)));
    assert!(rt; entries.next().expect(&rt, "an entry") == (Min, int(42)));
    assert!(rt; entries.next().is_none());
}

#[test]
fn a_number_past_the_type_is_a_mismatch(rt: HostRuntime) {
    let set = StatsSet::of(rt.alloc(), Max, int(200));
    assert!(rt; set.get_as::<u8>(Max, &I32).expect(&rt, "a number") == Exact(200));
    let set = StatsSet::of(rt.alloc(), Max, int(300));
    assert!(rt; matches!(set.get_as::<u8>(Max, &I32), Err(StatsError::Mismatch)));
}

#[test]
fn absent_values_fit_each_statistic(rt: HostRuntime) {
    let sum = StatsSet::of(rt.alloc(), Sum, Exact(ScalarValue::from(6i64)));
    assert!(rt; sum.fits(&I32) && !sum.fits(&UTF8));
    let nans = StatsSet::of(rt.alloc(), Stat::NaNCount, word(0));
    assert!(rt; !nans.fits(&I32));
    let absent = StatsSet::of(rt.alloc(), Stat::NaNCount, Absent);
    assert!(rt; absent.fits(&I32) && absent.len() == 1);
    assert!(rt;
        absent
            .get(Stat::NaNCount)
            .expect(&rt, "a value")
            .is_absent()
    );
}
