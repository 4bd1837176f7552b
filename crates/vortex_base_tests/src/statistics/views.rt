//! Sets read and written through typed views.
use crate::statistics::callers::cleared_through_view;
use crate::statistics::testing::{I32, UTF8, int, text};
use std::process::Abort;
use vortex_base::scalar_value::ScalarValue;
use vortex_stats::precision::Precision::{Exact, Inexact};
use vortex_stats::provider::StatsProvider;
use vortex_stats::stat::Stat;
use vortex_stats::stats_set::StatsSet;
use vortex_stats::typed::MutTypedStatsSetRef;

// The number of entries, through the bound.
fn entry_count<P: StatsProvider>(stats: &P) -> usize {
    if stats.is_empty() { 0 } else { stats.len() }
}

#[test]
fn read(rt: HostRuntime) {
    let set = StatsSet::of(rt.alloc(), Stat::Max, int(300).into_inexact());
    assert!(rt; set.fits(&I32));
    let view = set.as_typed_ref(&I32);
    assert!(rt; view.get_as::<u16>(Stat::Max).expect(&rt, "a number") == Inexact(300));
    assert!(rt; *view.dtype() == I32 && view.values().len() == 1 && entry_count(&view) == 1);
}

#[test]
fn read_texts(rt: HostRuntime) {
    let max = text(rt.alloc(), "m").expect(&rt, "a text");
    let set = StatsSet::of(rt.alloc(), Stat::Max, max);
    assert!(rt; set.fits(&UTF8));
    let view = set.as_typed_ref(&UTF8);
    assert!(rt; view.get(Stat::Max).expect(&rt, "a scalar").is_exact());
    assert!(rt;
        view.get_as::<String>(Stat::Max)
            .expect(&rt, "a string")
            .is_exact()
    );
}

// Sets the sum through the view of an empty set, reads it there, and clears what isn't there.
fn set_the_sum(rt: &impl Abort, view: &mut MutTypedStatsSetRef<'_>) {
    let sum = Exact(ScalarValue::from(6i64));
    assert!(rt; StatsSet::value_fits(Stat::Sum, view.dtype(), &sum));
    view.set(Stat::Sum, sum).expect(rt, "a sum");
    view.clear(Stat::Max);
    assert!(rt; view.get_as::<u8>(Stat::Sum).expect(rt, "a sum") == Exact(6));
    assert!(rt; view.get(Stat::Sum).expect(rt, "a scalar").is_exact());
    assert!(rt; view.values().len() == 1 && entry_count(view) == 1);
}

#[test]
fn write(rt: HostRuntime) {
    let mut set = StatsSet::new(rt.alloc());
    assert!(rt; set.fits(&I32));
    set_the_sum(&rt, &mut set.as_mut_typed_ref(&I32));
    assert!(rt; set.len() == 1 && set.fits(&I32));
    cleared_through_view(&mut set, &I32, Stat::Sum);
    assert!(rt; set.is_empty());
}
