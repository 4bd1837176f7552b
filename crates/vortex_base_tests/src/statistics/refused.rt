//! Each call that takes memory, where every growth may be refused: `rt try --test --fail-alloc N`
//! refuses the Nth.
use crate::statistics::testing::{Entry, int, text};
use std::alloc::Global;
use vortex_base::scalar_value::ScalarValue;
use vortex_stats::error::StatsError;
use vortex_stats::precision::Precision;
use vortex_stats::stat::Stat;
use vortex_stats::stats_set::StatsSet;

#[test]
fn writes(rt: HostRuntime) {
    let mut set = StatsSet::new(rt.alloc());
    for stat in Stat::all() {
        assert!(rt; set.set(stat, int(7)).is_ok());
    }
    assert_eq!(rt; set.len(), 9);
}

// Whether a set of a text alone answers it and a clone, or is refused.
fn answers(set: &StatsSet) -> bool {
    let gets_text = match set.get(Stat::Max) {
        Ok(max) => max.is_exact(),
        Err(refused) => matches!(refused, StatsError::Memory(_)),
    };
    let clones = match set.try_clone() {
        Ok(clone) => clone.len() == 1,
        Err(refused) => matches!(refused, StatsError::Memory(_)),
    };
    gets_text && clones && set.len() == 1
}

#[test]
fn gets(rt: HostRuntime) {
    let is_answered = match text(rt.alloc(), "a text") {
        Ok(value) => answers(&StatsSet::of(rt.alloc(), Stat::Max, value)),
        Err(_) => true,
    };
    assert!(rt; is_answered);
}

// The entry of the statistic's own number.
fn numbered(stat: Stat) -> Entry {
    (stat, Precision::Exact(ScalarValue::from(stat.number())))
}

// Whether a set takes an item of each statistic, or is refused with fewer.
fn extends(alloc: Global) -> bool {
    let mut set = StatsSet::of(alloc, Stat::Sum, Precision::Absent);
    let items = Stat::all().map(numbered);
    match set.try_extend(items) {
        Ok(()) => set.len() == 9,
        Err(_) => set.len() < 9,
    }
}

// Whether a set is made of an item of each statistic, or refused for memory with those set so far.
fn makes_of_items(alloc: Global) -> bool {
    let items = Stat::all().map(numbered);
    match StatsSet::try_from_iter(alloc, items) {
        Ok(set) => set.len() == 9,
        Err(refused) => {
            matches!(refused.error, StatsError::Memory(_))
                && refused.set.len() < 9
                && refused.set.iter().all(|entry| entry.1.is_exact())
        }
    }
}

#[test]
fn items(rt: HostRuntime) {
    assert!(rt; extends(rt.alloc()));
    assert!(rt; makes_of_items(rt.alloc()));
}
