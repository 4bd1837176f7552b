//! Merges and combinations of sets of a text column by the built code, by value and through views,
//! with ample memory.
use crate::statistics::callers::{combined_through_view, merged_through_view, mixed_through_view};
use crate::statistics::testing::{UTF8, Value, has, text, truth, word};
use std::alloc::Global;
use std::process::Abort;
use vortex_stats::error::StatsError;
use vortex_stats::stat::Stat;
use vortex_stats::stats_set::{MergeRefused, StatsSet};

/// Ordered or not, and whether both sides tell that they aren't constant.
pub const ALL_WAYS: [(bool, bool); 4] = [
    (true, false),
    (false, false),
    (true, true),
    (false, true),
];

/// Two sets, the first twice.
#[derive(Drop)]
pub struct Sides {
    pub set: StatsSet,
    pub before: StatsSet,
    pub other: StatsSet,
}

// The set of a text column with these ends, which may tell that it isn't constant.
fn of_ends(alloc: Global, min: Value, max: Value, is_told: bool) -> StatsSet {
    let mut set = StatsSet::of(alloc, Stat::Max, max);
    set.put(Stat::IsSorted, truth(true));
    set.put(Stat::Min, min);
    set.put(Stat::IsStrictSorted, truth(true));
    set.put(Stat::NullCount, word(1));
    set.put(Stat::UncompressedSizeInBytes, word(64));
    if is_told {
        set.put(Stat::IsConstant, truth(false));
    }
    set
}

fn texts(alloc: Global, min: &str, max: &str, is_told: bool) -> Option<StatsSet> {
    match (text(alloc, min), text(alloc, max)) {
        (Ok(min), Ok(max)) => Some(of_ends(alloc, min, max, is_told)),
        _ => None,
    }
}

// The sides, if memory was there.
fn all_sides(
    set: Option<StatsSet>,
    before: Option<StatsSet>,
    other: Option<StatsSet>,
) -> Option<Sides> {
    match (set, before, other) {
        (Some(set), Some(before), Some(other)) => Some(Sides { set, before, other }),
        _ => None,
    }
}

/// Sides that fit the type, if memory was there. The first set tells that it isn't constant, or
/// nothing of that.
pub fn make_sides(alloc: Global, is_told: bool) -> Option<Sides> {
    all_sides(
        texts(alloc, "b", "d", is_told),
        texts(alloc, "b", "d", is_told),
        texts(alloc, "a", "e", true),
    )
}

fn of_min(alloc: Global, min: &str) -> Option<StatsSet> {
    Some(StatsSet::of(alloc, Stat::Min, text(alloc, min).ok()?))
}

/// The sides of a minimum that is combined with a maximum, a minimum and what else a set has.
pub fn combination_sides(alloc: Global, min: &str) -> Option<Sides> {
    all_sides(
        of_min(alloc, "e"),
        of_min(alloc, "e"),
        texts(alloc, min, "m", false),
    )
}

/// Whether the set has the other's entry of the statistic.
pub fn has_same(set: &StatsSet, other: &StatsSet, stat: Stat) -> bool {
    other.iter().any(|entry| entry.0 == stat && set.iter().any(|own| *own == *entry))
}

/// The merge took the other's values and IsConstant, and added the counts.
pub fn is_merged(set: &StatsSet, other: &StatsSet) -> bool {
    has(set, Stat::NullCount, word(2))
        && has(set, Stat::UncompressedSizeInBytes, word(128))
        && has_same(set, other, Stat::Max)
        && has_same(set, other, Stat::Min)
        && has_same(set, other, Stat::IsConstant)
}

/// An ordered merge or an unordered one, where both sets fit the type.
pub fn merge(set: StatsSet, other: &StatsSet, is_ordered: bool) -> Result<StatsSet, MergeRefused> {
    if !set.fits(&UTF8) || !other.fits(&UTF8) {
        let error = StatsError::Mismatch;
        return Err(MergeRefused { error, set });
    }
    if is_ordered {
        set.merge_ordered(other, &UTF8)
    } else {
        set.merge_unordered(other, &UTF8)
    }
}

/// A merge through a view, ordered or not, where both sets fit the type.
pub fn merge_viewed(
    set: &mut StatsSet,
    other: &StatsSet,
    is_ordered: bool,
) -> Result<(), StatsError> {
    if !set.fits(&UTF8) || !other.fits(&UTF8) {
        return Err(StatsError::Mismatch);
    }
    if is_ordered {
        merged_through_view(set, other, &UTF8)
    } else {
        mixed_through_view(set, other, &UTF8)
    }
}

/// Combines the sets, where both fit the type, by value or through a view.
pub fn combine(set: &mut StatsSet, other: &StatsSet, is_viewed: bool) -> Result<(), StatsError> {
    if !set.fits(&UTF8) || !other.fits(&UTF8) {
        return Err(StatsError::Mismatch);
    }
    if is_viewed {
        combined_through_view(set, other, &UTF8)
    } else {
        set.combine_sets(other, &UTF8)
    }
}

fn expect_merged(rt: &impl Abort, alloc: Global, is_ordered: bool, is_told: bool) {
    let Sides { set, before, other } = make_sides(alloc, is_told).expect(rt, "sides");
    let set = merge(set, &other, is_ordered).expect(rt, "merged");
    assert!(rt; is_merged(&set, &other) && !has_same(&set, &before, Stat::Max));
}

fn expect_merged_viewed(rt: &impl Abort, alloc: Global, is_ordered: bool, is_told: bool) {
    let mut sides = make_sides(alloc, is_told).expect(rt, "sides");
    merge_viewed(&mut sides.set, &sides.other, is_ordered).expect(rt, "merged");
    assert!(rt; is_merged(&sides.set, &sides.other));
}

#[test]
fn merge_by_value_and_through_views(rt: HostRuntime) {
    for (is_ordered, is_told) in ALL_WAYS {
        expect_merged(&rt, rt.alloc(), is_ordered, is_told);
        expect_merged_viewed(&rt, rt.alloc(), is_ordered, is_told);
    }
}

#[test]
fn combine_by_value_and_through_views(rt: HostRuntime) {
    for is_viewed in [false, true] {
        let mut sides = combination_sides(rt.alloc(), "e").expect(&rt, "sides");
        combine(&mut sides.set, &sides.other, is_viewed).expect(&rt, "combined");
        assert!(rt; sides.set.len() == 6 && has_same(&sides.set, &sides.other, Stat::Max));
    }
}
