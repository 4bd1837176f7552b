//! Merges and combinations of sets of a text column, where every growth may be refused:
//! `rt try --test --fail-alloc N` refuses the Nth. A refused call leaves its set as it was.
use crate::statistics::merges::{
    ALL_WAYS, Sides, combination_sides, combine, has_same, is_merged, make_sides, merge,
    merge_viewed,
};
use std::alloc::Global;
use vortex_stats::error::StatsError;
use vortex_stats::stat::Stat;
use vortex_stats::stats_set::{MergeRefused, StatsSet};

// Whether the call was refused for memory and left the set as it was.
fn left_all(refused: StatsError, set: &StatsSet, before: &StatsSet) -> bool {
    matches!(refused, StatsError::Memory(_))
        && set.len() == before.len()
        && set.iter().zip(before.iter()).all(|(x, y)| *x == *y)
}

// Whether the merge took all, or was refused for memory and handed its set back as it was.
fn took_all(answer: Result<StatsSet, MergeRefused>, before: &StatsSet, other: &StatsSet) -> bool {
    match answer {
        Ok(set) => is_merged(&set, other),
        Err(refused) => left_all(refused.error, &refused.set, before),
    }
}

// Merges with or without order; `None` where the sides were refused.
fn merges(alloc: Global, is_ordered: bool, is_told: bool) -> Option<bool> {
    let Sides { set, before, other } = make_sides(alloc, is_told)?;
    Some(took_all(merge(set, &other, is_ordered), &before, &other))
}

// Whether the merge through a view took all, or was refused for memory and left the set that is
// viewed as it was.
fn viewed_took_all(answer: Result<(), StatsError>, sides: &Sides) -> bool {
    match answer {
        Ok(()) => is_merged(&sides.set, &sides.other),
        Err(refused) => left_all(refused, &sides.set, &sides.before),
    }
}

fn merges_viewed(alloc: Global, is_ordered: bool, is_told: bool) -> Option<bool> {
    let mut sides = make_sides(alloc, is_told)?;
    let answer = merge_viewed(&mut sides.set, &sides.other, is_ordered);
    Some(viewed_took_all(answer, &sides))
}

#[test]
fn merges_by_value(rt: HostRuntime) {
    for (is_ordered, is_told) in ALL_WAYS {
        assert!(rt; merges(rt.alloc(), is_ordered, is_told) != Some(false));
    }
}

#[test]
fn merges_through_a_view(rt: HostRuntime) {
    for (is_ordered, is_told) in ALL_WAYS {
        assert!(rt; merges_viewed(rt.alloc(), is_ordered, is_told) != Some(false));
    }
}

// Whether the combination agreed and took all, or conflicted at Min, as it is to do, and took the
// maximum before it alone; or it was refused for memory with the set as it was.
fn is_combined(answer: Result<(), StatsError>, sides: &Sides, agrees: bool) -> bool {
    let took_max = has_same(&sides.set, &sides.other, Stat::Max);
    match answer {
        Ok(()) => agrees && took_max && sides.set.len() == 6,
        Err(StatsError::Conflict(stat)) => !agrees && stat == Stat::Min && took_max,
        Err(refused) => left_all(refused, &sides.set, &sides.before),
    }
}

fn combines(alloc: Global, min: &str, agrees: bool) -> Option<bool> {
    let mut sides = combination_sides(alloc, min)?;
    let answer = combine(&mut sides.set, &sides.other, false);
    Some(is_combined(answer, &sides, agrees))
}

#[test]
fn combinations(rt: HostRuntime) {
    assert!(rt; combines(rt.alloc(), "d", false) != Some(false));
    assert!(rt; combines(rt.alloc(), "e", true) != Some(false));
}
