//! Sets of values as separate intervals, and what an AND or OR makes of them.
ghost use Rattle.std.specs.Prelude.{◌≡◌, ◌≤◌, ◌++◌, ◌∷◌, [], IsTrue, false, length, map, true};
ghost use Rattle.std.specs.List.Sorted.{IsPartitionPoint};
ghost use Rattle.vortex_expr.specs.Trees.Connectives.{is_and};
ghost use Rattle.vortex_rewrite.specs.Answers.{OkOrMemory};
ghost use Rattle.vortex_normal.specs.Intervals as spec;
ghost use Rattle.vortex_normal.specs.Intervals.{cut_of, interval_of, set_of};
ghost use Rattle.vortex_normal.specs.Separate as separate;
ghost use Rattle.vortex_normal.specs.Separate.{are_separate, is_separate};

use crate::interval::{Cut, Interval, merged, one, push_between, push_share};
use std::alloc::Global;
use vortex_expr::scalar_fn::Connective;
use vortex_stats::error::StatsError;

// How many intervals end below a cut.
fn ending_below(set: &[Interval<'_>], cut: Cut<'_>) -> usize
    requires { IsTrue (is_separate (map interval_of set.now)) }
    ensures bound { result ≤ length set.now }
    ensures place { IsPartitionPoint (λ i. spec.cut_le (cut_of cut.entry) (cut_of i.high) ≡ false)
        (λ i. spec.cut_le (cut_of cut.entry) (cut_of i.high) ≡ true) set.now result }
{
    set.partition_point(|interval| !cut.is_at_most(interval.high))
}

// How many intervals begin at a cut or below it.
fn beginning_by(set: &[Interval<'_>], cut: Cut<'_>) -> usize
    requires { IsTrue (is_separate (map interval_of set.now)) }
    ensures bound { result ≤ length set.now }
    ensures place { IsPartitionPoint (λ i. spec.cut_le (cut_of i.low) (cut_of cut.entry) ≡ true)
        (λ i. spec.cut_le (cut_of i.low) (cut_of cut.entry) ≡ false) set.now result }
{
    set.partition_point(|interval| interval.low.is_at_most(cut))
}

// From the lowest beginning of intervals to the highest end.
fn hull_of_all<'a>(interval: Interval<'a>, others: &[Interval<'a>]) -> Interval<'a>
    ensures { interval_of result
        ≡ separate.hull_of_all (interval_of interval.entry) (map interval_of others.now) }
{
    let mut hull = interval;
    for other in others {
        hull = hull.hull(*other);
    }
    hull
}

// Appends what becomes of an interval and those that it touches.
fn push_left<'a>(
    connective: Connective,
    hull: Interval<'a>,
    interval: Interval<'a>,
    out: &mut Vec<Interval<'a>>,
) -> Result<(), StatsError>
    ensures { let left = separate.left_of (is_and connective) (interval_of hull.entry)
        (interval_of interval.entry) in OkOrMemory result
        (λ _. map interval_of out.new.items ≡ map interval_of out.old.items ++ left) }
{
    match connective {
        Connective::And => {
            push_between(hull.low, interval.low, out)?;
            push_between(interval.high, hull.high, out)
        }
        Connective::Or => {
            out.push(hull)?;
            Ok(())
        }
    }
}

// Joins an interval to a set by OR, or what it leaves out by AND. The places of those that it
// touches are searched by halves, and no others are compared.
fn splice<'a>(
    connective: Connective,
    interval: Interval<'a>,
    set: &mut Vec<Interval<'a>>,
) -> Result<(), StatsError>
    requires separate { IsTrue (is_separate (set_of set.old)) }
    requires values { spec.is_empty (interval_of interval) ≡ false }
    ensures { let share = spec.share (is_and connective) (interval_of interval.entry ∷ []) in
        OkOrMemory result
        (λ _. set_of set.new ≡ spec.combined (is_and connective) (set_of set.old ∷ share ∷ [])) }
{
    let first = ending_below(set, interval.low);
    let touched = beginning_by(&set[first..], interval.high);
    let behind = first + touched;
    let hull = hull_of_all(interval, &set[first..behind]);
    let mut over = set.split_off(behind)?;
    set.truncate(first);
    push_left(connective, hull, interval, set)?;
    set.append(&mut over)?;
    Ok(())
}

// Joins the intervals of a set to another one by OR, or what they leave out by AND.
fn absorb<'a>(
    alloc: Global,
    connective: Connective,
    few: Vec<Interval<'a>>,
    set: &mut Vec<Interval<'a>>,
) -> Result<(), StatsError>
    requires few { IsTrue (is_separate (set_of few)) }
    requires set { IsTrue (is_separate (set_of set.old)) }
    ensures { OkOrMemory result (λ _. set_of set.new
        ≡ spec.combined (is_and connective) (set_of set.old ∷ set_of few.entry ∷ [])) }
{
    let mut share = Vec::new(alloc);
    push_share(connective, few, &mut share)?;
    for interval in share {
        splice(connective, interval, set)?;
    }
    Ok(())
}

// The values in both of two sets, or in any, by way of that with more intervals.
fn paired<'a>(
    alloc: Global,
    connective: Connective,
    set: Vec<Interval<'a>>,
    other: Vec<Interval<'a>>,
) -> Result<Vec<Interval<'a>>, StatsError>
    requires set { IsTrue (is_separate (set_of set)) }
    requires other { IsTrue (is_separate (set_of other)) }
    ensures { OkOrMemory result (λ both. set_of both
        ≡ spec.combined (is_and connective) (set_of set.entry ∷ set_of other.entry ∷ [])) }
{
    let (mut set, mut other) = (set, other);
    if set.len() < other.len() {
        absorb(alloc, connective, set, &mut other)?;
        Ok(other)
    } else {
        absorb(alloc, connective, other, &mut set)?;
        Ok(set)
    }
}

// The values in all of some sets, or in any, by way of the one with the most intervals.
fn spliced<'a>(
    alloc: Global,
    connective: Connective,
    sets: Vec<Vec<Interval<'a>>>,
) -> Result<Vec<Interval<'a>>, StatsError>
    requires { IsTrue (are_separate (map set_of sets.items)) }
    ensures { OkOrMemory result
        (λ set. set_of set ≡ spec.combined (is_and connective) (map set_of sets.entry.items)) }
{
    let mut all = match connective {
        Connective::And => one(alloc, Cut::Lowest, Cut::Highest)?,
        Connective::Or => Vec::new(alloc),
    };
    for set in sets {
        all = paired(alloc, connective, all, set)?;
    }
    Ok(all)
}

// So many intervals are few.
const FEW: usize = 64;

// Whether all sets but the one with the most intervals have few intervals together.
fn are_few(sets: &[Vec<Interval<'_>>]) -> bool {
    let (mut all, mut most) = (0_usize, 0);
    for set in sets {
        all = all.saturating_add(set.len());
        most = most.max(set.len());
    }
    sets.len() > 1 && all.saturating_sub(most) <= FEW
}

/// The values in all of some sets, or in any: in time that is linear but for sorting. Of a set and
/// few intervals of others only those that these touch are compared, after a search by halves.
pub(crate) fn combined<'a>(
    alloc: Global,
    connective: Connective,
    sets: Vec<Vec<Interval<'a>>>,
) -> Result<Vec<Interval<'a>>, StatsError>
    requires { IsTrue (are_separate (map set_of sets.items)) }
    ensures { OkOrMemory result
        (λ set. set_of set ≡ spec.combined (is_and connective) (map set_of sets.entry.items)) }
{
    if are_few(&sets) {
        spliced(alloc, connective, sets)
    } else {
        merged(alloc, connective, sets)
    }
}
