//! Searches gaps in order by keys: the native values with which they compare the first column.
ghost use Rattle.std.specs.Prelude.{◌≡◌, ◌+◌, ◌<◌, ◌^◌, ◌&&◌, All, IfSome, IsTrue, length, map};
ghost use Rattle.std.specs.Prelude.{option_map, slice_get, true, false};
ghost use Rattle.std.specs.List.Sorted.{IsPartitionPoint};
ghost use Rattle.vortex_base.specs.Data.Columns.{value_at};
ghost use Rattle.vortex_prune.specs.Scanning.Gaps.{AreOrdered, IsSure, are_passed_at, gap_passes};
ghost use Rattle.vortex_prune.specs.Scanning.Gaps.{is_past};
ghost use Rattle.vortex_prune.specs.Scanning.Keys.{AreKeys, IsKey, past_operator_by};
ghost use Rattle.vortex_prune.specs.Scanning.Marks.{marked};

use crate::scan::comparison::{Above, AtLeast, Comparison};
use crate::scan::gaps::{Columns, Gap, keep_passed, passes_gap};
use crate::scan::sides::{cell, passes_side};
use std::alloc::Global;
use vortex_base::match_each_native;
use vortex_base::native::Native;
use vortex_base::primitive_array::PrimitiveArray;
use vortex_expr::scalar_fn::Operator;

// Returns the comparison with a gap's own value by which a first value is past the gap.
fn past_operator(gap: &Gap<'_>) -> Operator
    ensures { result ≡ past_operator_by gap.now.flag gap.now.above.operator }
{
    match (gap.flag, gap.above.operator) {
        (None, operator) => operator,
        (Some(_), Operator::Lt) => Operator::Gte,
        (Some(_), _) => Operator::Gt,
    }
}

// Returns the key of a gap, if its value is of the type and it compares as others do.
fn key_of<T: Native>(gap: &Gap<'_>, operator: Operator, at_null: bool) -> Option<T>
    ensures { IfSome result (λ key. IsKey operator at_null (T.scalar key) gap.now) }
{
    if past_operator(gap) == operator && gap.flag.is_some() == at_null {
        T::of_lent(gap.above.value)
    } else {
        None
    }
}

// Returns the key of each gap, if each has one and there is memory for them.
fn keys_of<T: Native>(
    alloc: Global,
    gaps: &[Gap<'_>],
    operator: Operator,
    at_null: bool,
) -> Option<Vec<T>>
    ensures { IfSome result (λ keys. AreKeys operator at_null T.scalar keys.items gaps.now) }
{
    let mut keys = Vec::with_capacity(alloc, gaps.len()).ok()?;
    for gap in gaps {
        let key = key_of::<T>(gap, operator, at_null)?;
        keys.push(key).ok()?;
    }
    Some(keys)
}

// Returns how many gaps a first value is past.
#[inline]
fn count_past<T: Native, C: Comparison>(
    gaps: &[Gap<'_>],
    keys: &[T],
    at_null: bool,
    first: Option<T>,
) -> usize
    requires keys { AreKeys C.operator at_null T.scalar keys.now gaps.now }
    requires order { AreOrdered gaps.now }
    ensures { let x = option_map T.scalar first in
        IsPartitionPoint (λ g. is_past g x ≡ true) (λ g. is_past g x ≡ false) gaps.now result }
{
    match first {
        Some(value) => keys.partition_point(|key| C::is_true_of(value.order(*key))),
        None if at_null => gaps.len(),
        None => 0,
    }
}

// Returns whether the values at a place pass a gap that the first of them isn't past.
fn passes_next(gap: &Gap<'_>, asked: Columns<'_>, place: usize) -> bool
    requires { is_past gap.now (value_at (slice_get asked.above.now.values place)) ≡ false }
    ensures { result ≡ gap_passes gap.now (value_at (slice_get asked.entry.above.now.values place))
        (value_at (slice_get asked.entry.below.now.values place))
        (value_at (slice_get asked.entry.flag.now.values place)) }
{
    match gap.flag {
        None => passes_side(gap.below, cell(asked.below, place)),
        Some(_) => passes_gap(
            gap,
            cell(asked.above, place),
            cell(asked.below, place),
            cell(asked.flag, place),
        ),
    }
}

// Returns whether the values at a place pass each gap. The first gap that the first value isn't
// past decides.
#[inline]
fn pass_all_at<T: Native, C: Comparison>(
    gaps: &[Gap<'_>],
    keys: &[T],
    at_null: bool,
    first: Option<T>,
    asked: Columns<'_>,
    place: usize,
) -> bool
    requires keys { AreKeys C.operator at_null T.scalar keys.now gaps.now }
    requires order { AreOrdered gaps.now }
    requires sure { All IsSure gaps.now }
    requires first { value_at (slice_get asked.above.now.values place)
        ≡ option_map T.scalar first }
    ensures { result ≡ are_passed_at gaps.now asked.entry.above.now asked.entry.below.now
        asked.entry.flag.now place }
{
    match gaps.get(count_past::<T, C>(gaps, keys, at_null, first)) {
        Some(gap) => passes_next(gap, asked, place),
        None => true,
    }
}

// Returns whether a mark stays at a place, which isn't looked at without a mark.
#[inline]
fn stays_at<T: Native, C: Comparison>(
    mark: bool,
    gaps: &[Gap<'_>],
    keys: &[T],
    at_null: bool,
    natives: &PrimitiveArray<T>,
    asked: Columns<'_>,
    place: usize,
) -> bool
    requires keys { AreKeys C.operator at_null T.scalar keys.now gaps.now }
    requires order { AreOrdered gaps.now }
    requires sure { All IsSure gaps.now }
    requires same { asked.above.now.values ≡ map (option_map T.scalar) natives.now }
    ensures { result ≡ (mark && are_passed_at gaps.now asked.entry.above.now
        asked.entry.below.now asked.entry.flag.now place) }
{
    mark && pass_all_at::<T, C>(gaps, keys, at_null, natives.get(place), asked, place)
}

// Takes away the marks, from a place on, at which values don't pass each gap.
fn keep_by_keys<T: Native, C: Comparison>(
    gaps: &[Gap<'_>],
    keys: &[T],
    at_null: bool,
    natives: &PrimitiveArray<T>,
    asked: Columns<'_>,
    from: usize,
    marks: &mut [bool],
)
    requires keys { AreKeys C.operator at_null T.scalar keys.now gaps.now }
    requires order { AreOrdered gaps.now }
    requires sure { All IsSure gaps.now }
    requires same { asked.above.now.values ≡ map (option_map T.scalar) natives.now }
    requires room { from + length marks.old < 2 ^ 64 }
    ensures { marks.new ≡ marked (are_passed_at gaps.now asked.entry.above.now
        asked.entry.below.now asked.entry.flag.now) from marks.old }
{
    for k in 0..marks.len() {
        marks[k] = stays_at::<T, C>(marks[k], gaps, keys, at_null, natives, asked, from + k);
    }
}

// Does so by the keys of the gaps in a first column of this type. Returns false, and leaves the
// marks, where a gap has no such key or memory is short.
fn keep_natives<T: Native>(
    alloc: Global,
    gaps: &[Gap<'_>],
    first: &Gap<'_>,
    natives: &PrimitiveArray<T>,
    asked: Columns<'_>,
    from: usize,
    marks: &mut [bool],
) -> bool
    requires order { AreOrdered gaps.now }
    requires sure { All IsSure gaps.now }
    requires same { asked.above.now.values ≡ map (option_map T.scalar) natives.now }
    requires room { from + length marks.old < 2 ^ 64 }
    ensures kept { IsTrue result → marks.new ≡ marked (are_passed_at gaps.now
        asked.entry.above.now asked.entry.below.now asked.entry.flag.now) from marks.old }
    ensures left { result ≡ false → marks.new ≡ marks.old }
{
    let (operator, at_null) = (past_operator(first), first.flag.is_some());
    let Some(keys) = keys_of::<T>(alloc, gaps, operator, at_null) else {
        return false;
    };
    match operator {
        Operator::Gt => {
            keep_by_keys::<T, Above>(gaps, &keys, at_null, natives, asked, from, marks);
        }
        Operator::Gte => {
            keep_by_keys::<T, AtLeast>(gaps, &keys, at_null, natives, asked, from, marks);
        }
        _ => return false,
    }
    true
}

// Does so by a search among the native values of the first column. Returns false, and leaves the
// marks, where that has none, the gaps compare them otherwise or memory is short.
fn keep_searched(
    alloc: Global,
    gaps: &[Gap<'_>],
    first: &Gap<'_>,
    asked: Columns<'_>,
    from: usize,
    marks: &mut [bool],
) -> bool
    requires order { AreOrdered gaps.now }
    requires sure { All IsSure gaps.now }
    requires room { from + length marks.old < 2 ^ 64 }
    ensures kept { IsTrue result → marks.new ≡ marked (are_passed_at gaps.now
        asked.entry.above.now asked.entry.below.now asked.entry.flag.now) from marks.old }
    ensures left { result ≡ false → marks.new ≡ marks.old }
{
    match_each_native!(asked.above.cells(),
        natives => keep_natives(alloc, gaps, first, natives, asked, from, marks),
        _ => false)
}

/// Takes away the marks, from a place on, at which the values of columns don't pass each of some
/// gaps in order, of which the first is given too: by keys where the gaps have some.
pub(crate) fn keep_ordered(
    alloc: Global,
    gaps: &[Gap<'_>],
    first: &Gap<'_>,
    asked: Columns<'_>,
    from: usize,
    marks: &mut [bool],
)
    requires order { AreOrdered gaps.now }
    requires sure { All IsSure gaps.now }
    requires room { from + length marks.old < 2 ^ 64 }
    ensures { marks.new ≡ marked (are_passed_at gaps.now asked.entry.above.now
        asked.entry.below.now asked.entry.flag.now) from marks.old }
{
    if keep_searched(alloc, gaps, first, asked, from, marks) {
        return;
    }
    keep_passed(gaps, true, asked, from, marks);
}
