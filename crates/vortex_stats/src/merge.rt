//! Merges: the statistics of one array followed by another, from the statistics of both.
//!
//! A merge first decides what each entry is changed to, and clones there. Then it writes, which
//! takes no memory. So a refused merge has changed nothing.
ghost use Rattle.std.specs.Prelude.{◌≡◌, true, false, if◌then◌else◌, IfOk, IfErr, OnOk, OnErr, IsTrue, Some, alloc_error};
ghost use Rattle.vortex_stats.specs.declared.error.StatsError.TheVariants.{Memory};
ghost use Rattle.vortex_stats.specs.declared.precision.Precision.TheVariants as precise;
ghost use Rattle.vortex_stats.specs.declared.stat.Stat.TheVariants as stats;
ghost use Rattle.vortex_stats.specs.Precision.{precision_map, present_value};
ghost use Rattle.vortex_stats.specs.Sets.Entries.{entry_value, entries_fit};
ghost use Rattle.vortex_stats.specs.Merging.Merges.{truth, is_exact_truth, seam, at_seam, is_below, is_at_most, sum_added, count_added, count_merged, merged_value, unordered_value, revised, merged_ordered, merged_unordered};
ghost use Rattle.vortex_stats.specs.Copies.{is_bound_copied, merge_copies};
ghost use Rattle.vortex_stats.specs.Sets.Changes.{made, changed, all_changed, MakesAll};

use crate::bound::{LowerBound, UpperBound};
use crate::error::StatsError;
use crate::precision::{self, Precision};
use crate::stat::Stat;
use crate::stat_bound::StatBound;
use crate::stats_set::{MergeRefused, StatsSet};
use std::alloc::AllocError;
use vortex_base::dtype::DType;
use vortex_base::pvalue::PValue;
use vortex_base::scalar_value::ScalarValue;

// The change that a merge makes to an entry.
#[derive(Default, Drop)]
pub(crate) enum Change {
    /// It stays as it is.
    #[default]
    Kept,
    /// It has this value from here on.
    Set(Precision<ScalarValue>),
    /// It is removed.
    Cleared,
}

impl Change {
    // The value, or no entry.
    fn of(value: Option<Precision<ScalarValue>>) -> Change
        ensures { (p : _) → made result p ≡ value }
    {
        match value {
            Some(value) => Change::Set(value),
            None => Change::Cleared,
        }
    }
}

// An exact truth value.
fn truth(holds: bool) -> Precision<ScalarValue>
    ensures { result ≡ truth holds }
{
    Precision::Exact(ScalarValue::Bool(holds))
}

pub(crate) fn is_exact_truth(holds: bool, value: Precision<&ScalarValue>) -> bool
    ensures { result ≡ is_exact_truth holds (precision_map (λ v. v.now) value.entry) }
{
    match value {
        Precision::Exact(ScalarValue::Bool(b)) => *b == holds,
        _ => false,
    }
}

// IsConstant: false if either side is exactly false; of two that are exactly true whether the
// exact minima are equal.
fn is_constant_value(left: &StatsSet, other: &StatsSet) -> Option<Precision<ScalarValue>>
    ensures { result ≡ merged_value stats.IsConstant left.now other.now }
{
    let first = left.find(Stat::IsConstant);
    let second = other.find(Stat::IsConstant);
    if is_exact_truth(false, first) || is_exact_truth(false, second) {
        return Some(truth(false));
    }
    if !is_exact_truth(true, first) || !is_exact_truth(true, second) {
        return None;
    }
    match (left.find(Stat::Min), other.find(Stat::Min)) {
        (Precision::Exact(x), Precision::Exact(y)) => Some(truth(x.cmp(y).is_eq())),
        _ => None,
    }
}

// True where the rows are in order, and else unknown, which is written as inexactly false.
fn seam(in_order: bool) -> Precision<ScalarValue>
    ensures { result ≡ seam in_order }
{
    if in_order {
        truth(true)
    } else {
        Precision::Inexact(ScalarValue::Bool(false))
    }
}

// Whether the greatest value of rows may stand before the least of those that follow.
fn may_precede(max: &ScalarValue, min: &ScalarValue, is_strict: bool) -> bool
    ensures { result ≡ (if is_strict then is_below else is_at_most) max.now min.now }
{
    if is_strict {
        max.cmp(min).is_lt()
    } else {
        !max.cmp(min).is_gt()
    }
}

// Tells the order of the first side's greatest value and the other's least, where both are
// known.
fn at_seam(
    max: Precision<&ScalarValue>,
    min: Precision<&ScalarValue>,
    is_strict: bool,
) -> Option<Precision<ScalarValue>>
    ensures { result ≡ at_seam (if is_strict then is_below else is_at_most)
        (present_value (precision_map (λ v. v.now) max.entry))
        (present_value (precision_map (λ v. v.now) min.entry)) }
{
    match (max.into_inner(), min.into_inner()) {
        (Some(max), Some(min)) => Some(seam(may_precede(max, min, is_strict))),
        _ => None,
    }
}

// IsSorted: whether the first side's greatest value is at most the other's least.
fn is_sorted_value(left: &StatsSet, other: &StatsSet) -> Option<Precision<ScalarValue>>
    ensures { result ≡ merged_value stats.IsSorted left.now other.now }
{
    if is_exact_truth(true, left.find(Stat::IsSorted))
        && is_exact_truth(true, other.find(Stat::IsSorted))
    {
        at_seam(left.find(Stat::Max), other.find(Stat::Min), false)
    } else {
        None
    }
}

// IsStrictSorted: whether the first side's greatest value is below the other's least.
fn is_strict_sorted_value(left: &StatsSet, other: &StatsSet) -> Option<Precision<ScalarValue>>
    ensures { result ≡ merged_value stats.IsStrictSorted left.now other.now }
{
    if is_exact_truth(true, left.find(Stat::IsStrictSorted))
        && is_exact_truth(true, other.find(Stat::IsStrictSorted))
    {
        at_seam(left.find(Stat::Max), other.find(Stat::Min), true)
    } else {
        None
    }
}

// The left value stays where the bound of both is that value; else the bound's value is copied.
fn bound_change(
    left: Precision<&ScalarValue>,
    bound: Precision<&ScalarValue>,
) -> Result<Change, AllocError>
    ensures made { IfOk result (λ c. made c (precision_map (λ v. v.now) left.entry)
        ≡ Some (precision_map (λ v. v.now) bound.entry)) }
    ensures refused { OnErr result (IsTrue (is_bound_copied (precision_map (λ v. v.now) left.entry)
        (Some (precision_map (λ v. v.now) bound.entry)))) }
{
    if bound == left {
        return Ok(Change::Kept);
    }
    Ok(Change::Set(precision::copied(bound)?))
}

// Max: the union of two upper bounds.
fn max_change(left: &StatsSet, other: &StatsSet) -> Result<Change, AllocError>
    ensures made { IfOk result (λ c. made c (entry_value stats.Max left.now)
        ≡ merged_value stats.Max left.now other.now) }
    ensures refused { OnErr result (IsTrue (is_bound_copied (entry_value stats.Max left.now)
        (merged_value stats.Max left.now other.now))) }
{
    let value = left.find(Stat::Max);
    let first = UpperBound::lift(value);
    match first.union(&UpperBound::lift(other.find(Stat::Max)))? {
        Some(bound) => bound_change(value, bound.into_value()),
        None => Ok(Change::Cleared),
    }
}

// Min: the union of two lower bounds.
fn min_change(left: &StatsSet, other: &StatsSet) -> Result<Change, AllocError>
    ensures made { IfOk result (λ c. made c (entry_value stats.Min left.now)
        ≡ merged_value stats.Min left.now other.now) }
    ensures refused { OnErr result (IsTrue (is_bound_copied (entry_value stats.Min left.now)
        (merged_value stats.Min left.now other.now))) }
{
    let value = left.find(Stat::Min);
    let first = LowerBound::lift(value);
    match first.union(&LowerBound::lift(other.find(Stat::Min)))? {
        Some(bound) => bound_change(value, bound.into_value()),
        None => Ok(Change::Cleared),
    }
}

// The sum of two sums, where it stays in their type.
fn sum_of(left: &ScalarValue, other: &ScalarValue) -> Option<Precision<ScalarValue>>
    ensures { result ≡ sum_added left.now other.now }
{
    match (left, other) {
        (ScalarValue::Primitive(PValue::I64(m)), ScalarValue::Primitive(PValue::I64(n))) =>
            match m.checked_add(*n) {
                Some(sum) => Some(Precision::Exact(ScalarValue::from(sum))),
                None => None,
            },
        (ScalarValue::Primitive(PValue::U64(m)), ScalarValue::Primitive(PValue::U64(n))) =>
            match m.checked_add(*n) {
                Some(sum) => Some(Precision::Exact(ScalarValue::from(sum))),
                None => None,
            },
        _ => None,
    }
}

// Sum: of two exact ones.
fn sum_value(left: &StatsSet, other: &StatsSet) -> Option<Precision<ScalarValue>>
    ensures { result ≡ merged_value stats.Sum left.now other.now }
{
    match (left.find(Stat::Sum), other.find(Stat::Sum)) {
        (Precision::Exact(m), Precision::Exact(n)) => sum_of(m, n),
        _ => None,
    }
}

// The sum of two counts, where it stays below 2 ^ 64.
fn sum_of_counts(
    left: &ScalarValue,
    other: &ScalarValue,
    is_exact: bool,
) -> Option<Precision<ScalarValue>>
    ensures { result ≡ count_added (λ v. if is_exact then precise.Exact v else precise.Inexact v)
        left.now other.now }
{
    match (left, other) {
        (ScalarValue::Primitive(PValue::U64(m)), ScalarValue::Primitive(PValue::U64(n))) => {
            let sum = ScalarValue::from(m.checked_add(*n)?);
            Some(if is_exact {
                Precision::Exact(sum)
            } else {
                Precision::Inexact(sum)
            })
        }
        _ => None,
    }
}

// NullCount and UncompressedSizeInBytes: the sum, exact of two exact ones.
fn count_value(
    left: Precision<&ScalarValue>,
    other: Precision<&ScalarValue>,
) -> Option<Precision<ScalarValue>>
    ensures { result ≡ count_merged (precision_map (λ v. v.now) left.entry)
        (precision_map (λ v. v.now) other.entry) }
{
    match left.zip(other) {
        Precision::Exact((m, n)) => sum_of_counts(m, n, true),
        Precision::Inexact((m, n)) => sum_of_counts(m, n, false),
        Precision::Absent => None,
    }
}

// The changes that a merge makes to the entries. NaNCount has none, and is always cleared.
#[derive(Drop)]
pub(crate) struct Changes {
    is_constant: Option<Precision<ScalarValue>>,
    is_sorted: Change,
    is_strict_sorted: Change,
    max: Change,
    min: Change,
    sum: Change,
    null_count: Change,
    uncompressed_size_in_bytes: Change,
}

// The changes that a merge makes where the rows of the other side follow.
fn ordered_changes(left: &StatsSet, other: &StatsSet) -> Result<Changes, AllocError>
    ensures made { IfOk result (λ c. MakesAll c
        (λ s. merged_value s left.now other.now) left.now) }
    ensures refused { OnErr result (IsTrue (merge_copies left.now other.now)) }
{
    Ok(Changes {
        is_constant: is_constant_value(left, other),
        is_sorted: Change::of(is_sorted_value(left, other)),
        is_strict_sorted: Change::of(is_strict_sorted_value(left, other)),
        max: max_change(left, other)?,
        min: min_change(left, other)?,
        sum: Change::of(sum_value(left, other)),
        null_count: Change::of(count_value(
            left.find(Stat::NullCount),
            other.find(Stat::NullCount),
        )),
        uncompressed_size_in_bytes: Change::of(count_value(
            left.find(Stat::UncompressedSizeInBytes),
            other.find(Stat::UncompressedSizeInBytes),
        )),
    })
}

// The changes that a merge makes where the order of the rows isn't known.
fn unordered_changes(left: &StatsSet, other: &StatsSet) -> Result<Changes, AllocError>
    ensures made { IfOk result (λ c. MakesAll c
        (λ s. unordered_value s left.now other.now) left.now) }
    ensures refused { OnErr result (IsTrue (merge_copies left.now other.now)) }
{
    let mut changes = ordered_changes(left, other)?;
    changes.is_sorted = Change::Cleared;
    changes.is_strict_sorted = Change::Cleared;
    Ok(changes)
}

// The statistic has this value from here on, or no entry.
fn revise(set: &mut StatsSet, stat: Stat, value: Option<Precision<ScalarValue>>)
    ensures { set.new ≡ revised stat value set.old }
{
    match value {
        Some(value) => set.put(stat, value),
        None => set.clear(stat),
    }
}

// Changes the statistic's entry.
pub(crate) fn change_entry(set: &mut StatsSet, stat: Stat, change: Change)
    ensures { set.new ≡ changed stat change set.old }
{
    match change {
        Change::Kept => {}
        Change::Set(value) => set.put(stat, value),
        Change::Cleared => set.clear(stat),
    }
}

// Changes all entries.
fn change_all(set: &mut StatsSet, changes: Changes)
    ensures { set.new ≡ all_changed changes set.old }
{
    revise(set, Stat::IsConstant, changes.is_constant);
    change_entry(set, Stat::IsSorted, changes.is_sorted);
    change_entry(set, Stat::IsStrictSorted, changes.is_strict_sorted);
    change_entry(set, Stat::Max, changes.max);
    change_entry(set, Stat::Min, changes.min);
    change_entry(set, Stat::Sum, changes.sum);
    change_entry(set, Stat::NullCount, changes.null_count);
    change_entry(
        set,
        Stat::UncompressedSizeInBytes,
        changes.uncompressed_size_in_bytes,
    );
    set.clear(Stat::NaNCount);
}

impl StatsSet {
    // The merge in place. Where memory is refused, the set stays as it was.
    pub(crate) fn append(&mut self, other: &Self, dtype: &DType) -> Result<(), AllocError>
        requires left_fits { IsTrue (entries_fit self.old dtype.now) }
        requires other_fits { IsTrue (entries_fit other.now dtype.now) }
        ensures merged { OnOk result (self.new ≡ merged_ordered self.old other.now) }
        ensures refused { OnErr result (self.new ≡ self.old) }
        ensures copies { OnErr result (IsTrue (merge_copies self.old other.now)) }
        ensures fits { IsTrue (entries_fit self.new dtype.now) }
    {
        // The type stands in the contract alone.
        let _ = dtype;
        let changes = ordered_changes(self, other)?;
        change_all(self, changes);
        Ok(())
    }

    // The unordered merge in place. Where memory is refused, the set stays as it was.
    pub(crate) fn mix(&mut self, other: &Self, dtype: &DType) -> Result<(), AllocError>
        requires left_fits { IsTrue (entries_fit self.old dtype.now) }
        requires other_fits { IsTrue (entries_fit other.now dtype.now) }
        ensures merged { OnOk result (self.new ≡ merged_unordered self.old other.now) }
        ensures refused { OnErr result (self.new ≡ self.old) }
        ensures copies { OnErr result (IsTrue (merge_copies self.old other.now)) }
        ensures fits { IsTrue (entries_fit self.new dtype.now) }
    {
        // The type stands in the contract alone.
        let _ = dtype;
        let changes = unordered_changes(self, other)?;
        change_all(self, changes);
        Ok(())
    }

    /// The statistics of the array of this set followed by the array of the other. Both sets fit
    /// the type of the column, as `fits` tells. `Memory` if a copy of a text or bytes is refused,
    /// and then this set is handed back as it was.
    pub fn merge_ordered(mut self, other: &Self, dtype: &DType) -> Result<StatsSet, MergeRefused>
        requires left_fits { IsTrue (entries_fit self dtype.now) }
        requires other_fits { IsTrue (entries_fit other.now dtype.now) }
        ensures merged { IfOk result (λ set. set ≡ merged_ordered self other.now) }
        ensures fits { IfOk result (λ set. IsTrue (entries_fit set dtype.now)) }
        ensures unchanged { IfErr result (λ r. r.set ≡ self) }
        ensures memory { IfErr result (λ r. r.error ≡ Memory alloc_error) }
        ensures copies { OnErr result (IsTrue (merge_copies self other.now)) }
    {
        match self.append(other, dtype) {
            Ok(()) => Ok(self),
            Err(refused) => Err(MergeRefused {
                error: StatsError::Memory(refused),
                set: self,
            }),
        }
    }

    /// The statistics of any arrangement of the rows of both arrays. Both sets fit the type of the
    /// column, as `fits` tells. `Memory` if a copy of a text or bytes is refused, and then this set
    /// is handed back as it was.
    pub fn merge_unordered(mut self, other: &Self, dtype: &DType) -> Result<StatsSet, MergeRefused>
        requires left_fits { IsTrue (entries_fit self dtype.now) }
        requires other_fits { IsTrue (entries_fit other.now dtype.now) }
        ensures merged { IfOk result (λ set. set ≡ merged_unordered self other.now) }
        ensures fits { IfOk result (λ set. IsTrue (entries_fit set dtype.now)) }
        ensures unchanged { IfErr result (λ r. r.set ≡ self) }
        ensures memory { IfErr result (λ r. r.error ≡ Memory alloc_error) }
        ensures copies { OnErr result (IsTrue (merge_copies self other.now)) }
    {
        match self.mix(other, dtype) {
            Ok(()) => Ok(self),
            Err(refused) => Err(MergeRefused {
                error: StatsError::Memory(refused),
                set: self,
            }),
        }
    }
}
