//! Combination: the statistics of one array, from two sets of it.
ghost use Rattle.std.specs.Prelude.{◌≡◌, IsTrue};
ghost use Rattle.std.specs.Option.{option_map};
ghost use Rattle.vortex_base.specs.declared.scalar_value.ScalarValue.TheVariants as scalars;
ghost use Rattle.vortex_base.specs.declared.dtype.DType.TheVariants as types;
ghost use Rattle.vortex_base.specs.declared.types.Nullability.TheVariants.{NonNullable};
ghost use Rattle.vortex_base.specs.Data.Values.{is_value};
ghost use Rattle.vortex_stats.specs.Bounds.Bound.{ClonesEqual, intersection_map};
ghost use Rattle.vortex_stats.specs.Bounds.Bound.{IntersectionHoldsFallible};
ghost use Rattle.vortex_stats.specs.Precision.{precision_map, IfPresent};
ghost use Rattle.vortex_stats.specs.Scalars.{IsAnswerOrMemory};
ghost use Rattle.vortex_stats.specs.Sets.Entries.{entries_fit, value_fits, AreDistinct};
ghost use Rattle.vortex_stats.specs.Sets.Changes.{changed_by};
ghost use Rattle.vortex_stats.specs.Merging.Combined.{intersection_of, combined, Combines};
ghost use Rattle.vortex_stats.specs.Merging.CombineSteps.{truth_value, meeting, IsChange, IsAnswerOrCopy};
ghost use Rattle.vortex_stats.specs.Copies.{combination_copies};
ghost use Rattle.vortex_stats.specs.StatsError.{OnMemory};

use crate::bound::IntersectionResult;
use crate::error::StatsError;
use crate::merge::{self, Change};
use crate::precision::{self, Precision};
use crate::stat::{self, Stat};
use crate::stat_bound::{StatBound, StatType};
use crate::stats_set::StatsSet;
use smallvec::SmallVec;
use vortex_base::dtype::DType;
use vortex_base::scalar_value::ScalarValue;

// Combines two values of the statistic `S`, under its bound; None where a value is absent.
// `Conflict` where the values contradict each other.
pub(crate) fn combine<T: Ord + Clone, S: StatType<T>>(
    left: Precision<T>,
    other: Precision<T>,
) -> Result<Option<Precision<T>>, StatsError>
    requires { ClonesEqual T.is_clone }
    ensures answer { IsAnswerOrMemory (meeting S.STAT (S.Bound.intersection left other)) result }
    ensures memory { OnMemory result (IntersectionHoldsFallible T.is_infallible
        (S.Bound.intersection left other)) }
{
    let left = <S::Bound as StatBound<T>>::lift(left);
    let other = <S::Bound as StatBound<T>>::lift(other);
    match left.intersection(&other)? {
        Some(IntersectionResult::Value(bound)) => Ok(Some(bound.into_value())),
        Some(IntersectionResult::Empty) => Err(StatsError::Conflict(S::STAT)),
        None => Ok(None),
    }
}

// Meets two bounds of values of any kind. One value is cloned at most.
fn combine_values<'a, S: StatType<&'a ScalarValue>>(
    left: Precision<&'a ScalarValue>,
    other: Precision<&'a ScalarValue>,
) -> Result<Option<Precision<ScalarValue>>, StatsError>
    ensures { let met = option_map (intersection_map (precision_map (λ v. v.now)))
        (S.Bound.intersection left.entry other.entry) in
        IsAnswerOrCopy (meeting S.STAT met) result }
{
    match combine::<&'a ScalarValue, S>(left, other)? {
        Some(value) => Ok(Some(precision::copied(value)?)),
        None => Ok(None),
    }
}

// The truth in a value that is one.
fn truth_of(value: Precision<&ScalarValue>) -> Precision<bool>
    requires { IfPresent value (λ v. IsTrue (is_value v.now (types.Bool NonNullable))) }
    ensures { result ≡ truth_value (precision_map (λ v. v.now) value.entry) }
{
    match value {
        Precision::Exact(ScalarValue::Bool(holds)) => Precision::Exact(*holds),
        Precision::Inexact(ScalarValue::Bool(holds)) => Precision::Inexact(*holds),
        Precision::Absent => Precision::Absent,
        _ => unreachable!(),
    }
}

// Meets two bounds of truth values.
fn combine_truths<S: StatType<bool>>(
    left: Precision<&ScalarValue>,
    other: Precision<&ScalarValue>,
) -> Result<Option<Precision<ScalarValue>>, StatsError>
    requires left_truth { IfPresent left (λ v. IsTrue (is_value v.now (types.Bool NonNullable))) }
    requires other_truth { IfPresent other (λ v. IsTrue (is_value v.now (types.Bool NonNullable))) }
    ensures { let left_truth = truth_value (precision_map (λ v. v.now) left.entry) in
        let other_truth = truth_value (precision_map (λ v. v.now) other.entry) in
        let met = option_map (intersection_map (precision_map scalars.Bool))
        (S.Bound.intersection left_truth other_truth) in
        IsAnswerOrCopy (meeting S.STAT met) result }
{
    match combine::<bool, S>(truth_of(left), truth_of(other))? {
        Some(Precision::Exact(holds)) => Ok(Some(Precision::Exact(ScalarValue::Bool(holds)))),
        Some(Precision::Inexact(holds)) => Ok(Some(Precision::Inexact(ScalarValue::Bool(holds)))),
        Some(Precision::Absent) => Ok(Some(Precision::Absent)),
        None => Ok(None),
    }
}

// Combines two values of a statistic, under the bound of the statistic.
fn met_value(
    stat: Stat,
    dtype: &DType,
    left: Precision<&ScalarValue>,
    other: Precision<&ScalarValue>,
) -> Result<Option<Precision<ScalarValue>>, StatsError>
    requires left_fits { IsTrue (value_fits stat dtype.now (precision_map (λ v. v.now) left)) }
    requires other_fits { IsTrue (value_fits stat dtype.now (precision_map (λ v. v.now) other)) }
    ensures { let met = intersection_of stat (precision_map (λ v. v.now) left.entry)
        (precision_map (λ v. v.now) other.entry) in
        IsAnswerOrCopy (meeting stat met) result }
{
    // The type stands in the contract alone.
    let _ = dtype;
    match stat {
        Stat::IsConstant => combine_truths::<stat::IsConstant>(left, other),
        Stat::IsSorted => combine_truths::<stat::IsSorted>(left, other),
        Stat::IsStrictSorted => combine_truths::<stat::IsStrictSorted>(left, other),
        Stat::Max => combine_values::<stat::Max>(left, other),
        Stat::Min => combine_values::<stat::Min>(left, other),
        Stat::Sum => combine_values::<stat::Sum>(left, other),
        Stat::NullCount => combine_values::<stat::NullCount>(left, other),
        Stat::UncompressedSizeInBytes => combine_values::<stat::UncompressedSizeInBytes>(
            left, other,
        ),
        Stat::NaNCount => combine_values::<stat::NaNCount>(left, other),
    }
}

// The change that an entry of the other set makes to the left value. One value is copied at most.
fn entry_change(
    left: Precision<&ScalarValue>,
    dtype: &DType,
    entry: &(Stat, Precision<ScalarValue>),
) -> Result<Change, StatsError>
    requires left_fits { let value = precision_map (λ v. v.now) left in
        IsTrue (value_fits entry.now.0 dtype.now value) }
    requires entry_fits { IsTrue (value_fits entry.now.0 dtype.now entry.now.1) }
    ensures change { let value = precision_map (λ v. v.now) left.entry in
        IsChange entry.now.0 value entry.now.1 result }
{
    let other = entry.1.as_ref();
    if other.is_absent() {
        return Ok(if left.is_absent() {
            Change::Cleared
        } else {
            Change::Kept
        });
    }
    if left.is_absent() {
        return Ok(Change::Set(precision::copied(other)?));
    }
    match met_value(entry.0, dtype, left, other)? {
        Some(value) => Ok(Change::Set(value)),
        None => Ok(Change::Kept),
    }
}

// A change of each of some entries.
type EntryChanges = SmallVec<(Stat, Change), 9>;

// Makes each change in turn.
fn change_each(set: &mut StatsSet, changes: EntryChanges)
    ensures { set.new ≡ changed_by changes.items set.old }
{
    for change in changes {
        merge::change_entry(set, change.0, change.1);
    }
}

impl StatsSet {
    /// Combines what another set tells of the same array. Both sets fit the type of the column, as
    /// `fits` tells. `Conflict` if two values of a statistic contradict each other, and then the
    /// other set's earlier entries stay combined; `Memory` if a copy of a text or bytes is refused,
    /// and then the set stays as it was. `Memory` may come where a conflict would have come later.
    pub fn combine_sets(&mut self, other: &Self, dtype: &DType) -> Result<(), StatsError>
        requires left_fits { IsTrue (entries_fit self.old dtype.now) }
        requires other_fits { IsTrue (entries_fit other.now dtype.now) }
        ensures combined { Combines (combined self.old other.now) self.old self.new result }
        ensures copies { OnMemory result (IsTrue (combination_copies self.old other.now)) }
        ensures fits { IsTrue (entries_fit self.new dtype.now) }
        ensures distinct { AreDistinct other.now }
    {
        let mut changes: EntryChanges = SmallVec::new(self.allocator());
        for entry in other.iter() {
            match entry_change(self.find(entry.0), dtype, entry) {
                Ok(change) => changes.push_reserved((entry.0, change)),
                Err(StatsError::Conflict(stat)) => {
                    change_each(self, changes);
                    return Err(StatsError::Conflict(stat));
                }
                Err(refused) => return Err(refused),
            }
        }
        change_each(self, changes);
        Ok(())
    }
}
