//! Callers that know a set by its list alone.
ghost use Rattle.std.specs.Prelude.{◌≡◌, false, IfOk, IfErr, OnOk, OnErr, IsTrue, length, map, alloc_error};
ghost use Rattle.vortex_base.specs.Data.Columns.{ColumnData};
ghost use Rattle.vortex_stats.specs.declared.error.StatsError.TheVariants.{Memory};
ghost use Rattle.vortex_stats.specs.Sets.Claims.{IsTrueOf};
ghost use Rattle.vortex_stats.specs.Merging.Merges.{merged_ordered, merged_unordered};
ghost use Rattle.vortex_stats.specs.Merging.Combined.{combined, Combines};
ghost use Rattle.vortex_stats.specs.Copies.{holds_long, is_copied, set_copies};
ghost use Rattle.vortex_stats.specs.Sets.Entries.{entries_fit, entry_value};
ghost use Rattle.vortex_stats.specs.Sets.Entries.{without_entry};

use std::alloc::{AllocError, Global};
use vortex_base::dtype::DType;
use vortex_base::scalar_value::ScalarValue;
use vortex_stats::error::StatsError;
use vortex_stats::laws::short_values_are_not_copied;
use vortex_stats::laws::truth::{combinations_stay_true, true_sets_agree};
use vortex_stats::precision::Precision;
use vortex_stats::stat::Stat;
use vortex_stats::stats_set::StatsSet;

/// A `for` over a set by value goes over the list.
pub fn entries_of(
    alloc: Global,
    set: StatsSet,
) -> Result<Vec<(Stat, Precision<ScalarValue>)>, AllocError>
    ensures { IfOk result (λ entries. entries.items ≡ set) }
{
    let mut entries = Vec::new(alloc);
    for entry in set {
        entries.push(entry)?;
    }
    Ok(entries)
}

/// A `for` over a set by reference goes over the list too.
pub fn statistics_of(alloc: Global, set: &StatsSet) -> Result<Vec<Stat>, AllocError>
    ensures { IfOk result (λ stats. stats.items ≡ map (λ e. e.0) set.now) }
{
    let mut stats = Vec::new(alloc);
    for entry in set.iter() {
        stats.push(entry.0)?;
    }
    Ok(stats)
}

/// The iterator by reference gives as many entries as the list has.
pub fn counted(set: &StatsSet) -> usize
    ensures { result ≡ length set.now }
{
    set.iter().count()
}

/// Clears through a view, which clears in the set.
pub fn cleared_through_view(set: &mut StatsSet, dtype: &DType, stat: Stat)
    requires { IsTrue (entries_fit set.old dtype.now) }
    ensures { set.new ≡ without_entry stat set.old }
{
    let mut view = set.as_mut_typed_ref(dtype);
    view.clear(stat);
}

/// Merges through a view, which merges into the set; a refusal leaves the set as it was.
pub fn merged_through_view(
    set: &mut StatsSet,
    other: &StatsSet,
    dtype: &DType,
) -> Result<(), StatsError>
    requires left_fits { IsTrue (entries_fit set.old dtype.now) }
    requires other_fits { IsTrue (entries_fit other.now dtype.now) }
    ensures merged { OnOk result (set.new ≡ merged_ordered set.old other.now) }
    ensures refused { OnErr result (set.new ≡ set.old) }
{
    let view = set.as_mut_typed_ref(dtype);
    let _merged = view.merge_ordered(&other.as_typed_ref(dtype))?;
    Ok(())
}

/// Merges through a view where the order of the rows isn't known.
pub fn mixed_through_view(
    set: &mut StatsSet,
    other: &StatsSet,
    dtype: &DType,
) -> Result<(), StatsError>
    requires left_fits { IsTrue (entries_fit set.old dtype.now) }
    requires other_fits { IsTrue (entries_fit other.now dtype.now) }
    ensures merged { OnOk result (set.new ≡ merged_unordered set.old other.now) }
    ensures refused { OnErr result (set.new ≡ set.old) }
{
    let view = set.as_mut_typed_ref(dtype);
    let _merged = view.merge_unordered(&other.as_typed_ref(dtype))?;
    Ok(())
}

/// Combines through a view, which combines in the set.
pub fn combined_through_view(
    set: &mut StatsSet,
    other: &StatsSet,
    dtype: &DType,
) -> Result<(), StatsError>
    requires left_fits { IsTrue (entries_fit set.old dtype.now) }
    requires other_fits { IsTrue (entries_fit other.now dtype.now) }
    ensures { Combines (combined set.old other.now) set.old set.new result }
{
    let mut view = set.as_mut_typed_ref(dtype);
    view.combine_sets(&other.as_typed_ref(dtype))
}

/// Sets of a column without texts and bytes always merge.
pub fn merged_numbers(set: StatsSet, other: &StatsSet, dtype: &DType) -> StatsSet
    requires short { holds_long dtype.now ≡ false }
    requires left_fits { IsTrue (entries_fit set dtype.now) }
    requires other_fits { IsTrue (entries_fit other.now dtype.now) }
    ensures { result ≡ merged_ordered set other.now }
{
    short_values_are_not_copied();
    match set.merge_ordered(other, dtype) {
        Ok(merged) => merged,
        Err(_) => unreachable!(),
    }
}

/// Their combination is refused for a conflict alone.
pub fn combined_numbers(set: &mut StatsSet, other: &StatsSet, dtype: &DType) -> Option<Stat>
    requires short { holds_long dtype.now ≡ false }
    requires left_fits { IsTrue (entries_fit set.old dtype.now) }
    requires other_fits { IsTrue (entries_fit other.now dtype.now) }
    ensures conflict { result ≡ (combined set.old other.now).conflict }
    ensures entries { set.new ≡ (combined set.old other.now).entries }
{
    short_values_are_not_copied();
    match set.combine_sets(other, dtype) {
        Ok(()) => None,
        Err(StatsError::Conflict(stat)) => Some(stat),
        Err(_) => unreachable!(),
    }
}

/// A set without a text or bytes is always copied.
pub fn copied_numbers(set: &StatsSet) -> StatsSet
    requires { set_copies set.now ≡ false }
    ensures { result ≡ set.now }
{
    match set.try_clone() {
        Ok(copy) => copy,
        Err(_) => unreachable!(),
    }
}

/// A value that is neither is always answered.
pub fn number_at(set: &StatsSet, stat: Stat) -> Precision<ScalarValue>
    requires { is_copied (entry_value stat set.now) ≡ false }
    ensures { result ≡ entry_value stat set.now }
{
    match set.get(stat) {
        Ok(value) => value,
        Err(_) => unreachable!(),
    }
}

/// Sets that are true of one column combine to one that is true of it, or memory was refused.
pub fn combined_of_one_column(
    set: &mut StatsSet,
    other: &StatsSet,
    dtype: &DType,
) -> Result<(), StatsError>
    requires left_fits { IsTrue (entries_fit set.old dtype.now) }
    requires other_fits { IsTrue (entries_fit other.now dtype.now) }
    ensures truth { (c : ColumnData) → IsTrueOf set.old c → IsTrueOf other.now c
        → OnOk result (IsTrueOf set.new c) }
    ensures agreement { (c : ColumnData) → IsTrueOf set.old c → IsTrueOf other.now c
        → IfErr result (λ e. e ≡ Memory alloc_error) }
{
    true_sets_agree();
    combinations_stay_true();
    set.combine_sets(other, dtype)
}
