//! The statistics of neighbouring chunks, merged pair by pair.
ghost use Rattle.std.specs.Prelude.{◌≡◌, ◌<◌, ◌++◌, List, IfOk, IsTrue, Ok, OnOk, length, slice_get, slice_index_or};
ghost use Rattle.vortex_stats.specs.Sets.Entries.{entries_fit, value_fits};
ghost use Rattle.vortex_capi.specs.Merges as spec;
ghost use Rattle.vortex_capi.specs.Refusals.{Answers, Gives};
ghost use Rattle.vortex_capi.specs.declared.statistic.Statistic.{Statistic as StatisticData};
ghost use Rattle.vortex_capi.specs.Slots.{AreSlots, IsTold, Makes, Slot};

use crate::fault::{Fault, Refusal};
use crate::measure::stat_of;
use crate::slots::{Slots, tell};
use crate::statistic::{Entry, Statistic};
use crate::status::Status;
use crate::types::dtype_of;
use std::alloc::{AllocError, Global};
use vortex_base::dtype::DType;
use vortex_stats::stat::Stat;
use vortex_stats::stats_set::StatsSet;

// The statistic that has this number in both tables.
fn common_stat(dtype: DType, left: u8, right: u8) -> Result<Stat, Status>
    ensures { result ≡ spec.common_stat dtype left right }
{
    if left == right {
        stat_of(dtype, left)
    } else {
        Err(Status::BadStat)
    }
}

/// The number of the statistic at a place of a table.
pub(crate) fn number_at(table: &[Statistic<'_>], entry: usize) -> u8
    requires { entry < length table.now }
    ensures { (d : StatisticData) → result ≡ (slice_index_or table.now entry d).stat }
{
    table[entry].stat
}

// The statistics that both tables have in the same order.
fn common(
    alloc: Global,
    dtype: DType,
    left: &[Statistic<'_>],
    right: &[Statistic<'_>],
) -> Result<Vec<Stat>, Refusal>
    ensures { Answers (λ v. v.items) result (spec.common dtype left.now right.now) }
{
    if left.len() != right.len() {
        let entry = left.len().min(right.len());
        return Err(Refusal::at_entry(Status::BadLength, entry));
    }
    let mut stats = Vec::new(alloc);
    for entry in 0..left.len() {
        match common_stat(dtype, number_at(left, entry), number_at(right, entry)) {
            Ok(stat) => stats.push(stat)?,
            Err(status) => return Err(Refusal::at_entry(status, entry)),
        }
    }
    Ok(stats)
}

// Whether the arrays of the statistic at a place have an element for each zone and no more.
fn fills_at(table: &[Statistic<'_>], dtype: DType, zones: usize, entry: usize) -> bool
    ensures { result ≡ spec.fills_or dtype zones (slice_get table.now entry) }
{
    let Some(statistic) = table.get(entry) else {
        return false;
    };
    match stat_of(dtype, statistic.stat) {
        Ok(stat) => statistic.fills(dtype, stat, zones),
        Err(_) => false,
    }
}

/// Refuses a table whose arrays are of more zones or fewer; which of two tables it is, is told.
pub(crate) fn filled(
    table: &[Statistic<'_>],
    dtype: DType,
    zones: usize,
    side: usize,
) -> Result<(), Refusal>
    ensures { result ≡ spec.filled side dtype zones table.now }
{
    for entry in 0..table.len() {
        if !fills_at(table, dtype, zones, entry) {
            return Err(Refusal::in_column(Status::BadLength, 0, side, entry));
        }
    }
    Ok(())
}

// The statistic at a place of a table with its value in a zone.
fn entry_at(
    alloc: Global,
    dtype: DType,
    table: &[Statistic<'_>],
    zone: usize,
    entry: usize,
) -> Result<Entry, Status>
    ensures read { Gives result (spec.entry_or dtype zone (slice_get table.now entry)) }
    ensures fits { IfOk result (λ entry. IsTrue (value_fits entry.0 dtype entry.1)) }
{
    match table.get(entry) {
        Some(statistic) => statistic.entry(alloc, dtype, zone),
        None => Err(Status::BadLength),
    }
}

/// The set that a table gives for a zone of a column of this type; which of two tables it is, is
/// told.
pub(crate) fn set_given(
    alloc: Global,
    dtype: DType,
    table: &[Statistic<'_>],
    zone: usize,
    side: usize,
) -> Result<StatsSet, Refusal>
    ensures read { Answers (λ set. set) result (spec.set_given side dtype zone table.now) }
    ensures fits { IfOk result (λ set. IsTrue (entries_fit set dtype)) }
{
    let mut set = StatsSet::new(alloc);
    for entry in 0..table.len() {
        match entry_at(alloc, dtype, table, zone, entry) {
            Ok(found) => {
                set.put(found.0, found.1);
            }
            Err(status) => return Err(Refusal::in_column(status, zone, side, entry)),
        }
    }
    Ok(set)
}

// The set of a zone of the left table followed by that of the right one.
fn merged_set(
    alloc: Global,
    dtype: DType,
    left: &[Statistic<'_>],
    right: &[Statistic<'_>],
    zone: usize,
) -> Result<StatsSet, Refusal>
    ensures { Answers (λ set. set) result (spec.merged_set dtype left.now right.now zone) }
{
    let set = set_given(alloc, dtype, left, zone, 0)?;
    let other = set_given(alloc, dtype, right, zone, 1)?;
    match set.merge_ordered(&other, &dtype) {
        Ok(set) => Ok(set),
        Err(_) => Err(Refusal::from(AllocError)),
    }
}

// The merged set of each zone.
fn merged_sets(
    alloc: Global,
    dtype: DType,
    left: &[Statistic<'_>],
    right: &[Statistic<'_>],
    zones: usize,
) -> Result<Vec<StatsSet>, Refusal>
    ensures { Answers (λ v. v.items) result (spec.merged_sets dtype left.now right.now zones) }
{
    let known = left.first().map_or(0, |first| first.known.len());
    let mut sets = Vec::with_capacity(alloc, zones.min(known))?;
    for zone in 0..zones {
        sets.push(merged_set(alloc, dtype, left, right, zone)?)?;
    }
    Ok(sets)
}

// Adds a statistic in each zone.
fn push_stat(
    slots: &mut Slots,
    dtype: DType,
    sets: &[StatsSet],
    stat: Stat,
) -> Result<(), AllocError>
    ensures { (before : List Slot) → AreSlots slots.old before
        → OnOk result (AreSlots slots.new (before ++ spec.slots_of_stat dtype sets.now stat)) }
{
    for set in sets {
        let Ok(value) = set.get(stat) else {
            return Err(AllocError);
        };
        slots.push(dtype, stat, &value)?;
    }
    Ok(())
}

// The statistics one after another, each in all zones.
fn slots_by_stat(
    alloc: Global,
    dtype: DType,
    sets: &[StatsSet],
    stats: &[Stat],
) -> Result<Slots, Refusal>
    ensures { Makes result (Ok (spec.slots_by_stat dtype sets.now stats.now)) }
{
    let mut slots = Slots::new(alloc);
    for stat in stats {
        push_stat(&mut slots, dtype, sets, *stat)?;
    }
    Ok(slots)
}

// The merged statistics of a column of a type. Without statistics no zone is looked at.
fn merged_as(
    alloc: Global,
    dtype: DType,
    zones: usize,
    left: &[Statistic<'_>],
    right: &[Statistic<'_>],
) -> Result<Slots, Refusal>
    ensures { Makes result (spec.merged_as left.now right.now zones dtype) }
{
    let stats = common(alloc, dtype, left, right)?;
    filled(left, dtype, zones, 0)?;
    filled(right, dtype, zones, 1)?;
    if left.is_empty() {
        return Ok(Slots::new(alloc));
    }
    let sets = merged_sets(alloc, dtype, left, right, zones)?;
    slots_by_stat(alloc, dtype, &sets, &stats)
}

// The merged statistics of a column of a kind.
fn merged(
    alloc: Global,
    kind: u8,
    nullable: u8,
    zones: usize,
    left: &[Statistic<'_>],
    right: &[Statistic<'_>],
) -> Result<Slots, Refusal>
    ensures { Makes result (spec.merged kind nullable zones left.now right.now) }
{
    match dtype_of(kind, nullable) {
        Ok(dtype) => merged_as(alloc, dtype, zones, left, right),
        Err(status) => Err(Refusal::at_entry(status, 0)),
    }
}

/// The statistics of chunks, each a chunk of the left table followed by that of the right one in
/// the same zone, `vortex_merge` of the header.
pub fn merge(
    alloc: Global,
    kind: u8,
    nullable: u8,
    zones: usize,
    left: &[Statistic<'_>],
    right: &[Statistic<'_>],
    known: &mut [u8],
    ends: &mut [u64],
    values: &mut [u8],
    len: &mut usize,
    fault: &mut Fault,
) -> u8
    // The merged statistics stand in the arrays, or the arrays are as they were.
    ensures { IsTold (spec.merged kind nullable zones left.now right.now)
        (record { known = known.old; ends = ends.old; values = values.old }) result
        (record { known = known.new; ends = ends.new; values = values.new }) len.new fault.new }
{
    tell(
        merged(alloc, kind, nullable, zones, left, right),
        known,
        ends,
        values,
        len,
        fault,
    )
}
