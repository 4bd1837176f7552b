//! The statistics of a table's zones, merged into those of one chunk.
ghost use Rattle.std.specs.Prelude.{IfOk, IsTrue};
ghost use Rattle.vortex_stats.specs.Sets.Entries.{entries_fit};
ghost use Rattle.vortex_capi.specs.Measures.{wanted_of};
ghost use Rattle.vortex_capi.specs.Merges as spec;
ghost use Rattle.vortex_capi.specs.Refusals.{Answers};
ghost use Rattle.vortex_capi.specs.Slots.{IsTold, Makes};

use crate::fault::{Fault, Refusal};
use crate::measure::{slots_in, stat_of};
use crate::merge::{filled, number_at, set_given};
use crate::slots::{Slots, tell};
use crate::statistic::Statistic;
use crate::types::dtype_of;
use std::alloc::{AllocError, Global};
use vortex_base::dtype::DType;
use vortex_stats::stat::Stat;
use vortex_stats::stats_set::StatsSet;

// The statistics of a table.
fn stats_of(alloc: Global, dtype: DType, table: &[Statistic<'_>]) -> Result<Vec<Stat>, Refusal>
    ensures { Answers (λ v. v.items) result (wanted_of dtype (spec.numbers_of table.now)) }
{
    let mut stats = Vec::new(alloc);
    for entry in 0..table.len() {
        match stat_of(dtype, number_at(table, entry)) {
            Ok(stat) => stats.push(stat)?,
            Err(status) => return Err(Refusal::at_entry(status, entry)),
        }
    }
    Ok(stats)
}

// The set of the zones before one, followed by that of the zone.
fn with_zone(
    alloc: Global,
    dtype: DType,
    table: &[Statistic<'_>],
    zone: usize,
    before: StatsSet,
) -> Result<StatsSet, Refusal>
    requires { IsTrue (entries_fit before dtype) }
    ensures read { Answers (λ set. set) result (spec.next_zone dtype table.now zone before) }
    ensures fits { IfOk result (λ set. IsTrue (entries_fit set dtype)) }
{
    let set = set_given(alloc, dtype, table, zone, 0)?;
    match before.merge_ordered(&set, &dtype) {
        Ok(set) => Ok(set),
        Err(_) => Err(Refusal::from(AllocError)),
    }
}

// The set of all zones in order; of no zones nothing is known.
fn zones_set(
    alloc: Global,
    dtype: DType,
    table: &[Statistic<'_>],
    zones: usize,
) -> Result<StatsSet, Refusal>
    ensures { Answers (λ set. set) result (spec.zones_set dtype table.now zones) }
{
    if zones == 0 {
        return Ok(StatsSet::new(alloc));
    }
    let mut set = set_given(alloc, dtype, table, 0, 0)?;
    for zone in 1..zones {
        set = with_zone(alloc, dtype, table, zone, set)?;
    }
    Ok(set)
}

// The statistics of a column of a type in all zones together. Without statistics no zone is looked
// at.
fn together_as(
    alloc: Global,
    dtype: DType,
    zones: usize,
    table: &[Statistic<'_>],
) -> Result<Slots, Refusal>
    ensures { Makes result (spec.together_as table.now zones dtype) }
{
    let wanted = stats_of(alloc, dtype, table)?;
    filled(table, dtype, zones, 0)?;
    if table.is_empty() {
        return Ok(Slots::new(alloc));
    }
    let set = zones_set(alloc, dtype, table, zones)?;
    slots_in(alloc, dtype, &set, &wanted)
}

// The statistics of a column of a kind in all zones together.
fn together(
    alloc: Global,
    kind: u8,
    nullable: u8,
    zones: usize,
    table: &[Statistic<'_>],
) -> Result<Slots, Refusal>
    ensures { Makes result (spec.together kind nullable zones table.now) }
{
    match dtype_of(kind, nullable) {
        Ok(dtype) => together_as(alloc, dtype, zones, table),
        Err(status) => Err(Refusal::at_entry(status, 0)),
    }
}

/// The statistics of a table's zones, one behind the other, as those of one chunk,
/// `vortex_merge_zones` of the header.
pub fn merge_zones(
    alloc: Global,
    kind: u8,
    nullable: u8,
    zones: usize,
    stats: &[Statistic<'_>],
    known: &mut [u8],
    ends: &mut [u64],
    values: &mut [u8],
    len: &mut usize,
    fault: &mut Fault,
) -> u8
    // The statistics of all zones stand in the arrays, or the arrays are as they were.
    ensures { IsTold (spec.together kind nullable zones stats.now)
        (record { known = known.old; ends = ends.old; values = values.old }) result
        (record { known = known.new; ends = ends.new; values = values.new }) len.new fault.new }
{
    tell(
        together(alloc, kind, nullable, zones, stats),
        known,
        ends,
        values,
        len,
        fault,
    )
}
