//! The statistics of a column of values.
ghost use Rattle.std.specs.Prelude.{◌≡◌, IsTrue, Ok};
ghost use Rattle.std.specs.List.{list_all};
ghost use Rattle.vortex_base.specs.Data.Columns.{ColumnData};
ghost use Rattle.vortex_capi.specs.Arrow as arrow;
ghost use Rattle.vortex_capi.specs.Extents.{IsExtentOf, follows};
ghost use Rattle.vortex_capi.specs.Measures as spec;
ghost use Rattle.vortex_capi.specs.Refusals.{Answers, followed};
ghost use Rattle.vortex_capi.specs.Slots.{IsTold, Makes};
ghost use Rattle.vortex_capi.specs.Values.{read_column};
ghost use Rattle.vortex_stats.specs.Measuring.Told.{exactly};

use crate::arrow::ArrowValues;
use crate::extent::{Extent, all_follow};
use crate::fault::{Fault, Refusal};
use crate::slots::{Slots, tell};
use crate::status::Status;
use crate::values::Values;
use std::alloc::{AllocError, Global};
use vortex_base::column::Column;
use vortex_base::dtype::DType;
use vortex_base::scalar_value::ScalarValue;
use vortex_stats::precision::Precision;
use vortex_stats::stat::Stat;
use vortex_stats::stats_set::StatsSet;

/// The statistic of a number, if the type has it.
pub(crate) fn stat_of(dtype: DType, number: u8) -> Result<Stat, Status>
    ensures { result ≡ spec.stat_of dtype number }
{
    let Some(stat) = Stat::from_number(number) else {
        return Err(Status::BadStat);
    };
    match stat.dtype(&dtype) {
        Some(_) => Ok(stat),
        None => Err(Status::BadStat),
    }
}

// The statistics of the numbers, which the type has.
fn wanted_of(alloc: Global, dtype: DType, numbers: &[u8]) -> Result<Vec<Stat>, Refusal>
    ensures { Answers (λ v. v.items) result (spec.wanted_of dtype numbers.now) }
{
    let mut wanted = Vec::new(alloc);
    for entry in 0..numbers.len() {
        match stat_of(dtype, numbers[entry]) {
            Ok(stat) => wanted.push(stat)?,
            Err(status) => return Err(Refusal::at_entry(status, entry)),
        }
    }
    Ok(wanted)
}

/// The wanted statistics of a set of a column of this type.
pub(crate) fn slots_in(
    alloc: Global,
    dtype: DType,
    set: &StatsSet,
    wanted: &[Stat],
) -> Result<Slots, Refusal>
    ensures { Makes result (Ok (spec.slots_in dtype set.now wanted.now)) }
{
    let mut slots = Slots::new(alloc);
    for stat in wanted {
        let Ok(value) = set.get(*stat) else {
            return Err(Refusal::from(AllocError));
        };
        slots.push(dtype, *stat, &value)?;
    }
    Ok(slots)
}

// The statistics of a column.
fn slots_of(alloc: Global, column: &Column, wanted: &[Stat]) -> Result<Slots, Refusal>
    ensures { Makes result (Ok (spec.slots_of column.now wanted.now)) }
{
    let set = StatsSet::of_column(alloc, column, wanted)?;
    slots_in(alloc, column.dtype(), &set, wanted)
}

// Exactly the value, if there is one.
fn exactly(value: Option<ScalarValue>) -> Precision<ScalarValue>
    ensures { result ≡ exactly value }
{
    match value {
        Some(value) => Precision::Exact(value),
        None => Precision::Absent,
    }
}

// The statistics of a column of this type, extent and size.
fn slots_of_extent(
    alloc: Global,
    dtype: DType,
    extent: &Extent<'_>,
    size: u64,
    wanted: &[Stat],
) -> Result<Slots, Refusal>
    requires { IsTrue (list_all follows wanted.now) }
    ensures { (c : ColumnData) → IsExtentOf extent.now c → c.dtype ≡ dtype → c.size ≡ size
        → Makes result (Ok (spec.slots_of c wanted.now)) }
{
    let mut slots = Slots::new(alloc);
    for stat in wanted {
        slots.push(dtype, *stat, &exactly(extent.value(*stat, size)?))?;
    }
    Ok(slots)
}

// Measures the column of a type, of arrays that have an element for each row.
fn slots_of_values(
    alloc: Global,
    dtype: DType,
    values: &Values<'_>,
    wanted: &[Stat],
) -> Result<Slots, Refusal>
    ensures { Makes result
        (followed (read_column dtype values.now) (λ c. Ok (spec.slots_of c wanted.now))) }
{
    if all_follow(wanted) {
        if let Some(extent) = values.extent(alloc, dtype) {
            return slots_of_extent(alloc, dtype, &extent, values.size, wanted);
        }
    }
    let column = values.read_column(alloc, dtype)?;
    slots_of(alloc, &column, wanted)
}

// The statistics of the values that a caller hands in.
fn measured(alloc: Global, values: &Values<'_>, numbers: &[u8]) -> Result<Slots, Refusal>
    ensures { Makes result (spec.measured values.now numbers.now) }
{
    let dtype = values.dtype()?;
    let wanted = wanted_of(alloc, dtype, numbers)?;
    values.filled(dtype)?;
    slots_of_values(alloc, dtype, values, &wanted)
}

// Measures the values that a caller hands in in Arrow's layout.
fn measured_arrow(alloc: Global, column: &ArrowValues<'_>, numbers: &[u8]) -> Result<Slots, Refusal>
    ensures { Makes result (arrow.measured column.now numbers.now) }
{
    let dtype = column.dtype()?;
    let wanted = wanted_of(alloc, dtype, numbers)?;
    let unpacked = column.unpacked(alloc, dtype)?;
    slots_of_values(alloc, dtype, &unpacked.values(column, dtype), &wanted)
}

/// The statistics of a column of values, `vortex_measure` of the header: for each wanted number how
/// it is known, and its value's bytes.
pub fn measure(
    alloc: Global,
    column: &Values<'_>,
    stats: &[u8],
    known: &mut [u8],
    ends: &mut [u64],
    values: &mut [u8],
    len: &mut usize,
    fault: &mut Fault,
) -> u8
    // The statistics of the column's values stand in the arrays, or the arrays are as they were.
    ensures { IsTold (spec.measured column.now stats.now)
        (record { known = known.old; ends = ends.old; values = values.old }) result
        (record { known = known.new; ends = ends.new; values = values.new }) len.new fault.new }
{
    tell(
        measured(alloc, column, stats),
        known,
        ends,
        values,
        len,
        fault,
    )
}

/// Measures a column of values in Arrow's layout, `vortex_measure_arrow` of the header: tells what
/// `measure` tells of the same column.
pub fn measure_arrow(
    alloc: Global,
    column: &ArrowValues<'_>,
    stats: &[u8],
    known: &mut [u8],
    ends: &mut [u64],
    values: &mut [u8],
    len: &mut usize,
    fault: &mut Fault,
) -> u8
    // The statistics of the column's values stand in the arrays, or the arrays are as they were.
    ensures { IsTold (arrow.measured column.now stats.now)
        (record { known = known.old; ends = ends.old; values = values.old }) result
        (record { known = known.new; ends = ends.new; values = values.new }) len.new fault.new }
{
    tell(
        measured_arrow(alloc, column, stats),
        known,
        ends,
        values,
        len,
        fault,
    )
}
