//! Whether statistics are true of a column of values.
ghost use Rattle.std.specs.Prelude.{◌≡◌, ◌≢◌, ◌<◌, false, IfErr, IfOk, IsTrue, MatchResult, OnOk, Result, length, slice_index_or, true};
ghost use Rattle.vortex_base.specs.Data.Columns.{ColumnData};
ghost use Rattle.vortex_capi.specs.Arrow as arrow;
ghost use Rattle.vortex_capi.specs.Checks as spec;
ghost use Rattle.vortex_capi.specs.Refusals.{Answers, Gives};
ghost use Rattle.vortex_capi.specs.Statuses.{status_number};
ghost use Rattle.vortex_stats.specs.Sets.Entries.{value_fits};
ghost use Rattle.vortex_capi.specs.Values.{given_column};
ghost use Rattle.vortex_capi.specs.declared.fault.Refusal.{Refusal as RefusalData};
ghost use Rattle.vortex_capi.specs.declared.statistic.Statistic.{Statistic as StatisticData};
ghost use Rattle.vortex_capi.specs.declared.status.Status.TheVariants.{NoMemory};

use crate::arrow::ArrowValues;
use crate::fault::{Fault, Refusal};
use crate::measure::stat_of;
use crate::statistic::{Entry, Statistic};
use crate::status::Status;
use crate::values::Values;
use std::alloc::Global;
use vortex_base::column::Column;
use vortex_base::dtype::DType;
use vortex_stats::stats_set::StatsSet;

// The statistic and its value in a zone, of arrays that have as many elements as one another.
fn told_entry(
    alloc: Global,
    statistic: &Statistic<'_>,
    dtype: DType,
    zone: usize,
) -> Result<Entry, Status>
    ensures read { Gives result (spec.told_entry dtype zone statistic.now) }
    ensures fits { IfOk result (λ entry. IsTrue (value_fits entry.0 dtype entry.1)) }
{
    let stat = stat_of(dtype, statistic.stat)?;
    if statistic.fills(dtype, stat, statistic.known.len()) {
        statistic.entry(alloc, dtype, zone)
    } else {
        Err(Status::BadLength)
    }
}

// Whether what a statistic says of a zone is true of a column.
fn holds(alloc: Global, column: &Column, stat: &Statistic<'_>, zone: usize) -> Result<bool, Status>
    ensures truth { IfOk result (λ b. b ≡ true → spec.TellsTruth column.now zone stat.now) }
    ensures untruth { IfOk result (λ b. b ≡ false → spec.TellsUntruth column.now zone stat.now) }
    ensures refused { IfErr result (λ s. s ≢ NoMemory
        → spec.told_entry column.now.dtype zone stat.now ≡ Err s) }
{
    match told_entry(alloc, stat, column.dtype(), zone) {
        Ok((stat, value)) => Ok(StatsSet::of(alloc, stat, value).is_true_of(column)),
        Err(status) => Err(status),
    }
}

// Whether the statistic at a place is true of a column in a zone.
fn check_at(
    alloc: Global,
    column: &Column,
    stats: &[Statistic<'_>],
    zone: usize,
    entry: usize,
) -> Result<(), Refusal>
    requires { entry < length stats.now }
    ensures truth { OnOk result ((d : StatisticData)
        → spec.TellsTruth column.now zone (slice_index_or stats.now entry d)) }
    ensures fault { IfErr result (λ r. r.status ≢ NoMemory → (d : StatisticData)
        → spec.IsFault column.now zone entry (slice_index_or stats.now entry d) r) }
{
    match holds(alloc, column, &stats[entry], zone) {
        Ok(true) => Ok(()),
        Ok(false) => Err(Refusal::at_entry(Status::Untrue, entry)),
        Err(status) => Err(Refusal::in_zone(status, zone, entry)),
    }
}

// Whether each statistic is true of a column in a zone, or the first that isn't or is refused.
fn check_each(
    alloc: Global,
    column: &Column,
    stats: &[Statistic<'_>],
    zone: usize,
) -> Result<(), Refusal>
    ensures { spec.Checks column.now zone stats.now result }
{
    for entry in 0..stats.len() {
        check_at(alloc, column, stats, zone, entry)?;
    }
    Ok(())
}

// Checks the number of rows and statistics against a column.
fn check_zone(
    alloc: Global,
    column: &Column,
    rows: u64,
    stats: &[Statistic<'_>],
    zone: usize,
) -> Result<(), Refusal>
    ensures { spec.ChecksZone column.now rows zone stats.now result }
{
    if column.len() as u64 != rows {
        return Err(Refusal::at_entry(Status::Untrue, stats.len()));
    }
    check_each(alloc, column, stats, zone)
}

// Checks the number of rows and statistics against a column as it was read.
fn checked(
    alloc: Global,
    column: Result<Column, Refusal>,
    rows: u64,
    stats: &[Statistic<'_>],
    zone: usize,
) -> Result<(), Refusal>
    ensures { (given : Result ColumnData RefusalData) → Answers (λ c. c) column given
        → spec.IsVerdict given rows zone stats.now result }
{
    match column {
        Ok(column) => check_zone(alloc, &column, rows, stats, zone),
        Err(refusal) => Err(refusal),
    }
}

// Tells a verdict: its status, and where it found a fault.
fn tell(verdict: Result<(), Refusal>, fault: &mut Fault) -> u8
    ensures { MatchResult verdict (λ u. result ≡ 0)
        (λ r. (result ≡ status_number r.status) × (fault.new ≡ r.fault)) }
{
    match verdict {
        Ok(()) => 0,
        Err(refusal) => {
            *fault = refusal.fault;
            refusal.status.number()
        }
    }
}

/// Whether a zone has as many rows as a column and each of its statistics is true of the column's
/// values, `vortex_check` of the header.
pub fn check(
    alloc: Global,
    column: &Values<'_>,
    rows: u64,
    stats: &[Statistic<'_>],
    zone: usize,
    fault: &mut Fault,
) -> u8
    // Each is true, or the first that isn't or that is refused is told.
    ensures { spec.IsTold (given_column column.now) rows zone stats.now result fault.new }
{
    let column = column.given_column(alloc);
    tell(checked(alloc, column, rows, stats, zone), fault)
}

/// Checks whether a zone has as many rows as a column in Arrow's layout and each of its statistics
/// is true of the column's values, `vortex_check_arrow` of the header.
pub fn check_arrow(
    alloc: Global,
    column: &ArrowValues<'_>,
    rows: u64,
    stats: &[Statistic<'_>],
    zone: usize,
    fault: &mut Fault,
) -> u8
    // Each is true, or the first that isn't or that is refused is told.
    ensures { spec.IsTold (arrow.given_column column.now) rows zone stats.now result fault.new }
{
    let column = column.given_column(alloc);
    tell(checked(alloc, column, rows, stats, zone), fault)
}
