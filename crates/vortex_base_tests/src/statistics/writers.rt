//! A writer's accumulator: the batches of a column are measured, and merged as they are written.
ghost use Rattle.std.specs.Prelude.{◌≡◌, All, IfErr, IfOk, IsTrue, alloc_error};
ghost use Rattle.vortex_base.specs.Data.Columns.{ColumnData};
ghost use Rattle.vortex_base.specs.declared.scalar_value.ScalarValue.{ScalarValue};
ghost use Rattle.vortex_stats.specs.Measuring.Measured.{measured};
ghost use Rattle.vortex_stats.specs.Merging.Merges.{merged_ordered};
ghost use Rattle.vortex_stats.specs.Sets.Claims.{IsTrueOf, appended};
ghost use Rattle.vortex_stats.specs.Sets.Entries.{entries_fit, entry_value};
ghost use Rattle.vortex_stats.specs.Stat.{all_stats};
ghost use Rattle.vortex_stats.specs.declared.precision.Precision.TheVariants.{Exact};
ghost use Rattle.vortex_stats.specs.declared.stat.Stat.{Stat};
ghost use Rattle.vortex_stats.specs.declared.error.StatsError.TheVariants.{Memory};
ghost use Rattle.vortex_base_tests.specs.StatisticsRows.Writing.{IsMeasuredThroughout, adds_up, written};

use std::alloc::Global;
use vortex_base::column::Column;
use vortex_stats::error::StatsError;
use vortex_stats::laws::truth::ordered_merges_stay_true;
use vortex_stats::stat::ALL_STATS;
use vortex_stats::stats_set::StatsSet;

/// The statistics of what was written so far and then of one more batch.
pub fn with_batch(alloc: Global, set: StatsSet, batch: &Column) -> Result<StatsSet, StatsError>
    requires { IsTrue (entries_fit set batch.now.dtype) }
    ensures truth { IfOk result (λ all. (c : ColumnData) → c.dtype ≡ batch.now.dtype
        → IsTrueOf set c → IsTrueOf all (appended c batch.now)) }
    ensures fits { IfOk result (λ all. IsTrue (entries_fit all batch.now.dtype)) }
    ensures merged { let own = measured all_stats batch.now in
        IfOk result (λ all. all ≡ merged_ordered set own) }
    ensures memory { IfErr result (λ e. e ≡ Memory alloc_error) }
{
    ordered_merges_stay_true();
    let own = StatsSet::of_column(alloc, batch, ALL_STATS)?;
    match set.merge_ordered(&own, &batch.dtype()) {
        Ok(all) => Ok(all),
        Err(refused) => Err(refused.error),
    }
}

/// The statistics of all batches of a column, whatever their number, each measured by itself: they
/// are true of the batches one behind another, and those that are exact are those that are measured
/// of these. A statistic that isn't exact, or is missing, may be measured all the same: a batch
/// without values leaves no bounds, and a sum that left its type on the way none, even if it came
/// back later. Where each batch has a value, and a sum and a count stay in their types on the way,
/// the bounds, the sum, the nulls and the size are those that are measured of all batches.
pub fn accumulated(alloc: Global, first: &Column, more: &[Column]) -> Result<StatsSet, StatsError>
    requires { All (λ batch. batch.dtype ≡ first.now.dtype) more.now }
    ensures truth { IfOk result (λ set. IsTrueOf set (written first.now more.now)) }
    ensures exact { IfOk result (λ set. (s : Stat) (v : ScalarValue)
        → entry_value s set ≡ Exact v
        → entry_value s (measured all_stats (written first.now more.now)) ≡ Exact v) }
    ensures equal { IfOk result (λ set. (s : Stat) → IsTrue (adds_up s)
        → IsMeasuredThroughout s first.now more.now
        → entry_value s set ≡ entry_value s (measured all_stats (written first.now more.now))) }
    ensures memory { IfErr result (λ e. e ≡ Memory alloc_error) }
{
    let mut set = StatsSet::of_column(alloc, first, ALL_STATS)?;
    for batch in more {
        set = with_batch(alloc, set, batch)?;
    }
    Ok(set)
}
