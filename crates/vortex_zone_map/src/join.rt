//! Joins of two neighbouring zones into one.
ghost use Rattle.std.specs.Prelude.{◌≡◌, ◌<◌, ◌^◌, ◌++◌, IfOk, IsTrue, OnOk, length};
ghost use Rattle.vortex_base.specs.Data.Scopes.{named_columns};
ghost use Rattle.vortex_zone_map.specs.Zone.{merged_sets, fits_zone};
ghost use Rattle.vortex_stats.specs.Sets.Entries.{AreDistinct};
ghost use Rattle.vortex_zone_map.specs.Kept.{AreKept, IsLonger, said, said_in, sets_of};

use crate::stat_entry::{StatEntry, tell};
use std::alloc::{AllocError, Global};
use vortex_base::dtype::DType;
use vortex_base::scalar_value::ScalarValue;
use vortex_stats::stats_set::StatsSet;

/// Each set merged with the one beside it.
pub fn merged_sets(
    alloc: Global,
    columns: &[(String, DType)],
    left: Vec<StatsSet>,
    right: &[StatsSet],
) -> Result<Vec<StatsSet>, AllocError>
    requires left_fits { IsTrue (fits_zone (named_columns columns.now) left.items) }
    requires right_fits { IsTrue (fits_zone (named_columns columns.now) right.now) }
    ensures { IfOk result (λ sets. sets.items ≡ merged_sets left.items right.now) }
{
    let mut sets = Vec::with_capacity(alloc, left.len())?;
    for set in left {
        let place = sets.len();
        match set.merge_ordered(&right[place], &columns[place].1) {
            Ok(merged) => sets.push(merged)?,
            Err(_) => return Err(AllocError),
        }
    }
    Ok(sets)
}

// Tells what a set says of the column at a place.
fn tell_set(
    told: &mut Vec<StatEntry>,
    var_len_values: &mut Vec<ScalarValue>,
    column: u32,
    set: StatsSet,
) -> Result<(), AllocError>
    requires { AreKept (length var_len_values.old.items) told.old.items }
    ensures told { OnOk result (said var_len_values.new.items told.new.items
        ≡ said var_len_values.old.items told.old.items ++ said_in column set) }
    ensures kept { OnOk result (AreKept (length var_len_values.new.items) told.new.items) }
    ensures longer { IsLonger var_len_values.old.items var_len_values.new.items }
    ensures distinct { AreDistinct set }
{
    told.reserve(set.len())?;
    for entry in set {
        tell(told, var_len_values, column, entry.0, entry.1)?;
    }
    Ok(())
}

/// The claims by which these sets are known.
pub fn told_of(
    alloc: Global,
    var_len_values: &mut Vec<ScalarValue>,
    sets: Vec<StatsSet>,
) -> Result<Vec<StatEntry>, AllocError>
    requires { length sets.items < 2 ^ 32 }
    ensures told { IfOk result (λ told.
        sets_of (length sets.items) (said var_len_values.new.items told.items) ≡ sets.items) }
    ensures kept { IfOk result (λ told. AreKept (length var_len_values.new.items) told.items) }
    ensures longer { IsLonger var_len_values.old.items var_len_values.new.items }
{
    let mut told = Vec::new(alloc);
    let mut column = 0u32;
    for set in sets {
        tell_set(&mut told, var_len_values, column, set)?;
        column += 1;
    }
    Ok(told)
}
