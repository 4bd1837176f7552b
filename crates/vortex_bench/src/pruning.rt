// Pruning by maps of zones, without rows.
use crate::made::{above, bounds, scope_of, tell_no_nulls};
use anyhow::Result;
use std::alloc::{AllocError, Global};
use vortex_expr::bound;
use vortex_expr::bound_expression::BoundExpression;
use vortex_prune::scan::prune::prune;
use vortex_rewrite::rewrite::rules::Rules;
use vortex_stats::error::StatsError;
use vortex_stats::stats_set::StatsSet;
use vortex_zone_map::zone::Zone;
use vortex_zone_map::zone_map::ZoneMap;

/// How often a map is pruned.
pub const REPEATS: u32 = 10;

/// How many rows each zone has.
pub const ROWS: u64 = 10_000;

/// How many zones there are, in how many batches they are added, of how many columns, and whether
/// each column's null count is told.
#[derive(Clone, Copy)]
pub struct Size {
    pub batches: i64,
    pub batch: i64,
    pub columns: usize,
    pub counts_nulls: bool,
}

/// 1,000,000 zones of one column.
pub const LONG: Size = Size {
    batches: 100,
    batch: 10_000,
    columns: 1,
    counts_nulls: false,
};

/// 1,000,000 zones of three columns, as `callers/c/bench.c` has them.
pub const TABLE: Size = Size {
    batches: 100,
    batch: 10_000,
    columns: 3,
    counts_nulls: true,
};

/// 20,000 zones of 30 columns.
pub const BROAD: Size = Size {
    batches: 20,
    batch: 1_000,
    columns: 30,
    counts_nulls: false,
};

// The values of a zone's columns lie from its place to 100 above it.
fn set_of(alloc: Global, size: Size, place: i64) -> Result<StatsSet, StatsError> {
    let mut set = bounds(alloc, place, place.saturating_add(100))?;
    if size.counts_nulls {
        tell_no_nulls(&mut set)?;
    }
    Ok(set)
}

fn sets_of(alloc: Global, size: Size, place: i64) -> Result<Vec<StatsSet>, StatsError> {
    let mut sets = Vec::with_capacity(alloc, size.columns)?;
    for _ in 0..size.columns {
        sets.push(set_of(alloc, size, place)?)?;
    }
    Ok(sets)
}

/// The sets of a batch of zones from a place on.
pub fn batch_of(alloc: Global, size: Size, from: i64) -> Result<Vec<Vec<StatsSet>>, StatsError> {
    let mut sets = Vec::new(alloc);
    for place in 0..size.batch {
        sets.push(sets_of(alloc, size, from.saturating_add(place))?)?;
    }
    Ok(sets)
}

/// The zones of these sets.
pub fn zones_of<'a>(alloc: Global, sets: &'a [Vec<StatsSet>]) -> Result<Vec<Zone<'a>>, AllocError> {
    let mut zones = Vec::with_capacity(alloc, sets.len())?;
    for set in sets {
        zones.push(Zone::new(ROWS, set))?;
    }
    Ok(zones)
}

/// The map of zones of so many columns.
pub fn map_of_zones(alloc: Global, columns: usize, zones: &[Zone<'_>]) -> Result<ZoneMap> {
    match ZoneMap::try_new(alloc, scope_of(alloc, columns)?, zones) {
        Ok(map) => Ok(map),
        Err(refused) => Err(refused.error.into()),
    }
}

fn add_batch(alloc: Global, size: Size, map: &mut ZoneMap, batch: i64) -> Result<(), StatsError> {
    let sets = batch_of(alloc, size, batch.saturating_mul(size.batch))?;
    map.extend(alloc, &zones_of(alloc, &sets)?)
}

// The map of all zones, batch by batch.
fn map_of(alloc: Global, size: Size) -> Result<ZoneMap> {
    let mut map = map_of_zones(alloc, size.columns, &[])?;
    for batch in 0..size.batches {
        add_batch(alloc, size, &mut map, batch)?;
    }
    Ok(map)
}

/// So many comparisons joined by AND, of one column after another, of which most zones fail the
/// last alone.
pub fn leaves_of(alloc: Global, size: Size, leaves: usize) -> Result<BoundExpression> {
    let last = size.batches.saturating_mul(size.batch).saturating_sub(100);
    let mut all = above(alloc, 0, if leaves == 1 { last } else { 0 })?;
    for leaf in 1..leaves {
        let number = if leaf + 1 == leaves { last } else { 0 };
        let place = if size.columns > 0 {
            leaf % size.columns
        } else {
            0
        };
        all = bound::and(alloc, all, above(alloc, place, number)?)?;
    }
    Ok(all)
}

/// The zones of a map that is made and not pruned.
pub fn only_mapped(alloc: Global, size: Size) -> Result<usize> {
    Ok(map_of(alloc, size)?.len())
}

/// The zones of a map that the last of some prunings skips.
pub fn skipped(
    alloc: Global,
    map: &ZoneMap,
    predicate: &BoundExpression,
    repeats: u32,
) -> Result<usize> {
    if !predicate.is_plain() || !predicate.fits_scope(map.scope()) {
        return Err(StatsError::Mismatch.into());
    }
    let rules = Rules::builtin(alloc);
    let mut skipped = 0;
    for _ in 0..repeats {
        skipped = prune(alloc, map, predicate, &rules)?.skipped.len();
    }
    Ok(skipped)
}

/// The zones that the last of some prunings under so many comparisons skips.
pub fn pruned(alloc: Global, size: Size, leaves: usize) -> Result<usize> {
    let map = map_of(alloc, size)?;
    let predicate = leaves_of(alloc, size, leaves)?;
    skipped(alloc, &map, &predicate, REPEATS)
}
