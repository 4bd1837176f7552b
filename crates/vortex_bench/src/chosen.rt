// Maps of a few columns out of many.
use crate::pruning::{ROWS, Size, batch_of, map_of_zones, zones_of};
use anyhow::Result;
use std::alloc::{AllocError, Global};
use vortex_stats::stats_set::StatsSet;
use vortex_zone_map::zone::Zone;

const REPEATS: usize = 10;

/// 50 zones of 4,000 columns.
const SPREAD: Size = Size {
    batches: 1,
    batch: 50,
    columns: 4_000,
    counts_nulls: false,
};

// The columns that are chosen, and how many.
const CHOSEN: [usize; 3] = [7, 1_999, 3_998];

const FEW: Size = Size {
    batches: 1,
    batch: 50,
    columns: 3,
    counts_nulls: false,
};

// The zones of the chosen columns.
fn zones_of_chosen<'a>(
    alloc: Global,
    sets: &'a [Vec<StatsSet>],
    chosen: &'a [usize],
) -> Result<Vec<Zone<'a>>, AllocError> {
    let mut zones = Vec::with_capacity(alloc, sets.len())?;
    for set in sets {
        if let Some(zone) = Zone::of_columns(ROWS, set, chosen) {
            zones.push(zone)?;
        }
    }
    Ok(zones)
}

fn mapped(alloc: Global, size: Size, zones: &[Zone<'_>]) -> Result<usize> {
    Ok(map_of_zones(alloc, size.columns, zones)?.len())
}

/// The sets of the zones, of which no map is made.
pub fn only_sets(alloc: Global) -> Result<usize> {
    Ok(batch_of(alloc, SPREAD, 0)?.len())
}

/// The zones of the last of some maps of all columns.
pub fn all_mapped(alloc: Global) -> Result<usize> {
    let sets = batch_of(alloc, SPREAD, 0)?;
    let mut zones = 0;
    for _ in 0..REPEATS {
        zones = mapped(alloc, SPREAD, &zones_of(alloc, &sets)?)?;
    }
    Ok(zones)
}

/// The zones of the last of some maps of the chosen columns.
pub fn chosen_mapped(alloc: Global) -> Result<usize> {
    let sets = batch_of(alloc, SPREAD, 0)?;
    let mut zones = 0;
    for _ in 0..REPEATS {
        zones = mapped(alloc, FEW, &zones_of_chosen(alloc, &sets, &CHOSEN)?)?;
    }
    Ok(zones)
}
