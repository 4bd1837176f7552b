//! A zone with the sets of its columns.

use vortex_stats::stats_set::StatsSet;

/// A zone by its rows and its claims.
#[derive(Debug, Drop)]
pub struct Known {
    pub rows: u64,
    pub sets: Vec<StatsSet>,
}
