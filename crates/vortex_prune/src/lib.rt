//! Parts of columns with their statistics, and what is pruned by them.
#![tactic(auto)]

pub mod bind;
pub mod laws;
pub mod part;
pub mod scan;
pub mod zones;

pub use bind::bind_stats;
pub use bind::stat_binder::StatBinder;
pub use bind::stats_binder::{StatsBinder, ZoneStatsBinder};
pub use bind::zone_binder::ZoneBinder;
pub use part::{JoinRefused, MeasureRefused, Part, PartRefused};
pub use scan::marks::block_size;
pub use scan::outcome::{RangeScan, Scan};
pub use scan::prune::{Pruned, prune, prune_by};
pub use scan::ranges::{scan_ranges, scan_ranges_from};
pub use scan::selected_rows::{SelectedRows, SelectedRowsIter};
pub use scan::verdict::Verdict;
pub use scan::zones::scan_zones;
pub use vortex_rewrite::expr::{all_non_null, all_null, bound, min_max, null_count, stat, sum};
pub use vortex_rewrite::rewrite::{falsify, falsify_counted, satisfy};
pub use vortex_rewrite::{BuiltinRule, HookFault, Rules, StatsRewriteRule, StatsRewriteRuleRef};
pub use vortex_zone_map::{
    StatColumn, StatFn, StatOptions, TableRefused, Zone, ZoneMap, ZoneMapRefused,
};
pub use zones::{Zones, ZonesRefused};
