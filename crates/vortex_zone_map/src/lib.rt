//! Zones, what their statistics answer, and maps of them: a table of statistics with a row a zone.
#![tactic(auto)]

mod blocks;
pub mod builder;
mod columns;
mod entry_range;
mod fill;
mod join;
mod known;
mod links;
mod readers;
mod short;
mod stat_entry;
pub mod stat_fn;
mod stored_value;
pub mod told;
pub mod zone;
pub mod zone_map;

pub use builder::ZoneMapBuilder;
pub use stat_fn::{StatFn, StatOptions};
pub use told::Told;
pub use zone::Zone;
pub use zone_map::{StatColumn, TableRefused, ZoneMap, ZoneMapRefused};
