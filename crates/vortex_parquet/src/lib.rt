//! The footers of Parquet files: what they say of row groups, as sets of statistics.
#![tactic(auto)]

pub mod column_index;
pub mod columns;
pub mod compact;
pub mod data_pages;
mod decimals;
pub mod fault;
pub mod fields;
pub mod footer;
pub mod group_pages;
pub mod laws;
pub mod meaning;
pub mod offset_index;
pub mod page_indexes;
pub mod pages;
pub mod records;
pub mod skip;
pub mod stats;
pub mod stretches;

pub use fault::{Fault, ReadError};
