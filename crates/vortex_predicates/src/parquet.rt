//! Prunes the row groups and the pages of a Parquet file by a condition in SQL.

pub mod chosen;
pub mod error;
pub mod footer_condition;
pub mod laws;
mod mentions;
pub mod page_ranges;
mod paged;
