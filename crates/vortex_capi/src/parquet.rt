//! The calls of other languages that prune the row groups and the pages of a Parquet file by a
//! condition in SQL: the bytes of a footer and of page indexes in, arrays out.
//!
//! `vortex_ffi` exports them under the names of `callers/c/vortex.h`. They keep nothing, and every
//! array is the caller's.

mod asked;
pub mod data_pages;
pub mod indexes;
pub mod prune_footer;
pub mod prune_pages;
mod refusal;
pub mod row_group;
pub mod row_range;
pub mod tail;
