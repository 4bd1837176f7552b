//! The calls of other languages: arrays of bytes and numbers in, arrays out.
//!
//! `vortex_ffi` exports them under the names of `callers/c/vortex.h`, which declares what crosses
//! and says what each call needs. No call keeps anything, and every array is the caller's.
#![tactic(auto)]

mod answers;
pub mod arrow;
mod batches;
pub mod by_proofs;
mod cells;
pub mod check;
mod encoding;
mod extent;
pub mod fault;
pub mod field;
mod first_fault;
mod given;
pub mod laws;
mod logical;
pub mod measure;
pub mod merge;
pub mod merge_zones;
mod named;
pub mod nested;
mod number;
mod numbers;
pub mod parquet;
mod predicate;
pub mod prune;
mod slots;
pub mod span;
pub mod sql;
pub mod statistic;
pub mod status;
mod table;
mod types;
pub mod values;
