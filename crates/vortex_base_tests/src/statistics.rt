//! Tests of `vortex_stats`.

mod bitsets;
mod bounds;
mod callers;
mod columns;
mod merge_rows;
mod merges;
mod precisions;
mod refused;
mod refused_merges;
mod sets;
mod stats;
mod testing;
mod views;
mod writers;
