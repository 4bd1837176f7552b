//! Prunes the row groups of a Parquet file by the statistics of its footer.

pub mod laws;
pub mod prune;
pub mod zones;
