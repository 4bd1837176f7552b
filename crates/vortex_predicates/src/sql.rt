//! Prunes maps of zones by conditions in SQL.

pub mod error;
pub mod laws;
pub mod pruning_condition;
