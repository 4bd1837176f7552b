//! Predicates that are prepared once and prune any number of maps of zones: a predicate over
//! columns by all proofs that are worth trying, a condition in SQL, and a condition over the row
//! groups and the pages of a Parquet file.
#![tactic(auto)]

pub mod complete;
mod equal_bounds;
mod joint;
pub mod laws;
pub mod parquet;
pub mod pruning_predicate;
pub mod row_groups;
pub mod sql;

pub use complete::{is_complete_for, is_complete_with_nulls, is_whole_complete_for};
pub use parquet::error::FooterError;
pub use parquet::footer_condition::{FooterCondition, GroupVerdicts};
pub use parquet::page_ranges::{PageRange, PageVerdicts};
pub use pruning_predicate::PruningPredicate;
pub use row_groups::prune::prune_groups;
pub use row_groups::zones::map_of;
pub use sql::error::ConditionError;
pub use sql::pruning_condition::PruningCondition;
