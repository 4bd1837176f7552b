//! Statistics of columns: values with a precision, bounds, kinds of statistics and sets of them.
//!
//! A statistic's value is a [`precision::Precision`]: exact, inexact or absent. What an inexact
//! value says depends on the statistic, and a bound of module [`bound`] tells it: an inexact
//! maximum is an upper bound, an inexact minimum a lower one.
#![tactic(auto)]

pub mod bitset;
pub mod bound;
mod chosen;
mod combine;
pub mod error;
pub mod laws;
mod measure;
mod merge;
pub mod precision;
pub mod provider;
mod reading;
pub mod stat;
pub mod stat_bound;
pub mod stats_set;
pub mod typed;

pub use bitset::{as_stat_bitset_bytes, stats_from_bitset_bytes};
pub use bound::{IntersectionResult, LowerBound, UpperBound};
pub use error::{BinderFault, RuleFault, StatsError};
pub use precision::Precision;
pub use provider::StatsProvider;
pub use stat::{
    ALL_STATS, IsConstant, IsSorted, IsStrictSorted, Max, Min, NaNCount, NullCount, PRUNING_STATS,
    Stat, StatAll, Sum, UncompressedSizeInBytes,
};
pub use stat_bound::{StatBound, StatType};
pub use stats_set::{MergeRefused, StatsArray, StatsSet, StatsSetIntoIter, StatsSetIter};
pub use typed::{MutTypedStatsSetRef, TypedStatsSetRef};
