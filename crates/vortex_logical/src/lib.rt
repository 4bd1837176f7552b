//! Comparisons of columns of dates, times, timestamps, decimals and floats, as comparisons of the
//! whole numbers or bytes that their cells hold.
#![tactic(auto)]

pub mod bounds;
pub mod bytes;
pub mod cell_range;
pub mod comparison;
pub mod condition;
pub mod decimal;
pub mod exact;
pub mod float_test;
pub mod float_type;
pub mod laws;
pub mod logical_type;
pub mod lower;
pub mod place;
pub mod point;
#[cfg(test)]
mod tests;
pub mod time_unit;
