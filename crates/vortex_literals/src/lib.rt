//! Texts of SQL's literals as exact numbers and as floats.
#![tactic(auto)]

pub mod clocks;
pub mod dates;
pub mod floats;
pub mod intervals;
pub mod laws;
pub mod numbers;
#[cfg(test)]
mod tests;
