//! Comparisons of columns of floats with numbers, as tests of the whole numbers that their cells
//! hold.
#![tactic(auto)]

pub mod cells;
pub mod laws;
pub mod nearest;
#[cfg(test)]
mod tests;
