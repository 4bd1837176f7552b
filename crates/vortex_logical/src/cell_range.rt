//! Ranges of whole numbers.

/// The whole numbers that a column may hold.
#[derive(Debug, Clone, Copy, PartialEq, Eq)]
pub struct CellRange {
    pub least: i128,
    pub greatest: i128,
}
