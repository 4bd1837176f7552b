//! Where a literal lies among the whole numbers of a column.

/// A place among the whole numbers.
#[derive(Debug, Clone, Copy, PartialEq, Eq)]
pub enum Point {
    /// At a whole number.
    Whole(i128),
    /// Above a whole number and below the next.
    Between(i128),
}
