//! Meanings of comparisons of floats, and tests of their whole numbers.

use crate::lower::CellTest;

/// The meaning of a comparison with NaN.
#[derive(Debug, Clone, Copy, PartialEq, Eq)]
pub enum NanMeaning {
    /// NaN is equal to itself and above all other numbers, as in PostgreSQL, DuckDB and Spark.
    Greatest,
    /// Of NaN only `<>` is true, as in numpy and ClickHouse.
    Ieee,
}

/// A test of the whole number of a float: the comparison holds, and the number is below the bound
/// if there is one.
#[derive(Debug, Clone, Copy, PartialEq, Eq)]
pub struct FloatTest {
    pub test: CellTest,
    pub below: Option<i64>,
}
