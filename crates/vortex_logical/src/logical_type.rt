//! Types whose values are exact numbers, and comparisons of their columns with literals.
ghost use Rattle.std.specs.Prelude.{◌≡◌, ◌<◌, ◌≤◌};
ghost use Rattle.vortex_logical.specs.LogicalTypes as spec;
ghost use Rattle.vortex_logical.specs.Lowering.{IsIn};

use crate::cell_range::CellRange;
use crate::comparison::Comparison;
use crate::decimal::DecimalDType;
use crate::exact::{Exact, Step};
use crate::lower::{CellTest, with_point};
use crate::place::place;
use crate::point::Point;
use crate::time_unit::TimeUnit;

/// A type whose values are exact numbers; those of dates, times and timestamps are seconds. A cell
/// of a column of it is a whole number.
#[derive(Debug, Clone, Copy, PartialEq, Eq)]
pub enum LogicalType {
    /// Days since 1970-01-01, each for its midnight.
    Date,
    /// Units since midnight.
    Time(TimeUnit),
    /// Units since 1970-01-01 00:00:00 on the same clock.
    Timestamp(TimeUnit),
    /// Units since 1970-01-01 00:00:00 UTC.
    TimestampTz(TimeUnit),
    /// Units of the last digit.
    Decimal(DecimalDType),
}

/// Kinds of exact numbers, by what they count. Numbers of two kinds don't compare.
#[derive(Debug, Clone, Copy, PartialEq, Eq)]
pub enum ExactKind {
    /// The number itself.
    Number,
    /// Seconds since 1970-01-01 00:00:00 on a clock without a zone.
    Clock,
    /// Seconds since 1970-01-01 00:00:00 UTC.
    Instant,
    /// Seconds since midnight.
    TimeOfDay,
}

impl LogicalType {
    /// Returns what the values of the type count.
    pub fn kind(self) -> ExactKind
        ensures { result ≡ spec.kind self }
    {
        match self {
            LogicalType::Date | LogicalType::Timestamp(_) => ExactKind::Clock,
            LogicalType::Time(_) => ExactKind::TimeOfDay,
            LogicalType::TimestampTz(_) => ExactKind::Instant,
            LogicalType::Decimal(_) => ExactKind::Number,
        }
    }

    /// Returns what one counts in a column of the type.
    pub fn step(self) -> Step
        ensures value { result ≡ spec.step self }
        ensures positive { 0 < result.each }
        ensures short { result.each ≤ 86_400 }
        ensures scale { result.scale ≤ 38 }
    {
        match self {
            LogicalType::Date => Step {
                each: 86_400,
                scale: 0,
            },
            LogicalType::Time(unit)
            | LogicalType::Timestamp(unit)
            | LogicalType::TimestampTz(unit) => Step {
                each: 1,
                scale: unit.digits(),
            },
            LogicalType::Decimal(decimal) => Step {
                each: 1,
                scale: u32::from(decimal.scale()),
            },
        }
    }

    /// Returns the whole numbers that a column of the type may hold: those of 32 bits for dates, of
    /// up to 38 digits for decimals of more than 18 digits, and else those of 64 bits.
    pub fn range(self) -> CellRange
        ensures { result ≡ spec.range self }
    {
        match self {
            LogicalType::Date => CellRange {
                least: -2_147_483_648,
                greatest: 2_147_483_647,
            },
            LogicalType::Decimal(decimal) if decimal.precision() > 18 => CellRange {
                least: -99_999_999_999_999_999_999_999_999_999_999_999_999,
                greatest: 99_999_999_999_999_999_999_999_999_999_999_999_999,
            },
            _ => CellRange {
                least: -9_223_372_036_854_775_808,
                greatest: 9_223_372_036_854_775_807,
            },
        }
    }

    /// Returns where a number lies among the cells of a column of the type.
    pub fn locate(self, number: Exact) -> Point
        ensures { spec.IsAt self number result }
    {
        place(self.step(), number)
    }

    /// Returns the comparison of a column's whole numbers that says of each what the comparison of
    /// its value with a literal says.
    pub fn compare(self, comparison: Comparison, literal: Exact) -> CellTest
        ensures inside { IsIn (spec.range self) result.number }
        ensures same { spec.IsSame self comparison literal result }
    {
        with_point(comparison, self.locate(literal), self.range())
    }
}
