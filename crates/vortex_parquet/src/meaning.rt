//! The meaning of the cells of leaf columns.
ghost use Rattle.std.specs.Prelude.{◌≡◌};
ghost use Rattle.vortex_parquet.specs.Meanings as spec;

use crate::records::{Annotation, is_number};
use vortex_logical::decimal::DecimalDType;
use vortex_logical::float_type::FloatType;
use vortex_logical::logical_type::LogicalType;
use vortex_logical::time_unit::TimeUnit;

/// The meaning of the cells of a leaf column.
#[derive(Clone, Copy, Debug, PartialEq, Eq)]
pub enum LeafMeaning {
    /// The numbers, truths, texts or bytes themselves.
    Plain,
    /// Values of this type, whose whole numbers the cells are.
    Logical(LogicalType),
    /// Floats, whose whole numbers the cells are.
    Float(FloatType),
    /// Something that isn't known: a cell compares only with cells.
    Opaque,
}

// Returns the type of decimals with so many digits, so many of them behind the point, if there is
// one.
fn decimal_type(precision: u64, scale: u64) -> Option<DecimalDType>
    ensures { result ≡ spec.decimal_type precision scale }
{
    if precision > 38 || scale > 38 {
        return None;
    }
    DecimalDType::try_new(precision as u8, scale as u8)
}

// Returns the type of decimals of at most so many digits, if it is told how many they have.
fn told_decimals(most: u64, scale: Option<u64>, precision: Option<u64>) -> Option<DecimalDType>
    ensures { result ≡ spec.told_decimals most scale precision }
{
    match (scale, precision) {
        (Some(scale), Some(precision)) if precision <= most => decimal_type(precision, scale),
        _ => None,
    }
}

// Returns the meaning of decimals of no known type: whole numbers stand for themselves.
fn whole_meaning(is_whole: bool) -> LeafMeaning
    ensures { result ≡ spec.whole_meaning is_whole }
{
    if is_whole {
        return LeafMeaning::Plain;
    }
    LeafMeaning::Opaque
}

// Returns the meaning of decimals of at most so many digits.
fn decimal_meaning(most: u64, scale: Option<u64>, precision: Option<u64>) -> LeafMeaning
    ensures { result ≡ spec.decimal_meaning most scale precision }
{
    match told_decimals(most, scale, precision) {
        Some(decimal) => LeafMeaning::Logical(LogicalType::Decimal(decimal)),
        None => whole_meaning(is_number(0, scale)),
    }
}

// Returns the meaning of times of day: milliseconds stand in four bytes, and others in eight.
fn time_meaning(physical: u64, unit: Option<TimeUnit>) -> LeafMeaning
    ensures { result ≡ spec.time_meaning physical unit }
{
    match (physical, unit) {
        (1, Some(TimeUnit::Milliseconds)) => LeafMeaning::Logical(LogicalType::Time(
            TimeUnit::Milliseconds,
        )),
        (2, Some(TimeUnit::Microseconds)) => LeafMeaning::Logical(LogicalType::Time(
            TimeUnit::Microseconds,
        )),
        (2, Some(TimeUnit::Nanoseconds)) => LeafMeaning::Logical(LogicalType::Time(
            TimeUnit::Nanoseconds,
        )),
        _ => LeafMeaning::Opaque,
    }
}

// Returns the meaning of timestamps in eight bytes: instants where they are adjusted to UTC, and
// else what a clock shows.
fn timestamp_meaning(is_adjusted: Option<bool>, unit: Option<TimeUnit>) -> LeafMeaning
    ensures { result ≡ spec.timestamp_meaning is_adjusted unit }
{
    match (is_adjusted, unit) {
        (Some(true), Some(unit)) => LeafMeaning::Logical(LogicalType::TimestampTz(unit)),
        (Some(false), Some(unit)) => LeafMeaning::Logical(LogicalType::Timestamp(unit)),
        _ => LeafMeaning::Opaque,
    }
}

// Returns how many digits each decimal of a physical type may have.
fn most_digits(physical: u64) -> u64
    ensures { result ≡ spec.most_digits physical }
{
    if physical == 1 {
        return 9;
    }
    18
}

// Returns the meaning of cells without an annotation.
fn bare_meaning(physical: u64) -> LeafMeaning
    ensures { result ≡ spec.bare_meaning physical }
{
    match physical {
        4 => LeafMeaning::Float(FloatType::F32),
        5 => LeafMeaning::Float(FloatType::F64),
        _ => LeafMeaning::Plain,
    }
}

/// Returns what the cells of a physical type with an annotation stand for.
#[tactic(auto, unfolding(crate::specs::Meanings::meaning_of))]
pub fn meaning_of(physical: u64, annotation: Annotation) -> LeafMeaning
    ensures { result ≡ spec.meaning_of physical annotation }
{
    match annotation {
        Annotation::Date if physical == 1 => LeafMeaning::Logical(LogicalType::Date),
        Annotation::Date => LeafMeaning::Opaque,
        Annotation::Time(unit) => time_meaning(physical, unit),
        Annotation::Timestamp(is_adjusted, unit) if physical == 2 => {
            timestamp_meaning(is_adjusted, unit)
        }
        Annotation::Timestamp(_, _) => LeafMeaning::Opaque,
        Annotation::Decimal(scale, precision) => {
            decimal_meaning(most_digits(physical), scale, precision)
        }
        Annotation::Other => LeafMeaning::Opaque,
        Annotation::None => bare_meaning(physical),
        _ => LeafMeaning::Plain,
    }
}
