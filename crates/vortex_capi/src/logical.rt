//! The types that the values of columns stand for, by the numbers of their kinds, units and digits.
ghost use Rattle.std.specs.Prelude.{◌≡◌};
ghost use Rattle.vortex_capi.specs.LogicalKinds as spec;

use crate::field::Field;
use crate::status::Status;
use vortex_logical::decimal::DecimalDType;
use vortex_logical::logical_type::LogicalType;
use vortex_logical::time_unit::TimeUnit;
use vortex_sql::cells::Cells;

/// Which kinds of columns a call takes.
#[derive(Clone, Copy, Debug, PartialEq, Eq)]
pub(crate) enum Kinds {
    /// Kinds whose values are what they are kept as.
    Plain,
    /// Plain kinds, and those of dates, times, timestamps and decimals.
    Logical,
}

// The unit of a number.
fn unit_of(unit: u8) -> Option<TimeUnit>
    ensures { result ≡ spec.unit_of unit }
{
    match unit {
        1 => Some(TimeUnit::Seconds),
        2 => Some(TimeUnit::Milliseconds),
        3 => Some(TimeUnit::Microseconds),
        4 => Some(TimeUnit::Nanoseconds),
        _ => None,
    }
}

// The type of a kind of times in a unit.
fn time_of(kind: u8, unit: TimeUnit) -> Option<LogicalType>
    ensures { result ≡ spec.time_of kind unit }
{
    match kind {
        13 => Some(LogicalType::Time(unit)),
        14 => Some(LogicalType::Timestamp(unit)),
        15 => Some(LogicalType::TimestampTz(unit)),
        _ => None,
    }
}

fn time_in(kind: u8, unit: Option<TimeUnit>) -> Option<LogicalType>
    ensures { result ≡ spec.time_in kind unit }
{
    match unit {
        Some(unit) => time_of(kind, unit),
        None => None,
    }
}

// The type of decimals with so many digits, if 64 bits hold each of them.
fn decimal_of(precision: u8, scale: u8) -> Option<DecimalDType>
    ensures { result ≡ spec.decimal_of precision scale }
{
    if precision > 18 {
        return None;
    }
    DecimalDType::try_new(precision, scale)
}

fn decimals_in(decimal: Option<DecimalDType>) -> Option<LogicalType>
    ensures { result ≡ spec.decimals_in decimal }
{
    match decimal {
        Some(decimal) => Some(LogicalType::Decimal(decimal)),
        None => None,
    }
}

// Whether no digits are told.
fn has_no_digits(field: &Field<'_>) -> bool
    ensures { result ≡ spec.has_no_digits field.now }
{
    field.precision == 0 && field.scale == 0
}

// Whether neither a unit is told nor digits.
fn is_bare(field: &Field<'_>) -> bool
    ensures { result ≡ spec.is_bare field.now }
{
    field.unit == 0 && has_no_digits(field)
}

// The type that a kind above those of plain values stands for.
fn logical_type_of(field: &Field<'_>) -> Option<LogicalType>
    ensures { result ≡ spec.logical_type_of field.now }
{
    if field.kind == 12 {
        return if is_bare(field) {
            Some(LogicalType::Date)
        } else {
            None
        };
    }
    if field.kind == 16 {
        return if field.unit == 0 {
            decimals_in(decimal_of(field.precision, field.scale))
        } else {
            None
        };
    }
    if has_no_digits(field) {
        time_in(field.kind, unit_of(field.unit))
    } else {
        None
    }
}

/// The type that the values of a column stand for, or `None` for the values themselves. `BadKind`
/// where the kind is none, or its unit or digits aren't those of such a kind.
pub(crate) fn logical_of(field: &Field<'_>) -> Result<Option<LogicalType>, Status>
    ensures { result ≡ spec.logical_of field.now }
{
    if field.kind <= 11 {
        return if is_bare(field) {
            Ok(None)
        } else {
            Err(Status::BadKind)
        };
    }
    match logical_type_of(field) {
        Some(logical) => Ok(Some(logical)),
        None => Err(Status::BadKind),
    }
}

/// Tells what the values of a column stand for, which isn't refused.
pub(crate) fn cells_told(field: &Field<'_>) -> Cells
    ensures { result ≡ spec.cells_told field.now }
{
    match logical_of(field) {
        Ok(Some(logical)) => Cells::Exact(logical),
        Ok(None) | Err(_) => Cells::Values,
    }
}
