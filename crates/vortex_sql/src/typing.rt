//! Operands as the columns beside them type them.
ghost use Rattle.std.specs.Prelude.{◌≡◌, IfOk, MatchResult, option_map, unwrap_or};
ghost use Rattle.vortex_sql.specs.declared.fault.Fault;
ghost use Rattle.vortex_logical.specs.Meaning.{fraction_of};
ghost use Rattle.vortex_sql.specs.Typing as spec;

use crate::cells::Cells;
use crate::fault::Fault;
use crate::number::step_of;
use crate::schema::Schema;
use crate::syntax::tree::{ExactNumber, Operand};
use std::alloc::{AllocError, Global};
use vortex_base::text::Text;
use vortex_floats::nearest::nearest;
use vortex_literals::clocks::{read_instant, read_time, read_timestamp};
use vortex_literals::dates::read_date;
use vortex_logical::exact::Exact;
use vortex_logical::float_type::FloatType;
use vortex_logical::logical_type::{ExactKind, LogicalType};

/// Says how two kinds of numbers fit.
#[derive(Clone, Copy)]
pub enum KindFit {
    Same,
    /// Only the zone of a server could tell how they compare.
    ByZone,
    Other,
}

/// Returns what the cells of a column count.
pub(crate) fn kind_of(logical: Option<LogicalType>) -> ExactKind
    ensures { result ≡ spec.kind_of logical }
{
    match logical {
        Some(logical) => logical.kind(),
        None => ExactKind::Number,
    }
}

/// Returns how two kinds of numbers fit.
pub(crate) fn kind_fit(left: ExactKind, right: ExactKind) -> KindFit
    ensures { result ≡ spec.kind_fit left right }
{
    match (left, right) {
        (ExactKind::Number, ExactKind::Number)
        | (ExactKind::Clock, ExactKind::Clock)
        | (ExactKind::Instant, ExactKind::Instant)
        | (ExactKind::TimeOfDay, ExactKind::TimeOfDay) => KindFit::Same,
        (ExactKind::Clock, ExactKind::Instant) | (ExactKind::Instant, ExactKind::Clock) => {
            KindFit::ByZone
        }
        _ => KindFit::Other,
    }
}

// Tells whether one counts the same in two columns.
fn are_same_steps(left: Option<LogicalType>, right: Option<LogicalType>) -> bool
    ensures { result ≡ spec.are_same_steps left right }
{
    let first = step_of(left);
    let second = step_of(right);
    matches!(kind_fit(kind_of(left), kind_of(right)), KindFit::Same)
        && first.each == second.each
        && first.scale == second.scale
}

/// Tells whether the cells of two columns stand for the same values. Those of floats aren't
/// compared.
pub(crate) fn are_same_cells(left: Cells, right: Cells) -> bool
    ensures { result ≡ spec.are_same_cells left right }
{
    match (left, right) {
        (Cells::Floats(_, _), _) | (_, Cells::Floats(_, _)) => false,
        _ => are_same_steps(left.logical(), right.logical()),
    }
}

// Returns a number that was read from a text.
fn scaled(kind: ExactKind, scale: u32, read: Option<Exact>) -> Option<ExactNumber>
    ensures { result ≡ spec.scaled kind scale (option_map fraction_of read) }
{
    match read {
        Some(exact) => Some(ExactNumber {
            kind,
            top: exact.top,
            scale,
        }),
        None => None,
    }
}

// Reads a text as a value of a column's type.
fn value_of(logical: LogicalType, text: &Text) -> Option<ExactNumber>
    ensures { result ≡ spec.text_value logical text.now }
{
    let text = text.as_str();
    match logical {
        LogicalType::Date => scaled(ExactKind::Clock, 0, read_date(text)),
        LogicalType::Timestamp(_) => scaled(ExactKind::Clock, 9, read_timestamp(text)),
        LogicalType::TimestampTz(_) => scaled(ExactKind::Instant, 9, read_instant(text)),
        LogicalType::Time(_) => scaled(ExactKind::TimeOfDay, 9, read_time(text)),
        LogicalType::Decimal(_) => None,
    }
}

fn typed_text(logical: LogicalType, text: &Text) -> Operand
    ensures { result ≡ spec.typed_text (spec.text_value logical text.now) }
{
    match value_of(logical, text) {
        Some(number) => Operand::Exact(number),
        None => Operand::Other,
    }
}

// Returns the bits of the float of a type that is nearest to a number.
fn float_beside(
    alloc: Global,
    float: FloatType,
    number: ExactNumber,
) -> Result<Option<u64>, AllocError>
    ensures { IfOk result (λ bits. bits ≡ spec.float_beside float number) }
{
    match Exact::try_new(number.top, number.scale) {
        Some(exact) => nearest(alloc, float, exact),
        None => Ok(None),
    }
}

// Returns what a number is beside a column of floats.
fn typed_number(alloc: Global, float: FloatType, number: ExactNumber) -> Result<Operand, AllocError>
    ensures { IfOk result (λ typed. typed ≡ spec.typed_number float number) }
{
    if !matches!(kind_fit(number.kind, ExactKind::Number), KindFit::Same) {
        return Ok(Operand::Exact(number));
    }
    match float_beside(alloc, float, number)? {
        Some(bits) => Ok(Operand::Float(bits)),
        None => Ok(Operand::Other),
    }
}

// Returns an operand as cells of a kind type it, or `None` where it stays as it is.
fn typed_as(alloc: Global, cells: Cells, operand: &Operand) -> Result<Option<Operand>, AllocError>
    ensures { IfOk result (λ typed. unwrap_or typed operand.now ≡ spec.typed_as cells operand.now) }
{
    match (cells, operand) {
        (Cells::Exact(logical), Operand::Text(text)) => Ok(Some(typed_text(logical, text))),
        (Cells::Floats(float, _), Operand::Exact(number)) => {
            Ok(Some(typed_number(alloc, float, *number)?))
        }
        (Cells::Floats(_, _), Operand::Text(_)) => Ok(Some(Operand::Other)),
        _ => Ok(None),
    }
}

/// Returns an operand as the other operand types it, or `None` where it stays as it is: a text
/// beside a column of dates is a date, and a number beside a column of floats the nearest float. A
/// text that isn't read so is any other expression.
pub(crate) fn typed_by(
    alloc: Global,
    schema: &Schema,
    column: &Operand,
    operand: &Operand,
) -> Result<Option<Operand>, Fault>
    ensures { MatchResult result
        (λ typed. unwrap_or typed operand.now ≡ spec.beside schema.now column.now operand.now)
        (λ f. f ≡ Fault.Memory) }
{
    let Operand::Column(name) = column else {
        return Ok(None);
    };
    match schema.find(name) {
        Some(found) => Ok(typed_as(alloc, found.cells, operand)?),
        None => Ok(None),
    }
}

/// Returns an operand as it is typed, or as it stands.
pub(crate) fn typed_or<'a>(typed: &'a Option<Operand>, operand: &'a Operand) -> &'a Operand
    ensures { result.now ≡ unwrap_or typed.now operand.now }
{
    match typed {
        Some(typed) => typed,
        None => operand,
    }
}
