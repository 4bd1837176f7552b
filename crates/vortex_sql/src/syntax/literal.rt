//! The values of literals.
use crate::syntax::error::ParseError;
use crate::syntax::token::between;
use crate::syntax::tree::{ExactNumber, Operand};
use std::alloc::{AllocError, Global};
use vortex_base::bytes::Bytes;
use vortex_base::text::Text;
use vortex_literals::clocks::{read_instant, read_time, read_timestamp};
use vortex_literals::dates::read_date;
use vortex_literals::numbers::read_number;
use vortex_logical::exact::Exact;
use vortex_logical::logical_type::ExactKind;

/// Returns the bytes between quotes, in which a doubled quote stands for one.
pub(crate) fn unquoted(alloc: Global, quoted: &[u8]) -> Result<Vec<u8>, AllocError> {
    let mut bytes = Vec::new(alloc);
    let inner = between(quoted, 1, quoted.len().saturating_sub(1));
    let quote = quoted.first().copied().unwrap_or(0);
    let mut is_second = false;
    for byte in inner {
        if *byte == quote && !is_second {
            is_second = true;
        } else {
            is_second = false;
            bytes.push(*byte).map_err(AllocError::from)?;
        }
    }
    Ok(bytes)
}

/// Returns the text of bytes that stand at a place.
pub(crate) fn text_of(bytes: Vec<u8>, at: usize) -> Result<Text, ParseError> {
    match String::from_utf8(bytes) {
        Ok(text) => Ok(Text::new(text)),
        Err(_) => Err(ParseError::Unexpected(at)),
    }
}

fn digit_of(byte: u8) -> Option<u8> {
    match byte {
        b'0'..=b'9' => Some(byte - b'0'),
        b'a'..=b'f' => Some(byte - b'a' + 10),
        b'A'..=b'F' => Some(byte - b'A' + 10),
        _ => None,
    }
}

/// Returns the bytes of hexadecimal digits, two for each.
pub(crate) fn blob_of(alloc: Global, digits: &[u8], at: usize) -> Result<Bytes, ParseError> {
    let mut bytes = Vec::new(alloc);
    let mut high = None;
    for digit in digits {
        let Some(low) = digit_of(*digit) else {
            return Err(ParseError::Unexpected(at));
        };
        match high {
            None => high = Some(low),
            Some(first) => {
                high = None;
                bytes
                    .push((first % 16) * 16 + low % 16)
                    .map_err(AllocError::from)?;
            }
        }
    }
    if high.is_some() {
        return Err(ParseError::Unexpected(at));
    }
    Ok(Bytes::new(bytes))
}

// Returns a number of a kind, with no more digits behind the point than it needs.
fn exact(kind: ExactKind, number: Exact) -> Operand {
    let mut top = number.top;
    let mut scale = number.scale;
    for _turn in 0..number.scale {
        if top % 10 != 0 {
            break;
        }
        top /= 10;
        scale = scale.saturating_sub(1);
    }
    Operand::Exact(ExactNumber { kind, top, scale })
}

// Returns a number that was read, or any other expression in its place.
fn read_as(kind: ExactKind, number: Option<Exact>) -> Operand {
    match number {
        Some(number) => exact(kind, number),
        None => Operand::Other,
    }
}

/// Returns the number of decimal digits, perhaps with a point or an exponent. One that takes more
/// than 127 bits, or more than 33 digits behind the point, isn't read.
pub(crate) fn number_of(digits: &[u8]) -> Operand {
    read_as(ExactKind::Number, read_number(digits))
}

/// Returns an operand with a minus in front of it, of which only a literal number is read.
pub(crate) fn negative(operand: Operand) -> Operand {
    let Operand::Exact(number) = operand else {
        return Operand::Other;
    };
    match (number.kind, number.top.checked_neg()) {
        (ExactKind::Number, Some(top)) => Operand::Exact(ExactNumber { top, ..number }),
        _ => Operand::Other,
    }
}

/// Returns the literal of a type that stands before its text, as DATE '2026-01-02'. Of another
/// type, or with a text in another form, it isn't read.
pub(crate) fn typed(type_name: &[u8], text: &str) -> Operand {
    if type_name.eq_ignore_ascii_case(b"date") {
        read_as(ExactKind::Clock, read_date(text))
    } else if type_name.eq_ignore_ascii_case(b"timestamp") {
        read_as(ExactKind::Clock, read_timestamp(text))
    } else if type_name.eq_ignore_ascii_case(b"timestamptz") {
        read_as(ExactKind::Instant, read_instant(text))
    } else if type_name.eq_ignore_ascii_case(b"time") {
        read_as(ExactKind::TimeOfDay, read_time(text))
    } else {
        Operand::Other
    }
}
