//! Whole numbers in decimal digits, and bytes in hexadecimal ones.
ghost use Rattle.std.specs.Prelude.{◌≡◌, true, option_and_then};
ghost use Rattle.vortex_base.specs.Data.States.{is_signed};
ghost use Rattle.vortex_syntax.specs.Numbers.{in_64_bits, in_64_bits_signed, in_type, natural_of, number_of, whole_of, with_digit};

use vortex_base::pvalue::PValue;
use vortex_base::types::PType;

// A number with one more digit behind it, as far as 64 bits hold it.
#[inline]
fn with_digit(number: u64, digit: u8) -> Option<u64>
    ensures { result ≡ with_digit number digit }
{
    if !digit.is_ascii_digit() {
        return None;
    }
    number.checked_mul(10)?.checked_add(u64::from(digit - b'0'))
}

/// The number that digits write, as far as 64 bits hold it.
#[inline]
pub fn natural_of(digits: &[u8]) -> Option<u64>
    ensures { result ≡ option_and_then in_64_bits (natural_of digits.now) }
{
    if digits.is_empty() {
        return None;
    }
    let mut number = 0;
    for digit in digits {
        let Some(longer) = with_digit(number, *digit) else {
            return None;
        };
        number = longer;
    }
    Some(number)
}

// The number that a word writes, behind a minus where it is below zero, if 64 bits hold it.
#[inline]
fn signed_of(word: &[u8]) -> Option<i64>
    ensures { result ≡ option_and_then in_64_bits_signed (whole_of true word.now) }
{
    match word {
        [b'-', digits @ ..] => 0i64.checked_sub_unsigned(natural_of(digits)?),
        _ => i64::try_from(natural_of(word)?).ok(),
    }
}

// Whether a type has numbers below zero.
#[inline(always)]
pub(crate) fn is_signed(ptype: PType) -> bool
    ensures { result ≡ is_signed ptype }
{
    matches!(ptype, PType::I8 | PType::I16 | PType::I32 | PType::I64)
}

// A whole number of a type, if the type has it.
#[inline(always)]
pub(crate) fn in_type(ptype: PType, number: i128) -> Option<PValue>
    ensures { result ≡ in_type ptype number }
{
    match ptype {
        PType::U8 => Some(PValue::U8(u8::try_from(number).ok()?)),
        PType::U16 => Some(PValue::U16(u16::try_from(number).ok()?)),
        PType::U32 => Some(PValue::U32(u32::try_from(number).ok()?)),
        PType::U64 => Some(PValue::U64(u64::try_from(number).ok()?)),
        PType::I8 => Some(PValue::I8(i8::try_from(number).ok()?)),
        PType::I16 => Some(PValue::I16(i16::try_from(number).ok()?)),
        PType::I32 => Some(PValue::I32(i32::try_from(number).ok()?)),
        PType::I64 => Some(PValue::I64(i64::try_from(number).ok()?)),
    }
}

/// The number of a type that a word writes: decimal digits, and in front of them a minus where the
/// type has numbers below zero.
#[inline]
pub fn number_of(ptype: PType, word: &[u8]) -> Option<PValue>
    ensures { result ≡ number_of ptype word.now }
{
    if is_signed(ptype) {
        in_type(ptype, i128::from(signed_of(word)?))
    } else {
        in_type(ptype, i128::from(natural_of(word)?))
    }
}
