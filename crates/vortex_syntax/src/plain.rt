//! Values in plain form, read straight from the bytes of a text, whose line isn't cut out before.
//! What isn't in this form is left to the reader of words, by which each form here is specified.
ghost use Rattle.std.specs.Prelude.{◌≡◌, ◌<◌, ◌≤◌, ◌+◌, ◌++◌, [], ℕ, List, codes, neg_ℤ, not, option_map, pos, position, IfOk, IfSome, None, IsTrue, Some, length, map, take, true};
ghost use Rattle.vortex_base.specs.Data.ArrayData.{short_value};
ghost use Rattle.vortex_base.specs.declared.dtype.DType.TheVariants as dtype;
ghost use Rattle.vortex_base.specs.declared.pvalue.PValue.{PValue};
ghost use Rattle.vortex_base.specs.declared.scalar_value.ScalarValue.TheVariants as value;
ghost use Rattle.vortex_base.specs.declared.types.Nullability.{Nullability};
ghost use Rattle.std.specs.Int.{from_le_bytes, w64};
ghost use Rattle.std.specs.Simd.Lanes.{mask_l};
ghost use Rattle.std.specs.Str.{all_ascii_digits};
ghost use Rattle.std.specs.Str.Parse.{digits_value};
ghost use Rattle.vortex_syntax.specs.Numbers.{in_64_bits_signed, in_type};
ghost use Rattle.vortex_syntax.specs.Plain.{BeginsDigits, BeginsNatural, BeginsNumber, BeginsQuoted, BeginsSigned, BeginsValue, BeginsWord, EndsWord};
ghost use Rattle.vortex_syntax.specs.Plain as spec;

use crate::number::{in_type, is_signed};
use crate::value::read_pairs;
use std::alloc::AllocError;
use std::simd::{u8x8, u8x16, u64x1};
use std::str;
use vortex_base::array_data::PrimitiveScalar;
use vortex_base::dtype::DType;
use vortex_base::pvalue::PValue;
use vortex_base::types::PType;

// A number up to this one stays below 2 to the 64th with one more digit.
const MOST: u64 = 1_844_674_407_370_955_160;

// And one up to this with eight more.
const MOST_BEFORE_EIGHT: u64 = 184_467_440_736;

// The digit zero in each byte of a word.
const ZEROS: u64 = 0x3030_3030_3030_3030;

// Takes a byte above nine to its highest bit, in each byte.
const ABOVE_NINE: u64 = 0x7676_7676_7676_7676;

// The highest bit of each byte.
const HIGHEST_BITS: u64 = 0x8080_8080_8080_8080;

// Each second byte, and each second two.
const PAIRS: u64 = 0x00ff_00ff_00ff_00ff;

const FOURS: u64 = 0x0000_ffff_0000_ffff;

// The bytes `row ` as one number, the first of them lowest.
const ROW: u32 = 0x2077_6f72;

/// The rest of a text behind the word `row` at its front, where a space follows it.
#[inline(always)]
pub fn behind_row(text: &[u8]) -> Option<&[u8]>
    ensures row { IfSome result (λ values. text.now ≡ codes "row" ++ values.now) }
    ensures ends { IfSome result (λ values. EndsWord values.now) }
{
    match text {
        [a, b, c, d, ..] if u32::from_le_bytes([*a, *b, *c, *d]) == ROW => Some(&text[3..]),
        _ => None,
    }
}

// The number that eight digits write, of a word that has what they are worth in its bytes, the
// first of them lowest. Each product brings neighbours together, digits into pairs, pairs into
// fours, and those into the number.
#[inline(always)]
fn eight_value(worth: u64) -> u64
    ensures { (digits : List ℕ) → length digits ≡ 8 → all_ascii_digits digits ≡ true
        → worth + ZEROS ≡ from_le_bytes w64 digits → result ≡ digits_value 10 digits }
{
    let pairs = (worth.wrapping_mul(10 * 256 + 1) >> 8) & PAIRS;
    let fours = (pairs.wrapping_mul(100 * 65_536 + 1) >> 16) & FOURS;
    fours.wrapping_mul(10_000 * 4_294_967_296 + 1) >> 32
}

// The first eight bytes of a text as one word, the first of them lowest. They are read as a vector:
// of bytes one by one the compiler makes one read only where none of them is looked at elsewhere.
#[inline(always)]
fn front_word(text: &[u8]) -> u64
    requires { 8 ≤ length text.now }
    ensures { result ≡ from_le_bytes w64 (take 8 text.now) }
{
    u64x1::from_le_bytes(u8x8::from_slice(text)).to_array()[0]
}

// How many of the first eight bytes of a text are digits, up to the first that isn't one, and the
// number that they write. All are looked at together: less what zero is, a byte that is no digit is
// above nine, and has its highest bit set in `others`. The digits then go to the word's end, with
// zeros in front of them.
#[inline(always)]
fn front_digits(text: &[u8]) -> (usize, u64)
    requires { 8 ≤ length text.now }
    ensures within { result.0 ≤ 8 }
    ensures digits { IsTrue (all_ascii_digits (take result.0 text.now)) }
    ensures number { result.1 ≡ digits_value 10 (take result.0 text.now) }
{
    let worth = front_word(text) ^ ZEROS;
    let others = (worth.wrapping_add(ABOVE_NINE) | worth) & HIGHEST_BITS;
    if others == 0 {
        return (8, eight_value(worth));
    }
    let count = others.trailing_zeros() / 8;
    if count == 0 {
        return (0, 0);
    }
    (
        count as usize,
        eight_value(worth.wrapping_shl(64 - 8 * count)),
    )
}

// The number that the digits of another and those at the front of a text write, and what follows
// them. None where there are many.
#[inline(always)]
fn longer(so_far: u64, text: &[u8]) -> Option<(u64, &[u8])>
    ensures digits { IfSome result (λ x. (whole : List ℕ)
        → BeginsDigits whole so_far text.now → BeginsDigits whole x.0 x.1.now) }
    ensures no_longer { IfSome result (λ x. length x.1.now ≤ length text.now) }
{
    let mut number = so_far;
    let mut rest = text;
    if let [_, _, _, _, _, _, _, _, after @ ..] = rest {
        if number <= MOST_BEFORE_EIGHT {
            let (count, eight) = front_digits(rest);
            if count == 8 {
                number = number * 100_000_000 + eight;
                rest = after;
            }
        }
    }
    'digits: while let [digit, after @ ..] = rest {
        let digit = *digit;
        if !digit.is_ascii_digit() {
            break;
        }
        if number > MOST {
            return None;
        }
        number = number * 10 + u64::from(digit - b'0');
        rest = after;
    }
    Some((number, rest))
}

// The number that the digits at the front of a text write, and what follows them. None where there
// are no digits or many, or where fewer than eight bytes are left, as of a text's last line.
#[inline(always)]
fn natural(text: &[u8]) -> Option<(u64, &[u8])>
    ensures digits { IfSome result (λ x. BeginsNatural text.now x.0 x.1.now) }
    ensures shorter { IfSome result (λ x. length x.1.now < length text.now) }
{
    let [_, _, _, _, _, _, _, _, after @ ..] = text else {
        return None;
    };
    let (count, number) = front_digits(text);
    if count == 8 {
        return longer(number, after);
    }
    if count == 0 {
        return None;
    }
    Some((number, &text[count..]))
}

// The number below zero, or zero, of this size.
#[inline(always)]
fn negated(size: u64) -> Option<i64>
    ensures { result ≡ in_64_bits_signed (neg_ℤ (pos size)) }
{
    0i64.checked_sub_unsigned(size)
}

// The number at the front of a text, maybe behind a minus, and what follows it.
#[inline(always)]
fn signed(text: &[u8]) -> Option<(i64, &[u8])>
    ensures digits { IfSome result (λ x. BeginsSigned text.now x.0 x.1.now) }
    ensures shorter { IfSome result (λ x. length x.1.now < length text.now) }
{
    match text {
        [b'-', behind @ ..] => {
            let (size, rest) = natural(behind)?;
            Some((negated(size)?, rest))
        }
        _ => {
            let (size, rest) = natural(text)?;
            Some((i64::try_from(size).ok()?, rest))
        }
    }
}

/// Whether a word ends at the front of a text, with a space or with its line.
#[inline(always)]
pub fn ends_word(text: &[u8]) -> bool
    ensures { IsTrue result → EndsWord text.now }
{
    match text {
        [b' ', ..] => true,
        [b'\n', ..] => true,
        _ => false,
    }
}

// Whether a byte may stand in a word in plain form.
#[inline(always)]
fn is_word_byte(byte: u8) -> bool
    ensures { result ≡ spec.is_word_byte byte }
{
    byte > b'"' && byte < 127
}

// Whether a byte stands for itself between quotes.
#[inline(always)]
fn is_text_byte(byte: u8) -> bool
    ensures { result ≡ spec.is_text_byte byte }
{
    (b' ' <= byte) & (byte < 127) & (byte != b'"') & (byte != b'\\')
}

// Where the first byte stands that isn't of a word in plain form.
#[inline]
fn word_end(text: &[u8]) -> Option<usize>
    ensures { result ≡ position (λ b. not (spec.is_word_byte b)) text.now }
{
    text.iter().position(|byte| !is_word_byte(*byte))
}

// In which of the first sixteen bytes of a text one stands that doesn't stand for itself between
// quotes, a bit each, the first of them lowest.
#[inline(always)]
fn text_stops(text: &[u8]) -> u64
    requires { 16 ≤ length text.now }
    ensures { result ≡ mask_l (map (λ b. not (spec.is_text_byte b)) (take 16 text.now)) }
{
    let bytes = u8x16::from_slice(text);
    let outside = bytes.simd_lt(u8x16::splat(b' ')) | bytes.simd_gt(u8x16::splat(b'~'));
    let signs = bytes.simd_eq(u8x16::splat(b'"')) | bytes.simd_eq(u8x16::splat(b'\\'));
    (outside | signs).to_bitmask()
}

// Where the first byte stands that doesn't stand for itself between quotes, byte by byte.
#[inline(never)]
fn text_end_soon(text: &[u8]) -> Option<usize>
    ensures { result ≡ position (λ b. not (spec.is_text_byte b)) text.now }
{
    text.iter().position(|byte| !is_text_byte(*byte))
}

// Where the first byte stands that doesn't stand for itself between quotes. Sixteen bytes are
// looked at together.
#[inline(always)]
fn text_end(text: &[u8]) -> Option<usize>
    ensures { result ≡ position (λ b. not (spec.is_text_byte b)) text.now }
{
    let mut passed = 0;
    while text.len() - passed >= 16 {
        let stops = text_stops(&text[passed..]);
        if stops != 0 {
            return Some(passed + stops.trailing_zeros() as usize);
        }
        passed += 16;
    }
    match text_end_soon(&text[passed..]) {
        Some(end) => Some(passed + end),
        None => None,
    }
}

// The word in plain form at the front of a text, and what follows it.
#[inline]
pub(crate) fn word(text: &[u8]) -> Option<(&[u8], &[u8])>
    ensures word { IfSome result (λ x. BeginsWord text.now x.0.now x.1.now) }
    ensures shorter { IfSome result (λ x. length x.1.now < length text.now) }
{
    let end = word_end(text)?;
    if end == 0 {
        return None;
    }
    Some((&text[..end], &text[end..]))
}

// The text at the front of another, up to the quote that closes it, and what follows that.
#[inline]
fn quoted(text: &[u8]) -> Option<(&str, &[u8])>
    ensures { IfSome result (λ x. BeginsQuoted text.now x.0.now x.1.now) }
{
    let end = text_end(text)?;
    let [b'"', rest @ ..] = &text[end..] else {
        return None;
    };
    // Bytes of ASCII are UTF-8.
    let quoted = unsafe { str::from_utf8_unchecked(&text[..end]) };
    Some((quoted, rest))
}

// The cell of a number of a type with numbers below zero, if the type has it.
#[inline(always)]
fn signed_cell(ptype: PType, number: i64) -> Option<PrimitiveScalar>
    ensures { IfSome result (λ cell. Some (short_value cell)
        ≡ option_map (λ n. Some (value.Primitive n)) (in_type ptype number)) }
{
    match ptype {
        PType::I8 => Some(PrimitiveScalar::I8(i8::try_from(number).ok()?)),
        PType::I16 => Some(PrimitiveScalar::I16(i16::try_from(number).ok()?)),
        PType::I32 => Some(PrimitiveScalar::I32(i32::try_from(number).ok()?)),
        PType::I64 => Some(PrimitiveScalar::I64(number)),
        _ => None,
    }
}

// The cell of a number of a type without numbers below zero, if the type has it.
#[inline(always)]
fn unsigned_cell(ptype: PType, number: u64) -> Option<PrimitiveScalar>
    ensures { IfSome result (λ cell. Some (short_value cell)
        ≡ option_map (λ n. Some (value.Primitive n)) (in_type ptype (pos number))) }
{
    match ptype {
        PType::U8 => Some(PrimitiveScalar::U8(u8::try_from(number).ok()?)),
        PType::U16 => Some(PrimitiveScalar::U16(u16::try_from(number).ok()?)),
        PType::U32 => Some(PrimitiveScalar::U32(u32::try_from(number).ok()?)),
        PType::U64 => Some(PrimitiveScalar::U64(number)),
        _ => None,
    }
}

// The cell of the number of a type at the front of a text, and what follows it.
#[inline(always)]
fn whole_cell(ptype: PType, text: &[u8]) -> Option<(PrimitiveScalar, &[u8])>
    ensures whole { IfSome result (λ x. (n : PValue) × BeginsNumber ptype text.now n x.1.now
        × (short_value x.0 ≡ Some (value.Primitive n))) }
    ensures shorter { IfSome result (λ x. length x.1.now < length text.now) }
{
    if is_signed(ptype) {
        let (number, rest) = signed(text)?;
        Some((signed_cell(ptype, number)?, rest))
    } else {
        let (number, rest) = natural(text)?;
        Some((unsigned_cell(ptype, number)?, rest))
    }
}

// The cell of the number behind a space at the front of a text, and what follows it.
#[inline(always)]
fn number_cell(dtype: DType, text: &[u8]) -> Option<(PrimitiveScalar, &[u8])>
    ensures value { IfSome result (λ x.
        BeginsValue dtype text.now (short_value x.0) x.1.now) }
    ensures shorter { IfSome result (λ x. length x.1.now < length text.now) }
{
    let [b' ', word @ ..] = text else {
        return None;
    };
    let DType::Primitive(ptype, _) = dtype else {
        return None;
    };
    let (cell, rest) = whole_cell(ptype, word)?;
    if ends_word(rest) {
        Some((cell, rest))
    } else {
        None
    }
}

// The truth at the front of a text, and what follows it.
#[inline(always)]
pub(crate) fn truth(text: &[u8]) -> Option<(bool, &[u8])>
    ensures word { IfSome result (λ x. BeginsWord text.now (spec.truth_name x.0) x.1.now) }
    ensures shorter { IfSome result (λ x. length x.1.now < length text.now) }
{
    match text {
        [b't', b'r', b'u', b'e', rest @ ..] => Some((true, rest)),
        [b'f', b'a', b'l', b's', b'e', rest @ ..] => Some((false, rest)),
        _ => None,
    }
}

// The truth behind a space at the front of a text, and what follows it.
#[inline(always)]
fn spaced_truth(text: &[u8]) -> Option<(bool, &[u8])>
    ensures value { IfSome result (λ x. (n : Nullability)
        → BeginsValue (dtype.Bool n) text.now (Some (value.Bool x.0)) x.1.now) }
    ensures shorter { IfSome result (λ x. length x.1.now < length text.now) }
{
    let [b' ', behind @ ..] = text else {
        return None;
    };
    let (truth, rest) = truth(behind)?;
    if ends_word(rest) {
        Some((truth, rest))
    } else {
        None
    }
}

/// The cell of the truth or the number of a type that stands behind one space at the front of a
/// text, and what follows it: a number in up to 19 digits, then a space or a line feed. None where
/// anything else stands there, and of a number where the text ends a few bytes on.
#[inline(always)]
pub fn plain_value(dtype: DType, text: &[u8]) -> Option<(PrimitiveScalar, &[u8])>
    ensures value { IfSome result (λ x.
        BeginsValue dtype text.now (short_value x.0) x.1.now) }
    ensures shorter { IfSome result (λ x. length x.1.now < length text.now) }
{
    match dtype {
        DType::Primitive(_, _) => number_cell(dtype, text),
        DType::Bool(_) => {
            let (truth, rest) = spaced_truth(text)?;
            Some((PrimitiveScalar::Bool(truth), rest))
        }
        _ => None,
    }
}

/// The rest of a text behind one space and `null` at its front, where a type has null and a space
/// or a line feed follows. None where anything else stands there.
#[inline(always)]
pub fn plain_null(dtype: DType, text: &[u8]) -> Option<&[u8]>
    ensures value { IfSome result (λ rest. BeginsValue dtype text.now None rest.now) }
    ensures shorter { IfSome result (λ rest. length rest.now < length text.now) }
{
    let [b' ', word @ ..] = text else {
        return None;
    };
    let [b'n', b'u', b'l', b'l', rest @ ..] = word else {
        return None;
    };
    if !dtype.is_nullable() {
        return None;
    }
    if ends_word(rest) { Some(rest) } else { None }
}

/// The cell of the truth, the number or the null of a type that stands behind one space at the
/// front of a text, and what follows it.
#[inline(always)]
pub fn plain_cell(dtype: DType, text: &[u8]) -> Option<(PrimitiveScalar, &[u8])>
    ensures value { IfSome result (λ x.
        BeginsValue dtype text.now (short_value x.0) x.1.now) }
    ensures shorter { IfSome result (λ x. length x.1.now < length text.now) }
{
    if let Some((cell, rest)) = plain_value(dtype, text) {
        return Some((cell, rest));
    }
    Some((PrimitiveScalar::Null, plain_null(dtype, text)?))
}

/// The bytes of a type behind a space at the front of a text, an `x` and their digits, put into a
/// vector in the place of what it held, and what follows them: a space or a line feed. None where
/// anything else stands there; nothing is said of the vector then.
#[inline]
pub fn plain_bytes<'a>(
    dtype: DType,
    text: &'a [u8],
    bytes: &mut Vec<u8>,
) -> Result<Option<&'a [u8]>, AllocError>
    ensures value { IfOk result (λ o. IfSome o
        (λ rest. BeginsValue dtype text.now (Some (value.Binary bytes.new.items)) rest.now)) }
    ensures shorter { IfOk result (λ o. IfSome o
        (λ rest. length rest.now < length text.now)) }
{
    let (DType::Binary(_), [b' ', b'x', behind @ ..]) = (dtype, text) else {
        return Ok(None);
    };
    bytes.clear();
    let rest = read_pairs(behind, bytes)?;
    if ends_word(rest) {
        Ok(Some(rest))
    } else {
        Ok(None)
    }
}

/// The text of a type between quotes behind a space at the front of another, and what follows it: a
/// text of visible ASCII without an escape, then a space or a line feed. None where anything else
/// stands there. No memory is taken.
#[inline]
pub fn plain_text(dtype: DType, text: &[u8]) -> Option<(&str, &[u8])>
    ensures value { IfSome result (λ x.
        BeginsValue dtype text.now (Some (value.Utf8 x.0.now)) x.1.now) }
    ensures shorter { IfSome result (λ x. length x.1.now < length text.now) }
{
    let [b' ', b'"', behind @ ..] = text else {
        return None;
    };
    let (DType::Utf8(_), Some((quoted, rest))) = (dtype, quoted(behind)) else {
        return None;
    };
    if ends_word(rest) {
        Some((quoted, rest))
    } else {
        None
    }
}

// A number of any type. Its arms become a jump by a table, which a processor that guards against
// Spectre doesn't foresee, so it is called only for types that no test tells apart before.
#[inline(never)]
fn other_number(ptype: PType, number: i128) -> Option<PValue>
    ensures { result ≡ in_type ptype number }
{
    in_type(ptype, number)
}

// A number of a type with numbers below zero. Tests, which are foreseen, tell I64 and I32 apart.
#[inline(always)]
fn signed_number(ptype: PType, number: i64) -> Option<PValue>
    ensures { result ≡ in_type ptype number }
{
    match ptype {
        PType::I64 => Some(PValue::I64(number)),
        PType::I32 => Some(PValue::I32(i32::try_from(number).ok()?)),
        _ => other_number(ptype, i128::from(number)),
    }
}

// A number of a type without numbers below zero. Tests tell U64 and U32 apart.
#[inline(always)]
fn unsigned_number(ptype: PType, number: u64) -> Option<PValue>
    ensures { result ≡ in_type ptype (pos number) }
{
    match ptype {
        PType::U64 => Some(PValue::U64(number)),
        PType::U32 => Some(PValue::U32(u32::try_from(number).ok()?)),
        _ => other_number(ptype, i128::from(number)),
    }
}

/// The number of a type at the front of a text, and what follows it: up to 19 digits, behind a
/// minus where it is below zero. None where anything else stands there, and where the text ends
/// within a few bytes.
#[inline(always)]
pub fn plain_number(ptype: PType, text: &[u8]) -> Option<(PValue, &[u8])>
    ensures number { IfSome result (λ x. BeginsNumber ptype text.now x.0 x.1.now) }
    ensures shorter { IfSome result (λ x. length x.1.now < length text.now) }
{
    if is_signed(ptype) {
        let (number, rest) = signed(text)?;
        Some((signed_number(ptype, number)?, rest))
    } else {
        let (number, rest) = natural(text)?;
        Some((unsigned_number(ptype, number)?, rest))
    }
}
