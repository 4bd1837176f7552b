//! The values that words write.
ghost use Rattle.std.specs.Prelude.{◌≡◌, ◌<◌, ◌≤◌, [], if◌then◌else◌, None, Some, IfErr, IfOk, IsErrOf, IsTrue, OnErr, length, slice_index};
ghost use Rattle.vortex_syntax.specs.Copies.{makes_bytes};
ghost use Rattle.vortex_syntax.specs.Fails.{Gives, IsBad};
ghost use Rattle.vortex_syntax.specs.Numbers.{byte_of, bytes_of, hexadecimal_of};
ghost use Rattle.vortex_syntax.specs.Plain.{BeginsBytes};
ghost use Rattle.vortex_syntax.specs.Values.{binary_of, optional_value_of, plain_value, quoted_value, text_of, truth_of, value_of};
ghost use Rattle.vortex_syntax.specs.Words.{Plain, token_of};

use crate::expected::Expected;
use crate::line_error::{Fault, LineError};
use crate::names::is;
use crate::number::number_of;
use crate::word::Word;
use std::alloc::{AllocError, Global};
use vortex_base::bytes::Bytes;
use vortex_base::dtype::DType;
use vortex_base::scalar_value::ScalarValue;
use vortex_base::text::Text;

fn truth_of(word: &[u8]) -> Option<ScalarValue>
    ensures { result ≡ truth_of word.now }
{
    if is(word, b"true") {
        return Some(ScalarValue::Bool(true));
    }
    if is(word, b"false") {
        return Some(ScalarValue::Bool(false));
    }
    None
}

// The value of each byte that is a hexadecimal digit, and 16 of each other.
const DIGITS: &[u8; 256] = &[
    16, 16, 16, 16, 16, 16, 16, 16, 16, 16, 16, 16, 16, 16, 16, 16, 16, 16, 16, 16, 16, 16, 16, 16,
    16, 16, 16, 16, 16, 16, 16, 16, 16, 16, 16, 16, 16, 16, 16, 16, 16, 16, 16, 16, 16, 16, 16, 16,
    0, 1, 2, 3, 4, 5, 6, 7, 8, 9, 16, 16, 16, 16, 16, 16, 16, 10, 11, 12, 13, 14, 15, 16, 16, 16,
    16, 16, 16, 16, 16, 16, 16, 16, 16, 16, 16, 16, 16, 16, 16, 16, 16, 16, 16, 16, 16, 16, 16, 10,
    11, 12, 13, 14, 15, 16, 16, 16, 16, 16, 16, 16, 16, 16, 16, 16, 16, 16, 16, 16, 16, 16, 16, 16,
    16, 16, 16, 16, 16, 16, 16, 16, 16, 16, 16, 16, 16, 16, 16, 16, 16, 16, 16, 16, 16, 16, 16, 16,
    16, 16, 16, 16, 16, 16, 16, 16, 16, 16, 16, 16, 16, 16, 16, 16, 16, 16, 16, 16, 16, 16, 16, 16,
    16, 16, 16, 16, 16, 16, 16, 16, 16, 16, 16, 16, 16, 16, 16, 16, 16, 16, 16, 16, 16, 16, 16, 16,
    16, 16, 16, 16, 16, 16, 16, 16, 16, 16, 16, 16, 16, 16, 16, 16, 16, 16, 16, 16, 16, 16, 16, 16,
    16, 16, 16, 16, 16, 16, 16, 16, 16, 16, 16, 16, 16, 16, 16, 16, 16, 16, 16, 16, 16, 16, 16, 16,
    16, 16, 16, 16, 16, 16, 16, 16, 16, 16, 16, 16, 16, 16,
];

// The value of a hexadecimal digit, and 16 for any other byte. No branch is taken, since digits and
// letters stand in no order that a processor could foresee.
#[inline(always)]
fn digit_or_16(byte: u8) -> u8
    ensures digit { result < 16 → hexadecimal_of byte ≡ Some result }
    ensures other { 16 ≤ result → hexadecimal_of byte ≡ None }
{
    DIGITS[usize::from(byte)]
}

// The byte of two hexadecimal digits.
#[inline(always)]
fn byte_of(high: u8, low: u8) -> Option<u8>
    ensures { result ≡ byte_of high low }
{
    let (high, low) = (digit_or_16(high), digit_or_16(low));
    if high < 16 && low < 16 {
        Some(16 * high + low)
    } else {
        None
    }
}

// Puts the bytes that the pairs of hexadecimal digits at the front of a text write into a vector
// without bytes. What follows those pairs comes back.
#[inline(always)]
pub(crate) fn read_pairs<'a>(text: &'a [u8], bytes: &mut Vec<u8>) -> Result<&'a [u8], AllocError>
    requires { bytes.old.items ≡ [] }
    ensures pairs { IfOk result (λ rest. BeginsBytes text.now bytes.new.items rest.now) }
    ensures stops { IfOk result (λ rest. 0 < length rest.now → bytes_of text.now ≡ None) }
    ensures no_longer { IfOk result (λ rest. length rest.now ≤ length text.now) }
    ensures memory { OnErr result (2 ≤ length text.now) }
{
    let mut rest = text;
    'pairs: while let [high, low, after @ ..] = rest {
        let Some(byte) = byte_of(*high, *low) else {
            return Ok(rest);
        };
        bytes.push(byte)?;
        rest = after;
    }
    Ok(rest)
}

// Puts the bytes that pairs of hexadecimal digits write into a vector without bytes. False where
// the digits aren't such pairs.
fn read_bytes(digits: &[u8], bytes: &mut Vec<u8>) -> Result<bool, AllocError>
    requires { bytes.old.items ≡ [] }
    ensures bytes { IfOk result
        (λ read. bytes_of digits.now ≡ (if read then Some bytes.new.items else None)) }
    ensures memory { OnErr result (2 ≤ length digits.now) }
{
    let rest = read_pairs(digits, bytes)?;
    Ok(rest.is_empty())
}

// The bytes that pairs of hexadecimal digits write, or the fault of a word that isn't such.
fn bytes_of(alloc: Global, digits: &[u8], fault: Fault) -> Result<Vec<u8>, LineError>
    ensures bytes { Gives (λ v. v.items) result (bytes_of digits.now) }
    ensures memory { IsErrOf result LineError.Memory → 2 ≤ length digits.now }
{
    let mut bytes = Vec::with_capacity(alloc, digits.len() / 2)?;
    if read_bytes(digits, &mut bytes)? {
        Ok(bytes)
    } else {
        Err(LineError::Bad(fault))
    }
}

// Bytes: an `x` and then their digits.
fn binary_of(alloc: Global, word: &[u8], fault: Fault) -> Result<ScalarValue, LineError>
    ensures value { Gives (λ v. v) result (binary_of word.now) }
    ensures x { IsErrOf result LineError.Memory → slice_index word.now 0 ≡ 120 }
    ensures digits { IsErrOf result LineError.Memory → 2 < length word.now }
{
    match word {
        [b'x', digits @ ..] => {
            let bytes = bytes_of(alloc, digits, fault)?;
            Ok(ScalarValue::Binary(Bytes::new(bytes)))
        }
        _ => Err(LineError::Bad(fault)),
    }
}

// The value other than null that a word without quotes writes.
#[inline(always)]
fn plain_value(
    alloc: Global,
    dtype: DType,
    word: &[u8],
    fault: Fault,
) -> Result<ScalarValue, LineError>
    ensures value { Gives (λ v. v) result (plain_value dtype word.now) }
    ensures memory { IsErrOf result LineError.Memory
        → IsTrue (makes_bytes dtype (Plain word.now)) }
{
    match dtype {
        DType::Bool(_) => truth_of(word).ok_or(LineError::Bad(fault)),
        DType::Primitive(ptype, _) => match number_of(ptype, word) {
            Some(number) => Ok(ScalarValue::Primitive(number)),
            None => Err(LineError::Bad(fault)),
        },
        DType::Binary(_) => binary_of(alloc, word, fault),
        DType::Null | DType::Utf8(_) | DType::MinMaxState(_, _) => Err(LineError::Bad(fault)),
    }
}

// Bytes as a text, where they are UTF-8.
fn text_of(bytes: Vec<u8>) -> Option<Text>
    ensures { result ≡ text_of bytes.items }
{
    match String::from_utf8(bytes) {
        Ok(text) => {
            let text = Text::new(text);
            // A text is UTF-8, as its string slice tells.
            let _text = text.as_str();
            Some(text)
        }
        Err(_) => None,
    }
}

// The text that stands between quotes.
fn quoted_value(dtype: DType, text: Vec<u8>, fault: Fault) -> Result<ScalarValue, LineError>
    ensures value { Gives (λ v. v) result (quoted_value dtype text.items) }
    ensures bad { IfErr result IsBad }
{
    match dtype {
        DType::Utf8(_) => match text_of(text) {
            Some(text) => Ok(ScalarValue::Utf8(text)),
            None => Err(LineError::Bad(fault)),
        },
        _ => Err(LineError::Bad(fault)),
    }
}

/// The value other than null that a word writes, at whose beginning so many bytes of the line are
/// left.
pub fn value_of(
    alloc: Global,
    dtype: DType,
    word: Word,
    left: usize,
) -> Result<ScalarValue, LineError>
    ensures value { Gives (λ v. v) result (value_of dtype (token_of word.entry)) }
    ensures memory { IsErrOf result LineError.Memory
        → IsTrue (makes_bytes dtype (token_of word.entry)) }
{
    let fault = Fault::at(left, Expected::Value(dtype));
    match word {
        Word::Plain(word) => plain_value(alloc, dtype, word, fault),
        Word::Quoted(text) => quoted_value(dtype, text, fault),
    }
}

/// The value that a word writes, or `None` for `null` where the type has it. So many bytes of the
/// line are left at the word's beginning.
#[inline(always)]
pub fn optional_value_of(
    alloc: Global,
    dtype: DType,
    word: Word,
    left: usize,
) -> Result<Option<ScalarValue>, LineError>
    ensures value { Gives (λ v. v) result (optional_value_of dtype (token_of word.entry)) }
    ensures memory { IsErrOf result LineError.Memory
        → IsTrue (makes_bytes dtype (token_of word.entry)) }
{
    let fault = Fault::at(left, Expected::ValueOrNull(dtype));
    match word {
        Word::Plain(word) if !is(word, b"null") => {
            Ok(Some(plain_value(alloc, dtype, word, fault)?))
        }
        Word::Plain(_) if dtype.is_nullable() => Ok(None),
        Word::Plain(_) => Err(LineError::Bad(fault)),
        Word::Quoted(text) => Ok(Some(quoted_value(dtype, text, fault)?)),
    }
}
