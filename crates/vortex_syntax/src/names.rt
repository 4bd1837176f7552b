//! The words that name columns, types and statistics.
ghost use Rattle.std.specs.Prelude.{◌≡◌};
ghost use Rattle.std.specs.List.{list_all};
ghost use Rattle.std.specs.Str.{bytes_eq};
ghost use Rattle.vortex_syntax.specs.Names.{begins_name, continues_name, is_name, kind_of, ptype_of, type_of};

use vortex_base::dtype::DType;
use vortex_base::types::{Nullability, PType};

// The longest name of a column, in bytes.
const NAME_LIMIT: usize = 64;

/// Whether a word is this one.
pub fn is(word: &[u8], other: &[u8]) -> bool
    ensures { result ≡ bytes_eq word.now other.now }
{
    word == other
}

fn begins_name(byte: u8) -> bool
    ensures { result ≡ begins_name byte }
{
    byte.is_ascii_alphabetic() || byte == b'_'
}

fn continues_name(byte: u8) -> bool
    ensures { result ≡ continues_name byte }
{
    byte.is_ascii_alphanumeric() || byte == b'_'
}

fn all_continue_name(bytes: &[u8]) -> bool
    ensures { result ≡ list_all continues_name bytes.now }
{
    bytes.iter().all(|byte| continues_name(*byte))
}

/// Whether a word may name a column: an ASCII letter or `_`, then letters, digits or `_`, 64 bytes
/// at most.
pub fn is_name(word: &[u8]) -> bool
    ensures { result ≡ is_name word.now }
{
    if word.len() > NAME_LIMIT {
        return false;
    }
    match word.first() {
        Some(first) => begins_name(*first) && all_continue_name(word),
        None => false,
    }
}

// The type of a word without its question mark.
fn kind_of(word: &[u8], nullability: Nullability) -> Option<DType>
    ensures { result ≡ kind_of word.now nullability }
{
    if is(word, b"bool") {
        return Some(DType::Bool(nullability));
    }
    if is(word, b"utf8") {
        return Some(DType::Utf8(nullability));
    }
    if is(word, b"binary") {
        return Some(DType::Binary(nullability));
    }
    Some(DType::Primitive(ptype_of(word)?, nullability))
}

// The type of numbers of a word.
fn ptype_of(word: &[u8]) -> Option<PType>
    ensures { result ≡ ptype_of word.now }
{
    if is(word, b"u8") {
        return Some(PType::U8);
    }
    if is(word, b"u16") {
        return Some(PType::U16);
    }
    if is(word, b"u32") {
        return Some(PType::U32);
    }
    if is(word, b"u64") {
        return Some(PType::U64);
    }
    if is(word, b"i8") {
        return Some(PType::I8);
    }
    if is(word, b"i16") {
        return Some(PType::I16);
    }
    if is(word, b"i32") {
        return Some(PType::I32);
    }
    if is(word, b"i64") {
        return Some(PType::I64);
    }
    None
}

/// The type that a word names. A `?` at its end lets null in.
pub fn type_of(word: &[u8]) -> Option<DType>
    ensures { result ≡ type_of word.now }
{
    if is(word, b"null") {
        return Some(DType::Null);
    }
    match word {
        [front @ .., b'?'] => kind_of(front, Nullability::Nullable),
        _ => kind_of(word, Nullability::NonNullable),
    }
}
