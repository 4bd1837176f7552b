//! Reads the parts of Thrift's compact protocol: numbers, byte strings, heads of fields and lists.
ghost use Rattle.std.specs.Prelude.{◌≡◌};
ghost use Rattle.vortex_parquet.specs.Reading.{Gives};
ghost use Rattle.vortex_parquet.specs.Compact.{binary_at, count_at, head_at, id_at, items_at, jump, kind_at, kinds_at};
ghost use Rattle.vortex_parquet.specs.Skip.{behind};
ghost use Rattle.vortex_parquet.specs.Compact.{kind_of, map_at, natural_at, varint_at, varint_from, varint_in};

use crate::fault::{Fault, ReadError};

/// The kinds of values. A field's head tells a Boolean's value by its kind.
#[derive(Clone, Copy, Debug, PartialEq, Eq)]
pub enum Kind {
    True,
    False,
    Byte,
    I16,
    I32,
    I64,
    Double,
    Binary,
    List,
    Set,
    Map,
    Struct,
    Uuid,
}

/// The head of a field.
#[derive(Clone, Copy, Debug, PartialEq, Eq)]
pub struct FieldHead {
    pub id: u16,
    pub kind: Kind,
}

/// The head of a list or a set: how many items of which kind.
#[derive(Clone, Copy, Debug, PartialEq, Eq)]
pub struct ListHead {
    pub count: usize,
    pub kind: Kind,
}

/// The head of a map.
#[derive(Clone, Copy, Debug, PartialEq, Eq)]
pub struct MapHead {
    pub count: usize,
    pub key: Kind,
    pub value: Kind,
}

/// The kind of a code.
pub fn kind_of(code: u8) -> Option<Kind>
    ensures { result ≡ kind_of code }
{
    match code {
        1 => Some(Kind::True),
        2 => Some(Kind::False),
        3 => Some(Kind::Byte),
        4 => Some(Kind::I16),
        5 => Some(Kind::I32),
        6 => Some(Kind::I64),
        7 => Some(Kind::Double),
        8 => Some(Kind::Binary),
        9 => Some(Kind::List),
        10 => Some(Kind::Set),
        11 => Some(Kind::Map),
        12 => Some(Kind::Struct),
        13 => Some(Kind::Uuid),
        _ => None,
    }
}

// Returns the kind of a code, and a fault where the code stands for no kind.
#[tactic(auto, unfolding(crate::specs::Compact::kind_at))]
fn kind_at(code: u8) -> Result<Kind, ReadError>
    ensures { Gives (λ k. k) result (kind_at code) }
{
    match kind_of(code) {
        Some(kind) => Ok(kind),
        None => Err(ReadError::Fault(Fault::Kind)),
    }
}

/// Returns the bytes behind the first `count` ones.
#[tactic(auto, unfolding(crate::specs::Compact::jump))]
pub fn jump(count: usize, bytes: &[u8]) -> Result<&[u8], ReadError>
    ensures { Gives (λ rest. rest.now) result (jump count bytes.now) }
{
    if bytes.len() < count {
        return Err(ReadError::Fault(Fault::Short));
    }
    let (_, rest) = bytes.split_at(count);
    Ok(rest)
}

// A number of at most so many bytes.
#[cycle(varint)]
#[tactic(auto, using(crate::proofs::More::varint_more, crate::proofs::More::varint_none))]
fn varint_in(left: u8, bytes: &[u8]) -> Result<(u64, &[u8]), ReadError>
    ensures { Gives (λ x. (x.0, x.1.now)) result (varint_in left bytes.now) }
{
    if left == 0 {
        return Err(ReadError::Fault(Fault::Varint));
    }
    varint_from(left - 1, bytes)
}

// Reads a number of one byte and at most so many others.
#[cycle(varint)]
#[tactic(auto, unfolding(crate::specs::Compact::varint_from))]
fn varint_from(left: u8, bytes: &[u8]) -> Result<(u64, &[u8]), ReadError>
    ensures { Gives (λ x. (x.0, x.1.now)) result (varint_from (varint_in left) bytes.now) }
{
    match bytes {
        [] => Err(ReadError::Fault(Fault::Short)),
        [byte, rest @ ..] => {
            if *byte < 128 {
                return Ok((*byte as u64, rest));
            }
            let (high, rest) = varint_in(left, rest)?;
            if high >= 1 << 57 {
                return Err(ReadError::Fault(Fault::Varint));
            }
            Ok((*byte as u64 - 128 + high * 128, rest))
        }
    }
}

/// A number below 2 ^ 64.
#[inline]
#[tactic(auto, unfolding(crate::specs::Compact::varint_at))]
pub fn varint(bytes: &[u8]) -> Result<(u64, &[u8]), ReadError>
    ensures { Gives (λ x. (x.0, x.1.now)) result (varint_at bytes.now) }
{
    // Most numbers of a footer have one byte.
    match bytes {
        [byte, rest @ ..] if *byte < 128 => Ok((*byte as u64, rest)),
        _ => varint_in(10, bytes),
    }
}

/// Returns the bytes behind a number below 2 ^ 64.
#[inline]
#[tactic(auto, unfolding(crate::specs::Compact::varint_at))]
pub fn skip_varint(bytes: &[u8]) -> Result<&[u8], ReadError>
    ensures { Gives (λ rest. rest.now) result (behind (varint_at bytes.now)) }
{
    match bytes {
        [byte, rest @ ..] if *byte < 128 => Ok(rest),
        [low, high, rest @ ..] if *low >= 128 && *high < 128 => Ok(rest),
        // Numbers of rows and of bytes have three mostly, and offsets five.
        [a, b, c, rest @ ..] if *a >= 128 && *b >= 128 && *c < 128 => Ok(rest),
        [a, b, c, d, rest @ ..] if *a >= 128 && *b >= 128 && *c >= 128 && *d < 128 => Ok(rest),
        [a, b, c, d, e, rest @ ..]
            if *a >= 128 && *b >= 128 && *c >= 128 && *d >= 128 && *e < 128 => { Ok(rest) }
        _ => Ok(varint_in(10, bytes)?.1),
    }
}

/// A number with a sign, which is not below 0.
#[tactic(auto, unfolding(crate::specs::Compact::natural_at))]
pub fn natural(bytes: &[u8]) -> Result<(u64, &[u8]), ReadError>
    ensures { Gives (λ x. (x.0, x.1.now)) result (natural_at bytes.now) }
{
    let (number, rest) = varint(bytes)?;
    if number % 2 == 1 {
        return Err(ReadError::Fault(Fault::Negative));
    }
    Ok((number / 2, rest))
}

/// A string of bytes, behind its length.
#[tactic(auto, unfolding(crate::specs::Compact::binary_at))]
pub fn binary(bytes: &[u8]) -> Result<(&[u8], &[u8]), ReadError>
    ensures { Gives (λ x. (x.0.now, x.1.now)) result (binary_at bytes.now) }
{
    let (length, rest) = varint(bytes)?;
    if length > rest.len() as u64 {
        return Err(ReadError::Fault(Fault::Short));
    }
    Ok(rest.split_at(length as usize))
}

// The identifier of a field, `delta` above the last one, or written out where that is 0.
#[tactic(auto, unfolding(crate::specs::Compact::id_at))]
fn id(last: u16, delta: u8, bytes: &[u8]) -> Result<(u64, &[u8]), ReadError>
    ensures { Gives (λ x. (x.0, x.1.now)) result (id_at last delta bytes.now) }
{
    if delta == 0 {
        return natural(bytes);
    }
    Ok((last as u64 + delta as u64, bytes))
}

/// The head of the next field, or none where the struct ends.
#[tactic(auto, unfolding(crate::specs::Compact::head_at))]
pub fn field_head(last: u16, bytes: &[u8]) -> Result<(Option<FieldHead>, &[u8]), ReadError>
    ensures { Gives (λ x. (x.0, x.1.now)) result (head_at last bytes.now) }
{
    match bytes {
        [] => Err(ReadError::Fault(Fault::Short)),
        [byte, rest @ ..] => {
            if *byte == 0 {
                return Ok((None, rest));
            }
            let kind = kind_at(*byte % 16)?;
            let (id, rest) = id(last, *byte / 16, rest)?;
            if id >= 1 << 15 {
                return Err(ReadError::Fault(Fault::FieldId));
            }
            let id = id as u16;
            Ok((Some(FieldHead { id, kind }), rest))
        }
    }
}

// How many items a list has: told by the head itself, or behind it.
#[tactic(auto, unfolding(crate::specs::Compact::count_at))]
fn count(short: u8, bytes: &[u8]) -> Result<(u64, &[u8]), ReadError>
    ensures { Gives (λ x. (x.0, x.1.now)) result (count_at short bytes.now) }
{
    if short == 15 {
        return varint(bytes);
    }
    Ok((short as u64, bytes))
}

/// Returns the head of a list or a set; none of one without items, whose kind may be anything. Each
/// item takes a byte at least, so none has more items than bytes are left.
#[tactic(auto, unfolding(crate::specs::Compact::items_at))]
pub fn list_head(bytes: &[u8]) -> Result<(Option<ListHead>, &[u8]), ReadError>
    ensures { Gives (λ x. (x.0, x.1.now)) result (items_at bytes.now) }
{
    match bytes {
        [] => Err(ReadError::Fault(Fault::Short)),
        [byte, rest @ ..] => {
            let (count, rest) = count(*byte / 16, rest)?;
            if count == 0 {
                return Ok((None, rest));
            }
            if count > rest.len() as u64 {
                return Err(ReadError::Fault(Fault::Length));
            }
            let kind = kind_at(*byte % 16)?;
            let count = count as usize;
            Ok((Some(ListHead { count, kind }), rest))
        }
    }
}

// The kinds of a map's keys and values, where it has so many.
#[tactic(auto, unfolding(crate::specs::Compact::kinds_at))]
fn kinds(count: usize, bytes: &[u8]) -> Result<(MapHead, &[u8]), ReadError>
    ensures { Gives (λ x. (x.0, x.1.now)) result (kinds_at count bytes.now) }
{
    match bytes {
        [] => Err(ReadError::Fault(Fault::Short)),
        [byte, rest @ ..] => {
            let key = kind_at(*byte / 16)?;
            let value = kind_at(*byte % 16)?;
            Ok((MapHead { count, key, value }, rest))
        }
    }
}

/// The head of a map. One without entries has no kinds.
#[tactic(auto, unfolding(crate::specs::Compact::map_at))]
pub fn map_head(bytes: &[u8]) -> Result<(Option<MapHead>, &[u8]), ReadError>
    ensures { Gives (λ x. (x.0, x.1.now)) result (map_at bytes.now) }
{
    let (count, rest) = varint(bytes)?;
    if count == 0 {
        return Ok((None, rest));
    }
    if count > rest.len() as u64 {
        return Err(ReadError::Fault(Fault::Length));
    }
    let (entries, rest) = kinds(count as usize, rest)?;
    Ok((Some(entries), rest))
}
