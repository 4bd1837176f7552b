//! Where a value ends.
ghost use Rattle.vortex_parquet.specs.Reading.{Gives};
ghost use Rattle.vortex_parquet.specs.Skip.{behind, skip_at, skip_entry, skip_item, skip_list, skip_map, skip_value};
ghost use Rattle.vortex_parquet.specs.Skip.{struct_at, times};

use crate::compact::{self, Kind, ListHead, MapHead, jump};
use crate::fault::{Fault, ReadError};

/// How deep values may be nested.
pub const DEPTH: u8 = 32;

/// Returns the bytes behind a value whose parts are nested less deep than `depth`.
#[cycle(skip)]
#[tactic(auto, using(crate::proofs::More::skip_more, crate::proofs::More::skip_none))]
pub fn skip(depth: u8, kind: Kind, bytes: &[u8]) -> Result<&[u8], ReadError>
    ensures { Gives (λ rest. rest.now) result (skip_at depth kind bytes.now) }
{
    if depth == 0 {
        return Err(ReadError::Fault(Fault::Depth));
    }
    skip_value(depth - 1, kind, bytes)
}

// Returns the bytes behind a value whose parts are nested at most `depth` deep.
#[cycle(skip)]
#[tactic(auto, unfolding(crate::specs::Skip::skip_value))]
fn skip_value(depth: u8, kind: Kind, bytes: &[u8]) -> Result<&[u8], ReadError>
    ensures { Gives (λ rest. rest.now) result (skip_value (skip_at depth) kind bytes.now) }
{
    match kind {
        Kind::True | Kind::False => Ok(bytes),
        Kind::Byte => jump(1, bytes),
        Kind::I16 | Kind::I32 | Kind::I64 => compact::skip_varint(bytes),
        Kind::Double => jump(8, bytes),
        Kind::Binary => Ok(compact::binary(bytes)?.1),
        Kind::List | Kind::Set => {
            let (head, rest) = compact::list_head(bytes)?;
            skip_list(depth, head, rest)
        }
        Kind::Map => {
            let (head, rest) = compact::map_head(bytes)?;
            skip_map(depth, head, rest)
        }
        Kind::Struct => skip_fields(depth, bytes),
        Kind::Uuid => jump(16, bytes),
    }
}

// Returns the bytes behind an item of a list, or behind a key or a value of a map.
#[cycle(skip)]
pub fn skip_item(depth: u8, kind: Kind, bytes: &[u8]) -> Result<&[u8], ReadError>
    ensures { Gives (λ rest. rest.now) result (skip_item (skip_at depth) kind bytes.now) }
{
    match kind {
        Kind::True | Kind::False => jump(1, bytes),
        other => skip(depth, other, bytes),
    }
}

#[cycle(skip)]
fn skip_list(depth: u8, head: Option<ListHead>, bytes: &[u8]) -> Result<&[u8], ReadError>
    ensures { Gives (λ rest. rest.now) result (skip_list (skip_at depth) (head, bytes.now)) }
{
    match head {
        None => Ok(bytes),
        Some(head) => skip_items(depth, head.kind, head.count, bytes),
    }
}

#[cycle(skip)]
fn skip_items(depth: u8, kind: Kind, count: usize, bytes: &[u8]) -> Result<&[u8], ReadError>
    ensures { Gives (λ rest. rest.now) result
        (times (skip_item (skip_at depth) kind) count bytes.now) }
{
    let mut rest = bytes;
    for _ in 0..count {
        rest = skip_item(depth, kind, rest)?;
    }
    Ok(rest)
}

#[cycle(skip)]
fn skip_map(depth: u8, head: Option<MapHead>, bytes: &[u8]) -> Result<&[u8], ReadError>
    ensures { Gives (λ rest. rest.now) result (skip_map (skip_at depth) (head, bytes.now)) }
{
    match head {
        None => Ok(bytes),
        Some(head) => skip_entries(depth, head, bytes),
    }
}

#[cycle(skip)]
#[tactic(auto, unfolding(crate::specs::Skip::skip_entry))]
fn skip_entry(depth: u8, key: Kind, value: Kind, bytes: &[u8]) -> Result<&[u8], ReadError>
    ensures { Gives (λ rest. rest.now) result (skip_entry (skip_at depth) key value bytes.now) }
{
    let rest = skip_item(depth, key, bytes)?;
    skip_item(depth, value, rest)
}

#[cycle(skip)]
fn skip_entries(depth: u8, head: MapHead, bytes: &[u8]) -> Result<&[u8], ReadError>
    ensures { Gives (λ rest. rest.now) result
        (times (skip_entry (skip_at depth) head.key head.value) head.count bytes.now) }
{
    let mut rest = bytes;
    for _ in 0..head.count {
        rest = skip_entry(depth, head.key, head.value, rest)?;
    }
    Ok(rest)
}

// Each field takes a byte, and so does the end: so a struct has no more heads than bytes.
#[cycle(skip)]
fn skip_fields(depth: u8, bytes: &[u8]) -> Result<&[u8], ReadError>
    ensures { Gives (λ rest. rest.now) result (behind (struct_at (skip_at depth) bytes.now)) }
{
    let mut last = 0;
    let mut rest = bytes;
    for _ in 0..bytes.len() {
        let (head, after) = compact::field_head(last, rest)?;
        let Some(head) = head else {
            return Ok(after);
        };
        rest = skip(depth, head.kind, after)?;
        last = head.id;
    }
    Err(ReadError::Fault(Fault::Short))
}
