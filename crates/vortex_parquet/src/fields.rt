//! Items and lists by their fields and items.
ghost use Rattle.std.specs.Prelude.{◌≡◌, map, option_copied};
ghost use Rattle.vortex_parquet.specs.Fields.{binary_in, byte_in, field_view, field_views, found};
ghost use Rattle.vortex_parquet.specs.Fields.{is_told, items_in, items_of, items_view, natural_in};
ghost use Rattle.vortex_parquet.specs.Fields.{natural_of, number_in, pick, spans_in, struct_of};
ghost use Rattle.vortex_parquet.specs.Fields.{truth_in};
ghost use Rattle.vortex_parquet.specs.Reading.{Gives};

use crate::compact::{self, Kind};
use crate::fault::{Fault, ReadError};
use crate::skip::{DEPTH, skip};
use std::alloc::Global;

/// A field of a struct, with the bytes from its value on.
#[derive(Clone, Copy, Debug)]
pub struct Field<'a> {
    pub id: u16,
    pub kind: Kind,
    pub from: &'a [u8],
}

/// A list that is not read yet: how many items it has, and the bytes from the first one on.
#[derive(Clone, Copy, Debug)]
pub struct Items<'a> {
    pub count: usize,
    pub from: &'a [u8],
}

/// Returns the fields of the struct with which the bytes begin, in order, and the bytes behind it.
pub fn struct_of(alloc: Global, bytes: &[u8]) -> Result<(Vec<Field<'_>>, &[u8]), ReadError>
    ensures { Gives (λ x. (field_views x.0.items, x.1.now)) result (struct_of bytes.now) }
{
    let mut fields = Vec::new(alloc);
    let mut last = 0;
    let mut rest = bytes;
    for _ in 0..bytes.len() {
        let (head, from) = compact::field_head(last, rest)?;
        let Some(head) = head else {
            return Ok((fields, from));
        };
        rest = skip(DEPTH, head.kind, from)?;
        last = head.id;
        fields.push(Field {
            id: head.id,
            kind: head.kind,
            from,
        })?;
    }
    Err(ReadError::Fault(Fault::Short))
}

/// Returns the bytes from each of so many structs on.
pub fn spans(alloc: Global, count: usize, bytes: &[u8]) -> Result<Vec<&[u8]>, ReadError>
    ensures { Gives (λ spans. map (λ s. s.now) spans.items) result (spans_in count bytes.now) }
{
    let mut spans = Vec::new(alloc);
    let mut rest = bytes;
    for _ in 0..count {
        spans.push(rest)?;
        rest = skip(DEPTH - 1, Kind::Struct, rest)?;
    }
    Ok(spans)
}

// The items of the list with which the bytes begin; none if they are of another kind.
#[tactic(auto, unfolding(crate::specs::Fields::items_of))]
fn items_of(kind: Kind, bytes: &[u8]) -> Result<Items<'_>, ReadError>
    ensures { Gives items_view result (items_of kind bytes.now) }
{
    let (head, from) = compact::list_head(bytes)?;
    match head {
        Some(head) if head.kind == kind => Ok(Items {
            count: head.count,
            from,
        }),
        _ => Ok(Items { count: 0, from }),
    }
}

// A field's bytes if it is of an identifier and a kind, or else what was there before.
fn pick<'a>(field: &Field<'a>, id: u16, kind: Kind, before: Option<&'a [u8]>) -> Option<&'a [u8]>
    ensures { option_copied result
        ≡ pick (field_view field.now) id kind (option_copied before.entry) }
{
    if field.id == id && field.kind == kind {
        return Some(field.from);
    }
    before
}

/// The bytes from the value on of the last field of an identifier and a kind.
pub fn found<'a>(fields: &[Field<'a>], id: u16, kind: Kind) -> Option<&'a [u8]>
    ensures { option_copied result ≡ found (field_views fields.now) id kind }
{
    let mut from = None;
    for field in fields {
        from = pick(field, id, kind, from);
    }
    from
}

/// The string of bytes in a field, if it is there.
#[tactic(auto, unfolding(crate::specs::Fields::binary_in))]
pub fn binary_in<'a>(fields: &[Field<'a>], id: u16) -> Result<Option<&'a [u8]>, ReadError>
    ensures { Gives option_copied result (binary_in (field_views fields.now) id) }
{
    match found(fields, id, Kind::Binary) {
        None => Ok(None),
        Some(from) => Ok(Some(compact::binary(from)?.0)),
    }
}

/// The number in a field of a kind, before its sign is taken out of it, if it is there.
#[tactic(auto, unfolding(crate::specs::Fields::number_in))]
pub fn number_in(fields: &[Field<'_>], id: u16, kind: Kind) -> Result<Option<u64>, ReadError>
    ensures { Gives (λ o. o) result (number_in (field_views fields.now) id kind) }
{
    match found(fields, id, kind) {
        None => Ok(None),
        Some(from) => Ok(Some(compact::varint(from)?.0)),
    }
}

/// Returns a number whose sign is its lowest bit, if it is there and not below 0.
pub(crate) fn natural_of(number: Option<u64>) -> Option<u64>
    ensures { result ≡ natural_of number }
{
    match number {
        Some(number) if number % 2 == 0 => Some(number / 2),
        _ => None,
    }
}

/// The number in a field of a kind, if it is there and not below 0.
#[tactic(auto, unfolding(crate::specs::Fields::natural_in))]
pub fn natural_in(fields: &[Field<'_>], id: u16, kind: Kind) -> Result<Option<u64>, ReadError>
    ensures { Gives (λ o. o) result (natural_in (field_views fields.now) id kind) }
{
    let number = number_in(fields, id, kind)?;
    Ok(natural_of(number))
}

/// The byte in a field, if it is there.
#[tactic(auto, unfolding(crate::specs::Fields::byte_in))]
pub fn byte_in(fields: &[Field<'_>], id: u16) -> Option<u8>
    ensures { result ≡ byte_in (field_views fields.now) id }
{
    match found(fields, id, Kind::Byte) {
        Some([byte, ..]) => Some(*byte),
        _ => None,
    }
}

/// Whether a field is told to be true, and never to be false.
#[tactic(auto, unfolding(crate::specs::Fields::is_told))]
pub fn is_told(fields: &[Field<'_>], id: u16) -> bool
    ensures { result ≡ is_told (field_views fields.now) id }
{
    found(fields, id, Kind::True).is_some() && found(fields, id, Kind::False).is_none()
}

/// Returns what a field is told to be, true or false; none if it isn't told, or told to be both.
#[tactic(auto, unfolding(crate::specs::Fields::truth_in))]
pub fn truth_in(fields: &[Field<'_>], id: u16) -> Option<bool>
    ensures { result ≡ truth_in (field_views fields.now) id }
{
    let is_true = found(fields, id, Kind::True).is_some();
    let is_false = found(fields, id, Kind::False).is_some();
    match (is_true, is_false) {
        (true, false) => Some(true),
        (false, true) => Some(false),
        _ => None,
    }
}

/// Returns the list in a field of items of a kind; none if it isn't there.
#[tactic(auto, unfolding(crate::specs::Fields::items_in))]
pub fn items_in<'a>(fields: &[Field<'a>], id: u16, kind: Kind) -> Result<Items<'a>, ReadError>
    ensures { Gives items_view result (items_in (field_views fields.now) id kind) }
{
    match found(fields, id, Kind::List) {
        None => Ok(Items {
            count: 0,
            from: &[],
        }),
        Some(from) => items_of(kind, from),
    }
}
