//! The column index of a column chunk: the bounds and the nulls of each of its pages, as they are
//! written.
ghost use Rattle.std.specs.Prelude.{map};
ghost use Rattle.vortex_parquet.specs.Compact.{binary_at};
ghost use Rattle.vortex_parquet.specs.Fields.{field_views, items_view, many};
ghost use Rattle.vortex_parquet.specs.PageIndex as spec;
ghost use Rattle.vortex_parquet.specs.Reading.{Gives};

use crate::compact::{self, Kind};
use crate::fault::{Fault, ReadError};
use crate::fields::{Field, Items, items_in, struct_of};
use std::alloc::Global;

/// A column index: for each page of a column chunk whether all its rows are null, a lower and an
/// upper bound, and how many nulls it has. A list that the index doesn't have is empty.
#[derive(Debug, Drop)]
pub struct ColumnIndex<'a> {
    pub null_pages: Vec<bool>,
    pub mins: Vec<&'a [u8]>,
    pub maxes: Vec<&'a [u8]>,
    /// None for a number below 0.
    pub null_counts: Vec<Option<u64>>,
}

// A Boolean of a list: 1 stands for true, and 2 for false. Some writers have 0 for false.
#[tactic(auto, unfolding(crate::specs::PageIndex::truth_at))]
fn truth(bytes: &[u8]) -> Result<(bool, &[u8]), ReadError>
    ensures { Gives (λ x. (x.0, x.1.now)) result (spec.truth_at bytes.now) }
{
    match bytes {
        [] => Err(ReadError::Fault(Fault::Short)),
        [byte, rest @ ..] => match *byte {
            1 => Ok((true, rest)),
            0 | 2 => Ok((false, rest)),
            _ => Err(ReadError::Fault(Fault::Kind)),
        },
    }
}

// A number with a sign, or none below 0.
#[tactic(auto, unfolding(crate::specs::PageIndex::count_at))]
fn count(bytes: &[u8]) -> Result<(Option<u64>, &[u8]), ReadError>
    ensures { Gives (λ x. (x.0, x.1.now)) result (spec.count_at bytes.now) }
{
    let (number, rest) = compact::varint(bytes)?;
    if number % 2 == 0 {
        return Ok((Some(number / 2), rest));
    }
    Ok((None, rest))
}

fn truths_of(alloc: Global, count: usize, bytes: &[u8]) -> Result<Vec<bool>, ReadError>
    ensures { Gives (λ v. v.items) result (many spec.truth_at count bytes.now) }
{
    let mut truths = Vec::new(alloc);
    let mut rest = bytes;
    for _ in 0..count {
        let (one, after) = truth(rest)?;
        truths.push(one)?;
        rest = after;
    }
    Ok(truths)
}

fn strings_of(alloc: Global, count: usize, bytes: &[u8]) -> Result<Vec<&[u8]>, ReadError>
    ensures { Gives (λ v. map (λ s. s.now) v.items) result (many binary_at count bytes.now) }
{
    let mut strings = Vec::new(alloc);
    let mut rest = bytes;
    for _ in 0..count {
        let (string, after) = compact::binary(rest)?;
        strings.push(string)?;
        rest = after;
    }
    Ok(strings)
}

fn counts_of(alloc: Global, number: usize, bytes: &[u8]) -> Result<Vec<Option<u64>>, ReadError>
    ensures { Gives (λ v. v.items) result (many spec.count_at number bytes.now) }
{
    let mut counts = Vec::new(alloc);
    let mut rest = bytes;
    for _ in 0..number {
        let (one, after) = count(rest)?;
        counts.push(one)?;
        rest = after;
    }
    Ok(counts)
}

// The list in a field of Booleans, whose kind is that of true or of false.
#[tactic(auto, unfolding(crate::specs::PageIndex::truths_in))]
fn truths_in<'a>(fields: &[Field<'a>], id: u16) -> Result<Items<'a>, ReadError>
    ensures { Gives items_view result (spec.truths_in (field_views fields.now) id) }
{
    let list = items_in(fields, id, Kind::True)?;
    if list.count == 0 {
        return items_in(fields, id, Kind::False);
    }
    Ok(list)
}

/// Reads the column index with which the bytes begin.
#[tactic(auto, unfolding(crate::specs::PageIndex::column_index_of))]
pub fn column_index_of(alloc: Global, bytes: &[u8]) -> Result<ColumnIndex<'_>, ReadError>
    ensures { Gives spec.index_view result (spec.column_index_of bytes.now) }
{
    let (fields, _) = struct_of(alloc, bytes)?;
    let list = truths_in(&fields, 1)?;
    let null_pages = truths_of(alloc, list.count, list.from)?;
    let list = items_in(&fields, 2, Kind::Binary)?;
    let mins = strings_of(alloc, list.count, list.from)?;
    let list = items_in(&fields, 3, Kind::Binary)?;
    let maxes = strings_of(alloc, list.count, list.from)?;
    let list = items_in(&fields, 5, Kind::I64)?;
    let null_counts = counts_of(alloc, list.count, list.from)?;
    Ok(ColumnIndex {
        null_pages,
        mins,
        maxes,
        null_counts,
    })
}
