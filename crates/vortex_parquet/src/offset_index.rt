//! Where the pages of a column chunk stand: the offset index of a column, and where in the file a
//! column chunk has its indexes.
ghost use Rattle.vortex_parquet.specs.Fields.{many};
ghost use Rattle.vortex_parquet.specs.PageIndex as spec;
ghost use Rattle.vortex_parquet.specs.Reading.{Gives};

use crate::compact::Kind;
use crate::fault::ReadError;
use crate::fields::{items_in, natural_in, struct_of};
use crate::records::required;
use std::alloc::Global;

/// Where a page stands: its offset in the file, how many bytes it takes there, and its first row,
/// counted from the first of the row group.
#[derive(Clone, Copy, Debug, PartialEq, Eq)]
pub struct PageLocation {
    pub offset: u64,
    pub size: u64,
    pub first_row: u64,
}

/// Where the indexes of a column chunk stand in the file, as far as the footer tells.
#[derive(Clone, Copy, Debug, PartialEq, Eq)]
pub struct IndexPlaces {
    pub offset_index: Option<u64>,
    pub offset_index_length: Option<u64>,
    pub column_index: Option<u64>,
    pub column_index_length: Option<u64>,
}

/// Returns where the indexes of the column chunk with which the bytes begin stand.
#[tactic(auto, unfolding(crate::specs::PageIndex::places_of))]
pub fn places_of(alloc: Global, bytes: &[u8]) -> Result<IndexPlaces, ReadError>
    ensures { Gives (λ p. p) result (spec.places_of bytes.now) }
{
    let (fields, _) = struct_of(alloc, bytes)?;
    let offset_index = natural_in(&fields, 4, Kind::I64)?;
    let offset_index_length = natural_in(&fields, 5, Kind::I32)?;
    let column_index = natural_in(&fields, 6, Kind::I64)?;
    let column_index_length = natural_in(&fields, 7, Kind::I32)?;
    Ok(IndexPlaces {
        offset_index,
        offset_index_length,
        column_index,
        column_index_length,
    })
}

#[tactic(auto, unfolding(crate::specs::PageIndex::location_of))]
fn location_of(alloc: Global, bytes: &[u8]) -> Result<(PageLocation, &[u8]), ReadError>
    ensures { Gives (λ x. (x.0, x.1.now)) result (spec.location_of bytes.now) }
{
    let (fields, rest) = struct_of(alloc, bytes)?;
    let number = natural_in(&fields, 1, Kind::I64)?;
    let offset = required(number)?;
    let number = natural_in(&fields, 2, Kind::I32)?;
    let size = required(number)?;
    let number = natural_in(&fields, 3, Kind::I64)?;
    let first_row = required(number)?;
    let location = PageLocation {
        offset,
        size,
        first_row,
    };
    Ok((location, rest))
}

fn locations_of(alloc: Global, count: usize, bytes: &[u8]) -> Result<Vec<PageLocation>, ReadError>
    ensures { Gives (λ v. v.items) result (many spec.location_of count bytes.now) }
{
    let mut locations = Vec::new(alloc);
    let mut rest = bytes;
    for _ in 0..count {
        let (location, after) = location_of(alloc, rest)?;
        locations.push(location)?;
        rest = after;
    }
    Ok(locations)
}

/// Reads the offset index with which the bytes begin: where each page of a column chunk stands.
#[tactic(auto, unfolding(crate::specs::PageIndex::offset_index_of))]
pub fn offset_index_of(alloc: Global, bytes: &[u8]) -> Result<Vec<PageLocation>, ReadError>
    ensures { Gives (λ v. v.items) result (spec.offset_index_of bytes.now) }
{
    let (fields, _) = struct_of(alloc, bytes)?;
    let list = items_in(&fields, 1, Kind::Struct)?;
    locations_of(alloc, list.count, list.from)
}
