//! The data pages of a file, by its offset indexes: which rows stand in each, and where its bytes
//! stand.
ghost use Rattle.std.specs.Prelude.{◌<◌, length, map, option_copied};
ghost use Rattle.vortex_parquet.specs.DataPages as spec;
ghost use Rattle.vortex_parquet.specs.GroupPages.{tail_view};
ghost use Rattle.vortex_parquet.specs.Reading.{Gives};
ghost use Rattle.vortex_parquet.specs.Records.{file_view, row_group_view};

use crate::fault::{Fault, ReadError};
use crate::group_pages::{FileTail, bytes_at};
use crate::offset_index::{PageLocation, offset_index_of, places_of};
use crate::pages::first_at;
use crate::records::{FileMetaData, RowGroup, row_group_of};
use std::alloc::Global;

/// A data page of a file: the place of its row group, that of its column among all leaf columns,
/// its first row, counted from the first of the row group, the row behind its last one, its offset
/// in the file, and how many bytes it takes there: `vortex_data_page` of the header of C.
#[repr(C)]
#[derive(Clone, Copy, Debug, PartialEq, Eq)]
pub struct DataPage {
    pub group: usize,
    pub column: usize,
    pub first: u64,
    pub end: u64,
    pub offset: u64,
    pub size: u64,
}

// The page of a location, which ends before a row.
fn data_page(
    group: usize,
    column: usize,
    end: u64,
    location: Option<&PageLocation>,
) -> Result<DataPage, ReadError>
    ensures { Gives (λ p. p) result
        (spec.data_page group column end (option_copied location.entry)) }
{
    let Some(location) = location else {
        return Err(ReadError::Fault(Fault::Pages));
    };
    if end <= location.first_row {
        return Err(ReadError::Fault(Fault::Pages));
    }
    Ok(DataPage {
        group,
        column,
        first: location.first_row,
        end,
        offset: location.offset,
        size: location.size,
    })
}

// The page at a place, which ends where the next begins.
#[tactic(auto, unfolding(crate::specs::DataPages::data_page_at))]
fn data_page_at(
    group: usize,
    column: usize,
    rows: u64,
    locations: &[PageLocation],
    place: usize,
) -> Result<DataPage, ReadError>
    requires { place < length locations.now }
    ensures { Gives (λ p. p) result
        (spec.data_page_at group column rows locations.now place) }
{
    let end = first_at(rows, locations, place + 1);
    data_page(group, column, end, locations.get(place))
}

fn located_pages(
    alloc: Global,
    group: usize,
    column: usize,
    rows: u64,
    locations: &[PageLocation],
) -> Result<Vec<DataPage>, ReadError>
    ensures { Gives (λ v. v.items) result (spec.located_pages group column rows locations.now) }
{
    let mut pages = Vec::with_capacity(alloc, locations.len())?;
    for place in 0..locations.len() {
        let page = data_page_at(group, column, rows, locations, place)?;
        pages.push(page)?;
    }
    Ok(pages)
}

// The pages of an offset index, or none where it isn't known.
#[tactic(auto, unfolding(crate::specs::DataPages::indexed_pages))]
fn indexed_pages(
    alloc: Global,
    group: usize,
    column: usize,
    rows: u64,
    offsets: Option<&[u8]>,
) -> Result<Vec<DataPage>, ReadError>
    ensures { Gives (λ v. v.items) result
        (spec.indexed_pages group column rows (option_copied offsets.entry)) }
{
    let Some(offsets) = offsets else {
        return Ok(Vec::new(alloc));
    };
    let locations = offset_index_of(alloc, offsets)?;
    if first_at(rows, &locations, 0) != 0 {
        return Err(ReadError::Fault(Fault::Pages));
    }
    located_pages(alloc, group, column, rows, &locations)
}

// The pages of the column chunk with which the bytes begin.
#[tactic(auto, unfolding(crate::specs::DataPages::chunk_pages))]
fn chunk_pages(
    alloc: Global,
    tail: FileTail<'_>,
    group: usize,
    rows: u64,
    column: usize,
    chunk: &[u8],
) -> Result<Vec<DataPage>, ReadError>
    ensures { Gives (λ v. v.items) result
        (spec.chunk_pages (tail_view tail.entry) group rows column chunk.now) }
{
    let places = places_of(alloc, chunk)?;
    let offsets = bytes_at(tail, places.offset_index, places.offset_index_length);
    indexed_pages(alloc, group, column, rows, offsets)
}

fn chunks_pages(
    alloc: Global,
    tail: FileTail<'_>,
    group: usize,
    rows: u64,
    chunks: &[&[u8]],
) -> Result<Vec<DataPage>, ReadError>
    ensures { Gives (λ v. v.items) result (spec.chunks_pages (tail_view tail.entry) group rows 0
        (map (λ s. s.now) chunks.now)) }
{
    let mut pages = Vec::new(alloc);
    for column in 0..chunks.len() {
        let mut found = chunk_pages(alloc, tail, group, rows, column, chunks[column])?;
        pages.append(&mut found)?;
    }
    Ok(pages)
}

// The pages of a row group, of a file with so many leaf columns.
fn group_pages(
    alloc: Global,
    tail: FileTail<'_>,
    columns: usize,
    group: usize,
    read: &RowGroup<'_>,
) -> Result<Vec<DataPage>, ReadError>
    ensures { Gives (λ v. v.items) result (spec.group_pages (tail_view tail.entry) columns group
        (row_group_view read.now)) }
{
    if read.columns.len() != columns {
        return Err(ReadError::Fault(Fault::Columns));
    }
    chunks_pages(alloc, tail, group, read.rows, &read.columns)
}

// The pages of the row group with which the bytes begin, and the bytes behind it.
#[tactic(auto, unfolding(crate::specs::DataPages::group_pages_at))]
fn group_pages_at<'a>(
    alloc: Global,
    tail: FileTail<'_>,
    columns: usize,
    group: usize,
    bytes: &'a [u8],
) -> Result<(Vec<DataPage>, &'a [u8]), ReadError>
    ensures { Gives (λ x. (x.0.items, x.1.now)) result
        (spec.group_pages_at (tail_view tail.entry) columns group bytes.now) }
{
    let (read, rest) = row_group_of(alloc, bytes)?;
    let pages = group_pages(alloc, tail, columns, group, &read)?;
    Ok((pages, rest))
}

// The pages of so many row groups, one behind the other.
fn groups_pages(
    alloc: Global,
    tail: FileTail<'_>,
    columns: usize,
    count: usize,
    bytes: &[u8],
) -> Result<Vec<DataPage>, ReadError>
    ensures { Gives (λ v. v.items) result
        (spec.groups_pages (tail_view tail.entry) columns 0 count bytes.now) }
{
    let mut pages = Vec::new(alloc);
    let mut rest = bytes;
    for group in 0..count {
        let (mut found, after) = group_pages_at(alloc, tail, columns, group, rest)?;
        pages.append(&mut found)?;
        rest = after;
    }
    Ok(pages)
}

/// Returns the data pages of a file with so many leaf columns, as far as its offset indexes are
/// among its last bytes: row group by row group, and in each column by column.
///
/// `Columns` if a row group has another number of column chunks, and `Pages` if the first rows of
/// an offset index don't ascend from 0 to below the number of rows.
#[tactic(auto, unfolding(crate::specs::DataPages::data_pages))]
pub fn data_pages(
    alloc: Global,
    tail: FileTail<'_>,
    columns: usize,
    file: &FileMetaData<'_>,
) -> Result<Vec<DataPage>, ReadError>
    ensures { Gives (λ v. v.items) result
        (spec.data_pages (tail_view tail.entry) columns (file_view file.now)) }
{
    let groups = file.groups;
    groups_pages(alloc, tail, columns, groups.count, groups.from)
}
