//! The pages of the column chunks of a row group, from the last bytes of its file.
ghost use Rattle.std.specs.Prelude.{◌≡◌, map, option_copied};
ghost use Rattle.vortex_parquet.specs.GroupPages as spec;
ghost use Rattle.vortex_parquet.specs.Pages.{page_view};
ghost use Rattle.vortex_parquet.specs.Reading.{Gives};
ghost use Rattle.vortex_parquet.specs.Records.{statistics_views};

use crate::column_index::column_index_of;
use crate::columns::Leaf;
use crate::fault::ReadError;
use crate::offset_index::{offset_index_of, places_of};
use crate::pages::{Page, one_page, pages_of};
use crate::records::{Statistics, chunk_of, is_number};
use crate::stats::statistics_by;
use std::alloc::Global;
use vortex_base::types::Nullability;

/// The last bytes of a file: those from a place on.
#[derive(Clone, Copy, Debug)]
pub struct FileTail<'a> {
    pub begin: u64,
    pub bytes: &'a [u8],
}

// So many bytes from one on, if there are so many.
fn cut_out(bytes: &[u8], from: u64, length: u64) -> Option<&[u8]>
    ensures { option_copied result ≡ spec.cut_out bytes.now from length }
{
    let len = bytes.len() as u64;
    if from > len {
        return None;
    }
    if length > len - from {
        return None;
    }
    let (_, rest) = bytes.split_at(from as usize);
    let (found, _) = rest.split_at(length as usize);
    Some(found)
}

/// Returns so many bytes of the file from a place on, if they are known and among the last ones.
pub(crate) fn bytes_at<'a>(
    tail: FileTail<'a>,
    place: Option<u64>,
    length: Option<u64>,
) -> Option<&'a [u8]>
    ensures { option_copied result ≡ spec.bytes_at (spec.tail_view tail.entry) place length }
{
    let place = place?;
    let length = length?;
    if place < tail.begin {
        return None;
    }
    cut_out(tail.bytes, place - tail.begin, length)
}

// The pages by both indexes, or the one page for which the column chunk is taken where one is
// missing.
#[tactic(auto, unfolding(crate::specs::GroupPages::indexed))]
fn indexed<'a>(
    alloc: Global,
    rows: u64,
    nullability: Nullability,
    statistics: Option<Statistics<'a>>,
    index: Option<&'a [u8]>,
    offsets: Option<&'a [u8]>,
) -> Result<Vec<Page<'a>>, ReadError>
    ensures { Gives (λ v. map page_view v.items) result
        (spec.indexed rows nullability (statistics_views statistics.entry)
        (option_copied index.entry) (option_copied offsets.entry)) }
{
    match (index, offsets) {
        (Some(index), Some(offsets)) => {
            let index = column_index_of(alloc, index)?;
            let locations = offset_index_of(alloc, offsets)?;
            pages_of(alloc, rows, nullability, &index, &locations)
        }
        _ => Ok(one_page(alloc, rows, statistics)?),
    }
}

/// Returns the pages of the column chunk of so many rows with which the bytes begin, by its indexes
/// if both are among the last bytes of the file. Without them the chunk is one page with its
/// statistics, and one without statistics where it is told to be of another physical type than the
/// column of the schema.
#[tactic(auto, unfolding(crate::specs::GroupPages::leaf_pages))]
pub fn leaf_pages<'a>(
    alloc: Global,
    tail: FileTail<'a>,
    rows: u64,
    leaf: Leaf,
    chunk: &'a [u8],
) -> Result<Vec<Page<'a>>, ReadError>
    ensures { Gives (λ v. map page_view v.items) result
        (spec.leaf_pages (spec.tail_view tail.entry) rows leaf chunk.now) }
{
    let places = places_of(alloc, chunk)?;
    let chunk = chunk_of(alloc, chunk)?;
    if !is_number(leaf.physical, chunk.physical) {
        return Ok(one_page(alloc, rows, None)?);
    }
    let index = bytes_at(tail, places.column_index, places.column_index_length);
    let offsets = bytes_at(tail, places.offset_index, places.offset_index_length);
    let statistics = statistics_by(leaf.nullability, chunk.statistics);
    indexed(alloc, rows, leaf.nullability, statistics, index, offsets)
}
