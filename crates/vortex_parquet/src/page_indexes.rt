//! Where the page indexes of a file begin.
ghost use Rattle.std.specs.Prelude.{◌≡◌, IfErr, IfOk, map};
ghost use Rattle.vortex_parquet.specs.Fields.{many};
ghost use Rattle.vortex_parquet.specs.PageIndex.{places_of as chunk_places};
ghost use Rattle.vortex_parquet.specs.PageIndexes as spec;
ghost use Rattle.vortex_parquet.specs.Reading.{Fails};
ghost use Rattle.vortex_parquet.specs.Records.{file_view};
ghost use Rattle.vortex_parquet.specs.Stats.{all_of};

use crate::fault::ReadError;
use crate::offset_index::places_of;
use crate::records::{FileMetaData, row_group_of};
use std::alloc::Global;

// Returns the lesser of two offsets, as far as they are there.
fn lesser(left: Option<u64>, right: Option<u64>) -> Option<u64>
    ensures { result ≡ spec.lesser left right }
{
    let Some(offset) = left else {
        return right;
    };
    match right {
        Some(other) => Some(offset.min(other)),
        None => Some(offset),
    }
}

// Returns the least offset of an index of the column chunks, from the bytes of each on.
fn chunks_begin(alloc: Global, chunks: &[&[u8]]) -> Result<Option<u64>, ReadError>
    ensures begin { IfOk result (spec.IsChunksBegin (map (λ s. s.now) chunks.now)) }
    ensures refused { IfErr result
        (λ e. Fails e (all_of chunk_places (map (λ s. s.now) chunks.now))) }
{
    let mut begin = None;
    for chunk in chunks {
        let places = places_of(alloc, chunk)?;
        begin = lesser(begin, lesser(places.column_index, places.offset_index));
    }
    Ok(begin)
}

// Returns the least offset of an index of the row group with which the bytes begin, and the bytes
// behind it.
fn group_begin(alloc: Global, bytes: &[u8]) -> Result<(Option<u64>, &[u8]), ReadError>
    ensures begin { IfOk result (λ found. spec.IsGroupBegin bytes.now found.0 found.1.now) }
    ensures refused { IfErr result (λ e. Fails e (spec.group_places bytes.now)) }
{
    let (group, rest) = row_group_of(alloc, bytes)?;
    let begin = chunks_begin(alloc, &group.columns)?;
    Ok((begin, rest))
}

// Returns the least offset of an index of so many row groups, one behind the other.
fn groups_begin(alloc: Global, count: usize, bytes: &[u8]) -> Result<Option<u64>, ReadError>
    ensures begin { IfOk result (spec.IsGroupsBegin count bytes.now) }
    ensures refused { IfErr result (λ e. Fails e (many spec.group_places count bytes.now)) }
{
    let mut begin = None;
    let mut rest = bytes;
    for _ in 0..count {
        let (found, after) = group_begin(alloc, rest)?;
        begin = lesser(begin, found);
        rest = after;
    }
    Ok(begin)
}

/// Returns the offset in the file at which its first page index begins: the least one that the
/// footer names for the column index or the offset index of a column chunk, or None where it names
/// none.
///
/// `Fault` with the first fault of the row groups and of where the indexes of their column chunks
/// stand.
pub fn indexes_begin(alloc: Global, file: &FileMetaData<'_>) -> Result<Option<u64>, ReadError>
    // No index is named that begins before it, and one begins there.
    ensures begin { IfOk result (spec.IsIndexesBegin (file_view file.now)) }
    // A fault is told only where the footer has it.
    ensures refused { IfErr result (λ e. Fails e (spec.index_places (file_view file.now))) }
{
    let groups = file.groups;
    groups_begin(alloc, groups.count, groups.from)
}
