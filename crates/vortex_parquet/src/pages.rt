//! The pages of a column chunk: which rows stand in each, and its statistics.
ghost use Rattle.std.specs.Prelude.{◌≡◌, ◌<◌, IfOk, length, map, option_copied, slice_get};
ghost use Rattle.vortex_parquet.specs.PageIndex.{index_view};
ghost use Rattle.vortex_parquet.specs.Pages as spec;
ghost use Rattle.vortex_parquet.specs.Reading.{Gives};
ghost use Rattle.vortex_parquet.specs.Records.{statistics_view, statistics_views};

use crate::column_index::ColumnIndex;
use crate::fault::{Fault, ReadError};
use crate::offset_index::PageLocation;
use crate::records::Statistics;
use crate::stats::{is_true_at, nulls_of};
use std::alloc::{AllocError, Global};
use vortex_base::types::Nullability;

/// A page of a column chunk: its first row, counted from the first of the row group, the row behind
/// its last one, and its statistics.
#[derive(Clone, Copy, Debug)]
pub struct Page<'a> {
    pub first: u64,
    pub end: u64,
    pub statistics: Statistics<'a>,
}

// The statistics of so many rows that are all null.
fn all_null<'a>(rows: u64) -> Statistics<'a>
    ensures { statistics_view result ≡ spec.all_null rows }
{
    Statistics {
        old_max: None,
        old_min: None,
        null_count: Some(rows),
        max: None,
        min: None,
        is_max_exact: false,
        is_min_exact: false,
    }
}

// The statistics of a page with values. Its bounds may be cut short, so none is exact.
fn bounded<'a>(
    min: Option<&'a [u8]>,
    max: Option<&'a [u8]>,
    null_count: Option<u64>,
) -> Statistics<'a>
    ensures { statistics_view result
        ≡ spec.bounded (option_copied min.entry) (option_copied max.entry) null_count }
{
    Statistics {
        old_max: None,
        old_min: None,
        null_count,
        max,
        min,
        is_max_exact: false,
        is_min_exact: false,
    }
}

fn string_at<'a>(strings: &[&'a [u8]], place: usize) -> Option<&'a [u8]>
    ensures { option_copied result ≡ slice_get (map (λ s. s.now) strings.now) place }
{
    if place >= strings.len() {
        return None;
    }
    Some(strings[place])
}

// A number of nulls, if it is known. More than there are rows is none.
fn nulls_at(counts: &[Option<u64>], place: usize, rows: u64) -> Option<u64>
    ensures { result ≡ spec.at_most rows (spec.or_none (slice_get counts.now place)) }
{
    match counts.get(place) {
        Some(Some(count)) if *count <= rows => Some(*count),
        _ => None,
    }
}

// The statistics of the page at a place, which has so many rows. A null page has no bounds,
// whatever bytes stand in their places. A page of a column without nulls has none.
fn statistics_at<'a>(
    nullability: Nullability,
    index: &ColumnIndex<'a>,
    place: usize,
    rows: u64,
) -> Statistics<'a>
    ensures { statistics_view result
        ≡ spec.statistics_at nullability (index_view index.now) place rows }
{
    if is_true_at(&index.null_pages, place) {
        return all_null(rows);
    }
    let null_count = nulls_of(nullability, nulls_at(&index.null_counts, place, rows));
    let min = string_at(&index.mins, place);
    let max = string_at(&index.maxes, place);
    bounded(min, max, null_count)
}

/// Returns the first row of the page at a place. Behind the last page stands the end of the row
/// group.
pub(crate) fn first_at(rows: u64, locations: &[PageLocation], place: usize) -> u64
    ensures { result ≡ spec.first_at rows locations.now place }
{
    match locations.get(place) {
        Some(location) => location.first_row,
        None => rows,
    }
}

// The page at a place, which ends where the next begins.
#[tactic(auto, unfolding(crate::specs::Pages::page_at))]
fn page_at<'a>(
    rows: u64,
    nullability: Nullability,
    index: &ColumnIndex<'a>,
    locations: &[PageLocation],
    place: usize,
) -> Result<Page<'a>, ReadError>
    requires { place < length locations.now }
    ensures { Gives spec.page_view result
        (spec.page_at rows nullability (index_view index.now) locations.now place) }
{
    let first = first_at(rows, locations, place);
    let end = first_at(rows, locations, place + 1);
    if end <= first {
        return Err(ReadError::Fault(Fault::Pages));
    }
    let statistics = statistics_at(nullability, index, place, end - first);
    Ok(Page {
        first,
        end,
        statistics,
    })
}

fn pages_in<'a>(
    alloc: Global,
    rows: u64,
    nullability: Nullability,
    index: &ColumnIndex<'a>,
    locations: &[PageLocation],
) -> Result<Vec<Page<'a>>, ReadError>
    ensures { Gives (λ v. map spec.page_view v.items) result
        (spec.pages_in rows nullability (index_view index.now) locations.now) }
{
    let mut pages = Vec::new(alloc);
    for place in 0..locations.len() {
        let page = page_at(rows, nullability, index, locations, place)?;
        pages.push(page)?;
    }
    Ok(pages)
}

// Whether the index tells of so many pages.
fn has_length(index: &ColumnIndex<'_>, count: usize) -> bool
    ensures { result ≡ spec.has_length (index_view index.now) count }
{
    index.null_pages.len() == count
        && index.mins.len() == count
        && index.maxes.len() == count
        && (index.null_counts.is_empty() || index.null_counts.len() == count)
}

/// Returns the pages of a column chunk of so many rows, by its column index and its offset index.
/// Gives each page of a column that the schema has without nulls a null count of 0, whether or not
/// the index tells it.
///
/// `Pages` if the lists of these are of unequal lengths, or if the first rows don't ascend from 0
/// to below the number of rows.
#[tactic(auto, unfolding(crate::specs::Pages::pages_of))]
pub fn pages_of<'a>(
    alloc: Global,
    rows: u64,
    nullability: Nullability,
    index: &ColumnIndex<'a>,
    locations: &[PageLocation],
) -> Result<Vec<Page<'a>>, ReadError>
    ensures { Gives (λ v. map spec.page_view v.items) result
        (spec.pages_of rows nullability (index_view index.now) locations.now) }
{
    if !has_length(index, locations.len()) {
        return Err(ReadError::Fault(Fault::Pages));
    }
    if first_at(rows, locations, 0) != 0 {
        return Err(ReadError::Fault(Fault::Pages));
    }
    pages_in(alloc, rows, nullability, index, locations)
}

fn or_nothing(statistics: Option<Statistics<'_>>) -> Statistics<'_>
    ensures { statistics_view result ≡ spec.or_nothing (statistics_views statistics.entry) }
{
    match statistics {
        Some(statistics) => statistics,
        None => bounded(None, None, None),
    }
}

/// Returns the one page for which a column chunk of so many rows is taken that has no page index:
/// it has the statistics of the column chunk, if there are any.
pub fn one_page<'a>(
    alloc: Global,
    rows: u64,
    statistics: Option<Statistics<'a>>,
) -> Result<Vec<Page<'a>>, AllocError>
    ensures { IfOk result (λ v. map spec.page_view v.items
        ≡ spec.one_page rows (statistics_views statistics.entry)) }
{
    let mut pages = Vec::new(alloc);
    if rows != 0 {
        pages.push(Page {
            first: 0,
            end: rows,
            statistics: or_nothing(statistics),
        })?;
    }
    Ok(pages)
}
