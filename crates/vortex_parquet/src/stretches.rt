//! Stretches of a row group's rows, each of which lies in one page of each column.
ghost use Rattle.std.specs.Prelude.{◌≡◌, IfErr, IfOk, map, true};
ghost use Rattle.vortex_parquet.specs.Pages.{page_view};
ghost use Rattle.vortex_parquet.specs.Records.{statistics_view};
ghost use Rattle.vortex_parquet.specs.Stats.{group_view};
ghost use Rattle.vortex_parquet.specs.Stretches as spec;

use crate::columns::Form;
use crate::fault::{Fault, ReadError};
use crate::pages::Page;
use crate::records::Statistics;
use crate::stats::{GroupStats, set_of};
use std::alloc::{AllocError, Global};
use vortex_stats::stats_set::StatsSet;

/// The pages of a column chunk, how their bounds are read, and whether these are in the order of
/// the column's type.
#[derive(Clone, Copy, Debug)]
pub struct PagedColumn<'a> {
    pub form: Form,
    pub is_ordered: bool,
    pub pages: &'a [Page<'a>],
}

// Whether a page begins at a row, and has a row at least.
fn begins_at(page: &Page<'_>, from: u64) -> bool
    ensures { result ≡ spec.begins_at from (page_view page.now) }
{
    page.first == from && from < page.end
}

// Whether pages stand one behind the other up to the end of so many rows.
fn follow(pages: &[Page<'_>], rows: u64) -> bool
    ensures { result ≡ spec.follow 0 rows (map page_view pages.now) }
{
    let mut from = 0;
    for page in pages {
        if !begins_at(page, from) {
            return false;
        }
        from = page.end;
    }
    from == rows
}

fn all_follow(columns: &[PagedColumn<'_>], rows: u64) -> bool
    ensures { result ≡ spec.all_follow rows (map spec.paged_view columns.now) }
{
    for column in columns {
        if !follow(column.pages, rows) {
            return false;
        }
    }
    true
}

// The number of nulls of so many rows of a page: known where the page has none, where it has no
// other, and where they are all its rows.
fn nulls_within(page_rows: u64, rows: u64, count: Option<u64>) -> Option<u64>
    ensures { result ≡ spec.nulls_within page_rows rows count }
{
    match count {
        None => None,
        Some(count) => {
            if count == 0 || page_rows == rows {
                Some(count)
            } else if count == page_rows {
                Some(rows)
            } else {
                None
            }
        }
    }
}

// Returns the statistics of so many rows of a page. Its bounds need not be values of these.
fn within<'a>(page_rows: u64, rows: u64, statistics: &Statistics<'a>) -> Statistics<'a>
    ensures { statistics_view result
        ≡ spec.within page_rows rows (statistics_view statistics.now) }
{
    let s = *statistics;
    Statistics {
        old_max: s.old_max,
        old_min: s.old_min,
        null_count: nulls_within(page_rows, rows, s.null_count),
        max: s.max,
        min: s.min,
        is_max_exact: false,
        is_min_exact: false,
    }
}

// A row, or the end of the first page if that comes before it.
fn sooner(end: u64, pages: &[Page<'_>]) -> u64
    ensures { result ≡ spec.sooner end (map page_view pages.now) }
{
    match pages {
        [page, ..] if page.end < end => page.end,
        _ => end,
    }
}

// The first row at which the first page of a column ends, or the end of the rows.
fn next_end(columns: &[PagedColumn<'_>], rows: u64) -> u64
    ensures { result ≡ spec.next_end rows (map spec.paged_view columns.now) }
{
    let mut end = rows;
    for column in columns {
        end = sooner(end, column.pages);
    }
    end
}

// The set of so many rows of a column's first page.
fn head_set(alloc: Global, column: PagedColumn<'_>, rows: u64) -> Result<StatsSet, AllocError>
    ensures { IfOk result (λ s. s ≡ spec.head_set rows (spec.paged_view column.entry)) }
{
    match column.pages {
        [] => Ok(StatsSet::new(alloc)),
        [page, ..] => {
            let page_rows = page.end.saturating_sub(page.first);
            let statistics = within(page_rows, rows, &page.statistics);
            set_of(alloc, column.form, column.is_ordered, &statistics)
        }
    }
}

fn head_sets(
    alloc: Global,
    columns: &[PagedColumn<'_>],
    rows: u64,
) -> Result<Vec<StatsSet>, AllocError>
    ensures { IfOk result (λ v.
        v.items ≡ map (spec.head_set rows) (map spec.paged_view columns.now)) }
{
    let mut sets = Vec::with_capacity(alloc, columns.len())?;
    for place in 0..columns.len() {
        sets.push(head_set(alloc, columns[place], rows)?)?;
    }
    Ok(sets)
}

// A column without its first page, if that ends at the row.
fn behind<'a>(column: PagedColumn<'a>, row: u64) -> PagedColumn<'a>
    ensures { spec.paged_view result ≡ spec.behind row (spec.paged_view column.entry) }
{
    match column.pages {
        [page, pages @ ..] if page.end == row => PagedColumn {
            form: column.form,
            is_ordered: column.is_ordered,
            pages,
        },
        _ => column,
    }
}

// Takes away the first pages that end at the row.
fn advance(columns: &mut [PagedColumn<'_>], row: u64)
    ensures { map spec.paged_view columns.new
        ≡ map (spec.behind row) (map spec.paged_view columns.old) }
{
    for place in 0..columns.len() {
        columns[place] = behind(columns[place], row);
    }
}

// The stretches of columns whose pages stand one behind the other.
fn cut(
    alloc: Global,
    columns: &mut [PagedColumn<'_>],
    rows: u64,
) -> Result<Vec<GroupStats>, AllocError>
    requires { spec.all_follow rows (map spec.paged_view columns.old) ≡ true }
    ensures { IfOk result (λ v.
        spec.AreStretchesOf (map spec.paged_view columns.old) rows (map group_view v.items)) }
{
    let mut stretches = Vec::new(alloc);
    let mut from = 0;
    while from < rows {
        let end = next_end(columns, rows);
        let stats = head_sets(alloc, columns, end - from)?;
        stretches.push(GroupStats {
            rows: end - from,
            size: None,
            stats,
        })?;
        advance(columns, end);
        from = end;
    }
    Ok(stretches)
}

/// Cuts so many rows where a page of a column ends, and returns the stretches between, with the
/// statistics that the pages give them.
///
/// `Pages` if the pages of a column don't stand one behind the other from the first row up to the
/// last.
pub fn stretches_of(
    alloc: Global,
    columns: &[PagedColumn<'_>],
    rows: u64,
) -> Result<Vec<GroupStats>, ReadError>
    // Each stretch lies in one page of each column, whose statistics it has as far as they are
    // those of its rows, and ends where a page does.
    ensures cut { IfOk result (λ v.
        spec.AreStretchesOf (map spec.paged_view columns.now) rows (map group_view v.items)) }
    // Pages that don't stand one behind the other are refused, and no others.
    ensures follow { IfOk result (λ _.
        spec.all_follow rows (map spec.paged_view columns.now) ≡ true) }
    ensures refused { IfErr result (spec.IsRefusal (map spec.paged_view columns.now) rows) }
{
    if !all_follow(columns, rows) {
        return Err(ReadError::Fault(Fault::Pages));
    }
    let mut at = Vec::from_slice(alloc, columns)?;
    let stretches = cut(alloc, &mut at, rows)?;
    Ok(stretches)
}
