//! The pages of the columns that are read, of each row group of a file.
ghost use Rattle.std.specs.Prelude.{map, slice_get};
ghost use Rattle.vortex_parquet.specs.Fields.{many};
ghost use Rattle.vortex_parquet.specs.GroupPages.{tail_view};
ghost use Rattle.vortex_parquet.specs.Pages.{page_view};
ghost use Rattle.vortex_parquet.specs.Reading.{Gives};
ghost use Rattle.vortex_parquet.specs.Records.{file_view, row_group_view};
ghost use Rattle.vortex_parquet.specs.Stats.{all_of};
ghost use Rattle.vortex_predicates.specs.Footers.PagedGroups as spec;

use std::alloc::Global;
use vortex_parquet::columns::{Form, Leaf};
use vortex_parquet::group_pages::{FileTail, leaf_pages};
use vortex_parquet::pages::{Page, one_page};
use vortex_parquet::records::{FileMetaData, RowGroup, row_group_of};
use vortex_parquet::stats::is_true_at;
use vortex_parquet::{Fault, ReadError};

/// The pages of a leaf column of a row group, how their bounds are read, and whether these are in
/// the order of the column's type.
#[derive(Debug, Drop)]
pub(crate) struct LeafPages<'a> {
    pub(crate) form: Form,
    pub(crate) is_ordered: bool,
    pub(crate) pages: Vec<Page<'a>>,
}

/// A row group: the number of its rows, and the pages of each leaf column that is read.
#[derive(Debug, Drop)]
pub(crate) struct GroupPages<'a> {
    pub(crate) rows: u64,
    pub(crate) columns: Vec<LeafPages<'a>>,
}

// The pages of a leaf column of so many rows. A column that has no chunk is one page of which
// nothing is known.
#[tactic(auto, unfolding(crate::specs::Footers::PagedGroups::chunk_pages))]
fn chunk_pages<'a>(
    alloc: Global,
    tail: FileTail<'a>,
    rows: u64,
    leaf: Leaf,
    chunks: &[&'a [u8]],
) -> Result<Vec<Page<'a>>, ReadError>
    ensures { Gives (λ v. map page_view v.items) result (spec.chunk_pages (tail_view tail.entry)
        rows leaf (slice_get (map (λ s. s.now) chunks.now) leaf.place)) }
{
    if leaf.place >= chunks.len() {
        return Ok(one_page(alloc, rows, None)?);
    }
    leaf_pages(alloc, tail, rows, leaf, chunks[leaf.place])
}

#[tactic(auto, unfolding(crate::specs::Footers::PagedGroups::leaf_column))]
fn leaf_column<'a>(
    alloc: Global,
    tail: FileTail<'a>,
    orders: &[bool],
    group: &RowGroup<'a>,
    leaf: Leaf,
) -> Result<LeafPages<'a>, ReadError>
    ensures { Gives spec.leaf_view result (spec.leaf_column (tail_view tail.entry) orders.now
        (row_group_view group.now) leaf) }
{
    let is_ordered = is_true_at(orders, leaf.place);
    let pages = chunk_pages(alloc, tail, group.rows, leaf, &group.columns)?;
    Ok(LeafPages {
        form: leaf.form,
        is_ordered,
        pages,
    })
}

fn leaf_columns<'a>(
    alloc: Global,
    tail: FileTail<'a>,
    orders: &[bool],
    group: &RowGroup<'a>,
    leaves: &[Leaf],
) -> Result<Vec<LeafPages<'a>>, ReadError>
    ensures { Gives (λ v. map spec.leaf_view v.items) result (all_of (spec.leaf_column
        (tail_view tail.entry) orders.now (row_group_view group.now)) leaves.now) }
{
    let mut columns = Vec::with_capacity(alloc, leaves.len())?;
    for leaf in leaves {
        let column = leaf_column(alloc, tail, orders, group, *leaf)?;
        columns.push(column)?;
    }
    Ok(columns)
}

// The pages of a row group, of a file with so many leaf columns.
#[tactic(auto, unfolding(crate::specs::Footers::PagedGroups::paged_of))]
fn paged_of<'a>(
    alloc: Global,
    tail: FileTail<'a>,
    leaves: &[Leaf],
    count: usize,
    orders: &[bool],
    group: &RowGroup<'a>,
) -> Result<GroupPages<'a>, ReadError>
    ensures { Gives spec.paged_view result (spec.paged_of (tail_view tail.entry) leaves.now count
        orders.now (row_group_view group.now)) }
{
    if group.columns.len() != count {
        return Err(ReadError::Fault(Fault::Columns));
    }
    let columns = leaf_columns(alloc, tail, orders, group, leaves)?;
    Ok(GroupPages {
        rows: group.rows,
        columns,
    })
}

// The pages of so many row groups in a row, of a file with so many leaf columns.
fn paged_in<'a>(
    alloc: Global,
    tail: FileTail<'a>,
    leaves: &[Leaf],
    columns: usize,
    orders: &[bool],
    count: usize,
    bytes: &'a [u8],
) -> Result<Vec<GroupPages<'a>>, ReadError>
    ensures { Gives (λ v. map spec.paged_view v.items) result (many (spec.paged_at
        (tail_view tail.entry) leaves.now columns orders.now) count bytes.now) }
{
    let mut paged = Vec::new(alloc);
    let mut rest = bytes;
    for _ in 0..count {
        let (group, after) = row_group_of(alloc, rest)?;
        let found = paged_of(alloc, tail, leaves, columns, orders, &group)?;
        paged.push(found)?;
        rest = after;
    }
    Ok(paged)
}

/// Returns the pages of each row group of a file with so many leaf columns, of which these are
/// read, from the last bytes of the file.
#[tactic(auto, unfolding(crate::specs::Footers::PagedGroups::paged_groups))]
pub(crate) fn paged_groups<'a>(
    alloc: Global,
    tail: FileTail<'a>,
    leaves: &[Leaf],
    count: usize,
    file: &FileMetaData<'a>,
) -> Result<Vec<GroupPages<'a>>, ReadError>
    ensures { Gives (λ v. map spec.paged_view v.items) result (spec.paged_groups
        (tail_view tail.entry) leaves.now count (file_view file.now)) }
{
    let groups = file.groups;
    paged_in(
        alloc,
        tail,
        leaves,
        count,
        &file.orders,
        groups.count,
        groups.from,
    )
}
