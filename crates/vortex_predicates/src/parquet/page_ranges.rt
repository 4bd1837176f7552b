//! Prunes the pages of a Parquet file by a condition in SQL.
ghost use Rattle.std.specs.Prelude.{◌≡◌, ◌++◌, IfErr, IfOk, OnOk, Ok, true, length, map, slice_get};
ghost use Rattle.vortex_predicates.specs.Pruning.{skipped_places, whole_places};
ghost use Rattle.vortex_parquet.specs.declared.fault.ReadError.TheVariants as errors;
ghost use Rattle.vortex_parquet.specs.GroupPages.{tail_view};
ghost use Rattle.vortex_parquet.specs.Records.{file_view};
ghost use Rattle.vortex_parquet.specs.Stats.{group_view, groups_of};
ghost use Rattle.vortex_parquet.specs.Stretches.{AreStretchesOf, paged_view as column_view};
ghost use Rattle.vortex_parquet.specs.Stretches.{all_follow};
ghost use Rattle.vortex_predicates.specs.RowGroups.Pruning.{zone_data};
ghost use Rattle.vortex_predicates.specs.Conditions.Conditions.{schema_of};
ghost use Rattle.vortex_predicates.specs.Footers.PagePruning as spec;
ghost use Rattle.vortex_predicates.specs.Footers.PagedGroups.{AreStretchesFrom, AreStretchesIn};
ghost use Rattle.vortex_predicates.specs.Footers.PagedGroups.{all_groups_follow, leaf_view};
ghost use Rattle.vortex_predicates.specs.Footers.PagedGroups.{paged_view, ranges_from, rows_in};
ghost use Rattle.vortex_prune.specs.Scanning.ZoneScans.{zone_verdicts};

use crate::parquet::error::FooterError;
use crate::parquet::footer_condition::{FooterCondition, GroupVerdicts};
use crate::parquet::paged::{GroupPages, LeafPages, paged_groups};
use crate::row_groups::zones::map_of;
use std::alloc::{AllocError, Global};
use vortex_parquet::ReadError;
use vortex_parquet::group_pages::FileTail;
use vortex_parquet::laws::{pages_follow, stretches_are_true};
use vortex_parquet::records::FileMetaData;
use vortex_parquet::stats::GroupStats;
use vortex_parquet::stretches::{PagedColumn, stretches_of};
use vortex_prune::Verdict;

/// Rows of a row group, each column of which has them in one page: the place of the row group in
/// the file, the first row, counted from the first of the row group, and the row behind the last.
#[derive(Clone, Copy, Debug, PartialEq, Eq)]
pub struct PageRange {
    pub group: usize,
    pub first: u64,
    pub end: u64,
}

/// The stretches of rows of a file, row group by row group: where each stands, its statistics, and
/// the verdict on it; and the row groups themselves with the verdicts by the footer.
#[derive(Drop)]
pub struct PageVerdicts {
    pub groups: GroupVerdicts,
    pub ranges: Vec<PageRange>,
    pub stretches: Vec<GroupStats>,
    pub verdicts: Vec<Verdict>,
}

/// The stretches of row groups: where each stands, and its statistics.
#[derive(Drop)]
struct Cut {
    ranges: Vec<PageRange>,
    stretches: Vec<GroupStats>,
}

fn column_of<'a>(leaf: &'a LeafPages<'a>) -> PagedColumn<'a>
    ensures { column_view result ≡ leaf_view leaf.now }
{
    PagedColumn {
        form: leaf.form,
        is_ordered: leaf.is_ordered,
        pages: &leaf.pages,
    }
}

fn columns_of<'a>(
    alloc: Global,
    leaves: &'a [LeafPages<'a>],
) -> Result<Vec<PagedColumn<'a>>, AllocError>
    ensures { IfOk result (λ columns. map column_view columns.items ≡ map leaf_view leaves.now) }
{
    let mut columns = Vec::with_capacity(alloc, leaves.len())?;
    for leaf in leaves {
        columns.push(column_of(leaf))?;
    }
    Ok(columns)
}

// The stretches of a row group whose pages stand one behind the other.
fn stretches_in(alloc: Global, group: &GroupPages<'_>) -> Result<Vec<GroupStats>, ReadError>
    requires { all_follow group.now.rows (map leaf_view group.now.columns.items) ≡ true }
    ensures cut { IfOk result (λ found. AreStretchesOf (map leaf_view group.now.columns.items)
        group.now.rows (map group_view found.items)) }
    ensures refused { IfErr result (λ e. e ≡ errors.Memory) }
{
    let columns = columns_of(alloc, &group.columns)?;
    stretches_of(alloc, &columns, group.rows)
}

// Adds where stretches of so many rows stand, which are all of the row group at a place.
fn push_ranges(
    ranges: &mut Vec<PageRange>,
    group: usize,
    rows: u64,
    stretches: &[GroupStats],
) -> Result<(), AllocError>
    requires { rows_in (map group_view stretches.now) ≡ rows }
    ensures { OnOk result (ranges.new.items
        ≡ ranges.old.items ++ ranges_from group 0 (map group_view stretches.now)) }
{
    let mut first = 0;
    for stretch in stretches {
        let end = first + stretch.rows;
        ranges.push(PageRange { group, first, end })?;
        first = end;
    }
    Ok(())
}

// Cuts row groups whose pages stand one behind the other.
fn cut_groups(alloc: Global, groups: &[GroupPages<'_>]) -> Result<Cut, ReadError>
    requires { all_groups_follow (map paged_view groups.now) ≡ true }
    ensures cut { IfOk result (λ found. AreStretchesFrom 0 (map paged_view groups.now)
        found.ranges.items (map group_view found.stretches.items)) }
    ensures refused { IfErr result (λ e. e ≡ errors.Memory) }
{
    let mut ranges = Vec::new(alloc);
    let mut stretches = Vec::new(alloc);
    for place in 0..groups.len() {
        let group = &groups[place];
        let mut found = stretches_in(alloc, group)?;
        push_ranges(&mut ranges, place, group.rows, &found)?;
        stretches.append(&mut found)?;
    }
    Ok(Cut { ranges, stretches })
}

fn verdict_at(verdicts: &[Verdict], place: usize) -> Option<Verdict>
    ensures { result ≡ slice_get verdicts.now place }
{
    match verdicts.get(place) {
        Some(verdict) => Some(*verdict),
        None => None,
    }
}

// Returns the verdict on rows of a row group: that on the row group where it is skipped or whole,
// and else their own.
fn by_group(group: Option<Verdict>, own: Verdict) -> Verdict
    ensures { result ≡ spec.by_group group own }
{
    match group {
        Some(Verdict::Skipped) => Verdict::Skipped,
        Some(Verdict::Whole) => Verdict::Whole,
        _ => own,
    }
}

// Returns the verdict on each stretch: that on its row group where this is skipped or whole.
fn by_groups(
    alloc: Global,
    groups: &[Verdict],
    ranges: &[PageRange],
    own: &[Verdict],
) -> Result<Vec<Verdict>, AllocError>
    requires { length own.now ≡ length ranges.now }
    ensures { IfOk result (λ vs. vs.items ≡ spec.by_groups groups.now ranges.now own.now) }
{
    let mut verdicts = Vec::with_capacity(alloc, ranges.len())?;
    for place in 0..ranges.len() {
        let group = verdict_at(groups, ranges[place].group);
        verdicts.push(by_group(group, own[place]))?;
    }
    Ok(verdicts)
}

impl FooterCondition {
    /// Returns the verdict on each stretch of rows of a file with so many leaf columns, from the
    /// last bytes of the file. A stretch lies in one page of each column of the condition's scope;
    /// it is skipped if no row of it satisfies the condition, and whole if each does.
    ///
    /// A stretch of a row group that `prune` skips or finds whole is so, too; else the statistics
    /// of its pages decide. A column chunk is one page where its indexes aren't among these bytes,
    /// with the statistics of the footer. `Footer` with the first fault of the row groups and their
    /// pages, and else as `prune`.
    pub fn prune_pages(
        &self,
        alloc: Global,
        tail: FileTail<'_>,
        count: usize,
        file: &FileMetaData<'_>,
    ) -> Result<PageVerdicts, FooterError>
        // All rows of each row group are told, in the file's order: a stretch ends where a page of
        // a column does, and has the statistics that its pages give it.
        ensures known { IfOk result (λ found. AreStretchesIn (tail_view tail.entry)
            self.now.leaves.items count (file_view file.now) found.ranges.items
            (map group_view found.stretches.items)) }
        ensures placed { IfOk result (λ found.
            length found.ranges.items ≡ length found.stretches.items) }
        ensures long { IfOk result (λ found.
            length found.verdicts.items ≡ length found.stretches.items) }
        // Each row group is read and judged by the footer.
        ensures groups { IfOk result (λ found.
            groups_of self.now.leaves.items count (file_view file.now)
            ≡ Ok (map group_view found.groups.groups.items)) }
        ensures judged { IfOk result (λ found. found.groups.verdicts.items
            ≡ zone_verdicts self.now.condition.falsifier self.now.condition.satisfier
            self.now.condition.scope (map zone_data found.groups.groups.items)) }
        // Each stretch is judged by its statistics, if its row group isn't skipped or whole.
        ensures verdicts { IfOk result (λ found. found.verdicts.items
            ≡ spec.by_groups found.groups.verdicts.items found.ranges.items
            (zone_verdicts self.now.condition.falsifier self.now.condition.satisfier
            self.now.condition.scope (map zone_data found.stretches.items))) }
        // No fewer rows are skipped or whole than by the footer.
        ensures no_fewer { IfOk result (λ found. spec.DecidesNoFewer found.groups.verdicts.items
            found.ranges.items found.verdicts.items) }
        // If the footer's statistics and those of the pages are true of the rows of a row group,
        // then whatever the unread leaves mean, none of a stretch satisfies the condition where
        // that is skipped, and each does where it is whole.
        ensures sound { IfOk result (λ found. spec.PrunesPages (schema_of self.now.condition)
            self.now.condition.condition (tail_view tail.entry) self.now.leaves.items
            (file_view file.now) found.ranges.items (skipped_places found.verdicts.items)
            (whole_places found.verdicts.items)) }
        // A fault is told only where the row groups or their pages have it, a misfit where a set
        // fits no column of the scope, an open proof where a rule of the user left one; else memory
        // is refused.
        ensures refused { IfErr result (spec.IsPageFault self.now.condition (tail_view tail.entry)
            self.now.leaves.items count (file_view file.now)) }
    {
        pages_follow();
        stretches_are_true();
        let paged = paged_groups(alloc, tail, &self.leaves, count, file)?;
        let Cut { ranges, stretches } = cut_groups(alloc, &paged)?;
        let groups = self.prune(alloc, count, file)?;
        let scope = self.condition.scope().try_clone()?;
        let map = map_of(alloc, scope, &stretches)?;
        let own = self.condition.prune(alloc, &map)?;
        let verdicts = by_groups(alloc, &groups.verdicts, &ranges, &own)?;
        Ok(PageVerdicts {
            groups,
            ranges,
            stretches,
            verdicts,
        })
    }
}
