//! Rows of a row group as a caller is told of them.
ghost use Rattle.std.specs.Prelude.{◌≡◌, ◌≤◌, ◌++◌, IfOk, drop, length};
ghost use Rattle.vortex_capi.specs.ParquetCalls.PagePrunes as spec;

use crate::parquet::row_group::answer_of;
use std::alloc::{AllocError, Global};
use vortex_predicates::PageRange;
use vortex_prune::Verdict;

/// Rows of a row group one behind the other: `vortex_row_range` of the header.
#[repr(C)]
#[derive(Clone, Copy, Debug, PartialEq, Eq)]
pub struct RowRange {
    /// The place of the row group in the file.
    pub group: usize,
    /// The first row, counted from the first of the row group.
    pub first: u64,
    /// The row behind the last one.
    pub end: u64,
    /// 0 to read them, 1 to skip them, 2 if each satisfies the condition.
    pub answer: u8,
}

fn told_range(range: &PageRange, verdict: Verdict) -> RowRange
    ensures { result ≡ spec.told_range range.now verdict }
{
    RowRange {
        group: range.group,
        first: range.first,
        end: range.end,
        answer: answer_of(verdict),
    }
}

/// Returns what is told of stretches of rows, each with its verdict.
pub(crate) fn all_ranges(
    alloc: Global,
    ranges: &[PageRange],
    verdicts: &[Verdict],
) -> Result<Vec<RowRange>, AllocError>
    requires { length verdicts.now ≡ length ranges.now }
    ensures { IfOk result (λ told. told.items ≡ spec.all_ranges ranges.now verdicts.now) }
{
    let mut told = Vec::with_capacity(alloc, ranges.len())?;
    for place in 0..ranges.len() {
        told.push(told_range(&ranges[place], verdicts[place]))?;
    }
    Ok(told)
}

/// Puts what is told at the front of an array that has room for it.
pub(crate) fn put_ranges(told: &[RowRange], ranges: &mut [RowRange])
    requires { length told.now ≤ length ranges.old }
    ensures { ranges.new ≡ told.now ++ drop (length told.now) ranges.old }
{
    ranges[..told.len()].copy_from_slice(told);
}
