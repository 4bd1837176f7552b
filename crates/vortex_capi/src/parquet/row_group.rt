//! A row group as a caller is told of it.
ghost use Rattle.std.specs.Prelude.{◌≡◌, ◌≤◌, ◌++◌, IfOk, drop, length, map};
ghost use Rattle.vortex_capi.specs.Prunes.{answer_of};
ghost use Rattle.vortex_parquet.specs.Stats.{group_view};
ghost use Rattle.vortex_capi.specs.ParquetCalls.FooterPrunes as spec;

use std::alloc::{AllocError, Global};
use vortex_parquet::stats::GroupStats;
use vortex_prune::Verdict;

/// A row group: `vortex_row_group` of the header.
#[repr(C)]
#[derive(Clone, Copy, Debug, PartialEq, Eq)]
pub struct RowGroup {
    /// The number of its rows.
    pub rows: u64,
    /// How many bytes its column chunks take in the file, or 0 where the footer doesn't tell.
    pub size: u64,
    /// 0 to read it, 1 to skip it, 2 if each row satisfies the condition.
    pub answer: u8,
}

fn or_zero(size: Option<u64>) -> u64
    ensures { result ≡ spec.or_zero size }
{
    match size {
        Some(size) => size,
        None => 0,
    }
}

/// Returns the number by which a caller is told a verdict.
pub(crate) fn answer_of(verdict: Verdict) -> u8
    ensures { result ≡ answer_of verdict }
{
    match verdict {
        Verdict::Tested => 0,
        Verdict::Skipped => 1,
        Verdict::Whole => 2,
    }
}

fn told_of(group: &GroupStats, verdict: Verdict) -> RowGroup
    ensures { result ≡ spec.told_of (group_view group.now) verdict }
{
    RowGroup {
        rows: group.rows,
        size: or_zero(group.size),
        answer: answer_of(verdict),
    }
}

/// Returns what is told of row groups, each with its verdict.
pub(crate) fn all_told(
    alloc: Global,
    groups: &[GroupStats],
    verdicts: &[Verdict],
) -> Result<Vec<RowGroup>, AllocError>
    requires { length verdicts.now ≡ length groups.now }
    ensures { IfOk result (λ told. told.items
        ≡ spec.all_told (map group_view groups.now) verdicts.now) }
{
    let mut told = Vec::with_capacity(alloc, groups.len())?;
    for place in 0..groups.len() {
        told.push(told_of(&groups[place], verdicts[place]))?;
    }
    Ok(told)
}

/// Puts what is told at the front of an array that has room for it.
pub(crate) fn put_groups(told: &[RowGroup], groups: &mut [RowGroup])
    requires { length told.now ≤ length groups.old }
    ensures { groups.new ≡ told.now ++ drop (length told.now) groups.old }
{
    groups[..told.len()].copy_from_slice(told);
}
