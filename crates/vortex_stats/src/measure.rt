//! Statistics that are made from the values of a column, and a check of those that weren't.
ghost use Rattle.std.specs.Prelude.{◌≡◌, ◌↔◌, All, IfOk, IsTrue, OnErr};
ghost use Rattle.vortex_stats.specs.Copies.{holds_long};
ghost use Rattle.vortex_stats.specs.Measuring.Measured.{measured, measuring_copies};
ghost use Rattle.vortex_stats.specs.Precision.{is_exact};
ghost use Rattle.vortex_stats.specs.Sets.Claims.{IsTrueOf};

mod checks;
mod measures;
mod pass;
mod tally;

use crate::stat::Stat;
use crate::stats_set::StatsSet;
use std::alloc::{AllocError, Global};
use vortex_base::column::Column;

impl StatsSet {
    /// The statistics of a column: for each wanted one that its type supports an exact entry, in
    /// the order wanted, and one for one that is wanted twice. There is no entry of Max and Min
    /// where there is no value, and none of a Sum that leaves the type of sums. The size is the
    /// declared one.
    ///
    /// The values are looked at once, and none is copied but the greatest and the least. Memory is
    /// refused only where one of these is a text or bytes.
    pub fn of_column(
        alloc: Global,
        column: &Column,
        wanted: &[Stat],
    ) -> Result<StatsSet, AllocError>
        ensures measured { IfOk result (λ set. set ≡ measured wanted.now column.now) }
        ensures true_of { IfOk result (λ set. IsTrueOf set column.now) }
        ensures exact { IfOk result (λ set. All (λ entry. IsTrue (is_exact entry.1)) set) }
        ensures copies { OnErr result (IsTrue (measuring_copies wanted.now column.now)) }
        ensures memory { OnErr result (IsTrue (holds_long column.now.dtype)) }
    {
        let measures = pass::measures_of(column);
        let mut set = StatsSet::new(alloc);
        for stat in wanted {
            measures.tell(&mut set, *stat, column)?;
        }
        Ok(set)
    }

    /// Whether the set is true of the column: it fits the column's type, and each of its entries
    /// claims what holds. A set that doesn't fit is true of no column. The values are looked at
    /// once, and no memory is taken.
    pub fn is_true_of(&self, column: &Column) -> bool
        ensures { IsTrue result ↔ IsTrueOf self.now column.now }
    {
        if !self.fits(&column.dtype()) {
            return false;
        }
        let measures = pass::measures_of(column);
        measures.allows_each(self, column)
    }
}
