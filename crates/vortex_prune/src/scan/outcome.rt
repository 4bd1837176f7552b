//! Outcomes of scans.
ghost use Rattle.std.specs.Prelude.{◌≡◌, ◌+◌, ◌-◌, ◌^◌, ◌≤◌, ◌++◌, IfErr, IfOk, IsTrue, OnOk};
ghost use Rattle.std.specs.Prelude.{alloc_error, min};
ghost use Rattle.vortex_base.specs.Data.Columns.{row_count};
ghost use Rattle.vortex_expr.specs.Meanings.Fitting.{fits_scope};
ghost use Rattle.vortex_expr.specs.Trees.Tree.{is_plain};
ghost use Rattle.vortex_prune.specs.Part.{IsPart};
ghost use Rattle.vortex_prune.specs.Scanning.Found.{found_by, found_in};
ghost use Rattle.vortex_prune.specs.Scanning.RangeScans.{range_rows, range_tested};
ghost use Rattle.vortex_prune.specs.Scanning.Selection.{is_skipped, is_whole, place_if};
ghost use Rattle.vortex_prune.specs.Scanning.Selection.{rows_by, rows_tested};
ghost use Rattle.vortex_stats.specs.declared.error.StatsError.TheVariants.{Memory};

use crate::part::Part;
use crate::scan::select::{RowRange, select};
use crate::scan::selected_rows::SelectedRows;
use crate::scan::verdict::Verdict;
use std::alloc::AllocError;
use vortex_expr::bound_expression::BoundExpression;
use vortex_stats::error::StatsError;

/// The outcome of a scan of parts. They and their rows count from 0.
#[derive(Debug, PartialEq, Eq, Drop)]
pub struct Scan {
    /// The rows that satisfy the predicate, each as its part and its place there, ascending.
    pub selected: Vec<(usize, usize)>,
    /// The parts that were left out unread, ascending.
    pub skipped: Vec<usize>,
    /// The parts of which all rows were selected without a test, ascending.
    pub whole: Vec<usize>,
    /// How many rows were tested: those of the other parts. It stays at the greatest number once it
    /// is reached.
    pub evaluated: u64,
}

/// The outcome of a scan of zones that are ranges of one chunk: that of `Scan`, whose selected rows
/// take half as much memory. Zones and their rows count from 0.
#[derive(Debug, PartialEq, Eq, Drop)]
pub struct RangeScan {
    /// The rows that satisfy the predicate, each as its zone and its place there, ascending.
    pub selected: SelectedRows,
    /// The zones that were left out unread, ascending.
    pub skipped: Vec<usize>,
    /// The zones of which all rows were selected without a test, ascending.
    pub whole: Vec<usize>,
    /// How many rows were tested: those of the other zones. It stays at the greatest number once it
    /// is reached.
    pub evaluated: u64,
}

impl RangeScan {
    /// Returns the same outcome with its rows as pairs. If memory is refused, the outcome is
    /// dropped.
    pub fn into_scan(self) -> Result<Scan, AllocError>
        ensures { IfOk result (λ scan. found_by scan ≡ found_in self) }
    {
        let RangeScan {
            selected,
            skipped,
            whole,
            evaluated,
        } = self;
        Ok(Scan {
            selected: selected.into_pairs()?,
            skipped,
            whole,
            evaluated,
        })
    }

    // Records a range of rows: it was skipped, or all its rows are selected, or those that satisfy.
    pub(crate) fn record_range(
        &mut self,
        place: usize,
        range: RowRange<'_>,
        verdict: Verdict,
        predicate: &BoundExpression,
    ) -> Result<(), StatsError>
        requires { range.first + range.rows ≤ row_count range.chunk.now.columns }
        ensures skipped { OnOk result (self.new.skipped.items
            ≡ self.old.skipped.items ++ place_if (is_skipped verdict) place) }
        ensures whole { OnOk result (self.new.whole.items
            ≡ self.old.whole.items ++ place_if (is_whole verdict) place) }
        ensures selected { let r = range.entry in
            let found = range_rows verdict predicate.now place r.chunk.now r.first r.rows in
            OnOk result (self.new.selected ≡ self.old.selected ++ found) }
        ensures evaluated { let tested = range_tested verdict range.entry.rows in
            OnOk result (self.new.evaluated ≡ min (self.old.evaluated + tested) (2 ^ 64 - 1)) }
        ensures memory { IfErr result (λ f. f ≡ Memory alloc_error) }
    {
        // That the number is one of 64 bits.
        let _counted = self.evaluated;
        match verdict {
            Verdict::Skipped => Ok(self.skipped.push(place)?),
            Verdict::Whole => {
                self.whole.push(place)?;
                Ok(self.selected.push_all(place, range.rows)?)
            }
            Verdict::Tested => {
                select(
                    &mut self.selected,
                    &mut self.evaluated,
                    place,
                    range,
                    predicate,
                )
            }
        }
    }

    // Records a part: the range of all its rows.
    pub(crate) fn record(
        &mut self,
        place: usize,
        part: &Part,
        verdict: Verdict,
        predicate: &BoundExpression,
    ) -> Result<(), StatsError>
        requires plain { IsTrue (is_plain predicate.now) }
        requires fits { IsTrue (fits_scope predicate.now part.now.chunk.scope) }
        ensures skipped { OnOk result (self.new.skipped.items
            ≡ self.old.skipped.items ++ place_if (is_skipped verdict) place) }
        ensures whole { OnOk result (self.new.whole.items
            ≡ self.old.whole.items ++ place_if (is_whole verdict) place) }
        ensures selected { let found = rows_by verdict predicate.now place part.now.chunk in
            OnOk result (self.new.selected ≡ self.old.selected ++ found) }
        ensures evaluated { let tested = rows_tested verdict part.now.chunk in
            OnOk result (self.new.evaluated ≡ min (self.old.evaluated + tested) (2 ^ 64 - 1)) }
        ensures is_part { IsPart part.now }
        ensures memory { IfErr result (λ f. f ≡ Memory alloc_error) }
    {
        let chunk = part.chunk();
        let range = RowRange {
            chunk,
            first: 0,
            rows: chunk.rows(),
        };
        self.record_range(place, range, verdict, predicate)
    }
}
