//! Scans part by part: the interface that decides for each part, and the loop over the parts.
ghost use Rattle.std.specs.Prelude.{◌<◌, ℕ, All, List, Option, IfErr, IfOk, IsTrue};
ghost use Rattle.std.specs.Prelude.{MatchResult, length};
ghost use Rattle.vortex_expr.specs.Meanings.Fitting.{fits_scope};
ghost use Rattle.vortex_expr.specs.Trees.Tree.{Place, Tree, is_plain};
ghost use Rattle.vortex_prune.specs.Part.{AreParts, PartData};
ghost use Rattle.vortex_prune.specs.Scanning.PartScans.{AreTold, IsRefusedAt, IsSameTest, TellsOf};
ghost use Rattle.vortex_prune.specs.Scanning.Promises.{ScansParts};
ghost use Rattle.vortex_prune.specs.Scanning.Selection.{Answered};
ghost use Rattle.vortex_prune.specs.declared.scan.verdict.Verdict.{Verdict};
ghost use Rattle.vortex_stats.specs.declared.error.StatsError.{StatsError};

use crate::part::Part;
use crate::scan::outcome::{RangeScan, Scan};
use crate::scan::selected_rows::SelectedRows;
use crate::scan::verdict::Verdict;
use std::alloc::Global;
use vortex_expr::bound_expression::BoundExpression;
use vortex_stats::error::StatsError;

/// Decides for each part: skip, take whole or test; by a binder for each part, or by their table.
pub(crate) trait PartTest {
    // It can be asked about the part at a place.
    ghost able: { Self → ℕ → Type 0 };
    // What its answer says of the part at a place.
    ghost tells: { Self → ℕ → PartData → Verdict → Type 0 };
    // What its refusal says.
    ghost refuses: { Self → ℕ → PartData → StatsError → Type 0 };

    /// Decides for the part at a place.
    fn verdict(&mut self, alloc: Global, place: usize, part: &Part) -> Result<Verdict, StatsError>
        requires { able self.old place }
        ensures verdict { MatchResult result (tells self.old place part.now)
            (refuses self.old place part.now) }
        ensures same { IsSameTest (able self.old) (able self.new) (tells self.old) (tells self.new)
            (refuses self.old) (refuses self.new) };
}

/// The scan by such a test: each part is skipped, or all its rows are selected, or those that
/// satisfy the predicate.
pub(crate) fn scan_parts<T: PartTest>(
    alloc: Global,
    parts: &[Part],
    predicate: &BoundExpression,
    test: &mut T,
) -> Result<Scan, StatsError>
    requires able { (place : ℕ) → place < length parts.now → T.able test.old place }
    requires plain { IsTrue (is_plain predicate.now) }
    requires fits { All (λ part. IsTrue (fits_scope predicate.now part.chunk.scope)) parts.now }
    // Whatever answers the parts stand with: where what the test tells of each is the verdict by
    // two proofs under them, the scan finds what there is to find by these.
    ensures found { IfOk result (λ scan. (f s : Option (Tree Place)) (answers : List Answered)
        → TellsOf (T.tells test.old) f s parts.now answers
        → ScansParts f s predicate.now answers scan) }
    ensures told { IfOk result (λ scan.
        AreTold (T.tells test.old) parts.now scan.skipped.items) }
    ensures parts { IfOk result (λ _. AreParts parts.now) }
    ensures refusal { IfErr result (IsRefusedAt (T.refuses test.old) parts.now) }
{
    let mut scan = RangeScan {
        selected: SelectedRows::new(alloc),
        skipped: Vec::new(alloc),
        whole: Vec::new(alloc),
        evaluated: 0,
    };
    for place in 0..parts.len() {
        let part = &parts[place];
        let verdict = test.verdict(alloc, place, part)?;
        scan.record(place, part, verdict, predicate)?;
    }
    Ok(scan.into_scan()?)
}
