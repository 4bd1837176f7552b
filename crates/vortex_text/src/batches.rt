//! Scans of parts a batch at a time, and what they find together.
ghost use Rattle.std.specs.Prelude.{◌≡◌, ◌<◌, ◌≤◌, ◌+◌, ◌++◌, ◌^◌, [], IsTrue, List, OnOk, drop, length, map, take};
ghost use Rattle.vortex_prune.specs.Part.{PartData};
ghost use Rattle.vortex_rewrite.specs.Rewriting.Predicates.{is_predicate};
ghost use Rattle.vortex_text.specs.Batches.{CanRise, CanRiseRows, IsFoundIn, raised, raised_row};
ghost use Rattle.vortex_text.specs.Fitting.{IsQueryOver};

use crate::parts::PartsLeft;
use std::alloc::{AllocError, Global};
use vortex_base::Scope;
use vortex_expr::BoundExpression;
use vortex_prune::{RangeScan, SelectedRows};

// Adds places of parts that stand behind some others.
fn add_places(places: &mut Vec<usize>, more: &[usize], before: usize) -> Result<(), AllocError>
    requires { CanRise before more.now }
    ensures { OnOk result (places.new.items ≡ places.old.items ++ map (raised before) more.now) }
{
    for place in more {
        places.push(before + *place)?;
    }
    Ok(())
}

// Adds rows of such parts.
fn add_rows(rows: &mut SelectedRows, more: &SelectedRows, before: usize) -> Result<(), AllocError>
    requires { CanRiseRows before more.now }
    ensures { OnOk result (rows.new ≡ rows.old ++ map (raised_row before) more.now) }
{
    for (part, row) in more.iter() {
        rows.push(before + part, row)?;
    }
    Ok(())
}

/// The scan of no parts.
pub fn nothing_found(alloc: Global, predicate: &BoundExpression) -> RangeScan
    ensures { IsFoundIn predicate.now [] result }
{
    RangeScan {
        selected: SelectedRows::new(alloc),
        skipped: Vec::new(alloc),
        whole: Vec::new(alloc),
        evaluated: 0,
    }
}

/// Adds what a scan finds in so many more parts, which stand behind some others, and goes past
/// them.
pub fn scan_more(
    alloc: Global,
    scope: &Scope,
    predicate: &BoundExpression,
    found: &mut RangeScan,
    before: usize,
    left: &mut PartsLeft<'_>,
    count: usize,
) -> Result<(), AllocError>
    requires query { IsQueryOver scope.now left.old predicate.now }
    requires predicate { IsTrue (is_predicate predicate.now) }
    requires some { 0 < count }
    requires within { count ≤ length left.old }
    requires few { before + count < 2 ^ 64 }
    ensures found { OnOk result ((parts : List PartData) → length parts ≡ before
        → IsFoundIn predicate.now parts found.old
        → IsFoundIn predicate.now (parts ++ take count left.old) found.new) }
    ensures left { OnOk result (left.new ≡ drop count left.old) }
{
    let more = left.scan(alloc, scope, predicate, count)?;
    left.skip(count);
    if before == 0 {
        *found = more;
        return Ok(());
    }
    add_places(&mut found.skipped, &more.skipped, before)?;
    add_places(&mut found.whole, &more.whole, before)?;
    add_rows(&mut found.selected, &more.selected, before)?;
    found.evaluated = found.evaluated.saturating_add(more.evaluated);
    Ok(())
}
