//! The rows of one part, or of one range of a chunk, that satisfy the predicate.
ghost use Rattle.std.specs.Prelude.{◌≡◌, ◌+◌, ◌-◌, ◌^◌, ◌≤◌, ◌++◌, true, IfErr, OnOk};
ghost use Rattle.std.specs.Prelude.{min, replicate};
ghost use Rattle.vortex_base.specs.Data.Columns.{row_count};
ghost use Rattle.vortex_prune.specs.Scanning.Marks.{marked, marked_rows};
ghost use Rattle.vortex_prune.specs.Scanning.RangeScans.{is_true_in, range_satisfying};
ghost use Rattle.vortex_rewrite.specs.Answers.{IsMemory};

use crate::scan::marks::{BLOCK, Counts, Table, block_end, keep_true};
use crate::scan::selected_rows::SelectedRows;
use vortex_base::chunk::Chunk;
use vortex_expr::bound_expression::BoundExpression;
use vortex_stats::error::StatsError;

/// Rows of a chunk that stand one behind the other: so many, from the first on.
#[derive(Clone, Copy)]
pub(crate) struct RowRange<'a> {
    pub(crate) chunk: &'a Chunk,
    pub(crate) first: usize,
    pub(crate) rows: usize,
}

// Adds the satisfying rows of a block of the range at a place. Nothing else tests a row of a scan
// or raises the count of tested rows, which it does as it begins.
fn select_block(
    selected: &mut SelectedRows,
    evaluated: &mut u64,
    place: usize,
    range: RowRange<'_>,
    predicate: &BoundExpression,
    from: usize,
    to: usize,
) -> Result<(), StatsError>
    requires after { from ≤ to }
    requires within { to ≤ range.rows }
    requires inside { range.first + range.rows ≤ row_count range.chunk.now.columns }
    requires short { to ≤ from + 1024 }
    ensures selected { let cs = range.entry.chunk.now.columns in
        let satisfied = is_true_in predicate.now cs range.entry.first range.entry.rows in
        OnOk result (selected.new ≡ selected.old
        ++ marked_rows place from (marked satisfied from (replicate (to - from) true))) }
    ensures evaluated { evaluated.new ≡ min (evaluated.old + (to - from)) (2 ^ 64 - 1) }
    ensures memory { IfErr result IsMemory }
{
    *evaluated = evaluated.saturating_add((to - from) as u64);
    let chunk = range.chunk;
    let _rows = chunk.rows();
    let counts = Counts::Same(range.rows as u64);
    let first = range.first + from;
    let mut marks = [true; BLOCK];
    let block = &mut marks[..to - from];
    keep_true(
        selected.allocator(),
        Table { chunk, counts },
        predicate,
        first,
        block,
    );
    Ok(selected.push_marked(place, from, block)?)
}

// Adds the satisfying rows of the range at a place, block by block.
pub(crate) fn select(
    selected: &mut SelectedRows,
    evaluated: &mut u64,
    place: usize,
    range: RowRange<'_>,
    predicate: &BoundExpression,
) -> Result<(), StatsError>
    requires { range.first + range.rows ≤ row_count range.chunk.now.columns }
    ensures selected { let k = range.entry.chunk.now in
        let found = range_satisfying predicate.now place k range.entry.first range.entry.rows in
        OnOk result (selected.new ≡ selected.old ++ found) }
    ensures evaluated { OnOk result
        (evaluated.new ≡ min (evaluated.old + range.entry.rows) (2 ^ 64 - 1)) }
    ensures memory { IfErr result IsMemory }
{
    // Shows that the count is one of 64 bits.
    let _counted = *evaluated;
    let rows = range.rows;
    let mut from = 0;
    'runs: while from < rows {
        let to = block_end(from, rows, BLOCK);
        select_block(selected, evaluated, place, range, predicate, from, to)?;
        from = to;
    }
    Ok(())
}
