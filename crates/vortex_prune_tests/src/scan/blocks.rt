//! Long parts, whose rows are tested a column at a time and block by block: the scan selects what
//! each row says by itself.
use super::*;
use vortex_base::{ArrayData, Column, ScalarValue};
use vortex_expr::BoundExpression;
use vortex_prune::Scan;

// A number of a row, or null in each place of a block.
fn number_at(row: usize) -> Option<ScalarValue> {
    match row % 5 {
        0 => Some(number(3)),
        1 => Some(number(7)),
        2 => None,
        3 => Some(number(-1)),
        _ => Some(number(5)),
    }
}

fn text_at(alloc: Global, row: usize) -> Result<Option<ScalarValue>, AllocError> {
    match row % 3 {
        0 => Ok(Some(text_value(alloc, "birch")?)),
        1 => Ok(None),
        _ => Ok(Some(text_value(alloc, "larch")?)),
    }
}

fn number_cells(alloc: Global, rows: usize) -> Result<ArrayData, AllocError> {
    let mut cells = ArrayData::new(alloc, I32_OR_NULL);
    for row in 0..rows {
        cells.push(number_at(row))?;
    }
    Ok(cells)
}

fn text_cells(alloc: Global, rows: usize) -> Result<ArrayData, AllocError> {
    let mut cells = ArrayData::new(alloc, TEXT);
    for row in 0..rows {
        cells.push(text_at(alloc, row)?)?;
    }
    Ok(cells)
}

fn numbers_long(alloc: Global, rows: usize) -> Result<Column, StatsError> {
    told(Column::of_cells(I32_OR_NULL, number_cells(alloc, rows)?, 0))
}

fn texts_long(alloc: Global, rows: usize) -> Result<Column, StatsError> {
    told(Column::of_cells(TEXT, text_cells(alloc, rows)?, 0))
}

// The table of one part of so many rows in the columns `a` and `b`, without statistics.
fn long(alloc: Global, rows: usize) -> Table {
    let scope = scope_of_two(alloc, ("a", I32_OR_NULL), ("b", TEXT));
    let (numbers, texts) = (numbers_long(alloc, rows), texts_long(alloc, rows));
    let chunk = chunk_of_two(alloc, scope, numbers, texts);
    let (first, second) = (no_statistics(alloc), no_statistics(alloc));
    let part = part_of_two(alloc, chunk, Ok(first), Ok(second));
    let scope = scope_of_two(alloc, ("a", I32_OR_NULL), ("b", TEXT));
    zones_of(alloc, scope, one_part(alloc, part))
}

// The rows of a part that satisfy a predicate, each by itself.
fn rows_alone(
    alloc: Global,
    part: &Part,
    predicate: &BoundExpression,
) -> Result<Vec<(usize, usize)>, AllocError> {
    let chunk = part.chunk();
    let mut rows = Vec::new(alloc);
    for row in 0..chunk.rows() {
        if predicate.is_satisfied(&chunk.row(row), chunk.rows() as u64) {
            rows.push((0, row))?;
        }
    }
    Ok(rows)
}

// Whether a scan found these rows, and tested so many.
fn found_rows(found: &Scan, rows: &[(usize, usize)], tested: usize) -> bool {
    found.selected.as_slice() == rows && found.evaluated == tested as u64
}

// Whether the scan of the long part finds what its rows say by themselves.
fn is_as_alone(alloc: Global, rows: usize, predicate: Built) -> Result<bool, StatsError> {
    let (zones, predicate) = (long(alloc, rows)?, predicate?);
    scans_as_alone(alloc, &zones, &predicate, rows)
}

// Whether the scan of one part of so many rows finds what these say by themselves.
pub(super) fn scans_as_alone(
    alloc: Global,
    zones: &Zones,
    predicate: &BoundExpression,
    rows: usize,
) -> Result<bool, StatsError> {
    let found = scanned_by_part(alloc, zones.parts(), predicate, &Rules::builtin(alloc))?;
    match zones.parts().first() {
        None => Ok(false),
        Some(part) => finds_alone(alloc, &found, part, predicate, rows),
    }
}

fn finds_alone(
    alloc: Global,
    found: &Scan,
    part: &Part,
    predicate: &BoundExpression,
    rows: usize,
) -> Result<bool, StatsError> {
    Ok(found_rows(found, &rows_alone(alloc, part, predicate)?, rows))
}

fn copied(predicate: &BoundExpression) -> Built {
    told(predicate.try_clone())
}

// The scan is that of the rows by themselves, at lengths about those of a block and of two.
fn expect_as_alone(rt: &impl Abort, alloc: Global, predicate: Built) {
    let predicate = predicate.expect(rt, "predicate");
    for rows in [0, 1, 1_023, 1_024, 1_025, 2_049] {
        let is_alike = is_as_alone(alloc, rows, copied(&predicate)).expect(rt, "is alike");
        assert!(rt; is_alike);
    }
}

fn b(alloc: Global) -> Built {
    col(alloc, 1, TEXT)
}

#[test]
fn leaves_have_the_rows(rt: HostRuntime) {
    let alloc = rt.alloc();
    expect_as_alone(&rt, alloc, lt(alloc, int(alloc, 3), a(alloc)));
    expect_as_alone(&rt, alloc, eq(alloc, a(alloc), a(alloc)));
    expect_as_alone(&rt, alloc, gt(alloc, a(alloc), null_of(alloc, I32)));
    expect_as_alone(&rt, alloc, gt(alloc, b(alloc), text(alloc, "cedar")));
    expect_as_alone(&rt, alloc, like(alloc, b(alloc), text(alloc, "%rc%h")));
    let range = between(alloc, a(alloc), int(alloc, 3), int(alloc, 7), OPEN_BELOW);
    expect_as_alone(&rt, alloc, range);
}

// The numbers above 4 beside a text below `cedar`, or minus one.
fn inner(alloc: Global) -> Built {
    let low = lt(alloc, b(alloc), text(alloc, "cedar"));
    let both = and(alloc, above(alloc, 4), low);
    or(alloc, both, eq(alloc, a(alloc), int(alloc, -1)))
}

#[test]
fn connectives_have_the_rows(rt: HostRuntime) {
    let alloc = rt.alloc();
    let there = is_not_null(alloc, b(alloc));
    expect_as_alone(&rt, alloc, and(alloc, inner(alloc), there));
    let odd = not(alloc, lt(alloc, a(alloc), int(alloc, 7)));
    expect_as_alone(&rt, alloc, or(alloc, odd, inner(alloc)));
}
