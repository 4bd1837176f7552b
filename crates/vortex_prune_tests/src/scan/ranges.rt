//! Scans of one chunk, or of a stretch of it, by a map of zones, each a range of its rows.
use super::*;
use vortex_base::{Chunk, ScalarValue};
use vortex_expr::BoundExpression;
use vortex_prune::scan_ranges_from;
use vortex_stats::StatsSet;
use vortex_zone_map::{Zone, ZoneMap};

// The numbers 1, 5, 10, null, 20, 30.
fn six_rows(alloc: Global) -> Result<Chunk, StatsError> {
    let rows = [Some(1), Some(5), Some(10), None, Some(20), Some(30)];
    chunk_of_numbers(alloc, &rows)
}

// The first two rows with their bounds, the next two, and the last two with bounds and no null.
fn three_sets(alloc: Global) -> Result<Vec<StatsSet>, StatsError> {
    let mut sets = two_sets(alloc, bounds(alloc, 1, 5), Ok(no_statistics(alloc)))?;
    push_set(&mut sets, bounded_without_null(alloc, 20, 30))?;
    Ok(sets)
}

fn three_zones(alloc: Global) -> Result<ZoneMap, StatsError> {
    map_of_sets(alloc, 2, &three_sets(alloc)?)
}

// The map of zones with these row counts, of which nothing is known.
fn map_of_counts(alloc: Global, counts: &[u64]) -> Result<ZoneMap, StatsError> {
    let sets = one_set(alloc, no_statistics(alloc))?;
    let mut zones = Vec::new(alloc);
    for count in counts {
        zones.push(Zone::new(*count, &sets))?;
    }
    map_of(alloc, scope_of(alloc, I32_OR_NULL)?, &zones)
}

// The scan of the six rows by the built-in rules and a map.
fn in_six(alloc: Global, map: Result<ZoneMap, StatsError>, predicate: Built) -> Found {
    let (chunk, map) = (six_rows(alloc)?, map?);
    scanned_by_ranges(alloc, &chunk, &map, &predicate?, &Rules::builtin(alloc))
}

#[test]
fn rows_are_told_by_their_zones(rt: HostRuntime) {
    let alloc = rt.alloc();
    let found = in_six(alloc, map_of_counts(alloc, &[2, 0, 1, 3]), above(alloc, 4));
    expect_found(&rt, found, &[], &[(0, 1), (2, 0), (3, 1), (3, 2)]);
    let found = in_six(alloc, three_zones(alloc), above(alloc, 9)).expect(&rt, "found");
    assert!(rt; has_found(&found, &[0], &[2], &[(1, 0), (2, 0), (2, 1)]));
    assert!(rt; found.evaluated == 2);
    let past = in_six(alloc, map_of_counts(alloc, &[u64::MAX, 7]), above(alloc, 4));
    assert!(rt; matches!(past, Err(StatsError::Mismatch)));
}

// The scan of the six rows from one on.
fn from_row(
    alloc: Global,
    first: usize,
    map: Result<ZoneMap, StatsError>,
    predicate: Built,
) -> Found {
    let (chunk, map) = (six_rows(alloc)?, map?);
    from_row_of(alloc, &chunk, first, &map, &predicate?)
}

fn from_row_of(
    alloc: Global,
    chunk: &Chunk,
    first: usize,
    map: &ZoneMap,
    predicate: &BoundExpression,
) -> Found {
    if !predicate.is_plain() || !predicate.fits_scope(chunk.scope()) {
        return Err(StatsError::OpenProof);
    }
    let rules = Rules::builtin(alloc);
    let found = scan_ranges_from(alloc, chunk, first, map, predicate, &rules)?;
    Ok(found.into_scan()?)
}

#[test]
fn a_stretch_is_scanned_by_itself(rt: HostRuntime) {
    let alloc = rt.alloc();
    let found = from_row(alloc, 2, map_of_counts(alloc, &[1, 2]), above(alloc, 4));
    expect_found(&rt, found, &[], &[(0, 0), (1, 1)]);
    let found = from_row(alloc, 0, three_zones(alloc), above(alloc, 9)).expect(&rt, "found");
    assert!(rt; has_found(&found, &[0], &[2], &[(1, 0), (2, 0), (2, 1)]));
    let found = from_row(alloc, 6, map_of_counts(alloc, &[]), above(alloc, 4));
    expect_found(&rt, found, &[], &[]);
    let past = from_row(alloc, 1, map_of_counts(alloc, &[u64::MAX]), above(alloc, 4));
    assert!(rt; matches!(past, Err(StatsError::Mismatch)));
}

fn turns(alloc: Global, rows: usize) -> Result<Vec<Option<ScalarValue>>, AllocError> {
    let mut values = Vec::new(alloc);
    for row in 0..rows {
        values.push(match row % 4 {
            0 => Some(number(3)),
            1 => None,
            2 => Some(number(7)),
            _ => Some(number(5)),
        })?;
    }
    Ok(values)
}

// A part of so many rows, in turn 3, null, 7 and 5, without statistics.
fn turning(alloc: Global, rows: usize) -> Result<Part, StatsError> {
    let column = column(I32_OR_NULL, turns(alloc, rows), 0);
    let chunk = chunk_of(alloc, scope_of(alloc, I32_OR_NULL), column);
    part_of(alloc, chunk, Ok(no_statistics(alloc)))
}

// Parts that are shorter and longer than a block, and one without rows.
fn long(alloc: Global) -> Table {
    let parts = one_part(alloc, turning(alloc, 1_001));
    let parts = and_part(parts, turning(alloc, 0));
    let parts = and_part(parts, turning(alloc, 1_030));
    tabled(alloc, and_part(parts, turning(alloc, 471)))
}

// How many rows the scans of the long parts select, of which one takes them as ranges of a chunk.
fn selected(alloc: Global, predicate: Built) -> Result<usize, StatsError> {
    let found = scanned(alloc, &long(alloc), predicate)?;
    Ok(found.selected.len())
}

#[test]
fn long_ranges_are_tested_in_blocks(rt: HostRuntime) {
    let alloc = rt.alloc();
    assert!(rt; selected(alloc, above(alloc, 6)).expect(&rt, "a count") == 625);
    assert!(rt; selected(alloc, is_null(alloc, a(alloc))).expect(&rt, "a count") == 626);
    assert!(rt; selected(alloc, not(alloc, above(alloc, 5))).expect(&rt, "a count") == 1_251);
}
