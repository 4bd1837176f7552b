//! Answers of the callers of `vortex_examples` where memory is ample.
ghost use Rattle.std.specs.Prelude.{◌≡◌, All, IsTrue};
ghost use Rattle.std.specs.Bool.{OnTrue};
ghost use Rattle.vortex_expr.specs.Meanings.Fitting.{fits_scope};

use super::*;
use vortex_base::{AggregateFnRef, Chunk, ScalarValue};
use vortex_examples::known::{Entry, Known, scan_by_known};
use vortex_examples::measured::{scan_by_statistics, scan_checked, scan_measured};
use vortex_examples::null_operands::NullOperands;
use vortex_examples::planner::scan_by_null_operands;
use vortex_examples::reader::{zones_left_out, zones_left_out_of_all};
use vortex_examples::writer::{write_pair, write_zones};
use vortex_expr::BoundExpression;
use vortex_prune::{Scan, falsify};

type Chunks = Result<Vec<Chunk>, StatsError>;

type Places = Result<Vec<usize>, StatsError>;

fn push_chunk(chunks: &mut Vec<Chunk>, chunk: Result<Chunk, StatsError>) -> Result<(), StatsError> {
    chunks.push(chunk?)?;
    Ok(())
}

// The numbers 1, 5, 10, then two nulls, no rows, and 8, null, 20.
fn four_chunks(alloc: Global) -> Chunks {
    let mut chunks = Vec::new(alloc);
    push_chunk(
        &mut chunks,
        chunk_of_numbers(alloc, &[Some(1), Some(5), Some(10)]),
    )?;
    push_chunk(&mut chunks, chunk_of_numbers(alloc, &[None, None]))?;
    push_chunk(&mut chunks, chunk_of_numbers(alloc, &[]))?;
    push_chunk(
        &mut chunks,
        chunk_of_numbers(alloc, &[Some(8), None, Some(20)]),
    )?;
    Ok(chunks)
}

fn fits_chunk(predicate: &BoundExpression, chunk: &Chunk) -> bool
    ensures { OnTrue result (IsTrue (fits_scope predicate.now chunk.now.scope)) }
{
    predicate.fits_scope(chunk.scope())
}

fn fits_chunks(predicate: &BoundExpression, chunks: &[Chunk]) -> bool
    ensures { OnTrue result
        (All (λ chunk. IsTrue (fits_scope predicate.now chunk.scope)) chunks.now) }
{
    for chunk in chunks {
        if !fits_chunk(predicate, chunk) {
            return false;
        }
    }
    true
}

// The scan where the predicate is plain and fits the chunks, else `Mismatch`.
fn found_measured(alloc: Global, chunks: Chunks, predicate: Built) -> Found {
    let (chunks, predicate) = (chunks?, predicate?);
    if !predicate.is_plain() || !fits_chunks(&predicate, &chunks) {
        return Err(StatsError::Mismatch);
    }
    scan_measured(alloc, chunks, &predicate)
}

fn has_scope(chunk: &Chunk, scope: &Scope) -> bool
    ensures { OnTrue result (chunk.now.scope ≡ scope.now) }
{
    *chunk.scope() == *scope
}

// The zone of a chunk of the scope.
fn written(
    alloc: Global,
    scope: Result<Scope, StatsError>,
    chunk: Result<Chunk, StatsError>,
) -> Table {
    let (scope, chunk) = (scope?, chunk?);
    if !has_scope(&chunk, &scope) {
        return Err(StatsError::Mismatch);
    }
    let mut chunks = Vec::new(alloc);
    chunks.push(chunk)?;
    write_zones(alloc, scope, chunks)
}

#[test]
fn measured_chunks_have_their_rows(rt: HostRuntime) {
    let alloc = rt.alloc();
    let found = found_measured(alloc, four_chunks(alloc), above(alloc, 10));
    expect_found(&rt, found, &[0], &[(3, 2)]);
    let last = chunk_of_numbers(alloc, &[Some(8), None, Some(20)]);
    let zones = written(alloc, scope_of(alloc, I32_OR_NULL), last);
    let found = scanned(alloc, &zones, is_null(alloc, a(alloc)));
    expect_found(&rt, found, &[], &[(0, 1)]);
}

fn pair(
    alloc: Global,
    first: Result<Chunk, StatsError>,
    second: Result<Chunk, StatsError>,
) -> Result<Part, StatsError> {
    let (first, second) = (first?, second?);
    if !has_scope(&first, second.scope()) {
        return Err(StatsError::Mismatch);
    }
    write_pair(alloc, first, second)
}

#[test]
fn written_pair_has_the_bounds_of_both(rt: HostRuntime) {
    let alloc = rt.alloc();
    let first = chunk_of_numbers(alloc, &[Some(8), None, Some(20)]);
    let both = pair(alloc, first, chunk_of_numbers(alloc, &[Some(1), Some(5)]));
    let table = tabled(alloc, one_part(alloc, both));
    expect_found(&rt, scanned(alloc, &table, above(alloc, 20)), &[0], &[]);
    let found = scanned(alloc, &table, above(alloc, 4));
    expect_found(&rt, found, &[], &[(0, 0), (0, 2), (0, 4)]);
}

// The numbers 1, 5, and 8, null, 20, of which the greatest is said to be at most this.
fn two_parts(alloc: Global, greatest: i32) -> Parts {
    let first = part_of_numbers(alloc, &[Some(1), Some(5)], bounds(alloc, 1, 10));
    let rows = [Some(8), None, Some(20)];
    let second = part_of_numbers(alloc, &rows, bounds(alloc, 8, greatest));
    and_part(one_part(alloc, first), second)
}

// The scan by the parts' own statistics where the predicate is plain and fits, else `Mismatch`.
fn found_by_statistics(alloc: Global, parts: Parts, predicate: Built) -> Found {
    let (parts, predicate) = (parts?, predicate?);
    if !predicate.is_plain() || !all_fit(&parts, &predicate) {
        return Err(StatsError::Mismatch);
    }
    scan_by_statistics(alloc, &parts, &predicate)
}

// The scan of checked parts.
fn found_checked(
    alloc: Global,
    parts: Parts,
    predicate: Built,
) -> Result<Option<Scan>, StatsError> {
    let (parts, predicate) = (parts?, predicate?);
    if !predicate.is_plain() || !all_fit(&parts, &predicate) {
        return Err(StatsError::Mismatch);
    }
    scan_checked(alloc, &parts, &predicate)
}

#[test]
fn true_parts_alone_are_scanned(rt: HostRuntime) {
    let alloc = rt.alloc();
    let found = found_by_statistics(alloc, two_parts(alloc, 20), above(alloc, 10));
    expect_found(&rt, found, &[0], &[(1, 2)]);
    let found = found_checked(alloc, two_parts(alloc, 20), above(alloc, 10)).expect(&rt, "found");
    expect_found(&rt, found.ok_or(StatsError::Mismatch), &[0], &[(1, 2)]);
    let found = found_checked(alloc, two_parts(alloc, 19), above(alloc, 10)).expect(&rt, "found");
    assert!(rt; found.is_none());
}

fn left_out(alloc: Global, table: Table, predicate: Built) -> Places {
    let (table, predicate) = (table?, predicate?);
    if !predicate.is_plain() || !predicate.fits_scope(table.scope()) {
        return Err(StatsError::Mismatch);
    }
    zones_left_out(alloc, table.map(), &predicate)
}

// A footer of the first part's statistics, to which those of the second are appended.
fn left_out_of_both(
    alloc: Global,
    first: Result<Part, StatsError>,
    second: Result<Part, StatsError>,
    predicate: Built,
) -> Places {
    let (first, second, predicate) = (first?, second?, predicate?);
    let mut footer = map_of(alloc, scope_of(alloc, I32_OR_NULL)?, &[first.zone()])?;
    if !predicate.is_plain() || !predicate.fits_scope(footer.scope()) {
        return Err(StatsError::Mismatch);
    }
    zones_left_out_of_all(alloc, &mut footer, &[second.zone()], &predicate)
}

fn expect_places(rt: &impl Abort, found: Places, places: &[usize]) {
    assert!(rt; found.expect(rt, "found").as_slice() == places);
}

#[test]
fn reader_leaves_out_what_the_footer_rules_out(rt: HostRuntime) {
    let alloc = rt.alloc();
    let table = tabled(alloc, two_parts(alloc, 20));
    expect_places(&rt, left_out(alloc, table, above(alloc, 10)), &[0]);
    let first = part_of_numbers(alloc, &[Some(1)], bounds(alloc, 1, 10));
    let second = part_of_numbers(alloc, &[Some(8)], bounds(alloc, 8, 25));
    let low = lt(alloc, a(alloc), int(alloc, 8));
    expect_places(&rt, left_out_of_both(alloc, first, second, low), &[1]);
}

fn found_by_null_operands(alloc: Global, parts: Parts, predicate: Built) -> Found {
    let (parts, predicate) = (parts?, predicate?);
    if !predicate.is_plain() || !all_fit(&parts, &predicate) {
        return Err(StatsError::Mismatch);
    }
    scan_by_null_operands(alloc, &parts, &predicate)
}

fn rules_of_patterns(alloc: Global) -> Result<Rules, AllocError> {
    let function = ScalarFnId::Like;
    rules_of(alloc, Box::new(alloc, NullOperands { function })?)
}

fn falsified(
    alloc: Global,
    predicate: Built,
    rules: Result<Rules, AllocError>,
) -> Result<Option<BoundExpression>, StatsError> {
    let (predicate, rules) = (predicate?, rules?);
    falsify(alloc, &predicate, &rules)
}

fn is_falsifier(
    found: Result<Option<BoundExpression>, StatsError>,
    expected: Built,
) -> Result<bool, StatsError> {
    Ok(found? == Some(expected?))
}

#[test]
fn planner_skips_parts_of_nulls(rt: HostRuntime) {
    let alloc = rt.alloc();
    let nulls = Ok(exactly(alloc, Stat::NullCount, count(2)));
    let nulls = one_part(alloc, part_of_numbers(alloc, &[None, None], nulls));
    let rows = [Some(8), None, Some(20)];
    let last = part_of_numbers(alloc, &rows, bounds(alloc, 8, 25));
    let found = found_by_null_operands(alloc, and_part(nulls, last), above(alloc, 10));
    expect_found(&rt, found, &[0], &[(1, 2)]);
}

#[test]
fn texts_that_are_null_are_like_none(rt: HostRuntime) {
    let alloc = rt.alloc();
    let ends = like(alloc, col(alloc, 1, UTF8), text(alloc, "%x"));
    let found = falsified(alloc, ends, rules_of_patterns(alloc));
    let nulls = stat(alloc, col(alloc, 1, UTF8), AggregateFnRef::AllNull);
    assert!(rt; is_falsifier(found, nulls).expect(&rt, "an answer"));
}

// The binder that knows how much the greatest value of `a` is.
fn known(alloc: Global, greatest: i32) -> Result<Known, StatsError> {
    let mut entries = Vec::new(alloc);
    entries.push(Entry {
        input: a(alloc)?,
        aggregate: AggregateFnRef::Max,
        value: scalar(I32, Some(ScalarValue::from(greatest)))?,
    })?;
    Ok(Known { entries })
}

fn two_known(alloc: Global, first: i32, second: i32) -> Result<Vec<Known>, StatsError> {
    let mut told = Vec::new(alloc);
    told.push(known(alloc, first)?)?;
    told.push(known(alloc, second)?)?;
    Ok(told)
}

fn found_by_known(
    alloc: Global,
    parts: Parts,
    told: Result<Vec<Known>, StatsError>,
    predicate: Built,
) -> Found {
    let (parts, told, predicate) = (parts?, told?, predicate?);
    if !predicate.is_plain() || !all_fit(&parts, &predicate) || told.len() != parts.len() {
        return Err(StatsError::Mismatch);
    }
    scan_by_known(alloc, &parts, &told, &predicate, &Rules::builtin(alloc))
}

#[test]
fn scan_by_known_skips_by_what_was_told(rt: HostRuntime) {
    let alloc = rt.alloc();
    let told = two_known(alloc, 5, 20);
    let found = found_by_known(alloc, two_parts(alloc, 20), told, above(alloc, 6));
    expect_found(&rt, found, &[0], &[(1, 0), (1, 2)]);
}
