//! Parts, tables and scans for the tests, by calls without a contract that take what other
//! calls answered: a test is one straight line of calls, so its proof stays short.
ghost use Rattle.std.specs.Bool.{OnTrue};
ghost use Rattle.std.specs.Prelude.{◌≡◌, ◌<◌, All, IsTrue};
ghost use Rattle.vortex_base.specs.Data.Columns.{row_count};
ghost use Rattle.vortex_expr.specs.Meanings.Fitting.{fits_scope};
ghost use Rattle.vortex_prune.specs.Zones.{HaveScope};

use crate::nodes::*;
use std::alloc::{AllocError, Global};
use std::slice;
use vortex_base::{Chunk, Column, DType, ScalarValue, Scope};
use vortex_expr::BoundExpression;
use vortex_prune::scan::scan;
use vortex_prune::scan::zones::scan_zones;
use vortex_prune::{
    Part, PartRefused, Pruned, Rules, Scan, StatBinder, StatsBinder, Zones, prune, scan_ranges,
};
use vortex_stats::{Precision, RuleFault, Stat, StatsError, StatsSet};
use vortex_zone_map::{Zone, ZoneMap};

pub type Sets = Result<StatsSet, StatsError>;

pub type ArrayData = Vec<Option<ScalarValue>>;

/// The values of a column of these numbers.
pub fn numbers(alloc: Global, rows: &[Option<i32>]) -> Result<ArrayData, AllocError> {
    let mut values = Vec::new(alloc);
    for row in rows {
        values.push(row.map(number))?;
    }
    Ok(values)
}

/// The values of a column of these texts.
pub fn texts(alloc: Global, rows: &[&str]) -> Result<ArrayData, AllocError> {
    let mut values = Vec::new(alloc);
    for row in rows {
        values.push(Some(text_value(alloc, *row)?))?;
    }
    Ok(values)
}

/// A column's one value.
pub fn one_value(alloc: Global, value: Option<ScalarValue>) -> Result<ArrayData, AllocError> {
    let mut values = Vec::new(alloc);
    values.push(value)?;
    Ok(values)
}

pub fn column(
    dtype: DType,
    values: Result<ArrayData, AllocError>,
    size: u64,
) -> Result<Column, StatsError> {
    told(Column::try_new(dtype, values?, size))
}

fn push_column(
    columns: &mut Vec<Column>,
    column: Result<Column, StatsError>,
) -> Result<(), StatsError> {
    columns.push(column?)?;
    Ok(())
}

fn one_column(alloc: Global, only: Result<Column, StatsError>) -> Result<Vec<Column>, StatsError> {
    let mut columns = Vec::new(alloc);
    push_column(&mut columns, only)?;
    Ok(columns)
}

fn two_columns(
    alloc: Global,
    first: Result<Column, StatsError>,
    second: Result<Column, StatsError>,
) -> Result<Vec<Column>, StatsError> {
    let mut columns = one_column(alloc, first)?;
    push_column(&mut columns, second)?;
    Ok(columns)
}

fn chunk(
    scope: Result<Scope, StatsError>,
    columns: Result<Vec<Column>, StatsError>,
) -> Result<Chunk, StatsError> {
    told(Chunk::try_new(scope?, columns?))
}

pub fn chunk_of(
    alloc: Global,
    scope: Result<Scope, StatsError>,
    only: Result<Column, StatsError>,
) -> Result<Chunk, StatsError> {
    chunk(scope, one_column(alloc, only))
}

pub fn chunk_of_two(
    alloc: Global,
    scope: Result<Scope, StatsError>,
    first: Result<Column, StatsError>,
    second: Result<Column, StatsError>,
) -> Result<Chunk, StatsError> {
    chunk(scope, two_columns(alloc, first, second))
}

pub fn no_statistics(alloc: Global) -> StatsSet {
    StatsSet::new(alloc)
}

pub fn exactly(alloc: Global, stat: Stat, value: ScalarValue) -> StatsSet {
    StatsSet::of(alloc, stat, Precision::Exact(value))
}

pub fn at_most(alloc: Global, stat: Stat, value: ScalarValue) -> StatsSet {
    StatsSet::of(alloc, stat, Precision::Inexact(value))
}

/// The set with one more exact entry.
pub fn and_exactly(set: StatsSet, stat: Stat, value: ScalarValue) -> Sets {
    let mut set = set;
    set.set(stat, Precision::Exact(value))?;
    Ok(set)
}

/// The least value, and one that is at least the greatest.
pub fn bounds(alloc: Global, low: i32, high: i32) -> Sets {
    let mut set = exactly(alloc, Stat::Min, number(low));
    set.set(Stat::Max, Precision::Inexact(number(high)))?;
    Ok(set)
}

/// The least text and the greatest one.
pub fn text_bounds(alloc: Global, least: &str, greatest: &str) -> Sets {
    let set = exactly(alloc, Stat::Min, text_value(alloc, least)?);
    and_exactly(set, Stat::Max, text_value(alloc, greatest)?)
}

/// Bounds of values none of which is null.
pub fn bounded_without_null(alloc: Global, low: i32, high: i32) -> Sets {
    and_exactly(bounds(alloc, low, high)?, Stat::NullCount, count(0))
}

pub fn one_set(alloc: Global, set: StatsSet) -> Result<Vec<StatsSet>, AllocError> {
    let mut sets = Vec::new(alloc);
    sets.push(set)?;
    Ok(sets)
}

/// Adds the set to the sets.
pub fn push_set(sets: &mut Vec<StatsSet>, set: Sets) -> Result<(), StatsError> {
    sets.push(set?)?;
    Ok(())
}

/// The two sets, in order.
pub fn two_sets(alloc: Global, first: Sets, second: Sets) -> Result<Vec<StatsSet>, StatsError> {
    let mut sets = Vec::new(alloc);
    push_set(&mut sets, first)?;
    push_set(&mut sets, second)?;
    Ok(sets)
}

pub fn new_part(chunk: Chunk, sets: Vec<StatsSet>) -> Result<Part, PartRefused> {
    Part::try_new(chunk, sets)
}

fn part(chunk: Chunk, sets: Vec<StatsSet>) -> Result<Part, StatsError> {
    match new_part(chunk, sets) {
        Ok(part) => Ok(part),
        Err(refused) => Err(refused.error),
    }
}

fn made(
    chunk: Result<Chunk, StatsError>,
    sets: Result<Vec<StatsSet>, StatsError>,
) -> Result<Part, StatsError> {
    part(chunk?, sets?)
}

fn set_alone(alloc: Global, set: Sets) -> Result<Vec<StatsSet>, StatsError> {
    Ok(one_set(alloc, set?)?)
}

/// A part of a chunk of one column.
pub fn part_of(
    alloc: Global,
    chunk: Result<Chunk, StatsError>,
    set: Sets,
) -> Result<Part, StatsError> {
    made(chunk, set_alone(alloc, set))
}

/// A part of a chunk of two columns.
pub fn part_of_two(
    alloc: Global,
    chunk: Result<Chunk, StatsError>,
    first: Sets,
    second: Sets,
) -> Result<Part, StatsError> {
    made(chunk, two_sets(alloc, first, second))
}

/// The column `a` of numbers and nulls.
pub fn a(alloc: Global) -> Built {
    col(alloc, 0, I32_OR_NULL)
}

/// The comparison of `a`, which has to be above a number.
pub fn above(alloc: Global, value: i32) -> Built {
    gt(alloc, a(alloc), int(alloc, value))
}

pub fn chunk_of_numbers(alloc: Global, rows: &[Option<i32>]) -> Result<Chunk, StatsError> {
    let column = column(I32_OR_NULL, numbers(alloc, rows), 0);
    chunk_of(alloc, scope_of(alloc, I32_OR_NULL), column)
}

/// A part of these rows of `a`, of which this is known.
pub fn part_of_numbers(alloc: Global, rows: &[Option<i32>], set: Sets) -> Result<Part, StatsError> {
    part_of(alloc, chunk_of_numbers(alloc, rows), set)
}

pub type Parts = Result<Vec<Part>, StatsError>;

pub fn no_parts(alloc: Global) -> Parts {
    Ok(Vec::new(alloc))
}

/// The parts with one more.
pub fn and_part(parts: Parts, part: Result<Part, StatsError>) -> Parts {
    let mut parts = parts?;
    push_part(&mut parts, part)?;
    Ok(parts)
}

fn push_part(parts: &mut Vec<Part>, part: Result<Part, StatsError>) -> Result<(), StatsError> {
    parts.push(part?)?;
    Ok(())
}

pub fn one_part(alloc: Global, part: Result<Part, StatsError>) -> Parts {
    and_part(no_parts(alloc), part)
}

// Whether a part has the scope.
fn has_scope(part: &Part, scope: &Scope) -> bool
    ensures { OnTrue result (part.now.chunk.scope ≡ scope.now) }
{
    *part.chunk().scope() == *scope
}

/// Whether each part has the scope.
pub fn all_scoped(scope: &Scope, parts: &[Part]) -> bool
    ensures { OnTrue result (HaveScope scope.now parts.now) }
{
    for part in parts {
        if !has_scope(part, scope) {
            return false;
        }
    }
    true
}

fn zones(alloc: Global, scope: Scope, parts: Vec<Part>) -> Result<Zones, StatsError> {
    if !all_scoped(&scope, &parts) {
        return Err(StatsError::Mismatch);
    }
    match Zones::try_new(alloc, scope, parts) {
        Ok(zones) => Ok(zones),
        Err(refused) => Err(refused.error),
    }
}

/// The parts with their table, and `Mismatch` where one hasn't this scope.
pub fn zones_of(
    alloc: Global,
    scope: Result<Scope, StatsError>,
    parts: Parts,
) -> Result<Zones, StatsError> {
    zones(alloc, scope?, parts?)
}

/// The table of one part of `a`.
pub fn table_of_numbers(
    alloc: Global,
    rows: &[Option<i32>],
    set: Sets,
) -> Result<Zones, StatsError> {
    let parts = one_part(alloc, part_of_numbers(alloc, rows, set));
    zones_of(alloc, scope_of(alloc, I32_OR_NULL), parts)
}

fn fits_part(predicate: &BoundExpression, part: &Part) -> bool
    ensures { OnTrue result (IsTrue (fits_scope predicate.now part.now.chunk.scope)) }
{
    predicate.fits_scope(part.chunk().scope())
}

/// Whether the predicate fits the scope of each part.
pub fn all_fit(parts: &[Part], predicate: &BoundExpression) -> bool
    ensures { OnTrue result
        (All (λ part. IsTrue (fits_scope predicate.now part.chunk.scope)) parts.now) }
{
    for part in parts {
        if !fits_part(predicate, part) {
            return false;
        }
    }
    true
}

pub type Found = Result<Scan, StatsError>;

// Whether two scans were refused for the same, the fault of a rule or a binder included.
fn is_same_refusal(one: &StatsError, other: &StatsError) -> bool {
    match (one, other) {
        (StatsError::Rule(RuleFault::Own(one)), StatsError::Rule(RuleFault::Own(other))) => {
            one == other
        }
        (StatsError::Rule(RuleFault::NotBool), StatsError::Rule(RuleFault::NotBool)) => true,
        (StatsError::Rule(_), StatsError::Rule(_)) => false,
        _ => one.number() == other.number(),
    }
}

// Whether two scans found the same, or were refused for the same.
fn is_agreed(one: &Found, other: &Found) -> bool {
    match (one, other) {
        (Ok(one), Ok(other)) => *one == *other,
        (Err(one), Err(other)) => is_same_refusal(one, other),
        _ => false,
    }
}

/// The scan by these rules and binders.
pub fn scanned_with<B: StatBinder>(
    alloc: Global,
    parts: &[Part],
    binders: &[B],
    predicate: &BoundExpression,
    rules: &Rules,
) -> Found {
    if binders.len() != parts.len() || !predicate.is_plain() || !all_fit(parts, predicate) {
        return Err(StatsError::Mismatch);
    }
    scan(alloc, parts, binders, predicate, rules)
}

/// The scan by the binders of the parts' own statistics.
pub fn scanned_by_part(
    alloc: Global,
    parts: &[Part],
    predicate: &BoundExpression,
    rules: &Rules,
) -> Found {
    let binders = StatsBinder::of_parts(alloc, parts)?;
    scanned_with(alloc, parts, &binders, predicate, rules)
}

/// The scan by the binder of the parts' table.
pub fn scanned_by_table(
    alloc: Global,
    zones: &Zones,
    predicate: &BoundExpression,
    rules: &Rules,
) -> Found {
    if !predicate.is_plain() || !predicate.fits_scope(zones.scope()) {
        return Err(StatsError::Mismatch);
    }
    scan_zones(alloc, zones, predicate, rules)
}

// The columns of a scope without rows.
fn empty_columns(alloc: Global, scope: &Scope) -> Result<Vec<Column>, StatsError> {
    let mut columns = Vec::new(alloc);
    for place in 0..scope.len() {
        columns.push(column(scope.dtype(place), Ok(Vec::new(alloc)), 0)?)?;
    }
    Ok(columns)
}

// The values of the row at a place.
fn values_of(alloc: Global, chunk: &Chunk, place: usize) -> Result<ArrayData, AllocError>
    requires { place < row_count chunk.now.columns }
{
    let row = chunk.row(place);
    let mut values = Vec::new(alloc);
    for i in 0..row.len() {
        match row.value(i) {
            None => values.push(None)?,
            Some(value) => values.push(Some(value.to_value()?))?,
        }
    }
    Ok(values)
}

// Adds the rows of a chunk to one of the same scope.
fn push_rows(alloc: Global, whole: &mut Chunk, chunk: &Chunk) -> Result<(), StatsError> {
    for place in 0..chunk.rows() {
        told(whole.push_row(values_of(alloc, chunk, place)?))?;
    }
    Ok(())
}

/// The rows of all parts as one chunk.
pub fn chunk_of_all(alloc: Global, zones: &Zones) -> Result<Chunk, StatsError> {
    let mut whole = chunk(copied(zones.scope()), empty_columns(alloc, zones.scope()))?;
    for part in zones.parts() {
        push_rows(alloc, &mut whole, part.chunk())?;
    }
    Ok(whole)
}

fn copied(scope: &Scope) -> Result<Scope, StatsError> {
    Ok(scope.try_clone()?)
}

/// The scan of a chunk by a map; `Mismatch` where the predicate doesn't fit it.
pub fn scanned_by_ranges(
    alloc: Global,
    chunk: &Chunk,
    map: &ZoneMap,
    predicate: &BoundExpression,
    rules: &Rules,
) -> Found {
    if !predicate.is_plain() || !predicate.fits_scope(chunk.scope()) {
        return Err(StatsError::Mismatch);
    }
    scan_ranges(alloc, chunk, map, predicate, rules)
}

// The scan of the rows of all parts as one chunk, of which the parts are ranges.
fn scanned_as_one(
    alloc: Global,
    zones: &Zones,
    predicate: &BoundExpression,
    rules: &Rules,
) -> Found {
    let whole = chunk_of_all(alloc, zones)?;
    scanned_by_ranges(alloc, &whole, zones.map(), predicate, rules)
}

// The parts as they are known without their rows.
fn known_of<'a>(alloc: Global, parts: &'a [Part]) -> Result<Vec<Zone<'a>>, AllocError> {
    let mut zones = Vec::new(alloc);
    for part in parts {
        zones.push(part.zone())?;
    }
    Ok(zones)
}

/// The map of these zones.
pub fn map_of(alloc: Global, scope: Scope, zones: &[Zone<'_>]) -> Result<ZoneMap, StatsError> {
    match ZoneMap::try_new(alloc, scope, zones) {
        Ok(map) => Ok(map),
        Err(refused) => Err(refused.error),
    }
}

/// Zones of so many rows, each with one of the sets.
pub fn zones_of_sets<'a>(
    alloc: Global,
    rows: u64,
    sets: &'a [StatsSet],
) -> Result<Vec<Zone<'a>>, AllocError> {
    let mut zones = Vec::new(alloc);
    for set in sets {
        zones.push(Zone::new(rows, slice::from_ref(set)))?;
    }
    Ok(zones)
}

/// The map of zones of so many rows, each with one of the sets of `a`.
pub fn map_of_sets(alloc: Global, rows: u64, sets: &[StatsSet]) -> Result<ZoneMap, StatsError> {
    let zones = zones_of_sets(alloc, rows, sets)?;
    map_of(alloc, scope_of(alloc, I32_OR_NULL)?, &zones)
}

/// Pruning by a map; `Mismatch` where the predicate doesn't fit it.
pub fn pruned_by(
    alloc: Global,
    map: &ZoneMap,
    predicate: &BoundExpression,
    rules: &Rules,
) -> Result<Pruned, StatsError> {
    if !predicate.is_plain() || !predicate.fits_scope(map.scope()) {
        return Err(StatsError::Mismatch);
    }
    prune(alloc, map, predicate, rules)
}

// Pruning by what is known of the parts without their rows.
fn pruned_without_rows(
    alloc: Global,
    zones: &Zones,
    predicate: &BoundExpression,
    rules: &Rules,
) -> Result<Pruned, StatsError> {
    let known = known_of(alloc, zones.parts())?;
    let map = map_of(alloc, zones.scope().try_clone()?, &known)?;
    pruned_by(alloc, &map, predicate, rules)
}

// Whether pruning lists the parts that a scan does, or was refused for the same.
fn is_also_pruned(found: &Found, pruned: &Result<Pruned, StatsError>) -> bool {
    match (found, pruned) {
        (Ok(found), Ok(pruned)) => {
            found.skipped.as_slice() == pruned.skipped.as_slice()
                && found.whole.as_slice() == pruned.whole.as_slice()
        }
        (Err(one), Err(other)) => is_same_refusal(one, other),
        _ => false,
    }
}

// The scan in three ways, and what pruning does without the rows; `Mismatch` where two differ.
fn all_scans(alloc: Global, zones: &Zones, predicate: &BoundExpression, rules: &Rules) -> Found {
    let found = scanned_by_part(alloc, zones.parts(), predicate, rules);
    let by_table = scanned_by_table(alloc, zones, predicate, rules);
    let as_one = scanned_as_one(alloc, zones, predicate, rules);
    let pruned = pruned_without_rows(alloc, zones, predicate, rules);
    if is_agreed(&found, &by_table)
        && is_agreed(&found, &as_one)
        && is_also_pruned(&found, &pruned)
    {
        found
    } else {
        Err(StatsError::Mismatch)
    }
}

/// The scan of the parts by these rules and their own statistics: with a binder for each part, with
/// one for their table, and of their rows as one chunk; and pruning without their rows. `Mismatch`
/// where two differ.
pub fn scanned_by(
    alloc: Global,
    zones: &Result<Zones, StatsError>,
    predicate: Built,
    rules: &Rules,
) -> Found {
    match zones {
        Ok(zones) => all_scans(alloc, zones, &predicate?, rules),
        Err(_) => Err(StatsError::Mismatch),
    }
}

/// Scans zones by the built-in rules.
pub fn scanned(alloc: Global, zones: &Result<Zones, StatsError>, predicate: Built) -> Found {
    scanned_by(alloc, zones, predicate, &Rules::builtin(alloc))
}

pub fn is_memory(refused: &StatsError) -> bool {
    matches!(refused, StatsError::Memory(_))
}

/// Whether the scan found these parts and rows.
pub fn has_found(
    found: &Scan,
    skipped: &[usize],
    whole: &[usize],
    selected: &[(usize, usize)],
) -> bool {
    found.skipped.as_slice() == skipped
        && found.whole.as_slice() == whole
        && found.selected.as_slice() == selected
}
