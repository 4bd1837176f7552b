// Scans of many small parts: by a binder for each, and by one for their table.
ghost use Rattle.std.specs.Bool.{OnTrue};
ghost use Rattle.std.specs.Prelude.{◌≡◌, All, IfOk, IsTrue};
ghost use Rattle.vortex_expr.specs.Meanings.Fitting.{fits_scope};
ghost use Rattle.vortex_expr.specs.Trees.Tree.{is_plain};
ghost use Rattle.vortex_prune.specs.Zones.{HaveScope};

use crate::made::{NUMBER, above, add, bounds, scope_of};
use anyhow::Result;
use std::alloc::{AllocError, Global};
use vortex_base::chunk::Chunk;
use vortex_base::column::Column;
use vortex_base::error::BaseError;
use vortex_base::scalar_value::ScalarValue;
use vortex_base::scope::Scope;
use vortex_expr::bound;
use vortex_expr::bound_expression::BoundExpression;
use vortex_prune::bind::stats_binder::StatsBinder;
use vortex_prune::part::Part;
use vortex_prune::scan::scan;
use vortex_prune::scan::zones::scan_zones;
use vortex_prune::zones::Zones;
use vortex_rewrite::rewrite::rules::Rules;
use vortex_stats::error::StatsError;
use vortex_stats::stats_set::StatsSet;

const REPEATS: u32 = 10;

/// How many parts of one row there are, and of how many columns.
#[derive(Clone, Copy)]
pub struct Size {
    pub parts: i64,
    pub columns: usize,
}

/// 200,000 parts of one column.
pub const NARROW: Size = Size {
    parts: 200_000,
    columns: 1,
};

/// 2,000 parts of 30 columns.
pub const WIDE: Size = Size {
    parts: 2_000,
    columns: 30,
};

fn column_of(alloc: Global, number: i64) -> Result<Column, BaseError> {
    let values = vec![in alloc; Some(ScalarValue::from(number))]?;
    Column::try_new(NUMBER, values, 8)
}

fn columns_of(alloc: Global, size: Size, number: i64) -> Result<Vec<Column>, BaseError> {
    let mut columns = Vec::new(alloc);
    for _ in 0..size.columns {
        add(&mut columns, column_of(alloc, number))?;
    }
    Ok(columns)
}

// A row whose columns all hold this number.
fn chunk_of(alloc: Global, size: Size, number: i64) -> Result<Chunk, BaseError> {
    let columns = columns_of(alloc, size, number)?;
    Chunk::try_new(scope_of(alloc, size.columns)?, columns)
}

fn sets_of(alloc: Global, size: Size, number: i64) -> Result<Vec<StatsSet>, StatsError> {
    let mut sets = Vec::new(alloc);
    for _ in 0..size.columns {
        sets.push(bounds(alloc, number, number)?)?;
    }
    Ok(sets)
}

// A part of one row, whose columns all hold this number.
fn part_of(alloc: Global, size: Size, number: i64) -> Result<Part> {
    let sets = sets_of(alloc, size, number)?;
    match Part::try_new(chunk_of(alloc, size, number)?, sets) {
        Ok(part) => Ok(part),
        Err(refused) => Err(refused.error.into()),
    }
}

// Whether a part has the scope.
fn has_scope(part: &Part, scope: &Scope) -> bool
    ensures { OnTrue result (part.now.chunk.scope ≡ scope.now) }
{
    *part.chunk().scope() == *scope
}

// Whether each part has the scope.
fn all_scoped(scope: &Scope, parts: &[Part]) -> bool
    ensures { OnTrue result (HaveScope scope.now parts.now) }
{
    for part in parts {
        if !has_scope(part, scope) {
            return false;
        }
    }
    true
}

fn add_part(parts: &mut Vec<Part>, part: Result<Part>) -> Result<()> {
    parts.push(part?)?;
    Ok(())
}

// Parts of which each holds its own place.
fn parts_of(alloc: Global, size: Size) -> Result<Vec<Part>> {
    let mut parts = Vec::new(alloc);
    for number in 0..size.parts {
        add_part(&mut parts, part_of(alloc, size, number))?;
    }
    Ok(parts)
}

// The table of the parts.
fn table_of(alloc: Global, size: Size) -> Result<Zones> {
    let parts = parts_of(alloc, size)?;
    let scope = scope_of(alloc, size.columns)?;
    if !all_scoped(&scope, &parts) {
        return Err(StatsError::Mismatch.into());
    }
    match Zones::try_new(alloc, scope, parts) {
        Ok(zones) => Ok(zones),
        Err(refused) => Err(refused.error.into()),
    }
}

// Each column is above a number that all but a hundred parts lie below.
fn all_above(alloc: Global, size: Size) -> Result<BoundExpression> {
    let least = size.parts.saturating_sub(101);
    let mut all = above(alloc, 0, least)?;
    for place in 1..size.columns {
        all = bound::and(alloc, all, above(alloc, place, least)?)?;
    }
    Ok(all)
}

// Whether the predicate fits the scope of each part.
fn all_fit(parts: &[Part], predicate: &BoundExpression) -> bool
    ensures { OnTrue result
        (All (λ part. IsTrue (fits_scope predicate.now part.chunk.scope)) parts.now) }
{
    for part in parts {
        if !predicate.fits_scope(part.chunk().scope()) {
            return false;
        }
    }
    true
}

// The binder of each part's own statistics.
fn binders_of<'a>(alloc: Global, parts: &'a [Part]) -> Result<Vec<StatsBinder<'a>>, AllocError>
    ensures { IfOk result (λ binders. binders.items ≡ parts.entry.now) }
{
    let mut binders = Vec::with_capacity(alloc, parts.len())?;
    for part in parts {
        binders.push(StatsBinder::new(part))?;
    }
    Ok(binders)
}

// A table, and what it is scanned for.
#[derive(Drop)]
struct Work {
    zones: Zones,
    predicate: BoundExpression,
}

fn work_of(alloc: Global, size: Size) -> Result<Work> {
    let zones = table_of(alloc, size)?;
    let predicate = all_above(alloc, size)?;
    Ok(Work { zones, predicate })
}

fn rows_of(work: &Work) -> Result<usize> {
    if !all_fit(work.zones.parts(), &work.predicate) {
        return Err(StatsError::Mismatch.into());
    }
    Ok(work.zones.table().rows())
}

// The rows that one scan by a binder for each part selects.
fn by_binders(
    alloc: Global,
    parts: &[Part],
    predicate: &BoundExpression,
    rules: &Rules,
) -> Result<usize, StatsError>
    requires plain { IsTrue (is_plain predicate.now) }
    requires fits { All (λ part. IsTrue (fits_scope predicate.now part.chunk.scope)) parts.now }
{
    let binders = binders_of(alloc, parts)?;
    let scan = scan(alloc, parts, &binders, predicate, rules)?;
    Ok(scan.selected.len())
}

fn often_by_binders(alloc: Global, work: &Work) -> Result<usize> {
    let parts = work.zones.parts();
    let predicate = &work.predicate;
    if !predicate.is_plain() || !all_fit(parts, predicate) {
        return Err(StatsError::Mismatch.into());
    }
    let rules = Rules::builtin(alloc);
    let mut selected = 0;
    for _ in 0..REPEATS {
        selected = by_binders(alloc, parts, predicate, &rules)?;
    }
    Ok(selected)
}

// The rows that one scan by the table selects.
fn by_table(
    alloc: Global,
    zones: &Zones,
    predicate: &BoundExpression,
    rules: &Rules,
) -> Result<usize, StatsError>
    requires plain { IsTrue (is_plain predicate.now) }
    requires fits { IsTrue (fits_scope predicate.now zones.now.scope) }
{
    let scan = scan_zones(alloc, zones, predicate, rules)?;
    Ok(scan.selected.len())
}

fn often_by_table(alloc: Global, work: &Work) -> Result<usize> {
    let zones = &work.zones;
    let predicate = &work.predicate;
    if !predicate.is_plain()
        || !predicate.fits_scope(zones.scope())
        || !all_fit(zones.parts(), predicate)
    {
        return Err(StatsError::Mismatch.into());
    }
    let rules = Rules::builtin(alloc);
    let mut selected = 0;
    for _ in 0..REPEATS {
        selected = by_table(alloc, zones, predicate, &rules)?;
    }
    Ok(selected)
}

// A way to scan a table.
#[derive(Clone, Copy)]
enum Way {
    Made,
    Binders,
    Table,
}

fn count_of(alloc: Global, work: &Work, way: Way) -> Result<usize> {
    match way {
        Way::Made => rows_of(work),
        Way::Binders => often_by_binders(alloc, work),
        Way::Table => often_by_table(alloc, work),
    }
}

fn counted(alloc: Global, size: Size, way: Way) -> Result<usize> {
    count_of(alloc, &work_of(alloc, size)?, way)
}

/// The parts that have a row in their table, which is made and not scanned.
pub fn only_tabled(alloc: Global, size: Size) -> Result<usize> {
    counted(alloc, size, Way::Made)
}

/// The rows that the last of some scans by a binder for each part selects.
pub fn scanned_by_binders(alloc: Global, size: Size) -> Result<usize> {
    counted(alloc, size, Way::Binders)
}

/// The rows that the last of some scans by the table selects.
pub fn scanned_by_table(alloc: Global, size: Size) -> Result<usize> {
    counted(alloc, size, Way::Table)
}
