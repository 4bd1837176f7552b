//! The cells of a map's table, read straight from a caller's arrays.
ghost use Rattle.std.specs.Prelude.{◌≡◌, ◌+◌, ◌*◌, ◌<◌, ◌≤◌, ◌^◌, ℕ, IfSome, List, None, Ok, Some};
ghost use Rattle.std.specs.Prelude.{length};
ghost use Rattle.vortex_base.specs.declared.aggregate.AggregateFnRef.{AggregateFnRef};
ghost use Rattle.std.specs.Bool.{OnTrue};
ghost use Rattle.vortex_base.specs.Data.ArrayData.{cell_values};
ghost use Rattle.vortex_capi.specs.MapCells as spec;
ghost use Rattle.vortex_capi.specs.declared.table.Source.{Source as SourceData};
ghost use Rattle.vortex_zone_map.specs.Tables.{slot};
ghost use Rattle.vortex_zone_map.specs.ZoneMaps.{heads as all_heads};

use crate::numbers::{numbers_are_read, told_numbers};
use crate::table::{Source, source_there};
use std::alloc::Global;
use vortex_base::aggregate::AggregateFnRef;
use vortex_base::array_data::ArrayData;
use vortex_base::dtype::DType;
use vortex_base::nulls::Nulls;
use vortex_base::scalar_value::ScalarValue;
use vortex_base::scope::Scope;
use vortex_stats::stat::Stat;
use vortex_zone_map::{StatColumn, StatFn};

// Where a statistic of a column stands among those of all columns.
fn stat_place(column: usize, stat: Stat) -> usize
    requires { slot column stat < 2 ^ 64 }
    ensures { result ≡ slot column stat }
{
    column * 9 + usize::from(stat.number())
}

// For each statistic of each column where the last that is this one stands. Where none is, it is
// the number of statistics.
fn last_entries(alloc: Global, columns: usize, sources: &[Source<'_>]) -> Option<Vec<usize>>
    ensures wide { IfSome result (λ lasts. length lasts.items ≡ columns * 9) }
    ensures last { IfSome result (λ lasts.
        spec.AreLasts sources.now (length sources.now) lasts.items) }
{
    let mut lasts = vec![in alloc; sources.len(); columns.checked_mul(9)?].ok()?;
    for entry in 0..sources.len() {
        let source = source_there(sources, entry);
        if source.statistic.column < columns {
            lasts[stat_place(source.statistic.column, source.stat)] = entry;
        }
    }
    Some(lasts)
}

// Where the statistic stands that counts for a head, if it reads one.
fn head_entry(lasts: &[usize], head: &StatColumn) -> Option<usize>
    requires { head.now.source * 9 + 8 < length lasts.now }
    ensures { (sources : List SourceData) → spec.AreLasts sources (length sources) lasts.now
        → IfSome result (spec.IsCounting sources head.now) }
{
    let stat = StatFn::reads(head.aggregate())?;
    Some(lasts[stat_place(head.source(), stat)])
}

/// For each head of a scope where the statistic stands that counts: the last that is the one that
/// it reads. Where none is, it is the number of statistics.
pub(crate) fn head_entries(
    alloc: Global,
    scope: &Scope,
    sources: &[Source<'_>],
    heads: &[StatColumn],
) -> Option<Vec<usize>>
    requires { heads.now ≡ all_heads scope.now }
    ensures long { IfSome result (λ entries. length entries.items ≡ length heads.now) }
    ensures counting { IfSome result (λ entries.
        spec.AreCounting sources.now heads.now entries.items) }
{
    let lasts = last_entries(alloc, scope.len(), sources)?;
    let mut entries = Vec::with_capacity(alloc, heads.len()).ok()?;
    for place in 0..heads.len() {
        entries.push(head_entry(&lasts, &heads[place])?).ok()?;
    }
    Some(entries)
}

// Whether a value of any kind is there for each of the first zones of which a statistic says
// anything.
fn values_are_read(source: &Source<'_>, zones: usize) -> bool
    ensures { OnTrue result (spec.AreRead source.now zones) }
{
    for zone in 0..zones {
        if !source.is_read(zone) {
            return false;
        }
    }
    true
}

// Whether a statistic has a value for each of the first zones.
fn are_read(source: &Source<'_>, zones: usize) -> bool
    ensures { OnTrue result (spec.AreRead source.now zones) }
{
    match source.stat.dtype(&source.dtype) {
        Some(DType::Primitive(ptype, _nullability)) => numbers_are_read(source, ptype, zones),
        _ => values_are_read(source, zones),
    }
}

/// Whether each statistic has.
pub(crate) fn all_read(sources: &[Source<'_>], zones: usize) -> bool
    ensures { OnTrue result (spec.AllRead sources.now zones) }
{
    for entry in 0..sources.len() {
        let source = source_there(sources, entry);
        if !are_read(source, zones) {
            return false;
        }
    }
    true
}

// The cell of a zone for an aggregate by a statistic, if its value is read.
fn told_cell(
    alloc: Global,
    source: &Source<'_>,
    aggregate: AggregateFnRef,
    rows: &[u64],
    zone: usize,
) -> Option<Option<ScalarValue>>
    requires { zone < length rows.now }
    ensures { IfSome result (λ cell.
        spec.told_cell aggregate (Some source.now) rows.now zone ≡ Ok cell) }
{
    match source.value(alloc, zone) {
        Ok(value) => Some(StatFn::told(aggregate, value, rows[zone])),
        Err(_) => None,
    }
}

// The cells of the zones from a place on, by values of any kind.
fn told_values(
    alloc: Global,
    source: &Source<'_>,
    aggregate: AggregateFnRef,
    rows: &[u64],
    from: usize,
    count: usize,
) -> Option<ArrayData>
    requires { from + count ≤ length rows.now }
    ensures { let told = spec.told_cells aggregate (Some source.now) rows.now from count in
        IfSome result (λ cells. told ≡ Ok (cell_values cells)) }
{
    let mut cells = ArrayData::with_capacity(alloc, source.dtype, count).ok()?;
    for place in 0..count {
        let cell = told_cell(alloc, source, aggregate, rows, from + place)?;
        cells.push(cell).ok()?;
    }
    Some(cells)
}

/// The cells of the zones from a place on, for an aggregate by a statistic.
pub(crate) fn told_cells(
    alloc: Global,
    source: &Source<'_>,
    aggregate: AggregateFnRef,
    rows: &[u64],
    from: usize,
    count: usize,
) -> Option<ArrayData>
    requires { from + count ≤ length rows.now }
    ensures { let told = spec.told_cells aggregate (Some source.now) rows.now from count in
        IfSome result (λ cells. told ≡ Ok (cell_values cells)) }
{
    match source.stat.dtype(&source.dtype) {
        Some(DType::Primitive(ptype, _nullability)) => {
            told_numbers(alloc, source, ptype, aggregate, rows, from, count)
        }
        _ => told_values(alloc, source, aggregate, rows, from, count),
    }
}

/// Nulls, which stand where no statistic counts.
pub(crate) fn null_cells(alloc: Global, count: usize) -> ArrayData
    ensures { (f : AggregateFnRef) (rows : List ℕ) (from : ℕ)
        → spec.told_cells f None rows from count ≡ Ok (cell_values result) }
{
    ArrayData::Nulls(Nulls::new(alloc, count))
}
