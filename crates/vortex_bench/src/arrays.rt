// Pruning of zones whose statistics stand in arrays, as a reader of a footer or a caller in C has
// them: the map is made from the arrays each time, or once.
use crate::made::{add, scope_of};
use crate::pruning::{self, REPEATS, ROWS, Size};
use anyhow::Result;
use std::alloc::{AllocError, Global};
use vortex_base::aggregate::AggregateFnRef;
use vortex_base::array_data::ArrayData;
use vortex_base::column::Column;
use vortex_base::error::BaseError;
use vortex_base::native::Native;
use vortex_base::nulls::Nulls;
use vortex_base::primitive_array::PrimitiveArray;
use vortex_base::scope::Scope;
use vortex_expr::bound_expression::BoundExpression;
use vortex_zone_map::zone_map::{StatColumn, ZoneMap};

// Each zone by its number of rows, and each of its columns by the least and the
// greatest value and how many nulls there are.
#[derive(Drop)]
struct Arrays {
    rows: Vec<u64>,
    least: Vec<i64>,
    greatest: Vec<i64>,
    nulls: Vec<u64>,
}

fn add_zone(arrays: &mut Arrays, place: i64) -> Result<(), AllocError> {
    arrays.rows.push(ROWS)?;
    arrays.least.push(place)?;
    arrays.greatest.push(place.saturating_add(100))?;
    arrays.nulls.push(0)?;
    Ok(())
}

// Arrays of the zones that the sets are of.
fn arrays_of(alloc: Global, size: Size) -> Result<Arrays> {
    let mut arrays = Arrays {
        rows: Vec::new(alloc),
        least: Vec::new(alloc),
        greatest: Vec::new(alloc),
        nulls: Vec::new(alloc),
    };
    for place in 0..size.batches.saturating_mul(size.batch) {
        add_zone(&mut arrays, place)?;
    }
    Ok(arrays)
}

// Whether a zone has no nulls, zone by zone.
fn without_nulls(alloc: Global, nulls: &[u64]) -> Result<ArrayData, AllocError> {
    let mut without = PrimitiveArray::with_capacity(alloc, nulls.len())?;
    for count in nulls {
        without.push(Some(*count == 0))?;
    }
    Ok(ArrayData::Bool(without))
}

// The cells under a head of the table.
fn cells_under(alloc: Global, head: &StatColumn, arrays: &Arrays) -> Result<ArrayData, AllocError> {
    match head.aggregate() {
        AggregateFnRef::Min => Ok(i64::into_cells(PrimitiveArray::from_slice(
            alloc,
            &arrays.least,
        )?)),
        AggregateFnRef::Max => Ok(i64::into_cells(PrimitiveArray::from_slice(
            alloc,
            &arrays.greatest,
        )?)),
        AggregateFnRef::NullCount => {
            Ok(u64::into_cells(PrimitiveArray::from_slice(alloc, &arrays.nulls)?))
        }
        AggregateFnRef::AllNonNull => without_nulls(alloc, &arrays.nulls),
        _ => Ok(ArrayData::Nulls(Nulls::new(alloc, arrays.rows.len()))),
    }
}

fn column_under(alloc: Global, head: &StatColumn, arrays: &Arrays) -> Result<Column, BaseError> {
    Column::of_cells(head.dtype(), cells_under(alloc, head, arrays)?, 0)
}

fn columns_under(
    alloc: Global,
    heads: &[StatColumn],
    arrays: &Arrays,
) -> Result<Vec<Column>, BaseError> {
    let mut columns = Vec::with_capacity(alloc, heads.len())?;
    for head in heads {
        add(&mut columns, column_under(alloc, head, arrays))?;
    }
    Ok(columns)
}

fn columns_of(alloc: Global, scope: &Scope, arrays: &Arrays) -> Result<Vec<Column>, BaseError> {
    columns_under(alloc, &ZoneMap::heads(alloc, scope)?, arrays)
}

fn rows_of(alloc: Global, arrays: &Arrays) -> Result<Vec<u64>, AllocError> {
    let mut rows = Vec::new(alloc);
    rows.extend_from_slice(&arrays.rows)?;
    Ok(rows)
}

// The map of the zones of the arrays.
fn map_of(alloc: Global, size: Size, arrays: &Arrays) -> Result<ZoneMap> {
    let scope = scope_of(alloc, size.columns)?;
    let columns = columns_of(alloc, &scope, arrays)?;
    match ZoneMap::of_table(alloc, scope, rows_of(alloc, arrays)?, columns) {
        Ok(map) => Ok(map),
        Err(refused) => Err(refused.error.into()),
    }
}

/// The zones of arrays of which no map is made.
pub fn only_arrays(alloc: Global, size: Size) -> Result<usize> {
    Ok(arrays_of(alloc, size)?.rows.len())
}

fn pruned_once(
    alloc: Global,
    size: Size,
    arrays: &Arrays,
    predicate: &BoundExpression,
) -> Result<usize> {
    pruning::skipped(alloc, &map_of(alloc, size, arrays)?, predicate, 1)
}

fn pruned_often(
    alloc: Global,
    size: Size,
    arrays: &Arrays,
    predicate: &BoundExpression,
) -> Result<usize> {
    let mut skipped = 0;
    for _ in 0..REPEATS {
        skipped = pruned_once(alloc, size, arrays, predicate)?;
    }
    Ok(skipped)
}

/// The zones that the last of some prunings under so many comparisons skips, where each makes its
/// map from the arrays.
pub fn pruned(alloc: Global, size: Size, leaves: usize) -> Result<usize> {
    let arrays = arrays_of(alloc, size)?;
    let predicate = pruning::leaves_of(alloc, size, leaves)?;
    pruned_often(alloc, size, &arrays, &predicate)
}

/// The zones of a map that is made of arrays and not pruned.
pub fn only_mapped(alloc: Global, size: Size) -> Result<usize> {
    Ok(map_of(alloc, size, &arrays_of(alloc, size)?)?.len())
}

/// The zones that the last of some prunings skips, as above, of one map that is made of the arrays.
pub fn map_pruned(alloc: Global, size: Size, leaves: usize) -> Result<usize> {
    let map = map_of(alloc, size, &arrays_of(alloc, size)?)?;
    let predicate = pruning::leaves_of(alloc, size, leaves)?;
    pruning::skipped(alloc, &map, &predicate, REPEATS)
}
