//! The cells of a table, of which some are set when others are known already.
ghost use Rattle.std.specs.Prelude.{◌≡◌, IfOk, IsTrue, OnOk, Some, map, option_map, slice_set};
ghost use Rattle.std.specs.Bool.{OnFalse};
ghost use Rattle.vortex_base.specs.Data.ArrayData.{cell_values, short_value};
ghost use Rattle.vortex_zone_map.specs.Tables.{AreBlank};

use crate::zone_map::StatColumn;
use std::alloc::{AllocError, Global};
use vortex_base::array_data::{ArrayData, PrimitiveScalar};
use vortex_base::dtype::DType;
use vortex_base::native::Native;
use vortex_base::nulls::Nulls;
use vortex_base::primitive_array::PrimitiveArray;
use vortex_base::scalar_value::ScalarValue;

/// So many nulls under each head, which take no memory of their own.
pub fn blank_table(
    alloc: Global,
    heads: &[StatColumn],
    count: usize,
) -> Result<Vec<ArrayData>, AllocError>
    ensures { IfOk result (λ cells. AreBlank heads.now count cells.items) }
{
    let mut table = Vec::with_capacity(alloc, heads.len())?;
    for _place in 0..heads.len() {
        table.push(ArrayData::Nulls(Nulls::new(alloc, count)))?;
    }
    Ok(table)
}

// Makes room for values of a type, where there are nulls alone.
#[inline]
fn make_room(alloc: Global, dtype: DType, cells: &mut ArrayData) -> Result<(), AllocError>
    ensures { OnOk result (cell_values cells.new ≡ cell_values cells.old) }
{
    if let ArrayData::Nulls(nulls) = cells {
        *cells = ArrayData::nulls(alloc, dtype, nulls.count())?;
    }
    Ok(())
}

/// Sets a cell of a type, if it is there.
#[inline]
pub fn set_cell(
    alloc: Global,
    dtype: DType,
    cells: &mut ArrayData,
    place: usize,
    value: Option<ScalarValue>,
) -> Result<(), AllocError>
    ensures { OnOk result (cell_values cells.new ≡ slice_set (cell_values cells.old) place value) }
{
    if place >= cells.len() {
        return Ok(());
    }
    // A null among nulls alone takes no room.
    if let ArrayData::Nulls(_) = cells {
        if value.is_none() {
            return Ok(());
        }
    }
    make_room(alloc, dtype, cells)?;
    cells.set(place, value)
}

// Puts a number in the place of another of its type, if there is one. Whether it was put.
#[inline(always)]
fn put_number<T: Native>(natives: &mut PrimitiveArray<T>, place: usize, number: T) -> bool
    ensures put { IsTrue result → map (option_map T.scalar) natives.new
        ≡ slice_set (map (option_map T.scalar) natives.old) place (Some (T.scalar number)) }
    ensures same { OnFalse result (natives.new ≡ natives.old) }
{
    if place >= natives.len() {
        return false;
    }
    natives.set(place, Some(number));
    true
}

// Fills a column of a type that most columns have. They are told apart by a test each, which is
// foreseen where a jump by a table of all types isn't, as on a processor that guards against
// Spectre.
#[inline(always)]
fn put_soon(cells: &mut ArrayData, place: usize, cell: PrimitiveScalar) -> bool
    ensures put { IsTrue result → cell_values cells.new
        ≡ slice_set (cell_values cells.old) place (short_value cell) }
    ensures same { OnFalse result (cell_values cells.new ≡ cell_values cells.old) }
{
    if let (ArrayData::I64(natives), PrimitiveScalar::I64(number)) = (&mut *cells, cell) {
        return put_number(natives, place, number);
    }
    if let (ArrayData::I32(natives), PrimitiveScalar::I32(number)) = (&mut *cells, cell) {
        return put_number(natives, place, number);
    }
    if let (ArrayData::U64(natives), PrimitiveScalar::U64(number)) = (&mut *cells, cell) {
        return put_number(natives, place, number);
    }
    false
}

// Sets a cell of a type to a truth, a number of any type or null, if it is there.
#[inline(never)]
fn set_short(
    alloc: Global,
    dtype: DType,
    cells: &mut ArrayData,
    place: usize,
    cell: PrimitiveScalar,
) -> Result<(), AllocError>
    ensures { OnOk result (cell_values cells.new
        ≡ slice_set (cell_values cells.old) place (short_value cell)) }
{
    if place >= cells.len() {
        return Ok(());
    }
    make_room(alloc, dtype, cells)?;
    cells.set_cell(place, cell)
}

/// Sets a cell of a type to a truth, a number or null, if it is there.
#[inline(always)]
pub fn set_known(
    alloc: Global,
    dtype: DType,
    cells: &mut ArrayData,
    place: usize,
    cell: PrimitiveScalar,
) -> Result<(), AllocError>
    ensures { OnOk result (cell_values cells.new
        ≡ slice_set (cell_values cells.old) place (short_value cell)) }
{
    if put_soon(cells, place, cell) {
        return Ok(());
    }
    set_short(alloc, dtype, cells, place, cell)
}
