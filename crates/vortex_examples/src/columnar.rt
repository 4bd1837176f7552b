//! A reader whose file has whole columns: values of one type beside which of them are there.
ghost use Rattle.std.specs.Prelude.{◌≡◌, IfOk, IfSome, count_by, is_none, length, map, not, option_map};
ghost use Rattle.vortex_base.specs.Data.PrimitiveArray.{optionals};

use std::alloc::Global;
use vortex_base::{BaseError, Column, DType, Native, PrimitiveArray};

/// The column of a file's values, null where one isn't there. `Mismatch` where they aren't of the
/// type, or where one isn't there and the type has no null.
pub fn column_of_numbers<T: Native>(
    alloc: Global,
    dtype: DType,
    values: &[T],
    validity: &[bool],
) -> Result<Column, BaseError>
    requires { length values.now ≡ length validity.now }
    ensures { IfOk result (λ column.
        column.values ≡ map (option_map T.scalar) (optionals values.now validity.now)) }
{
    let natives = PrimitiveArray::from_slices(alloc, values, validity)?;
    Column::of_cells(dtype, T::into_cells(natives), 0)
}

// How many values are told not to be there.
fn absent(validity: &[bool]) -> usize
    ensures { result ≡ count_by not validity.now }
{
    validity.iter().filter(|is_there| !**is_there).count()
}

/// How many rows of a column of numbers of a type are null, if it is kept as such, without a look
/// at any value.
pub fn nulls_of<T: Native>(column: &Column) -> Option<usize>
    ensures { IfSome result (λ count. count ≡ count_by is_none column.now.values) }
{
    let (_, validity) = column.natives::<T>()?.as_slices();
    Some(absent(validity))
}
