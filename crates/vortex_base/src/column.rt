//! The values of a column.
ghost use Rattle.std.specs.Prelude.{◌≡◌, ◌<◌, IfSome, IsTrue, length, map, option_map, slice_get, Some};
ghost use Rattle.vortex_base.specs.Data.ArrayData.{cell_values, value_of};
ghost use Rattle.vortex_base.specs.Data.Columns.{all_fit, column_of, value_at, IsColumn};

mod append;
mod push;

use crate::array_data::ArrayData;
use crate::dtype::DType;
use crate::error::BaseError;
use crate::native::Native;
use crate::primitive_array::PrimitiveArray;
use crate::scalar_value::ScalarValue;
use crate::value_ref::ValueRef;
pub(crate) use append::append_all;
pub(crate) use push::push_each;
use std::marker::Model;

/// Values of one type in order, `None` being null, with their declared size.
#[derive(Debug, Drop)]
pub struct Column {
    dtype: DType,
    cells: ArrayData,
    size: u64,
}

impl Model for Column {
    ghost use Rattle.std.specs.Prelude.{IsTrue};
    ghost use Rattle.vortex_base.specs.Data.ArrayData.{cell_values};
    ghost use Rattle.vortex_base.specs.Data.Columns.{ColumnData, all_fit};

    ghost Value = { ColumnData };

    ghost view = { λ a. record { dtype = a.dtype; values = cell_values a.cells; size = a.size } };

    ghost invariant = { λ a. IsTrue (all_fit a.dtype (cell_values a.cells)) };
}

impl Column {
    /// The column of a type, its values and its size in bytes, which is taken as declared.
    /// `Mismatch` if a value does not fit the type, or a null stands where the type has none.
    ///
    /// The values stay in the vector that was handed in, 40 bytes each, so that no memory is taken.
    /// `ArrayData::new` and `ArrayData::push`, or `PrimitiveArray`, keep truths and numbers in a
    /// vector of their own type, and `of_cells` makes the column of them.
    pub fn try_new(
        dtype: DType,
        values: Vec<Option<ScalarValue>>,
        size: u64,
    ) -> Result<Column, BaseError>
        ensures { result ≡ column_of dtype values.items size }
    {
        Column::of_cells(dtype, ArrayData::Any(values), size)
    }

    /// The column of values that are known to fit the type, as their reader has tested each, or as
    /// `ArrayData::fits` tells.
    pub fn new_unchecked(dtype: DType, cells: ArrayData, size: u64) -> Column
        requires { IsTrue (all_fit dtype (cell_values cells)) }
        ensures { result ≡ record { dtype = dtype; values = cell_values cells; size = size } }
    {
        Column { dtype, cells, size }
    }

    /// The column of a type, its values as they are kept, and its size in bytes, which is taken as
    /// declared. `Mismatch` if a value does not fit the type, or a null stands where the type has
    /// none.
    pub fn of_cells(dtype: DType, cells: ArrayData, size: u64) -> Result<Column, BaseError>
        ensures { result ≡ column_of dtype (cell_values cells) size }
    {
        if !cells.fits(&dtype) {
            return Err(BaseError::Mismatch);
        }
        Ok(Column { dtype, cells, size })
    }

    pub fn dtype(&self) -> DType
        ensures value { result ≡ self.now.dtype }
        ensures is_column { IsColumn self.now }
    {
        self.dtype
    }

    /// The number of rows.
    pub fn len(&self) -> usize
        ensures value { result ≡ length self.now.values }
        ensures is_column { IsColumn self.now }
    {
        self.cells.len()
    }

    /// The declared size in bytes.
    pub fn size(&self) -> u64
        ensures { result ≡ self.now.size }
    {
        self.size
    }

    /// The values as they are kept.
    pub fn cells(&self) -> &ArrayData
        ensures { cell_values result.now ≡ self.now.values }
    {
        &self.cells
    }

    /// The values of a column of truths or numbers of one type, if they are kept as such: all that
    /// were pushed to `ArrayData::new` of its type are. `as_slices` lends them.
    pub fn natives<T: Native>(&self) -> Option<&PrimitiveArray<T>>
        ensures { IfSome result (λ natives.
            self.entry.now.values ≡ map (option_map T.scalar) natives.now) }
    {
        T::of_cells(&self.cells)
    }

    /// The value at a place, which `len` tells to be in range, or `None` for null.
    pub fn get(&self, i: usize) -> Option<ValueRef<'_>>
        requires { i < length self.now.values }
        ensures { slice_get self.now.values i ≡ Some (option_map value_of result) }
    {
        self.cells.value_at(i)
    }

    #[inline]
    pub(crate) fn value_at(&self, i: usize) -> Option<ValueRef<'_>>
        ensures { option_map value_of result ≡ value_at (slice_get self.now.values i) }
    {
        self.cells.value_at(i)
    }
}
