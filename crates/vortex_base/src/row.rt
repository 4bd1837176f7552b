//! The rows on which expressions have a meaning.
ghost use Rattle.std.specs.Prelude.{◌≡◌, length, slice_get, option_map, []};
ghost use Rattle.vortex_base.specs.Data.ArrayData.{value_of};
ghost use Rattle.vortex_base.specs.Data.Columns.{row_of, cell_value, IsRow};

use crate::column::Column;
use crate::dtype::DType;
use crate::value_ref::ValueRef;
use std::marker::Model;

/// A row of a chunk, or the row with no columns. It lends the chunk's values and copies none.
#[derive(Drop)]
pub struct Row<'a> {
    columns: &'a [Column],
    place: usize,
}

impl<'a> Model for Row<'a> {
    ghost use Rattle.std.specs.Prelude.{List};
    ghost use Rattle.vortex_base.specs.Data.Scalars.{Constant};
    ghost use Rattle.vortex_base.specs.Data.Columns.{row_of, IsRow};

    ghost Value = { List Constant };

    ghost view = { λ r. row_of r.place r.columns.now };

    ghost invariant = { λ r. IsRow (row_of r.place r.columns.now) };
}

impl<'a> Row<'a> {
    /// The row with no columns.
    pub fn empty() -> Row<'a>
        ensures { result ≡ [] }
    {
        Row {
            columns: &[],
            place: 0,
        }
    }

    pub(crate) fn of_columns(columns: &'a [Column], place: usize) -> Row<'a>
        requires { IsRow (row_of place columns.now) }
        ensures { result ≡ row_of place columns.now }
    {
        Row { columns, place }
    }

    /// The number of columns.
    pub fn len(&self) -> usize
        ensures value { result ≡ length self.now }
        ensures is_row { IsRow self.now }
    {
        self.columns.len()
    }

    /// The type of the column at a place, or `None` where the row has no such column.
    pub fn dtype(&self, i: usize) -> Option<DType>
        ensures { result ≡ option_map (λ c. c.dtype) (slice_get self.now i) }
    {
        match self.columns.get(i) {
            None => None,
            Some(column) => Some(column.dtype()),
        }
    }

    /// The value in the column at a place, or `None` for null and where the row has no such column.
    #[inline]
    pub fn value(&self, i: usize) -> Option<ValueRef<'_>>
        ensures { option_map value_of result ≡ cell_value (slice_get self.now i) }
    {
        match self.columns.get(i) {
            None => None,
            Some(column) => column.value_at(self.place),
        }
    }
}
