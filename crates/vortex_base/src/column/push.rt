//! One more value in each of some columns, or in none.
ghost use Rattle.std.specs.Prelude.{◌≡◌, IsTrue, OnErr, OnOk, map, ℕ};
ghost use Rattle.vortex_base.specs.Data.Columns.{all_long, cut_to, row_fits, with_row, with_value};
ghost use Rattle.vortex_base.specs.Data.Scalars.{is_optional_value};

use crate::column::Column;
use crate::scalar_value::ScalarValue;
use std::alloc::AllocError;

impl Column {
    // Adds a value that may stand under the column's type.
    fn push(&mut self, value: Option<ScalarValue>) -> Result<(), AllocError>
        requires { IsTrue (is_optional_value value self.old.dtype) }
        ensures pushed { OnOk result (self.new ≡ with_value self.old value) }
        ensures refused { OnErr result (self.new ≡ self.old) }
    {
        self.cells.push(value)
    }

    // Drops the values behind the first ones of this number.
    fn truncate(&mut self, len: usize)
        ensures { self.new ≡ cut_to len self.old }
    {
        self.cells.truncate(len);
    }
}

// Adds to each column the value beside it, up to one whose room is refused.
fn push_some(columns: &mut [Column], values: Vec<Option<ScalarValue>>) -> Result<(), AllocError>
    requires { IsTrue (row_fits columns.old values.items) }
    ensures pushed { OnOk result (columns.new ≡ with_row columns.old values.items) }
    ensures refused { OnErr result ((n : ℕ) → IsTrue (all_long n columns.old)
        → map (cut_to n) columns.new ≡ columns.old) }
{
    let mut place = 0;
    for value in values {
        let column = &mut columns[place];
        column.push(value)?;
        place += 1;
    }
    Ok(())
}

// Leaves each column its first values, of this number.
fn truncate_each(columns: &mut [Column], len: usize)
    ensures { columns.new ≡ map (cut_to len) columns.old }
{
    for column in columns.iter_mut() {
        column.truncate(len);
    }
}

// Adds to each column the value beside it. Where memory is refused, what was added is dropped, so
// that all columns are as they were.
pub(crate) fn push_each(
    columns: &mut [Column],
    values: Vec<Option<ScalarValue>>,
    rows: usize,
) -> Result<(), AllocError>
    requires fits { IsTrue (row_fits columns.old values.items) }
    requires long { IsTrue (all_long rows columns.old) }
    ensures pushed { OnOk result (columns.new ≡ with_row columns.old values.items) }
    ensures refused { OnErr result (columns.new ≡ columns.old) }
{
    let pushed = push_some(columns, values);
    if pushed.is_err() {
        truncate_each(columns, rows);
    }
    pushed
}
