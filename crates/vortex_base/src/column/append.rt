//! The values of columns moved behind those of others, of all columns or of none.
ghost use Rattle.std.specs.Prelude.{◌≡◌, ◌≤◌, ◌∷◌, [], IsTrue, List, OnErr, OnOk, length, map, take};
ghost use Rattle.vortex_base.specs.Data.Columns.{ColumnData, all_appended, appended, can_append, emptied};

use crate::column::Column;
use std::alloc::AllocError;

impl Column {
    // Adds copies of the values of another column of the same type, and the other's size.
    fn extend_from(&mut self, other: &Column) -> Result<(), AllocError>
        requires { IsTrue (can_append (self.old ∷ []) (other.now ∷ [])) }
        ensures extended { OnOk result (self.new ≡ appended self.old other.now) }
        ensures refused { OnErr result (self.new ≡ self.old) }
    {
        self.cells.extend_from(&other.cells)?;
        self.size += other.size;
        Ok(())
    }

    // Truncates the column to what it was before another's values and size were added.
    fn take_back(&mut self, other: &Column)
        requires { (c : ColumnData) × (appended c other.now ≡ self.old) }
        ensures { (c : ColumnData) → appended c other.now ≡ self.old → self.new ≡ c }
    {
        self.cells.truncate(self.cells.len() - other.cells.len());
        self.size -= other.size;
    }

    // Drops all values, and with them the size.
    fn clear(&mut self)
        ensures { self.new ≡ emptied self.old }
    {
        self.cells.truncate(0);
        self.size = 0;
    }
}

// Truncates the first columns, of this number, to what they were before those beside them were
// added.
fn take_back_each(columns: &mut [Column], others: &[Column], count: usize)
    requires added { (cs : List ColumnData)
        × (all_appended cs (take count others.now) ≡ columns.old) }
    requires columns { count ≤ length columns.old }
    requires others { count ≤ length others.now }
    ensures { (cs : List ColumnData)
        → all_appended cs (take count others.now) ≡ columns.old → columns.new ≡ cs }
{
    for place in (0..count).rev() {
        columns[place].take_back(&others[place]);
    }
}

// Adds to each column copies of the values of the one beside it, and its size. Where memory is
// refused, the columns are truncated to what they were.
fn extend_each(columns: &mut [Column], others: &[Column]) -> Result<(), AllocError>
    requires { IsTrue (can_append columns.old others.now) }
    ensures extended { OnOk result (columns.new ≡ all_appended columns.old others.now) }
    ensures refused { OnErr result (columns.new ≡ columns.old) }
{
    for place in 0..others.len() {
        if let Err(refused) = columns[place].extend_from(&others[place]) {
            take_back_each(columns, others, place);
            return Err(refused);
        }
    }
    Ok(())
}

// Drops the values of each column, and with them its size.
fn clear_each(columns: &mut [Column])
    ensures { columns.new ≡ map emptied columns.old }
{
    for column in columns.iter_mut() {
        column.clear();
    }
}

// Moves the values of each other column behind those of the column beside it, and with them its
// size. All values are copied first, so that nothing has moved where memory is refused.
pub(crate) fn append_all(
    columns: &mut Vec<Column>,
    others: &mut Vec<Column>,
) -> Result<(), AllocError>
    requires { IsTrue (can_append columns.old.items others.old.items) }
    ensures appended { OnOk result
        (columns.new.items ≡ all_appended columns.old.items others.old.items) }
    ensures emptied { OnOk result (others.new.items ≡ map emptied others.old.items) }
    ensures columns { OnErr result (columns.new.items ≡ columns.old.items) }
    ensures others { OnErr result (others.new.items ≡ others.old.items) }
{
    extend_each(columns, others)?;
    clear_each(others);
    Ok(())
}
