//! Claims of the columns of a zone, one statistic after another.
ghost use Rattle.std.specs.Prelude.{◌≡◌, ◌+◌, ◌++◌, ◌-◌, ◌∷◌, ◌≤◌, [], IfOk, OnErr, OnOk, drop, length, slice_get, take};
ghost use Rattle.std.specs.Prelude.{Some, vec_capacity, vec_len};
ghost use Rattle.vortex_base.specs.Data.ArrayData.{short_value};
ghost use Rattle.vortex_base.specs.declared.scalar_value.ScalarValue.TheVariants as value;
ghost use Rattle.vortex_zone_map.specs.Kept.{AreKept, IsLonger, IsWithin, said, sets_of};
ghost use Rattle.vortex_zone_map.specs.Logs as spec;

use crate::entry_range::EntryRange;
use crate::stored_value::{StoredValue, ValueTag, copy_of, keep, number_in};
use std::alloc::{AllocError, Global};
use vortex_base::array_data::PrimitiveScalar;
use vortex_base::pvalue::PValue;
use vortex_base::scalar_value::ScalarValue;
use vortex_stats::precision::Precision;
use vortex_stats::stat::Stat;
use vortex_stats::stats_set::StatsSet;

/// A statistic of a column, and its value.
#[derive(Clone, Copy, Debug)]
pub struct StatEntry {
    pub column: u32,
    pub stat: Stat,
    pub form: ValueTag,
    pub cell: PrimitiveScalar,
}

impl StatEntry {
    /// How the value is kept.
    #[inline]
    pub fn kept(&self) -> StoredValue
        ensures { result ≡ record { form = self.now.form; cell = self.now.cell } }
    {
        StoredValue {
            form: self.form,
            cell: self.cell,
        }
    }
}

// Sets of which nothing is known.
fn empty_sets(alloc: Global, columns: usize) -> Result<Vec<StatsSet>, AllocError>
    ensures { IfOk result (λ sets. sets.items ≡ spec.empty_sets columns) }
{
    let mut sets = Vec::with_capacity(alloc, columns)?;
    for _place in 0..columns {
        sets.push(StatsSet::new(alloc))?;
    }
    Ok(sets)
}

// Sets a statistic of the column at a place, if there is one.
fn set_at(sets: &mut [StatsSet], place: usize, stat: Stat, value: Precision<ScalarValue>)
    ensures { sets.new ≡ spec.set_at place stat value sets.old (slice_get sets.old place) }
{
    if place < sets.len() {
        let set = &mut sets[place];
        set.put(stat, value);
    }
}

/// The sets of so many columns that are told.
pub fn sets_of(
    alloc: Global,
    columns: usize,
    var_len_values: &[ScalarValue],
    told: &[StatEntry],
) -> Result<Vec<StatsSet>, AllocError>
    ensures { let entries = said var_len_values.now told.now in
        IfOk result (λ sets. sets.items ≡ sets_of columns entries) }
{
    let mut sets = empty_sets(alloc, columns)?;
    for place in 0..told.len() {
        let next = &told[place];
        let value = copy_of(var_len_values, next.kept())?;
        set_at(&mut sets, next.column as usize, next.stat, value);
    }
    Ok(sets)
}

// Tells a statistic whose value isn't a number.
#[inline(never)]
fn tell_other(
    told: &mut Vec<StatEntry>,
    var_len_values: &mut Vec<ScalarValue>,
    column: u32,
    stat: Stat,
    value: Precision<ScalarValue>,
) -> Result<(), AllocError>
    requires { AreKept (length var_len_values.old.items) told.old.items }
    ensures told { OnOk result (said var_len_values.new.items told.new.items
        ≡ said var_len_values.old.items told.old.items
        ++ record { column = column; stat = stat; value = value } ∷ []) }
    ensures refused { OnErr result (told.new.items ≡ told.old.items) }
    ensures kept { AreKept (length var_len_values.new.items) told.new.items }
    ensures longer { IsLonger var_len_values.old.items var_len_values.new.items }
{
    told.reserve(1)?;
    let kept = keep(var_len_values, value)?;
    told.push_reserved(StatEntry {
        column,
        stat,
        form: kept.form,
        cell: kept.cell,
    });
    Ok(())
}

// The cell of a number of any type.
#[inline(never)]
fn other_cell(number: PValue) -> PrimitiveScalar
    ensures { short_value result ≡ Some (value.Primitive number) }
{
    PrimitiveScalar::of_number(number)
}

// Takes a number as a cell. The types that most columns have are told apart by a test each, as a
// cell is put.
#[inline(always)]
fn number_cell(number: PValue) -> PrimitiveScalar
    ensures { short_value result ≡ Some (value.Primitive number) }
{
    if let PValue::I64(number) = number {
        return PrimitiveScalar::I64(number);
    }
    if let PValue::I32(number) = number {
        return PrimitiveScalar::I32(number);
    }
    if let PValue::U64(number) = number {
        return PrimitiveScalar::U64(number);
    }
    other_cell(number)
}

/// Tells a statistic behind others. Where memory is refused, the others stay.
#[inline(always)]
pub fn tell(
    told: &mut Vec<StatEntry>,
    var_len_values: &mut Vec<ScalarValue>,
    column: u32,
    stat: Stat,
    value: Precision<ScalarValue>,
) -> Result<(), AllocError>
    requires { AreKept (length var_len_values.old.items) told.old.items }
    ensures told { OnOk result (said var_len_values.new.items told.new.items
        ≡ said var_len_values.old.items told.old.items
        ++ record { column = column; stat = stat; value = value } ∷ []) }
    ensures refused { OnErr result (told.new.items ≡ told.old.items) }
    ensures kept { AreKept (length var_len_values.new.items) told.new.items }
    ensures longer { IsLonger var_len_values.old.items var_len_values.new.items }
{
    match number_in(&value) {
        Some((form, number)) => {
            told.reserve(1)?;
            told.push_reserved(StatEntry {
                column,
                stat,
                form,
                cell: number_cell(number),
            });
            Ok(())
        }
        None => tell_other(told, var_len_values, column, stat, value),
    }
}

/// Where so much more will stand behind what is told, which tells of a zone of so many rows. Room
/// is made for it.
pub fn next_stretch(
    told: &mut Vec<StatEntry>,
    more: usize,
    rows: u64,
) -> Result<EntryRange, AllocError>
    ensures same { told.new.items ≡ told.old.items }
    ensures room { OnOk result (vec_len told.new + more ≤ vec_capacity told.new) }
    ensures rows { IfOk result (λ next. next.rows ≡ rows) }
    ensures from { IfOk result (λ next. next.from ≡ length told.old.items) }
    ensures to { IfOk result (λ next. next.to ≡ length told.old.items + more) }
{
    told.reserve(more)?;
    let from = told.len();
    Ok(EntryRange {
        rows,
        from,
        to: from + more,
    })
}

/// Moves what is told behind others, for which there is room.
pub fn move_behind(told: &mut Vec<StatEntry>, more: &mut Vec<StatEntry>)
    requires { vec_len told.old + vec_len more.old ≤ vec_capacity told.old }
    ensures told { told.new.items ≡ told.old.items ++ more.old.items }
    ensures emptied { more.new.items ≡ [] }
{
    // They are few, and a call that copies them takes longer.
    for next in more.iter() {
        told.push_reserved(*next);
    }
    more.clear();
}

/// The claims of a stretch.
#[inline]
pub fn told_in(told: &[StatEntry], stretch: EntryRange) -> &[StatEntry]
    requires { IsWithin (length told.now) stretch }
    ensures { result.now ≡ take (stretch.to - stretch.from) (drop stretch.from told.now) }
{
    &told[stretch.from..stretch.to]
}
