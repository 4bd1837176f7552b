//! The columns of a table, and what they read of what is told.
ghost use Rattle.std.specs.Prelude.{◌≡◌, ◌*◌, ◌++◌, ◌∷◌, List, OnOk, length, slice_set};
ghost use Rattle.vortex_base.specs.Data.ArrayData.{cell_values};
ghost use Rattle.vortex_zone_map.specs.StatValues.{told_value};
ghost use Rattle.vortex_zone_map.specs.Zone.{Entries, ZoneData};
ghost use Rattle.vortex_zone_map.specs.Kept.{said, saying, sets_with};
ghost use Rattle.vortex_zone_map.specs.Tables.{AreCells, AreLinked, with_saying};

use crate::fill::{set_cell, set_known};
use crate::links::Links;
use crate::short::short_told;
use crate::stat_entry::StatEntry;
use crate::stat_fn::StatFn;
use crate::stored_value::copy_of;
use crate::zone_map::StatColumn;
use std::alloc::{AllocError, Global};
use vortex_base::array_data::ArrayData;
use vortex_base::scalar_value::ScalarValue;

/// The heads of a table, which of them read each statistic, the texts and bytes of a log, and what
/// gives the cells memory.
#[derive(Clone, Copy)]
pub struct Readers<'a> {
    pub alloc: Global,
    pub heads: &'a [StatColumn],
    pub links: &'a Links,
    pub var_len_values: &'a [ScalarValue],
}

impl Readers<'_> {
    // Puts what a value tells under a head into a cell, where that is null or a text or bytes are
    // kept.
    #[inline(never)]
    fn put_other(
        &self,
        head: &StatColumn,
        cells: &mut ArrayData,
        told: &StatEntry,
        zone: usize,
        rows: u64,
    ) -> Result<(), AllocError>
        ensures { let said = (saying self.now.var_len_values.now told.now).value in
            let value = told_value head.now.aggregate said rows in
            OnOk result (cell_values cells.new ≡ slice_set (cell_values cells.old) zone value) }
    {
        let value = StatFn::told(
            head.aggregate(),
            copy_of(self.var_len_values, told.kept())?,
            rows,
        );
        set_cell(self.alloc, head.dtype(), cells, zone, value)
    }

    // Puts what a value tells under a head into a cell.
    #[inline]
    fn put_value(
        &self,
        head: &StatColumn,
        cells: &mut ArrayData,
        told: &StatEntry,
        zone: usize,
        rows: u64,
    ) -> Result<(), AllocError>
        ensures { let said = (saying self.now.var_len_values.now told.now).value in
            let value = told_value head.now.aggregate said rows in
            OnOk result (cell_values cells.new ≡ slice_set (cell_values cells.old) zone value) }
    {
        match short_told(head.aggregate(), told.kept(), rows) {
            Some(cell) => set_known(self.alloc, head.dtype(), cells, zone, cell),
            None => self.put_other(head, cells, told, zone, rows),
        }
    }

    // Puts what is told of a zone under the heads that read it.
    #[inline]
    fn put(
        &self,
        cells: &mut [ArrayData],
        told: &StatEntry,
        zone: usize,
        rows: u64,
    ) -> Result<(), AllocError>
        requires readers { AreLinked self.now.heads.now 0 self.now.links.now }
        requires long { length cells.old ≡ length self.now.heads.now }
        ensures { let t = saying self.now.var_len_values.now told.now in
            OnOk result ((before after : List ZoneData) (z : ZoneData) → length before ≡ zone
            → z.rows ≡ rows → length z.stats * 9 ≡ length self.now.links.now.firsts.items
            → AreCells self.now.heads.now (before ++ z ∷ after) cells.old
            → AreCells self.now.heads.now (before ++ with_saying t z ∷ after) cells.new) }
    {
        let mut place = self.links.first(told.column, told.stat);
        'readers: while place < self.heads.len() {
            let own = &mut cells[place];
            self.put_value(&self.heads[place], own, told, zone, rows)?;
            place = self.links.next(place);
        }
        Ok(())
    }

    /// Puts all that is told of a zone under the heads that read it.
    pub fn put_all(
        &self,
        cells: &mut [ArrayData],
        told: &[StatEntry],
        zone: usize,
        rows: u64,
    ) -> Result<(), AllocError>
        requires readers { AreLinked self.now.heads.now 0 self.now.links.now }
        requires long { length cells.old ≡ length self.now.heads.now }
        ensures { let ts = said self.now.var_len_values.now told.now in
            let with : List Entries → ZoneData = λ sets. record { rows = rows; stats = sets } in
            OnOk result ((before after : List ZoneData) (sets : List Entries)
            → length before ≡ zone
            → length sets * 9 ≡ length self.now.links.now.firsts.items
            → AreCells self.now.heads.now (before ++ with sets ∷ after) cells.old
            → AreCells self.now.heads.now
            (before ++ with (sets_with sets ts) ∷ after) cells.new) }
    {
        for next in 0..told.len() {
            self.put(cells, &told[next], zone, rows)?;
        }
        Ok(())
    }
}
