//! The statistics of zones in one log, in the order in which they are told.
ghost use Rattle.std.specs.Prelude.{◌≡◌, ◌<◌, ◌≤◌, ◌+◌, ◌^◌, [], IfOk, OnErr, OnOk, Some, length, map, option_map, slice_get};
ghost use Rattle.vortex_base.specs.Data.Scopes.{named_columns};
ghost use Rattle.vortex_zone_map.specs.Zone.{AreZonesOf};
ghost use Rattle.vortex_zone_map.specs.ZoneMaps.{IsMapOf};
ghost use Rattle.vortex_zone_map.specs.Known.{known_zone};
ghost use Rattle.vortex_zone_map.specs.Tables.{AreCells};
ghost use Rattle.vortex_zone_map.specs.Logs.{MayJoinAt, empty_sets, ended, joined_at, with_told};
ghost use Rattle.vortex_zone_map.specs.Logs.{zones_from};

use crate::blocks::{Blocks, Run};
use crate::columns::columns_of;
use crate::fill::blank_table;
use crate::join::{merged_sets, told_of};
use crate::known::Known;
use crate::links::links_of;
use crate::readers::Readers;
use crate::stat_entry::{StatEntry, move_behind, next_stretch, sets_of, tell, told_in};
use crate::zone_map::{StatColumn, ZoneMap};
use std::alloc::{AllocError, Global};
use std::marker::Model;
use vortex_base::array_data::ArrayData;
use vortex_base::dtype::DType;
use vortex_base::scalar_value::ScalarValue;
use vortex_base::scope::Scope;
use vortex_stats::precision::Precision;
use vortex_stats::stat::Stat;

/// The statistics of zones one after another, and those of a zone that hasn't ended.
#[derive(Debug, Drop)]
pub struct ZoneMapBuilder {
    // So each column is told in 32 bits.
    columns: u32,
    // The texts and bytes that are told.
    var_len_values: Vec<ScalarValue>,
    // What is told of the zones that have ended.
    told: Vec<StatEntry>,
    // What is told of the one that hasn't.
    current: Vec<StatEntry>,
    // Where it is told of each of them.
    stretches: Blocks,
}

impl Model for ZoneMapBuilder {
    ghost use Rattle.vortex_zone_map.specs.Blocks.{IsCounted, all_of};
    ghost use Rattle.vortex_zone_map.specs.Kept.{IsLog, log_of};
    ghost use Rattle.vortex_zone_map.specs.Logs.{LogData};

    ghost Value = { LogData };

    ghost view = { λ l.
        log_of l.columns l.var_len_values.items l.told.items l.current.items (all_of l.stretches) };

    ghost invariant = { λ l.
        IsLog l.var_len_values.items l.told.items l.current.items (all_of l.stretches)
        × IsCounted l.stretches };
}

impl ZoneMapBuilder {
    /// Makes a log without zones, of so many columns, with nothing told of the next one. A log has
    /// fewer than 2^32 columns, so each of its calls is refused for memory alone.
    pub fn new(alloc: Global, columns: u32) -> ZoneMapBuilder
        ensures { result ≡ record { zones = []; current = empty_sets columns } }
    {
        ZoneMapBuilder {
            columns,
            var_len_values: Vec::new(alloc),
            told: Vec::new(alloc),
            current: Vec::new(alloc),
            stretches: Blocks::new(alloc),
        }
    }

    /// Tells a statistic of a column of the zone that hasn't ended, as `StatsSet::put` does: one
    /// that is known keeps its place, another goes last. Nothing is told where there is no such
    /// column.
    #[inline(always)]
    pub fn put(
        &mut self,
        column: usize,
        stat: Stat,
        value: Precision<ScalarValue>,
    ) -> Result<(), AllocError>
        ensures told { OnOk result (self.new ≡ with_told column stat value self.old) }
        ensures refused { OnErr result (self.new ≡ self.old) }
    {
        if column < self.columns as usize {
            tell(
                &mut self.current,
                &mut self.var_len_values,
                column as u32,
                stat,
                value,
            )?;
        }
        Ok(())
    }

    /// Ends the zone, which has so many rows. Nothing is known of the next one.
    pub fn end_zone(&mut self, rows: u64) -> Result<(), AllocError>
        ensures ended { OnOk result (self.new ≡ ended rows self.old) }
        ensures refused { OnErr result (self.new ≡ self.old) }
    {
        let next = next_stretch(&mut self.told, self.current.len(), rows)?;
        self.stretches.push(next)?;
        move_behind(&mut self.told, &mut self.current);
        Ok(())
    }

    /// How many zones have ended.
    pub fn len(&self) -> usize
        ensures { result ≡ length self.now.zones }
    {
        self.stretches.count
    }

    /// How many rows the zone at a place has.
    pub fn rows(&self, place: usize) -> u64
        requires { place < length self.now.zones }
        ensures { option_map (λ zone. zone.rows) (slice_get self.now.zones place) ≡ Some result }
    {
        self.stretches.at(place).rows
    }

    // The zone at a place, as it is known.
    fn known(&self, alloc: Global, place: usize) -> Result<Known, AllocError>
        requires { place < length self.now.zones }
        ensures known { IfOk result (λ known.
            slice_get self.now.zones place ≡ Some (known_zone known)) }
        ensures few { IfOk result (λ known. length known.sets.items < 2 ^ 32) }
    {
        let stretch = self.stretches.at(place);
        let told = &self.told[stretch.from..stretch.to];
        let sets = sets_of(alloc, self.columns as usize, &self.var_len_values, told)?;
        Ok(Known {
            rows: stretch.rows,
            sets,
        })
    }

    /// Joins the zone at a place and the one behind it: their row counts are added, and their sets
    /// merged in that order, which these columns tell to fit.
    /// Where memory is refused, the log is as it was.
    pub fn join_at(
        &mut self,
        alloc: Global,
        place: usize,
        columns: &[(String, DType)],
    ) -> Result<(), AllocError>
        requires there { place + 1 < length self.old.zones }
        requires joinable { MayJoinAt (named_columns columns.now) place self.old.zones }
        ensures joined { OnOk result (joined_at place self.old.zones ≡ Some self.new.zones) }
        ensures current { OnOk result (self.new.current ≡ self.old.current) }
        ensures refused { OnErr result (self.new ≡ self.old) }
    {
        let left = self.known(alloc, place)?;
        let right = self.known(alloc, place + 1)?;
        let rows = left.rows + right.rows;
        let sets = merged_sets(alloc, columns, left.sets, &right.sets)?;
        let mut told = told_of(alloc, &mut self.var_len_values, sets)?;
        let joined = next_stretch(&mut self.told, told.len(), rows)?;
        self.stretches.join_at(place, joined);
        move_behind(&mut self.told, &mut told);
        Ok(())
    }

    // The row counts of so many zones from a place on.
    fn rows_from(&self, alloc: Global, from: usize, count: usize) -> Result<Vec<u64>, AllocError>
        requires { from + count ≤ length self.now.zones }
        ensures { IfOk result (λ rows.
            rows.items ≡ map (λ zone. zone.rows) (zones_from from count self.now.zones)) }
    {
        let _zones = self.len();
        let mut rows = Vec::with_capacity(alloc, count)?;
        let mut run = Run::none();
        for next in 0..count {
            let stretch = self.stretches.at_hand(&mut run, from + next);
            rows.push(stretch.rows)?;
        }
        Ok(rows)
    }

    // The cells of so many zones from a place on under the heads of a table.
    fn cells_from(
        &self,
        alloc: Global,
        heads: &[StatColumn],
        from: usize,
        count: usize,
    ) -> Result<Vec<ArrayData>, AllocError>
        requires { from + count ≤ length self.now.zones }
        ensures { IfOk result (λ cells.
            AreCells heads.now (zones_from from count self.now.zones) cells.items) }
    {
        let _zones = self.len();
        let links = links_of(alloc, self.columns, heads)?;
        let mut cells = blank_table(alloc, heads, count)?;
        let readers = Readers {
            alloc,
            heads,
            links: &links,
            var_len_values: &self.var_len_values,
        };
        let mut run = Run::none();
        for next in 0..count {
            let stretch = self.stretches.at_hand(&mut run, from + next);
            let told = told_in(&self.told, stretch);
            readers.put_all(&mut cells, told, next, stretch.rows)?;
        }
        Ok(cells)
    }

    /// The map of so many zones from a place on.
    pub fn map(
        &self,
        alloc: Global,
        scope: Scope,
        from: usize,
        count: usize,
    ) -> Result<ZoneMap, AllocError>
        requires within { from + count ≤ length self.now.zones }
        requires fits { AreZonesOf scope (zones_from from count self.now.zones) }
        ensures is_map { IfOk result (λ made. IsMapOf (zones_from from count self.now.zones) made) }
        ensures scoped { IfOk result (λ made. made.scope ≡ scope) }
    {
        let heads = ZoneMap::heads(alloc, &scope)?;
        let cells = self.cells_from(alloc, &heads, from, count)?;
        let columns = columns_of(alloc, &heads, cells)?;
        let rows = self.rows_from(alloc, from, count)?;
        match ZoneMap::of_table(alloc, scope, rows, columns) {
            Ok(made) => Ok(made),
            Err(_) => Err(AllocError),
        }
    }
}
