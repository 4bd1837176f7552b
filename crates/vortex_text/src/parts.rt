//! Parts that take no more rows, as ranges of the rows of one chunk.
ghost use Rattle.std.specs.Prelude.{◌≡◌, ◌≤◌, ◌<◌, ◌+◌, ◌^◌, All, IfOk, IsTrue, drop, length, sum, take};
ghost use Rattle.vortex_base.specs.Data.Columns.{row_count};
ghost use Rattle.vortex_prune.specs.Scanning.RangeScans.{counts_of, range_parts};
ghost use Rattle.vortex_rewrite.specs.Rewriting.Predicates.{is_predicate};
ghost use Rattle.vortex_text.specs.Batches.{IsFoundIn};
ghost use Rattle.vortex_prune.specs.Zones.{zones_of};
ghost use Rattle.vortex_zone_map.specs.ZoneMaps.{IsMapOf};
ghost use Rattle.vortex_text.specs.Fitting.{IsPartOf, IsQueryOver};
ghost use Rattle.vortex_zone_map.specs.Logs.{zones_from};

use std::alloc::{AllocError, Global};
use std::marker::Model;
use vortex_base::chunk::Chunk;
use vortex_base::scope::Scope;
use vortex_expr::bound_expression::BoundExpression;
use vortex_prune::scan::outcome::RangeScan;
use vortex_prune::scan::ranges::scan_ranges_from;
use vortex_rewrite::rewrite::rules::Rules;
use vortex_stats::error::StatsError;
use vortex_zone_map::ZoneMapBuilder;
use vortex_zone_map::zone_map::ZoneMap;

/// The rows of all parts one behind the other, and how many rows and which statistics each has.
#[derive(Debug, Drop)]
pub struct Parts {
    chunk: Chunk,
    log: ZoneMapBuilder,
}

impl Model for Parts {
    ghost use Rattle.std.specs.Prelude.{List, ◌≤◌, sum};
    ghost use Rattle.vortex_base.specs.Data.Columns.{row_count};
    ghost use Rattle.vortex_prune.specs.Part.{PartData};
    ghost use Rattle.vortex_prune.specs.Scanning.RangeScans.{counts_of, range_parts};

    ghost Value = { List PartData };

    ghost view = { λ p. range_parts p.chunk 0 p.log.zones };

    ghost invariant = { λ p. sum (counts_of p.log.zones) ≤ row_count p.chunk.columns };
}

impl Parts {
    /// The zones of a log as ranges of a chunk.
    pub fn new(chunk: Chunk, log: ZoneMapBuilder) -> Parts
        requires { sum (counts_of log.zones) ≤ row_count chunk.columns }
        ensures { result ≡ range_parts chunk 0 log.zones }
    {
        Parts { chunk, log }
    }

    /// How many parts there are.
    pub fn len(&self) -> usize
        ensures { result ≡ length self.now }
    {
        self.log.len()
    }

    /// The map of what their statistics tell.
    pub fn map(&self, alloc: Global, scope: &Scope) -> Result<ZoneMap, AllocError>
        requires { All (IsPartOf scope.now) self.now }
        ensures { IfOk result (IsMapOf (zones_of self.now)) }
    {
        // That the chunk is one.
        let _rows = self.chunk.rows();
        let map = self.log.map(alloc, scope.try_clone()?, 0, self.log.len())?;
        Ok(map)
    }

    /// All of them, to be gone through.
    pub fn left(&self) -> PartsLeft<'_>
        ensures { result ≡ self.now }
    {
        PartsLeft {
            chunk: &self.chunk,
            log: &self.log,
            place: 0,
            row: 0,
        }
    }
}

/// The parts from one on.
#[derive(Debug, Drop)]
pub struct PartsLeft<'a> {
    chunk: &'a Chunk,
    log: &'a ZoneMapBuilder,
    // The first of them, and where its rows begin.
    place: usize,
    row: usize,
}

impl<'a> Model for PartsLeft<'a> {
    ghost use Rattle.std.specs.Prelude.{List, drop};
    ghost use Rattle.vortex_prune.specs.Part.{PartData};
    ghost use Rattle.vortex_prune.specs.Scanning.RangeScans.{range_parts};
    ghost use Rattle.vortex_text.specs.Stores.{AreLeft};

    ghost Value = { List PartData };

    ghost view = { λ p. range_parts p.chunk.now p.row (drop p.place p.log.now.zones) };

    ghost invariant = { λ p. AreLeft p.chunk.now p.log.now p.place p.row };
}

// How many rows so many zones from a place on have.
fn rows_from(log: &ZoneMapBuilder, from: usize, count: usize) -> usize
    requires within { from + count ≤ length log.now.zones }
    requires ends { from + count < 2 ^ 64 }
    requires few { sum (counts_of (zones_from from count log.now.zones)) < 2 ^ 64 }
    ensures { result ≡ sum (counts_of (zones_from from count log.now.zones)) }
{
    let mut rows = 0;
    for place in from..from + count {
        rows += log.rows(place) as usize;
    }
    rows
}

impl<'a> PartsLeft<'a> {
    /// Scans so many of them, the first ones.
    pub fn scan(
        &self,
        alloc: Global,
        scope: &Scope,
        predicate: &BoundExpression,
        count: usize,
    ) -> Result<RangeScan, AllocError>
        requires query { IsQueryOver scope.now self.now predicate.now }
        requires predicate { IsTrue (is_predicate predicate.now) }
        requires some { 0 < count }
        requires within { count ≤ length self.now }
        ensures { IfOk result (IsFoundIn predicate.now (take count self.now)) }
    {
        // That the chunk is one.
        let _rows = self.chunk.rows();
        let map = self.log.map(alloc, scope.try_clone()?, self.place, count)?;
        let rules = Rules::builtin(alloc);
        match scan_ranges_from(alloc, self.chunk, self.row, &map, predicate, &rules) {
            Ok(found) => Ok(found),
            Err(fault) => match fault {
                StatsError::Memory(refused) => Err(refused),
                _ => unreachable!(),
            },
        }
    }

    /// Goes past so many of them.
    pub fn skip(&mut self, count: usize)
        requires { count ≤ length self.old }
        ensures { self.new ≡ drop count self.old }
    {
        // No more zones and rows are there than can be counted.
        let _zones = self.log.len();
        let _rows = self.chunk.rows();
        self.row += rows_from(self.log, self.place, count);
        self.place += count;
    }
}
