//! Which heads of a table read each statistic.
ghost use Rattle.std.specs.Prelude.{◌≡◌, ◌+◌, ◌*◌, ◌<◌, ◌^◌, IfOk, List, Some, length, slice_get, slice_index_or};
ghost use Rattle.vortex_zone_map.specs.ZoneMaps as zones;
ghost use Rattle.vortex_zone_map.specs.Tables as spec;
ghost use Rattle.vortex_zone_map.specs.Tables.{AreLinked};

use crate::stat_fn::StatFn;
use crate::zone_map::StatColumn;
use std::alloc::{AllocError, Global};
use vortex_stats::stat::Stat;

/// For each statistic of each column the first head that reads it, and for each head the next one
/// that reads the same. Where there is none, it is the number of heads.
#[derive(Debug, Drop)]
pub struct Links {
    pub firsts: Vec<usize>,
    pub nexts: Vec<usize>,
}

// Where the first head stands that reads a statistic of the column at a place.
#[inline]
fn slot(column: usize, stat: Stat) -> usize
    requires { column < 2 ^ 32 }
    ensures { result ≡ spec.slot column stat }
{
    column * 9 + stat.number() as usize
}

impl Links {
    /// The first head that reads a statistic of the column at a place.
    #[inline]
    pub fn first(&self, column: u32, stat: Stat) -> usize
        ensures { let none = length self.now.nexts.items in
            result ≡ slice_index_or self.now.firsts.items (spec.slot column stat) none }
    {
        match self.firsts.get(slot(column as usize, stat)) {
            Some(first) => *first,
            None => self.nexts.len(),
        }
    }

    /// The next head that reads what the one at a place does.
    #[inline]
    pub fn next(&self, place: usize) -> usize
        requires { place < length self.now.nexts.items }
        ensures { slice_get self.now.nexts.items place ≡ Some result }
    {
        self.nexts[place]
    }

    // Links the head before those that are linked.
    fn link(&mut self, columns: usize, head: &StatColumn, place: usize)
        requires few { columns < 2 ^ 32 }
        requires wide { length self.old.firsts.items ≡ columns * 9 }
        requires there { place < length self.old.nexts.items }
        ensures linked { (heads : List zones.StatColumn) → slice_get heads place ≡ Some head.now
            → AreLinked heads (place + 1) self.old → AreLinked heads place self.new }
        ensures wide { length self.new.firsts.items ≡ length self.old.firsts.items }
        ensures long { length self.new.nexts.items ≡ length self.old.nexts.items }
    {
        if head.source() >= columns {
            return;
        }
        if let Some(stat) = StatFn::reads(head.aggregate()) {
            let own = slot(head.source(), stat);
            self.nexts[place] = self.firsts[own];
            self.firsts[own] = place;
        }
    }
}

/// The links of the heads, of so many columns.
pub fn links_of(alloc: Global, columns: u32, heads: &[StatColumn]) -> Result<Links, AllocError>
    ensures linked { IfOk result (AreLinked heads.now 0) }
    ensures wide { IfOk result (λ links. length links.firsts.items ≡ columns * 9) }
{
    let mut links = Links {
        firsts: vec![in alloc; heads.len(); columns as usize * 9]?,
        nexts: vec![in alloc; heads.len(); heads.len()]?,
    };
    for place in (0..heads.len()).rev() {
        links.link(columns as usize, &heads[place], place);
    }
    Ok(links)
}
