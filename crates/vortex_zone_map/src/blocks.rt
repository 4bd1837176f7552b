//! Stretches in blocks, so that a change moves those of one block alone.
ghost use Rattle.std.specs.Prelude.{◌≡◌, ◌<◌, ◌≤◌, ◌+◌, ◌++◌, ◌∷◌, [], IsTrue, List, OnErr, OnOk, Some, drop, length, slice_get, slice_set, take};
ghost use Rattle.vortex_zone_map.specs.declared.entry_range.EntryRange as spec;
ghost use Rattle.vortex_zone_map.specs.Blocks.{IsBlockOf, IsCounted, IsRun, all_of, before};

use crate::entry_range::EntryRange;
use std::alloc::{AllocError, Global};

// As many stretches as a block takes.
const FULL: usize = 256;

/// Stretches one behind the other.
#[derive(Debug, Drop)]
pub struct Block {
    pub stretches: Vec<EntryRange>,
}

/// Stretches in order, in blocks of which some may be empty. It is known how many stretches there
/// are, and for each block how many stand before it, or, behind the first `near` ones, how many
/// stand from it on: so a change in the last of these changes no number of another block.
#[derive(Debug, Drop)]
pub struct Blocks {
    pub alloc: Global,
    pub count: usize,
    pub blocks: Vec<Block>,
    pub places: Vec<usize>,
    pub near: usize,
}

/// Stretches that stand together, and the place of the first one.
#[derive(Clone, Copy, Debug)]
pub struct Run<'a> {
    pub first: usize,
    pub stretches: &'a [EntryRange],
}

impl Run<'_> {
    /// No stretches.
    #[inline]
    pub fn none() -> Run<'static>
        ensures { (ss : List spec.EntryRange) → IsRun ss result.first result.stretches.now }
    {
        Run {
            first: 0,
            stretches: &[],
        }
    }
}

impl Blocks {
    /// No stretches.
    pub fn new(alloc: Global) -> Blocks
        ensures none { all_of result ≡ [] }
        ensures counted { IsCounted result }
    {
        Blocks {
            alloc,
            count: 0,
            blocks: Vec::new(alloc),
            places: Vec::new(alloc),
            near: 0,
        }
    }

    // How many stretches stand before a block.
    #[inline]
    fn before(&self, block: usize) -> usize
        requires counted { IsCounted self.now }
        requires there { block < length self.now.blocks.items }
        ensures { result ≡ before self.now.blocks.items block }
    {
        if block < self.near {
            return self.places[block];
        }
        self.count - self.places[block]
    }

    // Whether the stretch at a place is known to stand in a block.
    #[inline]
    fn is_in(&self, place: usize, block: usize) -> bool
        requires { IsCounted self.now }
        ensures { IsTrue result → IsBlockOf self.now.blocks.items place block }
    {
        if block >= self.blocks.len() {
            return false;
        }
        let before = self.before(block);
        before <= place && place - before < self.blocks[block].stretches.len()
    }

    // The block in which the stretch at a place stands, found by halves.
    #[inline(never)]
    fn search(&self, place: usize) -> usize
        requires counted { IsCounted self.now }
        requires there { place < length (all_of self.now) }
        ensures { IsBlockOf self.now.blocks.items place result }
    {
        let mut low = 0;
        let mut high = self.blocks.len();
        'halves: while high - low > 1 {
            let middle = low + (high - low) / 2;
            if self.before(middle) <= place {
                low = middle;
            } else {
                high = middle;
            }
        }
        low
    }

    // The block in which the stretch at a place stands. Before the first join each but the last
    // one is full.
    #[inline]
    fn block_of(&self, place: usize) -> usize
        requires counted { IsCounted self.now }
        requires there { place < length (all_of self.now) }
        ensures { IsBlockOf self.now.blocks.items place result }
    {
        let full = place / FULL;
        if self.is_in(place, full) {
            return full;
        }
        self.search(place)
    }

    /// The stretch at a place.
    #[inline]
    pub fn at(&self, place: usize) -> EntryRange
        requires counted { IsCounted self.now }
        requires there { place < length (all_of self.now) }
        ensures { slice_get (all_of self.now) place ≡ Some result }
    {
        let block = self.block_of(place);
        self.blocks[block].stretches[place - self.before(block)]
    }

    // The stretches of the block in which the one at a place stands.
    #[inline(never)]
    fn run_of(&self, place: usize) -> Run<'_>
        requires counted { IsCounted self.now }
        requires there { place < length (all_of self.now) }
        ensures run { IsRun (all_of self.now) result.first result.stretches.now }
        ensures from { result.first ≤ place }
        ensures to { place < result.first + length result.stretches.now }
    {
        let block = self.block_of(place);
        Run {
            first: self.before(block),
            stretches: &self.blocks[block].stretches,
        }
    }

    /// The stretch at a place, taken from those of a run if it is one of them. If it isn't, the run
    /// becomes one of which it is.
    #[inline]
    pub fn at_hand<'a>(&'a self, run: &mut Run<'a>, place: usize) -> EntryRange
        requires counted { IsCounted self.now }
        requires there { place < length (all_of self.now) }
        requires run { IsRun (all_of self.now) run.old.first run.old.stretches.now }
        ensures found { slice_get (all_of self.now) place ≡ Some result }
        ensures run { IsRun (all_of self.now) run.new.first run.new.stretches.now }
    {
        if place < run.first || place - run.first >= run.stretches.len() {
            *run = self.run_of(place);
        }
        run.stretches[place - run.first]
    }

    // Tells of so many blocks, the first ones, how many stretches stand before them, and of the
    // others how many stand from them on.
    fn count_to(&mut self, near: usize)
        requires counted { IsCounted self.old }
        requires within { near ≤ length self.old.blocks.items }
        ensures same { self.new.blocks ≡ self.old.blocks }
        ensures near { self.new.near ≡ near }
        ensures counted { IsCounted self.new }
    {
        'up: while self.near < near {
            let next = self.near;
            self.places[next] = self.count - self.places[next];
            self.near = next + 1;
        }
        'down: while self.near > near {
            let last = self.near - 1;
            self.places[last] = self.count - self.places[last];
            self.near = last;
        }
    }

    // Puts a stretch into a block of its own behind the others.
    #[inline(never)]
    fn push_block(&mut self, stretch: EntryRange) -> Result<(), AllocError>
        requires { IsCounted self.old }
        ensures pushed { OnOk result (all_of self.new ≡ all_of self.old ++ stretch ∷ []) }
        ensures refused { OnErr result (all_of self.new ≡ all_of self.old) }
        ensures counted { IsCounted self.new }
    {
        let Some(count) = self.count.checked_add(1) else {
            return Err(AllocError);
        };
        let near = self.blocks.len();
        self.count_to(near);
        self.blocks.reserve(1)?;
        self.places.reserve(1)?;
        let mut stretches = Vec::with_capacity(self.alloc, FULL)?;
        stretches.push_reserved(stretch);
        self.blocks.push_reserved(Block { stretches });
        self.places.push_reserved(self.count);
        self.near = near + 1;
        self.count = count;
        Ok(())
    }

    /// Puts a stretch behind the others. Where memory is refused, these stay.
    pub fn push(&mut self, stretch: EntryRange) -> Result<(), AllocError>
        requires { IsCounted self.old }
        ensures pushed { OnOk result (all_of self.new ≡ all_of self.old ++ stretch ∷ []) }
        ensures refused { OnErr result (all_of self.new ≡ all_of self.old) }
        ensures counted { IsCounted self.new }
    {
        let near = self.blocks.len();
        if near == 0 || self.blocks[near - 1].stretches.len() >= FULL {
            return self.push_block(stretch);
        }
        let Some(count) = self.count.checked_add(1) else {
            return Err(AllocError);
        };
        self.count_to(near);
        let last = &mut self.blocks[near - 1];
        last.stretches.push(stretch)?;
        self.count = count;
        Ok(())
    }

    // Puts a stretch in the place of another.
    fn set(&mut self, place: usize, stretch: EntryRange)
        requires counted { IsCounted self.old }
        requires there { place < length (all_of self.old) }
        ensures set { all_of self.new ≡ slice_set (all_of self.old) place stretch }
        ensures counted { IsCounted self.new }
    {
        let block = self.block_of(place);
        let within = place - self.before(block);
        let own = &mut self.blocks[block];
        own.stretches[within] = stretch;
    }

    // Removes the stretch at a place.
    fn remove(&mut self, place: usize)
        requires counted { IsCounted self.old }
        requires there { place < length (all_of self.old) }
        ensures removed { let old = all_of self.old in
            all_of self.new ≡ take place old ++ drop (place + 1) old }
        ensures counted { IsCounted self.new }
    {
        let block = self.block_of(place);
        self.count_to(block + 1);
        let within = place - self.before(block);
        let own = &mut self.blocks[block];
        own.stretches.remove(within);
        self.count -= 1;
    }

    /// Puts a stretch in the place of the one at a place and the one behind it. Of those behind
    /// them only those in the second one's block move.
    pub fn join_at(&mut self, place: usize, joined: EntryRange)
        requires counted { IsCounted self.old }
        requires there { place + 1 < length (all_of self.old) }
        ensures joined { let old = all_of self.old in
            all_of self.new ≡ take place old ++ joined ∷ drop (place + 2) old }
        ensures counted { IsCounted self.new }
    {
        self.set(place, joined);
        self.remove(place + 1);
    }
}
