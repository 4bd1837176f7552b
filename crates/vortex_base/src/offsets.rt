//! Places in a heap, in 32 bits each while they fit.
ghost use Rattle.std.specs.Prelude.{◌≡◌, ◌<◌, ◌≤◌, ◌+◌, ◌^◌, ◌++◌, ◌∷◌, [], IfOk, OnErr, OnOk, length, map, slice_index, take, vec_capacity, vec_len, ℕ};
ghost use Rattle.vortex_base.specs.Data.VarBinArray.{start_at};

use std::alloc::{AllocError, Global};
use std::marker::Model;

/// Places in a heap, in order. They take 32 bits each until one comes that doesn't fit, and 64
/// from then on.
#[derive(Debug, Drop)]
pub(crate) struct Offsets {
    short: Vec<u32>,
    long: Vec<usize>,
}

impl Model for Offsets {
    ghost use Rattle.std.specs.Prelude.{◌++◌, ℕ, List};

    ghost Value = { List ℕ };

    ghost view = { λ o. o.short.items ++ o.long.items };
}

// Puts more places behind others, for which there is room, each moved up.
fn push_shifted(places: &mut Vec<u32>, more: &[u32], by: u32)
    requires room { vec_len places.old + length more.now ≤ vec_capacity places.old }
    requires fits { (i : ℕ) → i < length more.now → by + slice_index more.now i < 2 ^ 32 }
    ensures { places.new.items ≡ places.old.items ++ map (λ e. by + e) more.now }
{
    for place in more {
        places.push_reserved(by + *place);
    }
}

impl Offsets {
    // No places yet.
    pub(crate) fn new(alloc: Global) -> Offsets
        ensures { result ≡ [] }
    {
        Offsets {
            short: Vec::new(alloc),
            long: Vec::new(alloc),
        }
    }

    // No places yet, with room for some of 32 bits.
    pub(crate) fn with_capacity(alloc: Global, count: usize) -> Result<Offsets, AllocError>
        ensures empty { IfOk result (λ places. places ≡ []) }
        ensures memory { OnErr result (0 < count) }
    {
        let short = Vec::with_capacity(alloc, count)?;
        let long = Vec::new(alloc);
        Ok(Offsets { short, long })
    }

    // The number of places.
    #[inline]
    pub(crate) fn len(&self) -> usize
        ensures { result ≡ length self.now }
    {
        self.short.len() + self.long.len()
    }

    // The place at an index.
    #[inline]
    pub(crate) fn get(&self, i: usize) -> usize
        requires { i < length self.now }
        ensures { result ≡ slice_index self.now i }
    {
        let count = self.short.len();
        if i < count {
            self.short[i] as usize
        } else {
            self.long[i - count]
        }
    }

    // The place before that at an index, and 0 at the first.
    #[inline]
    pub(crate) fn start_at(&self, i: usize) -> usize
        requires { i ≤ length self.now }
        ensures { result ≡ start_at 0 self.now i }
    {
        if i == 0 { 0 } else { self.get(i - 1) }
    }

    // The place before that at an index, 0 at the first, and the one there, which takes 64 bits.
    #[inline(never)]
    fn long_range(&self, i: usize) -> (usize, usize)
        requires { i < length self.now }
        ensures start { result.0 ≡ start_at 0 self.now i }
        ensures end { result.1 ≡ slice_index self.now i }
    {
        (self.start_at(i), self.get(i))
    }

    // The place before that at an index, 0 at the first, and the one there.
    #[inline]
    pub(crate) fn range(&self, i: usize) -> (usize, usize)
        requires { i < length self.now }
        ensures start { result.0 ≡ start_at 0 self.now i }
        ensures end { result.1 ≡ slice_index self.now i }
    {
        if i < self.short.len() {
            let end = self.short[i] as usize;
            if i == 0 {
                (0, end)
            } else {
                (self.short[i - 1] as usize, end)
            }
        } else {
            self.long_range(i)
        }
    }

    // Adds a place of 64 bits. If memory is refused, the places are as they were.
    #[inline(never)]
    fn push_long(&mut self, place: usize) -> Result<(), AllocError>
        ensures pushed { OnOk result (self.new ≡ self.old ++ place ∷ []) }
        ensures refused { OnErr result (self.new ≡ self.old) }
    {
        self.long.push(place)?;
        Ok(())
    }

    // Adds a place. If memory is refused, the places are as they were.
    #[inline(always)]
    pub(crate) fn push(&mut self, place: usize) -> Result<(), AllocError>
        ensures pushed { OnOk result (self.new ≡ self.old ++ place ∷ []) }
        ensures refused { OnErr result (self.new ≡ self.old) }
    {
        if place <= u32::MAX as usize && self.long.is_empty() {
            self.short.push(place as u32)?;
            Ok(())
        } else {
            self.push_long(place)
        }
    }

    // Adds copies of others one by one, each moved up. If memory is refused, the places are as
    // they were.
    #[inline(never)]
    fn extend_one_by_one(&mut self, others: &Offsets, by: usize) -> Result<(), AllocError>
        requires { (i : ℕ) → i < length others.now → by + slice_index others.now i < 2 ^ 64 }
        ensures extended { OnOk result (self.new ≡ self.old ++ map (λ e. by + e) others.now) }
        ensures refused { OnErr result (self.new ≡ self.old) }
    {
        let count = self.len();
        for i in 0..others.len() {
            if self.push(by + others.get(i)).is_err() {
                self.truncate(count);
                return Err(AllocError);
            }
        }
        Ok(())
    }

    // Adds copies of others, each moved up and none past `stop`. If memory is refused, the places
    // are as they were.
    pub(crate) fn extend_from(
        &mut self,
        others: &Offsets,
        by: usize,
        stop: usize,
    ) -> Result<(), AllocError>
        requires order { by ≤ stop }
        requires fits { (i : ℕ) → i < length others.now → by + slice_index others.now i ≤ stop }
        ensures extended { OnOk result (self.new ≡ self.old ++ map (λ e. by + e) others.now) }
        ensures refused { OnErr result (self.new ≡ self.old) }
    {
        if stop <= u32::MAX as usize && self.long.is_empty() && others.long.is_empty() {
            self.short.reserve(others.short.len())?;
            push_shifted(&mut self.short, &others.short, by as u32);
            Ok(())
        } else {
            self.extend_one_by_one(others, by)
        }
    }

    // Drops the places behind the first ones of this number.
    pub(crate) fn truncate(&mut self, len: usize)
        ensures { self.new ≡ take len self.old }
    {
        self.long.truncate(len.saturating_sub(self.short.len()));
        self.short.truncate(len);
    }

    // Gives back the room that no place takes.
    pub(crate) fn shrink_to_fit(&mut self)
        ensures { self.new ≡ self.old }
    {
        self.short.shrink_to_fit();
        self.long.shrink_to_fit();
    }
}
