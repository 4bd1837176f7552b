//! Nulls, of which only the number is kept.
ghost use Rattle.std.specs.Prelude.{◌≡◌, ◌+◌, ◌^◌, min, OnErr, OnOk};

use std::alloc::{AllocError, Global};
use std::marker::Model;

/// A column of `count` nulls, which takes no memory.
#[derive(Debug, Drop)]
pub struct Nulls {
    alloc: Global,
    count: usize,
}

impl Model for Nulls {
    ghost use Rattle.std.specs.Prelude.{ℕ};

    ghost Value = { ℕ };

    ghost view = { λ n. n.count };
}

impl Nulls {
    pub fn new(alloc: Global, count: usize) -> Nulls
        ensures { result ≡ count }
    {
        Nulls { alloc, count }
    }

    /// How many there are.
    #[inline]
    pub fn count(&self) -> usize
        ensures { result ≡ self.now }
    {
        self.count
    }

    // The allocator for values that come among them.
    pub(crate) fn allocator(&self) -> Global {
        self.alloc
    }

    // Adds one more, refused as memory is where no more can be counted.
    pub(crate) fn push(&mut self) -> Result<(), AllocError>
        ensures pushed { OnOk result (self.new ≡ self.old + 1) }
        ensures refused { OnErr result (self.new ≡ self.old) }
        ensures full { OnErr result (self.old + 1 ≡ 2 ^ 64) }
    {
        self.count = self.count.checked_add(1).ok_or(AllocError)?;
        Ok(())
    }

    // Adds as many as others are, refused as memory is where so many can't be counted.
    pub(crate) fn extend_from(&mut self, others: &Nulls) -> Result<(), AllocError>
        ensures extended { OnOk result (self.new ≡ self.old + others.now) }
        ensures refused { OnErr result (self.new ≡ self.old) }
    {
        self.count = self.count.checked_add(others.count).ok_or(AllocError)?;
        Ok(())
    }

    // Leaves so many at the most.
    pub(crate) fn truncate(&mut self, len: usize)
        ensures { self.new ≡ min len self.old }
    {
        self.count = len.min(self.count);
    }
}
