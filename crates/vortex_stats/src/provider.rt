//! Providers of statistics under their types.
ghost use Rattle.std.specs.Prelude.{◌≡◌, ◌==◌, IfOk, OnErr, IsTrue, length};
ghost use Rattle.vortex_stats.specs.Copies.{is_copied};
ghost use Rattle.vortex_stats.specs.Sets.Entries.{entry_value};
ghost use Rattle.vortex_stats.specs.Sets.TypedStats.{TypedStats, typed_value};

use crate::precision::Precision;
use crate::stat::Stat;
use std::alloc::AllocError;
use vortex_base::scalar::Scalar;

/// Statistics of a column of a known type.
pub trait StatsProvider {
    // The entries and the column's type.
    ghost typed: { Self → TypedStats };

    /// The statistic's value under the statistic's type, and Absent where there is no entry. A text
    /// or bytes alone take memory.
    fn get(&self, stat: Stat) -> Result<Precision<Scalar>, AllocError>
        ensures value { IfOk result (λ p. p ≡ typed_value stat (typed self.now)) }
        ensures refused { let values = (typed self.now).values in
            OnErr result (IsTrue (is_copied (entry_value stat values))) };

    /// The number of entries, Absent ones too.
    fn len(&self) -> usize
        ensures { result ≡ length (typed self.now).values };

    /// Whether there is no entry.
    fn is_empty(&self) -> bool
        ensures { result ≡ (length (typed self.now).values == 0) }
    {
        self.len() == 0
    }
}
