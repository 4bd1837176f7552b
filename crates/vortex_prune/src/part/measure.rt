//! Parts whose statistics are made from their rows, and a check of those that weren't.
ghost use Rattle.std.specs.Prelude.{◌≡◌, ◌↔◌, ◌≤◌, ◌++◌, [], IfErr, IfOk, IfSome, IsTrue, OnOk};
ghost use Rattle.std.specs.Prelude.{drop, length, vec_capacity};
ghost use Rattle.vortex_base.specs.Data.Columns.{IsChunk};
ghost use Rattle.vortex_prune.specs.Part.{HoldsLongAt, IsTruePart, measured_part, measured_sets};

use crate::part::{MeasureRefused, Part};
use std::alloc::{AllocError, Global};
use vortex_base::chunk::Chunk;
use vortex_stats::stat::ALL_STATS;
use vortex_stats::stats_set::StatsSet;

// Adds the sets of a chunk's columns, in order, to a list with room for them. Refused with the
// place of the first column of which the greatest or the least value isn't copied.
fn push_sets(alloc: Global, chunk: &Chunk, sets: &mut Vec<StatsSet>) -> Result<(), usize>
    requires empty { sets.old.items ≡ [] }
    requires room { length chunk.now.scope ≤ vec_capacity sets.old }
    ensures measured { OnOk result (sets.new.items ≡ measured_sets chunk.now.columns) }
    ensures first { IfErr result (λ column. column ≡ length sets.new.items) }
    ensures before { let others = drop (length sets.new.items) chunk.now.columns in
        sets.new.items ++ measured_sets others ≡ measured_sets chunk.now.columns }
    ensures copied { IfErr result (HoldsLongAt chunk.now) }
    ensures is_chunk { IsChunk chunk.now }
{
    for i in 0..chunk.scope().len() {
        let Ok(set) = StatsSet::of_column(alloc, chunk.column(i), ALL_STATS) else {
            return Err(i);
        };
        sets.push_reserved(set);
    }
    Ok(())
}

// All statistics of each column of a chunk. Refused at a column whose greatest or least value isn't
// copied, or at none where the list isn't made.
fn measured_sets(alloc: Global, chunk: &Chunk) -> Result<Vec<StatsSet>, Option<usize>>
    ensures measured { IfOk result (λ sets. sets.items ≡ measured_sets chunk.now.columns) }
    ensures copied { IfErr result (λ column. IfSome column (HoldsLongAt chunk.now)) }
    ensures is_chunk { IsChunk chunk.now }
{
    let columns = chunk.scope().len();
    let Ok(mut sets) = Vec::with_capacity(alloc, columns) else {
        return Err(None);
    };
    match push_sets(alloc, chunk, &mut sets) {
        Ok(()) => Ok(sets),
        Err(column) => Err(Some(column)),
    }
}

impl Part {
    /// The part of a chunk with the statistics that its rows have: for each column all that
    /// `StatsSet::of_column` gives, which are true of it. What is scanned after that has the full
    /// scan's rows, whoever wrote the chunk.
    ///
    /// Each value is looked at once and no row is copied. Memory is taken for the list of sets, and
    /// beyond that for the greatest and the least value of a column of texts or bytes alone. The
    /// chunk comes back with the refusal.
    pub fn measured(alloc: Global, chunk: Chunk) -> Result<Part, MeasureRefused>
        ensures measured { IfOk result (λ part. part ≡ measured_part chunk) }
        ensures truth { IfOk result (λ part. IsTruePart part) }
        ensures copied { IfErr result (λ refused. IfSome refused.column (HoldsLongAt chunk)) }
        ensures chunk_back { IfErr result (λ refused. refused.chunk ≡ chunk) }
    {
        match measured_sets(alloc, &chunk) {
            Ok(stats) => Ok(Part { chunk, stats }),
            Err(column) => Err(MeasureRefused {
                error: AllocError,
                column,
                chunk,
            }),
        }
    }

    /// Whether the statistics are true of the columns, so that a scan may rely on them. Each value
    /// is looked at once, and no memory is taken.
    pub fn is_true(&self) -> bool
        ensures { IsTrue result ↔ IsTruePart self.now }
    {
        for i in 0..self.chunk().scope().len() {
            if !self.stats(i).is_true_of(self.chunk().column(i)) {
                return false;
            }
        }
        true
    }
}
