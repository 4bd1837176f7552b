//! Parts: chunks of rows, each with the statistics of its columns.
ghost use Rattle.std.specs.Prelude.{◌≡◌, ◌<◌, IfErr, IfOk, IsOk, IsTrue, length, slice_get, Some};
ghost use Rattle.vortex_base.specs.Data.Columns.{IsChunk};
ghost use Rattle.vortex_stats.specs.declared.error.StatsError.TheVariants.{Mismatch};
ghost use Rattle.vortex_prune.specs.Part.{IsPart, sets_fit, zone_of};

mod join;
mod measure;

use std::alloc::AllocError;
use std::marker::Model;
use vortex_base::chunk::Chunk;
use vortex_stats::error::StatsError;
use vortex_stats::stats_set::StatsSet;
use vortex_zone_map::zone::{Zone, sets_fit};

/// The rows of a chunk, and for each of its columns the statistics that came with it.
#[derive(Debug, Drop)]
pub struct Part {
    chunk: Chunk,
    stats: Vec<StatsSet>,
}

impl Model for Part {
    ghost use Rattle.vortex_prune.specs.Part.{PartData, IsPart};

    ghost Value = { PartData };

    ghost view = { λ p. record { chunk = p.chunk; stats = p.stats.items } };

    ghost invariant = { λ p. IsPart (record { chunk = p.chunk; stats = p.stats.items }) };
}

/// A chunk and sets that make no part, handed back beside the cause.
#[derive(Debug, Drop)]
pub struct PartRefused {
    /// `Mismatch`.
    pub error: StatsError,
    /// The chunk as it was given.
    pub chunk: Chunk,
    /// The sets as they were given.
    pub stats: Vec<StatsSet>,
}

// Whether there is one set a column of a chunk that fits its type.
fn chunk_fits(chunk: &Chunk, stats: &[StatsSet]) -> bool
    ensures value { result ≡ sets_fit chunk.now.columns stats.now }
    ensures is_chunk { IsChunk chunk.now }
{
    sets_fit(chunk.scope(), &Zone::new(0, stats))
}

impl Part {
    /// The part of a chunk and the statistics of its columns, in their order. `Mismatch` unless
    /// there is one set a column and each fits its column's type. No memory is taken, and what was
    /// given comes back with the refusal.
    pub fn try_new(chunk: Chunk, stats: Vec<StatsSet>) -> Result<Part, PartRefused>
        ensures made { IfOk result (λ part. part ≡ record { chunk = chunk; stats = stats.items }) }
        ensures fits { IsTrue (sets_fit chunk.columns stats.items) → IsOk result }
        ensures error { IfErr result (λ refused. refused.error ≡ Mismatch) }
        ensures chunk_back { IfErr result (λ refused. refused.chunk ≡ chunk) }
        ensures stats_back { IfErr result (λ refused. refused.stats ≡ stats) }
    {
        if chunk_fits(&chunk, &stats) {
            Ok(Part { chunk, stats })
        } else {
            Err(PartRefused {
                error: StatsError::Mismatch,
                chunk,
                stats,
            })
        }
    }

    /// The rows.
    pub fn chunk(&self) -> &Chunk
        ensures value { result.now ≡ self.now.chunk }
        ensures is_part { IsPart self.now }
    {
        &self.chunk
    }

    /// The statistics of the column at a place, which the length of the chunk's scope tells to be
    /// in range.
    pub fn stats(&self, i: usize) -> &StatsSet
        requires { i < length self.now.chunk.scope }
        ensures value { slice_get self.now.stats i ≡ Some result.now }
        ensures is_part { IsPart self.now }
    {
        let sets = self.stats.as_slice();
        &sets[i]
    }

    /// The part as it is known without its rows.
    pub fn zone(&self) -> Zone<'_>
        ensures value { result ≡ zone_of self.now }
        ensures is_part { IsPart self.now }
    {
        Zone::new(self.chunk.rows() as u64, &self.stats)
    }

    /// The rows, and the statistics of the columns in order. They make a part again.
    pub fn into_inner(self) -> (Chunk, Vec<StatsSet>)
        ensures chunk { result.0 ≡ self.chunk }
        ensures stats { result.1.items ≡ self.stats }
        ensures is_part { IsPart self }
    {
        let Part { chunk, stats } = self;
        (chunk, stats)
    }
}

/// Two parts that were not joined, handed back beside the cause.
#[derive(Debug, Drop)]
pub struct JoinRefused {
    /// `TooLarge` or `Memory`.
    pub error: StatsError,
    /// The first part as it was given.
    pub left: Part,
    /// The second part as it was given.
    pub right: Part,
}

/// A chunk that was not measured, handed back beside the cause, which is memory alone.
#[derive(Debug, Drop)]
pub struct MeasureRefused {
    /// The refused request.
    pub error: AllocError,
    /// The column of which the greatest or the least value wasn't copied, a text or bytes. None
    /// where the list of sets wasn't made.
    pub column: Option<usize>,
    /// The chunk as it was given.
    pub chunk: Chunk,
}
