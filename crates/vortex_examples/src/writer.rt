//! A writer that measures chunks, joins small ones and makes the zones that a reader prunes by.
ghost use Rattle.std.specs.Prelude.{◌≡◌, All, IfOk, map};
ghost use Rattle.std.specs.List.{AllByRecursion};
ghost use Rattle.vortex_base.specs.Data.Columns.{appended_chunk};
ghost use Rattle.vortex_prune.specs.Part.{IsTruePart, measured_part};

use crate::measured::{part_measured, parts_measured};
use std::alloc::Global;
use vortex_base::{Chunk, Scope};
use vortex_prune::{Part, Zones};
use vortex_stats::StatsError;

/// Two chunks of one scope as one part, whose statistics are merged of those of the two.
pub fn write_pair(alloc: Global, first: Chunk, second: Chunk) -> Result<Part, StatsError>
    requires { first.scope ≡ second.scope }
    ensures rows { IfOk result (λ part. part.chunk ≡ appended_chunk first second) }
    // What is written of them is true.
    ensures truth { IfOk result (λ part. IsTruePart part) }
{
    let left = part_measured(alloc, first)?;
    let right = part_measured(alloc, second)?;
    match Part::join(alloc, left, right) {
        Ok(part) => Ok(part),
        Err(refused) => Err(refused.error),
    }
}

/// The zones of chunks of one scope, with all statistics that their rows have.
pub fn write_zones(alloc: Global, scope: Scope, chunks: Vec<Chunk>) -> Result<Zones, StatsError>
    requires { All (λ chunk. chunk.scope ≡ scope) chunks.items }
    ensures measured { IfOk result (λ zones. zones.parts ≡ map measured_part chunks.items) }
    // What is written of them is true.
    ensures truth { IfOk result (λ zones. AllByRecursion IsTruePart zones.parts) }
{
    let parts = parts_measured(alloc, chunks)?;
    match Zones::try_new(alloc, scope, parts) {
        Ok(zones) => Ok(zones),
        Err(refused) => Err(refused.error),
    }
}
