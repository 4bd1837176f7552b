//! Callers that have the full scan's rows without a premise on statistics: the one measures what it
//! scans, the other checks what came with it.
ghost use Rattle.std.specs.Prelude.{◌≡◌, ◌↔◌, All, IfErr, IfOk, IfSome, IsSome, IsTrue, map};
ghost use Rattle.std.specs.List.{AllByRecursion};
ghost use Rattle.vortex_expr.specs.Meanings.Fitting.{fits_scope};
ghost use Rattle.vortex_expr.specs.Trees.Tree.{is_plain};
ghost use Rattle.vortex_prune.specs.Part.{IsTruePart, measured_part};
ghost use Rattle.vortex_prune.specs.Scanning.Selection.{full};
ghost use Rattle.vortex_rewrite.specs.Answers.{IsMemory};
ghost use Rattle.vortex_rewrite.specs.Rewriting.Predicates.{is_predicate};
ghost use Rattle.vortex_examples.specs.Measuring.{rows_of_chunks};

use std::alloc::Global;
use vortex_base::Chunk;
use vortex_expr::BoundExpression;
use vortex_prune::laws::statistics_binders_are_honest;
use vortex_prune::scan::scan;
use vortex_prune::{Part, Rules, Scan, StatsBinder};
use vortex_stats::StatsError;

/// The scan by the built-in rules and the parts' own statistics.
pub fn scan_by_statistics(
    alloc: Global,
    parts: &[Part],
    predicate: &BoundExpression,
) -> Result<Scan, StatsError>
    requires plain { IsTrue (is_plain predicate.now) }
    requires fits { All (λ part. IsTrue (fits_scope predicate.now part.chunk.scope)) parts.now }
    // Where the statistics are true it selects the full scan's rows.
    ensures full { IfOk result (λ scan. AllByRecursion IsTruePart parts.now
        → scan.selected.items ≡ full predicate.now parts.now) }
    ensures memory { IsTrue (is_predicate predicate.now) → IfErr result IsMemory }
{
    statistics_binders_are_honest();
    let binders = StatsBinder::of_parts(alloc, parts)?;
    scan(alloc, parts, &binders, predicate, &Rules::builtin(alloc))
}

// The chunk with the statistics of its rows.
pub(crate) fn part_measured(alloc: Global, chunk: Chunk) -> Result<Part, StatsError>
    ensures measured { IfOk result (λ part. part ≡ measured_part chunk) }
    ensures truth { IfOk result (λ part. IsTruePart part) }
    ensures memory { IfErr result IsMemory }
{
    match Part::measured(alloc, chunk) {
        Ok(part) => Ok(part),
        Err(refused) => Err(StatsError::Memory(refused.error)),
    }
}

/// The chunks with the statistics of their rows.
pub fn parts_measured(alloc: Global, chunks: Vec<Chunk>) -> Result<Vec<Part>, StatsError>
    ensures measured { IfOk result (λ parts. parts.items ≡ map measured_part chunks.items) }
    ensures truth { IfOk result (λ parts. AllByRecursion IsTruePart parts.items) }
    ensures memory { IfErr result IsMemory }
{
    let mut parts = Vec::new(alloc);
    for chunk in chunks {
        parts.push(part_measured(alloc, chunk)?)?;
    }
    Ok(parts)
}

/// The scan of chunks that are measured first.
pub fn scan_measured(
    alloc: Global,
    chunks: Vec<Chunk>,
    predicate: &BoundExpression,
) -> Result<Scan, StatsError>
    requires plain { IsTrue (is_plain predicate.now) }
    requires fits { All (λ chunk. IsTrue (fits_scope predicate.now chunk.scope)) chunks.items }
    // Every row of the chunks that satisfies the predicate, and no other, whoever wrote them.
    ensures rows { IfOk result (λ scan.
        scan.selected.items ≡ rows_of_chunks predicate.now chunks.items) }
    ensures memory { IsTrue (is_predicate predicate.now) → IfErr result IsMemory }
{
    let parts = parts_measured(alloc, chunks)?;
    scan_by_statistics(alloc, &parts, predicate)
}

// Whether the statistics of each part are true.
fn are_true(parts: &[Part]) -> bool
    ensures { IsTrue result ↔ AllByRecursion IsTruePart parts.now }
{
    for part in parts {
        if !part.is_true() {
            return false;
        }
    }
    true
}

/// The scan of parts of which each is checked first, and nothing where one has a false statistic.
pub fn scan_checked(
    alloc: Global,
    parts: &[Part],
    predicate: &BoundExpression,
) -> Result<Option<Scan>, StatsError>
    requires plain { IsTrue (is_plain predicate.now) }
    requires fits { All (λ part. IsTrue (fits_scope predicate.now part.chunk.scope)) parts.now }
    ensures rows { IfOk result (λ answer. IfSome answer (λ scan.
        scan.selected.items ≡ full predicate.now parts.now)) }
    ensures checked { IfOk result (λ answer.
        IsSome answer ↔ AllByRecursion IsTruePart parts.now) }
    ensures memory { IsTrue (is_predicate predicate.now) → IfErr result IsMemory }
{
    if !are_true(parts) {
        return Ok(None);
    }
    match scan_by_statistics(alloc, parts, predicate) {
        Ok(scan) => Ok(Some(scan)),
        Err(refused) => Err(refused),
    }
}
