//! The scan of what a text names.
ghost use Rattle.std.specs.Prelude.{◌≡◌, ◌<◌, IfOk, IfSome, is_some};
ghost use Rattle.std.specs.List.{AllByRecursion};
ghost use Rattle.vortex_prune.specs.Part.{IsTruePart};
ghost use Rattle.vortex_rewrite.specs.Rewriting.Predicates.{is_predicate};
ghost use Rattle.vortex_prune.specs.Scanning.Selection.{full};
ghost use Rattle.vortex_prune.specs.Zones.{zones_of};
ghost use Rattle.vortex_zone_map.specs.ZoneMaps.{IsMapOf};
ghost use Rattle.vortex_text.specs.Fitting.{IsQueryOver};
ghost use Rattle.vortex_text.specs.Program.{selected, skipped, whole};

use crate::batches::{nothing_found, scan_more};
use crate::parts::Parts;
use std::alloc::{AllocError, Global};
use vortex_base::{DType, Scope};
use vortex_expr::BoundExpression;
use vortex_prune::RangeScan;
use vortex_zone_map::ZoneMap;

/// A query of a text: parts of one scope, and a predicate over it.
#[derive(Debug, Drop)]
pub struct Query {
    /// The columns in order.
    pub scope: Scope,
    /// The parts in order, after all joins.
    pub parts: Parts,
    /// The expression that is asked for, maybe of another type than Bool.
    pub predicate: BoundExpression,
}

impl Query {
    /// The map of what the statistics of the parts tell.
    pub fn map(&self, alloc: Global) -> Result<ZoneMap, AllocError>
        requires { IsQueryOver self.now.scope self.now.parts self.now.predicate }
        ensures { IfOk result (IsMapOf (zones_of self.now.parts)) }
    {
        self.parts.map(alloc, &self.scope)
    }
}

// How many columns the parts of a batch have together, of a scope that isn't wide. Each has up to
// seven values in the table of statistics that is made of the batch.
const BATCH_COLUMNS: usize = 16_384;

// How many parts a batch has at least: for each batch the names of its table are made anew.
const BATCH_PARTS: usize = 64;

// How many parts of this many columns a batch has.
fn batch_size(columns: usize) -> usize
    ensures { 0 < result }
{
    BATCH_PARTS.max(BATCH_COLUMNS / columns.max(1))
}

// Whether an expression is of type Bool.
fn is_predicate(expression: &BoundExpression) -> bool
    ensures { result ≡ is_predicate expression.now }
{
    matches!(expression.dtype(), DType::Bool(_))
}

/// The scan of the parts, in tables of their statistics, or none where the predicate isn't of type
/// Bool.
pub fn scan_query(alloc: Global, query: Query) -> Result<Option<RangeScan>, AllocError>
    requires { IsQueryOver query.scope query.parts query.predicate }
    ensures kind { IfOk result (λ o. is_some o ≡ is_predicate query.predicate) }
    ensures skipped { IfOk result (λ o. IfSome o
        (λ s. s.skipped.items ≡ skipped query.predicate query.parts)) }
    ensures whole { IfOk result (λ o. IfSome o
        (λ s. s.whole.items ≡ whole query.predicate query.parts)) }
    ensures selected { IfOk result (λ o. IfSome o
        (λ s. s.selected ≡ selected query.predicate query.parts)) }
    // Where all statistics are true no row is lost.
    ensures lossless { IfOk result (λ o. IfSome o (λ s. AllByRecursion IsTruePart query.parts
        → s.selected ≡ full query.predicate query.parts)) }
{
    let Query {
        scope,
        parts,
        predicate,
    } = query;
    if !is_predicate(&predicate) {
        return Ok(None);
    }
    let scope = scope.try_shared(alloc)?;
    let size = batch_size(scope.len());
    let count = parts.len();
    let mut left = parts.left();
    let mut found = nothing_found(alloc, &predicate);
    let mut before = 0;
    while before < count {
        let more = size.min(count - before);
        scan_more(
            alloc, &scope, &predicate, &mut found, before, &mut left, more,
        )?;
        before += more;
    }
    Ok(Some(found))
}
