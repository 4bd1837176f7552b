//! Expressions joined in halves by OR.
ghost use Rattle.std.specs.Prelude.{◌≡◌, MatchResult};
ghost use Rattle.vortex_sql.specs.Halves as spec;
ghost use Rattle.vortex_sql.specs.Readings.{Yields};
ghost use Rattle.vortex_sql.specs.declared.fault.Fault.TheVariants.{Memory};

use crate::fault::Fault;
use std::alloc::Global;
use vortex_expr::bound;
use vortex_expr::bound_expression::BoundExpression;

// Joins neighbours; the last of an odd number stays as it is.
fn paired(alloc: Global, items: Vec<BoundExpression>) -> Result<Vec<BoundExpression>, Fault>
    ensures { MatchResult result (λ v. v.items ≡ spec.paired items.items) (λ f. f ≡ Memory) }
{
    let mut pairs = Vec::new(alloc);
    let mut rest = items.into_iter();
    'pairs: while let Some(first) = rest.next() {
        match rest.next() {
            Some(second) => pairs.push(bound::or(alloc, first, second)?)?,
            None => pairs.push(first)?,
        }
    }
    Ok(pairs)
}

/// Joins expressions in halves, in time linear in their number.
#[tactic(auto, using(crate::proofs::Pairs::last_joined, crate::proofs::Pairs::none_joined))]
pub(crate) fn joined(
    alloc: Global,
    items: Vec<BoundExpression>,
) -> Result<Option<BoundExpression>, Fault>
    ensures { Yields (spec.joined items.items) result }
{
    let mut left = items;
    'turns: while left.len() > 1 {
        let pairs = paired(alloc, left)?;
        left = pairs;
    }
    match left.pop() {
        Some(only) => Ok(Some(only)),
        None => Ok(None),
    }
}
