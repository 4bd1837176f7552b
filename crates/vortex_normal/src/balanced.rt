//! Predicates joined two by two.
ghost use Rattle.std.specs.Prelude.{◌≡◌};
ghost use Rattle.vortex_expr.specs.Trees.Connectives.{is_and};
ghost use Rattle.vortex_rewrite.specs.Answers.{Makes, OkOrMemory};
ghost use Rattle.vortex_normal.specs.Balanced as spec;

use crate::leaves::connected;
use std::alloc::Global;
use vortex_expr::scalar_fn::Connective;
use vortex_rewrite::predicate::Predicate;
use vortex_stats::error::StatsError;

// Neighbours joined by AND or by OR; the last of an odd number stays as it is.
fn paired(
    alloc: Global,
    connective: Connective,
    tests: Vec<Predicate>,
) -> Result<Vec<Predicate>, StatsError>
    ensures { OkOrMemory result
        (λ pairs. pairs.items ≡ spec.paired (is_and connective) tests.items) }
{
    let mut pairs = Vec::new(alloc);
    let mut rest = tests.into_iter();
    while let Some(first) = rest.next() {
        match rest.next() {
            Some(second) => pairs.push(connected(alloc, connective, first, second)?)?,
            None => pairs.push(first)?,
        }
    }
    Ok(pairs)
}

/// The predicate that some make up, joined by AND or by OR, in time that is linear.
pub(crate) fn balanced(
    alloc: Global,
    connective: Connective,
    tests: Vec<Predicate>,
) -> Result<Predicate, StatsError>
    ensures { Makes (spec.balanced (is_and connective) tests.items) result }
{
    let mut left = tests;
    while left.len() > 1 {
        left = paired(alloc, connective, left)?;
    }
    match left.pop() {
        Some(only) => Ok(only),
        None => Predicate::truth(alloc, connective.unit()),
    }
}
