//! Many proofs as one.
ghost use Rattle.std.specs.Prelude.{◌≡◌};
ghost use Rattle.vortex_rewrite.specs.Rewriting.Falsifiers.{reduce_balanced as reduced, round};
ghost use Rattle.vortex_rewrite.specs.Answers.{Makes, OkOrMemory};

use crate::predicate::Predicate;
use std::alloc::Global;
use vortex_expr::scalar_fn::Operator;
use vortex_stats::error::StatsError;

// Joins neighbours by OR, the first with the second, the third with the fourth; an odd last one
// stays.
fn reduce_round(alloc: Global, proofs: Vec<Predicate>) -> Result<Vec<Predicate>, StatsError>
    ensures { OkOrMemory result (λ joined. joined.items ≡ round proofs.items) }
{
    let mut joined = Vec::new(alloc);
    let mut rest = proofs.into_iter();
    while let Some(first) = rest.next() {
        match rest.next() {
            Some(second) => joined.push(Predicate::connect(alloc, Operator::Or, first, second)?)?,
            None => joined.push(first)?,
        }
    }
    Ok(joined)
}

// Joins neighbours, round after round, until one proof is left.
pub(crate) fn reduce_balanced(
    alloc: Global,
    proofs: Vec<Predicate>,
) -> Result<Option<Predicate>, StatsError>
    ensures { Makes (reduced proofs.items) result }
{
    let mut left = proofs;
    while left.len() > 1 {
        left = reduce_round(alloc, left)?;
    }
    Ok(left.pop())
}
