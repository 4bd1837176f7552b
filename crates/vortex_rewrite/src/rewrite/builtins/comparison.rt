//! The least and the greatest values of operands, how they compare, and what that proves.
ghost use Rattle.std.specs.Prelude.{◌≡◌, IsOk, IsTrue, false};
ghost use Rattle.vortex_expr.specs.Trees.Tree as tree;
ghost use Rattle.vortex_expr.specs.Meanings.Typing.{type_of};
ghost use Rattle.vortex_rewrite.specs.Rewriting.Predicates.{is_connective, is_extreme};
ghost use Rattle.vortex_rewrite.specs.Rewriting.BuiltIn.{opposite as opposite_of};
ghost use Rattle.vortex_rewrite.specs.Rewriting.Falsifiers.{both_of, comparison_falsifier, comparison_proof as comparison_proof_of, comparison_satisfier, either_of, extreme as extreme_of, placeholder as placeholder_of, without_nulls as without_nulls_of};
ghost use Rattle.vortex_rewrite.specs.Answers.{Makes};

use crate::built::cloned;
use crate::predicate::Predicate;
use crate::rewrite::nodes::stat;
use crate::rewrite::side::Side;
use std::alloc::Global;
use vortex_base::aggregate::AggregateFnRef;
use vortex_expr::bound_expression::BoundExpression;
use vortex_expr::scalar_fn::Operator;
use vortex_stats::error::StatsError;

fn placeholder(
    alloc: Global,
    aggregate: AggregateFnRef,
    x: &BoundExpression,
) -> Result<Option<BoundExpression>, StatsError>
    ensures { Makes (placeholder_of aggregate x.now) result }
{
    match aggregate.state_dtype(&x.dtype()) {
        None => Ok(None),
        Some(_) => Ok(Some(stat(alloc, aggregate, x)?)),
    }
}

// The least or the greatest value of an operand: of a literal the literal itself.
fn extreme(
    alloc: Global,
    aggregate: AggregateFnRef,
    x: &BoundExpression,
) -> Result<Option<BoundExpression>, StatsError>
    ensures { Makes (extreme_of aggregate x.now) result }
{
    match x.literal() {
        Some(_) => Ok(Some(cloned(x)?)),
        None => placeholder(alloc, aggregate, x),
    }
}

// The comparison of an extreme of one operand with an extreme of another, where both are there.
pub(crate) fn compared(
    alloc: Global,
    operator: Operator,
    left: (AggregateFnRef, &BoundExpression),
    right: (AggregateFnRef, &BoundExpression),
) -> Result<Option<Predicate>, StatsError>
    requires comparison { is_connective operator ≡ false }
    requires left_extreme { IsTrue (is_extreme left.0) }
    requires right_extreme { IsTrue (is_extreme right.0) }
    requires comparable { IsOk (type_of (tree.binary Operator.Eq left.1.now right.1.now)) }
    ensures { Makes (both_of (tree.binary operator)
        (extreme_of left.entry.0 left.entry.1.now)
        (extreme_of right.entry.0 right.entry.1.now)) result }
{
    let low = extreme(alloc, left.0, left.1)?;
    let high = extreme(alloc, right.0, right.1)?;
    match (low, high) {
        (Some(low), Some(high)) => Ok(Some(Predicate::binary(alloc, operator, low, high)?)),
        _ => Ok(None),
    }
}

// Two proofs joined by AND or OR, where both are there.
pub(crate) fn both_joined(
    alloc: Global,
    connective: Operator,
    left: Option<Predicate>,
    right: Option<Predicate>,
) -> Result<Option<Predicate>, StatsError>
    requires { IsTrue (is_connective connective) }
    ensures { Makes (both_of (tree.binary connective) left right) result }
{
    match (left, right) {
        (Some(left), Some(right)) => Ok(Some(Predicate::connect(alloc, connective, left, right)?)),
        _ => Ok(None),
    }
}

// Two proofs joined by AND or OR, and the one that is there where only one is.
pub(crate) fn either_joined(
    alloc: Global,
    connective: Operator,
    left: Option<Predicate>,
    right: Option<Predicate>,
) -> Result<Option<Predicate>, StatsError>
    requires { IsTrue (is_connective connective) }
    ensures { Makes (either_of (tree.binary connective) left right) result }
{
    match (left, right) {
        (Some(left), Some(right)) => Ok(Some(Predicate::connect(alloc, connective, left, right)?)),
        (Some(left), None) => Ok(Some(left)),
        (None, right) => Ok(right),
    }
}

// The built-in proof that no row satisfies a comparison, and none for a connective.
fn comparison_falsifier(
    alloc: Global,
    operator: Operator,
    left: &BoundExpression,
    right: &BoundExpression,
) -> Result<Option<Predicate>, StatsError>
    requires { IsOk (type_of (tree.binary operator left.now right.now)) }
    ensures { Makes (comparison_falsifier operator left.now right.now) result }
{
    let (min_left, max_left) = ((AggregateFnRef::Min, left), (AggregateFnRef::Max, left));
    let (min_right, max_right) = ((AggregateFnRef::Min, right), (AggregateFnRef::Max, right));
    match operator {
        Operator::Eq => {
            let above = compared(alloc, Operator::Gt, min_left, max_right)?;
            let below = compared(alloc, Operator::Gt, min_right, max_left)?;
            both_joined(alloc, Operator::Or, above, below)
        }
        Operator::NotEq => {
            let low = compared(alloc, Operator::Eq, min_left, max_right)?;
            let high = compared(alloc, Operator::Eq, max_left, min_right)?;
            both_joined(alloc, Operator::And, low, high)
        }
        Operator::Gt => compared(alloc, Operator::Lte, max_left, min_right),
        Operator::Gte => compared(alloc, Operator::Lt, max_left, min_right),
        Operator::Lt => compared(alloc, Operator::Gte, min_left, max_right),
        Operator::Lte => compared(alloc, Operator::Gt, min_left, max_right),
        Operator::And | Operator::Or => Ok(None),
    }
}

// The comparison that holds of two values where this one doesn't; a connective stays.
fn opposite(operator: Operator) -> Operator
    ensures { result ≡ opposite_of operator }
{
    match operator {
        Operator::Eq => Operator::NotEq,
        Operator::NotEq => Operator::Eq,
        Operator::Gt => Operator::Lte,
        Operator::Gte => Operator::Lt,
        Operator::Lt => Operator::Gte,
        Operator::Lte => Operator::Gt,
        Operator::And | Operator::Or => operator,
    }
}

// A proof, and that no value of an operand is null; a literal isn't asked.
fn without_nulls(
    alloc: Global,
    x: &BoundExpression,
    proof: Predicate,
) -> Result<Predicate, StatsError>
    ensures { Makes (without_nulls_of x.now proof) result }
{
    match x.literal() {
        Some(_) => Ok(proof),
        None => {
            let every_value = Predicate::stat(alloc, AggregateFnRef::AllNonNull, x)?;
            Predicate::connect(alloc, Operator::And, proof, every_value)
        }
    }
}

// The built-in proof that every row satisfies a comparison, and none for a connective: no two
// values compare the opposite way, and none is null.
fn comparison_satisfier(
    alloc: Global,
    operator: Operator,
    left: &BoundExpression,
    right: &BoundExpression,
) -> Result<Option<Predicate>, StatsError>
    requires { IsOk (type_of (tree.binary operator left.now right.now)) }
    ensures { Makes (comparison_satisfier operator left.now right.now) result }
{
    match comparison_falsifier(alloc, opposite(operator), left, right)? {
        None => Ok(None),
        Some(values_compare) => {
            let proof = without_nulls(alloc, left, values_compare)?;
            Ok(Some(without_nulls(alloc, right, proof)?))
        }
    }
}

// The built-in proof of a comparison, and none for a connective.
pub(crate) fn comparison_proof(
    alloc: Global,
    side: Side,
    operator: Operator,
    left: &BoundExpression,
    right: &BoundExpression,
) -> Result<Option<Predicate>, StatsError>
    requires { IsOk (type_of (tree.binary operator left.now right.now)) }
    ensures { Makes (comparison_proof_of side operator left.now right.now) result }
{
    match side {
        Side::Falsify => comparison_falsifier(alloc, operator, left, right),
        Side::Satisfy => comparison_satisfier(alloc, operator, left, right),
    }
}
