//! Parts of proofs for rules of a user: a literal truth, and two proofs joined by OR or AND.
//!
//! Memory alone is refused, and is told as a rule tells it.
ghost use Rattle.std.specs.Prelude.{◌≡◌, false, IfSome, IsTrue, MatchResult};
ghost use Rattle.vortex_expr.specs.Trees.Tree as tree;
ghost use Rattle.vortex_rewrite.specs.HookFaults.{IsHookFault};
ghost use Rattle.vortex_rewrite.specs.Rewriting.Falsifiers.{bool_literal, both_of, either_of};
ghost use Rattle.vortex_rewrite.specs.Rewriting.Predicates.{is_predicate};

use crate::hook_fault::HookFault;
use std::alloc::Global;
use vortex_base::dtype::DType;
use vortex_base::scalar::Scalar;
use vortex_base::scalar_value::ScalarValue;
use vortex_base::types::Nullability;
use vortex_expr::bound;
use vortex_expr::bound_expression::BoundExpression;
use vortex_expr::scalar_fn::Operator;

/// A literal truth.
pub fn truth(alloc: Global, truth: bool) -> Result<BoundExpression, HookFault>
    ensures { MatchResult result (λ e. e ≡ bool_literal truth) (IsHookFault (λ k. false)) }
{
    let dtype = DType::Bool(Nullability::NonNullable);
    let value = Scalar::try_new(dtype, Some(ScalarValue::from(truth)))?;
    Ok(bound::lit(alloc, value)?)
}

/// Two proofs joined by OR, and the one that is there where only one is.
pub fn either(
    alloc: Global,
    left: Option<BoundExpression>,
    right: Option<BoundExpression>,
) -> Result<Option<BoundExpression>, HookFault>
    requires left { IfSome left (λ e. IsTrue (is_predicate e)) }
    requires right { IfSome right (λ e. IsTrue (is_predicate e)) }
    ensures { MatchResult result (λ o. o ≡ either_of (tree.binary Operator.Or) left right)
        (IsHookFault (λ k. false)) }
{
    match (left, right) {
        (Some(left), Some(right)) => Ok(Some(bound::or(alloc, left, right)?)),
        (Some(left), None) => Ok(Some(left)),
        (None, right) => Ok(right),
    }
}

/// Two proofs joined by AND, where both are there.
pub fn both(
    alloc: Global,
    left: Option<BoundExpression>,
    right: Option<BoundExpression>,
) -> Result<Option<BoundExpression>, HookFault>
    requires left { IfSome left (λ e. IsTrue (is_predicate e)) }
    requires right { IfSome right (λ e. IsTrue (is_predicate e)) }
    ensures { MatchResult result (λ o. o ≡ both_of (tree.binary Operator.And) left right)
        (IsHookFault (λ k. false)) }
{
    match (left, right) {
        (Some(left), Some(right)) => Ok(Some(bound::and(alloc, left, right)?)),
        _ => Ok(None),
    }
}
