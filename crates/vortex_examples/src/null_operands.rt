//! A rule for comparisons and patterns that an operand makes null in every row.
ghost use Rattle.std.specs.Prelude.{◌≡◌, false, IfOk, IfSome, IsTrue, MatchResult};
ghost use Rattle.vortex_examples.specs.NullOperands.{either_null as either_null_of};
ghost use Rattle.vortex_examples.specs.NullOperands.{null_operands as null_operands_of, null_proof as null_proof_of};
ghost use Rattle.vortex_rewrite.specs.HookFaults.{IsHookFault};
ghost use Rattle.vortex_rewrite.specs.Rewriting.Predicates.{is_connective, is_predicate};

use std::alloc::Global;
use vortex_expr::Parts;
use vortex_expr::bound_expression::BoundExpression;
use vortex_expr::scalar_fn::{Operator, ScalarFnId};
use vortex_rewrite::expr::bound::all_null;
use vortex_rewrite::expr::proofs::{either, truth};
use vortex_rewrite::{HookFault, StatsRewriteRule};

/// Falsifies a comparison, or a LIKE, by that an operand is null in every row: it is null there
/// then, and so not true. The halves of a BETWEEN are comparisons, so they are falsified too.
#[derive(Drop)]
pub struct NullOperands {
    /// Binary or Like: the nodes that the rule is asked for.
    pub function: ScalarFnId,
}

fn is_connective(operator: Operator) -> bool
    ensures { result ≡ is_connective operator }
{
    matches!(operator, Operator::And | Operator::Or)
}

// Proves an operand null in every row, which of a literal is known.
fn null_proof(alloc: Global, x: &BoundExpression) -> Result<Option<BoundExpression>, HookFault>
    ensures value { MatchResult result (λ o. o ≡ null_proof_of x.now) (IsHookFault (λ k. false)) }
    ensures truth { IfOk result (λ o. IfSome o (λ e. IsTrue (is_predicate e))) }
{
    match x.parts() {
        Parts::Literal(value) => match value.value() {
            None => Ok(Some(truth(alloc, true)?)),
            Some(_) => Ok(None),
        },
        _ => Ok(Some(all_null(alloc, x.try_clone()?)?)),
    }
}

// Proves one of two operands null in every row.
fn either_null(
    alloc: Global,
    x: &BoundExpression,
    y: &BoundExpression,
) -> Result<Option<BoundExpression>, HookFault>
    ensures { MatchResult result (λ o. o ≡ either_null_of x.now y.now)
        (IsHookFault (λ k. false)) }
{
    let left = null_proof(alloc, x)?;
    let right = null_proof(alloc, y)?;
    either(alloc, left, right)
}

// Proves an operand of the top node null in every row, where the node is a comparison or a LIKE.
fn null_operands(alloc: Global, e: &BoundExpression) -> Result<Option<BoundExpression>, HookFault>
    ensures { MatchResult result (λ o. o ≡ null_operands_of e.now) (IsHookFault (λ k. false)) }
{
    match e.parts() {
        Parts::Binary(operator, left, right) => {
            if is_connective(operator) {
                Ok(None)
            } else {
                either_null(alloc, left, right)
            }
        }
        Parts::Like(_, text, pattern) => either_null(alloc, text, pattern),
        _ => Ok(None),
    }
}

impl StatsRewriteRule for NullOperands {
    ghost use Rattle.std.specs.Prelude.{None, false};
    ghost use Rattle.vortex_examples.specs.NullOperands.{null_operands};
    ghost use Rattle.vortex_examples.specs.NullOperandsLaw.{null_operands_is_lawful};

    ghost id = { λ s. s.function };

    ghost falsifier = { λ s. null_operands };

    ghost satisfier = { λ s p. None };

    ghost can_fault = { λ s k. false };

    ghost is_lawful = { λ s. null_operands_is_lawful };

    fn scalar_fn_id(&self) -> ScalarFnId {
        self.function
    }

    fn falsify(
        &self,
        alloc: Global,
        expression: &BoundExpression,
    ) -> Result<Option<BoundExpression>, HookFault> {
        null_operands(alloc, expression)
    }

    fn satisfy(
        &self,
        _alloc: Global,
        _expression: &BoundExpression,
    ) -> Result<Option<BoundExpression>, HookFault> {
        Ok(None)
    }
}
