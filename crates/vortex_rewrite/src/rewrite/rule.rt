//! The interface of a user's rules.
ghost use Rattle.std.specs.Prelude.{◌≡◌, ℕ, Bool, Option, MatchResult};
ghost use Rattle.vortex_expr.specs.declared.scalar_fn.ScalarFnId.{ScalarFnId};
ghost use Rattle.vortex_expr.specs.Trees.Tree.{Tree, Place};
ghost use Rattle.vortex_rewrite.specs.Rewriting.Lawful.{IsLawful};

use crate::hook_fault::HookFault;
use std::alloc::Global;
use vortex_expr::bound_expression::BoundExpression;
use vortex_expr::scalar_fn::ScalarFnId;

/// A rule of a user for the predicates whose top node applies one function. It is asked at each
/// such node, whatever its operands.
pub trait StatsRewriteRule: Drop {
    ghost use Rattle.vortex_rewrite.specs.HookFaults.{IsHookFault};

    // The function whose nodes it is asked for.
    ghost id: { Self → ScalarFnId };
    // By a predicate, the proof that no row satisfies it, if the rule has one.
    ghost falsifier: { Self → Tree Place → Option (Tree Place) };
    // By a predicate, the proof that every row satisfies it, if the rule has one.
    ghost satisfier: { Self → Tree Place → Option (Tree Place) };
    // The numbers of the faults of its own that it may answer.
    ghost can_fault: { Self → ℕ → Bool };
    // A proof that such proofs are right: where one is true under facts of a chunk, no row, or
    // every row, satisfies the predicate.
    ghost is_lawful: { (s : Self) → IsLawful (falsifier s) (satisfier s) };

    /// The function whose nodes the rule is asked for.
    fn scalar_fn_id(&self) -> ScalarFnId
        ensures { result ≡ id self.now };

    /// A proof that no row satisfies the expression, if the rule has one.
    fn falsify(
        &self,
        alloc: Global,
        expression: &BoundExpression,
    ) -> Result<Option<BoundExpression>, HookFault>
        ensures { MatchResult result (λ proof. proof ≡ falsifier self.now expression.now)
            (IsHookFault (can_fault self.now)) };

    /// A proof that every row satisfies the expression, if the rule has one.
    fn satisfy(
        &self,
        alloc: Global,
        expression: &BoundExpression,
    ) -> Result<Option<BoundExpression>, HookFault>
        ensures { MatchResult result (λ proof. proof ≡ satisfier self.now expression.now)
            (IsHookFault (can_fault self.now)) };
}

/// A rule as lists of rules hold it.
pub type StatsRewriteRuleRef = Box<dyn StatsRewriteRule>;
