//! Two proofs as one, which is true where either is, or where both are.
ghost use Rattle.std.specs.Prelude.{◌≡◌, IfErr, IfOk, IfSome, IsTrue};
ghost use Rattle.vortex_expr.specs.Trees.Tree as tree;
ghost use Rattle.vortex_expr.specs.declared.scalar_fn.Operator.TheVariants.{And, Or};
ghost use Rattle.vortex_rewrite.specs.Answers.{IsMemory};
ghost use Rattle.vortex_rewrite.specs.Rewriting.Falsifiers.{both_of};
ghost use Rattle.vortex_rewrite.specs.Rewriting.Predicates.{is_predicate};
ghost use Rattle.vortex_predicates.specs.Joint.{covers as is_covered, joint as joint_of};

use std::alloc::Global;
use vortex_expr::bound;
use vortex_expr::bound_expression::BoundExpression;
use vortex_expr::bound_expression::parts::Parts;
use vortex_expr::scalar_fn::Operator;
use vortex_rewrite::built::expect_memory_only;
use vortex_stats::error::StatsError;

// Whether the shapes of two proofs show that the first is true where the second is.
fn covers(proof: &BoundExpression, other: &BoundExpression) -> bool
    ensures { result ≡ is_covered proof.now other.now }
{
    match (proof.parts(), other.parts()) {
        (Parts::Binary(Operator::Or, a, b), Parts::Binary(Operator::Or, c, d)) => {
            *proof == *other || *a == *other || covers(a, c) && covers(b, d)
        }
        (Parts::Binary(Operator::Or, a, _), _) => *a == *other,
        (Parts::Binary(Operator::And, a, b), Parts::Binary(Operator::And, c, d)) => {
            *proof == *other || covers(a, c) && covers(b, d)
        }
        _ => *proof == *other,
    }
}

// A proof that is true where either of two is.
fn either(
    alloc: Global,
    first: BoundExpression,
    second: BoundExpression,
) -> Result<BoundExpression, StatsError>
    requires first { IsTrue (is_predicate first) }
    requires second { IsTrue (is_predicate second) }
    ensures value { IfOk result (λ e. e ≡ tree.binary Or first second) }
    ensures truth { IfOk result (λ e. IsTrue (is_predicate e)) }
    ensures memory { IfErr result IsMemory }
{
    expect_memory_only(bound::binary(alloc, Operator::Or, first, second))
}

/// A proof that is true where either of two is, if there is one: the second alone if its shape
/// shows that it is true where the first is.
pub(crate) fn joint(
    alloc: Global,
    first: Option<BoundExpression>,
    second: Option<BoundExpression>,
) -> Result<Option<BoundExpression>, StatsError>
    requires first { IfSome first (λ e. IsTrue (is_predicate e)) }
    requires second { IfSome second (λ e. IsTrue (is_predicate e)) }
    ensures value { IfOk result (λ proof. proof ≡ joint_of first second) }
    ensures truth { IfOk result (λ proof. IfSome proof (λ e. IsTrue (is_predicate e))) }
    ensures memory { IfErr result IsMemory }
{
    match (first, second) {
        (None, second) => Ok(second),
        (Some(first), None) => Ok(Some(first)),
        (Some(first), Some(second)) => {
            if covers(&second, &first) {
                Ok(Some(second))
            } else {
                Ok(Some(either(alloc, first, second)?))
            }
        }
    }
}

/// A proof that is true where both of two are, if there are both.
pub(crate) fn both(
    alloc: Global,
    first: Option<BoundExpression>,
    second: Option<BoundExpression>,
) -> Result<Option<BoundExpression>, StatsError>
    requires first { IfSome first (λ e. IsTrue (is_predicate e)) }
    requires second { IfSome second (λ e. IsTrue (is_predicate e)) }
    ensures value { IfOk result (λ proof. proof ≡ both_of (tree.binary And) first second) }
    ensures truth { IfOk result (λ proof. IfSome proof (λ e. IsTrue (is_predicate e))) }
    ensures memory { IfErr result IsMemory }
{
    match (first, second) {
        (Some(first), Some(second)) => {
            let both = expect_memory_only(bound::binary(alloc, Operator::And, first, second))?;
            Ok(Some(both))
        }
        _ => Ok(None),
    }
}
