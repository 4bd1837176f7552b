//! NOT pushed down to the leaves.
ghost use Rattle.std.specs.Prelude.{◌≡◌, IsTrue};
ghost use Rattle.vortex_rewrite.specs.Answers.{Makes};
ghost use Rattle.vortex_rewrite.specs.Rewriting.Predicates.{is_predicate};
ghost use Rattle.vortex_expr.specs.Trees.Tree as tree;
ghost use Rattle.vortex_expr.specs.Meanings.Typing.{type_of};
ghost use Rattle.std.specs.Prelude.{IsOk};
ghost use Rattle.vortex_expr.specs.Meanings.Meaning.{truth as truth_of};
ghost use Rattle.vortex_expr.specs.Meanings.RowTest.{is_wanted as wanted_of};
ghost use Rattle.vortex_normal.specs.Pushed as normal;

use crate::leaves::{comparison, connected, null_test, operator_as};
use crate::likes::{like_as, liked};
use std::alloc::Global;
use vortex_base::scalar::Scalar;
use vortex_base::scalar_value::ScalarValue;
use vortex_expr::bound_expression::BoundExpression;
use vortex_expr::bound_expression::parts::Parts;
use vortex_expr::scalar_fn::{BetweenOptions, Connective, Operator};
use vortex_rewrite::built::cloned;
use vortex_rewrite::predicate::{Predicate, truth_literal};
use vortex_stats::error::StatsError;

// Whether a literal's truth is the wanted one.
fn is_wanted(wanted: bool, value: &Scalar) -> bool
    ensures { result ≡ wanted_of wanted (truth_of value.now.value) }
{
    match value.value() {
        Some(ScalarValue::Bool(truth)) => *truth == wanted,
        _ => false,
    }
}

// A BETWEEN as the AND of its comparisons, or the OR of them turned round.
fn pushed_between(
    alloc: Global,
    wanted: bool,
    options: BetweenOptions,
    x: &BoundExpression,
    lower: &BoundExpression,
    upper: &BoundExpression,
) -> Result<Predicate, StatsError>
    requires { IsOk (type_of (tree.between options x.now lower.now upper.now)) }
    ensures { Makes (normal.pushed_between wanted options x.now lower.now upper.now) result }
{
    let above = operator_as(wanted, options.lower_strict.to_operator());
    let below = operator_as(wanted, options.upper_strict.to_operator());
    let above = comparison(alloc, above, lower, x)?;
    let below = comparison(alloc, below, x, upper)?;
    connected(alloc, Connective::And.for_truth(wanted), above, below)
}

/// A predicate that is satisfied where the given one has the wanted truth.
pub(crate) fn pushed(
    alloc: Global,
    wanted: bool,
    e: &BoundExpression,
) -> Result<Predicate, StatsError>
    requires { IsTrue (is_predicate e.now) }
    ensures { Makes (normal.pushed wanted e.now) result }
{
    match e.parts() {
        Parts::Column(_, _) => {
            let truth = truth_literal(alloc, wanted)?;
            Predicate::binary(alloc, Operator::Eq, cloned(e)?, truth)
        }
        Parts::Literal(value) => Predicate::truth(alloc, is_wanted(wanted, value)),
        Parts::Binary(Operator::And, left, right) => {
            let left = pushed(alloc, wanted, left)?;
            let right = pushed(alloc, wanted, right)?;
            connected(alloc, Connective::And.for_truth(wanted), left, right)
        }
        Parts::Binary(Operator::Or, left, right) => {
            let left = pushed(alloc, wanted, left)?;
            let right = pushed(alloc, wanted, right)?;
            connected(alloc, Connective::Or.for_truth(wanted), left, right)
        }
        Parts::Binary(operator, left, right) => {
            comparison(alloc, operator_as(wanted, operator), left, right)
        }
        Parts::Between(options, x, lower, upper) => {
            pushed_between(alloc, wanted, options, x, lower, upper)
        }
        Parts::IsNull(x) => null_test(alloc, wanted, x),
        Parts::IsNotNull(x) => null_test(alloc, !wanted, x),
        Parts::Not(x) => pushed(alloc, !wanted, x),
        Parts::Like(options, text, pattern) => {
            liked(alloc, like_as(wanted, options), text, pattern)
        }
        _ => {
            if wanted {
                Predicate::copied(e)
            } else {
                Predicate::not(alloc, e)
            }
        }
    }
}
