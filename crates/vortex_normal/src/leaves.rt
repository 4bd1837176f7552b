//! Leaves and connectives of a normal form.
ghost use Rattle.std.specs.Prelude.{◌≡◌, [], IsOk, IsTrue, false};
ghost use Rattle.vortex_expr.specs.Trees.Tree as tree;
ghost use Rattle.vortex_expr.specs.Trees.Tree.{has_bare_column, is_plain};
ghost use Rattle.vortex_base.specs.Data.Scalars.{is_optional_value};
ghost use Rattle.vortex_expr.specs.Meanings.Meaning.{meaning};
ghost use Rattle.vortex_expr.specs.Meanings.Typing.{type_of};
ghost use Rattle.vortex_base.specs.declared.types.Nullability.TheVariants.{Nullable};
ghost use Rattle.vortex_expr.specs.Trees.Connectives.{is_and};
ghost use Rattle.vortex_rewrite.specs.Answers.{Makes};
ghost use Rattle.vortex_normal.specs.Pushed as normal;

use crate::ends::ended;
use std::alloc::Global;
use vortex_base::dtype::DType;
use vortex_base::row::Row;
use vortex_base::scalar::Scalar;
use vortex_base::scalar_value::ScalarValue;
use vortex_base::types::Nullability;
use vortex_expr::bound;
use vortex_expr::bound_expression::BoundExpression;
use vortex_expr::bound_expression::parts::Parts;
use vortex_expr::evaluate::evaluate;
use vortex_expr::scalar_fn::{Connective, Operator};
use vortex_rewrite::built::{cloned, expect_memory_only};
use vortex_rewrite::predicate::Predicate;
use vortex_stats::error::StatsError;

/// The comparison that is false of two values where the given one is true; of a connective the
/// other one.
pub(crate) fn opposite(operator: Operator) -> Operator
    ensures { result ≡ normal.opposite_of operator }
{
    match operator {
        Operator::Eq => Operator::NotEq,
        Operator::NotEq => Operator::Eq,
        Operator::Gt => Operator::Lte,
        Operator::Gte => Operator::Lt,
        Operator::Lt => Operator::Gte,
        Operator::Lte => Operator::Gt,
        Operator::And => Operator::Or,
        Operator::Or => Operator::And,
    }
}

pub(crate) fn operator_as(wanted: bool, operator: Operator) -> Operator
    ensures { result ≡ normal.operator_as wanted operator }
{
    if wanted { operator } else { opposite(operator) }
}

pub(crate) fn is_reflexive(operator: Operator) -> bool
    ensures { result ≡ normal.is_reflexive operator }
{
    matches!(operator, Operator::Eq | Operator::Gte | Operator::Lte)
}

pub(crate) fn is_null_literal(e: &BoundExpression) -> bool
    ensures { result ≡ normal.is_null_literal e.now }
{
    match e.parts() {
        Parts::Literal(value) => value.value().is_none(),
        _ => false,
    }
}

/// A predicate that means the same on every row becomes the truth of whether it is satisfied.
#[tactic(auto, unfolding(crate::specs::Pushed::settled))]
pub(crate) fn settled(alloc: Global, predicate: Predicate) -> Result<Predicate, StatsError>
    ensures { Makes (normal.settled predicate) result }
{
    let e = predicate.expression();
    if e.has_bare_column() || !e.is_plain() {
        return Ok(predicate);
    }
    let truth = e.is_satisfied(&Row::empty(), 0);
    Predicate::truth(alloc, truth)
}

fn is_literal(e: &BoundExpression) -> bool
    ensures { result ≡ normal.is_literal e.now }
{
    matches!(e.parts(), Parts::Literal(_))
}

// The literal of a truth or null.
fn nullable_truth(alloc: Global, value: Option<ScalarValue>) -> Result<BoundExpression, StatsError>
    requires { IsTrue (is_optional_value value (DType.Bool Nullable)) }
    ensures { Makes (tree.literal (record { dtype = DType.Bool Nullable; value = value })) result }
{
    match Scalar::try_new(DType::Bool(Nullability::Nullable), value) {
        Ok(scalar) => expect_memory_only(bound::lit(alloc, scalar)),
        Err(_) => unreachable!(),
    }
}

// The literal of what an expression without columns and placeholders means, which is a truth or
// null.
fn truth_of(alloc: Global, e: &BoundExpression) -> Result<BoundExpression, StatsError>
    requires constant { has_bare_column e.now ≡ false }
    requires plain { IsTrue (is_plain e.now) }
    requires node { normal.is_literal e.now ≡ false }
    ensures { let value = meaning e.now [] 0 in
        Makes (tree.literal (record { dtype = DType.Bool Nullable; value = value })) result }
{
    let _typed = e.dtype();
    let value = expect_memory_only(evaluate(e, &Row::empty(), 0))?;
    nullable_truth(alloc, value)
}

// An operand, as the literal of its value if it has no column and no placeholder.
#[tactic(auto, unfolding(crate::specs::Pushed::folded))]
fn folded(alloc: Global, e: &BoundExpression) -> Result<BoundExpression, StatsError>
    ensures { Makes (normal.folded e.now) result }
{
    if is_literal(e) || e.has_bare_column() || !e.is_plain() {
        cloned(e)
    } else {
        truth_of(alloc, e)
    }
}

// A comparison. Of null it is never true; of an operand and itself it is a test of null or false;
// and at an end of its column's type it may be one too.
#[tactic(auto, unfolding(crate::specs::Pushed::comparison_of))]
fn comparison_of(
    alloc: Global,
    operator: Operator,
    left: BoundExpression,
    right: BoundExpression,
) -> Result<Predicate, StatsError>
    requires { IsOk (type_of (tree.binary operator left right)) }
    ensures { Makes (normal.comparison_of operator left right) result }
{
    if is_null_literal(&left) || is_null_literal(&right) {
        return Predicate::truth(alloc, false);
    }
    if left == right {
        if is_reflexive(operator) {
            settled(alloc, Predicate::is_not_null(alloc, &left)?)
        } else {
            Predicate::truth(alloc, false)
        }
    } else {
        let compared = ended(alloc, operator, left, right)?;
        settled(alloc, compared)
    }
}

/// A comparison of two operands, folded.
#[tactic(auto, unfolding(crate::specs::Pushed::comparison))]
pub(crate) fn comparison(
    alloc: Global,
    operator: Operator,
    left: &BoundExpression,
    right: &BoundExpression,
) -> Result<Predicate, StatsError>
    requires { IsOk (type_of (tree.binary operator left.now right.now)) }
    ensures { Makes (normal.comparison operator left.now right.now) result }
{
    let left = folded(alloc, left)?;
    let right = folded(alloc, right)?;
    comparison_of(alloc, operator, left, right)
}

/// Whether an operand is null, or whether it isn't.
pub(crate) fn null_test(
    alloc: Global,
    wanted: bool,
    x: &BoundExpression,
) -> Result<Predicate, StatsError>
    ensures { Makes (normal.null_test wanted x.now) result }
{
    if wanted {
        settled(alloc, Predicate::is_null(alloc, x)?)
    } else {
        settled(alloc, Predicate::is_not_null(alloc, x)?)
    }
}

fn decided(e: &BoundExpression) -> Option<bool>
    ensures { result ≡ normal.decided e.now }
{
    match e.parts() {
        Parts::Literal(value) => match value.value() {
            Some(ScalarValue::Bool(truth)) => Some(*truth),
            _ => Some(false),
        },
        _ => None,
    }
}

/// The AND of two predicates, or the OR, without those that are literals.
#[tactic(auto, unfolding(crate::specs::Pushed::all_of, crate::specs::Pushed::any_of))]
pub(crate) fn connected(
    alloc: Global,
    connective: Connective,
    left: Predicate,
    right: Predicate,
) -> Result<Predicate, StatsError>
    ensures { Makes (normal.connected (is_and connective) left right) result }
{
    if let Some(truth) = decided(left.expression()) {
        return Ok(if truth == connective.unit() {
            right
        } else {
            left
        });
    }
    if let Some(truth) = decided(right.expression()) {
        return Ok(if truth == connective.unit() {
            left
        } else {
            right
        });
    }
    Predicate::connect(alloc, connective.operator(), left, right)
}
