//! Tests of a predicate's truth, pushed down to what it is about.
ghost use Rattle.std.specs.Prelude.{◌≡◌, IfSome, IsOk, IsTrue, Some, false, true};
ghost use Rattle.vortex_expr.specs.Meanings.Typing.{type_of};
ghost use Rattle.vortex_expr.specs.Meanings.RowTest.{is_wanted as wanted_of};
ghost use Rattle.vortex_expr.specs.Trees.Tree as tree;
ghost use Rattle.vortex_rewrite.specs.Answers.{Makes};
ghost use Rattle.vortex_rewrite.specs.Rewriting.Predicates.{is_predicate};
ghost use Rattle.vortex_normal.specs.Pushed as normal;
ghost use Rattle.vortex_normal.specs.Tested as tests;

use crate::interval::swapped;
use std::alloc::Global;
use vortex_base::scalar_value::ScalarValue;
use vortex_expr::bound_expression::BoundExpression;
use vortex_expr::bound_expression::parts::Parts;
use vortex_expr::scalar_fn::{BetweenOptions, Operator};
use vortex_rewrite::built::cloned;
use vortex_rewrite::predicate::{Predicate, is_truth};
use vortex_stats::error::StatsError;

fn is_compound(e: &BoundExpression) -> bool
    ensures { result ≡ tests.is_compound e.now }
{
    !matches!(
        e.parts(),
        Parts::Column(_, _) | Parts::Literal(_) | Parts::Stat(_, _) | Parts::RowCount
    )
}

fn is_inner(e: &BoundExpression) -> bool
    ensures { result ≡ tests.is_inner e.now }
{
    is_compound(e) && is_truth(e)
}

// A predicate as it is, or its opposite.
fn or_not(alloc: Global, wanted: bool, e: &BoundExpression) -> Result<Predicate, StatsError>
    requires { IsTrue (is_predicate e.now) }
    ensures { Makes (normal.or_not wanted e.now) result }
{
    if wanted {
        Predicate::copied(e)
    } else {
        Predicate::not(alloc, e)
    }
}

// A predicate without operands.
fn whole_tested(
    alloc: Global,
    wanted: bool,
    with_null: bool,
    e: &BoundExpression,
) -> Result<Predicate, StatsError>
    requires { IsTrue (is_predicate e.now) }
    ensures { Makes (tests.whole_tested wanted with_null e.now) result }
{
    let test = or_not(alloc, wanted, e)?;
    if with_null {
        let null = Predicate::is_null(alloc, e)?;
        Predicate::connect(alloc, Operator::Or, null, test)
    } else {
        Ok(test)
    }
}

// A predicate of two operands, which is null exactly where one of them is.
fn operands_tested(
    alloc: Global,
    wanted: bool,
    with_null: bool,
    left: &BoundExpression,
    right: &BoundExpression,
    e: &BoundExpression,
) -> Result<Predicate, StatsError>
    requires { IsTrue (is_predicate e.now) }
    ensures { Makes (tests.operands_tested wanted with_null left.now right.now e.now) result }
{
    let test = or_not(alloc, wanted, e)?;
    if with_null {
        let left = Predicate::is_null(alloc, left)?;
        let right = Predicate::is_null(alloc, right)?;
        let null = Predicate::connect(alloc, Operator::Or, left, right)?;
        Predicate::connect(alloc, Operator::Or, null, test)
    } else {
        Ok(test)
    }
}

// Both predicates, or either.
fn joined(
    alloc: Global,
    both: bool,
    left: Predicate,
    right: Predicate,
) -> Result<Predicate, StatsError>
    ensures { Makes (tests.joined both left right) result }
{
    let connective = if both { Operator::And } else { Operator::Or };
    Predicate::connect(alloc, connective, left, right)
}

// One of the comparisons of a BETWEEN, which passes where it is null.
fn end_tested(
    alloc: Global,
    wanted: bool,
    operator: Operator,
    left: &BoundExpression,
    right: &BoundExpression,
) -> Result<Predicate, StatsError>
    requires { IsOk (type_of (tree.binary operator left.now right.now)) }
    ensures { let e = tree.binary operator left.now right.now in
        Makes (tests.operands_tested wanted true left.now right.now e) result }
{
    let compared = Predicate::binary(alloc, operator, cloned(left)?, cloned(right)?)?;
    operands_tested(alloc, wanted, true, left, right, compared.expression())
}

// A BETWEEN that passes where it is null, by its two comparisons.
fn between_tested(
    alloc: Global,
    wanted: bool,
    options: BetweenOptions,
    x: &BoundExpression,
    lower: &BoundExpression,
    upper: &BoundExpression,
) -> Result<Predicate, StatsError>
    requires { IsOk (type_of (tree.between options x.now lower.now upper.now)) }
    ensures { Makes (tests.between_tested wanted true options x.now lower.now upper.now) result }
{
    let above = options.lower_strict.to_operator();
    let below = options.upper_strict.to_operator();
    let above = end_tested(alloc, wanted, above, lower, x)?;
    let below = end_tested(alloc, wanted, below, x, upper)?;
    joined(alloc, wanted, above, below)
}

// The one truth that compares so with a truth, where the other one doesn't.
fn truth_wanted(operator: Operator, truth: bool) -> Option<bool>
    ensures { result ≡ tests.truth_wanted operator truth }
{
    match operator {
        Operator::Eq => Some(truth),
        Operator::NotEq => Some(!truth),
        Operator::Gt if !truth => Some(true),
        Operator::Gte if truth => Some(true),
        Operator::Lt if truth => Some(false),
        Operator::Lte if !truth => Some(false),
        _ => None,
    }
}

// The truth that a literal is.
fn truth_in(e: &BoundExpression) -> Option<bool>
    ensures { result ≡ tests.truth_in e.now }
{
    match e.parts() {
        Parts::Literal(value) => match value.value() {
            Some(ScalarValue::Bool(truth)) => Some(*truth),
            _ => None,
        },
        _ => None,
    }
}

// The truth of an operand that makes its comparison with another one true, where the other is a
// literal truth.
fn wanted_beside(operator: Operator, x: &BoundExpression, other: &BoundExpression) -> Option<bool>
    ensures wanted { result ≡ tests.wanted_beside operator x.now other.now }
    ensures predicate { IfSome result (λ _. IsTrue (is_predicate x.now)) }
{
    if !is_inner(x) {
        return None;
    }
    match truth_in(other) {
        Some(truth) => truth_wanted(operator, truth),
        None => None,
    }
}

fn is_wanted(wanted: bool, truth: bool) -> bool
    ensures { result ≡ wanted_of wanted (Some truth) }
{
    truth == wanted
}

// Whether an operand is null, or whether it has a value.
fn value_test(alloc: Global, null: bool, x: &BoundExpression) -> Result<Predicate, StatsError>
    ensures { Makes (tests.value_test null x.now) result }
{
    if null {
        Predicate::is_null(alloc, x)
    } else {
        Predicate::is_not_null(alloc, x)
    }
}

// Whether an operand is null, or whether it has a value: of a predicate by its truth, at most for
// that many null tests within one another.
#[cycle(tested)]
fn null_tested(
    alloc: Global,
    levels: u8,
    null: bool,
    x: &BoundExpression,
) -> Result<Predicate, StatsError>
    ensures { Makes (tests.null_test_of levels null x.now) result }
{
    if levels > 0 && is_inner(x) {
        let other = tested(alloc, levels - 1, false, null, x)?;
        let same = tested(alloc, levels - 1, true, null, x)?;
        joined(alloc, null, other, same)
    } else {
        value_test(alloc, null, x)
    }
}

/// A predicate that is satisfied where the truth of the given one is the wanted one, or null if that
/// counts. Truths that are compared with literals and null-tested are pushed down to their columns,
/// at most within as many null tests as there are levels.
#[cycle(tested)]
pub(crate) fn tested(
    alloc: Global,
    levels: u8,
    wanted: bool,
    with_null: bool,
    e: &BoundExpression,
) -> Result<Predicate, StatsError>
    requires { IsTrue (is_predicate e.now) }
    ensures { Makes (tests.tested levels wanted with_null e.now) result }
{
    match e.parts() {
        Parts::Binary(Operator::And, left, right) => {
            let left = tested(alloc, levels, wanted, with_null, left)?;
            let right = tested(alloc, levels, wanted, with_null, right)?;
            joined(alloc, wanted, left, right)
        }
        Parts::Binary(Operator::Or, left, right) => {
            let left = tested(alloc, levels, wanted, with_null, left)?;
            let right = tested(alloc, levels, wanted, with_null, right)?;
            joined(alloc, !wanted, left, right)
        }
        Parts::Binary(operator, left, right) => match wanted_beside(operator, left, right) {
            Some(truth) => tested(alloc, levels, is_wanted(wanted, truth), with_null, left),
            None => match wanted_beside(swapped(operator), right, left) {
                Some(truth) => { tested(alloc, levels, is_wanted(wanted, truth), with_null, right) }
                None => operands_tested(alloc, wanted, with_null, left, right, e),
            },
        },
        Parts::Between(options, x, lower, upper) if with_null => {
            between_tested(alloc, wanted, options, x, lower, upper)
        }
        Parts::Between(_, _, _, _) => or_not(alloc, wanted, e),
        Parts::IsNull(x) => null_tested(alloc, levels, wanted, x),
        Parts::IsNotNull(x) => null_tested(alloc, levels, !wanted, x),
        Parts::Not(x) => tested(alloc, levels, !wanted, with_null, x),
        Parts::Like(_, text, pattern) => {
            operands_tested(alloc, wanted, with_null, text, pattern, e)
        }
        _ => whole_tested(alloc, wanted, with_null, e),
    }
}
