//! Predicates that say of their columns that they have values.
ghost use Rattle.std.specs.Prelude.{◌≡◌, IsTrue, option_copied};
ghost use Rattle.vortex_rewrite.specs.Answers.{Makes, OkOrMemory};
ghost use Rattle.vortex_rewrite.specs.Rewriting.Predicates.{is_connective, is_predicate};
ghost use Rattle.vortex_normal.specs.LeafColumns as leaf;
ghost use Rattle.vortex_normal.specs.Strict as forms;

use std::alloc::Global;
use vortex_expr::bound_expression::BoundExpression;
use vortex_expr::bound_expression::parts::Parts;
use vortex_expr::scalar_fn::Operator;
use vortex_rewrite::predicate::Predicate;
use vortex_stats::error::StatsError;

/// Returns the column that is compared with a literal, if it is one.
pub(crate) fn column_beside<'a>(
    x: &'a BoundExpression,
    y: &'a BoundExpression,
) -> Option<&'a BoundExpression>
    ensures { option_copied result ≡ leaf.column_beside x.now y.now }
{
    match (x.parts(), y.parts()) {
        (Parts::Column(_, _), Parts::Literal(_)) => Some(x),
        (Parts::Literal(_), Parts::Column(_, _)) => Some(y),
        _ => None,
    }
}

/// Returns the column of a range between literals, if it is one.
pub(crate) fn range_column<'a>(
    x: &'a BoundExpression,
    lower: &BoundExpression,
    upper: &BoundExpression,
) -> Option<&'a BoundExpression>
    ensures { option_copied result ≡ leaf.range_column x.now lower.now upper.now }
{
    match (x.parts(), lower.parts(), upper.parts()) {
        (Parts::Column(_, _), Parts::Literal(_), Parts::Literal(_)) => Some(x),
        _ => None,
    }
}

// The column that two sides rest on, if it is one.
fn agreed<'a>(
    left: Option<&'a BoundExpression>,
    right: Option<&BoundExpression>,
) -> Option<&'a BoundExpression>
    ensures { let right = option_copied right.entry in
        option_copied result ≡ forms.agreed (option_copied left.entry) right }
{
    let left = left?;
    let right = right?;
    if *left == *right { Some(left) } else { None }
}

// A predicate, and that a column has a value.
fn valued(
    alloc: Global,
    column: Option<&BoundExpression>,
    e: Predicate,
) -> Result<Predicate, StatsError>
    ensures { Makes (forms.valued (option_copied column.entry) e) result }
{
    match column {
        Some(column) => {
            let value = Predicate::is_not_null(alloc, column)?;
            Predicate::connect(alloc, Operator::And, e, value)
        }
        None => Ok(e),
    }
}

// A comparison, and that its operands have values if both are columns.
fn both_valued(
    alloc: Global,
    left: &BoundExpression,
    right: &BoundExpression,
    e: &BoundExpression,
) -> Result<Predicate, StatsError>
    requires { IsTrue (is_predicate e.now) }
    ensures { Makes (forms.both_valued left.now right.now e.now) result }
{
    let compared = Predicate::copied(e)?;
    match (left.parts(), right.parts()) {
        (Parts::Column(_, _), Parts::Column(_, _)) => {
            let compared = valued(alloc, Some(left), compared)?;
            valued(alloc, Some(right), compared)
        }
        _ => Ok(compared),
    }
}

// Two sides joined by AND or OR, each with the test of its column unless both rest on one.
fn sides_valued<'a>(
    alloc: Global,
    connective: Operator,
    left: (Predicate, Option<&'a BoundExpression>),
    right: (Predicate, Option<&'a BoundExpression>),
) -> Result<(Predicate, Option<&'a BoundExpression>), StatsError>
    requires { IsTrue (is_connective connective) }
    ensures { let a = option_copied left.entry.1 in let b = option_copied right.entry.1 in
        let both = forms.agreed a b in
        let e = forms.sides_valued connective both a b left.entry.0 right.entry.0 in
        OkOrMemory result (λ p. (p.0 ≡ e) × (option_copied p.1 ≡ forms.agreed a b)) }
{
    let (left, of_left) = left;
    let (right, of_right) = right;
    match agreed(of_left, of_right) {
        Some(column) => {
            let both = Predicate::connect(alloc, connective, left, right)?;
            Ok((both, Some(column)))
        }
        None => {
            let left = valued(alloc, of_left, left)?;
            let right = valued(alloc, of_right, right)?;
            Ok((Predicate::connect(alloc, connective, left, right)?, None))
        }
    }
}

// A predicate with the tests that stand below its top, and the column that it rests on.
fn body<'a>(
    alloc: Global,
    e: &'a BoundExpression,
) -> Result<(Predicate, Option<&'a BoundExpression>), StatsError>
    requires { IsTrue (is_predicate e.now) }
    ensures { OkOrMemory result (λ p. (p.0 ≡ forms.body e.now)
        × (option_copied p.1 ≡ forms.rests_on e.now)) }
{
    match e.parts() {
        Parts::Binary(Operator::And, left, right) => {
            let left = body(alloc, left)?;
            let right = body(alloc, right)?;
            sides_valued(alloc, Operator::And, left, right)
        }
        Parts::Binary(Operator::Or, left, right) => {
            let left = body(alloc, left)?;
            let right = body(alloc, right)?;
            sides_valued(alloc, Operator::Or, left, right)
        }
        Parts::Binary(_, left, right) => {
            let compared = both_valued(alloc, left, right, e)?;
            Ok((compared, column_beside(left, right)))
        }
        Parts::Between(_, x, lower, upper) => {
            Ok((Predicate::copied(e)?, range_column(x, lower, upper)))
        }
        Parts::Like(_, text, pattern) => {
            Ok((Predicate::copied(e)?, column_beside(text, pattern)))
        }
        _ => Ok((Predicate::copied(e)?, None)),
    }
}

/// A predicate that is satisfied by the same rows, with a test that each column of its comparisons,
/// ranges and LIKEs has a value: so that a column of nulls alone falsifies it.
pub(crate) fn with_values(alloc: Global, e: &BoundExpression) -> Result<Predicate, StatsError>
    requires { IsTrue (is_predicate e.now) }
    ensures { Makes (forms.strict e.now) result }
{
    let (below, column) = body(alloc, e)?;
    valued(alloc, column, below)
}
