//! The built-in proofs of one node.
ghost use Rattle.std.specs.Prelude.{◌≡◌};
ghost use Rattle.vortex_rewrite.specs.Rewriting.BuiltIn.{listed};
ghost use Rattle.vortex_rewrite.specs.Rewriting.Falsifiers.{and_proof as and_proof_of, empty_proof as empty_proof_of, every_null, literal_falsifier, literal_satisfier, none_null, or_proof as or_proof_of, table_falsifiers as falsifiers_of, table_proofs as table_proofs_of, table_satisfiers as satisfiers_of};
ghost use Rattle.vortex_rewrite.specs.Answers.{Makes, OkOrMemory};

pub(crate) mod between;
pub(crate) mod comparison;
mod like;

use crate::predicate::Predicate;
use crate::rewrite::builtins::comparison::{both_joined, either_joined};
use crate::rewrite::builtins::like::like_proof;
use crate::rewrite::nodes::{count_literal, null_count, row_count};
use crate::rewrite::side::Side;
use std::alloc::Global;
use vortex_base::aggregate::AggregateFnRef;
use vortex_base::scalar::Scalar;
use vortex_base::scalar_value::ScalarValue;
use vortex_expr::bound_expression::BoundExpression;
use vortex_expr::bound_expression::parts::Parts;
use vortex_expr::scalar_fn::Operator;
use vortex_stats::error::StatsError;

// The built-in proofs of one node, which are two at the most.
pub(crate) type BuiltIn = (Option<Predicate>, Option<Predicate>);

// A proof of AND by the proofs of its sides: it is falsified by either, and satisfied by both.
pub(crate) fn and_proof(
    alloc: Global,
    side: Side,
    left: Option<Predicate>,
    right: Option<Predicate>,
) -> Result<Option<Predicate>, StatsError>
    ensures { Makes (and_proof_of side left right) result }
{
    match side {
        Side::Falsify => either_joined(alloc, Operator::Or, left, right),
        Side::Satisfy => both_joined(alloc, Operator::And, left, right),
    }
}

// A proof of OR by the proofs of its sides: it is falsified by both, and satisfied by either.
pub(crate) fn or_proof(
    alloc: Global,
    side: Side,
    left: Option<Predicate>,
    right: Option<Predicate>,
) -> Result<Option<Predicate>, StatsError>
    ensures { Makes (or_proof_of side left right) result }
{
    match side {
        Side::Falsify => both_joined(alloc, Operator::And, left, right),
        Side::Satisfy => either_joined(alloc, Operator::Or, left, right),
    }
}

// The proof of a BETWEEN whose ends leave no value between: no row satisfies it.
pub(crate) fn empty_proof(alloc: Global, side: Side) -> Result<Option<Predicate>, StatsError>
    ensures { Makes (empty_proof_of side) result }
{
    match side {
        Side::Falsify => Ok(Some(Predicate::truth(alloc, true)?)),
        Side::Satisfy => Ok(None),
    }
}

// Proves that no row satisfies a literal.
fn literal_falsifier(alloc: Global, value: &Scalar) -> Result<Option<Predicate>, StatsError>
    ensures { Makes (literal_falsifier value.now.value) result }
{
    match value.value() {
        Some(ScalarValue::Bool(truth)) => Ok(Some(Predicate::truth(alloc, !*truth)?)),
        _ => Ok(None),
    }
}

// Proves that every row satisfies a literal.
fn literal_satisfier(alloc: Global, value: &Scalar) -> Result<Option<Predicate>, StatsError>
    ensures { Makes (literal_satisfier value.now.value) result }
{
    match value.value() {
        Some(ScalarValue::Bool(truth)) => Ok(Some(Predicate::truth(alloc, *truth)?)),
        _ => Ok(None),
    }
}

// Proves that no value of an operand is null, in two ways.
fn none_null(alloc: Global, x: &BoundExpression) -> Result<BuiltIn, StatsError>
    ensures { OkOrMemory result (λ b. listed b.0 b.1 ≡ none_null x.now) }
{
    // That the operand has a type.
    let _typed = x.dtype();
    let count = null_count(alloc, x)?;
    let zero = count_literal(alloc, 0)?;
    let by_count = Predicate::binary(alloc, Operator::Eq, count, zero)?;
    let by_test = Predicate::stat(alloc, AggregateFnRef::AllNonNull, x)?;
    Ok((Some(by_count), Some(by_test)))
}

// Proves that every value of an operand is null, in two ways.
fn every_null(alloc: Global, x: &BoundExpression) -> Result<BuiltIn, StatsError>
    ensures { OkOrMemory result (λ b. listed b.0 b.1 ≡ every_null x.now) }
{
    // That the operand has a type.
    let _typed = x.dtype();
    let count = null_count(alloc, x)?;
    let rows = row_count(alloc)?;
    let by_count = Predicate::binary(alloc, Operator::Eq, count, rows)?;
    let by_test = Predicate::stat(alloc, AggregateFnRef::AllNull, x)?;
    Ok((Some(by_count), Some(by_test)))
}

// The built-in proofs that no row satisfies an expression that has neither two operands to compare
// or connect nor ends.
fn table_falsifiers(alloc: Global, e: &BoundExpression) -> Result<BuiltIn, StatsError>
    ensures { OkOrMemory result (λ b. listed b.0 b.1 ≡ falsifiers_of e.now) }
{
    // That the expression has a type.
    let _typed = e.dtype();
    match e.parts() {
        Parts::Literal(value) => Ok((literal_falsifier(alloc, value)?, None)),
        Parts::IsNull(x) => none_null(alloc, x),
        Parts::IsNotNull(x) => every_null(alloc, x),
        Parts::Like(options, text, pattern) => {
            Ok((like_proof(alloc, options, text, pattern)?, None))
        }
        Parts::Column(_, _)
        | Parts::Binary(_, _, _)
        | Parts::Between(_, _, _, _)
        | Parts::Not(_)
        | Parts::Stat(_, _)
        | Parts::RowCount => Ok((None, None)),
    }
}

// The built-in proofs that every row satisfies such an expression.
fn table_satisfiers(alloc: Global, e: &BoundExpression) -> Result<BuiltIn, StatsError>
    ensures { OkOrMemory result (λ b. listed b.0 b.1 ≡ satisfiers_of e.now) }
{
    match e.parts() {
        Parts::Literal(value) => Ok((literal_satisfier(alloc, value)?, None)),
        Parts::IsNull(x) => every_null(alloc, x),
        Parts::IsNotNull(x) => none_null(alloc, x),
        Parts::Column(_, _)
        | Parts::Binary(_, _, _)
        | Parts::Between(_, _, _, _)
        | Parts::Not(_)
        | Parts::Like(_, _, _)
        | Parts::Stat(_, _)
        | Parts::RowCount => Ok((None, None)),
    }
}

// The built-in proofs of an expression that has neither two operands to compare or connect nor
// ends.
pub(crate) fn table_proofs(
    alloc: Global,
    side: Side,
    e: &BoundExpression,
) -> Result<BuiltIn, StatsError>
    ensures { OkOrMemory result (λ b. listed b.0 b.1 ≡ table_proofs_of side e.now) }
{
    match side {
        Side::Falsify => table_falsifiers(alloc, e),
        Side::Satisfy => table_satisfiers(alloc, e),
    }
}
