//! Meanings of a test.
ghost use Rattle.std.specs.Prelude.{◌≡◌, [], MatchResult, option_map};
ghost use Rattle.vortex_sql.specs.declared.fault.Fault.TheVariants.{Memory, Misfit};
ghost use Rattle.vortex_sql.specs.Readings as spec;

use crate::column::column;
use crate::compare::{compare, from_place, with_literal};
use crate::fault::Fault;
use crate::found::Found;
use crate::halves::joined;
use crate::joined::joined_by;
use crate::literal::{constant, distinct_literals, has_value, said};
use crate::schema::Schema;
use crate::syntax::tree::{Escape, Operand, Test};
use crate::typing::{typed_by, typed_or};
use std::alloc::Global;
use vortex_base::dtype::DType;
use vortex_base::scalar_value::ScalarValue;
use vortex_base::text::Text;
use vortex_base::types::Nullability;
use vortex_expr::bound;
use vortex_expr::bound_expression::BoundExpression;
use vortex_expr::scalar_fn::Operator;
use vortex_logical::comparison::Comparison;

fn as_truth(alloc: Global, found: Option<Found>) -> Result<Option<BoundExpression>, Fault>
    ensures { spec.Reads (spec.as_truth (option_map spec.field_of_found found)) result }
{
    match found {
        None => Ok(None),
        Some(found) => match found.dtype {
            DType::Bool(_) => Ok(Some(column(alloc, found)?)),
            _ => Err(Fault::Misfit),
        },
    }
}

fn truth(
    alloc: Global,
    schema: &Schema,
    operand: &Operand,
) -> Result<Option<BoundExpression>, Fault>
    ensures { spec.Reads (spec.truth schema.now operand.now) result }
{
    match operand {
        Operand::Column(name) => as_truth(alloc, schema.find(name)),
        Operand::Null => said(alloc, None),
        Operand::Truth(truth) => said(alloc, Some(*truth)),
        Operand::Other => Ok(None),
        _ => Err(Fault::Misfit),
    }
}

fn as_null_test(alloc: Global, found: Option<Found>) -> Result<Option<BoundExpression>, Fault>
    ensures { spec.Reads (spec.as_null_test (option_map spec.field_of_found found)) result }
{
    match found {
        None => Ok(None),
        Some(found) => Ok(Some(bound::is_null(alloc, column(alloc, found)?)?)),
    }
}

fn null_test(
    alloc: Global,
    schema: &Schema,
    operand: &Operand,
) -> Result<Option<BoundExpression>, Fault>
    ensures { spec.Reads (spec.null_test schema.now operand.now) result }
{
    if let Operand::Column(name) = operand {
        return as_null_test(alloc, schema.find(name));
    }
    match has_value(operand) {
        None => Ok(None),
        Some(has_value) => said(alloc, Some(!has_value)),
    }
}

fn distinct_from(
    alloc: Global,
    found: Found,
    operand: &Operand,
) -> Result<Option<BoundExpression>, Fault>
    ensures { spec.Reads (spec.distinct_from (spec.field_of_found found) operand.now) result }
{
    match operand {
        Operand::Column(_) => Ok(None),
        Operand::Null => Ok(Some(bound::is_not_null(alloc, column(alloc, found)?)?)),
        _ => {
            let differs = with_literal(alloc, Comparison::NotEq, found, operand)?;
            let null = bound::is_null(alloc, column(alloc, found)?)?;
            joined_by(alloc, Operator::Or, differs, Some(null))
        }
    }
}

fn distinct_at(
    alloc: Global,
    found: Option<Found>,
    operand: &Operand,
) -> Result<Option<BoundExpression>, Fault>
    ensures { spec.Reads
        (spec.distinct_at (option_map spec.field_of_found found) operand.now) result }
{
    match found {
        Some(found) => distinct_from(alloc, found, operand),
        None => Ok(None),
    }
}

// Says whether two operands, of which neither types the other, are distinct.
fn distinct_typed(
    alloc: Global,
    schema: &Schema,
    left: &Operand,
    right: &Operand,
) -> Result<Option<BoundExpression>, Fault>
    ensures { spec.Reads (spec.distinct_typed schema.now left.now right.now) result }
{
    match (left, right) {
        (Operand::Column(name), _) => distinct_at(alloc, schema.find(name), right),
        (_, Operand::Column(name)) => distinct_at(alloc, schema.find(name), left),
        _ => distinct_literals(alloc, left, right),
    }
}

fn distinct(
    alloc: Global,
    schema: &Schema,
    left: &Operand,
    right: &Operand,
) -> Result<Option<BoundExpression>, Fault>
    ensures { spec.Reads (spec.distinct_test schema.now left.now right.now) result }
{
    let typed_left = typed_by(alloc, schema, right, left)?;
    let typed_right = typed_by(alloc, schema, left, right)?;
    let left = typed_or(&typed_left, left);
    let right = typed_or(&typed_right, right);
    distinct_typed(alloc, schema, left, right)
}

// Says that an operand is at least the lower end of a range, whose upper end is given as it types
// it. Both meanings of NaN say the same of a range that ends at a float.
fn at_least(
    alloc: Global,
    schema: &Schema,
    x: &Operand,
    lower: &Operand,
    upper: &Operand,
) -> Result<Option<BoundExpression>, Fault>
    ensures { spec.Reads (spec.at_least schema.now x.now lower.now upper.now) result }
{
    match (x, upper) {
        (Operand::Column(name), Operand::Float(_)) => {
            let typed = typed_by(alloc, schema, x, lower)?;
            let found = ordered(schema.find(name));
            from_place(
                alloc,
                schema,
                Comparison::Gte,
                found,
                typed_or(&typed, lower),
            )
        }
        _ => compare(alloc, schema, Comparison::Gte, x, lower),
    }
}

// Returns a column in whose comparisons NaN is above all other numbers, where nothing is said of
// NaN.
fn ordered(found: Option<Found>) -> Option<Found>
    ensures { option_map spec.field_of_found result
        ≡ option_map spec.ordered_field (option_map spec.field_of_found found) }
{
    match found {
        Some(found) => Some(Found {
            index: found.index,
            dtype: found.dtype,
            cells: found.cells.ordered(),
        }),
        None => None,
    }
}

fn between(
    alloc: Global,
    schema: &Schema,
    x: &Operand,
    lower: &Operand,
    upper: &Operand,
) -> Result<Option<BoundExpression>, Fault>
    ensures { spec.Reads (spec.between_test schema.now x.now lower.now upper.now) result }
{
    let typed = typed_by(alloc, schema, x, upper)?;
    let left = at_least(alloc, schema, x, lower, typed_or(&typed, upper))?;
    let right = compare(alloc, schema, Comparison::Lte, x, upper)?;
    joined_by(alloc, Operator::And, left, right)
}

fn between_symmetric(
    alloc: Global,
    schema: &Schema,
    x: &Operand,
    lower: &Operand,
    upper: &Operand,
) -> Result<Option<BoundExpression>, Fault>
    ensures { spec.Reads (spec.symmetric_test schema.now x.now lower.now upper.now) result }
{
    let left = between(alloc, schema, x, lower, upper)?;
    let right = between(alloc, schema, x, upper, lower)?;
    joined_by(alloc, Operator::Or, left, right)
}

// Returns the readings of a list's members, if all of them are read.
type Members = Option<Vec<BoundExpression>>;

fn with_member(before: Members, next: Option<BoundExpression>) -> Result<Members, Fault>
    ensures { MatchResult result
        (λ w. Ok (option_map (λ v. v.items) w)
        ≡ spec.with_member (Ok (option_map (λ v. v.items) before)) (Ok next))
        (λ f. f ≡ Memory) }
{
    match (before, next) {
        (Some(mut items), Some(next)) => {
            items.push(next)?;
            Ok(Some(items))
        }
        _ => Ok(None),
    }
}

fn members(alloc: Global, schema: &Schema, x: &Operand, among: &[Operand]) -> Result<Members, Fault>
    ensures { MatchResult result
        (λ w. Ok (option_map (λ v. v.items) w)
        ≡ spec.members_from schema.now x.now (Ok (Some [])) among.now)
        (λ f. f ≡ Misfit → Err f ≡ spec.members_from schema.now x.now (Ok (Some [])) among.now) }
{
    let mut members = Some(Vec::new(alloc));
    for y in among {
        match compare(alloc, schema, Comparison::Eq, x, y) {
            Ok(next) => members = with_member(members, next)?,
            Err(e) => return Err(e),
        }
    }
    Ok(members)
}

fn any_of(alloc: Global, members: Members) -> Result<Option<BoundExpression>, Fault>
    ensures { spec.Reads (spec.any_of (Ok (option_map (λ v. v.items) members))) result }
{
    match members {
        Some(items) => Ok(joined(alloc, items)?),
        None => Ok(None),
    }
}

fn member(
    alloc: Global,
    schema: &Schema,
    x: &Operand,
    among: &[Operand],
) -> Result<Option<BoundExpression>, Fault>
    ensures { spec.Reads (spec.member schema.now x.now among.now) result }
{
    any_of(alloc, members(alloc, schema, x, among)?)
}

fn like_place(
    alloc: Global,
    found: Option<Found>,
    pattern: &Text,
) -> Result<Option<BoundExpression>, Fault>
    ensures { spec.Reads
        (spec.like_place (option_map spec.field_of_found found) pattern.now) result }
{
    let Some(found) = found else {
        return Ok(None);
    };
    let DType::Utf8(_) = found.dtype else {
        return Err(Fault::Misfit);
    };
    let pattern = ScalarValue::Utf8(pattern.try_clone()?);
    let pattern = constant(alloc, DType::Utf8(Nullability::NonNullable), pattern)?;
    let text = column(alloc, found)?;
    Ok(Some(bound::like(alloc, text, pattern)?))
}

fn pattern_test(
    alloc: Global,
    schema: &Schema,
    text: &Operand,
    pattern: &Operand,
) -> Result<Option<BoundExpression>, Fault>
    ensures { spec.Reads (spec.pattern_test schema.now text.now pattern.now) result }
{
    match (text, pattern) {
        (Operand::Column(name), Operand::Text(pattern)) => {
            like_place(alloc, schema.find(name), pattern)
        }
        (_, Operand::Null) => said(alloc, None),
        _ => Ok(None),
    }
}

/// Returns what is said of a test: an expression, or nothing where the pruner has no words for it.
pub(crate) fn reading(
    alloc: Global,
    schema: &Schema,
    test: &Test,
) -> Result<Option<BoundExpression>, Fault>
    ensures { spec.Reads (spec.reading schema.now test.now) result }
{
    match test {
        Test::Truth(x) => truth(alloc, schema, x),
        Test::Compare(comparison, left, right) => compare(alloc, schema, *comparison, left, right),
        Test::Distinct(left, right) => distinct(alloc, schema, left, right),
        Test::IsNull(x) => null_test(alloc, schema, x),
        Test::Between(x, lower, upper) => between(alloc, schema, x, lower, upper),
        Test::BetweenSymmetric(x, lower, upper) => {
            between_symmetric(alloc, schema, x, lower, upper)
        }
        Test::In(x, among) => member(alloc, schema, x, among.as_slice()),
        Test::Like(text, pattern, Escape::Backslash) => pattern_test(alloc, schema, text, pattern),
        Test::Like(_, _, _) | Test::Other => Ok(None),
    }
}
