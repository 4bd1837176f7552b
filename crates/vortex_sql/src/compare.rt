//! Comparisons of two operands.
ghost use Rattle.std.specs.Prelude.{◌≡◌, option_map};
ghost use Rattle.vortex_sql.specs.Readings as spec;
ghost use Rattle.vortex_sql.specs.Typing as typing;

use crate::cells::Cells;
use crate::column::column;
use crate::comparison::{flipped, operator_of};
use crate::fault::Fault;
use crate::float::float_with;
use crate::found::Found;
use crate::literal::{constant, literals, said};
use crate::number::{range_of, sized, step_of};
use crate::schema::Schema;
use crate::syntax::tree::{ExactNumber, Operand};
use crate::typing::{KindFit, are_same_cells, kind_fit, kind_of, typed_by, typed_or};
use std::alloc::Global;
use vortex_base::dtype::DType;
use vortex_base::scalar_value::ScalarValue;
use vortex_base::types::PType;
use vortex_expr::bound;
use vortex_expr::bound_expression::BoundExpression;
use vortex_logical::comparison::Comparison;
use vortex_logical::exact::Exact;
use vortex_logical::lower::compare_steps;

/// Says a comparison of a column with an expression.
pub(crate) fn comparing(
    alloc: Global,
    comparison: Comparison,
    found: Found,
    with: BoundExpression,
) -> Result<Option<BoundExpression>, Fault>
    ensures { spec.Reads
        (spec.said (spec.comparing comparison (spec.place_of_found found) with)) result }
{
    let left = column(alloc, found)?;
    let whole = bound::binary(alloc, operator_of(comparison), left, with)?;
    Ok(Some(whole))
}

// Says a comparison with an exact number of what the column's cells count.
fn with_exact(
    alloc: Global,
    comparison: Comparison,
    found: Found,
    ptype: PType,
    literal: ExactNumber,
) -> Result<Option<BoundExpression>, Fault>
    ensures { spec.Reads (spec.exact_reading comparison (typing.logical_of found.cells)
        (spec.place_of_found found) ptype found.dtype literal) result }
{
    let Some(exact) = Exact::try_new(literal.top, literal.scale) else {
        return Ok(None);
    };
    let step = step_of(found.cells.logical());
    let test = compare_steps(step, range_of(ptype), comparison, exact);
    let value = ScalarValue::Primitive(sized(ptype, test.number));
    let literal = constant(alloc, found.dtype, value)?;
    comparing(alloc, test.comparison, found, literal)
}

// Says a comparison with a number of any kind, which misfits a column of another logical kind.
// Nothing is said where only a server's zone could tell, or where the column has no logical type.
fn with_kind(
    alloc: Global,
    comparison: Comparison,
    found: Found,
    ptype: PType,
    literal: ExactNumber,
) -> Result<Option<BoundExpression>, Fault>
    ensures { spec.Reads (spec.with_kind comparison (typing.logical_of found.cells)
        (spec.place_of_found found) ptype found.dtype literal) result }
{
    let logical = found.cells.logical();
    match kind_fit(kind_of(logical), literal.kind) {
        KindFit::Same => with_exact(alloc, comparison, found, ptype, literal),
        KindFit::Other if logical.is_some() => Err(Fault::Misfit),
        KindFit::ByZone | KindFit::Other => Ok(None),
    }
}

fn with_constant(
    alloc: Global,
    comparison: Comparison,
    found: Found,
    value: ScalarValue,
) -> Result<Option<BoundExpression>, Fault>
    ensures { spec.Reads (spec.said (spec.comparing comparison (spec.place_of_found found)
        (spec.constant found.dtype value))) result }
{
    let literal = constant(alloc, found.dtype, value)?;
    comparing(alloc, comparison, found, literal)
}

// Says a comparison of a column whose cells are values or exact numbers with an operand that is no
// column.
fn exact_with(
    alloc: Global,
    comparison: Comparison,
    found: Found,
    operand: &Operand,
) -> Result<Option<BoundExpression>, Fault>
    ensures { spec.Reads (spec.exact_literal comparison (typing.logical_of found.cells)
        (spec.place_of_found found) found.dtype operand.now) result }
{
    match (operand, found.dtype) {
        (Operand::Other, _) => Ok(None),
        (Operand::Null, _) => said(alloc, None),
        (Operand::Exact(literal), DType::Primitive(ptype, _)) => {
            with_kind(alloc, comparison, found, ptype, *literal)
        }
        (Operand::Truth(truth), DType::Bool(_)) => {
            with_constant(alloc, comparison, found, ScalarValue::Bool(*truth))
        }
        (Operand::Text(text), DType::Utf8(_)) => {
            let value = ScalarValue::Utf8(text.try_clone()?);
            with_constant(alloc, comparison, found, value)
        }
        (Operand::Binary(bytes), DType::Binary(_)) => {
            let value = ScalarValue::Binary(bytes.try_clone()?);
            with_constant(alloc, comparison, found, value)
        }
        _ => Err(Fault::Misfit),
    }
}

/// Says a comparison of a column with an operand that is no column.
pub(crate) fn with_literal(
    alloc: Global,
    comparison: Comparison,
    found: Found,
    operand: &Operand,
) -> Result<Option<BoundExpression>, Fault>
    ensures { spec.Reads
        (spec.with_literal comparison (spec.field_of_found found) found.dtype operand.now) result }
{
    match found.cells {
        Cells::Floats(float, nan) => float_with(alloc, comparison, found, (float, nan), operand),
        Cells::Values | Cells::Exact(_) => exact_with(alloc, comparison, found, operand),
    }
}

fn are_numbers(left: DType, right: DType) -> bool
    ensures { result ≡ spec.are_numbers left right }
{
    matches!(
        (left, right),
        (DType::Primitive(_, _), DType::Primitive(_, _))
    )
}

fn with_place(
    alloc: Global,
    comparison: Comparison,
    found: Found,
    other: Option<Found>,
) -> Result<Option<BoundExpression>, Fault>
    ensures { spec.Reads (spec.with_place comparison (spec.field_of_found found)
        (option_map spec.field_of_found other)) result }
{
    let Some(other) = other else {
        return Ok(None);
    };
    if found.dtype.eq_ignore_nullability(&other.dtype) && are_same_cells(found.cells, other.cells) {
        let right = column(alloc, other)?;
        comparing(alloc, comparison, found, right)
    } else if are_numbers(found.dtype, other.dtype) {
        Ok(None)
    } else {
        Err(Fault::Misfit)
    }
}

fn with_operand(
    alloc: Global,
    schema: &Schema,
    comparison: Comparison,
    found: Found,
    operand: &Operand,
) -> Result<Option<BoundExpression>, Fault>
    ensures { spec.Reads
        (spec.with_operand schema.now comparison (spec.field_of_found found) operand.now) result }
{
    match operand {
        Operand::Column(name) => with_place(alloc, comparison, found, schema.find(name)),
        _ => with_literal(alloc, comparison, found, operand),
    }
}

/// Says a comparison of a column, if it was found, with an operand that it types.
pub(crate) fn from_place(
    alloc: Global,
    schema: &Schema,
    comparison: Comparison,
    found: Option<Found>,
    operand: &Operand,
) -> Result<Option<BoundExpression>, Fault>
    ensures { spec.Reads (spec.from_place schema.now comparison
        (option_map spec.field_of_found found) operand.now) result }
{
    match (found, operand) {
        (Some(found), _) => with_operand(alloc, schema, comparison, found, operand),
        (None, Operand::Null) => said(alloc, None),
        (None, _) => Ok(None),
    }
}

// Says a comparison of two operands, of which neither types the other.
fn compare_typed(
    alloc: Global,
    schema: &Schema,
    comparison: Comparison,
    left: &Operand,
    right: &Operand,
) -> Result<Option<BoundExpression>, Fault>
    ensures { spec.Reads (spec.compare_typed schema.now comparison left.now right.now) result }
{
    match (left, right) {
        (Operand::Column(name), _) => {
            from_place(alloc, schema, comparison, schema.find(name), right)
        }
        (_, Operand::Column(name)) => {
            from_place(alloc, schema, flipped(comparison), schema.find(name), left)
        }
        _ => literals(alloc, comparison, left, right),
    }
}

/// Says a comparison of two operands.
pub(crate) fn compare(
    alloc: Global,
    schema: &Schema,
    comparison: Comparison,
    left: &Operand,
    right: &Operand,
) -> Result<Option<BoundExpression>, Fault>
    ensures { spec.Reads (spec.compare schema.now comparison left.now right.now) result }
{
    let typed_left = typed_by(alloc, schema, right, left)?;
    let typed_right = typed_by(alloc, schema, left, right)?;
    let left = typed_or(&typed_left, left);
    let right = typed_or(&typed_right, right);
    compare_typed(alloc, schema, comparison, left, right)
}
