//! Comparisons of columns of floats.
ghost use Rattle.vortex_floats.specs.Cells as cells;
ghost use Rattle.vortex_sql.specs.Readings as spec;

use crate::compare::comparing;
use crate::fault::Fault;
use crate::found::Found;
use crate::joined::joined_by;
use crate::literal::{constant, said};
use crate::number::in_type;
use crate::syntax::tree::Operand;
use std::alloc::Global;
use vortex_base::dtype::DType;
use vortex_base::scalar_value::ScalarValue;
use vortex_base::types::PType;
use vortex_expr::bound_expression::BoundExpression;
use vortex_expr::scalar_fn::Operator;
use vortex_floats::cells::compare_cells;
use vortex_logical::comparison::Comparison;
use vortex_logical::float_test::{FloatTest, NanMeaning};
use vortex_logical::float_type::FloatType;

// Says a comparison of the whole numbers of a column, where its type has the other number.
fn with_number(
    alloc: Global,
    comparison: Comparison,
    number: i128,
    found: Found,
    ptype: PType,
) -> Result<Option<BoundExpression>, Fault>
    ensures { spec.Reads (spec.cell_reading comparison number (spec.place_of_found found) ptype
        found.dtype) result }
{
    match in_type(ptype, number) {
        Some(number) => {
            let literal = constant(alloc, found.dtype, ScalarValue::Primitive(number))?;
            comparing(alloc, comparison, found, literal)
        }
        None => Ok(None),
    }
}

// Says a test of the whole numbers of floats.
fn tested(
    alloc: Global,
    test: FloatTest,
    found: Found,
    ptype: PType,
) -> Result<Option<BoundExpression>, Fault>
    ensures { spec.Reads (spec.below_reading test.below (spec.place_of_found found) ptype
        found.dtype (spec.cell_reading test.test.comparison test.test.number
        (spec.place_of_found found) ptype found.dtype)) result }
{
    let said = with_number(alloc, test.test.comparison, test.test.number, found, ptype)?;
    match test.below {
        Some(bound) => {
            let below = with_number(alloc, Comparison::Lt, i128::from(bound), found, ptype)?;
            joined_by(alloc, Operator::And, said, below)
        }
        None => Ok(said),
    }
}

// The type of a column's floats, and the meaning of a comparison with NaN.
type Floats = (FloatType, Option<NanMeaning>);

// Says a comparison with a float by its bits.
fn with_bits(
    alloc: Global,
    comparison: Comparison,
    found: Found,
    floats: Floats,
    ptype: PType,
    bits: u64,
) -> Result<Option<BoundExpression>, Fault>
    ensures { spec.Reads (spec.float_reading
        (cells.compared floats.0 floats.1 comparison bits)
        (spec.place_of_found found) ptype found.dtype) result }
{
    match compare_cells(floats.0, floats.1, comparison, bits) {
        Some(test) => tested(alloc, test, found, ptype),
        None => Ok(None),
    }
}

/// Says a comparison of a column of floats with an operand that is no column.
pub(crate) fn float_with(
    alloc: Global,
    comparison: Comparison,
    found: Found,
    floats: Floats,
    operand: &Operand,
) -> Result<Option<BoundExpression>, Fault>
    ensures { spec.Reads (spec.float_literal comparison floats.0 floats.1
        (spec.place_of_found found) found.dtype operand.now) result }
{
    match (operand, found.dtype) {
        (Operand::Other, _) => Ok(None),
        (Operand::Null, _) => said(alloc, None),
        (Operand::Float(bits), DType::Primitive(ptype, _)) => {
            with_bits(alloc, comparison, found, floats, ptype, *bits)
        }
        _ => Err(Fault::Misfit),
    }
}
