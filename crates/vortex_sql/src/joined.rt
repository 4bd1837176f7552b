//! Two parts of a reading that are joined.
ghost use Rattle.std.specs.Prelude.{Ok};
ghost use Rattle.vortex_sql.specs.Readings as spec;

use crate::fault::Fault;
use std::alloc::Global;
use vortex_expr::bound;
use vortex_expr::bound_expression::BoundExpression;
use vortex_expr::scalar_fn::Operator;

/// Joins two parts, if both are said.
pub(crate) fn joined_by(
    alloc: Global,
    operator: Operator,
    left: Option<BoundExpression>,
    right: Option<BoundExpression>,
) -> Result<Option<BoundExpression>, Fault>
    ensures { spec.Reads (spec.joined_by operator (Ok left) (Ok right)) result }
{
    match (left, right) {
        (Some(left), Some(right)) => Ok(Some(bound::binary(alloc, operator, left, right)?)),
        _ => Ok(None),
    }
}
