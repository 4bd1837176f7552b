//! Columns as expressions.
ghost use Rattle.vortex_sql.specs.Readings as spec;

use crate::fault::Fault;
use crate::found::Found;
use std::alloc::Global;
use vortex_expr::bound;
use vortex_expr::bound_expression::BoundExpression;

/// Returns a column as an expression.
pub(crate) fn column(alloc: Global, found: Found) -> Result<BoundExpression, Fault>
    ensures { spec.Yields (spec.tree_of_found found) result }
{
    Ok(bound::col(alloc, found.index, found.dtype)?)
}
