//! The leaves of a predicate: what stands below its ANDs and ORs.
use std::alloc::AllocError;
use vortex_expr::bound_expression::BoundExpression;
use vortex_expr::bound_expression::parts::Parts;
use vortex_expr::scalar_fn::Operator;

/// Adds the leaves of a predicate, from the left to the right.
pub(crate) fn push_leaves<'a>(
    leaves: &mut Vec<&'a BoundExpression>,
    predicate: &'a BoundExpression,
) -> Result<(), AllocError> {
    match predicate.parts() {
        Parts::Binary(Operator::And | Operator::Or, left, right) => {
            push_leaves(leaves, left)?;
            push_leaves(leaves, right)
        }
        _ => Ok(leaves.push(predicate)?),
    }
}

/// Adds the placeholders of a proof, from the left to the right.
pub(crate) fn push_placeholders<'a>(
    found: &mut Vec<&'a BoundExpression>,
    proof: &'a BoundExpression,
) -> Result<(), AllocError> {
    match proof.parts() {
        Parts::Stat(_, _) => Ok(found.push(proof)?),
        Parts::Binary(_, left, right) | Parts::Like(_, left, right) => {
            push_placeholders(found, left)?;
            push_placeholders(found, right)
        }
        Parts::Between(_, x, lower, upper) => {
            push_placeholders(found, x)?;
            push_placeholders(found, lower)?;
            push_placeholders(found, upper)
        }
        Parts::IsNull(x) | Parts::IsNotNull(x) | Parts::Not(x) => push_placeholders(found, x),
        Parts::Column(_, _) | Parts::Literal(_) | Parts::RowCount => Ok(()),
    }
}
