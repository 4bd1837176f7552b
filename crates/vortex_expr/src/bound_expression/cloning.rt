//! Copies of typed expressions.
ghost use Rattle.vortex_base.specs.Made.{Makes};
ghost use Rattle.vortex_expr.specs.Trees.Node.{tree};

use crate::bound_expression::{BoundExpression, Node};
use vortex_base::error::BaseError;

impl BoundExpression {
    /// A copy of the whole tree, by the allocators that its nodes hold.
    #[cycle(copies)]
    pub fn try_clone(&self) -> Result<BoundExpression, BaseError>
        ensures { Makes self.now result }
    {
        let alloc = *Box::allocator(&self.node);
        let node = Box::new(alloc, cloned(&self.node)?)?;
        Ok(BoundExpression {
            dtype: self.dtype,
            node,
        })
    }
}

#[cycle(copies)]
fn cloned(node: &Node) -> Result<Node, BaseError>
    ensures { Makes node.now result }
{
    Ok(match node {
        Node::Column(place) => Node::Column(*place),
        Node::Literal(value) => Node::Literal(value.try_clone()?),
        Node::Binary(operator, left, right) => {
            Node::Binary(*operator, left.try_clone()?, right.try_clone()?)
        }
        Node::Between(options, x, lower, upper) => {
            Node::Between(
                *options,
                x.try_clone()?,
                lower.try_clone()?,
                upper.try_clone()?,
            )
        }
        Node::IsNull(x) => Node::IsNull(x.try_clone()?),
        Node::IsNotNull(x) => Node::IsNotNull(x.try_clone()?),
        Node::Not(x) => Node::Not(x.try_clone()?),
        Node::Like(options, text, pattern) => {
            Node::Like(*options, text.try_clone()?, pattern.try_clone()?)
        }
        Node::Stat(aggregate, x) => Node::Stat(*aggregate, x.try_clone()?),
        Node::RowCount => Node::RowCount,
    })
}
