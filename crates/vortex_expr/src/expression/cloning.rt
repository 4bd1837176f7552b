//! Copies of expressions over names.
ghost use Rattle.std.specs.Prelude.{◌≡◌, MatchResult, alloc_error};
ghost use Rattle.vortex_base.specs.declared.error.BaseError.TheVariants.{Memory};
ghost use Rattle.vortex_base.specs.Made.{Makes};
ghost use Rattle.vortex_expr.specs.Trees.NamedNode.{named_tree};

use crate::expression::{Expression, NamedNode};
use vortex_base::error::BaseError;

impl Expression {
    /// A copy of the whole tree, by the allocators that its nodes hold.
    #[cycle(named_copies)]
    pub fn try_clone(&self) -> Result<Expression, BaseError>
        ensures { Makes self.now result }
    {
        let alloc = *Box::allocator(&self.node);
        let node = Box::new(alloc, cloned(&self.node)?)?;
        Ok(Expression { node })
    }
}

#[cycle(named_copies)]
fn cloned(node: &NamedNode) -> Result<NamedNode, BaseError>
    ensures { MatchResult result (λ copy. named_tree copy ≡ named_tree node.now)
        (λ f. f ≡ Memory alloc_error) }
{
    Ok(match node {
        NamedNode::Column(name) => NamedNode::Column(name.clone()?),
        NamedNode::Literal(value) => NamedNode::Literal(value.try_clone()?),
        NamedNode::Binary(operator, left, right) => {
            NamedNode::Binary(*operator, left.try_clone()?, right.try_clone()?)
        }
        NamedNode::Between(options, x, lower, upper) => {
            NamedNode::Between(
                *options,
                x.try_clone()?,
                lower.try_clone()?,
                upper.try_clone()?,
            )
        }
        NamedNode::IsNull(x) => NamedNode::IsNull(x.try_clone()?),
        NamedNode::IsNotNull(x) => NamedNode::IsNotNull(x.try_clone()?),
        NamedNode::Not(x) => NamedNode::Not(x.try_clone()?),
        NamedNode::Like(options, text, pattern) => {
            NamedNode::Like(*options, text.try_clone()?, pattern.try_clone()?)
        }
        NamedNode::Stat(aggregate, x) => NamedNode::Stat(*aggregate, x.try_clone()?),
        NamedNode::RowCount => NamedNode::RowCount,
    })
}
