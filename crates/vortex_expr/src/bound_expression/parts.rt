//! One level of a typed expression, with its children borrowed.
ghost use Rattle.std.specs.Prelude.{◌≡◌};
ghost use Rattle.vortex_expr.specs.Trees.Parts.{whole};

use crate::bound_expression::{BoundExpression, Node};
use crate::like::LikeOptions;
use crate::scalar_fn::{BetweenOptions, Operator};
use vortex_base::aggregate::AggregateFnRef;
use vortex_base::dtype::DType;
use vortex_base::scalar::Scalar;

/// The top node of a typed expression, to match on.
#[derive(Clone, Copy)]
pub enum Parts<'a> {
    /// The column's place, and its type.
    Column(usize, DType),
    Literal(&'a Scalar),
    Binary(Operator, &'a BoundExpression, &'a BoundExpression),
    /// The operand and then the lower and the upper end.
    Between(BetweenOptions, &'a BoundExpression, &'a BoundExpression, &'a BoundExpression),
    IsNull(&'a BoundExpression),
    IsNotNull(&'a BoundExpression),
    Not(&'a BoundExpression),
    /// The text and then the pattern.
    Like(LikeOptions, &'a BoundExpression, &'a BoundExpression),
    Stat(AggregateFnRef, &'a BoundExpression),
    RowCount,
}

impl BoundExpression {
    /// The top node, its children borrowed.
    pub fn parts(&self) -> Parts<'_>
        ensures { self.entry.now ≡ whole result }
    {
        match &*self.node {
            Node::Column(place) => Parts::Column(*place, self.dtype),
            Node::Literal(value) => Parts::Literal(value),
            Node::Binary(operator, left, right) => Parts::Binary(*operator, left, right),
            Node::Between(options, x, lower, upper) => Parts::Between(*options, x, lower, upper),
            Node::IsNull(x) => Parts::IsNull(x),
            Node::IsNotNull(x) => Parts::IsNotNull(x),
            Node::Not(x) => Parts::Not(x),
            Node::Like(options, text, pattern) => Parts::Like(*options, text, pattern),
            Node::Stat(aggregate, x) => Parts::Stat(*aggregate, x),
            Node::RowCount => Parts::RowCount,
        }
    }
}
