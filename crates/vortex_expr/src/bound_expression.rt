//! Typed expressions.
ghost use Rattle.std.specs.Prelude.{◌≡◌, ◌<◌, length, Some, Ok, slice_get, option_copied};
ghost use Rattle.vortex_expr.specs.Trees.Tree.{children, kind_of, literal_of, scalar_fn_of};
ghost use Rattle.vortex_expr.specs.Meanings.Typing.{type_of};

mod cloning;
mod equality;
mod holds;
pub mod parts;
mod row_test;

use crate::like::LikeOptions;
use crate::scalar_fn::{BetweenOptions, ExprKind, Operator, ScalarFnId};
use std::marker::Model;
use vortex_base::aggregate::AggregateFnRef;
use vortex_base::dtype::DType;
use vortex_base::scalar::Scalar;

/// A typed expression over the columns of a row, given by their places. Each node stores its type,
/// and that is what the typing table gives from the types of its children.
#[cycle(expression)]
#[derive(Debug)]
pub struct BoundExpression {
    pub(crate) dtype: DType,
    pub(crate) node: Box<Node>,
}

// A node with its children.
#[cycle(expression)]
#[derive(Debug, Drop)]
pub(crate) enum Node {
    Column(usize),
    Literal(Scalar),
    Binary(Operator, BoundExpression, BoundExpression),
    Between(BetweenOptions, BoundExpression, BoundExpression, BoundExpression),
    IsNull(BoundExpression),
    IsNotNull(BoundExpression),
    Not(BoundExpression),
    Like(LikeOptions, BoundExpression, BoundExpression),
    Stat(AggregateFnRef, BoundExpression),
    RowCount,
}

impl Drop for BoundExpression {
    #[cycle(expression)]
    fn drop(self) {
        let BoundExpression { dtype: _, node } = self;
        drop(node);
    }
}

impl Model for BoundExpression {
    ghost use Rattle.vortex_expr.specs.Trees.Tree.{Tree, Place};
    ghost use Rattle.vortex_expr.specs.Trees.TreeCode.{tree_code, place_code};

    ghost Value = { Tree Place };

    ghost coded = { tree_code place_code };

    ghost use Rattle.std.specs.Prelude.{◌≡◌, Ok};
    ghost use Rattle.vortex_expr.specs.Trees.Tree.{node_count};
    ghost use Rattle.vortex_expr.specs.Meanings.Typing.{type_of};
    ghost use Rattle.vortex_expr.specs.Trees.Node.{tree};

    ghost view = { λ a. tree a.dtype a.node.value };

    ghost invariant = { λ a. type_of (tree a.dtype a.node.value) ≡ Ok a.dtype };

    ghost size = { node_count };

    ghost use Rattle.vortex_expr.specs.Trees.NodeFalls.{depth_le-node_count};

    ghost size_decreases = { λ a h. depth_le-node_count a.dtype a.node.value };
}

impl BoundExpression {
    /// The type of the expression's value on a row.
    pub fn dtype(&self) -> DType
        ensures { type_of self.now ≡ Ok result }
    {
        self.dtype
    }

    /// The kind of the top node.
    pub fn kind(&self) -> ExprKind
        ensures { result ≡ kind_of self.now }
    {
        match &*self.node {
            Node::Column(place) => ExprKind::Column(*place),
            Node::Literal(_) => ExprKind::Literal,
            Node::Binary(operator, _, _) => ExprKind::Binary(*operator),
            Node::Between(options, _, _, _) => ExprKind::Between(*options),
            Node::IsNull(_) => ExprKind::IsNull,
            Node::IsNotNull(_) => ExprKind::IsNotNull,
            Node::Not(_) => ExprKind::Not,
            Node::Like(options, _, _) => ExprKind::Like(*options),
            Node::Stat(aggregate, _) => ExprKind::Stat(*aggregate),
            Node::RowCount => ExprKind::RowCount,
        }
    }

    /// The number of the top node's children.
    pub fn child_count(&self) -> usize
        ensures { result ≡ length (children self.now) }
    {
        match &*self.node {
            Node::Column(_) | Node::Literal(_) | Node::RowCount => 0,
            Node::IsNull(_) | Node::IsNotNull(_) | Node::Not(_) | Node::Stat(_, _) => 1,
            Node::Binary(_, _, _) | Node::Like(_, _, _) => 2,
            Node::Between(_, _, _, _) => 3,
        }
    }

    /// A child of the top node, counted from the left; `child_count` tells how many there are.
    pub fn child(&self, i: usize) -> &BoundExpression
        requires { i < length (children self.now) }
        ensures { slice_get (children self.now) i ≡ Some result.now }
    {
        match &*self.node {
            Node::Column(_) | Node::Literal(_) | Node::RowCount => unreachable!(),
            Node::IsNull(x) | Node::IsNotNull(x) | Node::Not(x) | Node::Stat(_, x) => x,
            Node::Binary(_, left, right) | Node::Like(_, left, right) => {
                if i == 0 { left } else { right }
            }
            Node::Between(_, x, lower, upper) => {
                if i == 0 {
                    x
                } else if i == 1 {
                    lower
                } else {
                    upper
                }
            }
        }
    }

    /// The literal, where the top node is one.
    pub fn literal(&self) -> Option<&Scalar>
        ensures { option_copied result ≡ literal_of self.now }
    {
        match &*self.node {
            Node::Literal(value) => Some(value),
            _ => None,
        }
    }

    /// The function that the top node applies, or `None` for a column.
    pub fn scalar_fn_id(&self) -> Option<ScalarFnId>
        ensures { result ≡ scalar_fn_of self.now }
    {
        match &*self.node {
            Node::Column(_) => None,
            Node::Literal(_) => Some(ScalarFnId::Literal),
            Node::Binary(_, _, _) => Some(ScalarFnId::Binary),
            Node::Between(_, _, _, _) => Some(ScalarFnId::Between),
            Node::IsNull(_) => Some(ScalarFnId::IsNull),
            Node::IsNotNull(_) => Some(ScalarFnId::IsNotNull),
            Node::Not(_) => Some(ScalarFnId::Not),
            Node::Like(_, _, _) => Some(ScalarFnId::Like),
            Node::Stat(_, _) => Some(ScalarFnId::Stat),
            Node::RowCount => Some(ScalarFnId::RowCount),
        }
    }
}
