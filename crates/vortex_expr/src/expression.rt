//! Expressions over named columns, before they are bound to a scope.
ghost use Rattle.std.specs.Prelude.{◌≡◌};
ghost use Rattle.vortex_expr.specs.Trees.Tree as tree;
ghost use Rattle.vortex_expr.specs.Patterns.Like.{plain};
ghost use Rattle.vortex_base.specs.Answer.{Makes};
ghost use Rattle.vortex_expr.specs.Trees.NamedNode.{named_tree};

mod cloning;

use crate::like::LikeOptions;
use crate::scalar_fn::{BetweenOptions, Operator};
use std::alloc::Global;
use std::marker::Model;
use vortex_base::aggregate::AggregateFnRef;
use vortex_base::error::BaseError;
use vortex_base::scalar::Scalar;

/// An expression whose columns are given by their names. It has no type until it is bound to a
/// scope.
#[cycle(named_expression)]
#[derive(Debug)]
pub struct Expression {
    pub(crate) node: Box<NamedNode>,
}

// A node with its children.
#[cycle(named_expression)]
#[derive(Debug, Drop)]
pub(crate) enum NamedNode {
    Column(String),
    Literal(Scalar),
    Binary(Operator, Expression, Expression),
    Between(BetweenOptions, Expression, Expression, Expression),
    IsNull(Expression),
    IsNotNull(Expression),
    Not(Expression),
    Like(LikeOptions, Expression, Expression),
    Stat(AggregateFnRef, Expression),
    RowCount,
}

impl Drop for Expression {
    #[cycle(named_expression)]
    fn drop(self) {
        let Expression { node } = self;
        drop(node);
    }
}

impl Model for Expression {
    ghost use Rattle.std.specs.Coded.{coded_list, coded_ℕ};
    ghost use Rattle.vortex_expr.specs.Trees.Tree.{Tree};
    ghost use Rattle.vortex_expr.specs.Trees.TreeCode.{tree_code};
    ghost use Rattle.vortex_expr.specs.Meanings.Binding.{Name};

    ghost Value = { Tree Name };

    ghost coded = { tree_code (coded_list coded_ℕ) };

    ghost use Rattle.vortex_expr.specs.Trees.Tree.{node_count};
    ghost use Rattle.vortex_expr.specs.Trees.NamedNode.{named_tree};

    ghost view = { λ a. named_tree a.node.value };

    ghost size = { node_count };

    ghost use Rattle.vortex_expr.specs.Trees.NamedNodeFalls.{depth_le-named_node_count};

    ghost size_decreases = { λ a h. depth_le-named_node_count a.node.value };
}

fn of_node(alloc: Global, node: NamedNode) -> Result<Expression, BaseError>
    ensures { Makes (named_tree node) result }
{
    Ok(Expression {
        node: Box::new(alloc, node)?,
    })
}

impl Expression {
    pub(crate) fn into_node(self) -> NamedNode
        ensures { named_tree result ≡ self }
    {
        let Expression { node } = self;
        Box::into_inner(node)
    }

    /// The column of a name.
    pub fn col(alloc: Global, name: &str) -> Result<Expression, BaseError>
        ensures { Makes (tree.column name.now) result }
    {
        let name = String::from_str(alloc, name)?;
        of_node(alloc, NamedNode::Column(name))
    }

    /// A literal.
    pub fn lit(alloc: Global, value: Scalar) -> Result<Expression, BaseError>
        ensures { Makes (tree.literal value) result }
    {
        of_node(alloc, NamedNode::Literal(value))
    }

    /// A comparison or a connective.
    pub fn binary(
        alloc: Global,
        operator: Operator,
        left: Expression,
        right: Expression,
    ) -> Result<Expression, BaseError>
        ensures { Makes (tree.binary operator left right) result }
    {
        of_node(alloc, NamedNode::Binary(operator, left, right))
    }

    /// Whether left equals right.
    pub fn eq(alloc: Global, left: Expression, right: Expression) -> Result<Expression, BaseError>
        ensures { Makes (tree.binary Operator.Eq left right) result }
    {
        Expression::binary(alloc, Operator::Eq, left, right)
    }

    /// Whether left differs from right.
    pub fn not_eq(
        alloc: Global,
        left: Expression,
        right: Expression,
    ) -> Result<Expression, BaseError>
        ensures { Makes (tree.binary Operator.NotEq left right) result }
    {
        Expression::binary(alloc, Operator::NotEq, left, right)
    }

    /// Whether left is greater than right.
    pub fn gt(alloc: Global, left: Expression, right: Expression) -> Result<Expression, BaseError>
        ensures { Makes (tree.binary Operator.Gt left right) result }
    {
        Expression::binary(alloc, Operator::Gt, left, right)
    }

    /// Whether left is at least right.
    pub fn gt_eq(
        alloc: Global,
        left: Expression,
        right: Expression,
    ) -> Result<Expression, BaseError>
        ensures { Makes (tree.binary Operator.Gte left right) result }
    {
        Expression::binary(alloc, Operator::Gte, left, right)
    }

    /// Whether left is less than right.
    pub fn lt(alloc: Global, left: Expression, right: Expression) -> Result<Expression, BaseError>
        ensures { Makes (tree.binary Operator.Lt left right) result }
    {
        Expression::binary(alloc, Operator::Lt, left, right)
    }

    /// Whether left is at most right.
    pub fn lt_eq(
        alloc: Global,
        left: Expression,
        right: Expression,
    ) -> Result<Expression, BaseError>
        ensures { Makes (tree.binary Operator.Lte left right) result }
    {
        Expression::binary(alloc, Operator::Lte, left, right)
    }

    /// The AND of two truths.
    pub fn and(alloc: Global, left: Expression, right: Expression) -> Result<Expression, BaseError>
        ensures { Makes (tree.binary Operator.And left right) result }
    {
        Expression::binary(alloc, Operator::And, left, right)
    }

    /// The OR of two truths.
    pub fn or(alloc: Global, left: Expression, right: Expression) -> Result<Expression, BaseError>
        ensures { Makes (tree.binary Operator.Or left right) result }
    {
        Expression::binary(alloc, Operator::Or, left, right)
    }

    /// Whether an operand lies between two ends.
    pub fn between(
        alloc: Global,
        x: Expression,
        lower: Expression,
        upper: Expression,
        options: BetweenOptions,
    ) -> Result<Expression, BaseError>
        ensures { Makes (tree.between options x lower upper) result }
    {
        of_node(alloc, NamedNode::Between(options, x, lower, upper))
    }

    /// Whether an operand is null.
    pub fn is_null(alloc: Global, x: Expression) -> Result<Expression, BaseError>
        ensures { Makes (tree.is_null x) result }
    {
        of_node(alloc, NamedNode::IsNull(x))
    }

    /// Whether an operand is not null.
    pub fn is_not_null(alloc: Global, x: Expression) -> Result<Expression, BaseError>
        ensures { Makes (tree.is_not_null x) result }
    {
        of_node(alloc, NamedNode::IsNotNull(x))
    }

    /// The opposite of a truth.
    pub fn not(alloc: Global, x: Expression) -> Result<Expression, BaseError>
        ensures { Makes (tree.not x) result }
    {
        of_node(alloc, NamedNode::Not(x))
    }

    /// Whether a text matches a pattern, case regarded.
    pub fn like(
        alloc: Global,
        text: Expression,
        pattern: Expression,
    ) -> Result<Expression, BaseError>
        ensures { Makes (tree.like plain text pattern) result }
    {
        Expression::like_with(alloc, text, pattern, LikeOptions::default())
    }

    /// Whether a text matches a pattern, as the options say.
    pub fn like_with(
        alloc: Global,
        text: Expression,
        pattern: Expression,
        options: LikeOptions,
    ) -> Result<Expression, BaseError>
        ensures { Makes (tree.like options text pattern) result }
    {
        of_node(alloc, NamedNode::Like(options, text, pattern))
    }

    /// The placeholder for an aggregate of an input.
    pub fn new_stat(
        alloc: Global,
        input: Expression,
        aggregate: AggregateFnRef,
    ) -> Result<Expression, BaseError>
        ensures { Makes (tree.stat aggregate input) result }
    {
        of_node(alloc, NamedNode::Stat(aggregate, input))
    }

    /// The number of rows that is handed in beside a row.
    pub fn row_count(alloc: Global) -> Result<Expression, BaseError>
        ensures { Makes tree.row_count result }
    {
        of_node(alloc, NamedNode::RowCount)
    }
}
