//! Expressions and how deep they are.
ghost use Rattle.std.specs.Prelude.{◌≡◌, ◌<◌};
ghost use Rattle.vortex_expr.specs.Trees.Tree as tree;
ghost use Rattle.vortex_rewrite.specs.Rewriting.Predicates.{is_predicate};
ghost use Rattle.vortex_syntax.specs.Expressions.{typed};
ghost use Rattle.vortex_syntax.specs.Fails.{Gives};
ghost use Rattle.vortex_normal.specs.Balanced.{depth};
ghost use Rattle.vortex_capi.specs.Nesting.Nodes.{Builds, pair_of, unary_of};

use crate::nested::error::NestedError;
use std::alloc::Global;
use std::marker::Model;
use vortex_base::dtype::DType;
use vortex_expr::bound_expression::BoundExpression;
use vortex_expr::like::LikeOptions;
use vortex_expr::scalar_fn::{BetweenOptions, Operator};
use vortex_syntax::expression;
use vortex_syntax::line_error::LineError;

/// Names a test of one operand.
#[derive(Clone, Copy, Debug)]
pub(crate) enum Unary {
    Not,
    IsNull,
    IsNotNull,
}

/// Names a node of two operands that joins no chain.
#[derive(Clone, Copy, Debug)]
pub(crate) enum Pair {
    Binary(Operator),
    Like(LikeOptions),
}

/// Holds an expression and its depth, the most nodes above a leaf.
#[derive(Drop)]
pub(crate) struct Nested {
    expression: BoundExpression,
    depth: usize,
}

impl Model for Nested {
    ghost use Rattle.std.specs.Prelude.{◌≡◌};
    ghost use Rattle.vortex_expr.specs.Trees.Tree.{Tree, Place};
    ghost use Rattle.vortex_expr.specs.Trees.TreeCode.{tree_code, place_code};

    ghost Value = { Tree Place };

    ghost coded = { tree_code place_code };

    ghost use Rattle.vortex_normal.specs.Balanced.{depth as depth_of};

    ghost view = { λ n. n.expression };

    ghost invariant = { λ n. n.depth ≡ depth_of n.expression };
}

fn unary_node(
    alloc: Global,
    test: Unary,
    x: BoundExpression,
    left: usize,
) -> Result<BoundExpression, LineError>
    ensures { Gives (λ e. e) result (typed (unary_of test x)) }
{
    match test {
        Unary::Not => expression::not(alloc, x, left),
        Unary::IsNull => expression::is_null(alloc, x, left),
        Unary::IsNotNull => expression::is_not_null(alloc, x, left),
    }
}

fn pair_node(
    alloc: Global,
    pair: Pair,
    l: BoundExpression,
    r: BoundExpression,
    left: usize,
) -> Result<BoundExpression, LineError>
    ensures { Gives (λ e. e) result (typed (pair_of pair l r)) }
{
    match pair {
        Pair::Binary(operator) => expression::binary(alloc, operator, l, r, left),
        Pair::Like(options) => expression::like(alloc, options, l, r, left),
    }
}

impl Nested {
    /// Makes a leaf.
    pub(crate) fn leaf(expression: BoundExpression) -> Nested
        requires { depth expression ≡ 0 }
        ensures { result ≡ expression }
    {
        Nested {
            expression,
            depth: 0,
        }
    }

    /// Returns the most nodes above a leaf.
    pub(crate) fn depth(&self) -> usize
        ensures { result ≡ depth self.now }
    {
        self.depth
    }

    /// Returns the expression.
    pub(crate) fn into_expression(self) -> BoundExpression
        ensures { result ≡ self }
    {
        self.expression
    }

    /// Tells whether the expression is of type Bool.
    pub(crate) fn is_truth(&self) -> bool
        ensures { result ≡ is_predicate self.now }
    {
        matches!(self.expression.dtype(), DType::Bool(_))
    }

    /// Makes a test of an operand. So many bytes of the line are left.
    #[inline(never)]
    pub(crate) fn unary(
        alloc: Global,
        test: Unary,
        x: Nested,
        left: usize,
    ) -> Result<Nested, NestedError>
        requires { depth x < usize.MAX }
        ensures { Builds (typed (unary_of test x)) result }
    {
        let depth = x.depth + 1;
        let expression = unary_node(alloc, test, x.expression, left)?;
        Ok(Nested { expression, depth })
    }

    /// Makes a node of two operands.
    #[inline(never)]
    pub(crate) fn pair(
        alloc: Global,
        pair: Pair,
        l: Nested,
        r: Nested,
        left: usize,
    ) -> Result<Nested, NestedError>
        requires l_fits { depth l < usize.MAX }
        requires r_fits { depth r < usize.MAX }
        ensures { Builds (typed (pair_of pair l r)) result }
    {
        let depth = l.depth.max(r.depth) + 1;
        let expression = pair_node(alloc, pair, l.expression, r.expression, left)?;
        Ok(Nested { expression, depth })
    }

    /// Makes a BETWEEN.
    #[inline(never)]
    pub(crate) fn between(
        alloc: Global,
        options: BetweenOptions,
        x: Nested,
        lower: Nested,
        upper: Nested,
        left: usize,
    ) -> Result<Nested, NestedError>
        requires x_fits { depth x < usize.MAX }
        requires lower_fits { depth lower < usize.MAX }
        requires upper_fits { depth upper < usize.MAX }
        ensures { Builds (typed (tree.between options x lower upper)) result }
    {
        let depth = x.depth.max(lower.depth.max(upper.depth)) + 1;
        let (x, lower, upper) = (x.expression, lower.expression, upper.expression);
        let expression = expression::between(alloc, options, x, lower, upper, left)?;
        Ok(Nested { expression, depth })
    }
}
