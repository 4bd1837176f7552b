//! Predicates: expressions of type Bool, of which proofs and normal forms are built.
ghost use Rattle.std.specs.Prelude.{◌≡◌, ◌++◌, false, IsOk, IsTrue, MatchOption, option_to_list};
ghost use Rattle.vortex_expr.specs.Trees.Tree as tree;
ghost use Rattle.vortex_expr.specs.Meanings.Typing.{type_of};
ghost use Rattle.vortex_rewrite.specs.Answers.{Makes, OkOrMemory};
ghost use Rattle.vortex_rewrite.specs.Rewriting.Predicates.{is_connective, is_predicate, is_truth_aggregate};
ghost use Rattle.vortex_rewrite.specs.Rewriting.Falsifiers.{bool_literal};

use crate::built::{cloned, expect_memory_only};
use crate::rewrite::nodes::{literal, stat};
use std::alloc::Global;
use std::marker::Model;
use vortex_base::aggregate::AggregateFnRef;
use vortex_base::dtype::DType;
use vortex_base::scalar_value::ScalarValue;
use vortex_base::types::Nullability;
use vortex_expr::bound;
use vortex_expr::bound_expression::BoundExpression;
use vortex_expr::like::LikeOptions;
use vortex_expr::scalar_fn::{BetweenOptions, Operator};
use vortex_stats::error::StatsError;

/// An expression of type Bool.
#[derive(Drop)]
pub struct Predicate {
    expression: BoundExpression,
}

impl Model for Predicate {
    ghost use Rattle.std.specs.Prelude.{IsTrue};
    ghost use Rattle.vortex_expr.specs.Trees.Tree.{Tree, Place};
    ghost use Rattle.vortex_expr.specs.Trees.TreeCode.{tree_code, place_code};

    ghost Value = { Tree Place };

    ghost coded = { tree_code place_code };

    ghost use Rattle.vortex_rewrite.specs.Rewriting.Predicates.{is_predicate};

    ghost view = { λ p. p.expression };

    ghost invariant = { λ p. IsTrue (is_predicate p.expression) };
}

/// Whether an expression is of type Bool.
pub fn is_truth(expression: &BoundExpression) -> bool
    ensures { result ≡ is_predicate expression.now }
{
    matches!(expression.dtype(), DType::Bool(_))
}

/// The literal of a truth.
pub fn truth_literal(alloc: Global, truth: bool) -> Result<BoundExpression, StatsError>
    ensures { Makes (bool_literal truth) result }
{
    literal(
        alloc,
        DType::Bool(Nullability::NonNullable),
        ScalarValue::from(truth),
    )
}

impl Predicate {
    /// The expression, if it is of type Bool.
    pub fn try_new(expression: BoundExpression) -> Option<Predicate>
        ensures { MatchOption result (is_predicate expression ≡ false) (λ p. p ≡ expression) }
    {
        if is_truth(&expression) {
            Some(Predicate { expression })
        } else {
            None
        }
    }

    /// The expression.
    pub fn expression(&self) -> &BoundExpression
        ensures value { result.now ≡ self.now }
        ensures truth { IsTrue (is_predicate self.now) }
    {
        &self.expression
    }

    /// The expression itself.
    pub fn into_expression(self) -> BoundExpression
        ensures value { result ≡ self }
        ensures truth { IsTrue (is_predicate self) }
    {
        self.expression
    }

    /// Two operands that fit, compared or connected.
    pub fn binary(
        alloc: Global,
        operator: Operator,
        left: BoundExpression,
        right: BoundExpression,
    ) -> Result<Predicate, StatsError>
        requires { IsOk (type_of (tree.binary operator left right)) }
        ensures { Makes (tree.binary operator left right) result }
    {
        let expression = expect_memory_only(bound::binary(alloc, operator, left, right))?;
        Ok(Predicate { expression })
    }

    /// Two predicates joined by AND or OR.
    pub fn connect(
        alloc: Global,
        connective: Operator,
        left: Predicate,
        right: Predicate,
    ) -> Result<Predicate, StatsError>
        requires { IsTrue (is_connective connective) }
        ensures { Makes (tree.binary connective left right) result }
    {
        Predicate::binary(alloc, connective, left.expression, right.expression)
    }

    /// A literal truth.
    pub fn truth(alloc: Global, truth: bool) -> Result<Predicate, StatsError>
        ensures { Makes (bool_literal truth) result }
    {
        let expression = truth_literal(alloc, truth)?;
        Ok(Predicate { expression })
    }

    /// The opposite of a predicate.
    pub fn not(alloc: Global, x: &BoundExpression) -> Result<Predicate, StatsError>
        requires { IsTrue (is_predicate x.now) }
        ensures { Makes (tree.not x.now) result }
    {
        let expression = expect_memory_only(bound::not(alloc, cloned(x)?))?;
        Ok(Predicate { expression })
    }

    /// A copy of an expression of type Bool.
    pub fn copied(x: &BoundExpression) -> Result<Predicate, StatsError>
        requires { IsTrue (is_predicate x.now) }
        ensures { Makes x.now result }
    {
        let expression = cloned(x)?;
        Ok(Predicate { expression })
    }

    /// Whether an operand is null.
    pub fn is_null(alloc: Global, x: &BoundExpression) -> Result<Predicate, StatsError>
        ensures { Makes (tree.is_null x.now) result }
    {
        let _typed = x.dtype();
        let expression = expect_memory_only(bound::is_null(alloc, cloned(x)?))?;
        Ok(Predicate { expression })
    }

    /// Whether an operand is not null.
    pub fn is_not_null(alloc: Global, x: &BoundExpression) -> Result<Predicate, StatsError>
        ensures { Makes (tree.is_not_null x.now) result }
    {
        let _typed = x.dtype();
        let expression = expect_memory_only(bound::is_not_null(alloc, cloned(x)?))?;
        Ok(Predicate { expression })
    }

    /// Whether an operand lies between two ends.
    pub fn between(
        alloc: Global,
        options: BetweenOptions,
        x: BoundExpression,
        lower: BoundExpression,
        upper: BoundExpression,
    ) -> Result<Predicate, StatsError>
        requires { IsOk (type_of (tree.between options x lower upper)) }
        ensures { Makes (tree.between options x lower upper) result }
    {
        let expression = expect_memory_only(bound::between(alloc, x, lower, upper, options))?;
        Ok(Predicate { expression })
    }

    /// Whether a text matches a pattern.
    pub fn like(
        alloc: Global,
        options: LikeOptions,
        text: &BoundExpression,
        pattern: &BoundExpression,
    ) -> Result<Predicate, StatsError>
        requires { IsOk (type_of (tree.like options text.now pattern.now)) }
        ensures { Makes (tree.like options text.now pattern.now) result }
    {
        let expression = expect_memory_only(bound::like_with(
            alloc,
            cloned(text)?,
            cloned(pattern)?,
            options,
        ))?;
        Ok(Predicate { expression })
    }

    /// The placeholder for an aggregate whose state is a truth.
    pub fn stat(
        alloc: Global,
        aggregate: AggregateFnRef,
        x: &BoundExpression,
    ) -> Result<Predicate, StatsError>
        requires { IsTrue (is_truth_aggregate aggregate) }
        ensures { Makes (tree.stat aggregate x.now) result }
    {
        // Shows that the operand has a type, so that the aggregate supports it.
        let _typed = x.dtype();
        let expression = stat(alloc, aggregate, x)?;
        Ok(Predicate { expression })
    }
}

// Adds a predicate, if there is one.
pub(crate) fn push_some(
    proofs: &mut Vec<Predicate>,
    proof: Option<Predicate>,
) -> Result<(), StatsError>
    ensures { OkOrMemory result (λ _. proofs.new.items ≡ proofs.old.items ++ option_to_list proof) }
{
    if let Some(proof) = proof {
        proofs.push(proof)?;
    }
    Ok(())
}
