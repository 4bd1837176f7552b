//! Proofs of LIKE for a column that has one value alone.
ghost use Rattle.std.specs.Prelude.{◌≡◌, IfErr, IfOk, IfSome, IsOk, IsTrue};
ghost use Rattle.vortex_expr.specs.Meanings.Typing.{type_of};
ghost use Rattle.vortex_expr.specs.Trees.Tree as tree;
ghost use Rattle.vortex_rewrite.specs.Answers.{Makes};
ghost use Rattle.vortex_rewrite.specs.Causes.{IsRefusal};
ghost use Rattle.vortex_rewrite.specs.Rewriting.Predicates.{is_predicate, is_text};
ghost use Rattle.vortex_predicates.specs.EqualBounds as spec;
ghost use Rattle.vortex_predicates.specs.EqualBounds.{is_column_like as is_like_of};
ghost use Rattle.vortex_predicates.specs.Pruning.{falsifying_causes};

use crate::joint::{both, joint};
use std::alloc::Global;
use vortex_base::aggregate::AggregateFnRef;
use vortex_expr::bound;
use vortex_expr::bound_expression::BoundExpression;
use vortex_expr::bound_expression::parts::Parts;
use vortex_expr::like::LikeOptions;
use vortex_expr::scalar_fn::Operator;
use vortex_rewrite::built::{cloned, expect_memory_only};
use vortex_rewrite::rewrite::falsify;
use vortex_rewrite::rewrite::rules::{OwnRules, Rules};
use vortex_stats::error::StatsError;

fn opposite(options: LikeOptions) -> LikeOptions
    ensures { result ≡ spec.opposite options }
{
    LikeOptions {
        negated: !options.negated,
        case_insensitive: options.case_insensitive,
    }
}

fn is_column_like(text: &BoundExpression, pattern: &BoundExpression) -> bool
    ensures { result ≡ is_like_of text.now pattern.now }
{
    matches!(
        (text.parts(), pattern.parts()),
        (Parts::Column(_, _), Parts::Literal(_))
    )
}

// The placeholder for the least or the greatest value of a text.
fn bound_of(
    alloc: Global,
    aggregate: AggregateFnRef,
    text: &BoundExpression,
) -> Result<BoundExpression, StatsError>
    requires { IsOk (type_of (tree.stat aggregate text.now)) }
    ensures { Makes (tree.stat aggregate text.now) result }
{
    let input = cloned(text)?;
    expect_memory_only(bound::new_stat(alloc, input, aggregate))
}

// Whether the least value of a text is its greatest.
fn equal_bounds(alloc: Global, text: &BoundExpression) -> Result<BoundExpression, StatsError>
    requires { IsTrue (is_text text.now) }
    ensures { Makes (spec.equal_bounds text.now) result }
{
    let least = bound_of(alloc, AggregateFnRef::Min, text)?;
    let greatest = bound_of(alloc, AggregateFnRef::Max, text)?;
    expect_memory_only(bound::eq(alloc, least, greatest))
}

// Whether the least value of a text doesn't match a pattern.
fn least_differs(
    alloc: Global,
    options: LikeOptions,
    text: &BoundExpression,
    pattern: &BoundExpression,
) -> Result<BoundExpression, StatsError>
    requires text { IsTrue (is_text text.now) }
    requires pattern { IsTrue (is_text pattern.now) }
    ensures { Makes (tree.like (spec.opposite options) (tree.stat AggregateFnRef.Min text.now)
        pattern.now) result }
{
    let least = bound_of(alloc, AggregateFnRef::Min, text)?;
    let pattern = cloned(pattern)?;
    expect_memory_only(bound::like_with(alloc, least, pattern, opposite(options)))
}

// The proof that no row satisfies a LIKE, by the one value of its column.
fn value_proof(
    alloc: Global,
    options: LikeOptions,
    text: &BoundExpression,
    pattern: &BoundExpression,
) -> Result<Option<BoundExpression>, StatsError>
    requires { IsOk (type_of (tree.like options text.now pattern.now)) }
    ensures value { Makes (spec.value_proof options text.now pattern.now) result }
    ensures truth { IfOk result (λ proof. IfSome proof (λ e. IsTrue (is_predicate e))) }
{
    if !is_column_like(text, pattern) {
        return Ok(None);
    }
    let equal = equal_bounds(alloc, text)?;
    let differs = least_differs(alloc, options, text, pattern)?;
    both(alloc, Some(equal), Some(differs))
}

// Whether a LIKE of a column with a literal is among the leaves that AND and OR join.
fn has_column_like(e: &BoundExpression) -> bool
    ensures { result ≡ spec.has_column_like e.now }
{
    match e.parts() {
        Parts::Binary(Operator::And | Operator::Or, left, right) => {
            has_column_like(left) || has_column_like(right)
        }
        Parts::Like(_, text, pattern) => is_column_like(text, pattern),
        _ => false,
    }
}

// The proof that no row satisfies a LIKE, by the rules and by the one value of its column.
fn like_proof(
    alloc: Global,
    options: LikeOptions,
    text: &BoundExpression,
    pattern: &BoundExpression,
    e: &BoundExpression,
    rules: &Rules,
) -> Result<Option<BoundExpression>, StatsError>
    requires like { e.now ≡ tree.like options text.now pattern.now }
    requires truth { IsTrue (is_predicate e.now) }
    ensures value { let own = ⟦<Rules as OwnRules>⟧.own rules.now in
        IfOk result (λ proof. proof ≡ spec.leaf_proof own e.now) }
    ensures truth { IfOk result (λ proof. IfSome proof (λ e. IsTrue (is_predicate e))) }
    ensures refusal { let own = ⟦<Rules as OwnRules>⟧.own rules.now in
        IfErr result (IsRefusal (falsifying_causes own e.now)) }
{
    let by_rules = falsify(alloc, e, rules)?;
    let by_value = value_proof(alloc, options, text, pattern)?;
    joint(alloc, by_rules, by_value)
}

// The proof that no row satisfies a predicate, by the proofs of its leaves.
fn leaf_proof(
    alloc: Global,
    e: &BoundExpression,
    rules: &Rules,
) -> Result<Option<BoundExpression>, StatsError>
    requires { IsTrue (is_predicate e.now) }
    ensures value { let own = ⟦<Rules as OwnRules>⟧.own rules.now in
        IfOk result (λ proof. proof ≡ spec.leaf_proof own e.now) }
    ensures truth { IfOk result (λ proof. IfSome proof (λ e. IsTrue (is_predicate e))) }
    ensures refusal { let own = ⟦<Rules as OwnRules>⟧.own rules.now in
        IfErr result (IsRefusal (falsifying_causes own e.now)) }
{
    match e.parts() {
        Parts::Binary(Operator::And, left, right) => {
            let left = leaf_proof(alloc, left, rules)?;
            let right = leaf_proof(alloc, right, rules)?;
            joint(alloc, left, right)
        }
        Parts::Binary(Operator::Or, left, right) => {
            let left = leaf_proof(alloc, left, rules)?;
            let right = leaf_proof(alloc, right, rules)?;
            both(alloc, left, right)
        }
        Parts::Like(options, text, pattern) => {
            like_proof(alloc, options, text, pattern, e, rules)
        }
        _ => falsify(alloc, e, rules),
    }
}

/// Makes the proof that no row satisfies a predicate, by the rules and, where it has a LIKE of a
/// column with a literal, by that the column has one value alone, of which the LIKE isn't true.
pub(crate) fn form_proof(
    alloc: Global,
    e: &BoundExpression,
    rules: &Rules,
) -> Result<Option<BoundExpression>, StatsError>
    requires { IsTrue (is_predicate e.now) }
    ensures value { let own = ⟦<Rules as OwnRules>⟧.own rules.now in
        IfOk result (λ proof. proof ≡ spec.form_proof own e.now) }
    ensures truth { IfOk result (λ proof. IfSome proof (λ e. IsTrue (is_predicate e))) }
    ensures refusal { let own = ⟦<Rules as OwnRules>⟧.own rules.now in
        IfErr result (IsRefusal (falsifying_causes own e.now)) }
{
    if !has_column_like(e) {
        return falsify(alloc, e, rules);
    }
    let by_leaves = leaf_proof(alloc, e, rules)?;
    if rules.own.is_empty() {
        return Ok(by_leaves);
    }
    let by_rules = falsify(alloc, e, rules)?;
    joint(alloc, by_rules, by_leaves)
}
