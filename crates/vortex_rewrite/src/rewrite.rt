//! Predicates rewritten into proofs over statistics.
ghost use Rattle.std.specs.Prelude.{◌≡◌, ◌-◌, ◌^◌, min, Err, IfErr, IfOk, IfSome, IsTrue, false};
ghost use Rattle.vortex_stats.specs.declared.error.StatsError.TheVariants.{NotPredicate};
ghost use Rattle.vortex_rewrite.specs.Causes.{IsRefusal};
ghost use Rattle.vortex_rewrite.specs.Rewriting.Own.{own_rules};
ghost use Rattle.vortex_rewrite.specs.Rewriting.Predicates.{is_predicate};
ghost use Rattle.vortex_rewrite.specs.Rewriting.Falsifiers.{falsifier as falsifier_of, satisfier as satisfier_of, visits as visits_of};
ghost use Rattle.vortex_rewrite.specs.Rewriting.RuleRefusals.{rule_causes};
ghost use Rattle.vortex_rewrite.specs.Rewriting.Visited.{visited};

mod builtins;
mod engine;
pub(crate) mod nodes;
mod reduce;
pub mod rule;
pub mod rules;
mod side;
mod user_rules;

use crate::predicate::{Predicate, is_truth};
use crate::rewrite::engine::rewrite_node;
use crate::rewrite::rule::StatsRewriteRule;
use crate::rewrite::rules::Rules;
use crate::rewrite::side::Side;
use std::alloc::Global;
use vortex_expr::bound_expression::BoundExpression;
use vortex_stats::error::StatsError;

fn into_expression(proof: Option<Predicate>) -> Option<BoundExpression>
    ensures value { result ≡ proof }
    ensures truth { IfSome result (λ e. IsTrue (is_predicate e)) }
{
    match proof {
        Some(proof) => Some(proof.into_expression()),
        None => None,
    }
}

/// A proof over statistics that no row satisfies the predicate, if the rules have one.
/// `NotPredicate` if the expression isn't of type Bool, which is found before anything is taken;
/// `Rule` if a rule of the user failed, or proved by an expression that isn't of type Bool.
pub fn falsify(
    alloc: Global,
    predicate: &BoundExpression,
    rules: &Rules,
) -> Result<Option<BoundExpression>, StatsError>
    ensures not_predicate { is_predicate predicate.now ≡ false → result ≡ Err NotPredicate }
    ensures answer { let own = own_rules StatsRewriteRule-box rules.now.own.items in
        IfOk result (λ proof. proof ≡ falsifier_of own predicate.now) }
    ensures truth { IfOk result (λ proof. IfSome proof (λ e. IsTrue (is_predicate e))) }
    ensures refusal { let own = own_rules StatsRewriteRule-box rules.now.own.items in
        IsTrue (is_predicate predicate.now) → IfErr result (IsRefusal
        (rule_causes (λ rule. rule.falsifier) own (visited predicate.now))) }
{
    let (proof, _visits) = falsify_counted(alloc, predicate, rules)?;
    Ok(proof)
}

/// The falsifier, as [`falsify`] answers it, and the number of the engine's turns, which stays at
/// the greatest number once it is reached. A turn is the rewriting of one node.
pub fn falsify_counted(
    alloc: Global,
    predicate: &BoundExpression,
    rules: &Rules,
) -> Result<(Option<BoundExpression>, u64), StatsError>
    ensures not_predicate { is_predicate predicate.now ≡ false → result ≡ Err NotPredicate }
    ensures answer { let own = own_rules StatsRewriteRule-box rules.now.own.items in
        IfOk result (λ r. r.0 ≡ falsifier_of own predicate.now) }
    ensures visits { IfOk result (λ r. r.1 ≡ min (visits_of predicate.now) (2 ^ 64 - 1)) }
    ensures truth { IfOk result (λ r. IfSome r.0 (λ e. IsTrue (is_predicate e))) }
    ensures refusal { let own = own_rules StatsRewriteRule-box rules.now.own.items in
        IsTrue (is_predicate predicate.now) → IfErr result (IsRefusal
        (rule_causes (λ rule. rule.falsifier) own (visited predicate.now))) }
{
    if !is_truth(predicate) {
        return Err(StatsError::NotPredicate);
    }
    let mut visits = 0;
    let proof = rewrite_node(alloc, Side::Falsify, rules, predicate, &mut visits)?;
    Ok((into_expression(proof), visits))
}

/// A proof over statistics that every row satisfies the predicate, if the rules have one. It comes
/// of the same nodes as that of `falsify`, and refusals are those of `falsify`.
pub fn satisfy(
    alloc: Global,
    predicate: &BoundExpression,
    rules: &Rules,
) -> Result<Option<BoundExpression>, StatsError>
    ensures not_predicate { is_predicate predicate.now ≡ false → result ≡ Err NotPredicate }
    ensures answer { let own = own_rules StatsRewriteRule-box rules.now.own.items in
        IfOk result (λ proof. proof ≡ satisfier_of own predicate.now) }
    ensures truth { IfOk result (λ proof. IfSome proof (λ e. IsTrue (is_predicate e))) }
    ensures refusal { let own = own_rules StatsRewriteRule-box rules.now.own.items in
        IsTrue (is_predicate predicate.now) → IfErr result (IsRefusal
        (rule_causes (λ rule. rule.satisfier) own (visited predicate.now))) }
{
    if !is_truth(predicate) {
        return Err(StatsError::NotPredicate);
    }
    let mut turns = 0;
    let proof = rewrite_node(alloc, Side::Satisfy, rules, predicate, &mut turns)?;
    Ok(into_expression(proof))
}
