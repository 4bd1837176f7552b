//! The rules of a user at one node.
ghost use Rattle.std.specs.Prelude.{◌≡◌, ◌∷◌, ◌++◌, [], IfErr, IfOk, MatchResult};
ghost use Rattle.vortex_expr.specs.Trees.Tree.{scalar_fn_of};
ghost use Rattle.vortex_rewrite.specs.HookFaults.{IsHookFault};
ghost use Rattle.vortex_rewrite.specs.Rewriting.Own.{own_rule, own_rules};
ghost use Rattle.vortex_rewrite.specs.Rewriting.Falsifiers.{asked, is_asked as is_some_asked, is_function, own_proofs};
ghost use Rattle.vortex_rewrite.specs.Causes.{IsRefusal};
ghost use Rattle.vortex_rewrite.specs.Rewriting.RuleRefusals.{rule_causes};
ghost use Rattle.vortex_rewrite.specs.Rewriting.Sides.{proof_of};

use crate::hook_fault::HookFault;
use crate::predicate::{Predicate, push_some};
use crate::rewrite::rule::StatsRewriteRule;
use crate::rewrite::rules::Rules;
use crate::rewrite::side::Side;
use std::alloc::Global;
use vortex_expr::bound_expression::BoundExpression;
use vortex_expr::scalar_fn::ScalarFnId;
use vortex_stats::error::{RuleFault, StatsError};

fn id_of(rule: &Box<dyn StatsRewriteRule>) -> ScalarFnId
    ensures { result ≡ (own_rule StatsRewriteRule-box rule.now).id }
{
    rule.scalar_fn_id()
}

fn ask_side(
    alloc: Global,
    side: Side,
    rule: &Box<dyn StatsRewriteRule>,
    e: &BoundExpression,
) -> Result<Option<BoundExpression>, HookFault>
    ensures { let own = own_rule StatsRewriteRule-box rule.now in
        MatchResult result (λ o. o ≡ proof_of side own e.now) (IsHookFault own.can_fault) }
{
    match side {
        Side::Falsify => rule.falsify(alloc, e),
        Side::Satisfy => rule.satisfy(alloc, e),
    }
}

fn is_for(rule: &Box<dyn StatsRewriteRule>, e: &BoundExpression) -> bool
    ensures { result ≡ is_function (scalar_fn_of e.now)
        (own_rule StatsRewriteRule-box rule.now).id }
{
    match e.scalar_fn_id() {
        Some(function) => function == id_of(rule),
        None => false,
    }
}

// Whether some rule of the user is one for an expression's function.
pub(crate) fn is_asked(rules: &Rules, e: &BoundExpression) -> bool
    ensures { let own = own_rules StatsRewriteRule-box rules.now.own.items in
        result ≡ is_some_asked own e.now }
{
    for rule in &rules.own {
        if is_for(rule, e) {
            return true;
        }
    }
    false
}

// The proof of an expression by one rule, if it is a rule for its function.
fn ask_rule(
    alloc: Global,
    side: Side,
    rule: &Box<dyn StatsRewriteRule>,
    e: &BoundExpression,
) -> Result<Option<Predicate>, StatsError>
    ensures { let own = own_rule StatsRewriteRule-box rule.now in
        MatchResult result (λ o. o ≡ asked (proof_of side) e.now own)
        (IsRefusal (rule_causes (proof_of side) (own ∷ []) (e.now ∷ []))) }
{
    if !is_for(rule, e) {
        return Ok(None);
    }
    match ask_side(alloc, side, rule, e) {
        Ok(None) => Ok(None),
        Ok(Some(proof)) => match Predicate::try_new(proof) {
            Some(proof) => Ok(Some(proof)),
            None => Err(StatsError::Rule(RuleFault::NotBool)),
        },
        Err(HookFault::Memory(refused)) => Err(StatsError::Memory(refused)),
        Err(HookFault::Own(fault)) => Err(StatsError::Rule(RuleFault::Own(fault))),
    }
}

// Appends what the user's rules prove of an expression, in their order.
pub(crate) fn ask_own(
    alloc: Global,
    side: Side,
    rules: &Rules,
    e: &BoundExpression,
    proofs: &mut Vec<Predicate>,
) -> Result<(), StatsError>
    ensures proofs { let own = own_rules StatsRewriteRule-box rules.now.own.items in
        IfOk result (λ _.
        proofs.new.items ≡ proofs.old.items ++ own_proofs (proof_of side) own e.now) }
    ensures refusal { let own = own_rules StatsRewriteRule-box rules.now.own.items in
        IfErr result (IsRefusal (rule_causes (proof_of side) own (e.now ∷ []))) }
{
    for rule in &rules.own {
        let proof = ask_rule(alloc, side, rule, e)?;
        push_some(proofs, proof)?;
    }
    Ok(())
}
