//! The engine: it rewrites a predicate into a proof, node by node.
ghost use Rattle.std.specs.Prelude.{◌≡◌, ◌+◌, ◌-◌, ◌^◌, ◌∷◌, [], min, IfErr, IfOk, IsOk, option_map};
ghost use Rattle.vortex_expr.specs.Trees.Tree as tree;
ghost use Rattle.vortex_expr.specs.Meanings.Typing.{type_of};
ghost use Rattle.vortex_rewrite.specs.Causes.{IsRefusal};
ghost use Rattle.vortex_rewrite.specs.Rewriting.Own.{own_rules};
ghost use Rattle.vortex_rewrite.specs.Rewriting.BuiltIn.{listed};
ghost use Rattle.vortex_rewrite.specs.Rewriting.Falsifiers.{ends as ends_of, halves as halves_of, proved, rewriting, visits as visits_of};
ghost use Rattle.vortex_rewrite.specs.Rewriting.RuleRefusals.{rule_causes};
ghost use Rattle.vortex_rewrite.specs.Rewriting.Sides.{proof_of};
ghost use Rattle.vortex_rewrite.specs.Rewriting.Visited.{visited};
ghost use Rattle.vortex_rewrite.specs.Answers.{Makes};

use crate::built::cloned;
use crate::predicate::{Predicate, push_some};
use crate::rewrite::builtins::between::ends;
use crate::rewrite::builtins::comparison::{comparison_proof, either_joined};
use crate::rewrite::builtins::{BuiltIn, and_proof, empty_proof, or_proof, table_proofs};
use crate::rewrite::reduce::reduce_balanced;
use crate::rewrite::rule::StatsRewriteRule;
use crate::rewrite::rules::Rules;
use crate::rewrite::side::Side;
use crate::rewrite::user_rules::{ask_own, is_asked};
use std::alloc::Global;
use vortex_expr::bound_expression::BoundExpression;
use vortex_expr::bound_expression::parts::Parts;
use vortex_expr::scalar_fn::{BetweenOptions, Operator};
use vortex_stats::error::StatsError;

// The proof at one node: the built-in ones and then those of the user's rules, joined. Where no
// rule of the user is asked no list is made.
fn node(
    alloc: Global,
    side: Side,
    rules: &Rules,
    e: &BoundExpression,
    built_in: BuiltIn,
) -> Result<Option<Predicate>, StatsError>
    ensures answer { let own = own_rules StatsRewriteRule-box rules.now.own.items in
        IfOk result (λ o. o ≡ proved side own e.now (listed built_in.0 built_in.1)) }
    ensures refusal { let own = own_rules StatsRewriteRule-box rules.now.own.items in
        IfErr result (IsRefusal (rule_causes (proof_of side) own (e.now ∷ []))) }
{
    if !is_asked(rules, e) {
        return either_joined(alloc, Operator::Or, built_in.0, built_in.1);
    }
    let mut proofs = Vec::new(alloc);
    push_some(&mut proofs, built_in.0)?;
    push_some(&mut proofs, built_in.1)?;
    ask_own(alloc, side, rules, e, &mut proofs)?;
    reduce_balanced(alloc, proofs)
}

// The AND of the two comparisons that a BETWEEN stands for.
fn both_halves(
    alloc: Global,
    options: BetweenOptions,
    x: &BoundExpression,
    lower: &BoundExpression,
    upper: &BoundExpression,
) -> Result<BoundExpression, StatsError>
    requires { IsOk (type_of (tree.between options x.now lower.now upper.now)) }
    ensures { Makes (halves_of options x.now lower.now upper.now) result }
{
    let low = Predicate::binary(
        alloc,
        options.lower_strict.to_operator(),
        cloned(lower)?,
        cloned(x)?,
    )?;
    let high = Predicate::binary(
        alloc,
        options.upper_strict.to_operator(),
        cloned(x)?,
        cloned(upper)?,
    )?;
    Ok(Predicate::connect(alloc, Operator::And, low, high)?.into_expression())
}

// The AND of the two comparisons that a BETWEEN stands for, at its moved ends; none, if its ends
// are literals between which no value lies.
fn halves(
    alloc: Global,
    options: BetweenOptions,
    x: &BoundExpression,
    lower: &BoundExpression,
    upper: &BoundExpression,
) -> Result<Option<BoundExpression>, StatsError>
    requires { IsOk (type_of (tree.between options x.now lower.now upper.now)) }
    ensures { Makes (option_map (λ e. halves_of e.options x.now e.lower e.upper)
        (ends_of options lower.now upper.now)) result }
{
    match ends(alloc, options, lower, upper)? {
        None => Ok(None),
        Some((options, lower, upper)) => {
            Ok(Some(both_halves(alloc, options, x, &lower, &upper)?))
        }
    }
}

// The proof of an expression, that no row satisfies it or that every row does, if there is one.
// Each call is a turn, and is counted as it begins.
pub(crate) fn rewrite_node(
    alloc: Global,
    side: Side,
    rules: &Rules,
    e: &BoundExpression,
    visits: &mut u64,
) -> Result<Option<Predicate>, StatsError>
    ensures answer { let own = own_rules StatsRewriteRule-box rules.now.own.items in
        IfOk result (λ o. o ≡ rewriting side own e.now) }
    ensures visits { IfOk result (λ _.
        visits.new ≡ min (visits.old + visits_of e.now) (2 ^ 64 - 1)) }
    ensures refusal { let own = own_rules StatsRewriteRule-box rules.now.own.items in
        IfErr result (IsRefusal (rule_causes (proof_of side) own (visited e.now))) }
{
    *visits = visits.saturating_add(1);
    // That the expression has a type.
    let _typed = e.dtype();
    match e.parts() {
        Parts::Binary(operator, left, right) => match operator {
            Operator::And => {
                let left = rewrite_node(alloc, side, rules, left, visits)?;
                let right = rewrite_node(alloc, side, rules, right, visits)?;
                let joined = and_proof(alloc, side, left, right)?;
                node(alloc, side, rules, e, (joined, None))
            }
            Operator::Or => {
                let left = rewrite_node(alloc, side, rules, left, visits)?;
                let right = rewrite_node(alloc, side, rules, right, visits)?;
                let joined = or_proof(alloc, side, left, right)?;
                node(alloc, side, rules, e, (joined, None))
            }
            _ => {
                let compared = comparison_proof(alloc, side, operator, left, right)?;
                node(alloc, side, rules, e, (compared, None))
            }
        },
        Parts::Between(options, x, lower, upper) => {
            let halves = halves(alloc, options, x, lower, upper)?;
            let proof = match halves {
                None => empty_proof(alloc, side)?,
                Some(halves) => rewrite_node(alloc, side, rules, &halves, visits)?,
            };
            node(alloc, side, rules, e, (proof, None))
        }
        _ => node(alloc, side, rules, e, table_proofs(alloc, side, e)?),
    }
}
