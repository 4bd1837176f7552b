//! Rules of a user, boxed and asked.
ghost use Rattle.std.specs.Prelude.{◌≡◌, Bool, Some, None, if◌then◌else◌};
ghost use Rattle.vortex_rewrite.specs.Rewriting.Falsifiers.{bool_literal};
ghost use Rattle.vortex_testing.specs.RuleExamples.{at_opposite};

use super::*;
use std::alloc::AllocError;
use std::process::Abort;
use vortex_expr::{Parts, ScalarFnId};
use vortex_rewrite::{HookFault, StatsRewriteRule, StatsRewriteRuleRef};
use vortex_stats::RuleFault;
use vortex_testing::hooks::{Claim, Claiming, ValueTests, truth_answer};

fn is_not_of(e: &BoundExpression, truth: bool) -> bool
    ensures { (answer : Bool) → at_opposite truth answer e.now
        ≡ (if result then Some (bool_literal answer) else None) }
{
    match e.parts() {
        Parts::Not(x) => match x.parts() {
            Parts::Literal(value) => match value.value() {
                Some(ScalarValue::Bool(b)) => *b == truth,
                _ => false,
            },
            _ => false,
        },
        _ => false,
    }
}

// Answers a literal for NOT TRUE, which no row satisfies, and for NOT FALSE, which every row does.
#[derive(Drop)]
struct Opposite {
    answer: bool,
}

impl StatsRewriteRule for Opposite {
    ghost use Rattle.std.specs.Prelude.{true, false};
    ghost use Rattle.vortex_expr.specs.declared.scalar_fn.ScalarFnId.TheVariants as function;
    ghost use Rattle.vortex_testing.specs.RuleExamples.{at_opposite, opposite_is_lawful};

    ghost id = { λ s. function.Not };

    ghost falsifier = { λ s. at_opposite true s.answer };

    ghost satisfier = { λ s. at_opposite false s.answer };

    ghost can_fault = { λ s k. false };

    ghost is_lawful = { λ s. opposite_is_lawful s.answer };

    fn scalar_fn_id(&self) -> ScalarFnId {
        ScalarFnId::Not
    }

    fn falsify(
        &self,
        alloc: Global,
        expression: &BoundExpression,
    ) -> Result<Option<BoundExpression>, HookFault> {
        if is_not_of(expression, true) {
            truth_answer(alloc, self.answer)
        } else {
            Ok(None)
        }
    }

    fn satisfy(
        &self,
        alloc: Global,
        expression: &BoundExpression,
    ) -> Result<Option<BoundExpression>, HookFault> {
        if is_not_of(expression, false) {
            truth_answer(alloc, self.answer)
        } else {
            Ok(None)
        }
    }
}

fn new_opposite(alloc: Global, answer: bool) -> Result<StatsRewriteRuleRef, AllocError> {
    Ok(Box::new(alloc, Opposite { answer })?)
}

fn new_claiming(
    alloc: Global,
    function: ScalarFnId,
    claim: Claim,
    fault: u32,
) -> Result<StatsRewriteRuleRef, AllocError> {
    let rule = Claiming {
        function,
        falsifier: claim,
        satisfier: claim,
        fault,
    };
    Ok(Box::new(alloc, rule)?)
}

// The built-in rules and then those that claim so of each expression of a function.
fn claiming(rt: &impl Abort, alloc: Global, claims: &[(ScalarFnId, Claim, u32)]) -> Rules {
    let mut rules = Rules::builtin(alloc);
    for (function, claim, fault) in claims {
        let rule = new_claiming(alloc, *function, *claim, *fault).expect(rt, "a rule");
        rules.push(rule).expect(rt, "rules");
    }
    rules
}

// Both calls meet the rule's fault of this number.
fn expect_fault(rt: &impl Abort, alloc: Global, rules: &Rules, predicate: Built, fault: u32) {
    let predicate = predicate.expect(rt, "predicate");
    let told = falsify(alloc, &predicate, rules);
    assert!(rt; matches!(told, Err(StatsError::Rule(RuleFault::Own(own))) if own == fault));
    let told = satisfy(alloc, &predicate, rules);
    assert!(rt; matches!(told, Err(StatsError::Rule(RuleFault::Own(own))) if own == fault));
}

// Both calls are refused for a rule's proof that is no truth.
fn expect_not_bool(rt: &impl Abort, alloc: Global, rules: &Rules, predicate: Built) {
    let predicate = predicate.expect(rt, "predicate");
    let told = falsify(alloc, &predicate, rules);
    assert!(rt; matches!(told, Err(StatsError::Rule(RuleFault::NotBool))));
    let told = satisfy(alloc, &predicate, rules);
    assert!(rt; matches!(told, Err(StatsError::Rule(RuleFault::NotBool))));
}

fn not_true(alloc: Global) -> Built {
    not(alloc, truth(alloc, true))
}

fn null_test(alloc: Global) -> Built {
    is_null(alloc, a(alloc))
}

// The built-in rules and two of a user's own.
fn two_opposites(rt: &impl Abort, alloc: Global) -> Rules {
    let mut rules = Rules::builtin(alloc);
    for truth in [false, true] {
        let rule = new_opposite(alloc, truth).expect(rt, "a rule");
        rules.push(rule).expect(rt, "rules");
    }
    rules
}

#[test]
fn proofs_of_two_rules_are_joined(rt: HostRuntime) {
    let alloc = rt.alloc();
    let rules = two_opposites(&rt, alloc);
    let either = or(alloc, truth(alloc, false), truth(alloc, true)).expect(&rt, "either");
    let not_true = not_true(alloc).expect(&rt, "a predicate");
    assert!(rt; falsify(alloc, &not_true, &rules).expect(&rt, "a falsifier") == Some(either));
    assert!(rt;
        satisfy(alloc, &not_true, &rules)
            .expect(&rt, "no satisfier")
            .is_none()
    );
}

fn not_false(alloc: Global) -> Built {
    not(alloc, truth(alloc, false))
}

#[test]
fn satisfiers_of_two_rules_are_joined(rt: HostRuntime) {
    let alloc = rt.alloc();
    let rules = two_opposites(&rt, alloc);
    let either = or(alloc, truth(alloc, false), truth(alloc, true)).expect(&rt, "either");
    let not_false = not_false(alloc).expect(&rt, "a predicate");
    assert!(rt; satisfy(alloc, &not_false, &rules).expect(&rt, "a satisfier") == Some(either));
    assert!(rt;
        falsify(alloc, &not_false, &rules)
            .expect(&rt, "no falsifier")
            .is_none()
    );
}

// A rule's proof may hold placeholders, and be true by what answers them.
#[test]
fn a_rule_proves_by_placeholders(rt: HostRuntime) {
    let alloc = rt.alloc();
    let mut rules = Rules::builtin(alloc);
    let rule = Box::new(alloc, ValueTests).expect(&rt, "a rule");
    rules.push(rule).expect(&rt, "rules");
    let all_null = stat(alloc, a(alloc), AggregateFnRef::AllNull);
    let predicate = not(alloc, null_test(alloc));
    expect_proofs(
        &rt,
        &rules,
        alloc,
        predicate,
        (all_null, all_non_null(alloc)),
    );
}

// A column of truths is of type Bool: rewriting takes it for a proof, though no scan does.
#[test]
fn a_bare_column_is_answered(rt: HostRuntime) {
    let alloc = rt.alloc();
    let rules = claiming(&rt, alloc, &[(ScalarFnId::Not, Claim::Column(0), 3)]);
    let proofs = (col(alloc, 0, BOOL), col(alloc, 0, BOOL));
    expect_proofs(&rt, &rules, alloc, not_true(alloc), proofs);
}

// A proof, and then the one that is false.
fn and_unsure(alloc: Global, proof: Built) -> Built {
    or(alloc, proof, truth(alloc, false))
}

// The falsifier and the satisfier of a range from 10 to 50, where a rule that is false is asked at
// its comparisons.
fn unsure_range(alloc: Global) -> (Built, Built) {
    let low = and_unsure(alloc, gt(alloc, int(alloc, 10), max(alloc, a(alloc))));
    let high = and_unsure(alloc, gt(alloc, min(alloc, a(alloc)), int(alloc, 50)));
    let falsifier = and_unsure(alloc, or(alloc, low, high));
    let low = lt_eq(alloc, int(alloc, 10), min(alloc, a(alloc)));
    let low = and_unsure(alloc, and(alloc, low, all_non_null(alloc)));
    let high = lt_eq(alloc, max(alloc, a(alloc)), int(alloc, 50));
    let high = and_unsure(alloc, and(alloc, high, all_non_null(alloc)));
    (falsifier, and_unsure(alloc, and(alloc, low, high)))
}

// Strict ends are moved first, and the rules are asked at the comparisons as they then stand.
#[test]
fn rules_are_asked_within_a_between(rt: HostRuntime) {
    let alloc = rt.alloc();
    let rules = claiming(&rt, alloc, &[(ScalarFnId::Binary, Claim::False, 3)]);
    expect_proofs(&rt, &rules, alloc, range(alloc, 9, 51), unsure_range(alloc));
}

// A node is asked about after its children, wherever its rule stands in the list.
#[test]
fn children_are_asked_before_their_parent(rt: HostRuntime) {
    use ScalarFnId::{Between, Binary, IsNull, Not};
    let alloc = rt.alloc();
    let rules = claiming(
        &rt,
        alloc,
        &[(Binary, Claim::Fault, 5), (Not, Claim::Fault, 3)],
    );
    let e = and(alloc, not_true(alloc), truth(alloc, true));
    expect_fault(&rt, alloc, &rules, e, 3);
    let e = or(alloc, truth(alloc, true), not_true(alloc));
    expect_fault(&rt, alloc, &rules, e, 3);
    // The AND on the left is asked about before the NOT on the right.
    let left = and(alloc, truth(alloc, true), truth(alloc, true));
    expect_fault(&rt, alloc, &rules, or(alloc, left, not_true(alloc)), 5);
    let rules = claiming(
        &rt,
        alloc,
        &[(IsNull, Claim::Fault, 4), (Not, Claim::Fault, 3)],
    );
    let e = and(alloc, not_true(alloc), null_test(alloc));
    expect_fault(&rt, alloc, &rules, e, 3);
    let e = or(alloc, null_test(alloc), not_true(alloc));
    expect_fault(&rt, alloc, &rules, e, 4);
    let rules = claiming(
        &rt,
        alloc,
        &[(Between, Claim::Fault, 5), (Binary, Claim::Fault, 3)],
    );
    expect_fault(&rt, alloc, &rules, range(alloc, 3, 5), 3);
    // An empty BETWEEN is asked about for itself alone.
    expect_fault(&rt, alloc, &rules, range(alloc, 3, 4), 5);
}

#[test]
fn rules_of_one_node_are_asked_in_their_order(rt: HostRuntime) {
    use ScalarFnId::Not;
    let alloc = rt.alloc();
    let rules = claiming(
        &rt,
        alloc,
        &[(Not, Claim::Fault, 4), (Not, Claim::Fault, 3)],
    );
    expect_fault(&rt, alloc, &rules, not_true(alloc), 4);
    let rules = claiming(
        &rt,
        alloc,
        &[(Not, Claim::Number, 4), (Not, Claim::Fault, 3)],
    );
    expect_not_bool(&rt, alloc, &rules, not_true(alloc));
    let rules = claiming(
        &rt,
        alloc,
        &[(Not, Claim::Fault, 4), (Not, Claim::Number, 3)],
    );
    expect_fault(&rt, alloc, &rules, not_true(alloc), 4);
    // A proof of the first doesn't keep the second from being asked.
    let rules = claiming(
        &rt,
        alloc,
        &[(Not, Claim::False, 4), (Not, Claim::Fault, 3)],
    );
    expect_fault(&rt, alloc, &rules, not_true(alloc), 3);
}

// A rule that faults wherever it is asked is met at a node of its function, by both calls.
fn expect_asked(rt: &impl Abort, alloc: Global, function: ScalarFnId, predicate: Built) {
    let rules = claiming(rt, alloc, &[(function, Claim::Fault, 5)]);
    expect_fault(rt, alloc, &rules, predicate, 5);
}

#[test]
fn rules_are_asked_at_each_function(rt: HostRuntime) {
    let alloc = rt.alloc();
    expect_asked(&rt, alloc, ScalarFnId::Literal, truth(alloc, true));
    expect_asked(
        &rt,
        alloc,
        ScalarFnId::Binary,
        eq(alloc, a(alloc), b(alloc)),
    );
    expect_asked(&rt, alloc, ScalarFnId::Between, range(alloc, 1, 9));
    expect_asked(&rt, alloc, ScalarFnId::IsNull, null_test(alloc));
    expect_asked(
        &rt,
        alloc,
        ScalarFnId::IsNotNull,
        is_not_null(alloc, a(alloc)),
    );
    expect_asked(&rt, alloc, ScalarFnId::Not, not_true(alloc));
    expect_asked(
        &rt,
        alloc,
        ScalarFnId::Like,
        like(alloc, s(alloc), text(alloc, "x%")),
    );
    expect_asked(&rt, alloc, ScalarFnId::Stat, all_non_null(alloc));
}

// The proofs of 64 rules at one node are joined beside the built-in one.
#[test]
fn many_rules_at_one_node(rt: HostRuntime) {
    let alloc = rt.alloc();
    let mut own = Vec::new(alloc);
    for _ in 0..64 {
        let rule = new_claiming(alloc, ScalarFnId::Binary, Claim::False, 3).expect(&rt, "a rule");
        own.push(rule).expect(&rt, "rules");
    }
    let rules = Rules::with_own(own);
    let above = gt(alloc, a(alloc), int(alloc, 10)).expect(&rt, "a predicate");
    assert!(rt;
        falsify(alloc, &above, &rules)
            .expect(&rt, "a falsifier")
            .is_some()
    );
    assert!(rt;
        satisfy(alloc, &above, &rules)
            .expect(&rt, "a satisfier")
            .is_some()
    );
}
