//! Scans by rules of a user, whose proofs rest on a type or on facts of a part.
ghost use Rattle.std.specs.Prelude.{◌≡◌, true, Some, None, if◌then◌else◌};
ghost use Rattle.vortex_rewrite.specs.Rewriting.Falsifiers.{bool_literal};
ghost use Rattle.vortex_prune_tests.specs.RuleExamples.{at_null_test};

use super::*;
use vortex_expr::{BoundExpression, Parts};
use vortex_prune::{HookFault, StatsRewriteRule};
use vortex_testing::hooks::{ValueTests, truth_answer};

// Whether it is IS NULL of a column whose type has no null.
fn is_test_of_values(e: &BoundExpression) -> bool
    ensures { at_null_test e.now ≡ (if result then Some (bool_literal true) else None) }
{
    match e.parts() {
        Parts::IsNull(x) => match x.parts() {
            Parts::Column(_, dtype) => !dtype.is_nullable(),
            _ => false,
        },
        _ => false,
    }
}

// Proves that no row is null, of a column whose type has no null.
#[derive(Drop)]
struct Declared;

impl StatsRewriteRule for Declared {
    ghost use Rattle.std.specs.Prelude.{false};
    ghost use Rattle.vortex_expr.specs.declared.scalar_fn.ScalarFnId.TheVariants as function;
    ghost use Rattle.vortex_prune_tests.specs.RuleExamples.{at_null_test, no_proof};
    ghost use Rattle.vortex_prune_tests.specs.RuleExamples.{null_test_is_lawful};

    ghost id = { λ s. function.IsNull };

    ghost falsifier = { λ s. at_null_test };

    ghost satisfier = { λ s. no_proof };

    ghost can_fault = { λ s k. false };

    ghost is_lawful = { λ s. null_test_is_lawful };

    fn scalar_fn_id(&self) -> ScalarFnId {
        ScalarFnId::IsNull
    }

    fn falsify(
        &self,
        alloc: Global,
        expression: &BoundExpression,
    ) -> Result<Option<BoundExpression>, HookFault> {
        if is_test_of_values(expression) {
            truth_answer(alloc, true)
        } else {
            Ok(None)
        }
    }

    fn satisfy(
        &self,
        _alloc: Global,
        _expression: &BoundExpression,
    ) -> Result<Option<BoundExpression>, HookFault> {
        Ok(None)
    }
}

// The table of one number, of a type without null.
fn table_of_values(alloc: Global) -> Table {
    let column = column(I32, numbers(alloc, &[Some(1)]), 0);
    let chunk = chunk_of(alloc, scope_of(alloc, I32), column);
    let part = part_of(alloc, chunk, Ok(no_statistics(alloc)));
    zones_of(alloc, scope_of(alloc, I32), one_part(alloc, part))
}

fn null_test(alloc: Global) -> Built {
    is_null(alloc, col(alloc, 0, I32))
}

fn declared_rules(alloc: Global) -> Result<Rules, AllocError> {
    rules_of(alloc, Box::new(alloc, Declared)?)
}

#[test]
fn a_rule_may_rest_on_a_type(rt: HostRuntime) {
    let alloc = rt.alloc();
    let rules = declared_rules(alloc).expect(&rt, "rules");
    let parts = table_of_values(alloc);
    let found = scanned_by(alloc, &parts, null_test(alloc), &rules);
    expect_found(&rt, found, &[0], &[]);
    expect_found(&rt, scanned(alloc, &parts, null_test(alloc)), &[], &[]);
}

fn value_test_rules(alloc: Global) -> Result<Rules, AllocError> {
    rules_of(alloc, Box::new(alloc, ValueTests)?)
}

// The scan for rows of which it is said that they aren't null, by a rule for that.
fn scanned_for_values(alloc: Global, rows: &[Option<i32>], nulls: u64) -> Found {
    let rules = value_test_rules(alloc)?;
    let set = exactly(alloc, Stat::NullCount, count(nulls));
    let parts = table_of_numbers(alloc, rows, Ok(set));
    scanned_by(alloc, &parts, not(alloc, is_null(alloc, a(alloc))), &rules)
}

// The rule's proofs are true by facts of the part: that all rows are null, or that none is.
#[test]
fn a_rule_may_rest_on_facts(rt: HostRuntime) {
    let alloc = rt.alloc();
    let found = scanned_for_values(alloc, &[None, None], 2).expect(&rt, "found");
    assert!(rt; has_found(&found, &[0], &[], &[]));
    let found = scanned_for_values(alloc, &[Some(1), Some(2)], 0).expect(&rt, "found");
    assert!(rt; has_found(&found, &[], &[0], &[(0, 0), (0, 1)]));
    let found = scanned_for_values(alloc, &[Some(1), None], 1).expect(&rt, "found");
    assert!(rt; has_found(&found, &[], &[], &[(0, 0)]));
}
