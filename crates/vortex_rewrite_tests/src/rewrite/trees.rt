//! The falsifiers and satisfiers of predicates by the built-in rules, each as a whole tree.
use super::*;

fn t(alloc: Global) -> Built {
    col(alloc, 3, UTF8)
}

// The predicate has this falsifier by the built-in rules.
fn expect_falsifier(rt: &impl Abort, alloc: Global, predicate: Built, falsifier: Built) {
    let predicate = predicate.expect(rt, "a predicate");
    let found = falsify(alloc, &predicate, &Rules::builtin(alloc)).expect(rt, "a falsifier");
    assert!(rt; found == Some(falsifier.expect(rt, "falsifier")));
}

// The predicate has this satisfier by the built-in rules.
fn expect_satisfier(rt: &impl Abort, alloc: Global, predicate: Built, satisfier: Built) {
    let predicate = predicate.expect(rt, "a predicate");
    let found = satisfy(alloc, &predicate, &Rules::builtin(alloc)).expect(rt, "a satisfier");
    assert!(rt; found == Some(satisfier.expect(rt, "satisfier")));
}

// The predicate has neither proof by the built-in rules.
fn expect_no_proofs(rt: &impl Abort, alloc: Global, predicate: Built) {
    let (predicate, rules) = (predicate.expect(rt, "a predicate"), Rules::builtin(alloc));
    assert!(rt;
        falsify(alloc, &predicate, &rules)
            .expect(rt, "an answer")
            .is_none()
    );
    assert!(rt;
        satisfy(alloc, &predicate, &rules)
            .expect(rt, "an answer")
            .is_none()
    );
}

#[test]
fn equal_columns_are_falsified_by_both_pairs(rt: HostRuntime) {
    let alloc = rt.alloc();
    let above = gt(alloc, min(alloc, a(alloc)), max(alloc, b(alloc)));
    let below = gt(alloc, min(alloc, b(alloc)), max(alloc, a(alloc)));
    let numbers = eq(alloc, a(alloc), b(alloc));
    expect_falsifier(&rt, alloc, numbers, or(alloc, above, below));
    let above = gt(alloc, min(alloc, s(alloc)), max(alloc, t(alloc)));
    let below = gt(alloc, min(alloc, t(alloc)), max(alloc, s(alloc)));
    let texts = eq(alloc, s(alloc), t(alloc));
    expect_falsifier(&rt, alloc, texts, or(alloc, above, below));
}

#[test]
fn a_comparison_with_null_has_its_falsifier(rt: HostRuntime) {
    let alloc = rt.alloc();
    let above = gt(alloc, min(alloc, a(alloc)), null_of(alloc, I32));
    let below = gt(alloc, null_of(alloc, I32), max(alloc, a(alloc)));
    let null = eq(alloc, a(alloc), null_of(alloc, I32));
    expect_falsifier(&rt, alloc, null, or(alloc, above, below));
}

#[test]
fn connectives_are_falsified_by_each_other(rt: HostRuntime) {
    let alloc = rt.alloc();
    let low = gt(alloc, a(alloc), int(alloc, 10));
    let high = lt(alloc, a(alloc), int(alloc, 50));
    let below = lt_eq(alloc, max(alloc, a(alloc)), int(alloc, 10));
    let above = gt_eq(alloc, min(alloc, a(alloc)), int(alloc, 50));
    expect_falsifier(&rt, alloc, and(alloc, low, high), or(alloc, below, above));
    let high = gt(alloc, a(alloc), int(alloc, 10));
    let low = lt(alloc, a(alloc), int(alloc, 5));
    let below = lt_eq(alloc, max(alloc, a(alloc)), int(alloc, 10));
    let above = gt_eq(alloc, min(alloc, a(alloc)), int(alloc, 5));
    expect_falsifier(&rt, alloc, or(alloc, high, low), and(alloc, below, above));
}

#[test]
fn a_range_is_falsified_by_either_end(rt: HostRuntime) {
    let alloc = rt.alloc();
    let ends = (int(alloc, 10), int(alloc, 50));
    let range = between(alloc, a(alloc), ends.0, ends.1, CLOSED);
    let below = gt(alloc, int(alloc, 10), max(alloc, a(alloc)));
    let above = gt(alloc, min(alloc, a(alloc)), int(alloc, 50));
    expect_falsifier(&rt, alloc, range, or(alloc, below, above));
}

#[test]
fn strict_ends_of_numbers_are_moved(rt: HostRuntime) {
    let alloc = rt.alloc();
    let ends = (int(alloc, 3), int(alloc, 10));
    let range = between(alloc, a(alloc), ends.0, ends.1, OPEN_BELOW);
    let below = gt(alloc, int(alloc, 4), max(alloc, a(alloc)));
    let above = gt(alloc, min(alloc, a(alloc)), int(alloc, 10));
    expect_falsifier(&rt, alloc, range, or(alloc, below, above));
    expect_falsifier(&rt, alloc, super::range(alloc, 3, 4), truth(alloc, true));
    let ends = (int(alloc, 50), int(alloc, 10));
    let crossed = between(alloc, a(alloc), ends.0, ends.1, CLOSED);
    expect_falsifier(&rt, alloc, crossed, truth(alloc, true));
}

#[test]
fn null_tests_are_proved_by_counts_and_by_all(rt: HostRuntime) {
    let alloc = rt.alloc();
    let nulls = stat(alloc, a(alloc), AggregateFnRef::NullCount);
    let none = eq(alloc, nulls, lit(alloc, U64, count(0)));
    let none_null = or(alloc, none, all_non_null(alloc));
    expect_falsifier(&rt, alloc, is_null(alloc, a(alloc)), none_null);
    let nulls = stat(alloc, a(alloc), AggregateFnRef::NullCount);
    let all = eq(alloc, nulls, row_count(alloc));
    let all_null = or(alloc, all, stat(alloc, a(alloc), AggregateFnRef::AllNull));
    expect_satisfier(&rt, alloc, is_null(alloc, a(alloc)), all_null);
}

#[test]
fn value_tests_are_proved_by_counts_and_by_all(rt: HostRuntime) {
    let alloc = rt.alloc();
    let nulls = stat(alloc, a(alloc), AggregateFnRef::NullCount);
    let all = eq(alloc, nulls, row_count(alloc));
    let all_null = or(alloc, all, stat(alloc, a(alloc), AggregateFnRef::AllNull));
    expect_falsifier(&rt, alloc, is_not_null(alloc, a(alloc)), all_null);
    let nulls = stat(alloc, a(alloc), AggregateFnRef::NullCount);
    let none = eq(alloc, nulls, lit(alloc, U64, count(0)));
    let none_null = or(alloc, none, all_non_null(alloc));
    expect_satisfier(&rt, alloc, is_not_null(alloc, a(alloc)), none_null);
}

// Texts like the pattern lie from its prefix on and below the successor.
fn expect_prefix(rt: &impl Abort, alloc: Global, pattern: &str, prefix: &str, successor: &str) {
    let above = gt_eq(alloc, min(alloc, s(alloc)), text(alloc, successor));
    let below = lt(alloc, max(alloc, s(alloc)), text(alloc, prefix));
    let begins = like(alloc, s(alloc), text(alloc, pattern));
    expect_falsifier(rt, alloc, begins, or(alloc, above, below));
}

#[test]
fn patterns_are_falsified_by_their_prefixes(rt: HostRuntime) {
    let alloc = rt.alloc();
    expect_prefix(&rt, alloc, "prefix%", "prefix", "prefiy");
    expect_prefix(&rt, alloc, "\\%%", "%", "&");
    expect_prefix(&rt, alloc, "pref%ix%", "pref", "preg");
    expect_prefix(&rt, alloc, "pref_ix_", "pref", "preg");
    expect_prefix(&rt, alloc, "a\u{10FFFF}%", "a\u{10FFFF}", "b");
}

// The pattern is the exact text.
fn expect_exact(rt: &impl Abort, alloc: Global, exact: &str) {
    let above = gt(alloc, min(alloc, s(alloc)), text(alloc, exact));
    let below = lt(alloc, max(alloc, s(alloc)), text(alloc, exact));
    let same = like(alloc, s(alloc), text(alloc, exact));
    expect_falsifier(rt, alloc, same, or(alloc, above, below));
}

#[test]
fn patterns_without_wildcards_are_exact_texts(rt: HostRuntime) {
    expect_exact(&rt, rt.alloc(), "exact");
    expect_exact(&rt, rt.alloc(), "");
}

#[test]
fn patterns_without_a_prefix_have_no_proof(rt: HostRuntime) {
    let alloc = rt.alloc();
    expect_no_proofs(&rt, alloc, like(alloc, s(alloc), text(alloc, "%suffix")));
    let last = like(alloc, s(alloc), text(alloc, "\u{10FFFF}%"));
    expect_no_proofs(&rt, alloc, last);
}

#[test]
fn literals_are_proved_by_themselves(rt: HostRuntime) {
    let alloc = rt.alloc();
    expect_falsifier(&rt, alloc, truth(alloc, false), truth(alloc, true));
    expect_satisfier(&rt, alloc, truth(alloc, false), truth(alloc, false));
    expect_no_proofs(&rt, alloc, null_of(alloc, BOOL));
}

#[test]
fn negations_have_no_proof(rt: HostRuntime) {
    let alloc = rt.alloc();
    expect_no_proofs(&rt, alloc, not(alloc, truth(alloc, true)));
    expect_no_proofs(&rt, alloc, not(alloc, truth(alloc, false)));
}

#[test]
fn a_number_is_no_predicate(rt: HostRuntime) {
    let (alloc, rules) = (rt.alloc(), Rules::builtin(rt.alloc()));
    let seven = int(alloc, 7).expect(&rt, "a number");
    let refused = falsify(alloc, &seven, &rules);
    assert!(rt; matches!(refused, Err(StatsError::NotPredicate)));
    let refused = satisfy(alloc, &seven, &rules);
    assert!(rt; matches!(refused, Err(StatsError::NotPredicate)));
    let refused = falsify_counted(alloc, &seven, &rules);
    assert!(rt; matches!(refused, Err(StatsError::NotPredicate)));
}

// One visit for each comparison and each OR.
#[test]
fn a_chain_of_sixteen_is_visited_once_a_node(rt: HostRuntime) {
    let alloc = rt.alloc();
    expect_found(&rt, alloc, chain(alloc), 31, true);
}
