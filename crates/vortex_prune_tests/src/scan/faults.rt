//! Rules and binders of a user that answer what they shouldn't or fault: which of two comes first,
//! and who is asked at all.
use super::*;
use vortex_stats::{Precision, StatsSet};
use vortex_testing::binders::Answerer;

fn looks_of(alloc: Global, refused: StatsError) -> Result<String, StatsError> {
    Ok(format!(in alloc; "{refused:?}")?)
}

// The scan is refused, and the refusal looks so.
fn expect_refused(rt: &impl Abort, alloc: Global, found: Found, looks: &str) {
    let refused = found.expect_err(rt, "a refusal");
    let told = looks_of(alloc, refused).expect(rt, "a text");
    assert!(rt; told.as_str() == looks);
}

// One number, of which the greatest is known.
fn twenty(alloc: Global) -> Table {
    let set = exactly(alloc, Stat::Max, number(20));
    table_of_numbers(alloc, &[Some(20)], Ok(set))
}

// The scan of the number for those above 10, by a rule that claims so of each comparison.
fn by_claims(alloc: Global, falsifier: Claim, satisfier: Claim) -> Found {
    let rules = rules_that_claim(alloc, ScalarFnId::Binary, falsifier, satisfier)?;
    scanned_by(alloc, &twenty(alloc), above(alloc, 10), &rules)
}

fn expect_claims(rt: &impl Abort, alloc: Global, claims: (Claim, Claim), looks: &str) {
    expect_refused(rt, alloc, by_claims(alloc, claims.0, claims.1), looks);
}

// Both proofs are made before either is bound, the falsifier first.
#[test]
fn faults_of_rules_come_in_order(rt: HostRuntime) {
    let alloc = rt.alloc();
    let open = Claim::Column(0);
    expect_claims(&rt, alloc, (open, Claim::Fault), "Rule(Own(3))");
    expect_claims(&rt, alloc, (Claim::Fault, open), "Rule(Own(3))");
    expect_claims(&rt, alloc, (Claim::Fault, Claim::Number), "Rule(Own(3))");
    expect_claims(&rt, alloc, (Claim::Number, Claim::Fault), "Rule(NotBool)");
    expect_claims(&rt, alloc, (Claim::Nothing, Claim::Number), "Rule(NotBool)");
    expect_claims(&rt, alloc, (Claim::NullTest, Claim::Nothing), "OpenProof");
    expect_claims(&rt, alloc, (Claim::Nothing, open), "OpenProof");
    let memory = by_claims(alloc, Claim::Memory, Claim::Nothing);
    assert!(rt; matches!(memory, Err(StatsError::Memory(_))));
}

// Without parts nothing is bound, so that a proof is left open nowhere.
#[test]
fn a_bare_column_is_not_bound_without_parts(rt: HostRuntime) {
    let (alloc, without) = (rt.alloc(), tabled(rt.alloc(), no_parts(rt.alloc())));
    let bare = (Claim::Column(0), Claim::Column(0));
    let rules = rules_that_claim(alloc, ScalarFnId::Binary, bare.0, bare.1).expect(&rt, "rules");
    let found = scanned_by(alloc, &without, above(alloc, 10), &rules);
    expect_found(&rt, found, &[], &[]);
}

// A number is refused by every scan and by pruning, also where there is no part.
#[test]
fn a_number_is_no_predicate_of_a_scan(rt: HostRuntime) {
    let alloc = rt.alloc();
    let found = scanned(alloc, &twenty(alloc), int(alloc, 7));
    expect_refused(&rt, alloc, found, "NotPredicate");
    let without = tabled(alloc, no_parts(alloc));
    let found = scanned(alloc, &without, int(alloc, 7));
    expect_refused(&rt, alloc, found, "NotPredicate");
}

// The scan of two numbers, of which the first part is skipped, by an open satisfier.
fn by_open_satisfier(alloc: Global, value: i32) -> Found {
    let rules = rules_that_claim(alloc, ScalarFnId::Binary, Claim::Nothing, Claim::Column(7))?;
    let parts = table_of_numbers(alloc, &[Some(value)], bounds(alloc, value, value));
    scanned_by(alloc, &parts, above(alloc, 10), &rules)
}

// A satisfier is bound at the first part that isn't skipped.
#[test]
fn an_open_satisfier_ends_the_scan_at_a_kept_part(rt: HostRuntime) {
    let alloc = rt.alloc();
    expect_found(&rt, by_open_satisfier(alloc, 1), &[0], &[]);
    expect_refused(&rt, alloc, by_open_satisfier(alloc, 11), "OpenProof");
}

// The numbers 1 and 2, in a part each.
fn two_rows(alloc: Global) -> Table {
    let first = part_of_numbers(alloc, &[Some(1)], bounds(alloc, 1, 1));
    let second = part_of_numbers(alloc, &[Some(2)], bounds(alloc, 2, 2));
    tabled(alloc, and_part(one_part(alloc, first), second))
}

// The scan of the two by the built-in rules, with a binder for each.
fn by_binders(alloc: Global, predicate: Built, binders: &[Answerer]) -> Found {
    let zones = two_rows(alloc)?;
    scanned_with(
        alloc,
        zones.parts(),
        binders,
        &predicate?,
        &Rules::builtin(alloc),
    )
}

fn expect_answers(rt: &impl Abort, alloc: Global, binders: [Answerer; 2], looks: &str) {
    expect_refused(
        rt,
        alloc,
        by_binders(alloc, above(alloc, 10), &binders),
        looks,
    );
}

// Binders are asked in the order of their parts, and what they answer is looked at.
#[test]
fn faults_of_binders_come_in_order(rt: HostRuntime) {
    let alloc = rt.alloc();
    let faulty = Answerer::Faulty;
    expect_answers(&rt, alloc, [faulty, Answerer::Quiet], "Binder(Own(7))");
    expect_answers(&rt, alloc, [Answerer::Quiet, faulty], "Binder(WrongType)");
    expect_answers(&rt, alloc, [Answerer::Zero, faulty], "Binder(WrongType)");
    expect_answers(&rt, alloc, [Answerer::Truth, faulty], "Binder(WrongType)");
    expect_answers(&rt, alloc, [Answerer::Itself, faulty], "OpenProof");
    expect_answers(&rt, alloc, [Answerer::Least, faulty], "OpenProof");
    expect_answers(&rt, alloc, [Answerer::Input, faulty], "OpenProof");
    let memory = by_binders(alloc, above(alloc, 10), &[Answerer::Forgetful, faulty]);
    assert!(rt; matches!(memory, Err(StatsError::Memory(_))));
}

// Without a falsifier and a satisfier no binder is asked.
#[test]
fn no_binder_is_asked_without_a_proof(rt: HostRuntime) {
    let alloc = rt.alloc();
    let others = not(alloc, above(alloc, 1));
    let found = by_binders(alloc, others, &[Answerer::Faulty, Answerer::Faulty]);
    expect_found(&rt, found, &[], &[(0, 0)]);
}

// Two nulls, whose least value is said to be above the greatest.
#[test]
fn statistics_may_be_at_odds(rt: HostRuntime) {
    let alloc = rt.alloc();
    let crossed = table_of_numbers(alloc, &[None, None], bounds(alloc, 5, 3));
    let four = eq(alloc, a(alloc), int(alloc, 4));
    expect_found(&rt, scanned(alloc, &crossed, four), &[0], &[]);
    let others = not_eq(alloc, a(alloc), int(alloc, 4));
    expect_found(&rt, scanned(alloc, &crossed, others), &[], &[]);
}

// An entry without a value says nothing of the greatest one.
#[test]
fn an_absent_maximum_keeps_the_part(rt: HostRuntime) {
    let alloc = rt.alloc();
    let absent = StatsSet::of(alloc, Stat::Max, Precision::Absent);
    let parts = table_of_numbers(alloc, &[Some(11)], Ok(absent));
    expect_found(
        &rt,
        scanned(alloc, &parts, above(alloc, 10)),
        &[],
        &[(0, 0)],
    );
}
