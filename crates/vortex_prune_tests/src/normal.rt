//! Zones that the rules keep with a predicate as it is, and on which all proofs of it tell more.
use Verdict::{Skipped, Tested, Whole};
use std::alloc::Global;
use std::process::Abort;
use std::test::Fail;
use vortex_expr::{BoundExpression, LikeOptions, ScalarFnId};
use vortex_predicates::PruningPredicate;
use vortex_prune::{Pruned, Rules, StatsRewriteRuleRef, Verdict};
use vortex_stats::{RuleFault, Stat, StatsError};
use vortex_testing::hooks::{Claim, Claiming};
use vortex_testing::nodes::*;
use vortex_testing::parts::*;
use vortex_zone_map::ZoneMap;

// The verdicts by all proofs of a predicate, and how many levels of its normal forms they may have.
fn verdicts(
    alloc: Global,
    map: &ZoneMap,
    predicate: &BoundExpression,
    rules: &Rules,
    levels: Option<u32>,
) -> Result<Vec<Verdict>, StatsError> {
    if !predicate.is_plain() || !predicate.fits_scope(map.scope()) {
        return Err(StatsError::Mismatch);
    }
    let pruning = match levels {
        None => PruningPredicate::try_new(alloc, predicate, rules)?,
        Some(levels) => PruningPredicate::try_new_within(alloc, predicate, rules, levels)?,
    };
    if *pruning.predicate() != *predicate {
        return Err(StatsError::Mismatch);
    }
    pruning.prune(alloc, map)
}

// From 1 to 9, from 6 to 7 without a null, and two nulls.
fn three_zones(alloc: Global) -> Result<ZoneMap, StatsError> {
    let mut sets = two_sets(
        alloc,
        bounds(alloc, 1, 9),
        bounded_without_null(alloc, 6, 7),
    )?;
    push_set(&mut sets, Ok(exactly(alloc, Stat::NullCount, count(2))))?;
    map_of_sets(alloc, 2, &sets)
}

fn lists(found: &Pruned, skipped: &[usize], whole: &[usize]) -> bool {
    found.skipped.as_slice() == skipped && found.whole.as_slice() == whole
}

// Pruning by the predicate as it is tells these zones, and all proofs give these verdicts.
fn expect(
    rt: &impl Abort,
    alloc: Global,
    predicate: Built,
    given: (&[usize], &[usize]),
    all: [Verdict; 3],
) {
    let (map, rules) = (
        three_zones(alloc).expect(rt, "a map"),
        Rules::builtin(alloc),
    );
    let predicate = predicate.expect(rt, "a predicate");
    let pruned = pruned_by(alloc, &map, &predicate, &rules).expect(rt, "places");
    assert!(rt; lists(&pruned, given.0, given.1));
    let found = verdicts(alloc, &map, &predicate, &rules, None).expect(rt, "verdicts");
    assert!(rt; found.as_slice() == all.as_slice());
    let found = verdicts(alloc, &map, &predicate, &rules, Some(64)).expect(rt, "verdicts");
    assert!(rt; found.as_slice() == all.as_slice());
}

// Above the one number and below the other.
fn inside(alloc: Global, low: i32, high: i32) -> Built {
    and(
        alloc,
        above(alloc, low),
        lt(alloc, a(alloc), int(alloc, high)),
    )
}

#[test]
fn all_proofs_tell_more(rt: HostRuntime) {
    let alloc = rt.alloc();
    let none = [].as_slice();
    expect(
        &rt,
        alloc,
        inside(alloc, 5, 3),
        (&[1], none),
        [Skipped, Skipped, Skipped],
    );
    let past = not(alloc, lt_eq(alloc, a(alloc), int(alloc, 7)));
    expect(&rt, alloc, past, (none, none), [Tested, Skipped, Skipped]);
    let either = or(alloc, inside(alloc, 4, 7), inside(alloc, 6, 9));
    expect(&rt, alloc, either, (none, none), [Tested, Whole, Skipped]);
    let null = is_null(alloc, above(alloc, 5));
    expect(&rt, alloc, null, (none, none), [Tested, Skipped, Whole]);
    let compared = eq(alloc, above(alloc, 5), truth(alloc, true));
    expect(&rt, alloc, compared, (none, none), [Tested, Whole, Skipped]);
}

// Whether the number is one of some.
fn is_one_of(alloc: Global, numbers: &[i32]) -> Built {
    let mut found = truth(alloc, false);
    for number in numbers {
        found = or(alloc, found, eq(alloc, a(alloc), int(alloc, *number)));
    }
    found
}

// The number 6 alone, and from 1 to 9; without a null.
fn one_number_and_nine(alloc: Global) -> Result<ZoneMap, StatsError> {
    let one = bounded_without_null(alloc, 6, 6);
    let sets = two_sets(alloc, one, bounded_without_null(alloc, 1, 9))?;
    map_of_sets(alloc, 2, &sets)
}

// Pruning by a list of numbers as it is finds these places.
fn expect_of_list(
    rt: &impl Abort,
    alloc: Global,
    numbers: &[i32],
    skipped: &[usize],
    whole: &[usize],
) {
    let map = one_number_and_nine(alloc).expect(rt, "a map");
    let list = is_one_of(alloc, numbers).expect(rt, "a predicate");
    let pruned = pruned_by(alloc, &map, &list, &Rules::builtin(alloc)).expect(rt, "places");
    assert!(rt; lists(&pruned, skipped, whole));
}

#[test]
fn a_long_list_is_searched_in_any_order(rt: HostRuntime) {
    let alloc = rt.alloc();
    let none = [].as_slice();
    expect_of_list(&rt, alloc, &[-9, -8, -7, 6, 20, 21, 22, 23], none, &[0]);
    expect_of_list(&rt, alloc, &[23, 22, 21, 20, 6, -7, -8, -9], none, &[0]);
    expect_of_list(&rt, alloc, &[21, 6, -8, 6, 23, 20, -9, 22], none, &[0]);
    expect_of_list(&rt, alloc, &[21, 9, -8, 1, 23, 20, -9, 22], &[0], none);
    expect_of_list(&rt, alloc, &[21, 10, -8, 0, 23, 20, -9, 22], &[0, 1], none);
}

// The map of one zone of texts that begin with `abc`.
fn texts_alike(alloc: Global) -> Result<ZoneMap, StatsError> {
    let sets = one_set(alloc, text_bounds(alloc, "abca", "abcz")?)?;
    map_of(
        alloc,
        scope_named(alloc, "s", UTF8)?,
        &zones_of_sets(alloc, 2, &sets)?,
    )
}

fn not_like(alloc: Global, pattern: &str) -> Built {
    let options = LikeOptions {
        negated: true,
        case_insensitive: false,
    };
    like_with(alloc, col(alloc, 0, UTF8), text(alloc, pattern), options)
}

// The verdict on the zone of texts.
fn verdict(alloc: Global, predicate: Built) -> Result<Vec<Verdict>, StatsError> {
    let (map, rules) = (texts_alike(alloc)?, Rules::builtin(alloc));
    verdicts(alloc, &map, &predicate?, &rules, None)
}

#[test]
fn a_beginning_that_all_texts_have(rt: HostRuntime) {
    let alloc = rt.alloc();
    let found = verdict(alloc, not_like(alloc, "abc%")).expect(&rt, "a verdict");
    assert!(rt; found.as_slice() == [Skipped].as_slice());
    let found = verdict(alloc, not_like(alloc, "abcd%")).expect(&rt, "a verdict");
    assert!(rt; found.as_slice() == [Tested].as_slice());
}

fn failing_rules(alloc: Global) -> Result<Rules, StatsError> {
    let rule = Claiming {
        function: ScalarFnId::Binary,
        falsifier: Claim::Fault,
        satisfier: Claim::Nothing,
        fault: 3,
    };
    let mut own: Vec<StatsRewriteRuleRef> = Vec::new(alloc);
    own.push(Box::new(alloc, rule)?)?;
    Ok(Rules::with_own(own))
}

fn by_failing(alloc: Global, predicate: Built) -> Result<Vec<Verdict>, StatsError> {
    let (map, rules) = (three_zones(alloc)?, failing_rules(alloc)?);
    verdicts(alloc, &map, &predicate?, &rules, None)
}

// A rule is asked at the nodes of the predicate as it is, also where its normal form is a literal.
#[test]
fn a_rule_that_fails_is_told(rt: HostRuntime) {
    let alloc = rt.alloc();
    let found = by_failing(alloc, inside(alloc, 5, 3));
    assert!(rt; matches!(found, Err(StatsError::Rule(RuleFault::Own(3)))));
}

fn is_told(found: Result<Vec<Verdict>, StatsError>) -> bool {
    match found {
        Ok(found) => found.as_slice() == [Skipped, Skipped, Skipped].as_slice(),
        Err(refused) => is_memory(&refused),
    }
}

#[test]
fn refused_verdicts(rt: HostRuntime) -> Result<(), Fail> {
    let alloc = rt.alloc();
    let (map, neither, rules) = (
        three_zones(alloc)?,
        inside(alloc, 5, 3)?,
        Rules::builtin(alloc),
    );
    assert!(rt; is_told(verdicts(alloc, &map, &neither, &rules, None)));
    assert!(rt; is_told(verdicts(alloc, &map, &neither, &rules, Some(64))));
    Ok(())
}
