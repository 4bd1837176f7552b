//! LIKE over zones whose column has one value alone, by all proofs of a predicate.
use Verdict::{Skipped, Tested, Whole};
use std::alloc::Global;
use std::process::Abort;
use std::test::Fail;
use vortex_base::{DType, Nullability};
use vortex_expr::{BoundExpression, LikeOptions, ScalarFnId};
use vortex_predicates::PruningPredicate;
use vortex_prune::{Rules, StatsRewriteRuleRef, Verdict};
use vortex_stats::{Precision, Stat, StatsError, StatsSet};
use vortex_testing::hooks::{Claim, Claiming};
use vortex_testing::nodes::*;
use vortex_testing::parts::*;
use vortex_zone_map::ZoneMap;

const NULLABLE_UTF8: DType = DType::Utf8(Nullability::Nullable);

// Bounds that may lie outside the values.
fn loose_bounds(alloc: Global, least: &str, greatest: &str) -> Sets {
    let mut set = at_most(alloc, Stat::Min, text_value(alloc, least)?);
    let greatest = text_value(alloc, greatest)?;
    set.set(Stat::Max, Precision::Inexact(greatest))?;
    Ok(set)
}

fn with_nulls(set: Sets, nulls: u64) -> Sets {
    and_exactly(set?, Stat::NullCount, count(nulls))
}

fn all_null(alloc: Global) -> Sets {
    Ok(exactly(alloc, Stat::NullCount, count(2)))
}

fn least_alone(alloc: Global) -> Sets {
    Ok(exactly(alloc, Stat::Min, text_value(alloc, "abc")?))
}

// Of two rows: `abc` without null and beside one, by loose bounds without null and where nothing is
// known of nulls, two texts, nulls alone, and a least text alone.
fn sets(alloc: Global) -> Result<Vec<StatsSet>, StatsError> {
    let abc = with_nulls(text_bounds(alloc, "abc", "abc"), 0);
    let beside_null = with_nulls(text_bounds(alloc, "abc", "abc"), 1);
    let mut sets = two_sets(alloc, abc, beside_null)?;
    push_set(&mut sets, with_nulls(loose_bounds(alloc, "abc", "abc"), 0))?;
    push_set(&mut sets, loose_bounds(alloc, "abc", "abc"))?;
    push_set(&mut sets, with_nulls(text_bounds(alloc, "abc", "abd"), 0))?;
    push_set(&mut sets, all_null(alloc))?;
    push_set(&mut sets, least_alone(alloc))?;
    Ok(sets)
}

fn seven_zones(alloc: Global) -> Result<ZoneMap, StatsError> {
    let sets = sets(alloc)?;
    let zones = zones_of_sets(alloc, 2, &sets)?;
    map_of(alloc, scope_named(alloc, "s", NULLABLE_UTF8)?, &zones)
}

fn verdicts(
    alloc: Global,
    predicate: &BoundExpression,
    rules: &Rules,
    levels: Option<u32>,
) -> Result<Vec<Verdict>, StatsError> {
    let map = seven_zones(alloc)?;
    if !predicate.is_plain() || !predicate.fits_scope(map.scope()) {
        return Err(StatsError::Mismatch);
    }
    let pruning = match levels {
        None => PruningPredicate::try_new(alloc, predicate, rules)?,
        Some(levels) => PruningPredicate::try_new_within(alloc, predicate, rules, levels)?,
    };
    pruning.prune(alloc, &map)
}

// Rules with one that proves nothing of LIKEs.
fn with_idle_rule(alloc: Global) -> Result<Rules, StatsError> {
    let rule = Claiming {
        function: ScalarFnId::Like,
        falsifier: Claim::Nothing,
        satisfier: Claim::Nothing,
        fault: 0,
    };
    let mut own: Vec<StatsRewriteRuleRef> = Vec::new(alloc);
    own.push(Box::new(alloc, rule)?)?;
    Ok(Rules::with_own(own))
}

// The verdicts with and without rules of a user, and within levels.
fn expect(rt: &impl Abort, alloc: Global, predicate: Built, wanted: [Verdict; 7]) {
    let predicate = predicate.expect(rt, "a predicate");
    let rules = Rules::builtin(alloc);
    let found = verdicts(alloc, &predicate, &rules, None).expect(rt, "verdicts");
    assert!(rt; found.as_slice() == wanted.as_slice());
    let found = verdicts(alloc, &predicate, &rules, Some(64)).expect(rt, "verdicts");
    assert!(rt; found.as_slice() == wanted.as_slice());
    let rules = with_idle_rule(alloc).expect(rt, "rules");
    let found = verdicts(alloc, &predicate, &rules, None).expect(rt, "verdicts");
    assert!(rt; found.as_slice() == wanted.as_slice());
}

fn s(alloc: Global) -> Built {
    col(alloc, 0, NULLABLE_UTF8)
}

fn matched(alloc: Global, pattern: &str, negated: bool, case_insensitive: bool) -> Built {
    let options = LikeOptions {
        negated,
        case_insensitive,
    };
    like_with(alloc, s(alloc), text(alloc, pattern), options)
}

fn is_like(alloc: Global, pattern: &str) -> Built {
    matched(alloc, pattern, false, false)
}

// Where `abc` is told to satisfy a predicate and no other value is known to.
const SATISFIED: [Verdict; 7] = [Whole, Tested, Whole, Tested, Tested, Skipped, Tested];

// Where `abc` is told not to.
const UNSATISFIED: [Verdict; 7] = [Skipped, Skipped, Skipped, Skipped, Tested, Skipped, Tested];

#[test]
fn one_value_decides_like(rt: HostRuntime) {
    let alloc = rt.alloc();
    for pattern in ["%bc", "a_c", "%b%", "a%c", "_b_", "%%c", "ab_%"] {
        expect(&rt, alloc, is_like(alloc, pattern), SATISFIED);
        expect(
            &rt,
            alloc,
            matched(alloc, pattern, true, false),
            UNSATISFIED,
        );
    }
}

#[test]
fn one_value_decides_like_that_it_does_not_match(rt: HostRuntime) {
    let alloc = rt.alloc();
    for pattern in ["%bd_", "a_b", "%x%", "a%e", "_", "%%e", "%BC"] {
        expect(&rt, alloc, is_like(alloc, pattern), UNSATISFIED);
        expect(&rt, alloc, matched(alloc, pattern, true, false), SATISFIED);
    }
}

#[test]
fn one_value_decides_ilike(rt: HostRuntime) {
    let alloc = rt.alloc();
    for pattern in ["%BC", "A_c", "ABC", "aB%"] {
        expect(&rt, alloc, matched(alloc, pattern, false, true), SATISFIED);
        expect(&rt, alloc, matched(alloc, pattern, true, true), UNSATISFIED);
    }
    for pattern in ["%BE", "A_b", "AB", "x%"] {
        expect(
            &rt,
            alloc,
            matched(alloc, pattern, false, true),
            UNSATISFIED,
        );
        expect(&rt, alloc, matched(alloc, pattern, true, true), SATISFIED);
    }
}

#[test]
fn one_value_decides_joined_likes(rt: HostRuntime) {
    let alloc = rt.alloc();
    let both = and(alloc, is_like(alloc, "%bc"), is_like(alloc, "a_c"));
    expect(&rt, alloc, both, SATISFIED);
    let one = and(alloc, is_like(alloc, "%bc"), is_like(alloc, "%x"));
    expect(&rt, alloc, one, UNSATISFIED);
    let either = or(alloc, is_like(alloc, "%x"), is_like(alloc, "%bc"));
    expect(&rt, alloc, either, SATISFIED);
    let neither = or(alloc, is_like(alloc, "%x"), is_like(alloc, "_"));
    expect(&rt, alloc, neither, UNSATISFIED);
    let not_like = not(alloc, is_like(alloc, "%bc"));
    expect(&rt, alloc, not_like, UNSATISFIED);
    let compared = or(
        alloc,
        is_like(alloc, "%x"),
        gt(alloc, s(alloc), text(alloc, "abd")),
    );
    let wanted = [Skipped, Skipped, Skipped, Skipped, Tested, Skipped, Tested];
    expect(&rt, alloc, compared, wanted);
}

#[test]
fn one_value_decides_truth_and_null_tests_of_like(rt: HostRuntime) {
    let alloc = rt.alloc();
    let is_true = eq(alloc, is_like(alloc, "%bc"), truth(alloc, true));
    expect(&rt, alloc, is_true, SATISFIED);
    let wanted = [Skipped, Tested, Skipped, Tested, Tested, Whole, Tested];
    expect(&rt, alloc, is_null(alloc, is_like(alloc, "%bc")), wanted);
}

// A pattern in a column, and a text that is a literal, aren't decided.
#[test]
fn pattern_of_a_column_is_tested(rt: HostRuntime) {
    let alloc = rt.alloc();
    let options = LikeOptions {
        negated: false,
        case_insensitive: true,
    };
    let by_column = like_with(alloc, text(alloc, "abd"), s(alloc), options);
    let wanted = [Tested, Tested, Tested, Tested, Tested, Skipped, Tested];
    expect(&rt, alloc, by_column, wanted);
}

fn is_told(found: Result<Vec<Verdict>, StatsError>, wanted: [Verdict; 7]) -> bool {
    match found {
        Ok(found) => found.as_slice() == wanted.as_slice(),
        Err(refused) => is_memory(&refused),
    }
}

#[test]
fn refused_like_of_one_value(rt: HostRuntime) -> Result<(), Fail> {
    let alloc = rt.alloc();
    let (ends, rules) = (is_like(alloc, "%bc")?, Rules::builtin(alloc));
    assert!(rt; is_told(verdicts(alloc, &ends, &rules, None), SATISFIED));
    let other = or(alloc, is_like(alloc, "%x"), is_like(alloc, "_"))?;
    assert!(rt; is_told(verdicts(alloc, &other, &rules, None), UNSATISFIED));
    Ok(())
}
