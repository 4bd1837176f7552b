//! For which predicates pruning is complete.
use std::alloc::Global;
use std::process::Abort;
use std::test::Fail;
use vortex_predicates::{is_complete_for, is_complete_with_nulls, is_whole_complete_for};
use vortex_stats::StatsError;
use vortex_testing::nodes::*;
use vortex_testing::parts::*;

// As many leaves as a predicate of 8,000 nodes has.
const LEAVES: usize = 4_000;

fn above_at(alloc: Global, place: usize, number: i32) -> Built {
    gt(alloc, col(alloc, place, I32), int(alloc, number))
}

fn below_at(alloc: Global, place: usize, number: i32) -> Built {
    lt(alloc, col(alloc, place, I32), int(alloc, number))
}

// a > 5 OR b < 3.
fn either_column(alloc: Global) -> Built {
    or(alloc, above_at(alloc, 0, 5), below_at(alloc, 1, 3))
}

fn expect_within(
    rt: &impl Abort,
    alloc: Global,
    predicate: Built,
    levels: Option<u32>,
    complete: bool,
) {
    let predicate = predicate.expect(rt, "a predicate");
    let found = is_complete_for(alloc, levels, &predicate).expect(rt, "an answer");
    assert!(rt; found == complete);
}

fn expect(rt: &impl Abort, alloc: Global, predicate: Built, complete: bool) {
    expect_within(rt, alloc, predicate, None, complete);
}

#[test]
fn ands_of_different_columns_are_complete(rt: HostRuntime) {
    let alloc = rt.alloc();
    let (a, b) = (above_at(alloc, 0, 5), below_at(alloc, 1, 3));
    expect(&rt, alloc, and(alloc, a, b), true);
    let other = above_at(alloc, 2, 7);
    expect(&rt, alloc, and(alloc, either_column(alloc), other), true);
}

#[test]
fn ands_that_share_a_column_are_not(rt: HostRuntime) {
    let alloc = rt.alloc();
    let again = above_at(alloc, 0, 7);
    expect(&rt, alloc, and(alloc, either_column(alloc), again), false);
    let again = below_at(alloc, 1, 1);
    expect(&rt, alloc, and(alloc, again, either_column(alloc)), false);
}

#[test]
fn ors_that_share_a_column_are_complete(rt: HostRuntime) {
    let alloc = rt.alloc();
    let both = and(alloc, below_at(alloc, 0, 2), above_at(alloc, 1, 9));
    expect(&rt, alloc, or(alloc, either_column(alloc), both), true);
}

// (a > 5 AND a < 9) OR NOT (a <= 20).
fn one_column(alloc: Global) -> Built {
    let inside = and(alloc, above_at(alloc, 0, 5), below_at(alloc, 0, 9));
    let past = not(alloc, lt_eq(alloc, col(alloc, 0, I32), int(alloc, 20)));
    or(alloc, inside, past)
}

#[test]
fn one_column_is_complete_by_its_normal_form(rt: HostRuntime) {
    let alloc = rt.alloc();
    expect(&rt, alloc, one_column(alloc), true);
    expect_within(&rt, alloc, one_column(alloc), Some(64), true);
    expect_within(&rt, alloc, one_column(alloc), Some(0), false);
    expect_within(&rt, alloc, either_column(alloc), Some(0), true);
}

#[test]
fn null_tests_are_not_complete(rt: HostRuntime) {
    let alloc = rt.alloc();
    expect(&rt, alloc, is_null(alloc, col(alloc, 0, I32)), false);
    expect(&rt, alloc, truth(alloc, false), true);
}

fn expect_with_nulls(rt: &impl Abort, alloc: Global, predicate: Built, skips: bool, wholes: bool) {
    let predicate = predicate.expect(rt, "a predicate");
    let found = is_complete_with_nulls(alloc, None, &predicate).expect(rt, "an answer");
    assert!(rt; found == skips);
    let found = is_whole_complete_for(alloc, None, &predicate).expect(rt, "an answer");
    assert!(rt; found == wholes);
}

#[test]
fn null_tests_are_complete_with_null_counts(rt: HostRuntime) {
    let alloc = rt.alloc();
    let null = is_null(alloc, col(alloc, 0, I32));
    expect_with_nulls(
        &rt,
        alloc,
        or(alloc, above_at(alloc, 0, 5), null),
        true,
        true,
    );
    let null = is_null(alloc, col(alloc, 0, I32));
    expect_with_nulls(
        &rt,
        alloc,
        and(alloc, null, below_at(alloc, 1, 3)),
        true,
        true,
    );
    let negated = not(alloc, above_at(alloc, 0, 5));
    expect_with_nulls(&rt, alloc, negated, true, true);
}

#[test]
fn shared_columns_are_not_complete_with_null_counts(rt: HostRuntime) {
    let alloc = rt.alloc();
    let other = or(alloc, below_at(alloc, 0, 2), above_at(alloc, 1, 9));
    let shared = and(alloc, either_column(alloc), other);
    expect_with_nulls(&rt, alloc, shared, false, true);
}

#[test]
fn tests_too_deep_are_not_complete_with_null_counts(rt: HostRuntime) {
    let alloc = rt.alloc();
    let both = and(alloc, above_at(alloc, 0, 5), below_at(alloc, 1, 3)).expect(&rt, "both");
    let found = is_complete_with_nulls(alloc, Some(0), &both).expect(&rt, "an answer");
    assert!(rt; !found);
    let found = is_whole_complete_for(alloc, Some(0), &both).expect(&rt, "an answer");
    assert!(rt; !found);
    let found = is_complete_with_nulls(alloc, Some(64), &both).expect(&rt, "an answer");
    assert!(rt; found);
}

fn answer(alloc: Global, predicate: Built) -> Result<bool, StatsError> {
    is_complete_for(alloc, None, &predicate?)
}

#[test]
fn a_number_is_no_predicate(rt: HostRuntime) {
    let alloc = rt.alloc();
    let found = answer(alloc, int(alloc, 5));
    assert!(rt; matches!(found, Err(StatsError::NotPredicate)));
}

// c0 > 0 AND c1 > 0 AND .., each of a column of its own, one below the other.
fn long_and(alloc: Global) -> Built {
    let mut chain = above_at(alloc, 0, 0)?;
    for place in 1..LEAVES {
        chain = and(alloc, Ok(chain), above_at(alloc, place, 0))?;
    }
    Ok(chain)
}

// AND and OR by turns: no chain has more than two links.
fn long_turns(alloc: Global) -> Built {
    let mut chain = above_at(alloc, 0, 0)?;
    for place in 1..LEAVES {
        let link = above_at(alloc, place, 0);
        chain = if place % 2 == 0 {
            and(alloc, Ok(chain), link)?
        } else {
            or(alloc, Ok(chain), link)?
        };
    }
    Ok(chain)
}

#[test]
fn long_chains_are_answered(rt: HostRuntime) {
    let alloc = rt.alloc();
    expect(&rt, alloc, long_and(alloc), true);
    expect(&rt, alloc, long_turns(alloc), true);
    let shared = and(alloc, long_and(alloc), either_column(alloc));
    expect(&rt, alloc, shared, false);
}

// True, or refused for memory.
fn is_told(found: Result<bool, StatsError>) -> bool {
    match found {
        Ok(complete) => complete,
        Err(refused) => is_memory(&refused),
    }
}

#[test]
fn refused_answers(rt: HostRuntime) -> Result<(), Fail> {
    let alloc = rt.alloc();
    let (form, given) = (one_column(alloc)?, either_column(alloc)?);
    assert!(rt; is_told(is_complete_for(alloc, None, &form)));
    assert!(rt; is_told(is_complete_for(alloc, None, &given)));
    assert!(rt; is_told(is_complete_with_nulls(alloc, None, &form)));
    assert!(rt; is_told(is_whole_complete_for(alloc, None, &given)));
    Ok(())
}
