//! Scans over parts of one column of numbers: by the binders of the parts, by their table, as
//! ranges of one chunk, and pruning beside them.
use std::alloc::{AllocError, Global};
use std::process::Abort;
use vortex_base::{DType, Nullability, Scope};
use vortex_expr::ScalarFnId;
use vortex_prune::{Part, Rules, StatsRewriteRuleRef, Zones};
use vortex_stats::{Stat, StatsError};
use vortex_testing::hooks::{Claim, Claiming};
use vortex_testing::nodes::*;
use vortex_testing::parts::*;

mod blocks;
mod faults;
mod likes;
mod own;
mod ranges;
mod selected_rows;
mod typed;
mod uses;

type Table = Result<Zones, StatsError>;

// The built-in rules and then this one.
fn rules_of(alloc: Global, rule: StatsRewriteRuleRef) -> Result<Rules, AllocError> {
    let mut rules = Rules::builtin(alloc);
    rules.push(rule)?;
    Ok(rules)
}

// The built-in rules and then one that claims the same of every expression of its function. Its
// fault has the number 3.
fn rules_that_claim(
    alloc: Global,
    function: ScalarFnId,
    falsifier: Claim,
    satisfier: Claim,
) -> Result<Rules, AllocError> {
    let rule = Claiming {
        function,
        falsifier,
        satisfier,
        fault: 3,
    };
    rules_of(alloc, Box::new(alloc, rule)?)
}

// The scan skipped these parts and selected these rows.
fn expect_found(rt: &impl Abort, found: Found, skipped: &[usize], selected: &[(usize, usize)]) {
    let found = found.expect(rt, "found");
    assert!(rt; found.skipped.as_slice() == skipped);
    assert!(rt; found.selected.as_slice() == selected);
}

// The table of parts of one column `a`.
fn tabled(alloc: Global, parts: Parts) -> Table {
    zones_of(alloc, scope_of(alloc, I32_OR_NULL), parts)
}

// The least value, and that no row is null.
fn from(alloc: Global, low: i32) -> Sets {
    let set = exactly(alloc, Stat::Min, number(low));
    and_exactly(set, Stat::NullCount, count(0))
}

// A part that is skipped, one that is whole, and two that are tested.
fn four_parts(alloc: Global) -> Table {
    let low = part_of_numbers(alloc, &[Some(1), Some(10)], bounds(alloc, 1, 10));
    let high = part_of_numbers(alloc, &[Some(20), Some(30)], from(alloc, 20));
    let parts = and_part(one_part(alloc, low), high);
    let unknown = part_of_numbers(alloc, &[Some(11)], Ok(no_statistics(alloc)));
    let rows = [None, Some(9), Some(12)];
    let mixed = part_of_numbers(alloc, &rows, bounds(alloc, 9, 12));
    tabled(alloc, and_part(and_part(parts, unknown), mixed))
}

#[test]
fn parts_are_skipped_tested_and_whole(rt: HostRuntime) {
    let alloc = rt.alloc();
    let found = scanned(alloc, &four_parts(alloc), above(alloc, 10)).expect(&rt, "found");
    let selected = [(1, 0), (1, 1), (2, 0), (3, 2)];
    assert!(rt; has_found(&found, &[0], &[1], &selected));
    assert!(rt; found.evaluated == 4);
    let without = tabled(alloc, no_parts(alloc));
    expect_found(&rt, scanned(alloc, &without, above(alloc, 10)), &[], &[]);
}

const TEXT: DType = DType::Utf8(Nullability::Nullable);

// The scope of a column of nulls and a column of texts.
fn nulls_and_texts(alloc: Global) -> Result<Scope, StatsError> {
    scope_of_two(alloc, ("n", DType::Null), ("t", TEXT))
}

// A part of one row of null and this text, with exact statistics of both columns.
fn part_of_text(alloc: Global, value: &str) -> Result<Part, StatsError> {
    let nulls = column(DType::Null, one_value(alloc, None), 0);
    let texts = column(TEXT, texts(alloc, &[value]), 0);
    let chunk = chunk_of_two(alloc, nulls_and_texts(alloc), nulls, texts);
    let null = Ok(exactly(alloc, Stat::NullCount, count(1)));
    part_of_two(alloc, chunk, null, text_bounds(alloc, value, value))
}

fn fruit(alloc: Global) -> Table {
    let parts = one_part(alloc, part_of_text(alloc, "apple"));
    let parts = and_part(parts, part_of_text(alloc, "banana"));
    let parts = and_part(parts, part_of_text(alloc, "pear"));
    zones_of(alloc, nulls_and_texts(alloc), parts)
}

fn text_of(alloc: Global, value: &str) -> Built {
    lit(alloc, TEXT, text_value(alloc, value)?)
}

#[test]
fn texts_and_nulls_are_found_by_their_statistics(rt: HostRuntime) {
    let alloc = rt.alloc();
    let fruit = fruit(alloc);
    let after = gt(alloc, col(alloc, 1, TEXT), text_of(alloc, "banana"));
    expect_found(&rt, scanned(alloc, &fruit, after), &[0, 1], &[(2, 0)]);
    let starts = like(alloc, col(alloc, 1, TEXT), text_of(alloc, "b%"));
    expect_found(&rt, scanned(alloc, &fruit, starts), &[0, 2], &[(1, 0)]);
    let null = is_null(alloc, col(alloc, 0, DType::Null));
    let all = [(0, 0), (1, 0), (2, 0)];
    expect_found(&rt, scanned(alloc, &fruit, null), &[], &all);
    let there = is_not_null(alloc, col(alloc, 0, DType::Null));
    expect_found(&rt, scanned(alloc, &fruit, there), &[0, 1, 2], &[]);
}
