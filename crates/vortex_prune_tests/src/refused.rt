//! Calls of which a request for memory may be refused: each gives its answer, or `Memory` alone.
use std::alloc::{AllocError, Global};
use std::test::Fail;
use vortex_base::{DType, Nullability, PType, ScalarValue, Scope};
use vortex_expr::BoundExpression;
use vortex_prune::bind::bind_stats;
use vortex_prune::{
    Part, Rules, StatsBinder, Zones, ZonesRefused, falsify, falsify_counted, satisfy,
};
use vortex_stats::{Stat, StatsError};
use vortex_testing::nodes::*;
use vortex_testing::parts::*;

// A BETWEEN under an AND.
fn ranged(alloc: Global) -> Built {
    let range = between(alloc, a(alloc), int(alloc, 10), int(alloc, 50), CLOSED);
    and(alloc, range, above(alloc, 0))
}

fn is_proof(answer: Result<Option<BoundExpression>, StatsError>) -> bool {
    match answer {
        Ok(proof) => proof.is_some(),
        Err(refused) => is_memory(&refused),
    }
}

fn is_counted(answer: Result<(Option<BoundExpression>, u64), StatsError>) -> bool {
    match answer {
        Ok((proof, visits)) => proof.is_some() && visits == 6,
        Err(refused) => is_memory(&refused),
    }
}

#[test]
fn refused_proofs_of_a_range(rt: HostRuntime) -> Result<(), Fail> {
    let alloc = rt.alloc();
    let (rules, predicate) = (Rules::builtin(alloc), ranged(alloc)?);
    assert!(rt; is_proof(falsify(alloc, &predicate, &rules)));
    assert!(rt; is_counted(falsify_counted(alloc, &predicate, &rules)));
    assert!(rt; is_proof(satisfy(alloc, &predicate, &rules)));
    Ok(())
}

const U8_OR_NULL: DType = DType::Primitive(PType::U8, Nullability::Nullable);

fn scope(alloc: Global) -> Result<Scope, StatsError> {
    scope_of_two(alloc, ("s", UTF8), ("n", U8_OR_NULL))
}

// A part of these texts and numbers, of which this is known.
fn part(
    alloc: Global,
    words: &[&str],
    numbers: Result<ArrayData, AllocError>,
    first: Sets,
    second: Sets,
) -> Result<Part, StatsError> {
    let texts = column(UTF8, texts(alloc, words), 0);
    let chunk = chunk_of_two(alloc, scope(alloc), texts, column(U8_OR_NULL, numbers, 0));
    part_of_two(alloc, chunk, first, second)
}

fn three_and_null(alloc: Global) -> Result<ArrayData, AllocError> {
    let mut cells = one_value(alloc, Some(ScalarValue::from(3u8)))?;
    cells.push(None)?;
    Ok(cells)
}

fn q_to_rose(alloc: Global) -> Sets {
    let least = at_most(alloc, Stat::Min, text_value(alloc, "q")?);
    and_exactly(least, Stat::Max, text_value(alloc, "rose")?)
}

// The rows `apple` and 3, `pear` and null, of which the texts' bounds are known, and in a part of
// its own `rose` and 7, without a null and with no text before `q`.
fn two_parts(alloc: Global) -> Parts {
    let (known, unknown) = (text_bounds(alloc, "apple", "pear"), no_statistics(alloc));
    let first = part(
        alloc,
        &["apple", "pear"],
        three_and_null(alloc),
        known,
        Ok(unknown),
    );
    let seven = one_value(alloc, Some(ScalarValue::from(7u8)));
    let no_null = exactly(alloc, Stat::NullCount, count(0));
    let second = part(alloc, &["rose"], seven, q_to_rose(alloc), Ok(no_null));
    and_part(one_part(alloc, first), second)
}

fn begins_with_pre_or_null(alloc: Global) -> Built {
    let begins = like(alloc, col(alloc, 0, UTF8), text(alloc, "pre%"));
    or(alloc, begins, is_null(alloc, col(alloc, 1, U8_OR_NULL)))
}

// Whether the row with the null was found, and the part without one skipped.
fn is_found(found: Found) -> bool {
    match found {
        Ok(found) => has_found(&found, &[1], &[], &[(0, 1)]),
        Err(refused) => is_memory(&refused),
    }
}

#[test]
fn refused_scans(rt: HostRuntime) -> Result<(), Fail> {
    let alloc = rt.alloc();
    let zones = zones_of(alloc, scope(alloc), two_parts(alloc))?;
    let (predicate, rules) = (begins_with_pre_or_null(alloc)?, Rules::builtin(alloc));
    assert!(rt; is_found(scanned_by_part(alloc, zones.parts(), &predicate, &rules)));
    assert!(rt; is_found(scanned_by_table(alloc, &zones, &predicate, &rules)));
    let (whole, map) = (chunk_of_all(alloc, &zones)?, zones.map());
    assert!(rt; is_found(scanned_by_ranges(alloc, &whole, map, &predicate, &rules)));
    Ok(())
}

// The least text is copied into the bound expression, and a null stands for what isn't known.
fn least_text(alloc: Global) -> Built {
    let least = gt(alloc, min(alloc, col(alloc, 0, UTF8)), text(alloc, "b"));
    let unknown = stat(
        alloc,
        col(alloc, 7, UTF8),
        vortex_base::AggregateFnRef::AllNull,
    );
    and(alloc, least, unknown)
}

fn is_bound(answer: Built) -> bool {
    match answer {
        Ok(bound) => bound.is_closed(),
        Err(refused) => is_memory(&refused),
    }
}

fn bound_by_first(alloc: Global, e: BoundExpression, parts: &[Part]) -> Built {
    match parts.first() {
        Some(part) => bind_stats(alloc, e, &StatsBinder::new(part)),
        None => Err(StatsError::Mismatch),
    }
}

#[test]
fn refused_bindings(rt: HostRuntime) -> Result<(), Fail> {
    let alloc = rt.alloc();
    let (parts, e) = (two_parts(alloc)?, least_text(alloc)?);
    assert!(rt; is_bound(bound_by_first(alloc, e, &parts)));
    Ok(())
}

fn printed(alloc: Global, parts: &[Part]) -> Result<String, StatsError> {
    Ok(format!(in alloc; "{parts:?}")?)
}

// Whether the scope and the parts look like these.
fn are_same(
    alloc: Global,
    (scope, parts): (&Scope, &[Part]),
    (same, same_parts): (&Scope, &[Part]),
) -> Result<bool, StatsError> {
    Ok(*scope == *same && printed(alloc, parts)? == printed(alloc, same_parts)?)
}

// The table, if each part has the scope.
fn table(alloc: Global, scope: Scope, parts: Vec<Part>) -> Result<Zones, ZonesRefused> {
    if !all_scoped(&scope, &parts) {
        let error = StatsError::Mismatch;
        return Err(ZonesRefused {
            error,
            scope,
            parts,
        });
    }
    Zones::try_new(alloc, scope, parts)
}

// Whether the table keeps the scope and the parts, or hands them back for memory.
fn keeps(
    alloc: Global,
    made: Result<Zones, ZonesRefused>,
    same: &Scope,
    parts: &[Part],
) -> Result<bool, StatsError> {
    match made {
        Ok(zones) => are_same(alloc, (zones.scope(), zones.parts()), (same, parts)),
        Err(refused) => {
            let given = (&refused.scope, refused.parts.as_slice());
            Ok(is_memory(&refused.error) && are_same(alloc, given, (same, parts))?)
        }
    }
}

// Where a request for memory within the call is refused, scope and parts come back as they were.
#[test]
fn refused_tables_hand_back(rt: HostRuntime) -> Result<(), Fail> {
    let alloc = rt.alloc();
    let (same, same_parts) = (scope(alloc)?, two_parts(alloc)?);
    let made = table(alloc, scope(alloc)?, two_parts(alloc)?);
    assert!(rt; keeps(alloc, made, &same, &same_parts)?);
    Ok(())
}
