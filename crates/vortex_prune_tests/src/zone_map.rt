//! Maps of zones, made in each way: they are alike, they prune, and a refusal leaves what was.
use std::alloc::{AllocError, Global};
use std::process::Abort;
use std::slice;
use std::test::Fail;
use vortex_base::{AggregateFnRef, ArrayData, Column, ScalarValue, Scope};
use vortex_expr::BoundExpression;
use vortex_prune::{Pruned, Rules, Verdict, falsify, prune_by, satisfy};
use vortex_stats::{Stat, StatsError, StatsSet};
use vortex_testing::nodes::*;
use vortex_testing::parts::*;
use vortex_zone_map::{StatColumn, TableRefused, Zone, ZoneMap, ZoneMapRefused};

type ManySets = Result<Vec<StatsSet>, StatsError>;

type Map = Result<ZoneMap, StatsError>;

fn scope(alloc: Global) -> Result<Scope, StatsError> {
    scope_of(alloc, I32_OR_NULL)
}

fn first_set(alloc: Global) -> ManySets {
    Ok(one_set(alloc, bounds(alloc, 0, 5)?)?)
}

fn other_sets(alloc: Global) -> ManySets {
    two_sets(
        alloc,
        Ok(no_statistics(alloc)),
        bounded_without_null(alloc, 20, 30),
    )
}

// Of zones from 0 to 5, of which nothing is known, and from 20 to 30 without a null.
fn three_sets(alloc: Global) -> ManySets {
    let mut sets = first_set(alloc)?;
    push_set(&mut sets, Ok(no_statistics(alloc)))?;
    push_set(&mut sets, bounded_without_null(alloc, 20, 30))?;
    Ok(sets)
}

fn map_with(alloc: Global, sets: ManySets) -> Map {
    map_of_sets(alloc, 9, &sets?)
}

fn whole(alloc: Global) -> Map {
    map_with(alloc, three_sets(alloc))
}

fn push(alloc: Global, map: &mut ZoneMap, sets: &[StatsSet]) -> Result<(), StatsError> {
    for set in sets {
        map.push(alloc, &Zone::new(9, slice::from_ref(set)))?;
    }
    Ok(())
}

fn pushed(alloc: Global) -> Map {
    let mut map = map_of_sets(alloc, 9, &[])?;
    push(alloc, &mut map, &three_sets(alloc)?)?;
    Ok(map)
}

fn extend(alloc: Global, map: &mut ZoneMap, sets: &[StatsSet]) -> Result<(), StatsError> {
    let zones = zones_of_sets(alloc, 9, sets)?;
    map.extend(alloc, &zones)
}

fn extended(alloc: Global) -> Map {
    let mut map = map_with(alloc, first_set(alloc))?;
    extend(alloc, &mut map, &other_sets(alloc)?)?;
    Ok(map)
}

// The zones of the other map behind those of the one, if they are of one scope.
fn append(one: &mut ZoneMap, other: &mut ZoneMap) -> Result<(), StatsError> {
    if *one.scope() == *other.scope() {
        one.append(other)
    } else {
        Err(StatsError::Mismatch)
    }
}

// The map of both, which leaves the other without zones.
fn appended(alloc: Global) -> Map {
    let mut one = map_with(alloc, first_set(alloc))?;
    let mut other = map_with(alloc, other_sets(alloc))?;
    append(&mut one, &mut other)?;
    if other.len() == 0 {
        Ok(one)
    } else {
        Err(StatsError::Mismatch)
    }
}

// The map of a zone of the second of two columns.
fn chosen(alloc: Global) -> Map {
    let counts = exactly(alloc, Stat::Max, count(3));
    let sets = two_sets(alloc, Ok(counts), bounds(alloc, 0, 5))?;
    match Zone::of_columns(9, &sets, &[1]) {
        Some(zone) => map_of(alloc, scope(alloc)?, &[zone]),
        None => Err(StatsError::Mismatch),
    }
}

// The cell of a zone under an aggregate.
fn value_of(aggregate: AggregateFnRef, zone: usize) -> Option<ScalarValue> {
    match (aggregate, zone) {
        (AggregateFnRef::Max, 0) => Some(number(5)),
        (AggregateFnRef::Min, 0) => Some(number(0)),
        (AggregateFnRef::Max, 2) => Some(number(30)),
        (AggregateFnRef::Min, 2) => Some(number(20)),
        (AggregateFnRef::NullCount, 2) => Some(count(0)),
        (AggregateFnRef::AllNull, 2) => Some(ScalarValue::from(false)),
        (AggregateFnRef::AllNonNull, 2) => Some(ScalarValue::from(true)),
        _ => None,
    }
}

fn column_under(alloc: Global, head: &StatColumn) -> Result<Column, StatsError> {
    let mut cells = ArrayData::new(alloc, head.dtype());
    for zone in 0..3 {
        cells.push(value_of(head.aggregate(), zone))?;
    }
    told(Column::of_cells(head.dtype(), cells, 0))
}

fn columns_under(alloc: Global, heads: &[StatColumn]) -> Result<Vec<Column>, StatsError> {
    let mut columns = Vec::new(alloc);
    for head in heads {
        columns.push(column_under(alloc, head)?)?;
    }
    Ok(columns)
}

fn columns(alloc: Global) -> Result<Vec<Column>, StatsError> {
    columns_under(alloc, &ZoneMap::heads(alloc, &scope(alloc)?)?)
}

fn of_table(
    alloc: Global,
    scope: Result<Scope, StatsError>,
    rows: Result<Vec<u64>, AllocError>,
    columns: Result<Vec<Column>, StatsError>,
) -> Result<Result<ZoneMap, TableRefused>, StatsError> {
    Ok(ZoneMap::of_table(alloc, scope?, rows?, columns?))
}

fn row_counts(alloc: Global) -> Result<Vec<u64>, AllocError> {
    Ok(Vec::from_array(alloc, [9, 9, 9])?)
}

fn made_of_table(alloc: Global) -> Result<Result<ZoneMap, TableRefused>, StatsError> {
    of_table(alloc, scope(alloc), row_counts(alloc), columns(alloc))
}

fn tabled(alloc: Global) -> Map {
    match made_of_table(alloc)? {
        Ok(map) => Ok(map),
        Err(refused) => Err(refused.error),
    }
}

fn printed(alloc: Global, map: &ZoneMap) -> Result<String, StatsError> {
    Ok(format!(in alloc; "{map:?}")?)
}

// Whether the map looks like the other one, its scope, row counts and cells included.
fn is_like(alloc: Global, map: &ZoneMap, other: Map) -> Result<bool, StatsError> {
    Ok(printed(alloc, map)? == printed(alloc, &other?)?)
}

fn expect_whole(rt: &impl Abort, alloc: Global, map: Map) {
    let map = map.expect(rt, "a map");
    assert!(rt; map.len() == 3 && map.rows(2) == 9);
    assert!(rt; is_like(alloc, &map, whole(alloc)).expect(rt, "an answer"));
}

#[test]
fn maps_are_alike_however_they_are_made(rt: HostRuntime) {
    let alloc = rt.alloc();
    expect_whole(&rt, alloc, pushed(alloc));
    expect_whole(&rt, alloc, extended(alloc));
    expect_whole(&rt, alloc, appended(alloc));
    expect_whole(&rt, alloc, tabled(alloc));
    let (chosen, first) = (chosen(alloc), map_with(alloc, first_set(alloc)));
    assert!(rt; is_like(alloc, &chosen.expect(&rt, "a map"), first).expect(&rt, "an answer"));
}

#[test]
fn heads_name_the_columns_of_the_table(rt: HostRuntime) {
    let alloc = rt.alloc();
    let scope = scope(alloc).expect(&rt, "a scope");
    let heads = ZoneMap::heads(alloc, &scope).expect(&rt, "heads");
    assert!(rt; heads.len() == 7);
    assert!(rt; heads[1].source() == 0 && heads[1].name() == "a#1");
}

fn pruned(alloc: Global, map: &ZoneMap) -> Result<Pruned, StatsError> {
    pruned_by(alloc, map, &above(alloc, 10)?, &Rules::builtin(alloc))
}

fn by_proofs(
    alloc: Global,
    map: &ZoneMap,
    falsifier: Option<BoundExpression>,
    satisfier: Result<Option<BoundExpression>, StatsError>,
) -> Result<Vec<Verdict>, StatsError> {
    prune_by(alloc, map, falsifier.as_ref(), satisfier?.as_ref())
}

// The verdicts by proofs that are made apart.
fn verdicts(alloc: Global, map: &ZoneMap) -> Result<Vec<Verdict>, StatsError> {
    let (predicate, rules) = (above(alloc, 10)?, Rules::builtin(alloc));
    let falsifier = falsify(alloc, &predicate, &rules)?;
    by_proofs(alloc, map, falsifier, satisfy(alloc, &predicate, &rules))
}

fn lists(found: &Pruned) -> bool {
    found.skipped.as_slice() == [0].as_slice() && found.whole.as_slice() == [2].as_slice()
}

fn tells(found: &[Verdict]) -> bool {
    found == [Verdict::Skipped, Verdict::Tested, Verdict::Whole].as_slice()
}

#[test]
fn zones_are_skipped_tested_and_whole(rt: HostRuntime) {
    let alloc = rt.alloc();
    let map = tabled(alloc).expect(&rt, "a map");
    assert!(rt; lists(&pruned(alloc, &map).expect(&rt, "places")));
    assert!(rt; tells(&verdicts(alloc, &map).expect(&rt, "verdicts")));
}

// Whether a map has three zones, or memory was refused and the scope came back.
fn is_made(made: Result<ZoneMap, ZoneMapRefused>, same: &Scope) -> bool {
    match made {
        Ok(map) => map.len() == 3 && *map.scope() == *same,
        Err(refused) => is_memory(&refused.error) && refused.scope == *same,
    }
}

// Whether the map is made, or memory is refused and what was given comes back.
fn is_made_of_table(made: Result<ZoneMap, TableRefused>, scope: &Scope) -> bool {
    match made {
        Ok(map) => map.len() == 3 && *map.scope() == *scope,
        Err(refused) => {
            is_memory(&refused.error)
                && refused.scope == *scope
                && refused.rows.len() == 3
                && refused.columns.len() == 7
        }
    }
}

fn made_of_three(alloc: Global) -> Result<Result<ZoneMap, ZoneMapRefused>, StatsError> {
    let sets = three_sets(alloc)?;
    let zones = zones_of_sets(alloc, 9, &sets)?;
    Ok(ZoneMap::try_new(alloc, scope(alloc)?, &zones))
}

#[test]
fn refused_maps_hand_back(rt: HostRuntime) -> Result<(), Fail> {
    let alloc = rt.alloc();
    let same = scope(alloc)?;
    assert!(rt; is_made(made_of_three(alloc)?, &same));
    assert!(rt; is_made_of_table(made_of_table(alloc)?, &same));
    Ok(())
}

// Whether a call made the map of all zones, or was refused for memory and left this one.
fn is_grown(
    alloc: Global,
    told: Result<(), StatsError>,
    map: &ZoneMap,
    left: Map,
) -> Result<bool, StatsError> {
    match told {
        Ok(()) => is_like(alloc, map, whole(alloc)),
        Err(refused) => Ok(is_memory(&refused) && is_like(alloc, map, left)?),
    }
}

fn appends_or_leaves_both(alloc: Global) -> Result<bool, StatsError> {
    let mut one = map_with(alloc, first_set(alloc))?;
    let mut other = map_with(alloc, other_sets(alloc))?;
    let told = append(&mut one, &mut other);
    let left = if told.is_ok() { 0 } else { 2 };
    Ok(other.len() == left && is_grown(alloc, told, &one, map_with(alloc, first_set(alloc)))?)
}

fn extends_or_leaves(alloc: Global) -> Result<bool, StatsError> {
    let mut one = map_with(alloc, first_set(alloc))?;
    let told = extend(alloc, &mut one, &other_sets(alloc)?);
    is_grown(alloc, told, &one, map_with(alloc, first_set(alloc)))
}

// One zone is pushed behind two, or memory is refused and there are two.
fn pushes_or_leaves(alloc: Global) -> Result<bool, StatsError> {
    let two = two_sets(alloc, bounds(alloc, 0, 5), Ok(no_statistics(alloc)));
    let mut one = map_with(alloc, two)?;
    let last = one_set(alloc, bounded_without_null(alloc, 20, 30)?)?;
    let told = push(alloc, &mut one, &last);
    let two = two_sets(alloc, bounds(alloc, 0, 5), Ok(no_statistics(alloc)));
    is_grown(alloc, told, &one, map_with(alloc, two))
}

#[test]
fn refused_growths_change_nothing(rt: HostRuntime) -> Result<(), Fail> {
    let alloc = rt.alloc();
    assert!(rt; appends_or_leaves_both(alloc)?);
    assert!(rt; extends_or_leaves(alloc)?);
    assert!(rt; pushes_or_leaves(alloc)?);
    Ok(())
}

fn is_pruned(found: Result<Pruned, StatsError>) -> bool {
    match found {
        Ok(found) => lists(&found),
        Err(refused) => is_memory(&refused),
    }
}

fn is_told(found: Result<Vec<Verdict>, StatsError>) -> bool {
    match found {
        Ok(found) => tells(&found),
        Err(refused) => is_memory(&refused),
    }
}

#[test]
fn refused_prunings(rt: HostRuntime) -> Result<(), Fail> {
    let alloc = rt.alloc();
    let map = whole(alloc)?;
    assert!(rt; is_pruned(pruned(alloc, &map)));
    assert!(rt; is_told(verdicts(alloc, &map)));
    Ok(())
}
