//! Zones that are told and read back, neighbours that are joined, and the map of a stretch.
use crate::fixtures::{join_first, map_of, map_of_last_two, three_zones, told};
use std::process::Abort;
use vortex_base::{PValue, ValueRef};
use vortex_zone_map::ZoneMap;

// The columns of a map's table that these tests read: of the numbers the greatest and the least,
// of the bytes the last ones and how many are null.
const GREATEST: usize = 0;

const LEAST: usize = 1;

const LAST: usize = 7;

const NULLS: usize = 9;

// A map tells these bounds of the numbers of a zone.
fn expect_numbers(rt: &impl Abort, map: &ZoneMap, zone: usize, (low, high): (i64, i64)) {
    let number = told(map, GREATEST, zone);
    assert!(rt; matches!(number, Some(ValueRef::Primitive(PValue::I64(n))) if n == high));
    let number = told(map, LEAST, zone);
    assert!(rt; matches!(number, Some(ValueRef::Primitive(PValue::I64(n))) if n == low));
}

// It tells so many nulls of the bytes of a zone, and that none are above these.
fn expect_bytes(rt: &impl Abort, map: &ZoneMap, zone: usize, nulls: u64, last: &[u8]) {
    let count = told(map, NULLS, zone);
    assert!(rt; matches!(count, Some(ValueRef::Primitive(PValue::U64(n))) if n == nulls));
    let bytes = told(map, LAST, zone);
    assert!(rt; matches!(bytes, Some(ValueRef::Binary(bytes)) if bytes.as_slice() == last));
}

#[test]
fn map_of_a_stretch_has_its_zones_alone(rt: HostRuntime) {
    let alloc = rt.alloc();
    let log = three_zones(alloc).expect(&rt, "log");
    assert!(rt; log.len() == 3 && log.rows(1) == 4);
    let map = map_of_last_two(alloc, &log).expect(&rt, "map");
    assert!(rt; map.len() == 2);
    expect_numbers(&rt, &map, 0, (8, 9));
    expect_bytes(&rt, &map, 0, 1, b"quince");
    expect_numbers(&rt, &map, 1, (-5, 1));
    expect_bytes(&rt, &map, 1, 5, b"fig");
}

#[test]
fn neighbours_are_joined(rt: HostRuntime) {
    let alloc = rt.alloc();
    let mut log = three_zones(alloc).expect(&rt, "log");
    join_first(alloc, &mut log).expect(&rt, "join first");
    assert!(rt; log.len() == 2);
    assert!(rt; log.rows(0) == 7 && log.rows(1) == 5);
    let map = map_of(alloc, &log).expect(&rt, "map");
    expect_numbers(&rt, &map, 0, (2, 9));
    expect_bytes(&rt, &map, 0, 1, b"quince");
    expect_numbers(&rt, &map, 1, (-5, 1));
}
