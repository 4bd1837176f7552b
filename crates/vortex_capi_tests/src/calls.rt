//! Each call once, as a caller in C makes it.

use std::alloc::Global;
use vortex_capi::check::check;
use vortex_capi::fault::Fault;
use vortex_capi::field::Field;
use vortex_capi::measure::measure;
use vortex_capi::merge::merge;
use vortex_capi::merge_zones::merge_zones;
use vortex_capi::prune::prune;
use vortex_capi::statistic::Statistic;
use vortex_capi::values::Values;

const NOWHERE: Fault = Fault {
    row: 9,
    column: 9,
    entry: 9,
};

// Three numbers of 16 bits, of which the second is null.
const NUMBERS: Values<'static> = Values {
    kind: 7,
    nullable: 1,
    rows: 3,
    size: 6,
    start: 0,
    values: &[5, 0, 0, 0, 254, 255],
    ends: &[],
    nulls: &[0, 1, 0],
};

#[test]
fn a_column_is_measured(rt: HostRuntime) {
    let mut known = [9u8; 3];
    let mut ends = [9u64; 3];
    let mut values = [9u8; 16];
    let mut len = 0;
    let mut fault = NOWHERE;
    let status = measure(
        rt.alloc(),
        &NUMBERS,
        &[4, 3, 6],
        &mut known,
        &mut ends,
        &mut values,
        &mut len,
        &mut fault,
    );
    assert_eq!(rt; status, 0);
    assert_eq!(rt; len, 12);
    assert!(rt; known == [1, 1, 1]);
    assert!(rt; ends == [2, 4, 12]);
    assert!(rt; values == [254, 255, 5, 0, 1, 0, 0, 0, 0, 0, 0, 0, 9, 9, 9, 9]);
}

#[test]
fn nulls_alone_have_no_bounds(rt: HostRuntime) {
    let mut known = [9u8; 3];
    let mut ends = [9u64; 3];
    let mut values = [9u8; 12];
    let mut len = 0;
    let mut fault = NOWHERE;
    let mut column = NUMBERS;
    column.nulls = &[1, 1, 1];
    let status = measure(
        rt.alloc(),
        &column,
        &[4, 3, 6],
        &mut known,
        &mut ends,
        &mut values,
        &mut len,
        &mut fault,
    );
    assert_eq!(rt; status, 0);
    assert!(rt; known == [0, 0, 1]);
    assert!(rt; values == [0, 0, 0, 0, 3, 0, 0, 0, 0, 0, 0, 0]);
}

#[test]
fn a_null_of_a_type_without_null_is_refused(rt: HostRuntime) {
    let mut known = [9u8; 1];
    let mut ends = [9u64; 1];
    let mut values = [9u8; 2];
    let mut len = 0;
    let mut fault = NOWHERE;
    let mut column = NUMBERS;
    column.nullable = 0;
    let status = measure(
        rt.alloc(),
        &column,
        &[3],
        &mut known,
        &mut ends,
        &mut values,
        &mut len,
        &mut fault,
    );
    assert_eq!(rt; status, 11);
    assert_eq!(rt; fault.row, 1);
    assert!(rt; values == [9, 9]);
}

#[test]
fn a_statistic_is_checked(rt: HostRuntime) {
    let mut fault = NOWHERE;
    let mut stat = Statistic {
        column: 0,
        stat: 3,
        start: 0,
        known: &[0, 2],
        values: &[0, 0, 6, 0],
        ends: &[],
    };
    assert_eq!(rt; check(rt.alloc(), &NUMBERS, 3, &[stat], 1, &mut fault), 0);
    stat.values = &[0, 0, 4, 0];
    assert_eq!(rt;
        check(rt.alloc(), &NUMBERS, 3, &[stat, stat], 1, &mut fault),
        12
    );
    assert_eq!(rt; fault.entry, 0);
    assert_eq!(rt; check(rt.alloc(), &NUMBERS, 3, &[stat], 2, &mut fault), 8);
    assert_eq!(rt; fault.row, 2);
}

#[test]
fn check_of_another_row_count_is_untrue(rt: HostRuntime) {
    let mut fault = NOWHERE;
    let stat = Statistic {
        column: 0,
        stat: 3,
        start: 0,
        known: &[1],
        values: &[5, 0],
        ends: &[],
    };
    assert_eq!(rt;
        check(rt.alloc(), &NUMBERS, 3, &[stat, stat], 0, &mut fault),
        0
    );
    assert_eq!(rt;
        check(rt.alloc(), &NUMBERS, 2, &[stat, stat], 0, &mut fault),
        12
    );
    assert_eq!(rt; fault.entry, 2);
    assert_eq!(rt; check(rt.alloc(), &NUMBERS, 4, &[], 0, &mut fault), 12);
    assert_eq!(rt; fault.entry, 0);
}

// The status of measuring the null count of a column.
fn measure_status(alloc: Global, column: &Values<'_>) -> u8 {
    let (mut known, mut ends, mut values) = ([9u8; 1], [9u64; 1], [9u8; 8]);
    let (mut len, mut fault) = (0, NOWHERE);
    measure(
        alloc,
        column,
        &[6],
        &mut known,
        &mut ends,
        &mut values,
        &mut len,
        &mut fault,
    )
}

#[test]
fn columns_of_another_length_are_refused(rt: HostRuntime) {
    let alloc = rt.alloc();
    assert_eq!(rt; measure_status(alloc, &NUMBERS), 0);
    let mut column = NUMBERS;
    column.rows = 2;
    assert_eq!(rt; measure_status(alloc, &column), 8);
    column.rows = 4;
    assert_eq!(rt; measure_status(alloc, &column), 8);
    column = NUMBERS;
    column.nulls = &[0, 1];
    assert_eq!(rt; measure_status(alloc, &column), 8);
    column.nulls = &[0, 1, 0, 0];
    assert_eq!(rt; measure_status(alloc, &column), 8);
    column.nulls = &[];
    assert_eq!(rt; measure_status(alloc, &column), 0);
    column.ends = &[2, 4, 6];
    assert_eq!(rt; measure_status(alloc, &column), 8);
    column.kind = 10;
    column.values = b"abcdefg";
    assert_eq!(rt; measure_status(alloc, &column), 0);
    column.ends = &[2, 4, 6, 7];
    assert_eq!(rt; measure_status(alloc, &column), 8);
}

#[test]
fn column_of_nulls_takes_no_time_for_each_row(rt: HostRuntime) {
    let mut column = NUMBERS;
    column.kind = 0;
    column.rows = 1_000_000_000_000;
    column.values = &[];
    column.nulls = &[];
    let mut known = [9u8; 1];
    let mut ends = [9u64; 1];
    let mut values = [9u8; 8];
    let mut len = 0;
    let mut fault = NOWHERE;
    let status = measure(
        rt.alloc(),
        &column,
        &[6],
        &mut known,
        &mut ends,
        &mut values,
        &mut len,
        &mut fault,
    );
    assert_eq!(rt; status, 0);
    assert!(rt; values == [0, 16, 165, 212, 232, 0, 0, 0]);
}

// The greatest numbers of 16 bits of two zones, of which the second is a bound.
const GREATEST: Statistic<'static> = Statistic {
    column: 0,
    stat: 3,
    start: 0,
    known: &[1, 2],
    values: &[5, 0, 7, 0],
    ends: &[],
};

#[test]
fn neighbours_are_merged(rt: HostRuntime) {
    let mut known = [9u8; 2];
    let mut ends = [9u64; 2];
    let mut values = [9u8; 5];
    let mut len = 0;
    let mut fault = NOWHERE;
    let mut right = GREATEST;
    right.values = &[6, 0, 4, 0];
    let status = merge(
        rt.alloc(),
        7,
        1,
        2,
        &[GREATEST],
        &[right],
        &mut known,
        &mut ends,
        &mut values,
        &mut len,
        &mut fault,
    );
    assert_eq!(rt; status, 0);
    assert_eq!(rt; len, 4);
    assert!(rt; known == [1, 2]);
    assert!(rt; ends == [2, 4]);
    assert!(rt; values == [6, 0, 7, 0, 9]);
}

// Returns what merging zones of a column of numbers of 16 bits gives: the status, how it is known,
// and its value.
fn together(alloc: Global, zones: usize, stats: &[Statistic<'_>]) -> (u8, [u8; 1], [u8; 2]) {
    let (mut known, mut ends, mut values) = ([9u8; 1], [9u64; 1], [9u8; 2]);
    let (mut len, mut fault) = (0, NOWHERE);
    let status = merge_zones(
        alloc,
        7,
        1,
        zones,
        stats,
        &mut known,
        &mut ends,
        &mut values,
        &mut len,
        &mut fault,
    );
    (status, known, values)
}

#[test]
fn zones_of_a_table_are_merged(rt: HostRuntime) {
    let alloc = rt.alloc();
    assert!(rt; together(alloc, 2, &[GREATEST]) == (0, [2], [7, 0]));
    let mut stat = GREATEST;
    stat.known = &[1, 1, 1];
    stat.values = &[5, 0, 7, 0, 6, 0];
    assert!(rt; together(alloc, 3, &[stat]) == (0, [1], [7, 0]));
    stat.known = &[1];
    stat.values = &[5, 0];
    assert!(rt; together(alloc, 1, &[stat]) == (0, [1], [5, 0]));
    stat.known = &[];
    stat.values = &[];
    assert!(rt; together(alloc, 0, &[stat]) == (0, [0], [0, 0]));
    assert!(rt; together(alloc, 1, &[stat]) == (8, [9], [9, 9]));
}

const SCOPE: [Field<'static>; 1] = [Field {
    name: b"a",
    kind: 7,
    nullable: 0,
    unit: 0,
    precision: 0,
    scale: 0,
}];

#[test]
fn zones_are_pruned(rt: HostRuntime) {
    let mut answers = [9u8; 2];
    let mut fault = NOWHERE;
    let status = prune(
        rt.alloc(),
        &SCOPE,
        &[3, 3],
        &[GREATEST],
        b"gt col a lit i16 5",
        0,
        &mut answers,
        &mut fault,
    );
    assert_eq!(rt; status, 0);
    assert!(rt; answers == [1, 0]);
}

#[test]
fn a_predicate_that_is_none_leaves_the_answers(rt: HostRuntime) {
    let mut answers = [9u8; 2];
    let mut fault = NOWHERE;
    let status = prune(
        rt.alloc(),
        &SCOPE,
        &[3, 3],
        &[GREATEST],
        b"col a",
        1,
        &mut answers,
        &mut fault,
    );
    assert_eq!(rt; status, 15);
    assert!(rt; answers == [9, 9]);
    assert_eq!(rt; fault.entry, 0);
}
