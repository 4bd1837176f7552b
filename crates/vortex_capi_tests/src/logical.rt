//! Columns of dates, times, timestamps and decimals, as a caller in C hands them over.

use std::alloc::Global;
use vortex_capi::fault::Fault;
use vortex_capi::field::Field;
use vortex_capi::prune::prune;
use vortex_capi::span::Span;
use vortex_capi::sql::prune_sql::prune_sql;
use vortex_capi::statistic::Statistic;

const NOWHERE: Fault = Fault {
    row: 9,
    column: 9,
    entry: 9,
};

const BLANK: Span = Span { start: 9, end: 9 };

// Two zones of whole numbers of 32 bits: 10 to 20 and 30 to 40.
const DAYS: [&[u8]; 2] = [&[20, 0, 0, 0, 40, 0, 0, 0], &[10, 0, 0, 0, 30, 0, 0, 0]];

// Two zones of whole numbers of 64 bits: 100 to 199 and 200 to 299.
const NUMBERS: [&[u8]; 2] = [
    &[199, 0, 0, 0, 0, 0, 0, 0, 43, 1, 0, 0, 0, 0, 0, 0],
    &[100, 0, 0, 0, 0, 0, 0, 0, 200, 0, 0, 0, 0, 0, 0, 0],
];

const DAY: Field<'static> = Field {
    name: b"x",
    kind: 12,
    nullable: 0,
    unit: 0,
    precision: 0,
    scale: 0,
};

// A column of times or timestamps in a unit.
fn timed(kind: u8, unit: u8) -> Field<'static> {
    Field { kind, unit, ..DAY }
}

// A column of decimals.
fn decimal(precision: u8, scale: u8) -> Field<'static> {
    Field {
        kind: 16,
        precision,
        scale,
        ..DAY
    }
}

// A statistic of two zones by its number.
fn told(stat: u8, values: &[u8]) -> Statistic<'_> {
    Statistic {
        column: 0,
        stat,
        start: 0,
        known: &[1, 1],
        values,
        ends: &[],
    }
}

// The status, the answers, how many tests aren't read, and the byte at which what is refused
// begins.
fn pruned(
    alloc: Global,
    field: Field<'_>,
    bounds: [&[u8]; 2],
    text: &[u8],
) -> (u8, [u8; 2], usize, usize) {
    let (mut answers, mut unread, mut len) = ([9; 2], [BLANK; 2], 7);
    let mut fault = NOWHERE;
    let nulls = told(6, &[0, 0, 0, 0, 0, 0, 0, 0, 0, 0, 0, 0, 0, 0, 0, 0]);
    let stats = [told(3, bounds[0]), told(4, bounds[1]), nulls];
    let status = prune_sql(
        alloc,
        &[field],
        &[4, 4],
        &stats,
        text,
        0,
        &mut answers,
        &mut unread,
        &mut len,
        &mut fault,
    );
    (status, answers, len, fault.entry)
}

// Whether each zone has the answer, and each test was read.
fn answers(
    alloc: Global,
    field: Field<'_>,
    bounds: [&[u8]; 2],
    text: &[u8],
    wanted: [u8; 2],
) -> bool {
    pruned(alloc, field, bounds, text) == (0, wanted, 0, 9)
}

#[test]
fn dates_are_days(rt: HostRuntime) {
    let alloc = rt.alloc();
    assert!(rt; answers(alloc, DAY, DAYS, b"x >= DATE '1970-01-21'", [0, 2]));
    assert!(rt; answers(alloc, DAY, DAYS, b"x > '1970-01-21'", [1, 2]));
    assert!(rt; answers(alloc, DAY, DAYS, b"DATE '1970-01-11' <= x", [2, 2]));
    assert!(rt;
        answers(
            alloc,
            DAY,
            DAYS,
            b"x IN ('1970-01-01', '1970-02-10')",
            [1, 0]
        )
    );
    // Between two days lies none of them.
    let noon = b"x >= TIMESTAMP '1970-01-21 12:00:00'";
    assert!(rt; answers(alloc, DAY, DAYS, noon, [1, 2]));
}

#[test]
fn times_and_timestamps_have_units(rt: HostRuntime) {
    let alloc = rt.alloc();
    let (milliseconds, seconds) = (timed(14, 2), timed(14, 1));
    let text = b"x > TIMESTAMP '1970-01-01 00:00:00.199'";
    assert!(rt; answers(alloc, milliseconds, NUMBERS, text, [1, 2]));
    assert!(rt; answers(alloc, seconds, NUMBERS, text, [2, 2]));
    let text = b"x < '1970-01-01 00:03:20'";
    assert!(rt; answers(alloc, seconds, NUMBERS, text, [2, 1]));
    let text = b"x >= TIMESTAMPTZ '1970-01-01 02:03:20+02'";
    assert!(rt; answers(alloc, timed(15, 1), NUMBERS, text, [1, 2]));
    assert!(rt;
        answers(
            alloc,
            timed(13, 3),
            NUMBERS,
            b"x < TIME '00:00:00.000200'",
            [2, 1]
        )
    );
    assert!(rt;
        answers(
            alloc,
            timed(13, 4),
            NUMBERS,
            b"x < TIME '00:00:00.000200'",
            [2, 2]
        )
    );
}

#[test]
fn decimals_have_digits_behind_the_point(rt: HostRuntime) {
    let alloc = rt.alloc();
    assert!(rt; answers(alloc, decimal(9, 2), NUMBERS, b"x > 1.995", [1, 2]));
    assert!(rt; answers(alloc, decimal(9, 2), NUMBERS, b"x = 2.5", [1, 0]));
    assert!(rt; answers(alloc, decimal(9, 2), NUMBERS, b"x < 100", [2, 2]));
    assert!(rt; answers(alloc, decimal(18, 0), NUMBERS, b"x < 100", [1, 1]));
}

#[test]
fn other_values_misfit(rt: HostRuntime) {
    let alloc = rt.alloc();
    assert!(rt; pruned(alloc, DAY, DAYS, b"1 = 1 OR x > 5") == (19, [9; 2], 7, 9));
    assert!(rt; pruned(alloc, decimal(9, 2), NUMBERS, b"x > DATE '1970-01-02'").0 == 19);
    assert!(rt; pruned(alloc, timed(14, 1), NUMBERS, b"x > TIME '00:00:05'").0 == 19);
    // Only a server's zone could tell.
    let text = b"x > TIMESTAMPTZ '1970-01-01 00:00:00Z'";
    assert!(rt; pruned(alloc, timed(14, 1), NUMBERS, text) == (0, [0; 2], 1, 9));
}

#[test]
fn units_and_digits_are_those_of_the_kind(rt: HostRuntime) {
    let alloc = rt.alloc();
    let refused = (5, [9; 2], 7, 0);
    assert!(rt; pruned(alloc, timed(13, 0), NUMBERS, b"x IS NULL") == refused);
    assert!(rt; pruned(alloc, timed(14, 5), NUMBERS, b"x IS NULL") == refused);
    assert!(rt; pruned(alloc, timed(12, 1), DAYS, b"x IS NULL") == refused);
    assert!(rt; pruned(alloc, timed(9, 1), NUMBERS, b"x IS NULL") == refused);
    assert!(rt; pruned(alloc, timed(17, 0), NUMBERS, b"x IS NULL") == refused);
    assert!(rt; pruned(alloc, decimal(0, 0), NUMBERS, b"x IS NULL") == refused);
    assert!(rt; pruned(alloc, decimal(19, 2), NUMBERS, b"x IS NULL") == refused);
    let in_days = Field {
        kind: 12,
        ..decimal(9, 2)
    };
    assert!(rt; pruned(alloc, in_days, DAYS, b"x IS NULL") == refused);
}

#[test]
fn numbers_alone_are_compared_in_words(rt: HostRuntime) {
    let (mut answers, mut fault) = ([9; 2], NOWHERE);
    let text = b"lt col x lit i32 5";
    let stats = [told(3, DAYS[0]), told(4, DAYS[1])];
    let (alloc, rows) = (rt.alloc(), [4, 4]);
    let status = prune(
        alloc,
        &[DAY],
        &rows,
        &stats,
        text,
        0,
        &mut answers,
        &mut fault,
    );
    assert!(rt; status == 5 && answers == [9; 2]);
    let days = Field { kind: 8, ..DAY };
    let status = prune(
        alloc,
        &[days],
        &rows,
        &stats,
        text,
        0,
        &mut answers,
        &mut fault,
    );
    assert!(rt; status == 0 && answers == [1; 2]);
}
