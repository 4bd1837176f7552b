//! The call that prunes by a condition in SQL, as a caller in C makes it.

use std::alloc::Global;
use vortex_capi::fault::Fault;
use vortex_capi::field::Field;
use vortex_capi::span::Span;
use vortex_capi::sql::prune_sql::prune_sql;
use vortex_capi::statistic::Statistic;

const NOWHERE: Fault = Fault {
    row: 9,
    column: 9,
    entry: 9,
};

const BLANK: Span = Span { start: 9, end: 9 };

const QTY: Field<'static> = Field {
    name: b"qty",
    kind: 2,
    nullable: 1,
    unit: 0,
    precision: 0,
    scale: 0,
};

// The greatest and the least values of three zones of four rows: 1 to 3, 4 to 6 and 7 to 9; none is
// null.
const GREATEST: Statistic<'static> = Statistic {
    column: 0,
    stat: 3,
    start: 0,
    known: &[1, 1, 1],
    values: &[3, 6, 9],
    ends: &[],
};

const LEAST: Statistic<'static> = Statistic {
    column: 0,
    stat: 4,
    start: 0,
    known: &[1, 1, 1],
    values: &[1, 4, 7],
    ends: &[],
};

const NULLS: Statistic<'static> = Statistic {
    column: 0,
    stat: 6,
    start: 0,
    known: &[1, 1, 1],
    values: &[
        0, 0, 0, 0, 0, 0, 0, 0, 0, 0, 0, 0, 0, 0, 0, 0, 0, 0, 0, 0, 0, 0, 0, 0,
    ],
    ends: &[],
};

// The status of a call, and what it leaves in the arrays of its caller.
#[derive(Clone, Copy)]
struct Called {
    status: u8,
    answers: [u8; 3],
    unread: [Span; 2],
    len: usize,
    fault: Fault,
}

fn made_call(alloc: Global, text: &[u8], flags: u8, stats: &[Statistic<'_>]) -> Called {
    let mut called = Called {
        status: 0,
        answers: [9; 3],
        unread: [BLANK; 2],
        len: 7,
        fault: NOWHERE,
    };
    called.status = prune_sql(
        alloc,
        &[QTY],
        &[4, 4, 4],
        stats,
        text,
        flags,
        &mut called.answers,
        &mut called.unread,
        &mut called.len,
        &mut called.fault,
    );
    called
}

fn pruned(alloc: Global, text: &[u8]) -> Called {
    made_call(alloc, text, 0, &[GREATEST, LEAST, NULLS])
}

// Whether the call answered so, and each leaf was read.
fn answers(alloc: Global, text: &[u8], wanted: [u8; 3]) -> bool {
    let called = pruned(alloc, text);
    called.status == 0
        && called.answers == wanted
        && called.len == 0
        && called.unread == [BLANK; 2]
        && called.fault.entry == 9
}

// Whether the call was refused with a status at these places, and left the arrays as they were.
fn is_refused(called: Called, status: u8, start: usize, end: usize, why: usize) -> bool {
    called.status == status
        && called.answers == [9; 3]
        && called.unread == [BLANK; 2]
        && called.len == 7
        && called.fault.entry == start
        && called.fault.row == end
        && called.fault.column == why
}

#[test]
fn zones_are_pruned(rt: HostRuntime) {
    let alloc = rt.alloc();
    assert!(rt; answers(alloc, b"qty > 3", [1, 2, 2]));
    assert!(rt; answers(alloc, b"3 < qty", [1, 2, 2]));
    assert!(rt; answers(alloc, b"qty BETWEEN 2 AND 6", [0, 2, 1]));
    assert!(rt; answers(alloc, b"NOT qty IN (1, 3)", [0, 2, 2]));
    assert!(rt; answers(alloc, b"qty IS NULL", [1, 1, 1]));
    assert!(rt; answers(alloc, b"qty > 3.5 IS TRUE", [1, 2, 2]));
    assert!(rt; answers(alloc, b"1 = 1", [2, 2, 2]));
}

#[test]
fn leaves_that_are_not_read_are_told(rt: HostRuntime) {
    let alloc = rt.alloc();
    let called = pruned(alloc, b"qty > 3 AND lower(city) = 'rome'");
    assert!(rt; called.status == 0 && called.answers == [1, 0, 0]);
    assert!(rt; called.len == 1);
    assert!(rt; called.unread == [Span { start: 12, end: 32 }, BLANK]);
    let called = pruned(alloc, b"qty > 3 OR NOT city = 'rome'");
    assert!(rt; called.status == 0 && called.answers == [0, 2, 2]);
    assert!(rt; called.unread == [Span { start: 15, end: 28 }, BLANK]);
}

#[test]
fn names_of_several_parts_are_read_by_a_flag(rt: HostRuntime) {
    let alloc = rt.alloc();
    let stats = &[GREATEST, LEAST, NULLS];
    let plain = made_call(alloc, b"t.qty > 3", 0, stats);
    assert!(rt; plain.answers == [0, 0, 0] && plain.len == 1);
    let last = made_call(alloc, b"t.qty > 3", 2, stats);
    assert!(rt; last.answers == [1, 2, 2] && last.len == 0);
}

#[test]
fn too_little_room_is_told(rt: HostRuntime) {
    let called = pruned(rt.alloc(), b"f(1) = 1 OR f(2) = 2 OR f(3) = 3");
    assert!(rt; called.status == 3 && called.len == 3);
    assert!(rt; called.answers == [9; 3] && called.unread == [BLANK; 2]);
    assert!(rt; called.fault.entry == 9);
}

#[test]
fn texts_are_refused_at_a_place(rt: HostRuntime) {
    let alloc = rt.alloc();
    assert!(rt; is_refused(pruned(alloc, b"qty > > 3"), 18, 6, 0, 0));
    assert!(rt; is_refused(pruned(alloc, b"qty > "), 18, 6, 0, 0));
    assert!(rt; is_refused(pruned(alloc, b"qty > 'a"), 18, 6, 0, 1));
    assert!(rt; is_refused(pruned(alloc, b"qty > 3 -- 4"), 18, 8, 0, 2));
    assert!(rt; is_refused(pruned(alloc, b"qty = E'a'"), 18, 6, 0, 3));
    assert!(rt; is_refused(pruned(alloc, b"qty = $1"), 18, 6, 0, 4));
    assert!(rt; is_refused(pruned(alloc, b"qty > 3AND"), 18, 6, 0, 5));
    assert!(rt; is_refused(pruned(alloc, b"c = 'a' 'b'"), 18, 8, 0, 6));
    assert!(rt; is_refused(pruned(alloc, b"qty > \xff"), 18, 6, 0, 7));
    assert!(rt; is_refused(pruned(alloc, b"qty > 3 OR qty = 'abc'"), 19, 11, 22, 0));
}

#[test]
fn arguments_are_refused_in_order(rt: HostRuntime) {
    let alloc = rt.alloc();
    let bad = Statistic {
        stat: 99,
        ..GREATEST
    };
    assert!(rt; is_refused(made_call(alloc, b"", 1, &[bad]), 16, 0, 0, 0));
    assert!(rt; is_refused(made_call(alloc, b"", 0, &[bad]), 18, 0, 0, 0));
    assert!(rt; is_refused(made_call(alloc, b"f(1)", 0, &[NULLS, bad]), 6, 1, 0, 0));
}

#[test]
fn deep_texts_are_refused(rt: HostRuntime) {
    let alloc = rt.alloc();
    let mut text = [b'('; 200];
    text[199] = b'1';
    let called = pruned(alloc, &text);
    assert!(rt; called.status == 17 && called.fault.row == 0 && called.fault.column == 0);
}
