//! Tables of statistics of each type, which maps are filled from.
use std::alloc::Global;
use vortex_capi::fault::Fault;
use vortex_capi::field::Field;
use vortex_capi::prune::prune;
use vortex_capi::statistic::Statistic;

const NOWHERE: Fault = Fault {
    row: 9,
    column: 9,
    entry: 9,
};

// The statistic of a number of column 0, from the first byte on.
fn statistic<'a>(stat: u8, known: &'a [u8], values: &'a [u8], ends: &'a [u64]) -> Statistic<'a> {
    Statistic {
        column: 0,
        stat,
        start: 0,
        known,
        values,
        ends,
    }
}

// The answers for four zones of four rows of a column that has null, or where the call is refused.
fn pruned(
    alloc: Global,
    kind: u8,
    stats: &[Statistic<'_>],
    predicate: &[u8],
) -> ([u8; 4], u8, usize) {
    let field = Field {
        name: b"a",
        kind,
        nullable: 1,
        unit: 0,
        precision: 0,
        scale: 0,
    };
    let mut answers = [9u8; 4];
    let mut fault = NOWHERE;
    let (scope, rows) = ([field], [4, 4, 4, 4]);
    let status = prune(
        alloc,
        &scope,
        &rows,
        stats,
        predicate,
        0,
        &mut answers,
        &mut fault,
    );
    (answers, status, fault.row)
}

// Whether the greatest values 1 exactly, 2 at most, an absent one and 3 exactly skip the first two
// zones under a comparison with 2.
fn is_skipped_by_greatest(alloc: Global, kind: u8, values: &[u8], predicate: &[u8]) -> bool {
    let greatest = statistic(3, &[1, 2, 0, 1], values, &[]);
    pruned(alloc, kind, &[greatest], predicate) == ([1, 1, 0, 0], 0, 9)
}

#[test]
fn zones_of_numbers_are_skipped(rt: HostRuntime) {
    let alloc = rt.alloc();
    let one = [1, 2, 99, 3];
    let two = [1, 0, 2, 0, 99, 0, 3, 0];
    let four = [1, 0, 0, 0, 2, 0, 0, 0, 99, 0, 0, 0, 3, 0, 0, 0];
    let mut eight = [0u8; 32];
    (eight[0], eight[8], eight[16], eight[24]) = (1, 2, 99, 3);
    assert!(rt; is_skipped_by_greatest(alloc, 2, &one, b"gt col a lit u8 2"));
    assert!(rt; is_skipped_by_greatest(alloc, 3, &two, b"gt col a lit u16 2"));
    assert!(rt; is_skipped_by_greatest(alloc, 4, &four, b"gt col a lit u32 2"));
    assert!(rt; is_skipped_by_greatest(alloc, 5, &eight, b"gt col a lit u64 2"));
    assert!(rt; is_skipped_by_greatest(alloc, 6, &one, b"gt col a lit i8 2"));
    assert!(rt; is_skipped_by_greatest(alloc, 7, &two, b"gt col a lit i16 2"));
    assert!(rt; is_skipped_by_greatest(alloc, 8, &four, b"gt col a lit i32 2"));
    assert!(rt; is_skipped_by_greatest(alloc, 9, &eight, b"gt col a lit i64 2"));
}

#[test]
fn zones_of_truths_are_skipped(rt: HostRuntime) {
    let greatest = statistic(3, &[1, 2, 0, 1], &[0, 0, 9, 1], &[]);
    let found = pruned(rt.alloc(), 1, &[greatest], b"eq col a lit bool true");
    assert!(rt; found == ([1, 1, 0, 0], 0, 9));
}

#[test]
fn zones_of_texts_are_skipped(rt: HostRuntime) {
    let greatest = statistic(3, &[1, 2, 0, 1], b"aabc", &[1, 2, 3, 4]);
    let found = pruned(rt.alloc(), 10, &[greatest], b"gt col a lit utf8 \"b\"");
    assert!(rt; found == ([1, 1, 0, 0], 0, 9));
}

#[test]
fn zones_of_bytes_are_skipped(rt: HostRuntime) {
    let greatest = statistic(3, &[1, 2, 0, 1], &[1, 2, 99, 3], &[1, 2, 3, 4]);
    let found = pruned(rt.alloc(), 11, &[greatest], b"gt col a lit binary x02");
    assert!(rt; found == ([1, 1, 0, 0], 0, 9));
}

// Exact counts of nulls 0 and 4, the same as bounds.
#[test]
fn zones_are_told_by_their_nulls(rt: HostRuntime) {
    let alloc = rt.alloc();
    let mut counts = [0u8; 32];
    (counts[8], counts[24]) = (4, 4);
    let nulls = statistic(6, &[1, 1, 2, 2], &counts, &[]);
    let found = pruned(alloc, 9, &[nulls], b"isnull col a");
    assert!(rt; found == ([1, 2, 1, 0], 0, 9));
    let found = pruned(alloc, 9, &[nulls], b"notnull col a");
    assert!(rt; found == ([2, 1, 2, 0], 0, 9));
}

// Of two statistics of one number the later counts, also where it is absent.
#[test]
fn the_later_of_two_counts(rt: HostRuntime) {
    let first = statistic(3, &[1, 1, 1, 1], &[1, 9, 1, 9], &[]);
    let later = statistic(3, &[1, 1, 0, 0], &[9, 1, 1, 1], &[]);
    let found = pruned(rt.alloc(), 2, &[first, later], b"gt col a lit u8 2");
    assert!(rt; found == ([0, 1, 0, 0], 0, 9));
}

#[test]
fn refusals_tell_their_zone(rt: HostRuntime) {
    let alloc = rt.alloc();
    let predicate = b"gt col a lit u8 2";
    let unknown = statistic(3, &[1, 1, 3, 1], &[1, 1, 1, 1], &[]);
    assert!(rt; pruned(alloc, 2, &[unknown], predicate) == ([9; 4], 7, 2));
    let truth = statistic(0, &[1, 1, 1, 2], &[1, 1, 1, 2], &[]);
    assert!(rt; pruned(alloc, 2, &[truth], predicate) == ([9; 4], 10, 3));
    let text = statistic(3, &[1, 1, 1, 1], &[97, 255], &[1, 2, 2, 2]);
    assert!(rt; pruned(alloc, 10, &[text], b"isnull col a") == ([9; 4], 10, 1));
    let back = statistic(3, &[1, 1, 1, 1], &[97, 97], &[1, 2, 1, 2]);
    assert!(rt; pruned(alloc, 10, &[back], b"isnull col a") == ([9; 4], 9, 2));
}

// Whether a table of one statistic is refused for its lengths, whatever its zones.
fn is_of_other_length(alloc: Global, kind: u8, statistic: Statistic<'_>) -> bool {
    pruned(alloc, kind, &[statistic], b"isnull col a") == ([9; 4], 8, 0)
}

#[test]
fn arrays_of_another_length_are_refused(rt: HostRuntime) {
    let alloc = rt.alloc();
    let known = &[0; 4];
    assert!(rt; is_of_other_length(alloc, 2, statistic(3, &[0; 3], &[0; 4], &[])));
    assert!(rt; is_of_other_length(alloc, 2, statistic(3, &[0; 5], &[0; 4], &[])));
    assert!(rt; is_of_other_length(alloc, 2, statistic(3, known, &[0; 3], &[])));
    assert!(rt; is_of_other_length(alloc, 2, statistic(3, known, &[0; 5], &[])));
    assert!(rt; is_of_other_length(alloc, 2, statistic(3, known, &[0; 4], &[0; 4])));
    assert!(rt; is_of_other_length(alloc, 3, statistic(3, known, &[0; 4], &[])));
    assert!(rt; is_of_other_length(alloc, 10, statistic(3, known, &[], &[0; 3])));
    assert!(rt; is_of_other_length(alloc, 10, statistic(3, known, &[], &[0; 5])));
}

#[test]
fn heap_behind_the_last_end_is_left_alone(rt: HostRuntime) {
    let greatest = statistic(3, &[1, 0, 0, 0], b"ab more", &[2, 2, 2, 2]);
    let found = pruned(rt.alloc(), 10, &[greatest], b"gt col a lit utf8 b");
    assert!(rt; found == ([9; 4], 2, 0));
    let found = pruned(rt.alloc(), 10, &[greatest], b"gt col a lit utf8 \"b\"");
    assert!(rt; found == ([1, 0, 0, 0], 0, 9));
}
