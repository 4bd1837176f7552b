//! Selected rows by themselves: numbers of 32 bits and beyond, going through them, equality.
use super::*;
use vortex_prune::SelectedRows;

// The first number that takes more than 32 bits.
const WIDE: usize = 4_294_967_296;

// These rows, in this order.
fn selected(alloc: Global, rows: &[(usize, usize)]) -> Result<SelectedRows, AllocError> {
    let mut selected = SelectedRows::new(alloc);
    for (part, row) in rows {
        selected.push(*part, *row)?;
    }
    Ok(selected)
}

// Whether these rows stand at their places.
fn are_at_places(selected: &SelectedRows, rows: &[(usize, usize)]) -> bool {
    for i in 0..rows.len() {
        if selected.get(i) != Some(rows[i]) {
            return false;
        }
    }
    selected.len() == rows.len() && selected.is_empty() == rows.is_empty()
}

// Whether these rows are kept, are gone through in this order, and become pairs.
fn are_kept(alloc: Global, rows: &[(usize, usize)]) -> Result<bool, AllocError> {
    let selected = selected(alloc, rows)?;
    let mut gone = Vec::new(alloc);
    for row in selected.iter() {
        gone.push(row)?;
    }
    let are_at_places = are_at_places(&selected, rows);
    let pairs = selected.into_pairs()?;
    Ok(are_at_places && gone.as_slice() == rows && pairs.as_slice() == rows)
}

#[test]
fn rows_of_any_number_are_kept(rt: HostRuntime) {
    let alloc = rt.alloc();
    let rows = [
        (0, 1),
        (7, WIDE - 1),
        (WIDE - 1, 2),
        (7, WIDE),
        (WIDE, 3),
        (9, 4),
    ];
    for count in 0..7 {
        let kept = are_kept(alloc, rows.get(..count).expect(&rt, "rows"));
        assert!(rt; kept.expect(&rt, "memory"));
    }
}

#[test]
fn the_same_rows_are_equal(rt: HostRuntime) {
    let alloc = rt.alloc();
    let few = selected(alloc, &[(0, 1), (2, 3)]).expect(&rt, "rows");
    let others = selected(alloc, &[(0, 1), (2, WIDE)]).expect(&rt, "rows");
    let fewer = selected(alloc, &[(0, 1)]).expect(&rt, "rows");
    let again = selected(alloc, &[(0, 1), (2, 3)]).expect(&rt, "rows");
    assert!(rt; few == again && few != others && few != fewer && fewer != others);
    assert_eq!(rt; few.get(2), None);
}
