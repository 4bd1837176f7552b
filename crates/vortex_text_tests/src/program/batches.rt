// More parts than are scanned at a time: of one column that are 16,385.
use super::*;

// So many parts without rows, of which nothing is known.
fn push_empty_parts(text: &mut String, times: usize) -> Result<(), AllocError> {
    for _ in 0..times {
        text.push_str("part\n")?;
    }
    Ok(())
}

// A text whose first lines are these, then so many empty parts, and then the others.
fn expect_around(
    rt: &impl Abort,
    alloc: Global,
    first: &str,
    times: usize,
    behind: &str,
    printed: &str,
) {
    let mut text = String::from_str(alloc, "column a i64\n").expect(rt, "text");
    push_lines(&mut text, first).expect(rt, "push lines");
    push_empty_parts(&mut text, times).expect(rt, "push empty parts");
    push_lines(&mut text, behind).expect(rt, "push lines");
    let mut want = String::new(alloc);
    push_lines(&mut want, printed).expect(rt, "push lines");
    expect_answer(rt, alloc, text.as_str(), status_of(printed), want.as_str());
}

#[test]
fn places_in_two_batches(rt: HostRuntime) {
    let first = "part / stat a max exact 5 / row 5 \
        / part / stat a min exact 20 / stat a null_count exact 0 / row 20 / part / row 11 / row 5";
    let behind = "part / row 12 / part / stat a max exact 6 / row 6 \
        / part / stat a min exact 30 / stat a null_count exact 0 / row 30 / row 31 \
        / part / row 6 / row 13 / where gt col a lit i64 10";
    let printed = "skipped 0 16385 / rows 1:0 2:0 16384:0 16386:0 16386:1 16387:1 / whole 1 16386";
    expect_around(&rt, rt.alloc(), first, 16381, behind, printed);
}

#[test]
fn found_in_the_second_batch_alone(rt: HostRuntime) {
    let behind = "part / row 12 / part / stat a max exact 6 / row 6 / where gt col a lit i64 10";
    let printed = "skipped 16386 / rows 16385:0";
    expect_around(&rt, rt.alloc(), "part", 16384, behind, printed);
}

#[test]
fn joined_where_a_batch_ends(rt: HostRuntime) {
    let behind = "part / stat a min exact 11 / stat a null_count exact 0 / row 11 \
        / part / stat a min exact 12 / stat a null_count exact 0 / row 12 \
        / join 16384 / part / stat a max exact 6 / row 6 / where gt col a lit i64 10";
    let printed = "skipped 16385 / rows 16384:0 16384:1 / whole 16384";
    expect_around(&rt, rt.alloc(), "part", 16383, behind, printed);
}

#[test]
fn joined_in_front_of_a_batch(rt: HostRuntime) {
    let behind = "part / row 11 / part / stat a max exact 6 / row 6 / part / row 13 \
        / join 0 / where gt col a lit i64 10";
    let printed = "skipped 16385 / rows 0:1 16384:0 16386:0";
    expect_around(
        &rt,
        rt.alloc(),
        "part / row 5 / part / row 14",
        16383,
        behind,
        printed,
    );
}

#[test]
fn many_parts_and_a_predicate_of_another_type(rt: HostRuntime) {
    expect_around(&rt, rt.alloc(), "part", 16390, "where col a", "predicate");
}
