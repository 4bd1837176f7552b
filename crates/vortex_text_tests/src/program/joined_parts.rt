// Joins: which parts they take, what they leave of the statistics, what may follow them.
use super::*;

const THREE_PARTS: &str = "\
column a i64?
part
row 1
part
row 2
row null
part
row 3
";

#[test]
fn later_parts_move_down(rt: HostRuntime) {
    let cases = "
        join 0 / where ge col a lit i64 1 => skipped / rows 0:0 0:1 1:0
        join 1 / where ge col a lit i64 1 => skipped / rows 0:0 1:0 1:2
        join 1 / join 0 / where ge col a lit i64 1 => skipped / rows 0:0 0:1 0:3
        join 0 / join 0 / where isnull col a => skipped / rows 0:2
        join 0 / part / row 4 / where ge col a lit i64 3 => skipped / rows 1:0 2:0
        part / row 4 / join 0 / where eq col a lit i64 4 => skipped / rows 2:0
        part / row 4 / join 1 / where eq col a lit i64 4 => skipped / rows 2:0
    ";
    expect_each(&rt, rt.alloc(), THREE_PARTS, cases);
}

#[test]
fn numbers_of_parts_to_join(rt: HostRuntime) {
    let cases = "
        join 00 / where gt col a lit i64 2 => skipped / rows 1:0
        join 2 => line 9: bad
        join -0 => line 9: bad
        join +0 => line 9: bad
        join 0x0 => line 9: bad
        join 18446744073709551615 => line 9: bad
        join 18446744073709551616 => line 9: bad
        join => line 9: bad
        join 0 1 => line 9: bad
        join 0 / join 0 / join 0 => line 11: bad
    ";
    expect_each(&rt, rt.alloc(), THREE_PARTS, cases);
}

// A join closes the last part, also where it joins others.
#[test]
fn lines_after_a_join(rt: HostRuntime) {
    let cases = "
        join 0 / row 4 => line 10: bad
        join 0 / stat a max exact 3 => line 10: bad
        join 1 / row 4 => line 10: bad
        join 0 / part / row 4 / join 0 / row 5 => line 13: bad
        join 0 / column b i64 => line 10: bad
    ";
    expect_each(&rt, rt.alloc(), THREE_PARTS, cases);
}

#[test]
fn bounds_of_joined_parts(rt: HostRuntime) {
    let cases = "
        stat a max exact 42 / part / stat a max inexact 43 / join 0
        where gt col a lit i64 43 => skipped 0 / rows
        stat a max exact 42 / part / stat a max inexact 43 / join 0
        where gt col a lit i64 42 => skipped / rows
        stat a max exact 42 / part / join 0 / where gt col a lit i64 42 => skipped / rows
        part / stat a max exact 42 / join 0 / where gt col a lit i64 42 => skipped / rows
        stat a min exact 37 / part / stat a min exact 42 / join 0
        where lt col a lit i64 37 => skipped 0 / rows
        stat a min exact 42 / part / stat a min exact 37 / join 0
        where lt col a lit i64 38 => skipped / rows
    ";
    expect_each(&rt, rt.alloc(), "column a i64\npart\n", cases);
}

#[test]
fn null_counts_of_joined_parts(rt: HostRuntime) {
    let front = "column a i64?\npart\nrow null\nrow null\nstat a null_count exact 2\npart\n\
        row null\n";
    let cases = "
        stat a null_count exact 1 / join 0 / where notnull col a => skipped 0 / rows
        stat a null_count inexact 1 / join 0 / where notnull col a => skipped / rows
        join 0 / where notnull col a => skipped / rows
        stat a null_count exact 0 / join 0 / where isnull col a => skipped / rows 0:0 0:1 0:2
    ";
    expect_each(&rt, rt.alloc(), front, cases);
}

// A count past 64 bits is left out, and doesn't begin again at 0.
#[test]
fn counts_past_64_bits(rt: HostRuntime) {
    let front = "column a i64?\npart\nrow null\n\
        stat a null_count exact 18446744073709551615\npart\n";
    let cases = "
        stat a null_count exact 1 / join 0 / where isnull col a => skipped / rows 0:0
        stat a null_count inexact 1 / join 0 / where isnull col a => skipped / rows 0:0
        stat a null_count exact 0 / join 0 / where isnull col a => skipped / rows 0:0
        stat a null_count exact 2 / join 0 / where notnull col a => skipped / rows
    ";
    expect_each(&rt, rt.alloc(), front, cases);
}

#[test]
fn sums_and_sizes_past_64_bits(rt: HostRuntime) {
    let front = "column i i64\ncolumn u u64\npart\nrow 1 2\n";
    let cases = "
        stat i sum exact 9223372036854775807 / part / stat i sum exact 1 / join 0
        where gt col i lit i64 0 => skipped / rows 0:0
        stat i sum exact -9223372036854775808 / part / stat i sum exact -1 / join 0
        where gt col i lit i64 0 => skipped / rows 0:0
        stat u sum exact 18446744073709551615 / part / stat u sum exact 1 / join 0
        where gt col i lit i64 0 => skipped / rows 0:0
        stat u uncompressed_size_in_bytes exact 18446744073709551615 / part
        stat u uncompressed_size_in_bytes inexact 1 / join 0
        where gt col i lit i64 0 => skipped / rows 0:0
    ";
    expect_each(&rt, rt.alloc(), front, cases);
}

// So many columns of small numbers, by their names.
fn push_columns(text: &mut String, alloc: Global, count: usize) -> Result<(), AllocError> {
    for place in 0..count {
        let line = format!(in alloc; "column c{place} u8\n")?;
        text.push_str(line.as_str())?;
    }
    Ok(())
}

// A part with one row, which has this value in each column.
fn push_part(text: &mut String, value: &str, count: usize) -> Result<(), AllocError> {
    text.push_str("part\nrow")?;
    for _ in 0..count {
        text.push_str(value)?;
    }
    text.push_str("\n")?;
    Ok(())
}

#[test]
fn parts_of_many_columns(rt: HostRuntime) {
    let (alloc, count) = (rt.alloc(), 100_000);
    let mut text = String::new(alloc);
    push_columns(&mut text, alloc, count).expect(&rt, "push columns");
    text.push_str("part\npart\njoin 0\n")
        .expect(&rt, "push str");
    push_part(&mut text, " 7", count).expect(&rt, "push part");
    push_part(&mut text, " 8", count).expect(&rt, "push part");
    text.push_str("join 1\nwhere eq col c99999 lit u8 8\n")
        .expect(&rt, "push str");
    expect_answer(&rt, alloc, text.as_str(), 0, "skipped\nrows 1:1\n");
}
