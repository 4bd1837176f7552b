// The worked inputs: two parts of numbers, texts and nulls, a null test without bounds.
use super::*;

// The first run's parts, without a predicate.
const TWO_PARTS: &str = "\
column a i64?
part
stat a min exact 1
stat a max exact 10
row 1
row 5
row 10
part
stat a min exact 8
stat a max inexact 25
row 8
row null
row 20
";

const TEXTS_AND_NULLS: &str = r#"column s utf8
column n u8?
part
stat s min exact "apple"
stat s max exact "pear"
row "apple" 3
row "pear" null
part
stat s min inexact "q"
stat s max exact "rose"
stat n null_count exact 0
row "rose" 7
"#;

#[test]
fn literals_about_the_bounds(rt: HostRuntime) {
    let cases = "
        where gt col a lit i64 10 => skipped 0 / rows 1:2
        where gt col a lit i64 9 => skipped / rows 0:2 1:2
        where gt col a lit i64 25 => skipped 0 1 / rows
        where gt col a lit i64 9223372036854775808 => line 14: bad
    ";
    expect_each(&rt, rt.alloc(), TWO_PARTS, cases);
}

#[test]
fn the_first_run_joined(rt: HostRuntime) {
    let cases = "
        join 0 / where gt col a lit i64 10 => skipped / rows 0:5
        join 0 / where gt col a lit i64 25 => skipped 0 / rows
    ";
    expect_each(&rt, rt.alloc(), TWO_PARTS, cases);
}

#[test]
fn texts_and_nulls(rt: HostRuntime) {
    let cases = r#"
        where or like col s lit utf8 "pre%" isnull col n => skipped 1 / rows 0:1
        where like col s lit utf8 "pre%" => skipped 0 1 / rows
        where isnull col n => skipped 1 / rows 0:1
        where eq col s lit utf8 "rose" => skipped 0 / rows 1:0
    "#;
    expect_each(&rt, rt.alloc(), TEXTS_AND_NULLS, cases);
}

#[test]
fn a_null_test_without_bounds(rt: HostRuntime) {
    let front = "column a i32\npart\nstat a null_count exact 0\n";
    expect_each(
        &rt,
        rt.alloc(),
        front,
        "where isnull col a => skipped 0 / rows",
    );
}
