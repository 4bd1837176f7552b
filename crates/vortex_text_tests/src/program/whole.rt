//! Parts of which all rows satisfy the predicate: the third line of an answer.
use super::*;

#[test]
fn above_all_values(rt: HostRuntime) {
    let front = "column a i32?\npart\n";
    let cases = "
        row 20 / row null / stat a min exact 20
        where gt col a lit i32 10 => skipped / rows 0:0
        row 20 / row 30 / stat a min exact 20 / stat a null_count exact 0
        where gt col a lit i32 10 => skipped / rows 0:0 0:1 / whole 0
        row 10 / row 30 / stat a min exact 10 / stat a null_count exact 0
        where gt col a lit i32 10 => skipped / rows 0:1
        row 20 / row 30 / stat a min inexact 11 / stat a null_count inexact 0
        where ge col a lit i32 11 => skipped / rows 0:0 0:1 / whole 0
        row null / row 1 / stat a min exact 20 / stat a null_count exact 0
        where gt col a lit i32 10 => skipped / rows 0:0 0:1 / whole 0
    ";
    expect_each(&rt, rt.alloc(), front, cases);
}

#[test]
fn within_a_range(rt: HostRuntime) {
    let front = "column a i32?\npart\nstat a min exact 20\nstat a max exact 30\n\
        stat a null_count inexact 0\nrow 20\nrow 30\n";
    let cases = "
        where between <= <= col a lit i32 20 lit i32 30 => skipped / rows 0:0 0:1 / whole 0
        where between < < col a lit i32 19 lit i32 31 => skipped / rows 0:0 0:1 / whole 0
        where between < <= col a lit i32 20 lit i32 30 => skipped / rows 0:1
        where and ge col a lit i32 20 lt col a lit i32 31 => skipped / rows 0:0 0:1 / whole 0
        where and ge col a lit i32 20 lt col a lit i32 30 => skipped / rows 0:0
        where ne col a lit i32 31 => skipped / rows 0:0 0:1 / whole 0
        where notnull col a => skipped / rows 0:0 0:1 / whole 0
    ";
    expect_each(&rt, rt.alloc(), front, cases);
}

#[test]
fn beside_a_text(rt: HostRuntime) {
    let front = "column a i32?\ncolumn s utf8\npart\nrow 20 \"ax\"\nrow 30 \"ay\"\n\
        stat a min exact 20\nstat a null_count exact 0\n";
    let cases = r#"
        where or gt col a lit i32 10 like col s lit utf8 "%x" => skipped / rows 0:0 0:1 / whole 0
        where or like col s lit utf8 "%x" gt col a lit i32 10 => skipped / rows 0:0 0:1 / whole 0
        where and gt col a lit i32 10 like col s lit utf8 "%x" => skipped / rows 0:0
        where or gt col a lit i32 20 like col s lit utf8 "%x" => skipped / rows 0:0 0:1
    "#;
    expect_each(&rt, rt.alloc(), front, cases);
}

// A part of which both proofs are true is skipped.
#[test]
fn without_rows(rt: HostRuntime) {
    let front = "column a i32?\npart\n";
    let cases = "
        stat a null_count exact 0 / where isnull col a => skipped 0 / rows
        stat a null_count exact 0 / where notnull col a => skipped 0 / rows
        where lit bool true => skipped / rows / whole 0
        part / row 1 / where lit bool true => skipped / rows 1:0 / whole 0 1
    ";
    expect_each(&rt, rt.alloc(), front, cases);
}
