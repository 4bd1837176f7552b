// Bad lines: each form, with the number of the first of them.
use super::*;

#[test]
fn other_first_words_and_numbers_of_words(rt: HostRuntime) {
    let cases = "
        x => line 1: bad
        column a i64 / rows 1 => line 2: bad
        column a i64 / PART => line 2: bad
        column => line 1: bad
        column a => line 1: bad
        column a i64 i64 => line 1: bad
        column a i64 / part 0 => line 2: bad
    ";
    expect_each(&rt, rt.alloc(), "", cases);
}

// Lines are counted past a thousand, those without words too.
#[test]
fn a_bad_line_past_the_thousandth(rt: HostRuntime) {
    let alloc = rt.alloc();
    let mut text = String::from_str(alloc, "column a i64\npart\n").expect(&rt, "text");
    for _ in 0..1000 {
        text.push_str("row 1\n\n").expect(&rt, "push str");
    }
    text.push_str("row\n").expect(&rt, "push str");
    expect_answer(&rt, alloc, text.as_str(), 2, "line 2003: bad\n");
}

#[test]
fn lines_out_of_order(rt: HostRuntime) {
    let cases = "
        part => line 1: bad
        where lit bool true => line 1: bad
        column a i64 / row 1 => line 2: bad
        column a i64 / stat a min exact 1 => line 2: bad
        column a i64 / join 0 => line 2: bad
        column a i64 / part / column b i64 => line 3: bad
        column a i64 / column b i64 / column a u8 => line 3: bad
    ";
    expect_each(&rt, rt.alloc(), "", cases);
}

#[test]
fn rows_that_do_not_fit(rt: HostRuntime) {
    let cases = "
        row 1 => line 5: bad
        row => line 5: bad
        row 1 true true => line 5: bad
        row true 1 => line 5: bad
        row 1 true / row null true => line 6: bad
        row 1 \"true\" => line 5: bad
    ";
    let front = "column a i64\ncolumn t bool\npart\nrow 0 false\n";
    expect_each(&rt, rt.alloc(), front, cases);
}

#[test]
fn statistics_that_are_none(rt: HostRuntime) {
    let cases = "
        stat b min exact 1 => line 3: bad
        stat a least exact 1 => line 3: bad
        stat a Min exact 1 => line 3: bad
        stat a min about 1 => line 3: bad
        stat a min exact => line 3: bad
        stat a min 1 => line 3: bad
        stat a min exact 1 1 => line 3: bad
        stat a min exact null => line 3: bad
        stat a => line 3: bad
    ";
    expect_each(&rt, rt.alloc(), "column a i64\npart\n", cases);
}

#[test]
fn expressions_that_are_none(rt: HostRuntime) {
    let cases = "
        where => line 2: bad
        where gt col a => line 2: bad
        where gt col a lit i64 => line 2: bad
        where gt col b lit i64 1 => line 2: bad
        where above col a lit i64 1 => line 2: bad
        where gt a lit i64 1 => line 2: bad
        where gt col a lit i64 1 lit i64 2 => line 2: bad
        where eq col a lit i64 null => line 2: bad
        where lit bool True => line 2: bad
    ";
    expect_each(&rt, rt.alloc(), "column a i64\n", cases);
}

#[test]
fn expressions_that_do_not_bind(rt: HostRuntime) {
    let cases = r#"
        where gt col a lit i32 1 => line 3: bad
        where and col a col t => line 3: bad
        where not col a => line 3: bad
        where like col a lit utf8 "1" => line 3: bad
        where between <= <= col a lit i64 1 lit i32 2 => line 3: bad
        where between = <= col a lit i64 1 lit i64 2 => line 3: bad
        where eq col t lit utf8 "true" => line 3: bad
        where or col t lit null null => line 3: bad
    "#;
    expect_each(&rt, rt.alloc(), "column a i64\ncolumn t bool\n", cases);
}

// A predicate of another type is found by the scan, after every line.
#[test]
fn predicates_of_another_type(rt: HostRuntime) {
    let cases = r#"
        where lit i64 7 => predicate
        where col a => predicate
        where lit null null => predicate
        where lit utf8 "true" => predicate
        part / row 1 / where col a => predicate
        where lit i64 7 / x => line 3: bad
        where lit i64 7 / part => line 3: bad
    "#;
    expect_each(&rt, rt.alloc(), "column a i64\n", cases);
}

#[test]
fn lines_after_the_predicate(rt: HostRuntime) {
    let cases = r#"
        where col t / where col t => line 3: bad
        where col t / part => line 3: bad
        where col t /  / row 1 => line 4: bad
        where col t / "a" => line 3: bad
        where col t / " => line 3: bad
        where col t /    /  => skipped / rows
    "#;
    expect_each(&rt, rt.alloc(), "column t bool\n", cases);
}

#[test]
fn the_first_of_some_bad_lines(rt: HostRuntime) {
    let cases = "
        part / row x / y / where => line 3: bad
        column b / part 1 => line 2: bad
        part / row 1 / row / where gt => line 4: bad
    ";
    expect_each(&rt, rt.alloc(), "column a i64\n", cases);
}
