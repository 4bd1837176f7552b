// Lines, words, spaces and quotes, and texts that aren't UTF-8.
use super::*;

// A text of these types ends in this line after `where`, whose row satisfies it.
const FRONT: &str = "column a i64\npart\nrow 1\n";

#[test]
fn spaces_and_lines_without_words(rt: HostRuntime) {
    let alloc = rt.alloc();
    let text = " column  a i64 \n\n   \npart   \n  row   1 \n\n where  eq col  a lit i64 1 \n \n";
    expect_answer(&rt, alloc, text, 0, "skipped\nrows 0:0\n");
    expect_answer(&rt, alloc, "\n\n column a i64\n \nx\n", 2, "line 5: bad\n");
}

#[test]
fn returns_before_line_feeds(rt: HostRuntime) {
    let alloc = rt.alloc();
    let text = "column a i64\r\n\r\npart\r\nrow 1\r\nwhere eq col a lit i64 1\r\n";
    expect_answer(&rt, alloc, text, 0, "skipped\nrows 0:0\n");
    expect_answer(
        &rt,
        alloc,
        "column a i64\nwhere lit bool true\r",
        2,
        "line 2: bad\n",
    );
    expect_answer(&rt, alloc, "column a i64\n\r", 2, "line 2: bad\n");
    expect_answer(&rt, alloc, "column a i64\n\r\r\n", 2, "line 2: bad\n");
    expect_answer(&rt, alloc, "column a i64\npa\rrt\n", 2, "line 2: bad\n");
}

#[test]
fn a_last_line_without_its_line_feed(rt: HostRuntime) {
    let alloc = rt.alloc();
    let text = "column a i64\npart\nrow 1\nwhere eq col a lit i64 1";
    expect_answer(&rt, alloc, text, 0, "skipped\nrows 0:0\n");
    let cut = "column a i64\npart\nrow 1\nwhere gt col a";
    expect_answer(&rt, alloc, cut, 2, "line 4: bad\n");
}

// It is the line after the last, and lines without words count.
#[test]
fn the_number_of_a_missing_predicate(rt: HostRuntime) {
    let alloc = rt.alloc();
    expect_answer(&rt, alloc, "", 2, "line 1: bad\n");
    expect_answer(&rt, alloc, "\n", 2, "line 2: bad\n");
    expect_answer(&rt, alloc, "column a i64", 2, "line 2: bad\n");
    expect_answer(&rt, alloc, "column a i64\n", 2, "line 2: bad\n");
    expect_answer(&rt, alloc, "column a i64\n\n ", 2, "line 4: bad\n");
}

#[test]
fn quoted_words(rt: HostRuntime) {
    let front = r#"column s utf8?
part
row "a \"b\" \\c"
row ""
row "null"
row null
row "  "
"#;
    let cases = r#"
        where eq col s lit utf8 "a \"b\" \\c" => skipped / rows 0:0
        where eq col s lit utf8 "" => skipped / rows 0:1
        where eq col s lit utf8 "null" => skipped / rows 0:2
        where isnull col s => skipped / rows 0:3
        where eq col s lit utf8 "  " => skipped / rows 0:4
    "#;
    expect_each(&rt, rt.alloc(), front, cases);
}

#[test]
fn quoted_words_that_are_none(rt: HostRuntime) {
    let cases = r#"
        row "a => line 3: bad
        row "a\" => line 3: bad
        row "a\n" => line 3: bad
        row "a\ b" => line 3: bad
        row "a\t" => line 3: bad
        row "a\u0041" => line 3: bad
        row "\x41" => line 3: bad
        row "\' " => line 3: bad
        row "a"b => line 3: bad
        row "a""b" => line 3: bad
        row "a" " => line 3: bad
    "#;
    expect_each(&rt, rt.alloc(), "column s utf8\npart\n", cases);
}

// A quoted word is a text, and nothing else.
#[test]
fn quoted_words_in_other_places(rt: HostRuntime) {
    let cases = r#"
        "column" b i64 => line 1: bad
        column "a" i64 => line 1: bad
        column a "i64" => line 1: bad
        column a i64 / "part" => line 2: bad
        column a i64 / part / row "1" => line 3: bad
        column a i64 / part / stat "a" min exact 1 => line 3: bad
        column a i64 / part / stat a "min" exact 1 => line 3: bad
        column a i64 / part / stat a min "exact" 1 => line 3: bad
        column a i64 / part / part / join "0" => line 4: bad
    "#;
    expect_each(&rt, rt.alloc(), "", cases);
}

#[test]
fn quoted_words_in_predicates(rt: HostRuntime) {
    let cases = r#"
        where eq col "a" lit i64 1 => line 4: bad
        where eq "col" a lit i64 1 => line 4: bad
        where eq col a lit "i64" 1 => line 4: bad
        where eq col a lit i64 "1" => line 4: bad
        where between "<" < col a lit i64 1 lit i64 2 => line 4: bad
        where eq lit utf8 null lit utf8 "a" => line 4: bad
        where eq lit utf8 a lit utf8 "a" => line 4: bad
    "#;
    expect_each(&rt, rt.alloc(), FRONT, cases);
}

#[test]
fn bytes_that_are_no_text(rt: HostRuntime) {
    let alloc = rt.alloc();
    let bad = "line 3: bad\n";
    expect_reply(
        &rt,
        alloc,
        b"column s utf8\npart\nrow \"\xC0\x80\"\n".as_slice(),
        2,
        bad,
    );
    expect_reply(
        &rt,
        alloc,
        b"column s utf8\npart\nrow \"\xED\xA0\x80\"\n".as_slice(),
        2,
        bad,
    );
    expect_reply(
        &rt,
        alloc,
        b"column s utf8\npart\nrow \"\xF4\x90\x80\x80\"".as_slice(),
        2,
        bad,
    );
    expect_reply(
        &rt,
        alloc,
        b"column s utf8\nwhere lit bool true\n\xFF".as_slice(),
        2,
        bad,
    );
}

#[test]
fn bytes_that_are_no_text_come_in_turn(rt: HostRuntime) {
    let alloc = rt.alloc();
    expect_reply(
        &rt,
        alloc,
        b"column a i64\n\xFF".as_slice(),
        2,
        "line 2: bad\n",
    );
    expect_reply(
        &rt,
        alloc,
        b"column a i64\nx\n\xFF\n".as_slice(),
        2,
        "line 2: bad\n",
    );
    expect_reply(
        &rt,
        alloc,
        b"\xEF\xBB\xBFcolumn a i64\n".as_slice(),
        2,
        "line 1: bad\n",
    );
}

// A tab, a NUL, a return within a line and other white space are characters like others.
#[test]
fn other_white_space(rt: HostRuntime) {
    let alloc = rt.alloc();
    let text = "column s utf8\npart\nrow \"\t\0\r\u{A0}\u{2028}\"\n\
        where eq col s lit utf8 \"\t\0\r\u{A0}\u{2028}\"\n";
    expect_answer(&rt, alloc, text, 0, "skipped\nrows 0:0\n");
    expect_answer(&rt, alloc, "column\ta i64\n", 2, "line 1: bad\n");
    expect_answer(&rt, alloc, "column a\ti64\n", 2, "line 1: bad\n");
    let tab = "column a i64\npart\nrow 1\t\n";
    expect_answer(&rt, alloc, tab, 2, "line 3: bad\n");
    expect_answer(&rt, alloc, "column a i64\n\u{A0}\n", 2, "line 2: bad\n");
    expect_answer(&rt, alloc, "column a i64\n\0\n", 2, "line 2: bad\n");
    expect_answer(
        &rt,
        alloc,
        "column a i64\npart\u{2028}\n",
        2,
        "line 2: bad\n",
    );
}
