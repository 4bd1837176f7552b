// Rows in plain form, which are read straight from their bytes, beside rows in other spellings:
// each spelling in the place of each column.
use super::*;

const FRONT: &str = "column a i64?\ncolumn b u8\ncolumn c i32?\npart\n";

#[test]
fn plain_rows_and_rows_with_more_spaces(rt: HostRuntime) {
    let cases = "
        row 1 2 3 / row  1 2 3 / row 1  2 3 / row 1 2  3 / row 1 2 3  /  row 1 2 3 / row 9 2 3
        where eq col a lit i64 1 => skipped / rows 0:0 0:1 0:2 0:3 0:4 0:5
        row 1 2 3\r / row  1 2 3\r / row 1 2 3
        where eq col c lit i32 3 => skipped / rows 0:0 0:1 0:2
        row -1 2 -3 / row 1 2 3 / where lt col c lit i32 0 => skipped / rows 0:0
        row 01 002 0003 / row -0 2 -0 / where eq col a lit i64 0 => skipped / rows 0:1
        row null 2 3 / row  null 2 3 / row 1 2 null / where isnull col a => skipped / rows 0:0 0:1
        row null 2 3 / row 1 2  null / row 1 2 null / where isnull col c => skipped / rows 0:1 0:2
    ";
    expect_each(&rt, rt.alloc(), FRONT, cases);
}

#[test]
fn long_numbers_in_each_place(rt: HostRuntime) {
    let cases = "
        row 9223372036854775807 255 2147483647 / row -9223372036854775808 0 -2147483648
        where gt col a lit i64 0 => skipped / rows 0:0
        row 000000000000000000000000000001 2 3 / row 1 2 3
        where eq col a lit i64 1 => skipped / rows 0:0 0:1
        row 1 000000000000000000000000000002 3 / row 1 2 3
        where eq col b lit u8 2 => skipped / rows 0:0 0:1
        row 1 2 -000000000000000000000000000003 / row 1 2 3
        where eq col c lit i32 -3 => skipped / rows 0:0
        row 9223372036854775808 2 3 => line 5: bad
        row -9223372036854775809 2 3 => line 5: bad
        row 18446744073709551616 2 3 => line 5: bad
        row 1 256 3 => line 5: bad
        row 1 18446744073709551618 3 => line 5: bad
        row 1 2 2147483648 => line 5: bad
        row 1 2 18446744073709551619 => line 5: bad
    ";
    expect_each(&rt, rt.alloc(), FRONT, cases);
}

#[test]
fn words_that_are_no_values_in_each_place(rt: HostRuntime) {
    let cases = "
        row 1_0 2 3 => line 5: bad
        row 1 2_0 3 => line 5: bad
        row 1 2 3_0 => line 5: bad
        row +1 2 3 => line 5: bad
        row 1 +2 3 => line 5: bad
        row 1 2 +3 => line 5: bad
        row 1 -0 3 => line 5: bad
        row - 2 3 => line 5: bad
        row 1 2 - => line 5: bad
        row \"1\" 2 3 => line 5: bad
        row 1 \"2\" 3 => line 5: bad
        row 1 2 \"3\" => line 5: bad
        row 1 null 3 => line 5: bad
        row nul 2 3 => line 5: bad
        row nulls 2 3 => line 5: bad
        row 1 2 null3 => line 5: bad
        row 1 2 NULL => line 5: bad
    ";
    expect_each(&rt, rt.alloc(), FRONT, cases);
}

#[test]
fn rows_with_other_ends_and_bytes(rt: HostRuntime) {
    let cases = "
        row => line 5: bad
        row 1 => line 5: bad
        row 1 2 => line 5: bad
        row 1 2 3 4 => line 5: bad
        row 1 2 3 null => line 5: bad
        row1 2 3 => line 5: bad
        rows 1 2 3 => line 5: bad
        row\t1 2 3 => line 5: bad
        row 1\t2 3 => line 5: bad
        row 1 2 3\t => line 5: bad
        row 1\r 2 3 => line 5: bad
        row 1 2 3\r\r => line 5: bad
        row 1 2 3\u{e9} => line 5: bad
        row 1,2 3 => line 5: bad
    ";
    expect_each(&rt, rt.alloc(), FRONT, cases);
    let alloc = rt.alloc();
    let front = "column a i64\npart\nrow 1\nrow 2";
    expect_answer(&rt, alloc, front, 2, "line 5: bad\n");
    let broken = b"column a i64\npart\nrow 1\nrow \xff\n";
    expect_reply(&rt, alloc, broken, 2, "line 4: bad\n");
    let broken = b"column a i64\npart\nrow 1\nrow 1 \xff\nrow 1\n";
    expect_reply(&rt, alloc, broken, 2, "line 4: bad\n");
}

// Columns of numbers around one of texts. What isn't in plain form is read word by word, and so is
// what stands behind it.
#[test]
fn numbers_before_and_behind_a_text(rt: HostRuntime) {
    let front = "column a i64\ncolumn s utf8?\ncolumn c u16?\npart\n";
    let cases = "
        row 1 \"x y\" 3 / row 2 null 4 / row 3 \"\u{e9}\" null
        where ge col a lit i64 2 => skipped / rows 0:1 0:2
        row 1 \"x\" 3 / row 2 \"y\" 4 / where eq col c lit u16 4 => skipped / rows 0:1
        row 1 \"x\" +3 => line 5: bad
        row 1 \"x\" 65536 => line 5: bad
        row 1 x 3 => line 5: bad
        row 1 \"x 3 => line 5: bad
        row 1_0 \"x\" 3 => line 5: bad
    ";
    expect_each(&rt, rt.alloc(), front, cases);
}

// Rows before the first part and behind the predicate stay bad, plain as they are.
#[test]
fn plain_rows_out_of_order(rt: HostRuntime) {
    let cases = "
        column a i64 / row 1 => line 2: bad
        row 1 => line 1: bad
        column a i64 / part / row 1 / where eq col a lit i64 1 / row 1 => line 5: bad
        column a i64 / part / row 1 / part / row 1 / join 0 / row 1 => line 7: bad
        column a i64 / part / row 1 / part / row 1 / join 0 / part / row 1
        where eq col a lit i64 1 => skipped / rows 0:0 0:1 1:0
    ";
    expect_each(&rt, rt.alloc(), "", cases);
}

const BEHIND_TEXTS: &str =
    "column t utf8\ncolumn a i64?\ncolumn u utf8?\ncolumn b u8\ncolumn c i32?\npart\n";

// Texts in plain form among numbers that are and aren't.
#[test]
fn numbers_behind_texts(rt: HostRuntime) {
    let cases = "
        row \"x\" 1 \"y\" 2 3 / row \"x\"  1 null  2  3  / row \"x\" -1 \"2 3\" 2 3
        where eq col a lit i64 1 => skipped / rows 0:0 0:1
        row \"x\" null \"y\" 2 null / row \"x\" 7 \"y\" 255 -7
        where isnull col a => skipped / rows 0:0
        row \"x\" 000000000000000000000000000001 \"y\" 002 3 / row \"x\" 1 \"y\" 2 3\r
        where and eq col a lit i64 1 eq col c lit i32 3 => skipped / rows 0:0 0:1
        row \"x\" 9223372036854775808 \"y\" 2 3 => line 7: bad
        row \"x\" 1_0 \"y\" 2 3 => line 7: bad
        row \"x\" +1 \"y\" 2 3 => line 7: bad
        row \"x\" 1 \"y\" 256 3 => line 7: bad
        row \"x\" 1 \"y\" -1 3 => line 7: bad
        row \"x\" 1 \"y\" null 3 => line 7: bad
        row \"x\"1 \"y\" 2 3 => line 7: bad
        row \"x\" 1\"y\" 2 3 => line 7: bad
        row \"x\" 1 \"y\" 2 => line 7: bad
        row \"x\" 1 \"y\" 2 3 4 => line 7: bad
    ";
    expect_each(&rt, rt.alloc(), BEHIND_TEXTS, cases);
}

const MIXED: &str = "column s utf8?\ncolumn t bool?\ncolumn x binary?\ncolumn n u8\npart\n";

// Texts, truths and bytes in plain form, and in the spellings that only the reader of words takes.
#[test]
fn texts_truths_and_bytes_in_each_spelling(rt: HostRuntime) {
    let cases = "
        row \"a b\" true x0aFf 1 / row  \"a b\"  true  x0AfF  1 / row \"a b\" false x0aff 1 \r
        where eq col s lit utf8 \"a b\" => skipped / rows 0:0 0:1 0:2
        row \"\" true x 1 / row \"a\" true x00 1
        where eq col s lit utf8 \"\" => skipped / rows 0:0
        row \"\" true x 1 / row \"a\" true x00 1
        where eq col x lit binary x => skipped / rows 0:0
        row \"~ !#[]\" false x 1 / row \"~\" true x 1
        where eq col s lit utf8 \"~ !#[]\" => skipped / rows 0:0
        row \"a\\\"b\" true x 1 / row \"a\\\\b\" true x 1 / row \"ab\" true x 1
        where eq col s lit utf8 \"a\\\"b\" => skipped / rows 0:0
        row \"a\\\\b\" true x 1 / row \"ab\" true x 1
        where eq col s lit utf8 \"a\\\\b\" => skipped / rows 0:0
        row \"\u{e9}\" true x 1 / row \"e\" true x 1 / row \"a\u{e9}\" false x 1
        where eq col s lit utf8 \"\u{e9}\" => skipped / rows 0:0
        row \"a\tb\" true x 1 / row \"ab\" true x 1
        where eq col s lit utf8 \"a\tb\" => skipped / rows 0:0
        row \"null\" null null 1 / row null true x 1
        where isnull col s => skipped / rows 0:1
        row \"null\" null null 1 / row null true x 1
        where isnull col t => skipped / rows 0:0
        row \"null\" null null 1 / row null true x 1
        where notnull col x => skipped / rows 0:1
        row \"a\" true x 1 / row \"a\" false x 1 / row \"a\" null x 1
        where col t => skipped / rows 0:0
    ";
    expect_each(&rt, rt.alloc(), MIXED, cases);
}

#[test]
fn words_that_are_no_texts_truths_or_bytes(rt: HostRuntime) {
    let cases = "
        row a true x 1 => line 6: bad
        row \"a true x 1 => line 6: bad
        row \"a\"b true x 1 => line 6: bad
        row \"a\\n\" true x 1 => line 6: bad
        row \"a\"\ttrue x 1 => line 6: bad
        row 1 true x 1 => line 6: bad
        row nul true x 1 => line 6: bad
        row \"a\" True x 1 => line 6: bad
        row \"a\" tru x 1 => line 6: bad
        row \"a\" truer x 1 => line 6: bad
        row \"a\" 1 x 1 => line 6: bad
        row \"a\" \"true\" x 1 => line 6: bad
        row \"a\" true 00 1 => line 6: bad
        row \"a\" true x0 1 => line 6: bad
        row \"a\" true x0g 1 => line 6: bad
        row \"a\" true X00 1 => line 6: bad
        row \"a\" true \"x00\" 1 => line 6: bad
        row \"a\" true x00\"1 1 => line 6: bad
        row \"a\" true x00\u{e9} 1 => line 6: bad
        row \"a\" true x null => line 6: bad
        row \"a\" true x \"1\" => line 6: bad
        row \"a\" true x => line 6: bad
        row \"a\" true => line 6: bad
        row \"a\" => line 6: bad
        row \"a\" true x 1 \"b\" => line 6: bad
    ";
    expect_each(&rt, rt.alloc(), MIXED, cases);
    let alloc = rt.alloc();
    let broken = b"column s utf8\npart\nrow \"a\"\nrow \"\xff\"\n";
    expect_reply(&rt, alloc, broken, 2, "line 4: bad\n");
    let broken = b"column s utf8\npart\nrow \"a\"\nrow \"a\" \xff\nrow \"a\"\n";
    expect_reply(&rt, alloc, broken, 2, "line 4: bad\n");
    let front = "column s utf8\npart\nrow \"a\"\nrow \"b\"";
    expect_answer(&rt, alloc, front, 2, "line 5: bad\n");
}
