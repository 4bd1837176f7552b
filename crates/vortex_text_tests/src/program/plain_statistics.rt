// Lines `stat` and `part` in plain form, which are read straight from their bytes, beside the same
// in other spellings, and lines that only begin like them.
use super::*;

const FRONT: &str = "column a i64?\ncolumn ab u8\ncolumn t bool\n";

// Each statistic but the last of the spellings leaves its part out.
#[test]
fn plain_statistics_and_ones_with_more_spaces(rt: HostRuntime) {
    let cases = "
        stat a max exact 5 / where gt col a lit i64 7 => skipped 0 / rows
        stat  a max exact 5 / where gt col a lit i64 7 => skipped 0 / rows
        stat a  max exact 5 / where gt col a lit i64 7 => skipped 0 / rows
        stat a max  exact 5 / where gt col a lit i64 7 => skipped 0 / rows
        stat a max exact  5 / where gt col a lit i64 7 => skipped 0 / rows
        stat a max exact 5  / where gt col a lit i64 7 => skipped 0 / rows
        stat a max exact 9 /  stat a max exact 5 / where gt col a lit i64 7 => skipped 0 / rows
        stat a max exact 5\r / where gt col a lit i64 7 => skipped 0 / rows
        stat a max inexact 5 / where gt col a lit i64 7 => skipped 0 / rows
        stat a max exact 0005 / where gt col a lit i64 7 => skipped 0 / rows
        stat a max exact 000000000000000000000000000005
        where gt col a lit i64 7 => skipped 0 / rows
        stat a max exact -0 / where gt col a lit i64 7 => skipped 0 / rows
        stat a max exact -9223372036854775808 / where gt col a lit i64 7 => skipped 0 / rows
        stat a max exact 9223372036854775807 / where gt col a lit i64 7 => skipped / rows 0:0
        stat ab max exact 5 / where gt col a lit i64 7 => skipped / rows 0:0
    ";
    let front = "column a i64?\ncolumn ab u8\ncolumn t bool\npart\nrow 9 9 true\n";
    expect_each(&rt, rt.alloc(), front, cases);
}

// The null count tells exact from inexact: only an exact one says that each value is null.
#[test]
fn plain_precisions(rt: HostRuntime) {
    let cases = "
        stat a null_count exact 1 / where notnull col a => skipped 0 / rows
        stat a null_count inexact 1 / where notnull col a => skipped / rows 0:0
        stat a null_count exact 0 / where isnull col a => skipped 0 / rows
        stat a null_count exact 1 / stat a null_count inexact 1
        where notnull col a => skipped / rows 0:0
        stat a null_count inexact 1 / stat a null_count exact 1
        where notnull col a => skipped 0 / rows
        stat a null_count exac 1 => line 6: bad
        stat a null_count exactly 1 => line 6: bad
        stat a null_count inexac 1 => line 6: bad
        stat a null_count inexacts 1 => line 6: bad
        stat a null_count Exact 1 => line 6: bad
        stat a null_count exact1 => line 6: bad
        stat a null_count absent 1 => line 6: bad
        stat a null_count \"exact\" 1 => line 6: bad
    ";
    let front = "column a i64?\ncolumn ab u8\ncolumn t bool\npart\nrow 9 9 true\n";
    expect_each(&rt, rt.alloc(), front, cases);
}

// Names of which one begins with the other, in either order, and the one that was found last.
#[test]
fn plain_names(rt: HostRuntime) {
    let cases = "
        stat ab max exact 5 / where gt col ab lit u8 7 => skipped 0 / rows
        stat ab max exact 5 / stat a max exact 5 / where gt col a lit i64 7 => skipped 0 / rows
        stat a max exact 5 / stat ab max exact 5 / where gt col ab lit u8 7 => skipped 0 / rows
        stat t max exact false / stat a max exact 5
        where gt col a lit i64 7 => skipped 0 / rows
        stat t max exact false / stat ab max exact 5
        where gt col ab lit u8 7 => skipped 0 / rows
        stat a max exact 5 / stat t max exact false
        where eq col t lit bool true => skipped 0 / rows
        stat t max exact false / stat t min exact false
        where eq col t lit bool true => skipped 0 / rows
        stat abc max exact 5 => line 6: bad
        stat A max exact 5 => line 6: bad
        stat t max exact false / stat b max exact 5 => line 7: bad
        stat \"a\" max exact 5 => line 6: bad
        stat a\u{e9} max exact 5 => line 6: bad
        stat max exact 5 => line 6: bad
        stat a  => line 6: bad
    ";
    let front = "column a i64?\ncolumn ab u8\ncolumn t bool\npart\nrow 9 9 true\n";
    expect_each(&rt, rt.alloc(), front, cases);
}

#[test]
fn plain_words_for_statistics(rt: HostRuntime) {
    let cases = "
        stat a min exact 9 / where lt col a lit i64 7 => skipped 0 / rows
        stat a sum exact 9 / stat a is_constant exact true / stat a is_sorted exact true
        stat a is_strict_sorted inexact true / stat a uncompressed_size_in_bytes exact 8
        stat a null_count exact 0 / where isnull col a => skipped 0 / rows
        stat t is_constant inexact false / where col t => skipped / rows 0:0
        stat a mi exact 9 => line 6: bad
        stat a mini exact 9 => line 6: bad
        stat a nan_count exact 0 => line 6: bad
        stat a null_counts exact 0 => line 6: bad
        stat a minmax exact 9 => line 6: bad
        stat a \"min\" exact 9 => line 6: bad
        stat a is_sorted exact 1 => line 6: bad
        stat a is_sorted exact tru => line 6: bad
        stat a is_sorted exact truer => line 6: bad
        stat a is_sorted exact falsely => line 6: bad
        stat a is_sorted exact False => line 6: bad
        stat t min exact 0 => line 6: bad
    ";
    let front = "column a i64?\ncolumn ab u8\ncolumn t bool\npart\nrow 9 9 true\n";
    expect_each(&rt, rt.alloc(), front, cases);
}

#[test]
fn values_that_are_none(rt: HostRuntime) {
    let cases = "
        stat a max exact 1_0 => line 5: bad
        stat a max exact +1 => line 5: bad
        stat ab max exact -0 => line 5: bad
        stat ab max exact -1 => line 5: bad
        stat ab max exact 256 => line 5: bad
        stat ab max exact 18446744073709551621 => line 5: bad
        stat a max exact 9223372036854775808 => line 5: bad
        stat a max exact - => line 5: bad
        stat a max exact null => line 5: bad
        stat a max exact true => line 5: bad
        stat a max exact \"5\" => line 5: bad
        stat a max exact 5, => line 5: bad
        stat a max exact 5\t => line 5: bad
        stat a max exact 5 5 => line 5: bad
        stat a max exact 5\r\r => line 5: bad
        stat a max exact 5\u{e9} => line 5: bad
        stat a max exact => line 5: bad
        stat\ta max exact 5 => line 5: bad
        stat a\tmax exact 5 => line 5: bad
        stata max exact 5 => line 5: bad
        stats a max exact 5 => line 5: bad
        stat => line 5: bad
    ";
    let front = "column a i64?\ncolumn ab u8\ncolumn t bool\npart\n";
    expect_each(&rt, rt.alloc(), front, cases);
}

#[test]
fn plain_statistics_out_of_order(rt: HostRuntime) {
    let cases = "
        stat a max exact 5 => line 4: bad
        part / stat a max exact 5 / part / join 0 / stat a max exact 5 => line 8: bad
        part / where col t / stat a max exact 5 => line 6: bad
        part / stat a max exact 5 / part / stat a max exact 8 / join 0 / part / row 9 9 true
        where gt col a lit i64 7 => skipped / rows 1:0
    ";
    expect_each(&rt, rt.alloc(), FRONT, cases);
    let alloc = rt.alloc();
    let cut = "column a i64\npart\nrow 1\nwhere col a\nstat a max exact 5";
    expect_answer(&rt, alloc, cut, 2, "line 5: bad\n");
    let cut = "column a i64\npart\nstat a max exact 5";
    expect_answer(&rt, alloc, cut, 2, "line 4: bad\n");
    let cut = "column a i64\npart\nstat a max exact 5_";
    expect_answer(&rt, alloc, cut, 2, "line 3: bad\n");
    let broken = b"column a i64\npart\nstat a max exact 5\xff\n";
    expect_reply(&rt, alloc, broken, 2, "line 3: bad\n");
}

#[test]
fn plain_parts_and_others(rt: HostRuntime) {
    let cases = "
        part / row 1 / part / row 2 / where eq col a lit i64 2 => skipped / rows 1:0
        part  / row 1 /  part / row 2 / where eq col a lit i64 2 => skipped / rows 1:0
        part\r / row 1 / part\r / row 2 / where eq col a lit i64 2 => skipped / rows 1:0
        part / part / part / where eq col a lit i64 2 => skipped / rows
        part / stat a max exact 1 / part / stat a min exact 3 / part
        where eq col a lit i64 2 => skipped 0 1 / rows
        part / part 1 => line 3: bad
        part / parts => line 3: bad
        part / par => line 3: bad
        part / PART => line 3: bad
        part / part\t => line 3: bad
        part / part\r\r => line 3: bad
        part / \"part\" => line 3: bad
        where eq col a lit i64 2 / part => line 3: bad
    ";
    expect_each(&rt, rt.alloc(), "column a i64\n", cases);
    let alloc = rt.alloc();
    expect_answer(&rt, alloc, "part\n", 2, "line 1: bad\n");
    expect_answer(&rt, alloc, "column a i64\npart", 2, "line 3: bad\n");
}
