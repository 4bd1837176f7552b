// Rows of one column, which are read in one loop while they have plain form, beside rows in other
// spellings and other lines.
use super::*;

#[test]
fn plain_rows_among_others(rt: HostRuntime) {
    let cases = "
        row 1 / row null / row 7 / row  8 / row 12345678 / row -9
        where ge col a lit i32 7 => skipped / rows 0:2 0:3 0:4
        row 7 / row 8\r / row 9 /  / row 10 / where gt col a lit i32 7 => skipped / rows 0:1 0:2 0:3
        row 1 / part / row 2 / row 3 / where ge col a lit i32 2 => skipped / rows 1:0 1:1
        row 1 / part / row 2 / join 0 / part / row 3
        where ge col a lit i32 2 => skipped / rows 0:1 1:0
        row null / row null / where isnull col a => skipped / rows 0:0 0:1
    ";
    expect_each(&rt, rt.alloc(), "column a i32?\npart\n", cases);
}

#[test]
fn lines_that_are_no_rows_of_one_column(rt: HostRuntime) {
    let cases = "
        row 1 / row 2 / row 3 4 => line 5: bad
        row 1 / row 2 / row 3 4 / row 5 => line 5: bad
        row 1 / row => line 4: bad
        row 1 / rows 2 => line 4: bad
        row 1 / raw 2 => line 4: bad
        row 1 / row 2147483648 => line 4: bad
        row 1 / row -2147483649 / row 2 => line 4: bad
        row 1 / row nulls => line 4: bad
        row 1 / row 2x => line 4: bad
        row 1 / row 2 / row 3 / row 12345678901234567890123 => line 6: bad
        row 1 / row 2 / where lt col a lit i32 2 / row 3 => line 6: bad
    ";
    expect_each(&rt, rt.alloc(), "column a i32?\npart\n", cases);
}

#[test]
fn numbers_of_each_length(rt: HostRuntime) {
    let cases = "
        row 1 / row 12 / row 123 / row 1234 / row 12345 / row 123456 / row 1234567 / row 12345678
        where between <= <= col a lit u64 12 lit u64 12345 => skipped / rows 0:1 0:2 0:3 0:4
        row 123456 / row 1234567 / row 12345678 / row 123456789 / row 1234567890 / row 12345678901
        where between <= <= col a lit u64 1234567 lit u64 123456789 => skipped / rows 0:1 0:2 0:3
        row 12345678901234567 / row 1234567890123456789 / row 12345678901234567890
        where ge col a lit u64 1234567890123456789 => skipped / rows 0:1 0:2
        row 18446744073709551615 / row 18446744073709551616 => line 4: bad
        row 7 / row 00000000000000000000007 / where eq col a lit u64 7 => skipped / rows 0:0 0:1
    ";
    expect_each(&rt, rt.alloc(), "column a u64\npart\n", cases);
}

// Three rows of a type of numbers, of which the last two are 8 at least.
fn expect_type(rt: &impl Abort, alloc: Global, name: &str, most: &str) {
    let mut text = String::from_str(alloc, "column a ").expect(rt, "text");
    for word in [
        name,
        "\npart\nrow 7\nrow 8\nrow ",
        most,
        "\nwhere ge col a lit ",
        name,
        " 8\n",
    ] {
        text.push_str(word).expect(rt, "push str");
    }
    expect_answer(rt, alloc, &text, 0, "skipped\nrows 0:1 0:2\n");
}

#[test]
fn columns_of_each_type(rt: HostRuntime) {
    expect_type(&rt, rt.alloc(), "u8", "255");
    expect_type(&rt, rt.alloc(), "u16", "65535");
    expect_type(&rt, rt.alloc(), "u32", "4294967295");
    expect_type(&rt, rt.alloc(), "u64", "18446744073709551615");
    expect_type(&rt, rt.alloc(), "i8", "127");
    expect_type(&rt, rt.alloc(), "i16", "32767");
    expect_type(&rt, rt.alloc(), "i32", "2147483647");
    expect_type(&rt, rt.alloc(), "i64", "9223372036854775807");
}

#[test]
fn truths_and_nulls(rt: HostRuntime) {
    let cases = "
        row true / row null / row false / row true
        where eq col a lit bool true => skipped / rows 0:0 0:3
        row false / row truth => line 4: bad
        row false / row true false => line 4: bad
    ";
    expect_each(&rt, rt.alloc(), "column a bool?\npart\n", cases);
}
