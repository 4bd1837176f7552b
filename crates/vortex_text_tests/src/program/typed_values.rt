// Types and values: numbers and their ranges, bytes, truths, names, and the types of statistics.
use super::*;

#[test]
fn numbers_in_many_spellings(rt: HostRuntime) {
    let front = "column a i8\npart\n";
    let cases = "
        row -0 / where eq col a lit i8 0 => skipped / rows 0:0
        row 007 / where eq col a lit i8 7 => skipped / rows 0:0
        row -0128 / where eq col a lit i8 -128 => skipped / rows 0:0
        row 00000000000000000000000000000000000000000000000000000000005
        where eq col a lit i8 5 => skipped / rows 0:0
        row 127 / row 128 => line 4: bad
        row -129 => line 3: bad
    ";
    expect_each(&rt, rt.alloc(), front, cases);
}

#[test]
fn words_that_are_no_numbers(rt: HostRuntime) {
    let cases = "
        row - => line 3: bad
        row +1 => line 3: bad
        row --1 => line 3: bad
        row 1- => line 3: bad
        row 1.0 => line 3: bad
        row 0x1 => line 3: bad
        row 1_0 => line 3: bad
        row \u{0663} => line 3: bad
        row true => line 3: bad
        row null => line 3: bad
    ";
    expect_each(&rt, rt.alloc(), "column a i64\npart\n", cases);
}

#[test]
fn ends_of_the_signed_types(rt: HostRuntime) {
    let front = "column a i16\ncolumn b i32\ncolumn c i64\npart\n";
    let cases = "
        row 32767 2147483647 9223372036854775807 / where lt col a lit i16 0 => skipped / rows
        row -32768 -2147483648 -9223372036854775808 / where lt col a lit i16 0 => skipped / rows 0:0
        row 32768 0 0 => line 5: bad
        row 0 -2147483649 0 => line 5: bad
        row 0 0 9223372036854775808 => line 5: bad
        row 0 0 -9223372036854775809 => line 5: bad
        row 0 0 -18446744073709551616 => line 5: bad
    ";
    expect_each(&rt, rt.alloc(), front, cases);
}

#[test]
fn ends_of_the_unsigned_types(rt: HostRuntime) {
    let front = "column a u8\ncolumn b u16\ncolumn c u32\ncolumn d u64\npart\n";
    let cases = "
        row 255 65535 4294967295 18446744073709551615
        where gt col d lit u64 1 => skipped / rows 0:0
        row 256 0 0 0 => line 6: bad
        row 0 65536 0 0 => line 6: bad
        row 0 0 4294967296 0 => line 6: bad
        row 0 0 0 18446744073709551616 => line 6: bad
        row -0 0 0 0 => line 6: bad
        row 0 0 0 -1 => line 6: bad
    ";
    expect_each(&rt, rt.alloc(), front, cases);
}

#[test]
fn bytes_in_hexadecimal_digits(rt: HostRuntime) {
    let cases = "
        row x / where eq col x lit binary x => skipped / rows 0:0
        row xaBfF09 / where eq col x lit binary xAbFf09 => skipped / rows 0:0
        row xa => line 3: bad
        row X00 => line 3: bad
        row x0g => line 3: bad
        row 00 => line 3: bad
        row x-1 => line 3: bad
    ";
    expect_each(&rt, rt.alloc(), "column x binary\npart\n", cases);
}

// A quoted word is a text, and bytes stand in no quotes.
#[test]
fn quoted_words_of_bytes(rt: HostRuntime) {
    let cases = r#"
        row "x00" => line 3: bad
        row "" => line 3: bad
        stat x min exact "x00" => line 3: bad
        where eq col x lit binary "x00" => line 3: bad
    "#;
    expect_each(&rt, rt.alloc(), "column x binary\npart\n", cases);
}

#[test]
fn nullable_bytes(rt: HostRuntime) {
    let front = "column x binary?\npart\nrow x00\nrow null\nrow x\n";
    let cases = "
        where eq col x lit binary x00 => skipped / rows 0:0
        where isnull col x => skipped / rows 0:1
        where eq col x lit binary? x => skipped / rows 0:2
        stat x min exact x00 / stat x max exact x00
        where gt col x lit binary x00 => skipped 0 / rows
    ";
    expect_each(&rt, rt.alloc(), front, cases);
}

// Each type of numbers by its own word, with null and without.
#[test]
fn words_of_the_number_types(rt: HostRuntime) {
    let cases = "
        column a u8 / part / row 1 / where eq col a lit u8 1 => skipped / rows 0:0
        column a u16 / part / row 1 / where eq col a lit u16 1 => skipped / rows 0:0
        column a u32 / part / row 1 / where eq col a lit u32 1 => skipped / rows 0:0
        column a u64 / part / row 1 / where eq col a lit u64 1 => skipped / rows 0:0
        column a i8 / part / row 1 / where eq col a lit i8 1 => skipped / rows 0:0
        column a i16 / part / row 1 / where eq col a lit i16 1 => skipped / rows 0:0
        column a i32 / part / row 1 / where eq col a lit i32 1 => skipped / rows 0:0
        column a i64 / part / row 1 / where eq col a lit i64 1 => skipped / rows 0:0
        column a u8 / part / row 1 / where eq col a lit u16 1 => line 4: bad
        column a u16 / part / row 1 / where eq col a lit u32 1 => line 4: bad
        column a u32 / part / row 1 / where eq col a lit u64 1 => line 4: bad
        column a u64 / part / row 1 / where eq col a lit i64 1 => line 4: bad
        column a i8 / part / row 1 / where eq col a lit i16 1 => line 4: bad
        column a i16 / part / row 1 / where eq col a lit i32 1 => line 4: bad
        column a i32 / part / row 1 / where eq col a lit i64 1 => line 4: bad
    ";
    expect_each(&rt, rt.alloc(), "", cases);
}

#[test]
fn words_of_types_with_null(rt: HostRuntime) {
    let front =
        "column a u16?\ncolumn b u32?\ncolumn c u64?\ncolumn d i16?\ncolumn e bool?\npart\n";
    let cases = "
        row null null null null null / where isnull col c => skipped / rows 0:0
        row 1 2 3 -4 false / where eq col c lit u64 3 => skipped / rows 0:0
        row 1 2 3 -4 false / where eq col d lit i16? -4 => skipped / rows 0:0
        row 1 2 3 -4 null / where isnull col e => skipped / rows 0:0
        row 1 2 3 4 0 => line 7: bad
    ";
    expect_each(&rt, rt.alloc(), front, cases);
}

#[test]
fn truths_and_nulls(rt: HostRuntime) {
    let front = "column t bool?\ncolumn s utf8\npart\n";
    let cases = r#"
        row true "" / row false "" / row null "" / where col t => skipped / rows 0:0
        row true "" / row false "" / row null "" / where not col t => skipped / rows 0:1
        row True "" => line 4: bad
        row 1 "" => line 4: bad
        row "true" "" => line 4: bad
        row true null => line 4: bad
        row true text => line 4: bad
    "#;
    expect_each(&rt, rt.alloc(), front, cases);
}

// A word that means something elsewhere may be a name.
#[test]
fn names_of_columns(rt: HostRuntime) {
    let front = "column null i64\ncolumn col i64\ncolumn true i64\ncolumn x00 i64\n\
        column _ i64\npart\nrow 1 2 3 4 5\n";
    let cases = "
        where eq col null lit i64 1 => skipped / rows 0:0
        where eq col col lit i64 2 => skipped / rows 0:0
        where eq col true lit i64 3 => skipped / rows 0:0
        stat x00 max exact 3 / where eq col x00 lit i64 4 => skipped 0 / rows
        where eq col _ lit i64 5 => skipped / rows 0:0
    ";
    expect_each(&rt, rt.alloc(), front, cases);
}

#[test]
fn words_that_are_no_names(rt: HostRuntime) {
    let cases = "
        column 1a i64 => line 1: bad
        column a-b i64 => line 1: bad
        column \u{E4} i64 => line 1: bad
        column a? i64 => line 1: bad
        column a.b i64 => line 1: bad
        column . i64 => line 1: bad
        column A i64 / column a i64 / column A u8 => line 3: bad
    ";
    expect_each(&rt, rt.alloc(), "", cases);
}

#[test]
fn names_of_64_bytes(rt: HostRuntime) {
    let alloc = rt.alloc();
    let mut name = String::new(alloc);
    for _ in 0..64 {
        name.push_str("a").expect(&rt, "push str");
    }
    let longest = format!(in alloc; "column {name} i64\nwhere eq col {name} lit i64 1\n").expect(
        &rt, "a value",
    );
    expect_answer(&rt, alloc, longest.as_str(), 0, "skipped\nrows\n");
    let longer = format!(in alloc; "column a i64\ncolumn {name}a i64\n").expect(&rt, "longer");
    expect_answer(&rt, alloc, longer.as_str(), 2, "line 2: bad\n");
}

#[test]
fn words_that_are_no_types(rt: HostRuntime) {
    let cases = "
        column a i128 => line 1: bad
        column a null? => line 1: bad
        column a i64?? => line 1: bad
        column a ? => line 1: bad
        column a I64 => line 1: bad
        column a i64 ? => line 1: bad
        column a f32 => line 1: bad
    ";
    expect_each(&rt, rt.alloc(), "", cases);
}

// Bounds are of the column's type, sums of the widest one, counts are u64.
#[test]
fn types_of_statistics(rt: HostRuntime) {
    let front = "column i i8\ncolumn u u8\ncolumn t bool\npart\n";
    let cases = "
        stat i sum exact 300 / stat i sum inexact -9223372036854775808
        where col t => skipped / rows
        stat u sum exact 18446744073709551615 / where col t => skipped / rows
        stat u sum exact -1 => line 5: bad
        stat t sum exact -1 => line 5: bad
        stat t sum exact 2 / where col t => skipped / rows
        stat u max exact 256 => line 5: bad
        stat i min exact 128 => line 5: bad
        stat i null_count exact -1 => line 5: bad
        stat i is_sorted exact 1 => line 5: bad
    ";
    expect_each(&rt, rt.alloc(), front, cases);
}

#[test]
fn statistics_of_texts(rt: HostRuntime) {
    let cases = r#"
        stat s sum exact 0 => line 3: bad
        stat s max exact null => line 3: bad
        stat s max exact a => line 3: bad
        stat s max inexact "a" / where eq col s lit utf8? "b" => skipped 0 / rows
        stat s nan_count exact 0 => line 3: bad
        stat s is_constant exact null => line 3: bad
        stat s uncompressed_size_in_bytes exact 18446744073709551616 => line 3: bad
    "#;
    expect_each(&rt, rt.alloc(), "column s utf8?\npart\n", cases);
}

#[test]
fn later_statistics_win(rt: HostRuntime) {
    let front = "column a i64\npart\nrow 20\nstat a max exact 5\n";
    let cases = "
        where gt col a lit i64 10 => skipped 0 / rows
        stat a max inexact 30 / where gt col a lit i64 10 => skipped / rows 0:0
        stat a max inexact 30 / stat a max exact 6 / where gt col a lit i64 10 => skipped 0 / rows
        part / stat a max exact 30 / where gt col a lit i64 10 => skipped 0 / rows
    ";
    expect_each(&rt, rt.alloc(), front, cases);
}
