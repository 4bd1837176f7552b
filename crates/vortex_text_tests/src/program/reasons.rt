// Why a line is bad, or why there is no answer: what is told beside the answer.
use super::*;

// The cases are whole inputs. Each goes up to `=>`, behind which stands what is told of it; ` / `
// stands for a line feed.
fn expect_reasons(rt: &impl Abort, alloc: Global, front: &str, cases: &str) {
    let mut text = String::from_str(alloc, front).expect(rt, "text");
    for line in cases.lines() {
        let Some((end, reason)) = line.trim().split_once(" => ") else {
            assert!(rt; line.trim().is_empty(), "a case without its reason");
            continue;
        };
        push_lines(&mut text, end).expect(rt, "push lines");
        let mut want = String::new(alloc);
        push_lines(&mut want, reason).expect(rt, "push lines");
        expect_reason(rt, alloc, text.as_bytes(), &want);
        text = String::from_str(alloc, front).expect(rt, "from str");
    }
}

// Expects a reason to be told of some bytes.
fn expect_reason(rt: &impl Abort, alloc: Global, input: &[u8], want: &str) {
    let mut reader = input;
    let mut told = Vec::new(alloc);
    program::run(alloc, &mut reader, &mut io::sink(), &mut told);
    assert_eq!(rt; told.as_slice(), want.as_bytes(), "{want}");
}

#[test]
fn lines_of_no_kind(rt: HostRuntime) {
    let cases = "
        rows 1 => line 1: word 1 \"rows\": a line begins with column, part, stat, row, join or where
        \"row\" 1 => line 1: word 1 \"\\\"row\\\"\": a line begins with column, part, stat, row, \
            join or where
    ";
    expect_reasons(&rt, rt.alloc(), "", cases);
}

#[test]
fn lines_out_of_order(rt: HostRuntime) {
    let cases = "
        part => line 1: a line column has to stand before it
        where lit bool true => line 1: a line column has to stand before it
        column a i64 / row 1 => line 2: a line part has to stand before it
        column a i64 / row x => line 2: a line part has to stand before it
        column a i64 / stat a min exact 1 => line 2: a line part has to stand before it
        column a i64 / part / part / join 0 / row 1 => line 5: a row or a statistic belongs to a \
            part that no join has ended
        column a i64 / part / part / join 0 / stat a min exact 1 => line 5: a row or a statistic \
            belongs to a part that no join has ended
        column a i64 / part / column b i64 => line 3: columns stand before the first part
        column a i64 / part / column b u7 => line 3: columns stand before the first part
        column a i64 / where lit bool true / part => line 3: the predicate is the last line with \
            words
        column a i64 => line 2: a text ends with a line where and the predicate
    ";
    expect_reasons(&rt, rt.alloc(), "", cases);
}

#[test]
fn names_and_types(rt: HostRuntime) {
    let cases = "
        column 1a i64 => line 2: word 2 \"1a\": a name is an ASCII letter or _, then letters, \
            digits or _, 64 bytes at most
        column => line 2: word 2 is missing: a name is an ASCII letter or _, then letters, digits \
            or _, 64 bytes at most
        column a i64 => line 2: word 2 \"a\": an earlier column has this name
        column b => line 2: word 3 is missing: a type is bool, u8, u16, u32, u64, i8, i16, i32, \
            i64, utf8 or binary, or one of these with a ? behind it, or null
        column  b  u7 => line 2: word 3 \"u7\": a type is bool, u8, u16, u32, u64, i8, i16, i32, \
            i64, utf8 or binary, or one of these with a ? behind it, or null
        column b u8 null => line 2: word 4 \"null\": the line ends before this word
    ";
    expect_reasons(&rt, rt.alloc(), "column a i64?\n", cases);
}

// Of two words that are at fault the first one is told.
#[test]
fn the_first_of_two_wrong_words(rt: HostRuntime) {
    let cases = "
        column 1a u7 => line 3: word 2 \"1a\": a name is an ASCII letter or _, then letters, \
            digits or _, 64 bytes at most
        column 1a => line 3: word 2 \"1a\": a name is an ASCII letter or _, then letters, \
            digits or _, 64 bytes at most
        column a u7 => line 3: word 2 \"a\": an earlier column has this name
        column b u7 x => line 3: word 3 \"u7\": a type is bool, u8, u16, u32, u64, i8, i16, i32, \
            i64, utf8 or binary, or one of these with a ? behind it, or null
        part / join x y => line 4: word 2 \"x\": the place of a part is written in digits, \
            18446744073709551615 at most
        part / stat b least about x => line 4: word 2 \"b\": the name of a column is expected
        part / stat a least about x => line 4: word 3 \"least\": a statistic is min, max, \
            null_count, sum, uncompressed_size_in_bytes, is_constant, is_sorted or is_strict_sorted
        part / stat a min about x => line 4: word 4 \"about\": a statistic is exact or inexact
        part / stat a min about => line 4: word 4 \"about\": a statistic is exact or inexact
        part / stat t min about \"x => line 4: word 4 \"about\": a statistic is exact or inexact
        part / stat a min exact 256 1 => line 4: word 5 \"256\": u8 is 0 to 255
        part / row 256 1 => line 4: word 2 \"256\": u8 is 0 to 255
        where eq col b col c => line 3: word 4 \"b\": the name of a column is expected
    ";
    expect_reasons(&rt, rt.alloc(), "column a u8\ncolumn t utf8\n", cases);
}

const PART: &str = "column a u8\ncolumn t utf8?\ncolumn n null\npart\n";

#[test]
fn statistics(rt: HostRuntime) {
    let cases = "
        stat b min exact 1 => line 5: word 2 \"b\": the name of a column is expected
        stat a least exact 1 => line 5: word 3 \"least\": a statistic is min, max, null_count, \
            sum, uncompressed_size_in_bytes, is_constant, is_sorted or is_strict_sorted
        stat n min exact null => line 5: word 3 \"min\": columns of this type have no such statistic
        stat a min about 1 => line 5: word 4 \"about\": a statistic is exact or inexact
        stat a min exact => line 5: word 5 is missing: u8 is 0 to 255
        stat a min exact 256 => line 5: word 5 \"256\": u8 is 0 to 255
        stat t min exact null => line 5: word 5 \"null\": utf8 is a text between quotes
        stat a min exact 1 2 => line 5: word 6 \"2\": the line ends before this word
    ";
    expect_reasons(&rt, rt.alloc(), PART, cases);
}

#[test]
fn values_of_rows(rt: HostRuntime) {
    let cases = "
        row 300 \"\" null => line 5: word 2 \"300\": u8 is 0 to 255
        row 3 => line 5: word 3 is missing: utf8 is a text between quotes, or null
        row 3 x null => line 5: word 3 \"x\": utf8 is a text between quotes, or null
        row 3 \"x => line 5: word 3 \"\\\"x\": a text ends at a quote, and in it \\\" is a quote \
            and \\\\ a backslash
        row 3 \"x\\n\" null => line 5: word 3 \"\\\"x\\\\n\\\" null\": a text ends at a quote, \
            and in it \\\" is a quote and \\\\ a backslash
        row 3 \"x\"y null => line 5: word 3 \"\\\"x\\\"y null\": behind a closing quote stands a \
            space
        row 3 \"two words\" 4 => line 5: word 4 \"4\": the one value of null is null
        row 3 null null 1 => line 5: word 5 \"1\": the line ends before this word
    ";
    expect_reasons(&rt, rt.alloc(), PART, cases);
}

#[test]
fn numbers_of_each_type(rt: HostRuntime) {
    let cases = "
        where lit u16 x => line 2: word 4 \"x\": u16 is 0 to 65535
        where lit u32 x => line 2: word 4 \"x\": u32 is 0 to 4294967295
        where lit u64 x => line 2: word 4 \"x\": u64 is 0 to 18446744073709551615
        where lit i8 x => line 2: word 4 \"x\": i8 is -128 to 127
        where lit i16 x => line 2: word 4 \"x\": i16 is -32768 to 32767
        where lit i32 x => line 2: word 4 \"x\": i32 is -2147483648 to 2147483647
        where lit i64? x => line 2: word 4 \"x\": i64 is -9223372036854775808 to \
            9223372036854775807, or null
        where lit bool x => line 2: word 4 \"x\": bool is true or false
        where lit binary? 00 => line 2: word 4 \"00\": binary is x and pairs of hexadecimal \
            digits, or null
    ";
    expect_reasons(&rt, rt.alloc(), "column a u8\n", cases);
}

#[test]
fn joins(rt: HostRuntime) {
    let cases = "
        join x => line 3: word 2 \"x\": the place of a part is written in digits, \
            18446744073709551615 at most
        join 0 => line 3: word 2 \"0\": two parts are joined, and there are fewer
        part / part / join 2 => line 5: word 2 \"2\": the place of the first of two neighbouring \
            parts is 0 to 1
    ";
    expect_reasons(&rt, rt.alloc(), "column a u8\npart\n", cases);
}

#[test]
fn expressions(rt: HostRuntime) {
    let cases = "
        where => line 2: word 2 is missing: an expression begins with col, lit, eq, ne, gt, ge, \
            lt, le, and, or, not, between, isnull, notnull, like, notlike, ilike or notilike
        where not x => line 2: word 3 \"x\": an expression begins with col, lit, eq, ne, gt, ge, \
            lt, le, and, or, not, between, isnull, notnull, like, notlike, ilike or notilike
        where isnull col b => line 2: word 4 \"b\": the name of a column is expected
        where between <> < => line 2: word 3 \"<>\": an end is compared by < or <=
        where between < => line 2: word 4 is missing: an end is compared by < or <=
        where col a col a => line 2: word 4 \"col\": the line ends before this word
    ";
    expect_reasons(&rt, rt.alloc(), "column a u8\n", cases);
}

#[test]
fn operands_are_named_by_their_types(rt: HostRuntime) {
    let cases = "
        where not eq col a lit u16 1 => line 4: word 3 \"eq\": the types of its operands don't \
            fit: u8 and u16
        where ge lit i64? 1 col a => line 4: word 2 \"ge\": the types of its operands don't fit: \
            i64? and u8
        where and lit bool true lit null null => line 4: word 2 \"and\": the types of its \
            operands don't fit: bool and null
        where or col a lit bool? null => line 4: word 2 \"or\": the types of its operands don't \
            fit: u8 and bool?
        where not col a => line 4: word 2 \"not\": the type of its operand doesn't fit: u8
        where like col a lit utf8 \"a b\" => line 4: word 2 \"like\": the types of its operands \
            don't fit: u8 and utf8
        where notilike col t lit binary x00 => line 4: word 2 \"notilike\": the types of its \
            operands don't fit: utf8? and binary
        where between < < col a lit i8 1 lit u8 2 => line 4: word 2 \"between\": the types of \
            its operands don't fit: u8 and i8
        where between < < col a lit u8? 1 lit i32 2 => line 4: word 2 \"between\": the types of \
            its operands don't fit: u8 and i32
        where eq lit u32 1 lit i16 1 => line 4: word 2 \"eq\": the types of its operands don't \
            fit: u32 and i16
        where eq lit u64 1 col t => line 4: word 2 \"eq\": the types of its operands don't fit: \
            u64 and utf8?
        where eq col n col a => line 4: word 2 \"eq\": the types of its operands don't fit: null \
            and u8
    ";
    let front = "column a u8\ncolumn t utf8?\ncolumn n null\n";
    expect_reasons(&rt, rt.alloc(), front, cases);
}

#[test]
fn a_predicate_of_too_many_words(rt: HostRuntime) {
    let alloc = rt.alloc();
    let mut text = String::from_str(alloc, "column a u8\nwhere").expect(&rt, "text");
    for _ in 0..4094 {
        text.push_str(" not").expect(&rt, "push str");
    }
    text.push_str(" lit bool true\n").expect(&rt, "push str");
    expect_reason(
        &rt,
        alloc,
        text.as_bytes(),
        "line 2: a predicate has 4096 words at most\n",
    );
}

#[test]
fn bytes_that_are_no_text(rt: HostRuntime) {
    let alloc = rt.alloc();
    expect_reason(
        &rt,
        alloc,
        b"column a u8\npart\nrow \xff\n",
        "line 3: the line is not UTF-8\n",
    );
    expect_reason(&rt, alloc, b"\xff\n", "line 1: the line is not UTF-8\n");
}

// A long word is cut behind 40 characters, and none of them is sent as it is to a terminal.
#[test]
fn words_as_they_are_shown(rt: HostRuntime) {
    let cases = "
        0123456789012345678901234567890123456789x => line 1: word 1 \
            \"0123456789012345678901234567890123456789\": a line begins with column, part, stat, \
            row, join or where
        \u{1b}[2J => line 1: word 1 \"\\u{1b}[2J\": a line begins with column, part, stat, row, \
            join or where
    ";
    expect_reasons(&rt, rt.alloc(), "", cases);
}

#[test]
fn why_there_is_no_answer(rt: HostRuntime) {
    let alloc = rt.alloc();
    let text = "column a u8\nwhere col a\n";
    let want = "predicate: the expression behind where is not of type bool\n";
    expect_reason(&rt, alloc, text.as_bytes(), want);
    let mut told = Vec::new(alloc);
    program::run(alloc, &mut Endless { reads: 0 }, &mut io::sink(), &mut told);
    let want = "input: the input is longer than 16777216 bytes\n";
    assert_eq!(&rt; told.as_slice(), want.as_bytes());
}

// A scan tells nothing beside its answer.
#[test]
fn an_answer_has_no_reason(rt: HostRuntime) {
    expect_reason(&rt, rt.alloc(), FIRST_RUN.as_bytes(), "");
}
