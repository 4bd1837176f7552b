// What bounds rule out: comparisons, connectives, LIKE and literals.
use super::*;

#[test]
fn comparisons_with_a_literal(rt: HostRuntime) {
    let front = "column a i32\npart\nstat a min exact 5\nstat a max exact 10\nrow 5\nrow 10\n";
    let cases = "
        where gt col a lit i32 10 => skipped 0 / rows
        where ge col a lit i32 10 => skipped / rows 0:1
        where ge col a lit i32 11 => skipped 0 / rows
        where lt col a lit i32 5 => skipped 0 / rows
        where le col a lit i32 5 => skipped / rows 0:0
        where le lit i32 10 col a => skipped / rows 0:1
        where lt lit i32 10 col a => skipped 0 / rows
        where eq col a lit i32 4 => skipped 0 / rows
        where eq lit i32 7 col a => skipped / rows
        where ne col a lit i32 5 => skipped / rows 0:1
    ";
    expect_each(&rt, rt.alloc(), front, cases);
}

// Row by row, with no bounds.
#[test]
fn comparisons_at_equality(rt: HostRuntime) {
    let front = "column a i32\npart\nrow 4\nrow 5\nrow 6\n";
    let cases = "
        where lt col a lit i32 5 => skipped / rows 0:0
        where le col a lit i32 5 => skipped / rows 0:0 0:1
        where gt col a lit i32 5 => skipped / rows 0:2
        where ge col a lit i32 5 => skipped / rows 0:1 0:2
        where eq col a lit i32 5 => skipped / rows 0:1
        where ne col a lit i32 5 => skipped / rows 0:0 0:2
    ";
    expect_each(&rt, rt.alloc(), front, cases);
}

#[test]
fn comparisons_of_two_columns(rt: HostRuntime) {
    let front = "column a i32\ncolumn b i32\npart\nstat a min exact 5\nstat a max exact 9\n\
        stat b min exact 1\nstat b max inexact 5\nrow 5 1\nrow 9 5\n";
    let cases = "
        where lt col a col b => skipped 0 / rows
        where le col a col b => skipped / rows
        where eq col a col b => skipped / rows
        where gt col b col a => skipped 0 / rows
        where gt col a col b => skipped / rows 0:0 0:1
        where ne col a col a => skipped / rows
    ";
    expect_each(&rt, rt.alloc(), front, cases);
}

#[test]
fn columns_that_differ(rt: HostRuntime) {
    let front = "column a i32\ncolumn b i32\npart\nstat a min exact 5\nstat a max exact 5\n\
        stat b min exact 5\nrow 5 5\n";
    let cases = "
        stat b max exact 5 / where ne col a col b => skipped 0 / rows
        stat b max exact 6 / where ne col a col b => skipped / rows
        stat b max exact 5 / where eq col a col b => skipped / rows 0:0
        where ne col a lit i32 5 => skipped 0 / rows
    ";
    expect_each(&rt, rt.alloc(), front, cases);
}

#[test]
fn connectives(rt: HostRuntime) {
    let front = "column a i32\ncolumn b i32\npart\nstat a min exact 0\nstat a max exact 9\n\
        stat b min exact 0\nstat b max exact 7\nrow 3 7\n";
    let cases = "
        where and eq col a lit i32 3 or gt col b lit i32 7 lit bool false => skipped 0 / rows
        where or eq col a lit i32 3 gt col b lit i32 7 => skipped / rows 0:0
        where and gt col a lit i32 9 not gt col b lit i32 7 => skipped 0 / rows
        where or gt col a lit i32 9 not eq col b lit i32 7 => skipped / rows
        where not gt col a lit i32 9 => skipped / rows 0:0
        where not not gt col a lit i32 9 => skipped / rows
    ";
    expect_each(&rt, rt.alloc(), front, cases);
}

#[test]
fn connectives_of_ranges(rt: HostRuntime) {
    let front = "column a i32\npart\nrow 7\n";
    let cases = "
        stat a max exact 10 / where and gt col a lit i32 10 lt col a lit i32 50 => skipped 0 / rows
        stat a min exact 50 / where and gt col a lit i32 10 lt col a lit i32 50 => skipped 0 / rows
        stat a min exact 5 / stat a max exact 10
        where or gt col a lit i32 10 lt col a lit i32 5 => skipped 0 / rows
        stat a max exact 10 / where or gt col a lit i32 10 lt col a lit i32 5 => skipped / rows
        stat a max exact 9 / where between <= <= col a lit i32 10 lit i32 50 => skipped 0 / rows
        stat a min exact 51 / where between <= <= col a lit i32 10 lit i32 50 => skipped 0 / rows
        stat a max exact 10 / stat a min exact 10
        where between <= <= col a lit i32 10 lit i32 50 => skipped / rows
    ";
    expect_each(&rt, rt.alloc(), front, cases);
}

#[test]
fn literal_truths(rt: HostRuntime) {
    let front = "column a i32\npart\npart\nrow 1\n";
    let cases = "
        where lit bool false => skipped 0 1 / rows
        where lit bool true => skipped / rows 1:0 / whole 0 1
        where lit bool? null => skipped / rows
        where or lit bool false eq col a lit i32 1 => skipped / rows 1:0
        where and eq col a lit i32 1 lit bool? false => skipped 0 1 / rows
        where gt lit i32 1 lit i32 2 => skipped 0 1 / rows
        where eq lit i32 1 lit i32? null => skipped / rows
    ";
    expect_each(&rt, rt.alloc(), front, cases);
}

// An operand that is neither a column nor a literal has no bounds.
#[test]
fn operands_without_bounds(rt: HostRuntime) {
    let front = "column t bool\npart\nstat t min exact true\nstat t max exact true\nrow true\n";
    let cases = "
        where eq not col t lit bool true => skipped / rows
        where eq isnull col t lit bool true => skipped / rows
        where eq isnull col t lit bool false => skipped / rows 0:0
        where eq col t lit bool false => skipped 0 / rows
        where col t => skipped / rows 0:0
    ";
    expect_each(&rt, rt.alloc(), front, cases);
}

#[test]
fn prefixes_of_patterns(rt: HostRuntime) {
    let front = "column s utf8\npart\nrow \"prefix1\"\n";
    let cases = r#"
        stat s min exact "prefiy" / where like col s lit utf8 "prefix%" => skipped 0 / rows
        stat s min exact "prefixz" / where like col s lit utf8 "prefix%" => skipped / rows 0:0
        stat s max exact "prefiw" / where like col s lit utf8 "prefix%" => skipped 0 / rows
        stat s max exact "prefix" / where like col s lit utf8 "prefix%" => skipped / rows 0:0
        stat s min exact "preg" / where like col s lit utf8 "pref%ix%" => skipped 0 / rows
        stat s min exact "prefz" / where like col s lit utf8 "pref_ix_" => skipped / rows
        stat s max exact "pre" / where like col s lit utf8 "pref_x_" => skipped 0 / rows
    "#;
    expect_each(&rt, rt.alloc(), front, cases);
}

#[test]
fn patterns_without_a_prefix(rt: HostRuntime) {
    let front = "column s utf8\npart\nstat s min exact \"exacu\"\n\
        stat s max exact \"exacu\"\nrow \"exacu\"\n";
    let cases = r#"
        where like col s lit utf8 "exact" => skipped 0 / rows
        where like col s lit utf8 "exacu" => skipped / rows 0:0
        where like col s lit utf8 "%t" => skipped / rows
        where like col s lit utf8 "_" => skipped / rows
        where like col s lit utf8 "" => skipped 0 / rows
        where like col s lit utf8 "\\%%" => skipped 0 / rows
        where like col s lit utf8 "exacu\\" => skipped 0 / rows
    "#;
    expect_each(&rt, rt.alloc(), front, cases);
}

#[test]
fn other_forms_of_like_rule_nothing_out(rt: HostRuntime) {
    let front = "column s utf8?\npart\nstat s min exact \"x\"\nrow \"xA\"\nrow null\n";
    let cases = r#"
        where notlike col s lit utf8 "a%" => skipped / rows 0:0
        where ilike col s lit utf8 "a%" => skipped / rows
        where ilike col s lit utf8 "Xa" => skipped / rows 0:0
        where notilike col s lit utf8 "Xa" => skipped / rows
        where like col s lit utf8? "a%" => skipped 0 / rows
        where like col s lit utf8? null => skipped / rows
        where like col s col s => skipped / rows 0:0
        where like lit utf8 "abc" lit utf8 "b%" => skipped 0 / rows
    "#;
    expect_each(&rt, rt.alloc(), front, cases);
}

// The successor of a prefix skips the characters that there aren't.
#[test]
fn prefixes_of_the_last_characters(rt: HostRuntime) {
    let front = "column s utf8\npart\n";
    let cases = "
        stat s min exact \"c\" / where like col s lit utf8 \"b\u{D7FF}%\" => skipped 0 / rows
        stat s min exact \"b\u{E000}\" / where like col s lit utf8 \"b\u{D7FF}%\" => skipped / rows
        stat s min exact \"\u{10000}\" / where like col s lit utf8 \"\u{FFFF}%\" => skipped 0 / rows
        stat s min exact \"\u{E001}\" / where like col s lit utf8 \"\u{E000}%\" => skipped 0 / rows
        stat s max exact \"a\" / where like col s lit utf8 \"\u{10FFFF}%\" => skipped / rows
        stat s min exact \"b\" / where like col s lit utf8 \"a\u{10FFFF}%\" => skipped 0 / rows
    ";
    expect_each(&rt, rt.alloc(), front, cases);
}

// Where statistics are untrue, rows are lost or a part is kept.
#[test]
fn untrue_statistics(rt: HostRuntime) {
    let cases = "
        stat a max exact 5 / row 20 / where gt col a lit i64 10 => skipped 0 / rows
        stat a min exact 20 / row 1 / where gt col a lit i64 10 => skipped / rows
        stat a null_count exact 0 / row null / where isnull col a => skipped 0 / rows
    ";
    expect_each(&rt, rt.alloc(), "column a i64?\npart\n", cases);
}
