// BETWEEN: strict, crossed and equal ends, and what bounds rule out of a range.
use super::*;

const NUMBERS: &str = "\
column a i32
part
stat a min exact 0
stat a max exact 60
row 0
row 4
row 60
";

#[test]
fn a_repeated_column_and_crossed_ends(rt: HostRuntime) {
    let cases = "
        where and gt col a lit i32 10 lt col a lit i32 5 => skipped / rows
        where between <= <= col a lit i32 50 lit i32 10 => skipped 0 / rows
        where between <= <= col a lit i32 4 lit i32 4 => skipped / rows 0:1
        where between <= < col a lit i32 4 lit i32 4 => skipped 0 / rows
    ";
    expect_each(&rt, rt.alloc(), NUMBERS, cases);
}

#[test]
fn an_open_range_of_neighbours(rt: HostRuntime) {
    let cases = "
        where between < < col a lit i32 3 lit i32 4 => skipped 0 / rows
        where between < < col a lit i32 3 lit i32 5 => skipped / rows 0:1
        where between < <= col a lit i32 3 lit i32 4 => skipped / rows 0:1
        where between <= < col a lit i32? 3 lit i32? 3 => skipped 0 / rows
    ";
    expect_each(&rt, rt.alloc(), NUMBERS, cases);
}

#[test]
fn strict_ends_move_by_one(rt: HostRuntime) {
    let front = "column a i32\npart\nrow 3\n";
    let cases = "
        stat a max exact 3 / where between < <= col a lit i32 3 lit i32 10 => skipped 0 / rows
        stat a max exact 4 / where between < <= col a lit i32 3 lit i32 10 => skipped / rows
        stat a min exact 10 / where between < <= col a lit i32 3 lit i32 10 => skipped / rows
        stat a min exact 11 / where between < <= col a lit i32 3 lit i32 10 => skipped 0 / rows
    ";
    expect_each(&rt, rt.alloc(), front, cases);
}

#[test]
fn strict_ends_at_the_ends_of_a_type(rt: HostRuntime) {
    let front = "column a i8\ncolumn u u64\npart\nrow 0 0\n";
    let cases = "
        where between < <= col a lit i8 127 lit i8 127 => skipped 0 / rows
        where between <= < col a lit i8 -128 lit i8 -128 => skipped 0 / rows
        where between < < col u lit u64 18446744073709551615 lit u64 0 => skipped 0 / rows
        where between <= < col u lit u64 0 lit u64 0 => skipped 0 / rows
        where between < < col u lit u64 0 lit u64 18446744073709551615 => skipped / rows
    ";
    expect_each(&rt, rt.alloc(), front, cases);
}

#[test]
fn an_open_range_of_a_whole_type(rt: HostRuntime) {
    let front = "column a i8\npart\nrow 126\n";
    let cases = "
        where between < < col a lit i8 -128 lit i8 127 => skipped / rows 0:0
        stat a max exact -128 / where between < < col a lit i8 -128 lit i8 127 => skipped 0 / rows
        stat a max exact -127 / where between < < col a lit i8 -128 lit i8 127 => skipped / rows 0:0
        stat a min exact 127 / where between < < col a lit i8 -128 lit i8 127 => skipped 0 / rows
        stat a min exact 126 / where between < < col a lit i8 -128 lit i8 127 => skipped / rows 0:0
    ";
    expect_each(&rt, rt.alloc(), front, cases);
}

#[test]
fn ranges_of_texts(rt: HostRuntime) {
    let front = "column s utf8\npart\nrow \"b\"\n";
    let cases = r#"
        where between < <= col s lit utf8 "b" lit utf8 "b" => skipped 0 / rows
        where between <= <= col s lit utf8 "b" lit utf8 "b" => skipped / rows 0:0
        where between <= <= col s lit utf8 "c" lit utf8 "b" => skipped 0 / rows
        stat s max exact "a"
        where between < <= col s lit utf8 "a" lit utf8 "c" => skipped 0 / rows
        stat s min exact "c"
        where between < <= col s lit utf8 "a" lit utf8 "c" => skipped / rows 0:0
        stat s min exact "d"
        where between < <= col s lit utf8 "a" lit utf8 "c" => skipped 0 / rows
    "#;
    expect_each(&rt, rt.alloc(), front, cases);
}

#[test]
fn ranges_of_truths_and_bytes(rt: HostRuntime) {
    let front = "column t bool\ncolumn x binary\npart\nrow false x01\n";
    let cases = "
        where between < < col t lit bool false lit bool true => skipped / rows
        stat t max exact false
        where between < < col t lit bool false lit bool true => skipped 0 / rows
        stat t min exact true
        where between < < col t lit bool false lit bool true => skipped 0 / rows
        where between <= <= col t lit bool true lit bool false => skipped 0 / rows
        where between < < col x lit binary x lit binary x0100 => skipped / rows 0:0
        where between < < col x lit binary x01 lit binary x => skipped 0 / rows
    ";
    expect_each(&rt, rt.alloc(), front, cases);
}

// A null end decides nothing where the other end is false of the value.
#[test]
fn null_ends(rt: HostRuntime) {
    let front = "column a i32\npart\nstat a min exact 6\nrow 6\n";
    let cases = "
        where not between <= <= lit i32 5 lit i32? null lit i32 4 => skipped / rows 0:0
        where between <= <= lit i32 5 lit i32? null lit i32 4 => skipped 0 / rows
        where between <= <= col a lit i32? null lit i32 5 => skipped 0 / rows
        where between <= <= col a lit i32? null lit i32 6 => skipped / rows
        where isnull between <= <= col a lit i32? null lit i32 6 => skipped / rows 0:0
    ";
    expect_each(&rt, rt.alloc(), front, cases);
}

#[test]
fn ranges_of_expressions(rt: HostRuntime) {
    let front = "column a i32\ncolumn b i32\npart\nstat a max exact 4\nstat b min exact 5\n\
        row 4 5\n";
    let cases = "
        where between < < isnull col a lit bool true lit bool false => skipped 0 / rows
        where between <= <= isnull col a lit bool false lit bool false => skipped / rows 0:0
        where between <= <= lit i32 5 lit i32 1 lit i32 4 => skipped 0 / rows
        where between <= <= col a col b lit i32 9 => skipped 0 / rows
        where between <= <= col b col a lit i32 9 => skipped / rows 0:0
    ";
    expect_each(&rt, rt.alloc(), front, cases);
}
