// Nulls: counts of them, comparisons with null, tests for it, and columns of nothing else.
use super::*;

const TWO_NULLS: &str = "\
column a i32?
part
row null
row 2
row null
";

#[test]
fn inexact_null_counts(rt: HostRuntime) {
    let cases = "
        stat a null_count inexact 3 / where notnull col a => skipped / rows 0:1
        stat a null_count inexact 2 / where notnull col a => skipped / rows 0:1
        stat a null_count inexact 2 / where isnull col a => skipped / rows 0:0 0:2
        stat a null_count inexact 0 / where isnull col a => skipped 0 / rows
        stat a null_count exact 0 / stat a null_count inexact 2
        where isnull col a => skipped / rows 0:0 0:2
    ";
    expect_each(&rt, rt.alloc(), TWO_NULLS, cases);
}

#[test]
fn exact_null_counts(rt: HostRuntime) {
    let cases = "
        stat a null_count exact 2 / where notnull col a => skipped / rows 0:1
        stat a null_count exact 2 / where isnull col a => skipped / rows 0:0 0:2
        stat a null_count exact 3 / where notnull col a => skipped 0 / rows
        where notnull col a => skipped / rows 0:1
        part / row null / row null / stat a null_count exact 2
        where notnull col a => skipped 1 / rows 0:1
    ";
    expect_each(&rt, rt.alloc(), TWO_NULLS, cases);
}

#[test]
fn comparisons_with_null(rt: HostRuntime) {
    let cases = "
        stat a min exact 2 / stat a max exact 2 / where eq col a lit i32? null => skipped / rows
        where ne col a lit i32 2 => skipped / rows
        where isnull ne col a lit i32 2 => skipped / rows 0:0 0:2
        where not eq col a lit i32? null => skipped / rows
        where or eq col a lit i32 2 eq col a lit i32? null => skipped / rows 0:1
    ";
    expect_each(&rt, rt.alloc(), TWO_NULLS, cases);
}

#[test]
fn no_parts_and_no_rows(rt: HostRuntime) {
    let cases = "
        where isnull col a => skipped / rows
        part / stat a null_count exact 0 / where isnull col a => skipped 0 / rows
        part / stat a null_count exact 0 / where notnull col a => skipped 0 / rows
        part / where isnull col a => skipped / rows
        part / where notnull col a => skipped / rows
        part / where notnull lit i64 1 => skipped 0 / rows
    ";
    expect_each(&rt, rt.alloc(), "column a i32?\n", cases);
}

// Of two counts of one column the later is taken, with its own precision.
#[test]
fn exact_counts_beside_inexact_ones(rt: HostRuntime) {
    let front = "column a i32?\npart\nrow null\nrow null\n";
    let cases = "
        stat a null_count exact 2 / where notnull col a => skipped 0 / rows
        stat a null_count inexact 2 / where notnull col a => skipped / rows
        stat a null_count exact 2 / where isnull col a => skipped / rows 0:0 0:1 / whole 0
        stat a null_count inexact 2 / where isnull col a => skipped / rows 0:0 0:1
        stat a null_count exact 2 / stat a null_count inexact 2
        where notnull col a => skipped / rows
        stat a null_count inexact 2 / stat a null_count exact 2
        where notnull col a => skipped 0 / rows
    ";
    expect_each(&rt, rt.alloc(), front, cases);
}

// The null count of a null literal is taken to be 1, whatever the rows.
#[test]
fn null_tests_of_literals(rt: HostRuntime) {
    let front = "column a i64\npart\nrow 1\npart\nrow 2\nrow 3\n";
    let cases = "
        where notnull lit i64? null => skipped 0 / rows
        where isnull lit i64? null => skipped / rows 0:0 1:0 1:1 / whole 0
        where notnull lit i64 7 => skipped / rows 0:0 1:0 1:1 / whole 0 1
        where notnull lit i64? 7 => skipped / rows 0:0 1:0 1:1 / whole 0 1
        part / where notnull lit i64 7 => skipped 2 / rows 0:0 1:0 1:1 / whole 0 1
        where isnull lit i64 7 => skipped 0 1 / rows
        where isnull lit i64? 7 => skipped 0 1 / rows
        where and notnull lit i64 7 eq col a lit i64 2 => skipped / rows 1:0
        where and isnull lit i64? null eq col a lit i64 3 => skipped / rows 1:1
    ";
    expect_each(&rt, rt.alloc(), front, cases);
}

// Crossed bounds, a count of all, a count of none over no rows.
#[test]
fn statistics_at_odds(rt: HostRuntime) {
    let front = "column a i32?\npart\nrow null\nrow null\nstat a min inexact 5\n\
        stat a max inexact 3\n";
    let cases = "
        where eq col a lit i32 4 => skipped 0 / rows
        where ne col a lit i32 4 => skipped / rows
        stat a null_count exact 2 / where notnull col a => skipped 0 / rows
        stat a null_count exact 2 / where isnull col a => skipped / rows 0:0 0:1 / whole 0
    ";
    expect_each(&rt, rt.alloc(), front, cases);
}

#[test]
fn columns_of_type_null(rt: HostRuntime) {
    let front = "column a null\npart\nrow null\n";
    let cases = "
        where eq col a lit null null => skipped / rows
        where eq lit null null lit null null => skipped / rows
        where between <= <= lit null null lit null null col a => skipped / rows
        where isnull eq col a lit null null => skipped / rows 0:0
        stat a null_count exact 1 / where notnull col a => skipped 0 / rows
    ";
    expect_each(&rt, rt.alloc(), front, cases);
}

#[test]
fn statistics_of_type_null(rt: HostRuntime) {
    let cases = "
        stat a max exact null => line 3: bad
        stat a min inexact null => line 3: bad
        stat a sum exact 0 => line 3: bad
        stat a null_count exact null => line 3: bad
        stat a uncompressed_size_in_bytes exact 0 / where notnull col a => skipped / rows
        stat a is_constant exact true / stat a is_sorted exact true
        where notnull col a => skipped / rows
    ";
    expect_each(&rt, rt.alloc(), "column a null\npart\n", cases);
}
