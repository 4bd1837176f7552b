//! Explanations of the scans that small texts name, and expressions as they are printed.
use std::alloc::Global;
use std::process::Abort;
use vortex_text::explain::text::explain_text;

// The lines of the predicate `gt col a lit i64 5` over a column `a` of type `i64?`.
const ABOVE_5: &str = "predicate: ($.a > 5i64)\n  falsifier: (stat($.a, max) <= 5i64)\n  \
    satisfier: ((stat($.a, min) > 5i64) and stat($.a, all_non_null))\n\
    normal form: ($.a > 5i64)\n  falsifier: (stat($.a, max) <= 5i64)\n  \
    satisfier: ((stat($.a, min) > 5i64) and stat($.a, all_non_null))\n";

// The explanation of `a > 5` over these parts ends so, behind the lines of the predicate.
fn expect_parts(rt: &impl Abort, alloc: Global, parts: &str, want: &str) {
    let text = format!(in alloc; "column a i64?\n{parts}where gt col a lit i64 5\n").expect(
        rt, "text",
    );
    let told = explain_text(alloc, text.as_bytes()).expect(rt, "an explanation");
    let told = told.expect(rt, "no bad line");
    assert_eq!(rt; told.strip_prefix(ABOVE_5), Some(want));
}

#[test]
fn a_skipped_part(rt: HostRuntime) {
    let want = "part 0: skipped, 1 rows\n  ($.a > 5i64): falsifier true, satisfier null \
        for want of stat($.a, min), stat($.a, all_non_null) (an exact null_count answers it)\n";
    expect_parts(&rt, rt.alloc(), "part\nstat a max exact 5\nrow 5\n", want);
}

#[test]
fn a_whole_part(rt: HostRuntime) {
    let parts = "part\nstat a min exact 6\nstat a null_count exact 0\nrow 6\nrow 7\n";
    let want = "part 0: whole, 2 rows\n  ($.a > 5i64): falsifier null for want of \
        stat($.a, max), satisfier true\n";
    expect_parts(&rt, rt.alloc(), parts, want);
}

#[test]
fn tested_parts(rt: HostRuntime) {
    let parts = "part\npart\nstat a min exact 5\nstat a max exact 6\nrow 5\nrow 6\n";
    let want = "part 0: tested, 0 rows\n  ($.a > 5i64): falsifier null for want of \
        stat($.a, max), satisfier null for want of stat($.a, min), stat($.a, all_non_null) \
        (an exact null_count answers it)\n\
        part 1: tested, 2 rows\n  ($.a > 5i64): falsifier false, satisfier false\n";
    expect_parts(&rt, rt.alloc(), parts, want);
}

// The line of the one leaf of a predicate, of a part with these statistics.
fn expect_leaf(rt: &impl Abort, alloc: Global, stats: &str, predicate: &str, want: &str) {
    let text = format!(in alloc;
        "column a i64?\ncolumn s utf8\npart\n{stats}row 1 \"x\"\n\
        row null \"y\"\nrow 2 \"z\"\nwhere {predicate}\n"
    )
    .expect(rt, "text");
    let told = explain_text(alloc, text.as_bytes()).expect(rt, "an explanation");
    let told = told.expect(rt, "no bad line");
    assert_eq!(rt; told.lines().last(), Some(want));
}

// An inexact count that is given doesn't answer, and is told apart from none.
#[test]
fn inexact_counts_of_nulls(rt: HostRuntime) {
    let alloc = rt.alloc();
    let inexact = "stat a null_count inexact 2\n";
    let want = "  is_null($.a): falsifier null for want of an exact stat($.a, null_count) \
        (an inexact one is given), stat($.a, all_non_null) (an exact null_count answers it, an \
        inexact one is given), satisfier null for want of an exact stat($.a, null_count) (an \
        inexact one is given)";
    expect_leaf(&rt, alloc, inexact, "isnull col a", want);
    let want = "  is_null($.a): falsifier null for want of an exact stat($.a, null_count), \
        stat($.a, all_non_null) (an exact null_count answers it), satisfier null for want of an \
        exact stat($.a, null_count), stat($.a, all_null) (an exact null_count answers it)";
    expect_leaf(&rt, alloc, "", "isnull col a", want);
    let want = "  is_null($.a): falsifier false, satisfier false";
    expect_leaf(
        &rt,
        alloc,
        "stat a null_count exact 1\n",
        "isnull col a",
        want,
    );
}

// A placeholder that a proof has twice is told once.
#[test]
fn repeated_placeholders(rt: HostRuntime) {
    let alloc = rt.alloc();
    let want = "  (1i64 <= $.a <= 2i64): falsifier null for want of stat($.a, max), \
        stat($.a, min), satisfier null for want of stat($.a, min), stat($.a, all_non_null) (an \
        exact null_count answers it), stat($.a, max)";
    let predicate = "between <= <= col a lit i64 1 lit i64 2";
    expect_leaf(&rt, alloc, "", predicate, want);
}

// Of 51 parts a strip is told, and the ten tested ones with the most rows, those first.
#[test]
fn many_parts(rt: HostRuntime) {
    let alloc = rt.alloc();
    let mut text = String::from_str(alloc, "column a null\n").expect(&rt, "text");
    for place in 0..51 {
        text.push_str("part\n").expect(&rt, "push str");
        if place < 40 {
            text.push_str("stat a null_count exact 0\n")
                .expect(&rt, "push str");
        }
        if place == 44 {
            text.push_str("row null\n").expect(&rt, "push str");
        }
    }
    text.push_str("where isnull col a\n")
        .expect(&rt, "push str");
    let told = explain_text(alloc, text.as_bytes())
        .expect(&rt, "explain text")
        .unwrap_or(String::new(alloc));
    let strip = "parts, 1 a sign (. skipped, # whole, ? tested): \
        ........................................???????????\npart 44: tested, 1 rows\n";
    assert!(&rt; told.contains(strip), "{told}");
    assert_eq!(&rt; told.matches("\npart ").count(), 10);
}

// A run of neighbours has the sign of one that is tested, else of a whole one.
#[test]
fn a_run_of_parts(rt: HostRuntime) {
    let alloc = rt.alloc();
    let mut text = String::from_str(alloc, "column a i64\n").expect(&rt, "text");
    for place in 0..120 {
        text.push_str("part\nstat a min exact 6\n")
            .expect(&rt, "push str");
        if place < 8 {
            text.push_str("stat a max exact 5\n")
                .expect(&rt, "push str");
        }
        if place == 7 || place == 9 || place == 10 {
            text.push_str("stat a null_count exact 0\n")
                .expect(&rt, "push str");
        }
    }
    text.push_str("where gt col a lit i64 5\n")
        .expect(&rt, "push str");
    let told = explain_text(alloc, text.as_bytes())
        .expect(&rt, "explain text")
        .unwrap_or(String::new(alloc));
    let strip = "parts, 2 a sign (. skipped, # whole, ? tested): ....??????";
    assert!(&rt; told.contains(strip), "{told}");
}

// A predicate over four columns is printed so.
fn expect_shown(rt: &impl Abort, alloc: Global, predicate: &str, want: &str) {
    let front = "column a i64?\ncolumn t bool\ncolumn s utf8\ncolumn b binary?";
    let text = format!(in alloc; "{front}\nwhere {predicate}\n").expect(rt, "text");
    let told = explain_text(alloc, text.as_bytes())
        .expect(rt, "explain text")
        .unwrap_or(String::new(alloc));
    assert_eq!(rt; told.lines().next(), Some(want));
}

#[test]
fn comparisons(rt: HostRuntime) {
    let alloc = rt.alloc();
    expect_shown(
        &rt,
        alloc,
        "eq col a lit i64 -1",
        "predicate: ($.a = -1i64)",
    );
    expect_shown(
        &rt,
        alloc,
        "ne col a lit i64? null",
        "predicate: ($.a != null)",
    );
    expect_shown(
        &rt,
        alloc,
        "ge lit u8 1 lit u8 2",
        "predicate: (1u8 >= 2u8)",
    );
    expect_shown(
        &rt,
        alloc,
        "lt lit u16 1 lit u16 2",
        "predicate: (1u16 < 2u16)",
    );
    expect_shown(
        &rt,
        alloc,
        "le lit u32 1 lit u32 2",
        "predicate: (1u32 <= 2u32)",
    );
}

#[test]
fn values(rt: HostRuntime) {
    let alloc = rt.alloc();
    expect_shown(
        &rt,
        alloc,
        "eq lit u64 1 lit u64 2",
        "predicate: (1u64 = 2u64)",
    );
    expect_shown(
        &rt,
        alloc,
        "eq lit i8 1 lit i8 -2",
        "predicate: (1i8 = -2i8)",
    );
    expect_shown(
        &rt,
        alloc,
        "eq lit i16 1 lit i16 -2",
        "predicate: (1i16 = -2i16)",
    );
    expect_shown(
        &rt,
        alloc,
        "eq lit i32 1 lit i32 -2",
        "predicate: (1i32 = -2i32)",
    );
    expect_shown(
        &rt,
        alloc,
        "eq col b lit binary x00fF",
        "predicate: ($.b = x00ff)",
    );
}

#[test]
fn connectives(rt: HostRuntime) {
    let alloc = rt.alloc();
    let predicate = "or and col t lit bool false not col t";
    expect_shown(
        &rt,
        alloc,
        predicate,
        "predicate: (($.t and false) or not($.t))",
    );
    let predicate = "and isnull col a notnull col b";
    expect_shown(
        &rt,
        alloc,
        predicate,
        "predicate: (is_null($.a) and is_not_null($.b))",
    );
}

#[test]
fn ranges(rt: HostRuntime) {
    let alloc = rt.alloc();
    let predicate = "between < <= col a lit i64 1 lit i64 2";
    expect_shown(&rt, alloc, predicate, "predicate: (1i64 < $.a <= 2i64)");
    let predicate = "between <= < col a lit i64 1 lit i64 2";
    expect_shown(&rt, alloc, predicate, "predicate: (1i64 <= $.a < 2i64)");
}

#[test]
fn patterns(rt: HostRuntime) {
    let alloc = rt.alloc();
    let pattern = "col s lit utf8 \"a\\\"%\"";
    for (word, shown) in [
        ("like", "like"),
        ("notlike", "not like"),
        ("ilike", "ilike"),
        ("notilike", "not ilike"),
    ] {
        let predicate = format!(in alloc; "{word} {pattern}").expect(&rt, "predicate");
        let want = format!(in alloc; "predicate: ($.s {shown} \"a\\\"%\")").expect(&rt, "want");
        expect_shown(&rt, alloc, &predicate, &want);
    }
}

#[test]
fn no_explanation_of_a_bad_line(rt: HostRuntime) {
    assert_eq!(&rt;
        explain_text(rt.alloc(), b"column\n").expect(&rt, "explain text"),
        None
    );
}
