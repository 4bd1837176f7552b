//! Tests of LIKE: a few rows of it, and long inputs, for which no clause bounds the time.
use std::alloc::{AllocError, Global};
use std::process::Abort;
use vortex_expr::LikeOptions;

const PLAIN: LikeOptions = LikeOptions {
    negated: false,
    case_insensitive: false,
};

const IGNORING_CASE: LikeOptions = LikeOptions {
    negated: false,
    case_insensitive: true,
};

// Whether each text is like the pattern beside it, as told.
fn expect(rt: &impl Abort, options: LikeOptions, cases: &[(&str, &str, bool)]) {
    for (text, pattern, expected) in cases {
        let answer = options.matches(text, pattern);
        assert!(rt; answer == *expected, "{text} against {pattern}");
    }
}

#[test]
fn short_texts(rt: HostRuntime) {
    assert_eq!(rt; LikeOptions::default(), PLAIN);
    let cases = [
        ("mississippi", "m%iss%ip%i", true),
        ("mississippi", "m%iss%ip%ip", false),
        ("abc", "%_%_%_%", true),
        ("ab", "%_%_%_%", false),
        ("a\\", "a\\", true),
        ("日本語", "%本_", true),
        ("日本語", "日_", false),
        ("ααβ東京🦊", "%β東%", true),
        ("ααβ東京🦊", "%東🦊%", false),
        ("aaé", "%aé%%", true),
        ("xababax", "%aba%aba%", false),
        ("xabaabax", "%aba%aba%", true),
    ];
    expect(&rt, PLAIN, &cases);
    let cases = [
        ("PREFIX", "pre%", true),
        ("é", "É", false),
        ("12 МИР k4", "%МИР K%", true),
        ("x@[y]", "%@[Y%", true),
        ("x`{y}", "%@[Y%", false),
        ("..Ab\\..", "%aB\\\\%", true),
    ];
    expect(&rt, IGNORING_CASE, &cases);
}

// A part so many times, and an end.
type Run<'a> = (&'a str, usize, &'a str);

fn long(alloc: Global, first: &str, run: Run<'_>) -> Result<String, AllocError> {
    let mut text = String::from_str(alloc, first)?;
    for _ in 0..run.1 {
        text.push_str(run.0)?;
    }
    text.push_str(run.2)?;
    Ok(text)
}

// Whether each long text is like the long pattern beside it, which begins with `%`, as told.
fn expect_long(
    rt: &impl Abort,
    alloc: Global,
    options: LikeOptions,
    cases: &[(Run<'_>, Run<'_>, bool)],
) {
    for (text, pattern, expected) in cases {
        let text = long(alloc, "", *text).expect(rt, "a text");
        let pattern = long(alloc, "%", *pattern).expect(rt, "a pattern");
        let answer = options.matches(text.as_str(), pattern.as_str());
        assert!(rt; answer == *expected, "{text} against {pattern}");
    }
}

#[test]
fn a_long_run_of_letters_takes_linear_time(rt: HostRuntime) {
    let cases = [(("a", 40000, ""), ("a", 20000, "b%"), false)];
    expect_long(&rt, rt.alloc(), PLAIN, &cases);
    expect_long(&rt, rt.alloc(), IGNORING_CASE, &cases);
}

#[test]
fn many_and_periodic_runs_end_at_once(rt: HostRuntime) {
    let cases = [
        (("a", 5000, ""), ("a%", 3, "a"), true),
        (("a", 5000, ""), ("a%", 8, "b"), false),
        (("ab", 2000, "b"), ("ab", 1000, "b%"), true),
        (("ab", 2000, "b"), ("ab", 1000, "bb%"), false),
        (("ab", 2000, "ba"), ("ab", 1000, "ba%ba%"), false),
        (("ab", 2000, "baba"), ("ab", 1000, "ba%ba%"), true),
    ];
    expect_long(&rt, rt.alloc(), PLAIN, &cases);
}

#[test]
fn long_pieces_of_each_kind_are_found(rt: HostRuntime) {
    let cases = [
        (("a%", 2000, "_b"), ("\\a\\%", 1000, "\\_%"), true),
        (("é日", 2000, "😀é"), ("é日", 1000, "😀%"), true),
        (("é日", 2000, "😀é"), ("é日", 1000, "😀日%"), false),
        (("a", 4000, ""), ("a_", 1000, ""), true),
        (("a", 4000, ""), ("a", 2000, "b"), false),
        (("a", 1000, "bc"), ("a", 400, "_c%"), true),
        (("a", 1000, "bc"), ("a", 400, "_d%"), false),
    ];
    expect_long(&rt, rt.alloc(), PLAIN, &cases);
}

#[test]
fn long_pieces_are_found_in_either_case(rt: HostRuntime) {
    let cases = [
        (("ab", 2000, "b"), ("ab", 1000, "b%"), true),
        (("ab", 2000, "b"), ("ab", 1000, "bb%"), false),
        (("aB", 2000, "Cx"), ("Ab", 1000, "c%"), true),
    ];
    expect_long(&rt, rt.alloc(), IGNORING_CASE, &cases);
}
