//! Tests of the beginnings of patterns, and of successors.
use std::alloc::Global;
use std::process::Abort;
use vortex_expr::LikePattern;
use vortex_expr::like_pattern::successor;

// The pattern has this prefix, and is exact or not.
fn expect_reading(rt: &impl Abort, alloc: Global, pattern: &str, prefix: &str, is_exact: bool) {
    let read = LikePattern::try_read(alloc, pattern).expect(rt, "a pattern");
    assert!(rt;
        read.prefix() == prefix && read.exact().is_some() == is_exact,
        "{pattern}"
    );
}

#[test]
fn are_read(rt: HostRuntime) {
    let alloc = rt.alloc();
    expect_reading(&rt, alloc, "pref%ix%", "pref", false);
    expect_reading(&rt, alloc, "pref_ix_", "pref", false);
    expect_reading(&rt, alloc, "%suffix", "", false);
    expect_reading(&rt, alloc, "\\é\\%_", "é%", false);
    expect_reading(&rt, alloc, "日本", "日本", true);
    expect_reading(&rt, alloc, "a\\", "a\\", true);
}

// The text has this successor.
fn expect_successor(rt: &impl Abort, alloc: Global, text: &str, expected: &str) {
    let found = successor(alloc, text)
        .expect(rt, "memory")
        .expect(rt, "a successor");
    assert_eq!(rt; found.as_str(), expected);
}

#[test]
fn successors_raise_the_last_character_that_has_a_next_one(rt: HostRuntime) {
    let alloc = rt.alloc();
    expect_successor(&rt, alloc, "prefix", "prefiy");
    expect_successor(&rt, alloc, "az", "a{");
    expect_successor(&rt, alloc, "\u{7F}", "\u{80}");
    expect_successor(&rt, alloc, "\u{FFFF}", "\u{10000}");
    expect_successor(&rt, alloc, "a\u{D7FF}\u{10FFFF}", "b");
    let none = successor(alloc, "\u{10FFFF}\u{D7FF}").expect(&rt, "memory");
    assert!(rt; none.is_none());
}
