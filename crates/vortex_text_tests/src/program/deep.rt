// Predicates of as many words as one may have, nested in each way.
use super::*;

// Words, so many times.
fn push_words(text: &mut String, words: &str, times: usize) -> Result<(), AllocError> {
    for _ in 0..times {
        text.push_str(words)?;
    }
    Ok(())
}

// An input of one row whose predicate is `col t` between so many times these words and those.
fn nested(alloc: Global, front: &str, behind: &str, times: usize) -> Result<String, AllocError> {
    let mut text = String::from_str(alloc, "column t bool?\npart\nrow true\nwhere ")?;
    push_words(&mut text, front, times)?;
    text.push_str("col t")?;
    push_words(&mut text, behind, times)?;
    text.push_str("\n")?;
    Ok(text)
}

// The predicate of so many levels selects the row, and one of a level more has too many words.
fn expect_nested(rt: &impl Abort, alloc: Global, front: &str, behind: &str, times: usize) {
    let deepest = nested(alloc, front, behind, times).expect(rt, "deepest");
    expect_answer(rt, alloc, deepest.as_str(), 0, "skipped\nrows 0:0\n");
    let deeper = nested(alloc, front, behind, times.saturating_add(1)).expect(rt, "deeper");
    expect_answer(rt, alloc, deeper.as_str(), 2, "line 4: bad\n");
}

#[test]
fn nested_in_not(rt: HostRuntime) {
    expect_nested(&rt, rt.alloc(), "not ", "", 4094);
}

#[test]
fn nested_at_the_left(rt: HostRuntime) {
    expect_nested(&rt, rt.alloc(), "and ", " col t", 1364);
    expect_nested(&rt, rt.alloc(), "or ", " lit bool false", 1023);
}

#[test]
fn nested_at_the_right(rt: HostRuntime) {
    expect_nested(&rt, rt.alloc(), "and col t ", "", 1364);
    expect_nested(&rt, rt.alloc(), "or lit bool false ", "", 1023);
}

// 4,096 words, and one more.
#[test]
fn the_most_words(rt: HostRuntime) {
    let alloc = rt.alloc();
    let longest = nested(alloc, "and col t ", "", 1364).expect(&rt, "longest");
    let longest = longest
        .replace(alloc, "where ", "where not not ")
        .expect(&rt, "longest");
    expect_answer(&rt, alloc, longest.as_str(), 0, "skipped\nrows 0:0\n");
    let longer = longest
        .replace(alloc, "where ", "where not ")
        .expect(&rt, "longer");
    expect_answer(&rt, alloc, longer.as_str(), 2, "line 4: bad\n");
}

#[test]
fn nested_in_between(rt: HostRuntime) {
    expect_nested(
        &rt,
        rt.alloc(),
        "between <= <= ",
        " col t lit bool true",
        511,
    );
    expect_nested(
        &rt,
        rt.alloc(),
        "between <= <= col t lit bool false ",
        "",
        511,
    );
}
