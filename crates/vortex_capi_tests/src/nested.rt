//! Texts that are long, and texts that nest.
use std::alloc::Global;
use std::process::Abort;
use std::test::Fail;
use vortex_base::dtype::DType;
use vortex_base::types::Nullability;
use vortex_capi::nested::error::NestedError;
use vortex_capi::nested::text::nested_expression;
use vortex_syntax::columns::Columns;

// One column of truths, t.
fn truths(alloc: Global) -> Result<Columns, Fail> {
    let name = String::from_str(alloc, "t")?;
    let mut columns = Columns::new(alloc);
    columns.push(alloc, name, DType::Bool(Nullability::Nullable))?;
    Ok(columns)
}

// Some words so often, and then others so often.
fn repeated(alloc: Global, front: (&str, usize), back: (&str, usize)) -> Result<Vec<u8>, Fail> {
    let mut text = Vec::new(alloc);
    for _ in 0..front.1 {
        text.extend_from_slice(front.0.as_bytes())?;
    }
    for _ in 0..back.1 {
        text.extend_from_slice(back.0.as_bytes())?;
    }
    Ok(text)
}

// Why a text is refused, if it is.
fn refusal(alloc: Global, text: &[u8], levels: u32) -> Result<Option<NestedError>, Fail> {
    let columns = truths(alloc)?;
    Ok(nested_expression(alloc, &columns, text, levels).err())
}

fn expect_levels(rt: &impl Abort, alloc: Global, text: &[u8], levels: u32) -> Result<(), Fail> {
    let fewer = levels.saturating_sub(1);
    assert!(rt; refusal(alloc, text, levels)?.is_none());
    assert!(rt; refusal(alloc, text, fewer)? == Some(NestedError::TooDeep));
    Ok(())
}

// 2 ^ 16 is less than 100,000, and 2 ^ 17 is more.
#[test]
fn a_chain_of_100_000_has_17_levels(rt: HostRuntime) -> Result<(), Fail> {
    let alloc = rt.alloc();
    let from_left = repeated(alloc, ("and ", 99_999), ("col t ", 100_000))?;
    expect_levels(&rt, alloc, from_left.as_slice(), 17)?;
    let from_right = repeated(alloc, ("or col t ", 99_999), ("col t", 1))?;
    expect_levels(&rt, alloc, from_right.as_slice(), 17)?;
    let by_pairs = repeated(alloc, ("and and col t col t ", 50_000), ("col t", 1))?;
    expect_levels(&rt, alloc, by_pairs.as_slice(), 17)
}

#[test]
fn each_not_is_a_level(rt: HostRuntime) -> Result<(), Fail> {
    let alloc = rt.alloc();
    let text = repeated(alloc, ("not ", 128), ("col t", 1))?;
    expect_levels(&rt, alloc, text.as_slice(), 128)
}

#[test]
fn a_chain_in_a_chain_is_a_level(rt: HostRuntime) -> Result<(), Fail> {
    let alloc = rt.alloc();
    let text = repeated(alloc, ("and col t or col t ", 64), ("col t", 1))?;
    expect_levels(&rt, alloc, text.as_slice(), 128)
}

#[test]
fn a_text_that_nests_without_end_is_too_deep(rt: HostRuntime) -> Result<(), Fail> {
    let alloc = rt.alloc();
    for words in [
        "not ",
        "and col t or col t ",
        "eq ",
        "isnull ",
        "between <= <= ",
    ] {
        let text = repeated(alloc, (words, 200_000), ("col t", 1))?;
        assert!(&rt;
            refusal(alloc, text.as_slice(), 128)? == Some(NestedError::TooDeep),
            "{words}"
        );
    }
    Ok(())
}

#[test]
fn a_bad_word_is_told_behind_many_levels(rt: HostRuntime) -> Result<(), Fail> {
    let alloc = rt.alloc();
    for back in [
        "col u",
        "col",
        "",
        "col t col t",
        "maybe col t",
        "lit i64 1",
    ] {
        let text = repeated(alloc, ("and col t or col t ", 60), (back, 1))?;
        assert!(&rt;
            refusal(alloc, text.as_slice(), 128)? == Some(NestedError::Bad),
            "{back}"
        );
    }
    Ok(())
}

#[test]
fn a_refused_growth_is_told(rt: HostRuntime) -> Result<(), Fail> {
    let alloc = rt.alloc();
    let columns = truths(alloc)?;
    let text =
        "and or col t or not col t col t and isnull col t like lit utf8 \"a\" lit utf8 \"b\"";
    match nested_expression(alloc, &columns, text.as_bytes(), 9) {
        Ok(_) | Err(NestedError::Memory) => Ok(()),
        Err(_) => Err(Fail::from("a growth that is refused changed the answer")),
    }
}
