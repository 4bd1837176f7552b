//! LIKE of a column of texts with one pattern: the scan selects what each row says by itself,
//! whatever the pattern's shape.
use super::blocks::scans_as_alone;
use super::*;
use vortex_base::{ArrayData, Chunk, Column, ScalarValue};
use vortex_expr::LikeOptions;

// Texts of one and of several bytes a character, in either case, with signs among them.
const TEXTS: [&str; 24] = [
    "",
    "a",
    "b",
    "ab",
    "abc",
    "abcd",
    "xabc",
    "xabcx",
    "ABC",
    "aBc",
    "abab",
    "a%c",
    "a_c",
    "a\\c",
    "%",
    "_",
    "\\",
    "é",
    "aé",
    "éa",
    "日本語",
    "本",
    "x日本",
    "日",
];

// One text, a beginning, an end, within, each empty, with a wildcard at each place and an escape
// at each, two runs, a beginning with a run and an end, and characters of several bytes.
const PATTERNS: [&str; 42] = [
    "", "a", "abc", "ab%", "%bc", "%b%", "%abc", "abc%", "%", "%%", "%%%", "%%c", "a%%", "_", "__",
    "a_c", "_bc", "ab_", "%_", "_%", "a\\%c", "\\%", "%\\%", "\\%%", "%\\%%", "a\\_c", "\\_",
    "a\\\\c", "\\\\", "abc\\", "%\\", "a%c", "a%b%", "x%c%x", "ABC", "aB%", "é", "é%", "%é", "%本%",
    "日%", "日本_",
];

// Null, and then each text.
fn text_at(alloc: Global, row: usize) -> Result<Option<ScalarValue>, AllocError> {
    match TEXTS.get(row) {
        Some(text) => Ok(Some(text_value(alloc, text)?)),
        None => Ok(None),
    }
}

fn cells(alloc: Global) -> Result<ArrayData, AllocError> {
    let mut cells = ArrayData::new(alloc, TEXT);
    for row in 0..TEXTS.len() {
        cells.push(text_at(alloc, row)?)?;
    }
    cells.push(None)?;
    Ok(cells)
}

fn texts_and_null(alloc: Global) -> Result<Column, StatsError> {
    told(Column::of_cells(TEXT, cells(alloc)?, 0))
}

fn chunk_of_texts(alloc: Global) -> Result<Chunk, StatsError> {
    chunk_of(alloc, scope_of(alloc, TEXT), texts_and_null(alloc))
}

// The table of one part of the texts and null, without statistics.
fn table(alloc: Global) -> Table {
    let part = part_of(alloc, chunk_of_texts(alloc), Ok(no_statistics(alloc)));
    zones_of(alloc, scope_of(alloc, TEXT), one_part(alloc, part))
}

fn matched(alloc: Global, pattern: &str, options: LikeOptions) -> Built {
    like_with(alloc, col(alloc, 0, TEXT), text(alloc, pattern), options)
}

// Whether the scan finds the rows that match a pattern, each by itself.
fn is_as_alone(
    alloc: Global,
    zones: &Zones,
    pattern: &str,
    options: LikeOptions,
) -> Result<bool, StatsError> {
    let predicate = matched(alloc, pattern, options)?;
    scans_as_alone(alloc, zones, &predicate, TEXTS.len() + 1)
}

fn expect_each_as_alone(rt: &impl Abort, alloc: Global, options: LikeOptions) {
    let zones = table(alloc).expect(rt, "texts");
    for pattern in PATTERNS {
        let is_alike = is_as_alone(alloc, &zones, pattern, options).expect(rt, "is alike");
        assert!(rt; is_alike);
    }
}

fn options(negated: bool, case_insensitive: bool) -> LikeOptions {
    LikeOptions {
        negated,
        case_insensitive,
    }
}

#[test]
fn texts_match_patterns_of_each_shape(rt: HostRuntime) {
    expect_each_as_alone(&rt, rt.alloc(), options(false, false));
}

#[test]
fn null_texts_pass_no_negated_pattern(rt: HostRuntime) {
    expect_each_as_alone(&rt, rt.alloc(), options(true, false));
}

#[test]
fn texts_match_patterns_in_either_case(rt: HostRuntime) {
    expect_each_as_alone(&rt, rt.alloc(), options(false, true));
    expect_each_as_alone(&rt, rt.alloc(), options(true, true));
}
