//! Conditions over the pages of a file: a row group of 8 rows, with the column `s` (text) in pages
//! of 3, 2 and 3 rows, the second one null, and the column `q` (INT32) in pages of 4 and 4 rows;
//! and one of 4 rows without indexes.
use crate::parquet::file;
use std::alloc::Global;
use std::process::Abort;
use vortex_parquet::columns::columns_of;
use vortex_parquet::data_pages::{DataPage, data_pages};
use vortex_parquet::footer::footer_of;
use vortex_parquet::group_pages::FileTail;
use vortex_parquet::page_indexes::indexes_begin;
use vortex_parquet::records::{FileMetaData, file_of};
use vortex_parquet::{Fault, ReadError};
use vortex_predicates::{FooterCondition, FooterError, PageRange, PageVerdicts};
use vortex_prune::Verdict;
use vortex_rewrite::rewrite::rules::Rules;
use vortex_sql::syntax::parse::Names;

/// Where the first byte stands in the file.
const BEGIN: u64 = 200;

/// How many bytes the indexes take.
const INDEXES: usize = 105;

// Of `s` the pages have `a` to `c` without nulls, nulls alone, and `d` to `f`. Of `q` they have 1
// to 4 with a null, and 5 without one; the second row group has 7 to 9. Behind the indexes stands
// the footer.
const FILE: [u8; 232] = [
    25, 49, 2, 1, 2, 25, 56, 1, 97, 1, 122, 1, 100, 25, 56, 1, 99, 1, 121, 1, 102, 21, 2, 25, 54,
    0, 4, 1, 0, 25, 60, 22, 8, 21, 20, 22, 0, 0, 22, 28, 21, 10, 22, 6, 0, 22, 38, 21, 12, 22, 10,
    0, 0, 25, 33, 2, 2, 25, 40, 4, 1, 0, 0, 0, 4, 5, 0, 0, 0, 25, 40, 4, 4, 0, 0, 0, 4, 5, 0, 0, 0,
    21, 0, 25, 38, 2, 0, 0, 25, 44, 22, 100, 21, 20, 22, 0, 0, 22, 120, 21, 10, 22, 8, 0, 0, 21, 4,
    25, 60, 72, 1, 109, 21, 4, 0, 21, 12, 37, 2, 24, 1, 115, 37, 0, 0, 21, 2, 37, 2, 24, 1, 113, 0,
    22, 24, 25, 44, 25, 44, 38, 8, 28, 21, 12, 0, 22, 202, 3, 21, 48, 22, 144, 3, 21, 58, 0, 38, 8,
    28, 21, 2, 0, 22, 192, 4, 21, 34, 22, 250, 3, 21, 70, 0, 22, 200, 1, 22, 16, 0, 25, 44, 38, 8,
    28, 21, 12, 0, 0, 38, 8, 28, 21, 2, 188, 88, 4, 9, 0, 0, 0, 24, 4, 7, 0, 0, 0, 0, 0, 0, 22,
    200, 1, 22, 8, 0, 57, 44, 28, 0, 0, 28, 0, 0, 0, 119, 0, 0, 0, 80, 65, 82, 49,
];

// A row group, the first row and the row behind the last, and the verdict.
type Told = (usize, u64, u64, Verdict);

fn pruned(alloc: Global, tail: FileTail<'_>, text: &str) -> Result<PageVerdicts, FooterError> {
    let footer = footer_of(&FILE)?;
    let file = file_of(alloc, footer)?;
    let columns = columns_of(alloc, &file.schema)?;
    let rules = Rules::builtin(alloc);
    let condition = FooterCondition::try_new(alloc, &columns, text, Names::Plain, &rules)?;
    condition.prune_pages(alloc, tail, columns.leaves, &file)
}

fn expect_ranges(rt: &impl Abort, ranges: &[PageRange], verdicts: &[Verdict], wanted: &[Told]) {
    assert!(rt; ranges.len() == wanted.len() && verdicts.len() == wanted.len());
    for place in 0..wanted.len() {
        let (group, first, end, verdict) = wanted[place];
        assert!(rt; ranges[place] == PageRange { group, first, end });
        assert!(rt; verdicts[place] == verdict);
    }
}

fn expect_told(rt: &impl Abort, alloc: Global, tail: FileTail<'_>, text: &str, wanted: &[Told]) {
    match pruned(alloc, tail, text) {
        Ok(found) => expect_ranges(rt, &found.ranges, &found.verdicts, wanted),
        Err(_) => assert!(rt; false),
    }
}

fn whole_tail() -> FileTail<'static> {
    FileTail {
        begin: BEGIN,
        bytes: &FILE,
    }
}

#[test]
fn stretches_are_judged(rt: HostRuntime) {
    let alloc = rt.alloc();
    let (rest, none, each) = (Verdict::Tested, Verdict::Skipped, Verdict::Whole);
    let tail = whole_tail();
    let wanted = [(0, 0, 4, none), (0, 4, 8, each), (1, 0, 4, rest)];
    expect_told(&rt, alloc, tail, "q > 4", &wanted);
    let wanted = [
        (0, 0, 3, rest),
        (0, 3, 5, none),
        (0, 5, 8, none),
        (1, 0, 4, rest),
    ];
    expect_told(&rt, alloc, tail, "s = 'b'", &wanted);
    let wanted = [
        (0, 0, 3, none),
        (0, 3, 5, each),
        (0, 5, 8, rest),
        (1, 0, 4, rest),
    ];
    expect_told(&rt, alloc, tail, "s IS NULL", &wanted);
    let wanted = [(0, 0, 8, none), (1, 0, 4, none)];
    expect_told(&rt, alloc, tail, "1 = 0", &wanted);
    let wanted = [(0, 0, 8, rest), (1, 0, 4, rest)];
    expect_told(&rt, alloc, tail, "elsewhere > 1", &wanted);
}

#[test]
fn stretches_lie_in_a_page_of_each_column(rt: HostRuntime) {
    let (rest, none, each) = (Verdict::Tested, Verdict::Skipped, Verdict::Whole);
    let wanted = [
        (0, 0, 3, rest),
        (0, 3, 4, none),
        (0, 4, 5, each),
        (0, 5, 8, rest),
        (1, 0, 4, none),
    ];
    let text = "s BETWEEN 'a' AND 'c' AND q < 5 OR s IS NULL AND q = 5";
    expect_told(&rt, rt.alloc(), whole_tail(), text, &wanted);
}

#[test]
fn chunk_without_its_indexes_is_one_page(rt: HostRuntime) {
    let (rest, none) = (Verdict::Tested, Verdict::Skipped);
    let (_, footer) = FILE.split_at(INDEXES);
    let tail = FileTail {
        begin: BEGIN + INDEXES as u64,
        bytes: footer,
    };
    let wanted = [(0, 0, 8, rest), (1, 0, 4, none)];
    expect_told(&rt, rt.alloc(), tail, "q < 7", &wanted);
}

#[test]
fn fault_is_told_of_the_named_columns_alone(rt: HostRuntime) {
    // The bytes are taken to stand one byte behind their place.
    let tail = FileTail {
        begin: BEGIN + 1,
        bytes: &FILE,
    };
    match pruned(rt.alloc(), tail, "q > 4") {
        Err(FooterError::Footer(fault)) => assert!(&rt; fault == Fault::Pages),
        _ => assert!(&rt; false),
    }
    let rest = Verdict::Tested;
    let wanted = [(0, 0, 8, rest), (1, 0, 4, rest)];
    expect_told(&rt, rt.alloc(), tail, "s = 'b'", &wanted);
}

fn begun(alloc: Global, bytes: &[u8]) -> Result<Option<u64>, ReadError> {
    let footer = footer_of(bytes)?;
    let file = file_of(alloc, footer)?;
    indexes_begin(alloc, &file)
}

fn expect_begin(rt: &impl Abort, alloc: Global, bytes: &[u8], wanted: Option<u64>) {
    match begun(alloc, bytes) {
        Ok(begin) => assert!(rt; begin == wanted),
        Err(_) => assert!(rt; false),
    }
}

#[test]
fn first_index_begins_where_the_footer_says(rt: HostRuntime) {
    expect_begin(&rt, rt.alloc(), &FILE, Some(BEGIN));
    expect_begin(&rt, rt.alloc(), &file::FILE, None);
}

fn page(column: usize, first: u64, end: u64, offset: u64, size: u64) -> DataPage {
    DataPage {
        group: 0,
        column,
        first,
        end,
        offset,
        size,
    }
}

fn leaf_count(alloc: Global, file: &FileMetaData<'_>) -> Result<usize, ReadError> {
    let columns = columns_of(alloc, &file.schema)?;
    Ok(columns.leaves)
}

fn told_pages(alloc: Global, tail: FileTail<'_>) -> Result<Vec<DataPage>, ReadError> {
    let footer = footer_of(&FILE)?;
    let file = file_of(alloc, footer)?;
    let count = leaf_count(alloc, &file)?;
    data_pages(alloc, tail, count, &file)
}

fn expect_pages(rt: &impl Abort, alloc: Global, tail: FileTail<'_>, wanted: &[DataPage]) {
    match told_pages(alloc, tail) {
        Ok(found) => assert!(rt; found.as_slice() == wanted),
        Err(_) => assert!(rt; false),
    }
}

#[test]
fn data_pages_stand_where_the_indexes_say(rt: HostRuntime) {
    let wanted = [
        page(0, 0, 3, 4, 10),
        page(0, 3, 5, 14, 5),
        page(0, 5, 8, 19, 6),
        page(1, 0, 4, 50, 10),
        page(1, 4, 8, 60, 5),
    ];
    expect_pages(&rt, rt.alloc(), whole_tail(), &wanted);
    // The offset index of `q` isn't among these bytes.
    let (front, _) = FILE.split_at(53);
    let tail = FileTail {
        begin: BEGIN,
        bytes: front,
    };
    expect_pages(&rt, rt.alloc(), tail, &wanted[..3]);
}
