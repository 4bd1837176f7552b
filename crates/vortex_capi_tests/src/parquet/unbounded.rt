//! Conditions over a file whose page index has no bounds: a row group of 4 rows, with the column
//! `q` (INT32) in two pages of 2 rows. The footer has its bounds, 7 and 9, and its null count, 0.
//! It tells the size of the column chunk, 40, and not that of the row group.
use std::alloc::Global;
use std::process::Abort;
use vortex_parquet::columns::columns_of;
use vortex_parquet::footer::footer_of;
use vortex_parquet::group_pages::FileTail;
use vortex_parquet::records::file_of;
use vortex_predicates::{FooterCondition, FooterError, PageVerdicts};
use vortex_prune::Verdict;
use vortex_rewrite::rewrite::rules::Rules;
use vortex_sql::syntax::parse::Names;

// The column index, which begins with byte 200 of the file, the offset index and the footer.
const FILE: [u8; 111] = [
    25, 33, 2, 2, 25, 40, 0, 0, 25, 40, 0, 0, 21, 0, 0, 25, 44, 22, 8, 21, 20, 22, 0, 0, 22, 28,
    21, 10, 22, 4, 0, 0, 21, 4, 25, 44, 72, 1, 109, 21, 2, 0, 21, 2, 37, 2, 24, 1, 113, 0, 22, 8,
    25, 28, 25, 28, 38, 8, 28, 21, 2, 102, 80, 92, 54, 0, 40, 4, 9, 0, 0, 0, 24, 4, 7, 0, 0, 0, 0,
    0, 22, 174, 3, 21, 34, 22, 144, 3, 21, 30, 0, 22, 200, 1, 22, 8, 0, 57, 28, 28, 0, 0, 0, 71, 0,
    0, 0, 80, 65, 82, 49,
];

fn pruned(alloc: Global, text: &str) -> Result<PageVerdicts, FooterError> {
    let footer = footer_of(&FILE)?;
    let file = file_of(alloc, footer)?;
    let columns = columns_of(alloc, &file.schema)?;
    let rules = Rules::builtin(alloc);
    let condition = FooterCondition::try_new(alloc, &columns, text, Names::Plain, &rules)?;
    let tail = FileTail {
        begin: 200,
        bytes: &FILE,
    };
    condition.prune_pages(alloc, tail, columns.leaves, &file)
}

fn expect_both(rt: &impl Abort, alloc: Global, text: &str, verdict: Verdict) {
    match pruned(alloc, text) {
        Ok(found) => {
            assert!(rt; found.ranges.len() == 2);
            assert!(rt; found.verdicts.as_slice() == [verdict, verdict].as_slice());
        }
        Err(_) => assert!(rt; false),
    }
}

#[test]
fn pages_without_bounds_have_the_verdict_of_the_footer(rt: HostRuntime) {
    let alloc = rt.alloc();
    expect_both(&rt, alloc, "q > 9", Verdict::Skipped);
    expect_both(&rt, alloc, "q IS NULL", Verdict::Skipped);
    expect_both(&rt, alloc, "q > 6", Verdict::Whole);
    expect_both(&rt, alloc, "q > 8", Verdict::Tested);
}

#[test]
fn untold_size_is_that_of_the_column_chunks(rt: HostRuntime) {
    match pruned(rt.alloc(), "q > 8") {
        Ok(found) => match found.groups.groups.as_slice() {
            [group] => assert!(&rt; group.size == Some(40)),
            _ => assert!(&rt; false),
        },
        Err(_) => assert!(&rt; false),
    }
}
