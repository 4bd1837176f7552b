//! Conditions over dates: a file with a row group of 4 rows and the column `q` (DATE in INT32), of
//! which the footer has the bounds 8 and 10 January 1970 and the null count 0.
use std::alloc::Global;
use std::process::Abort;
use vortex_parquet::columns::columns_of;
use vortex_parquet::footer::footer_of;
use vortex_parquet::records::file_of;
use vortex_predicates::{FooterCondition, FooterError};
use vortex_prune::Verdict;
use vortex_rewrite::rewrite::rules::Rules;
use vortex_sql::error::SqlError;
use vortex_sql::syntax::parse::Names;

const FILE: [u8; 113] = [
    25, 33, 2, 2, 25, 40, 0, 0, 25, 40, 0, 0, 21, 0, 0, 25, 44, 22, 8, 21, 20, 22, 0, 0, 22, 28,
    21, 10, 22, 4, 0, 0, 21, 4, 25, 44, 72, 1, 109, 21, 2, 0, 21, 2, 37, 2, 24, 1, 113, 37, 12, 0,
    22, 8, 25, 28, 25, 28, 38, 8, 28, 21, 2, 102, 80, 92, 54, 0, 40, 4, 9, 0, 0, 0, 24, 4, 7, 0, 0,
    0, 0, 0, 22, 174, 3, 21, 34, 22, 144, 3, 21, 30, 0, 22, 200, 1, 22, 8, 0, 57, 28, 28, 0, 0, 0,
    73, 0, 0, 0, 80, 65, 82, 49,
];

// The verdicts on the row groups, and how many leaves aren't read.
fn pruned(alloc: Global, text: &str) -> Result<(Vec<Verdict>, usize), FooterError> {
    let footer = footer_of(&FILE)?;
    let file = file_of(alloc, footer)?;
    let columns = columns_of(alloc, &file.schema)?;
    let rules = Rules::builtin(alloc);
    let condition = FooterCondition::try_new(alloc, &columns, text, Names::Plain, &rules)?;
    let found = condition.prune(alloc, columns.leaves, &file)?;
    Ok((found.verdicts, condition.unread().len()))
}

fn expect_verdict(rt: &impl Abort, alloc: Global, text: &str, wanted: Verdict, unread: usize) {
    match pruned(alloc, text) {
        Ok((verdicts, leaves)) => {
            assert!(rt; verdicts.as_slice() == [wanted].as_slice());
            assert!(rt; leaves == unread);
        }
        Err(_) => assert!(rt; false),
    }
}

#[test]
fn row_groups_are_pruned_by_dates(rt: HostRuntime) {
    let alloc = rt.alloc();
    let (rest, none, each) = (Verdict::Tested, Verdict::Skipped, Verdict::Whole);
    expect_verdict(&rt, alloc, "q > DATE '1970-01-10'", none, 0);
    expect_verdict(&rt, alloc, "q >= '1970-01-10'", rest, 0);
    expect_verdict(&rt, alloc, "DATE '1970-01-08' <= q", each, 0);
    expect_verdict(&rt, alloc, "q < TIMESTAMP '1970-01-08 00:00:01'", rest, 0);
    expect_verdict(&rt, alloc, "q > TIMESTAMP '1970-01-10 00:00:01'", none, 0);
    expect_verdict(&rt, alloc, "q > 'tomorrow'", rest, 1);
    expect_verdict(
        &rt,
        alloc,
        "q > TIMESTAMPTZ '1970-01-10 00:00:00Z'",
        rest,
        1,
    );
}

#[test]
fn number_beside_a_date_is_refused(rt: HostRuntime) {
    match pruned(rt.alloc(), "q > 9") {
        Err(FooterError::Sql(refused)) => assert!(&rt; refused == SqlError::Misfit(0, 5)),
        _ => assert!(&rt; false),
    }
}
