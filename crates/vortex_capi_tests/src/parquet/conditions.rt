//! Conditions over a file of two row groups.
use crate::parquet::file::FILE;
use std::alloc::Global;
use std::process::Abort;
use vortex_parquet::columns::columns_of;
use vortex_parquet::footer::footer_of;
use vortex_parquet::records::file_of;
use vortex_predicates::{FooterCondition, FooterError};
use vortex_prune::Verdict;
use vortex_rewrite::rewrite::rules::Rules;
use vortex_sql::syntax::parse::Names;

// The verdicts on the row groups, and how many leaves aren't read.
fn pruned(alloc: Global, text: &str) -> Result<(Vec<Verdict>, usize), FooterError> {
    let footer = footer_of(&FILE)?;
    let file = file_of(alloc, footer)?;
    let columns = columns_of(alloc, &file.schema)?;
    let rules = Rules::builtin(alloc);
    let condition = FooterCondition::try_new(alloc, &columns, text, Names::Plain, &rules)?;
    let found = condition.prune(alloc, columns.leaves, &file)?;
    Ok((found.verdicts, condition.unread().len()))
}

fn expect_verdicts(rt: &impl Abort, alloc: Global, text: &str, wanted: &[Verdict], unread: usize) {
    match pruned(alloc, text) {
        Ok((verdicts, leaves)) => {
            assert!(rt; verdicts.as_slice() == wanted);
            assert!(rt; leaves == unread);
        }
        Err(_) => assert!(rt; false),
    }
}

#[test]
fn row_groups_are_judged(rt: HostRuntime) {
    let alloc = rt.alloc();
    let rest = Verdict::Tested;
    expect_verdicts(&rt, alloc, "a > 9", &[Verdict::Skipped, rest], 0);
    expect_verdicts(&rt, alloc, "a > 8", &[rest, rest], 0);
    expect_verdicts(&rt, alloc, "f > 8 AND a > 9", &[Verdict::Skipped, rest], 1);
    expect_verdicts(&rt, alloc, "f > 8", &[rest, rest], 1);
    expect_verdicts(&rt, alloc, "none = 1 OR 1 = 0", &[rest, rest], 1);
    expect_verdicts(
        &rt,
        alloc,
        "1 = 0",
        &[Verdict::Skipped, Verdict::Skipped],
        0,
    );
    expect_verdicts(&rt, alloc, "1 = 1", &[Verdict::Whole, Verdict::Whole], 0);
    expect_verdicts(&rt, alloc, "u >= 0 AND s IS NOT NULL", &[rest, rest], 0);
}

#[test]
fn required_column_has_no_nulls(rt: HostRuntime) {
    let alloc = rt.alloc();
    let rest = Verdict::Tested;
    // Of the second row group nothing is known of `s`.
    expect_verdicts(&rt, alloc, "s >= 'b'", &[Verdict::Whole, rest], 0);
    expect_verdicts(&rt, alloc, "s IS NOT NULL", &[Verdict::Whole, rest], 0);
    expect_verdicts(&rt, alloc, "s < 'c'", &[rest, rest], 0);
}
