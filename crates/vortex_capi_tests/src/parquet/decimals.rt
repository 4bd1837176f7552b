//! Decimals in bytes: a file of the column `d` (DECIMAL of 18 digits, none behind the point, in 9
//! bytes), in row groups of 3 and of 2 rows.
use std::alloc::Global;
use std::process::Abort;
use vortex_base::pvalue::PValue;
use vortex_base::scalar_value::ScalarValue;
use vortex_parquet::columns::columns_of;
use vortex_parquet::footer::footer_of;
use vortex_parquet::records::file_of;
use vortex_parquet::stats::GroupStats;
use vortex_predicates::{FooterCondition, FooterError, GroupVerdicts};
use vortex_prune::Verdict;
use vortex_rewrite::rewrite::rules::Rules;
use vortex_sql::syntax::parse::Names;
use vortex_stats::precision::Precision;
use vortex_stats::stat::Stat;

// The first row group has -200 to 300, of which 300 is told to be exact. The second one has the
// least number of 64 bits, and as its upper bound 2^63, which doesn't fit them.
const FILE: [u8; 116] = [
    41, 44, 72, 1, 109, 21, 2, 0, 21, 14, 21, 18, 21, 2, 24, 1, 100, 37, 10, 21, 0, 21, 36, 0, 41,
    44, 25, 28, 60, 21, 14, 188, 54, 0, 40, 9, 0, 0, 0, 0, 0, 0, 0, 1, 44, 24, 9, 255, 255, 255,
    255, 255, 255, 255, 255, 56, 17, 18, 0, 0, 0, 38, 6, 0, 25, 28, 60, 21, 14, 188, 54, 0, 40, 9,
    0, 128, 0, 0, 0, 0, 0, 0, 0, 24, 9, 255, 128, 0, 0, 0, 0, 0, 0, 0, 17, 18, 0, 0, 0, 38, 4, 0,
    57, 28, 28, 0, 0, 0, 108, 0, 0, 0, 80, 65, 82, 49,
];

fn pruned(alloc: Global, text: &str) -> Result<GroupVerdicts, FooterError> {
    let footer = footer_of(&FILE)?;
    let file = file_of(alloc, footer)?;
    let columns = columns_of(alloc, &file.schema)?;
    let rules = Rules::builtin(alloc);
    let condition = FooterCondition::try_new(alloc, &columns, text, Names::Plain, &rules)?;
    condition.prune(alloc, columns.leaves, &file)
}

fn expect_bound(rt: &impl Abort, group: &GroupStats, stat: Stat, wanted: Precision<ScalarValue>) {
    match group.stats.get(0) {
        Some(set) => match set.get(stat) {
            Ok(found) => assert!(rt; found == wanted),
            Err(_) => assert!(rt; false),
        },
        None => assert!(rt; false),
    }
}

fn expect_verdicts(rt: &impl Abort, alloc: Global, text: &str, first: Verdict, second: Verdict) {
    match pruned(alloc, text) {
        Ok(found) => match found.verdicts.as_slice() {
            [one, two] => assert!(rt; *one == first && *two == second),
            _ => assert!(rt; false),
        },
        Err(_) => assert!(rt; false),
    }
}

fn number(n: i64) -> ScalarValue {
    ScalarValue::Primitive(PValue::I64(n))
}

#[test]
fn decimal_past_64_bits_is_no_bound(rt: HostRuntime) {
    match pruned(rt.alloc(), "d > 300") {
        Ok(found) => match found.groups.as_slice() {
            [first, second] => {
                expect_bound(&rt, first, Stat::Max, Precision::Exact(number(300)));
                expect_bound(&rt, first, Stat::Min, Precision::Inexact(number(-200)));
                expect_bound(&rt, second, Stat::Max, Precision::Absent);
                expect_bound(&rt, second, Stat::Min, Precision::Inexact(number(i64::MIN)));
            }
            _ => assert!(&rt; false),
        },
        Err(_) => assert!(&rt; false),
    }
}

#[test]
fn row_groups_are_pruned_by_decimals(rt: HostRuntime) {
    let (rest, none, each) = (Verdict::Tested, Verdict::Skipped, Verdict::Whole);
    expect_verdicts(&rt, rt.alloc(), "d > 300", none, rest);
    expect_verdicts(&rt, rt.alloc(), "d > 299.5", rest, rest);
    expect_verdicts(&rt, rt.alloc(), "d >= -200", each, rest);
    expect_verdicts(&rt, rt.alloc(), "d < -200.5", none, rest);
}
