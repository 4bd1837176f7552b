//! Binding by binders of the library and of a user: what they know, what they don't, and faults.
ghost use Rattle.std.specs.Prelude.{◌≡◌, ℕ, List, IsTrue, false, refl, slice_get};
ghost use Rattle.vortex_base.specs.Data.Scalars.{Constant};
ghost use Rattle.vortex_expr.specs.Meanings.Fitting.{is_cell_of};
ghost use Rattle.vortex_prune.specs.Binding.Binders.{IsHonestOver};
ghost use Rattle.vortex_prune.specs.Binding.PartBinder.{IsNullOf};
ghost use Rattle.vortex_prune_tests.specs.Counting.{is_first, one_null, three_numbers};

use std::alloc::Global;
use std::process::Abort;
use vortex_base::{AggregateFnRef, DType, Nullability, ScalarValue};
use vortex_expr::{BoundExpression, Parts, bound};
use vortex_prune::bind::bind_stats;
use vortex_prune::{HookFault, Part, StatBinder, StatsBinder, ZoneBinder, ZoneStatsBinder};
use vortex_stats::{Stat, StatsError};
use vortex_testing::binders::Answerer;
use vortex_testing::nodes::*;
use vortex_testing::parts::*;

const TRUTH: DType = DType::Bool(Nullability::Nullable);

fn all_null(alloc: Global, x: Built) -> Built {
    stat(alloc, x, AggregateFnRef::AllNull)
}

fn null_count(alloc: Global, x: Built) -> Built {
    stat(alloc, x, AggregateFnRef::NullCount)
}

fn bound_by<B: StatBinder>(alloc: Global, e: Built, binder: &B) -> Built {
    bind_stats(alloc, e?, binder)
}

// The expression is bound to this one.
fn expect_bound<B: StatBinder>(
    rt: &impl Abort,
    alloc: Global,
    e: Built,
    binder: &B,
    expected: Built,
) {
    assert!(rt; are_same(bound_by(alloc, e, binder), expected).expect(rt, "an answer"));
}

// Answers the count of nulls of the first column, of numbers, by the second column of a table of
// statistics, if it knows that, and nothing else.
#[derive(Drop)]
pub struct NullCounts {
    are_known: bool,
}

fn is_first(x: &BoundExpression) -> bool
    ensures { result ≡ is_first x.now }
{
    match x.parts() {
        Parts::Column(place, dtype) => place == 0 && dtype == I32,
        _ => false,
    }
}

impl StatBinder for NullCounts {
    ghost use Rattle.vortex_prune_tests.specs.Counting.{counted, counted_is_faithful};
    ghost use Rattle.vortex_prune_tests.specs.Counting.{counted_value, has_count};

    ghost answer = { λ b. counted b.are_known };

    ghost is_missing = { λ b. IsNullOf };

    ghost allows_null = { λ b t. refl };

    ghost can_fault = { λ b k. false };

    ghost value = { λ b row n. counted_value b.are_known row };

    ghost is_faithful_over = { λ b row n. has_count row };

    ghost is_faithful = { λ b row n h. counted_is_faithful b.are_known row n h };

    fn bind_aggregate(
        &self,
        alloc: Global,
        input: &BoundExpression,
        aggregate: &AggregateFnRef,
        _stat_dtype: &DType,
    ) -> Result<Option<BoundExpression>, HookFault> {
        if *aggregate == AggregateFnRef::NullCount && self.are_known && is_first(input) {
            Ok(Some(bound::col(alloc, 1, U64)?))
        } else {
            Ok(None)
        }
    }
}

// The binder that knows the counts.
fn knowing() -> NullCounts
    // It is faithful over each row of statistics whose second cell is a count.
    ensures faithful { (row : List Constant) (n : ℕ) → IsTrue (is_cell_of U64 (slice_get row 1))
        → IsTrue (⟦<NullCounts as StatBinder>⟧.is_faithful_over result row n) }
    // It is honest for three numbers, over a row that counts their nulls.
    ensures honest { IsHonestOver (⟦<NullCounts as StatBinder>⟧.is_faithful_over result)
        (⟦<NullCounts as StatBinder>⟧.value result) one_null three_numbers }
{
    NullCounts { are_known: true }
}

// A binder of counts binds a count to a column, of the first column alone.
#[test]
fn a_count_of_nulls_is_a_column(rt: HostRuntime) {
    let alloc = rt.alloc();
    let (first, second) = (col(alloc, 0, I32), col(alloc, 1, I32));
    expect_bound(
        &rt,
        alloc,
        null_count(alloc, first),
        &knowing(),
        col(alloc, 1, U64),
    );
    expect_bound(
        &rt,
        alloc,
        null_count(alloc, second),
        &knowing(),
        null_of(alloc, U64),
    );
    let unknown = NullCounts { are_known: false };
    let first = null_count(alloc, col(alloc, 0, I32));
    expect_bound(&rt, alloc, first, &unknown, null_of(alloc, U64));
}

fn all_null_first(alloc: Global) -> Built {
    all_null(alloc, col(alloc, 0, I32))
}

// A truth of all values isn't derived from their count.
#[test]
fn a_binder_of_counts_knows_no_truths(rt: HostRuntime) {
    let alloc = rt.alloc();
    let null = null_of(alloc, BOOL);
    expect_bound(&rt, alloc, all_null_first(alloc), &knowing(), null);
}

// A statistic that isn't known is null, and nothing is reduced by it.
#[test]
fn missing_statistics_bind_to_null_without_reducing(rt: HostRuntime) {
    let (alloc, unknown) = (rt.alloc(), NullCounts { are_known: false });
    let both = and(alloc, truth(alloc, false), all_null_first(alloc));
    let expected = and(alloc, truth(alloc, false), null_of(alloc, BOOL));
    expect_bound(&rt, alloc, both, &unknown, expected);
    let either = or(alloc, truth(alloc, true), all_null_first(alloc));
    let expected = or(alloc, truth(alloc, true), null_of(alloc, BOOL));
    expect_bound(&rt, alloc, either, &unknown, expected);
}

// The rows 1, null, 3 of a column `a`, which are at most 20, and of which one is null.
fn part(alloc: Global) -> Result<Part, StatsError> {
    let set = and_exactly(
        at_most(alloc, Stat::Max, number(20)),
        Stat::NullCount,
        count(1),
    );
    part_of_numbers(alloc, &[Some(1), None, Some(3)], set)
}

// An AND of what the part's statistics tell and what they don't, by placeholders of another column
// and of another type too.
fn proof(alloc: Global) -> Built {
    let known = gt(alloc, max(alloc, a(alloc)), min(alloc, a(alloc)));
    let elsewhere = all_null(alloc, col(alloc, 1, I32_OR_NULL));
    let typed = all_null(alloc, col(alloc, 0, UTF8));
    and(
        alloc,
        or(alloc, known, all_null(alloc, a(alloc))),
        and(alloc, elsewhere, typed),
    )
}

// The proof over literals, as the part's statistics bind it.
fn bound_proof(alloc: Global) -> Built {
    let greatest = lit(alloc, I32_OR_NULL, number(20));
    let known = gt(alloc, greatest, null_of(alloc, I32));
    let is_null = lit(alloc, TRUTH, ScalarValue::Bool(false));
    let (elsewhere, typed) = (null_of(alloc, BOOL), null_of(alloc, BOOL));
    and(
        alloc,
        or(alloc, known, is_null),
        and(alloc, elsewhere, typed),
    )
}

// The expression, bound by the statistics of the zone that the part stands for, without its rows.
fn bound_by_zone(alloc: Global, e: Built, part: &Part) -> Built {
    let zone = part.zone();
    let binder = ZoneStatsBinder::try_new(part.chunk().scope(), &zone)?;
    bind_stats(alloc, e?, &binder)
}

#[test]
fn statistics_are_literals_of_what_is_known(rt: HostRuntime) {
    let alloc = rt.alloc();
    let part = part(alloc).expect(&rt, "a part");
    expect_bound(
        &rt,
        alloc,
        proof(alloc),
        &StatsBinder::new(&part),
        bound_proof(alloc),
    );
    let by_zone = bound_by_zone(alloc, proof(alloc), &part);
    assert!(rt; are_same(by_zone, bound_proof(alloc)).expect(&rt, "an answer"));
}

#[test]
fn placeholders_are_columns_of_the_table_of_a_map(rt: HostRuntime) {
    let alloc = rt.alloc();
    let map = map_of_sets(alloc, 9, &[]).expect(&rt, "a map");
    let binder = ZoneBinder::new(&map);
    let least = min(alloc, a(alloc));
    expect_bound(&rt, alloc, least, &binder, col(alloc, 1, I32_OR_NULL));
}

// A binder's answer or its fault is handed on, and what it answers for a missing one is asked.
#[test]
fn answers_and_faults_are_the_binders(rt: HostRuntime) {
    let alloc = rt.alloc();
    let greatest = max(alloc, a(alloc));
    expect_bound(
        &rt,
        alloc,
        max(alloc, a(alloc)),
        &Answerer::Itself,
        greatest,
    );
    let zero = lit(alloc, U64, count(0));
    expect_bound(
        &rt,
        alloc,
        null_count(alloc, a(alloc)),
        &Answerer::Zero,
        zero,
    );
    let null = null_of(alloc, U64);
    expect_bound(
        &rt,
        alloc,
        null_count(alloc, a(alloc)),
        &Answerer::Quiet,
        null,
    );
    let kept = is_null(alloc, a(alloc));
    expect_bound(
        &rt,
        alloc,
        is_null(alloc, a(alloc)),
        &Answerer::Faulty,
        kept,
    );
}
