//! Proofs of predicates over the columns a and b of I32 and s of texts.
use std::alloc::Global;
use std::process::Abort;
use std::test::Fail;
use vortex_base::{AggregateFnRef, Bytes, DType, Nullability, PValue, ScalarValue};
use vortex_expr::BoundExpression;
use vortex_rewrite::Rules;
use vortex_rewrite::rewrite::{falsify, falsify_counted, satisfy};
use vortex_stats::StatsError;
use vortex_testing::nodes::*;

mod own;
mod trees;

type Proof = Result<Option<BoundExpression>, StatsError>;

type Counted = Result<(Option<BoundExpression>, u64), StatsError>;

fn a(alloc: Global) -> Built {
    col(alloc, 0, I32)
}

fn b(alloc: Global) -> Built {
    col(alloc, 1, I32)
}

fn s(alloc: Global) -> Built {
    col(alloc, 2, UTF8)
}

fn all_non_null(alloc: Global) -> Built {
    stat(alloc, a(alloc), AggregateFnRef::AllNonNull)
}

fn range(alloc: Global, lower: i32, upper: i32) -> Built {
    between(alloc, a(alloc), int(alloc, lower), int(alloc, upper), OPEN)
}

// The predicate has both proofs by the rules, and they are these trees.
fn expect_proofs(
    rt: &impl Abort,
    rules: &Rules,
    alloc: Global,
    predicate: Built,
    (falsifier, satisfier): (Built, Built),
) {
    let predicate = predicate.expect(rt, "a predicate");
    let found = falsify(alloc, &predicate, rules).expect(rt, "a falsifier");
    assert!(rt; found == Some(falsifier.expect(rt, "falsifier")));
    let found = satisfy(alloc, &predicate, rules).expect(rt, "a satisfier");
    assert!(rt; found == Some(satisfier.expect(rt, "satisfier")));
}

// The predicate has a falsifier by the built-in rules, which is found in so many visits, and a
// satisfier, as told.
fn expect_found(rt: &impl Abort, alloc: Global, predicate: Built, visits: u64, is_satisfied: bool) {
    let (predicate, rules) = (predicate.expect(rt, "a predicate"), Rules::builtin(alloc));
    let (proof, found) = falsify_counted(alloc, &predicate, &rules).expect(rt, "counted");
    assert!(rt; proof.is_some() && found == visits);
    assert!(rt; falsify(alloc, &predicate, &rules).expect(rt, "a falsifier") == proof);
    let satisfier = satisfy(alloc, &predicate, &rules).expect(rt, "a satisfier");
    assert!(rt; satisfier.is_some() == is_satisfied);
}

#[test]
fn each_comparison_has_proofs(rt: HostRuntime) {
    let alloc = rt.alloc();
    let falsifier = lt_eq(alloc, max(alloc, a(alloc)), int(alloc, 10));
    let satisfier = gt(alloc, min(alloc, a(alloc)), int(alloc, 10));
    let satisfier = and(alloc, satisfier, all_non_null(alloc));
    let above = gt(alloc, a(alloc), int(alloc, 10));
    expect_proofs(
        &rt,
        &Rules::builtin(alloc),
        alloc,
        above,
        (falsifier, satisfier),
    );
    expect_found(&rt, alloc, eq(alloc, a(alloc), b(alloc)), 1, true);
    expect_found(&rt, alloc, not_eq(alloc, a(alloc), b(alloc)), 1, true);
    expect_found(&rt, alloc, gt_eq(alloc, a(alloc), b(alloc)), 1, true);
    expect_found(&rt, alloc, lt(alloc, a(alloc), b(alloc)), 1, true);
    expect_found(&rt, alloc, lt_eq(alloc, a(alloc), b(alloc)), 1, true);
    expect_found(&rt, alloc, eq(alloc, s(alloc), text(alloc, "x")), 1, true);
}

#[test]
fn each_other_node_has_proofs(rt: HostRuntime) {
    let alloc = rt.alloc();
    let above = gt_eq(alloc, min(alloc, s(alloc)), text(alloc, "prefiy"));
    let below = lt(alloc, max(alloc, s(alloc)), text(alloc, "prefix"));
    let proof = or(alloc, above, below).expect(&rt, "a proof");
    let like_prefix = like(alloc, s(alloc), text(alloc, "prefix%")).expect(&rt, "like");
    let found = falsify(alloc, &like_prefix, &Rules::builtin(alloc)).expect(&rt, "a falsifier");
    assert!(rt; found == Some(proof));
    expect_found(
        &rt,
        alloc,
        like(alloc, s(alloc), text(alloc, "exact")),
        1,
        false,
    );
    expect_found(&rt, alloc, is_null(alloc, a(alloc)), 1, true);
    expect_found(&rt, alloc, is_not_null(alloc, a(alloc)), 1, true);
    expect_found(&rt, alloc, is_null(alloc, null_of(alloc, I32)), 1, true);
    expect_found(&rt, alloc, truth(alloc, true), 1, true);
    let sides = (
        gt(alloc, a(alloc), int(alloc, 1)),
        lt(alloc, a(alloc), int(alloc, 9)),
    );
    expect_found(&rt, alloc, and(alloc, sides.0, sides.1), 3, true);
    let sides = (
        gt(alloc, a(alloc), int(alloc, 9)),
        lt(alloc, a(alloc), int(alloc, 1)),
    );
    expect_found(&rt, alloc, or(alloc, sides.0, sides.1), 3, true);
}

// The values strictly between the two have proofs.
fn expect_between(
    rt: &impl Abort,
    alloc: Global,
    dtype: DType,
    low: ScalarValue,
    high: ScalarValue,
) {
    let ends = (lit(alloc, dtype, low), lit(alloc, dtype, high));
    let range = between(alloc, col(alloc, 0, dtype), ends.0, ends.1, OPEN);
    expect_found(rt, alloc, range, 4, true);
}

#[test]
fn open_ranges_of_each_number_type_have_proofs(rt: HostRuntime) {
    use PValue::{I8, I16, I32, I64, U8, U16, U32, U64};
    let numbers = [
        (U8(0), U8(255)),
        (U16(0), U16(65535)),
        (U32(0), U32(4294967295)),
        (U64(0), U64(u64::MAX)),
        (I8(-128), I8(127)),
        (I16(-32768), I16(32767)),
        (I32(i32::MIN), I32(i32::MAX)),
        (I64(i64::MIN), I64(i64::MAX)),
    ];
    for (low, high) in numbers {
        let dtype = DType::Primitive(low.ptype(), Nullability::NonNullable);
        let (low, high) = (ScalarValue::Primitive(low), ScalarValue::Primitive(high));
        expect_between(&rt, rt.alloc(), dtype, low, high);
    }
}

fn bytes(rt: &impl Abort, alloc: Global, byte: u8) -> ScalarValue {
    ScalarValue::Binary(Bytes::new(vec![in alloc; byte].expect(rt, "bytes")))
}

#[test]
fn open_ranges_of_other_types_have_proofs(rt: HostRuntime) {
    let alloc = rt.alloc();
    let (low, high) = (text_value(alloc, "a"), text_value(alloc, "c"));
    expect_between(
        &rt,
        alloc,
        UTF8,
        low.expect(&rt, "a"),
        high.expect(&rt, "c"),
    );
    let binary = DType::Binary(Nullability::NonNullable);
    expect_between(
        &rt,
        alloc,
        binary,
        bytes(&rt, alloc, 0),
        bytes(&rt, alloc, 2),
    );
    expect_between(
        &rt,
        alloc,
        BOOL,
        ScalarValue::from(false),
        ScalarValue::from(true),
    );
    expect_found(&rt, alloc, range(alloc, 3, 4), 1, false);
}

// a = 0 OR a = 1 OR .. OR a = 15.
fn chain(alloc: Global) -> Built {
    let mut chain = eq(alloc, a(alloc), int(alloc, 0))?;
    for i in 1..16i32 {
        chain = or(alloc, Ok(chain), eq(alloc, a(alloc), int(alloc, i)))?;
    }
    Ok(chain)
}

fn deep_and(alloc: Global) -> Built {
    let mut deep = truth(alloc, true)?;
    for _ in 0..4096 {
        deep = and(alloc, Ok(deep), truth(alloc, true))?;
    }
    Ok(deep)
}

// As deep as a predicate of 4,096 nested nodes: the engine's recursion fits the usual stack.
#[test]
fn deep_predicates_fit_the_stack(rt: HostRuntime) {
    let deep = deep_and(rt.alloc()).expect(&rt, "a predicate");
    let counted = falsify_counted(rt.alloc(), &deep, &Rules::builtin(rt.alloc()));
    let (proof, visits) = counted.expect(&rt, "counted");
    assert!(rt; proof.is_some() && visits == 8193);
}

// Whether a proof was found, or memory was refused.
fn is_found(answer: Proof) -> bool {
    matches!(answer, Ok(Some(_)) | Err(StatsError::Memory(_)))
}

// Whether a proof was found in so many visits, or memory was refused.
fn is_counted(answer: Counted, expected: u64) -> bool {
    match answer {
        Ok((_, visits)) => visits == expected,
        Err(refused) => matches!(refused, StatsError::Memory(_)),
    }
}

// A chain that is kept and asked about again is rewritten alike, or refused for memory alone.
#[test]
fn refused_proofs_of_a_chain(rt: HostRuntime) -> Result<(), Fail> {
    let alloc = rt.alloc();
    let (rules, chain) = (Rules::builtin(alloc), chain(alloc)?);
    assert!(rt; is_found(falsify(alloc, &chain, &rules)));
    assert!(rt; is_found(satisfy(alloc, &chain, &rules)));
    assert!(rt; is_counted(falsify_counted(alloc, &chain, &rules), 31));
    Ok(())
}
