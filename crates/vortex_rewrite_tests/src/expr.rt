//! Placeholders over named and bound columns, and parts of proofs for rules of a user.
ghost use Rattle.std.specs.Prelude.{IfOk, IfSome, IsTrue};
ghost use Rattle.vortex_rewrite.specs.Rewriting.Predicates.{is_predicate};

use std::alloc::Global;
use std::process::Abort;
use vortex_base::AggregateFnRef;
use vortex_expr::{BoundExpression, Expression};
use vortex_rewrite::expr::{
    all_non_null, all_null, bound as placed, min_max, null_count, proofs, stat as aggregated, sum,
};
use vortex_rewrite::hook_fault::HookFault;
use vortex_stats::StatsError;
use vortex_testing::nodes::*;

type Named = Result<Expression, StatsError>;

// The column `a`, by its name.
fn a(rt: &impl Abort, alloc: Global) -> Expression {
    Expression::col(alloc, "a").expect(rt, "a")
}

fn placed_a(rt: &impl Abort, alloc: Global) -> BoundExpression {
    col(alloc, 0, I32).expect(rt, "a")
}

// The placeholder over the name is bound to that over the column.
fn expect_placed(rt: &impl Abort, alloc: Global, named: Named, placed: Built) {
    let scope = scope_of(alloc, I32).expect(rt, "a scope");
    let found = named
        .expect(rt, "named")
        .bind(alloc, &scope)
        .expect(rt, "bound");
    assert!(rt; found.child_count() == 1 && found == placed.expect(rt, "placed"));
}

#[test]
fn are_bound_to_placeholders(rt: HostRuntime) {
    use AggregateFnRef::Max;
    let alloc = rt.alloc();
    let placed = placed::sum(alloc, placed_a(&rt, alloc));
    expect_placed(&rt, alloc, sum(alloc, a(&rt, alloc)), placed);
    let placed = placed::null_count(alloc, placed_a(&rt, alloc));
    expect_placed(&rt, alloc, null_count(alloc, a(&rt, alloc)), placed);
    let placed = placed::all_null(alloc, placed_a(&rt, alloc));
    expect_placed(&rt, alloc, all_null(alloc, a(&rt, alloc)), placed);
    let placed = placed::all_non_null(alloc, placed_a(&rt, alloc));
    expect_placed(&rt, alloc, all_non_null(alloc, a(&rt, alloc)), placed);
    let placed = placed::min_max(alloc, placed_a(&rt, alloc));
    expect_placed(&rt, alloc, min_max(alloc, a(&rt, alloc)), placed);
    let placed = placed::stat(alloc, placed_a(&rt, alloc), Max);
    expect_placed(&rt, alloc, aggregated(alloc, a(&rt, alloc), Max), placed);
}

#[test]
fn placeholders_of_other_types_are_unsupported(rt: HostRuntime) {
    let alloc = rt.alloc();
    let texts = col(alloc, 0, UTF8).expect(&rt, "texts");
    let sum = placed::sum(alloc, texts);
    assert!(rt; matches!(sum, Err(StatsError::Unsupported)));
    let nans = placed::stat(alloc, placed_a(&rt, alloc), AggregateFnRef::NanCount);
    assert!(rt; matches!(nans, Err(StatsError::Unsupported)));
}

type Proof = Result<Option<BoundExpression>, HookFault>;

fn proof_of(alloc: Global, truth: bool) -> Proof
    ensures { IfOk result (λ o. IfSome o (λ e. IsTrue (is_predicate e))) }
{
    Ok(Some(proofs::truth(alloc, truth)?))
}

// One truth or the other.
fn either(alloc: Global) -> Proof {
    let left = proof_of(alloc, true)?;
    let right = proof_of(alloc, false)?;
    proofs::either(alloc, left, right)
}

fn both(alloc: Global) -> Proof {
    let left = proof_of(alloc, true)?;
    let right = proof_of(alloc, false)?;
    proofs::both(alloc, left, right)
}

#[test]
fn proofs_are_joined(rt: HostRuntime) {
    assert!(rt; matches!(either(rt.alloc()), Ok(Some(_))));
    assert!(rt; matches!(both(rt.alloc()), Ok(Some(_))));
}

// Whether the two proofs are joined, or memory was refused.
fn is_joined(found: Proof) -> bool {
    matches!(found, Ok(Some(_)) | Err(HookFault::Memory(_)))
}

#[test]
fn refused_joins(rt: HostRuntime) {
    assert!(rt; is_joined(either(rt.alloc())));
    assert!(rt; is_joined(both(rt.alloc())));
}
