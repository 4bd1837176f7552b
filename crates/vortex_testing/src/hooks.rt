//! Rules of a user for the tests, by what they claim wherever they are asked.
ghost use Rattle.std.specs.Prelude.{◌≡◌, ◌==◌, MatchResult, Some, false, option_map};
ghost use Rattle.vortex_base.specs.declared.aggregate.AggregateFnRef.{AggregateFnRef};
ghost use Rattle.vortex_expr.specs.Trees.Tree.{column, stat as placeholder};
ghost use Rattle.vortex_rewrite.specs.HookFaults.{IsHookFault};
ghost use Rattle.vortex_rewrite.specs.Rewriting.Falsifiers.{bool_literal, count_literal};
ghost use Rattle.vortex_testing.specs.Hooks.{claimed, claims_are_lawful};
ghost use Rattle.vortex_testing.specs.RuleExamples.{at_value_test};

use std::alloc::{AllocError, Global};
use vortex_base::{AggregateFnRef, BaseError, DType, Nullability, PType, Scalar, ScalarValue};
use vortex_expr::{BoundExpression, Parts, ScalarFnId, bound};
use vortex_rewrite::{HookFault, StatsRewriteRule};

const BOOL: DType = DType::Bool(Nullability::NonNullable);

const I32_OR_NULL: DType = DType::Primitive(PType::I32, Nullability::Nullable);

const U64: DType = DType::Primitive(PType::U64, Nullability::NonNullable);

/// The answer of rules and binders that know a truth.
pub fn truth_answer(alloc: Global, truth: bool) -> Result<Option<BoundExpression>, HookFault>
    ensures { MatchResult result (λ o. o ≡ Some (bool_literal truth)) (IsHookFault (λ k. false)) }
{
    let truth = Scalar::try_new(BOOL, Some(ScalarValue::from(truth)))?;
    Ok(Some(bound::lit(alloc, truth)?))
}

fn number_answer(alloc: Global) -> Result<Option<BoundExpression>, HookFault>
    ensures { MatchResult result (λ o. o ≡ Some (count_literal 7)) (IsHookFault (λ k. false)) }
{
    let seven = Scalar::try_new(U64, Some(ScalarValue::from(7u64)))?;
    Ok(Some(bound::lit(alloc, seven)?))
}

/// A proof that a rule answers for an expression. None of it is ever true.
#[derive(Clone, Copy)]
pub enum Claim {
    Nothing,
    /// The literal that is false.
    False,
    /// A number, which is no proof.
    Number,
    /// A null test of the column at place 0, which stands outside a placeholder.
    NullTest,
    /// The column of truths at a place.
    Column(usize),
    /// The rule's fault.
    Fault,
    /// A refusal of memory.
    Memory,
}

fn prove_by(alloc: Global, claim: Claim, fault: u32) -> Result<Option<BoundExpression>, HookFault>
    ensures { MatchResult result (λ o. o ≡ claimed claim) (IsHookFault (λ k. k == fault)) }
{
    match claim {
        Claim::Nothing => Ok(None),
        Claim::False => truth_answer(alloc, false),
        Claim::Number => number_answer(alloc),
        Claim::NullTest => {
            let column = bound::col(alloc, 0, I32_OR_NULL)?;
            Ok(Some(bound::is_null(alloc, column)?))
        }
        Claim::Column(place) => Ok(Some(bound::col(alloc, place, BOOL)?)),
        Claim::Fault => Err(HookFault::Own(fault)),
        Claim::Memory => Err(HookFault::Memory(AllocError)),
    }
}

/// A rule that claims the same of every expression of its function.
#[derive(Drop)]
pub struct Claiming {
    pub function: ScalarFnId,
    pub falsifier: Claim,
    pub satisfier: Claim,
    pub fault: u32,
}

impl StatsRewriteRule for Claiming {
    ghost id = { λ s. s.function };

    ghost falsifier = { λ s p. claimed s.falsifier };

    ghost satisfier = { λ s p. claimed s.satisfier };

    ghost can_fault = { λ s k. k == s.fault };

    ghost is_lawful = { λ s. claims_are_lawful s.falsifier s.satisfier };

    fn scalar_fn_id(&self) -> ScalarFnId {
        self.function
    }

    fn falsify(
        &self,
        alloc: Global,
        _expression: &BoundExpression,
    ) -> Result<Option<BoundExpression>, HookFault> {
        prove_by(alloc, self.falsifier, self.fault)
    }

    fn satisfy(
        &self,
        alloc: Global,
        _expression: &BoundExpression,
    ) -> Result<Option<BoundExpression>, HookFault> {
        prove_by(alloc, self.satisfier, self.fault)
    }
}

// The column of which an expression says that it isn't null, by its place and type.
fn tested_column(e: &BoundExpression) -> Option<(usize, DType)>
    ensures { (f : AggregateFnRef) → at_value_test f e.now
        ≡ option_map (λ c. placeholder f (column (record { index = c.0; dtype = c.1 }))) result }
{
    match e.parts() {
        Parts::Not(x) => match x.parts() {
            Parts::IsNull(x) => match x.parts() {
                Parts::Column(place, dtype) => Some((place, dtype)),
                _ => None,
            },
            _ => None,
        },
        _ => None,
    }
}

// An aggregate of a column. What refuses it, but memory, is told as the rule's fault.
fn aggregate_of(
    alloc: Global,
    place: usize,
    dtype: DType,
    aggregate: AggregateFnRef,
) -> Result<Option<BoundExpression>, HookFault>
    ensures { MatchResult result
        (λ o. o ≡ Some (placeholder aggregate (column (record { index = place; dtype = dtype }))))
        (IsHookFault (λ k. k == 7)) }
{
    let column = bound::col(alloc, place, dtype)?;
    match bound::new_stat(alloc, column, aggregate) {
        Ok(made) => Ok(Some(made)),
        Err(BaseError::Memory(refused)) => Err(HookFault::Memory(refused)),
        Err(_) => Err(HookFault::Own(7)),
    }
}

// The aggregate of the column that the expression says isn't null.
fn aggregate_at(
    alloc: Global,
    e: &BoundExpression,
    aggregate: AggregateFnRef,
) -> Result<Option<BoundExpression>, HookFault>
    ensures { MatchResult result (λ o. o ≡ at_value_test aggregate e.now)
        (IsHookFault (λ k. k == 7)) }
{
    match tested_column(e) {
        Some((place, dtype)) => aggregate_of(alloc, place, dtype, aggregate),
        None => Ok(None),
    }
}

/// Proves NOT of a column's null test by what the column's statistics tell: no row satisfies it
/// where all are null, and every row does where none is.
#[derive(Drop)]
pub struct ValueTests;

impl StatsRewriteRule for ValueTests {
    ghost use Rattle.vortex_base.specs.declared.aggregate.AggregateFnRef.TheVariants as aggregate;
    ghost use Rattle.vortex_expr.specs.declared.scalar_fn.ScalarFnId.TheVariants as function;
    ghost use Rattle.vortex_testing.specs.RuleExamples.{value_test_is_lawful};

    ghost id = { λ s. function.Not };

    ghost falsifier = { λ s. at_value_test aggregate.AllNull };

    ghost satisfier = { λ s. at_value_test aggregate.AllNonNull };

    ghost can_fault = { λ s k. k == 7 };

    ghost is_lawful = { λ s. value_test_is_lawful };

    fn scalar_fn_id(&self) -> ScalarFnId {
        ScalarFnId::Not
    }

    fn falsify(
        &self,
        alloc: Global,
        expression: &BoundExpression,
    ) -> Result<Option<BoundExpression>, HookFault> {
        aggregate_at(alloc, expression, AggregateFnRef::AllNull)
    }

    fn satisfy(
        &self,
        alloc: Global,
        expression: &BoundExpression,
    ) -> Result<Option<BoundExpression>, HookFault> {
        aggregate_at(alloc, expression, AggregateFnRef::AllNonNull)
    }
}
