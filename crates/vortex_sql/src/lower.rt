//! Conditions as predicates.
ghost use Rattle.std.specs.Prelude.{◌≡◌, ◌+◌, ◌++◌, ◌∷◌, [], IfOk, MatchResult, length, map};
ghost use Rattle.vortex_sql.specs.Lowering as spec;
ghost use Rattle.vortex_sql.specs.Readings as readings;
ghost use Rattle.vortex_sql.specs.Refusals as refusals;

use crate::fault::Fault;
use crate::literal::truth_literal;
use crate::reading::reading;
use crate::schema::Schema;
use crate::syntax::tree::{Condition, Leaf};
use std::alloc::{AllocError, AllocFailed, Global};
use vortex_base::dtype::DType;
use vortex_base::error::BaseError;
use vortex_base::types::Nullability;
use vortex_expr::bound;
use vortex_expr::bound_expression::BoundExpression;

/// Says why a condition is not said, and where.
#[derive(Clone, Copy, Debug, PartialEq, Eq)]
pub enum LowerError {
    /// A growth was refused.
    Memory,
    /// The types of the operands of the test at these bytes don't fit.
    Misfit(usize, usize),
}

impl From<BaseError> for LowerError {
    ghost use Rattle.vortex_sql.specs.declared.lower.LowerError.TheVariants.{Memory};

    ghost from_gives = { λ _ e. e ≡ Memory };

    fn from(_: BaseError) -> LowerError {
        LowerError::Memory
    }
}

impl From<AllocError> for LowerError {
    ghost use Rattle.vortex_sql.specs.declared.lower.LowerError.TheVariants.{Memory};

    ghost from_gives = { λ _ e. e ≡ Memory };

    fn from(_: AllocError) -> LowerError {
        LowerError::Memory
    }
}

impl<T: Drop> From<AllocFailed<T>> for LowerError {
    ghost use Rattle.vortex_sql.specs.declared.lower.LowerError.TheVariants.{Memory};

    ghost from_gives = { λ _ e. e ≡ Memory };

    fn from(_: AllocFailed<T>) -> LowerError {
        LowerError::Memory
    }
}

// A growth was refused: literals of truths have no other fault.
impl From<Fault> for LowerError {
    ghost use Rattle.vortex_sql.specs.declared.lower.LowerError.TheVariants.{Memory};

    ghost from_gives = { λ _ e. e ≡ Memory };

    fn from(_: Fault) -> LowerError {
        LowerError::Memory
    }
}

// The places of the leaves that aren't read.
type Places = Vec<(usize, usize)>;

// Says a leaf that isn't read as the column behind those of a scope and of the leaves before it.
fn opaque_leaf(
    alloc: Global,
    leaf: &Leaf,
    first: usize,
    opaque: &mut Places,
) -> Result<BoundExpression, LowerError>
    ensures { MatchResult result
        (λ e. (e ≡ spec.opaque_tree (first + length opaque.old.items))
        × (opaque.new.items ≡ opaque.old.items ++ spec.span_of leaf.now ∷ []))
        (λ f. f ≡ LowerError.Memory) }
{
    let dtype = DType::Bool(Nullability::Nullable);
    let Some(place) = first.checked_add(opaque.len()) else {
        return Err(LowerError::Memory);
    };
    opaque.push((leaf.start, leaf.end))?;
    Ok(bound::col(alloc, place, dtype)?)
}

fn lowered_leaf(
    alloc: Global,
    schema: &Schema,
    leaf: &Leaf,
    first: usize,
    opaque: &mut Places,
) -> Result<BoundExpression, LowerError>
    ensures tree { IfOk result (λ e. e ≡ spec.leaf_tree (first + length opaque.old.items)
        (readings.reading schema.now leaf.now.test)) }
    ensures opaque { IfOk result (λ _. opaque.new.items ≡ opaque.old.items
        ++ map spec.span_of (spec.opaque_if (readings.reading schema.now leaf.now.test) leaf.now)) }
    ensures typed { IfOk result (λ _.
        refusals.misfit_if (readings.reading schema.now leaf.now.test) leaf.now ≡ []) }
    ensures refused { MatchResult result (λ _. Unit {0}) (λ f. refusals.IsRefusal
        (refusals.misfit_if (readings.reading schema.now leaf.now.test) leaf.now) f) }
{
    match reading(alloc, schema, &leaf.test) {
        Ok(Some(said)) => Ok(said),
        Ok(None) => opaque_leaf(alloc, leaf, first, opaque),
        Err(Fault::Memory) => Err(LowerError::Memory),
        Err(Fault::Misfit) => Err(LowerError::Misfit(leaf.start, leaf.end)),
    }
}

// Tells whether a condition has IS TRUE or IS FALSE in it.
fn has_truth_test(condition: &Condition) -> bool
    ensures { result ≡ spec.has_truth_test condition.now }
{
    match condition {
        Condition::Leaf(_) => false,
        Condition::Not(x) | Condition::IsNull(x) => has_truth_test(x),
        Condition::And(left, right) | Condition::Or(left, right) => {
            has_truth_test(left) || has_truth_test(right)
        }
        Condition::IsTrue(_) | Condition::IsFalse(_) => true,
    }
}

// Says that a truth is true.
fn is_true(alloc: Global, once: bool, x: BoundExpression) -> Result<BoundExpression, LowerError>
    ensures { MatchResult result (λ e. e ≡ spec.is_true_tree once x) (λ f. f ≡ LowerError.Memory) }
{
    if once {
        let null = truth_literal(alloc, None)?;
        let either = bound::or(alloc, x, null)?;
        return Ok(bound::is_not_null(alloc, either)?);
    }
    let known = bound::is_not_null(alloc, x.try_clone()?)?;
    Ok(bound::and(alloc, x, known)?)
}

// Says that a truth is false.
fn is_false(alloc: Global, once: bool, x: BoundExpression) -> Result<BoundExpression, LowerError>
    ensures { MatchResult result (λ e. e ≡ spec.is_false_tree once x) (λ f. f ≡ LowerError.Memory) }
{
    if once {
        let null = truth_literal(alloc, None)?;
        let both = bound::and(alloc, x, null)?;
        return Ok(bound::is_not_null(alloc, both)?);
    }
    let known = bound::is_not_null(alloc, x.try_clone()?)?;
    let opposite = bound::not(alloc, x)?;
    Ok(bound::and(alloc, opposite, known)?)
}

// Returns the expression of a condition. The leaves that aren't read are columns behind those of
// the scope, and their places in the text go to the end of `opaque`.
#[tactic(auto, using(crate::proofs::Refusing::parts))]
fn lowered(
    alloc: Global,
    schema: &Schema,
    condition: &Condition,
    first: usize,
    opaque: &mut Places,
) -> Result<BoundExpression, LowerError>
    ensures tree { IfOk result (λ e.
        e ≡ spec.lowered schema.now (first + length opaque.old.items) condition.now) }
    ensures opaque { IfOk result (λ _. opaque.new.items
        ≡ opaque.old.items ++ map spec.span_of (spec.opaques schema.now condition.now)) }
    ensures typed { IfOk result (λ _. refusals.misfits schema.now condition.now ≡ []) }
    ensures refused { MatchResult result (λ _. Unit {0}) (λ f.
        refusals.IsRefusal (refusals.misfits schema.now condition.now) f) }
{
    match condition {
        Condition::Leaf(leaf) => lowered_leaf(alloc, schema, leaf, first, opaque),
        Condition::Not(x) => {
            let x = lowered(alloc, schema, x, first, opaque)?;
            Ok(bound::not(alloc, x)?)
        }
        Condition::And(left, right) => {
            let left = lowered(alloc, schema, left, first, opaque)?;
            let right = lowered(alloc, schema, right, first, opaque)?;
            Ok(bound::and(alloc, left, right)?)
        }
        Condition::Or(left, right) => {
            let left = lowered(alloc, schema, left, first, opaque)?;
            let right = lowered(alloc, schema, right, first, opaque)?;
            Ok(bound::or(alloc, left, right)?)
        }
        Condition::IsNull(x) => {
            let x = lowered(alloc, schema, x, first, opaque)?;
            Ok(bound::is_null(alloc, x)?)
        }
        Condition::IsTrue(x) => {
            let once = has_truth_test(x);
            let x = lowered(alloc, schema, x, first, opaque)?;
            is_true(alloc, once, x)
        }
        Condition::IsFalse(x) => {
            let once = has_truth_test(x);
            let x = lowered(alloc, schema, x, first, opaque)?;
            is_false(alloc, once, x)
        }
    }
}

/// A condition as an expression, and the places in the text of the leaves that aren't read. Each of
/// those is a nullable column of type Bool, behind those of the scope and in this order.
#[derive(Drop)]
pub struct Said {
    pub predicate: BoundExpression,
    pub opaque: Places,
}

/// Returns the expression of a condition over the columns of a schema. `Misfit` names the first leaf of which the
/// types of the operands don't fit, and never comes where there is none.
pub fn lower(alloc: Global, schema: &Schema, condition: &Condition) -> Result<Said, LowerError>
    ensures tree { IfOk result (λ r.
        r.predicate ≡ spec.lowered schema.now (length schema.now.scope) condition.now) }
    ensures says { IfOk result (λ r. spec.Says schema.now condition.now r.predicate) }
    ensures opaque { IfOk result (λ r.
        r.opaque.items ≡ map spec.span_of (spec.opaques schema.now condition.now)) }
    ensures typed { IfOk result (λ _. refusals.misfits schema.now condition.now ≡ []) }
    ensures refused { MatchResult result (λ _. Unit {0}) (λ f.
        refusals.IsRefusal (refusals.misfits schema.now condition.now) f) }
{
    let mut opaque = Vec::new(alloc);
    let predicate = lowered(alloc, schema, condition, schema.scope().len(), &mut opaque)?;
    Ok(Said { predicate, opaque })
}
