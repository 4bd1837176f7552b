//! The predicates for which pruning by built-in rules is complete.
ghost use Rattle.std.specs.Prelude.{◌≡◌, ◌&&◌, ◌||◌, ◌++◌, ℕ, Bool, Err, IfErr, IfOk, IsTrue};
ghost use Rattle.std.specs.Prelude.{List, [], false, true};
ghost use Rattle.std.specs.BTreeSet.{contains};
ghost use Rattle.std.specs.Ordering.{nat_cmp};
ghost use Rattle.vortex_expr.specs.Trees.Tree.{Place};
ghost use Rattle.vortex_stats.specs.declared.error.StatsError.TheVariants.{NotPredicate};
ghost use Rattle.vortex_rewrite.specs.Answers.{IsMemory};
ghost use Rattle.vortex_rewrite.specs.Rewriting.Falsifiers.{is_closed_end};
ghost use Rattle.vortex_rewrite.specs.Rewriting.Predicates.{is_predicate};
ghost use Rattle.vortex_rewrite.specs.Rewriting.ReadOnce as read_once;
ghost use Rattle.vortex_rewrite.specs.Rewriting.ReadOnce.{are_apart, are_distinct, columns_of};
ghost use Rattle.vortex_rewrite.specs.Rewriting.ReadOnce.{is_number_type, is_operand, is_range};
ghost use Rattle.vortex_rewrite.specs.Rewriting.ReadOnce.{is_truth};
ghost use Rattle.vortex_predicates.specs.Complete.{AreIndexesIf, is_decided};
ghost use Rattle.vortex_predicates.specs.NullBoxes as null_boxes;
ghost use Rattle.vortex_predicates.specs.NullBoxes.{is_a_column};

use crate::pruning_predicate::{is_shallow, narrowed_test};
use std::alloc::{AllocError, Global};
use std::collections::BTreeSet;
use vortex_base::dtype::DType;
use vortex_base::scalar::Scalar;
use vortex_base::scalar_value::ScalarValue;
use vortex_expr::bound_expression::BoundExpression;
use vortex_expr::bound_expression::parts::Parts;
use vortex_expr::scalar_fn::{BetweenOptions, Operator, StrictComparison};
use vortex_normal::normalize::normalize;
use vortex_stats::error::StatsError;

// Joins two sets, by moving the smaller one into the larger one.
fn joined(
    mut left: BTreeSet<usize>,
    mut right: BTreeSet<usize>,
) -> Result<BTreeSet<usize>, AllocError>
    ensures { IfOk result (λ s. (i : ℕ) → contains nat_cmp s i
        ≡ (contains nat_cmp left i || contains nat_cmp right i)) }
{
    if left.len() < right.len() {
        right.append(&mut left)?;
        Ok(right)
    } else {
        left.append(&mut right)?;
        Ok(left)
    }
}

// Joins the places of two sides, if each has some set of them and they share none.
fn apart(
    left: Option<BTreeSet<usize>>,
    right: Option<BTreeSet<usize>>,
) -> Result<Option<BTreeSet<usize>>, AllocError>
    ensures { IfOk result (λ found. (d e : Bool) (cs ds : List Place)
        → AreIndexesIf d cs left → AreIndexesIf e ds right
        → AreIndexesIf (are_apart cs ds && (d && e)) (cs ++ ds) found) }
{
    let Some(left) = left else {
        return Ok(None);
    };
    let Some(right) = right else {
        return Ok(None);
    };
    if left.is_disjoint(&right) {
        Ok(Some(joined(left, right)?))
    } else {
        Ok(None)
    }
}

// Joins the places of two sides, if each has some set of them.
fn both(
    first: Option<BTreeSet<usize>>,
    second: Option<BTreeSet<usize>>,
) -> Result<Option<BTreeSet<usize>>, AllocError>
    ensures { IfOk result (λ found. (d e : Bool) (cs ds : List Place)
        → AreIndexesIf d cs first → AreIndexesIf e ds second
        → AreIndexesIf (d && e) (cs ++ ds) found) }
{
    let Some(first) = first else {
        return Ok(None);
    };
    let Some(second) = second else {
        return Ok(None);
    };
    Ok(Some(joined(first, second)?))
}

// Returns the place of an operand that is a column, no place of a literal, and `None` otherwise.
fn operand(alloc: Global, e: &BoundExpression) -> Result<Option<BTreeSet<usize>>, AllocError>
    ensures { IfOk result (AreIndexesIf (is_operand e.now) (columns_of e.now)) }
{
    match e.parts() {
        Parts::Column(place, _) => Ok(Some(BTreeSet::from_array(alloc, [place])?)),
        Parts::Literal(value) => match value.value() {
            Some(_) => Ok(Some(BTreeSet::new(alloc))),
            None => Ok(None),
        },
        _ => Ok(None),
    }
}

// Returns the places of the columns of a comparison, if its operands are columns and literals.
fn compared(
    alloc: Global,
    left: &BoundExpression,
    right: &BoundExpression,
) -> Result<Option<BTreeSet<usize>>, AllocError>
    ensures { let cs = columns_of left.now ++ columns_of right.now in
        let operands = is_operand left.now && is_operand right.now in
        IfOk result (AreIndexesIf (operands && are_distinct cs) cs) }
{
    let left = operand(alloc, left)?;
    let right = operand(alloc, right)?;
    apart(left, right)
}

fn is_number(dtype: DType) -> bool
    ensures { result ≡ is_number_type dtype }
{
    matches!(dtype, DType::Primitive(_, _))
}

fn is_closed(end: StrictComparison) -> bool
    ensures { result ≡ is_closed_end end }
{
    matches!(end, StrictComparison::NonStrict)
}

// Returns the place of the column of a range, if bounds decide that.
fn ranged(
    alloc: Global,
    options: BetweenOptions,
    x: &BoundExpression,
    lower: &BoundExpression,
    upper: &BoundExpression,
) -> Result<Option<BTreeSet<usize>>, AllocError>
    ensures { let cs = columns_of x.now ++ (columns_of lower.now ++ columns_of upper.now) in
        let decided = is_range options x.now lower.now upper.now in
        IfOk result (AreIndexesIf (decided && are_distinct cs) cs) }
{
    let (Parts::Column(place, dtype), Parts::Literal(low), Parts::Literal(high)) = (
        x.parts(),
        lower.parts(),
        upper.parts(),
    ) else {
        return Ok(None);
    };
    let is_seen = is_number(dtype)
        || is_closed(options.lower_strict)
        || is_closed(options.upper_strict);
    if is_seen && low.value().is_some() && high.value().is_some() {
        Ok(Some(BTreeSet::from_array(alloc, [place])?))
    } else {
        Ok(None)
    }
}

// Returns no place of a literal truth, and `None` for any other literal.
fn truth(alloc: Global, value: &Scalar) -> Option<BTreeSet<usize>>
    ensures { AreIndexesIf (is_truth value.now.value) [] result }
{
    match value.value() {
        Some(ScalarValue::Bool(_)) => Some(BTreeSet::new(alloc)),
        _ => None,
    }
}

// Returns the places of the columns of a tree that bounds decide, and `None` for any other tree.
fn indexes(alloc: Global, e: &BoundExpression) -> Result<Option<BTreeSet<usize>>, AllocError>
    ensures { IfOk result (AreIndexesIf (read_once.has_disjoint_ands e.now) (columns_of e.now)) }
{
    match e.parts() {
        Parts::Binary(Operator::And, left, right) => {
            let left = indexes(alloc, left)?;
            let right = indexes(alloc, right)?;
            apart(left, right)
        }
        Parts::Binary(Operator::Or, left, right) => {
            let left = indexes(alloc, left)?;
            let right = indexes(alloc, right)?;
            both(left, right)
        }
        Parts::Binary(_, left, right) => compared(alloc, left, right),
        Parts::Between(options, x, lower, upper) => ranged(alloc, options, x, lower, upper),
        Parts::Literal(value) => Ok(truth(alloc, value)),
        _ => Ok(None),
    }
}

fn has_disjoint_ands(alloc: Global, e: &BoundExpression) -> Result<bool, AllocError>
    ensures { IfOk result (λ apart. apart ≡ read_once.has_disjoint_ands e.now) }
{
    Ok(indexes(alloc, e)?.is_some())
}

// Returns the place of a column, and `None` for any other expression.
fn column(alloc: Global, x: &BoundExpression) -> Result<Option<BTreeSet<usize>>, AllocError>
    ensures { let cs = columns_of x.now in
        IfOk result (AreIndexesIf (is_a_column x.now && are_distinct cs) cs) }
{
    match x.parts() {
        Parts::Column(place, _) => Ok(Some(BTreeSet::from_array(alloc, [place])?)),
        _ => Ok(None),
    }
}

// Returns the places of the columns of a tree that bounds and null counts decide, and `None` for
// any other tree.
fn null_indexes(alloc: Global, e: &BoundExpression) -> Result<Option<BTreeSet<usize>>, AllocError>
    ensures { IfOk result (AreIndexesIf (null_boxes.is_null_apart e.now) (columns_of e.now)) }
{
    match e.parts() {
        Parts::Binary(Operator::And, left, right) => {
            let left = null_indexes(alloc, left)?;
            let right = null_indexes(alloc, right)?;
            apart(left, right)
        }
        Parts::Binary(Operator::Or, left, right) => {
            let left = null_indexes(alloc, left)?;
            let right = null_indexes(alloc, right)?;
            both(left, right)
        }
        Parts::Binary(_, left, right) => compared(alloc, left, right),
        Parts::Between(options, x, lower, upper) => ranged(alloc, options, x, lower, upper),
        Parts::IsNull(x) | Parts::IsNotNull(x) => column(alloc, x),
        Parts::Literal(value) => Ok(truth(alloc, value)),
        _ => Ok(None),
    }
}

fn is_null_apart(alloc: Global, e: &BoundExpression) -> Result<bool, AllocError>
    ensures { IfOk result (λ apart. apart ≡ null_boxes.is_null_apart e.now) }
{
    Ok(null_indexes(alloc, e)?.is_some())
}

// Returns whether bounds and null counts decide the narrowed test of a predicate's truth.
fn is_null_decided(
    alloc: Global,
    levels: Option<u32>,
    wanted: bool,
    with_null: bool,
    predicate: &BoundExpression,
) -> Result<bool, StatsError>
    ensures value { let decided = null_boxes.is_null_decided levels wanted with_null in
        IfOk result (λ complete. complete ≡ decided predicate.now) }
    ensures not_predicate { is_predicate predicate.now ≡ false → result ≡ Err NotPredicate }
    ensures memory { IsTrue (is_predicate predicate.now) → IfErr result IsMemory }
{
    match narrowed_test(alloc, levels, wanted, with_null, predicate)? {
        Some(test) => Ok(is_null_apart(alloc, &test)?),
        None => Ok(false),
    }
}

/// Returns whether pruning by a predicate is complete by built-in rules with known null counts:
/// each zone is skipped whose bounds and null counts leave no row that satisfies the predicate.
///
/// It is if the narrowed test that the predicate is true, unless that has more than so many
/// levels, is a tree of AND and OR over comparisons, ranges, truths and null tests of columns in
/// which the sides of no AND share a column. `levels` are those of
/// `PruningPredicate::try_new_within`; `None` stands for `try_new`.
///
/// A zone may lack any bound. Each value of the column's type may then stand for it with which the
/// test's comparisons hold that read it: `a < 5` reads the least value of `a`, for which 4 may
/// stand and any lesser value. Nothing is promised where no value of the type is such: a zone that
/// lacks the least value of `a` is kept under `a < b` even if each value of `b` is the least one of
/// its type.
///
/// `NotPredicate` if the expression isn't of type Bool, which is found before anything is taken.
pub fn is_complete_with_nulls(
    alloc: Global,
    levels: Option<u32>,
    predicate: &BoundExpression,
) -> Result<bool, StatsError>
    ensures value { let decided = null_boxes.is_null_decided levels true false predicate.now in
        IfOk result (λ complete. complete ≡ decided) }
    ensures not_predicate { is_predicate predicate.now ≡ false → result ≡ Err NotPredicate }
    // A predicate is refused for memory alone.
    ensures memory { IsTrue (is_predicate predicate.now) → IfErr result IsMemory }
{
    is_null_decided(alloc, levels, true, false, predicate)
}

/// Returns whether pruning by a predicate names each zone whole, or skips it, whose bounds and null
/// counts leave only rows that satisfy the predicate.
///
/// It does if the narrowed test that the predicate isn't true is such a tree as
/// `is_complete_with_nulls` asks for. A zone may lack any bound, as there.
///
/// `NotPredicate` if the expression isn't of type Bool, which is found before anything is taken.
pub fn is_whole_complete_for(
    alloc: Global,
    levels: Option<u32>,
    predicate: &BoundExpression,
) -> Result<bool, StatsError>
    ensures value { let decided = null_boxes.is_null_decided levels false true predicate.now in
        IfOk result (λ complete. complete ≡ decided) }
    ensures not_predicate { is_predicate predicate.now ≡ false → result ≡ Err NotPredicate }
    // A predicate is refused for memory alone.
    ensures memory { IsTrue (is_predicate predicate.now) → IfErr result IsMemory }
{
    is_null_decided(alloc, levels, false, true, predicate)
}

/// Returns whether pruning by a predicate is complete by built-in rules, so that each zone with
/// known bounds is skipped if no values within them satisfy the predicate.
///
/// It is if the predicate as it is, or its normal form, unless that has more than so many levels,
/// is a tree of AND and OR over comparisons, ranges and truths in which the sides of no AND share
/// a column. `levels` are those of `PruningPredicate::try_new_within`; `None` stands for
/// `try_new`. The walk is as deep as the expression and, but for logarithms, linear in its leaves.
///
/// `NotPredicate` if the expression isn't of type Bool, which is found before anything is taken.
pub fn is_complete_for(
    alloc: Global,
    levels: Option<u32>,
    predicate: &BoundExpression,
) -> Result<bool, StatsError>
    ensures value { IfOk result (λ complete. complete ≡ is_decided levels predicate.now) }
    ensures not_predicate { is_predicate predicate.now ≡ false → result ≡ Err NotPredicate }
    // A predicate is refused for memory alone.
    ensures memory { IsTrue (is_predicate predicate.now) → IfErr result IsMemory }
{
    let normal = normalize(alloc, predicate)?;
    if has_disjoint_ands(alloc, predicate)? {
        return Ok(true);
    }
    if !is_shallow(&normal, levels) {
        return Ok(false);
    }
    Ok(has_disjoint_ands(alloc, &normal)?)
}
