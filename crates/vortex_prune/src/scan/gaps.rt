//! Gaps between the ranges of a set, and gaps beside them, of which one search among all decides.
//! An AND of gaps says that no value of the set lies within a zone's bounds. An OR of spans says
//! that the zone lies within a range of the set, and it is untrue of a zone that is beside each.
ghost use Rattle.std.specs.Prelude.{◌≡◌, ◌+◌, ◌<◌, ◌^◌, ◌&&◌, ◌∷◌, ◌++◌, [], IfSome, IsTrue};
ghost use Rattle.std.specs.Prelude.{IsSome, false, length, option_map, true};
ghost use Rattle.std.specs.List.{All, list_all};
ghost use Rattle.std.specs.List.Sorted.{IsPermutation};
ghost use Rattle.vortex_base.specs.Data.ArrayData.{value_of};
ghost use Rattle.vortex_prune.specs.Scanning.Gaps.{AreAlike, AreOrdered, ArePoints, Follows, GoesWith};
ghost use Rattle.vortex_prune.specs.Scanning.Gaps.{IsAlike, IsBesideEnds, IsBesideSpan, IsGapOf, IsPoint};
ghost use Rattle.vortex_prune.specs.Scanning.Gaps.{IsPut, IsSure, are_passed_at, flag_tree, gap_passes};
ghost use Rattle.vortex_prune.specs.Scanning.Gaps.{is_end, is_past as is_past_of};
ghost use Rattle.vortex_prune.specs.Scanning.Marks.{marked};

use crate::scan::leaf::{Test, passes};
use crate::scan::sides::{
    Flag, Side, cell, flag_of, is_falling, is_lower, is_raised, is_rising, is_set, passes_side,
    side_of, upper,
};
use vortex_base::chunk::Chunk;
use vortex_base::column::Column;
use vortex_base::value_ref::ValueRef;
use vortex_expr::bound_expression::BoundExpression;
use vortex_expr::bound_expression::parts::Parts;
use vortex_expr::scalar_fn::Operator;

/// A test of two columns' values. Without a flag it is a gap between two ranges: either comparison
/// has to be true, `above` of high values or `below` of low ones. With a flag it is beside a span:
/// `above` of its upper end, `below` of its lower end and the flag mustn't all be true.
#[derive(Clone, Copy)]
pub(crate) struct Gap<'a> {
    pub(crate) above: Side<'a>,
    pub(crate) below: Side<'a>,
    pub(crate) flag: Option<Flag<'a>>,
}

// The gap that two expressions are, of which one has to be true, if they are one.
fn gap_of<'a>(
    chunk: &'a Chunk,
    left: &'a BoundExpression,
    right: &'a BoundExpression,
) -> Option<Gap<'a>>
    ensures { IfSome result (λ g.
        IsGapOf chunk.entry.now.columns left.entry.now right.entry.now g) }
{
    let left = side_of(chunk, left)?;
    let right = side_of(chunk, right)?;
    if is_rising(left.operator) && is_falling(right.operator) {
        Some(Gap {
            above: left,
            below: right,
            flag: None,
        })
    } else if is_rising(right.operator) && is_falling(left.operator) {
        Some(Gap {
            above: right,
            below: left,
            flag: None,
        })
    } else {
        None
    }
}

// Whether two comparisons are those with an upper and a lower end, or both with a single value.
fn are_ends(upper: Operator, lower: Operator) -> bool
    ensures { IsTrue result → is_end upper ≡ true }
{
    match upper {
        Operator::Eq => lower == Operator::Eq,
        _ => is_falling(upper) && is_rising(lower),
    }
}

// The gap beside the span of two comparisons and a column of truths, if they are one: a range of
// values, or a single one.
fn beside_ends<'a>(
    chunk: &'a Chunk,
    left: &'a BoundExpression,
    right: &'a BoundExpression,
    flag: &'a BoundExpression,
) -> Option<Gap<'a>>
    ensures { IfSome result (λ g. IsBesideEnds chunk.entry.now.columns left.entry.now
        right.entry.now flag.entry.now g) }
{
    let left = side_of(chunk, left)?;
    let right = side_of(chunk, right)?;
    let flag = Some(flag_of(chunk, flag)?);
    if are_ends(left.operator, right.operator) {
        let (above, below) = (left, right);
        Some(Gap { above, below, flag })
    } else if are_ends(right.operator, left.operator) {
        let (above, below) = (right, left);
        Some(Gap { above, below, flag })
    } else {
        None
    }
}

// The gap beside the span that two expressions are, which mustn't both be true, if they are one: a
// column of truths stands beside both ends, or beside each.
fn beside_span<'a>(
    chunk: &'a Chunk,
    left: &'a BoundExpression,
    right: &'a BoundExpression,
) -> Option<Gap<'a>>
    ensures { IfSome result (λ g.
        IsBesideSpan chunk.entry.now.columns left.entry.now right.entry.now g) }
{
    let Parts::Binary(Operator::And, first, flag) = left.parts() else {
        return None;
    };
    let Parts::Binary(Operator::And, second, again) = right.parts() else {
        return beside_ends(chunk, first, flag, right);
    };
    if *flag == *again {
        beside_ends(chunk, first, second, flag)
    } else {
        None
    }
}

// Whether the values of a gap's two comparisons are one, to which both are equal.
fn is_point(gap: &Gap<'_>) -> bool
    ensures { IsTrue result → IsPoint gap.now }
{
    if gap.above.operator != Operator::Eq || gap.below.operator != Operator::Eq {
        return false;
    }
    gap.above.value.order(gap.below.value).is_eq()
}

// Whether two gaps beside single values are in order.
fn are_points(gap: &Gap<'_>, next: &Gap<'_>) -> bool
    ensures { IsTrue result → ArePoints gap.now next.now }
{
    if !is_point(gap) || !is_point(next) {
        return false;
    }
    !gap.above.value.order(next.above.value).is_gt()
}

// Whether a gap beside a span lies above another.
fn follows_span(gap: &Gap<'_>, next: &Gap<'_>) -> bool
    requires flag { IsSome gap.now.flag }
    requires next_flag { IsSome next.now.flag }
    ensures { IsTrue result → Follows gap.now next.now }
{
    if are_points(gap, next) {
        return true;
    }
    if is_raised(gap.above, next.above) {
        is_lower(gap.below, next.below)
    } else {
        false
    }
}

// Whether a gap lies above another, as far as their values show.
fn follows(gap: &Gap<'_>, next: &Gap<'_>) -> bool
    ensures { IsTrue result → Follows gap.now next.now }
{
    match (gap.flag, next.flag) {
        (None, None) => {
            if is_lower(gap.above, next.above) {
                is_raised(gap.below, next.below)
            } else {
                false
            }
        }
        (Some(_), Some(_)) => follows_span(gap, next),
        _ => false,
    }
}

// Whether two flags are one column, or there is none.
fn are_same(flag: Option<Flag<'_>>, other: Option<Flag<'_>>) -> bool
    ensures { IsTrue result → flag_tree flag.entry ≡ flag_tree other.entry }
{
    match (flag, other) {
        (None, None) => true,
        (Some(flag), Some(other)) => *flag.operand == *other.operand,
        _ => false,
    }
}

// Whether two gaps have the same operands, and compare these alike.
fn is_alike(gap: &Gap<'_>, other: &Gap<'_>) -> bool
    ensures { IsTrue result → IsAlike gap.now other.now }
{
    if gap.above.operator != other.above.operator || gap.below.operator != other.below.operator {
        return false;
    }
    if !are_same(gap.flag, other.flag) {
        return false;
    }
    let is_above = *gap.above.operand == *other.above.operand;
    let is_below = *gap.below.operand == *other.below.operand;
    is_above && is_below
}

// Whether a gap is like the first of some, if there are any.
fn goes_with(gaps: &[Gap<'_>], gap: &Gap<'_>) -> bool
    ensures { IsTrue result → GoesWith gaps.now gap.now }
{
    match gaps.first() {
        Some(first) => is_alike(first, gap),
        None => true,
    }
}

// Puts a gap behind others that it is like, if there is room.
fn put<'a>(gaps: &mut Vec<Gap<'a>>, gap: Gap<'a>) -> bool
    ensures taken { IsTrue result → gaps.new.items ≡ gaps.old.items ++ gap.entry ∷ [] }
    ensures left { result ≡ false → gaps.new.items ≡ gaps.old.items }
    ensures alike { IsTrue result → GoesWith gaps.old.items gap.entry }
{
    if !goes_with(gaps, &gap) {
        return false;
    }
    gaps.push(gap).is_ok()
}

/// Puts the gap that two expressions are behind others, if they are one that is like these: either
/// expression has to be true. It is a function of its own so that the frames of those that call
/// each other stay small.
#[inline(never)]
pub(crate) fn put_gap<'a>(
    chunk: &'a Chunk,
    left: &'a BoundExpression,
    right: &'a BoundExpression,
    gaps: &mut Vec<Gap<'a>>,
) -> bool
    requires { AreAlike chunk.now.columns gaps.old.items }
    ensures taken { IsTrue result → IsPut
        (IsGapOf chunk.entry.now.columns left.entry.now right.entry.now)
        gaps.old.items gaps.new.items }
    ensures left { result ≡ false → gaps.new.items ≡ gaps.old.items }
    ensures alike { AreAlike chunk.entry.now.columns gaps.new.items }
{
    match gap_of(chunk, left, right) {
        Some(gap) => put(gaps, gap),
        None => false,
    }
}

/// Puts the gap beside the span that two expressions are behind others, likewise: not both
/// expressions may be true.
#[inline(never)]
pub(crate) fn put_beside<'a>(
    chunk: &'a Chunk,
    left: &'a BoundExpression,
    right: &'a BoundExpression,
    gaps: &mut Vec<Gap<'a>>,
) -> bool
    requires { AreAlike chunk.now.columns gaps.old.items }
    ensures taken { IsTrue result → IsPut
        (IsBesideSpan chunk.entry.now.columns left.entry.now right.entry.now)
        gaps.old.items gaps.new.items }
    ensures left { result ≡ false → gaps.new.items ≡ gaps.old.items }
    ensures alike { AreAlike chunk.entry.now.columns gaps.new.items }
{
    match beside_span(chunk, left, right) {
        Some(gap) => put(gaps, gap),
        None => false,
    }
}

// Whether each gap follows the one before it.
fn are_ordered(gaps: &[Gap<'_>]) -> bool
    ensures { IsTrue result → AreOrdered gaps.now }
{
    for k in 1..gaps.len() {
        if !follows(&gaps[k - 1], &gaps[k]) {
            return false;
        }
    }
    true
}

/// Puts gaps in the order of their values, and answers whether each then follows those before it.
pub(crate) fn put_in_order(gaps: &mut [Gap<'_>]) -> bool
    ensures order { IsTrue result → AreOrdered gaps.new }
    ensures same { IsPermutation gaps.old gaps.new }
{
    if are_ordered(gaps) {
        return true;
    }
    gaps.sort_unstable_by(|gap, next| gap.above.value.order(next.above.value));
    are_ordered(gaps)
}

/// Returns whether three values pass a gap.
pub(crate) fn passes_gap(
    gap: &Gap<'_>,
    x: Option<ValueRef<'_>>,
    y: Option<ValueRef<'_>>,
    z: Option<ValueRef<'_>>,
) -> bool
    ensures { result ≡ gap_passes gap.now (option_map value_of x.entry)
        (option_map value_of y.entry) (option_map value_of z.entry) }
{
    match gap.flag {
        None => passes_side(gap.above, x) || passes_side(gap.below, y),
        Some(_) => !(passes_side(gap.above, x) && (passes_side(gap.below, y) && is_set(z))),
    }
}

// Whether a first value shows by itself that a gap is passed.
fn is_past(gap: &Gap<'_>, x: Option<ValueRef<'_>>) -> bool
    ensures { result ≡ is_past_of gap.now (option_map value_of x.entry) }
{
    match gap.flag {
        None => passes_side(gap.above, x),
        Some(_) => !passes(Test::Is(upper(gap.above.operator), gap.above.value), x),
    }
}

// Whether values pass each gap. In order, the first gap that the first value isn't past decides.
fn pass_all(
    gaps: &[Gap<'_>],
    in_order: bool,
    x: Option<ValueRef<'_>>,
    y: Option<ValueRef<'_>>,
    z: Option<ValueRef<'_>>,
) -> bool
    requires order { IsTrue in_order → AreOrdered gaps.now }
    requires sure { All IsSure gaps.now }
    ensures { result ≡ list_all (λ g. gap_passes g (option_map value_of x.entry)
        (option_map value_of y.entry) (option_map value_of z.entry)) gaps.now }
{
    if !in_order {
        return gaps.iter().all(|gap| passes_gap(gap, x, y, z));
    }
    let place = gaps.partition_point(|gap| is_past(gap, x));
    match gaps.get(place) {
        Some(gap) => passes_gap(gap, x, y, z),
        None => true,
    }
}

/// The columns of which gaps ask.
#[derive(Clone, Copy)]
pub(crate) struct Columns<'a> {
    pub(crate) above: &'a Column,
    pub(crate) below: &'a Column,
    pub(crate) flag: &'a Column,
}

/// The columns of which a gap asks. One without a flag asks no third one.
pub(crate) fn asked<'a>(gap: &Gap<'a>) -> Columns<'a>
    ensures above { result.above.now ≡ gap.now.above.column.now }
    ensures below { result.below.now ≡ gap.now.below.column.now }
    ensures flag { IfSome gap.now.flag (λ f. result.flag.now ≡ f.column.now) }
{
    let flag = match gap.flag {
        Some(flag) => flag.column,
        None => gap.below.column,
    };
    Columns {
        above: gap.above.column,
        below: gap.below.column,
        flag,
    }
}

fn stays_in(mark: bool, gaps: &[Gap<'_>], in_order: bool, asked: Columns<'_>, place: usize) -> bool
    requires order { IsTrue in_order → AreOrdered gaps.now }
    requires sure { All IsSure gaps.now }
    ensures { result ≡ (mark && are_passed_at gaps.now asked.entry.above.now
        asked.entry.below.now asked.entry.flag.now place) }
{
    mark && pass_all(
        gaps,
        in_order,
        cell(asked.above, place),
        cell(asked.below, place),
        cell(asked.flag, place),
    )
}

/// Takes away the marks, from a place on, at which the values of columns don't pass each gap.
pub(crate) fn keep_passed(
    gaps: &[Gap<'_>],
    in_order: bool,
    asked: Columns<'_>,
    from: usize,
    marks: &mut [bool],
)
    requires order { IsTrue in_order → AreOrdered gaps.now }
    requires sure { All IsSure gaps.now }
    requires room { from + length marks.old < 2 ^ 64 }
    ensures { marks.new ≡ marked (are_passed_at gaps.now asked.entry.above.now
        asked.entry.below.now asked.entry.flag.now) from marks.old }
{
    for k in 0..marks.len() {
        marks[k] = stays_in(marks[k], gaps, in_order, asked, from + k);
    }
}
