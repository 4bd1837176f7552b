//! Expressions that say that a column's value lies between two literals, by BETWEEN or by AND.
ghost use Rattle.std.specs.Prelude.{◌≡◌, IfSome};
ghost use Rattle.vortex_expr.specs.Trees.Tree.{between, binary};
ghost use Rattle.vortex_expr.specs.declared.scalar_fn.Operator.TheVariants.{And};
ghost use Rattle.vortex_prune.specs.Scanning.Gaps.{AreSides};
ghost use Rattle.vortex_prune.specs.Scanning.Leaves.{IsBetween, IsColumnOf};

use crate::scan::leaf::Ends;
use crate::scan::sides::{Side, beside, is_falling, is_rising, side_of};
use vortex_base::chunk::Chunk;
use vortex_expr::bound_expression::BoundExpression;
use vortex_expr::bound_expression::parts::Parts;
use vortex_expr::scalar_fn::{BetweenOptions, Operator};

// The ends that two sides are, the lower one first, if they compare one column.
fn ends_of<'a>(chunk: &'a Chunk, low: Side<'a>, high: Side<'a>) -> Option<Ends<'a>>
    requires { IsColumnOf chunk.now.columns low.operand.now low.column.now }
    ensures { IfSome result (AreSides chunk.entry.now.columns low.entry high.entry) }
{
    if !is_rising(low.operator) || !is_falling(high.operator) {
        return None;
    }
    let is_one = *low.operand == *high.operand;
    if !is_one {
        return None;
    }
    Some(Ends {
        column: low.column,
        lower: low.operator,
        low: low.value,
        upper: high.operator,
        high: high.value,
    })
}

// The ends that an AND of two expressions says, in either order.
fn both_ends<'a>(
    chunk: &'a Chunk,
    e: &'a BoundExpression,
    left: &'a BoundExpression,
    right: &'a BoundExpression,
) -> Option<Ends<'a>>
    requires { e.now ≡ binary And left.now right.now }
    ensures { IfSome result (IsBetween chunk.entry.now.columns e.entry.now) }
{
    let first = side_of(chunk, left)?;
    let second = side_of(chunk, right)?;
    if is_rising(first.operator) {
        ends_of(chunk, first, second)
    } else {
        ends_of(chunk, second, first)
    }
}

// The ends of a BETWEEN.
fn between_ends<'a>(
    chunk: &'a Chunk,
    e: &'a BoundExpression,
    options: BetweenOptions,
    x: &'a BoundExpression,
    lower: &'a BoundExpression,
    upper: &'a BoundExpression,
) -> Option<Ends<'a>>
    requires { e.now ≡ between options x.now lower.now upper.now }
    ensures { IfSome result (IsBetween chunk.entry.now.columns e.entry.now) }
{
    let low = beside(chunk, options.lower_strict.to_operator(), lower, x)?;
    let high = beside(chunk, options.upper_strict.to_operator(), x, upper)?;
    ends_of(chunk, low, high)
}

/// The ends between which an expression says that a column's value lies, if it says that.
#[inline(never)]
pub(crate) fn within<'a>(chunk: &'a Chunk, e: &'a BoundExpression) -> Option<Ends<'a>>
    ensures { IfSome result (IsBetween chunk.entry.now.columns e.entry.now) }
{
    match e.parts() {
        Parts::Binary(Operator::And, left, right) => both_ends(chunk, e, left, right),
        Parts::Between(options, x, lower, upper) => {
            between_ends(chunk, e, options, x, lower, upper)
        }
        _ => None,
    }
}
