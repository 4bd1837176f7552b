//! Chains joined two by two.
ghost use Rattle.std.specs.Prelude.{◌≡◌, ◌≤◌, ◌<◌, length};
ghost use Rattle.vortex_expr.specs.Trees.Connectives.{is_and};
ghost use Rattle.vortex_normal.specs.Balanced.{depth};
ghost use Rattle.vortex_capi.specs.Nesting.Halves as spec;
ghost use Rattle.vortex_capi.specs.Nesting.Nodes.{Joins, deepest};

use crate::nested::error::NestedError;
use crate::nested::item::Item;
use crate::nested::nested::Nested;
use std::alloc::Global;
use vortex_expr::scalar_fn::Connective;

// Joins neighbours by AND or by OR; the last of an odd number stays as it is.
fn paired(
    alloc: Global,
    connective: Connective,
    below: usize,
    items: Vec<Item>,
) -> Result<Vec<Item>, NestedError>
    ensures { Joins (λ pairs. pairs.items ≡ spec.paired (is_and connective) items.items)
        (below ≤ deepest (spec.paired (is_and connective) items.items)) result }
{
    let mut pairs = Vec::new(alloc);
    let mut rest = items.into_iter();
    'pairs: while let Some(first) = rest.next() {
        match rest.next() {
            Some(second) => match Item::joined(alloc, connective, below, first, second) {
                Ok(pair) => pairs.push(pair)?,
                Err(e) => return Err(e),
            },
            None => pairs.push(first)?,
        }
    }
    Ok(pairs)
}

/// Joins the items of a chain by AND or by OR in halves, in time linear in their number, or refuses
/// what has `below` levels or more.
#[inline(never)]
pub(crate) fn joined(
    alloc: Global,
    connective: Connective,
    below: usize,
    items: Vec<Item>,
) -> Result<Nested, NestedError>
    requires { 0 < length items.items }
    ensures { Joins (λ e. (e ≡ spec.joined (is_and connective) items.items) × (depth e < below))
        (below ≤ depth (spec.joined (is_and connective) items.items)) result }
{
    let mut left = items;
    'turns: while left.len() > 1 {
        left = match paired(alloc, connective, below, left) {
            Ok(pairs) => pairs,
            Err(e) => return Err(e),
        };
    }
    let Some(only) = left.pop() else {
        unreachable!()
    };
    let whole = only.into_nested();
    if whole.depth() >= below {
        return Err(NestedError::TooDeep);
    }
    Ok(whole)
}
