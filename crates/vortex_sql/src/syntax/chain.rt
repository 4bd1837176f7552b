//! Chains of conditions joined in halves.
use crate::syntax::error::ParseError;
use crate::syntax::part::{Built, joined};
use std::alloc::Global;
use vortex_expr::scalar_fn::Connective;

/// The items of a chain, each of which may have been taken.
pub(crate) type Items = Vec<Option<Built>>;

fn take(items: &mut [Option<Built>], at: usize) -> Option<Built> {
    match items.get_mut(at) {
        Some(slot) => slot.take(),
        None => None,
    }
}

fn put(items: &mut [Option<Built>], at: usize, item: Option<Built>) {
    if let Some(slot) = items.get_mut(at) {
        let _ = std::mem::replace(slot, item);
    }
}

// Joins two items, or returns the one that is there.
fn both(
    alloc: Global,
    place: usize,
    connective: Connective,
    left: Option<Built>,
    right: Option<Built>,
) -> Result<Option<Built>, ParseError> {
    match (left, right) {
        (Some(left), Some(right)) => Ok(Some(joined(alloc, place, connective, left, right)?)),
        (Some(left), None) => Ok(Some(left)),
        (None, right) => Ok(right),
    }
}

// Joins neighbours; the last of an odd number stays as it is.
fn paired(
    alloc: Global,
    place: usize,
    connective: Connective,
    items: &mut Items,
) -> Result<(), ParseError> {
    let half = items.len() / 2 + items.len() % 2;
    for at in 0..half {
        let left = take(items.as_mut_slice(), at.saturating_mul(2));
        let right = take(items.as_mut_slice(), at.saturating_mul(2).saturating_add(1));
        let pair = both(alloc, place, connective, left, right)?;
        put(items.as_mut_slice(), at, pair);
    }
    items.truncate(half);
    Ok(())
}

/// Joins the items of a chain that ends at a place in halves, in time linear in their number, and
/// leaves no item.
pub(crate) fn chained(
    alloc: Global,
    place: usize,
    connective: Connective,
    items: &mut Items,
) -> Result<Built, ParseError> {
    for _turn in 0..64 {
        if items.len() <= 1 {
            break;
        }
        paired(alloc, place, connective, items)?;
    }
    match items.pop() {
        Some(Some(only)) => Ok(only),
        _ => Err(ParseError::Unexpected(place)),
    }
}
