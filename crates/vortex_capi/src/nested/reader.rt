//! Expressions in prefix form, their chains joined in halves.
ghost use Rattle.std.specs.Prelude.{◌≡◌, ◌<◌, ◌≤◌, ◌+◌, ◌∷◌, [], ℕ, IfOk, IfSome, List, length, option_map};
ghost use Rattle.vortex_base.specs.Data.Scopes.{named_columns};
ghost use Rattle.vortex_expr.specs.Trees.Connectives.{is_and};
ghost use Rattle.vortex_syntax.specs.Expressions as syntax;
ghost use Rattle.vortex_syntax.specs.Words.{Token, words};
ghost use Rattle.vortex_capi.specs.Nesting.Nodes.{pair_of, unary_of};
ghost use Rattle.vortex_capi.specs.Nesting.Reads as spec;
ghost use Rattle.vortex_capi.specs.Nesting.Reads.{Reads, ReadsItems};

use crate::nested::error::NestedError;
use crate::nested::item::Item;
use crate::nested::joining::joined;
use crate::nested::nested::{Nested, Pair, Unary};
use crate::nested::shape::{Shape, shape_of};
use std::alloc::Global;
use vortex_expr::scalar_fn::Connective;
use vortex_syntax::columns::Columns;
use vortex_syntax::expected::Expected;
use vortex_syntax::expression;
use vortex_syntax::form::form_of;
use vortex_syntax::word::plain_word;

// Reads a column, `NAME`.
#[inline(never)]
fn read_column<'a>(
    alloc: Global,
    columns: &Columns,
    line: &'a [u8],
) -> Result<(Nested, &'a [u8]), NestedError>
    ensures read { (below : ℕ) → 0 < below → Reads below (λ x. (x.0, words x.1.now)) result
        (syntax.read_column (named_columns columns.now) (words line.now)) }
    ensures fewer { IfOk result (λ x. length (words x.1.now) < length (words line.now)) }
{
    match expression::read_column(alloc, columns, line) {
        Ok((column, rest)) => Ok((Nested::leaf(column), rest)),
        Err(e) => Err(NestedError::from(e)),
    }
}

// Reads a literal, `TYPE VALUE`.
#[inline(never)]
fn read_literal(alloc: Global, line: &[u8]) -> Result<(Nested, &[u8]), NestedError>
    ensures read { (below : ℕ) → 0 < below → Reads below (λ x. (x.0, words x.1.now)) result
        (syntax.read_literal (words line.now)) }
    ensures fewer { IfOk result (λ x. length (words x.1.now) < length (words line.now)) }
{
    match expression::read_literal(alloc, line) {
        Ok((literal, rest)) => Ok((Nested::leaf(literal), rest)),
        Err(e) => Err(NestedError::from(e)),
    }
}

// Returns the line behind the AND or the OR that it begins with.
fn behind(connective: Connective, line: &[u8]) -> Option<&[u8]>
    ensures behind { option_map {U = List Token} (λ rest. words rest.now) result
        ≡ spec.behind (is_and connective) (words line.now) }
    ensures fewer { IfSome result (λ rest. length (words rest.now) < length (words line.now)) }
{
    let (word, rest) = plain_word(line, Expected::Expression).ok()?;
    match shape_of(form_of(word)?) {
        Shape::Chain(found) if found == connective => Some(rest),
        _ => None,
    }
}

// What follows calls itself by way of `read_nested`, once for each level of the expression. It
// matches on what its callees answer, since `?` makes the frame of each call larger.

// Reads the operand of a test.
#[cycle(nested)]
#[inline(never)]
fn read_unary<'a>(
    alloc: Global,
    columns: &Columns,
    test: Unary,
    under: usize,
    line: &'a [u8],
) -> Result<(Nested, &'a [u8]), NestedError>
    requires { under < usize.MAX }
    ensures read { (most : ℕ) → length (words line.now) ≤ most
        → Reads (under + 1) (λ x. (x.0, words x.1.now)) result
        (syntax.read_one (spec.nested_within (named_columns columns.now) most) (unary_of test)
        (words line.now)) }
    ensures fewer { IfOk result (λ x. length (words x.1.now) < length (words line.now)) }
{
    let (x, rest) = match read_nested(alloc, columns, under, line) {
        Ok(found) => found,
        Err(e) => return Err(e),
    };
    match Nested::unary(alloc, test, x, line.len()) {
        Ok(e) => Ok((e, rest)),
        Err(e) => Err(e),
    }
}

// Reads the two operands of a node that joins no chain.
#[cycle(nested)]
#[inline(never)]
fn read_pair<'a>(
    alloc: Global,
    columns: &Columns,
    pair: Pair,
    under: usize,
    line: &'a [u8],
) -> Result<(Nested, &'a [u8]), NestedError>
    requires { under < usize.MAX }
    ensures read { (most : ℕ) → length (words line.now) ≤ most
        → Reads (under + 1) (λ x. (x.0, words x.1.now)) result
        (syntax.read_two (spec.nested_within (named_columns columns.now) most) (pair_of pair)
        (words line.now)) }
    ensures fewer { IfOk result (λ x. length (words x.1.now) < length (words line.now)) }
{
    let (left, behind) = match read_nested(alloc, columns, under, line) {
        Ok(found) => found,
        Err(e) => return Err(e),
    };
    let (right, rest) = match read_nested(alloc, columns, under, behind) {
        Ok(found) => found,
        Err(e) => return Err(e),
    };
    match Nested::pair(alloc, pair, left, right, line.len()) {
        Ok(e) => Ok((e, rest)),
        Err(e) => Err(e),
    }
}

// Reads how the ends of a BETWEEN are compared, its operand and its ends.
#[cycle(nested)]
#[inline(never)]
fn read_between<'a>(
    alloc: Global,
    columns: &Columns,
    under: usize,
    line: &'a [u8],
) -> Result<(Nested, &'a [u8]), NestedError>
    requires { under < usize.MAX }
    ensures read { (most : ℕ) → length (words line.now) ≤ most
        → Reads (under + 1) (λ x. (x.0, words x.1.now)) result
        (syntax.read_between (spec.nested_within (named_columns columns.now) most)
        (words line.now)) }
    ensures fewer { IfOk result (λ x. length (words x.1.now) < length (words line.now)) }
{
    let (options, behind) = match expression::read_options(line) {
        Ok(found) => found,
        Err(e) => return Err(NestedError::from(e)),
    };
    let (x, behind_x) = match read_nested(alloc, columns, under, behind) {
        Ok(found) => found,
        Err(e) => return Err(e),
    };
    let (lower, behind_lower) = match read_nested(alloc, columns, under, behind_x) {
        Ok(found) => found,
        Err(e) => return Err(e),
    };
    let (upper, rest) = match read_nested(alloc, columns, under, behind_lower) {
        Ok(found) => found,
        Err(e) => return Err(e),
    };
    match Nested::between(alloc, options, x, lower, upper, line.len()) {
        Ok(e) => Ok((e, rest)),
        Err(e) => Err(e),
    }
}

// Reads the items of a chain of AND or of OR behind its first word. The same word before an item
// stands for one more item.
#[cycle(nested)]
#[inline(never)]
fn read_items<'a>(
    alloc: Global,
    columns: &Columns,
    connective: Connective,
    under: usize,
    line: &'a [u8],
) -> Result<(Vec<Item>, &'a [u8]), NestedError>
    requires { under < usize.MAX }
    ensures read { (most : ℕ) → length (words line.now) ≤ most
        → ReadsItems (under + 1) (is_and connective) (λ x. (x.0.items, words x.1.now)) result
        (spec.chain_within (named_columns columns.now) (is_and connective) (most ∷ most ∷ [])
        (words line.now)) }
    ensures fewer { IfOk result (λ x. length (words x.1.now) < length (words line.now)) }
{
    let mut items = Vec::new(alloc);
    let mut rest = line;
    let mut count = 2usize;
    'items: while count > 0 {
        match behind(connective, rest) {
            Some(after) => {
                // More items than memory can hold.
                let Some(more) = count.checked_add(1) else {
                    return Err(NestedError::Memory);
                };
                count = more;
                rest = after;
            }
            None => {
                let (item, after) = match read_nested(alloc, columns, under, rest) {
                    Ok(found) => found,
                    Err(e) => return Err(e),
                };
                if !item.is_truth() {
                    return Err(NestedError::Bad);
                }
                let Ok(()) = items.push(Item::new(item)) else {
                    return Err(NestedError::Memory);
                };
                count -= 1;
                rest = after;
            }
        }
    }
    Ok((items, rest))
}

// Reads a chain of AND or of OR behind its first word, and joins it in halves.
#[cycle(nested)]
#[inline(never)]
fn read_chain<'a>(
    alloc: Global,
    columns: &Columns,
    connective: Connective,
    under: usize,
    line: &'a [u8],
) -> Result<(Nested, &'a [u8]), NestedError>
    requires { under < usize.MAX }
    ensures read { (most : ℕ) → length (words line.now) ≤ most
        → Reads (under + 1) (λ x. (x.0, words x.1.now)) result
        (spec.joined_read (is_and connective) (spec.chain_within (named_columns columns.now)
        (is_and connective) (most ∷ most ∷ []) (words line.now))) }
    ensures fewer { IfOk result (λ x. length (words x.1.now) < length (words line.now)) }
{
    let (items, rest) = match read_items(alloc, columns, connective, under, line) {
        Ok(found) => found,
        Err(e) => return Err(e),
    };
    match joined(alloc, connective, under + 1, items) {
        Ok(whole) => Ok((whole, rest)),
        Err(e) => Err(e),
    }
}

/// Reads the expression that a line begins with, joins its chains in halves, and gives the line after
/// it. Refuses an expression with `below` levels or more.
#[cycle(nested)]
pub(crate) fn read_nested<'a>(
    alloc: Global,
    columns: &Columns,
    below: usize,
    line: &'a [u8],
) -> Result<(Nested, &'a [u8]), NestedError>
    ensures read { (most : ℕ) → length (words line.now) ≤ most
        → Reads below (λ x. (x.0, words x.1.now)) result
        (spec.nested_within (named_columns columns.now) most (words line.now)) }
    ensures fewer { IfOk result (λ x. length (words x.1.now) < length (words line.now)) }
{
    if below == 0 {
        return Err(NestedError::TooDeep);
    }
    let (word, rest) = match plain_word(line, Expected::Expression) {
        Ok(found) => found,
        Err(e) => return Err(NestedError::from(e)),
    };
    let Some(form) = form_of(word) else {
        return Err(NestedError::Bad);
    };
    let under = below - 1;
    match shape_of(form) {
        Shape::Column => read_column(alloc, columns, rest),
        Shape::Literal => read_literal(alloc, rest),
        Shape::Unary(test) => read_unary(alloc, columns, test, under, rest),
        Shape::Chain(connective) => read_chain(alloc, columns, connective, under, rest),
        Shape::Pair(pair) => read_pair(alloc, columns, pair, under, rest),
        Shape::Between => read_between(alloc, columns, under, rest),
    }
}
