//! Parts of a condition that were read, with their height.
use crate::syntax::error::ParseError;
use crate::syntax::tree::{Condition, Leaf, Operand, Test};
use std::alloc::Global;
use vortex_expr::scalar_fn::Connective;

/// How many levels a condition has at most, and how many parentheses and NOTs may be open.
pub const MAX_LEVELS: usize = 64;

/// A condition and how many levels are below its top.
#[derive(Drop)]
pub(crate) struct Built {
    condition: Box<Condition>,
    height: usize,
}

/// An operand or a condition that was read.
#[derive(Drop)]
pub(crate) enum Form {
    Operand(Operand),
    Condition(Built),
}

/// A condition over one other.
#[derive(Clone, Copy)]
pub(crate) enum Unary {
    Not,
    IsNull,
    IsTrue,
    IsFalse,
}

// Returns a condition over parts of a height, or refuses it at a place.
fn over_parts(
    alloc: Global,
    place: usize,
    below: usize,
    condition: Condition,
) -> Result<Built, ParseError> {
    let condition = Box::new(alloc, condition)?;
    if below >= MAX_LEVELS {
        return Err(ParseError::TooDeep(place));
    }
    Ok(Built {
        condition,
        height: below.saturating_add(1),
    })
}

// Returns a test that stands between two places.
fn leaf(alloc: Global, test: Test, start: usize, end: usize) -> Result<Built, ParseError> {
    let condition = Box::new(alloc, Condition::Leaf(Leaf { test, start, end }))?;
    Ok(Built {
        condition,
        height: 0,
    })
}

fn unary_of(unary: Unary, inner: Box<Condition>) -> Condition {
    match unary {
        Unary::Not => Condition::Not(inner),
        Unary::IsNull => Condition::IsNull(inner),
        Unary::IsTrue => Condition::IsTrue(inner),
        Unary::IsFalse => Condition::IsFalse(inner),
    }
}

fn pair_of(connective: Connective, left: Box<Condition>, right: Box<Condition>) -> Condition {
    match connective {
        Connective::And => Condition::And(left, right),
        Connective::Or => Condition::Or(left, right),
    }
}

/// Returns two conditions joined, of which the second ends at a place.
pub(crate) fn joined(
    alloc: Global,
    place: usize,
    connective: Connective,
    left: Built,
    right: Built,
) -> Result<Built, ParseError> {
    let Built {
        condition: first,
        height,
    } = left;
    let Built {
        condition: second,
        height: other,
    } = right;
    over_parts(
        alloc,
        place,
        height.max(other),
        pair_of(connective, first, second),
    )
}

/// Returns the condition itself.
pub(crate) fn condition_in(built: Built) -> Condition {
    let Built { condition, .. } = built;
    Box::into_inner(condition)
}

// Returns what was read as an operand. A condition isn't read as one.
fn operand_of(form: Form) -> Operand {
    match form {
        Form::Operand(operand) => operand,
        Form::Condition(_) => Operand::Other,
    }
}

/// Takes what was read as an operand.
pub(crate) fn take_operand(form: &mut Form) -> Operand {
    operand_of(std::mem::replace(form, Form::Operand(Operand::Other)))
}

/// Takes what was read between two places as a condition.
pub(crate) fn take_condition(
    alloc: Global,
    form: &mut Form,
    start: usize,
    end: usize,
) -> Result<Built, ParseError> {
    match std::mem::replace(form, Form::Operand(Operand::Other)) {
        Form::Condition(built) => Ok(built),
        Form::Operand(operand) => leaf(alloc, Test::Truth(operand), start, end),
    }
}

/// Puts an operand for what was read.
pub(crate) fn put_operand(form: &mut Form, operand: Operand) {
    let _ = std::mem::replace(form, Form::Operand(operand));
}

/// Puts a condition for what was read.
pub(crate) fn put(form: &mut Form, built: Built) {
    let _ = std::mem::replace(form, Form::Condition(built));
}

/// Puts a test for what was read.
pub(crate) fn put_test(
    alloc: Global,
    form: &mut Form,
    test: Test,
    start: usize,
    end: usize,
) -> Result<(), ParseError> {
    put(form, leaf(alloc, test, start, end)?);
    Ok(())
}

/// Tells whether a test was read of which each operand is a column or a literal.
pub(crate) fn has_operands(form: &Form) -> bool {
    let Form::Condition(built) = form else {
        return false;
    };
    match &*built.condition {
        Condition::Leaf(leaf) => leaf.test.has_operands(),
        _ => true,
    }
}

/// Puts a condition over what was read between two places.
pub(crate) fn wrap(
    alloc: Global,
    form: &mut Form,
    unary: Unary,
    start: usize,
    end: usize,
) -> Result<(), ParseError> {
    let Built { condition, height } = take_condition(alloc, form, start, end)?;
    put(
        form,
        over_parts(alloc, end, height, unary_of(unary, condition))?,
    );
    Ok(())
}
