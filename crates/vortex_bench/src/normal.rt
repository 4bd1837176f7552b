// Normal forms of long chains.
use anyhow::Result;
use std::alloc::Global;
use vortex_base::dtype::DType;
use vortex_base::error::BaseError;
use vortex_base::scalar::Scalar;
use vortex_base::scalar_value::ScalarValue;
use vortex_base::types::{Nullability, PType};
use vortex_expr::bound;
use vortex_expr::bound_expression::BoundExpression;
use vortex_expr::scalar_fn::Operator;
use vortex_normal::normalize::normalize;

const NUMBER: DType = DType::Primitive(PType::I64, Nullability::NonNullable);

const REPEATS: u32 = 20;

// A column compared with a number.
fn compared(
    alloc: Global,
    operator: Operator,
    place: usize,
    number: i64,
) -> Result<BoundExpression, BaseError> {
    let column = bound::col(alloc, place, NUMBER)?;
    let literal = Scalar::try_new(NUMBER, Some(ScalarValue::from(number)))?;
    bound::binary(alloc, operator, column, bound::lit(alloc, literal)?)
}

// Neighbours joined by OR; the last of an odd number stays as it is.
fn paired(alloc: Global, tests: Vec<BoundExpression>) -> Result<Vec<BoundExpression>> {
    let mut pairs = Vec::new(alloc);
    let mut odd = None;
    for test in tests {
        odd = match odd {
            None => Some(test),
            Some(first) => {
                pairs.push(bound::or(alloc, first, test)?)?;
                None
            }
        };
    }
    if let Some(last) = odd {
        pairs.push(last)?;
    }
    Ok(pairs)
}

// Some joined by OR, as many turns as join 2^32 of them.
fn either(alloc: Global, tests: Vec<BoundExpression>) -> Result<BoundExpression> {
    let mut left = tests;
    for _ in 0..32 {
        left = paired(alloc, left)?;
    }
    match left.pop() {
        Some(only) => Ok(only),
        None => Ok(compared(alloc, Operator::Eq, 0, 0)?),
    }
}

/// An OR of so many values of one column, in no order.
pub fn values(alloc: Global, count: u32) -> Result<BoundExpression> {
    let mut tests = Vec::new(alloc);
    for place in 0..count {
        let number = i64::from(place).wrapping_mul(7_919) % 1_000_003;
        tests.push(compared(alloc, Operator::Eq, 0, number)?)?;
    }
    either(alloc, tests)
}

/// An OR of a comparison of each of so many columns.
pub fn columns(alloc: Global, count: u32) -> Result<BoundExpression> {
    let mut tests = Vec::new(alloc);
    for place in 0..count as usize {
        tests.push(compared(alloc, Operator::Gt, place, 5)?)?;
    }
    either(alloc, tests)
}

/// A chain over one column of so many links, AND and OR by turns, whose set grows at each OR.
pub fn turns(alloc: Global, count: u32) -> Result<BoundExpression> {
    let mut chain = compared(alloc, Operator::Eq, 0, 0)?;
    for link in 1..count {
        let number = i64::from(link);
        chain = if link % 2 == 0 {
            let hole = compared(alloc, Operator::NotEq, 0, number)?;
            bound::and(alloc, chain, hole)?
        } else {
            let value = compared(alloc, Operator::Eq, 0, number)?;
            bound::or(alloc, chain, value)?
        };
    }
    Ok(chain)
}

/// How many sides the normal form of a predicate has: the last of some, one after another.
pub fn normalized_often(alloc: Global, predicate: &BoundExpression) -> Result<usize> {
    let mut sides = 0;
    for _ in 0..REPEATS {
        sides = normalize(alloc, predicate)?.child_count();
    }
    Ok(sides)
}

/// How many sides a predicate has that is made and not normalized.
pub fn only_made(predicate: &BoundExpression) -> usize {
    predicate.child_count()
}
