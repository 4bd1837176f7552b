//! Nodes and scopes for the tests, by calls without a contract that take what other calls answered:
//! a test is one straight line of calls, so its proof stays short.

use std::alloc::{AllocError, Global};
use vortex_base::{
    AggregateFnRef, BaseError, DType, Nullability, PType, Scalar, ScalarValue, Scope, Text,
};
use vortex_expr::{
    BetweenOptions, BoundExpression, LikeOptions, Operator, StrictComparison, bound,
};
use vortex_stats::StatsError;

pub type Built = Result<BoundExpression, StatsError>;

pub const BOOL: DType = DType::Bool(Nullability::NonNullable);

pub const I32: DType = DType::Primitive(PType::I32, Nullability::NonNullable);

pub const I32_OR_NULL: DType = DType::Primitive(PType::I32, Nullability::Nullable);

pub const U64: DType = DType::Primitive(PType::U64, Nullability::NonNullable);

pub const UTF8: DType = DType::Utf8(Nullability::NonNullable);

pub const CLOSED: BetweenOptions = BetweenOptions {
    lower_strict: StrictComparison::NonStrict,
    upper_strict: StrictComparison::NonStrict,
};

pub const OPEN: BetweenOptions = BetweenOptions {
    lower_strict: StrictComparison::Strict,
    upper_strict: StrictComparison::Strict,
};

pub const OPEN_BELOW: BetweenOptions = BetweenOptions {
    lower_strict: StrictComparison::Strict,
    upper_strict: StrictComparison::NonStrict,
};

pub const OPEN_ABOVE: BetweenOptions = BetweenOptions {
    lower_strict: StrictComparison::NonStrict,
    upper_strict: StrictComparison::Strict,
};

/// Takes what the layer below made, its refusals told as this crate's.
pub fn told<T>(made: Result<T, BaseError>) -> Result<T, StatsError> {
    match made {
        Ok(made) => Ok(made),
        Err(BaseError::Memory(refused)) => Err(StatsError::Memory(refused)),
        Err(_) => Err(StatsError::Mismatch),
    }
}

pub fn col(alloc: Global, place: usize, dtype: DType) -> Built {
    told(bound::col(alloc, place, dtype))
}

pub fn scalar(dtype: DType, value: Option<ScalarValue>) -> Result<Scalar, StatsError> {
    told(Scalar::try_new(dtype, value))
}

fn literal(alloc: Global, scalar: Scalar) -> Built {
    told(bound::lit(alloc, scalar))
}

pub fn lit(alloc: Global, dtype: DType, value: ScalarValue) -> Built {
    literal(alloc, scalar(dtype, Some(value))?)
}

/// The null literal of the type made nullable.
pub fn null_of(alloc: Global, dtype: DType) -> Built {
    literal(alloc, scalar(dtype.as_nullable(), None)?)
}

pub fn int(alloc: Global, value: i32) -> Built {
    lit(alloc, I32, ScalarValue::from(value))
}

pub fn truth(alloc: Global, value: bool) -> Built {
    lit(alloc, BOOL, ScalarValue::from(value))
}

pub fn text_value(alloc: Global, value: &str) -> Result<ScalarValue, AllocError> {
    Ok(ScalarValue::Utf8(Text::new(String::from_str(alloc, value)?)))
}

pub fn text(alloc: Global, value: &str) -> Built {
    lit(alloc, UTF8, text_value(alloc, value)?)
}

// The node of two operands.
fn joined(
    alloc: Global,
    operator: Operator,
    left: BoundExpression,
    right: BoundExpression,
) -> Built {
    told(bound::binary(alloc, operator, left, right))
}

pub fn binary(alloc: Global, operator: Operator, left: Built, right: Built) -> Built {
    joined(alloc, operator, left?, right?)
}

pub fn eq(alloc: Global, left: Built, right: Built) -> Built {
    binary(alloc, Operator::Eq, left, right)
}

pub fn not_eq(alloc: Global, left: Built, right: Built) -> Built {
    binary(alloc, Operator::NotEq, left, right)
}

pub fn gt(alloc: Global, left: Built, right: Built) -> Built {
    binary(alloc, Operator::Gt, left, right)
}

pub fn gt_eq(alloc: Global, left: Built, right: Built) -> Built {
    binary(alloc, Operator::Gte, left, right)
}

pub fn lt(alloc: Global, left: Built, right: Built) -> Built {
    binary(alloc, Operator::Lt, left, right)
}

pub fn lt_eq(alloc: Global, left: Built, right: Built) -> Built {
    binary(alloc, Operator::Lte, left, right)
}

pub fn and(alloc: Global, left: Built, right: Built) -> Built {
    binary(alloc, Operator::And, left, right)
}

pub fn or(alloc: Global, left: Built, right: Built) -> Built {
    binary(alloc, Operator::Or, left, right)
}

pub fn not(alloc: Global, x: Built) -> Built {
    told(bound::not(alloc, x?))
}

pub fn is_null(alloc: Global, x: Built) -> Built {
    told(bound::is_null(alloc, x?))
}

pub fn is_not_null(alloc: Global, x: Built) -> Built {
    told(bound::is_not_null(alloc, x?))
}

// The range over three operands.
fn ranged(
    alloc: Global,
    x: BoundExpression,
    lower: BoundExpression,
    upper: BoundExpression,
    options: BetweenOptions,
) -> Built {
    told(bound::between(alloc, x, lower, upper, options))
}

pub fn between(
    alloc: Global,
    x: Built,
    lower: Built,
    upper: Built,
    options: BetweenOptions,
) -> Built {
    ranged(alloc, x?, lower?, upper?, options)
}

// The pattern node of two operands.
fn patterned(
    alloc: Global,
    text: BoundExpression,
    pattern: BoundExpression,
    options: LikeOptions,
) -> Built {
    told(bound::like_with(alloc, text, pattern, options))
}

pub fn like_with(alloc: Global, text: Built, pattern: Built, options: LikeOptions) -> Built {
    patterned(alloc, text?, pattern?, options)
}

pub fn like(alloc: Global, text: Built, pattern: Built) -> Built {
    let options = LikeOptions {
        negated: false,
        case_insensitive: false,
    };
    like_with(alloc, text, pattern, options)
}

pub fn stat(alloc: Global, x: Built, aggregate: AggregateFnRef) -> Built {
    told(bound::new_stat(alloc, x?, aggregate))
}

pub fn min(alloc: Global, x: Built) -> Built {
    stat(alloc, x, AggregateFnRef::Min)
}

pub fn max(alloc: Global, x: Built) -> Built {
    stat(alloc, x, AggregateFnRef::Max)
}

pub fn row_count(alloc: Global) -> Built {
    told(bound::row_count(alloc))
}

/// The two are built, and alike.
pub fn are_same(found: Built, expected: Built) -> Result<bool, StatsError> {
    Ok(found? == expected?)
}

pub fn number(value: i32) -> ScalarValue {
    ScalarValue::from(value)
}

pub fn count(value: u64) -> ScalarValue {
    ScalarValue::from(value)
}

fn no_columns(alloc: Global) -> Vec<(String, DType)> {
    Vec::new(alloc)
}

fn add_column(
    columns: &mut Vec<(String, DType)>,
    name: String,
    dtype: DType,
) -> Result<(), AllocError> {
    Ok(columns.push((name, dtype))?)
}

fn scope(columns: Vec<(String, DType)>) -> Result<Scope, StatsError> {
    told(Scope::try_new(columns))
}

/// The scope of one column.
pub fn scope_named(alloc: Global, name: &str, dtype: DType) -> Result<Scope, StatsError> {
    let mut columns = no_columns(alloc);
    add_column(&mut columns, String::from_str(alloc, name)?, dtype)?;
    scope(columns)
}

/// The scope of one column `a`.
pub fn scope_of(alloc: Global, dtype: DType) -> Result<Scope, StatsError> {
    scope_named(alloc, "a", dtype)
}

/// The scope of two columns.
pub fn scope_of_two(
    alloc: Global,
    first: (&str, DType),
    second: (&str, DType),
) -> Result<Scope, StatsError> {
    let mut columns = no_columns(alloc);
    add_column(&mut columns, String::from_str(alloc, first.0)?, first.1)?;
    add_column(&mut columns, String::from_str(alloc, second.0)?, second.1)?;
    scope(columns)
}
