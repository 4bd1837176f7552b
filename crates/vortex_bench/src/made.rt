// What several workloads make.
use std::alloc::Global;
use vortex_base::column::Column;
use vortex_base::dtype::DType;
use vortex_base::error::BaseError;
use vortex_base::scalar::Scalar;
use vortex_base::scalar_value::ScalarValue;
use vortex_base::scope::Scope;
use vortex_base::types::{Nullability, PType};
use vortex_expr::bound;
use vortex_expr::bound_expression::BoundExpression;
use vortex_stats::error::StatsError;
use vortex_stats::precision::Precision;
use vortex_stats::stat::Stat;
use vortex_stats::stats_set::StatsSet;

/// The type of columns of numbers.
pub const NUMBER: DType = DType::Primitive(PType::I64, Nullability::NonNullable);

/// The scope of so many columns of numbers.
pub fn scope_of(alloc: Global, count: usize) -> Result<Scope, BaseError> {
    let mut columns = Vec::new(alloc);
    for place in 0..count {
        columns.push((format!(in alloc; "c{place}")?, NUMBER))?;
    }
    Scope::try_new(columns)
}

/// The bounds of a column of numbers.
pub fn bounds(alloc: Global, least: i64, most: i64) -> Result<StatsSet, StatsError> {
    let mut set = StatsSet::of(alloc, Stat::Min, Precision::Exact(ScalarValue::from(least)));
    set.set(Stat::Max, Precision::Exact(ScalarValue::from(most)))?;
    Ok(set)
}

/// Tells that there are no nulls.
pub fn tell_no_nulls(set: &mut StatsSet) -> Result<(), StatsError> {
    set.set(Stat::NullCount, Precision::Exact(ScalarValue::from(0_u64)))
}

/// A column above a number.
pub fn above(alloc: Global, place: usize, number: i64) -> Result<BoundExpression, BaseError> {
    let column = bound::col(alloc, place, NUMBER)?;
    let least = Scalar::try_new(NUMBER, Some(ScalarValue::from(number)))?;
    bound::gt(alloc, column, bound::lit(alloc, least)?)
}

/// Adds a column that was made.
pub fn add(columns: &mut Vec<Column>, column: Result<Column, BaseError>) -> Result<(), BaseError> {
    columns.push(column?)?;
    Ok(())
}
