// The workloads.
ghost use Rattle.std.specs.Prelude.{◌≤◌, IfOk};

use crate::made::{NUMBER, add, bounds, scope_of, tell_no_nulls};
use std::alloc::{AllocError, Global};
use vortex_base::chunk::Chunk;
use vortex_base::column::Column;
use vortex_base::error::BaseError;
use vortex_base::scalar_value::ScalarValue;
use vortex_expr::bound;
use vortex_expr::bound_expression::BoundExpression;
use vortex_expr::evaluate::evaluate;
use vortex_expr::like::LikeOptions;
use vortex_stats::error::StatsError;
use vortex_stats::precision::Precision;
use vortex_stats::stat::Stat;
use vortex_stats::stats_set::StatsSet;

const TEXTS: u32 = 100;

const LETTERS: u32 = 20_000;

const ROWS: i64 = 1_000_000;

/// How many of some texts of `a` alone match patterns that end in another letter: none.
pub fn count_like(alloc: Global) -> Result<usize, AllocError>
    ensures { IfOk result (λ n. n ≤ TEXTS) }
{
    let mut text = String::new(alloc);
    for _ in 0..LETTERS {
        text.push_str("a")?;
    }
    let options = LikeOptions {
        negated: false,
        case_insensitive: false,
    };
    let matched = (0..TEXTS).filter(|_| options.matches(text.as_str(), "%a%a%a%a%b"));
    Ok(matched.count())
}

// The numbers from 0 on, or as far below 0.
fn numbers(alloc: Global, is_ascending: bool) -> Result<Column, BaseError> {
    let mut values = Vec::new(alloc);
    for n in 0..ROWS {
        let value = if is_ascending { n } else { n.wrapping_neg() };
        values.push(Some(ScalarValue::from(value)))?;
    }
    Column::try_new(NUMBER, values, 0)
}

// The ascending numbers and the descending ones.
fn both_columns(alloc: Global) -> Result<Vec<Column>, BaseError> {
    let mut columns = Vec::new(alloc);
    add(&mut columns, numbers(alloc, true))?;
    add(&mut columns, numbers(alloc, false))?;
    Ok(columns)
}

fn chunk(alloc: Global) -> Result<Chunk, BaseError> {
    let scope = scope_of(alloc, 2)?;
    Chunk::try_new(scope, both_columns(alloc)?)
}

// Whether the first column is above the second.
fn is_above(alloc: Global) -> Result<BoundExpression, BaseError> {
    let left = bound::col(alloc, 0, NUMBER)?;
    bound::gt(alloc, left, bound::col(alloc, 1, NUMBER)?)
}

fn is_true(value: Option<ScalarValue>) -> bool {
    matches!(value, Some(ScalarValue::Bool(true)))
}

// How many rows a predicate selects.
fn count_selected(
    alloc: Global,
    chunk: &Chunk,
    predicate: &BoundExpression,
) -> Result<usize, BaseError> {
    let mut selected = Vec::new(alloc);
    for row in 0..chunk.rows() {
        if is_true(evaluate(predicate, &chunk.row(row), chunk.rows() as u64)?) {
            selected.push(row)?;
        }
    }
    Ok(selected.len())
}

/// On how many rows the first of two columns is above the second.
pub fn count_evaluated(alloc: Global) -> Result<usize, BaseError> {
    let chunk = chunk(alloc)?;
    let predicate = is_above(alloc)?;
    count_selected(alloc, &chunk, &predicate)
}

// The statistics of a column of numbers.
fn number_set(alloc: Global, least: i64, most: i64) -> Result<StatsSet, StatsError> {
    let mut set = bounds(alloc, least, most)?;
    tell_no_nulls(&mut set)?;
    Ok(set)
}

/// The length of a set whose values were written a million times.
pub fn set_often(alloc: Global) -> Result<usize, StatsError> {
    let mut set = number_set(alloc, 0, 1)?;
    for n in 0..ROWS {
        set.set(Stat::NullCount, Precision::Exact(ScalarValue::from(n)))?;
    }
    Ok(set.len())
}

// Whether a value is there.
fn has(set: &StatsSet, stat: Stat) -> Result<bool, StatsError> {
    Ok(!set.get(stat)?.is_absent())
}

fn get_both(set: &StatsSet) -> Result<usize, StatsError> {
    for _ in 0..ROWS {
        if !has(set, Stat::NullCount)? || has(set, Stat::Sum)? {
            return Ok(0);
        }
    }
    Ok(set.len())
}

/// The length of a set that was asked a million times for a value that is there and one that isn't.
pub fn get_often(alloc: Global) -> Result<usize, StatsError> {
    get_both(&number_set(alloc, 0, 1)?)
}

fn merged(set: StatsSet, other: &StatsSet) -> Result<StatsSet, StatsError> {
    if !set.fits(&NUMBER) || !other.fits(&NUMBER) {
        return Err(StatsError::Mismatch);
    }
    match set.merge_ordered(other, &NUMBER) {
        Ok(merged) => Ok(merged),
        Err(refused) => Err(refused.error),
    }
}

/// The length of a set into which another was merged a million times.
pub fn merge_often(alloc: Global) -> Result<usize, StatsError> {
    let mut set = number_set(alloc, 0, 1)?;
    let other = number_set(alloc, -1, 1)?;
    for _ in 0..ROWS {
        set = merged(set, &other)?;
    }
    Ok(set.len())
}
