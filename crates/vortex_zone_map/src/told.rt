//! The one rule by which a known value of a statistic tells a table something.
ghost use Rattle.std.specs.Prelude.{◌≡◌, if◌then◌else◌, ℕ};
ghost use Rattle.vortex_zone_map.specs.Told.{IsToldOf};
ghost use Rattle.vortex_base.specs.declared.aggregate.AggregateFnRef.TheVariants as aggregates;

use vortex_base::aggregate::AggregateFnRef;

/// The answer of a value that is known of a statistic to an aggregate.
#[derive(Clone, Copy, Debug)]
pub enum Told {
    /// The value itself.
    Value,
    /// A truth about it.
    Truth(bool),
    /// Nothing, so the cell is null.
    Nothing,
}

// The value, if it is told.
#[inline]
fn value_if(is_told: bool) -> Told
    ensures { result ≡ (if is_told then Told.Value else Told.Nothing) }
{
    if is_told { Told::Value } else { Told::Nothing }
}

// Whether every value is null. A count that isn't exact bounds the nulls from above, so it tells
// only where it is below the number of rows.
#[inline]
fn is_all_null(is_exact: bool, count: Option<u64>, rows: u64) -> Told
    ensures { IsToldOf aggregates.AllNull is_exact count rows result }
{
    match count {
        Some(count) if is_exact => Told::Truth(count == rows),
        Some(count) if count < rows => Told::Truth(false),
        _ => Told::Nothing,
    }
}

// Whether no value is null. A count that isn't exact tells only where it is 0.
#[inline]
fn is_all_non_null(is_exact: bool, count: Option<u64>) -> Told
    ensures { (rows : ℕ) → IsToldOf aggregates.AllNonNull is_exact count rows result }
{
    match count {
        Some(count) if is_exact => Told::Truth(count == 0),
        Some(0) => Told::Truth(true),
        _ => Told::Nothing,
    }
}

impl Told {
    /// Says what a known value of the statistic that `StatFn::reads` names tells for an aggregate
    /// of a column of so many rows: by whether the value is exact, and by the count that it is, if
    /// it is one. So it serves values of whatever type they are read as.
    #[inline]
    pub fn of(aggregate: AggregateFnRef, is_exact: bool, count: Option<u64>, rows: u64) -> Told
        ensures { IsToldOf aggregate is_exact count rows result }
    {
        match aggregate {
            AggregateFnRef::Max | AggregateFnRef::Min => Told::Value,
            AggregateFnRef::Sum | AggregateFnRef::UncompressedSizeInBytes => value_if(is_exact),
            AggregateFnRef::NullCount => value_if(is_exact || matches!(count, Some(0))),
            AggregateFnRef::AllNull => is_all_null(is_exact, count, rows),
            AggregateFnRef::AllNonNull => is_all_non_null(is_exact, count),
            AggregateFnRef::MinMax | AggregateFnRef::NanCount => Told::Nothing,
        }
    }
}
