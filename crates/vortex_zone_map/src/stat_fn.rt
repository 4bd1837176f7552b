//! The function that a placeholder applies: what a set of statistics answers to it.
ghost use Rattle.std.specs.Prelude.{◌≡◌, codes, false, IsTrue};
ghost use Rattle.vortex_expr.specs.Meanings.Typing.{stat_type};
ghost use Rattle.vortex_stats.specs.Sets.Entries.{entries_fit};
ghost use Rattle.vortex_zone_map.specs.StatValues as values;
ghost use Rattle.vortex_zone_map.specs.Told.{told_cell};
ghost use Rattle.vortex_rewrite.specs.Answers.{IfSupported, Makes, supported};

use crate::told::Told;
use std::hash::Hash;
use std::marker::Model;
use vortex_base::aggregate::AggregateFnRef;
use vortex_base::constant_array::ConstantArray;
use vortex_base::dtype::DType;
use vortex_base::pvalue::PValue;
use vortex_base::scalar::Scalar;
use vortex_base::scalar_value::ScalarValue;
use vortex_expr::scalar_fn::ScalarFnId;
use vortex_stats::error::StatsError;
use vortex_stats::precision::Precision;
use vortex_stats::stat::Stat;
use vortex_stats::stats_set::StatsSet;

/// A question that a placeholder asks.
#[derive(Clone, Copy, Debug, PartialEq, Eq, Hash)]
pub struct StatOptions {
    aggregate_fn: AggregateFnRef,
}

impl Model for StatOptions {
    ghost use Rattle.vortex_base.specs.declared.aggregate.AggregateFnRef.{AggregateFnRef};

    ghost Value = { AggregateFnRef };

    ghost view = { λ o. o.aggregate_fn };

    ghost inverse = { λ f. record { aggregate_fn = f } };
}

impl StatOptions {
    /// The options of a placeholder for this aggregate.
    pub fn new(aggregate_fn: AggregateFnRef) -> StatOptions
        ensures { result ≡ aggregate_fn }
    {
        StatOptions { aggregate_fn }
    }

    /// The aggregate.
    pub fn aggregate_fn(&self) -> AggregateFnRef
        ensures { result ≡ self.now }
    {
        self.aggregate_fn
    }
}

/// Equal options hash alike.
pub fn equal_options_hash_alike()
    ensures { (a b : StatOptions) → IsTrue (⟦<StatOptions as PartialEq>⟧.eq a b)
        → ⟦<StatOptions as Hash>⟧.hash_input a ≡ ⟦<StatOptions as Hash>⟧.hash_input b }
{}

/// The function of a placeholder. It has one child, the input, whose values it does not read: it
/// answers from the statistics of the input.
#[derive(Clone, Copy)]
pub struct StatFn;

impl StatFn {
    /// The function's id.
    pub fn id() -> ScalarFnId
        ensures { result ≡ ScalarFnId.Stat }
    {
        ScalarFnId::Stat
    }

    /// The number of children.
    pub fn arity(_options: &StatOptions) -> usize
        ensures { result ≡ 1 }
    {
        1
    }

    /// The name of a child, of which there is one, at 0.
    pub fn child_name(_options: &StatOptions, index: usize) -> &'static str
        requires { index ≡ 0 }
        ensures { result.now ≡ codes "input" }
    {
        prove!(index == 0);
        "input"
    }

    /// Whether a null input makes the answer null.
    pub fn is_strict(_options: &StatOptions) -> bool
        ensures { result ≡ false }
    {
        false
    }

    /// The type of the answer over an input of this type: that of the aggregate's state, with null.
    /// `Unsupported` where the aggregate does not support the type.
    pub fn return_dtype(options: &StatOptions, dtype: &DType) -> Result<DType, StatsError>
        ensures { result ≡ supported (stat_type options.now dtype.now) }
    {
        answer_dtype(options.aggregate_fn, dtype)
    }

    /// The answer of a set of statistics, which `StatsSet::fits` tells to fit the type, for a
    /// column of this type: one value, or null where it tells none, for each of the rows.
    /// `Unsupported` where the aggregate does not support the type.
    pub fn execute(
        options: &StatOptions,
        stats: &StatsSet,
        dtype: &DType,
        rows: u64,
    ) -> Result<ConstantArray, StatsError>
        requires { IsTrue (entries_fit stats.now dtype.now) }
        ensures { let v = values.stat_value options.now stats.now rows in
            IfSupported (stat_type options.now dtype.now)
            (λ t. record { scalar = record { dtype = t; value = v }; len = rows }) result }
    {
        let scalar = scalar_of(options.aggregate_fn, stats, dtype, rows)?;
        Ok(ConstantArray::new(scalar, rows))
    }

    /// The statistic by which `told` answers for an aggregate, or `None` where nothing is ever
    /// told of it.
    pub fn reads(aggregate: AggregateFnRef) -> Option<Stat>
        ensures { result ≡ values.read_stat aggregate }
    {
        match aggregate {
            AggregateFnRef::Max => Some(Stat::Max),
            AggregateFnRef::Min => Some(Stat::Min),
            AggregateFnRef::Sum => Some(Stat::Sum),
            AggregateFnRef::NullCount | AggregateFnRef::AllNull | AggregateFnRef::AllNonNull => {
                Some(Stat::NullCount)
            }
            AggregateFnRef::UncompressedSizeInBytes => Some(Stat::UncompressedSizeInBytes),
            AggregateFnRef::MinMax | AggregateFnRef::NanCount => None,
        }
    }

    /// The answer of a column of so many rows to an aggregate, where the statistic that `reads`
    /// names has this value: the value of `execute`, for who has no set. It is for the cells of a
    /// table that `ZoneMap::of_table` takes.
    pub fn told(
        aggregate: AggregateFnRef,
        value: Precision<ScalarValue>,
        rows: u64,
    ) -> Option<ScalarValue>
        ensures { result ≡ values.told_value aggregate value rows }
    {
        match value {
            Precision::Exact(value) => {
                cell_of(Told::of(aggregate, true, count_of(&value), rows), value)
            }
            Precision::Inexact(value) => {
                cell_of(Told::of(aggregate, false, count_of(&value), rows), value)
            }
            Precision::Absent => None,
        }
    }
}

fn answer_dtype(aggregate: AggregateFnRef, dtype: &DType) -> Result<DType, StatsError>
    ensures { result ≡ supported (stat_type aggregate dtype.now) }
{
    match aggregate.state_dtype(dtype) {
        Some(state) => Ok(state.as_nullable()),
        None => Err(StatsError::Unsupported),
    }
}

// The answer of the set, with the answer's type.
pub fn scalar_of(
    aggregate: AggregateFnRef,
    stats: &StatsSet,
    dtype: &DType,
    rows: u64,
) -> Result<Scalar, StatsError>
    requires { IsTrue (entries_fit stats.now dtype.now) }
    ensures { let v = values.stat_value aggregate stats.now rows in
        IfSupported (stat_type aggregate dtype.now) (λ t. record { dtype = t; value = v }) result }
{
    let answer = answer_dtype(aggregate, dtype)?;
    let value = stat_value(aggregate, stats, rows)?;
    match Scalar::try_new(answer, value) {
        Ok(scalar) => Ok(scalar),
        Err(_) => unreachable!(),
    }
}

pub(crate) fn stat_value(
    aggregate: AggregateFnRef,
    stats: &StatsSet,
    rows: u64,
) -> Result<Option<ScalarValue>, StatsError>
    ensures { Makes (values.stat_value aggregate stats.now rows) result }
{
    match StatFn::reads(aggregate) {
        None => Ok(None),
        Some(stat) => Ok(StatFn::told(aggregate, stats.get(stat)?, rows)),
    }
}

// The count that a value is, if it is one.
fn count_of(value: &ScalarValue) -> Option<u64>
    ensures { result ≡ values.count_of value.now }
{
    match value {
        ScalarValue::Primitive(PValue::U64(count)) => Some(*count),
        _ => None,
    }
}

// The value of a cell of which this is told.
fn cell_of(told: Told, value: ScalarValue) -> Option<ScalarValue>
    ensures { result ≡ told_cell value told }
{
    match told {
        Told::Value => Some(value),
        Told::Truth(truth) => Some(ScalarValue::Bool(truth)),
        Told::Nothing => None,
    }
}
