//! Answers of sets of statistics to each aggregate, and the name of the function that gives them.
use std::alloc::Global;
use std::process::Abort;
use vortex_base::types::Element;
use vortex_base::{AggregateFnRef, ConstantArray, DType, Nullability, PType, ScalarValue};
use vortex_expr::ScalarFnId;
use vortex_stats::{Precision, Stat, StatsError, StatsSet};
use vortex_testing::nodes::*;
use vortex_testing::parts::*;
use vortex_zone_map::{StatFn, StatOptions};

const I64: DType = DType::Primitive(PType::I64, Nullability::Nullable);

const COUNT: DType = DType::Primitive(PType::U64, Nullability::Nullable);

const TRUTH: DType = DType::Bool(Nullability::Nullable);

const STATE: DType = DType::MinMaxState(Element::Primitive(PType::I32), Nullability::Nullable);

const TEXT: DType = DType::Utf8(Nullability::Nullable);

// The answer of a set that fits the type, at each of three rows.
fn answer(
    set: &StatsSet,
    dtype: DType,
    aggregate: AggregateFnRef,
) -> Result<ConstantArray, StatsError> {
    if !set.fits(&dtype) {
        return Err(StatsError::Mismatch);
    }
    StatFn::execute(&StatOptions::new(aggregate), set, &dtype, 3)
}

// The answer through the one statistic that is read.
fn told_alone(
    set: &StatsSet,
    aggregate: AggregateFnRef,
) -> Result<Option<ScalarValue>, StatsError> {
    match StatFn::reads(aggregate) {
        Some(stat) => Ok(StatFn::told(aggregate, set.get(stat)?, 3)),
        None => Ok(StatFn::told(aggregate, Precision::Absent, 3)),
    }
}

fn repeated(dtype: DType, value: Option<ScalarValue>) -> Result<ConstantArray, StatsError> {
    Ok(ConstantArray::new(scalar(dtype, value)?, 3))
}

// The set answers with this value at each of three rows, and so does the one statistic alone.
fn expect(
    rt: &impl Abort,
    set: Sets,
    (of, aggregate): (DType, AggregateFnRef),
    dtype: DType,
    value: Option<ScalarValue>,
) {
    let set = set.expect(rt, "a set");
    let expected = repeated(dtype, value).expect(rt, "an array");
    let told = told_alone(&set, aggregate).expect(rt, "a value");
    assert!(rt; expected.scalar().value() == told.as_ref());
    assert!(rt; answer(&set, of, aggregate).expect(rt, "an answer") == expected);
}

fn counted(alloc: Global, nulls: u64) -> Sets {
    Ok(exactly(alloc, Stat::NullCount, count(nulls)))
}

#[test]
fn bounds_and_sums_are_answered(rt: HostRuntime) {
    let alloc = rt.alloc();
    let (min, max) = ((I32, AggregateFnRef::Min), (I32, AggregateFnRef::Max));
    expect(&rt, bounds(alloc, 1, 3), min, I32_OR_NULL, Some(number(1)));
    expect(&rt, bounds(alloc, 1, 3), max, I32_OR_NULL, Some(number(3)));
    let pair = (I32, AggregateFnRef::MinMax);
    expect(&rt, bounds(alloc, 1, 3), pair, STATE, None);
    let six = exactly(alloc, Stat::Sum, ScalarValue::from(6i64));
    let sum = (I32, AggregateFnRef::Sum);
    expect(&rt, Ok(six), sum, I64, Some(ScalarValue::from(6i64)));
    expect(&rt, Ok(no_statistics(alloc)), sum, I64, None);
    let pear = text_value(alloc, "pear").expect(&rt, "a text");
    let greatest = (UTF8, AggregateFnRef::Max);
    expect(
        &rt,
        text_bounds(alloc, "fig", "pear"),
        greatest,
        TEXT,
        Some(pear),
    );
}

#[test]
fn counts_and_truths_are_answered(rt: HostRuntime) {
    let alloc = rt.alloc();
    let nulls = (I32, AggregateFnRef::NullCount);
    expect(&rt, counted(alloc, 2), nulls, COUNT, Some(count(2)));
    let all_null = (I32, AggregateFnRef::AllNull);
    expect(
        &rt,
        counted(alloc, 3),
        all_null,
        TRUTH,
        Some(ScalarValue::Bool(true)),
    );
    let no_null = (I32, AggregateFnRef::AllNonNull);
    expect(
        &rt,
        counted(alloc, 3),
        no_null,
        TRUTH,
        Some(ScalarValue::Bool(false)),
    );
    let bytes = exactly(alloc, Stat::UncompressedSizeInBytes, count(12));
    let size = (I32, AggregateFnRef::UncompressedSizeInBytes);
    expect(&rt, Ok(bytes), size, COUNT, Some(count(12)));
}

fn options(aggregate: AggregateFnRef) -> StatOptions {
    StatOptions::new(aggregate)
}

#[test]
fn name_the_function_and_its_child(rt: HostRuntime) {
    let sum = options(AggregateFnRef::Sum);
    assert!(rt; sum.aggregate_fn() == AggregateFnRef::Sum);
    assert!(rt; sum != options(AggregateFnRef::Max));
    assert!(rt; StatFn::id() == ScalarFnId::Stat);
    assert!(rt; StatFn::arity(&sum) == 1);
    assert!(rt; StatFn::child_name(&sum, 0) == "input");
    assert!(rt; !StatFn::is_strict(&sum));
    let dtype = StatFn::return_dtype(&sum, &I32).expect(&rt, "a type");
    assert!(rt; dtype == I64);
}
