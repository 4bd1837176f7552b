//! Parts that are measured from their chunks.
use super::*;
use vortex_base::{Bytes, DType, Nullability, PType};
use vortex_prune::MeasureRefused;

type Value = Result<Option<ScalarValue>, AllocError>;

const TEXT_OR_NULL: DType = DType::Utf8(Nullability::Nullable);

fn whole(ptype: PType) -> DType {
    DType::Primitive(ptype, Nullability::Nullable)
}

fn measured_chunk(
    alloc: Global,
    chunk: Result<Chunk, StatsError>,
) -> Result<Result<Part, MeasureRefused>, StatsError> {
    Ok(Part::measured(alloc, chunk?))
}

fn measured(alloc: Global, chunk: Result<Chunk, StatsError>) -> Made {
    match measured_chunk(alloc, chunk)? {
        Ok(part) => Ok(part),
        Err(refused) => Err(StatsError::Memory(refused.error)),
    }
}

// The greatest value, a null and the least value.
fn around_null(alloc: Global, least: Value, greatest: Value) -> Result<ArrayData, AllocError> {
    let mut values = one_value(alloc, greatest?)?;
    push_null_and(&mut values, least)?;
    Ok(values)
}

fn push_null_and(values: &mut ArrayData, last: Value) -> Result<(), AllocError> {
    values.push(None)?;
    values.push(last?)?;
    Ok(())
}

// Whether the statistic is exactly the value, and not there if there is none.
fn is_known(part: &Part, stat: Stat, value: Value) -> Result<bool, StatsError> {
    match value? {
        Some(value) => Ok(statistic(part, 0, stat)? == Precision::Exact(value)),
        None => Ok(statistic(part, 0, stat)?.is_absent()),
    }
}

fn number_of(ptype: PType, greatest: bool) -> ScalarValue {
    let (unsigned, signed) = if greatest { (250u8, 5i8) } else { (3u8, -3i8) };
    match ptype {
        PType::U8 => ScalarValue::from(unsigned),
        PType::U16 => ScalarValue::from(u16::from(unsigned)),
        PType::U32 => ScalarValue::from(u32::from(unsigned)),
        PType::U64 => ScalarValue::from(u64::from(unsigned)),
        PType::I8 => ScalarValue::from(signed),
        PType::I16 => ScalarValue::from(i16::from(signed)),
        PType::I32 => ScalarValue::from(i32::from(signed)),
        PType::I64 => ScalarValue::from(i64::from(signed)),
    }
}

// A value of the type: of two the less or the greater. By their bytes `z` is less than `é`.
fn value_of(alloc: Global, dtype: DType, greatest: bool) -> Value {
    match dtype {
        DType::Bool(_) => Ok(Some(ScalarValue::Bool(greatest))),
        DType::Primitive(ptype, _) => Ok(Some(number_of(ptype, greatest))),
        DType::Utf8(_) => Ok(Some(text_value(alloc, if greatest { "é" } else { "z" })?)),
        DType::Binary(_) => {
            let bytes = Vec::from_array(alloc, [if greatest { 200u8 } else { 100u8 }])?;
            Ok(Some(ScalarValue::Binary(Bytes::new(bytes))))
        }
        DType::Null | DType::MinMaxState(_, _) => Ok(None),
    }
}

fn column_around_null(alloc: Global, dtype: DType) -> Result<vortex_base::Column, StatsError> {
    let least = value_of(alloc, dtype, false);
    let values = around_null(alloc, least, value_of(alloc, dtype, true));
    column(dtype, values, 24)
}

// Whether of the greater value, a null and the less one all is measured, and true.
fn measures(alloc: Global, dtype: DType, nulls: u64) -> Result<bool, StatsError> {
    let chunk = chunk_of(
        alloc,
        scope_of(alloc, dtype),
        column_around_null(alloc, dtype),
    );
    let part = measured(alloc, chunk)?;
    Ok(
        is_known(&part, Stat::Min, value_of(alloc, dtype, false))?
            && is_known(&part, Stat::Max, value_of(alloc, dtype, true))?
            && is_known(&part, Stat::NullCount, Ok(Some(count(nulls))))?
            && is_known(&part, Stat::UncompressedSizeInBytes, Ok(Some(count(24))))?
            && part.is_true(),
    )
}

#[test]
fn each_type_is_measured(rt: HostRuntime) {
    let alloc = rt.alloc();
    let types = [
        DType::Bool(Nullability::Nullable),
        whole(PType::U8),
        whole(PType::U16),
        whole(PType::U32),
        whole(PType::U64),
        whole(PType::I8),
        whole(PType::I16),
        whole(PType::I32),
        whole(PType::I64),
        TEXT_OR_NULL,
        DType::Binary(Nullability::Nullable),
    ];
    for dtype in types {
        assert!(rt; measures(alloc, dtype, 1).expect(&rt, "an answer"));
    }
    assert!(rt; measures(alloc, DType::Null, 3).expect(&rt, "an answer"));
}

// A number, a null and another number beside a text, a null and another text.
fn numbers_and_texts(alloc: Global) -> Result<Chunk, StatsError> {
    let scope = scope_of_two(alloc, ("a", I32_OR_NULL), ("b", TEXT_OR_NULL));
    let numbers = column_around_null(alloc, I32_OR_NULL);
    chunk_of_two(
        alloc,
        scope,
        numbers,
        column_around_null(alloc, TEXT_OR_NULL),
    )
}

fn printed_chunk(alloc: Global, chunk: &Chunk) -> Result<String, StatsError> {
    Ok(format!(in alloc; "{chunk:?}")?)
}

fn looks_of(alloc: Global, chunk: Result<Chunk, StatsError>) -> Result<String, StatsError> {
    printed_chunk(alloc, &chunk?)
}

// Whether what was measured is true, or the chunk came back and looks so, and the column of texts
// was told if any was.
fn is_measured_or_back(
    alloc: Global,
    answer: &Result<Part, MeasureRefused>,
    looks: &str,
) -> Result<bool, StatsError> {
    match answer {
        Ok(part) => Ok(part.is_true() && printed_chunk(alloc, part.chunk())?.as_str() == looks),
        Err(refused) => Ok(
            matches!(refused.column, None | Some(1))
                && printed_chunk(alloc, &refused.chunk)?.as_str() == looks,
        ),
    }
}

// Where a request for memory within the call is refused, the chunk comes back as it was.
#[test]
fn refused_measures_hand_back(rt: HostRuntime) -> Result<(), Fail> {
    let alloc = rt.alloc();
    // What it is compared with is made before, so a refusal of its own ends the test.
    let looks = looks_of(alloc, numbers_and_texts(alloc))?;
    let answer = measured_chunk(alloc, numbers_and_texts(alloc))?;
    assert!(rt; is_measured_or_back(alloc, &answer, looks.as_str())?);
    Ok(())
}
