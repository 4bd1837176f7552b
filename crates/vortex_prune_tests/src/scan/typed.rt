//! Long parts of one column of truths, texts, bytes or numbers of each type, in which null stands
//! at the ends of blocks and between: a scan selects what each row says by itself.
use super::blocks::scans_as_alone;
use super::*;
use vortex_base::{ArrayData, Bytes, Column, PType, PValue, ScalarValue};
use vortex_expr::Operator;

const ROWS: usize = 2_049;

const OPERATORS: [Operator; 6] = [
    Operator::Eq,
    Operator::NotEq,
    Operator::Gt,
    Operator::Gte,
    Operator::Lt,
    Operator::Lte,
];

const NUMBERS: [PType; 8] = [
    PType::U8,
    PType::U16,
    PType::U32,
    PType::U64,
    PType::I8,
    PType::I16,
    PType::I32,
    PType::I64,
];

// How many types there are.
const KINDS: usize = 11;

// The types of numbers and then those of truths, texts and bytes.
fn dtype_at(place: usize) -> DType {
    match NUMBERS.get(place) {
        Some(ptype) => DType::Primitive(*ptype, Nullability::Nullable),
        None if place == 8 => DType::Bool(Nullability::Nullable),
        None if place == 9 => DType::Utf8(Nullability::Nullable),
        None => DType::Binary(Nullability::Nullable),
    }
}

// Five numbers, of which two are below zero.
fn signed(place: usize) -> i8 {
    match place % 5 {
        0 => -128,
        1 => -1,
        2 => 0,
        3 => 1,
        _ => 127,
    }
}

fn unsigned(place: usize) -> u8 {
    match place % 5 {
        0 => 0,
        1 => 1,
        2 => 127,
        3 => 128,
        _ => 255,
    }
}

fn number_of(ptype: PType, place: usize) -> PValue {
    match ptype {
        PType::U8 => PValue::U8(unsigned(place)),
        PType::U16 => PValue::U16(u16::from(unsigned(place))),
        PType::U32 => PValue::U32(u32::from(unsigned(place))),
        PType::U64 => PValue::U64(u64::from(unsigned(place))),
        PType::I8 => PValue::I8(signed(place)),
        PType::I16 => PValue::I16(i16::from(signed(place))),
        PType::I32 => PValue::I32(i32::from(signed(place))),
        PType::I64 => PValue::I64(i64::from(signed(place))),
    }
}

// Five texts, of which one begins another and one has bytes above those of ASCII.
fn text_of(place: usize) -> &'static str {
    match place % 5 {
        0 => "a",
        1 => "",
        2 => "ab",
        3 => "b",
        _ => "\u{fc}",
    }
}

fn value_of(alloc: Global, dtype: DType, place: usize) -> Result<ScalarValue, AllocError> {
    match dtype {
        DType::Primitive(ptype, _) => Ok(ScalarValue::Primitive(number_of(ptype, place))),
        DType::Utf8(_) => text_value(alloc, text_of(place)),
        DType::Binary(_) => {
            let bytes = text_of(place).as_bytes().to_vec(alloc)?;
            Ok(ScalarValue::Binary(Bytes::new(bytes)))
        }
        _ => Ok(ScalarValue::from(place % 2 == 0)),
    }
}

// Null at both ends of each block, and at one in seven of the others.
fn value_at(alloc: Global, dtype: DType, row: usize) -> Result<Option<ScalarValue>, AllocError> {
    if row % 1_024 == 0 || row % 1_024 == 1_023 || row % 7 == 3 {
        Ok(None)
    } else {
        Ok(Some(value_of(alloc, dtype, row)?))
    }
}

fn column(alloc: Global, dtype: DType) -> Result<Column, StatsError> {
    let mut cells = ArrayData::new(alloc, dtype);
    for row in 0..ROWS {
        cells.push(value_at(alloc, dtype, row)?)?;
    }
    told(Column::of_cells(dtype, cells, 0))
}

// The table of one part of a column of the type, without statistics.
fn table(alloc: Global, dtype: DType) -> Table {
    let chunk = chunk_of(alloc, scope_of(alloc, dtype), column(alloc, dtype));
    let part = part_of(alloc, chunk, Ok(no_statistics(alloc)));
    zones_of(alloc, scope_of(alloc, dtype), one_part(alloc, part))
}

// Whether the scan of the table finds what its rows say by themselves.
fn is_as_alone(alloc: Global, zones: &Zones, predicate: Built) -> Result<bool, StatsError> {
    scans_as_alone(alloc, zones, &predicate?, ROWS)
}

fn first_column(alloc: Global, dtype: DType) -> Built {
    col(alloc, 0, dtype)
}

// Whether it does so at a comparison with a value, on either side.
fn is_compared_as_alone(
    alloc: Global,
    zones: &Zones,
    dtype: DType,
    operator: Operator,
    place: usize,
) -> Result<bool, StatsError> {
    let value = literal(alloc, dtype, place);
    let on_the_right = binary(alloc, operator, first_column(alloc, dtype), value);
    if !is_as_alone(alloc, zones, on_the_right)? {
        return Ok(false);
    }
    let value = literal(alloc, dtype, place);
    is_as_alone(
        alloc,
        zones,
        binary(alloc, operator, value, first_column(alloc, dtype)),
    )
}

fn literal(alloc: Global, dtype: DType, place: usize) -> Built {
    lit(alloc, dtype, value_of(alloc, dtype, place)?)
}

#[test]
fn comparisons_and_nulls_of_each_type_have_the_rows(rt: HostRuntime) {
    let alloc = rt.alloc();
    for kind in 0..KINDS {
        let dtype = dtype_at(kind);
        let zones = table(alloc, dtype).expect(&rt, "zones");
        let nulls = is_null(alloc, first_column(alloc, dtype));
        assert!(rt; is_as_alone(alloc, &zones, nulls).expect(&rt, "an answer"));
        for operator in OPERATORS {
            for place in 0..3 {
                let is_alike = is_compared_as_alone(alloc, &zones, dtype, operator, place).expect(
                    &rt, "is alike",
                );
                assert!(rt; is_alike);
            }
        }
    }
}
