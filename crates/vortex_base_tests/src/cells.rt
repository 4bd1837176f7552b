//! Tests of `cells`, `natives`, `texts`, `blobs` and `nulls`: the forms in which a column keeps its
//! values, by the columns of them.
use crate::testing::*;
use std::alloc::Global;
use std::process::Abort;
use vortex_base::array_data::PrimitiveScalar;
use vortex_base::{
    ArrayData, Chunk, Column, DType, Element, Native, Nullability, PType, PrimitiveArray,
    ScalarValue, ValueRef,
};

fn copy(rt: &impl Abort, value: &ScalarValue) -> ScalarValue {
    value.try_clone().expect(rt, "a copy")
}

fn expect_value(rt: &impl Abort, lent: Option<ValueRef<'_>>, value: &ScalarValue) {
    let lent = lent.expect(rt, "a value");
    assert!(rt; lent.to_value().expect(rt, "a copy") == *value);
}

fn of_cells(rt: &impl Abort, dtype: DType, cells: ArrayData) -> Column {
    Column::of_cells(dtype, cells, 3).expect(rt, "a column")
}

// The column of a value and null, pushed into cells of the type.
fn typed(rt: &impl Abort, alloc: Global, dtype: DType, value: ScalarValue) -> Column {
    let mut cells = ArrayData::with_capacity(alloc, dtype, 2).expect(rt, "room");
    cells.push(Some(value)).expect(rt, "a value");
    cells.push(None).expect(rt, "null");
    of_cells(rt, dtype, cells)
}

// The column of a value and null, kept as values of any kind.
fn of_any(rt: &impl Abort, alloc: Global, dtype: DType, value: ScalarValue) -> Column {
    let mut values = Vec::new(alloc);
    values.push(Some(value)).expect(rt, "a value");
    values.push(None).expect(rt, "null");
    Column::try_new(dtype, values, 3).expect(rt, "a column")
}

// The value is pushed, and lent to be pushed once more behind a null.
fn expect_kept(rt: &impl Abort, alloc: Global, dtype: DType, value: &ScalarValue) {
    let mut cells = ArrayData::new(alloc, dtype);
    cells.push(Some(copy(rt, value))).expect(rt, "a value");
    cells.push(None).expect(rt, "null");
    cells
        .push_lent(Some(value.lend()))
        .expect(rt, "a lent value");
    cells.shrink_to_fit();
    let column = of_cells(rt, dtype, cells);
    assert!(rt; column.len() == 3);
    expect_value(rt, column.get(0), value);
    assert!(rt; column.get(1).is_none());
    expect_value(rt, column.get(2), value);
}

// The value is set in the place of a null.
fn expect_set(rt: &impl Abort, alloc: Global, dtype: DType, value: &ScalarValue) {
    let mut cells = ArrayData::nulls(alloc, dtype, 2).expect(rt, "nulls");
    assert_eq!(rt; cells.len(), 2);
    cells.set(1, Some(copy(rt, value))).expect(rt, "a value");
    let column = of_cells(rt, dtype, cells);
    assert!(rt; column.len() == 2);
    assert!(rt; column.get(0).is_none());
    expect_value(rt, column.get(1), value);
}

fn chunk_of(rt: &impl Abort, alloc: Global, dtype: DType, column: Column) -> Chunk {
    let mut columns = Vec::new(alloc);
    columns.push(column).expect(rt, "columns");
    let scope = scope(alloc, &[("a", dtype)]).expect(rt, "a scope");
    Chunk::try_new(scope, columns).expect(rt, "a chunk")
}

// Moves the rows of the second chunk behind the first's.
fn append(rt: &impl Abort, chunk: &mut Chunk, other: &mut Chunk) {
    assert!(rt; *chunk.scope() == *other.scope());
    assert!(rt; chunk.sizes_fit(other));
    chunk.append(other).expect(rt, "appended");
    assert!(rt; other.rows() == 0);
}

// The chunk holds the value and null, twice.
fn expect_twice(rt: &impl Abort, chunk: &Chunk, value: &ScalarValue) {
    assert!(rt; chunk.scope().len() == 1);
    let column = chunk.column(0);
    assert!(rt; column.len() == 4);
    assert!(rt; column.size() == 6 && column.get(1).is_none() && column.get(3).is_none());
    expect_value(rt, column.get(0), value);
    expect_value(rt, column.get(2), value);
}

// The chunk of a value and null, in cells of the type or as values of any kind.
fn side(
    rt: &impl Abort,
    alloc: Global,
    dtype: DType,
    value: &ScalarValue,
    is_typed: bool,
) -> Chunk {
    let value = copy(rt, value);
    let column = if is_typed {
        typed(rt, alloc, dtype, value)
    } else {
        of_any(rt, alloc, dtype, value)
    };
    chunk_of(rt, alloc, dtype, column)
}

// Rows go behind others in each form.
fn expect_behind(rt: &impl Abort, alloc: Global, dtype: DType, value: &ScalarValue) {
    for (is_typed, is_next_typed) in [(true, true), (true, false), (false, true), (false, false)] {
        let mut chunk = side(rt, alloc, dtype, value, is_typed);
        let mut next = side(rt, alloc, dtype, value, is_next_typed);
        append(rt, &mut chunk, &mut next);
        expect_twice(rt, &chunk, value);
    }
}

// Each call that takes memory for the value and its type.
fn expect_held(rt: &impl Abort, alloc: Global, dtype: DType, value: &ScalarValue) {
    expect_kept(rt, alloc, dtype, value);
    expect_set(rt, alloc, dtype, value);
    expect_behind(rt, alloc, dtype, value);
}

#[test]
fn texts_and_bytes_are_held(rt: HostRuntime) {
    let alloc = rt.alloc();
    for text in ["é", ""] {
        let value = text_value(alloc, text).expect(&rt, "a text");
        expect_held(&rt, alloc, UTF8_OR_NULL, &value);
    }
    for bytes in [[0xC1, 0].as_slice(), [].as_slice()] {
        let value = bytes_value(alloc, bytes).expect(&rt, "bytes");
        expect_held(&rt, alloc, BINARY_OR_NULL, &value);
    }
}

// The cells with the value and null behind.
fn pushed(rt: &impl Abort, mut cells: ArrayData, value: ScalarValue) -> ArrayData {
    cells.push(Some(value)).expect(rt, "a value");
    cells.push(None).expect(rt, "null");
    cells
}

#[test]
fn texts_and_bytes_have_arrays_of_their_own(rt: HostRuntime) {
    let alloc = rt.alloc();
    let text = text_value(alloc, "a text").expect(&rt, "a text");
    let texts = pushed(&rt, ArrayData::new(alloc, UTF8_OR_NULL), copy(&rt, &text));
    assert!(rt; matches!(&texts, ArrayData::Utf8(_)));
    let room = ArrayData::with_capacity(alloc, UTF8_OR_NULL, 2).expect(&rt, "room");
    assert!(rt; matches!(&pushed(&rt, room, text), ArrayData::Utf8(_)));
    let bytes = bytes_value(alloc, &[0xC1, 0]).expect(&rt, "bytes");
    let binaries = pushed(
        &rt,
        ArrayData::new(alloc, BINARY_OR_NULL),
        copy(&rt, &bytes),
    );
    assert!(rt; matches!(&binaries, ArrayData::Binary(_)));
    let room = ArrayData::with_capacity(alloc, BINARY_OR_NULL, 2).expect(&rt, "room");
    assert!(rt; matches!(&pushed(&rt, room, bytes), ArrayData::Binary(_)));
}

// Whether the column lends the value and null as slices of their type.
fn lends<T: Native + PartialEq>(column: &Column, value: T) -> bool {
    let Some(natives) = column.natives::<T>() else {
        return false;
    };
    let (values, validity) = natives.as_slices();
    values.first() == Some(&value) && validity == [true, false].as_slice()
}

// Cells of the type that hold the value and null, and are made of slices.
fn of_slices<T: Native>(rt: &impl Abort, alloc: Global, value: T) -> ArrayData {
    let mut values = Vec::new(alloc);
    values.push(value).expect(rt, "a value");
    values.push(value).expect(rt, "a value");
    assert_eq!(rt; values.len(), 2);
    let natives = PrimitiveArray::from_slices(alloc, &values, &[true, false]).expect(rt, "natives");
    T::into_cells(natives)
}

// Cells of the type that hold the cell and null.
fn of_short_cells(
    rt: &impl Abort,
    alloc: Global,
    dtype: DType,
    cell: PrimitiveScalar,
) -> ArrayData {
    let mut cells = ArrayData::nulls(alloc, dtype, 1).expect(rt, "a null");
    assert_eq!(rt; cells.len(), 1);
    cells
        .set_cell(0, cell)
        .expect(rt, "a cell in the place of another");
    cells.push_cell(PrimitiveScalar::Null).expect(rt, "null");
    cells
}

// The value is one of its type, and the cell of it.
fn expect_of_type<T: Native + PartialEq>(rt: &impl Abort, value: T, cell: PrimitiveScalar) {
    assert!(rt; T::of_lent(value.lend()) == Some(value));
    assert!(rt; T::of_value(&value.to_value()) == Some(value));
    assert!(rt; T::of_cell(cell) == Some(Some(value)));
}

fn expect_native<T: Native + PartialEq>(
    rt: &impl Abort,
    alloc: Global,
    dtype: DType,
    value: T,
    cell: PrimitiveScalar,
) {
    expect_of_type(rt, value, cell);
    expect_held(rt, alloc, dtype, &value.to_value());
    assert!(rt; lends(&typed(rt, alloc, dtype, value.to_value()), value));
    assert!(rt; lends(&of_cells(rt, dtype, of_slices(rt, alloc, value)), value));
    assert!(rt;
        lends(
            &of_cells(rt, dtype, of_short_cells(rt, alloc, dtype, cell)),
            value
        )
    );
}

#[test]
fn truths_and_numbers_are_held(rt: HostRuntime) {
    use PrimitiveScalar::{Bool, I8, I16, I32, I64, U8, U16, U32, U64};
    let alloc = rt.alloc();
    expect_native(&rt, alloc, BOOL_OR_NULL, true, Bool(true));
    expect_native(&rt, alloc, number(PType::U8), 255u8, U8(255));
    expect_native(&rt, alloc, number(PType::U16), 256u16, U16(256));
    expect_native(&rt, alloc, number(PType::U32), 65536u32, U32(65536));
    expect_native(&rt, alloc, number(PType::U64), u64::MAX, U64(u64::MAX));
    expect_native(&rt, alloc, number(PType::I8), -128i8, I8(-128));
    expect_native(&rt, alloc, number(PType::I16), -129i16, I16(-129));
    expect_native(&rt, alloc, number(PType::I32), -32769i32, I32(-32769));
    expect_native(&rt, alloc, number(PType::I64), i64::MIN, I64(i64::MIN));
}

// A truth behind a null of another form makes of both values of any kind.
fn expect_widened(rt: &impl Abort, alloc: Global, dtype: DType) {
    let mut cells = ArrayData::new(alloc, dtype);
    cells.push(None).expect(rt, "null");
    cells
        .push_cell(PrimitiveScalar::Bool(true))
        .expect(rt, "a truth");
    cells.shrink_to_fit();
    assert!(rt; cells.len() == 2 && cells.fits(&BOOL_OR_NULL) && !cells.fits(&dtype));
}

#[test]
fn values_of_another_kind_stand_beside_each_form(rt: HostRuntime) {
    let alloc = rt.alloc();
    for ptype in [PType::U8, PType::U16, PType::U32, PType::U64] {
        expect_widened(&rt, alloc, number(ptype));
    }
    for ptype in [PType::I8, PType::I16, PType::I32, PType::I64] {
        expect_widened(&rt, alloc, number(ptype));
    }
    for dtype in [UTF8_OR_NULL, BINARY_OR_NULL, DType::Null] {
        expect_widened(&rt, alloc, dtype);
    }
}

fn expect_lent(rt: &impl Abort, natives: PrimitiveArray<i64>, values: &[i64], validity: &[bool]) {
    let (dtype, cells) = (number(PType::I64), ArrayData::I64(natives));
    assert!(rt; cells.fits(&dtype));
    let column = Column::new_unchecked(dtype, cells, 8);
    let natives = column.natives::<i64>().expect(rt, "natives");
    let (lent, told) = natives.as_slices();
    assert!(rt; lent == values && told == validity);
}

#[test]
fn slices_and_vectors_become_columns(rt: HostRuntime) {
    let alloc = rt.alloc();
    let values = [-5, 0, i64::MAX];
    let natives = PrimitiveArray::from_slice(alloc, &values).expect(&rt, "natives");
    expect_lent(&rt, natives, &values, &[true, true, true]);
    let vector = Vec::from_slice(alloc, &values).expect(&rt, "a vector");
    let natives = PrimitiveArray::from_vec(alloc, vector).expect(&rt, "natives");
    expect_lent(&rt, natives, &values, &[true, true, true]);
    let vector = Vec::from_slice(alloc, &values).expect(&rt, "a vector");
    let validity = Vec::from_slice(alloc, &[true, false, true]).expect(&rt, "truths");
    assert!(rt; vector.len() == validity.len());
    let natives = PrimitiveArray::from_vecs(vector, validity);
    expect_lent(&rt, natives, &values, &[true, false, true]);
}

// The chunk of so many rows of a type without values.
fn nulls(rt: &impl Abort, alloc: Global, count: usize) -> Chunk {
    let cells = ArrayData::nulls(alloc, DType::Null, count).expect(rt, "nulls");
    chunk_of(rt, alloc, DType::Null, of_cells(rt, DType::Null, cells))
}

#[test]
fn nulls_alone_are_held(rt: HostRuntime) {
    let alloc = rt.alloc();
    let mut chunk = nulls(&rt, alloc, 1);
    append(&rt, &mut chunk, &mut nulls(&rt, alloc, 2));
    assert!(rt; chunk.rows() == 3);
    let state = DType::MinMaxState(Element::Bool, Nullability::NonNullable);
    for dtype in [DType::Null, state] {
        let cells = ArrayData::with_capacity(alloc, dtype, 3).expect(&rt, "room");
        assert!(rt; cells.len() == 0);
    }
}
