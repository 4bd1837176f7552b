//! Tests of `chunk`.
use crate::testing::{self, BOOL, UTF8_OR_NULL};
use std::alloc::Global;
use std::test::Fail;
use vortex_base::{
    ArrayData, BaseError, Chunk, Column, DType, Native, Nullability, PType, ScalarValue, Scope,
    ValueRef,
};

const NUMBER: DType = DType::Primitive(PType::I64, Nullability::Nullable);

type Pair = Result<Vec<Option<ScalarValue>>, BaseError>;

fn values(alloc: Global, first: Option<ScalarValue>, second: Option<ScalarValue>) -> Pair {
    let mut values = Vec::with_capacity(alloc, 2)?;
    values.push(first)?;
    values.push(second)?;
    Ok(values)
}

fn seven() -> Option<ScalarValue> {
    Some(ScalarValue::from(7i64))
}

fn truth() -> Option<ScalarValue> {
    Some(ScalarValue::from(true))
}

fn columns(first: Column, second: Column, alloc: Global) -> Result<Vec<Column>, BaseError> {
    let mut columns = Vec::with_capacity(alloc, 2)?;
    columns.push(first)?;
    columns.push(second)?;
    Ok(columns)
}

// Two rows, of 7 and null beside two truths.
fn two_rows(alloc: Global) -> Result<Chunk, BaseError> {
    let scope = testing::scope(alloc, &[("a", NUMBER), ("t", BOOL)])?;
    let numbers = Column::try_new(NUMBER, values(alloc, seven(), None)?, 16)?;
    let truths = Column::try_new(BOOL, values(alloc, truth(), truth())?, 1)?;
    Chunk::try_new(scope, columns(numbers, truths, alloc)?)
}

fn is_seven(value: Option<ValueRef<'_>>) -> bool {
    matches!(value, Some(value) if i64::of_lent(value) == Some(7))
}

// Whether each column has so many values and is of its size as it was.
fn are_long(chunk: &Chunk, rows: usize) -> bool {
    (0..chunk.scope().len()).all(|place| chunk.column(place).len() == rows)
        && (0..chunk.scope().len()).all(|place| [16, 1].contains(&chunk.column(place).size()))
}

#[test]
fn lend_and_take_rows(rt: HostRuntime) {
    let alloc = rt.alloc();
    let mut chunk = two_rows(alloc).expect(&rt, "a chunk");
    let row = values(alloc, seven(), truth()).expect(&rt, "a row");
    chunk.push_row(row).expect(&rt, "a row");
    assert!(rt; are_long(&chunk, 3));
    assert!(rt; chunk.rows() == 3);
    let row = chunk.row(2);
    assert!(rt; row.len() == 2 && row.dtype(0) == Some(NUMBER) && is_seven(row.value(0)));
    assert!(rt; chunk.row(1).value(0).is_none() && chunk.row(1).value(1).is_some());
}

// Whether a row was added, or memory was refused and all columns are as they were.
fn is_pushed(told: Result<(), BaseError>, chunk: &Chunk) -> bool {
    match told {
        Ok(()) => are_long(chunk, 3),
        Err(BaseError::Memory(_)) => are_long(chunk, 2),
        Err(_) => false,
    }
}

#[test]
fn refused_rows_change_nothing(rt: HostRuntime) -> Result<(), Fail> {
    let alloc = rt.alloc();
    let mut chunk = two_rows(alloc)?;
    let told = chunk.push_row(values(alloc, seven(), truth())?);
    assert!(rt; is_pushed(told, &chunk));
    Ok(())
}

// So many columns of one truth, by their names.
fn named(alloc: Global, count: usize) -> Result<Scope, BaseError> {
    let mut columns = Vec::new(alloc);
    for place in 0..count {
        columns.push((format!(in alloc; "c{place}")?, BOOL))?;
    }
    Scope::try_new(columns)
}

fn one_truth(alloc: Global) -> Result<Column, BaseError> {
    let mut values = Vec::new(alloc);
    values.push(truth())?;
    Column::try_new(BOOL, values, 1)
}

fn wide(alloc: Global, scope: Scope) -> Result<Chunk, BaseError> {
    let mut columns = Vec::new(alloc);
    for _ in 0..scope.len() {
        columns.push(one_truth(alloc)?)?;
    }
    Chunk::try_new(scope, columns)
}

// Whether each column has so many rows and this size.
fn are_rows(chunk: &Chunk, rows: usize, size: u64) -> bool {
    (0..chunk.scope().len()).all(|place| {
        chunk.column(place).len() == rows && chunk.column(place).size() == size
    })
}

#[test]
fn append_a_hundred_thousand_columns(rt: HostRuntime) {
    let alloc = rt.alloc();
    let scope = named(alloc, 100_000).expect(&rt, "scope");
    let copy = scope.try_clone().expect(&rt, "copy");
    let mut other = wide(alloc, copy).expect(&rt, "other");
    let mut chunk = wide(alloc, scope).expect(&rt, "chunk");
    assert!(rt; *chunk.scope() == *other.scope());
    assert!(rt; chunk.sizes_fit(&other));
    chunk.append(&mut other).expect(&rt, "appended");
    assert!(rt; are_rows(&chunk, 2, 2) && are_rows(&other, 0, 0));
}

// The column of two texts, in cells of texts or as values of any kind.
fn two_texts(alloc: Global, is_typed: bool) -> Result<Column, BaseError> {
    let mut cells = ArrayData::Any(Vec::new(alloc));
    if is_typed {
        cells = ArrayData::new(alloc, UTF8_OR_NULL);
    }
    cells.push(Some(testing::text_value(alloc, "a")?))?;
    cells.push(Some(testing::text_value(alloc, "b")?))?;
    Column::of_cells(UTF8_OR_NULL, cells, 2)
}

// Two rows of texts, each column in cells of texts or as values of any kind.
fn texts(alloc: Global, forms: &[bool]) -> Result<Chunk, BaseError> {
    let mut columns = Vec::new(alloc);
    for is_typed in forms {
        columns.push(two_texts(alloc, *is_typed)?)?;
    }
    let names = ["a", "b", "c", "d"].map(|name| (name, UTF8_OR_NULL));
    Chunk::try_new(testing::scope(alloc, &names)?, columns)
}

// Whether the values are the two texts by turns.
fn are_by_turns(column: &Column) -> bool {
    for row in 0..column.len() {
        let wanted = if row % 2 == 0 { "a" } else { "b" };
        match column.get(row) {
            Some(ValueRef::Utf8(text)) if text.as_str() == wanted => {}
            _ => return false,
        }
    }
    true
}

// Whether each column has so many rows of the two texts and this size.
fn are_texts(chunk: &Chunk, rows: usize, size: u64) -> bool {
    are_rows(chunk, rows, size)
        && (0..chunk.scope().len()).all(|place| are_by_turns(chunk.column(place)))
}

// Whether the rows were moved, or memory was refused and both chunks are as they were.
fn is_appended(told: Result<(), BaseError>, chunk: &Chunk, other: &Chunk) -> bool {
    match told {
        Ok(()) => are_texts(chunk, 4, 4) && are_rows(other, 0, 0),
        Err(BaseError::Memory(_)) => are_texts(chunk, 2, 2) && are_texts(other, 2, 2),
        Err(_) => false,
    }
}

#[test]
fn refused_appends_change_nothing(rt: HostRuntime) -> Result<(), Fail> {
    let alloc = rt.alloc();
    let mut chunk = texts(alloc, &[true, false, true, false])?;
    let mut other = texts(alloc, &[true, false, false, true])?;
    assert!(rt; *chunk.scope() == *other.scope());
    assert!(rt; chunk.sizes_fit(&other));
    let told = chunk.append(&mut other);
    assert!(rt; is_appended(told, &chunk, &other));
    Ok(())
}
