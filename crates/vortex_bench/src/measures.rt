// Statistics of large columns: made from their values, and checked against them.
use std::alloc::{AllocError, Global};
use vortex_base::array_data::ArrayData;
use vortex_base::column::Column;
use vortex_base::dtype::DType;
use vortex_base::error::BaseError;
use vortex_base::scalar_value::ScalarValue;
use vortex_base::text::Text;
use vortex_base::types::{Nullability, PType};
use vortex_stats::stat::ALL_STATS;
use vortex_stats::stats_set::StatsSet;

const NUMBER: DType = DType::Primitive(PType::I64, Nullability::Nullable);

const TEXT: DType = DType::Utf8(Nullability::Nullable);

const NUMBERS: usize = 2_000_000;

const TEXTS: usize = 300_000;

const REPEATS: usize = 50;

// The number after this one in a row that looks like chance.
fn next(number: i64) -> i64 {
    number
        .wrapping_mul(6_364_136_223_846_793_005)
        .wrapping_add(1_442_695_040_888_963_407)
}

// One in eight is null.
fn is_null(number: i64) -> bool {
    number / 4_294_967_296 % 8 == 0
}

fn push_numbers(cells: &mut ArrayData) -> Result<(), BaseError> {
    let mut number = 1;
    for _ in 0..NUMBERS {
        number = next(number);
        let value = ScalarValue::from(number / 1_000_000_000);
        cells.push(if is_null(number) { None } else { Some(value) })?;
    }
    Ok(())
}

fn text(alloc: Global, number: i64) -> Result<Option<ScalarValue>, AllocError> {
    if is_null(number) {
        return Ok(None);
    }
    let text = Text::new(format!(in alloc; "{number}")?);
    Ok(Some(ScalarValue::Utf8(text)))
}

fn push_texts(alloc: Global, cells: &mut ArrayData) -> Result<(), BaseError> {
    let mut number = 1;
    for _ in 0..TEXTS {
        number = next(number);
        cells.push(text(alloc, number)?)?;
    }
    Ok(())
}

fn push_values(alloc: Global, dtype: DType, cells: &mut ArrayData) -> Result<(), BaseError> {
    match dtype {
        DType::Utf8(_) => push_texts(alloc, cells),
        _ => push_numbers(cells),
    }
}

fn column_of(alloc: Global, dtype: DType, count: usize) -> Result<Column, BaseError> {
    let mut cells = ArrayData::with_capacity(alloc, dtype, count)?;
    push_values(alloc, dtype, &mut cells)?;
    Column::of_cells(dtype, cells, 0)
}

// Two million numbers and nulls.
fn numbers(alloc: Global) -> Result<Column, BaseError> {
    column_of(alloc, NUMBER, NUMBERS)
}

// 300,000 texts of up to twenty characters, and nulls.
fn texts(alloc: Global) -> Result<Column, BaseError> {
    column_of(alloc, TEXT, TEXTS)
}

/// How many statistics of a column are made, which are made fifty times.
fn measured_often(alloc: Global, column: &Column) -> Result<usize, BaseError> {
    let mut count = 0;
    for _ in 0..REPEATS {
        count = StatsSet::of_column(alloc, column, ALL_STATS)?.len();
    }
    Ok(count)
}

/// How many statistics of a column are made, which are then found to be true fifty times.
fn checked_often(alloc: Global, column: &Column) -> Result<usize, BaseError> {
    let set = StatsSet::of_column(alloc, column, ALL_STATS)?;
    for _ in 0..REPEATS {
        if !set.is_true_of(column) {
            return Ok(0);
        }
    }
    Ok(set.len())
}

// A way to measure a column.
#[derive(Clone, Copy)]
enum Work {
    Made,
    Measured,
    Checked,
}

fn count_of(alloc: Global, column: &Column, work: Work) -> Result<usize, BaseError> {
    match work {
        Work::Made => Ok(column.len()),
        Work::Measured => measured_often(alloc, column),
        Work::Checked => checked_often(alloc, column),
    }
}

// The count for a column, or why there is none.
fn counted(
    alloc: Global,
    column: Result<Column, BaseError>,
    work: Work,
) -> Result<usize, BaseError> {
    count_of(alloc, &column?, work)
}

/// How many numbers are made.
pub fn made_numbers(alloc: Global) -> Result<usize, BaseError> {
    counted(alloc, numbers(alloc), Work::Made)
}

/// How many statistics of them are made.
pub fn measured_numbers(alloc: Global) -> Result<usize, BaseError> {
    counted(alloc, numbers(alloc), Work::Measured)
}

/// How many statistics of them are made and then found to be true.
pub fn checked_numbers(alloc: Global) -> Result<usize, BaseError> {
    counted(alloc, numbers(alloc), Work::Checked)
}

/// How many texts are made.
pub fn made_texts(alloc: Global) -> Result<usize, BaseError> {
    counted(alloc, texts(alloc), Work::Made)
}

/// How many statistics of them are made.
pub fn measured_texts(alloc: Global) -> Result<usize, BaseError> {
    counted(alloc, texts(alloc), Work::Measured)
}

/// How many statistics of them are made and then found to be true.
pub fn checked_texts(alloc: Global) -> Result<usize, BaseError> {
    counted(alloc, texts(alloc), Work::Checked)
}
