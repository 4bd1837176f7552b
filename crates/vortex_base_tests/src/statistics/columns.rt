//! Statistics that are measured of columns, checked against columns, and accumulated of batches.
ghost use Rattle.std.specs.Prelude.{◌≡◌, IfOk};
ghost use Rattle.vortex_base.specs.declared.types.Nullability.TheVariants.{Nullable};
ghost use Rattle.vortex_base.specs.declared.types.PType.TheVariants.{I64};

use crate::statistics::testing::{has, truth, word};
use crate::statistics::writers::accumulated;
use std::alloc::Global;
use std::process::Abort;
use vortex_base::array_data::ArrayData;
use vortex_base::column::Column;
use vortex_base::dtype::DType;
use vortex_base::scalar_value::ScalarValue;
use vortex_base::text::Text;
use vortex_base::types::{Nullability, PType};
use vortex_stats::error::StatsError;
use vortex_stats::precision::Precision;
use vortex_stats::stat::ALL_STATS;
use vortex_stats::stat::Stat::{
    IsConstant, IsSorted, IsStrictSorted, Max, Min, NullCount, Sum, UncompressedSizeInBytes,
};
use vortex_stats::stats_set::StatsSet;

const I64_OR_NULL: DType = DType::Primitive(PType::I64, Nullability::Nullable);

const UTF8_OR_NULL: DType = DType::Utf8(Nullability::Nullable);

// The rows as a column that declares so many bytes.
fn batch(alloc: Global, rows: &[Option<i64>], size: u64) -> Result<Column, StatsError>
    ensures { IfOk result (λ c. c.dtype ≡ DType.Primitive I64 Nullable) }
{
    let mut values = Vec::new(alloc);
    for row in rows {
        values.push(row.map(ScalarValue::from))?;
    }
    match Column::try_new(I64_OR_NULL, values, size) {
        Ok(column) => Ok(column),
        Err(_) => Err(StatsError::Mismatch),
    }
}

fn exactly(value: i64) -> Precision<ScalarValue> {
    Precision::Exact(ScalarValue::from(value))
}

fn expect_measured(rt: &impl Abort, set: &StatsSet) {
    assert!(rt;
        has(set, Max, exactly(7)) && has(set, Min, exactly(-3)) && has(set, Sum, exactly(11))
    );
    assert!(rt; has(set, NullCount, word(2)) && has(set, UncompressedSizeInBytes, word(60)));
}

// Three batches of 10, 20 and 30 bytes, accumulated.
fn of_batches(alloc: Global, rows: [&[Option<i64>]; 3]) -> Result<StatsSet, StatsError> {
    let first = batch(alloc, rows[0], 10)?;
    let more = [batch(alloc, rows[1], 20)?, batch(alloc, rows[2], 30)?];
    accumulated(alloc, &first, &more)
}

#[test]
fn numbers_are_measured_and_batches_add_up(rt: HostRuntime) {
    let alloc = rt.alloc();
    let rows = [Some(5), None, Some(-3), Some(7), None, Some(2)];
    let all = batch(alloc, &rows, 60).expect(&rt, "a column");
    let measured = StatsSet::of_column(alloc, &all, ALL_STATS).expect(&rt, "a set");
    expect_measured(&rt, &measured);
    assert!(rt; has(&measured, IsSorted, truth(false)) && measured.is_true_of(&all));
    let batches: [&[Option<i64>]; 3] = [&rows[..3], &rows[3..4], &rows[4..]];
    let added_up = of_batches(alloc, batches).expect(&rt, "a set");
    expect_measured(&rt, &added_up);
    assert!(rt; added_up.is_true_of(&all));
    assert!(rt; !StatsSet::of(alloc, Max, exactly(8)).is_true_of(&all));
}

fn text(rt: &impl Abort, alloc: Global, text: &str) -> ScalarValue {
    ScalarValue::Utf8(Text::new(String::from_str(alloc, text).expect(rt, "a text")))
}

// By bytes as by characters; in UTF-16 the second stands first.
#[test]
fn texts_are_measured(rt: HostRuntime) {
    let alloc = rt.alloc();
    let mut cells = ArrayData::new(alloc, UTF8_OR_NULL);
    cells
        .push(Some(text(&rt, alloc, "\u{FF5E}")))
        .expect(&rt, "a text");
    cells
        .push(Some(text(&rt, alloc, "\u{1F600}")))
        .expect(&rt, "a text");
    let column = Column::of_cells(UTF8_OR_NULL, cells, 40).expect(&rt, "a column");
    let set = StatsSet::of_column(alloc, &column, ALL_STATS).expect(&rt, "a set");
    assert!(rt; has(&set, Max, Precision::Exact(text(&rt, alloc, "\u{1F600}"))));
    assert!(rt; has(&set, Min, Precision::Exact(text(&rt, alloc, "\u{FF5E}"))));
    assert!(rt; has(&set, IsStrictSorted, truth(true)) && has(&set, IsConstant, truth(false)));
}
