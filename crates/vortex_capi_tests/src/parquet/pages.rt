//! The page indexes of a row group of 8 rows: the column `s` (text) in pages of 3, 2 and 3 rows,
//! the second one null, and the column `q` (INT32) in pages of 4 and 4 rows.
use std::alloc::Global;
use std::process::Abort;
use vortex_base::pvalue::PValue;
use vortex_base::scalar_value::ScalarValue;
use vortex_base::text::Text;
use vortex_base::types::{Nullability, PType};
use vortex_parquet::column_index::column_index_of;
use vortex_parquet::columns::Form;
use vortex_parquet::offset_index::{IndexPlaces, PageLocation, offset_index_of, places_of};
use vortex_parquet::pages::{Page, pages_of};
use vortex_parquet::stats::GroupStats;
use vortex_parquet::stretches::{PagedColumn, stretches_of};
use vortex_parquet::{Fault, ReadError};
use vortex_stats::precision::Precision;
use vortex_stats::stat::Stat;

// `a` to `c` without nulls, a null page with bytes in the places of its bounds, and `d` to `f` with
// an unknown number of nulls.
const TEXT_INDEX: [u8; 29] = [
    25, 49, 2, 1, 2, 25, 56, 1, 97, 1, 122, 1, 100, 25, 56, 1, 99, 1, 121, 1, 102, 21, 2, 25, 54,
    0, 4, 1, 0,
];

const TEXT_OFFSETS: [u8; 24] = [
    25, 60, 22, 8, 21, 20, 22, 0, 0, 22, 28, 21, 10, 22, 6, 0, 22, 38, 21, 12, 22, 10, 0, 0,
];

// 1 to 4 with a null, and 5 to 5 without one.
const NUMBER_INDEX: [u8; 35] = [
    25, 33, 2, 2, 25, 40, 4, 1, 0, 0, 0, 4, 5, 0, 0, 0, 25, 40, 4, 4, 0, 0, 0, 4, 5, 0, 0, 0, 21,
    0, 25, 38, 2, 0, 0,
];

const NUMBER_OFFSETS: [u8; 17] = [
    25, 44, 22, 100, 21, 20, 22, 0, 0, 22, 120, 21, 10, 22, 8, 0, 0,
];

fn pages<'a>(
    alloc: Global,
    rows: u64,
    index: &'a [u8],
    offsets: &[u8],
) -> Result<Vec<Page<'a>>, ReadError> {
    let index = column_index_of(alloc, index)?;
    let locations = offset_index_of(alloc, offsets)?;
    pages_of(alloc, rows, Nullability::Nullable, &index, &locations)
}

fn stretches(alloc: Global) -> Result<Vec<GroupStats>, ReadError> {
    let texts = pages(alloc, 8, &TEXT_INDEX, &TEXT_OFFSETS)?;
    let numbers = pages(alloc, 8, &NUMBER_INDEX, &NUMBER_OFFSETS)?;
    let columns = [
        PagedColumn {
            form: Form::Utf8,
            is_ordered: true,
            pages: &texts,
        },
        PagedColumn {
            form: Form::Four(PType::I32),
            is_ordered: true,
            pages: &numbers,
        },
    ];
    stretches_of(alloc, &columns, 8)
}

fn expect_value(
    rt: &impl Abort,
    group: &GroupStats,
    place: usize,
    stat: Stat,
    value: Precision<ScalarValue>,
) {
    match group.stats.get(place) {
        Some(set) => match set.get(stat) {
            Ok(found) => assert!(rt; found == value),
            Err(_) => assert!(rt; false),
        },
        None => assert!(rt; false),
    }
}

fn number(n: i32) -> Precision<ScalarValue> {
    Precision::Inexact(ScalarValue::Primitive(PValue::I32(n)))
}

fn nulls(n: u64) -> Precision<ScalarValue> {
    Precision::Exact(ScalarValue::Primitive(PValue::U64(n)))
}

fn expect_text(rt: &impl Abort, alloc: Global, group: &GroupStats, stat: Stat, text: &str) {
    match String::from_str(alloc, text) {
        Ok(text) => {
            let value = ScalarValue::Utf8(Text::new(text));
            expect_value(rt, group, 0, stat, Precision::Inexact(value));
        }
        Err(_) => assert!(rt; false),
    }
}

// Rows 0 to 3, in the first page of either column.
fn expect_first(rt: &impl Abort, alloc: Global, group: &GroupStats) {
    assert!(rt; group.rows == 3 && group.stats.len() == 2);
    expect_text(rt, alloc, group, Stat::Min, "a");
    expect_text(rt, alloc, group, Stat::Max, "c");
    expect_value(rt, group, 0, Stat::NullCount, nulls(0));
    expect_value(rt, group, 1, Stat::Min, number(1));
    expect_value(rt, group, 1, Stat::Max, number(4));
    expect_value(rt, group, 1, Stat::NullCount, Precision::Absent);
}

// Row 3, in the null page of the text and the first page of the numbers.
fn expect_second(rt: &impl Abort, group: &GroupStats) {
    assert!(rt; group.rows == 1 && group.stats.len() == 2);
    expect_value(rt, group, 0, Stat::Min, Precision::Absent);
    expect_value(rt, group, 0, Stat::Max, Precision::Absent);
    expect_value(rt, group, 0, Stat::NullCount, nulls(1));
    expect_value(rt, group, 1, Stat::Max, number(4));
}

// Row 4, in the null page and the second page of the numbers.
fn expect_third(rt: &impl Abort, group: &GroupStats) {
    assert!(rt; group.rows == 1 && group.stats.len() == 2);
    expect_value(rt, group, 0, Stat::NullCount, nulls(1));
    expect_value(rt, group, 1, Stat::Max, number(5));
}

// Rows 5 to 8, which are the whole third page of the text.
fn expect_fourth(rt: &impl Abort, alloc: Global, group: &GroupStats) {
    assert!(rt; group.rows == 3 && group.stats.len() == 2);
    expect_text(rt, alloc, group, Stat::Min, "d");
    expect_value(rt, group, 0, Stat::NullCount, Precision::Absent);
    expect_value(rt, group, 1, Stat::Min, number(5));
    expect_value(rt, group, 1, Stat::NullCount, nulls(0));
}

#[test]
fn row_group_is_cut_where_pages_end(rt: HostRuntime) {
    match stretches(rt.alloc()) {
        Ok(found) => match found.as_slice() {
            [first, second, third, fourth] => {
                expect_first(&rt, rt.alloc(), first);
                expect_second(&rt, second);
                expect_third(&rt, third);
                expect_fourth(&rt, rt.alloc(), fourth);
            }
            _ => assert!(&rt; false),
        },
        Err(_) => assert!(&rt; false),
    }
}

#[test]
fn whole_page_has_its_nulls_and_no_bounds_without_an_order(rt: HostRuntime) {
    match pages(rt.alloc(), 8, &NUMBER_INDEX, &NUMBER_OFFSETS) {
        Ok(numbers) => {
            let columns = [PagedColumn {
                form: Form::Four(PType::I32),
                is_ordered: false,
                pages: &numbers,
            }];
            match stretches_of(rt.alloc(), &columns, 8) {
                Ok(found) => match found.as_slice() {
                    [first, _] => {
                        expect_value(&rt, first, 0, Stat::NullCount, nulls(1));
                        expect_value(&rt, first, 0, Stat::Max, Precision::Absent);
                    }
                    _ => assert!(&rt; false),
                },
                Err(_) => assert!(&rt; false),
            }
            assert!(&rt;
                matches!(
                    stretches_of(rt.alloc(), &columns, 9),
                    Err(ReadError::Fault(Fault::Pages))
                )
            );
        }
        Err(_) => assert!(&rt; false),
    }
}

#[test]
fn location_tells_where_a_page_stands(rt: HostRuntime) {
    let second = PageLocation {
        offset: 60,
        size: 5,
        first_row: 4,
    };
    match offset_index_of(rt.alloc(), &NUMBER_OFFSETS) {
        Ok(locations) => assert!(&rt; locations.len() == 2 && locations[1] == second),
        Err(_) => assert!(&rt; false),
    }
    let places = IndexPlaces {
        offset_index: Some(50),
        offset_index_length: Some(7),
        column_index: None,
        column_index_length: None,
    };
    match places_of(rt.alloc(), &[38, 8, 38, 100, 21, 14, 0]) {
        Ok(found) => assert!(&rt; found == places),
        Err(_) => assert!(&rt; false),
    }
}

fn is_refused(alloc: Global, rows: u64, index: &[u8], offsets: &[u8], fault: Fault) -> bool {
    match pages(alloc, rows, index, offsets) {
        Err(ReadError::Fault(found)) => found == fault,
        _ => false,
    }
}

#[test]
fn indexes_are_refused_by_name(rt: HostRuntime) {
    let alloc = rt.alloc();
    // Three pages beside two locations.
    assert!(rt; is_refused(alloc, 8, &TEXT_INDEX, &NUMBER_OFFSETS, Fault::Pages));
    // The last page begins behind the last row.
    assert!(rt; is_refused(alloc, 5, &TEXT_INDEX, &TEXT_OFFSETS, Fault::Pages));
    // The first page begins with the second row.
    let late = [
        25, 44, 22, 100, 21, 20, 22, 2, 0, 22, 120, 21, 10, 22, 8, 0, 0,
    ];
    assert!(rt; is_refused(alloc, 8, &NUMBER_INDEX, &late, Fault::Pages));
    // Both pages begin with the first row.
    let still = [
        25, 44, 22, 100, 21, 20, 22, 0, 0, 22, 120, 21, 10, 22, 0, 0, 0,
    ];
    assert!(rt; is_refused(alloc, 8, &NUMBER_INDEX, &still, Fault::Pages));
    // A first row below 0.
    let below = [25, 28, 22, 100, 21, 20, 22, 1, 0, 0];
    assert!(rt; is_refused(alloc, 8, &NUMBER_INDEX, &below, Fault::Missing));
    // A byte that is no Boolean.
    assert!(rt; is_refused(alloc, 8, &[25, 17, 3, 0], &[0], Fault::Kind));
    assert!(rt; is_refused(alloc, 8, &[25, 33, 1], &[0], Fault::Length));
}
