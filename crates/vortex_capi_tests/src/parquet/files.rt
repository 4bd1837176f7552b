//! A file of two row groups, bytes that are no footers, and values of the compact protocol.
use crate::parquet::file::FILE;
use std::alloc::Global;
use std::process::Abort;
use vortex_base::pvalue::PValue;
use vortex_base::scalar_value::ScalarValue;
use vortex_parquet::columns::{Column, Content, Leaf, LeftOut, columns_of, lookup};
use vortex_parquet::compact::Kind;
use vortex_parquet::footer::{footer_of, length_of};
use vortex_parquet::laws::{fields_of, value_end};
use vortex_parquet::records::file_of;
use vortex_parquet::stats::{GroupStats, groups_of};
use vortex_parquet::{Fault, ReadError};
use vortex_stats::precision::Precision;
use vortex_stats::stat::Stat;

fn leaf(columns: &[Column<'_>], name: &[u8], leaves: &mut Vec<Leaf>) -> Result<(), ReadError> {
    if let Some(Content::Leaf(leaf)) = lookup(columns, name) {
        leaves.push(leaf)?;
    }
    Ok(())
}

// Reads the statistics of these columns in each row group of a file.
fn read(alloc: Global, file: &[u8], names: &[&[u8]]) -> Result<Vec<GroupStats>, ReadError> {
    let footer = footer_of(file)?;
    let file = file_of(alloc, footer)?;
    let columns = columns_of(alloc, &file.schema)?;
    let mut leaves = Vec::new(alloc);
    for name in names {
        leaf(&columns.columns, *name, &mut leaves)?;
    }
    groups_of(alloc, &leaves, columns.leaves, &file)
}

fn expect_value(
    rt: &impl Abort,
    group: &GroupStats,
    place: usize,
    stat: Stat,
    value: Precision<ScalarValue>,
) {
    match group.stats.get(place) {
        Some(set) => match set.get(stat) {
            Ok(found) => assert!(rt; found == value),
            Err(_) => assert!(rt; false),
        },
        None => assert!(rt; false),
    }
}

fn number(n: PValue) -> ScalarValue {
    ScalarValue::Primitive(n)
}

// Whether the bytes are refused so.
fn is_refused(alloc: Global, file: &[u8], fault: Fault) -> bool {
    match read(alloc, file, &[]) {
        Err(ReadError::Fault(found)) => found == fault,
        _ => false,
    }
}

fn expect_refused(rt: &impl Abort, alloc: Global, rows: &[(&[u8], Fault)]) {
    for (file, fault) in rows {
        assert!(rt; is_refused(alloc, file, *fault));
    }
}

fn expect_first(rt: &impl Abort, group: &GroupStats) {
    assert!(rt; group.rows == 3 && group.size == Some(300) && group.stats.len() == 4);
    let max = Precision::Exact(number(PValue::I64(9)));
    let min = Precision::Inexact(number(PValue::I64(-1)));
    let nulls = Precision::Exact(number(PValue::U64(1)));
    expect_value(rt, group, 0, Stat::Max, max);
    expect_value(rt, group, 0, Stat::Min, min);
    expect_value(rt, group, 0, Stat::NullCount, nulls);
    // The column is REQUIRED, and its statistics tell no null count.
    let none = Precision::Exact(number(PValue::U64(0)));
    expect_value(rt, group, 1, Stat::NullCount, none);
    expect_value(rt, group, 2, Stat::Max, Precision::Absent);
    // NaN may stand above the greatest of the floats that is told.
    expect_value(rt, group, 3, Stat::Max, Precision::Absent);
}

fn expect_second(rt: &impl Abort, group: &GroupStats) {
    assert!(rt; group.rows == 2 && group.size == None && group.stats.len() == 4);
    expect_value(rt, group, 0, Stat::Max, Precision::Absent);
    expect_value(rt, group, 1, Stat::Max, Precision::Absent);
    let max = Precision::Inexact(number(PValue::U32(4_294_967_295)));
    expect_value(rt, group, 2, Stat::Max, max);
}

#[test]
fn file_gives_rows_and_sets(rt: HostRuntime) {
    match read(rt.alloc(), &FILE, &[b"a", b"s", b"u", b"f"]) {
        Ok(groups) => match groups.as_slice() {
            [first, second] => {
                expect_first(&rt, first);
                expect_second(&rt, second);
            }
            _ => assert!(&rt; false),
        },
        Err(_) => assert!(&rt; false),
    }
}

#[test]
fn bytes_that_are_no_footer_are_refused_by_name(rt: HostRuntime) {
    let rows: [(&[u8], Fault); 5] = [
        (&[], Fault::NotParquet),
        (b"....PARE", Fault::Encrypted),
        (&[9, 0, 0, 0, 80, 65, 82, 49], Fault::FooterLength),
        (&[0, 0, 0, 0, 80, 65, 82, 49], Fault::Short),
        (&[0, 1, 0, 0, 0, 80, 65, 82, 49], Fault::Schema),
    ];
    expect_refused(&rt, rt.alloc(), &rows);
}

#[test]
fn values_end_where_the_grammar_says(rt: HostRuntime) {
    let deep = [0x1c; 40];
    assert!(rt;
        matches!(
            value_end(Kind::Struct, &deep),
            Err(ReadError::Fault(Fault::Depth))
        )
    );
    assert!(rt; matches!(value_end(Kind::Struct, &[0x1c, 0x1c, 0, 0, 0]), Ok([])));
    assert!(rt; matches!(value_end(Kind::List, &[0, 7]), Ok([7])));
    assert!(rt; matches!(length_of(&[8, 1, 0, 0, 80, 65, 82, 49]), Ok(264)));
}

#[test]
fn fields_are_listed(rt: HostRuntime) {
    match fields_of(rt.alloc(), &[21, 4, 38, 6, 0, 9]) {
        Ok((fields, rest)) => {
            assert!(&rt; fields.len() == 2 && rest.len() == 1);
        }
        Err(_) => assert!(&rt; false),
    }
}

#[test]
fn name_of_two_columns_is_read_of_none(rt: HostRuntime) {
    let content = Content::LeftOut(LeftOut::Nested);
    let columns = [
        Column {
            name: b"a",
            content,
        },
        Column {
            name: b"b",
            content,
        },
        Column {
            name: b"a",
            content,
        },
    ];
    let twice = Content::LeftOut(LeftOut::Duplicate);
    assert!(rt; lookup(&columns, b"a") == Some(twice));
    assert!(rt; lookup(&columns, b"b") == Some(content));
    assert!(rt; lookup(&columns, b"c") == None);
}
