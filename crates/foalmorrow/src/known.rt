// Writes the statistics of a Parquet file's row groups as lines.
use crate::footers::FileError;
use crate::values::value_text;
use std::alloc::{AllocError, Global};
use vortex_base::scalar_value::ScalarValue;
use vortex_parquet::columns::Leaf;
use vortex_parquet::meaning::LeafMeaning;
use vortex_parquet::stats::GroupStats;
use vortex_stats::precision::Precision;
use vortex_stats::stat::Stat;
use vortex_stats::stats_set::StatsSet;
use vortex_text::streams::{Sink, write_out};

// The statistics that are told of a column, and how a bound is written that may be passed over.
const TOLD: [(Stat, &str, &str); 3] = [
    (Stat::Min, "min", ">="),
    (Stat::Max, "max", "<="),
    (Stat::NullCount, "null_count", "<="),
];

// Adds one statistic, if it is known.
fn push_stat(
    alloc: Global,
    line: &mut String,
    told: (Stat, &str, &str),
    meaning: LeafMeaning,
    known: &Precision<ScalarValue>,
) -> Result<(), AllocError> {
    let (_, name, sign) = told;
    match known {
        Precision::Exact(value) => {
            let value = value_text(alloc, meaning, value)?;
            write!(line, " {name} {value}")
        }
        Precision::Inexact(value) => {
            let value = value_text(alloc, meaning, value)?;
            write!(line, " {name} {sign} {value}")
        }
        Precision::Absent => Ok(()),
    }
}

// Returns what is known of a column in a row group.
fn column_line(
    alloc: Global,
    name: &str,
    meaning: LeafMeaning,
    set: &StatsSet,
) -> Result<String, FileError> {
    let mut line = format!(in alloc; "  {name}:")?;
    for told in TOLD {
        match set.get(told.0) {
            Ok(known) => push_stat(alloc, &mut line, told, meaning, &known)?,
            Err(_) => return Err(FileError::Memory),
        }
    }
    line.push_str("\n")?;
    Ok(line)
}

// Writes what is known of a row group.
fn write_group<W: Sink>(
    alloc: Global,
    names: &[&str],
    leaves: &[Leaf],
    group: &GroupStats,
    writer: &mut W,
) -> Result<bool, FileError> {
    let mut is_written = true;
    let columns = names.iter().zip(leaves.iter());
    for ((name, leaf), set) in columns.zip(group.stats.iter()) {
        let line = column_line(alloc, name, leaf.meaning, set)?;
        is_written = is_written && write_out(writer, line.as_bytes());
    }
    Ok(is_written)
}

/// Writes how many rows each row group of a file has, and what is known of these of its columns,
/// which stand in the order of their names. False comes back where they aren't written whole.
pub fn write_known<W: Sink>(
    alloc: Global,
    file: &str,
    names: &[&str],
    leaves: &[Leaf],
    groups: &[GroupStats],
    writer: &mut W,
) -> Result<bool, FileError> {
    let count = groups.len();
    let head = format!(in alloc; "{file}: {count} row groups\n")?;
    let mut is_written = write_out(writer, head.as_bytes());
    for (place, group) in groups.iter().enumerate() {
        let rows = group.rows;
        let line = format!(in alloc; "{place}: {rows} rows\n")?;
        is_written = is_written && write_out(writer, line.as_bytes());
        is_written = is_written && write_group(alloc, names, leaves, group, writer)?;
    }
    Ok(is_written)
}
