// The row groups of Parquet files, and what is known of their columns.
use crate::command::Show;
use crate::footers::{FileError, footer_end, status_of};
use crate::known::write_known;
use std::alloc::{AllocError, Global};
use std::fs::Files;
use vortex_parquet::columns::{Columns, Content, Leaf, LeftOut, columns_of};
use vortex_parquet::footer::footer_of;
use vortex_parquet::records::file_of;
use vortex_parquet::stats::groups_of;
use vortex_text::streams::{Sink, write_out};

// The columns of a file that are read, and lines for those that aren't.
#[derive(Drop)]
struct ReadColumns<'a> {
    names: Vec<&'a str>,
    leaves: Vec<Leaf>,
    left_out: String,
}

// Returns why a column isn't read.
fn reason(why: LeftOut) -> &'static str {
    match why {
        LeftOut::Nested => "it has columns below it",
        LeftOut::Repeated => "it has a list of values a row",
        LeftOut::Type => "the order of its values isn't known",
        LeftOut::Duplicate => "another column has its name",
    }
}

// Returns which columns are read.
fn read_columns<'a>(alloc: Global, columns: &Columns<'a>) -> Result<ReadColumns<'a>, AllocError> {
    let mut names = Vec::new(alloc);
    let mut leaves = Vec::new(alloc);
    let mut left_out = String::new(alloc);
    for column in &columns.columns {
        let name = str::from_utf8(column.name).unwrap_or("a name that isn't UTF-8");
        match column.content {
            Content::Leaf(leaf) => {
                names.push(name)?;
                leaves.push(leaf)?;
            }
            Content::LeftOut(why) => {
                let reason = reason(why);
                writeln!(left_out, "left out: {name}: {reason}")?;
            }
        }
    }
    Ok(ReadColumns {
        names,
        leaves,
        left_out,
    })
}

// Shows one file. False comes back where the answer isn't written whole.
fn show_file<F: Files, W: Sink>(
    rt: &F,
    alloc: Global,
    file: &str,
    writer: &mut W,
) -> Result<bool, FileError> {
    let end = footer_end(rt, alloc, file)?;
    let data = file_of(alloc, footer_of(&end)?)?;
    let columns = columns_of(alloc, &data.schema)?;
    let read = read_columns(alloc, &columns)?;
    let groups = groups_of(alloc, &read.leaves, columns.leaves, &data)?;
    Ok(
        write_known(alloc, file, &read.names, &read.leaves, &groups, writer)?
            && write_out(writer, read.left_out.as_bytes()),
    )
}

/// Shows each file in turn and returns the greatest status.
pub fn show_files<F: Files, W: Sink, E: Sink>(
    rt: &F,
    alloc: Global,
    asked: &Show<'_>,
    writer: &mut W,
    reasons: &mut E,
) -> u8 {
    let mut greatest = 0;
    for file in &asked.files {
        let done = show_file(rt, alloc, *file, writer);
        greatest = greatest.max(status_of(alloc, *file, done, reasons));
    }
    greatest
}
