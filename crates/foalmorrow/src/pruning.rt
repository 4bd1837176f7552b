// Which row groups of Parquet files a condition leaves to be read.
ghost use Rattle.std.specs.Prelude.{◌≡◌};
ghost use Rattle.foalmorrow.specs.Words.{verdict_word};

use crate::command::{Format, Prune};
use crate::footers::{FileError, footer_end, status_of};
use crate::known::write_known;
use crate::underlining::underlined;
use serde::Serialize;
use std::alloc::{AllocError, Global};
use std::fs::Files;
use vortex_base::scope::Scope;
use vortex_parquet::columns::columns_of;
use vortex_parquet::footer::footer_of;
use vortex_parquet::records::file_of;
use vortex_predicates::{FooterCondition, GroupVerdicts};
use vortex_prune::{Rules, Verdict};
use vortex_sql::syntax::parse::Names;
use vortex_text::streams::{Sink, write_out};

// A row group with what is to be done with it.
#[derive(Serialize, Drop)]
struct Group {
    // The first row of it in the file, and the first row behind it.
    start: u64,
    stop: u64,
    verdict: &'static str,
}

// The answer for a file.
#[derive(Serialize, Drop)]
struct Answer<'a> {
    file: &'a str,
    condition: &'a str,
    rows: u64,
    rows_to_read: u64,
    row_groups: Vec<Group>,
    // The parts of the condition that take no part in pruning.
    unread: Vec<&'a str>,
}

// Returns the word for a verdict.
fn word_of(verdict: Verdict) -> &'static str
    ensures { result.now ≡ verdict_word verdict }
{
    match verdict {
        Verdict::Skipped => "skip",
        Verdict::Whole => "whole",
        Verdict::Tested => "read",
    }
}

// Returns the texts between places.
fn texts_at<'a>(
    alloc: Global,
    text: &'a str,
    places: &[(usize, usize)],
) -> Result<Vec<&'a str>, AllocError> {
    let mut texts = Vec::with_capacity(alloc, places.len())?;
    for (start, end) in places {
        texts.push(text.get(*start..*end).unwrap_or(""))?;
    }
    Ok(texts)
}

// Returns what is to be done with each row group.
fn groups_of(alloc: Global, found: &GroupVerdicts) -> Result<(Vec<Group>, u64, u64), FileError> {
    let mut groups = Vec::with_capacity(alloc, found.verdicts.len())?;
    let (mut start, mut to_read) = (0u64, 0u64);
    for (stats, verdict) in found.groups.iter().zip(found.verdicts.iter()) {
        let stop = start.checked_add(stats.rows).ok_or(FileError::Rows)?;
        if *verdict != Verdict::Skipped {
            to_read = to_read.saturating_add(stats.rows);
        }
        groups.push(Group {
            start,
            stop,
            verdict: word_of(*verdict),
        })?;
        start = stop;
    }
    Ok((groups, start, to_read))
}

// Returns the names of the columns of a scope.
fn names_of(alloc: Global, scope: &Scope) -> Result<Vec<&str>, AllocError> {
    let mut names = Vec::with_capacity(alloc, scope.len())?;
    for place in 0..scope.len() {
        names.push(scope.name(place))?;
    }
    Ok(names)
}

// Returns the answer for the file with this end, and where that is asked for says what is known of
// it and underlines the parts of the condition that aren't read.
fn answer_of<'a, E: Sink>(
    alloc: Global,
    asked: &Prune<'a>,
    file: &'a str,
    end: &[u8],
    reasons: &mut E,
) -> Result<Answer<'a>, FileError> {
    let data = file_of(alloc, footer_of(end)?)?;
    let columns = columns_of(alloc, &data.schema)?;
    let rules = Rules::builtin(alloc);
    let names = Names::Plain;
    let condition = FooterCondition::try_new(alloc, &columns, asked.condition, names, &rules)?;
    let found = condition.prune(alloc, columns.leaves, &data)?;
    if asked.is_explained {
        let names = names_of(alloc, condition.condition.scope())?;
        write_known(
            alloc,
            file,
            &names,
            &condition.leaves,
            &found.groups,
            reasons,
        )?;
        let shown = underlined(alloc, asked.condition, condition.unread())?;
        write_out(reasons, shown.as_bytes());
    }
    let (row_groups, rows, rows_to_read) = groups_of(alloc, &found)?;
    Ok(Answer {
        file,
        condition: asked.condition,
        rows,
        rows_to_read,
        row_groups,
        unread: texts_at(alloc, asked.condition, condition.unread())?,
    })
}

// Writes an answer as lines: one for the file, one for each row group, and one for each part that
// isn't read.
fn write_text<W: Sink>(
    alloc: Global,
    answer: &Answer<'_>,
    writer: &mut W,
) -> Result<bool, AllocError> {
    let (file, rows, to_read) = (answer.file, answer.rows, answer.rows_to_read);
    let count = answer.row_groups.len();
    let head = format!(in alloc; "{file}: {to_read} of {rows} rows to read, {count} row groups\n")?;
    let mut is_written = write_out(writer, head.as_bytes());
    for (place, group) in answer.row_groups.iter().enumerate() {
        let (start, stop, verdict) = (group.start, group.stop, group.verdict);
        let line = format!(in alloc; "{place} {verdict} {start}..{stop}\n")?;
        is_written = is_written && write_out(writer, line.as_bytes());
    }
    for text in &answer.unread {
        let line = format!(in alloc; "unread: {text}\n")?;
        is_written = is_written && write_out(writer, line.as_bytes());
    }
    Ok(is_written)
}

// Writes an answer as a line of JSON.
fn write_json<W: Sink>(
    alloc: Global,
    answer: &Answer<'_>,
    writer: &mut W,
) -> Result<bool, FileError> {
    match serde_json::to_string(alloc, answer) {
        Ok(text) => Ok(write_out(writer, text.as_bytes()) && write_out(writer, b"\n")),
        Err(_) => Err(FileError::Memory),
    }
}

/// Prunes one file, and writes the answer. False comes back where it isn't written whole.
fn prune_file<'a, F: Files, W: Sink, E: Sink>(
    rt: &F,
    alloc: Global,
    asked: &Prune<'a>,
    file: &'a str,
    writer: &mut W,
    reasons: &mut E,
) -> Result<bool, FileError> {
    let end = footer_end(rt, alloc, file)?;
    let answer = answer_of(alloc, asked, file, &end, reasons)?;
    match asked.format {
        Format::Text => Ok(write_text(alloc, &answer, writer)?),
        Format::Json => write_json(alloc, &answer, writer),
    }
}

/// Prunes each file in turn and returns the greatest status.
pub fn prune_files<F: Files, W: Sink, E: Sink>(
    rt: &F,
    alloc: Global,
    asked: &Prune<'_>,
    writer: &mut W,
    reasons: &mut E,
) -> u8 {
    let mut greatest = 0;
    for file in &asked.files {
        let done = prune_file(rt, alloc, asked, *file, writer, reasons);
        greatest = greatest.max(status_of(alloc, *file, done, reasons));
    }
    greatest
}
