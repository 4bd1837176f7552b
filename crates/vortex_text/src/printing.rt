//! Printing of answers.
ghost use Rattle.std.specs.Prelude.{◌≡◌, ◌++◌, IfOk, OnErr, OnOk, codes, string_bytes};
ghost use Rattle.std.specs.Io.KnownBytes.{Appends};
ghost use Rattle.std.specs.List.{flat_map};
ghost use Rattle.vortex_text.specs.Printing.{bad_text, line_of, part_text, row_begin, row_text};
ghost use Rattle.vortex_text.specs.Printing.{scan_text, whole_text};
ghost use Rattle.vortex_text.specs.Streams.{HasNotFailed, IsCutOff, Passes};

use crate::page::{CutOff, Front, Page};
use crate::streams::Sink;
use std::alloc::{AllocError, Global};
use vortex_prune::scan::outcome::RangeScan;
use vortex_prune::scan::selected_rows::SelectedRows;

fn print_parts<W: Sink>(writer: &mut W, page: &mut Page, parts: &[usize]) -> Result<(), CutOff>
    ensures printed { OnOk result (Passes (W.contents writer.old) (W.contents writer.new)
        page.old page.new (flat_map part_text parts.now)) }
    ensures unfailed { OnOk result (HasNotFailed (W.has_failed writer.old)
        (W.has_failed writer.new)) }
    ensures cut { OnErr result (IsCutOff (W.has_failed writer.new) (W.contents writer.old)
        (W.contents writer.new) (page.old ++ flat_map part_text parts.now)) }
{
    let space = Front::space();
    for part in parts {
        page.put_number(writer, &space, *part)?;
    }
    Ok(())
}

// Goes from the rows of one part to those of another, or of the same.
#[inline(always)]
fn turn_to(begin: &mut Front, begun: &mut usize, part: usize)
    requires { begin.old ≡ row_begin begun.old }
    ensures begin { begin.new ≡ row_begin part }
    ensures begun { begun.new ≡ part }
{
    if *begun != part {
        *begin = Front::of_part(part);
        *begun = part;
    }
}

// Rows of one part stand behind one another, so what they begin with is mostly made already.
fn print_rows<W: Sink>(writer: &mut W, page: &mut Page, rows: &SelectedRows) -> Result<(), CutOff>
    ensures printed { OnOk result (Passes (W.contents writer.old) (W.contents writer.new)
        page.old page.new (flat_map row_text rows.now)) }
    ensures unfailed { OnOk result (HasNotFailed (W.has_failed writer.old)
        (W.has_failed writer.new)) }
    ensures cut { OnErr result (IsCutOff (W.has_failed writer.new) (W.contents writer.old)
        (W.contents writer.new) (page.old ++ flat_map row_text rows.now)) }
{
    let mut begun = 0;
    let mut begin = Front::of_part(begun);
    for (part, row) in rows.iter() {
        turn_to(&mut begin, &mut begun, part);
        page.put_number(writer, &begin, row)?;
    }
    Ok(())
}

// A line of parts behind its first word.
fn print_part_line<W: Sink>(
    writer: &mut W,
    page: &mut Page,
    word: &[u8],
    parts: &[usize],
) -> Result<(), CutOff>
    ensures printed { OnOk result (Passes (W.contents writer.old) (W.contents writer.new)
        page.old page.new (line_of word.now (flat_map part_text parts.now))) }
    ensures unfailed { OnOk result (HasNotFailed (W.has_failed writer.old)
        (W.has_failed writer.new)) }
    ensures cut { OnErr result (IsCutOff (W.has_failed writer.new) (W.contents writer.old)
        (W.contents writer.new) (page.old ++ line_of word.now (flat_map part_text parts.now))) }
{
    page.put(writer, word)?;
    print_parts(writer, page, parts)?;
    page.put(writer, b"\n")
}

// The line of rows.
fn print_row_line<W: Sink>(
    writer: &mut W,
    page: &mut Page,
    rows: &SelectedRows,
) -> Result<(), CutOff>
    ensures printed { OnOk result (Passes (W.contents writer.old) (W.contents writer.new)
        page.old page.new (line_of (codes "rows") (flat_map row_text rows.now))) }
    ensures unfailed { OnOk result (HasNotFailed (W.has_failed writer.old)
        (W.has_failed writer.new)) }
    ensures cut { OnErr result (IsCutOff (W.has_failed writer.new) (W.contents writer.old)
        (W.contents writer.new)
        (page.old ++ line_of (codes "rows") (flat_map row_text rows.now))) }
{
    page.put(writer, b"rows")?;
    print_rows(writer, page, rows)?;
    page.put(writer, b"\n")
}

// The line of the parts that are whole, where there are any.
fn print_whole<W: Sink>(writer: &mut W, page: &mut Page, parts: &[usize]) -> Result<(), CutOff>
    ensures printed { OnOk result (Passes (W.contents writer.old) (W.contents writer.new)
        page.old page.new (whole_text parts.now)) }
    ensures unfailed { OnOk result (HasNotFailed (W.has_failed writer.old)
        (W.has_failed writer.new)) }
    ensures cut { OnErr result (IsCutOff (W.has_failed writer.new) (W.contents writer.old)
        (W.contents writer.new) (page.old ++ whole_text parts.now)) }
{
    if parts.is_empty() {
        return Ok(());
    }
    print_part_line(writer, page, b"whole", parts)
}

/// Writes the lines of a scan, in no memory: the parts that were skipped, the rows that were
/// selected, and the parts that are whole where there are any. It stops at the first write that
/// fails or takes nothing.
pub fn print_scan<W: Sink>(writer: &mut W, scan: &RangeScan) -> Result<(), CutOff>
    ensures printed { OnOk result (Appends (W.contents writer.old) (W.contents writer.new)
        (scan_text scan.now.skipped.items scan.now.selected scan.now.whole.items)) }
    ensures unfailed { OnOk result (HasNotFailed (W.has_failed writer.old)
        (W.has_failed writer.new)) }
    ensures cut { OnErr result (IsCutOff (W.has_failed writer.new) (W.contents writer.old)
        (W.contents writer.new)
        (scan_text scan.now.skipped.items scan.now.selected scan.now.whole.items)) }
{
    let mut page = Page::new();
    print_part_line(writer, &mut page, b"skipped", &scan.skipped)?;
    print_row_line(writer, &mut page, &scan.selected)?;
    print_whole(writer, &mut page, &scan.whole)?;
    page.flush(writer)
}

/// The line that says which line is bad.
pub fn print_bad(alloc: Global, line: usize) -> Result<String, AllocError>
    ensures { IfOk result (λ text. string_bytes text ≡ bad_text line) }
{
    format!(in alloc; "line {line}: bad\n")
}
