// Answers to texts of the program's language, of standard input and of files.
ghost use Rattle.std.specs.Prelude.{◌≡◌, ◌≢◌, ◌⊎◌, ℕ, List, IfSome};
ghost use Rattle.vortex_text.specs.Program.{Answers, ReadsOnce, Stops, WritesFullScan, WritesOnce};

use crate::command::Scan;
use std::alloc::Global;
use std::fs;
use std::rt::Files;
use vortex_text::explain::program::run_explained;
use vortex_text::program::run;
use vortex_text::streams::{Sink, Source, write_out};

// The status where a file can't be opened.
const NOT_OPENED: u8 = 66;

/// Answers one text as the program does, with `run`'s clauses, and explains the scan to `reasons`
/// where that is asked for. The status comes back, and the reader.
pub fn scan_input<R: Source, W: Sink, E: Sink>(
    alloc: Global,
    is_explained: bool,
    mut reader: R,
    writer: &mut W,
    reasons: &mut E,
) -> (u8, R)
    // The whole answer was written.
    ensures answered { result.0 ≢ 1 → IfSome (R.remaining reader)
        (λ input. Answers input result.0 (W.contents writer.old) (W.contents writer.new)) }
    // Also where the reader doesn't tell its bytes, it is the answer to some input.
    ensures some_input { result.0 ≢ 1 → (input : List ℕ)
        × Answers input result.0 (W.contents writer.old) (W.contents writer.new) }
    // Status 1 is the answer that the predicate isn't of type Bool, or a word says why there is no
    // answer, or a write failed and cut the word or the answer off.
    ensures refused { result.0 ≡ 1 → IfSome (R.remaining reader)
        (λ input. Answers input 1 (W.contents writer.old) (W.contents writer.new)
        ⊎ Stops input (R.has_failed result.1) (W.has_failed writer.new)
        (W.contents writer.old) (W.contents writer.new)) }
    // So it is of some input also where the reader doesn't tell its bytes.
    ensures some_refused { result.0 ≡ 1 → (input : List ℕ)
        × (Answers input 1 (W.contents writer.old) (W.contents writer.new)
        ⊎ Stops input (R.has_failed result.1) (W.has_failed writer.new)
        (W.contents writer.old) (W.contents writer.new)) }
    // A read that failed is not made up for by a later one: it ends the run.
    ensures reads { ReadsOnce (R.has_failed reader) (R.has_failed result.1) result.0
        (W.has_failed writer.new) (W.contents writer.old) (W.contents writer.new) }
    // Nor is a write that failed or took nothing.
    ensures writes { IfSome (R.remaining reader) (λ input. WritesOnce input
        (R.has_failed result.1) (W.has_failed writer.old) (W.has_failed writer.new) result.0
        (W.contents writer.old) (W.contents writer.new)) }
    // So it is also where the reader doesn't tell its bytes.
    ensures some_writes { (input : List ℕ) × WritesOnce input (R.has_failed result.1)
        (W.has_failed writer.old) (W.has_failed writer.new) result.0
        (W.contents writer.old) (W.contents writer.new) }
    // Where all statistics that the input names are true, the answer has the full scan's rows.
    ensures lossless { result.0 ≡ 0 → IfSome (R.remaining reader)
        (λ input. WritesFullScan input (W.contents writer.old) (W.contents writer.new)) }
{
    if is_explained {
        run_explained(alloc, reader, writer, reasons)
    } else {
        let status = run(alloc, &mut reader, writer, reasons);
        (status, reader)
    }
}

// Says which file can't be opened.
fn tell_unopened<E: Sink>(reasons: &mut E, file: &str) {
    let _ = write_out(reasons, b"open: the file ");
    let _ = write_out(reasons, file.as_bytes());
    let _ = write_out(reasons, b" can't be opened\n");
}

// Answers one file.
fn scan_file<F: Files, W: Sink, E: Sink>(
    rt: &F,
    alloc: Global,
    is_explained: bool,
    file: &str,
    writer: &mut W,
    reasons: &mut E,
) -> u8 {
    match fs::open(rt, file) {
        Ok(reader) => scan_input(alloc, is_explained, reader, writer, reasons).0,
        Err(_) => {
            tell_unopened(reasons, file);
            NOT_OPENED
        }
    }
}

// Writes the name of the file whose answer follows.
fn write_name<W: Sink>(writer: &mut W, file: &str) -> bool {
    write_out(writer, file.as_bytes()) && write_out(writer, b":\n")
}

/// Answers each file in turn and returns the greatest status. Of several files each answer stands
/// behind a line with the name of its file and a colon.
pub fn scan_files<F: Files, W: Sink, E: Sink>(
    rt: &F,
    alloc: Global,
    scan: &Scan<'_>,
    writer: &mut W,
    reasons: &mut E,
) -> u8 {
    let is_named = scan.files.len() > 1;
    let mut greatest = 0;
    for file in &scan.files {
        if is_named && !write_name(writer, *file) {
            let _ = write_out(reasons, b"write: the name of a file could not be written\n");
            return 1;
        }
        let status = scan_file(rt, alloc, scan.is_explained, *file, writer, reasons);
        greatest = greatest.max(status);
    }
    greatest
}
