//! The program's run with an explanation beside its answer.
ghost use Rattle.std.specs.Prelude.{◌≡◌, ◌≢◌, ◌⊎◌, ℕ, List, IfSome};
ghost use Rattle.vortex_text.specs.Program.{Answers, ReadsOnce, Stops, WritesFullScan, WritesOnce};

use crate::explain::text::explain_text;
use crate::program::run;
use crate::streams::{Sink, Source, write_out};
use std::alloc::Global;
use std::io;

// A reader, and what it has read, as long as there was memory for that.
#[derive(Drop)]
struct Keeping<R> {
    reader: R,
    text: Vec<u8>,
    is_whole: bool,
}

impl<R: Source> Source for Keeping<R> {
    ghost remaining = { λ k. R.remaining k.reader };

    ghost has_failed = { λ k. R.has_failed k.reader };

    fn read_once(&mut self, buf: &mut [u8]) -> io::Result<usize> {
        match self.reader.read_once(buf) {
            Ok(count) => {
                if self.text.extend_from_slice(&buf[..count]).is_err() {
                    self.is_whole = false;
                }
                Ok(count)
            }
            Err(refused) => Err(refused),
        }
    }
}

/// Runs as the program does, with `run`'s clauses. Where there is a scan `reasons` gets its
/// explanation. The status comes back, and the reader.
pub fn run_explained<R: Source, W: Sink, E: Sink>(
    alloc: Global,
    reader: R,
    writer: &mut W,
    reasons: &mut E,
) -> (u8, R)
    // The whole answer was written.
    ensures answered { result.0 ≢ 1 → IfSome (R.remaining reader)
        (λ input. Answers input result.0 (W.contents writer.old) (W.contents writer.new)) }
    // Also where the reader doesn't tell its bytes, it is the answer to some input.
    ensures some_input { result.0 ≢ 1 → (input : List ℕ)
        × Answers input result.0 (W.contents writer.old) (W.contents writer.new) }
    // Status 1 is the answer that the predicate isn't of type Bool, or a word says why there is no
    // answer, or a write failed and cut the word or the answer off.
    ensures refused { result.0 ≡ 1 → IfSome (R.remaining reader)
        (λ input. Answers input 1 (W.contents writer.old) (W.contents writer.new)
        ⊎ Stops input (R.has_failed result.1) (W.has_failed writer.new)
        (W.contents writer.old) (W.contents writer.new)) }
    // So it is of some input also where the reader doesn't tell its bytes.
    ensures some_refused { result.0 ≡ 1 → (input : List ℕ)
        × (Answers input 1 (W.contents writer.old) (W.contents writer.new)
        ⊎ Stops input (R.has_failed result.1) (W.has_failed writer.new)
        (W.contents writer.old) (W.contents writer.new)) }
    // A read that failed is not made up for by a later one: it ends the run.
    ensures reads { ReadsOnce (R.has_failed reader) (R.has_failed result.1) result.0
        (W.has_failed writer.new) (W.contents writer.old) (W.contents writer.new) }
    // Nor is a write that failed or took nothing.
    ensures writes { IfSome (R.remaining reader) (λ input. WritesOnce input
        (R.has_failed result.1) (W.has_failed writer.old) (W.has_failed writer.new) result.0
        (W.contents writer.old) (W.contents writer.new)) }
    // So it is also where the reader doesn't tell its bytes.
    ensures some_writes { (input : List ℕ) × WritesOnce input (R.has_failed result.1)
        (W.has_failed writer.old) (W.has_failed writer.new) result.0
        (W.contents writer.old) (W.contents writer.new) }
    // Where all statistics that the input names are true, the answer has the full scan's rows.
    ensures lossless { result.0 ≡ 0 → IfSome (R.remaining reader)
        (λ input. WritesFullScan input (W.contents writer.old) (W.contents writer.new)) }
{
    let mut keeping = Keeping {
        reader,
        text: Vec::new(alloc),
        is_whole: true,
    };
    let status = run(alloc, &mut keeping, writer, reasons);
    let Keeping {
        reader,
        text,
        is_whole,
    } = keeping;
    if status == 0 && is_whole {
        if let Ok(Some(told)) = explain_text(alloc, &text) {
            let _ = write_out(reasons, told.as_bytes());
        }
    }
    (status, reader)
}
