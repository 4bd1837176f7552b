//! From the bytes that come in to those that go out.
ghost use Rattle.std.specs.Prelude.{◌≡◌, ◌≢◌, ◌⊎◌, ◌∷◌, ◌++◌, [], ℕ, List, IfOk, IfSome, IfNone, IsTrue, OnSome, codes, string_bytes};
ghost use Rattle.std.specs.Bool.{OnFalse};
ghost use Rattle.std.specs.Io.KnownBytes.{Appends};
ghost use Rattle.vortex_text.specs.OpenTexts.{IsOpenText};
ghost use Rattle.vortex_text.specs.Printing.{bad_text};
ghost use Rattle.vortex_text.specs.Program.{Answers, IsFullScan, ReadsOnce, Stops, WritesFullScan, WritesOnce, reply_to};
ghost use Rattle.vortex_text.specs.Replies.{said};
ghost use Rattle.vortex_text.specs.Streams.{AppendsUnlessFailed, CutsWhereFailed, HasNotFailed, IsCutOff};

use crate::bad_line::{BadInput, TextError};
use crate::input::{ReadError, read_all};
use crate::open_text::OpenText;
use crate::printing::{print_bad, print_scan};
use crate::query::scan_query;
use crate::streams::{Sink, Source, write_out};
use std::alloc::{AllocError, Global};
use vortex_prune::RangeScan;

// Why there is no answer, beside the word that the answer is then.
const NO_PREDICATE: &str = "predicate: the expression behind where is not of type bool\n";

const NO_MEMORY: &str = "memory: a request for memory was refused\n";

const NOT_READ: &str = "read: the input could not be read to its end\n";

const TOO_LONG: &str = "input: the input is longer than 16777216 bytes\n";

// Why an answer is cut off.
const NOT_WRITTEN: &str = "write: the answer could not be written to its end\n";

// The answer to a text without a scan: the status, what is printed, and why there is no scan.
#[derive(Drop)]
struct Refusal {
    status: u8,
    answer: String,
    reason: String,
}

type Reply = Result<RangeScan, Refusal>;

// A reason, if there was memory for it: where there was none the answer stands without it.
fn told(alloc: Global, reason: Result<String, AllocError>) -> String {
    match reason {
        Ok(reason) => reason,
        Err(_) => String::new(alloc),
    }
}

// The reply to a bad line.
fn refused_line(alloc: Global, bad: BadInput) -> Result<Refusal, AllocError>
    ensures status { IfOk result (λ r. r.status ≡ 2) }
    ensures printed { IfOk result (λ r. string_bytes r.answer ≡ bad_text bad.number) }
{
    let answer = print_bad(alloc, bad.number)?;
    let reason = told(alloc, bad.reason(alloc));
    Ok(Refusal {
        status: 2,
        answer,
        reason,
    })
}

// The reply to a predicate of another type than Bool.
fn refused_predicate(alloc: Global) -> Result<Refusal, AllocError>
    ensures status { IfOk result (λ r. r.status ≡ 1) }
    ensures printed { IfOk result (λ r. string_bytes r.answer ≡ codes "predicate" ++ 10 ∷ []) }
{
    Ok(Refusal {
        status: 1,
        answer: String::from_str(alloc, "predicate\n")?,
        reason: told(alloc, String::from_str(alloc, NO_PREDICATE)),
    })
}

// The reply to a text that was pushed.
fn reply_to(alloc: Global, input: OpenText) -> Result<Reply, AllocError>
    ensures said { (text : List ℕ) → IsOpenText text input
        → IfOk result (λ reply. said reply ≡ reply_to text) }
    // Where all statistics are true no row is lost.
    ensures lossless { (text : List ℕ) → IsOpenText text input
        → IfOk result (λ reply. IsFullScan text (said reply).1) }
{
    let query = match input.close(alloc) {
        Ok(query) => query,
        Err(TextError::BadLine(bad)) => return Ok(Err(refused_line(alloc, bad)?)),
        Err(TextError::Memory) => return Err(AllocError),
    };
    match scan_query(alloc, query)? {
        Some(scan) => Ok(Ok(scan)),
        None => Ok(Err(refused_predicate(alloc)?)),
    }
}

// Writes a reason. A writer that fails here changes nothing of the answer.
fn tell<E: Sink>(reasons: &mut E, reason: &str) {
    let _ = write_out(reasons, reason.as_bytes());
}

// Says why there is no answer, in a word and in a sentence.
fn refuse<W: Sink, E: Sink>(writer: &mut W, reasons: &mut E, word: &[u8], sentence: &str) -> u8
    ensures status { result ≡ 1 }
    // All of the word, unless a write failed.
    ensures written { AppendsUnlessFailed (W.has_failed writer.new) (W.contents writer.old)
        (W.contents writer.new) word.now }
    // After a write that failed nothing more of it.
    ensures cut { CutsWhereFailed (W.has_failed writer.old) (W.has_failed writer.new)
        (W.contents writer.old) (W.contents writer.new) word.now }
{
    let is_written = write_out(writer, word);
    tell(reasons, sentence);
    if !is_written {
        tell(reasons, NOT_WRITTEN);
    }
    1
}

// Writes a reply. False where a write failed.
fn write_reply<W: Sink>(writer: &mut W, reply: &Reply) -> bool
    ensures written { IsTrue result
        → Appends (W.contents writer.old) (W.contents writer.new) (said reply.now).1 }
    ensures unfailed { IsTrue result
        → HasNotFailed (W.has_failed writer.old) (W.has_failed writer.new) }
    ensures cut { OnFalse result (IsCutOff (W.has_failed writer.new) (W.contents writer.old)
        (W.contents writer.new) (said reply.now).1) }
{
    match reply {
        Ok(scan) => print_scan(writer, scan).is_ok(),
        Err(refusal) => write_out(writer, refusal.answer.as_bytes()),
    }
}

// The status of a reply.
fn status_of(reply: &Reply) -> u8
    ensures { result ≡ (said reply.now).0 }
{
    match reply {
        Ok(_) => 0,
        Err(refusal) => refusal.status,
    }
}

// Tells why there is no scan, where there is none.
fn tell_refusal<E: Sink>(reasons: &mut E, reply: &Reply) {
    if let Err(refusal) = reply {
        tell(reasons, &refusal.reason);
    }
}

// Writes a reply, and returns its status. The reason of a refusal is told. None where a write
// failed, which is told too.
fn send<W: Sink, E: Sink>(writer: &mut W, reasons: &mut E, reply: Reply) -> Option<u8>
    ensures status { IfSome result (λ status. status ≡ (said reply).0) }
    ensures written { OnSome result
        (Appends (W.contents writer.old) (W.contents writer.new) (said reply).1) }
    ensures unfailed { OnSome result
        (HasNotFailed (W.has_failed writer.old) (W.has_failed writer.new)) }
    ensures cut { IfNone result (IsCutOff (W.has_failed writer.new) (W.contents writer.old)
        (W.contents writer.new) (said reply).1) }
{
    tell_refusal(reasons, &reply);
    if write_reply(writer, &reply) {
        return Some(status_of(&reply));
    }
    tell(reasons, NOT_WRITTEN);
    None
}

/// Reads the whole input, and writes the answer to it and nothing else. The status is 0 for a scan,
/// 2 for a bad line, and 1 where the predicate isn't of type Bool, or memory, a read or a write was
/// refused, or the input goes past its limit. Where there is no scan, `reasons` gets a line that
/// says why: of a bad line the word that is at fault and what was expected there. It gets another
/// one where the answer could not be written. What becomes of these lines has no part in the
/// status.
pub fn run<R: Source, W: Sink, E: Sink>(
    alloc: Global,
    reader: &mut R,
    writer: &mut W,
    reasons: &mut E,
) -> u8
    // The whole answer was written.
    ensures answered { result ≢ 1 → IfSome (R.remaining reader.old)
        (λ input. Answers input result (W.contents writer.old) (W.contents writer.new)) }
    // Also where the reader doesn't tell its bytes, it is the answer to some input.
    ensures some_input { result ≢ 1 → (input : List ℕ)
        × Answers input result (W.contents writer.old) (W.contents writer.new) }
    // Status 1 is the answer that the predicate isn't of type Bool, or a word says why there is no
    // answer, or a write failed and cut the word or the answer off.
    ensures refused { result ≡ 1 → IfSome (R.remaining reader.old)
        (λ input. Answers input 1 (W.contents writer.old) (W.contents writer.new)
        ⊎ Stops input (R.has_failed reader.new) (W.has_failed writer.new)
        (W.contents writer.old) (W.contents writer.new)) }
    // So it is of some input also where the reader doesn't tell its bytes.
    ensures some_refused { result ≡ 1 → (input : List ℕ)
        × (Answers input 1 (W.contents writer.old) (W.contents writer.new)
        ⊎ Stops input (R.has_failed reader.new) (W.has_failed writer.new)
        (W.contents writer.old) (W.contents writer.new)) }
    // A read that failed is not made up for by a later one: it ends the run.
    ensures reads { ReadsOnce (R.has_failed reader.old) (R.has_failed reader.new) result
        (W.has_failed writer.new) (W.contents writer.old) (W.contents writer.new) }
    // Nor is a write that failed or took nothing.
    ensures writes { IfSome (R.remaining reader.old) (λ input. WritesOnce input
        (R.has_failed reader.new) (W.has_failed writer.old) (W.has_failed writer.new) result
        (W.contents writer.old) (W.contents writer.new)) }
    // So it is also where the reader doesn't tell its bytes.
    ensures some_writes { (input : List ℕ) × WritesOnce input (R.has_failed reader.new)
        (W.has_failed writer.old) (W.has_failed writer.new) result
        (W.contents writer.old) (W.contents writer.new) }
    // Where all statistics that the input names are true, the answer has the full scan's rows.
    ensures lossless { result ≡ 0 → IfSome (R.remaining reader.old)
        (λ input. WritesFullScan input (W.contents writer.old) (W.contents writer.new)) }
{
    let input = match read_all(alloc, reader) {
        Ok(input) => input,
        Err(ReadError::Memory) => return refuse(writer, reasons, b"memory\n", NO_MEMORY),
        Err(ReadError::Failed) => return refuse(writer, reasons, b"read\n", NOT_READ),
        Err(ReadError::TooLong) => return refuse(writer, reasons, b"input\n", TOO_LONG),
    };
    let Ok(reply) = reply_to(alloc, input) else {
        return refuse(writer, reasons, b"memory\n", NO_MEMORY);
    };
    match send(writer, reasons, reply) {
        Some(status) => status,
        None => 1,
    }
}
