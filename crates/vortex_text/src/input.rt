//! The whole input, which is taken piece by piece as it comes in.
ghost use Rattle.std.specs.Prelude.{◌<◌, IfOk, IfSome, IsErrOf, OnOk, length};
ghost use Rattle.std.specs.Io.KnownBytes.{IsAtEnd};
ghost use Rattle.vortex_text.specs.Inputs.{HoldsInput, read_failed};
ghost use Rattle.vortex_text.specs.Streams.{MayHaveFailed, TellsFailure};
ghost use Rattle.vortex_text.specs.declared.streams.TheConstants.{INPUT_LIMIT};

use crate::open_text::{OpenText, PushError};
use crate::streams::Source;
use std::alloc::Global;

// How many bytes are asked for at once.
const CHUNK: usize = 65_536;

/// Why the input was not read.
#[derive(Debug, Drop)]
pub enum ReadError {
    /// A growth was refused.
    Memory,
    /// A read failed. One that was interrupted has failed.
    Failed,
    /// The input goes past `INPUT_LIMIT`.
    TooLong,
}

/// Reads the whole input. No read is tried again. Lines are read as they end, and what is held is
/// what they say and the last line; behind a bad line the rest is read all the same.
#[tactic(auto, using(crate::proofs::StreamLemmas::may_have_failed))]
pub fn read_all<R: Source>(alloc: Global, reader: &mut R) -> Result<OpenText, ReadError>
    // All that the reader had, within the limit.
    ensures whole { IfOk result (HoldsInput (R.remaining reader.old)) }
    ensures end { OnOk result (IsAtEnd (R.remaining reader.new)) }
    ensures too_long { IsErrOf result ReadError.TooLong
        → IfSome (R.remaining reader.old) (λ bytes. INPUT_LIMIT < length bytes) }
    ensures failed { IsErrOf result ReadError.Failed → MayHaveFailed (R.has_failed reader.new) }
    // A read has failed exactly where that is the error: none makes up for one before it.
    ensures told { TellsFailure (R.has_failed reader.old) (R.has_failed reader.new)
        (read_failed result) }
{
    let mut text = OpenText::new(alloc);
    let mut chunk = [0u8; CHUNK];
    'reads: loop {
        let count = match reader.read_once(&mut chunk) {
            Ok(count) => count,
            Err(_) => return Err(ReadError::Failed),
        };
        if count == 0 {
            return Ok(text);
        }
        match text.push(alloc, &chunk[..count]) {
            Ok(()) => {}
            Err(PushError::Memory) => return Err(ReadError::Memory),
            Err(PushError::TooLong) => return Err(ReadError::TooLong),
        }
    }
}
