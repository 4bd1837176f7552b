//! The bytes that come in, and the bytes that go out.
ghost use Rattle.std.specs.Prelude.{ℕ, Bool, List, Option, None, IsTrue, is_err};
ghost use Rattle.std.specs.Bool.{OnFalse};
ghost use Rattle.std.specs.Io.{ReadsAtMost, WritesAtMost};
ghost use Rattle.std.specs.Io.KnownBytes.{Appends, ReadConsumes, WriteAppends};
ghost use Rattle.vortex_text.specs.Streams.{AppendsProperFront, HasNotFailed, MayHaveFailed, TellsFailure, takes_none};

use std::io;
use std::io::{Read, Write};

/// How many bytes of input are read at the most.
pub const INPUT_LIMIT: usize = 16_777_216;

/// A stream that a run reads from. Every reader is one; one that isn't may tell whether a read has
/// failed.
pub trait Source {
    // The bytes that reads will give from here on, where they are known.
    ghost remaining: { Self → Option (List ℕ) };

    // Whether a read has failed, where that is told.
    ghost has_failed: { Self → Option Bool };

    /// Reads once: some bytes to the front of `buf`. Returns how many: none only at the end or
    /// without room.
    fn read_once(&mut self, buf: &mut [u8]) -> io::Result<usize>
        ensures bound { ReadsAtMost result buf.new }
        ensures bytes { ReadConsumes (remaining self.old) (remaining self.new) result buf.new }
        ensures told { TellsFailure (has_failed self.old) (has_failed self.new) (is_err result) };
}

impl<R: Read> Source for R {
    ghost remaining = { R.remaining };

    ghost has_failed = { λ _. None };

    fn read_once(&mut self, buf: &mut [u8]) -> io::Result<usize> {
        self.read(buf)
    }
}

/// A stream that a run writes to. Every writer is one; one that isn't may tell whether a write has
/// failed.
pub trait Sink {
    // The bytes that it holds, where they are known.
    ghost contents: { Self → Option (List ℕ) };

    // Whether a write has failed or taken nothing, where that is told.
    ghost has_failed: { Self → Option Bool };

    /// Writes once: some of the bytes, from their front. Returns how many. A write that takes none
    /// has failed too.
    fn write_once(&mut self, bytes: &[u8]) -> io::Result<usize>
        ensures bound { WritesAtMost result bytes.now }
        ensures bytes { WriteAppends (contents self.old) (contents self.new) result bytes.now }
        ensures told { TellsFailure (has_failed self.old) (has_failed self.new)
            (takes_none result) };
}

impl<W: Write> Sink for W {
    ghost contents = { W.contents };

    ghost has_failed = { λ _. None };

    fn write_once(&mut self, bytes: &[u8]) -> io::Result<usize> {
        self.write(bytes)
    }
}

/// Writes all the bytes, or stops at the first write that fails or takes nothing. No write is tried
/// again.
pub fn write_out<W: Sink>(writer: &mut W, bytes: &[u8]) -> bool
    ensures whole { IsTrue result
        → Appends (W.contents writer.old) (W.contents writer.new) bytes.now }
    ensures unfailed { IsTrue result
        → HasNotFailed (W.has_failed writer.old) (W.has_failed writer.new) }
    ensures cut { OnFalse result
        (AppendsProperFront (W.contents writer.old) (W.contents writer.new) bytes.now) }
    ensures failed { OnFalse result (MayHaveFailed (W.has_failed writer.new)) }
{
    let mut rest = bytes;
    while !rest.is_empty() {
        match writer.write_once(rest) {
            Ok(count) if count > 0 => rest = &rest[count..],
            Ok(_) | Err(_) => return false,
        }
    }
    true
}
