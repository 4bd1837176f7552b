//! Bytes on their way to a writer, a page at a time.
ghost use Rattle.std.specs.Prelude.{◌≡◌, ◌<◌, ◌≤◌, ◌+◌, ◌++◌, ◌∷◌, [], OnErr, OnOk, decimal, length};
ghost use Rattle.std.specs.Io.KnownBytes.{Appends};
ghost use Rattle.vortex_text.specs.Printing.{row_begin};
ghost use Rattle.vortex_text.specs.Streams.{HasNotFailed, IsCutOff, Passes};
ghost use Rattle.vortex_text.specs.declared.page.TheConstants.{FRONT, ROOM, SIZE};

use crate::streams::{Sink, write_out};
use itoa::write_digits;
use std::marker::Model;

// How many bytes go out together.
const SIZE: usize = 16_384;

// The bytes in front of a number: a space, and a part's number of 20 digits at the most with its
// colon.
const FRONT: usize = 24;

// The room that a number takes with what stands in front of it.
const ROOM: usize = 48;

/// A write failed or took nothing, and what was to be written is cut off there.
#[derive(Clone, Copy, Debug)]
pub struct CutOff;

// Writes all the bytes, unless a write fails.
fn pass<W: Sink>(writer: &mut W, bytes: &[u8]) -> Result<(), CutOff>
    ensures written { OnOk result
        (Appends (W.contents writer.old) (W.contents writer.new) bytes.now) }
    ensures unfailed { OnOk result (HasNotFailed (W.has_failed writer.old)
        (W.has_failed writer.new)) }
    ensures cut { OnErr result (IsCutOff (W.has_failed writer.new) (W.contents writer.old)
        (W.contents writer.new) bytes.now) }
{
    if write_out(writer, bytes) {
        Ok(())
    } else {
        Err(CutOff)
    }
}

// How many digits a number below 10,000 takes.
#[inline(always)]
fn few_digits(number: u64) -> usize
    requires { number < 10_000 }
    ensures { result ≡ length (decimal number) }
{
    if number < 100 {
        if number < 10 { 1 } else { 2 }
    } else {
        if number < 1_000 { 3 } else { 4 }
    }
}

// How many digits a number takes.
#[inline(always)]
fn count_digits(number: u64) -> usize
    ensures count { result ≡ length (decimal number) }
    ensures few { result ≤ 20 }
{
    let mut left = number;
    let mut count = 0;
    while left >= 10_000 {
        left /= 10_000;
        count += 4;
    }
    count + few_digits(left)
}

/// The bytes in front of a number: a few, copied with what lies behind them, so that none
/// of them is counted.
#[derive(Drop)]
pub struct Front {
    bytes: [u8; FRONT],
    len: usize,
}

impl Model for Front {
    ghost use Rattle.std.specs.Prelude.{◌≤◌, ℕ, List, take};
    ghost use Rattle.vortex_text.specs.declared.page.TheConstants.{FRONT};

    ghost Value = { List ℕ };

    ghost view = { λ f. take f.len f.bytes };

    ghost invariant = { λ f. f.len ≤ FRONT };
}

impl Front {
    /// A space, which stands in front of a part's number.
    pub fn space() -> Front
        ensures { result ≡ 32 ∷ [] }
    {
        let mut bytes = [0; FRONT];
        bytes[0] = b' ';
        Front { bytes, len: 1 }
    }

    /// The front of the rows of a part.
    pub fn of_part(part: usize) -> Front
        ensures { result ≡ row_begin part }
    {
        let mut bytes = [0; FRONT];
        let end = 1 + count_digits(part as u64);
        bytes[0] = b' ';
        let _ = write_digits(part as u64, &mut bytes, end);
        bytes[end] = b':';
        Front {
            bytes,
            len: end + 1,
        }
    }
}

/// Bytes that wait to be written. They have room of their own, so that no growth is refused once
/// the first of them is out.
#[derive(Drop)]
pub struct Page {
    bytes: [u8; SIZE],
    len: usize,
}

impl Model for Page {
    ghost use Rattle.std.specs.Prelude.{◌≤◌, ℕ, List, take};
    ghost use Rattle.vortex_text.specs.declared.page.TheConstants.{SIZE};

    ghost Value = { List ℕ };

    ghost view = { λ p. take p.len p.bytes };

    ghost invariant = { λ p. p.len ≤ SIZE };
}

impl Page {
    /// A page without bytes.
    pub fn new() -> Page
        ensures { result ≡ [] }
    {
        Page {
            bytes: [0; SIZE],
            len: 0,
        }
    }

    /// Writes the bytes that wait.
    pub fn flush<W: Sink>(&mut self, writer: &mut W) -> Result<(), CutOff>
        ensures written { OnOk result
            (Appends (W.contents writer.old) (W.contents writer.new) self.old) }
        ensures empty { OnOk result (self.new ≡ []) }
        ensures unfailed { OnOk result (HasNotFailed (W.has_failed writer.old)
            (W.has_failed writer.new)) }
        ensures cut { OnErr result (IsCutOff (W.has_failed writer.new) (W.contents writer.old)
            (W.contents writer.new) self.old) }
    {
        pass(writer, &self.bytes[..self.len])?;
        self.len = 0;
        Ok(())
    }

    // Puts bytes for which there is room behind those that wait.
    fn push(&mut self, bytes: &[u8])
        requires { length self.old + length bytes.now ≤ SIZE }
        ensures { self.new ≡ self.old ++ bytes.now }
    {
        let end = self.len + bytes.len();
        self.bytes[self.len..end].copy_from_slice(bytes);
        self.len = end;
    }

    // Writes the bytes that wait, and those too where they are more than a page.
    #[inline(never)]
    fn turn<W: Sink>(&mut self, writer: &mut W, bytes: &[u8]) -> Result<(), CutOff>
        ensures put { OnOk result
            (Passes (W.contents writer.old) (W.contents writer.new) self.old self.new bytes.now) }
        ensures unfailed { OnOk result (HasNotFailed (W.has_failed writer.old)
            (W.has_failed writer.new)) }
        ensures cut { OnErr result (IsCutOff (W.has_failed writer.new) (W.contents writer.old)
            (W.contents writer.new) (self.old ++ bytes.now)) }
    {
        self.flush(writer)?;
        if bytes.len() > SIZE {
            return pass(writer, bytes);
        }
        self.push(bytes);
        Ok(())
    }

    /// Puts bytes behind those that wait, which go out first where there is no room.
    pub fn put<W: Sink>(&mut self, writer: &mut W, bytes: &[u8]) -> Result<(), CutOff>
        ensures put { OnOk result
            (Passes (W.contents writer.old) (W.contents writer.new) self.old self.new bytes.now) }
        ensures unfailed { OnOk result (HasNotFailed (W.has_failed writer.old)
            (W.has_failed writer.new)) }
        ensures cut { OnErr result (IsCutOff (W.has_failed writer.new) (W.contents writer.old)
            (W.contents writer.new) (self.old ++ bytes.now)) }
    {
        if bytes.len() > SIZE - self.len {
            return self.turn(writer, bytes);
        }
        self.push(bytes);
        Ok(())
    }

    // Makes room for a number and what stands in front of it.
    #[inline(always)]
    fn make_room<W: Sink>(&mut self, writer: &mut W) -> Result<(), CutOff>
        ensures put { OnOk result
            (Passes (W.contents writer.old) (W.contents writer.new) self.old self.new []) }
        ensures room { OnOk result (length self.new + ROOM ≤ SIZE) }
        ensures unfailed { OnOk result (HasNotFailed (W.has_failed writer.old)
            (W.has_failed writer.new)) }
        ensures cut { OnErr result (IsCutOff (W.has_failed writer.new) (W.contents writer.old)
            (W.contents writer.new) self.old) }
    {
        if SIZE - self.len < ROOM {
            return self.flush(writer);
        }
        Ok(())
    }

    // Puts a front behind the bytes that wait.
    #[inline(always)]
    fn push_front(&mut self, front: &Front)
        requires { length self.old + FRONT ≤ SIZE }
        ensures put { self.new ≡ self.old ++ front.now }
        ensures bound { length self.new ≤ length self.old + FRONT }
    {
        self.bytes[self.len..self.len + FRONT].copy_from_slice(&front.bytes);
        self.len += front.len;
    }

    // Puts the digits of a number behind them.
    #[inline(always)]
    fn push_number(&mut self, number: u64)
        requires { length self.old + 20 ≤ SIZE }
        ensures { self.new ≡ self.old ++ decimal number }
    {
        let end = self.len + count_digits(number);
        let _ = write_digits(number, &mut self.bytes, end);
        self.len = end;
    }

    /// Puts a number and what stands in front of it behind the bytes that wait, which go out first
    /// where there is little room.
    #[inline(always)]
    pub fn put_number<W: Sink>(
        &mut self,
        writer: &mut W,
        front: &Front,
        number: usize,
    ) -> Result<(), CutOff>
        ensures put { OnOk result (Passes (W.contents writer.old) (W.contents writer.new)
            self.old self.new (front.now ++ decimal number)) }
        ensures unfailed { OnOk result (HasNotFailed (W.has_failed writer.old)
            (W.has_failed writer.new)) }
        ensures cut { OnErr result (IsCutOff (W.has_failed writer.new) (W.contents writer.old)
            (W.contents writer.new) (self.old ++ (front.now ++ decimal number))) }
    {
        self.make_room(writer)?;
        self.push_front(front);
        self.push_number(number as u64);
        Ok(())
    }
}
