//! The lines of a text that have ended, read, and the bytes of the one that has begun.
ghost use Rattle.std.specs.Prelude.{◌≡◌, ◌≤◌, ◌<◌, ◌+◌, ◌^◌, ◌++◌, ◌∷◌, [], ℕ, List, IfOk, IfSome, OnOk, length};
ghost use Rattle.std.specs.Str.Lines.{lines};
ghost use Rattle.vortex_text.specs.Blocks.{EndsLine};
ghost use Rattle.vortex_text.specs.Drafts.{reading_of};
ghost use Rattle.vortex_text.specs.Fitting.{FitsTogether, IsQueryOver};
ghost use Rattle.vortex_text.specs.Naming.{named};
ghost use Rattle.vortex_text.specs.OpenTexts.{GoesOn, KeepsError, TakesBytes, Tells, named_behind};

use crate::bad_line::{BadInput, TextError};
use crate::document_parser::DocumentParser;
use crate::naming::{InputError, read_last, read_lines};
use crate::query::Query;
use memchr::{memchr, memrchr};
use std::alloc::{AllocError, Global};

/// The draft of the lines that have ended, and the line that has begun.
#[derive(Drop)]
pub struct OpenLine {
    /// The draft of the lines before it.
    pub draft: DocumentParser,
    /// Its number, counted from 1.
    pub number: usize,
    /// Its bytes so far.
    pub line: Vec<u8>,
}

// The end of the line that has begun, and the bytes behind it.
fn split_line(bytes: &[u8]) -> Option<(&[u8], &[u8])>
    ensures split { IfSome result (λ x. bytes.now ≡ x.0.now ++ x.1.now) }
    ensures ended { IfSome result (λ x. (front : List ℕ) × (x.0.now ≡ front ++ 10 ∷ [])) }
{
    let feed = memchr(b'\n', bytes)?;
    Some(bytes.split_at(feed + 1))
}

// The lines that bytes have whole, and the front of the next one.
fn split_lines(bytes: &[u8]) -> (&[u8], &[u8])
    ensures split { bytes.now ≡ result.0.now ++ result.1.now }
    ensures ended { EndsLine result.0.now }
{
    match memrchr(b'\n', bytes) {
        Some(feed) => bytes.split_at(feed + 1),
        None => (&[], bytes),
    }
}

// The error with a copy of the bad line's bytes.
fn kept_error(alloc: Global, error: InputError<'_>) -> TextError
    ensures { KeepsError error.entry result }
{
    match error {
        InputError::BadLine(bad) => match BadInput::of(alloc, bad) {
            Ok(bad) => TextError::BadLine(bad),
            Err(AllocError) => TextError::Memory,
        },
        InputError::Memory => TextError::Memory,
    }
}

// Reads lines, of which the first has this number. The number of the line after them comes back.
fn read_block(
    alloc: Global,
    draft: &mut DocumentParser,
    first: usize,
    text: &[u8],
) -> Result<usize, TextError>
    requires fits { FitsTogether (reading_of draft.old) }
    requires few { first + length text.now < 2 ^ 64 }
    ensures read { GoesOn first (reading_of draft.old) (lines text.now) result
        (reading_of draft.new) }
    ensures fits { OnOk result (FitsTogether (reading_of draft.new)) }
    ensures few { IfOk result (λ n. n ≤ first + length text.now) }
{
    match read_lines(alloc, draft, first, text) {
        Ok(number) => Ok(number),
        Err(error) => Err(kept_error(alloc, error)),
    }
}

impl OpenLine {
    /// Nothing read, and the first line.
    pub fn new(alloc: Global) -> OpenLine
        ensures start { (more : List ℕ) → named_behind result more ≡ named more }
        ensures fits { FitsTogether (reading_of result.draft) }
        ensures few { result.number + length result.line.items ≤ 1 }
    {
        OpenLine {
            draft: DocumentParser::new(alloc),
            number: 1,
            line: Vec::new(alloc),
        }
    }

    // Takes more bytes of the line that has begun.
    fn keep(mut self, bytes: &[u8]) -> Result<OpenLine, TextError>
        requires fits { FitsTogether (reading_of self.draft) }
        ensures takes { TakesBytes self bytes.now result }
        ensures fits { IfOk result (λ o. FitsTogether (reading_of o.draft)) }
        ensures few { IfOk result (λ o. o.number + length o.line.items
            ≤ self.number + length self.line.items + length bytes.now) }
    {
        self.line.extend_from_slice(bytes)?;
        Ok(self)
    }

    // Reads the line that has begun, of which these bytes are the end.
    fn end(mut self, alloc: Global, bytes: &[u8]) -> Result<OpenLine, TextError>
        requires fits { FitsTogether (reading_of self.draft) }
        requires few { self.number + length self.line.items + length bytes.now < 2 ^ 64 }
        requires ended { (front : List ℕ) × (bytes.now ≡ front ++ 10 ∷ []) }
        ensures takes { TakesBytes self bytes.now result }
        ensures fits { IfOk result (λ o. FitsTogether (reading_of o.draft)) }
        ensures few { IfOk result (λ o. o.number
            ≤ self.number + length self.line.items + length bytes.now) }
        ensures none { IfOk result (λ o. o.line.items ≡ []) }
    {
        self.line.extend_from_slice(bytes)?;
        self.number = read_block(alloc, &mut self.draft, self.number, &self.line)?;
        self.line.clear();
        Ok(self)
    }

    // Reads whole lines, where none has begun.
    fn read(mut self, alloc: Global, bytes: &[u8]) -> Result<OpenLine, TextError>
        requires none { self.line.items ≡ [] }
        requires fits { FitsTogether (reading_of self.draft) }
        requires few { self.number + length bytes.now < 2 ^ 64 }
        requires ended { EndsLine bytes.now }
        ensures takes { TakesBytes self bytes.now result }
        ensures fits { IfOk result (λ o. FitsTogether (reading_of o.draft)) }
        ensures few { IfOk result (λ o. o.number ≤ self.number + length bytes.now) }
        ensures none { IfOk result (λ o. o.line.items ≡ []) }
    {
        self.number = read_block(alloc, &mut self.draft, self.number, bytes)?;
        Ok(self)
    }

    /// Takes more bytes of the text. Lines that end in them are read.
    pub fn push(self, alloc: Global, bytes: &[u8]) -> Result<OpenLine, TextError>
        requires fits { FitsTogether (reading_of self.draft) }
        requires few { self.number + length self.line.items + length bytes.now < 2 ^ 64 }
        ensures takes { TakesBytes self bytes.now result }
        ensures fits { IfOk result (λ o. FitsTogether (reading_of o.draft)) }
        ensures few { IfOk result (λ o. o.number + length o.line.items
            ≤ self.number + length self.line.items + length bytes.now) }
    {
        let Some((end, rest)) = split_line(bytes) else {
            return self.keep(bytes);
        };
        let (whole, begun) = split_lines(rest);
        self.end(alloc, end)?.read(alloc, whole)?.keep(begun)
    }

    /// Closes the text, and gives the query that it names.
    pub fn close(self, alloc: Global) -> Result<Query, TextError>
        requires fits { FitsTogether (reading_of self.draft) }
        requires few { self.number + length self.line.items < 2 ^ 64 }
        ensures named { Tells (λ q. (q.parts, q.predicate)) result (named_behind self []) }
        ensures fits { IfOk result (λ q. IsQueryOver q.scope q.parts q.predicate) }
    {
        match read_last(alloc, self.draft, self.number, &self.line) {
            Ok(query) => Ok(query),
            Err(error) => Err(kept_error(alloc, error)),
        }
    }
}
