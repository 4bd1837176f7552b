//! The first bad line of a text, and the sentence that says why it is bad.
ghost use Rattle.std.specs.Prelude.{◌≡◌, IfOk};
ghost use Rattle.vortex_text.specs.declared.bad_line.TextError.TheVariants.{Memory};

use std::alloc::{AllocError, Global};
use std::str;
use vortex_syntax::expected::Expected;
use vortex_syntax::line_error::{Fault, LineError};
use vortex_syntax::word::{first_word, skip_spaces};

/// The first bad line of a text.
#[derive(Clone, Copy, Debug)]
pub struct BadLine<'a> {
    /// Its number, counted from 1.
    pub number: usize,
    /// Its bytes. There are none where the text ends without a predicate.
    pub line: &'a [u8],
    /// Where it stops being a line of the language.
    pub fault: Fault,
}

/// The first bad line of a text that isn't held, with its bytes.
#[derive(Debug, Drop)]
pub struct BadInput {
    /// Its number, counted from 1.
    pub number: usize,
    /// Its bytes. There are none where the text ends without a predicate.
    pub line: Vec<u8>,
    /// Where it stops being a line of the language.
    pub fault: Fault,
}

/// Why a text that isn't held names nothing.
#[derive(Debug, Drop)]
pub enum TextError {
    /// A growth was refused.
    Memory,
    /// The first bad line. Where no line is bad and there is no predicate, it is the line after the
    /// last.
    BadLine(BadInput),
}

impl From<AllocError> for TextError {
    ghost from_gives = { λ _ e. e ≡ Memory };

    fn from(_e: AllocError) -> TextError {
        TextError::Memory
    }
}

// How many characters of a word are shown.
const SHOWN: usize = 40;

// The front of a word that is shown. Its line is UTF-8.
fn shown(word: &[u8]) -> &str {
    let Ok(text) = str::from_utf8(word) else {
        return "";
    };
    match text.char_indices().nth(SHOWN) {
        Some((end, _)) => text.get(..end).unwrap_or(text),
        None => text,
    }
}

// The word that a text begins with, as it is written, and what follows it without spaces in front.
// A broken one is all that is left.
fn written_word(alloc: Global, text: &[u8]) -> Result<(&[u8], &[u8]), AllocError> {
    match first_word(alloc, text, Expected::End) {
        Ok((_, rest)) => {
            let end = text.len().saturating_sub(rest.len());
            Ok((&text[..end], skip_spaces(rest)))
        }
        Err(LineError::Bad(_)) => Ok((text, &[])),
        Err(LineError::Memory) => Err(AllocError),
    }
}

// The number of a word in its line, counted from 1, and the word; none where the line ends before
// it.
#[derive(Clone, Copy, Debug)]
struct Found<'a> {
    number: usize,
    word: &'a [u8],
}

// The word at which a line is bad: the one that begins where the fault is, or for an operator with
// faulty operands the one before.
fn faulty_word<'a>(alloc: Global, line: &'a [u8], fault: Fault) -> Result<Found<'a>, AllocError> {
    let left = fault.left as usize;
    let mut rest = skip_spaces(line);
    let mut before = Found {
        number: 0,
        word: &[],
    };
    for number in 1..=line.len() {
        if rest.len() <= left {
            break;
        }
        let (word, after) = written_word(alloc, rest)?;
        before = Found { number, word };
        rest = after;
    }
    if fault.expected.is_about_operands() {
        return Ok(before);
    }
    let (word, _) = written_word(alloc, rest)?;
    let number = before.number.saturating_add(1);
    Ok(Found { number, word })
}

impl BadLine<'_> {
    /// The sentence that says why the line is bad, with its number and, where one word is at fault,
    /// that word and its place in the line, counted from 1.
    pub fn reason(&self, alloc: Global) -> Result<String, AllocError> {
        let number = self.number;
        let expected = self.fault.expected;
        if expected.is_about_line() {
            return format!(in alloc; "line {number}: {expected}\n");
        }
        let found = faulty_word(alloc, self.line, self.fault)?;
        let place = found.number;
        if found.word.is_empty() {
            return format!(in alloc; "line {number}: word {place} is missing: {expected}\n");
        }
        let word = shown(found.word);
        format!(in alloc; "line {number}: word {place} {word:?}: {expected}\n")
    }
}

impl BadInput {
    /// The bad line with a copy of its bytes.
    pub fn of(alloc: Global, bad: BadLine<'_>) -> Result<BadInput, AllocError>
        ensures { IfOk result (λ kept. kept.number ≡ bad.entry.number) }
    {
        let mut line = Vec::with_capacity(alloc, bad.line.len())?;
        line.extend_from_slice(bad.line)?;
        Ok(BadInput {
            number: bad.number,
            line,
            fault: bad.fault,
        })
    }

    /// The sentence that says why the line is bad, as `BadLine::reason` has it.
    pub fn reason(&self, alloc: Global) -> Result<String, AllocError> {
        let bad = BadLine {
            number: self.number,
            line: &self.line,
            fault: self.fault,
        };
        bad.reason(alloc)
    }
}
