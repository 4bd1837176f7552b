//! The words of a line, some of them between quotes.
ghost use Rattle.std.specs.Prelude.{◌≡◌, ◌+◌, ◌<◌, ◌≤◌, ◌==◌, ◌∷◌, ℕ, [], List, Option, false, IfErr, IfOk, IfSome, IsErrOf, IsTrue, length, nat_le, option_map, position, slice_index};
ghost use Rattle.std.specs.List.{list_any};
ghost use Rattle.vortex_syntax.specs.Copies.{first_is_copied, is_copied};
ghost use Rattle.vortex_syntax.specs.Fails.{Gives, IsBad};
ghost use Rattle.vortex_syntax.specs.QuotedSteps.{Closes, step_of};
ghost use Rattle.vortex_syntax.specs.declared.line_error.LineError.TheVariants.{Memory};
ghost use Rattle.vortex_syntax.specs.Words.{word_limit, Plain, first_word, no_word, plain_word, quoted, token_of, words, words_from};

use crate::expected::Expected;
use crate::line_error::LineError;
use memchr::memchr2;
use std::alloc::Global;

/// A word of a line.
#[derive(Debug, Drop)]
pub enum Word<'a> {
    /// One without quotes.
    Plain(&'a [u8]),
    /// The text between quotes, its escapes read.
    Quoted(Vec<u8>),
}

// The next byte of a text between quotes, or none at the quote that closes it, and what follows.
fn step_of(bytes: &[u8]) -> Option<(Option<u8>, &[u8])>
    ensures step { option_map {U = Option ℕ × List ℕ} (λ x. (x.0, x.1.now)) result
        ≡ step_of bytes.now }
    ensures shorter { IfSome result (λ x. length x.1.now < length bytes.now) }
{
    match bytes {
        [b'"', rest @ ..] => Some((None, rest)),
        [b'\\', b'"', rest @ ..] => Some((Some(b'"'), rest)),
        [b'\\', b'\\', rest @ ..] => Some((Some(b'\\'), rest)),
        [] | [b'\\', ..] => None,
        [byte, rest @ ..] => Some((Some(*byte), rest)),
    }
}

// The text behind a quote, and what follows the quote that closes it. So many bytes of the line are
// left at the quote.
fn quoted_at(alloc: Global, bytes: &[u8], left: usize) -> Result<(Vec<u8>, &[u8]), LineError>
    ensures text { Closes (λ x. (x.0.items, x.1.now)) bytes.now result }
    ensures memory { IsErrOf result LineError.Memory
        → IsTrue (first_is_copied (words_from bytes.now (quoted []))) }
    ensures shorter { IfOk result (λ x. length x.1.now < length bytes.now) }
{
    let mut text = Vec::new(alloc);
    let mut rest = bytes;
    'runs: while let Some(run) = memchr2(b'"', b'\\', rest) {
        text.extend_from_slice(&rest[..run])?;
        let Some((byte, after)) = step_of(&rest[run..]) else {
            break;
        };
        let Some(byte) = byte else {
            return Ok((text, after));
        };
        text.push(byte)?;
        rest = after;
    }
    Err(LineError::at(left, Expected::ClosingQuote))
}

/// A line without the spaces in front.
#[inline]
pub fn skip_spaces(line: &[u8]) -> &[u8]
    ensures same { words result.now ≡ words line.now }
    ensures at_word { (slice_index result.now 0 == 32) ≡ false }
    ensures shorter { length result.now ≤ length line.now }
{
    let mut rest = line;
    'spaces: while let [b' ', after @ ..] = rest {
        rest = after;
    }
    rest
}

#[inline]
fn space(line: &[u8]) -> Option<usize>
    ensures { result ≡ position (λ b. b == 32) line.now }
{
    line.iter().position(|byte| *byte == b' ')
}

// The word without quotes that a text begins with, and what follows it.
#[inline]
fn split_word(text: &[u8]) -> (&[u8], &[u8])
    requires some { 0 < length text.now }
    requires no_space { (slice_index text.now 0 == 32) ≡ false }
    requires no_quote { (slice_index text.now 0 == 34) ≡ false }
    ensures word { words text.now ≡ Plain result.0.now ∷ words result.1.now }
    ensures shorter { length result.1.now < length text.now }
{
    match space(text) {
        Some(end) => (&text[..end], &text[end..]),
        None => (text, &[]),
    }
}

/// The first word of a line, and the line after it. There has to be one, which is what is expected
/// where there is none.
#[inline(always)]
pub fn first_word(
    alloc: Global,
    line: &[u8],
    expected: Expected,
) -> Result<(Word<'_>, &[u8]), LineError>
    ensures word { Gives (λ x. (token_of x.0, words x.1.now)) result (first_word (words line.now)) }
    ensures broken { IfErr result (λ e. IsBad e → length (words line.now) ≤ 1) }
    ensures memory { IsErrOf result LineError.Memory → IsTrue (first_is_copied (words line.now)) }
    ensures fewer { IfOk result (λ x. length (words x.1.now) < length (words line.now)) }
{
    let text = skip_spaces(line);
    match text {
        [] => Err(LineError::at(0, expected)),
        [b'"', quoted @ ..] => {
            let (word, rest) = quoted_at(alloc, quoted, text.len())?;
            match rest {
                [] | [b' ', ..] => Ok((Word::Quoted(word), rest)),
                _ => Err(LineError::at(text.len(), Expected::SpaceBehindQuote)),
            }
        }
        _ => {
            let (word, rest) = split_word(text);
            Ok((Word::Plain(word), rest))
        }
    }
}

/// The first word of a line, which has to be one without quotes, and the line after it. What is
/// expected is told where there is no such word.
pub fn plain_word(line: &[u8], expected: Expected) -> Result<(&[u8], &[u8]), LineError>
    ensures word { Gives (λ x. (x.0.now, words x.1.now)) result (plain_word (words line.now)) }
    ensures bad { IfErr result IsBad }
    ensures fewer { IfOk result (λ x. length (words x.1.now) < length (words line.now)) }
{
    let text = skip_spaces(line);
    match text {
        [] => Err(LineError::at(0, expected)),
        [b'"', ..] => Err(LineError::at(text.len(), expected)),
        _ => Ok(split_word(text)),
    }
}

/// A line has no further word.
#[inline]
pub fn no_word(line: &[u8]) -> Result<(), LineError>
    ensures word { Gives (λ x. x) result (no_word (words line.now)) }
    ensures bad { IfErr result IsBad }
{
    let text = skip_spaces(line);
    if text.is_empty() {
        Ok(())
    } else {
        Err(LineError::at(text.len(), Expected::End))
    }
}

// The most words that a predicate may have.
const WORD_LIMIT: usize = 4096;

// The line after its first word, whether or not that is a broken one.
fn skip_word(alloc: Global, line: &[u8]) -> Result<&[u8], LineError>
    requires some { 0 < length line.now }
    requires at_word { (slice_index line.now 0 == 32) ≡ false }
    ensures one { IfOk result (λ rest. length (words rest.now) + 1 ≡ length (words line.now)) }
    ensures next { IfOk result (λ rest. (slice_index rest.now 0 == 32) ≡ false) }
    ensures memory { IfErr result (λ e. e ≡ Memory) }
    ensures copies { IfErr result (λ _. IsTrue (list_any is_copied (words line.now))) }
    ensures later { IfOk result (λ rest. IsTrue (list_any is_copied (words rest.now))
        → IsTrue (list_any is_copied (words line.now))) }
{
    let rest = match first_word(alloc, line, Expected::End) {
        Ok((_, rest)) => rest,
        Err(LineError::Bad(_)) => return Ok(&[]),
        Err(LineError::Memory) => return Err(LineError::Memory),
    };
    Ok(skip_spaces(rest))
}

/// Whether a line has no more words than a predicate may have.
pub fn is_short(alloc: Global, line: &[u8]) -> Result<bool, LineError>
    ensures short { IfOk result (λ short. short ≡ nat_le (length (words line.now)) word_limit) }
    ensures memory { IfErr result (λ e. e ≡ Memory) }
    ensures copies { IfErr result (λ _. IsTrue (list_any is_copied (words line.now))) }
{
    let mut rest = skip_spaces(line);
    let mut count = 0;
    'words: while !rest.is_empty() {
        if count == WORD_LIMIT {
            return Ok(false);
        }
        let Ok(after) = skip_word(alloc, rest) else {
            return Err(LineError::Memory);
        };
        rest = after;
        count += 1;
    }
    Ok(true)
}
