//! Patterns of LIKE by the texts that they match, and a text above all with a beginning.
ghost use Rattle.std.specs.Prelude.{◌≡◌, ◌≢◌, ◌++◌, ◌∷◌, ◌+◌, ◌<◌, [], length, IfOk, IfSome, IsSome, MatchOption, OnErr, true, false};
ghost use Rattle.std.specs.Prelude.{encode_utf8_all, option_copied, option_map, string_bytes};
ghost use Rattle.std.specs.Str.{chars, IsUtf8};
ghost use Rattle.vortex_base.specs.Answer.{Makes};
ghost use Rattle.vortex_expr.specs.Patterns.Like.{items};
ghost use Rattle.vortex_expr.specs.Patterns.Prefix.{exact_text, has_next, literal_prefix, pattern_of, successor as successor_of};

use crate::like::{Characters, Item, next_item};
use std::alloc::{AllocError, Global};
use std::marker::Model;
use vortex_base::error::BaseError;

/// A pattern as far as it bounds the texts that it matches, case regarded: its literal beginning.
#[derive(Debug, Drop)]
pub struct LikePattern {
    prefix: String,
    is_exact: bool,
}

impl Model for LikePattern {
    ghost use Rattle.std.specs.Prelude.{string_bytes};
    ghost use Rattle.vortex_expr.specs.Patterns.Prefix.{PatternData};

    ghost Value = { PatternData };

    ghost view = { λ p. record { prefix = string_bytes p.prefix; is_exact = p.is_exact } };
}

impl LikePattern {
    /// Reads a pattern. Memory is taken only for literal characters before the first wildcard.
    pub fn try_read(alloc: Global, pattern: &str) -> Result<LikePattern, BaseError>
        ensures value { Makes (pattern_of (items (chars pattern.now))) result }
        ensures memory { OnErr result (literal_prefix (items (chars pattern.now)) ≢ []) }
    {
        let mut prefix = String::new(alloc);
        let mut rest = Characters::as_written(pattern);
        while let Some((item, left)) = next_item(rest) {
            match item {
                Item::Char(literal) => prefix.push(literal)?,
                Item::AnyChar | Item::AnyRun => {
                    return Ok(LikePattern {
                        prefix,
                        is_exact: false,
                    });
                }
            }
            rest = left;
        }
        Ok(LikePattern {
            prefix,
            is_exact: true,
        })
    }

    /// The one text that the pattern matches, if it has no wildcard.
    pub fn exact(&self) -> Option<&str>
        ensures { option_copied result ≡ exact_text self.now }
    {
        if self.is_exact {
            Some(self.prefix())
        } else {
            None
        }
    }

    /// The literal characters before the first wildcard.
    pub fn prefix(&self) -> &str
        ensures { result.now ≡ self.now.prefix }
    {
        self.prefix.as_str()
    }
}

fn next_char(c: char) -> Option<char>
    ensures { MatchOption result (has_next c ≡ false) (λ d. (has_next c ≡ true) × (d ≡ c + 1)) }
{
    match c {
        '\u{D7FF}' | char::MAX => None,
        _ => char::from_u32(c as u32 + 1),
    }
}

fn split_last_char(text: &str) -> Option<(char, &str)>
    ensures split { MatchOption result (chars text.now ≡ [])
        (λ p. chars text.now ≡ chars p.1.now ++ p.0 ∷ []) }
    ensures utf8 { IfSome result (λ p. IsUtf8 p.1.now) }
    ensures shorter { IfSome result (λ p. length p.1.now < length text.now) }
{
    let mut left = text.chars();
    match left.next_back() {
        Some(last) => Some((last, left.as_str())),
        None => None,
    }
}

/// A text above each that begins with this one: its longest beginning whose last character has a
/// next one, with that character raised by one. Raising an earlier character gives a greater text.
/// `None` where no character has a next one, as U+D7FF, which no character but a surrogate follows,
/// and U+10FFFF have none. Memory
/// is taken only for a text that is answered.
pub fn successor(alloc: Global, text: &str) -> Result<Option<String>, AllocError>
    ensures value { IfOk result (λ s. option_map string_bytes s
        ≡ option_map encode_utf8_all (successor_of (chars text.now))) }
    ensures memory { OnErr result (IsSome (successor_of (chars text.now))) }
{
    let mut rest = text;
    while let Some((last, before)) = split_last_char(rest) {
        if let Some(next) = next_char(last) {
            let mut raised = String::from_str(alloc, before)?;
            raised.push(next)?;
            return Ok(Some(raised));
        }
        rest = before;
    }
    Ok(None)
}
