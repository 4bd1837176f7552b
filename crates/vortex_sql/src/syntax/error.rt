//! Why a text is no condition.
ghost use Rattle.std.specs.Prelude.{◌≡◌};
ghost use Rattle.vortex_sql.specs.Parsing.Refusals.{IsPlaced};
ghost use Rattle.vortex_sql.specs.declared.syntax.error.ParseError.TheVariants.{Memory};

use std::alloc::{AllocError, AllocFailed};
use thiserror::Error;

/// Says why a text is not read. Places are in bytes from the beginning of the text.
#[derive(Clone, Copy, Debug, PartialEq, Eq, Error)]
pub enum ParseError {
    /// A growth was refused.
    #[error("out of memory")]
    Memory,
    /// No rule reads the word or sign that begins here, or the text ends here too soon.
    #[error("unexpected at byte {0}")]
    Unexpected(usize),
    /// The quote that begins here isn't closed.
    #[error("a quote that begins at byte {0} isn't closed")]
    Unclosed(usize),
    /// A comment begins here.
    #[error("a comment begins at byte {0}")]
    Comment(usize),
    /// A text with a prefix, as `E'..'`, begins here.
    #[error("a text with a prefix begins at byte {0}")]
    Prefixed(usize),
    /// A dollar sign stands here outside quotes.
    #[error("a dollar sign at byte {0}")]
    Dollar(usize),
    /// The number that begins here runs into a letter, a dot or a quote.
    #[error("a number that begins at byte {0} runs into what follows")]
    Glued(usize),
    /// A text that begins here stands right behind another one.
    #[error("two texts side by side at byte {0}")]
    Adjacent(usize),
    /// The condition nests too deep here.
    #[error("too deep at byte {0}")]
    TooDeep(usize),
}

impl ParseError {
    /// Returns the refusal, with its place within a text of so many bytes.
    pub(crate) fn within(self, length: usize) -> ParseError
        ensures placed { IsPlaced length result }
        ensures kept { IsPlaced length self → result ≡ self }
    {
        match self {
            ParseError::Memory => ParseError::Memory,
            ParseError::Unexpected(at) => ParseError::Unexpected(at.min(length)),
            ParseError::Unclosed(at) => ParseError::Unclosed(at.min(length)),
            ParseError::Comment(at) => ParseError::Comment(at.min(length)),
            ParseError::Prefixed(at) => ParseError::Prefixed(at.min(length)),
            ParseError::Dollar(at) => ParseError::Dollar(at.min(length)),
            ParseError::Glued(at) => ParseError::Glued(at.min(length)),
            ParseError::Adjacent(at) => ParseError::Adjacent(at.min(length)),
            ParseError::TooDeep(at) => ParseError::TooDeep(at.min(length)),
        }
    }
}

impl From<AllocError> for ParseError {
    ghost from_gives = { λ _ e. e ≡ Memory };

    fn from(_: AllocError) -> ParseError {
        ParseError::Memory
    }
}

impl<T: Drop> From<AllocFailed<T>> for ParseError {
    ghost from_gives = { λ _ e. e ≡ Memory };

    fn from(_: AllocFailed<T>) -> ParseError {
        ParseError::Memory
    }
}
