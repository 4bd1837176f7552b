//! Why a line is not read, and where it stops being one of the language.
ghost use Rattle.std.specs.Prelude.{◌≡◌};
ghost use Rattle.vortex_syntax.specs.Expressions.{IsRefusedAs};
ghost use Rattle.vortex_syntax.specs.Fails.{IsBad};
ghost use Rattle.vortex_syntax.specs.declared.line_error.LineError.TheVariants.{Memory};

use crate::expected::Expected;
use std::alloc::{AllocError, AllocFailed};
use vortex_base::error::BaseError;

/// Where a line stops being one of the language, and what was expected there.
#[derive(Clone, Copy, Debug, PartialEq, Eq)]
pub struct Fault {
    /// The expectation that wasn't met.
    pub expected: Expected,
    /// How many bytes of the line are left at that place. It is kept small, since what reads an
    /// expression calls itself; no line has more bytes.
    pub left: u32,
}

impl Fault {
    /// A fault where so many bytes of the line are left.
    pub fn at(left: usize, expected: Expected) -> Fault {
        let left = u32::try_from(left).unwrap_or(u32::MAX);
        Fault { expected, left }
    }
}

/// Why a line was not read.
#[derive(Debug, Drop)]
pub enum LineError {
    /// A growth was refused.
    Memory,
    /// The line is none of those that may stand there.
    Bad(Fault),
}

impl LineError {
    /// A line that is bad where so many bytes of it are left.
    #[inline(never)]
    pub fn at(left: usize, expected: Expected) -> LineError
        ensures { IsBad result }
    {
        LineError::Bad(Fault::at(left, expected))
    }

    /// A refusal of the layer below: memory was refused, or the line is bad where so many bytes of
    /// it are left.
    pub fn of_refusal(left: usize, expected: Expected, refusal: BaseError) -> LineError
        ensures { IsRefusedAs refusal result }
    {
        match refusal {
            BaseError::Memory(_) => LineError::Memory,
            _ => LineError::at(left, expected),
        }
    }
}

impl From<AllocError> for LineError {
    ghost from_gives = { λ _ e. e ≡ Memory };

    fn from(_e: AllocError) -> LineError {
        LineError::Memory
    }
}

impl<T: Drop> From<AllocFailed<T>> for LineError {
    ghost from_gives = { λ _ e. e ≡ Memory };

    fn from(_e: AllocFailed<T>) -> LineError {
        LineError::Memory
    }
}
