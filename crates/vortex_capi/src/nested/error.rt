//! Why an expression is not read.
ghost use Rattle.std.specs.Prelude.{◌≡◌};
ghost use Rattle.vortex_capi.specs.Nesting.Errors.{of_line};
ghost use Rattle.vortex_capi.specs.declared.nested.error.NestedError.TheVariants.{Memory};

use std::alloc::{AllocError, AllocFailed};
use vortex_syntax::line_error::LineError;

/// Says why an expression is not read.
#[derive(Clone, Copy, Debug, PartialEq, Eq)]
pub enum NestedError {
    /// Memory was refused.
    Memory,
    /// The text is no expression over the columns.
    Bad,
    /// The expression, its chains joined in halves, is deeper than is allowed.
    TooDeep,
}

impl From<LineError> for NestedError {
    ghost from_gives = { λ e n. n ≡ of_line e };

    fn from(e: LineError) -> NestedError {
        match e {
            LineError::Memory => NestedError::Memory,
            LineError::Bad(_) => NestedError::Bad,
        }
    }
}

impl From<AllocError> for NestedError {
    ghost from_gives = { λ _ n. n ≡ Memory };

    fn from(_e: AllocError) -> NestedError {
        NestedError::Memory
    }
}

impl<T: Drop> From<AllocFailed<T>> for NestedError {
    ghost from_gives = { λ _ n. n ≡ Memory };

    fn from(_e: AllocFailed<T>) -> NestedError {
        NestedError::Memory
    }
}
