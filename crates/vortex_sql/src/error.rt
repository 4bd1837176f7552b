//! Why a text is no condition over a scope.
ghost use Rattle.std.specs.Prelude.{◌≡◌};
ghost use Rattle.vortex_sql.specs.Refusals.{of_lower};

use crate::lower::LowerError;
use crate::syntax::error::ParseError;
use std::alloc::{AllocError, AllocFailed};
use thiserror::Error;

/// Says why a text is refused. Places are in bytes from the beginning of the text.
#[derive(Clone, Copy, Debug, PartialEq, Eq, Error)]
pub enum SqlError {
    /// A growth was refused.
    #[error("out of memory")]
    Memory,
    /// The text is no condition.
    #[error("{0}")]
    Syntax(ParseError),
    /// The types of the operands between these places don't fit.
    #[error("the types don't fit at bytes {0} to {1}")]
    Misfit(usize, usize),
    /// A column of the scope has the name that a leaf which isn't read gets.
    #[error("a column has the name of an expression")]
    Name,
}

impl From<LowerError> for SqlError {
    ghost from_gives = { λ e s. s ≡ of_lower e };

    fn from(e: LowerError) -> SqlError {
        match e {
            LowerError::Memory => SqlError::Memory,
            LowerError::Misfit(start, end) => SqlError::Misfit(start, end),
        }
    }
}

impl From<ParseError> for SqlError {
    ghost use Rattle.vortex_sql.specs.declared.error.SqlError.TheVariants.{Syntax};

    ghost from_gives = { λ e s. s ≡ Syntax e };

    fn from(e: ParseError) -> SqlError {
        SqlError::Syntax(e)
    }
}

impl From<AllocError> for SqlError {
    ghost use Rattle.vortex_sql.specs.declared.error.SqlError.TheVariants.{Memory};

    ghost from_gives = { λ _ e. e ≡ Memory };

    fn from(_: AllocError) -> SqlError {
        SqlError::Memory
    }
}

impl<T: Drop> From<AllocFailed<T>> for SqlError {
    ghost use Rattle.vortex_sql.specs.declared.error.SqlError.TheVariants.{Memory};

    ghost from_gives = { λ _ e. e ≡ Memory };

    fn from(_: AllocFailed<T>) -> SqlError {
        SqlError::Memory
    }
}
