//! The refusals of this layer.
ghost use Rattle.std.specs.Prelude.{◌≡◌, alloc_error};
ghost use Rattle.vortex_base.specs.declared.error.BaseError.TheVariants.{Memory};

use std::alloc::{AllocError, AllocFailed};
use thiserror::Error;

/// Why a call of this layer was refused.
#[derive(Debug, Drop, Error)]
pub enum BaseError {
    /// A growth or a clone was refused.
    #[error("out of memory")]
    Memory(AllocError),
    /// The scope has no column of this name.
    #[error("no column has this name")]
    UnknownColumn,
    /// Two columns of a scope have one name.
    #[error("two columns have one name")]
    DuplicateColumn,
    /// A scope has no column.
    #[error("a scope needs a column")]
    EmptyScope,
    /// The operands of a node have types that it does not take, or a column has a type that no
    /// column may have.
    #[error("the types do not fit")]
    TypeFault,
    /// The aggregate does not support the type.
    #[error("the aggregate does not support the type")]
    Unsupported,
    /// A value does not fit its type, or a null stands where none is allowed.
    #[error("a value does not fit its type")]
    Mismatch,
    /// Columns do not make up rows, or a row lacks a column.
    #[error("the columns do not make up the rows")]
    RowShape,
    /// A placeholder has no value on a row.
    #[error("a placeholder has no value")]
    Placeholder,
}

impl From<AllocError> for BaseError {
    ghost from_gives = { λ e r. r ≡ Memory e };

    fn from(e: AllocError) -> BaseError {
        BaseError::Memory(e)
    }
}

impl<T: Drop> From<AllocFailed<T>> for BaseError {
    ghost from_gives = { λ _ r. r ≡ Memory alloc_error };

    fn from(e: AllocFailed<T>) -> BaseError {
        BaseError::Memory(AllocError::from(e))
    }
}
