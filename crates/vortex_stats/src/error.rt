//! Why a call was refused.
ghost use Rattle.std.specs.Prelude.{◌≡◌};
ghost use Rattle.vortex_stats.specs.StatsError.{error_number};

use crate::stat::Stat;
use std::alloc::{AllocError, AllocFailed};
use thiserror::Error;

/// Why a call over statistics was refused. Each cause has a number.
#[derive(Debug, Drop, Error)]
pub enum StatsError {
    /// 1: a growth or a clone was refused, or a hook answered so.
    #[error("out of memory")]
    Memory(AllocError),
    /// 2: the expression's type isn't Bool.
    #[error("the expression is no predicate")]
    NotPredicate,
    /// 3: a value doesn't fit its type, or a set its column.
    #[error("a value does not fit its type")]
    Mismatch,
    /// 4: the aggregate doesn't support the type.
    #[error("the aggregate does not support the type")]
    Unsupported,
    /// 5: two sets of one array contradict each other at this statistic.
    #[error("two sets contradict each other at a statistic")]
    Conflict(Stat),
    /// 6: a binder's fault, or an answer of another type than its placeholder's.
    #[error("a binder failed")]
    Binder(BinderFault),
    /// 7: an own rule's fault, or a proof that isn't of type Bool.
    #[error("a rule failed")]
    Rule(RuleFault),
    /// 8: a bound proof still holds a placeholder, or a column outside its row.
    #[error("a proof is left open")]
    OpenProof,
    /// 9: two declared sizes add up past u64.
    #[error("two sizes are too large")]
    TooLarge,
}

/// A fault of a binder's answer.
#[derive(Debug, Drop)]
pub enum BinderFault {
    /// The binder's own fault.
    Own(u32),
    /// The answer hasn't the placeholder's type, nullability aside.
    WrongType,
}

/// A fault of a rule's answer.
#[derive(Debug, Drop)]
pub enum RuleFault {
    /// The rule's own fault.
    Own(u32),
    /// The proof isn't of type Bool.
    NotBool,
}

impl StatsError {
    /// The number of the cause, from 1 to 9.
    pub fn number(&self) -> u8
        ensures { result ≡ error_number self.now }
    {
        match self {
            StatsError::Memory(_) => 1,
            StatsError::NotPredicate => 2,
            StatsError::Mismatch => 3,
            StatsError::Unsupported => 4,
            StatsError::Conflict(_) => 5,
            StatsError::Binder(_) => 6,
            StatsError::Rule(_) => 7,
            StatsError::OpenProof => 8,
            StatsError::TooLarge => 9,
        }
    }
}

impl From<AllocError> for StatsError {
    ghost use Rattle.std.specs.Prelude.{◌≡◌};
    ghost use Rattle.vortex_stats.specs.declared.error.StatsError.TheVariants.{Memory};

    ghost from_gives = { λ e r. r ≡ Memory e };

    fn from(refused: AllocError) -> StatsError {
        StatsError::Memory(refused)
    }
}

impl<T: Drop> From<AllocFailed<T>> for StatsError {
    ghost use Rattle.std.specs.Prelude.{◌≡◌, alloc_error};
    ghost use Rattle.vortex_stats.specs.declared.error.StatsError.TheVariants.{Memory};

    ghost from_gives = { λ _ r. r ≡ Memory alloc_error };

    fn from(_refused: AllocFailed<T>) -> StatsError {
        StatsError::Memory(AllocError)
    }
}
