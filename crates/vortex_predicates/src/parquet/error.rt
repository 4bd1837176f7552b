//! Why a condition isn't pruned by.
ghost use Rattle.std.specs.Prelude.{◌≡◌};
ghost use Rattle.vortex_predicates.specs.Footers.Refusals.{of_condition, of_read, of_sql};

use crate::sql::error::ConditionError;
use std::alloc::{AllocError, AllocFailed};
use thiserror::Error;
use vortex_parquet::columns::LeftOut;
use vortex_parquet::{Fault, ReadError};
use vortex_sql::error::SqlError;
use vortex_stats::error::StatsError;

/// Says why row groups aren't pruned by a condition. Places are in bytes from the beginning of the
/// condition's text.
#[derive(Debug, Drop, Error)]
pub enum FooterError {
    /// A growth was refused.
    #[error("out of memory")]
    Memory,
    /// The bytes are no footer.
    #[error("the bytes are no Parquet footer that can be read")]
    Footer(Fault),
    /// The text is no condition over the file's columns.
    #[error("{0}")]
    Sql(SqlError),
    /// The test between these places names a column of which no test could be meant: one with
    /// columns below it, one with a list of values a row, or one of several with this name.
    #[error("a column that isn't read is named at bytes {0} to {1}")]
    LeftOut(usize, usize, LeftOut),
    /// A rule of the user failed, or memory was refused for the proofs.
    #[error("{0}")]
    Stats(StatsError),
}

impl From<ReadError> for FooterError {
    ghost from_gives = { λ e f. f ≡ of_read e };

    fn from(e: ReadError) -> FooterError {
        match e {
            ReadError::Memory => FooterError::Memory,
            ReadError::Fault(fault) => FooterError::Footer(fault),
        }
    }
}

impl From<SqlError> for FooterError {
    ghost from_gives = { λ e f. f ≡ of_sql e };

    fn from(e: SqlError) -> FooterError {
        match e {
            SqlError::Memory => FooterError::Memory,
            other => FooterError::Sql(other),
        }
    }
}

impl From<StatsError> for FooterError {
    ghost use Rattle.vortex_predicates.specs.declared.parquet.error.FooterError.TheVariants.{Stats};

    ghost from_gives = { λ e f. f ≡ Stats e };

    fn from(e: StatsError) -> FooterError {
        FooterError::Stats(e)
    }
}

impl From<ConditionError> for FooterError {
    ghost from_gives = { λ e f. f ≡ of_condition e };

    fn from(e: ConditionError) -> FooterError {
        match e {
            ConditionError::Sql(e) => FooterError::from(e),
            ConditionError::Stats(e) => FooterError::Stats(e),
        }
    }
}

impl From<AllocError> for FooterError {
    ghost use Rattle.vortex_predicates.specs.declared.parquet.error.FooterError.TheVariants as kind;

    ghost from_gives = { λ _ f. f ≡ kind.Memory };

    fn from(_: AllocError) -> FooterError {
        FooterError::Memory
    }
}

impl<T: Drop> From<AllocFailed<T>> for FooterError {
    ghost use Rattle.vortex_predicates.specs.declared.parquet.error.FooterError.TheVariants as kind;

    ghost from_gives = { λ _ f. f ≡ kind.Memory };

    fn from(_: AllocFailed<T>) -> FooterError {
        FooterError::Memory
    }
}
