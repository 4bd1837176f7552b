//! Why a condition isn't pruned by.
ghost use Rattle.std.specs.Prelude.{◌≡◌};

use thiserror::Error;
use vortex_sql::error::SqlError;
use vortex_stats::error::StatsError;

/// Says why a condition isn't pruned by.
#[derive(Debug, Drop, Error)]
pub enum ConditionError {
    /// The text is no condition over the scope, or memory was refused while it was read.
    #[error("{0}")]
    Sql(SqlError),
    /// Memory was refused while the proofs were made, or a rule of the user failed.
    #[error("{0}")]
    Stats(StatsError),
}

impl From<SqlError> for ConditionError {
    ghost use Rattle.vortex_predicates.specs.declared.sql.error.ConditionError.TheVariants.{Sql};

    ghost from_gives = { λ e s. s ≡ Sql e };

    fn from(e: SqlError) -> ConditionError {
        ConditionError::Sql(e)
    }
}

impl From<StatsError> for ConditionError {
    ghost use Rattle.vortex_predicates.specs.declared.sql.error.ConditionError.TheVariants.{Stats};

    ghost from_gives = { λ e s. s ≡ Stats e };

    fn from(e: StatsError) -> ConditionError {
        ConditionError::Stats(e)
    }
}
