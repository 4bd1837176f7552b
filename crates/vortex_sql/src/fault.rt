//! Why a test is not said.
ghost use Rattle.std.specs.Prelude.{◌≡◌};
ghost use Rattle.vortex_sql.specs.declared.fault.Fault.TheVariants.{Memory};

use std::alloc::{AllocError, AllocFailed};
use vortex_base::error::BaseError;

/// Says why a test is not said.
#[derive(Clone, Copy, PartialEq, Eq)]
pub enum Fault {
    /// A growth was refused.
    Memory,
    /// The types of its operands don't fit.
    Misfit,
}

impl From<BaseError> for Fault {
    ghost from_gives = { λ _ f. f ≡ Memory };

    fn from(_: BaseError) -> Fault {
        Fault::Memory
    }
}

impl From<AllocError> for Fault {
    ghost from_gives = { λ _ f. f ≡ Memory };

    fn from(_: AllocError) -> Fault {
        Fault::Memory
    }
}

impl<T: Drop> From<AllocFailed<T>> for Fault {
    ghost from_gives = { λ _ f. f ≡ Memory };

    fn from(_: AllocFailed<T>) -> Fault {
        Fault::Memory
    }
}
