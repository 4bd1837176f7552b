//! Faults that binders and rules of a user answer where they fail.
use std::alloc::{AllocError, AllocFailed};
use vortex_base::error::BaseError;
use vortex_stats::error::StatsError;

/// Why a binder or a rule of a user has no answer.
#[derive(Debug, Drop)]
pub enum HookFault {
    /// A growth or a clone was refused.
    Memory(AllocError),
    /// A fault of its own, by its number.
    Own(u32),
}

impl HookFault {
    /// The number by which `?` tells a refusal of a layer below, but for one of memory. A binder or
    /// a rule that can't meet one needn't name it among its faults.
    pub const REFUSED: u32 = u32::MAX;
}

impl From<AllocError> for HookFault {
    ghost use Rattle.std.specs.Prelude.{◌≡◌};
    ghost use Rattle.vortex_rewrite.specs.declared.hook_fault.HookFault.TheVariants.{Memory};

    ghost from_gives = { λ e r. r ≡ Memory e };

    fn from(refused: AllocError) -> HookFault {
        HookFault::Memory(refused)
    }
}

impl<T: Drop> From<AllocFailed<T>> for HookFault {
    ghost use Rattle.std.specs.Prelude.{◌≡◌, alloc_error};
    ghost use Rattle.vortex_rewrite.specs.declared.hook_fault.HookFault.TheVariants.{Memory};

    ghost from_gives = { λ _ r. r ≡ Memory alloc_error };

    fn from(_refused: AllocFailed<T>) -> HookFault {
        HookFault::Memory(AllocError)
    }
}

impl From<BaseError> for HookFault {
    ghost use Rattle.std.specs.Prelude.{◌≡◌};
    ghost use Rattle.vortex_rewrite.specs.HookFaults.{of_base};

    ghost from_gives = { λ e r. r ≡ of_base e };

    fn from(fault: BaseError) -> HookFault {
        match fault {
            BaseError::Memory(refused) => HookFault::Memory(refused),
            _ => HookFault::Own(HookFault::REFUSED),
        }
    }
}

impl From<StatsError> for HookFault {
    ghost use Rattle.std.specs.Prelude.{◌≡◌};
    ghost use Rattle.vortex_rewrite.specs.HookFaults.{of_stats};

    ghost from_gives = { λ e r. r ≡ of_stats e };

    fn from(fault: StatsError) -> HookFault {
        match fault {
            StatsError::Memory(refused) => HookFault::Memory(refused),
            _ => HookFault::Own(HookFault::REFUSED),
        }
    }
}
