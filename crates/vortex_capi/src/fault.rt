//! Where a call was refused.
ghost use Rattle.std.specs.Prelude.{◌≡◌};
ghost use Rattle.vortex_capi.specs.Prunes.{IsToldAs};
ghost use Rattle.vortex_capi.specs.Statuses.{at_column, at_entry, at_row, in_column, in_zone};

use crate::status::Status;
use std::alloc::{AllocError, AllocFailed};

/// The place of what was refused: `vortex_fault` of the header. Of a text that is no condition in SQL
/// it is a place in the text.
#[repr(C)]
#[derive(Clone, Copy, Debug)]
pub struct Fault {
    /// The row of a column of values, or the zone of a table; or the byte behind a test whose types
    /// don't fit.
    pub row: usize,
    /// The column; or why a text is no condition, by its number.
    pub column: usize,
    /// The statistic, by its place among those that were handed in; or the byte at which what is
    /// refused of a text begins.
    pub entry: usize,
}

/// Why a call was refused, and where.
#[derive(Clone, Copy, Debug)]
pub struct Refusal {
    pub status: Status,
    pub fault: Fault,
}

impl Refusal {
    /// In this row, whatever statistic.
    pub fn at_row(status: Status, row: usize) -> Refusal
        ensures { result ≡ at_row status row }
    {
        let fault = Fault {
            row,
            column: 0,
            entry: 0,
        };
        Refusal { status, fault }
    }

    /// In this zone, at this statistic.
    pub fn in_zone(status: Status, zone: usize, entry: usize) -> Refusal
        ensures { result ≡ in_zone zone status entry }
    {
        let fault = Fault {
            row: zone,
            column: 0,
            entry,
        };
        Refusal { status, fault }
    }

    /// At this column of a scope.
    pub fn at_column(status: Status, column: usize) -> Refusal
        ensures { result ≡ at_column status column }
    {
        let fault = Fault {
            row: 0,
            column,
            entry: 0,
        };
        Refusal { status, fault }
    }

    /// In this zone, at this statistic of a column.
    pub fn in_column(status: Status, zone: usize, column: usize, entry: usize) -> Refusal
        ensures { result ≡ in_column zone column status entry }
    {
        let fault = Fault {
            row: zone,
            column,
            entry,
        };
        Refusal { status, fault }
    }

    /// At this statistic, whatever row.
    pub fn at_entry(status: Status, entry: usize) -> Refusal
        ensures { result ≡ at_entry status entry }
    {
        let fault = Fault {
            row: 0,
            column: 0,
            entry,
        };
        Refusal { status, fault }
    }
}

impl Refusal {
    /// Tells where a call was refused. Returns the number of the status.
    pub(crate) fn tell(self, fault: &mut Fault) -> u8
        ensures { IsToldAs self result fault.new }
    {
        *fault = self.fault;
        self.status.number()
    }
}

impl From<AllocError> for Refusal {
    ghost use Rattle.std.specs.Prelude.{◌≡◌};
    ghost use Rattle.vortex_capi.specs.Statuses.{at_entry};
    ghost use Rattle.vortex_capi.specs.declared.status.Status.TheVariants.{NoMemory};

    ghost from_gives = { λ _ r. r ≡ at_entry NoMemory 0 };

    fn from(_refused: AllocError) -> Refusal {
        Refusal::at_entry(Status::NoMemory, 0)
    }
}

impl<T: Drop> From<AllocFailed<T>> for Refusal {
    ghost use Rattle.std.specs.Prelude.{◌≡◌};
    ghost use Rattle.vortex_capi.specs.Statuses.{at_entry};
    ghost use Rattle.vortex_capi.specs.declared.status.Status.TheVariants.{NoMemory};

    ghost from_gives = { λ _ r. r ≡ at_entry NoMemory 0 };

    fn from(_refused: AllocFailed<T>) -> Refusal {
        Refusal::at_entry(Status::NoMemory, 0)
    }
}
