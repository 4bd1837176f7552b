//! The statuses that a call returns.
ghost use Rattle.std.specs.Prelude.{◌≡◌};
ghost use Rattle.vortex_capi.specs.Statuses.{status_number};
ghost use Rattle.vortex_capi.specs.declared.status.Status.TheVariants.{NoMemory};

use crate::nested::error::NestedError;
use std::alloc::{AllocError, AllocFailed};

/// Why a call was refused. The header's `vortex_status` has the numbers.
#[derive(Clone, Copy, Debug, PartialEq, Eq)]
pub enum Status {
    /// 2: a text is no expression over the columns.
    BadLine,
    /// 3: an array of bytes is too short for the answer.
    TooShort,
    /// 4: memory was refused.
    NoMemory,
    /// 5: no kind of values, or neither 0 nor 1 for nullable.
    BadKind,
    /// 6: no statistic, or none that the type has.
    BadStat,
    /// 7: no precision.
    BadKnown,
    /// 8: an array is too short or, where it is written, too long.
    BadLength,
    /// 9: a text begins behind its end, or ends behind the heap.
    BadEnds,
    /// 10: a text isn't UTF-8, or a truth is above 1.
    BadValue,
    /// 11: a null in a type that has none.
    BadNull,
    /// 12: a statistic isn't true.
    Untrue,
    /// 13: a statistic of a column that isn't there.
    BadColumn,
    /// 14: a column's name is none, or another column has it.
    BadName,
    /// 15: the expression isn't of type Bool.
    NotAPredicate,
    /// 16: a flag that isn't known.
    BadFlag,
    /// 17: a predicate that nests deeper than a call's stack bears.
    TooDeep,
    /// 18: a text is no condition in SQL.
    BadSql,
    /// 19: the types of a test in SQL don't fit.
    Misfit,
    /// 20: bytes are no footer of a Parquet file.
    BadFooter,
    /// 21: a test names a column of which no test could be meant.
    NotRead,
}

impl Status {
    /// The number of the status.
    pub fn number(self) -> u8
        ensures { result ≡ status_number self }
    {
        match self {
            Status::BadLine => 2,
            Status::TooShort => 3,
            Status::NoMemory => 4,
            Status::BadKind => 5,
            Status::BadStat => 6,
            Status::BadKnown => 7,
            Status::BadLength => 8,
            Status::BadEnds => 9,
            Status::BadValue => 10,
            Status::BadNull => 11,
            Status::Untrue => 12,
            Status::BadColumn => 13,
            Status::BadName => 14,
            Status::NotAPredicate => 15,
            Status::BadFlag => 16,
            Status::TooDeep => 17,
            Status::BadSql => 18,
            Status::Misfit => 19,
            Status::BadFooter => 20,
            Status::NotRead => 21,
        }
    }
}

impl From<AllocError> for Status {
    ghost from_gives = { λ _ s. s ≡ NoMemory };

    fn from(_refused: AllocError) -> Status {
        Status::NoMemory
    }
}

impl<T: Drop> From<AllocFailed<T>> for Status {
    ghost from_gives = { λ _ s. s ≡ NoMemory };

    fn from(_refused: AllocFailed<T>) -> Status {
        Status::NoMemory
    }
}

impl From<NestedError> for Status {
    ghost use Rattle.vortex_capi.specs.Statuses.{status_of_nested};

    ghost from_gives = { λ e s. s ≡ status_of_nested e };

    fn from(e: NestedError) -> Status {
        match e {
            NestedError::Memory => Status::NoMemory,
            NestedError::Bad => Status::BadLine,
            NestedError::TooDeep => Status::TooDeep,
        }
    }
}
