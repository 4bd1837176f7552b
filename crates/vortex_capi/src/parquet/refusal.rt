//! Why a call about a footer is refused, as a caller in C is told.
ghost use Rattle.std.specs.Prelude.{◌≡◌};
ghost use Rattle.vortex_capi.specs.ParquetCalls.Refusals as spec;

use crate::fault::Refusal;
use crate::sql::refusal::{in_text, of_sql};
use crate::status::Status;
use vortex_parquet::columns::LeftOut;
use vortex_parquet::{Fault as FooterFault, ReadError};
use vortex_predicates::FooterError;
use vortex_stats::StatsError;

fn no_memory() -> Refusal
    ensures { result ≡ spec.no_memory }
{
    Refusal::at_entry(Status::NoMemory, 0)
}

// The number of a fault of a footer.
fn number_of(fault: FooterFault) -> usize
    ensures { result ≡ spec.number_of fault }
{
    match fault {
        FooterFault::NotParquet => 0,
        FooterFault::Encrypted => 1,
        FooterFault::FooterLength => 2,
        FooterFault::Short => 3,
        FooterFault::Varint => 4,
        FooterFault::Negative => 5,
        FooterFault::FieldId => 6,
        FooterFault::Kind => 7,
        FooterFault::Length => 8,
        FooterFault::Depth => 9,
        FooterFault::Missing => 10,
        FooterFault::Schema => 11,
        FooterFault::Columns => 12,
        FooterFault::Pages => 14,
    }
}

fn bad_footer(fault: FooterFault) -> Refusal
    ensures { result ≡ spec.bad_footer fault }
{
    Refusal::at_column(Status::BadFooter, number_of(fault))
}

fn of_stats(error: StatsError) -> Refusal
    ensures { result ≡ spec.of_stats error }
{
    match error {
        // A bound is no value of its column's type.
        StatsError::Mismatch => Refusal::at_column(Status::BadFooter, 13),
        _ => no_memory(),
    }
}

/// Returns the refusal of bytes that are no footer.
pub(crate) fn of_read(error: ReadError) -> Refusal
    ensures { result ≡ spec.of_read error }
{
    match error {
        ReadError::Memory => no_memory(),
        ReadError::Fault(fault) => bad_footer(fault),
    }
}

fn reason_of(why: LeftOut) -> usize
    ensures { result ≡ spec.reason_of why }
{
    match why {
        LeftOut::Nested => 0,
        LeftOut::Repeated => 1,
        LeftOut::Duplicate => 2,
        LeftOut::Type => 3,
    }
}

/// Returns the refusal of a condition over a file, or of its row groups, by built-in rules.
pub(crate) fn of_footer(error: FooterError) -> Refusal
    ensures { result ≡ spec.of_footer error }
{
    match error {
        FooterError::Memory => no_memory(),
        FooterError::Footer(fault) => bad_footer(fault),
        FooterError::Sql(error) => of_sql(error),
        FooterError::LeftOut(start, end, why) => Refusal {
            status: Status::NotRead,
            fault: in_text(start, end, reason_of(why)),
        },
        FooterError::Stats(error) => of_stats(error),
    }
}
