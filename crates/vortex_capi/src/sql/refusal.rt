//! Why a text is refused, as a caller in C is told.
ghost use Rattle.std.specs.Prelude.{◌≡◌};
ghost use Rattle.vortex_capi.specs.SqlCalls.SqlPrunes as spec;

use crate::fault::{Fault, Refusal};
use crate::status::Status;
use vortex_sql::error::SqlError;
use vortex_sql::syntax::error::ParseError;

/// Returns the place from a byte of a text on up to another, with a number that says why.
pub(crate) fn in_text(start: usize, end: usize, why: usize) -> Fault
    ensures { result ≡ spec.in_text start end why }
{
    Fault {
        row: end,
        column: why,
        entry: start,
    }
}

// Returns the refusal of a text that is no condition from a byte on, with a number that says why.
fn no_condition(at: usize, why: usize) -> Refusal
    ensures { result ≡ spec.no_condition at why }
{
    Refusal {
        status: Status::BadSql,
        fault: in_text(at, 0, why),
    }
}

/// Returns the refusal of a text that isn't UTF-8 from a byte on.
pub(crate) fn no_text(at: usize) -> Refusal
    ensures { result ≡ spec.no_text at }
{
    no_condition(at, 7)
}

fn of_syntax(error: ParseError) -> Refusal
    ensures { result ≡ spec.of_syntax error }
{
    match error {
        ParseError::Memory => Refusal::at_entry(Status::NoMemory, 0),
        ParseError::Unexpected(at) => no_condition(at, 0),
        ParseError::Unclosed(at) => no_condition(at, 1),
        ParseError::Comment(at) => no_condition(at, 2),
        ParseError::Prefixed(at) => no_condition(at, 3),
        ParseError::Dollar(at) => no_condition(at, 4),
        ParseError::Glued(at) => no_condition(at, 5),
        ParseError::Adjacent(at) => no_condition(at, 6),
        ParseError::TooDeep(at) => Refusal {
            status: Status::TooDeep,
            fault: in_text(at, 0, 0),
        },
    }
}

/// Returns the refusal of a text that is no condition over a scope.
pub(crate) fn of_sql(error: SqlError) -> Refusal
    ensures { result ≡ spec.of_sql error }
{
    match error {
        SqlError::Memory => Refusal::at_entry(Status::NoMemory, 0),
        SqlError::Syntax(error) => of_syntax(error),
        SqlError::Misfit(start, end) => Refusal {
            status: Status::Misfit,
            fault: in_text(start, end, 0),
        },
        SqlError::Name => Refusal::at_entry(Status::BadName, 0),
    }
}
