//! Texts of dates.
ghost use Rattle.std.specs.Prelude.{◌≡◌, ◌*ℤ◌, MatchOption, pos};
ghost use Rattle.jiff.specs.Words.{epoch_day};
ghost use Rattle.vortex_literals.specs.Dates as spec;

use jiff::civil::{Date, date};
use vortex_logical::exact::Exact;

// Tells whether a text has ten bytes with a dash after the year and one after the month.
pub(crate) fn has_date_form(bytes: &[u8]) -> bool
    ensures { result ≡ spec.has_date_form bytes.now }
{
    bytes.len() == 10 && bytes[4] == b'-' && bytes[7] == b'-'
}

// Returns the seconds from 1970-01-01 to the midnight of a day.
fn seconds_until(day: Date) -> i64
    ensures { result ≡ epoch_day day *ℤ pos 86_400 }
{
    day.duration_since(date(1970, 1, 1)).as_secs()
}

// Returns the midnight of a day.
pub(crate) fn midnight(day: Date) -> Exact
    ensures { spec.IsMidnight (epoch_day day) result }
{
    Exact {
        top: i128::from(seconds_until(day)),
        scale: 0,
    }
}

/// Reads the text of `DATE '2026-01-02'` as the midnight of the day, in seconds since 1970-01-01.
/// `None` unless the text has ten bytes, dashes after the year and the month, and a day that the
/// calendar has.
pub fn read_date(text: &str) -> Option<Exact>
    ensures { MatchOption result (spec.IsNoDate text.now) (spec.IsDate text.now) }
{
    if !has_date_form(text.as_bytes()) {
        return None;
    }
    match text.parse::<Date>() {
        Ok(day) => Some(midnight(day)),
        Err(_) => None,
    }
}
