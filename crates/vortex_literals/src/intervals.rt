//! Dates moved by an interval.
ghost use Rattle.std.specs.Prelude.{◌≡◌, ◌↔◌, ◌≤◌, IfSome, IsSome, IsSomeAnd, MatchOption, unsigned_abs};
ghost use Rattle.jiff.specs.Words.{epoch_day, IsEpochDay};
ghost use Rattle.vortex_literals.specs.Intervals as spec;

use crate::dates::midnight;
use jiff::ToSpan;
use jiff::civil::{Date, date};
use vortex_logical::exact::Exact;

/// The unit of an interval.
#[derive(Debug, Clone, Copy, PartialEq, Eq)]
pub enum IntervalUnit {
    Day,
    Month,
    Year,
}

// The numbers of -9999-01-01 and of 9999-12-31, the first and the last day that jiff has.
const FIRST_DAY: i128 = -4_371_587;

const LAST_DAY: i128 = 2_932_896;

// Returns the number of the day whose midnight a number is.
fn day_number(number: Exact) -> Option<i64>
    ensures { MatchOption result (spec.HasNoDay number) (spec.IsDayNumber number) }
{
    if number.scale != 0 || number.top.rem_euclid(86_400) != 0 {
        return None;
    }
    let days = number.top.div_euclid(86_400);
    if FIRST_DAY <= days && days <= LAST_DAY {
        return Some(days as i64);
    }
    None
}

// Returns the date of a day number.
fn date_at(number: i64) -> Option<Date>
    requires { IsEpochDay number }
    ensures { IsSomeAnd result (λ d. epoch_day d ≡ number) }
{
    match date(1970, 1, 1).checked_add(number.days()) {
        Ok(day) => Some(day),
        Err(_) => None,
    }
}

fn days_later(date: Date, count: i64) -> Option<Date>
    requires { unsigned_abs count ≤ 7_304_484 }
    ensures { MatchOption result (spec.CantMove spec.Day count date)
        (spec.IsMoved spec.Day count date) }
{
    match date.checked_add(count.days()) {
        Ok(moved) => Some(moved),
        Err(_) => None,
    }
}

fn months_later(date: Date, count: i64) -> Option<Date>
    requires { unsigned_abs count ≤ 239_976 }
    ensures { MatchOption result (spec.CantMove spec.Month count date)
        (spec.IsMoved spec.Month count date) }
{
    match date.checked_add(count.months()) {
        Ok(moved) => Some(moved),
        Err(_) => None,
    }
}

fn years_later(date: Date, count: i64) -> Option<Date>
    requires { unsigned_abs count ≤ 19_998 }
    ensures { MatchOption result (spec.CantMove spec.Year count date)
        (spec.IsMoved spec.Year count date) }
{
    match date.checked_add(count.years()) {
        Ok(moved) => Some(moved),
        Err(_) => None,
    }
}

// Returns a date that many days, months or years later.
fn moved(date: Date, unit: IntervalUnit, count: i64) -> Option<Date>
    ensures { MatchOption result (spec.CantMove unit count date) (spec.IsMoved unit count date) }
{
    let size = count.unsigned_abs();
    match unit {
        IntervalUnit::Day if size <= 7_304_484 => days_later(date, count),
        IntervalUnit::Month if size <= 239_976 => months_later(date, count),
        IntervalUnit::Year if size <= 19_998 => years_later(date, count),
        _ => None,
    }
}

// Returns the date whose midnight a number is.
fn date_of(number: Exact) -> Option<Date>
    ensures { MatchOption result (spec.IsNoMidnight number) (spec.IsMidnightOf number) }
{
    match day_number(number) {
        Some(days) => date_at(days),
        None => None,
    }
}

/// Returns the midnight that many days, months or years after a date's midnight, both in seconds
/// since 1970-01-01. A month later is the same day of the next month, or its last day where it is
/// shorter. `None` where the number is no date's midnight, or where the date, or the one that it
/// would become, lies outside of the years -9999 to 9999.
pub fn later(number: Exact, unit: IntervalUnit, count: i64) -> Option<Exact>
    ensures told { IsSome result ↔ spec.IsMovable unit count number }
    ensures value { IfSome result (spec.IsLater unit count number) }
{
    match date_of(number) {
        Some(day) => match moved(day, unit, count) {
            Some(day) => Some(midnight(day)),
            None => None,
        },
        None => None,
    }
}
