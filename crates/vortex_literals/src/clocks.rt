//! Texts of timestamps, of instants and of times of day.
ghost use Rattle.std.specs.Prelude.{◌≡◌, MatchOption, pos};
ghost use Rattle.jiff.specs.Words.{date_parts, time_nanos, time_parts};
ghost use Rattle.jiff_fmt.specs.Temporal.{parts_nanos};
ghost use Rattle.vortex_literals.specs.Clocks as spec;

use crate::dates::has_date_form;
use jiff::Timestamp;
use jiff::civil::{DateTime, Time, date};
use vortex_logical::exact::Exact;

// Returns nanoseconds in seconds.
fn seconds_of(nanos: i128) -> Exact
    ensures { spec.IsNanos nanos result }
{
    Exact {
        top: nanos,
        scale: 9,
    }
}

// Tells whether nothing but digits and points follows the place at which the seconds end.
fn has_only_digits(bytes: &[u8], end: usize) -> bool
    ensures { result ≡ spec.has_only_digits end bytes.now }
{
    bytes
        .iter()
        .skip(end)
        .all(|byte| *byte == b'.' || byte.is_ascii_digit())
}

// Tells whether a text has a date, a blank or T, an hour and a minute, and perhaps more.
fn begins_as_clock(bytes: &[u8]) -> bool
    ensures { result ≡ spec.begins_as_clock bytes.now }
{
    bytes.len() >= 16
        && bytes[4] == b'-'
        && bytes[7] == b'-'
        && (bytes[10] == b' ' || bytes[10] == b'T')
        && bytes[13] == b':'
}

// Tells whether seconds below 60 follow the minute.
fn has_seconds(bytes: &[u8]) -> bool
    ensures { result ≡ spec.has_seconds bytes.now }
{
    bytes.len() >= 19 && bytes[16] == b':' && bytes[17] < b'6'
}

// Tells whether a text has the form of a date, or of a date with a clock and no zone.
fn has_timestamp_form(bytes: &[u8]) -> bool
    ensures { result ≡ spec.has_timestamp_form bytes.now }
{
    if has_date_form(bytes) {
        return true;
    }
    if !begins_as_clock(bytes) {
        return false;
    }
    bytes.len() == 16 || (has_seconds(bytes) && has_only_digits(bytes, 19))
}

// Tells whether a text has neither a zone's name nor a comma.
fn is_plain(bytes: &[u8]) -> bool
    ensures { result ≡ spec.is_plain bytes.now }
{
    bytes.iter().all(|byte| *byte != b'[' && *byte != b',')
}

// Tells whether no point stands behind the one that follows seconds.
fn has_whole_offset(bytes: &[u8]) -> bool
    ensures { result ≡ spec.has_whole_offset bytes.now }
{
    bytes.iter().skip(20).all(|byte| *byte != b'.')
}

// Tells whether a text has the form of a date with a clock and an offset.
fn has_instant_form(bytes: &[u8]) -> bool
    ensures { result ≡ spec.has_instant_form bytes.now }
{
    if !begins_as_clock(bytes) || !is_plain(bytes) || !has_whole_offset(bytes) {
        return false;
    }
    has_seconds(bytes) || (bytes.len() >= 17 && bytes[16] != b':')
}

// Tells whether a text has the form of a time of day.
fn has_time_form(bytes: &[u8]) -> bool
    ensures { result ≡ spec.has_time_form bytes.now }
{
    if bytes.len() < 5 || bytes[2] != b':' {
        return false;
    }
    bytes.len() == 5
        || (bytes.len() >= 8 && bytes[5] == b':' && bytes[6] < b'6' && has_only_digits(bytes, 8))
}

// Returns the number of a clock with no zone.
fn clock_number(clock: DateTime) -> Exact
    ensures { spec.IsNanos (parts_nanos (date_parts clock.date) (time_parts clock.time)) result }
{
    let first = date(1970, 1, 1).to_datetime(Time::midnight());
    let nanos = clock.duration_since(first).as_nanos();
    seconds_of(nanos)
}

// Returns the number of a time of day.
fn time_number(time: Time) -> Exact
    ensures { spec.IsNanos (pos (time_nanos time)) result }
{
    let nanos = time.duration_since(Time::midnight()).as_nanos();
    seconds_of(nanos)
}

/// Reads the text of `TIMESTAMP '2026-01-02 12:00:00.5'` as seconds since 1970-01-01 00:00 on the
/// same clock. Seconds may be left out, or the whole clock, which is midnight then. `None` where
/// the text has another form, more than nine digits behind the point, a zone, or no such clock.
pub fn read_timestamp(text: &str) -> Option<Exact>
    ensures { MatchOption result (spec.IsNoTimestamp text.now) (spec.IsTimestamp text.now) }
{
    if !has_timestamp_form(text.as_bytes()) {
        return None;
    }
    match text.parse::<DateTime>() {
        Ok(clock) => Some(clock_number(clock)),
        Err(_) => None,
    }
}

/// Reads the text of `TIMESTAMPTZ '2026-01-02 12:00:00+02'` as seconds since 1970-01-01 00:00 UTC.
/// The text is that of a timestamp with a clock, behind which stands Z or an offset without a
/// fraction. `None` where it isn't.
pub fn read_instant(text: &str) -> Option<Exact>
    ensures { MatchOption result (spec.IsNoInstant text.now) (spec.IsInstant text.now) }
{
    if !has_instant_form(text.as_bytes()) {
        return None;
    }
    match text.parse::<Timestamp>() {
        Ok(instant) => Some(seconds_of(instant.as_nanosecond())),
        Err(_) => None,
    }
}

/// Reads the text of `TIME '12:00:00.5'` as seconds since midnight. Seconds may be left out. `None`
/// where the text has another form, more than nine digits behind the point, or no such time.
pub fn read_time(text: &str) -> Option<Exact>
    ensures { MatchOption result (spec.IsNoTime text.now) (spec.IsTime text.now) }
{
    if !has_time_form(text.as_bytes()) {
        return None;
    }
    match text.parse::<Time>() {
        Ok(time) => Some(time_number(time)),
        Err(_) => None,
    }
}
