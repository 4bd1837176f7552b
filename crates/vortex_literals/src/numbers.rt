//! Texts of decimal numbers.
ghost use Rattle.std.specs.Prelude.{◌≡◌, ◌<◌, ◌*◌, ◌+◌, ◌-◌, ◌++◌, ◌^◌, List, MatchOption, if◌then◌else◌, min, pos, ℕ};
ghost use Rattle.std.specs.Option.{SomeIff};
ghost use Rattle.std.specs.Str.Parse.{AllDigits, digits_value};
ghost use Rattle.fast_float.specs.Text as numerals;
ghost use Rattle.vortex_literals.specs.Numbers as spec;

use fast_float::Numeral;
use vortex_logical::exact::Exact;

// Returns the number whose digits are those of another and then these, or the greatest of 128 bits
// if the number is above it.
fn appended(first: u128, digits: &[u8]) -> u128
    requires { AllDigits 10 digits.now }
    ensures { (before : List ℕ) → first ≡ min (digits_value 10 before) (2 ^ 128 - 1)
        → result ≡ min (digits_value 10 (before ++ digits.now)) (2 ^ 128 - 1) }
{
    let mut value = first;
    for digit in digits {
        let next = u128::from(*digit - b'0');
        value = value.saturating_mul(10).saturating_add(next);
    }
    value
}

// Returns the number of all digits before an exponent, or the greatest of 128 bits.
fn digits_of(numeral: &Numeral<'_>) -> u128
    ensures { result ≡ min (numerals.digits_of numeral.now) (2 ^ 128 - 1) }
{
    let first = appended(0, numeral.whole());
    appended(first, numeral.fraction())
}

// Returns the number of an exponent's digits, or the greatest of 128 bits.
fn exponent_of(numeral: &Numeral<'_>) -> u128
    ensures { result ≡ min (digits_value 10 numeral.now.exponent) (2 ^ 128 - 1) }
{
    appended(0, numeral.exponent())
}

// Returns a multiple of a power of ten that is below 2 ^ 127.
fn raised(digits: u128, up: u128) -> Option<i128>
    ensures { SomeIff result (digits * 10 ^ up < 2 ^ 127) (pos (digits * 10 ^ up)) }
{
    if digits == 0 {
        return Some(0);
    }
    if up > 38 {
        return None;
    }
    let top = digits.checked_mul(10u128.pow(up as u32))?;
    i128::try_from(top).ok()
}

// Returns digits times a power of ten, divided by another.
fn scaled(digits: u128, up: u128, down: u128) -> Option<Exact>
    ensures { spec.IsRead (spec.if_short digits up down) result }
{
    if down > 33 {
        return None;
    }
    match raised(digits, up) {
        Some(top) => Some(Exact {
            top,
            scale: down as u32,
        }),
        None => None,
    }
}

// Returns digits, of which some stand behind the point, moved by an exponent.
fn moved(digits: u128, behind: u128, exponent: u128, negative: bool) -> Option<Exact>
    ensures { (d : ℕ) (e : ℕ)
        → digits ≡ min d (2 ^ 128 - 1) → exponent ≡ min e (2 ^ 128 - 1)
        → spec.IsRead (spec.if_short d (if negative then 0 else e)
        (behind + (if negative then e else 0))) result }
{
    if negative {
        return scaled(digits, 0, behind.saturating_add(exponent));
    }
    scaled(digits, exponent, behind)
}

/// Reads a number without a sign: digits, perhaps with a point, and perhaps an exponent. `None`
/// where the text isn't such a number, has more than 33 digits behind the point once the exponent
/// has moved it, or where all its digits, and the noughts that the exponent adds, make 2 ^ 127 or
/// more.
pub fn read_number(text: &[u8]) -> Option<Exact>
    ensures { MatchOption result (spec.IsNoNumber text.now) (spec.IsNumber text.now) }
{
    let numeral = Numeral::scan(text);
    if numeral.len() != text.len() || !numeral.has_digits() {
        return None;
    }
    let digits = digits_of(&numeral);
    let exponent = exponent_of(&numeral);
    let behind = numeral.fraction().len() as u128;
    moved(digits, behind, exponent, numeral.is_exponent_negative())
}
