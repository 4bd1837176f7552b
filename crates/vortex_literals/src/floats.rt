//! Texts of floats.
ghost use Rattle.std.specs.Prelude.{◌≡◌, MatchOption, None, Some, option_map};
ghost use Rattle.std.specs.Float.Ieee.{binary64, of_bits};
ghost use Rattle.fast_float.specs.Parse.{parse_float};
ghost use Rattle.vortex_literals.specs.Floats.{float_bits, nan64};

// Returns the bits of a number, or those of one NaN.
fn bits_of(number: f64) -> u64
    ensures float { of_bits binary64 result ≡ number }
    ensures bits { result ≡ float_bits binary64 nan64 number }
{
    if number.is_nan() {
        return 0x7FF8_0000_0000_0000;
    }
    number.to_bits()
}

/// Reads a text as the float of 64 bits that is nearest to its number, and returns the float's
/// bits. `None` where the text isn't a number, `inf` or `nan`, with or without a sign.
pub fn read_float64(text: &[u8]) -> Option<u64>
    ensures float { MatchOption result (parse_float binary64 text.now ≡ None)
        (λ bits. parse_float binary64 text.now ≡ Some (of_bits binary64 bits)) }
    ensures bits { result ≡ option_map (float_bits binary64 nan64) (parse_float binary64 text.now) }
{
    match fast_float::parse::<f64, _>(text) {
        Ok(number) => Some(bits_of(number)),
        Err(_) => None,
    }
}
