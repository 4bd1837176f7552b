//! The whole numbers that stand in the bytes of decimals.
ghost use Rattle.std.specs.Prelude.{◌≡◌, pos, ◌+ℤ◌, ◌*ℤ◌};
ghost use Rattle.vortex_parquet.specs.Decimals as spec;

// A number with one more byte behind it, if that fits 64 bits.
fn with_byte(number: i64, byte: u8) -> Option<i64>
    ensures { result ≡ spec.in_64_bits ((number *ℤ pos 256) +ℤ pos byte) }
{
    if number < -36_028_797_018_963_968 || number > 36_028_797_018_963_967 {
        return None;
    }
    Some(number * 256 + i64::from(byte))
}

// A number with so many bytes behind it, if that fits 64 bits.
fn with_bytes(first: i64, bytes: &[u8]) -> Option<i64>
    ensures { result ≡ spec.in_64_bits (spec.with_bytes first bytes.now) }
{
    let mut number = first;
    for byte in bytes {
        let Some(next) = with_byte(number, *byte) else {
            return None;
        };
        number = next;
    }
    Some(number)
}

/// Returns the whole number that the bytes are, the highest first, in two's complement, if it fits
/// 64 bits.
#[tactic(auto, unfolding(crate::specs::Decimals::number_of))]
pub(crate) fn number_of(bytes: &[u8]) -> Option<i64>
    ensures { result ≡ spec.number_of bytes.now }
{
    match bytes {
        [] => None,
        [first, rest @ ..] => with_bytes(i64::from(first.cast_signed()), rest),
    }
}
