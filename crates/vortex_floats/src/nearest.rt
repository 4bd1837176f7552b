//! The float that is nearest to a number.
ghost use Rattle.std.specs.Prelude.{◌≡◌, IfOk, IfSome, option_map};
ghost use Rattle.std.specs.Float.Ieee.{binary32, of_bits};
ghost use Rattle.std.specs.String.{string_bytes};
ghost use Rattle.vortex_floats.specs.Nearest as spec;
ghost use Rattle.vortex_literals.specs.Floats.{float_bits};

use crate::cells::compare_cells;
use std::alloc::{AllocError, Global};
use vortex_literals::floats::read_float64;
use vortex_logical::comparison::Comparison;
use vortex_logical::exact::Exact;
use vortex_logical::float_test::{FloatTest, NanMeaning};
use vortex_logical::float_type::FloatType;

// Returns the text of a number.
fn number_text(alloc: Global, number: Exact) -> Result<String, AllocError>
    ensures { IfOk result (λ text. string_bytes text ≡ spec.number_text number) }
{
    let (top, scale) = (number.top, number.scale);
    format!(in alloc; "{top}e-{scale}")
}

// Returns the bits of a float, or those of one NaN.
fn bits_of(number: f32) -> u64
    ensures float { of_bits binary32 result ≡ number }
    ensures bits { result ≡ float_bits binary32 spec.nan32 number }
{
    if number.is_nan() {
        return 0x7FC0_0000;
    }
    u64::from(number.to_bits())
}

// Returns the float of 32 bits that is nearest to the number of a text, if the one of 64 bits is
// the same number: engines that round to 64 bits first say the same.
fn nearest_single(text: &[u8]) -> Option<u64>
    ensures float { spec.AreBits binary32 (spec.single_of text.now) result }
    ensures bits { result ≡ option_map (float_bits binary32 spec.nan32) (spec.single_of text.now) }
{
    match (
        fast_float::parse::<f32, _>(text),
        fast_float::parse::<f64, _>(text),
    ) {
        (Ok(single), Ok(double)) if f64::from(single) == double => Some(bits_of(single)),
        _ => None,
    }
}

/// Returns the bits of the float that is nearest to a number. `None` for floats of 16 bits, and for
/// those of 32 bits where the nearest of 64 bits is another number, as of 0.1.
pub fn nearest(alloc: Global, float: FloatType, number: Exact) -> Result<Option<u64>, AllocError>
    ensures value { IfOk result (λ found. found ≡ spec.nearest float number) }
    ensures float { IfOk result (spec.AreNearest float number) }
{
    let text = number_text(alloc, number)?;
    match float {
        FloatType::F16 => Ok(None),
        FloatType::F32 => Ok(nearest_single(text.as_bytes())),
        FloatType::F64 => Ok(read_float64(text.as_bytes())),
    }
}

/// Returns the test of a column's cells that says of each what the comparison of its float with the
/// nearest float to a number says. Where nothing is said of NaN, the test is right under both
/// meanings.
///
/// `None` where the meanings of NaN differ and none is said, where the nearest float is infinite, and
/// where `nearest` has none. `AllocError` if memory is refused.
pub fn compare_number(
    alloc: Global,
    float: FloatType,
    nan: Option<NanMeaning>,
    comparison: Comparison,
    number: Exact,
) -> Result<Option<FloatTest>, AllocError>
    // There is a test exactly where there is one by the nearest float.
    ensures found { IfOk result (spec.IsByNearest float nan comparison number) }
    ensures says { IfOk result (λ found.
        IfSome found (spec.SaysOfNumber float nan comparison number)) }
{
    match nearest(alloc, float, number)? {
        Some(bits) => Ok(compare_cells(float, nan, comparison, bits)),
        None => Ok(None),
    }
}
