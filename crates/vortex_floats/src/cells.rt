//! Comparisons with a float as tests of the whole numbers of cells.
ghost use Rattle.std.specs.Prelude.{◌≡◌, IfSome};
ghost use Rattle.vortex_floats.specs.Cells as spec;
ghost use Rattle.vortex_logical.specs.Floats as floats;

use vortex_logical::comparison::Comparison;
use vortex_logical::float_test::{FloatTest, NanMeaning};
use vortex_logical::float_type::FloatType;
use vortex_logical::lower::CellTest;

// Tells whether both meanings of NaN say the same of it.
fn is_agreed(comparison: Comparison) -> bool
    ensures { result ≡ spec.is_agreed comparison }
{
    !matches!(comparison, Comparison::Gt | Comparison::Gte)
}

// Tells whether it is known what the comparison says of NaN.
fn is_told(nan: Option<NanMeaning>, comparison: Comparison) -> bool
    ensures { result ≡ spec.is_told nan comparison }
{
    match nan {
        Some(_) => true,
        None => is_agreed(comparison),
    }
}

// Returns the bit of the sign.
fn sign_bit(float: FloatType) -> u64
    ensures { result ≡ floats.sign_bit float }
{
    match float {
        FloatType::F16 => 0x8000,
        FloatType::F32 => 0x8000_0000,
        FloatType::F64 => 0x8000_0000_0000_0000,
    }
}

// Returns the bits of infinity.
fn infinity_bits(float: FloatType) -> u64
    ensures { result ≡ floats.infinity_bits float }
{
    match float {
        FloatType::F16 => 0x7C00,
        FloatType::F32 => 0x7F80_0000,
        FloatType::F64 => 0x7FF0_0000_0000_0000,
    }
}

// Returns the bits of the NaN that stands for all.
fn nan_bits(float: FloatType) -> u64
    ensures { result ≡ floats.nan_bits float }
{
    match float {
        FloatType::F16 => 0x7E00,
        FloatType::F32 => 0x7FC0_0000,
        FloatType::F64 => 0x7FF8_0000_0000_0000,
    }
}

// Returns the bits of the float that a number of at least 0 stands for.
fn above_zero(float: FloatType, cell: u64) -> u64
    ensures { result ≡ spec.above_zero float cell }
{
    if cell <= infinity_bits(float) {
        cell
    } else if cell < nan_bits(float) {
        infinity_bits(float)
    } else {
        nan_bits(float)
    }
}

// Returns the bits of the float below 0 of so many steps, or of -infinity where there are more.
fn below_zero(float: FloatType, steps: u64) -> u64
    ensures { result ≡ spec.below_zero float steps }
{
    if steps <= infinity_bits(float) {
        return sign_bit(float) + steps;
    }
    sign_bit(float) + infinity_bits(float)
}

/// Returns the bits of the float that a cell stands for. A number that is that of no float stands
/// for one beside it.
pub fn bits_at(float: FloatType, cell: i64) -> u64
    ensures { result ≡ spec.bits_at float cell }
{
    if cell >= 0 {
        return above_zero(float, cell as u64);
    }
    if cell == -1 {
        return below_zero(float, 1);
    }
    below_zero(float, (-1 - cell) as u64)
}

// Returns the whole number of infinity.
fn infinity_key(float: FloatType) -> i64
    ensures { result ≡ spec.infinity_key float }
{
    infinity_bits(float) as i64
}

// Tells whether a whole number is that of a finite float, beside which each cell's float lies where
// the cell does.
fn is_clear(float: FloatType, key: i64) -> bool
    ensures { result ≡ spec.is_clear float key }
{
    let infinity = infinity_key(float);
    -1 - infinity < key && (key < infinity && (key < -2 || -1 < key))
}

// Returns the bound that leaves NaN out where it may not pass.
fn below_of(float: FloatType, nan: Option<NanMeaning>, comparison: Comparison) -> Option<i64>
    ensures { result ≡ spec.below_of float nan comparison }
{
    match (nan, comparison) {
        (Some(NanMeaning::Ieee), Comparison::Gt | Comparison::Gte) => Some(float.nan_key()),
        _ => None,
    }
}

// Returns the test of a column's cells, where the comparison is one of their whole numbers.
fn compared(
    float: FloatType,
    nan: Option<NanMeaning>,
    comparison: Comparison,
    bits: u64,
) -> Option<FloatTest>
    ensures { result ≡ spec.compared float nan comparison bits }
{
    let key = float.key(bits);
    if is_told(nan, comparison) && is_clear(float, key) {
        let number = i128::from(key);
        let below = below_of(float, nan, comparison);
        return Some(FloatTest {
            test: CellTest { comparison, number },
            below,
        });
    }
    None
}

/// Returns the test of a column's cells that says of each what the comparison of its float with a
/// float says, which is given by its bits. Where nothing is said of NaN, the test is right under
/// both meanings.
///
/// `None` where the meanings of NaN differ and none is said, and where the float is NaN, infinite or
/// the greatest below 0.
pub fn compare_cells(
    float: FloatType,
    nan: Option<NanMeaning>,
    comparison: Comparison,
    bits: u64,
) -> Option<FloatTest>
    ensures made { result ≡ spec.compared float nan comparison bits }
    ensures says { IfSome result (spec.SaysOf float nan comparison bits) }
{
    compared(float, nan, comparison, bits)
}
