//! Types of floats, and their bits as whole numbers in the order of the floats.
ghost use Rattle.std.specs.Prelude.{◌≡◌, ◌%◌, ◌&&◌, ◌<◌, ◌≤ℤ◌, ◌⊎◌, ℕ, IfSome, is_some};
ghost use Rattle.std.specs.Prelude.{not, pos, true};
ghost use Rattle.std.specs.Ordering.{is_le};
ghost use Rattle.vortex_logical.specs.Floats as spec;

use crate::comparison::Comparison;
use crate::float_test::{FloatTest, NanMeaning};
use crate::lower::CellTest;

/// Floats of 16, 32 or 64 bits, as IEEE 754's binary16, binary32 and binary64.
#[derive(Debug, Clone, Copy, PartialEq, Eq)]
pub enum FloatType {
    F16,
    F32,
    F64,
}

impl FloatType {
    // Returns the bits without the sign.
    fn magnitude(self, bits: u64) -> u64
        ensures value { result ≡ bits % spec.sign_bit self }
        ensures short { result < spec.sign_bit self }
    {
        match self {
            FloatType::F16 => bits % 0x8000,
            FloatType::F32 => bits % 0x8000_0000,
            FloatType::F64 => bits % 0x8000_0000_0000_0000,
        }
    }

    // Returns the bit of the sign.
    fn sign_bit(self) -> u64
        ensures { result ≡ spec.sign_bit self }
    {
        match self {
            FloatType::F16 => 0x8000,
            FloatType::F32 => 0x8000_0000,
            FloatType::F64 => 0x8000_0000_0000_0000,
        }
    }

    // Returns the bits of infinity.
    fn infinity(self) -> u64
        ensures { result ≡ spec.infinity_bits self }
    {
        match self {
            FloatType::F16 => 0x7C00,
            FloatType::F32 => 0x7F80_0000,
            FloatType::F64 => 0x7FF0_0000_0000_0000,
        }
    }

    /// Returns the whole number of NaN, which is above those of all other floats.
    pub fn nan_key(self) -> i64
        ensures { result ≡ pos (spec.nan_bits self) }
    {
        match self {
            FloatType::F16 => 0x7E00,
            FloatType::F32 => 0x7FC0_0000,
            FloatType::F64 => 0x7FF8_0000_0000_0000,
        }
    }

    /// Tells whether a float, by its bits, is NaN.
    pub fn is_nan(self, bits: u64) -> bool
        ensures { result ≡ spec.is_nan_bits self bits }
    {
        self.magnitude(bits) > self.infinity()
    }

    /// Returns the whole number of a float, by its bits. Two floats compare as their numbers: by
    /// size, NaN being equal to itself and above all others, and -0.0 equal to 0.0.
    pub fn key(self, bits: u64) -> i64
        ensures { result ≡ spec.key self bits }
    {
        if self.is_nan(bits) {
            return self.nan_key();
        }
        let magnitude = self.magnitude(bits) as i64;
        if bits < self.sign_bit() {
            magnitude
        } else if magnitude == 0 {
            0
        } else {
            -1 - magnitude
        }
    }

    // Returns the test under the meaning in which of NaN only `<>` is true.
    fn compare_ieee(self, comparison: Comparison, literal: u64) -> FloatTest
        ensures { result ≡ spec.ieee_test self comparison literal }
    {
        let number = i128::from(self.key(literal));
        if self.is_nan(literal) {
            let comparison = match comparison {
                Comparison::NotEq => Comparison::Lte,
                _ => Comparison::Gt,
            };
            return FloatTest {
                test: CellTest { comparison, number },
                below: None,
            };
        }
        let below = match comparison {
            Comparison::Gt | Comparison::Gte => Some(self.nan_key()),
            _ => None,
        };
        FloatTest {
            test: CellTest { comparison, number },
            below,
        }
    }

    /// Returns the test of a column's whole numbers that says of each what the comparison of its
    /// float with a literal, which is given by its bits, says.
    pub fn compare(self, nan: NanMeaning, comparison: Comparison, literal: u64) -> FloatTest
        ensures { (b : ℕ) → spec.float_holds nan self comparison b literal
            ≡ spec.float_test_holds (spec.key self b) result }
    {
        match nan {
            NanMeaning::Greatest => {
                let number = i128::from(self.key(literal));
                FloatTest {
                    test: CellTest { comparison, number },
                    below: None,
                }
            }
            NanMeaning::Ieee => self.compare_ieee(comparison, literal),
        }
    }

    /// Returns a bound below the whole numbers of a column, from a bound below its floats that
    /// aren't NaN. `None` if that bound is NaN.
    pub fn least(self, bits: u64) -> Option<i64>
        ensures known { is_some result ≡ not (spec.is_nan_bits self bits) }
        ensures below { IfSome result (λ k. (v : ℕ) → (spec.is_nan_bits self v ≡ true)
            ⊎ (is_le (spec.float_cmp self bits v) ≡ true) → k ≤ℤ spec.key self v) }
    {
        if self.is_nan(bits) {
            return None;
        }
        Some(self.key(bits))
    }

    /// Returns a bound above the whole numbers of a column, from a bound above its floats that
    /// aren't NaN. `None` if the column may have NaN, or that bound is NaN.
    pub fn greatest(self, bits: u64, has_nan: bool) -> Option<i64>
        ensures known { is_some result ≡ (not has_nan && not (spec.is_nan_bits self bits)) }
        ensures above { IfSome result (λ k. (v : ℕ)
            → is_le (spec.float_cmp self v bits) ≡ true → spec.key self v ≤ℤ k) }
    {
        if has_nan || self.is_nan(bits) {
            return None;
        }
        Some(self.key(bits))
    }
}
