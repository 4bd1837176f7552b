//! Types of decimal numbers.
ghost use Rattle.std.specs.Prelude.{◌≡◌, ◌≤◌, ◌&&◌, IfSome, is_some, nat_le};

/// The type of decimals with so many digits, some of which stand behind the point.
#[derive(Debug, Clone, Copy, PartialEq, Eq)]
pub struct DecimalDType {
    precision: u8,
    scale: u8,
    ghost some: { 1 ≤ precision },
    ghost digits: { precision ≤ 38 },
    ghost behind: { scale ≤ 38 },
}

impl DecimalDType {
    /// Returns the type of decimals with `precision` digits, `scale` of them behind the point.
    /// `None` unless there are 1 to 38 digits and at most 38 behind the point.
    pub fn try_new(precision: u8, scale: u8) -> Option<DecimalDType>
        ensures made { is_some result
            ≡ (nat_le 1 precision && (nat_le precision 38 && nat_le scale 38)) }
        ensures precision { IfSome result (λ d. d.precision ≡ precision) }
        ensures scale { IfSome result (λ d. d.scale ≡ scale) }
    {
        if 1 <= precision && (precision <= 38 && scale <= 38) {
            return Some(DecimalDType { precision, scale });
        }
        None
    }

    /// Returns the number of digits.
    pub fn precision(self) -> u8
        ensures { result ≡ self.precision }
    {
        self.precision
    }

    /// Returns how many digits stand behind the point.
    pub fn scale(self) -> u8
        ensures value { result ≡ self.scale }
        ensures behind { result ≤ 38 }
    {
        self.scale
    }
}
