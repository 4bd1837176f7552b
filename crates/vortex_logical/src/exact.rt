//! Exact numbers, and what one counts in a column.
ghost use Rattle.std.specs.Prelude.{◌≡◌, ◌≤◌, IfSome, is_some, nat_le};

/// An exact number: `top` divided by ten to the `scale`.
#[derive(Debug, Clone, Copy, PartialEq, Eq)]
pub struct Exact {
    pub top: i128,
    pub scale: u32,
    ghost digits: { scale ≤ 33 },
}

impl Exact {
    /// Returns `top` divided by ten to the `scale`. `None` if the scale is above 33.
    pub fn try_new(top: i128, scale: u32) -> Option<Exact>
        ensures made { is_some result ≡ nat_le scale 33 }
        ensures top { IfSome result (λ x. x.top ≡ top) }
        ensures scale { IfSome result (λ x. x.scale ≡ scale) }
    {
        if scale <= 33 {
            return Some(Exact { top, scale });
        }
        None
    }
}

/// The number that one unit of a column's cells stands for: `each` divided by ten to the `scale`.
#[derive(Debug, Clone, Copy, PartialEq, Eq)]
pub struct Step {
    pub each: u32,
    pub scale: u32,
}
