//! Arrays that hold one value at each place.
ghost use Rattle.std.specs.Prelude.{◌≡◌};

use crate::scalar::Scalar;
use std::marker::Model;

/// A value, or null, that stands at each of so many places.
#[derive(Debug, PartialEq, Eq, Drop)]
pub struct ConstantArray {
    scalar: Scalar,
    len: u64,
}

impl Model for ConstantArray {
    ghost use Rattle.vortex_base.specs.Data.Repeated.{Repeated};

    ghost Value = { Repeated };

    ghost view = { λ a. record { scalar = a.scalar; len = a.len } };

    ghost inverse = { λ r. record { scalar = r.scalar; len = r.len } };
}

impl ConstantArray {
    /// The array of a value, or null, at so many places.
    pub fn new(scalar: Scalar, len: u64) -> ConstantArray
        ensures { result ≡ record { scalar = scalar; len = len } }
    {
        ConstantArray { scalar, len }
    }

    /// The scalar that stands at each place.
    pub fn scalar(&self) -> &Scalar
        ensures { result.now ≡ self.now.scalar }
    {
        &self.scalar
    }

    /// The number of places.
    pub fn len(&self) -> u64
        ensures { result ≡ self.now.len }
    {
        self.len
    }
}
