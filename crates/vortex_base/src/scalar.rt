//! Values or null, with their types.
ghost use Rattle.std.specs.Prelude.{◌≡◌, ◌↔◌, IsTrue, IsNone, OnErr, option_copied};
ghost use Rattle.std.specs.Cmp.{partial_equiv_from_equiv};
ghost use Rattle.vortex_base.specs.Made.{Makes};
ghost use Rattle.vortex_base.specs.Data.Exact.{exact_equivalence};
ghost use Rattle.vortex_base.specs.Data.Types.{is_nullable};
ghost use Rattle.vortex_base.specs.Data.Scalars.{constant_eq, constant_eq_is_exact, constant_of, null_of, IsConstant};
ghost use Rattle.vortex_base.specs.Data.Scalars.{is_long};

use crate::dtype::DType;
use crate::error::BaseError;
use crate::scalar_value::ScalarValue;
use std::marker::Model;

/// A value of a type, or null where the type has null.
#[derive(Debug, Drop)]
pub struct Scalar {
    dtype: DType,
    value: Option<ScalarValue>,
}

impl Model for Scalar {
    ghost use Rattle.std.specs.Prelude.{IsTrue};
    ghost use Rattle.vortex_base.specs.Data.Scalars.{Constant, is_optional_value};

    ghost Value = { Constant };

    ghost view = { λ a. record { dtype = a.dtype; value = a.value } };

    ghost invariant = { λ a. IsTrue (is_optional_value a.value a.dtype) };

    ghost inverse = { λ c. record { dtype = c.dtype; value = c.value } };
}

impl Scalar {
    /// The scalar of a type and a value, or of null. `Mismatch` if the value does not fit the type,
    /// or the type has no null.
    pub fn try_new(dtype: DType, value: Option<ScalarValue>) -> Result<Scalar, BaseError>
        ensures { result ≡ constant_of dtype value }
    {
        let fits = match &value {
            None => dtype.is_nullable(),
            Some(v) => v.fits(&dtype),
        };
        if !fits {
            return Err(BaseError::Mismatch);
        }
        Ok(Scalar { dtype, value })
    }

    /// Null of a type that has null, as `DType::is_nullable` tells.
    pub fn null(dtype: DType) -> Scalar
        requires { IsTrue (is_nullable dtype) }
        ensures { result ≡ null_of dtype }
    {
        Scalar { dtype, value: None }
    }

    pub fn dtype(&self) -> DType
        ensures value { result ≡ self.now.dtype }
        ensures is_constant { IsConstant self.now }
    {
        self.dtype
    }

    /// The value, or `None` for null.
    pub fn value(&self) -> Option<&ScalarValue>
        ensures value { option_copied result ≡ self.now.value }
        ensures is_constant { IsConstant self.now }
    {
        self.value.as_ref()
    }

    /// The value, or `None` for null.
    pub fn into_value(self) -> Option<ScalarValue>
        ensures value { result ≡ self.value }
        ensures is_constant { IsConstant self }
    {
        self.value
    }

    pub fn is_null(&self) -> bool
        ensures { IsTrue result ↔ IsNone self.now.value }
    {
        self.value.is_none()
    }

    /// A copy, by the allocator that the value holds. A text or bytes alone take memory.
    pub fn try_clone(&self) -> Result<Scalar, BaseError>
        ensures made { Makes self.now result }
        ensures memory { OnErr result (IsTrue (is_long self.now.value)) }
    {
        let value = match &self.value {
            None => None,
            Some(v) => Some(v.try_clone()?),
        };
        Ok(Scalar {
            dtype: self.dtype,
            value,
        })
    }
}

impl PartialEq for Scalar {
    ghost eq = { constant_eq };

    ghost laws = { partial_equiv_from_equiv (exact_equivalence constant_eq constant_eq_is_exact) };

    fn eq(&self, other: &Scalar) -> bool
        ensures value { result ≡ constant_eq self.now other.now }
        ensures same { IsTrue result ↔ (self.now ≡ other.now) }
    {
        self.dtype == other.dtype && self.value == other.value
    }
}

impl Eq for Scalar {
    ghost laws = { exact_equivalence constant_eq constant_eq_is_exact };
}
