//! The values of columns that are not null, and their one total order.
ghost use Rattle.std.specs.Prelude.{◌≡◌, IsTrue, OnErr, Some};
ghost use Rattle.vortex_base.specs.Made.{Makes};
ghost use Rattle.vortex_base.specs.Data.Values.{is_value};
ghost use Rattle.vortex_base.specs.Data.Scalars.{is_long};
ghost use Rattle.vortex_base.specs.declared.pvalue.PValue.TheVariants as number;
ghost use Rattle.vortex_base.specs.declared.scalar_value.ScalarValue.TheVariants as value;

use crate::bytes::Bytes;
use crate::dtype::DType;
use crate::error::BaseError;
use crate::pvalue::PValue;
use crate::text::Text;

/// A value other than null. Values are ordered by kind, in the order of the variants, and then
/// false before true, numbers by `PValue`'s order, and texts and bytes by their bytes.
#[derive(Debug, Drop, Clone, PartialEq, Eq, PartialOrd, Ord)]
pub enum ScalarValue {
    Bool(bool),
    Primitive(PValue),
    Utf8(Text),
    Binary(Bytes),
}

impl ScalarValue {
    /// A copy, by the allocator that the value holds. A text or bytes alone take memory.
    pub fn try_clone(&self) -> Result<ScalarValue, BaseError>
        ensures made { Makes self.now result }
        ensures memory { OnErr result (IsTrue (is_long (Some self.now))) }
    {
        Ok(self.lend().to_value()?)
    }

    /// Whether this is a value of the type: of its kind and, for a number, of its `PType`.
    pub fn fits(&self, dtype: &DType) -> bool
        ensures { result ≡ is_value self.now dtype.now }
    {
        self.lend().fits(dtype)
    }
}

impl From<Text> for ScalarValue {
    ghost from_gives = { λ t v. v ≡ value.Utf8 t };

    fn from(value: Text) -> ScalarValue {
        ScalarValue::Utf8(value)
    }
}

impl From<Bytes> for ScalarValue {
    ghost from_gives = { λ b v. v ≡ value.Binary b };

    fn from(value: Bytes) -> ScalarValue {
        ScalarValue::Binary(value)
    }
}

impl From<bool> for ScalarValue {
    ghost from_gives = { λ b v. v ≡ value.Bool b };

    fn from(value: bool) -> ScalarValue {
        ScalarValue::Bool(value)
    }
}

impl From<u8> for ScalarValue {
    ghost from_gives = { λ n v. v ≡ value.Primitive (number.U8 n) };

    fn from(value: u8) -> ScalarValue {
        ScalarValue::Primitive(PValue::U8(value))
    }
}

impl From<u16> for ScalarValue {
    ghost from_gives = { λ n v. v ≡ value.Primitive (number.U16 n) };

    fn from(value: u16) -> ScalarValue {
        ScalarValue::Primitive(PValue::U16(value))
    }
}

impl From<u32> for ScalarValue {
    ghost from_gives = { λ n v. v ≡ value.Primitive (number.U32 n) };

    fn from(value: u32) -> ScalarValue {
        ScalarValue::Primitive(PValue::U32(value))
    }
}

impl From<u64> for ScalarValue {
    ghost from_gives = { λ n v. v ≡ value.Primitive (number.U64 n) };

    fn from(value: u64) -> ScalarValue {
        ScalarValue::Primitive(PValue::U64(value))
    }
}

impl From<i8> for ScalarValue {
    ghost from_gives = { λ n v. v ≡ value.Primitive (number.I8 n) };

    fn from(value: i8) -> ScalarValue {
        ScalarValue::Primitive(PValue::I8(value))
    }
}

impl From<i16> for ScalarValue {
    ghost from_gives = { λ n v. v ≡ value.Primitive (number.I16 n) };

    fn from(value: i16) -> ScalarValue {
        ScalarValue::Primitive(PValue::I16(value))
    }
}

impl From<i32> for ScalarValue {
    ghost from_gives = { λ n v. v ≡ value.Primitive (number.I32 n) };

    fn from(value: i32) -> ScalarValue {
        ScalarValue::Primitive(PValue::I32(value))
    }
}

impl From<i64> for ScalarValue {
    ghost from_gives = { λ n v. v ≡ value.Primitive (number.I64 n) };

    fn from(value: i64) -> ScalarValue {
        ScalarValue::Primitive(PValue::I64(value))
    }
}
