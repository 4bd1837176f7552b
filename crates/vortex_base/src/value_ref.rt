//! Values that are lent, in whatever form their owner keeps them.
ghost use Rattle.std.specs.Prelude.{◌≡◌, IfOk, IsTrue, OnErr, Some, option_copied, option_map};
ghost use Rattle.vortex_base.specs.Data.ArrayData.{value_of};
ghost use Rattle.vortex_base.specs.Data.Scalars.{is_optional_value};
ghost use Rattle.vortex_base.specs.Data.Values.{is_value, kind_index, value_cmp};
ghost use Rattle.vortex_base.specs.Data.Scalars.{is_long};

use crate::bytes::Bytes;
use crate::dtype::DType;
use crate::pvalue::PValue;
use crate::scalar_value::ScalarValue;
use crate::text::Text;
use crate::utf8_array::TextRef;
use crate::var_bin_array::BytesRef;
use std::alloc::AllocError;
use std::cmp::Ordering;

/// A value other than null, lent by the column or the scalar that keeps it.
#[derive(Clone, Copy, Debug)]
pub enum ValueRef<'a> {
    Bool(bool),
    Primitive(PValue),
    Utf8(TextRef<'a>),
    Binary(BytesRef<'a>),
}

// The place of a value's kind among the four.
fn kind(value: ValueRef<'_>) -> u8
    ensures { result ≡ kind_index (value_of value.entry) }
{
    match value {
        ValueRef::Bool(_) => 0,
        ValueRef::Primitive(_) => 1,
        ValueRef::Utf8(_) => 2,
        ValueRef::Binary(_) => 3,
    }
}

impl ScalarValue {
    /// The value, lent.
    pub fn lend(&self) -> ValueRef<'_>
        ensures { value_of result ≡ self.now }
    {
        match self {
            ScalarValue::Bool(truth) => ValueRef::Bool(*truth),
            ScalarValue::Primitive(number) => ValueRef::Primitive(*number),
            ScalarValue::Utf8(text) => ValueRef::Utf8(text.lend()),
            ScalarValue::Binary(bytes) => ValueRef::Binary(bytes.lend()),
        }
    }
}

impl<'a> ValueRef<'a> {
    /// A copy of the value. Memory is taken only for a text or bytes.
    pub fn to_value(self) -> Result<ScalarValue, AllocError>
        ensures ok { IfOk result (λ v. v ≡ value_of self.entry) }
        ensures memory { OnErr result (IsTrue (is_long (Some (value_of self.entry)))) }
    {
        match self {
            ValueRef::Bool(truth) => Ok(ScalarValue::Bool(truth)),
            ValueRef::Primitive(number) => Ok(ScalarValue::Primitive(number)),
            ValueRef::Utf8(text) => Ok(ScalarValue::Utf8(Text::new(text.to_string_in()?))),
            ValueRef::Binary(bytes) => Ok(ScalarValue::Binary(Bytes::new(bytes.to_vec_in()?))),
        }
    }

    /// Whether this is a value of the type: of its kind and, for a number, of its `PType`.
    pub fn fits(self, dtype: &DType) -> bool
        ensures { result ≡ is_value (value_of self.entry) dtype.now }
    {
        match (self, dtype) {
            (ValueRef::Bool(_), DType::Bool(_)) => true,
            (ValueRef::Primitive(number), DType::Primitive(ptype, _)) => number.ptype() == *ptype,
            (ValueRef::Utf8(text), DType::Utf8(_)) => {
                // A text is UTF-8, as its string slice tells.
                let _text = text.as_str();
                true
            }
            (ValueRef::Binary(_), DType::Binary(_)) => true,
            _ => false,
        }
    }

    /// How two values compare in their one total order.
    pub fn order(self, other: ValueRef<'_>) -> Ordering
        ensures { result ≡ value_cmp (value_of self.entry) (value_of other.entry) }
    {
        match (self, other) {
            (ValueRef::Bool(a), ValueRef::Bool(b)) => a.cmp(&b),
            (ValueRef::Primitive(a), ValueRef::Primitive(b)) => a.cmp(&b),
            (ValueRef::Utf8(a), ValueRef::Utf8(b)) => a.as_str().cmp(b.as_str()),
            (ValueRef::Binary(a), ValueRef::Binary(b)) => a.as_slice().cmp(b.as_slice()),
            _ => kind(self).cmp(&kind(other)),
        }
    }
}

/// An optional value, lent.
#[inline]
pub fn lend(value: Option<&ScalarValue>) -> Option<ValueRef<'_>>
    ensures { option_map value_of result ≡ option_copied value.entry }
{
    match value {
        Some(value) => Some(value.lend()),
        None => None,
    }
}

// Whether an optional value, lent, may stand under the type: it fits, or it is null and the type
// has null.
#[inline]
pub(crate) fn fits(value: Option<ValueRef<'_>>, dtype: &DType) -> bool
    ensures { result ≡ is_optional_value (option_map value_of value.entry) dtype.now }
{
    match value {
        Some(value) => value.fits(dtype),
        None => dtype.is_nullable(),
    }
}
