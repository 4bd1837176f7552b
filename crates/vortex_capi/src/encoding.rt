//! Values as bytes.
ghost use Rattle.std.specs.Prelude.{◌≡◌, ◌++◌, IfOk, IfSome, IsTrue, Ok, OnOk};
ghost use Rattle.std.specs.Bool.{OnTrue};
ghost use Rattle.vortex_base.specs.Data.ArrayData.{value_of as lent_value};
ghost use Rattle.vortex_base.specs.Data.Values.{is_value};
ghost use Rattle.vortex_capi.specs.Encoding as spec;
ghost use Rattle.vortex_capi.specs.Refusals.{Gives};
ghost use Rattle.vortex_capi.specs.declared.status.Status.TheVariants.{NoMemory};

use crate::status::Status;
use std::alloc::{AllocError, Global};
use std::str;
use vortex_base::bytes::Bytes;
use vortex_base::dtype::DType;
use vortex_base::pvalue::PValue;
use vortex_base::scalar_value::ScalarValue;
use vortex_base::types::PType;
use vortex_base::utf8_array::TextRef;
use vortex_base::value_ref::ValueRef;
use vortex_base::var_bin_array::BytesRef;
use vortex_syntax::line_error::LineError;
use vortex_syntax::lines::is_utf8;
use vortex_syntax::value;
use vortex_syntax::word::Word;

/// The number that the bytes begin with, where there are enough.
#[inline]
pub(crate) fn number_of(ptype: PType, bytes: &[u8]) -> Option<PValue>
    ensures read { result ≡ spec.number_of ptype bytes.now }
    ensures fits { IfSome result (λ number. IsTrue (spec.is_number ptype number)) }
{
    match ptype {
        PType::U8 => Some(PValue::U8(u8::from_le_bytes(*bytes.first_chunk()?))),
        PType::U16 => Some(PValue::U16(u16::from_le_bytes(*bytes.first_chunk()?))),
        PType::U32 => Some(PValue::U32(u32::from_le_bytes(*bytes.first_chunk()?))),
        PType::U64 => Some(PValue::U64(u64::from_le_bytes(*bytes.first_chunk()?))),
        PType::I8 => Some(PValue::I8(i8::from_le_bytes(*bytes.first_chunk()?))),
        PType::I16 => Some(PValue::I16(i16::from_le_bytes(*bytes.first_chunk()?))),
        PType::I32 => Some(PValue::I32(i32::from_le_bytes(*bytes.first_chunk()?))),
        PType::I64 => Some(PValue::I64(i64::from_le_bytes(*bytes.first_chunk()?))),
    }
}

// The truth of the first byte.
fn truth_of(bytes: &[u8]) -> Option<bool>
    ensures { result ≡ spec.truth_of bytes.now }
{
    match bytes.first() {
        Some(0) => Some(false),
        Some(1) => Some(true),
        _ => None,
    }
}

// The text of the bytes, where they are UTF-8. The value of a quoted word is such a text.
fn text_of(alloc: Global, dtype: DType, bytes: &[u8]) -> Result<ScalarValue, Status>
    ensures read { Gives result (spec.text_of dtype bytes.now) }
    ensures fits { IfOk result (λ value. IsTrue (is_value value dtype)) }
{
    let bytes = Vec::from_slice(alloc, bytes)?;
    match value::value_of(alloc, dtype, Word::Quoted(bytes), 0) {
        Ok(text) => Ok(text),
        Err(LineError::Bad(_)) => Err(Status::BadValue),
        Err(LineError::Memory) => Err(Status::NoMemory),
    }
}

/// The value of a type that the bytes are.
pub(crate) fn value_of(alloc: Global, dtype: DType, bytes: &[u8]) -> Result<ScalarValue, Status>
    ensures read { Gives result (spec.value_of dtype bytes.now) }
    ensures fits { IfOk result (λ value. IsTrue (is_value value dtype)) }
{
    match dtype {
        DType::Bool(_) => match truth_of(bytes) {
            Some(truth) => Ok(ScalarValue::Bool(truth)),
            None => Err(Status::BadValue),
        },
        DType::Primitive(ptype, _) => match number_of(ptype, bytes) {
            Some(number) => Ok(ScalarValue::Primitive(number)),
            None => Err(Status::BadLength),
        },
        DType::Utf8(_) => text_of(alloc, dtype, bytes),
        DType::Binary(_) => {
            let bytes = Vec::from_slice(alloc, bytes)?;
            Ok(ScalarValue::Binary(Bytes::new(bytes)))
        }
        DType::Null | DType::MinMaxState(_, _) => Err(Status::BadStat),
    }
}

/// The text or the byte string of a type that the bytes are, lent. `None` of another type, and of
/// bytes that are no UTF-8.
#[inline]
pub(crate) fn lent_of<'a>(alloc: Global, dtype: DType, bytes: &'a [u8]) -> Option<ValueRef<'a>>
    ensures read { IfSome result (λ value. spec.value_of dtype bytes.entry.now
        ≡ Ok (lent_value value)) }
    ensures fits { IfSome result (λ value. IsTrue (is_value (lent_value value) dtype)) }
{
    match dtype {
        DType::Utf8(_) => match str::from_utf8(bytes) {
            Ok(text) => Some(ValueRef::Utf8(TextRef::new(text, alloc))),
            Err(_) => None,
        },
        DType::Binary(_) => Some(ValueRef::Binary(BytesRef::new(bytes, alloc))),
        _ => None,
    }
}

/// Whether the bytes are a value of the type.
pub(crate) fn are_value_of(dtype: DType, bytes: &[u8]) -> bool
    ensures { OnTrue result (spec.ReadsValue dtype (spec.value_of dtype bytes.now)) }
{
    match dtype {
        DType::Bool(_) => truth_of(bytes).is_some(),
        DType::Primitive(ptype, _) => number_of(ptype, bytes).is_some(),
        DType::Utf8(_) => is_utf8(bytes),
        DType::Binary(_) => true,
        DType::Null | DType::MinMaxState(_, _) => false,
    }
}

// Adds the bytes of a number, the lowest first.
fn push_number(bytes: &mut Vec<u8>, number: PValue) -> Result<(), AllocError>
    ensures { OnOk result (bytes.new.items ≡ bytes.old.items ++ spec.number_bytes number) }
{
    match number {
        PValue::U8(n) => bytes.extend_from_slice(&n.to_le_bytes()),
        PValue::U16(n) => bytes.extend_from_slice(&n.to_le_bytes()),
        PValue::U32(n) => bytes.extend_from_slice(&n.to_le_bytes()),
        PValue::U64(n) => bytes.extend_from_slice(&n.to_le_bytes()),
        PValue::I8(n) => bytes.extend_from_slice(&n.to_le_bytes()),
        PValue::I16(n) => bytes.extend_from_slice(&n.to_le_bytes()),
        PValue::I32(n) => bytes.extend_from_slice(&n.to_le_bytes()),
        PValue::I64(n) => bytes.extend_from_slice(&n.to_le_bytes()),
    }
}

/// Adds the bytes of a value.
pub(crate) fn push_value(bytes: &mut Vec<u8>, value: &ScalarValue) -> Result<(), AllocError>
    ensures { OnOk result (bytes.new.items ≡ bytes.old.items ++ spec.bytes_of value.now) }
{
    match value {
        ScalarValue::Bool(truth) => Ok(bytes.push(u8::from(*truth))?),
        ScalarValue::Primitive(number) => push_number(bytes, *number),
        ScalarValue::Utf8(text) => bytes.extend_from_slice(text.as_str().as_bytes()),
        ScalarValue::Binary(value) => bytes.extend_from_slice(value.as_slice()),
    }
}
