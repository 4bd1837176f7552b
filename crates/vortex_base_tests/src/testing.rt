//! Types and values for the tests. A test is one straight line of calls that expect their results,
//! so its proof stays short.
use std::alloc::{AllocError, Global};
use vortex_base::{BaseError, Bytes, DType, Nullability, PType, ScalarValue, Scope, Text};

pub const BOOL: DType = DType::Bool(Nullability::NonNullable);

pub const BOOL_OR_NULL: DType = DType::Bool(Nullability::Nullable);

pub const I32: DType = DType::Primitive(PType::I32, Nullability::NonNullable);

pub const UTF8: DType = DType::Utf8(Nullability::NonNullable);

pub const UTF8_OR_NULL: DType = DType::Utf8(Nullability::Nullable);

pub const BINARY: DType = DType::Binary(Nullability::NonNullable);

pub const BINARY_OR_NULL: DType = DType::Binary(Nullability::Nullable);

/// The type of these numbers and null.
pub const fn number(ptype: PType) -> DType {
    DType::Primitive(ptype, Nullability::Nullable)
}

pub fn text_value(alloc: Global, text: &str) -> Result<ScalarValue, AllocError> {
    Ok(ScalarValue::Utf8(Text::new(String::from_str(alloc, text)?)))
}

pub fn bytes_value(alloc: Global, bytes: &[u8]) -> Result<ScalarValue, AllocError> {
    Ok(ScalarValue::Binary(Bytes::new(Vec::from_slice(alloc, bytes)?)))
}

/// The scope of columns with these names and types.
pub fn scope(alloc: Global, columns: &[(&str, DType)]) -> Result<Scope, BaseError> {
    let mut named = Vec::new(alloc);
    for (name, dtype) in columns {
        named.push((String::from_str(alloc, name)?, *dtype))?;
    }
    Scope::try_new(named)
}
