//! Rust's own values, read out of scalars.
ghost use Rattle.std.specs.Prelude.{◌≡◌, true, false, pos, string_bytes, ⊤, FitsSigned};
ghost use Rattle.std.specs.Int.{w8, w16, w32, w64, FitsUnsigned};
ghost use Rattle.vortex_base.specs.Data.Values.{number_of};
ghost use Rattle.vortex_base.specs.Reading.{IsReading, IsBoolAnd, IsNumberAnd, IsTextAnd, AreBytesAnd};

use crate::error::BaseError;
use crate::pvalue::PValue;
use crate::scalar::Scalar;
use crate::scalar_value::ScalarValue;

/// A type that can be read out of a scalar.
pub trait FromScalar: Sized {
    ghost use Rattle.std.specs.Prelude.{Bool};
    ghost use Rattle.vortex_base.specs.declared.scalar_value.ScalarValue.{ScalarValue};

    // Holds of a value that can be read.
    ghost can_read: { ScalarValue → Type 0 };
    // Holds of a value and what it is read as.
    ghost reads: { ScalarValue → Self → Type 0 };
    // Whether reading takes memory.
    ghost takes_memory: { Bool };

    /// The scalar's value. `Mismatch` if it is null, of another kind, or a number out of range; a
    /// number may have another `PType`. `Memory` if the copy of a text or of bytes is refused.
    fn from_scalar(scalar: &Scalar) -> Result<Self, BaseError>
        ensures { IsReading can_read reads takes_memory scalar.now.value result };
}

impl FromScalar for bool {
    ghost can_read = { λ v. IsBoolAnd v (λ _. ⊤) };

    ghost reads = { λ v b. IsBoolAnd v (λ c. b ≡ c) };

    ghost takes_memory = { false };

    fn from_scalar(scalar: &Scalar) -> Result<bool, BaseError> {
        match scalar.value() {
            Some(ScalarValue::Bool(b)) => Ok(*b),
            _ => Err(BaseError::Mismatch),
        }
    }
}

// The number itself.
fn whole(number: PValue) -> i128
    ensures { result ≡ number_of number }
{
    match number {
        PValue::U8(n) => n as i128,
        PValue::U16(n) => n as i128,
        PValue::U32(n) => n as i128,
        PValue::U64(n) => n as i128,
        PValue::I8(n) => n as i128,
        PValue::I16(n) => n as i128,
        PValue::I32(n) => n as i128,
        PValue::I64(n) => n as i128,
    }
}

// The whole number that the scalar holds.
fn whole_of(scalar: &Scalar) -> Result<i128, BaseError>
    ensures { IsReading (λ v. IsNumberAnd v (λ _. ⊤)) (λ v z. IsNumberAnd v (λ x. x ≡ z))
        false scalar.now.value result }
{
    match scalar.value() {
        Some(ScalarValue::Primitive(number)) => Ok(whole(*number)),
        _ => Err(BaseError::Mismatch),
    }
}

impl FromScalar for u8 {
    ghost can_read = { λ v. IsNumberAnd v (FitsUnsigned w8) };

    ghost reads = { λ v n. IsNumberAnd v (λ z. z ≡ pos n) };

    ghost takes_memory = { false };

    fn from_scalar(scalar: &Scalar) -> Result<u8, BaseError> {
        match u8::try_from(whole_of(scalar)?) {
            Ok(number) => Ok(number),
            Err(_) => Err(BaseError::Mismatch),
        }
    }
}

impl FromScalar for u16 {
    ghost can_read = { λ v. IsNumberAnd v (FitsUnsigned w16) };

    ghost reads = { λ v n. IsNumberAnd v (λ z. z ≡ pos n) };

    ghost takes_memory = { false };

    fn from_scalar(scalar: &Scalar) -> Result<u16, BaseError> {
        match u16::try_from(whole_of(scalar)?) {
            Ok(number) => Ok(number),
            Err(_) => Err(BaseError::Mismatch),
        }
    }
}

impl FromScalar for u32 {
    ghost can_read = { λ v. IsNumberAnd v (FitsUnsigned w32) };

    ghost reads = { λ v n. IsNumberAnd v (λ z. z ≡ pos n) };

    ghost takes_memory = { false };

    fn from_scalar(scalar: &Scalar) -> Result<u32, BaseError> {
        match u32::try_from(whole_of(scalar)?) {
            Ok(number) => Ok(number),
            Err(_) => Err(BaseError::Mismatch),
        }
    }
}

impl FromScalar for u64 {
    ghost can_read = { λ v. IsNumberAnd v (FitsUnsigned w64) };

    ghost reads = { λ v n. IsNumberAnd v (λ z. z ≡ pos n) };

    ghost takes_memory = { false };

    fn from_scalar(scalar: &Scalar) -> Result<u64, BaseError> {
        match u64::try_from(whole_of(scalar)?) {
            Ok(number) => Ok(number),
            Err(_) => Err(BaseError::Mismatch),
        }
    }
}

impl FromScalar for i8 {
    ghost can_read = { λ v. IsNumberAnd v (FitsSigned w8) };

    ghost reads = { λ v n. IsNumberAnd v (λ z. z ≡ n) };

    ghost takes_memory = { false };

    fn from_scalar(scalar: &Scalar) -> Result<i8, BaseError> {
        match i8::try_from(whole_of(scalar)?) {
            Ok(number) => Ok(number),
            Err(_) => Err(BaseError::Mismatch),
        }
    }
}

impl FromScalar for i16 {
    ghost can_read = { λ v. IsNumberAnd v (FitsSigned w16) };

    ghost reads = { λ v n. IsNumberAnd v (λ z. z ≡ n) };

    ghost takes_memory = { false };

    fn from_scalar(scalar: &Scalar) -> Result<i16, BaseError> {
        match i16::try_from(whole_of(scalar)?) {
            Ok(number) => Ok(number),
            Err(_) => Err(BaseError::Mismatch),
        }
    }
}

impl FromScalar for i32 {
    ghost can_read = { λ v. IsNumberAnd v (FitsSigned w32) };

    ghost reads = { λ v n. IsNumberAnd v (λ z. z ≡ n) };

    ghost takes_memory = { false };

    fn from_scalar(scalar: &Scalar) -> Result<i32, BaseError> {
        match i32::try_from(whole_of(scalar)?) {
            Ok(number) => Ok(number),
            Err(_) => Err(BaseError::Mismatch),
        }
    }
}

impl FromScalar for i64 {
    ghost can_read = { λ v. IsNumberAnd v (FitsSigned w64) };

    ghost reads = { λ v n. IsNumberAnd v (λ z. z ≡ n) };

    ghost takes_memory = { false };

    fn from_scalar(scalar: &Scalar) -> Result<i64, BaseError> {
        match i64::try_from(whole_of(scalar)?) {
            Ok(number) => Ok(number),
            Err(_) => Err(BaseError::Mismatch),
        }
    }
}

impl FromScalar for String {
    ghost can_read = { λ v. IsTextAnd v (λ _. ⊤) };

    ghost reads = { λ v s. IsTextAnd v (λ bytes. string_bytes s ≡ bytes) };

    ghost takes_memory = { true };

    fn from_scalar(scalar: &Scalar) -> Result<String, BaseError> {
        match scalar.value() {
            Some(ScalarValue::Utf8(text)) => Ok(text.try_clone_string()?),
            _ => Err(BaseError::Mismatch),
        }
    }
}

impl FromScalar for Vec<u8> {
    ghost can_read = { λ v. AreBytesAnd v (λ _. ⊤) };

    ghost reads = { λ v s. AreBytesAnd v (λ bytes. s.items ≡ bytes) };

    ghost takes_memory = { true };

    fn from_scalar(scalar: &Scalar) -> Result<Vec<u8>, BaseError> {
        match scalar.value() {
            Some(ScalarValue::Binary(bytes)) => Ok(bytes.try_clone_vec()?),
            _ => Err(BaseError::Mismatch),
        }
    }
}
