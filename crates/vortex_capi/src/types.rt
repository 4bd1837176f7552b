//! The types by their numbers, and the room that their values take.
ghost use Rattle.std.specs.Prelude.{◌≡◌};
ghost use Rattle.vortex_capi.specs.Types as spec;

use crate::status::Status;
use vortex_base::dtype::DType;
use vortex_base::types::{Nullability, PType};

// Whether null is one of the values.
fn nullability_of(nullable: u8) -> Option<Nullability>
    ensures { result ≡ spec.nullability_of nullable }
{
    match nullable {
        0 => Some(Nullability::NonNullable),
        1 => Some(Nullability::Nullable),
        _ => None,
    }
}

// The type that values of a kind are kept as: dates in 32 bits, and times, timestamps and decimals
// in 64.
fn kind_of(kind: u8, nullability: Nullability) -> Option<DType>
    ensures { result ≡ spec.kind_of kind nullability }
{
    match kind {
        0 => Some(DType::Null),
        1 => Some(DType::Bool(nullability)),
        2 => Some(DType::Primitive(PType::U8, nullability)),
        3 => Some(DType::Primitive(PType::U16, nullability)),
        4 => Some(DType::Primitive(PType::U32, nullability)),
        5 => Some(DType::Primitive(PType::U64, nullability)),
        6 => Some(DType::Primitive(PType::I8, nullability)),
        7 => Some(DType::Primitive(PType::I16, nullability)),
        8 => Some(DType::Primitive(PType::I32, nullability)),
        9 => Some(DType::Primitive(PType::I64, nullability)),
        10 => Some(DType::Utf8(nullability)),
        11 => Some(DType::Binary(nullability)),
        12 => Some(DType::Primitive(PType::I32, nullability)),
        13 | 14 | 15 | 16 => Some(DType::Primitive(PType::I64, nullability)),
        _ => None,
    }
}

/// The type that values of a kind are kept as, with null or without.
pub(crate) fn dtype_of(kind: u8, nullable: u8) -> Result<DType, Status>
    ensures { result ≡ spec.dtype_of kind nullable }
{
    let Some(nullability) = nullability_of(nullable) else {
        return Err(Status::BadKind);
    };
    match kind_of(kind, nullability) {
        Some(dtype) => Ok(dtype),
        None => Err(Status::BadKind),
    }
}

/// How many bytes a number of the type takes.
#[inline]
pub(crate) fn number_width(ptype: PType) -> usize
    ensures { result ≡ spec.number_width ptype }
{
    match ptype {
        PType::U8 | PType::I8 => 1,
        PType::U16 | PType::I16 => 2,
        PType::U32 | PType::I32 => 4,
        PType::U64 | PType::I64 => 8,
    }
}

/// How many bytes a value of the type takes, where all take as many.
pub(crate) fn width(dtype: DType) -> Option<usize>
    ensures { result ≡ spec.width dtype }
{
    match dtype {
        DType::Null => Some(0),
        DType::Bool(_) => Some(1),
        DType::Primitive(ptype, _) => Some(number_width(ptype)),
        DType::Utf8(_) | DType::Binary(_) | DType::MinMaxState(_, _) => None,
    }
}
