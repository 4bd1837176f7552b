//! Whole numbers with their types.
ghost use Rattle.std.specs.Prelude.{◌≡◌, IsTrue};
ghost use Rattle.vortex_base.specs.Data.Neighbours.{next_number, prev_number};
ghost use Rattle.vortex_base.specs.Data.Values.{ptype_of, in_range};

use crate::types::PType;

/// A whole number of one of the eight types. Numbers are ordered by type, in the order of the
/// variants, and then by size.
#[derive(Clone, Copy, Debug, PartialEq, Eq, PartialOrd, Ord)]
pub enum PValue {
    U8(u8),
    U16(u16),
    U32(u32),
    U64(u64),
    I8(i8),
    I16(i16),
    I32(i32),
    I64(i64),
}

impl PValue {
    /// The number's type.
    pub fn ptype(self) -> PType
        ensures value { result ≡ ptype_of self }
        ensures in_range { IsTrue (in_range self) }
    {
        match self {
            PValue::U8(_) => PType::U8,
            PValue::U16(_) => PType::U16,
            PValue::U32(_) => PType::U32,
            PValue::U64(_) => PType::U64,
            PValue::I8(_) => PType::I8,
            PValue::I16(_) => PType::I16,
            PValue::I32(_) => PType::I32,
            PValue::I64(_) => PType::I64,
        }
    }

    /// The number one above, of the same type; `None` at the greatest of the type.
    pub fn next(self) -> Option<PValue>
        ensures { result ≡ next_number self }
    {
        match self {
            PValue::U8(n) => Some(PValue::U8(n.checked_add(1)?)),
            PValue::U16(n) => Some(PValue::U16(n.checked_add(1)?)),
            PValue::U32(n) => Some(PValue::U32(n.checked_add(1)?)),
            PValue::U64(n) => Some(PValue::U64(n.checked_add(1)?)),
            PValue::I8(n) => Some(PValue::I8(n.checked_add(1)?)),
            PValue::I16(n) => Some(PValue::I16(n.checked_add(1)?)),
            PValue::I32(n) => Some(PValue::I32(n.checked_add(1)?)),
            PValue::I64(n) => Some(PValue::I64(n.checked_add(1)?)),
        }
    }

    /// The number one below, of the same type; `None` at the least of the type.
    pub fn prev(self) -> Option<PValue>
        ensures { result ≡ prev_number self }
    {
        match self {
            PValue::U8(n) => Some(PValue::U8(n.checked_sub(1)?)),
            PValue::U16(n) => Some(PValue::U16(n.checked_sub(1)?)),
            PValue::U32(n) => Some(PValue::U32(n.checked_sub(1)?)),
            PValue::U64(n) => Some(PValue::U64(n.checked_sub(1)?)),
            PValue::I8(n) => Some(PValue::I8(n.checked_sub(1)?)),
            PValue::I16(n) => Some(PValue::I16(n.checked_sub(1)?)),
            PValue::I32(n) => Some(PValue::I32(n.checked_sub(1)?)),
            PValue::I64(n) => Some(PValue::I64(n.checked_sub(1)?)),
        }
    }
}
