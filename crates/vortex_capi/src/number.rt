//! Numbers of one type as they stand in a caller's bytes.
ghost use Rattle.std.specs.Prelude.{◌≡◌, ◌+◌, ◌*◌, ◌≤◌, IsTrue, Some, length, nat_le};
ghost use Rattle.std.specs.Bool.{OnTrue};
ghost use Rattle.vortex_capi.specs.Encoding as spec;
ghost use Rattle.vortex_capi.specs.Types.{number_width};

use crate::types::number_width;
use vortex_base::native::Native;
use vortex_base::pvalue::PValue;
use vortex_base::types::PType;

/// A number of one type as it stands in a caller's bytes.
pub(crate) trait Number: Ord + Native {
    ghost use Rattle.std.specs.Prelude.{◌≡◌, IfSome, IsTrue, option_map};
    ghost use Rattle.vortex_base.specs.declared.pvalue.PValue.{PValue};
    ghost use Rattle.vortex_base.specs.declared.scalar_value.ScalarValue.TheVariants.{Primitive};
    ghost use Rattle.vortex_base.specs.declared.types.PType.{PType};
    ghost use Rattle.vortex_base.specs.Data.Values.{value_cmp};
    ghost use Rattle.vortex_capi.specs.Encoding.{is_number, number_of};

    /// The type.
    const PTYPE: PType;

    ghost PTYPE: { PType };

    ghost pvalue: { Self → PValue };

    /// The number that the bytes begin with, where there are enough.
    fn from_bytes(bytes: &[u8]) -> Option<Self>
        ensures read { option_map pvalue result ≡ number_of PTYPE bytes.now }
        ensures fits { IfSome result (λ n. IsTrue (is_number PTYPE (pvalue n))) };

    /// The number with its type.
    fn value(self) -> PValue
        ensures { result ≡ pvalue self };

    ghost ordered: { (a b : Self)
        → Self.cmp a b ≡ value_cmp (Primitive (pvalue a)) (Primitive (pvalue b)) };

    ghost kept: { (n : Self) → Self.scalar n ≡ Primitive (pvalue n) };
}

/// Whether the bytes of so many numbers are there.
pub(crate) fn has_numbers<N: Number>(values: &[u8], count: usize) -> bool
    ensures there { result ≡ nat_le (count * number_width N.PTYPE) (length values.now) }
    ensures numbers { OnTrue result (spec.AreNumbers N.PTYPE values.now count) }
{
    match count.checked_mul(number_width(N::PTYPE)) {
        Some(len) => len <= values.len(),
        None => false,
    }
}

/// Number i of those that stand one behind the other.
#[inline]
pub(crate) fn number_at<N: Number>(values: &[u8], i: usize) -> N
    requires { let width = number_width N.PTYPE in i * width + width ≤ length values.now }
    ensures read { Some (N.pvalue result) ≡ spec.number_at N.PTYPE values.now i }
    ensures fits { IsTrue (spec.is_number N.PTYPE (N.pvalue result)) }
{
    let width = number_width(N::PTYPE);
    let from = i * width;
    match N::from_bytes(&values[from..from + width]) {
        Some(number) => number,
        None => unreachable!(),
    }
}

impl Number for u8 {
    ghost use Rattle.std.specs.Prelude.{refl};
    ghost use Rattle.vortex_base.specs.declared.pvalue.PValue.TheVariants as number;
    ghost use Rattle.vortex_base.specs.declared.types.PType.TheVariants as ptype;
    ghost use Rattle.vortex_stats.specs.Measuring.Codes.{unsigned_ordered};

    const PTYPE: PType = PType::U8;

    ghost PTYPE = { ptype.U8 };

    ghost pvalue = { number.U8 };

    ghost ordered = { unsigned_ordered };

    ghost kept = { λ n. refl };

    #[inline]
    fn from_bytes(bytes: &[u8]) -> Option<u8> {
        Some(u8::from_le_bytes(*bytes.first_chunk()?))
    }

    fn value(self) -> PValue {
        PValue::U8(self)
    }
}

impl Number for u16 {
    ghost use Rattle.std.specs.Prelude.{refl};
    ghost use Rattle.vortex_base.specs.declared.pvalue.PValue.TheVariants as number;
    ghost use Rattle.vortex_base.specs.declared.types.PType.TheVariants as ptype;
    ghost use Rattle.vortex_stats.specs.Measuring.Codes.{unsigned_ordered};

    const PTYPE: PType = PType::U16;

    ghost PTYPE = { ptype.U16 };

    ghost pvalue = { number.U16 };

    ghost ordered = { unsigned_ordered };

    ghost kept = { λ n. refl };

    #[inline]
    fn from_bytes(bytes: &[u8]) -> Option<u16> {
        Some(u16::from_le_bytes(*bytes.first_chunk()?))
    }

    fn value(self) -> PValue {
        PValue::U16(self)
    }
}

impl Number for u32 {
    ghost use Rattle.std.specs.Prelude.{refl};
    ghost use Rattle.vortex_base.specs.declared.pvalue.PValue.TheVariants as number;
    ghost use Rattle.vortex_base.specs.declared.types.PType.TheVariants as ptype;
    ghost use Rattle.vortex_stats.specs.Measuring.Codes.{unsigned_ordered};

    const PTYPE: PType = PType::U32;

    ghost PTYPE = { ptype.U32 };

    ghost pvalue = { number.U32 };

    ghost ordered = { unsigned_ordered };

    ghost kept = { λ n. refl };

    #[inline]
    fn from_bytes(bytes: &[u8]) -> Option<u32> {
        Some(u32::from_le_bytes(*bytes.first_chunk()?))
    }

    fn value(self) -> PValue {
        PValue::U32(self)
    }
}

impl Number for u64 {
    ghost use Rattle.std.specs.Prelude.{refl};
    ghost use Rattle.vortex_base.specs.declared.pvalue.PValue.TheVariants as number;
    ghost use Rattle.vortex_base.specs.declared.types.PType.TheVariants as ptype;
    ghost use Rattle.vortex_stats.specs.Measuring.Codes.{unsigned_ordered};

    const PTYPE: PType = PType::U64;

    ghost PTYPE = { ptype.U64 };

    ghost pvalue = { number.U64 };

    ghost ordered = { unsigned_ordered };

    ghost kept = { λ n. refl };

    #[inline]
    fn from_bytes(bytes: &[u8]) -> Option<u64> {
        Some(u64::from_le_bytes(*bytes.first_chunk()?))
    }

    fn value(self) -> PValue {
        PValue::U64(self)
    }
}

impl Number for i8 {
    ghost use Rattle.std.specs.Prelude.{refl};
    ghost use Rattle.vortex_base.specs.declared.pvalue.PValue.TheVariants as number;
    ghost use Rattle.vortex_base.specs.declared.types.PType.TheVariants as ptype;
    ghost use Rattle.vortex_stats.specs.Measuring.Codes.{signed_ordered};

    const PTYPE: PType = PType::I8;

    ghost PTYPE = { ptype.I8 };

    ghost pvalue = { number.I8 };

    ghost ordered = { signed_ordered };

    ghost kept = { λ n. refl };

    #[inline]
    fn from_bytes(bytes: &[u8]) -> Option<i8> {
        Some(i8::from_le_bytes(*bytes.first_chunk()?))
    }

    fn value(self) -> PValue {
        PValue::I8(self)
    }
}

impl Number for i16 {
    ghost use Rattle.std.specs.Prelude.{refl};
    ghost use Rattle.vortex_base.specs.declared.pvalue.PValue.TheVariants as number;
    ghost use Rattle.vortex_base.specs.declared.types.PType.TheVariants as ptype;
    ghost use Rattle.vortex_stats.specs.Measuring.Codes.{signed_ordered};

    const PTYPE: PType = PType::I16;

    ghost PTYPE = { ptype.I16 };

    ghost pvalue = { number.I16 };

    ghost ordered = { signed_ordered };

    ghost kept = { λ n. refl };

    #[inline]
    fn from_bytes(bytes: &[u8]) -> Option<i16> {
        Some(i16::from_le_bytes(*bytes.first_chunk()?))
    }

    fn value(self) -> PValue {
        PValue::I16(self)
    }
}

impl Number for i32 {
    ghost use Rattle.std.specs.Prelude.{refl};
    ghost use Rattle.vortex_base.specs.declared.pvalue.PValue.TheVariants as number;
    ghost use Rattle.vortex_base.specs.declared.types.PType.TheVariants as ptype;
    ghost use Rattle.vortex_stats.specs.Measuring.Codes.{signed_ordered};

    const PTYPE: PType = PType::I32;

    ghost PTYPE = { ptype.I32 };

    ghost pvalue = { number.I32 };

    ghost ordered = { signed_ordered };

    ghost kept = { λ n. refl };

    #[inline]
    fn from_bytes(bytes: &[u8]) -> Option<i32> {
        Some(i32::from_le_bytes(*bytes.first_chunk()?))
    }

    fn value(self) -> PValue {
        PValue::I32(self)
    }
}

impl Number for i64 {
    ghost use Rattle.std.specs.Prelude.{refl};
    ghost use Rattle.vortex_base.specs.declared.pvalue.PValue.TheVariants as number;
    ghost use Rattle.vortex_base.specs.declared.types.PType.TheVariants as ptype;
    ghost use Rattle.vortex_stats.specs.Measuring.Codes.{signed_ordered};

    const PTYPE: PType = PType::I64;

    ghost PTYPE = { ptype.I64 };

    ghost pvalue = { number.I64 };

    ghost ordered = { signed_ordered };

    ghost kept = { λ n. refl };

    #[inline]
    fn from_bytes(bytes: &[u8]) -> Option<i64> {
        Some(i64::from_le_bytes(*bytes.first_chunk()?))
    }

    fn value(self) -> PValue {
        PValue::I64(self)
    }
}
