//! Numbers of a column's type.
ghost use Rattle.std.specs.Prelude.{◌≡◌, ◌<◌, ◌≤◌};
ghost use Rattle.vortex_sql.specs.Numbers as spec;
ghost use Rattle.vortex_sql.specs.Typing as typing;

use vortex_base::pvalue::PValue;
use vortex_base::types::PType;
use vortex_logical::cell_range::CellRange;
use vortex_logical::exact::Step;
use vortex_logical::logical_type::LogicalType;

/// Returns a number of a type that has it.
pub(crate) fn in_type(ptype: PType, number: i128) -> Option<PValue>
    ensures { result ≡ spec.in_type ptype number }
{
    match ptype {
        PType::U8 => Some(PValue::U8(u8::try_from(number).ok()?)),
        PType::U16 => Some(PValue::U16(u16::try_from(number).ok()?)),
        PType::U32 => Some(PValue::U32(u32::try_from(number).ok()?)),
        PType::U64 => Some(PValue::U64(u64::try_from(number).ok()?)),
        PType::I8 => Some(PValue::I8(i8::try_from(number).ok()?)),
        PType::I16 => Some(PValue::I16(i16::try_from(number).ok()?)),
        PType::I32 => Some(PValue::I32(i32::try_from(number).ok()?)),
        PType::I64 => Some(PValue::I64(i64::try_from(number).ok()?)),
    }
}

fn least(ptype: PType) -> PValue
    ensures { result ≡ spec.least_of ptype }
{
    match ptype {
        PType::U8 => PValue::U8(u8::MIN),
        PType::U16 => PValue::U16(u16::MIN),
        PType::U32 => PValue::U32(u32::MIN),
        PType::U64 => PValue::U64(u64::MIN),
        PType::I8 => PValue::I8(i8::MIN),
        PType::I16 => PValue::I16(i16::MIN),
        PType::I32 => PValue::I32(i32::MIN),
        PType::I64 => PValue::I64(i64::MIN),
    }
}

/// Returns a number as one of a type that has it.
pub(crate) fn sized(ptype: PType, number: i128) -> PValue
    ensures { result ≡ spec.sized_in ptype number }
{
    match in_type(ptype, number) {
        Some(value) => value,
        None => least(ptype),
    }
}

/// Returns the numbers of a type.
pub(crate) fn range_of(ptype: PType) -> CellRange
    ensures { result ≡ spec.range_of ptype }
{
    let (least, greatest) = match ptype {
        PType::U8 => (i128::from(u8::MIN), i128::from(u8::MAX)),
        PType::U16 => (i128::from(u16::MIN), i128::from(u16::MAX)),
        PType::U32 => (i128::from(u32::MIN), i128::from(u32::MAX)),
        PType::U64 => (i128::from(u64::MIN), i128::from(u64::MAX)),
        PType::I8 => (i128::from(i8::MIN), i128::from(i8::MAX)),
        PType::I16 => (i128::from(i16::MIN), i128::from(i16::MAX)),
        PType::I32 => (i128::from(i32::MIN), i128::from(i32::MAX)),
        PType::I64 => (i128::from(i64::MIN), i128::from(i64::MAX)),
    };
    CellRange { least, greatest }
}

/// Returns what one counts in a column.
pub(crate) fn step_of(logical: Option<LogicalType>) -> Step
    ensures value { result ≡ typing.step_of logical }
    ensures positive { 0 < result.each }
    ensures short { result.each ≤ 86_400 }
    ensures scale { result.scale ≤ 38 }
{
    match logical {
        Some(logical) => logical.step(),
        None => Step { each: 1, scale: 0 },
    }
}
