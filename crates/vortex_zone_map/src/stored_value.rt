//! Values as a log keeps them: truths and numbers in place, texts and bytes in a list beside it.
ghost use Rattle.std.specs.Prelude.{◌≡◌, ℕ, IfOk, IfSome, List, Some, length};
ghost use Rattle.vortex_base.specs.Data.ArrayData.{short_value};
ghost use Rattle.vortex_base.specs.declared.array_data.PrimitiveScalar as spec_cell;
ghost use Rattle.vortex_base.specs.declared.scalar_value.ScalarValue.{ScalarValue};
ghost use Rattle.vortex_base.specs.declared.scalar_value.ScalarValue.TheVariants as spec_value;
ghost use Rattle.vortex_zone_map.specs.Kept as spec;
ghost use Rattle.vortex_zone_map.specs.Kept.{IsFormed, IsKept, IsLonger, IsPlace, formed};
ghost use Rattle.vortex_zone_map.specs.Kept.{kept_value};

use std::alloc::AllocError;
use vortex_base::array_data::PrimitiveScalar;
use vortex_base::pvalue::PValue;
use vortex_base::scalar_value::ScalarValue;
use vortex_base::value_ref::ValueRef;
use vortex_stats::precision::Precision;

/// How far a value can be trusted, and whether it is a text or bytes.
#[derive(Clone, Copy, Debug)]
pub enum ValueTag {
    Absent,
    Exact,
    Inexact,
    LongExact,
    LongInexact,
}

/// A value, or the place of a text or bytes in the list beside the log.
#[derive(Clone, Copy, Debug)]
pub struct StoredValue {
    pub form: ValueTag,
    pub cell: PrimitiveScalar,
}

/// The cell of a truth or a number.
#[inline]
pub fn short_cell(value: &ScalarValue) -> Option<PrimitiveScalar>
    ensures { IfSome result (λ cell. short_value cell ≡ Some value.now) }
{
    match value {
        ScalarValue::Bool(truth) => Some(PrimitiveScalar::Bool(*truth)),
        ScalarValue::Primitive(number) => Some(PrimitiveScalar::of_number(*number)),
        ScalarValue::Utf8(_) | ScalarValue::Binary(_) => None,
    }
}

/// The number that is known, if one is, and whether exactly.
#[inline]
pub fn number_in(value: &Precision<ScalarValue>) -> Option<(ValueTag, PValue)>
    ensures kept { IfSome result (λ found.
        (var_len_values : List ScalarValue) (cell : spec_cell.PrimitiveScalar)
        → short_value cell ≡ Some (spec_value.Primitive found.1)
        → formed var_len_values found.0 cell ≡ value.now) }
    ensures placed { IfSome result (λ found. (count : ℕ) (cell : spec_cell.PrimitiveScalar)
        → IsFormed count found.0 cell) }
{
    match value {
        Precision::Exact(ScalarValue::Primitive(number)) => Some((ValueTag::Exact, *number)),
        Precision::Inexact(ScalarValue::Primitive(number)) => Some((ValueTag::Inexact, *number)),
        _ => None,
    }
}

// The place of a text or bytes, which goes behind the others.
#[inline(never)]
fn long_cell(
    var_len_values: &mut Vec<ScalarValue>,
    value: ScalarValue,
) -> Result<PrimitiveScalar, AllocError>
    ensures kept { IfOk result (λ cell.
        spec.long_value var_len_values.new.items cell ≡ Some value) }
    ensures placed { IfOk result (IsPlace (length var_len_values.new.items)) }
    ensures longer { IsLonger var_len_values.old.items var_len_values.new.items }
{
    let place = var_len_values.len();
    var_len_values.push(value)?;
    Ok(PrimitiveScalar::U64(place as u64))
}

/// Keeps a value. A text or bytes go behind the others.
#[inline]
pub fn keep(
    var_len_values: &mut Vec<ScalarValue>,
    value: Precision<ScalarValue>,
) -> Result<StoredValue, AllocError>
    ensures kept { IfOk result (λ kept. kept_value var_len_values.new.items kept ≡ value) }
    ensures placed { IfOk result (IsKept (length var_len_values.new.items)) }
    ensures longer { IsLonger var_len_values.old.items var_len_values.new.items }
{
    match value {
        Precision::Exact(value) => match short_cell(&value) {
            Some(cell) => Ok(StoredValue {
                form: ValueTag::Exact,
                cell,
            }),
            None => Ok(StoredValue {
                form: ValueTag::LongExact,
                cell: long_cell(var_len_values, value)?,
            }),
        },
        Precision::Inexact(value) => match short_cell(&value) {
            Some(cell) => Ok(StoredValue {
                form: ValueTag::Inexact,
                cell,
            }),
            None => Ok(StoredValue {
                form: ValueTag::LongInexact,
                cell: long_cell(var_len_values, value)?,
            }),
        },
        Precision::Absent => Ok(StoredValue {
            form: ValueTag::Absent,
            cell: PrimitiveScalar::Null,
        }),
    }
}

/// A truth or a number.
#[inline]
pub fn short_copy(cell: PrimitiveScalar) -> Option<ScalarValue>
    ensures { result ≡ short_value cell }
{
    match cell.lend() {
        Some(ValueRef::Bool(truth)) => Some(ScalarValue::Bool(truth)),
        Some(ValueRef::Primitive(number)) => Some(ScalarValue::Primitive(number)),
        Some(ValueRef::Utf8(_) | ValueRef::Binary(_)) => unreachable!(),
        None => None,
    }
}

// A copy of the text or bytes at the place that a cell tells.
#[inline(never)]
fn long_copy(
    var_len_values: &[ScalarValue],
    cell: PrimitiveScalar,
) -> Result<Option<ScalarValue>, AllocError>
    ensures { IfOk result (λ value. value ≡ spec.long_value var_len_values.now cell) }
{
    match cell {
        PrimitiveScalar::U64(place) => match var_len_values.get(place as usize) {
            Some(value) => Ok(Some(value.lend().to_value()?)),
            None => Ok(None),
        },
        _ => Ok(None),
    }
}

// The value that is known exactly, if one is.
#[inline]
fn exact(value: Option<ScalarValue>) -> Precision<ScalarValue>
    ensures { result ≡ spec.exact value }
{
    match value {
        Some(value) => Precision::Exact(value),
        None => Precision::Absent,
    }
}

// The value that is known inexactly, if one is.
#[inline]
fn inexact(value: Option<ScalarValue>) -> Precision<ScalarValue>
    ensures { result ≡ spec.inexact value }
{
    match value {
        Some(value) => Precision::Inexact(value),
        None => Precision::Absent,
    }
}

/// A copy of a value. A text or bytes alone take memory.
#[inline]
pub fn copy_of(
    var_len_values: &[ScalarValue],
    kept: StoredValue,
) -> Result<Precision<ScalarValue>, AllocError>
    ensures { IfOk result (λ copy. copy ≡ kept_value var_len_values.now kept) }
{
    match kept.form {
        ValueTag::Absent => Ok(Precision::Absent),
        ValueTag::Exact => Ok(exact(short_copy(kept.cell))),
        ValueTag::Inexact => Ok(inexact(short_copy(kept.cell))),
        ValueTag::LongExact => Ok(exact(long_copy(var_len_values, kept.cell)?)),
        ValueTag::LongInexact => Ok(inexact(long_copy(var_len_values, kept.cell)?)),
    }
}
