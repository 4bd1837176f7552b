//! Truths and numbers, each of a type of its own.
ghost use Rattle.std.specs.Prelude.{◌≡◌};

use crate::array_data::{ArrayData, PrimitiveScalar};
use crate::primitive_array::PrimitiveArray;
use crate::pvalue::PValue;
use crate::scalar_value::ScalarValue;
use crate::value_ref::ValueRef;
use std::cmp::Ordering;

/// Matches cells by their form: one arm for the values of each `Native` type, and the arms of the
/// other forms behind it.
#[macro_export]
macro_rules! match_each_native {
    ($cells:expr, $natives:ident => $each:expr, $($other:pat => $made:expr),+) => {
        match $cells {
            $crate::array_data::ArrayData::Bool($natives) => $each,
            $crate::array_data::ArrayData::U8($natives) => $each,
            $crate::array_data::ArrayData::U16($natives) => $each,
            $crate::array_data::ArrayData::U32($natives) => $each,
            $crate::array_data::ArrayData::U64($natives) => $each,
            $crate::array_data::ArrayData::I8($natives) => $each,
            $crate::array_data::ArrayData::I16($natives) => $each,
            $crate::array_data::ArrayData::I32($natives) => $each,
            $crate::array_data::ArrayData::I64($natives) => $each,
            $($other => $made),+
        }
    };
}

/// A truth or a number, of the type in which a column keeps it (upstream's `NativePType`, and
/// `bool`).
pub trait Native: Copy + Default {
    ghost use Rattle.std.specs.Prelude.{◌≡◌, ◌≢◌, IfSome, List, MatchOption, Option, map};
    ghost use Rattle.std.specs.Prelude.{option_map};
    ghost use Rattle.vortex_base.specs.Data.ArrayData.{cell_values, short_value, value_of};
    ghost use Rattle.vortex_base.specs.Data.Values.{value_cmp};
    ghost use Rattle.vortex_base.specs.declared.array_data.ArrayData.{ArrayData};
    ghost use Rattle.vortex_base.specs.declared.scalar_value.ScalarValue.{ScalarValue};

    ghost scalar: { Self → ScalarValue };

    // Cells that are kept as this type.
    ghost kept: { List (Option Self) → ArrayData };

    /// The value, lent.
    fn lend<'a>(self) -> ValueRef<'a>
        ensures { value_of result ≡ scalar self };

    /// The value itself.
    fn to_value(self) -> ScalarValue
        ensures { result ≡ scalar self };

    /// How two values of the type compare.
    fn order(self, other: Self) -> Ordering
        ensures { result ≡ value_cmp (scalar self) (scalar other) };

    /// Returns a lent value as one of this type, and `None` only where it isn't one.
    fn of_lent(value: ValueRef<'_>) -> Option<Self>
        ensures { MatchOption result ((native : Self) → scalar native ≢ value_of value.entry)
            (λ native. scalar native ≡ value_of value.entry) };

    /// Returns a value as one of this type, and `None` only where it isn't one.
    fn of_value(value: &ScalarValue) -> Option<Self>
        ensures { MatchOption result ((native : Self) → scalar native ≢ value.now)
            (λ native. scalar native ≡ value.now) };

    /// Returns a cell, null or a value, and `None` only where it is a value of another type.
    fn of_cell(cell: PrimitiveScalar) -> Option<Option<Self>>
        ensures { MatchOption result
            ((native : Option Self) → option_map scalar native ≢ short_value cell)
            (λ native. option_map scalar native ≡ short_value cell) };

    /// Values of this type as those of a column, kept as this type.
    fn into_cells(natives: PrimitiveArray<Self>) -> ArrayData
        ensures values { cell_values result ≡ map (option_map scalar) natives }
        ensures form { result ≡ kept natives };

    /// The values of a column, and `None` only where they aren't kept as this type.
    fn of_cells(cells: &ArrayData) -> Option<&PrimitiveArray<Self>>
        ensures values { IfSome result (λ natives.
            cell_values cells.entry.now ≡ map (option_map scalar) natives.now) }
        ensures form { MatchOption result
            ((natives : List (Option Self)) → cells.entry.now ≢ kept natives)
            (λ natives. cells.entry.now ≡ kept natives.now) };
}

impl Native for bool {
    ghost use Rattle.std.specs.Prelude.{◌≡◌, map, option_map};
    ghost use Rattle.vortex_base.specs.Data.ArrayData.{cell_values};
    ghost use Rattle.vortex_base.specs.declared.array_data.ArrayData.TheVariants as kept_cells;
    ghost use Rattle.vortex_base.specs.declared.scalar_value.ScalarValue.TheVariants as value;

    ghost scalar = { value.Bool };

    ghost kept = { kept_cells.Bool };

    #[inline]
    fn lend<'a>(self) -> ValueRef<'a> {
        ValueRef::Bool(self)
    }

    #[inline]
    fn to_value(self) -> ScalarValue {
        ScalarValue::Bool(self)
    }

    #[inline]
    fn order(self, other: bool) -> Ordering {
        self.cmp(&other)
    }

    #[inline]
    fn of_lent(value: ValueRef<'_>) -> Option<bool> {
        match value {
            ValueRef::Bool(truth) => Some(truth),
            _ => None,
        }
    }

    #[inline]
    fn of_value(value: &ScalarValue) -> Option<bool> {
        match value {
            ScalarValue::Bool(truth) => Some(*truth),
            _ => None,
        }
    }

    #[inline]
    fn of_cell(cell: PrimitiveScalar) -> Option<Option<bool>> {
        match cell {
            PrimitiveScalar::Bool(truth) => Some(Some(truth)),
            PrimitiveScalar::Null => Some(None),
            _ => None,
        }
    }

    fn into_cells(natives: PrimitiveArray<bool>) -> ArrayData
        ensures values { cell_values result ≡ map (option_map value.Bool) natives }
        ensures form { result ≡ kept_cells.Bool natives }
    {
        ArrayData::Bool(natives)
    }

    #[inline]
    fn of_cells(cells: &ArrayData) -> Option<&PrimitiveArray<bool>> {
        match cells {
            ArrayData::Bool(natives) => Some(natives),
            _ => None,
        }
    }
}

impl Native for u8 {
    ghost use Rattle.vortex_base.specs.declared.pvalue.PValue.TheVariants as number;
    ghost use Rattle.std.specs.Prelude.{◌≡◌, map, option_map};
    ghost use Rattle.vortex_base.specs.Data.ArrayData.{cell_values};
    ghost use Rattle.vortex_base.specs.declared.array_data.ArrayData.TheVariants as kept_cells;
    ghost use Rattle.vortex_base.specs.declared.scalar_value.ScalarValue.TheVariants as value;

    ghost scalar = { λ n. value.Primitive (number.U8 n) };

    ghost kept = { kept_cells.U8 };

    #[inline]
    fn lend<'a>(self) -> ValueRef<'a> {
        ValueRef::Primitive(PValue::U8(self))
    }

    #[inline]
    fn to_value(self) -> ScalarValue {
        ScalarValue::Primitive(PValue::U8(self))
    }

    #[inline]
    fn order(self, other: u8) -> Ordering {
        self.cmp(&other)
    }

    #[inline]
    fn of_lent(value: ValueRef<'_>) -> Option<u8> {
        match value {
            ValueRef::Primitive(PValue::U8(n)) => Some(n),
            _ => None,
        }
    }

    #[inline]
    fn of_value(value: &ScalarValue) -> Option<u8> {
        match value {
            ScalarValue::Primitive(PValue::U8(n)) => Some(*n),
            _ => None,
        }
    }

    #[inline]
    fn of_cell(cell: PrimitiveScalar) -> Option<Option<u8>> {
        match cell {
            PrimitiveScalar::U8(n) => Some(Some(n)),
            PrimitiveScalar::Null => Some(None),
            _ => None,
        }
    }

    fn into_cells(natives: PrimitiveArray<u8>) -> ArrayData
        ensures values { cell_values result
            ≡ map (option_map (λ n. value.Primitive (number.U8 n))) natives }
        ensures form { result ≡ kept_cells.U8 natives }
    {
        ArrayData::U8(natives)
    }

    #[inline]
    fn of_cells(cells: &ArrayData) -> Option<&PrimitiveArray<u8>> {
        match cells {
            ArrayData::U8(natives) => Some(natives),
            _ => None,
        }
    }
}

impl Native for u16 {
    ghost use Rattle.vortex_base.specs.declared.pvalue.PValue.TheVariants as number;
    ghost use Rattle.std.specs.Prelude.{◌≡◌, map, option_map};
    ghost use Rattle.vortex_base.specs.Data.ArrayData.{cell_values};
    ghost use Rattle.vortex_base.specs.declared.array_data.ArrayData.TheVariants as kept_cells;
    ghost use Rattle.vortex_base.specs.declared.scalar_value.ScalarValue.TheVariants as value;

    ghost scalar = { λ n. value.Primitive (number.U16 n) };

    ghost kept = { kept_cells.U16 };

    #[inline]
    fn lend<'a>(self) -> ValueRef<'a> {
        ValueRef::Primitive(PValue::U16(self))
    }

    #[inline]
    fn to_value(self) -> ScalarValue {
        ScalarValue::Primitive(PValue::U16(self))
    }

    #[inline]
    fn order(self, other: u16) -> Ordering {
        self.cmp(&other)
    }

    #[inline]
    fn of_lent(value: ValueRef<'_>) -> Option<u16> {
        match value {
            ValueRef::Primitive(PValue::U16(n)) => Some(n),
            _ => None,
        }
    }

    #[inline]
    fn of_value(value: &ScalarValue) -> Option<u16> {
        match value {
            ScalarValue::Primitive(PValue::U16(n)) => Some(*n),
            _ => None,
        }
    }

    #[inline]
    fn of_cell(cell: PrimitiveScalar) -> Option<Option<u16>> {
        match cell {
            PrimitiveScalar::U16(n) => Some(Some(n)),
            PrimitiveScalar::Null => Some(None),
            _ => None,
        }
    }

    fn into_cells(natives: PrimitiveArray<u16>) -> ArrayData
        ensures values { cell_values result
            ≡ map (option_map (λ n. value.Primitive (number.U16 n))) natives }
        ensures form { result ≡ kept_cells.U16 natives }
    {
        ArrayData::U16(natives)
    }

    #[inline]
    fn of_cells(cells: &ArrayData) -> Option<&PrimitiveArray<u16>> {
        match cells {
            ArrayData::U16(natives) => Some(natives),
            _ => None,
        }
    }
}

impl Native for u32 {
    ghost use Rattle.vortex_base.specs.declared.pvalue.PValue.TheVariants as number;
    ghost use Rattle.std.specs.Prelude.{◌≡◌, map, option_map};
    ghost use Rattle.vortex_base.specs.Data.ArrayData.{cell_values};
    ghost use Rattle.vortex_base.specs.declared.array_data.ArrayData.TheVariants as kept_cells;
    ghost use Rattle.vortex_base.specs.declared.scalar_value.ScalarValue.TheVariants as value;

    ghost scalar = { λ n. value.Primitive (number.U32 n) };

    ghost kept = { kept_cells.U32 };

    #[inline]
    fn lend<'a>(self) -> ValueRef<'a> {
        ValueRef::Primitive(PValue::U32(self))
    }

    #[inline]
    fn to_value(self) -> ScalarValue {
        ScalarValue::Primitive(PValue::U32(self))
    }

    #[inline]
    fn order(self, other: u32) -> Ordering {
        self.cmp(&other)
    }

    #[inline]
    fn of_lent(value: ValueRef<'_>) -> Option<u32> {
        match value {
            ValueRef::Primitive(PValue::U32(n)) => Some(n),
            _ => None,
        }
    }

    #[inline]
    fn of_value(value: &ScalarValue) -> Option<u32> {
        match value {
            ScalarValue::Primitive(PValue::U32(n)) => Some(*n),
            _ => None,
        }
    }

    #[inline]
    fn of_cell(cell: PrimitiveScalar) -> Option<Option<u32>> {
        match cell {
            PrimitiveScalar::U32(n) => Some(Some(n)),
            PrimitiveScalar::Null => Some(None),
            _ => None,
        }
    }

    fn into_cells(natives: PrimitiveArray<u32>) -> ArrayData
        ensures values { cell_values result
            ≡ map (option_map (λ n. value.Primitive (number.U32 n))) natives }
        ensures form { result ≡ kept_cells.U32 natives }
    {
        ArrayData::U32(natives)
    }

    #[inline]
    fn of_cells(cells: &ArrayData) -> Option<&PrimitiveArray<u32>> {
        match cells {
            ArrayData::U32(natives) => Some(natives),
            _ => None,
        }
    }
}

impl Native for u64 {
    ghost use Rattle.vortex_base.specs.declared.pvalue.PValue.TheVariants as number;
    ghost use Rattle.std.specs.Prelude.{◌≡◌, map, option_map};
    ghost use Rattle.vortex_base.specs.Data.ArrayData.{cell_values};
    ghost use Rattle.vortex_base.specs.declared.array_data.ArrayData.TheVariants as kept_cells;
    ghost use Rattle.vortex_base.specs.declared.scalar_value.ScalarValue.TheVariants as value;

    ghost scalar = { λ n. value.Primitive (number.U64 n) };

    ghost kept = { kept_cells.U64 };

    #[inline]
    fn lend<'a>(self) -> ValueRef<'a> {
        ValueRef::Primitive(PValue::U64(self))
    }

    #[inline]
    fn to_value(self) -> ScalarValue {
        ScalarValue::Primitive(PValue::U64(self))
    }

    #[inline]
    fn order(self, other: u64) -> Ordering {
        self.cmp(&other)
    }

    #[inline]
    fn of_lent(value: ValueRef<'_>) -> Option<u64> {
        match value {
            ValueRef::Primitive(PValue::U64(n)) => Some(n),
            _ => None,
        }
    }

    #[inline]
    fn of_value(value: &ScalarValue) -> Option<u64> {
        match value {
            ScalarValue::Primitive(PValue::U64(n)) => Some(*n),
            _ => None,
        }
    }

    #[inline]
    fn of_cell(cell: PrimitiveScalar) -> Option<Option<u64>> {
        match cell {
            PrimitiveScalar::U64(n) => Some(Some(n)),
            PrimitiveScalar::Null => Some(None),
            _ => None,
        }
    }

    fn into_cells(natives: PrimitiveArray<u64>) -> ArrayData
        ensures values { cell_values result
            ≡ map (option_map (λ n. value.Primitive (number.U64 n))) natives }
        ensures form { result ≡ kept_cells.U64 natives }
    {
        ArrayData::U64(natives)
    }

    #[inline]
    fn of_cells(cells: &ArrayData) -> Option<&PrimitiveArray<u64>> {
        match cells {
            ArrayData::U64(natives) => Some(natives),
            _ => None,
        }
    }
}

impl Native for i8 {
    ghost use Rattle.vortex_base.specs.declared.pvalue.PValue.TheVariants as number;
    ghost use Rattle.std.specs.Prelude.{◌≡◌, map, option_map};
    ghost use Rattle.vortex_base.specs.Data.ArrayData.{cell_values};
    ghost use Rattle.vortex_base.specs.declared.array_data.ArrayData.TheVariants as kept_cells;
    ghost use Rattle.vortex_base.specs.declared.scalar_value.ScalarValue.TheVariants as value;

    ghost scalar = { λ n. value.Primitive (number.I8 n) };

    ghost kept = { kept_cells.I8 };

    #[inline]
    fn lend<'a>(self) -> ValueRef<'a> {
        ValueRef::Primitive(PValue::I8(self))
    }

    #[inline]
    fn to_value(self) -> ScalarValue {
        ScalarValue::Primitive(PValue::I8(self))
    }

    #[inline]
    fn order(self, other: i8) -> Ordering {
        self.cmp(&other)
    }

    #[inline]
    fn of_lent(value: ValueRef<'_>) -> Option<i8> {
        match value {
            ValueRef::Primitive(PValue::I8(n)) => Some(n),
            _ => None,
        }
    }

    #[inline]
    fn of_value(value: &ScalarValue) -> Option<i8> {
        match value {
            ScalarValue::Primitive(PValue::I8(n)) => Some(*n),
            _ => None,
        }
    }

    #[inline]
    fn of_cell(cell: PrimitiveScalar) -> Option<Option<i8>> {
        match cell {
            PrimitiveScalar::I8(n) => Some(Some(n)),
            PrimitiveScalar::Null => Some(None),
            _ => None,
        }
    }

    fn into_cells(natives: PrimitiveArray<i8>) -> ArrayData
        ensures values { cell_values result
            ≡ map (option_map (λ n. value.Primitive (number.I8 n))) natives }
        ensures form { result ≡ kept_cells.I8 natives }
    {
        ArrayData::I8(natives)
    }

    #[inline]
    fn of_cells(cells: &ArrayData) -> Option<&PrimitiveArray<i8>> {
        match cells {
            ArrayData::I8(natives) => Some(natives),
            _ => None,
        }
    }
}

impl Native for i16 {
    ghost use Rattle.vortex_base.specs.declared.pvalue.PValue.TheVariants as number;
    ghost use Rattle.std.specs.Prelude.{◌≡◌, map, option_map};
    ghost use Rattle.vortex_base.specs.Data.ArrayData.{cell_values};
    ghost use Rattle.vortex_base.specs.declared.array_data.ArrayData.TheVariants as kept_cells;
    ghost use Rattle.vortex_base.specs.declared.scalar_value.ScalarValue.TheVariants as value;

    ghost scalar = { λ n. value.Primitive (number.I16 n) };

    ghost kept = { kept_cells.I16 };

    #[inline]
    fn lend<'a>(self) -> ValueRef<'a> {
        ValueRef::Primitive(PValue::I16(self))
    }

    #[inline]
    fn to_value(self) -> ScalarValue {
        ScalarValue::Primitive(PValue::I16(self))
    }

    #[inline]
    fn order(self, other: i16) -> Ordering {
        self.cmp(&other)
    }

    #[inline]
    fn of_lent(value: ValueRef<'_>) -> Option<i16> {
        match value {
            ValueRef::Primitive(PValue::I16(n)) => Some(n),
            _ => None,
        }
    }

    #[inline]
    fn of_value(value: &ScalarValue) -> Option<i16> {
        match value {
            ScalarValue::Primitive(PValue::I16(n)) => Some(*n),
            _ => None,
        }
    }

    #[inline]
    fn of_cell(cell: PrimitiveScalar) -> Option<Option<i16>> {
        match cell {
            PrimitiveScalar::I16(n) => Some(Some(n)),
            PrimitiveScalar::Null => Some(None),
            _ => None,
        }
    }

    fn into_cells(natives: PrimitiveArray<i16>) -> ArrayData
        ensures values { cell_values result
            ≡ map (option_map (λ n. value.Primitive (number.I16 n))) natives }
        ensures form { result ≡ kept_cells.I16 natives }
    {
        ArrayData::I16(natives)
    }

    #[inline]
    fn of_cells(cells: &ArrayData) -> Option<&PrimitiveArray<i16>> {
        match cells {
            ArrayData::I16(natives) => Some(natives),
            _ => None,
        }
    }
}

impl Native for i32 {
    ghost use Rattle.vortex_base.specs.declared.pvalue.PValue.TheVariants as number;
    ghost use Rattle.std.specs.Prelude.{◌≡◌, map, option_map};
    ghost use Rattle.vortex_base.specs.Data.ArrayData.{cell_values};
    ghost use Rattle.vortex_base.specs.declared.array_data.ArrayData.TheVariants as kept_cells;
    ghost use Rattle.vortex_base.specs.declared.scalar_value.ScalarValue.TheVariants as value;

    ghost scalar = { λ n. value.Primitive (number.I32 n) };

    ghost kept = { kept_cells.I32 };

    #[inline]
    fn lend<'a>(self) -> ValueRef<'a> {
        ValueRef::Primitive(PValue::I32(self))
    }

    #[inline]
    fn to_value(self) -> ScalarValue {
        ScalarValue::Primitive(PValue::I32(self))
    }

    #[inline]
    fn order(self, other: i32) -> Ordering {
        self.cmp(&other)
    }

    #[inline]
    fn of_lent(value: ValueRef<'_>) -> Option<i32> {
        match value {
            ValueRef::Primitive(PValue::I32(n)) => Some(n),
            _ => None,
        }
    }

    #[inline]
    fn of_value(value: &ScalarValue) -> Option<i32> {
        match value {
            ScalarValue::Primitive(PValue::I32(n)) => Some(*n),
            _ => None,
        }
    }

    #[inline]
    fn of_cell(cell: PrimitiveScalar) -> Option<Option<i32>> {
        match cell {
            PrimitiveScalar::I32(n) => Some(Some(n)),
            PrimitiveScalar::Null => Some(None),
            _ => None,
        }
    }

    fn into_cells(natives: PrimitiveArray<i32>) -> ArrayData
        ensures values { cell_values result
            ≡ map (option_map (λ n. value.Primitive (number.I32 n))) natives }
        ensures form { result ≡ kept_cells.I32 natives }
    {
        ArrayData::I32(natives)
    }

    #[inline]
    fn of_cells(cells: &ArrayData) -> Option<&PrimitiveArray<i32>> {
        match cells {
            ArrayData::I32(natives) => Some(natives),
            _ => None,
        }
    }
}

impl Native for i64 {
    ghost use Rattle.vortex_base.specs.declared.pvalue.PValue.TheVariants as number;
    ghost use Rattle.std.specs.Prelude.{◌≡◌, map, option_map};
    ghost use Rattle.vortex_base.specs.Data.ArrayData.{cell_values};
    ghost use Rattle.vortex_base.specs.declared.array_data.ArrayData.TheVariants as kept_cells;
    ghost use Rattle.vortex_base.specs.declared.scalar_value.ScalarValue.TheVariants as value;

    ghost scalar = { λ n. value.Primitive (number.I64 n) };

    ghost kept = { kept_cells.I64 };

    #[inline]
    fn lend<'a>(self) -> ValueRef<'a> {
        ValueRef::Primitive(PValue::I64(self))
    }

    #[inline]
    fn to_value(self) -> ScalarValue {
        ScalarValue::Primitive(PValue::I64(self))
    }

    #[inline]
    fn order(self, other: i64) -> Ordering {
        self.cmp(&other)
    }

    #[inline]
    fn of_lent(value: ValueRef<'_>) -> Option<i64> {
        match value {
            ValueRef::Primitive(PValue::I64(n)) => Some(n),
            _ => None,
        }
    }

    #[inline]
    fn of_value(value: &ScalarValue) -> Option<i64> {
        match value {
            ScalarValue::Primitive(PValue::I64(n)) => Some(*n),
            _ => None,
        }
    }

    #[inline]
    fn of_cell(cell: PrimitiveScalar) -> Option<Option<i64>> {
        match cell {
            PrimitiveScalar::I64(n) => Some(Some(n)),
            PrimitiveScalar::Null => Some(None),
            _ => None,
        }
    }

    fn into_cells(natives: PrimitiveArray<i64>) -> ArrayData
        ensures values { cell_values result
            ≡ map (option_map (λ n. value.Primitive (number.I64 n))) natives }
        ensures form { result ≡ kept_cells.I64 natives }
    {
        ArrayData::I64(natives)
    }

    #[inline]
    fn of_cells(cells: &ArrayData) -> Option<&PrimitiveArray<i64>> {
        match cells {
            ArrayData::I64(natives) => Some(natives),
            _ => None,
        }
    }
}
