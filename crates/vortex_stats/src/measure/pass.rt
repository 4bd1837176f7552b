//! One pass over the values of a column, in whichever form they are kept.
ghost use Rattle.std.specs.Prelude.{◌≡◌, [], IsTrue, List, Option, Some, length, map, option_copied, option_map, pos};
ghost use Rattle.vortex_base.specs.declared.dtype.DType.{DType};
ghost use Rattle.vortex_base.specs.declared.scalar_value.ScalarValue.{ScalarValue};
ghost use Rattle.vortex_base.specs.declared.dtype.DType.TheVariants as types;
ghost use Rattle.vortex_base.specs.declared.types.Nullability.TheVariants.{Nullable};
ghost use Rattle.vortex_base.specs.declared.types.PType.TheVariants as ptypes;
ghost use Rattle.vortex_base.specs.declared.scalar_value.ScalarValue.TheVariants as value;
ghost use Rattle.vortex_base.specs.Data.ArrayData.{text_value, value_of};
ghost use Rattle.vortex_base.specs.Data.Columns.{IsColumn, all_fit};
ghost use Rattle.vortex_stats.specs.Measuring.Keys.{bytes_of as value_bytes, family_of as type_family, signed_number, text_of as value_text, unsigned_number};
ghost use Rattle.vortex_stats.specs.Measuring.Measured.{number_in};
ghost use Rattle.vortex_stats.specs.Measuring.Measures.{AreMeasuresOf};
ghost use Rattle.vortex_stats.specs.Sets.Claims.{present};
ghost use Rattle.vortex_stats.specs.Stat.{stat_dtype};
ghost use Rattle.vortex_stats.specs.declared.stat.Stat.TheVariants.{Sum};
ghost use Rattle.vortex_stats.specs.declared.measure.pass.Family.TheVariants as families;

use crate::measure::measures::Measures;
use crate::measure::tally::Tally;
use vortex_base::array_data::ArrayData;
use vortex_base::column::Column;
use vortex_base::dtype::DType;
use vortex_base::native::Native;
use vortex_base::primitive_array::PrimitiveArray;
use vortex_base::pvalue::PValue;
use vortex_base::types::PType;
use vortex_base::utf8_array::Utf8Array;
use vortex_base::value_ref::ValueRef;

// By what the values of a type are compared.
#[derive(Clone, Copy)]
enum Family {
    /// Whole numbers that may be below zero.
    Signed,
    /// Whole numbers from zero on, and truths.
    Unsigned,
    Texts,
    Bytes,
    /// There are no values.
    Nulls,
}

fn family_of(dtype: DType) -> Family
    ensures { result ≡ type_family dtype }
{
    match dtype {
        DType::Bool(_) => Family::Unsigned,
        DType::Primitive(PType::U8 | PType::U16 | PType::U32 | PType::U64, _) => Family::Unsigned,
        DType::Primitive(PType::I8 | PType::I16 | PType::I32 | PType::I64, _) => Family::Signed,
        DType::Utf8(_) => Family::Texts,
        DType::Binary(_) => Family::Bytes,
        DType::Null | DType::MinMaxState(_, _) => Family::Nulls,
    }
}

// The number of an optional value that is a signed one.
#[inline]
fn signed_of_value(value: Option<ValueRef<'_>>) -> Option<i64>
    ensures { result ≡ signed_number (option_map value_of value.entry) }
{
    match value {
        Some(ValueRef::Primitive(PValue::I64(n))) => Some(n),
        Some(ValueRef::Primitive(PValue::I32(n))) => Some(i64::from(n)),
        Some(ValueRef::Primitive(PValue::I16(n))) => Some(i64::from(n)),
        Some(ValueRef::Primitive(PValue::I8(n))) => Some(i64::from(n)),
        _ => None,
    }
}

// The number of an optional value that is an unsigned one.
#[inline]
fn unsigned_of_value(value: Option<ValueRef<'_>>) -> Option<u64>
    ensures { result ≡ unsigned_number (option_map value_of value.entry) }
{
    match value {
        Some(ValueRef::Primitive(PValue::U64(n))) => Some(n),
        Some(ValueRef::Primitive(PValue::U32(n))) => Some(u64::from(n)),
        Some(ValueRef::Primitive(PValue::U16(n))) => Some(u64::from(n)),
        Some(ValueRef::Primitive(PValue::U8(n))) => Some(u64::from(n)),
        Some(ValueRef::Bool(truth)) => Some(u64::from(truth)),
        _ => None,
    }
}

// The number of an optional value of its own type that is a signed one.
#[inline]
fn signed_of_native<T: Native>(native: Option<T>) -> Option<i64>
    ensures { result ≡ signed_number (option_map T.scalar native) }
{
    match native {
        Some(native) => signed_of_value(Some(native.lend())),
        None => None,
    }
}

// The number of an optional value of its own type that is an unsigned one.
#[inline]
fn unsigned_of_native<T: Native>(native: Option<T>) -> Option<u64>
    ensures { result ≡ unsigned_number (option_map T.scalar native) }
{
    match native {
        Some(native) => unsigned_of_value(Some(native.lend())),
        None => None,
    }
}

// The text of an optional value that is one.
#[inline]
fn text_of(value: Option<ValueRef<'_>>) -> Option<&str>
    ensures { option_copied result ≡ value_text (option_map value_of value.entry) }
{
    match value {
        Some(ValueRef::Utf8(text)) => Some(text.as_str()),
        _ => None,
    }
}

// The bytes of an optional value that is a string of them.
#[inline]
fn bytes_of(value: Option<ValueRef<'_>>) -> Option<&[u8]>
    ensures { option_copied result ≡ value_bytes (option_map value_of value.entry) }
{
    match value {
        Some(ValueRef::Binary(bytes)) => Some(bytes.as_slice()),
        _ => None,
    }
}

// A sum of signed numbers as a number of the type of sums, where it is one.
fn signed_sum(sum: i128) -> Option<PValue>
    ensures { option_map value.Primitive result
        ≡ number_in (Some (types.Primitive ptypes.I64 Nullable)) sum }
{
    match i64::try_from(sum) {
        Ok(sum) => Some(PValue::I64(sum)),
        Err(_) => None,
    }
}

// A sum of unsigned numbers as a number of the type of sums, where it is one.
fn unsigned_sum(sum: u128) -> Option<PValue>
    ensures { option_map value.Primitive result
        ≡ number_in (Some (types.Primitive ptypes.U64 Nullable)) (pos sum) }
{
    match u64::try_from(sum) {
        Ok(sum) => Some(PValue::U64(sum)),
        Err(_) => None,
    }
}

// The measures of signed numbers that are kept as their type.
fn signed_natives<T: Native>(natives: &PrimitiveArray<T>, dtype: DType) -> Measures
    requires signed { type_family dtype ≡ families.Signed }
    requires fits { IsTrue (all_fit dtype (map (option_map T.scalar) natives.now)) }
    ensures { AreMeasuresOf result dtype (map (option_map T.scalar) natives.now) }
{
    // The type stands in the contract alone.
    let _ = dtype;
    let mut tally = Tally::new();
    let mut sum: i128 = 0;
    for i in 0..natives.len() {
        let number = signed_of_native(natives.get(i));
        sum += i128::from(number.unwrap_or(0));
        tally.push(number, i);
    }
    tally.measures(signed_sum(sum))
}

// The measures of signed numbers, in whichever form they are kept.
fn signed_values(column: &Column) -> Measures
    requires signed { type_family column.now.dtype ≡ families.Signed }
    requires fits { IsColumn column.now }
    ensures { AreMeasuresOf result column.now.dtype column.now.values }
{
    let mut tally = Tally::new();
    let mut sum: i128 = 0;
    for i in 0..column.len() {
        let number = signed_of_value(column.get(i));
        sum += i128::from(number.unwrap_or(0));
        tally.push(number, i);
    }
    tally.measures(signed_sum(sum))
}

// The measures of unsigned numbers and truths that are kept as their type.
fn unsigned_natives<T: Native>(natives: &PrimitiveArray<T>, dtype: DType) -> Measures
    requires unsigned { type_family dtype ≡ families.Unsigned }
    requires fits { IsTrue (all_fit dtype (map (option_map T.scalar) natives.now)) }
    ensures { AreMeasuresOf result dtype (map (option_map T.scalar) natives.now) }
{
    // The type stands in the contract alone.
    let _ = dtype;
    let mut tally = Tally::new();
    let mut sum: u128 = 0;
    for i in 0..natives.len() {
        let number = unsigned_of_native(natives.get(i));
        sum += u128::from(number.unwrap_or(0));
        tally.push(number, i);
    }
    tally.measures(unsigned_sum(sum))
}

// The measures of unsigned numbers and truths, in whichever form they are kept.
fn unsigned_values(column: &Column) -> Measures
    requires unsigned { type_family column.now.dtype ≡ families.Unsigned }
    requires fits { IsColumn column.now }
    ensures { AreMeasuresOf result column.now.dtype column.now.values }
{
    let mut tally = Tally::new();
    let mut sum: u128 = 0;
    for i in 0..column.len() {
        let number = unsigned_of_value(column.get(i));
        sum += u128::from(number.unwrap_or(0));
        tally.push(number, i);
    }
    tally.measures(unsigned_sum(sum))
}

// The measures of texts that are kept as such.
fn texts(texts: &Utf8Array, dtype: DType) -> Measures
    requires texts { type_family dtype ≡ families.Texts }
    requires fits { IsTrue (all_fit dtype (map text_value texts.now)) }
    ensures { AreMeasuresOf result dtype (map text_value texts.now) }
{
    // The type stands in the contract alone.
    let _ = dtype;
    let mut tally = Tally::new();
    for i in 0..texts.len() {
        tally.push(texts.get(i), i);
    }
    tally.measures(None)
}

// The measures of texts, in whichever form they are kept.
fn text_values(column: &Column) -> Measures
    requires texts { type_family column.now.dtype ≡ families.Texts }
    requires fits { IsColumn column.now }
    ensures { AreMeasuresOf result column.now.dtype column.now.values }
{
    let mut tally = Tally::new();
    for i in 0..column.len() {
        tally.push(text_of(column.get(i)), i);
    }
    tally.measures(None)
}

// The measures of strings of bytes, in whichever form they are kept.
fn bytes_values(column: &Column) -> Measures
    requires bytes { type_family column.now.dtype ≡ families.Bytes }
    requires fits { IsColumn column.now }
    ensures { AreMeasuresOf result column.now.dtype column.now.values }
{
    let mut tally = Tally::new();
    for i in 0..column.len() {
        tally.push(bytes_of(column.get(i)), i);
    }
    tally.measures(None)
}

// The measures of nulls alone.
fn nulls(count: usize, sum: Option<PValue>) -> Measures
    ensures { (t : DType) (xs : List (Option ScalarValue)) → length xs ≡ count → present xs ≡ []
        → option_map value.Primitive sum ≡ number_in (stat_dtype Sum t) (pos 0)
        → AreMeasuresOf result t xs }
{
    Measures {
        nulls: count,
        is_constant: true,
        is_sorted: true,
        is_strict_sorted: true,
        greatest: None,
        least: None,
        sum,
    }
}

// The measures of a column of signed numbers.
fn signed(column: &Column) -> Measures
    requires signed { type_family column.now.dtype ≡ families.Signed }
    requires fits { IsColumn column.now }
    ensures { AreMeasuresOf result column.now.dtype column.now.values }
{
    let dtype = column.dtype();
    match column.cells() {
        ArrayData::I64(natives) => signed_natives(natives, dtype),
        ArrayData::I32(natives) => signed_natives(natives, dtype),
        ArrayData::I16(natives) => signed_natives(natives, dtype),
        ArrayData::I8(natives) => signed_natives(natives, dtype),
        _ => signed_values(column),
    }
}

// The measures of a column of unsigned numbers or truths.
fn unsigned(column: &Column) -> Measures
    requires unsigned { type_family column.now.dtype ≡ families.Unsigned }
    requires fits { IsColumn column.now }
    ensures { AreMeasuresOf result column.now.dtype column.now.values }
{
    let dtype = column.dtype();
    match column.cells() {
        ArrayData::U64(natives) => unsigned_natives(natives, dtype),
        ArrayData::U32(natives) => unsigned_natives(natives, dtype),
        ArrayData::U16(natives) => unsigned_natives(natives, dtype),
        ArrayData::U8(natives) => unsigned_natives(natives, dtype),
        ArrayData::Bool(natives) => unsigned_natives(natives, dtype),
        _ => unsigned_values(column),
    }
}

// The measures of a column of texts.
fn of_texts(column: &Column) -> Measures
    requires texts { type_family column.now.dtype ≡ families.Texts }
    requires fits { IsColumn column.now }
    ensures { AreMeasuresOf result column.now.dtype column.now.values }
{
    let dtype = column.dtype();
    match column.cells() {
        ArrayData::Utf8(list) => texts(list, dtype),
        _ => text_values(column),
    }
}

// The measures of a column, by one pass over its values.
pub(super) fn measures_of(column: &Column) -> Measures
    ensures measures { AreMeasuresOf result column.now.dtype column.now.values }
    ensures is_column { IsColumn column.now }
{
    match family_of(column.dtype()) {
        Family::Signed => signed(column),
        Family::Unsigned => unsigned(column),
        Family::Texts => of_texts(column),
        Family::Bytes => bytes_values(column),
        Family::Nulls => nulls(column.len(), None),
    }
}
