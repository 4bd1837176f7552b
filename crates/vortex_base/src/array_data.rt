//! The values of a column as they are kept: nulls, truths, numbers and texts in forms of their own.
ghost use Rattle.std.specs.Prelude.{◌≡◌, ◌≢◌, ◌<◌, ◌+◌, ◌++◌, ◌∷◌, [], IfOk, IfSome, MatchOption, None, OnErr, OnOk, Option, Some, length, map, option_copied, option_map, false, replicate, slice_get, slice_set, take};
ghost use Rattle.vortex_base.specs.Data.ArrayData.{bytes_value, cell_values, short_value, text_value, value_of, IsOfOtherForm};
ghost use Rattle.vortex_base.specs.Data.Columns.{all_fit, value_at};
ghost use Rattle.vortex_base.specs.Data.Types.{has_null_alone};
ghost use Rattle.vortex_base.specs.declared.scalar_value.ScalarValue.TheVariants as value;

use crate::dtype::DType;
use crate::match_each_native;
use crate::native::Native;
use crate::nulls::Nulls;
use crate::primitive_array::PrimitiveArray;
use crate::pvalue::PValue;
use crate::scalar_value::ScalarValue;
use crate::types::PType;
use crate::utf8_array::{TextRef, Utf8Array};
use crate::value_ref::{ValueRef, fits, lend};
use crate::var_bin_array::{BytesRef, VarBinArray};
use std::alloc::{AllocError, Global};

/// A truth, a number or null.
#[derive(Clone, Copy, Debug)]
pub enum PrimitiveScalar {
    Null,
    Bool(bool),
    U8(u8),
    U16(u16),
    U32(u32),
    U64(u64),
    I8(i8),
    I16(i16),
    I32(i32),
    I64(i64),
}

/// Optional values in order, `None` being null.
#[derive(Debug, Drop)]
pub enum ArrayData {
    /// Values of any kind.
    Any(Vec<Option<ScalarValue>>),
    /// Nulls alone.
    Nulls(Nulls),
    Bool(PrimitiveArray<bool>),
    U8(PrimitiveArray<u8>),
    U16(PrimitiveArray<u16>),
    U32(PrimitiveArray<u32>),
    U64(PrimitiveArray<u64>),
    I8(PrimitiveArray<i8>),
    I16(PrimitiveArray<i16>),
    I32(PrimitiveArray<i32>),
    I64(PrimitiveArray<i64>),
    Utf8(Utf8Array),
    Binary(VarBinArray),
}

impl PrimitiveScalar {
    /// The cell of a number.
    #[inline]
    pub fn of_number(number: PValue) -> PrimitiveScalar
        ensures { short_value result ≡ Some (value.Primitive number) }
    {
        match number {
            PValue::U8(n) => PrimitiveScalar::U8(n),
            PValue::U16(n) => PrimitiveScalar::U16(n),
            PValue::U32(n) => PrimitiveScalar::U32(n),
            PValue::U64(n) => PrimitiveScalar::U64(n),
            PValue::I8(n) => PrimitiveScalar::I8(n),
            PValue::I16(n) => PrimitiveScalar::I16(n),
            PValue::I32(n) => PrimitiveScalar::I32(n),
            PValue::I64(n) => PrimitiveScalar::I64(n),
        }
    }

    /// The optional value, lent.
    #[inline]
    pub fn lend<'a>(self) -> Option<ValueRef<'a>>
        ensures { option_map value_of result ≡ short_value self }
    {
        let number = match self {
            PrimitiveScalar::Null => return None,
            PrimitiveScalar::Bool(truth) => return Some(ValueRef::Bool(truth)),
            PrimitiveScalar::U8(n) => PValue::U8(n),
            PrimitiveScalar::U16(n) => PValue::U16(n),
            PrimitiveScalar::U32(n) => PValue::U32(n),
            PrimitiveScalar::U64(n) => PValue::U64(n),
            PrimitiveScalar::I8(n) => PValue::I8(n),
            PrimitiveScalar::I16(n) => PValue::I16(n),
            PrimitiveScalar::I32(n) => PValue::I32(n),
            PrimitiveScalar::I64(n) => PValue::I64(n),
        };
        Some(ValueRef::Primitive(number))
    }

    // The optional value.
    fn value(self) -> Option<ScalarValue>
        ensures { result ≡ short_value self }
    {
        match self.lend() {
            None => None,
            Some(ValueRef::Bool(truth)) => Some(ScalarValue::Bool(truth)),
            Some(ValueRef::Primitive(number)) => Some(ScalarValue::Primitive(number)),
            Some(ValueRef::Utf8(_) | ValueRef::Binary(_)) => unreachable!(),
        }
    }
}

// Returns an optional value, and `None` only where it is a value of another type.
#[inline]
fn native_of<T: Native>(value: &Option<ScalarValue>) -> Option<Option<T>>
    ensures { MatchOption result ((native : Option T) → option_map T.scalar native ≢ value.now)
        (λ native. option_map T.scalar native ≡ value.now) }
{
    match value {
        None => Some(None),
        Some(value) => match T::of_value(value) {
            Some(native) => Some(Some(native)),
            None => None,
        },
    }
}

// The value at a place, lent; `None` for null and past the end.
#[inline]
fn lend_native<'a, T: Native>(natives: &PrimitiveArray<T>, i: usize) -> Option<ValueRef<'a>>
    ensures { option_map value_of result
        ≡ value_at (slice_get (map (option_map T.scalar) natives.now) i) }
{
    match natives.get(i) {
        Some(native) => Some(native.lend()),
        None => None,
    }
}

// Whether each optional truth or number may stand under a type.
fn all_natives_fit<T: Native>(natives: &PrimitiveArray<T>, dtype: &DType) -> bool
    ensures { result ≡ all_fit dtype.now (map (option_map T.scalar) natives.now) }
{
    for i in 0..natives.len() {
        if !fits(lend_native(natives, i), dtype) {
            return false;
        }
    }
    true
}

// Puts an optional truth or number in the place of another.
#[inline]
fn set_native<T: Native>(natives: &mut PrimitiveArray<T>, place: usize, native: Option<T>)
    requires { place < length (map (option_map T.scalar) natives.old) }
    ensures { map (option_map T.scalar) natives.new
        ≡ slice_set (map (option_map T.scalar) natives.old) place (option_map T.scalar native) }
{
    natives.set(place, native);
}

// A column of `count` nulls of a type that can be set.
fn null_natives<T: Native>(alloc: Global, count: usize) -> Result<ArrayData, AllocError>
    ensures { IfOk result (λ cells. cell_values cells ≡ replicate count None) }
{
    Ok(T::into_cells(PrimitiveArray::nulls(alloc, count)?))
}

// No values of a type yet, with room for some.
fn room_for<T: Native>(alloc: Global, count: usize) -> Result<ArrayData, AllocError>
    ensures empty { IfOk result (λ cells. cell_values cells ≡ []) }
    ensures memory { OnErr result (0 < count) }
{
    Ok(T::into_cells(PrimitiveArray::with_capacity(alloc, count)?))
}

// The text of an optional value that is null or one.
#[inline]
fn text_of(value: &Option<ScalarValue>) -> Option<Option<&str>>
    ensures { IfSome result (λ text. text_value (option_copied text) ≡ value.entry.now) }
{
    match value {
        None => Some(None),
        Some(ScalarValue::Utf8(text)) => Some(Some(text.as_str())),
        _ => None,
    }
}

// The bytes of an optional value that is null or a byte string.
#[inline]
fn bytes_of(value: &Option<ScalarValue>) -> Option<Option<&[u8]>>
    ensures { IfSome result (λ bytes. bytes_value (option_copied bytes) ≡ value.entry.now) }
{
    match value {
        None => Some(None),
        Some(ScalarValue::Binary(bytes)) => Some(Some(bytes.as_slice())),
        _ => None,
    }
}

// The text at a place, lent; `None` for null and past the end.
#[inline]
fn lend_text(texts: &Utf8Array, i: usize) -> Option<ValueRef<'_>>
    ensures { option_map value_of result ≡ value_at (slice_get (map text_value texts.now) i) }
{
    match texts.get(i) {
        Some(text) => Some(ValueRef::Utf8(TextRef::new(text, texts.allocator()))),
        None => None,
    }
}

// The byte string at a place, lent; `None` for null and past the end.
#[inline]
fn lend_bytes(blobs: &VarBinArray, i: usize) -> Option<ValueRef<'_>>
    ensures { option_map value_of result ≡ value_at (slice_get (map bytes_value blobs.now) i) }
{
    match blobs.get(i) {
        Some(bytes) => Some(ValueRef::Binary(BytesRef::new(bytes, blobs.allocator()))),
        None => None,
    }
}

// Whether each optional text may stand under a type.
fn all_texts_fit(texts: &Utf8Array, dtype: &DType) -> bool
    ensures { result ≡ all_fit dtype.now (map text_value texts.now) }
{
    for i in 0..texts.len() {
        if !fits(lend_text(texts, i), dtype) {
            return false;
        }
    }
    true
}

// Whether each optional byte string may stand under a type.
fn all_bytes_fit(blobs: &VarBinArray, dtype: &DType) -> bool
    ensures { result ≡ all_fit dtype.now (map bytes_value blobs.now) }
{
    for i in 0..blobs.len() {
        if !fits(lend_bytes(blobs, i), dtype) {
            return false;
        }
    }
    true
}

// A copy of an optional value that is lent.
fn copied(value: Option<ValueRef<'_>>) -> Result<Option<ScalarValue>, AllocError>
    ensures { IfOk result (λ copy. copy ≡ option_map value_of value.entry) }
{
    match value {
        Some(value) => Ok(Some(value.to_value()?)),
        None => Ok(None),
    }
}

impl ArrayData {
    /// No values yet, of a type that they will have.
    pub fn new(alloc: Global, dtype: DType) -> ArrayData
        ensures { cell_values result ≡ [] }
    {
        match dtype {
            DType::Null | DType::MinMaxState(_, _) => ArrayData::Nulls(Nulls::new(alloc, 0)),
            DType::Bool(_) => ArrayData::Bool(PrimitiveArray::new(alloc)),
            DType::Utf8(_) => ArrayData::Utf8(Utf8Array::new(alloc)),
            DType::Binary(_) => ArrayData::Binary(VarBinArray::new(alloc)),
            DType::Primitive(ptype, _) => match ptype {
                PType::U8 => ArrayData::U8(PrimitiveArray::new(alloc)),
                PType::U16 => ArrayData::U16(PrimitiveArray::new(alloc)),
                PType::U32 => ArrayData::U32(PrimitiveArray::new(alloc)),
                PType::U64 => ArrayData::U64(PrimitiveArray::new(alloc)),
                PType::I8 => ArrayData::I8(PrimitiveArray::new(alloc)),
                PType::I16 => ArrayData::I16(PrimitiveArray::new(alloc)),
                PType::I32 => ArrayData::I32(PrimitiveArray::new(alloc)),
                PType::I64 => ArrayData::I64(PrimitiveArray::new(alloc)),
            },
        }
    }

    /// No cells yet of a type, with room for some values. Memory is taken only for room, and none
    /// for nulls alone.
    pub fn with_capacity(alloc: Global, dtype: DType, count: usize) -> Result<ArrayData, AllocError>
        ensures empty { IfOk result (λ cells. cell_values cells ≡ []) }
        ensures memory { OnErr result (has_null_alone dtype ≡ false) }
        ensures room { OnErr result (0 < count) }
    {
        match dtype {
            DType::Null | DType::MinMaxState(_, _) => Ok(ArrayData::Nulls(Nulls::new(alloc, 0))),
            DType::Bool(_) => room_for::<bool>(alloc, count),
            DType::Utf8(_) => Ok(ArrayData::Utf8(Utf8Array::with_capacity(alloc, count)?)),
            DType::Binary(_) => Ok(ArrayData::Binary(VarBinArray::with_capacity(alloc, count)?)),
            DType::Primitive(ptype, _) => match ptype {
                PType::U8 => room_for::<u8>(alloc, count),
                PType::U16 => room_for::<u16>(alloc, count),
                PType::U32 => room_for::<u32>(alloc, count),
                PType::U64 => room_for::<u64>(alloc, count),
                PType::I8 => room_for::<i8>(alloc, count),
                PType::I16 => room_for::<i16>(alloc, count),
                PType::I32 => room_for::<i32>(alloc, count),
                PType::I64 => room_for::<i64>(alloc, count),
            },
        }
    }

    /// A column of `count` nulls of a type, in whose place its values can be set in no more memory.
    pub fn nulls(alloc: Global, dtype: DType, count: usize) -> Result<ArrayData, AllocError>
        ensures { IfOk result (λ cells. cell_values cells ≡ replicate count None) }
    {
        match dtype {
            DType::Null | DType::MinMaxState(_, _) => Ok(ArrayData::Nulls(Nulls::new(
                alloc, count,
            ))),
            DType::Bool(_) => null_natives::<bool>(alloc, count),
            DType::Utf8(_) | DType::Binary(_) => {
                Ok(ArrayData::Any(ArrayData::Nulls(Nulls::new(alloc, count)).widened()?))
            }
            DType::Primitive(ptype, _) => match ptype {
                PType::U8 => null_natives::<u8>(alloc, count),
                PType::U16 => null_natives::<u16>(alloc, count),
                PType::U32 => null_natives::<u32>(alloc, count),
                PType::U64 => null_natives::<u64>(alloc, count),
                PType::I8 => null_natives::<i8>(alloc, count),
                PType::I16 => null_natives::<i16>(alloc, count),
                PType::I32 => null_natives::<i32>(alloc, count),
                PType::I64 => null_natives::<i64>(alloc, count),
            },
        }
    }

    // Drops the values behind the first ones of this number.
    pub(crate) fn truncate(&mut self, len: usize)
        ensures { cell_values self.new ≡ take len (cell_values self.old) }
    {
        match_each_native!(self, natives => natives.truncate(len),
            ArrayData::Any(values) => values.truncate(len),
            ArrayData::Nulls(nulls) => nulls.truncate(len),
            ArrayData::Utf8(texts) => texts.truncate(len),
            ArrayData::Binary(blobs) => blobs.truncate(len))
    }

    // Adds copies of the values of other cells one by one. If memory is refused, the values are as
    // they were.
    fn push_each(&mut self, others: &ArrayData) -> Result<(), AllocError>
        ensures pushed { OnOk result
            (cell_values self.new ≡ cell_values self.old ++ cell_values others.now) }
        ensures refused { OnErr result (cell_values self.new ≡ cell_values self.old) }
    {
        let len = self.len();
        for i in 0..others.len() {
            if let Err(refused) = self.push_lent(others.value_at(i)) {
                self.truncate(len);
                return Err(refused);
            }
        }
        Ok(())
    }

    // Adds copies of the values of other cells, those of cells of the same form all at once. If
    // memory is refused, the values are as they were.
    #[tactic(auto, using(crate::proofs::Data::CellLemmas::more_nulls))]
    pub(crate) fn extend_from(&mut self, others: &ArrayData) -> Result<(), AllocError>
        ensures extended { OnOk result
            (cell_values self.new ≡ cell_values self.old ++ cell_values others.now) }
        ensures refused { OnErr result (cell_values self.new ≡ cell_values self.old) }
    {
        match_each_native!(self,
            natives => if let Some(others) = Native::of_cells(others) {
                return natives.extend_from(others);
            },
            ArrayData::Any(_) => {},
            ArrayData::Nulls(nulls) => if let ArrayData::Nulls(others) = others {
                return nulls.extend_from(others);
            },
            ArrayData::Utf8(texts) => if let ArrayData::Utf8(others) = others {
                return texts.extend_from(others);
            },
            ArrayData::Binary(blobs) => if let ArrayData::Binary(others) = others {
                return blobs.extend_from(others);
            });
        self.push_each(others)
    }

    /// Gives back the room that no value takes.
    pub fn shrink_to_fit(&mut self)
        ensures { cell_values self.new ≡ cell_values self.old }
    {
        match_each_native!(self, natives => natives.shrink_to_fit(),
            ArrayData::Any(values) => values.shrink_to_fit(),
            ArrayData::Nulls(_) => {},
            ArrayData::Utf8(texts) => texts.shrink_to_fit(),
            ArrayData::Binary(blobs) => blobs.shrink_to_fit())
    }

    /// The number of values.
    #[inline]
    pub fn len(&self) -> usize
        ensures { result ≡ length (cell_values self.now) }
    {
        match_each_native!(self, natives => natives.len(),
            ArrayData::Any(values) => values.len(),
            ArrayData::Nulls(nulls) => nulls.count(),
            ArrayData::Utf8(texts) => texts.len(),
            ArrayData::Binary(blobs) => blobs.len())
    }

    // The value at a place, lent; `None` for null and past the end.
    #[inline]
    pub(crate) fn value_at(&self, i: usize) -> Option<ValueRef<'_>>
        ensures { option_map value_of result ≡ value_at (slice_get (cell_values self.now) i) }
    {
        match_each_native!(self, natives => lend_native(natives, i),
            ArrayData::Any(values) => match values.get(i) {
                None => None,
                Some(value) => lend(value.as_ref()),
            },
            ArrayData::Nulls(_) => None,
            ArrayData::Utf8(texts) => lend_text(texts, i),
            ArrayData::Binary(blobs) => lend_bytes(blobs, i))
    }

    /// Whether each value may stand under the type: it fits the type, or it is null and the type
    /// has null.
    pub fn fits(&self, dtype: &DType) -> bool
        ensures { result ≡ all_fit dtype.now (cell_values self.now) }
    {
        match_each_native!(self, natives => all_natives_fit(natives, dtype),
            ArrayData::Any(values) => values.iter().all(|value| fits(lend(value.as_ref()), dtype)),
            ArrayData::Nulls(nulls) => nulls.count() == 0 || dtype.is_nullable(),
            ArrayData::Utf8(texts) => all_texts_fit(texts, dtype),
            ArrayData::Binary(blobs) => all_bytes_fit(blobs, dtype))
    }

    // The allocator of the values.
    fn allocator(&self) -> Global {
        match_each_native!(self, natives => natives.allocator(),
            ArrayData::Any(values) => *values.allocator(),
            ArrayData::Nulls(nulls) => nulls.allocator(),
            ArrayData::Utf8(texts) => texts.allocator(),
            ArrayData::Binary(blobs) => blobs.allocator())
    }

    // Copies of the values, as values of any kind.
    #[inline(never)]
    fn widened(&self) -> Result<Vec<Option<ScalarValue>>, AllocError>
        ensures { IfOk result (λ v. v.items ≡ cell_values self.now) }
    {
        let mut values = Vec::with_capacity(self.allocator(), self.len())?;
        for i in 0..self.len() {
            values.push(copied(self.value_at(i))?)?;
        }
        Ok(values)
    }

    // Adds a value of another kind than the cells are kept as.
    #[inline(never)]
    fn push_any(&mut self, value: Option<ScalarValue>) -> Result<(), AllocError>
        ensures pushed { OnOk result (cell_values self.new ≡ cell_values self.old ++ value ∷ []) }
        ensures refused { OnErr result (cell_values self.new ≡ cell_values self.old) }
    {
        let mut values = self.widened()?;
        values.push(value)?;
        *self = ArrayData::Any(values);
        Ok(())
    }

    /// Adds a value. If memory is refused, the values are as they were.
    #[inline]
    pub fn push(&mut self, value: Option<ScalarValue>) -> Result<(), AllocError>
        ensures pushed { OnOk result (cell_values self.new ≡ cell_values self.old ++ value ∷ []) }
        ensures refused { OnErr result (cell_values self.new ≡ cell_values self.old) }
    {
        match_each_native!(self,
            natives => if let Some(native) = native_of(&value) {
                return natives.push(native);
            },
            ArrayData::Any(values) => return Ok(values.push(value)?),
            ArrayData::Nulls(nulls) => if value.is_none() {
                return nulls.push();
            },
            ArrayData::Utf8(texts) => if let Some(text) = text_of(&value) {
                return texts.push(text);
            },
            ArrayData::Binary(blobs) => if let Some(bytes) = bytes_of(&value) {
                return blobs.push(bytes);
            });
        self.push_any(value)
    }

    /// Adds a copy of a value that is lent. If memory is refused, the values are as they were. A
    /// text or bytes are copied into the heap of the others.
    #[inline]
    pub fn push_lent(&mut self, value: Option<ValueRef<'_>>) -> Result<(), AllocError>
        ensures pushed { OnOk result
            (cell_values self.new ≡ cell_values self.old ++ option_map value_of value.entry ∷ []) }
        ensures refused { OnErr result (cell_values self.new ≡ cell_values self.old) }
    {
        match (&mut *self, value) {
            (ArrayData::Utf8(texts), Some(ValueRef::Utf8(text))) => {
                return texts.push(Some(text.as_str()));
            }
            (ArrayData::Binary(blobs), Some(ValueRef::Binary(bytes))) => {
                return blobs.push(Some(bytes.as_slice()));
            }
            _ => {}
        }
        let copy = copied(value)?;
        self.push(copy)
    }

    /// Adds a truth, a number or null. If memory is refused, the values are as they were.
    #[inline]
    pub fn push_cell(&mut self, cell: PrimitiveScalar) -> Result<(), AllocError>
        ensures pushed { OnOk result
            (cell_values self.new ≡ cell_values self.old ++ short_value cell ∷ []) }
        ensures refused { OnErr result (cell_values self.new ≡ cell_values self.old) }
    {
        match_each_native!(self,
            natives => if let Some(native) = Native::of_cell(cell) {
                return natives.push(native);
            },
            _ => {});
        self.push(cell.value())
    }

    // Puts a value in the place of another, of another kind than the cells are kept as.
    #[inline(never)]
    fn set_any(&mut self, place: usize, value: Option<ScalarValue>) -> Result<(), AllocError>
        requires { place < length (cell_values self.old) }
        ensures set { OnOk result
            (cell_values self.new ≡ slice_set (cell_values self.old) place value) }
        ensures refused { OnErr result (cell_values self.new ≡ cell_values self.old) }
    {
        let mut values = self.widened()?;
        values[place] = value;
        *self = ArrayData::Any(values);
        Ok(())
    }

    /// Puts a value in the place of another. If memory is refused, the values are as they were;
    /// none is taken for a value of the kind that the cells are kept as.
    #[inline]
    pub fn set(&mut self, place: usize, value: Option<ScalarValue>) -> Result<(), AllocError>
        requires { place < length (cell_values self.old) }
        ensures set { OnOk result
            (cell_values self.new ≡ slice_set (cell_values self.old) place value) }
        ensures refused { OnErr result (cell_values self.new ≡ cell_values self.old) }
        ensures memory { OnErr result (IsOfOtherForm self.old value) }
    {
        match_each_native!(self,
            natives => if let Some(native) = native_of(&value) {
                set_native(natives, place, native);
                return Ok(());
            },
            ArrayData::Any(values) => {
                values[place] = value;
                return Ok(());
            },
            _ => {});
        self.set_any(place, value)
    }

    /// Puts a truth, a number or null in the place of a value. If memory is refused, the values are
    /// as they were; none is taken for a value of the kind that the cells are kept as.
    #[inline]
    pub fn set_cell(&mut self, place: usize, cell: PrimitiveScalar) -> Result<(), AllocError>
        requires { place < length (cell_values self.old) }
        ensures set { OnOk result
            (cell_values self.new ≡ slice_set (cell_values self.old) place (short_value cell)) }
        ensures refused { OnErr result (cell_values self.new ≡ cell_values self.old) }
        ensures memory { OnErr result (IsOfOtherForm self.old (short_value cell)) }
    {
        match_each_native!(self,
            natives => if let Some(native) = Native::of_cell(cell) {
                set_native(natives, place, native);
                return Ok(());
            },
            _ => {});
        self.set(place, cell.value())
    }
}
