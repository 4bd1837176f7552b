//! A column that still takes values.
ghost use Rattle.std.specs.Prelude.{◌≡◌, ◌<◌, ◌≤◌, ◌+◌, ◌-◌, ◌∷◌, [], All, IfOk, IfSome, MatchOption, OnOk, drop, length, map, option_map};
ghost use Rattle.vortex_base.specs.Data.ArrayData.{bytes_value, cell_values, short_value, text_value};
ghost use Rattle.vortex_base.specs.Data.Columns.{IsColumn};
ghost use Rattle.vortex_base.specs.declared.dtype.DType.TheVariants as dtype;
ghost use Rattle.vortex_syntax.specs.Fails.{Changes, GivesAndChanges};
ghost use Rattle.vortex_syntax.specs.Words.{words};
ghost use Rattle.vortex_text.specs.Columns.{taken, with_value, with_values};
ghost use Rattle.vortex_text.specs.FirstLines.{AddsValue, BeginsOnly, LeavesBytes, TakesRows, TakesValue, first_row, open_column};

use std::alloc::{AllocError, Global};
use std::marker::Model;
use vortex_base::array_data::{ArrayData, PrimitiveScalar};
use vortex_base::column::Column;
use vortex_base::dtype::DType;
use vortex_base::native::Native;
use vortex_base::primitive_array::PrimitiveArray;
use vortex_base::scalar_value::ScalarValue;
use vortex_base::types::{Nullability, PType};
use vortex_base::utf8_array::Utf8Array;
use vortex_base::var_bin_array::VarBinArray;
use vortex_syntax::expected::Expected;
use vortex_syntax::line_error::LineError;
use vortex_syntax::plain::{
    behind_row, plain_bytes, plain_cell, plain_null, plain_text, plain_value,
};
use vortex_syntax::value::optional_value_of;
use vortex_syntax::word::{first_word, no_word};

// Whether a type stands before another one.
#[inline(always)]
fn is_before(ptype: PType, other: PType) -> bool {
    (ptype as u8) < (other as u8)
}

// Does something with the values of cells in the form of a type of numbers, and that type, or else
// something other. The type is found by a few tests, which are foreseen where a jump by a table of
// all types isn't, as on a processor that guards against Spectre.
macro_rules! match_number_type {
    ($cells:expr, $ptype:expr, $natives:ident, $own:ident => $each:expr, $other:expr) => {
        if is_before($ptype, PType::I8) {
            if is_before($ptype, PType::U32) {
                number_type_of!($cells, $ptype, $natives, $own => $each, $other, U8, U16)
            } else {
                number_type_of!($cells, $ptype, $natives, $own => $each, $other, U32, U64)
            }
        } else if is_before($ptype, PType::I32) {
            number_type_of!($cells, $ptype, $natives, $own => $each, $other, I8, I16)
        } else {
            number_type_of!($cells, $ptype, $natives, $own => $each, $other, I32, I64)
        }
    };
}

// Matches cells of one of two types of numbers.
macro_rules! number_type_of {
    (
        $cells:expr, $ptype:expr, $natives:ident, $own:ident => $each:expr, $other:expr,
        $first:ident, $last:ident
    ) => {
        match ($cells, $ptype) {
            (ArrayData::$first($natives), PType::$first) => {
                let $own = PType::$first;
                $each
            }
            (ArrayData::$last($natives), PType::$last) => {
                let $own = PType::$last;
                $each
            }
            _ => $other,
        }
    };
}

/// The values of a column so far. Its declared size is 0.
#[derive(Debug, Drop)]
pub struct ColumnBuilder {
    dtype: DType,
    cells: ArrayData,
    // Where bytes are put together that go into the cells.
    scratch: Vec<u8>,
}

impl Model for ColumnBuilder {
    ghost use Rattle.vortex_base.specs.Data.ArrayData.{cell_values};
    ghost use Rattle.vortex_base.specs.Data.Columns.{ColumnData};

    ghost Value = { ColumnData };

    ghost view = { λ c. record { dtype = c.dtype; values = cell_values c.cells; size = 0 } };
}

// Adds the truth or number in plain form of a type that a text begins with, behind a space, to
// values that are kept as that type.
#[inline(always)]
fn take_native<'a, T: Native>(
    natives: &mut PrimitiveArray<T>,
    dtype: DType,
    text: &'a [u8],
) -> Option<&'a [u8]>
    ensures taken { MatchOption result (natives.new ≡ natives.old)
        (λ rest. AddsValue dtype (map (option_map T.scalar) natives.old) text.now
        (map (option_map T.scalar) natives.new) rest.now) }
    ensures shorter { IfSome result (λ rest. length rest.now < length text.now) }
{
    let (cell, rest) = plain_value(dtype, text)?;
    let native = T::of_cell(cell)?;
    match natives.push(native) {
        Ok(()) => Some(rest),
        Err(AllocError) => None,
    }
}

// The truth, the number or the null that stands in the row that a text begins with, where there is
// one column, and what follows the row's line. None where the row isn't in plain form.
#[inline(always)]
fn only_value(dtype: DType, text: &[u8]) -> Option<(PrimitiveScalar, &[u8])>
    ensures value { IfSome result (λ x. BeginsOnly dtype text.now (short_value x.0) x.1.now) }
    ensures shorter { IfSome result (λ x. length x.1.now < length text.now) }
{
    let (cell, rest) = plain_cell(dtype, behind_row(text)?)?;
    match rest {
        [b'\n', after @ ..] => Some((cell, after)),
        _ => None,
    }
}

// Adds the values of the rows in plain form that a text begins with to the only column, which is
// kept as a type. How many rows those are comes back, and what follows them.
#[inline(always)]
fn take_native_rows<'a, T: Native>(
    natives: &mut PrimitiveArray<T>,
    dtype: DType,
    text: &'a [u8],
) -> (usize, &'a [u8])
    ensures rows { TakesRows first_row result.0
        (open_column dtype (map (option_map T.scalar) natives.old) ∷ []) text.now
        (open_column dtype (map (option_map T.scalar) natives.new) ∷ []) result.1.now }
    ensures bytes { result.0 + length result.1.now ≤ length text.now }
{
    let mut rest = text;
    let mut count = 0;
    while let Some((cell, after)) = only_value(dtype, rest) {
        let Some(native) = T::of_cell(cell) else {
            break;
        };
        let Ok(()) = natives.push(native) else {
            break;
        };
        rest = after;
        count += 1;
    }
    (count, rest)
}

// Adds the numbers of the rows in plain form that a text begins with.
#[inline(always)]
fn take_number_rows<'a, T: Native>(
    natives: &mut PrimitiveArray<T>,
    ptype: PType,
    nullability: Nullability,
    text: &'a [u8],
) -> (usize, &'a [u8])
    ensures rows { let dtype = dtype.Primitive ptype nullability in
        TakesRows first_row result.0
        (open_column dtype (map (option_map T.scalar) natives.old) ∷ []) text.now
        (open_column dtype (map (option_map T.scalar) natives.new) ∷ []) result.1.now }
    ensures bytes { result.0 + length result.1.now ≤ length text.now }
{
    take_native_rows(natives, DType::Primitive(ptype, nullability), text)
}

// Adds numbers so where the column has the form of its type of numbers; else no rows.
#[inline(always)]
fn take_own_number_rows<'a>(
    cells: &mut ArrayData,
    ptype: PType,
    nullability: Nullability,
    text: &'a [u8],
) -> (usize, &'a [u8])
    ensures rows { let dtype = dtype.Primitive ptype nullability in
        TakesRows first_row result.0 (open_column dtype (cell_values cells.old) ∷ [])
        text.now (open_column dtype (cell_values cells.new) ∷ []) result.1.now }
    ensures bytes { result.0 + length result.1.now ≤ length text.now }
{
    match_number_type!(cells, ptype,
        natives, own => take_number_rows(natives, own, nullability, text),
        (0, text))
}

// Adds the values of the rows in plain form that a text begins with to the only column, where it
// has the form of a type of numbers or truths. How many rows those are comes back, and what follows
// them: no rows where the column has another form.
#[inline(never)]
fn take_own_rows<'a>(cells: &mut ArrayData, dtype: DType, text: &'a [u8]) -> (usize, &'a [u8])
    ensures rows { TakesRows first_row result.0 (open_column dtype (cell_values cells.old) ∷ [])
        text.now (open_column dtype (cell_values cells.new) ∷ []) result.1.now }
    ensures bytes { result.0 + length result.1.now ≤ length text.now }
{
    if let DType::Primitive(ptype, nullability) = dtype {
        return take_own_number_rows(cells, ptype, nullability, text);
    }
    match (cells, dtype) {
        (ArrayData::Bool(v), DType::Bool(n)) => take_native_rows(v, DType::Bool(n), text),
        _ => (0, text),
    }
}

// Adds the number in plain form that a text begins with, behind a space.
#[inline(always)]
fn take_number<'a, T: Native>(
    natives: &mut PrimitiveArray<T>,
    ptype: PType,
    nullability: Nullability,
    text: &'a [u8],
) -> Option<&'a [u8]>
    ensures taken { MatchOption result (natives.new ≡ natives.old)
        (λ rest. AddsValue (dtype.Primitive ptype nullability)
        (map (option_map T.scalar) natives.old) text.now
        (map (option_map T.scalar) natives.new) rest.now) }
    ensures shorter { IfSome result (λ rest. length rest.now < length text.now) }
{
    take_native(natives, DType::Primitive(ptype, nullability), text)
}

// Adds the text in plain form of a type that another begins with, behind a space. How many bytes
// are left comes back.
#[inline(never)]
fn take_text(texts: &mut Utf8Array, dtype: DType, text: &[u8]) -> Option<usize>
    ensures taken { MatchOption result (texts.new ≡ texts.old)
        (λ left. LeavesBytes left text.now (λ rest. AddsValue dtype (map text_value texts.old)
        text.now (map text_value texts.new) rest)) }
{
    let (quoted, rest) = plain_text(dtype, text)?;
    match texts.push(Some(quoted)) {
        Ok(()) => Some(rest.len()),
        Err(AllocError) => None,
    }
}

// Adds the bytes in plain form of a type that a text begins with, behind a space. How many bytes of
// the text are left comes back.
#[inline(never)]
fn take_bytes(
    blobs: &mut VarBinArray,
    scratch: &mut Vec<u8>,
    dtype: DType,
    text: &[u8],
) -> Option<usize>
    ensures taken { MatchOption result (blobs.new ≡ blobs.old)
        (λ left. LeavesBytes left text.now (λ rest. AddsValue dtype (map bytes_value blobs.old)
        text.now (map bytes_value blobs.new) rest)) }
{
    let Ok(Some(rest)) = plain_bytes(dtype, text, scratch) else {
        return None;
    };
    match blobs.push(Some(scratch.as_slice())) {
        Ok(()) => Some(rest.len()),
        Err(AllocError) => None,
    }
}

// The last bytes of a text, so many.
#[inline(always)]
fn last_bytes(text: &[u8], left: usize) -> &[u8]
    requires { left ≤ length text.now }
    ensures { result.now ≡ drop (length text.now - left) text.now }
{
    &text[text.len() - left..]
}

// Adds the number in plain form of a type that a text begins with, behind a space, to cells in the
// form of that type.
#[inline(always)]
fn take_own_number<'a>(
    cells: &mut ArrayData,
    ptype: PType,
    nullability: Nullability,
    text: &'a [u8],
) -> Option<&'a [u8]>
    ensures taken { MatchOption result (cell_values cells.new ≡ cell_values cells.old)
        (λ rest. AddsValue (dtype.Primitive ptype nullability) (cell_values cells.old) text.now
        (cell_values cells.new) rest.now) }
    ensures shorter { IfSome result (λ rest. length rest.now < length text.now) }
{
    match_number_type!(cells, ptype,
        natives, own => take_number(natives, own, nullability, text),
        None)
}

// Adds the value in plain form of a type that a text begins with, behind a space, to cells in the
// form of that type. The text after it comes back, or none where anything else stands there, the
// cells have another form or memory is refused.
#[inline(always)]
fn take_own<'a>(
    cells: &mut ArrayData,
    scratch: &mut Vec<u8>,
    dtype: DType,
    text: &'a [u8],
) -> Option<&'a [u8]>
    ensures taken { MatchOption result (cell_values cells.new ≡ cell_values cells.old)
        (λ rest. AddsValue dtype (cell_values cells.old) text.now (cell_values cells.new)
        rest.now) }
    ensures shorter { IfSome result (λ rest. length rest.now < length text.now) }
{
    if let DType::Primitive(ptype, nullability) = dtype {
        return take_own_number(cells, ptype, nullability, text);
    }
    if let DType::Bool(n) = dtype {
        return match cells {
            ArrayData::Bool(truths) => take_native(truths, DType::Bool(n), text),
            _ => None,
        };
    }
    match cells {
        ArrayData::Utf8(texts) => {
            let left = take_text(texts, dtype, text)?;
            Some(last_bytes(text, left))
        }
        ArrayData::Binary(blobs) => {
            let left = take_bytes(blobs, scratch, dtype, text)?;
            Some(last_bytes(text, left))
        }
        _ => None,
    }
}

impl ColumnBuilder {
    /// A column with no values yet.
    pub fn new(alloc: Global, dtype: DType) -> ColumnBuilder
        ensures { result ≡ record { dtype = dtype; values = []; size = 0 } }
    {
        ColumnBuilder {
            dtype,
            cells: ArrayData::new(alloc, dtype),
            scratch: Vec::new(alloc),
        }
    }

    /// How many values there are.
    pub fn len(&self) -> usize
        ensures { result ≡ length self.now.values }
    {
        if let ArrayData::I64(natives) = &self.cells {
            return natives.len();
        }
        if let ArrayData::I32(natives) = &self.cells {
            return natives.len();
        }
        self.other_len()
    }

    // Counts the values in any form.
    #[inline(never)]
    fn other_len(&self) -> usize
        ensures { result ≡ length self.now.values }
    {
        self.cells.len()
    }

    // The column, which takes no more values.
    fn close(self) -> Column
        requires { IsColumn self }
        ensures { result ≡ self }
    {
        let ColumnBuilder { dtype, cells, .. } = self;
        Column::new_unchecked(dtype, cells, 0)
    }

    // Adds a value.
    #[inline]
    fn push(&mut self, value: Option<ScalarValue>) -> Result<(), AllocError>
        ensures { OnOk result (self.new ≡ with_value value self.old) }
    {
        self.cells.push(value)
    }

    // Adds a truth, a number or null.
    #[inline]
    fn push_cell(&mut self, cell: PrimitiveScalar) -> Result<(), AllocError>
        ensures { OnOk result (self.new ≡ with_value (short_value cell) self.old) }
    {
        self.cells.push_cell(cell)
    }

    // Adds the value of the first word of a line. The rest of the line comes back.
    fn take_word<'a>(&mut self, alloc: Global, line: &'a [u8]) -> Result<&'a [u8], LineError>
        ensures { GivesAndChanges (λ rest. words rest.now) result
            (taken self.old (words line.now)) self.new }
    {
        let expected = Expected::ValueOrNull(self.dtype);
        let (word, rest) = first_word(alloc, line, expected)?;
        let value = optional_value_of(alloc, self.dtype, word, line.len())?;
        self.push(value)?;
        Ok(rest)
    }

    // Adds the value of the first word of a line. A truth or a number in plain form, with a space
    // behind it, is read straight from the bytes.
    #[inline]
    fn take<'a>(&mut self, alloc: Global, line: &'a [u8]) -> Result<&'a [u8], LineError>
        ensures { GivesAndChanges (λ rest. words rest.now) result
            (taken self.old (words line.now)) self.new }
    {
        if let Some((cell, rest)) = plain_cell(self.dtype, line) {
            if let [b' ', ..] = rest {
                self.push_cell(cell)?;
                return Ok(rest);
            }
        }
        self.take_word(alloc, line)
    }

    // Adds the null that a text begins with, behind a space, where the type has it. How many bytes
    // of the text are left comes back.
    #[inline(never)]
    fn take_null(&mut self, text: &[u8]) -> Option<usize>
        ensures taken { MatchOption result (self.new ≡ self.old)
            (λ left. LeavesBytes left text.now
            (λ rest. TakesValue self.old text.now self.new rest)) }
    {
        let rest = plain_null(self.dtype, text)?;
        let Ok(()) = self.cells.push(None) else {
            return None;
        };
        Some(rest.len())
    }

    /// Adds the value in plain form that a text begins with, behind a space. The text after it
    /// comes back, or none where anything else stands there or memory is refused.
    #[inline(always)]
    pub fn take_plain<'a>(&mut self, text: &'a [u8]) -> Option<&'a [u8]>
        ensures taken { MatchOption result (self.new ≡ self.old)
            (λ rest. TakesValue self.old text.now self.new rest.now) }
        ensures shorter { IfSome result (λ rest. length rest.now < length text.now) }
    {
        if let Some(rest) = take_own(&mut self.cells, &mut self.scratch, self.dtype, text) {
            return Some(rest);
        }
        let left = self.take_null(text)?;
        Some(last_bytes(text, left))
    }

    /// Adds the values of the rows in plain form that a text begins with, where this is the only
    /// column. How many rows those are comes back, and what follows them.
    #[inline(always)]
    pub fn take_rows<'a>(&mut self, text: &'a [u8]) -> (usize, &'a [u8])
        ensures rows { TakesRows first_row result.0 (self.old ∷ []) text.now (self.new ∷ [])
            result.1.now }
        ensures bytes { result.0 + length result.1.now ≤ length text.now }
    {
        take_own_rows(&mut self.cells, self.dtype, text)
    }
}

/// Adds a row: to each column the value of its word.
pub fn push_row(alloc: Global, columns: &mut [ColumnBuilder], line: &[u8]) -> Result<(), LineError>
    ensures { Changes result (with_values columns.old (words line.now)) columns.new }
{
    let mut rest = line;
    for column in columns.iter_mut() {
        rest = column.take(alloc, rest)?;
    }
    no_word(rest)
}

/// The columns, which take no more values.
pub fn close_columns(alloc: Global, columns: Vec<ColumnBuilder>) -> Result<Vec<Column>, AllocError>
    requires { All IsColumn columns.items }
    ensures { IfOk result (λ closed. closed.items ≡ columns.items) }
{
    let mut closed = Vec::with_capacity(alloc, columns.len())?;
    for column in columns {
        closed.push(column.close())?;
    }
    Ok(closed)
}
