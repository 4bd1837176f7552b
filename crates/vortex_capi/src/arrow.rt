//! A column of values in Arrow's layout, read into the arrays of `Values`.
ghost use Rattle.std.specs.Prelude.{◌≡◌, ◌+◌, ◌*◌, ◌^◌, ◌<◌, ◌≤◌, ◌≢◌, ◌⊎◌, Ok, length, nat_le, option_map, slice_range};
ghost use Rattle.vortex_base.specs.declared.dtype.DType.TheVariants as kinds;
ghost use Rattle.vortex_capi.specs.Arrow as spec;
ghost use Rattle.vortex_capi.specs.ArrowArrays as arrays;
ghost use Rattle.vortex_capi.specs.Encoding.{number_at};
ghost use Rattle.vortex_capi.specs.Refusals.{Answers, all_read};
ghost use Rattle.vortex_capi.specs.Statuses.{at_row};
ghost use Rattle.vortex_capi.specs.Types as types;

use crate::fault::Refusal;
use crate::given::fixed;
use crate::number::Number;
use crate::status::Status;
use crate::types::{dtype_of, number_width, width};
use crate::values::Values;
use std::alloc::Global;
use vortex_base::column::Column;
use vortex_base::dtype::DType;

/// The greatest offset of 4 bytes, which is a signed number.
const LAST_OF_4: u64 = 0x7fff_ffff;

/// The greatest offset of 8 bytes.
const LAST_OF_8: u64 = 0x7fff_ffff_ffff_ffff;

/// The values of a column in Arrow's layout: `vortex_arrow_values` of the header.
#[repr(C)]
#[derive(Clone, Copy)]
pub struct ArrowValues<'a> {
    /// The kind of the values.
    pub kind: u8,
    /// 1 for a type that has null, else 0.
    pub nullable: u8,
    /// The bytes of an offset, 4 or 8, for texts and bytes.
    pub offset_width: u8,
    /// The number of values.
    pub rows: usize,
    /// The number of values that stand in each buffer before the first row.
    pub offset: usize,
    /// The declared size in bytes.
    pub size: u64,
    /// A bit for each value: 0 for null; or nothing.
    pub validity: &'a [u8],
    /// A bit for each truth, the numbers one behind the other, or the data of texts and bytes.
    pub values: &'a [u8],
    /// Where the texts and bytes begin, and where the last one ends.
    pub offsets: &'a [u8],
}

/// The arrays of a column that are read out of Arrow's buffers.
#[derive(Drop)]
pub(crate) struct Unpacked {
    /// A byte for each truth.
    truths: Vec<u8>,
    /// Where each text or bytes end.
    ends: Vec<u64>,
    /// For each row 0 or else null, or nothing.
    nulls: Vec<u8>,
}

// Returns bit i of a buffer, the lowest bit of a byte first.
#[inline]
fn bit(bits: &[u8], i: usize) -> bool
    ensures { result ≡ spec.bit_of bits.now i }
{
    match bits.get(i / 8) {
        Some(byte) => (*byte >> (i % 8)) & 1 == 1,
        None => false,
    }
}

// Returns one byte for a bit that is set, and another for one that isn't.
#[inline]
fn byte_of(set: u8, clear: u8, bits: &[u8], i: usize) -> u8
    ensures { result ≡ arrays.byte_of set clear bits.now i }
{
    if bit(bits, i) { set } else { clear }
}

// Makes a byte of each of so many bits from a place on.
fn bytes_of(
    alloc: Global,
    set: u8,
    clear: u8,
    bits: &[u8],
    from: usize,
    count: usize,
) -> Result<Vec<u8>, Refusal>
    requires { from + count < 2 ^ 64 }
    ensures { Answers (λ v. v.items) result (Ok (arrays.bytes_of set clear bits.now from count)) }
{
    let mut bytes = Vec::with_capacity(alloc, count)?;
    for i in 0..count {
        bytes.push(byte_of(set, clear, bits, from + i))?;
    }
    Ok(bytes)
}

// Returns number i of a buffer, where it is there.
#[inline]
fn number_in<N: Number>(numbers: &[u8], i: usize) -> Option<N>
    ensures { option_map N.pvalue result ≡ number_at N.PTYPE numbers.now i }
{
    N::from_bytes(fixed(numbers, number_width(N::PTYPE), i)?)
}

// Tells whether a buffer has so many bits.
fn has_bits(count: usize, bits: &[u8]) -> bool
    ensures { result ≡ spec.has_bits count bits.now }
{
    count.div_ceil(8) <= bits.len()
}

// Tells whether a buffer has the bytes of so many values.
fn has_room(count: usize, width: usize, bytes: &[u8]) -> bool
    ensures { result ≡ nat_le (count * width) (length bytes.now) }
{
    match count.checked_mul(width) {
        Some(len) => len <= bytes.len(),
        None => false,
    }
}

impl ArrowValues<'_> {
    // Returns offset i, or 0 behind the last one.
    #[inline]
    fn offset_at(&self, i: usize) -> u64
        ensures { result ≡ spec.offset_at self.now.offset_width self.now.offsets.now i }
    {
        if self.offset_width == 4 {
            return match number_in::<u32>(self.offsets, i) {
                Some(offset) => u64::from(offset),
                None => 0,
            };
        }
        match number_in::<u64>(self.offsets, i) {
            Some(offset) => offset,
            None => 0,
        }
    }

    // Tells whether a text stands in the data.
    fn stands(&self, from: u64, to: u64) -> bool
        ensures { result ≡ spec.stands self.now.offset_width self.now.values.now from to }
    {
        let last = if self.offset_width == 4 {
            LAST_OF_4
        } else {
            LAST_OF_8
        };
        from <= to && to <= self.values.len() as u64 && to <= last
    }

    // Tells whether the buffers of values have so many places.
    fn has_values(&self, dtype: DType, count: usize) -> bool
        ensures { result ≡ spec.has_values dtype self.now count }
    {
        match dtype {
            DType::Null => true,
            DType::Bool(_) => has_bits(count, self.values),
            DType::Primitive(ptype, _) => has_room(count, number_width(ptype), self.values),
            DType::Utf8(_) | DType::Binary(_) | DType::MinMaxState(_, _) => {
                fixed(self.offsets, self.offset_width as usize, count).is_some()
            }
        }
    }

    // Tells whether the buffers reach to the last row's place.
    fn reach(&self, dtype: DType) -> bool
        ensures { result ≡ spec.reach dtype self.now }
    {
        let Some(end) = self.offset.checked_add(self.rows) else {
            return false;
        };
        let marked = self.validity.is_empty() || has_bits(end, self.validity);
        self.rows == 0 || marked && self.has_values(dtype, end)
    }

    // Returns where the text of a row ends, if it stands in the data.
    fn end_at(&self, row: usize) -> Result<u64, Status>
        requires places { self.now.offset + self.now.rows < 2 ^ 64 }
        requires within { row < self.now.rows }
        ensures { result ≡ spec.end_at self.now row }
    {
        let place = self.offset + row;
        let end = self.offset_at(place + 1);
        if self.stands(self.offset_at(place), end) {
            Ok(end)
        } else {
            Err(Status::BadEnds)
        }
    }

    // Lists where each text of a column of texts or bytes ends.
    fn text_ends(&self, alloc: Global) -> Result<Vec<u64>, Refusal>
        requires { self.now.offset + self.now.rows < 2 ^ 64 }
        ensures { Answers (λ v. v.items) result
            (all_read at_row (spec.end_at self.now) self.now.rows) }
    {
        let mut ends = Vec::with_capacity(alloc, self.rows)?;
        for row in 0..self.rows {
            match self.end_at(row) {
                Ok(end) => ends.push(end)?,
                Err(status) => return Err(Refusal::at_row(status, row)),
            }
        }
        Ok(ends)
    }

    // Lists where each text ends, if the type has ends.
    fn ends(&self, alloc: Global, dtype: DType) -> Result<Vec<u64>, Refusal>
        requires { self.now.offset + self.now.rows < 2 ^ 64 }
        ensures { Answers (λ v. v.items) result (spec.ends_by (types.width dtype) self.now) }
    {
        match width(dtype) {
            Some(_) => Ok(Vec::new(alloc)),
            None => self.text_ends(alloc),
        }
    }

    // Makes a byte of each row's bit of validity, 1 for null, or nothing without a bitmap.
    fn nulls(&self, alloc: Global) -> Result<Vec<u8>, Refusal>
        requires { self.now.offset + self.now.rows < 2 ^ 64 }
        ensures { Answers (λ v. v.items) result
            (Ok (arrays.marks_of self.now.validity.now self.now.offset self.now.rows)) }
    {
        if self.validity.is_empty() {
            return Ok(Vec::new(alloc));
        }
        bytes_of(alloc, 0, 1, self.validity, self.offset, self.rows)
    }

    // Makes a byte of each truth, if the type is that of truths.
    fn truths(&self, alloc: Global, dtype: DType) -> Result<Vec<u8>, Refusal>
        requires { self.now.offset + self.now.rows < 2 ^ 64 }
        ensures { Answers (λ v. v.items) result (Ok (arrays.truths_of dtype self.now)) }
    {
        match dtype {
            DType::Bool(_) => bytes_of(alloc, 1, 0, self.values, self.offset, self.rows),
            _ => Ok(Vec::new(alloc)),
        }
    }

    // Reads the arrays of a column of another type than null out of the buffers.
    fn unpacked_rows(&self, alloc: Global, dtype: DType) -> Result<Unpacked, Refusal>
        requires { dtype ≢ kinds.Null }
        ensures { arrays.Unpacks dtype self.now result }
    {
        if !self.reach(dtype) {
            return Err(Refusal::at_entry(Status::BadLength, 0));
        }
        let ends = self.ends(alloc, dtype)?;
        let nulls = self.nulls(alloc)?;
        let truths = self.truths(alloc, dtype)?;
        Ok(Unpacked {
            truths,
            ends,
            nulls,
        })
    }

    /// Reads the arrays of a column out of the buffers. Those of a column of nulls take no time for
    /// each row.
    pub(crate) fn unpacked(&self, alloc: Global, dtype: DType) -> Result<Unpacked, Refusal>
        ensures { arrays.Unpacks dtype self.now result }
    {
        if dtype == DType::Null {
            return Ok(Unpacked {
                truths: Vec::new(alloc),
                ends: Vec::new(alloc),
                nulls: Vec::new(alloc),
            });
        }
        self.unpacked_rows(alloc, dtype)
    }

    // Lends the numbers of the rows, of so many bytes each.
    fn numbers(&self, width: usize) -> &[u8]
        requires { (self.now.rows ≡ 0)
            ⊎ ((self.now.offset + self.now.rows) * width ≤ length self.now.values.now) }
        ensures none { self.now.rows ≡ 0 → length result.now ≡ 0 }
        ensures some { self.now.rows ≢ 0 → result.now ≡ slice_range self.now.values.now
            (self.now.offset * width) (self.now.offset * width + self.now.rows * width) }
    {
        if self.rows == 0 {
            return &self.values[..0];
        }
        let from = self.offset * width;
        &self.values[from..from + self.rows * width]
    }

    /// Returns the type of the values.
    pub(crate) fn dtype(&self) -> Result<DType, Refusal>
        ensures { result ≡ spec.type_given self.now }
    {
        let dtype = match dtype_of(self.kind, self.nullable) {
            Ok(dtype) => dtype,
            Err(status) => return Err(Refusal::at_entry(status, 0)),
        };
        if width(dtype).is_none() && self.offset_width != 4 && self.offset_width != 8 {
            return Err(Refusal::at_entry(Status::BadKind, 0));
        }
        Ok(dtype)
    }

    /// Reads the column that is handed in.
    pub(crate) fn given_column(&self, alloc: Global) -> Result<Column, Refusal>
        ensures { Answers (λ c. c) result (spec.given_column self.now) }
    {
        let dtype = self.dtype()?;
        let unpacked = self.unpacked(alloc, dtype)?;
        unpacked.values(self, dtype).read_column(alloc, dtype)
    }
}

impl Unpacked {
    // Lends the arrays with these values.
    fn with<'a>(&'a self, column: &'a ArrowValues<'_>, values: &'a [u8]) -> Values<'a>
        ensures { arrays.AreWith self.now column.now values.now result }
    {
        Values {
            kind: column.kind,
            nullable: column.nullable,
            rows: column.rows,
            size: column.size,
            start: column.offset_at(column.offset),
            values,
            ends: &self.ends,
            nulls: &self.nulls,
        }
    }

    /// Lends the arrays of a column, with those of its buffers that are taken as they are.
    pub(crate) fn values<'a>(&'a self, column: &'a ArrowValues<'_>, dtype: DType) -> Values<'a>
        requires { arrays.AreUnpacked dtype column.now self.now }
        ensures { arrays.IsReadFrom dtype column.now result }
    {
        match dtype {
            DType::Null | DType::Bool(_) => self.with(column, &self.truths),
            DType::Primitive(ptype, _) => self.with(column, column.numbers(number_width(ptype))),
            DType::Utf8(_) | DType::Binary(_) | DType::MinMaxState(_, _) => {
                self.with(column, column.values)
            }
        }
    }
}
