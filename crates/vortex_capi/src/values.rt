//! A column of values as a caller hands it in.
ghost use Rattle.std.specs.Prelude.{◌≡◌, Err, IfOk, IsTrue, MatchResult, Ok, option_map};
ghost use Rattle.std.specs.Bool.{OnTrue};
ghost use Rattle.vortex_base.specs.Data.ArrayData.{cell_values};
ghost use Rattle.vortex_base.specs.Data.Values.{is_value};
ghost use Rattle.vortex_base.specs.declared.dtype.DType.TheVariants as types;
ghost use Rattle.vortex_capi.specs.Encoding.{ReadsValue};
ghost use Rattle.vortex_capi.specs.Refusals.{Answers, Gives};
ghost use Rattle.vortex_capi.specs.Values as spec;

use crate::encoding::{are_value_of, value_of};
use crate::fault::Refusal;
use crate::given::{Given, fixed};
use crate::number::Number;
use crate::status::Status;
use crate::types::{dtype_of, number_width};
use std::alloc::Global;
use vortex_base::array_data::ArrayData;
use vortex_base::column::Column;
use vortex_base::dtype::DType;
use vortex_base::nulls::Nulls;
use vortex_base::primitive_array::PrimitiveArray;
use vortex_base::scalar_value::ScalarValue;
use vortex_base::types::{Nullability, PType};

/// The values of a column: `vortex_values` of the header.
#[repr(C)]
#[derive(Clone, Copy)]
pub struct Values<'a> {
    /// The kind of the values.
    pub kind: u8,
    /// 1 for a type that has null, else 0.
    pub nullable: u8,
    /// The number of values.
    pub rows: usize,
    /// The declared size in bytes.
    pub size: u64,
    /// Where the first text or bytes begin.
    pub start: u64,
    /// The values, one behind the other.
    pub values: &'a [u8],
    /// Where each text or bytes end.
    pub ends: &'a [u64],
    /// For each row 0 or else null, or nothing.
    pub nulls: &'a [u8],
}

/// Whether a row is null by the bytes that say so.
#[inline]
pub(crate) fn is_null(nulls: &[u8], row: usize) -> Result<bool, Status>
    ensures { result ≡ spec.is_null nulls.now row }
{
    if nulls.is_empty() {
        return Ok(false);
    }
    match nulls.get(row) {
        Some(byte) => Ok(*byte != 0),
        None => Err(Status::BadLength),
    }
}

// A null, where the type has it.
fn null_of(dtype: DType) -> Result<Option<ScalarValue>, Status>
    ensures { result ≡ spec.null_of dtype }
{
    if dtype.is_nullable() {
        Ok(None)
    } else {
        Err(Status::BadNull)
    }
}

/// The value at a place, which isn't null.
pub(crate) fn value_at(
    alloc: Global,
    given: &Given<'_>,
    dtype: DType,
    row: usize,
) -> Result<ScalarValue, Status>
    ensures read { Gives result
        (spec.value_at dtype given.now.values.now given.now.start given.now.ends.now row) }
    ensures fits { IfOk result (λ value. IsTrue (is_value value dtype)) }
{
    match given.bytes_at(dtype, row) {
        Ok(bytes) => value_of(alloc, dtype, bytes),
        Err(status) => Err(status),
    }
}

/// Whether a value of the type stands at a place.
pub(crate) fn has_value(given: &Given<'_>, dtype: DType, place: usize) -> bool
    ensures { OnTrue result (ReadsValue dtype (spec.value_at dtype given.now.values.now
        given.now.start given.now.ends.now place)) }
{
    match given.bytes_at(dtype, place) {
        Ok(bytes) => are_value_of(dtype, bytes),
        Err(_) => false,
    }
}

impl<'a> Values<'a> {
    /// The values with where each of them ends.
    pub(crate) fn given(&self) -> Given<'a>
        ensures values { result.values.now ≡ self.now.values.now }
        ensures start { result.start ≡ self.now.start }
        ensures ends { result.ends.now ≡ self.now.ends.now }
    {
        Given {
            values: self.values,
            start: self.start,
            ends: self.ends,
        }
    }

    // Whether the arrays have an element for each row and no more; bytes for null may be left out.
    fn are_filled(&self, dtype: DType) -> bool
        ensures { result ≡ spec.are_filled dtype self.now }
    {
        let marked = self.nulls.is_empty() || self.nulls.len() == self.rows;
        self.given().fill(dtype, self.rows) && marked
    }

    /// Refuses arrays that have more elements than there are rows, or fewer.
    pub(crate) fn filled(&self, dtype: DType) -> Result<(), Refusal>
        ensures { result ≡ spec.filled dtype self.now }
    {
        if self.are_filled(dtype) {
            Ok(())
        } else {
            Err(Refusal::at_entry(Status::BadLength, 0))
        }
    }

    // The value of a row, or `None` for null. In a column of nulls each row is one.
    fn cell(&self, alloc: Global, dtype: DType, row: usize) -> Result<Option<ScalarValue>, Status>
        ensures { Gives result (spec.cell dtype self.now.values.now self.now.start
            self.now.ends.now self.now.nulls.now row) }
    {
        if dtype == DType::Null || is_null(self.nulls, row)? {
            return null_of(dtype);
        }
        match value_at(alloc, &self.given(), dtype, row) {
            Ok(value) => Ok(Some(value)),
            Err(status) => Err(status),
        }
    }

    // The number of a row, or `None` for null.
    #[inline]
    fn number<N: Number>(&self, nullability: Nullability, row: usize) -> Result<Option<N>, Status>
        ensures { let read = spec.cell (types.Primitive N.PTYPE nullability) self.now.values.now
            self.now.start self.now.ends.now self.now.nulls.now row in
            MatchResult result (λ number. read ≡ Ok (option_map N.scalar number))
            (λ s. read ≡ Err s) }
    {
        if is_null(self.nulls, row)? {
            return match nullability {
                Nullability::Nullable => Ok(None),
                Nullability::NonNullable => Err(Status::BadNull),
            };
        }
        match fixed(self.values, number_width(N::PTYPE), row) {
            None => Err(Status::BadLength),
            Some(bytes) => match N::from_bytes(bytes) {
                Some(number) => Ok(Some(number)),
                None => Err(Status::BadLength),
            },
        }
    }

    // The numbers of all rows.
    fn numbers<N: Number>(
        &self,
        alloc: Global,
        nullability: Nullability,
    ) -> Result<ArrayData, Refusal>
        ensures { Answers cell_values result (spec.cells (types.Primitive N.PTYPE nullability)
            self.now.values.now self.now.start self.now.ends.now self.now.nulls.now self.now.rows) }
    {
        let mut numbers = PrimitiveArray::with_capacity(alloc, self.rows)?;
        for row in 0..self.rows {
            match self.number::<N>(nullability, row) {
                Ok(number) => numbers.push(number)?,
                Err(status) => return Err(Refusal::at_row(status, row)),
            }
        }
        Ok(N::into_cells(numbers))
    }

    // The numbers of all rows, of a type.
    fn numbers_of(
        &self,
        alloc: Global,
        ptype: PType,
        nullability: Nullability,
    ) -> Result<ArrayData, Refusal>
        ensures { Answers cell_values result (spec.cells (types.Primitive ptype nullability)
            self.now.values.now self.now.start self.now.ends.now self.now.nulls.now self.now.rows) }
    {
        match ptype {
            PType::U8 => self.numbers::<u8>(alloc, nullability),
            PType::U16 => self.numbers::<u16>(alloc, nullability),
            PType::U32 => self.numbers::<u32>(alloc, nullability),
            PType::U64 => self.numbers::<u64>(alloc, nullability),
            PType::I8 => self.numbers::<i8>(alloc, nullability),
            PType::I16 => self.numbers::<i16>(alloc, nullability),
            PType::I32 => self.numbers::<i32>(alloc, nullability),
            PType::I64 => self.numbers::<i64>(alloc, nullability),
        }
    }

    // The values of all rows. Those of a column of nulls take no time for each row.
    fn cells(&self, alloc: Global, dtype: DType) -> Result<ArrayData, Refusal>
        ensures { Answers cell_values result (spec.cells dtype self.now.values.now self.now.start
            self.now.ends.now self.now.nulls.now self.now.rows) }
    {
        match dtype {
            DType::Null => return Ok(ArrayData::Nulls(Nulls::new(alloc, self.rows))),
            DType::Primitive(ptype, nullability) => {
                return self.numbers_of(alloc, ptype, nullability);
            }
            _ => {}
        }
        let mut cells = ArrayData::with_capacity(alloc, dtype, self.rows)?;
        for row in 0..self.rows {
            match self.cell(alloc, dtype, row) {
                Ok(cell) => cells.push(cell)?,
                Err(status) => return Err(Refusal::at_row(status, row)),
            }
        }
        Ok(cells)
    }

    /// The type of the values.
    pub(crate) fn dtype(&self) -> Result<DType, Refusal>
        ensures { result ≡ spec.type_given self.now }
    {
        match dtype_of(self.kind, self.nullable) {
            Ok(dtype) => Ok(dtype),
            Err(status) => Err(Refusal::at_entry(status, 0)),
        }
    }

    /// The column that is handed in.
    pub(crate) fn given_column(&self, alloc: Global) -> Result<Column, Refusal>
        ensures { Answers (λ c. c) result (spec.given_column self.now) }
    {
        match self.dtype() {
            Ok(dtype) => self.column(alloc, dtype),
            Err(refusal) => Err(refusal),
        }
    }

    /// The column of a type.
    pub(crate) fn column(&self, alloc: Global, dtype: DType) -> Result<Column, Refusal>
        ensures { Answers (λ c. c) result (spec.column dtype self.now) }
    {
        match self.filled(dtype) {
            Ok(()) => self.read_column(alloc, dtype),
            Err(refusal) => Err(refusal),
        }
    }

    /// The column of a type, of arrays whose lengths were looked at before.
    pub(crate) fn read_column(&self, alloc: Global, dtype: DType) -> Result<Column, Refusal>
        ensures { Answers (λ c. c) result (spec.read_column dtype self.now) }
    {
        let cells = self.cells(alloc, dtype)?;
        if !cells.fits(&dtype) {
            return Err(Refusal::at_row(Status::BadValue, 0));
        }
        Ok(Column::new_unchecked(dtype, cells, self.size))
    }
}
