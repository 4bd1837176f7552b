//! The least and the greatest value of a column, read straight from a caller's bytes.
ghost use Rattle.std.specs.Prelude.{◌≡◌, ◌*◌, ◌++◌, ◌≤◌, ◌∷◌, [], IfOk, IfSome, IsTrue, List, Ok, Option, Some, false, length, option_map, true, if◌then◌else◌};
ghost use Rattle.std.specs.Ordering.{ord_max, ord_min};
ghost use Rattle.std.specs.List.{list_all};
ghost use Rattle.vortex_base.specs.declared.dtype.DType.TheVariants as types;
ghost use Rattle.vortex_base.specs.declared.scalar_value.ScalarValue.{ScalarValue};
ghost use Rattle.vortex_base.specs.declared.types.Nullability.{Nullability};
ghost use Rattle.vortex_base.specs.Data.ArrayData.{value_of};
ghost use Rattle.vortex_base.specs.Data.Columns.{ColumnData};
ghost use Rattle.vortex_capi.specs.Extents as spec;
ghost use Rattle.vortex_capi.specs.Extents.{HasRead, IsExtentOf, IsOptionalRangeOf, IsRangeOf, lent_cmp, scalar_of};
ghost use Rattle.vortex_capi.specs.Types.{number_width};
ghost use Rattle.vortex_capi.specs.Values.{cell, read_column};
ghost use Rattle.vortex_stats.specs.Measuring.Measured.{measured_value};
ghost use Rattle.vortex_stats.specs.Sets.Claims.{null_count, present};

use crate::encoding::lent_of;
use crate::given::fixed;
use crate::number::{Number, has_numbers, number_at};
use crate::types::number_width;
use crate::values::{Values, is_null};
use std::alloc::{AllocError, Global};
use vortex_base::dtype::DType;
use vortex_base::scalar_value::ScalarValue;
use vortex_base::types::{Nullability, PType};
use vortex_base::value_ref::ValueRef;
use vortex_stats::stat::Stat;

/// The extent of a column: its least and its greatest value, and its nulls.
#[derive(Clone, Copy)]
pub(crate) struct Extent<'a> {
    /// How many rows are null.
    nulls: u64,
    /// The least value, if there is one.
    least: Option<ValueRef<'a>>,
    /// The greatest value, if there is one.
    greatest: Option<ValueRef<'a>>,
}

// The least and the greatest of some values.
#[derive(Clone, Copy)]
pub(crate) struct Range<N> {
    least: N,
    greatest: N,
}

// The first where the test holds, else the second.
#[inline]
fn pick<T: Copy>(test: bool, first: T, second: T) -> T
    ensures { result ≡ (if test then first else second) }
{
    if test { first } else { second }
}

impl<N: Number> Range<N> {
    // The range of one number, behind nulls alone.
    #[inline]
    fn new(number: N) -> Range<N>
        ensures { (xs : List (Option ScalarValue)) → present xs ≡ []
            → IsRangeOf (scalar_of N.pvalue) result (xs ++ Some (scalar_of N.pvalue number) ∷ []) }
    {
        Range {
            least: number,
            greatest: number,
        }
    }

    // The range with one more number.
    #[inline]
    fn then(self, number: N) -> Range<N>
        ensures { (xs : List (Option ScalarValue)) → IsRangeOf (scalar_of N.pvalue) self xs
            → IsRangeOf (scalar_of N.pvalue) result (xs ++ Some (scalar_of N.pvalue number) ∷ []) }
    {
        Range {
            least: self.least.min(number),
            greatest: number.max(self.greatest),
        }
    }
}

// The range, if there is one, with one more number.
#[inline]
fn with_number<N: Number>(range: Option<Range<N>>, number: N) -> Range<N>
    ensures { (xs : List (Option ScalarValue)) → IsOptionalRangeOf (scalar_of N.pvalue) range xs
        → IsRangeOf (scalar_of N.pvalue) result (xs ++ Some (scalar_of N.pvalue number) ∷ []) }
{
    match range {
        None => Range::new(number),
        Some(range) => range.then(number),
    }
}

// The range with the number of one more row, which doesn't count where the row is null.
#[inline]
fn with_row<N: Number>(range: Option<Range<N>>, null: bool, number: N) -> Option<Range<N>>
    ensures null { null ≡ true → result ≡ range }
    ensures value { null ≡ false → (xs : List (Option ScalarValue))
        → IsOptionalRangeOf (scalar_of N.pvalue) range xs
        → IsOptionalRangeOf (scalar_of N.pvalue) result
        (xs ++ Some (scalar_of N.pvalue number) ∷ []) }
{
    pick(null, range, Some(with_number(range, number)))
}

// The range of numbers, if there is one, as values that are lent.
fn lent<'a, N: Number>(range: Option<Range<N>>) -> Option<Range<ValueRef<'a>>>
    ensures { (xs : List (Option ScalarValue)) → IsOptionalRangeOf (scalar_of N.pvalue) range xs
        → IsOptionalRangeOf value_of result xs }
{
    match range {
        None => None,
        Some(range) => Some(Range {
            least: ValueRef::Primitive(range.least.value()),
            greatest: ValueRef::Primitive(range.greatest.value()),
        }),
    }
}

// The lesser of two values, the first where they are the same.
#[inline]
fn lesser<'a>(value: ValueRef<'a>, other: ValueRef<'a>) -> ValueRef<'a>
    ensures { result ≡ ord_min lent_cmp value.entry other.entry }
{
    pick(other.order(value).is_lt(), other, value)
}

// The greater of two values, the first where they are the same.
#[inline]
fn greater<'a>(value: ValueRef<'a>, other: ValueRef<'a>) -> ValueRef<'a>
    ensures { result ≡ ord_max lent_cmp other.entry value.entry }
{
    pick(value.order(other).is_lt(), other, value)
}

// The range, if there is one, with one more value that is lent.
#[inline]
fn with_lent<'a>(range: Option<Range<ValueRef<'a>>>, value: ValueRef<'a>) -> Range<ValueRef<'a>>
    ensures { (xs : List (Option ScalarValue)) → IsOptionalRangeOf value_of range.entry xs
        → IsRangeOf value_of result (xs ++ Some (value_of value.entry) ∷ []) }
{
    match range {
        None => Range {
            least: value,
            greatest: value,
        },
        Some(range) => Range {
            least: lesser(range.least, value),
            greatest: greater(range.greatest, value),
        },
    }
}

// A copy of a value that is lent, if there is one.
fn copied(value: Option<ValueRef<'_>>) -> Result<Option<ScalarValue>, AllocError>
    ensures { IfOk result (λ copy. copy ≡ option_map value_of value.entry) }
{
    match value {
        Some(value) => Ok(Some(value.to_value()?)),
        None => Ok(None),
    }
}

impl<'a> Extent<'a> {
    // The extent of nulls and of values in a range, if there are any.
    fn new(nulls: u64, range: Option<Range<ValueRef<'a>>>) -> Extent<'a>
        ensures { (c : ColumnData) → nulls ≡ null_count c.values
            → IsOptionalRangeOf value_of range.entry c.values → IsExtentOf result c }
    {
        match range {
            None => Extent {
                nulls,
                least: None,
                greatest: None,
            },
            Some(range) => Extent {
                nulls,
                least: Some(range.least),
                greatest: Some(range.greatest),
            },
        }
    }

    /// The value of a statistic of a column with this extent and a size, if it has one.
    pub(crate) fn value(&self, stat: Stat, size: u64) -> Result<Option<ScalarValue>, AllocError>
        requires { IsTrue (spec.follows stat) }
        ensures { IfOk result (λ value. (c : ColumnData) → IsExtentOf self.now c → c.size ≡ size
            → value ≡ measured_value stat c) }
    {
        match stat {
            Stat::Max => copied(self.greatest),
            Stat::Min => copied(self.least),
            Stat::NullCount => Ok(Some(ScalarValue::from(self.nulls))),
            Stat::UncompressedSizeInBytes => Ok(Some(ScalarValue::from(size))),
            _ => unreachable!(),
        }
    }
}

// Whether the statistic of a column follows of its extent and its size.
fn follows(stat: Stat) -> bool
    ensures { result ≡ spec.follows stat }
{
    matches!(
        stat,
        Stat::Max | Stat::Min | Stat::NullCount | Stat::UncompressedSizeInBytes
    )
}

/// Whether each of the statistics of a column follows of its extent and its size.
pub(crate) fn all_follow(stats: &[Stat]) -> bool
    ensures { result ≡ list_all spec.follows stats.now }
{
    stats.iter().all(|stat| follows(*stat))
}

impl<'a> Values<'a> {
    // The range of the numbers of all rows, none of which is null.
    fn range<N: Number>(&self) -> Option<Range<N>>
        requires none { self.now.nulls.now ≡ [] }
        requires there { self.now.rows * number_width N.PTYPE ≤ length self.now.values.now }
        ensures { (n : Nullability) → let t = types.Primitive N.PTYPE n in
            HasRead (scalar_of N.pvalue) t (cell t self.now.values.now self.now.start
            self.now.ends.now self.now.nulls.now) self.now.rows 0 result }
    {
        if self.rows == 0 {
            return None;
        }
        let mut range = Range::new(number_at::<N>(self.values, 0));
        for row in 1..self.rows {
            range = range.then(number_at::<N>(self.values, row));
        }
        Some(range)
    }

    // How many rows are null, and the range of the numbers of the others, unless a row is refused.
    fn nulls_and_range<N: Number>(
        &self,
        nullability: Nullability,
    ) -> Option<(u64, Option<Range<N>>)>
        ensures { let t = types.Primitive N.PTYPE nullability in
            IfSome result (λ read. HasRead (scalar_of N.pvalue) t (cell t self.now.values.now
            self.now.start self.now.ends.now self.now.nulls.now) self.now.rows read.0 read.1) }
    {
        let nullable = DType::Primitive(N::PTYPE, nullability).is_nullable();
        let mut nulls = 0;
        let mut range: Option<Range<N>> = None;
        for row in 0..self.rows {
            let Ok(null) = is_null(self.nulls, row) else {
                return None;
            };
            if null & !nullable {
                return None;
            }
            let number = N::from_bytes(fixed(self.values, number_width(N::PTYPE), row)?)?;
            nulls += u64::from(null);
            range = with_row(range, null, number);
        }
        Some((nulls, range))
    }

    // The extent of numbers of a type, unless a row is refused.
    fn extent_of<N: Number>(&self, nullability: Nullability) -> Option<Extent<'a>>
        ensures { let t = types.Primitive N.PTYPE nullability in IfSome result (λ e.
            (c : ColumnData) × (read_column t self.now ≡ Ok c) × IsExtentOf e c) }
    {
        if self.nulls.is_empty() && has_numbers::<N>(self.values, self.rows) {
            return Some(Extent::new(0, lent(self.range::<N>())));
        }
        let (nulls, range) = self.nulls_and_range::<N>(nullability)?;
        Some(Extent::new(nulls, lent(range)))
    }

    // How many rows are null, and the range of the texts or byte strings of the others, unless a
    // row is refused.
    fn nulls_and_lent(
        &self,
        alloc: Global,
        dtype: DType,
    ) -> Option<(u64, Option<Range<ValueRef<'a>>>)>
        requires { IsTrue (spec.is_lent dtype) }
        ensures { IfSome result (λ read. HasRead value_of dtype (cell dtype self.now.values.now
            self.now.start self.now.ends.now self.now.nulls.now) self.now.rows read.0 read.1) }
    {
        let (given, rows) = (self.given(), self.rows);
        let mut nulls = 0;
        let mut range: Option<Range<ValueRef<'a>>> = None;
        for row in 0..rows {
            let Ok(null) = is_null(self.nulls, row) else {
                return None;
            };
            if null {
                if !dtype.is_nullable() {
                    return None;
                }
                nulls += 1;
            } else {
                let Ok(bytes) = given.bytes_at(dtype, row) else {
                    return None;
                };
                range = Some(with_lent(range, lent_of(alloc, dtype, bytes)?));
            }
        }
        Some((nulls, range))
    }

    // The extent of texts or byte strings, unless a row is refused.
    fn lent_extent(&self, alloc: Global, dtype: DType) -> Option<Extent<'a>>
        requires { IsTrue (spec.is_lent dtype) }
        ensures { IfSome result (λ e. (c : ColumnData)
            × (read_column dtype self.now ≡ Ok c) × IsExtentOf e c) }
    {
        let (nulls, range) = self.nulls_and_lent(alloc, dtype)?;
        Some(Extent::new(nulls, range))
    }

    /// The extent of the column of a type, for types of numbers, texts and byte strings. `None` for
    /// other types, and where a row is refused.
    pub(crate) fn extent(&self, alloc: Global, dtype: DType) -> Option<Extent<'a>>
        ensures { IfSome result (λ e. (c : ColumnData)
            × (read_column dtype self.now ≡ Ok c) × IsExtentOf e c) }
    {
        match dtype {
            DType::Primitive(PType::U8, nullability) => self.extent_of::<u8>(nullability),
            DType::Primitive(PType::U16, nullability) => self.extent_of::<u16>(nullability),
            DType::Primitive(PType::U32, nullability) => self.extent_of::<u32>(nullability),
            DType::Primitive(PType::U64, nullability) => self.extent_of::<u64>(nullability),
            DType::Primitive(PType::I8, nullability) => self.extent_of::<i8>(nullability),
            DType::Primitive(PType::I16, nullability) => self.extent_of::<i16>(nullability),
            DType::Primitive(PType::I32, nullability) => self.extent_of::<i32>(nullability),
            DType::Primitive(PType::I64, nullability) => self.extent_of::<i64>(nullability),
            DType::Utf8(_) | DType::Binary(_) => self.lent_extent(alloc, dtype),
            _ => None,
        }
    }
}
