//! Statistics whose values are numbers, read without a value made of each.
ghost use Rattle.std.specs.Prelude.{◌≡◌, ◌+◌, ◌*◌, ◌^◌, ◌<◌, ◌≤◌, ℕ, IfSome, IsTrue, List, Ok, Some, false, length, map, option_map, true};
ghost use Rattle.std.specs.Bool.{OnTrue};
ghost use Rattle.std.specs.List.{list_all};
ghost use Rattle.vortex_base.specs.Data.ArrayData.{cell_values};
ghost use Rattle.vortex_base.specs.Data.PrimitiveArray.{optional};
ghost use Rattle.vortex_base.specs.declared.scalar_value.ScalarValue.TheVariants as value;
ghost use Rattle.vortex_capi.specs.Encoding.{AreNumbers, is_number};
ghost use Rattle.vortex_capi.specs.MapCells as spec;
ghost use Rattle.vortex_capi.specs.Types.{number_width};
ghost use Rattle.vortex_zone_map.specs.StatValues.{told_value};
ghost use Rattle.vortex_zone_map.specs.Told.{known_as, told_cell};

use crate::given::fixed;
use crate::number::{Number, has_numbers, number_at};
use crate::table::Source;
use crate::types::number_width;
use std::alloc::Global;
use vortex_base::aggregate::AggregateFnRef;
use vortex_base::array_data::ArrayData;
use vortex_base::primitive_array::PrimitiveArray;
use vortex_base::pvalue::PValue;
use vortex_base::types::PType;
use vortex_stats::precision::Precision;
use vortex_zone_map::Told;

// The number that stands for a zone.
#[inline]
fn number_there<N: Number>(source: &Source<'_>, zone: usize) -> Option<N>
    requires { spec.HasNumbers N.PTYPE source.now }
    ensures read { IfSome result (λ number.
        spec.present_in source.now zone ≡ Ok (value.Primitive (N.pvalue number))) }
    ensures fits { IfSome result (λ number. IsTrue (is_number N.PTYPE (N.pvalue number))) }
{
    match fixed(source.statistic.values, number_width(N::PTYPE), zone) {
        Some(bytes) => N::from_bytes(bytes),
        None => None,
    }
}

// The number of a statistic in a zone, if its value is read.
#[inline]
fn number_in<N: Number>(source: &Source<'_>, zone: usize) -> Option<Precision<N>>
    requires { spec.HasNumbers N.PTYPE source.now }
    ensures { IfSome result (λ number.
        spec.IsNumberIn source.now zone (spec.seen N.pvalue number)) }
{
    match source.statistic.known.get(zone) {
        Some(0) => Some(Precision::Absent),
        Some(1) => match number_there::<N>(source, zone) {
            Some(number) => Some(Precision::Exact(number)),
            None => None,
        },
        Some(2) => match number_there::<N>(source, zone) {
            Some(number) => Some(Precision::Inexact(number)),
            None => None,
        },
        _ => None,
    }
}

// Whether each byte says how a value is known.
fn are_codes(known: &[u8]) -> bool
    ensures { result ≡ list_all spec.is_code known.now }
{
    let mut greatest = 0;
    for code in known {
        greatest = greatest.max(*code);
    }
    greatest <= 2
}

// Whether a code and a number are there for each of the first zones.
fn stand<N: Number>(source: &Source<'_>, zones: usize) -> bool
    ensures there { OnTrue result (spec.Stand N.PTYPE source.now zones) }
    ensures numbers { OnTrue result (AreNumbers N.PTYPE source.now.statistic.values.now zones) }
{
    zones <= source.statistic.known.len() && has_numbers::<N>(source.statistic.values, zones)
}

// Whether a number stands there for each of the first zones, and whether it counts is told.
fn all_stand<N: Number>(source: &Source<'_>, zones: usize) -> bool
    requires { spec.HasNumbers N.PTYPE source.now }
    ensures { OnTrue result (spec.AreRead source.now zones) }
{
    stand::<N>(source, zones) && are_codes(&source.statistic.known[..zones])
}

// Whether a statistic has a number for each of the first zones of which it says anything.
fn each_is_read<N: Number>(source: &Source<'_>, zones: usize) -> bool
    requires { spec.HasNumbers N.PTYPE source.now }
    ensures { OnTrue result (spec.AreRead source.now zones) }
{
    for zone in 0..zones {
        match number_in::<N>(source, zone) {
            Some(_number) => {}
            None => return false,
        }
    }
    true
}

// Tells whether each value is read, looking for a number in each zone first, absent or not.
fn are_read<N: Number>(source: &Source<'_>, zones: usize) -> bool
    requires { spec.HasNumbers N.PTYPE source.now }
    ensures { OnTrue result (spec.AreRead source.now zones) }
{
    all_stand::<N>(source, zones) || each_is_read::<N>(source, zones)
}

/// Tells whether each value of a statistic over numbers of a type is read.
pub(crate) fn numbers_are_read(source: &Source<'_>, ptype: PType, zones: usize) -> bool
    requires { spec.HasNumbers ptype source.now }
    ensures { OnTrue result (spec.AreRead source.now zones) }
{
    match ptype {
        PType::U8 => are_read::<u8>(source, zones),
        PType::U16 => are_read::<u16>(source, zones),
        PType::U32 => are_read::<u32>(source, zones),
        PType::U64 => are_read::<u64>(source, zones),
        PType::I8 => are_read::<i8>(source, zones),
        PType::I16 => are_read::<i16>(source, zones),
        PType::I32 => are_read::<i32>(source, zones),
        PType::I64 => are_read::<i64>(source, zones),
    }
}

// Whether a number itself is told for an aggregate, or else a truth.
#[inline]
fn tells_value(aggregate: AggregateFnRef) -> bool
    ensures { result ≡ spec.tells_value aggregate }
{
    match aggregate {
        AggregateFnRef::Max
        | AggregateFnRef::Min
        | AggregateFnRef::Sum
        | AggregateFnRef::NullCount
        | AggregateFnRef::UncompressedSizeInBytes => true,
        AggregateFnRef::AllNull
        | AggregateFnRef::AllNonNull
        | AggregateFnRef::MinMax
        | AggregateFnRef::NanCount => false,
    }
}

// Says what a number tells for an aggregate of a column of so many rows.
#[inline]
fn told_of(aggregate: AggregateFnRef, is_exact: bool, number: PValue, rows: u64) -> Told
    ensures { let value = value.Primitive number in told_cell value result
        ≡ told_value aggregate (known_as is_exact value) rows }
{
    let count = match number {
        PValue::U64(count) => Some(count),
        _ => None,
    };
    Told::of(aggregate, is_exact, count, rows)
}

// Returns a number if it is told itself. How many rows there are doesn't matter.
#[inline]
fn told_itself<N: Number>(aggregate: AggregateFnRef, is_exact: bool, number: N) -> Option<N>
    requires { spec.tells_value aggregate ≡ true }
    ensures { (rows : ℕ) → option_map N.scalar result
        ≡ told_value aggregate (known_as is_exact (value.Primitive (N.pvalue number))) rows }
{
    match told_of(aggregate, is_exact, number.value(), 0) {
        Told::Value => Some(number),
        Told::Truth(_truth) => None,
        Told::Nothing => None,
    }
}

// Returns a number that may be absent if it is told itself.
#[inline]
fn told_number<N: Number>(aggregate: AggregateFnRef, number: Precision<N>) -> Option<N>
    requires { spec.tells_value aggregate ≡ true }
    ensures { (rows : ℕ) → option_map N.scalar result
        ≡ told_value aggregate (spec.numbered (spec.seen N.pvalue number)) rows }
{
    match number {
        Precision::Exact(number) => told_itself(aggregate, true, number),
        Precision::Inexact(bound) => told_itself(aggregate, false, bound),
        Precision::Absent => None,
    }
}

// Returns the truth that is told of a number, if one is.
#[inline]
fn told_as_truth(
    aggregate: AggregateFnRef,
    is_exact: bool,
    number: PValue,
    rows: u64,
) -> Option<bool>
    requires { spec.tells_value aggregate ≡ false }
    ensures { option_map value.Bool result
        ≡ told_value aggregate (known_as is_exact (value.Primitive number)) rows }
{
    match told_of(aggregate, is_exact, number, rows) {
        Told::Value => None,
        Told::Truth(truth) => Some(truth),
        Told::Nothing => None,
    }
}

// Returns the truth that is told of a number that may be absent, if one is.
#[inline]
fn told_truth<N: Number>(aggregate: AggregateFnRef, number: Precision<N>, rows: u64) -> Option<bool>
    requires { spec.tells_value aggregate ≡ false }
    ensures { option_map value.Bool result
        ≡ told_value aggregate (spec.numbered (spec.seen N.pvalue number)) rows }
{
    match number {
        Precision::Exact(number) => told_as_truth(aggregate, true, number.value(), rows),
        Precision::Inexact(number) => told_as_truth(aggregate, false, number.value(), rows),
        Precision::Absent => None,
    }
}

// The truths that a statistic tells for an aggregate of the zones from a place on.
#[inline(never)]
fn told_truths<N: Number>(
    alloc: Global,
    source: &Source<'_>,
    aggregate: AggregateFnRef,
    rows: &[u64],
    from: usize,
    count: usize,
) -> Option<ArrayData>
    requires numbers { spec.HasNumbers N.PTYPE source.now }
    requires truths { spec.tells_value aggregate ≡ false }
    requires within { from + count ≤ length rows.now }
    ensures { let told = spec.told_cells aggregate (Some source.now) rows.now from count in
        IfSome result (λ cells. told ≡ Ok (cell_values cells)) }
{
    let mut truths = PrimitiveArray::with_capacity(alloc, count).ok()?;
    for place in 0..count {
        let number = number_in::<N>(source, from + place)?;
        let truth = told_truth::<N>(aggregate, number, rows[from + place]);
        match truths.push(truth) {
            Ok(()) => {}
            Err(_) => return None,
        }
    }
    Some(ArrayData::Bool(truths))
}

// An optional value as it is kept: any value where there is none, and whether it is there.
#[inline]
fn kept<T: Copy + Default>(value: Option<T>) -> (T, bool)
    ensures { optional result.1 result.0 ≡ value }
{
    match value {
        Some(value) => (value, true),
        None => (T::default(), false),
    }
}

// The numbers that it tells, however each is known.
#[inline(never)]
fn told_each<N: Number>(
    alloc: Global,
    source: &Source<'_>,
    aggregate: AggregateFnRef,
    from: usize,
    count: usize,
) -> Option<ArrayData>
    requires numbers { spec.HasNumbers N.PTYPE source.now }
    requires value { spec.tells_value aggregate ≡ true }
    requires within { from + count < 2 ^ 64 }
    ensures { IfSome result (λ cells. (rows : List ℕ)
        → spec.told_cells aggregate (Some source.now) rows from count ≡ Ok (cell_values cells)) }
{
    let mut numbers = Vec::with_capacity(alloc, count).ok()?;
    let mut validity = Vec::with_capacity(alloc, count).ok()?;
    for place in 0..count {
        let number = number_in::<N>(source, from + place)?;
        let told = kept(told_number::<N>(aggregate, number));
        numbers.push_reserved(told.0);
        validity.push_reserved(told.1);
    }
    Some(N::into_cells(PrimitiveArray::from_vecs(numbers, validity)))
}

// Whether each byte says that a value is known exactly.
fn are_exact(known: &[u8]) -> bool
    ensures { result ≡ list_all spec.is_exact known.now }
{
    let mut exact = true;
    for code in known {
        exact = exact & (*code == 1);
    }
    exact
}

// The number that stands for a zone, whose bytes are there.
#[inline]
fn standing<N: Number>(source: &Source<'_>, zone: usize) -> N
    requires numbers { spec.HasNumbers N.PTYPE source.now }
    requires there { let width = number_width N.PTYPE in
        zone * width + width ≤ length source.now.statistic.values.now }
    ensures { spec.present_in source.now zone ≡ Ok (value.Primitive (N.pvalue result)) }
{
    number_at::<N>(source.statistic.values, zone)
}

// Puts the numbers of the zones from a place on, each of which is known exactly, in the place of
// others.
fn put_exactly<N: Number>(source: &Source<'_>, from: usize, numbers: &mut [N])
    requires numbers { spec.HasNumbers N.PTYPE source.now }
    requires within { from + length numbers.old < 2 ^ 64 }
    requires stand { spec.Stand N.PTYPE source.now (from + length numbers.old) }
    requires exact { spec.AreExact source.now from (length numbers.old) }
    ensures { spec.TellsValues source.now from (length numbers.old)
        (map (option_map N.scalar) (map Some numbers.new)) }
{
    // A copy, which no number that is put can change.
    let source = *source;
    for place in 0..numbers.len() {
        numbers[place] = standing::<N>(&source, from + place);
    }
}

// The numbers of the zones from a place on, each of which is known exactly.
#[inline(never)]
fn told_exactly<N: Number>(
    alloc: Global,
    source: &Source<'_>,
    from: usize,
    count: usize,
) -> Option<ArrayData>
    requires numbers { spec.HasNumbers N.PTYPE source.now }
    requires within { from + count < 2 ^ 64 }
    requires stand { spec.Stand N.PTYPE source.now (from + count) }
    requires exact { spec.AreExact source.now from count }
    ensures { IfSome result (λ cells. spec.TellsValues source.now from count (cell_values cells)) }
{
    let mut numbers = Vec::new(alloc);
    numbers.resize(count, N::default()).ok()?;
    put_exactly::<N>(source, from, &mut numbers);
    match PrimitiveArray::from_vec(alloc, numbers) {
        Ok(natives) => Some(N::into_cells(natives)),
        Err(_) => None,
    }
}

// Whether a number that is known exactly is there for each of so many zones from a place on.
fn stand_exactly<N: Number>(source: &Source<'_>, from: usize, count: usize) -> bool
    requires { from + count < 2 ^ 64 }
    ensures stand { OnTrue result (spec.Stand N.PTYPE source.now (from + count)) }
    ensures exact { OnTrue result (spec.AreExact source.now from count) }
{
    let end = from + count;
    stand::<N>(source, end) && are_exact(&source.statistic.known[from..end])
}

// Puts the truths that a statistic tells for an aggregate of the zones from a place on, each of
// which is known exactly, in the place of others. `None` where some zone has none. Where a call
// writes out the aggregate, a loop of vector instructions is made of it.
#[inline(always)]
fn put_truths_of<N: Number>(
    source: &Source<'_>,
    aggregate: AggregateFnRef,
    rows: &[u64],
    from: usize,
    truths: &mut [bool],
) -> Option<()>
    requires numbers { spec.HasNumbers N.PTYPE source.now }
    requires truths { spec.tells_value aggregate ≡ false }
    requires within { from + length truths.old ≤ length rows.now }
    requires stand { spec.Stand N.PTYPE source.now (from + length truths.old) }
    requires exact { spec.AreExact source.now from (length truths.old) }
    ensures { let told =
        spec.told_cells aggregate (Some source.now) rows.now from (length truths.old) in
        IfSome result (λ _. told ≡ Ok (map (option_map value.Bool) (map Some truths.new))) }
{
    let source = *source;
    for place in 0..truths.len() {
        let number = standing::<N>(&source, from + place).value();
        truths[place] = told_as_truth(aggregate, true, number, rows[from + place])?;
    }
    Some(())
}

// Puts truths, looking at the aggregate once.
fn put_truths<N: Number>(
    source: &Source<'_>,
    aggregate: AggregateFnRef,
    rows: &[u64],
    from: usize,
    truths: &mut [bool],
) -> Option<()>
    requires numbers { spec.HasNumbers N.PTYPE source.now }
    requires within { from + length truths.old ≤ length rows.now }
    requires stand { spec.Stand N.PTYPE source.now (from + length truths.old) }
    requires exact { spec.AreExact source.now from (length truths.old) }
    ensures { let told =
        spec.told_cells aggregate (Some source.now) rows.now from (length truths.old) in
        IfSome result (λ _. told ≡ Ok (map (option_map value.Bool) (map Some truths.new))) }
{
    match aggregate {
        AggregateFnRef::AllNull => {
            put_truths_of::<N>(source, AggregateFnRef::AllNull, rows, from, truths)
        }
        AggregateFnRef::AllNonNull => {
            put_truths_of::<N>(source, AggregateFnRef::AllNonNull, rows, from, truths)
        }
        _ => None,
    }
}

// The truths that a statistic tells for an aggregate of the zones from a place on, each of which is
// known exactly. There are none where some zone has none.
#[inline(never)]
fn truths_exactly<N: Number>(
    alloc: Global,
    source: &Source<'_>,
    aggregate: AggregateFnRef,
    rows: &[u64],
    from: usize,
    count: usize,
) -> Option<ArrayData>
    requires numbers { spec.HasNumbers N.PTYPE source.now }
    requires truths { spec.tells_value aggregate ≡ false }
    requires within { from + count ≤ length rows.now }
    requires stand { spec.Stand N.PTYPE source.now (from + count) }
    requires exact { spec.AreExact source.now from count }
    ensures { let told = spec.told_cells aggregate (Some source.now) rows.now from count in
        IfSome result (λ cells. told ≡ Ok (cell_values cells)) }
{
    let mut truths = Vec::new(alloc);
    truths.resize(count, false).ok()?;
    put_truths::<N>(source, aggregate, rows, from, &mut truths)?;
    match PrimitiveArray::from_vec(alloc, truths) {
        Ok(natives) => Some(ArrayData::Bool(natives)),
        Err(_) => None,
    }
}

// The truths that it tells, by the quicker way where that gives an answer.
fn truths_told<N: Number>(
    alloc: Global,
    source: &Source<'_>,
    aggregate: AggregateFnRef,
    rows: &[u64],
    from: usize,
    count: usize,
) -> Option<ArrayData>
    requires numbers { spec.HasNumbers N.PTYPE source.now }
    requires truths { spec.tells_value aggregate ≡ false }
    requires within { from + count ≤ length rows.now }
    ensures { let told = spec.told_cells aggregate (Some source.now) rows.now from count in
        IfSome result (λ cells. told ≡ Ok (cell_values cells)) }
{
    if stand_exactly::<N>(source, from, count) {
        if let Some(cells) = truths_exactly::<N>(alloc, source, aggregate, rows, from, count) {
            return Some(cells);
        }
    }
    told_truths::<N>(alloc, source, aggregate, rows, from, count)
}

// The cells of the zones from a place on, for an aggregate by a statistic.
fn told<N: Number>(
    alloc: Global,
    source: &Source<'_>,
    aggregate: AggregateFnRef,
    rows: &[u64],
    from: usize,
    count: usize,
) -> Option<ArrayData>
    requires numbers { spec.HasNumbers N.PTYPE source.now }
    requires within { from + count ≤ length rows.now }
    ensures { let told = spec.told_cells aggregate (Some source.now) rows.now from count in
        IfSome result (λ cells. told ≡ Ok (cell_values cells)) }
{
    if !tells_value(aggregate) {
        return truths_told::<N>(alloc, source, aggregate, rows, from, count);
    }
    if stand_exactly::<N>(source, from, count) {
        return told_exactly::<N>(alloc, source, from, count);
    }
    told_each::<N>(alloc, source, aggregate, from, count)
}

/// The cells of a statistic whose values are numbers of a type.
pub(crate) fn told_numbers(
    alloc: Global,
    source: &Source<'_>,
    ptype: PType,
    aggregate: AggregateFnRef,
    rows: &[u64],
    from: usize,
    count: usize,
) -> Option<ArrayData>
    requires numbers { spec.HasNumbers ptype source.now }
    requires within { from + count ≤ length rows.now }
    ensures { let told = spec.told_cells aggregate (Some source.now) rows.now from count in
        IfSome result (λ cells. told ≡ Ok (cell_values cells)) }
{
    match ptype {
        PType::U8 => told::<u8>(alloc, source, aggregate, rows, from, count),
        PType::U16 => told::<u16>(alloc, source, aggregate, rows, from, count),
        PType::U32 => told::<u32>(alloc, source, aggregate, rows, from, count),
        PType::U64 => told::<u64>(alloc, source, aggregate, rows, from, count),
        PType::I8 => told::<i8>(alloc, source, aggregate, rows, from, count),
        PType::I16 => told::<i16>(alloc, source, aggregate, rows, from, count),
        PType::I32 => told::<i32>(alloc, source, aggregate, rows, from, count),
        PType::I64 => told::<i64>(alloc, source, aggregate, rows, from, count),
    }
}
