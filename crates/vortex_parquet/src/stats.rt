//! Sets of statistics from the statistics of a footer.
ghost use Rattle.std.specs.Prelude.{◌≡◌, ◌^◌, ◌-◌, IfOk, map, negsuc, option_copied, pos, slice_get};
ghost use Rattle.vortex_base.specs.declared.pvalue.PValue.TheVariants as number;
ghost use Rattle.vortex_parquet.specs.Fields.{many};
ghost use Rattle.vortex_parquet.specs.Reading.{Gives};
ghost use Rattle.vortex_parquet.specs.Records.{chunk_size, chunk_view, file_view, row_group_view};
ghost use Rattle.vortex_parquet.specs.Records.{statistics_view, statistics_views};
ghost use Rattle.vortex_parquet.specs.Stats as spec;

use crate::columns::{Form, Leaf};
use crate::decimals::number_of;
use crate::fault::{Fault, ReadError};
use crate::records::{
    self, ColumnChunk, FileMetaData, RowGroup, Statistics, chunk_of, is_number, row_group_of,
};
use std::alloc::{AllocError, Global};
use vortex_base::bytes::Bytes;
use vortex_base::pvalue::PValue;
use vortex_base::scalar_value::ScalarValue;
use vortex_base::text::Text;
use vortex_base::types::{Nullability, PType};
use vortex_logical::float_type::FloatType;
use vortex_stats::precision::Precision;
use vortex_stats::stat::Stat;
use vortex_stats::stats_set::StatsSet;

// A number of the type, if it is one.
fn i8_of(n: i32) -> Option<PValue>
    ensures { result ≡ spec.within (negsuc (2 ^ 7 - 1)) (pos (2 ^ 7 - 1)) number.I8 n }
{
    if -128 <= n && n <= 127 {
        return Some(PValue::I8(n as i8));
    }
    None
}

// A number of the type, if it is one.
fn i16_of(n: i32) -> Option<PValue>
    ensures { result ≡ spec.within (negsuc (2 ^ 15 - 1)) (pos (2 ^ 15 - 1)) number.I16 n }
{
    if -32768 <= n && n <= 32767 {
        return Some(PValue::I16(n as i16));
    }
    None
}

// A number of the type, if it is one.
fn u8_of(n: u32) -> Option<PValue>
    ensures { result ≡ spec.under (2 ^ 8) number.U8 n }
{
    if n < 256 {
        return Some(PValue::U8(n as u8));
    }
    None
}

// A number of the type, if it is one.
fn u16_of(n: u32) -> Option<PValue>
    ensures { result ≡ spec.under (2 ^ 16) number.U16 n }
{
    if n < 65536 {
        return Some(PValue::U16(n as u16));
    }
    None
}

// A number of a type by its bits in four bytes, if it is one of the type.
#[tactic(auto, unfolding(crate::specs::Stats::four_of))]
fn four_of(ptype: PType, bits: u32) -> Option<PValue>
    ensures { result ≡ spec.four_of ptype bits }
{
    match ptype {
        PType::I8 => i8_of(bits.cast_signed()),
        PType::I16 => i16_of(bits.cast_signed()),
        PType::I32 => Some(PValue::I32(bits.cast_signed())),
        PType::U8 => u8_of(bits),
        PType::U16 => u16_of(bits),
        PType::U32 => Some(PValue::U32(bits)),
        PType::U64 | PType::I64 => None,
    }
}

// Returns the value of a type of 64 bits, and none for other types.
#[tactic(auto, unfolding(crate::specs::Stats::eight_of))]
fn eight_of(ptype: PType, bits: u64) -> Option<PValue>
    ensures { result ≡ spec.eight_of ptype bits }
{
    match ptype {
        PType::I64 => Some(PValue::I64(bits.cast_signed())),
        PType::U64 => Some(PValue::U64(bits)),
        _ => None,
    }
}

fn number_value(number: Option<PValue>) -> Option<ScalarValue>
    ensures { result ≡ spec.number_value number }
{
    match number {
        Some(number) => Some(ScalarValue::Primitive(number)),
        None => None,
    }
}

#[tactic(auto, unfolding(crate::specs::Stats::bool_value))]
fn bool_value(bytes: &[u8]) -> Option<ScalarValue>
    ensures { result ≡ spec.bool_value bytes.now }
{
    match bytes {
        [byte] => {
            if *byte == 0 {
                return Some(ScalarValue::Bool(false));
            }
            if *byte == 1 {
                return Some(ScalarValue::Bool(true));
            }
            None
        }
        _ => None,
    }
}

#[tactic(auto, unfolding(crate::specs::Stats::four_value))]
fn four_value(ptype: PType, bytes: &[u8]) -> Option<ScalarValue>
    ensures { result ≡ spec.four_value ptype bytes.now }
{
    if bytes.len() != 4 {
        return None;
    }
    let bits = u32::from_le_bytes([bytes[0], bytes[1], bytes[2], bytes[3]]);
    number_value(four_of(ptype, bits))
}

#[tactic(auto, unfolding(crate::specs::Stats::eight_value))]
fn eight_value(ptype: PType, bytes: &[u8]) -> Option<ScalarValue>
    ensures { result ≡ spec.eight_value ptype bytes.now }
{
    if bytes.len() != 8 {
        return None;
    }
    let bits = u64::from_le_bytes([
        bytes[0], bytes[1], bytes[2], bytes[3], bytes[4], bytes[5], bytes[6], bytes[7],
    ]);
    number_value(eight_of(ptype, bits))
}

// The text that the bytes are, if they are UTF-8.
fn text_value(alloc: Global, bytes: &[u8]) -> Result<Option<ScalarValue>, AllocError>
    ensures { IfOk result (λ v. v ≡ spec.text_value bytes.now) }
{
    match str::from_utf8(bytes) {
        Ok(text) => {
            let text = String::from_str(alloc, text)?;
            Ok(Some(ScalarValue::Utf8(Text::new(text))))
        }
        Err(_) => Ok(None),
    }
}

// The number of a decimal that the bytes are, if it fits 64 bits.
fn decimal_value(bytes: &[u8]) -> Option<ScalarValue>
    ensures { result ≡ spec.decimal_value bytes.now }
{
    match number_of(bytes) {
        Some(number) => Some(ScalarValue::Primitive(PValue::I64(number))),
        None => None,
    }
}

// The whole number of a float of 32 bits, if it isn't NaN.
fn single_of(bits: u32) -> Option<PValue>
    ensures { result ≡ spec.single_of bits }
{
    let bits = u64::from(bits);
    if FloatType::F32.is_nan(bits) {
        return None;
    }
    let key = FloatType::F32.key(bits);
    if -2_147_483_648 <= key && key <= 2_147_483_647 {
        return Some(PValue::I32(key as i32));
    }
    None
}

// The whole number of a float of 64 bits, if it isn't NaN.
fn double_of(bits: u64) -> Option<PValue>
    ensures { result ≡ spec.double_of bits }
{
    if FloatType::F64.is_nan(bits) {
        return None;
    }
    Some(PValue::I64(FloatType::F64.key(bits)))
}

// The whole number of the float that the bytes are, if it isn't NaN.
#[tactic(auto, unfolding(crate::specs::Stats::float_value))]
fn float_value(float: FloatType, bytes: &[u8]) -> Option<ScalarValue>
    ensures { result ≡ spec.float_value float bytes.now }
{
    match float {
        FloatType::F16 => None,
        FloatType::F32 => {
            if bytes.len() != 4 {
                return None;
            }
            let bits = u32::from_le_bytes([bytes[0], bytes[1], bytes[2], bytes[3]]);
            number_value(single_of(bits))
        }
        FloatType::F64 => {
            if bytes.len() != 8 {
                return None;
            }
            let bits = u64::from_le_bytes([
                bytes[0], bytes[1], bytes[2], bytes[3], bytes[4], bytes[5], bytes[6], bytes[7],
            ]);
            number_value(double_of(bits))
        }
    }
}

// The value of a form that the bytes are, if they are one.
fn value_of(alloc: Global, form: Form, bytes: &[u8]) -> Result<Option<ScalarValue>, AllocError>
    ensures { IfOk result (λ v. v ≡ spec.value_of form bytes.now) }
{
    match form {
        Form::Bool => Ok(bool_value(bytes)),
        Form::Four(ptype) => Ok(four_value(ptype, bytes)),
        Form::Eight(ptype) => Ok(eight_value(ptype, bytes)),
        Form::Utf8 => text_value(alloc, bytes),
        Form::Decimal => Ok(decimal_value(bytes)),
        Form::Float(float) => Ok(float_value(float, bytes)),
        Form::Binary => {
            let bytes = Vec::from_slice(alloc, bytes)?;
            Ok(Some(ScalarValue::Binary(Bytes::new(bytes))))
        }
    }
}

/// The bytes of a bound, and whether it is told to be exact.
#[derive(Clone, Copy, Debug)]
struct Bound<'a> {
    bytes: &'a [u8],
    is_exact: bool,
}

fn told(bytes: Option<&[u8]>, is_exact: bool) -> Option<Bound<'_>>
    ensures { spec.bound_view result ≡ spec.told (option_copied bytes.entry) is_exact }
{
    match bytes {
        Some(bytes) => Some(Bound { bytes, is_exact }),
        None => None,
    }
}

// The bound that may be used: the newer one where the column's order is that of its type, else the
// deprecated one where that is the order of signed numbers.
fn chosen<'a>(
    form: Form,
    is_ordered: bool,
    newer: Option<&'a [u8]>,
    older: Option<&'a [u8]>,
    is_exact: bool,
) -> Option<Bound<'a>>
    ensures { spec.bound_view result ≡ spec.chosen form is_ordered
        (option_copied newer.entry) (option_copied older.entry) is_exact }
{
    if is_ordered && newer.is_some() {
        return told(newer, is_exact);
    }
    if form.is_signed() {
        return told(older, false);
    }
    None
}

// A value as a statistic.
fn precise(is_exact: bool, value: Option<ScalarValue>) -> Precision<ScalarValue>
    ensures { result ≡ spec.precise is_exact value }
{
    match value {
        None => Precision::Absent,
        Some(value) => {
            if is_exact {
                Precision::Exact(value)
            } else {
                Precision::Inexact(value)
            }
        }
    }
}

// A bound as a statistic. One that is not told to be exact is inexact, which is true whether or
// not it is attained.
fn bound_of(
    alloc: Global,
    form: Form,
    bound: Option<Bound<'_>>,
) -> Result<Precision<ScalarValue>, AllocError>
    ensures { IfOk result (λ p.
        p ≡ spec.bound_by (spec.value_of form) (spec.bound_view bound.entry)) }
{
    match bound {
        None => Ok(Precision::Absent),
        Some(bound) => {
            let value = value_of(alloc, form, bound.bytes)?;
            Ok(precise(bound.is_exact, value))
        }
    }
}

// The greatest bound as a statistic. That of floats leaves NaN out, which may stand above it.
fn greatest_of(
    alloc: Global,
    form: Form,
    bound: Option<Bound<'_>>,
) -> Result<Precision<ScalarValue>, AllocError>
    ensures { IfOk result (λ p.
        p ≡ spec.bound_by (spec.greatest_value form) (spec.bound_view bound.entry)) }
{
    match form {
        Form::Float(_) => Ok(Precision::Absent),
        Form::Bool | Form::Four(_) | Form::Eight(_) | Form::Utf8 | Form::Binary | Form::Decimal =>
            bound_of(alloc, form, bound),
    }
}

// A number of nulls as a statistic.
fn count_of(count: Option<u64>) -> Precision<ScalarValue>
    ensures { result ≡ spec.count_of count }
{
    match count {
        None => Precision::Absent,
        Some(count) => Precision::Exact(ScalarValue::Primitive(PValue::U64(count))),
    }
}

/// Returns the set of a column's statistics.
#[tactic(auto, unfolding(crate::specs::Stats::set_of))]
pub fn set_of(
    alloc: Global,
    form: Form,
    is_ordered: bool,
    statistics: &Statistics<'_>,
) -> Result<StatsSet, AllocError>
    ensures { IfOk result (λ s.
        s ≡ spec.set_of form is_ordered (statistics_view statistics.now)) }
{
    let s = *statistics;
    let max = chosen(form, is_ordered, s.max, s.old_max, s.is_max_exact);
    let max = greatest_of(alloc, form, max)?;
    let min = chosen(form, is_ordered, s.min, s.old_min, s.is_min_exact);
    let min = bound_of(alloc, form, min)?;
    let mut set = StatsSet::new(alloc);
    set.put(Stat::Max, max);
    set.put(Stat::Min, min);
    set.put(Stat::NullCount, count_of(s.null_count));
    Ok(set)
}

/// Returns the number of nulls: as it is told, and 0 where it isn't told of a column that the schema
/// has without nulls.
pub(crate) fn nulls_of(nullability: Nullability, count: Option<u64>) -> Option<u64>
    ensures { result ≡ spec.nulls_of nullability count }
{
    match (count, nullability) {
        (None, Nullability::NonNullable) => Some(0),
        _ => count,
    }
}

fn without_nulls<'a>() -> Statistics<'a>
    ensures { statistics_view result ≡ spec.without_nulls }
{
    Statistics {
        old_max: None,
        old_min: None,
        null_count: Some(0),
        max: None,
        min: None,
        is_max_exact: false,
        is_min_exact: false,
    }
}

/// Returns the statistics of a column chunk, as they are told and by the schema: a column that is
/// `REQUIRED` has no nulls, whether or not its statistics tell it.
pub(crate) fn statistics_by<'a>(
    nullability: Nullability,
    statistics: Option<Statistics<'a>>,
) -> Option<Statistics<'a>>
    ensures { statistics_views result
        ≡ spec.statistics_by nullability (statistics_views statistics.entry) }
{
    match (statistics, nullability) {
        (Some(s), _) => Some(Statistics {
            old_max: s.old_max,
            old_min: s.old_min,
            null_count: nulls_of(nullability, s.null_count),
            max: s.max,
            min: s.min,
            is_max_exact: s.is_max_exact,
            is_min_exact: s.is_min_exact,
        }),
        (None, Nullability::NonNullable) => Some(without_nulls()),
        (None, Nullability::Nullable) => None,
    }
}

fn set_or_none(
    alloc: Global,
    form: Form,
    is_ordered: bool,
    statistics: &Option<Statistics<'_>>,
) -> Result<StatsSet, AllocError>
    ensures { IfOk result (λ s.
        s ≡ spec.set_or_none form is_ordered (statistics_views statistics.now)) }
{
    match statistics {
        Some(statistics) => set_of(alloc, form, is_ordered, statistics),
        None => Ok(StatsSet::new(alloc)),
    }
}

// The set of a column chunk, without an entry where that is told to be of another physical type
// than the column of the schema.
#[tactic(auto, unfolding(crate::specs::Stats::chunk_set))]
fn chunk_set(
    alloc: Global,
    leaf: Leaf,
    is_ordered: bool,
    chunk: &ColumnChunk<'_>,
) -> Result<StatsSet, AllocError>
    ensures { IfOk result (λ s. s ≡ spec.chunk_set leaf is_ordered (chunk_view chunk.now)) }
{
    if is_number(leaf.physical, chunk.physical) {
        let statistics = statistics_by(leaf.nullability, chunk.statistics);
        return set_or_none(alloc, leaf.form, is_ordered, &statistics);
    }
    Ok(StatsSet::new(alloc))
}

// The set of the column chunk with which the bytes begin.
#[tactic(auto, unfolding(crate::specs::Stats::span_set))]
fn span_set(
    alloc: Global,
    leaf: Leaf,
    is_ordered: bool,
    bytes: &[u8],
) -> Result<StatsSet, ReadError>
    ensures { Gives (λ s. s) result (spec.span_set leaf is_ordered bytes.now) }
{
    let chunk = chunk_of(alloc, bytes)?;
    let set = chunk_set(alloc, leaf, is_ordered, &chunk)?;
    Ok(set)
}

/// Tells whether there is a truth at a place, and not a falsehood.
pub fn is_true_at(truths: &[bool], place: usize) -> bool
    ensures { result ≡ spec.or_false (slice_get truths.now place) }
{
    match truths.get(place) {
        Some(truth) => *truth,
        None => false,
    }
}

// The set of a leaf column of a row group.
#[tactic(auto, unfolding(crate::specs::Stats::leaf_set))]
fn leaf_set(
    alloc: Global,
    orders: &[bool],
    columns: &[&[u8]],
    leaf: Leaf,
) -> Result<StatsSet, ReadError>
    ensures { Gives (λ s. s) result
        (spec.leaf_set orders.now (map (λ s. s.now) columns.now) leaf) }
{
    let is_ordered = is_true_at(orders, leaf.place);
    if leaf.place >= columns.len() {
        return Ok(StatsSet::new(alloc));
    }
    span_set(alloc, leaf, is_ordered, columns[leaf.place])
}

// The sets of the leaf columns of a row group.
fn leaf_sets(
    alloc: Global,
    orders: &[bool],
    columns: &[&[u8]],
    leaves: &[Leaf],
) -> Result<Vec<StatsSet>, ReadError>
    ensures { Gives (λ v. v.items) result
        (spec.all_of (spec.leaf_set orders.now (map (λ s. s.now) columns.now)) leaves.now) }
{
    let mut sets = Vec::with_capacity(alloc, leaves.len())?;
    for leaf in leaves {
        sets.push(leaf_set(alloc, orders, columns, *leaf)?)?;
    }
    Ok(sets)
}

/// The statistics of a row group: how many rows it has, how many bytes it takes in the file, if the
/// footer tells it of the row group or of each of its column chunks, and the statistics of each leaf
/// column that is read.
#[derive(Debug, Drop)]
pub struct GroupStats {
    pub rows: u64,
    pub size: Option<u64>,
    pub stats: Vec<StatsSet>,
}

// Returns the size of each column chunk, if it is told.
fn sizes_of(alloc: Global, columns: &[&[u8]]) -> Result<Vec<Option<u64>>, ReadError>
    ensures { Gives (λ v. v.items) result
        (spec.all_of chunk_size (map (λ s. s.now) columns.now)) }
{
    let mut sizes = Vec::with_capacity(alloc, columns.len())?;
    for column in columns {
        sizes.push(records::chunk_size(alloc, column)?)?;
    }
    Ok(sizes)
}

// Returns the sum of sizes, if each is told and it fits 64 bits.
fn sum_of(sizes: &[Option<u64>]) -> Option<u64>
    ensures { result ≡ spec.sum_of sizes.now }
{
    let mut sum: u64 = 0;
    for size in sizes {
        let size = (*size)?;
        sum = sum.checked_add(size)?;
    }
    Some(sum)
}

// Returns the size of a row group: as it is told, and else that of its column chunks together.
#[tactic(auto, unfolding(crate::specs::Stats::size_of))]
fn size_of(alloc: Global, group: &RowGroup<'_>) -> Result<Option<u64>, ReadError>
    ensures { Gives (λ n. n) result
        (spec.size_of group.now.size (map (λ s. s.now) group.now.columns.items)) }
{
    match group.size {
        Some(size) => Ok(Some(size)),
        None => {
            let sizes = sizes_of(alloc, &group.columns)?;
            Ok(sum_of(&sizes))
        }
    }
}

// Returns the statistics of a row group, of a file with so many leaf columns.
#[tactic(auto, unfolding(crate::specs::Stats::group_of))]
fn group_of(
    alloc: Global,
    leaves: &[Leaf],
    count: usize,
    orders: &[bool],
    group: &RowGroup<'_>,
) -> Result<GroupStats, ReadError>
    ensures { Gives spec.group_view result
        (spec.group_of leaves.now count orders.now (row_group_view group.now)) }
{
    if group.columns.len() != count {
        return Err(ReadError::Fault(Fault::Columns));
    }
    let stats = leaf_sets(alloc, orders, &group.columns, leaves)?;
    let size = size_of(alloc, group)?;
    Ok(GroupStats {
        rows: group.rows,
        size,
        stats,
    })
}

// Returns the statistics of so many row groups in a row, of a file with so many leaf columns.
fn groups_in(
    alloc: Global,
    leaves: &[Leaf],
    columns: usize,
    orders: &[bool],
    count: usize,
    bytes: &[u8],
) -> Result<Vec<GroupStats>, ReadError>
    ensures { Gives (λ v. map spec.group_view v.items) result
        (many (spec.group_at leaves.now columns orders.now) count bytes.now) }
{
    let mut known = Vec::new(alloc);
    let mut rest = bytes;
    for _ in 0..count {
        let (group, after) = row_group_of(alloc, rest)?;
        let found = group_of(alloc, leaves, columns, orders, &group)?;
        known.push(found)?;
        rest = after;
    }
    Ok(known)
}

/// Returns what is known of each row group of a file with so many leaf columns, of which these are
/// read.
#[tactic(auto, unfolding(crate::specs::Stats::groups_of))]
pub fn groups_of(
    alloc: Global,
    leaves: &[Leaf],
    count: usize,
    file: &FileMetaData<'_>,
) -> Result<Vec<GroupStats>, ReadError>
    ensures { Gives (λ v. map spec.group_view v.items) result
        (spec.groups_of leaves.now count (file_view file.now)) }
{
    let groups = file.groups;
    groups_in(
        alloc,
        leaves,
        count,
        &file.orders,
        groups.count,
        groups.from,
    )
}
