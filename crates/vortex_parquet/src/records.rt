//! The records of a footer, as far as pruning needs them.
ghost use Rattle.std.specs.Prelude.{◌≡◌, map, option_copied};
ghost use Rattle.vortex_parquet.specs.Fields.{field_views, many};
ghost use Rattle.vortex_parquet.specs.Reading.{Gives};
ghost use Rattle.vortex_parquet.specs.Records as spec;

use crate::compact::Kind;
use crate::fault::{Fault, ReadError};
use crate::fields::{
    Field, Items, binary_in, byte_in, found, is_told, items_in, natural_in, number_in, spans,
    struct_of, truth_in,
};
use std::alloc::Global;
use vortex_logical::time_unit::TimeUnit;

/// The statistics of a column in a row group, as they are written.
#[derive(Clone, Copy, Debug)]
pub struct Statistics<'a> {
    /// The deprecated bounds, in the order of signed numbers whatever the column's type.
    pub old_max: Option<&'a [u8]>,
    pub old_min: Option<&'a [u8]>,
    pub null_count: Option<u64>,
    /// The bounds in the order of the column's type.
    pub max: Option<&'a [u8]>,
    pub min: Option<&'a [u8]>,
    pub is_max_exact: bool,
    pub is_min_exact: bool,
}

/// A column chunk: its physical type and its statistics, if they are there.
#[derive(Clone, Copy, Debug)]
pub struct ColumnChunk<'a> {
    pub physical: Option<u64>,
    pub statistics: Option<Statistics<'a>>,
}

/// A row group: its number of rows, how many bytes it takes in the file, if it tells that, and the
/// bytes of the footer from each of its column chunks on.
#[derive(Debug, Drop)]
pub struct RowGroup<'a> {
    pub rows: u64,
    pub size: Option<u64>,
    pub columns: Vec<&'a [u8]>,
}

/// How a column's values are annotated.
#[derive(Clone, Copy, Debug, PartialEq, Eq)]
pub enum Annotation {
    /// No annotation.
    None,
    /// String, enumeration or JSON text.
    Text,
    /// Decimals: how many of their digits stand behind the point, and how many digits they have at
    /// most, where these are told and not below 0.
    Decimal(Option<u64>, Option<u64>),
    /// Days.
    Date,
    /// Times of day: their unit, if it is told and known.
    Time(Option<TimeUnit>),
    /// Timestamps: whether they are adjusted to UTC, if it is told, and their unit.
    Timestamp(Option<bool>, Option<TimeUnit>),
    /// A whole number of so many bits, with a sign or without.
    Integer(u8, bool),
    /// Bytes that compare byte by byte: BSON and UUID.
    Bytes,
    /// Any other.
    Other,
}

/// An element of the schema.
#[derive(Clone, Copy, Debug)]
pub struct SchemaElement<'a> {
    pub physical: Option<u64>,
    pub repetition: Option<u64>,
    pub name: &'a [u8],
    pub children: Option<u64>,
    pub converted: Option<u64>,
    /// The scale of decimals, with its sign in the lowest bit.
    pub scale: Option<u64>,
    /// How many digits decimals have at most.
    pub precision: Option<u64>,
    pub annotation: Option<Annotation>,
}

/// A footer: the schema, for each leaf column whether its order is that of its type, and the row
/// groups, which are not read yet.
#[derive(Debug, Drop)]
pub struct FileMetaData<'a> {
    pub schema: Vec<SchemaElement<'a>>,
    pub orders: Vec<bool>,
    pub groups: Items<'a>,
}

#[tactic(auto, unfolding(crate::specs::Records::statistics_of))]
fn statistics_of(alloc: Global, bytes: &[u8]) -> Result<Statistics<'_>, ReadError>
    ensures { Gives spec.statistics_view result (spec.statistics_of bytes.now) }
{
    let (fields, _) = struct_of(alloc, bytes)?;
    let old_max = binary_in(&fields, 1)?;
    let old_min = binary_in(&fields, 2)?;
    let null_count = natural_in(&fields, 3, Kind::I64)?;
    let max = binary_in(&fields, 5)?;
    let min = binary_in(&fields, 6)?;
    let is_max_exact = is_told(&fields, 7);
    let is_min_exact = is_told(&fields, 8);
    Ok(Statistics {
        old_max,
        old_min,
        null_count,
        max,
        min,
        is_max_exact,
        is_min_exact,
    })
}

#[tactic(auto, unfolding(crate::specs::Records::statistics_in))]
fn statistics_in<'a>(
    alloc: Global,
    fields: &[Field<'a>],
    id: u16,
) -> Result<Option<Statistics<'a>>, ReadError>
    ensures { Gives spec.statistics_views result (spec.statistics_in (field_views fields.now) id) }
{
    match found(fields, id, Kind::Struct) {
        None => Ok(None),
        Some(from) => Ok(Some(statistics_of(alloc, from)?)),
    }
}

// The metadata of a column chunk.
#[tactic(auto, unfolding(crate::specs::Records::meta_of))]
fn meta_of(alloc: Global, bytes: &[u8]) -> Result<ColumnChunk<'_>, ReadError>
    ensures { Gives spec.chunk_view result (spec.meta_of bytes.now) }
{
    let (fields, _) = struct_of(alloc, bytes)?;
    let physical = natural_in(&fields, 1, Kind::I32)?;
    let statistics = statistics_in(alloc, &fields, 12)?;
    Ok(ColumnChunk {
        physical,
        statistics,
    })
}

/// Reads the column chunk with which the bytes begin. One whose metadata isn't in the footer, as
/// that of an encrypted column, has neither a type nor statistics.
#[tactic(auto, unfolding(crate::specs::Records::chunk_of))]
pub fn chunk_of(alloc: Global, bytes: &[u8]) -> Result<ColumnChunk<'_>, ReadError>
    ensures { Gives spec.chunk_view result (spec.chunk_of bytes.now) }
{
    let (fields, _) = struct_of(alloc, bytes)?;
    match found(&fields, 3, Kind::Struct) {
        None => Ok(ColumnChunk {
            physical: None,
            statistics: None,
        }),
        Some(from) => meta_of(alloc, from),
    }
}

// The number of bytes that a column chunk takes in the file, if its metadata tells it.
#[tactic(auto, unfolding(crate::specs::Records::meta_size))]
fn meta_size(alloc: Global, bytes: &[u8]) -> Result<Option<u64>, ReadError>
    ensures { Gives (λ n. n) result (spec.meta_size bytes.now) }
{
    let (fields, _) = struct_of(alloc, bytes)?;
    natural_in(&fields, 7, Kind::I64)
}

/// Reads how many bytes the column chunk takes in the file with which the bytes begin, if it is
/// told.
#[tactic(auto, unfolding(crate::specs::Records::chunk_size))]
pub(crate) fn chunk_size(alloc: Global, bytes: &[u8]) -> Result<Option<u64>, ReadError>
    ensures { Gives (λ n. n) result (spec.chunk_size bytes.now) }
{
    let (fields, _) = struct_of(alloc, bytes)?;
    match found(&fields, 3, Kind::Struct) {
        None => Ok(None),
        Some(from) => meta_size(alloc, from),
    }
}

/// Tells whether a number is known to be this one.
pub fn is_number(number: u64, known: Option<u64>) -> bool
    ensures { result ≡ spec.is_number number known }
{
    match known {
        Some(known) => known == number,
        None => false,
    }
}

/// Returns a number that has to be there.
pub fn required(number: Option<u64>) -> Result<u64, ReadError>
    ensures { Gives (λ n. n) result (spec.required number) }
{
    match number {
        Some(number) => Ok(number),
        None => Err(ReadError::Fault(Fault::Missing)),
    }
}

#[tactic(auto, unfolding(crate::specs::Records::spans_of))]
fn spans_of<'a>(alloc: Global, fields: &[Field<'a>], id: u16) -> Result<Vec<&'a [u8]>, ReadError>
    ensures { Gives (λ spans. map (λ s. s.now) spans.items) result
        (spec.spans_of (field_views fields.now) id) }
{
    let list = items_in(fields, id, Kind::Struct)?;
    spans(alloc, list.count, list.from)
}

/// Reads the row group with which the bytes begin, and returns the bytes behind it too.
#[tactic(auto, unfolding(crate::specs::Records::row_group_of))]
pub fn row_group_of(alloc: Global, bytes: &[u8]) -> Result<(RowGroup<'_>, &[u8]), ReadError>
    ensures { Gives (λ x. (spec.row_group_view x.0, x.1.now)) result
        (spec.row_group_of bytes.now) }
{
    let (fields, rest) = struct_of(alloc, bytes)?;
    let number = natural_in(&fields, 3, Kind::I64)?;
    let rows = required(number)?;
    let size = natural_in(&fields, 6, Kind::I64)?;
    let columns = spans_of(alloc, &fields, 1)?;
    let group = RowGroup {
        rows,
        size,
        columns,
    };
    Ok((group, rest))
}

// A whole number's annotation.
#[tactic(auto, unfolding(crate::specs::Records::integer_of))]
fn integer_of(alloc: Global, bytes: &[u8]) -> Result<Annotation, ReadError>
    ensures { Gives (λ l. l) result (spec.integer_of bytes.now) }
{
    let (fields, _) = struct_of(alloc, bytes)?;
    let signed = is_told(&fields, 2);
    match byte_in(&fields, 1) {
        Some(bits) => Ok(Annotation::Integer(bits, signed)),
        None => Ok(Annotation::Other),
    }
}

// The annotation of decimals, which always tells their scale and their precision.
#[tactic(auto, unfolding(crate::specs::Records::decimal_of))]
fn decimal_of(alloc: Global, bytes: &[u8]) -> Result<Annotation, ReadError>
    ensures { Gives (λ l. l) result (spec.decimal_of bytes.now) }
{
    let (fields, _) = struct_of(alloc, bytes)?;
    let scale = natural_in(&fields, 1, Kind::I32)?;
    let precision = natural_in(&fields, 2, Kind::I32)?;
    Ok(Annotation::Decimal(scale, precision))
}

// The unit that a union tells by its first field.
fn unit_from(fields: &[Field<'_>]) -> Option<TimeUnit>
    ensures { result ≡ spec.unit_from (field_views fields.now) }
{
    match fields {
        [] => None,
        [field, ..] => match field.id {
            1 => Some(TimeUnit::Milliseconds),
            2 => Some(TimeUnit::Microseconds),
            3 => Some(TimeUnit::Nanoseconds),
            _ => None,
        },
    }
}

#[tactic(auto, unfolding(crate::specs::Records::unit_at))]
fn unit_at(alloc: Global, bytes: &[u8]) -> Result<Option<TimeUnit>, ReadError>
    ensures { Gives (λ u. u) result (spec.unit_at bytes.now) }
{
    let (fields, _) = struct_of(alloc, bytes)?;
    Ok(unit_from(&fields))
}

#[tactic(auto, unfolding(crate::specs::Records::unit_in))]
fn unit_in(alloc: Global, fields: &[Field<'_>], id: u16) -> Result<Option<TimeUnit>, ReadError>
    ensures { Gives (λ u. u) result (spec.unit_in (field_views fields.now) id) }
{
    match found(fields, id, Kind::Struct) {
        None => Ok(None),
        Some(from) => unit_at(alloc, from),
    }
}

// The annotation of times of day.
#[tactic(auto, unfolding(crate::specs::Records::time_of))]
fn time_of(alloc: Global, bytes: &[u8]) -> Result<Annotation, ReadError>
    ensures { Gives (λ l. l) result (spec.time_of bytes.now) }
{
    let (fields, _) = struct_of(alloc, bytes)?;
    let unit = unit_in(alloc, &fields, 2)?;
    Ok(Annotation::Time(unit))
}

// The annotation of timestamps.
#[tactic(auto, unfolding(crate::specs::Records::timestamp_of))]
fn timestamp_of(alloc: Global, bytes: &[u8]) -> Result<Annotation, ReadError>
    ensures { Gives (λ l. l) result (spec.timestamp_of bytes.now) }
{
    let (fields, _) = struct_of(alloc, bytes)?;
    let unit = unit_in(alloc, &fields, 2)?;
    Ok(Annotation::Timestamp(truth_in(&fields, 1), unit))
}

// The annotation that a union tells by its first field.
#[tactic(auto, unfolding(crate::specs::Records::annotation_from))]
fn annotation_from(alloc: Global, fields: &[Field<'_>]) -> Result<Annotation, ReadError>
    ensures { Gives (λ l. l) result (spec.annotation_from (field_views fields.now)) }
{
    match fields {
        [] => Ok(Annotation::None),
        [field, ..] => match field.id {
            1 | 4 | 12 => Ok(Annotation::Text),
            5 if field.kind == Kind::Struct => decimal_of(alloc, field.from),
            6 if field.kind == Kind::Struct => Ok(Annotation::Date),
            7 if field.kind == Kind::Struct => time_of(alloc, field.from),
            8 if field.kind == Kind::Struct => timestamp_of(alloc, field.from),
            10 if field.kind == Kind::Struct => integer_of(alloc, field.from),
            13 | 14 => Ok(Annotation::Bytes),
            _ => Ok(Annotation::Other),
        },
    }
}

#[tactic(auto, unfolding(crate::specs::Records::annotation_at))]
fn annotation_at(alloc: Global, bytes: &[u8]) -> Result<Annotation, ReadError>
    ensures { Gives (λ l. l) result (spec.annotation_at bytes.now) }
{
    let (fields, _) = struct_of(alloc, bytes)?;
    annotation_from(alloc, &fields)
}

#[tactic(auto, unfolding(crate::specs::Records::annotation_in))]
fn annotation_in(
    alloc: Global,
    fields: &[Field<'_>],
    id: u16,
) -> Result<Option<Annotation>, ReadError>
    ensures { Gives (λ l. l) result (spec.annotation_in (field_views fields.now) id) }
{
    match found(fields, id, Kind::Struct) {
        None => Ok(None),
        Some(from) => Ok(Some(annotation_at(alloc, from)?)),
    }
}

// A string of bytes that has to be there.
fn required_bytes(bytes: Option<&[u8]>) -> Result<&[u8], ReadError>
    ensures { Gives (λ b. b.now) result (spec.required (option_copied bytes.entry)) }
{
    match bytes {
        Some(bytes) => Ok(bytes),
        None => Err(ReadError::Fault(Fault::Missing)),
    }
}

#[tactic(auto, unfolding(crate::specs::Records::element_of))]
fn element_of(alloc: Global, bytes: &[u8]) -> Result<(SchemaElement<'_>, &[u8]), ReadError>
    ensures { Gives (λ x. (spec.element_view x.0, x.1.now)) result (spec.element_of bytes.now) }
{
    let (fields, rest) = struct_of(alloc, bytes)?;
    let text = binary_in(&fields, 4)?;
    let name = required_bytes(text)?;
    let physical = natural_in(&fields, 1, Kind::I32)?;
    let repetition = natural_in(&fields, 3, Kind::I32)?;
    let children = natural_in(&fields, 5, Kind::I32)?;
    let converted = natural_in(&fields, 6, Kind::I32)?;
    let scale = number_in(&fields, 7, Kind::I32)?;
    let precision = natural_in(&fields, 8, Kind::I32)?;
    let annotation = annotation_in(alloc, &fields, 10)?;
    let element = SchemaElement {
        physical,
        repetition,
        name,
        children,
        converted,
        scale,
        precision,
        annotation,
    };
    Ok((element, rest))
}

fn elements_of(
    alloc: Global,
    count: usize,
    bytes: &[u8],
) -> Result<Vec<SchemaElement<'_>>, ReadError>
    ensures { Gives (λ v. map spec.element_view v.items) result
        (many spec.element_of count bytes.now) }
{
    let mut elements = Vec::new(alloc);
    let mut rest = bytes;
    for _ in 0..count {
        let (element, after) = element_of(alloc, rest)?;
        elements.push(element)?;
        rest = after;
    }
    Ok(elements)
}

// Whether the order of a column is that of its type.
#[tactic(auto, unfolding(crate::specs::Records::order_of))]
fn order_of(alloc: Global, bytes: &[u8]) -> Result<(bool, &[u8]), ReadError>
    ensures { Gives (λ x. (x.0, x.1.now)) result (spec.order_of bytes.now) }
{
    let (fields, rest) = struct_of(alloc, bytes)?;
    Ok((found(&fields, 1, Kind::Struct).is_some(), rest))
}

fn orders_of(alloc: Global, count: usize, bytes: &[u8]) -> Result<Vec<bool>, ReadError>
    ensures { Gives (λ v. v.items) result (many spec.order_of count bytes.now) }
{
    let mut orders = Vec::new(alloc);
    let mut rest = bytes;
    for _ in 0..count {
        let (order, after) = order_of(alloc, rest)?;
        orders.push(order)?;
        rest = after;
    }
    Ok(orders)
}

/// Reads the records of a footer but those of its row groups.
#[tactic(auto, unfolding(crate::specs::Records::file_of))]
pub fn file_of(alloc: Global, footer: &[u8]) -> Result<FileMetaData<'_>, ReadError>
    ensures { Gives spec.file_view result (spec.file_of footer.now) }
{
    let (fields, _) = struct_of(alloc, footer)?;
    let elements = items_in(&fields, 2, Kind::Struct)?;
    let schema = elements_of(alloc, elements.count, elements.from)?;
    let unions = items_in(&fields, 7, Kind::Struct)?;
    let orders = orders_of(alloc, unions.count, unions.from)?;
    let groups = items_in(&fields, 4, Kind::Struct)?;
    Ok(FileMetaData {
        schema,
        orders,
        groups,
    })
}
