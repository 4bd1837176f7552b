//! The columns of a schema, and how the bounds of those that are read are read.
ghost use Rattle.std.specs.Prelude.{◌≡◌, ◌+◌, ◌<◌, ◌≤◌, ◌^◌, ◌++◌, OnOk, map};
ghost use Rattle.vortex_parquet.specs.Columns as spec;
ghost use Rattle.vortex_parquet.specs.Records.{element_view};
ghost use Rattle.vortex_parquet.specs.Reading.{Gives};

use crate::fault::{Fault, ReadError};
use crate::fields::natural_of;
use crate::meaning::{LeafMeaning, meaning_of};
use crate::records::{Annotation, SchemaElement, is_number};
use std::alloc::{AllocError, Global};
use vortex_base::dtype::DType;
use vortex_base::types::{Nullability, PType};
use vortex_logical::float_type::FloatType;
use vortex_logical::time_unit::TimeUnit;

/// How the bytes of a column's bounds are read.
#[derive(Clone, Copy, Debug, PartialEq, Eq)]
pub enum Form {
    Bool,
    /// A number of this type, in four bytes.
    Four(PType),
    /// A number of this type, in eight bytes.
    Eight(PType),
    Utf8,
    Binary,
    /// A whole number of 64 bits with a sign, the highest byte first, in any number of bytes.
    Decimal,
    /// A float, which stands by its whole number.
    Float(FloatType),
}

/// A leaf column that is read: its place among all leaf columns, its physical type, what it holds,
/// and what that stands for.
#[derive(Clone, Copy, Debug, PartialEq, Eq)]
pub struct Leaf {
    pub place: usize,
    pub physical: u64,
    pub form: Form,
    pub meaning: LeafMeaning,
    pub nullability: Nullability,
}

/// Why a column is not read.
#[derive(Clone, Copy, Debug, PartialEq, Eq)]
pub enum LeftOut {
    /// It has columns below it.
    Nested,
    /// It has a list of values a row.
    Repeated,
    /// The order of its values is not one of those that are known here.
    Type,
    /// Another column has its name.
    Duplicate,
}

/// A column of the schema: a leaf that is read, or the reason why it is not.
#[derive(Clone, Copy, Debug, PartialEq, Eq)]
pub enum Content {
    Leaf(Leaf),
    LeftOut(LeftOut),
}

/// A column of the first level.
#[derive(Clone, Copy, Debug)]
pub struct Column<'a> {
    pub name: &'a [u8],
    pub content: Content,
}

// Returns the type of the whole numbers of floats.
fn float_ptype(float: FloatType) -> PType
    ensures { result ≡ spec.float_ptype float }
{
    match float {
        FloatType::F16 => PType::I16,
        FloatType::F32 => PType::I32,
        FloatType::F64 => PType::I64,
    }
}

impl Leaf {
    /// Returns the type of the values.
    pub fn dtype(self) -> DType
        ensures { result ≡ spec.leaf_dtype self }
    {
        match self.form {
            Form::Bool => DType::Bool(self.nullability),
            Form::Four(ptype) | Form::Eight(ptype) => DType::Primitive(ptype, self.nullability),
            Form::Utf8 => DType::Utf8(self.nullability),
            Form::Binary => DType::Binary(self.nullability),
            Form::Decimal => DType::Primitive(PType::I64, self.nullability),
            Form::Float(float) => DType::Primitive(float_ptype(float), self.nullability),
        }
    }
}

impl Form {
    /// Tells whether the deprecated bounds are in the order of the values, as those of signed
    /// numbers are. Those of decimals in bytes may have been compared byte by byte, and those of
    /// floats in some order with NaN.
    pub fn is_signed(self) -> bool
        ensures { result ≡ spec.is_signed self }
    {
        match self {
            Form::Bool => true,
            Form::Four(ptype) | Form::Eight(ptype) => {
                matches!(ptype, PType::I8 | PType::I16 | PType::I32 | PType::I64)
            }
            Form::Utf8 | Form::Binary | Form::Decimal | Form::Float(_) => false,
        }
    }
}

// How many digits stand behind the point of decimals that are annotated in the older way: none
// where it isn't told.
fn older_scale(scale: Option<u64>) -> Option<u64>
    ensures { result ≡ spec.older_scale scale }
{
    match scale {
        Some(_) => natural_of(scale),
        None => Some(0),
    }
}

// The older annotation, as the newer one.
#[tactic(auto, unfolding(crate::specs::Columns::converted))]
fn converted(code: u64, scale: Option<u64>, precision: Option<u64>) -> Annotation
    ensures { result ≡ spec.converted code scale precision }
{
    match code {
        0 | 4 | 19 => Annotation::Text,
        5 => Annotation::Decimal(older_scale(scale), precision),
        6 => Annotation::Date,
        7 => Annotation::Time(Some(TimeUnit::Milliseconds)),
        8 => Annotation::Time(Some(TimeUnit::Microseconds)),
        9 => Annotation::Timestamp(Some(true), Some(TimeUnit::Milliseconds)),
        10 => Annotation::Timestamp(Some(true), Some(TimeUnit::Microseconds)),
        11 => Annotation::Integer(8, false),
        12 => Annotation::Integer(16, false),
        13 => Annotation::Integer(32, false),
        14 => Annotation::Integer(64, false),
        15 => Annotation::Integer(8, true),
        16 => Annotation::Integer(16, true),
        17 => Annotation::Integer(32, true),
        18 => Annotation::Integer(64, true),
        20 => Annotation::Bytes,
        _ => Annotation::Other,
    }
}

// The older annotation, if there is one.
fn converted_or_none(code: Option<u64>, scale: Option<u64>, precision: Option<u64>) -> Annotation
    ensures { result ≡ spec.converted_or_none code scale precision }
{
    match code {
        Some(code) => converted(code, scale, precision),
        None => Annotation::None,
    }
}

// Returns the annotation of a column: the newer one, if there is one.
fn annotation_of(
    annotation: Option<Annotation>,
    code: Option<u64>,
    scale: Option<u64>,
    precision: Option<u64>,
) -> Annotation
    ensures { result ≡ spec.annotation_of annotation code scale precision }
{
    match annotation {
        None | Some(Annotation::None) => converted_or_none(code, scale, precision),
        Some(annotation) => annotation,
    }
}

// A whole number of so many bits, in four bytes.
fn four_integer(bits: u8, signed: bool) -> Option<Form>
    ensures { result ≡ spec.four_integer bits signed }
{
    match (bits, signed) {
        (8, true) => Some(Form::Four(PType::I8)),
        (8, false) => Some(Form::Four(PType::U8)),
        (16, true) => Some(Form::Four(PType::I16)),
        (16, false) => Some(Form::Four(PType::U16)),
        (32, true) => Some(Form::Four(PType::I32)),
        (32, false) => Some(Form::Four(PType::U32)),
        _ => None,
    }
}

// Numbers in four bytes.
#[tactic(auto, unfolding(crate::specs::Columns::four))]
fn four(annotation: Annotation) -> Option<Form>
    ensures { result ≡ spec.four annotation }
{
    match annotation {
        Annotation::None
        | Annotation::Decimal(_, _)
        | Annotation::Date
        | Annotation::Time(_)
        | Annotation::Timestamp(_, _) => Some(Form::Four(PType::I32)),
        Annotation::Integer(bits, signed) => four_integer(bits, signed),
        _ => None,
    }
}

// A whole number of so many bits, in eight bytes.
fn eight_integer(bits: u8, signed: bool) -> Option<Form>
    ensures { result ≡ spec.eight_integer bits signed }
{
    match (bits, signed) {
        (64, true) => Some(Form::Eight(PType::I64)),
        (64, false) => Some(Form::Eight(PType::U64)),
        _ => None,
    }
}

// Numbers in eight bytes.
#[tactic(auto, unfolding(crate::specs::Columns::eight))]
fn eight(annotation: Annotation) -> Option<Form>
    ensures { result ≡ spec.eight annotation }
{
    match annotation {
        Annotation::None
        | Annotation::Decimal(_, _)
        | Annotation::Date
        | Annotation::Time(_)
        | Annotation::Timestamp(_, _) => Some(Form::Eight(PType::I64)),
        Annotation::Integer(bits, signed) => eight_integer(bits, signed),
        _ => None,
    }
}

// Whether decimals of so many digits at most fit 64 bits.
fn is_short(precision: Option<u64>) -> bool
    ensures { result ≡ spec.is_short precision }
{
    match precision {
        Some(precision) => precision <= 18,
        None => false,
    }
}

// Decimals in bytes, if each fits 64 bits.
fn decimal_form(precision: Option<u64>) -> Option<Form>
    ensures { result ≡ spec.decimal_form precision }
{
    if is_short(precision) {
        return Some(Form::Decimal);
    }
    None
}

// Bytes of any length.
#[tactic(auto, unfolding(crate::specs::Columns::bytes_form))]
fn bytes_form(annotation: Annotation) -> Option<Form>
    ensures { result ≡ spec.bytes_form annotation }
{
    match annotation {
        Annotation::None | Annotation::Bytes => Some(Form::Binary),
        Annotation::Text => Some(Form::Utf8),
        Annotation::Decimal(_, precision) => decimal_form(precision),
        _ => None,
    }
}

// Bytes of one length.
#[tactic(auto, unfolding(crate::specs::Columns::fixed_form))]
fn fixed_form(annotation: Annotation) -> Option<Form>
    ensures { result ≡ spec.fixed_form annotation }
{
    match annotation {
        Annotation::None | Annotation::Bytes => Some(Form::Binary),
        Annotation::Decimal(_, precision) => decimal_form(precision),
        _ => None,
    }
}

// Floats.
#[tactic(auto, unfolding(crate::specs::Columns::float_form))]
fn float_form(float: FloatType, annotation: Annotation) -> Option<Form>
    ensures { result ≡ spec.float_form float annotation }
{
    match annotation {
        Annotation::None => Some(Form::Float(float)),
        _ => None,
    }
}

#[tactic(auto, unfolding(crate::specs::Columns::bool_form))]
fn bool_form(annotation: Annotation) -> Option<Form>
    ensures { result ≡ spec.bool_form annotation }
{
    match annotation {
        Annotation::None => Some(Form::Bool),
        _ => None,
    }
}

// The form of a physical type with an annotation; none of those whose order is not known here.
#[tactic(auto, unfolding(crate::specs::Columns::form_of))]
fn form_of(physical: u64, annotation: Annotation) -> Option<Form>
    ensures { result ≡ spec.form_of physical annotation }
{
    match physical {
        0 => bool_form(annotation),
        1 => four(annotation),
        2 => eight(annotation),
        4 => float_form(FloatType::F32, annotation),
        5 => float_form(FloatType::F64, annotation),
        6 => bytes_form(annotation),
        7 => fixed_form(annotation),
        _ => None,
    }
}

// Whether a column that is not repeated may be null.
#[tactic(auto, unfolding(crate::specs::Columns::nullability))]
fn nullability(repetition: u64) -> Option<Nullability>
    ensures { result ≡ spec.nullability repetition }
{
    match repetition {
        0 => Some(Nullability::NonNullable),
        1 => Some(Nullability::Nullable),
        _ => None,
    }
}

// The leaf column of an element at a place, if its statistics are read.
#[tactic(auto, unfolding(crate::specs::Columns::leaf_of))]
fn leaf_of(place: usize, element: &SchemaElement<'_>) -> Option<Leaf>
    ensures { result ≡ spec.leaf_of place (element_view element.now) }
{
    let physical = element.physical?;
    let repetition = element.repetition?;
    let nullability = nullability(repetition)?;
    let annotation = annotation_of(
        element.annotation,
        element.converted,
        element.scale,
        element.precision,
    );
    let form = form_of(physical, annotation)?;
    Some(Leaf {
        place,
        physical,
        form,
        meaning: meaning_of(physical, annotation),
        nullability,
    })
}

// How many elements stand right below one.
fn below(children: Option<u64>) -> u64
    ensures { result ≡ spec.below children }
{
    match children {
        Some(children) => children,
        None => 0,
    }
}

// Returns the content of an element of the first level.
#[tactic(auto, unfolding(crate::specs::Columns::content_of))]
fn content_of(place: usize, element: &SchemaElement<'_>) -> Content
    ensures { result ≡ spec.content_of place (element_view element.now) }
{
    if below(element.children) != 0 {
        return Content::LeftOut(LeftOut::Nested);
    }
    if is_number(2, element.repetition) {
        return Content::LeftOut(LeftOut::Repeated);
    }
    match leaf_of(place, element) {
        Some(leaf) => Content::Leaf(leaf),
        None => Content::LeftOut(LeftOut::Type),
    }
}

/// The columns of the first level, and how many leaf columns there are on all levels.
#[derive(Debug, Drop)]
pub struct Columns<'a> {
    pub columns: Vec<Column<'a>>,
    pub leaves: usize,
}

impl<'a> Columns<'a> {
    // Adds the column that an element is, if it stands on the first level, and counts it, if it is
    // a leaf.
    fn add(&mut self, inside: u64, element: &SchemaElement<'a>) -> Result<(), AllocError>
        requires { self.old.leaves + 1 < 2 ^ 64 }
        ensures columns { OnOk result (spec.column_views self.new.columns.items
            ≡ spec.column_views self.old.columns.items
            ++ spec.first_level inside self.old.leaves (element_view element.now)) }
        ensures few { OnOk result (self.new.leaves ≤ self.old.leaves + 1) }
        ensures leaves { OnOk result (self.new.leaves
            ≡ spec.places_after self.old.leaves (element_view element.now)) }
    {
        if inside == 0 {
            let content = content_of(self.leaves, element);
            let name = element.name;
            self.columns.push(Column { name, content })?;
        }
        if below(element.children) == 0 {
            self.leaves += 1;
        }
        Ok(())
    }
}

// How many of the next elements stand below one of the first level, behind an element before so
// many others. None has more below it than are left.
#[tactic(auto, unfolding(crate::specs::Columns::checked))]
fn inside_after(inside: u64, element: &SchemaElement<'_>, left: usize) -> Result<u64, ReadError>
    ensures { Gives (λ n. n) result
        (spec.checked left (spec.inside_after inside (element_view element.now))) }
{
    let within = inside.saturating_sub(1);
    let left = left as u64;
    if within > left {
        return Err(ReadError::Fault(Fault::Schema));
    }
    if below(element.children) > left - within {
        return Err(ReadError::Fault(Fault::Schema));
    }
    Ok(within + below(element.children))
}

// The columns of the elements below the root.
fn columns_in<'a>(alloc: Global, elements: &[SchemaElement<'a>]) -> Result<Columns<'a>, ReadError>
    ensures { Gives spec.columns_view result
        (spec.columns_in 0 0 (map element_view elements.now)) }
{
    let mut columns = Columns {
        columns: Vec::new(alloc),
        leaves: 0,
    };
    let mut inside = 0;
    for place in 0..elements.len() {
        let element = &elements[place];
        let after = inside_after(inside, element, elements.len() - place - 1)?;
        columns.add(inside, element)?;
        inside = after;
    }
    Ok(columns)
}

/// Returns the columns of a schema, whose first element is the root.
#[tactic(auto, unfolding(crate::specs::Columns::columns_of))]
pub fn columns_of<'a>(
    alloc: Global,
    elements: &[SchemaElement<'a>],
) -> Result<Columns<'a>, ReadError>
    ensures { Gives spec.columns_view result (spec.columns_of (map element_view elements.now)) }
{
    match elements {
        [] => Err(ReadError::Fault(Fault::Schema)),
        [_, elements @ ..] => columns_in(alloc, elements),
    }
}

// Returns the column of a name among those looked at and one more.
fn with_column(name: &[u8], before: Option<Content>, column: &Column<'_>) -> Option<Content>
    ensures { result ≡ spec.with_column name.now before (spec.column_view column.now) }
{
    if column.name != name {
        return before;
    }
    match before {
        None => Some(column.content),
        Some(_) => Some(Content::LeftOut(LeftOut::Duplicate)),
    }
}

/// Returns what the column of a name is, `Duplicate` if several have it, and none if no column
/// does.
pub fn lookup(columns: &[Column<'_>], name: &[u8]) -> Option<Content>
    ensures { result ≡ spec.lookup name.now (spec.column_views columns.now) }
{
    let mut found = None;
    for column in columns {
        found = with_column(name, found, column);
    }
    found
}
