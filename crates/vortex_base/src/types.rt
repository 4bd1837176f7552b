//! The small types: nullability, number types, and what states are of.

/// Whether null is a value of a type.
#[derive(Clone, Copy, Debug, PartialEq, Eq)]
pub enum Nullability {
    /// The type has no null.
    NonNullable,
    /// The type has null beside its values.
    Nullable,
}

/// A type of whole numbers, named as Rust's. The variants stand in the order of `PValue`.
#[derive(Clone, Copy, Debug, PartialEq, Eq)]
pub enum PType {
    U8,
    U16,
    U32,
    U64,
    I8,
    I16,
    I32,
    I64,
}

/// A type without its nullability: what the least and the greatest value of a `MinMaxState` are.
#[derive(Clone, Copy, Debug, PartialEq, Eq)]
pub enum Element {
    Bool,
    Primitive(PType),
    Utf8,
    Binary,
}
