//! The types of columns, values and expressions.
ghost use Rattle.std.specs.Prelude.{◌≡◌};
ghost use Rattle.vortex_base.specs.Data.Types as types;

use crate::types::{Element, Nullability, PType};

/// A type: the kind of its values, and whether null is one of them.
#[derive(Clone, Copy, Debug, PartialEq, Eq)]
pub enum DType {
    /// The type whose one value is null.
    Null,
    Bool(Nullability),
    Primitive(PType, Nullability),
    Utf8(Nullability),
    Binary(Nullability),
    /// The type of a pair of a least and a greatest value, of which an expression may speak. It has
    /// no value but null.
    MinMaxState(Element, Nullability),
}

impl DType {
    /// Whether null is a value of the type. `Null` counts as nullable.
    pub fn is_nullable(&self) -> bool
        ensures { result ≡ types.is_nullable self.now }
    {
        match self {
            DType::Null => true,
            DType::Bool(n)
            | DType::Primitive(_, n)
            | DType::Utf8(n)
            | DType::Binary(n)
            | DType::MinMaxState(_, n) => *n == Nullability::Nullable,
        }
    }

    /// The nullable form of this type.
    pub fn as_nullable(&self) -> DType
        ensures { result ≡ types.as_nullable self.now }
    {
        match *self {
            DType::Null => DType::Null,
            DType::Bool(_) => DType::Bool(Nullability::Nullable),
            DType::Primitive(p, _) => DType::Primitive(p, Nullability::Nullable),
            DType::Utf8(_) => DType::Utf8(Nullability::Nullable),
            DType::Binary(_) => DType::Binary(Nullability::Nullable),
            DType::MinMaxState(e, _) => DType::MinMaxState(e, Nullability::Nullable),
        }
    }

    /// Whether the two types are equal, nullability aside.
    pub fn eq_ignore_nullability(&self, other: &DType) -> bool
        ensures { result ≡ types.eq_ignore_nullability self.now other.now }
    {
        self.as_nullable() == other.as_nullable()
    }
}
