//! The aggregates that a placeholder can ask for, and the types of their states.
ghost use Rattle.std.specs.Prelude.{◌≡◌};
ghost use Rattle.vortex_base.specs.Data.States as table;

use crate::dtype::DType;
use crate::types::{Element, Nullability, PType};

/// An aggregate of the values of an input.
#[derive(Clone, Copy, Debug, PartialEq, Eq, Hash)]
pub enum AggregateFnRef {
    /// The greatest value.
    Max,
    /// The least value.
    Min,
    /// The sum of the values, where a true counts 1.
    Sum,
    /// The number of nulls.
    NullCount,
    /// The number of values that are no number. No type of this library supports it.
    NanCount,
    /// The size of the column in bytes, as it was declared.
    UncompressedSizeInBytes,
    /// Whether every value is null.
    AllNull,
    /// Whether no value is null.
    AllNonNull,
    /// The least and the greatest value together.
    MinMax,
}

impl AggregateFnRef {
    ghost use Rattle.vortex_base.specs.Data.States.{state_dtype};

    /// The type of the aggregate's state over an input of this type, or `None` where it does not
    /// support the type.
    pub fn state_dtype(&self, dtype: &DType) -> Option<DType>
        ensures { result ≡ state_dtype self.now dtype.now }
    {
        match self {
            AggregateFnRef::Max | AggregateFnRef::Min => match element_of(*dtype) {
                Some(_) => Some(dtype.as_nullable()),
                None => None,
            },
            AggregateFnRef::MinMax => match element_of(*dtype) {
                Some(element) => Some(DType::MinMaxState(element, Nullability::Nullable)),
                None => None,
            },
            AggregateFnRef::Sum => sum_type(*dtype),
            AggregateFnRef::NullCount | AggregateFnRef::UncompressedSizeInBytes => {
                Some(DType::Primitive(PType::U64, Nullability::NonNullable))
            }
            AggregateFnRef::AllNull | AggregateFnRef::AllNonNull => {
                Some(DType::Bool(Nullability::NonNullable))
            }
            AggregateFnRef::NanCount => None,
        }
    }
}

fn element_of(dtype: DType) -> Option<Element>
    ensures { result ≡ table.element_of dtype }
{
    match dtype {
        DType::Bool(_) => Some(Element::Bool),
        DType::Primitive(ptype, _) => Some(Element::Primitive(ptype)),
        DType::Utf8(_) => Some(Element::Utf8),
        DType::Binary(_) => Some(Element::Binary),
        DType::Null | DType::MinMaxState(_, _) => None,
    }
}

fn is_signed(ptype: PType) -> bool
    ensures { result ≡ table.is_signed ptype }
{
    matches!(ptype, PType::I8 | PType::I16 | PType::I32 | PType::I64)
}

fn sum_type(dtype: DType) -> Option<DType>
    ensures { result ≡ table.sum_type dtype }
{
    match dtype {
        DType::Bool(_) => Some(DType::Primitive(PType::U64, Nullability::Nullable)),
        DType::Primitive(ptype, _) if is_signed(ptype) => {
            Some(DType::Primitive(PType::I64, Nullability::Nullable))
        }
        DType::Primitive(_, _) => Some(DType::Primitive(PType::U64, Nullability::Nullable)),
        _ => None,
    }
}
