//! The typing table: the type of a node from those of its children.
ghost use Rattle.std.specs.Prelude.{◌≡◌};
ghost use Rattle.vortex_expr.specs.Meanings.Typing as table;

use crate::scalar_fn::Operator;
use vortex_base::aggregate::AggregateFnRef;
use vortex_base::dtype::DType;
use vortex_base::error::BaseError;
use vortex_base::types::{Nullability, PType};

// The type of the row count.
pub(crate) const ROW_COUNT: DType = DType::Primitive(PType::U64, Nullability::NonNullable);

// The type of a null test, which is never null itself.
pub(crate) const NULL_TEST: DType = DType::Bool(Nullability::NonNullable);

fn is_bool(dtype: DType) -> bool
    ensures { result ≡ table.is_bool dtype }
{
    matches!(dtype, DType::Bool(_))
}

fn is_utf8(dtype: DType) -> bool
    ensures { result ≡ table.is_utf8 dtype }
{
    matches!(dtype, DType::Utf8(_))
}

fn is_state(dtype: DType) -> bool
    ensures { result ≡ table.is_state dtype }
{
    matches!(dtype, DType::MinMaxState(_, _))
}

fn are_comparable(left: DType, right: DType) -> bool
    ensures { result ≡ table.are_comparable left right }
{
    left.eq_ignore_nullability(&right) && !is_state(left)
}

fn truth_type(nullable: bool) -> DType
    ensures { result ≡ table.truth_type nullable }
{
    DType::Bool(if nullable {
        Nullability::Nullable
    } else {
        Nullability::NonNullable
    })
}

fn type_if(fits: bool, dtype: DType) -> Result<DType, BaseError>
    ensures { result ≡ table.type_if fits dtype }
{
    if fits {
        Ok(dtype)
    } else {
        Err(BaseError::TypeFault)
    }
}

// The type of a comparison or a connective.
pub(crate) fn binary_type(operator: Operator, left: DType, right: DType) -> Result<DType, BaseError>
    ensures { result ≡ table.binary_type operator left right }
{
    let fits = match operator {
        Operator::And | Operator::Or => is_bool(left) && is_bool(right),
        _ => are_comparable(left, right),
    };
    type_if(fits, truth_type(left.is_nullable() || right.is_nullable()))
}

// The type of a BETWEEN.
pub(crate) fn between_type(x: DType, lower: DType, upper: DType) -> Result<DType, BaseError>
    ensures { result ≡ table.between_type x lower upper }
{
    let nullable = x.is_nullable() || lower.is_nullable() || upper.is_nullable();
    let fits = are_comparable(x, lower) && are_comparable(x, upper);
    type_if(fits, truth_type(nullable))
}

// The type of a NOT.
pub(crate) fn not_type(x: DType) -> Result<DType, BaseError>
    ensures { result ≡ table.not_type x }
{
    type_if(is_bool(x), x)
}

// The type of a LIKE.
pub(crate) fn like_type(x: DType, pattern: DType) -> Result<DType, BaseError>
    ensures { result ≡ table.like_type x pattern }
{
    let nullable = x.is_nullable() || pattern.is_nullable();
    type_if(is_utf8(x) && is_utf8(pattern), truth_type(nullable))
}

// The type of a placeholder: the aggregate's state type made nullable. `Unsupported` where the
// aggregate has none.
pub(crate) fn stat_type(aggregate: AggregateFnRef, input: DType) -> Result<DType, BaseError>
    ensures { result ≡ table.stat_type aggregate input }
{
    match aggregate.state_dtype(&input) {
        Some(state) => Ok(state.as_nullable()),
        None => Err(BaseError::Unsupported),
    }
}
