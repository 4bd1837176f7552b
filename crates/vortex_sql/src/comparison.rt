//! Comparisons as operators of expressions.
ghost use Rattle.std.specs.Prelude.{◌≡◌};
ghost use Rattle.vortex_expr.specs.Meanings.Meaning as meaning;
ghost use Rattle.vortex_sql.specs.Sql as spec;

use std::cmp::Ordering;
use vortex_expr::scalar_fn::Operator;
use vortex_logical::comparison::Comparison;

/// Returns the operator of expressions.
pub(crate) fn operator_of(comparison: Comparison) -> Operator
    ensures { result ≡ spec.operator_of comparison }
{
    match comparison {
        Comparison::Eq => Operator::Eq,
        Comparison::NotEq => Operator::NotEq,
        Comparison::Gt => Operator::Gt,
        Comparison::Gte => Operator::Gte,
        Comparison::Lt => Operator::Lt,
        Comparison::Lte => Operator::Lte,
    }
}

/// Returns the comparison that says the same with its operands changed about.
pub(crate) fn flipped(comparison: Comparison) -> Comparison
    ensures { result ≡ spec.flipped comparison }
{
    match comparison {
        Comparison::Eq => Comparison::Eq,
        Comparison::NotEq => Comparison::NotEq,
        Comparison::Gt => Comparison::Lt,
        Comparison::Gte => Comparison::Lte,
        Comparison::Lt => Comparison::Gt,
        Comparison::Lte => Comparison::Gte,
    }
}

/// Tells whether two values in an order compare so.
pub(crate) fn holds(comparison: Comparison, order: Ordering) -> bool
    ensures { result ≡ meaning.holds (spec.operator_of comparison) order }
{
    match comparison {
        Comparison::Eq => matches!(order, Ordering::Equal),
        Comparison::NotEq => !matches!(order, Ordering::Equal),
        Comparison::Gt => matches!(order, Ordering::Greater),
        Comparison::Gte => !matches!(order, Ordering::Less),
        Comparison::Lt => matches!(order, Ordering::Less),
        Comparison::Lte => !matches!(order, Ordering::Greater),
    }
}
