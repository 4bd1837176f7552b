//! The six comparisons, each a type, so that a loop over many values is made for each.
ghost use Rattle.std.specs.Prelude.{◌≡◌};

use std::cmp::Ordering;

/// Calls a function of a type and a comparison's, the one that an operator is; another answer where
/// it is none.
macro_rules! match_each_comparison {
    ($operator:expr, $call:ident::<$type:ty>($($given:expr),+), $other:expr) => {
        match $operator {
            Operator::Eq => $call::<$type, $crate::scan::comparison::Equal>($($given),+),
            Operator::NotEq => $call::<$type, $crate::scan::comparison::Unequal>($($given),+),
            Operator::Gt => $call::<$type, $crate::scan::comparison::Above>($($given),+),
            Operator::Gte => $call::<$type, $crate::scan::comparison::AtLeast>($($given),+),
            Operator::Lt => $call::<$type, $crate::scan::comparison::Below>($($given),+),
            Operator::Lte => $call::<$type, $crate::scan::comparison::AtMost>($($given),+),
            Operator::And | Operator::Or => $other,
        }
    };
}

pub(crate) use match_each_comparison;

/// A comparison of two values in order.
pub(crate) trait Comparison {
    ghost use Rattle.vortex_expr.specs.Meanings.Meaning as spec;
    ghost use Rattle.vortex_expr.specs.declared.scalar_fn.Operator.{Operator};

    ghost operator: { Operator };

    /// Whether it is true of two values in this order.
    fn is_true_of(order: Ordering) -> bool
        ensures { result ≡ spec.holds operator order };
}

pub(crate) struct Equal;

pub(crate) struct Unequal;

pub(crate) struct Above;

pub(crate) struct AtLeast;

pub(crate) struct Below;

pub(crate) struct AtMost;

impl Comparison for Equal {
    ghost use Rattle.vortex_expr.specs.declared.scalar_fn.Operator.TheVariants as operator;

    ghost operator = { operator.Eq };

    #[inline]
    fn is_true_of(order: Ordering) -> bool {
        order.is_eq()
    }
}

impl Comparison for Unequal {
    ghost use Rattle.vortex_expr.specs.declared.scalar_fn.Operator.TheVariants as operator;

    ghost operator = { operator.NotEq };

    #[inline]
    fn is_true_of(order: Ordering) -> bool {
        !order.is_eq()
    }
}

impl Comparison for Above {
    ghost use Rattle.vortex_expr.specs.declared.scalar_fn.Operator.TheVariants as operator;

    ghost operator = { operator.Gt };

    #[inline]
    fn is_true_of(order: Ordering) -> bool {
        order.is_gt()
    }
}

impl Comparison for AtLeast {
    ghost use Rattle.vortex_expr.specs.declared.scalar_fn.Operator.TheVariants as operator;

    ghost operator = { operator.Gte };

    #[inline]
    fn is_true_of(order: Ordering) -> bool {
        !order.is_lt()
    }
}

impl Comparison for Below {
    ghost use Rattle.vortex_expr.specs.declared.scalar_fn.Operator.TheVariants as operator;

    ghost operator = { operator.Lt };

    #[inline]
    fn is_true_of(order: Ordering) -> bool {
        order.is_lt()
    }
}

impl Comparison for AtMost {
    ghost use Rattle.vortex_expr.specs.declared.scalar_fn.Operator.TheVariants as operator;

    ghost operator = { operator.Lte };

    #[inline]
    fn is_true_of(order: Ordering) -> bool {
        !order.is_gt()
    }
}
