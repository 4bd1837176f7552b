//! Bounds, and which of them a statistic has.
ghost use Rattle.std.specs.Prelude.{◌≡◌, IfOk, OnErr, Option};
ghost use Rattle.std.specs.Option.{option_map, option_copied};
ghost use Rattle.vortex_stats.specs.declared.precision.Precision.{Precision};
ghost use Rattle.vortex_stats.specs.declared.bound.IntersectionResult.{IntersectionResult};
ghost use Rattle.vortex_stats.specs.Precision.{exact_value};
ghost use Rattle.vortex_stats.specs.Bounds.Bound.{ClonesEqual, TiesAllowed, IsUnion, IsIntersection};
ghost use Rattle.vortex_stats.specs.Bounds.Bound.{intersection_map, HoldsFallible, IntersectionHoldsFallible};

use crate::bound::IntersectionResult;
use crate::chosen;
use crate::precision::Precision;
use crate::stat::Stat;
use std::alloc::AllocError;

/// A bound on values of `T`: a value with a precision, read as the set of values that it allows.
///
/// Each implementation says which values a bound allows, and proves that its unions and
/// intersections keep them. It cannot meet this by allowing everything, since an exact bound is to
/// allow its value alone.
pub trait StatBound<T: Ord + Clone>: Sized + Drop {
    // What the bound holds.
    ghost precision: { Self → Precision T };
    // The values that a bound allows.
    ghost allows: { Precision T → T → Type 0 };
    // Of two values the one that a union stands for.
    ghost pick: { T → T → T };
    // The tables of `union` and `intersection`.
    ghost union: { Precision T → Precision T → Option (Precision T) };

    ghost intersection: { Precision T → Precision T → Option (IntersectionResult (Precision T)) };

    /// The bound with this value.
    fn lift(value: Precision<T>) -> Self
        ensures { precision result ≡ value };

    /// The value of the bound.
    fn into_value(self) -> Precision<T>
        ensures { result ≡ precision self };

    /// The value if it is exact.
    fn to_exact(&self) -> Option<&T>
        ensures { option_copied result ≡ exact_value (precision self.now) };

    /// The bound on what either operand bounds. It clones at most one value.
    fn union(&self, other: &Self) -> Result<Option<Self>, AllocError>
        requires { ClonesEqual T.is_clone }
        ensures value { IfOk result (λ r. option_map precision r
            ≡ union (precision self.now) (precision other.now)) }
        ensures refused { OnErr result (HoldsFallible T.is_infallible
            (union (precision self.now) (precision other.now))) };

    /// The bound on what both operands bound. It clones at most one value.
    fn intersection(&self, other: &Self) -> Result<Option<IntersectionResult<Self>>, AllocError>
        requires { ClonesEqual T.is_clone }
        ensures value { IfOk result (λ r. option_map (intersection_map precision) r
            ≡ intersection (precision self.now) (precision other.now)) }
        ensures refused { OnErr result (IntersectionHoldsFallible T.is_infallible
            (intersection (precision self.now) (precision other.now))) };

    // An exact bound allows what compares equal to its value alone, an absent one everything.
    ghost allows_law: { TiesAllowed T.cmp allows };
    // A union of present bounds allows the pick of any two values that the operands allow, and is
    // exact where both are and tie.
    ghost union_law: { IsUnion allows pick union };
    // An intersection of present bounds allows what both allow, and is exact where both are and
    // tie, or it is Empty where nothing is allowed by both.
    ghost intersection_law: { IsIntersection allows intersection };
}

/// A value with a precision is a bound that knows nothing of an inexact value.
impl<T: Ord + Clone> StatBound<T> for Precision<T> {
    ghost use Rattle.vortex_stats.specs.Bounds.PointBound.{
      point_allows,
      lesser,
      point_union,
      point_intersection,
      point_allows-tied,
      point_union-law,
      point_intersection-law,
    };

    ghost precision = { λ b. b };

    ghost allows = { point_allows T.cmp };

    ghost pick = { lesser T.cmp };

    ghost union = { point_union T.cmp };

    ghost intersection = { point_intersection T.cmp };

    fn lift(value: Precision<T>) -> Self
        ensures { result ≡ value }
    {
        value
    }

    fn into_value(self) -> Precision<T> {
        self
    }

    fn to_exact(&self) -> Option<&T> {
        match self {
            Precision::Exact(v) => Some(v),
            _ => None,
        }
    }

    fn union(&self, other: &Self) -> Result<Option<Self>, AllocError> {
        match chosen::union_of_points(self, other) {
            Some(value) => Ok(Some(value.cloned()?)),
            None => Ok(None),
        }
    }

    fn intersection(&self, other: &Self) -> Result<Option<IntersectionResult<Self>>, AllocError> {
        match chosen::intersection_of_points(self, other) {
            IntersectionResult::Value(value) => Ok(Some(IntersectionResult::Value(
                value.cloned()?,
            ))),
            IntersectionResult::Empty => Ok(Some(IntersectionResult::Empty)),
        }
    }

    ghost allows_law = { point_allows-tied T.total };

    ghost union_law = { point_union-law T.total };

    ghost intersection_law = { point_intersection-law T.total };
}

/// A statistic of values of `T`, and the bound that its value is.
pub trait StatType<T: Ord + Clone> {
    ghost use Rattle.vortex_stats.specs.declared.stat.Stat.{Stat};

    /// How the statistic's value is read.
    type Bound: StatBound<T>;

    ghost STAT: { Stat };

    /// The statistic.
    const STAT: Stat;
}
