//! Which operand's value a union or an intersection takes, by reference: the tables of the bounds
//! with nothing cloned yet.
ghost use Rattle.std.specs.Prelude.{◌≡◌, Some};
ghost use Rattle.std.specs.Option.{option_map};
ghost use Rattle.std.specs.Ordering.{is_lt};
ghost use Rattle.vortex_stats.specs.Precision.{precision_map};
ghost use Rattle.vortex_stats.specs.Bounds.Order.{greater as greater_of, lesser as lesser_of};
ghost use Rattle.vortex_stats.specs.Bounds.Bound.{intersection_map};
ghost use Rattle.vortex_stats.specs.Bounds.UpperBound.{upper_union, upper_intersection};
ghost use Rattle.vortex_stats.specs.Bounds.LowerBound.{lower_union, lower_intersection};
ghost use Rattle.vortex_stats.specs.Bounds.PointBound.{point_union, point_intersection};

use crate::bound::IntersectionResult;
use crate::precision::Precision;

// Whether `a` is less than `b`.
fn is_less<T: Ord>(a: &T, b: &T) -> bool
    ensures { result ≡ is_lt (T.cmp a.now b.now) }
{
    a.cmp(b).is_lt()
}

// The greater, and the first where the two compare equal.
fn greater<'a, T: Ord>(a: &'a T, b: &'a T) -> &'a T
    ensures { result.now ≡ greater_of T.cmp a.now b.now }
{
    if is_less(a, b) { b } else { a }
}

// The lesser, and the first where the two compare equal.
fn lesser<'a, T: Ord>(a: &'a T, b: &'a T) -> &'a T
    ensures { result.now ≡ lesser_of T.cmp a.now b.now }
{
    if is_less(b, a) { b } else { a }
}

pub(crate) fn union_of_uppers<'a, T: Ord>(
    a: &'a Precision<T>,
    b: &'a Precision<T>,
) -> Option<Precision<&'a T>>
    ensures { option_map (precision_map (λ v. v.now)) result ≡ upper_union T.cmp a.now b.now }
{
    match (a, b) {
        (Precision::Exact(a), Precision::Exact(b)) => Some(Precision::Exact(greater(a, b))),
        (Precision::Inexact(a), Precision::Inexact(b)) => Some(Precision::Inexact(greater(a, b))),
        (Precision::Exact(max), Precision::Inexact(ceiling))
        | (Precision::Inexact(ceiling), Precision::Exact(max)) => {
            if is_less(max, ceiling) {
                Some(Precision::Inexact(ceiling))
            } else {
                Some(Precision::Exact(max))
            }
        }
        _ => None,
    }
}

pub(crate) fn intersection_of_uppers<'a, T: Ord>(
    a: &'a Precision<T>,
    b: &'a Precision<T>,
) -> Option<IntersectionResult<Precision<&'a T>>>
    ensures { option_map (intersection_map (precision_map (λ v. v.now))) result
        ≡ upper_intersection T.cmp a.now b.now }
{
    match (a, b) {
        (Precision::Exact(a), Precision::Exact(b)) => {
            if a.cmp(b).is_eq() {
                Some(IntersectionResult::Value(Precision::Exact(a)))
            } else {
                Some(IntersectionResult::Empty)
            }
        }
        (Precision::Inexact(a), Precision::Inexact(b)) => Some(IntersectionResult::Value(
            Precision::Inexact(lesser(a, b)),
        )),
        (Precision::Exact(max), Precision::Inexact(ceiling))
        | (Precision::Inexact(ceiling), Precision::Exact(max)) => {
            if is_less(ceiling, max) {
                Some(IntersectionResult::Empty)
            } else {
                Some(IntersectionResult::Value(Precision::Exact(max)))
            }
        }
        _ => None,
    }
}

pub(crate) fn union_of_lowers<'a, T: Ord>(
    a: &'a Precision<T>,
    b: &'a Precision<T>,
) -> Option<Precision<&'a T>>
    ensures { option_map (precision_map (λ v. v.now)) result ≡ lower_union T.cmp a.now b.now }
{
    match (a, b) {
        (Precision::Exact(a), Precision::Exact(b)) => Some(Precision::Exact(lesser(a, b))),
        (Precision::Inexact(a), Precision::Inexact(b)) => Some(Precision::Inexact(lesser(a, b))),
        (Precision::Exact(min), Precision::Inexact(floor))
        | (Precision::Inexact(floor), Precision::Exact(min)) => {
            if is_less(floor, min) {
                Some(Precision::Inexact(floor))
            } else {
                Some(Precision::Exact(min))
            }
        }
        _ => None,
    }
}

pub(crate) fn intersection_of_lowers<'a, T: Ord>(
    a: &'a Precision<T>,
    b: &'a Precision<T>,
) -> Option<IntersectionResult<Precision<&'a T>>>
    ensures { option_map (intersection_map (precision_map (λ v. v.now))) result
        ≡ lower_intersection T.cmp a.now b.now }
{
    match (a, b) {
        (Precision::Exact(a), Precision::Exact(b)) => {
            if b.cmp(a).is_eq() {
                Some(IntersectionResult::Value(Precision::Exact(a)))
            } else {
                Some(IntersectionResult::Empty)
            }
        }
        (Precision::Inexact(a), Precision::Inexact(b)) => Some(IntersectionResult::Value(
            Precision::Inexact(greater(a, b)),
        )),
        (Precision::Exact(min), Precision::Inexact(floor))
        | (Precision::Inexact(floor), Precision::Exact(min)) => {
            if is_less(min, floor) {
                Some(IntersectionResult::Empty)
            } else {
                Some(IntersectionResult::Value(Precision::Exact(min)))
            }
        }
        _ => None,
    }
}

pub(crate) fn union_of_points<'a, T: Ord>(
    a: &'a Precision<T>,
    b: &'a Precision<T>,
) -> Option<Precision<&'a T>>
    ensures { option_map (precision_map (λ v. v.now)) result ≡ point_union T.cmp a.now b.now }
{
    match (a, b) {
        (Precision::Exact(a), Precision::Exact(b)) => Some(Precision::Exact(lesser(a, b))),
        (
            Precision::Exact(a) | Precision::Inexact(a),
            Precision::Exact(b) | Precision::Inexact(b),
        ) => Some(Precision::Inexact(lesser(a, b))),
        _ => None,
    }
}

pub(crate) fn intersection_of_points<'a, T: Ord>(
    a: &'a Precision<T>,
    b: &'a Precision<T>,
) -> IntersectionResult<Precision<&'a T>>
    ensures { Some (intersection_map (precision_map (λ v. v.now)) result)
        ≡ point_intersection T.cmp a.now b.now }
{
    match (a, b) {
        (Precision::Exact(a), Precision::Exact(b)) => {
            if a.cmp(b).is_eq() {
                IntersectionResult::Value(Precision::Exact(a))
            } else {
                IntersectionResult::Empty
            }
        }
        (Precision::Inexact(a), Precision::Inexact(b)) => IntersectionResult::Value(
            Precision::Inexact(lesser(a, b)),
        ),
        (Precision::Exact(exact), Precision::Inexact(other))
        | (Precision::Inexact(other), Precision::Exact(exact)) => {
            if is_less(exact, other) {
                IntersectionResult::Value(Precision::Inexact(exact))
            } else {
                IntersectionResult::Value(Precision::Exact(exact))
            }
        }
        _ => IntersectionResult::Empty,
    }
}
