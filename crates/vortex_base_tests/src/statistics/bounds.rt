//! Unions, intersections and comparisons of bounds: with ample memory, by a type that counts its
//! clones, and by a type whose clone refuses.
use crate::statistics::testing::text_of;
use std::alloc::{AllocError, Global};
use std::cell::Cell;
use std::cmp::Ordering;
use std::process::Abort;
use vortex_base::text::Text;
use vortex_stats::bound::{IntersectionResult, LowerBound, UpperBound};
use vortex_stats::precision::Precision;
use vortex_stats::stat_bound::StatBound;

#[test]
fn bounds_against_values(rt: HostRuntime) {
    let upper = UpperBound::lift(Precision::Exact(10));
    assert!(rt; upper.eq_value(&10) && upper.partial_cmp_value(&9) == Some(Ordering::Greater));
    assert!(rt; upper.to_exact().copied() == Some(10));
    let lower = LowerBound::lift(Precision::Inexact(10));
    assert!(rt; !lower.eq_value(&11) && lower.partial_cmp_value(&9) == Some(Ordering::Greater));
    assert!(rt; !lower.is_exact());
}

#[test]
fn an_inexact_upper_bound_equals_no_value(rt: HostRuntime) {
    let upper = UpperBound::lift(Precision::Inexact(10));
    assert!(rt; !upper.eq_value(&10) && upper.partial_cmp_value(&10) == Some(Ordering::Equal));
    assert!(rt; upper.partial_cmp_value(&11) == Some(Ordering::Less));
    assert!(rt; upper.partial_cmp_value(&9).is_none());
}

#[test]
fn an_exact_upper_bound_compares_as_its_value(rt: HostRuntime) {
    let upper = UpperBound::lift(Precision::Exact(10));
    assert!(rt; upper.partial_cmp_value(&10) == Some(Ordering::Equal));
    assert!(rt; upper.partial_cmp_value(&11) == Some(Ordering::Less));
}

// The union of two numbers as bounds is this one.
fn expect_union<B: StatBound<i32> + PartialEq + Drop>(
    rt: &impl Abort,
    left: Precision<i32>,
    right: Precision<i32>,
    union: Precision<i32>,
) {
    let found = B::lift(left).union(&B::lift(right)).expect(rt, "memory");
    assert!(rt; found == Some(B::lift(union)));
}

#[test]
fn unions_of_upper_bounds(rt: HostRuntime) {
    use Precision::{Exact, Inexact};
    expect_union::<UpperBound<i32>>(&rt, Exact(10), Exact(12), Exact(12));
    expect_union::<UpperBound<i32>>(&rt, Inexact(10), Exact(12), Exact(12));
    expect_union::<UpperBound<i32>>(&rt, Exact(10), Inexact(12), Inexact(12));
    expect_union::<UpperBound<i32>>(&rt, Inexact(10), Inexact(12), Inexact(12));
    expect_union::<UpperBound<i32>>(&rt, Inexact(12), Exact(10), Inexact(12));
}

#[test]
fn unions_of_lower_bounds(rt: HostRuntime) {
    use Precision::{Exact, Inexact};
    expect_union::<LowerBound<i32>>(&rt, Inexact(4), Exact(5), Inexact(4));
    expect_union::<LowerBound<i32>>(&rt, Inexact(5), Exact(5), Exact(5));
}

// The intersection of two numbers as bounds is this one, or Empty.
fn expect_intersection<B: StatBound<i32> + PartialEq + Drop>(
    rt: &impl Abort,
    left: Precision<i32>,
    right: Precision<i32>,
    common: Option<Precision<i32>>,
) {
    let found = B::lift(left)
        .intersection(&B::lift(right))
        .expect(rt, "memory");
    let expected = match common {
        Some(value) => IntersectionResult::Value(B::lift(value)),
        None => IntersectionResult::Empty,
    };
    assert!(rt; found == Some(expected));
}

#[test]
fn intersections_of_upper_bounds(rt: HostRuntime) {
    use Precision::{Exact, Inexact};
    expect_intersection::<UpperBound<i32>>(&rt, Exact(10), Inexact(12), Some(Exact(10)));
    expect_intersection::<UpperBound<i32>>(&rt, Exact(13), Inexact(12), None);
    expect_intersection::<UpperBound<i32>>(&rt, Exact(5), Inexact(7), Some(Exact(5)));
}

#[test]
fn intersections_of_upper_bounds_of_one_precision(rt: HostRuntime) {
    use Precision::{Exact, Inexact};
    expect_intersection::<UpperBound<i32>>(&rt, Exact(10), Exact(10), Some(Exact(10)));
    expect_intersection::<UpperBound<i32>>(&rt, Exact(10), Exact(12), None);
    expect_intersection::<UpperBound<i32>>(&rt, Inexact(10), Inexact(12), Some(Inexact(10)));
}

#[test]
fn absent_upper_bounds_have_no_union_and_no_intersection(rt: HostRuntime) {
    let absent: UpperBound<i32> = UpperBound::lift(Precision::Absent);
    let ten = UpperBound::lift(Precision::Exact(10));
    assert!(rt; ten.union(&absent).expect(&rt, "memory").is_none());
    assert!(rt; absent.union(&ten).expect(&rt, "memory").is_none());
    assert!(rt; ten.intersection(&absent).expect(&rt, "memory").is_none());
    assert!(rt; absent.intersection(&ten).expect(&rt, "memory").is_none());
    assert!(rt; absent.partial_cmp_value(&10).is_none() && !absent.eq_value(&10));
}

#[test]
fn unions_of_points(rt: HostRuntime) {
    use Precision::{Exact, Inexact};
    expect_union::<Precision<i32>>(&rt, Exact(5), Exact(3), Exact(3));
    expect_union::<Precision<i32>>(&rt, Exact(5), Inexact(8), Inexact(5));
}

#[test]
fn intersections_of_lower_bounds(rt: HostRuntime) {
    use Precision::{Exact, Inexact};
    expect_intersection::<LowerBound<i32>>(&rt, Exact(12), Inexact(10), Some(Exact(12)));
    expect_intersection::<LowerBound<i32>>(&rt, Exact(12), Inexact(13), None);
}

#[test]
fn intersections_of_points(rt: HostRuntime) {
    use Precision::{Absent, Exact, Inexact};
    expect_intersection::<Precision<i32>>(&rt, Exact(3), Inexact(5), Some(Inexact(3)));
    expect_intersection::<Precision<i32>>(&rt, Exact(5), Inexact(3), Some(Exact(5)));
    expect_intersection::<Precision<i32>>(&rt, Absent, Exact(1), None);
}

// An inexact text as a bound.
fn bound<B: StatBound<Text>>(alloc: Global, value: &str) -> Result<B, AllocError> {
    Ok(B::lift(Precision::Inexact(text_of(alloc, value)?)))
}

// With memory a text is cloned, which is what a union and an intersection take.
#[test]
fn texts_as_upper_bounds(rt: HostRuntime) {
    let low: UpperBound<Text> = bound(rt.alloc(), "apple").expect(&rt, "a bound");
    let high: UpperBound<Text> = bound(rt.alloc(), "pear").expect(&rt, "a bound");
    let copy = high.try_clone().expect(&rt, "a clone");
    assert!(rt; low.union(&high).expect(&rt, "a union") == Some(copy));
    let met = low.intersection(&high).expect(&rt, "an intersection");
    assert!(rt; met == Some(IntersectionResult::Value(low)));
}

#[test]
fn texts_as_lower_bounds(rt: HostRuntime) {
    let low: LowerBound<Text> = bound(rt.alloc(), "apple").expect(&rt, "a bound");
    let high: LowerBound<Text> = bound(rt.alloc(), "pear").expect(&rt, "a bound");
    let copy = low.try_clone().expect(&rt, "a clone");
    assert!(rt; low.union(&high).expect(&rt, "a union") == Some(copy));
    let met = low.intersection(&high).expect(&rt, "an intersection");
    assert!(rt; met == Some(IntersectionResult::Value(high)));
}

#[test]
fn found_texts_are_cloned(rt: HostRuntime) {
    let text = text_of(rt.alloc(), "banana").expect(&rt, "a text");
    let found = IntersectionResult::Value(text);
    let clone = found.try_clone().expect(&rt, "a clone");
    assert!(rt; clone.ok_or_else(|| 'e') == found.ok_or_else(|| 'e'));
}

// A number that counts its clones.
#[derive(Drop)]
#[derive_where(PartialEq, Eq, PartialOrd, Ord)]
struct Counted<'a> {
    value: u32,
    #[derive_where(skip)]
    clones: &'a Cell<u32>,
}

impl<'a> Clone for Counted<'a> {
    ghost use Rattle.std.specs.Prelude.{◌≡◌};

    ghost is_clone = { λ x y. y ≡ x };

    fn clone(&self) -> Result<Self, AllocError> {
        self.clones.set(self.clones.get().saturating_add(1));
        Ok(Counted {
            value: self.value,
            clones: self.clones,
        })
    }
}

// An exact number that counts its clones, as a bound.
fn counting<'a, B: StatBound<Counted<'a>>>(value: u32, clones: &'a Cell<u32>) -> B {
    B::lift(Precision::Exact(Counted { value, clones }))
}

// The union of two bounds clones one value, and their intersection as many as told.
fn expect_clones<'a, B: StatBound<Counted<'a>>>(
    rt: &impl Abort,
    values: (u32, u32),
    clones: &'a Cell<u32>,
    met: u32,
) {
    let a: B = counting(values.0, clones);
    let b: B = counting(values.1, clones);
    clones.set(0);
    assert!(rt; matches!(a.union(&b), Ok(Some(_))));
    assert!(rt; clones.get() == 1);
    clones.set(0);
    assert!(rt; matches!(a.intersection(&b), Ok(Some(_))));
    assert!(rt; clones.get() == met);
}

// A call clones the answer's value once, and an intersection that is Empty nothing.
#[test]
fn clones_are_counted(rt: HostRuntime) {
    let clones = Cell::new(0);
    expect_clones::<Precision<Counted<'_>>>(&rt, (3, 5), &clones, 0);
    expect_clones::<UpperBound<Counted<'_>>>(&rt, (3, 3), &clones, 1);
    expect_clones::<LowerBound<Counted<'_>>>(&rt, (5, 5), &clones, 1);
}

// A number whose clone is refused where the flag is set.
#[derive(Debug, PartialEq, Eq, PartialOrd, Ord, Drop)]
struct Fragile {
    value: u32,
    refuses: bool,
}

impl Clone for Fragile {
    ghost use Rattle.std.specs.Prelude.{◌≡◌};

    ghost is_clone = { λ x y. y ≡ x };

    fn clone(&self) -> Result<Self, AllocError> {
        if self.refuses {
            return Err(AllocError);
        }
        Ok(Fragile {
            value: self.value,
            refuses: false,
        })
    }
}

fn new_fragile(value: u32, refuses: bool) -> Fragile {
    Fragile { value, refuses }
}

// The union and the intersection of the two are refused, as told.
fn expect_refused<B: StatBound<Fragile>>(
    rt: &impl Abort,
    (low, high): (Precision<Fragile>, Precision<Fragile>),
    union: bool,
    intersection: bool,
) {
    let (low, high) = (B::lift(low), B::lift(high));
    assert!(rt; low.union(&high).is_err() == union);
    assert!(rt; low.intersection(&high).is_err() == intersection);
}

// The answer's value alone is cloned, so that only its clone can refuse the call.
#[test]
fn refused_clones(rt: HostRuntime) {
    use Precision::{Exact, Inexact};
    let ends = (Exact(new_fragile(3, true)), Inexact(new_fragile(5, false)));
    expect_refused::<UpperBound<Fragile>>(&rt, ends, false, true);
    let ends = (
        Inexact(new_fragile(3, true)),
        Inexact(new_fragile(5, false)),
    );
    expect_refused::<LowerBound<Fragile>>(&rt, ends, true, false);
    let ends = (Exact(new_fragile(3, true)), Exact(new_fragile(5, false)));
    expect_refused::<Precision<Fragile>>(&rt, ends, true, false);
}
