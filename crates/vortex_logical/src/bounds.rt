//! Bounds of a column's values as bounds of its whole numbers.
ghost use Rattle.std.specs.Prelude.{◌≡◌, ◌≤ℤ◌, ℤ, IfSome, IsSome, true};
ghost use Rattle.std.specs.declared.cmp.Ordering.TheVariants.{Equal};
ghost use Rattle.vortex_logical.specs.declared.comparison.Comparison.TheVariants.{Gte, Lte};
ghost use Rattle.vortex_logical.specs.Meaning.{fraction_cmp, fraction_of, holds};
ghost use Rattle.vortex_logical.specs.Points.{point_cmp};
ghost use Rattle.vortex_logical.specs.LogicalTypes.{range as range_of, value as value_of};
ghost use Rattle.vortex_logical.specs.Lowering.{IsIn};

use crate::cell_range::CellRange;
use crate::exact::Exact;
use crate::logical_type::LogicalType;
use crate::point::Point;

/// A bound of a column's whole numbers, which a cell has if it is exact.
#[derive(Debug, Clone, Copy, PartialEq, Eq)]
pub struct Bound {
    pub number: i128,
    pub exact: bool,
}

fn least_from(point: Point, range: CellRange, exact: bool) -> Option<Bound>
    ensures told { (m : ℤ) (n : ℤ) → IsIn range m → IsIn range n
        → holds Lte (point_cmp m point) ≡ true → holds Gte (point_cmp n point) ≡ true
        → IsSome result }
    ensures inside { IfSome result (λ b. IsIn range b.number) }
    ensures below { IfSome result (λ b. (n : ℤ)
        → holds Gte (point_cmp n point) ≡ true → b.number ≤ℤ n) }
    ensures reached { IfSome result (λ b. holds Gte (point_cmp b.number point) ≡ true) }
    ensures attained { IfSome result (λ b. b.exact ≡ true → (exact ≡ true)
        × ((n : ℤ) → point_cmp n point ≡ Equal → n ≡ b.number)) }
{
    match point {
        Point::Whole(number) => {
            if number < range.least {
                return None;
            }
            if range.greatest < number {
                return None;
            }
            Some(Bound { number, exact })
        }
        Point::Between(below) => {
            if below < range.least {
                return None;
            }
            if range.greatest <= below {
                return None;
            }
            Some(Bound {
                number: below + 1,
                exact: false,
            })
        }
    }
}

fn greatest_from(point: Point, range: CellRange, exact: bool) -> Option<Bound>
    ensures told { (m : ℤ) (n : ℤ) → IsIn range m → IsIn range n
        → holds Lte (point_cmp m point) ≡ true → holds Gte (point_cmp n point) ≡ true
        → IsSome result }
    ensures inside { IfSome result (λ b. IsIn range b.number) }
    ensures above { IfSome result (λ b. (n : ℤ)
        → holds Lte (point_cmp n point) ≡ true → n ≤ℤ b.number) }
    ensures reached { IfSome result (λ b. holds Lte (point_cmp b.number point) ≡ true) }
    ensures attained { IfSome result (λ b. b.exact ≡ true → (exact ≡ true)
        × ((n : ℤ) → point_cmp n point ≡ Equal → n ≡ b.number)) }
{
    match point {
        Point::Whole(number) => {
            if number < range.least {
                return None;
            }
            if range.greatest < number {
                return None;
            }
            Some(Bound { number, exact })
        }
        Point::Between(below) => {
            if below < range.least {
                return None;
            }
            if range.greatest < below {
                return None;
            }
            Some(Bound {
                number: below,
                exact: false,
            })
        }
    }
}

/// Returns a least value of a column as the least of its whole numbers: the least cell that isn't
/// below the value. `None` where the type has no such cell, or none that isn't above the value.
pub fn least(logical: LogicalType, value: Exact, exact: bool) -> Option<Bound>
    ensures told { (m : ℤ) (n : ℤ) → IsIn (range_of logical) m → IsIn (range_of logical) n
        → holds Lte (fraction_cmp (value_of logical m) (fraction_of value)) ≡ true
        → holds Gte (fraction_cmp (value_of logical n) (fraction_of value)) ≡ true
        → IsSome result }
    ensures inside { IfSome result (λ b. IsIn (range_of logical) b.number) }
    ensures below { IfSome result (λ b. (n : ℤ) → IsIn (range_of logical) n
        → holds Gte (fraction_cmp (value_of logical n) (fraction_of value)) ≡ true
        → b.number ≤ℤ n) }
    ensures reached { IfSome result (λ b.
        holds Gte (fraction_cmp (value_of logical b.number) (fraction_of value)) ≡ true) }
    ensures attained { IfSome result (λ b. b.exact ≡ true → (exact ≡ true)
        × ((n : ℤ) → IsIn (range_of logical) n
        → fraction_cmp (value_of logical n) (fraction_of value) ≡ Equal → n ≡ b.number)) }
{
    least_from(logical.locate(value), logical.range(), exact)
}

/// Returns a greatest value of a column as the greatest of its whole numbers: the greatest cell
/// that isn't above the value. `None` where the type has no such cell, or none that isn't below the
/// value.
pub fn greatest(logical: LogicalType, value: Exact, exact: bool) -> Option<Bound>
    ensures told { (m : ℤ) (n : ℤ) → IsIn (range_of logical) m → IsIn (range_of logical) n
        → holds Lte (fraction_cmp (value_of logical m) (fraction_of value)) ≡ true
        → holds Gte (fraction_cmp (value_of logical n) (fraction_of value)) ≡ true
        → IsSome result }
    ensures inside { IfSome result (λ b. IsIn (range_of logical) b.number) }
    ensures above { IfSome result (λ b. (n : ℤ) → IsIn (range_of logical) n
        → holds Lte (fraction_cmp (value_of logical n) (fraction_of value)) ≡ true
        → n ≤ℤ b.number) }
    ensures reached { IfSome result (λ b.
        holds Lte (fraction_cmp (value_of logical b.number) (fraction_of value)) ≡ true) }
    ensures attained { IfSome result (λ b. b.exact ≡ true → (exact ≡ true)
        × ((n : ℤ) → IsIn (range_of logical) n
        → fraction_cmp (value_of logical n) (fraction_of value) ≡ Equal → n ≡ b.number)) }
{
    greatest_from(logical.locate(value), logical.range(), exact)
}
