//! Comparisons with a literal, as comparisons of the whole numbers of a type.
ghost use Rattle.std.specs.Prelude.{◌≡◌, ◌<◌, ◌≤◌, ◌≤ℤ◌, ℤ};
ghost use Rattle.vortex_logical.specs.Meaning.{holds};
ghost use Rattle.vortex_logical.specs.Points.{place_of, point_cmp};
ghost use Rattle.vortex_logical.specs.Lowering as spec;

use crate::cell_range::CellRange;
use crate::comparison::Comparison;
use crate::exact::{Exact, Step};
use crate::place::place;
use crate::point::Point;

/// A comparison of a column's whole number with one.
#[derive(Debug, Clone, Copy, PartialEq, Eq)]
pub struct CellTest {
    pub comparison: Comparison,
    pub number: i128,
}

fn with_least(comparison: Comparison) -> Comparison
    ensures { result ≡ spec.with_least comparison }
{
    match comparison {
        Comparison::Eq | Comparison::Lt | Comparison::Lte => Comparison::Lt,
        Comparison::NotEq | Comparison::Gt | Comparison::Gte => Comparison::Gte,
    }
}

fn with_greatest(comparison: Comparison) -> Comparison
    ensures { result ≡ spec.with_greatest comparison }
{
    match comparison {
        Comparison::Eq | Comparison::Gt | Comparison::Gte => Comparison::Gt,
        Comparison::NotEq | Comparison::Lt | Comparison::Lte => Comparison::Lte,
    }
}

fn clamped(comparison: Comparison, number: i128, range: CellRange) -> CellTest
    ensures { result ≡ spec.clamped comparison number range }
{
    if number < range.least {
        CellTest {
            comparison: with_least(comparison),
            number: range.least,
        }
    } else if range.greatest < number {
        CellTest {
            comparison: with_greatest(comparison),
            number: range.greatest,
        }
    } else {
        CellTest { comparison, number }
    }
}

// Returns the comparison with a whole number of the type.
fn lowered(comparison: Comparison, point: Point, range: CellRange) -> CellTest
    ensures { result ≡ spec.lowered comparison point range }
{
    match point {
        Point::Whole(number) => clamped(comparison, number, range),
        Point::Between(below) => match comparison {
            Comparison::Eq => CellTest {
                comparison: Comparison::Gt,
                number: range.greatest,
            },
            Comparison::NotEq => CellTest {
                comparison: Comparison::Lte,
                number: range.greatest,
            },
            Comparison::Gt | Comparison::Gte => clamped(Comparison::Gt, below, range),
            Comparison::Lt | Comparison::Lte => clamped(Comparison::Lte, below, range),
        },
    }
}

/// Returns the comparison of a column's whole number that says the same as the one with a point.
pub(crate) fn with_point(comparison: Comparison, point: Point, range: CellRange) -> CellTest
    requires { range.least ≤ℤ range.greatest }
    ensures value { result ≡ spec.lowered comparison point range }
    ensures inside { spec.IsIn range result.number }
    ensures same { (n : ℤ) → spec.IsIn range n
        → holds comparison (point_cmp n point) ≡ spec.test_holds n result }
{
    lowered(comparison, point, range)
}

/// Returns the comparison of a column's whole numbers, of which one stands for `step` and all lie
/// in a range, that says of each what the comparison of its value with a literal says.
pub fn compare_steps(
    step: Step,
    range: CellRange,
    comparison: Comparison,
    literal: Exact,
) -> CellTest
    requires positive { 0 < step.each }
    requires short { step.each ≤ 86_400 }
    requires scale { step.scale ≤ 38 }
    requires range { range.least ≤ℤ range.greatest }
    ensures value { result
        ≡ spec.lowered comparison (place_of step literal.top literal.scale) range }
    ensures inside { spec.IsIn range result.number }
{
    with_point(comparison, place(step, literal), range)
}
