//! Where an exact number lies among the cells of a column.
ghost use Rattle.std.specs.Prelude.{◌≡◌, ◌<◌, ◌≤◌, ◌^◌, ◌*◌, ◌<ℤ◌, pos};
ghost use Rattle.vortex_logical.specs.Points.{IsPlace, place_of, point_of};

use crate::exact::{Exact, Step};
use crate::point::Point;

// Returns where a number lies among the multiples of another.
fn divided(number: i128, divisor: i128) -> Point
    requires { pos 0 <ℤ divisor }
    ensures { result ≡ point_of number divisor }
{
    let quotient = number.div_euclid(divisor);
    if number.rem_euclid(divisor) == 0 {
        Point::Whole(quotient)
    } else {
        Point::Between(quotient)
    }
}

// Returns a power of ten.
fn power_of_ten(exponent: u32) -> i128
    requires { exponent ≤ 38 }
    ensures { result ≡ pos (10 ^ exponent) }
{
    10u128.pow(exponent) as i128
}

// Returns a multiple of a power of ten.
fn multiple(exponent: u32, each: u32) -> i128
    requires short { each ≤ 86_400 }
    requires digits { exponent ≤ 33 }
    ensures { result ≡ pos (10 ^ exponent * each) }
{
    (10u128.pow(exponent) * u128::from(each)) as i128
}

/// Returns where a number lies among the cells of a column.
pub(crate) fn place(step: Step, number: Exact) -> Point
    requires positive { 0 < step.each }
    requires short { step.each ≤ 86_400 }
    requires scale { step.scale ≤ 38 }
    ensures value { result ≡ place_of step number.top number.scale }
    ensures placed { IsPlace step number result }
{
    if number.scale >= step.scale {
        let divisor = multiple(number.scale - step.scale, step.each);
        return divided(number.top, divisor);
    }
    let factor = power_of_ten(step.scale - number.scale);
    match number.top.checked_mul(factor) {
        Some(scaled) => divided(scaled, i128::from(step.each)),
        None if number.top < 0 => Point::Between(i128::MIN),
        None => Point::Between(i128::MAX),
    }
}
