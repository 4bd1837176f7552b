//! How many levels an expression has.
ghost use Rattle.std.specs.Prelude.{◌≡◌, nat_le};
ghost use Rattle.vortex_normal.specs.Balanced.{depth};

use vortex_expr::bound_expression::BoundExpression;
use vortex_expr::bound_expression::parts::Parts;

/// Returns whether an expression has no more than so many levels, which bounds how deep the calls
/// nest.
pub fn is_within(e: &BoundExpression, levels: u32) -> bool
    ensures { result ≡ nat_le (depth e.now) levels }
{
    match e.parts() {
        Parts::Column(_, _) => true,
        Parts::Literal(_) => true,
        Parts::Binary(_, left, right) => {
            levels > 0 && is_within(left, levels - 1) && is_within(right, levels - 1)
        }
        Parts::Between(_, x, lower, upper) => {
            levels > 0
                && is_within(x, levels - 1)
                && is_within(lower, levels - 1)
                && is_within(upper, levels - 1)
        }
        Parts::IsNull(x) => levels > 0 && is_within(x, levels - 1),
        Parts::IsNotNull(x) => levels > 0 && is_within(x, levels - 1),
        Parts::Not(x) => levels > 0 && is_within(x, levels - 1),
        Parts::Like(_, text, pattern) => {
            levels > 0 && is_within(text, levels - 1) && is_within(pattern, levels - 1)
        }
        Parts::Stat(_, input) => levels > 0 && is_within(input, levels - 1),
        Parts::RowCount => true,
    }
}
