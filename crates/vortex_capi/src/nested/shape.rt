//! Shapes of an expression behind its first word.
ghost use Rattle.std.specs.Prelude.{◌≡◌};
ghost use Rattle.vortex_capi.specs.Nesting.Reads.{shape_of, shape_of_operator};

use crate::nested::nested::{Pair, Unary};
use vortex_expr::scalar_fn::{Connective, Operator};
use vortex_syntax::form::Form;

/// Tells what stands behind the first word of an expression.
#[derive(Clone, Copy, Debug)]
pub(crate) enum Shape {
    Column,
    Literal,
    /// The items of a chain.
    Chain(Connective),
    Pair(Pair),
    Between,
    Unary(Unary),
}

fn shape_of_operator(operator: Operator) -> Shape
    ensures { result ≡ shape_of_operator operator }
{
    match operator {
        Operator::And => Shape::Chain(Connective::And),
        Operator::Or => Shape::Chain(Connective::Or),
        _ => Shape::Pair(Pair::Binary(operator)),
    }
}

/// Returns the shape of a form.
pub(crate) fn shape_of(form: Form) -> Shape
    ensures { result ≡ shape_of form }
{
    match form {
        Form::Column => Shape::Column,
        Form::Literal => Shape::Literal,
        Form::Binary(operator) => shape_of_operator(operator),
        Form::Between => Shape::Between,
        Form::IsNull => Shape::Unary(Unary::IsNull),
        Form::IsNotNull => Shape::Unary(Unary::IsNotNull),
        Form::Not => Shape::Unary(Unary::Not),
        Form::Like(options) => Shape::Pair(Pair::Like(options)),
    }
}
