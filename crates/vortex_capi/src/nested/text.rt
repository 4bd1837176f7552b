//! Reads the expression that a text is.
ghost use Rattle.std.specs.Prelude.{◌≡◌, ◌≤◌, IfOk, IsErrOf, None};
ghost use Rattle.vortex_base.specs.Data.Scopes.{named_columns};
ghost use Rattle.vortex_normal.specs.Balanced.{depth};
ghost use Rattle.vortex_syntax.specs.Expressions.{expression_of};
ghost use Rattle.vortex_syntax.specs.Words.{words};
ghost use Rattle.vortex_capi.specs.Nesting.Texts.{IsDeeper, IsHalvedOf};

use crate::nested::error::NestedError;
use crate::nested::reader::read_nested;
use std::alloc::Global;
use vortex_expr::bound_expression::BoundExpression;
use vortex_syntax::columns::Columns;
use vortex_syntax::word::no_word;

/// Reads the expression that a text is, and joins its chains of AND and of OR in halves.
///
/// `levels` bounds the nodes above a leaf of the result, and how deep the calls nest. A column and
/// a literal have no level. A chain of 100,000 items adds 17, however it is written. The time is
/// linear in the text.
///
/// # Errors
///
/// `Bad` comes of a text that is no expression over the columns. `TooDeep` comes of an expression
/// with more levels; it may come of a text that is no expression, too. `Memory` comes where memory
/// is refused.
pub fn nested_expression(
    alloc: Global,
    columns: &Columns,
    text: &[u8],
    levels: u32,
) -> Result<BoundExpression, NestedError>
    ensures expression { IfOk result
        (λ b. IsHalvedOf (expression_of (named_columns columns.now) (words text.now)) b) }
    ensures within { IfOk result (λ b. depth b ≤ levels) }
    ensures bad { IsErrOf result NestedError.Bad
        → expression_of (named_columns columns.now) (words text.now) ≡ None }
    ensures too_deep { IsErrOf result NestedError.TooDeep
        → IsDeeper levels (expression_of (named_columns columns.now) (words text.now)) }
{
    let (whole, rest) = match read_nested(alloc, columns, levels as usize + 1, text) {
        Ok(found) => found,
        Err(e) => return Err(e),
    };
    match no_word(rest) {
        Ok(()) => Ok(whole.into_expression()),
        Err(e) => Err(NestedError::from(e)),
    }
}
