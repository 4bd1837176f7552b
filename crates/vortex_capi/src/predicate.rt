//! The predicate that a caller writes.
ghost use Rattle.std.specs.Prelude.{◌≡◌};
ghost use Rattle.vortex_base.specs.Data.Scopes.{named_columns};
ghost use Rattle.vortex_rewrite.specs.Rewriting.Predicates.{is_predicate};
ghost use Rattle.vortex_capi.specs.Scopes as spec;

use crate::fault::Refusal;
use crate::nested::error::NestedError;
use crate::nested::text::nested_expression;
use crate::status::Status;
use std::alloc::Global;
use vortex_base::dtype::DType;
use vortex_expr::bound_expression::BoundExpression;
use vortex_syntax::columns::Columns;
use vortex_syntax::lines::is_utf8;

/// The most levels that a predicate may have, `VORTEX_MAX_DEPTH` of the header: a call over one of
/// as many fits into 256 KiB of stack.
pub(crate) const MAX_DEPTH: u32 = 128;

// The expression that a text is, as a `where` line has it behind its first word, with its chains of
// AND and of OR joined in halves.
fn expression_in(
    alloc: Global,
    columns: &Columns,
    text: &[u8],
) -> Result<BoundExpression, NestedError>
    ensures { spec.IsNested (spec.expression_in (named_columns columns.now) text.now) result }
{
    if !is_utf8(text) {
        return Err(NestedError::Bad);
    }
    if columns.as_slice().is_empty() {
        return Err(NestedError::Bad);
    }
    nested_expression(alloc, columns, text, MAX_DEPTH)
}

fn is_truth(expression: &BoundExpression) -> bool
    ensures { result ≡ is_predicate expression.now }
{
    matches!(expression.dtype(), DType::Bool(_))
}

/// The predicate that a text is, with its chains of AND and of OR joined in halves.
pub(crate) fn predicate_given(
    alloc: Global,
    columns: &Columns,
    text: &[u8],
) -> Result<BoundExpression, Refusal>
    ensures { spec.IsPredicateGiven (spec.predicate_given (named_columns columns.now) text.now)
        result }
{
    match expression_in(alloc, columns, text) {
        Ok(expression) => {
            if is_truth(&expression) {
                Ok(expression)
            } else {
                Err(Refusal::at_entry(Status::NotAPredicate, 0))
            }
        }
        Err(e) => Err(Refusal::at_entry(Status::from(e), 0)),
    }
}
