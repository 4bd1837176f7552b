//! Laws of this layer, in the words of its definitions. The functions carry them by their
//! contracts.
ghost use Rattle.std.specs.Str.{chars};
ghost use Rattle.vortex_expr.specs.Worked.ExpressionExamples.{LikeExamples, TypingExamples};
ghost use Rattle.vortex_expr.specs.Worked.ExpressionExamples.{AggregateExamples, BindingExamples};
ghost use Rattle.vortex_expr.specs.Worked.ExpressionExamples.{ConnectiveExamples, MeaningExamples};
ghost use Rattle.vortex_expr.specs.Meanings.Fitting.{RowsFit, RowsMatch};
ghost use Rattle.vortex_expr.specs.Meanings.Meaning.{MeaningFits, MeaningIsTyped};
ghost use Rattle.vortex_expr.specs.Meanings.Meaning.{NullOnlyWhereNullable};
ghost use Rattle.vortex_expr.specs.Patterns.Prefix.{AreBelowSuccessor};

use crate::bound_expression::BoundExpression;
use vortex_base::chunk::Chunk;
use vortex_base::row::Row;

/// Each text that begins with a text is below that text's successor, where it has one.
pub fn texts_are_below_successors(beginning: &str)
    ensures { AreBelowSuccessor (chars beginning.now) }
{}

/// Worked cases of the definitions of expressions: LIKE, connectives, typing, binding and meaning.
pub fn expression_examples_hold()
    ensures like { LikeExamples }
    ensures connectives { ConnectiveExamples }
    ensures typing { TypingExamples }
    ensures aggregates { AggregateExamples }
    ensures binding { BindingExamples }
    ensures meaning { MeaningExamples }
{}

/// The value of an expression on a row that it fits is of the expression's type, or null.
pub fn meaning_fits(expression: &BoundExpression, row: &Row<'_>, row_count: u64)
    ensures { MeaningFits expression.now row.now row_count }
{}

/// On a row that has the very types of an expression's columns, its value is of the expression's
/// type, and null only where that type has null.
pub fn meaning_is_typed(expression: &BoundExpression, row: &Row<'_>, row_count: u64)
    ensures typed { MeaningIsTyped expression.now row.now row_count }
    ensures null { NullOnlyWhereNullable expression.now row.now row_count }
{}

/// An expression that fits the scope of a chunk fits each of its rows, which have the very types of
/// its columns.
pub fn rows_fit(expression: &BoundExpression, chunk: &Chunk, i: usize)
    ensures fit { RowsFit expression.now chunk.now i }
    ensures matched { RowsMatch expression.now chunk.now i }
{}
