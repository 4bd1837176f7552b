//! Tests for columns, placeholders and row counts within an expression.
ghost use Rattle.std.specs.Prelude.{◌≡◌, slice_get};
ghost use Rattle.vortex_expr.specs.Trees.Tree as tree;
ghost use Rattle.vortex_expr.specs.Meanings.Fitting as fitting;

use crate::bound_expression::{BoundExpression, Node};
use vortex_base::dtype::DType;
use vortex_base::row::Row;
use vortex_base::scope::Scope;

impl BoundExpression {
    // Whether a column stands in the expression, the inputs of placeholders included.
    pub(crate) fn has_column(&self) -> bool
        ensures { result ≡ tree.has_column self.now }
    {
        match &*self.node {
            Node::Column(_) => true,
            Node::Literal(_) | Node::RowCount => false,
            Node::IsNull(x) | Node::IsNotNull(x) | Node::Not(x) | Node::Stat(_, x) => {
                x.has_column()
            }
            Node::Binary(_, left, right) | Node::Like(_, left, right) => {
                left.has_column() || right.has_column()
            }
            Node::Between(_, x, lower, upper) => {
                x.has_column() || lower.has_column() || upper.has_column()
            }
        }
    }

    // Whether a placeholder stands in the expression.
    pub(crate) fn has_placeholder(&self) -> bool
        ensures { result ≡ tree.has_placeholder self.now }
    {
        match &*self.node {
            Node::Stat(_, _) => true,
            Node::Column(_) | Node::Literal(_) | Node::RowCount => false,
            Node::IsNull(x) | Node::IsNotNull(x) | Node::Not(x) => x.has_placeholder(),
            Node::Binary(_, left, right) | Node::Like(_, left, right) => {
                left.has_placeholder() || right.has_placeholder()
            }
            Node::Between(_, x, lower, upper) => {
                x.has_placeholder() || lower.has_placeholder() || upper.has_placeholder()
            }
        }
    }

    // Whether the row count stands in the expression.
    fn has_row_count(&self) -> bool
        ensures { result ≡ tree.has_row_count self.now }
    {
        match &*self.node {
            Node::RowCount => true,
            Node::Column(_) | Node::Literal(_) => false,
            Node::IsNull(x) | Node::IsNotNull(x) | Node::Not(x) | Node::Stat(_, x) => {
                x.has_row_count()
            }
            Node::Binary(_, left, right) | Node::Like(_, left, right) => {
                left.has_row_count() || right.has_row_count()
            }
            Node::Between(_, x, lower, upper) => {
                x.has_row_count() || lower.has_row_count() || upper.has_row_count()
            }
        }
    }

    /// Whether a column stands outside the input of every placeholder, so that the expression needs
    /// a row even where each placeholder is bound.
    pub fn has_bare_column(&self) -> bool
        ensures { result ≡ tree.has_bare_column self.now }
    {
        match &*self.node {
            Node::Column(_) => true,
            Node::Literal(_) | Node::Stat(_, _) | Node::RowCount => false,
            Node::IsNull(x) | Node::IsNotNull(x) | Node::Not(x) => x.has_bare_column(),
            Node::Binary(_, left, right) | Node::Like(_, left, right) => {
                left.has_bare_column() || right.has_bare_column()
            }
            Node::Between(_, x, lower, upper) => {
                x.has_bare_column() || lower.has_bare_column() || upper.has_bare_column()
            }
        }
    }

    /// Whether the expression holds no placeholder and no row count.
    pub fn is_plain(&self) -> bool
        ensures { result ≡ tree.is_plain self.now }
    {
        !self.has_placeholder() && !self.has_row_count()
    }

    /// Whether the expression holds no placeholder and no column.
    pub fn is_closed(&self) -> bool
        ensures { result ≡ tree.is_closed self.now }
    {
        !self.has_placeholder() && !self.has_column()
    }

    /// Whether each column's place and type are the scope's.
    pub fn fits_scope(&self, scope: &Scope) -> bool
        ensures { result ≡ fitting.fits_scope self.now scope.now }
    {
        match &*self.node {
            Node::Column(place) => is_of_type(self.dtype, scope, *place),
            Node::Literal(_) | Node::RowCount => true,
            Node::IsNull(x) | Node::IsNotNull(x) | Node::Not(x) | Node::Stat(_, x) => {
                x.fits_scope(scope)
            }
            Node::Binary(_, left, right) | Node::Like(_, left, right) => {
                left.fits_scope(scope) && right.fits_scope(scope)
            }
            Node::Between(_, x, lower, upper) => {
                x.fits_scope(scope) && lower.fits_scope(scope) && upper.fits_scope(scope)
            }
        }
    }

    // Whether each column has its place in the row, and its type there, nullability aside.
    pub(crate) fn fits_row(&self, row: &Row<'_>) -> bool
        ensures { result ≡ fitting.fits_row self.now row.now }
    {
        match &*self.node {
            Node::Column(place) => is_cell_of(self.dtype, row, *place),
            Node::Literal(_) | Node::RowCount => true,
            Node::IsNull(x) | Node::IsNotNull(x) | Node::Not(x) | Node::Stat(_, x) => {
                x.fits_row(row)
            }
            Node::Binary(_, left, right) | Node::Like(_, left, right) => {
                left.fits_row(row) && right.fits_row(row)
            }
            Node::Between(_, x, lower, upper) => {
                x.fits_row(row) && lower.fits_row(row) && upper.fits_row(row)
            }
        }
    }
}

fn is_of_type(dtype: DType, scope: &Scope, place: usize) -> bool
    ensures { result ≡ fitting.is_of_type dtype (slice_get scope.now place) }
{
    place < scope.len() && scope.dtype(place) == dtype
}

fn is_cell_of(dtype: DType, row: &Row<'_>, place: usize) -> bool
    ensures { result ≡ fitting.is_cell_of dtype (slice_get row.now place) }
{
    match row.dtype(place) {
        Some(cell) => cell.eq_ignore_nullability(&dtype),
        None => false,
    }
}
