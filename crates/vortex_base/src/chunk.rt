//! Columns of one length under a scope.
ghost use Rattle.std.specs.Prelude.{◌≡◌, ◌+◌, ◌<◌, ◌^◌, IsTrue, Ok, OnErr, OnOk, length, nat_lt, slice_get, Some};
ghost use Rattle.std.specs.Bool.{OnTrue};
ghost use Rattle.std.specs.List.{list_all, zip};
ghost use Rattle.vortex_base.specs.Answer.{Answers, Makes};
ghost use Rattle.vortex_base.specs.Data.Scalars.{is_optional_value};
ghost use Rattle.vortex_base.specs.Data.Columns as spec;

use crate::column::{Column, append_all, push_each};
use crate::error::BaseError;
use crate::row::Row;
use crate::scalar_value::ScalarValue;
use crate::scope::Scope;
use crate::value_ref::{fits, lend};
use std::marker::Model;

/// The columns of a scope, in its order and all of one length.
#[derive(Debug, Drop)]
pub struct Chunk {
    scope: Scope,
    columns: Vec<Column>,
    rows: usize,
}

impl Model for Chunk {
    ghost use Rattle.std.specs.Prelude.{◌≡◌};
    ghost use Rattle.vortex_base.specs.Data.Columns.{ChunkData, row_count, IsChunk};

    ghost Value = { ChunkData };

    ghost view = { λ a. record { scope = a.scope; columns = a.columns.items } };

    ghost invariant = { λ a. (a.rows ≡ row_count a.columns.items)
        × IsChunk (record { scope = a.scope; columns = a.columns.items }) };
}

fn row_count(columns: &[Column]) -> usize
    ensures { result ≡ spec.row_count columns.now }
{
    match columns.first() {
        None => 0,
        Some(column) => column.len(),
    }
}

fn all_long(rows: usize, columns: &[Column]) -> bool
    ensures value { result ≡ spec.all_long rows columns.now }
    ensures are_columns { OnTrue result (IsTrue (list_all spec.is_column columns.now)) }
{
    for column in columns {
        if column.len() != rows {
            return false;
        }
    }
    true
}

// Whether two sizes add up to no more than `u64` has.
fn fit_together(left: u64, right: u64) -> bool
    ensures { result ≡ nat_lt (left + right) (2 ^ 64) }
{
    left.checked_add(right).is_some()
}

fn sizes_fit(columns: &[Column], others: &[Column]) -> bool
    ensures { result
        ≡ list_all (λ p. nat_lt (p.0.size + p.1.size) (2 ^ 64)) (zip columns.now others.now) }
{
    columns.iter().zip(others.iter()).all(|(column, other)| fit_together(
        column.size(),
        other.size(),
    ))
}

// Whether each value may stand under the type of the column beside it.
fn pairs_fit(columns: &[Column], values: &[Option<ScalarValue>]) -> bool
    ensures { result ≡ list_all (λ p. is_optional_value p.1 p.0.dtype)
        (zip columns.now values.now) }
{
    columns.iter().zip(values.iter()).all(|(column, value)| fits(
        lend(value.as_ref()),
        &column.dtype(),
    ))
}

// Whether a row has one value a column, which may stand under its type.
fn row_fits(columns: &[Column], values: &[Option<ScalarValue>]) -> bool
    ensures { result ≡ spec.row_fits columns.now values.now }
{
    columns.len() == values.len() && pairs_fit(columns, values)
}

impl Chunk {
    /// The chunk of a scope and its columns. `RowShape` if the number of columns is not the scope's
    /// or their lengths differ, and else `Mismatch` if a column's type is not the scope's.
    pub fn try_new(scope: Scope, columns: Vec<Column>) -> Result<Chunk, BaseError>
        ensures { result ≡ spec.chunk_of scope columns.items }
    {
        let rows = row_count(&columns);
        if scope.len() != columns.len() || !all_long(rows, &columns) {
            return Err(BaseError::RowShape);
        }
        if !scope.has_types(&columns) {
            return Err(BaseError::Mismatch);
        }
        Ok(Chunk {
            scope,
            columns,
            rows,
        })
    }

    pub fn scope(&self) -> &Scope
        ensures value { result.now ≡ self.now.scope }
        ensures is_chunk { spec.IsChunk self.now }
    {
        &self.scope
    }

    /// The number of rows.
    pub fn rows(&self) -> usize
        ensures value { result ≡ spec.row_count self.now.columns }
        ensures is_chunk { spec.IsChunk self.now }
    {
        self.rows
    }

    /// The column at a place, which the length of `scope` tells to be in range.
    pub fn column(&self, i: usize) -> &Column
        requires { i < length self.now.scope }
        ensures { slice_get self.now.columns i ≡ Some result.now }
    {
        &self.columns[i]
    }

    /// The row at a place, which `rows` tells to be in range.
    pub fn row(&self, i: usize) -> Row<'_>
        requires { i < spec.row_count self.now.columns }
        ensures value { result ≡ spec.row_of i self.entry.now.columns }
        ensures is_row { spec.IsRow result }
    {
        Row::of_columns(&self.columns, i)
    }

    /// Whether no two declared sizes of columns at one place add up past `u64`, so that the other
    /// chunk's rows may be appended.
    pub fn sizes_fit(&self, other: &Chunk) -> bool
        ensures { result ≡ spec.sizes_fit self.now.columns other.now.columns }
    {
        sizes_fit(&self.columns, &other.columns)
    }

    /// Moves the rows of another chunk of the same scope behind this one's, and adds the declared
    /// sizes. The other is left without rows, its columns at a declared size of 0. Where memory is
    /// refused, both are as they were.
    pub fn append(&mut self, other: &mut Chunk) -> Result<(), BaseError>
        requires scope { self.old.scope ≡ other.old.scope }
        requires sizes { IsTrue (spec.sizes_fit self.old.columns other.old.columns) }
        ensures appended { OnOk result (self.new ≡ spec.appended_chunk self.old other.old) }
        ensures emptied { OnOk result (other.new ≡ spec.emptied_chunk other.old) }
        ensures refused { OnErr result ((self.new ≡ self.old) × (other.new ≡ other.old)) }
        ensures memory { Makes tt result }
    {
        append_all(&mut self.columns, &mut other.columns)?;
        self.rows = row_count(&self.columns);
        other.rows = 0;
        Ok(())
    }

    /// Adds a row: one value a column, each of its column's type, `None` being null. `Mismatch`
    /// where the row isn't one of the scope's, and else `Memory` alone. Declared sizes stay as they
    /// are, and from a refusal the chunk is as it was.
    pub fn push_row(&mut self, values: Vec<Option<ScalarValue>>) -> Result<(), BaseError>
        ensures pushed { OnOk result (spec.pushed_chunk self.old values.items ≡ Ok self.new) }
        ensures refused { OnErr result (self.new ≡ self.old) }
        ensures error { Answers (spec.pushed_chunk self.old values.items) tt result }
    {
        if !row_fits(&self.columns, &values) {
            return Err(BaseError::Mismatch);
        }
        push_each(&mut self.columns, values, self.rows)?;
        self.rows = row_count(&self.columns);
        Ok(())
    }
}
