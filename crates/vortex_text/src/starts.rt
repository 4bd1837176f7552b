//! The scope and the empty columns of the columns of a text.
ghost use Rattle.std.specs.Prelude.{◌≡◌, IfOk, map};
ghost use Rattle.vortex_base.specs.Data.Scopes.{IsScope, named_columns};
ghost use Rattle.vortex_text.specs.Rows.{empty_column};

use crate::column_builder::ColumnBuilder;
use std::alloc::{AllocError, Global};
use vortex_base::dtype::DType;
use vortex_base::scope::Scope;

// The columns again.
fn named(alloc: Global, columns: &[(String, DType)]) -> Result<Vec<(String, DType)>, AllocError>
    ensures { IfOk result (λ named. named_columns named.items ≡ named_columns columns.now) }
{
    let mut named = Vec::with_capacity(alloc, columns.len())?;
    for column in columns {
        let name = column.0.clone()?;
        named.push((name, column.1))?;
    }
    Ok(named)
}

/// The scope of the columns.
pub fn scope_of(alloc: Global, columns: &[(String, DType)]) -> Result<Scope, AllocError>
    requires { IsScope (named_columns columns.now) }
    ensures { IfOk result (λ scope. scope ≡ named_columns columns.now) }
{
    let named = named(alloc, columns)?;
    Ok(Scope::new_unchecked(named))
}

/// The columns without values.
pub fn empty_columns(
    alloc: Global,
    columns: &[(String, DType)],
) -> Result<Vec<ColumnBuilder>, AllocError>
    ensures { IfOk result (λ empty. empty.items ≡ map empty_column (named_columns columns.now)) }
{
    let mut empty = Vec::with_capacity(alloc, columns.len())?;
    for column in columns {
        empty.push(ColumnBuilder::new(alloc, column.1))?;
    }
    Ok(empty)
}
