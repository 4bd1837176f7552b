//! The columns that a caller names.
ghost use Rattle.std.specs.Prelude.{◌≡◌, ◌<◌, Ok, Some, length, map, slice_get};
ghost use Rattle.vortex_base.specs.Data.Scopes.{named_columns};
ghost use Rattle.vortex_capi.specs.Refusals.{Answers, Changes};
ghost use Rattle.vortex_capi.specs.LogicalKinds.{cells_told};
ghost use Rattle.vortex_capi.specs.Scopes as spec;
ghost use Rattle.vortex_syntax.specs.Names.{is_new};

use crate::fault::Refusal;
use crate::logical::{Kinds, cells_told, logical_of};
use crate::status::Status;
use crate::types::dtype_of;
use std::alloc::Global;
use std::str;
use vortex_base::dtype::DType;
use vortex_base::scope::Scope;
use vortex_sql::cells::Cells;
use vortex_sql::schema::Schema;
use vortex_syntax::columns::Columns;
use vortex_syntax::names::is_name;

/// A column of a scope: `vortex_field` of the header.
#[repr(C)]
#[derive(Clone, Copy)]
pub struct Field<'a> {
    /// The name, which no other column has.
    pub name: &'a [u8],
    /// The kind of the values.
    pub kind: u8,
    /// 1 for a type that has null, else 0.
    pub nullable: u8,
    /// The unit of times and timestamps, else 0.
    pub unit: u8,
    /// How many digits decimals have, else 0.
    pub precision: u8,
    /// How many of these stand behind the point, else 0.
    pub scale: u8,
}

// Whether a word may name the next column.
fn is_new(columns: &Columns, name: &[u8]) -> bool
    ensures { result ≡ is_new (named_columns columns.now) name.now }
{
    is_name(name) && columns.find(name).is_none()
}

impl Field<'_> {
    // The type that the column's values are kept as, of kinds that the call takes.
    fn dtype(&self, kinds: Kinds) -> Result<DType, Status>
        ensures { result ≡ spec.field_dtype kinds self.now }
    {
        match (kinds, logical_of(self)) {
            (_, Err(status)) => Err(status),
            (Kinds::Plain, Ok(Some(_))) => Err(Status::BadKind),
            _ => dtype_of(self.kind, self.nullable),
        }
    }

    // Adds the column.
    fn add_to(&self, alloc: Global, kinds: Kinds, columns: &mut Columns) -> Result<(), Status>
        ensures { Changes result (spec.with_field kinds (named_columns columns.old) self.now)
            (named_columns columns.new) }
    {
        let dtype = self.dtype(kinds)?;
        if !is_new(columns, self.name) {
            return Err(Status::BadName);
        }
        let Ok(name) = str::from_utf8(self.name) else {
            unreachable!()
        };
        let name = String::from_str(alloc, name)?;
        Ok(columns.push(alloc, name, dtype)?)
    }
}

// The column at a place.
fn field_there<'b, 'a>(fields: &'b [Field<'a>], place: usize) -> &'b Field<'a>
    requires { place < length fields.now }
    ensures { slice_get fields.now place ≡ Some result.now }
{
    &fields[place]
}

/// The columns of a scope in order, of kinds that the call takes.
pub(crate) fn columns_given(
    alloc: Global,
    kinds: Kinds,
    fields: &[Field<'_>],
) -> Result<Columns, Refusal>
    ensures { Answers (λ columns. named_columns columns) result
        (spec.scope_given kinds fields.now) }
{
    let mut columns = Columns::new(alloc);
    for place in 0..fields.len() {
        let field = field_there(fields, place);
        match field.add_to(alloc, kinds, &mut columns) {
            Ok(()) => {}
            Err(status) => return Err(Refusal::at_column(status, place)),
        }
    }
    Ok(columns)
}

// The scope that a caller names. `BadLength` where it has no column.
fn scope_given(alloc: Global, kinds: Kinds, fields: &[Field<'_>]) -> Result<Scope, Refusal>
    ensures { Answers (λ scope. scope) result (spec.filled_scope_given kinds fields.now) }
{
    let columns = columns_given(alloc, kinds, fields)?;
    if columns.as_slice().is_empty() {
        return Err(Refusal::at_entry(Status::BadLength, 0));
    }
    Ok(Scope::new_unchecked(columns.into_vec()).try_shared(alloc)?)
}

// Tells what the values of each column stand for.
fn all_cells(alloc: Global, fields: &[Field<'_>]) -> Result<Vec<Cells>, Refusal>
    ensures { Answers (λ cells. cells.items) result (Ok (map cells_told fields.now)) }
{
    let mut cells = Vec::with_capacity(alloc, fields.len())?;
    for field in fields {
        cells.push(cells_told(field))?;
    }
    Ok(cells)
}

/// The columns that a caller names, with what their values stand for. `BadLength` where there is no
/// column.
pub fn schema_given(alloc: Global, fields: &[Field<'_>]) -> Result<Schema, Refusal>
    ensures { Answers (λ schema. schema) result (spec.schema_given fields.now) }
{
    let scope = scope_given(alloc, Kinds::Logical, fields)?;
    let cells = all_cells(alloc, fields)?;
    Ok(Schema::new(scope, cells))
}
