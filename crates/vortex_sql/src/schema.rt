//! The columns that a condition may name, with what their cells stand for.
ghost use Rattle.std.specs.Prelude.{◌≡◌, option_map, slice_get};
ghost use Rattle.vortex_sql.specs.Readings.{field_of_found};
ghost use Rattle.vortex_sql.specs.Schemas as spec;

use crate::cells::Cells;
use crate::found::Found;
use std::alloc::Global;
use std::marker::Model;
use vortex_base::scope::Scope;
use vortex_base::text::Text;

/// The columns that a condition may name: those of a scope, and what the cells of each stand for.
#[derive(Drop)]
pub struct Schema {
    scope: Scope,
    cells: Vec<Cells>,
}

impl Model for Schema {
    ghost use Rattle.vortex_sql.specs.Schemas.{SchemaData};

    ghost Value = { SchemaData };

    ghost view = { λ s. record { scope = s.scope; cells = s.cells.items } };
}

impl Schema {
    /// Returns the columns of a scope with what their cells stand for, in the order of the scope.
    /// The cells of columns past the end of the list are the values themselves.
    pub fn new(scope: Scope, cells: Vec<Cells>) -> Schema
        ensures scope { result.scope ≡ scope }
        ensures cells { result.cells ≡ cells.items }
    {
        Schema { scope, cells }
    }

    /// Returns the columns of a scope whose cells are the values themselves.
    pub fn of_scope(alloc: Global, scope: Scope) -> Schema
        ensures { result ≡ spec.plain_schema scope }
    {
        Schema {
            scope,
            cells: Vec::new(alloc),
        }
    }

    /// Returns the columns.
    pub fn scope(&self) -> &Scope
        ensures { result.now ≡ self.now.scope }
    {
        &self.scope
    }

    /// Returns what the cells of the column at a place stand for.
    pub fn cells(&self, place: usize) -> Cells
        ensures { result ≡ spec.listed (slice_get self.now.cells place) }
    {
        match self.cells.get(place) {
            Some(cells) => *cells,
            None => Cells::Values,
        }
    }

    /// Returns the column of a name.
    pub(crate) fn find(&self, name: &Text) -> Option<Found>
        ensures { option_map field_of_found result ≡ spec.find_field self.now name.now }
    {
        match self.scope.find(name.as_str()) {
            Some(index) => Some(Found {
                index,
                dtype: self.scope.dtype(index),
                cells: self.cells(index),
            }),
            None => None,
        }
    }
}
