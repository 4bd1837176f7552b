//! Named columns.
ghost use Rattle.std.specs.Prelude.{◌≡◌, ◌↔◌, ◌<◌, IfOk, IfSome, IsTrue, Some, option_map};
ghost use Rattle.std.specs.Prelude.{length, position, slice_get};
ghost use Rattle.std.specs.Cmp.{partial_equiv_from_equiv};
ghost use Rattle.std.specs.List.{list_all, list_any, zip};
ghost use Rattle.vortex_base.specs.Data.Columns as columns_spec;
ghost use Rattle.vortex_base.specs.Data.Exact.{exact_equivalence};
ghost use Rattle.vortex_base.specs.Data.Names.{all_named};
ghost use Rattle.vortex_base.specs.Data.Scopes as scopes;
ghost use Rattle.vortex_base.specs.Data.Types.{dtype_eq};

use crate::column::Column;
use crate::dtype::DType;
use crate::error::BaseError;
use std::alloc::{AllocError, Global};
use std::collections::BTreeSet;
use std::marker::Model;
use std::rc::Rc;

// Names with their types, which one scope has for itself or several have together.
#[derive(Debug, Drop)]
enum Names {
    Own(Vec<(String, DType)>),
    Shared(Rc<Vec<(String, DType)>>),
}

/// The columns that expressions can speak of: a list of distinct names, each with its type.
#[derive(Debug, Drop)]
pub struct Scope {
    names: Names,
}

impl Model for Scope {
    ghost use Rattle.std.specs.Prelude.{List};
    ghost use Rattle.vortex_base.specs.Data.Names.{all_named};
    ghost use Rattle.vortex_base.specs.Data.Scopes.{Named, IsScope};

    ghost Value = { List Named };

    ghost view = { λ s. all_named s.names };

    ghost invariant = { λ s. IsScope (all_named s.names) };
}

fn contains(columns: &[(String, DType)], name: &str) -> bool
    ensures { result ≡ list_any (λ c. scopes.is_named name.now (scopes.named c)) columns.now }
{
    columns.iter().any(|c| c.0.as_str() == name)
}

// Whether some name stands twice, by the set of the names so far.
fn has_duplicate_in_set(columns: &Vec<(String, DType)>) -> Result<bool, AllocError>
    ensures { IfOk result (λ found.
        found ≡ scopes.has_duplicate (scopes.named_columns columns.now.items)) }
{
    let mut names = BTreeSet::new(*columns.allocator());
    for column in columns {
        if !names.insert(column.0.as_str())? {
            return Ok(true);
        }
    }
    Ok(false)
}

// Whether a name stands twice, found without memory in a time that grows with the square of the
// number of columns.
#[inline(never)]
fn has_duplicate_in_pairs(columns: &[(String, DType)]) -> bool
    ensures { result ≡ scopes.has_duplicate (scopes.named_columns columns.now) }
{
    let mut rest = columns;
    'columns: while let Some((first, later)) = rest.split_first() {
        if contains(later, first.0.as_str()) {
            return true;
        }
        rest = later;
    }
    false
}

fn has_duplicate(columns: &Vec<(String, DType)>) -> bool
    ensures { result ≡ scopes.has_duplicate (scopes.named_columns columns.now.items) }
{
    match has_duplicate_in_set(columns) {
        Ok(found) => found,
        Err(_) => has_duplicate_in_pairs(columns),
    }
}

fn is_empty(columns: &[(String, DType)]) -> bool
    ensures { result ≡ scopes.is_empty (scopes.named_columns columns.now) }
{
    match columns.split_first() {
        None => true,
        Some(_) => false,
    }
}

fn has_state(columns: &[(String, DType)]) -> bool
    ensures { result ≡ list_any (λ c. scopes.is_state_column (scopes.named c)) columns.now }
{
    columns
        .iter()
        .any(|c| matches!(c.1, DType::MinMaxState(_, _)))
}

fn place_of(columns: &[(String, DType)], name: &str) -> Option<usize>
    ensures value { result ≡ position (λ c. scopes.is_named name.now (scopes.named c)) columns.now }
    ensures in_range { IfSome result (λ i. i < length columns.now) }
{
    columns.iter().position(|c| c.0.as_str() == name)
}

fn pairs_fit(names: &[(String, DType)], columns: &[Column]) -> bool
    ensures { result ≡ list_all (λ p. dtype_eq p.0.1 p.1.dtype) (zip names.now columns.now) }
{
    names
        .iter()
        .zip(columns.iter())
        .all(|(named, column)| named.1 == column.dtype())
}

fn has_types(names: &[(String, DType)], columns: &[Column]) -> bool
    ensures { result ≡ columns_spec.has_types (scopes.named_columns names.now) columns.now }
{
    names.len() == columns.len() && pairs_fit(names, columns)
}

fn is_same(left: &[(String, DType)], right: &[(String, DType)]) -> bool
    ensures { result
        ≡ scopes.scope_eq (scopes.named_columns left.now) (scopes.named_columns right.now) }
{
    left == right
}

impl Names {
    #[inline]
    fn columns(&self) -> &[(String, DType)]
        ensures { scopes.named_columns result.now ≡ all_named self.now }
    {
        match self {
            Names::Own(columns) => columns.as_slice(),
            Names::Shared(columns) => columns.as_slice(),
        }
    }
}

// The columns again.
fn copied(columns: &Vec<(String, DType)>) -> Result<Vec<(String, DType)>, AllocError>
    ensures { IfOk result (λ copy.
        scopes.named_columns copy.items ≡ scopes.named_columns columns.now.items) }
{
    let mut copy = Vec::with_capacity(*columns.allocator(), columns.len())?;
    for column in columns.iter() {
        let name = column.0.clone()?;
        copy.push((name, column.1))?;
    }
    Ok(copy)
}

impl Scope {
    /// The scope of columns whose names are known to be distinct, with no test of their names.
    pub fn new_unchecked(columns: Vec<(String, DType)>) -> Scope
        requires { scopes.IsScope (scopes.named_columns columns.items) }
        ensures { result ≡ scopes.named_columns columns.items }
    {
        Scope {
            names: Names::Own(columns),
        }
    }

    /// The scope of these columns. Of several faults the first of these is answered: `EmptyScope`
    /// if there is no column, `DuplicateColumn` if a name stands twice, `TypeFault` if a type is a
    /// `MinMaxState`.
    pub fn try_new(columns: Vec<(String, DType)>) -> Result<Scope, BaseError>
        ensures { result ≡ scopes.scope_of (scopes.named_columns columns.items) }
    {
        if is_empty(&columns) {
            return Err(BaseError::EmptyScope);
        }
        if has_duplicate(&columns) {
            return Err(BaseError::DuplicateColumn);
        }
        if has_state(&columns) {
            return Err(BaseError::TypeFault);
        }
        Ok(Scope {
            names: Names::Own(columns),
        })
    }

    /// This scope in a form whose clones share its names.
    pub fn try_shared(self, alloc: Global) -> Result<Scope, AllocError>
        ensures { IfOk result (λ scope. scope ≡ self) }
    {
        let names = match self.names {
            Names::Own(columns) => Names::Shared(Rc::new(alloc, columns)?),
            Names::Shared(columns) => Names::Shared(columns),
        };
        Ok(Scope { names })
    }

    /// An equal scope. It copies the names unless they are shared.
    pub fn try_clone(&self) -> Result<Scope, AllocError>
        ensures { IfOk result (λ scope. scope ≡ self.now) }
    {
        let names = match &self.names {
            Names::Own(columns) => Names::Own(copied(columns)?),
            Names::Shared(columns) => Names::Shared(columns.clone()?),
        };
        Ok(Scope { names })
    }

    /// The number of columns.
    pub fn len(&self) -> usize
        ensures value { result ≡ length self.now }
        ensures is_scope { scopes.IsScope self.now }
    {
        self.names.columns().len()
    }

    /// The name of the column at a place, which `len` tells to be in range.
    pub fn name(&self, i: usize) -> &str
        requires { i < length self.now }
        ensures { option_map (λ c. c.0) (slice_get self.now i) ≡ Some result.now }
    {
        self.names.columns()[i].0.as_str()
    }

    /// The type of the column at a place, which `len` tells to be in range.
    pub fn dtype(&self, i: usize) -> DType
        requires { i < length self.now }
        ensures { option_map (λ c. c.1) (slice_get self.now i) ≡ Some result }
    {
        let (_, dtype) = &self.names.columns()[i];
        *dtype
    }

    /// The place of the column of a name.
    pub fn find(&self, name: &str) -> Option<usize>
        ensures value { result ≡ scopes.place_of name.now self.now }
        ensures in_range { IfSome result (λ i. i < length self.now) }
    {
        place_of(self.names.columns(), name)
    }

    // Whether there are as many columns as names, each of its name's type.
    pub(crate) fn has_types(&self, columns: &[Column]) -> bool
        ensures { result ≡ columns_spec.has_types self.now columns.now }
    {
        has_types(self.names.columns(), columns)
    }
}

impl PartialEq for Scope {
    ghost eq = { scopes.scope_eq };

    ghost laws = { partial_equiv_from_equiv
        (exact_equivalence scopes.scope_eq scopes.scope_eq_is_exact) };

    fn eq(&self, other: &Scope) -> bool
        ensures value { result ≡ scopes.scope_eq self.now other.now }
        ensures same { IsTrue result ↔ (self.now ≡ other.now) }
    {
        is_same(self.names.columns(), other.names.columns())
    }
}

impl Eq for Scope {
    ghost laws = { exact_equivalence scopes.scope_eq scopes.scope_eq_is_exact };
}
