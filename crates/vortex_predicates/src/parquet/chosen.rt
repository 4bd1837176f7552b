//! The columns of a file that a condition is read over.
ghost use Rattle.std.specs.Prelude.{◌≡◌, ◌++◌, ◌∷◌, [], List, IfErr, IfOk, None, OnOk, map};
ghost use Rattle.vortex_base.specs.Data.Scopes.{IsScope, named_columns, place_of};
ghost use Rattle.vortex_parquet.specs.Columns.{ColumnView, column_views, leaf_dtype};
ghost use Rattle.vortex_predicates.specs.Footers.Choosing as spec;
ghost use Rattle.vortex_predicates.specs.Footers.Mentions.{MentionData, mentions, view};
ghost use Rattle.vortex_predicates.specs.Footers.Refusals.{IsLeftOutBy, IsLeftOutOf};

use crate::parquet::error::FooterError;
use crate::parquet::mentions::{Mention, mentions_of};
use std::alloc::{AllocError, Global};
use vortex_base::dtype::DType;
use vortex_base::scope::Scope;
use vortex_base::types::Nullability;
use vortex_parquet::columns::{Column, Content, Form, Leaf, LeftOut, lookup};
use vortex_parquet::meaning::LeafMeaning;
use vortex_sql::cells::Cells;
use vortex_sql::schema::Schema;
use vortex_sql::syntax::tree::Condition;
use vortex_syntax::columns::Columns;

/// The columns that were chosen so far, and the leaf beside each.
#[derive(Drop)]
struct Chosen {
    columns: Columns,
    leaves: Vec<Leaf>,
}

// Returns the reason by which a name refuses a condition.
fn reason(found: Option<Content>) -> Option<LeftOut>
    ensures { result ≡ spec.reason found }
{
    match found {
        Some(Content::LeftOut(why)) => match why {
            LeftOut::Nested | LeftOut::Repeated | LeftOut::Duplicate => Some(why),
            LeftOut::Type => None,
        },
        _ => None,
    }
}

// Tells whether it is known what cells stand for.
fn is_known(meaning: LeafMeaning) -> bool
    ensures { result ≡ spec.is_known meaning }
{
    match meaning {
        LeafMeaning::Plain | LeafMeaning::Logical(_) | LeafMeaning::Float(_) => true,
        LeafMeaning::Opaque => false,
    }
}

// Returns what the cells of a leaf column stand for. Nothing is said of NaN.
fn cells_of(leaf: &Leaf) -> Cells
    ensures { result ≡ spec.cells_of leaf.now }
{
    match leaf.meaning {
        LeafMeaning::Logical(logical) => Cells::Exact(logical),
        LeafMeaning::Float(float) => Cells::Floats(float, None),
        LeafMeaning::Plain | LeafMeaning::Opaque => Cells::Values,
    }
}

// Returns what the cells of leaf columns stand for, in their order.
fn all_cells(alloc: Global, leaves: &[Leaf]) -> Result<Vec<Cells>, AllocError>
    ensures { IfOk result (λ cells. cells.items ≡ map spec.cells_of leaves.now) }
{
    let mut cells = Vec::with_capacity(alloc, leaves.len())?;
    for leaf in leaves {
        cells.push(cells_of(leaf))?;
    }
    Ok(cells)
}

// Returns the leaf whose tests are read.
fn leaf_in(found: Option<Content>) -> Option<Leaf>
    ensures { result ≡ spec.leaf_in found }
{
    match found {
        Some(Content::Leaf(leaf)) => {
            if is_known(leaf.meaning) {
                return Some(leaf);
            }
            None
        }
        _ => None,
    }
}

impl Chosen {
    fn push(&mut self, alloc: Global, name: &str, leaf: Leaf) -> Result<(), AllocError>
        requires { place_of name.now (named_columns self.old.columns) ≡ None }
        ensures columns { OnOk result (named_columns self.new.columns
            ≡ named_columns self.old.columns ++ (name.now, leaf_dtype leaf) ∷ []) }
        ensures leaves { OnOk result (self.new.leaves.items ≡ self.old.leaves.items ++ leaf ∷ []) }
    {
        let name = String::from_str(alloc, name)?;
        self.columns.push(alloc, name, leaf.dtype())?;
        self.leaves.push(leaf)?;
        Ok(())
    }

    // Adds the column that a name is which isn't there yet, if it is read.
    fn take_new(
        &mut self,
        alloc: Global,
        columns: &[Column<'_>],
        mention: &Mention<'_>,
    ) -> Result<(), FooterError>
        requires { place_of mention.now.name.now (named_columns self.old.columns) ≡ None }
        ensures chosen { let cs = column_views columns.now in OnOk result (
            (ms : List MentionData)
            → spec.AreChosen cs ms (named_columns self.old.columns) self.old.leaves.items
            → spec.AreChosen cs (ms ++ view mention.now ∷ []) (named_columns self.new.columns)
            self.new.leaves.items) }
        ensures refused { IfErr result (IsLeftOutBy (column_views columns.now) (view mention.now)) }
    {
        let name = mention.name.as_str();
        let found = lookup(columns, name.as_bytes());
        match reason(found) {
            Some(why) => Err(FooterError::LeftOut(mention.start, mention.end, why)),
            None => match leaf_in(found) {
                Some(leaf) => Ok(self.push(alloc, name, leaf)?),
                None => Ok(()),
            },
        }
    }

    // Adds the column that a name is, if it is read and not there yet.
    fn take(
        &mut self,
        alloc: Global,
        columns: &[Column<'_>],
        mention: &Mention<'_>,
    ) -> Result<(), FooterError>
        ensures chosen { let cs = column_views columns.now in OnOk result (
            (ms : List MentionData)
            → spec.AreChosen cs ms (named_columns self.old.columns) self.old.leaves.items
            → spec.AreChosen cs (ms ++ view mention.now ∷ []) (named_columns self.new.columns)
            self.new.leaves.items) }
        ensures refused { IfErr result (IsLeftOutBy (column_views columns.now) (view mention.now)) }
    {
        match self.columns.find(mention.name.as_str().as_bytes()) {
            Some(_) => Ok(()),
            None => self.take_new(alloc, columns, mention),
        }
    }
}

// Returns the columns that the names of a condition name.
fn chosen_of(
    alloc: Global,
    columns: &[Column<'_>],
    condition: &Condition,
) -> Result<Chosen, FooterError>
    ensures chosen { IfOk result (λ made. spec.AreChosen (column_views columns.now)
        (mentions condition.now) (named_columns made.columns) made.leaves.items) }
    ensures refused { IfErr result
        (IsLeftOutOf (column_views columns.now) (mentions condition.now)) }
{
    let mentions = mentions_of(alloc, condition)?;
    let mut chosen = Chosen {
        columns: Columns::new(alloc),
        leaves: Vec::new(alloc),
    };
    for mention in &mentions {
        chosen.take(alloc, columns, mention)?;
    }
    Ok(chosen)
}

// Returns the leaf beside a column of no name, behind those of the file.
fn no_leaf(count: usize) -> Leaf
    ensures { result ≡ spec.no_leaf count }
{
    Leaf {
        place: count,
        physical: 0,
        form: Form::Bool,
        meaning: LeafMeaning::Plain,
        nullability: Nullability::Nullable,
    }
}

/// Columns as a schema, and the leaf of a file beside each.
#[derive(Drop)]
pub(crate) struct Scoped {
    pub(crate) schema: Schema,
    pub(crate) leaves: Vec<Leaf>,
}

// Returns the columns, or one of no name where there is none, of a file with so many leaf columns.
fn filled(alloc: Global, chosen: Chosen, count: usize) -> Result<Chosen, AllocError>
    ensures { IfOk result (λ made. (cs : List ColumnView) (ms : List MentionData)
        → spec.AreChosen cs ms (named_columns chosen.columns) chosen.leaves.items
        → spec.IsScopeFor cs count ms (named_columns made.columns) made.leaves.items
        × IsScope (named_columns made.columns)) }
{
    let Chosen {
        mut columns,
        mut leaves,
    } = chosen;
    if columns.as_slice().is_empty() {
        let name = String::new(alloc);
        columns.push(alloc, name, DType::Bool(Nullability::Nullable))?;
        leaves.push(no_leaf(count))?;
    }
    Ok(Chosen { columns, leaves })
}

/// Returns the columns of a file with so many leaf columns that a condition is read over, as a
/// schema whose scope's clones share its names.
///
/// `LeftOut` with the first name that refuses the condition, and else `Memory` alone.
pub(crate) fn schema_for(
    alloc: Global,
    columns: &[Column<'_>],
    count: usize,
    condition: &Condition,
) -> Result<Scoped, FooterError>
    ensures chosen { IfOk result (λ made. spec.IsSchemaFor (column_views columns.now) count
        (mentions condition.now) made.schema made.leaves.items) }
    ensures refused { IfErr result
        (IsLeftOutOf (column_views columns.now) (mentions condition.now)) }
{
    let chosen = chosen_of(alloc, columns, condition)?;
    let Chosen { columns, leaves } = filled(alloc, chosen, count)?;
    let scope = Scope::new_unchecked(columns.into_vec()).try_shared(alloc)?;
    let cells = all_cells(alloc, &leaves)?;
    Ok(Scoped {
        schema: Schema::new(scope, cells),
        leaves,
    })
}
