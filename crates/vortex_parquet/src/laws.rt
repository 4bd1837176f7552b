//! Laws of this layer, in the words of its definitions. The functions carry them by their
//! contracts.
ghost use Rattle.std.specs.Prelude.{ℕ, List, IfOk, Ok};
ghost use Rattle.vortex_parquet.specs.DataPageWorked.{DataPageExamples};
ghost use Rattle.vortex_parquet.specs.Fields.{field_views, fields_before, struct_of};
ghost use Rattle.vortex_parquet.specs.Grammar.{IsStruct, IsValue};
ghost use Rattle.vortex_parquet.specs.IndexWorked.{IndexExamples};
ghost use Rattle.vortex_parquet.specs.LogicalLeaves.{FloatLeaves, LogicalLeaves};
ghost use Rattle.vortex_parquet.specs.MeaningWorked.{MeaningExamples};
ghost use Rattle.vortex_parquet.specs.PageWitness.{TruePages};
ghost use Rattle.vortex_parquet.specs.PageWorked.{PageExamples, StretchExamples};
ghost use Rattle.vortex_parquet.specs.Reading.{Gives};
ghost use Rattle.vortex_parquet.specs.Skip.{FieldData, skip_at};
ghost use Rattle.vortex_parquet.specs.Stretches.{PagesFollow, TrueStretches};
ghost use Rattle.vortex_parquet.specs.Truth.{KnownGroups, TrueGroups};
ghost use Rattle.vortex_parquet.specs.Witness.{TrueFile};
ghost use Rattle.vortex_parquet.specs.Worked.{BoundExamples, ColumnExamples, GrammarExamples};
ghost use Rattle.vortex_parquet.specs.Worked.{SizeExamples, TableExamples};

use crate::compact::Kind;
use crate::fault::ReadError;
use crate::fields::{self, Field};
use crate::skip::{DEPTH, skip};
use std::alloc::Global;

/// Returns the bytes behind the value of a kind with which the bytes begin.
pub fn value_end(kind: Kind, bytes: &[u8]) -> Result<&[u8], ReadError>
    // Each skipped stretch of bytes is a value.
    ensures found { IfOk result (λ rest. IsValue 32 kind bytes.now rest.now) }
    // Each value is skipped, unless memory runs out.
    ensures only { (rest : List ℕ) → IsValue 32 kind bytes.now rest
        → Gives (λ rest. rest.now) result (Ok rest) }
    ensures exact { Gives (λ rest. rest.now) result (skip_at 32 kind bytes.now) }
{
    skip(DEPTH, kind, bytes)
}

/// Returns the fields of the struct with which the bytes begin, and the bytes behind it.
pub fn fields_of(alloc: Global, bytes: &[u8]) -> Result<(Vec<Field<'_>>, &[u8]), ReadError>
    // They are those of the grammar.
    ensures found { IfOk result (λ x.
        IsStruct (IsValue 32) (field_views x.0.items) bytes.now x.1.now) }
    // And those of the grammar are read, unless memory runs out.
    ensures only { (fs : List FieldData) (rest : List ℕ) → IsStruct (IsValue 32) fs bytes.now rest
        → Gives (λ x. (field_views x.0.items, x.1.now)) result (fields_before fs rest) }
    ensures exact { Gives (λ x. (field_views x.0.items, x.1.now)) result (struct_of bytes.now) }
{
    fields::struct_of(alloc, bytes)
}

/// A leaf column of a logical type holds whole numbers with a sign, each of which a column of that
/// type may hold, and one of floats the whole numbers of floats of its type.
pub fn leaves_hold_cells()
    ensures numbers { LogicalLeaves }
    ensures floats { FloatLeaves }
{}

/// Where the statistics of a row group are true of its rows, so are the sets that are made of them;
/// and what is known of the row groups of a file is what is known of each.
pub fn groups_are_true()
    ensures sets { TrueGroups }
    ensures known { KnownGroups }
{}

/// The pages of a column chunk stand one behind the other, so none are refused.
pub fn pages_follow()
    ensures { PagesFollow }
{}

/// Where the statistics of pages are true of the rows of a row group, so are the sets of each
/// stretch of these.
pub fn stretches_are_true()
    ensures { TrueStretches }
{}

/// Worked rows of the grammar, of the table of types, of what leaf columns stand for, of the choice
/// of bounds, of the sizes of row groups and of the columns of a schema.
pub fn examples_hold()
    ensures grammar { GrammarExamples }
    ensures table { TableExamples }
    ensures meanings { MeaningExamples }
    ensures bounds { BoundExamples }
    ensures sizes { SizeExamples }
    ensures columns { ColumnExamples }
{}

/// Worked rows of page indexes, of the stretches of a row group, of where the page indexes of a
/// file begin, and of its data pages.
pub fn page_examples_hold()
    ensures pages { PageExamples }
    ensures stretches { StretchExamples }
    ensures indexes { IndexExamples }
    ensures data_pages { DataPageExamples }
{}

/// A file whose statistics are true of the rows of its row group: a witness of `groups_are_true`.
pub fn a_file_is_true()
    ensures { TrueFile }
{}

/// Pages whose statistics are true of the rows of a row group: a witness of `stretches_are_true`.
pub fn pages_are_true()
    ensures { TruePages }
{}
