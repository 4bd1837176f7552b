//! The parts of a text as ranges of the rows of one set of columns.
ghost use Rattle.std.specs.Prelude.{◌≡◌, ◌<◌, ◌≤◌, ◌+◌, [], All, IfOk, IfSome, IsErrOf, IsTrue, List, OnErr, OnOk, Some, is_some, length, ok_or};
ghost use Rattle.std.specs.Str.Lines.{lines};
ghost use Rattle.vortex_base.specs.Data.Scopes.{IsScope, Named, named_columns};
ghost use Rattle.vortex_syntax.specs.Fails.{Changes, GivesAndChanges};
ghost use Rattle.vortex_syntax.specs.Plain.{EndsWord};
ghost use Rattle.vortex_syntax.specs.Words.{words};
ghost use Rattle.vortex_text.specs.FirstLines.{TakesRows};
ghost use Rattle.vortex_text.specs.Fitting.{AreNeighbours, IsPartOf};
ghost use Rattle.vortex_text.specs.Lines.{has_part};
ghost use Rattle.vortex_text.specs.Rows.{empty_part, joined_at};
ghost use Rattle.vortex_text.specs.Stores.{HaveRows, all_parts, ended_all, last_row, with_first};
ghost use Rattle.vortex_text.specs.Stores.{with_joined, with_told, with_words};

use crate::column_builder::{ColumnBuilder, close_columns, push_row};
use crate::first_row::push_first_row;
use crate::parts::Parts;
use crate::starts::{empty_columns, scope_of};
use std::alloc::{AllocError, Global};
use std::marker::Model;
use vortex_base::chunk::Chunk;
use vortex_base::dtype::DType;
use vortex_base::scalar_value::ScalarValue;
use vortex_base::scope::Scope;
use vortex_stats::precision::Precision;
use vortex_stats::stat::Stat;
use vortex_syntax::expected::Expected;
use vortex_syntax::line_error::LineError;
use vortex_syntax::plain::behind_row;
use vortex_zone_map::ZoneMapBuilder;

/// The parts of a text so far, of which the last one may be open. Their rows stand one behind the
/// other in one set of columns, and their statistics in one log.
#[derive(Debug, Drop)]
pub struct Store {
    scope: Scope,
    columns: Vec<ColumnBuilder>,
    log: ZoneMapBuilder,
    // The first row behind the parts that have ended.
    from: usize,
    is_open: bool,
}

impl Model for Store {
    ghost use Rattle.vortex_text.specs.Stores.{IsStore, StoreData, parts_in};

    ghost Value = { StoreData };

    ghost view = { λ s.
        parts_in (record { scope = s.scope; columns = s.columns.items }) s.log s.from s.is_open };

    ghost invariant = { λ s.
        IsStore (record { scope = s.scope; columns = s.columns.items }) s.log s.from s.is_open };
}

// Where columns end, which have so many rows at least.
fn last_row(columns: &[ColumnBuilder], from: usize) -> usize
    requires { HaveRows from columns.now }
    ensures row { result ≡ last_row from columns.now }
{
    match columns.first() {
        Some(column) => column.len(),
        None => from,
    }
}

impl Store {
    /// The first part, which has no rows yet.
    pub fn new(alloc: Global, columns: &[(String, DType)]) -> Result<Store, AllocError>
        requires { IsScope (named_columns columns.now) }
        ensures { let part = empty_part (named_columns columns.now) in
            IfOk result (λ store. store ≡ record { ended = []; current = Some part }) }
    {
        let scope = scope_of(alloc, columns)?;
        let empty = empty_columns(alloc, columns)?;
        // A text of at most `INPUT_LIMIT` bytes names fewer columns than that.
        if columns.len() > u32::MAX as usize {
            return Err(AllocError);
        }
        let log = ZoneMapBuilder::new(alloc, columns.len() as u32);
        Ok(Store {
            scope,
            columns: empty,
            log,
            from: 0,
            is_open: true,
        })
    }

    /// Whether there is a part.
    pub fn has_part(&self) -> bool
        ensures { result ≡ has_part (all_parts self.now) }
    {
        self.is_open || self.log.len() > 0
    }

    /// The open part, if there is one, takes no more rows.
    pub fn end_part(&mut self) -> Result<(), AllocError>
        ensures ended { OnOk result (self.new ≡ ended_all self.old) }
        ensures memory { OnErr result (IsTrue (is_some self.old.current)) }
    {
        if !self.is_open {
            return Ok(());
        }
        let last = last_row(&self.columns, self.from);
        self.log.end_zone((last - self.from) as u64)?;
        self.from = last;
        self.is_open = false;
        Ok(())
    }

    /// Begins a part, which has no rows yet. The open one takes no more.
    pub fn begin_part(&mut self) -> Result<(), AllocError>
        ensures { (scope : List Named) → All (IsPartOf scope) (all_parts self.old)
            → OnOk result (self.new
            ≡ record { ended = all_parts self.old; current = Some (empty_part scope) }) }
    {
        self.end_part()?;
        self.is_open = true;
        Ok(())
    }

    /// Adds a row to the open part: to each column the value of its word. After a line that is bad
    /// no rows are held.
    pub fn push_row(&mut self, alloc: Global, line: &[u8]) -> Result<(), LineError>
        ensures row { Changes result (with_words self.old (words line.now)) self.new }
        ensures memory { IsErrOf result LineError.Memory → IsTrue (is_some self.old.current) }
    {
        if !self.is_open {
            return Err(LineError::at(line.len(), Expected::OpenPart));
        }
        match push_row(alloc, &mut self.columns, line) {
            Ok(()) => Ok(()),
            Err(refused) => {
                self.columns.clear();
                Err(refused)
            }
        }
    }

    /// Adds the row that a text begins with, behind its first word. The text after the line comes
    /// back, or none where the line is refused.
    #[inline(always)]
    pub fn push_first_row<'a>(
        &mut self,
        alloc: Global,
        text: &'a [u8],
        refused: &mut LineError,
    ) -> Option<&'a [u8]>
        requires { EndsWord text.now }
        ensures row { GivesAndChanges (λ rest. lines rest.now) (ok_or result refused.new)
            (with_first self.old (lines text.now)) self.new }
        ensures memory { IsErrOf (ok_or result refused.new) LineError.Memory
            → IsTrue (is_some self.old.current) }
        ensures shorter { IfSome result (λ rest. length rest.now < length text.now) }
    {
        if !self.is_open {
            *refused = LineError::at(text.len(), Expected::OpenPart);
            return None;
        }
        match push_first_row(alloc, &mut self.columns, text, refused) {
            Some(after) => Some(after),
            None => {
                self.columns.clear();
                None
            }
        }
    }

    /// Adds the rows in plain form that a text begins with to the open part, where there is one
    /// column of numbers or truths. How many rows those are comes back, and what follows them.
    #[inline(always)]
    pub fn push_rows<'a>(&mut self, text: &'a [u8]) -> (usize, &'a [u8])
        ensures rows { TakesRows with_first result.0 self.old text.now self.new result.1.now }
        ensures bytes { result.0 + length result.1.now ≤ length text.now }
    {
        if !self.is_open || behind_row(text).is_none() {
            return (0, text);
        }
        match &mut self.columns[..] {
            [column] => column.take_rows(text),
            _ => (0, text),
        }
    }

    /// Tells a statistic of a column of the open part. There has to be one; else the line is bad
    /// where so many bytes of it are left.
    #[inline(always)]
    pub fn tell(
        &mut self,
        column: usize,
        stat: Stat,
        value: Precision<ScalarValue>,
        left: usize,
    ) -> Result<(), LineError>
        ensures told { Changes result (with_told column stat value self.old) self.new }
        ensures memory { IsErrOf result LineError.Memory → IsTrue (is_some self.old.current) }
    {
        if !self.is_open {
            return Err(LineError::at(left, Expected::OpenPart));
        }
        self.log.put(column, stat, value)?;
        Ok(())
    }

    /// Joins the ended part at a place and the one behind it. There have to be two; else the line
    /// is bad where so many bytes of it are left.
    pub fn join_at(
        &mut self,
        alloc: Global,
        columns: &[(String, DType)],
        place: usize,
        left: usize,
    ) -> Result<(), LineError>
        requires { All (IsPartOf (named_columns columns.now)) self.old.ended }
        ensures joined { Changes result (with_joined place self.old) self.new }
        ensures memory { IsErrOf result LineError.Memory
            → IsTrue (is_some (joined_at place self.old.ended)) }
    {
        let count = self.log.len();
        if count < 2 || place > count - 2 {
            let count = u32::try_from(count).unwrap_or(u32::MAX);
            return Err(LineError::at(left, Expected::Neighbours(count)));
        }
        self.log.join_at(alloc, place, columns)?;
        Ok(())
    }

    /// The parts that have ended.
    pub fn into_parts(self, alloc: Global) -> Result<Parts, AllocError>
        requires { AreNeighbours (all_parts self) }
        ensures { IfOk result (λ parts. parts ≡ self.ended) }
    {
        let Store {
            scope,
            columns,
            log,
            ..
        } = self;
        let columns = close_columns(alloc, columns)?;
        let Ok(chunk) = Chunk::try_new(scope, columns) else {
            unreachable!()
        };
        Ok(Parts::new(chunk, log))
    }
}
