//! Drafts of a query, line by line of a text.
ghost use Rattle.std.specs.Prelude.{◌≡◌, ◌<◌, ◌≤◌, ◌+◌, ◌++◌, ◌||◌, IfOk, IfSome, IsErrOf, IsTrue, OnErr, OnOk, MatchOption, None, Some, [], codes, is_some, length, ok_or};
ghost use Rattle.std.specs.Str.Lines.{lines};
ghost use Rattle.vortex_base.specs.Data.Scopes.{IsScope, named_columns};
ghost use Rattle.vortex_syntax.specs.Fails.{Changes, GivesAndChanges, IsBad};
ghost use Rattle.vortex_syntax.specs.Plain.{EndsWord};
ghost use Rattle.vortex_syntax.specs.Words.{words};
ghost use Rattle.vortex_text.specs.Blocks.{ReadsFront};
ghost use Rattle.vortex_text.specs.Drafts.{reading_of};
ghost use Rattle.vortex_text.specs.FirstLines.{IsFirstApart, first_read, first_values, may_take};
ghost use Rattle.vortex_text.specs.Fitting.{AreNeighbours, FitsTogether, IsQueryOver};
ghost use Rattle.vortex_text.specs.Lines.{has_part, nothing_read, parts_of};
ghost use Rattle.vortex_syntax.specs.Names.{is_new};
ghost use Rattle.vortex_text.specs.Lines.{read_column, read_join, read_kind, read_line, read_part};
ghost use Rattle.vortex_text.specs.Lines.{read_row, read_stat, read_where, read_words, with_claim};
ghost use Rattle.vortex_text.specs.MemoryTaken.{kind_takes, line_takes, words_take};
ghost use Rattle.vortex_text.specs.Rows.{empty_part};
ghost use Rattle.vortex_text.specs.Stores.{StoreData, all_parts, ended_of};

use crate::parts::Parts;
use crate::query::Query;
use crate::store::Store;
use std::alloc::{AllocError, Global};
use std::str;
use vortex_base::dtype::DType;
use vortex_base::scope::Scope;
use vortex_expr::bound_expression::BoundExpression;
use vortex_syntax::columns::Columns;
use vortex_syntax::expected::Expected;
use vortex_syntax::expression::read_expression;
use vortex_syntax::line_error::LineError;
use vortex_syntax::line_kind::{LineKind, kind_of};
use vortex_syntax::lines::{is_utf8, next_line};
use vortex_syntax::names::{is_name, type_of};
use vortex_syntax::number::natural_of;
use vortex_syntax::plain::behind_row;
use vortex_syntax::plain_statistic::{StatLine, plain_stat};
use vortex_syntax::statistic::{read_claim, read_claimed};
use vortex_syntax::word::{is_short, no_word, plain_word, skip_spaces};

/// The draft that the lines so far make.
#[derive(Drop)]
pub struct DocumentParser {
    columns: Columns,
    // The parts, once there is one.
    store: Option<Store>,
    predicate: Option<BoundExpression>,
    // The place of the column of which a statistic was told last.
    told: usize,
}

// The parts that have ended, of these columns.
fn ended_parts(
    alloc: Global,
    columns: &[(String, DType)],
    store: Option<Store>,
) -> Result<Parts, AllocError>
    requires scope { IsScope (named_columns columns.now) }
    requires parts { IfSome store (λ s. AreNeighbours (all_parts s)) }
    ensures { IfOk result (λ parts. parts ≡ ended_of store) }
{
    match store {
        Some(store) => store.into_parts(alloc),
        None => Store::new(alloc, columns)?.into_parts(alloc),
    }
}

// The first part of these columns begins.
#[inline(never)]
fn begin_store(
    alloc: Global,
    columns: &[(String, DType)],
    store: &mut Option<Store>,
) -> Result<(), AllocError>
    requires { IsScope (named_columns columns.now) }
    ensures { let begun : StoreData = record {
      ended = [];
      current = Some (empty_part (named_columns columns.now));
    } in
        OnOk result (store.new ≡ Some begun) }
{
    *store = Some(Store::new(alloc, columns)?);
    Ok(())
}

impl DocumentParser {
    /// Nothing read yet.
    pub fn new(alloc: Global) -> DocumentParser
        ensures { reading_of result ≡ nothing_read }
    {
        DocumentParser {
            columns: Columns::new(alloc),
            store: None,
            predicate: None,
            told: 0,
        }
    }

    // Whether there is a part.
    fn has_part(&self) -> bool
        ensures { result ≡ has_part (parts_of (reading_of self.now)) }
    {
        match &self.store {
            Some(store) => store.has_part(),
            None => false,
        }
    }

    // Whether a word may name the next column.
    fn is_new(&self, name: &[u8]) -> bool
        ensures { result ≡ is_new (named_columns self.now.columns) name.now }
    {
        is_name(name) && self.columns.find(name).is_none()
    }

    // The current part takes no more rows.
    fn end_part(&mut self) -> Result<(), AllocError>
        ensures ended { let old = reading_of self.old in
            let ended = record old { ended = parts_of old; current = None } in
            OnOk result (reading_of self.new ≡ ended) }
        ensures memory { OnErr result (IsTrue (is_some (reading_of self.old).current)) }
    {
        match &mut self.store {
            Some(store) => store.end_part(),
            None => Ok(()),
        }
    }

    // The fault that keeps a word from naming the next column, at which so many bytes of the line
    // are left.
    fn misnamed(&self, name: &[u8], left: usize) -> LineError
        ensures { IsBad result }
    {
        if is_name(name) {
            LineError::at(left, Expected::NewName)
        } else {
            LineError::at(left, Expected::Name)
        }
    }

    // `column NAME TYPE`
    fn read_column(&mut self, alloc: Global, line: &[u8]) -> Result<(), LineError>
        ensures read { let old = reading_of self.old in
            Changes result (read_column old (words line.now)) (reading_of self.new) }
        ensures memory { IsErrOf result LineError.Memory
            → IsTrue (kind_takes LineKind.Column (reading_of self.old) (words line.now)) }
    {
        let (name, named) = plain_word(line, Expected::Name)?;
        if self.has_part() {
            return Err(LineError::at(line.len(), Expected::ColumnBeforeParts));
        }
        if !self.is_new(name) {
            return Err(self.misnamed(name, line.len()));
        }
        let (kind, rest) = plain_word(named, Expected::Type)?;
        let Some(dtype) = type_of(kind) else {
            return Err(LineError::at(named.len(), Expected::Type));
        };
        no_word(rest)?;
        let Ok(text) = str::from_utf8(name) else {
            unreachable!()
        };
        let column = String::from_str(alloc, text)?;
        self.columns.push(alloc, column, dtype)?;
        Ok(())
    }

    // `part`
    #[inline(never)]
    fn read_part(&mut self, alloc: Global, line: &[u8]) -> Result<(), LineError>
        requires { FitsTogether (reading_of self.old) }
        ensures read { let old = reading_of self.old in
            Changes result (read_part old (words line.now)) (reading_of self.new) }
        ensures memory { IsErrOf result LineError.Memory
            → IsTrue (kind_takes LineKind.Part (reading_of self.old) (words line.now)) }
    {
        no_word(line)?;
        if self.columns.as_slice().is_empty() {
            return Err(LineError::at(line.len(), Expected::SomeColumn));
        }
        if let Some(store) = &mut self.store {
            store.begin_part()?;
            return Ok(());
        }
        begin_store(alloc, self.columns.as_slice(), &mut self.store)?;
        Ok(())
    }

    // Tells a statistic of the open part, of whose line so many bytes are left.
    #[inline(always)]
    fn tell(&mut self, told: StatLine, left: usize) -> Result<(), LineError>
        ensures read { let old = reading_of self.old in
            Changes result (with_claim old told.place told.stat told.value) (reading_of self.new) }
        ensures memory { IsErrOf result LineError.Memory
            → IsTrue (is_some (reading_of self.old).current) }
    {
        self.told = told.place;
        match &mut self.store {
            Some(store) => store.tell(told.place, told.stat, told.value, left),
            None => Err(LineError::at(left, Expected::SomePart)),
        }
    }

    // `stat NAME STAT PRECISION VALUE`
    fn read_stat(&mut self, alloc: Global, line: &[u8]) -> Result<(), LineError>
        ensures read { let old = reading_of self.old in
            Changes result (read_stat old (words line.now)) (reading_of self.new) }
        ensures memory { IsErrOf result LineError.Memory
            → IsTrue (kind_takes LineKind.Stat (reading_of self.old) (words line.now)) }
    {
        let (claim, rest) = read_claim(&self.columns, line)?;
        let value = read_claimed(alloc, claim.dtype, rest)?;
        let told = StatLine {
            place: claim.place,
            stat: claim.stat,
            value,
        };
        self.tell(told, line.len())
    }

    // `row VALUE ..`
    fn read_row(&mut self, alloc: Global, line: &[u8]) -> Result<(), LineError>
        ensures read { let old = reading_of self.old in
            Changes result (read_row old (words line.now)) (reading_of self.new) }
        ensures memory { IsErrOf result LineError.Memory
            → IsTrue (kind_takes LineKind.Row (reading_of self.old) (words line.now)) }
    {
        match &mut self.store {
            Some(store) => store.push_row(alloc, line),
            None => Err(LineError::at(line.len(), Expected::SomePart)),
        }
    }

    // `join N`
    fn read_join(&mut self, alloc: Global, line: &[u8]) -> Result<(), LineError>
        requires { FitsTogether (reading_of self.old) }
        ensures read { let old = reading_of self.old in
            Changes result (read_join old (words line.now)) (reading_of self.new) }
        ensures memory { IsErrOf result LineError.Memory
            → IsTrue (kind_takes LineKind.Join (reading_of self.old) (words line.now)) }
    {
        let (place, rest) = plain_word(line, Expected::PartPlace)?;
        let Some(place) = natural_of(place) else {
            return Err(LineError::at(line.len(), Expected::PartPlace));
        };
        no_word(rest)?;
        self.end_part()?;
        match &mut self.store {
            Some(store) => {
                store.join_at(alloc, self.columns.as_slice(), place as usize, line.len())
            }
            None => Err(LineError::at(line.len(), Expected::Neighbours(0))),
        }
    }

    // `where EXPR`
    fn read_where(&mut self, alloc: Global, line: &[u8]) -> Result<(), LineError>
        ensures read { let old = reading_of self.old in
            Changes result (read_where old (words line.now)) (reading_of self.new) }
        ensures memory { IsErrOf result LineError.Memory
            → IsTrue (kind_takes LineKind.Where (reading_of self.old) (words line.now)) }
    {
        if !is_short(alloc, line)? {
            return Err(LineError::at(line.len(), Expected::FewerWords));
        }
        let (predicate, rest) = read_expression(alloc, &self.columns, line)?;
        no_word(rest)?;
        if self.columns.as_slice().is_empty() {
            return Err(LineError::at(line.len(), Expected::SomeColumn));
        }
        self.predicate = Some(predicate);
        Ok(())
    }

    // The words of a line behind the first, which says its kind.
    fn read_kind(&mut self, alloc: Global, kind: LineKind, line: &[u8]) -> Result<(), LineError>
        requires { FitsTogether (reading_of self.old) }
        ensures read { let old = reading_of self.old in
            Changes result (read_kind kind old (words line.now)) (reading_of self.new) }
        ensures memory { IsErrOf result LineError.Memory
            → IsTrue (kind_takes kind (reading_of self.old) (words line.now)) }
    {
        match kind {
            LineKind::Row => self.read_row(alloc, line),
            LineKind::Stat => self.read_stat(alloc, line),
            LineKind::Part => self.read_part(alloc, line),
            LineKind::Join => self.read_join(alloc, line),
            LineKind::Column => self.read_column(alloc, line),
            LineKind::Where => self.read_where(alloc, line),
        }
    }

    // The words of one line.
    fn read_words(&mut self, alloc: Global, line: &[u8]) -> Result<(), LineError>
        requires { FitsTogether (reading_of self.old) }
        ensures read { let old = reading_of self.old in
            Changes result (read_words old (words line.now)) (reading_of self.new) }
        ensures memory { IsErrOf result LineError.Memory
            → IsTrue (words_take (reading_of self.old) (words line.now)) }
    {
        if skip_spaces(line).is_empty() {
            return Ok(());
        }
        if self.predicate.is_some() {
            return Err(LineError::at(line.len(), Expected::NothingBehindPredicate));
        }
        let (first, rest) = plain_word(line, Expected::LineKind)?;
        let Some(kind) = kind_of(first) else {
            return Err(LineError::at(line.len(), Expected::LineKind));
        };
        self.read_kind(alloc, kind, rest)
    }

    /// Reads one line. A line that isn't UTF-8 is bad.
    pub fn read_line(&mut self, alloc: Global, line: &[u8]) -> Result<(), LineError>
        requires { FitsTogether (reading_of self.old) }
        ensures read { let old = reading_of self.old in
            Changes result (read_line old line.now) (reading_of self.new) }
        ensures fits { OnOk result (FitsTogether (reading_of self.new)) }
        ensures memory { IsErrOf result LineError.Memory
            → IsTrue (line_takes (reading_of self.old) line.now) }
    {
        if !is_utf8(line) {
            return Err(LineError::at(line.len(), Expected::Utf8));
        }
        self.read_words(alloc, line)
    }

    // The row that a text begins with, behind its first word. The text after the line comes back,
    // or none where the line is refused.
    #[inline(always)]
    fn read_first_row<'a>(
        &mut self,
        alloc: Global,
        values: &'a [u8],
        refused: &mut LineError,
    ) -> Option<&'a [u8]>
        requires { EndsWord values.now }
        ensures read { let old = reading_of self.old in
            GivesAndChanges (λ rest. lines rest.now) (ok_or result refused.new)
            (first_values old (lines values.now)) (reading_of self.new) }
        ensures memory { IsErrOf (ok_or result refused.new) LineError.Memory
            → IsTrue (is_some (reading_of self.old).current) }
        ensures shorter { IfSome result (λ rest. length rest.now < length values.now) }
    {
        match &mut self.store {
            Some(store) => store.push_first_row(alloc, values, refused),
            None => {
                *refused = LineError::at(values.len(), Expected::SomePart);
                None
            }
        }
    }

    /// Reads the rows in plain form that a text begins with, where there is one column of numbers
    /// or truths. How many lines those are comes back, and the text after them.
    #[inline(always)]
    pub fn read_rows<'a>(&mut self, text: &'a [u8]) -> (usize, &'a [u8])
        requires fits { FitsTogether (reading_of self.old) }
        ensures read { ReadsFront (reading_of self.old) (lines text.now) (λ count reading rest.
            (result.0 ≡ count) × (reading_of self.new ≡ reading)
            × (lines result.1.now ≡ rest)) }
        ensures fits { FitsTogether (reading_of self.new) }
        ensures bytes { result.0 + length result.1.now ≤ length text.now }
    {
        match (&mut self.store, &self.predicate) {
            (Some(store), None) => store.push_rows(text),
            _ => (0, text),
        }
    }

    // The first line of a text, whatever it is. The text after it comes back.
    #[inline(never)]
    fn read_any_first<'a>(&mut self, alloc: Global, text: &'a [u8]) -> Result<&'a [u8], LineError>
        requires some { 0 < length text.now }
        requires fits { FitsTogether (reading_of self.old) }
        ensures read { let old = reading_of self.old in
            GivesAndChanges (λ rest. lines rest.now) result (first_read old (lines text.now))
            (reading_of self.new) }
        ensures memory { IsErrOf result LineError.Memory
            → IsTrue (may_take (reading_of self.old) (lines text.now)) }
        ensures shorter { IfOk result (λ rest. length rest.now < length text.now) }
    {
        let (line, rest) = next_line(text);
        self.read_line(alloc, line)?;
        Ok(rest)
    }

    // The first line of a text, of which the word `stat` was passed. A line in plain form is read
    // from its bytes, without a look at where it ends.
    #[inline(always)]
    fn read_first_stat<'a>(
        &mut self,
        alloc: Global,
        text: &'a [u8],
        said: &'a [u8],
    ) -> Result<&'a [u8], LineError>
        requires split { text.now ≡ codes "stat" ++ said.now }
        requires open_yet { (reading_of self.old).predicate ≡ None }
        requires fits { FitsTogether (reading_of self.old) }
        ensures read { let old = reading_of self.old in
            GivesAndChanges (λ rest. lines rest.now) result (first_read old (lines text.now))
            (reading_of self.new) }
        ensures memory { IsErrOf result LineError.Memory
            → IsTrue (may_take (reading_of self.old) (lines text.now)) }
        ensures shorter { IfOk result (λ rest. length rest.now < length text.now) }
    {
        let Some((told, after)) = plain_stat(&self.columns, self.told, said) else {
            return self.read_any_first(alloc, text);
        };
        self.tell(told, said.len() - after.len() - 1)?;
        Ok(after)
    }

    // Reads the first statistic, where an error is told apart, so that none is handed from one to
    // another with the rest. The text itself comes back where the line is refused.
    #[inline(never)]
    fn parse_stat_line<'a>(
        &mut self,
        alloc: Global,
        text: &'a [u8],
        said: &'a [u8],
        refused: &mut LineError,
    ) -> &'a [u8]
        requires split { text.now ≡ codes "stat" ++ said.now }
        requires open_yet { (reading_of self.old).predicate ≡ None }
        requires fits { FitsTogether (reading_of self.old) }
        ensures { IsFirstApart (reading_of self.old) (reading_of self.new) text.now result.now
            refused.new }
    {
        match self.read_first_stat(alloc, text, said) {
            Ok(after) => after,
            Err(error) => {
                *refused = error;
                text
            }
        }
    }

    // The first line of a text, which is neither a row nor a statistic in an open text. The text
    // after it comes back.
    fn read_first_other<'a>(&mut self, alloc: Global, text: &'a [u8]) -> Result<&'a [u8], LineError>
        requires some { 0 < length text.now }
        requires fits { FitsTogether (reading_of self.old) }
        ensures read { let old = reading_of self.old in
            GivesAndChanges (λ rest. lines rest.now) result (first_read old (lines text.now))
            (reading_of self.new) }
        ensures memory { IsErrOf result LineError.Memory
            → IsTrue (may_take (reading_of self.old) (lines text.now)) }
        ensures shorter { IfOk result (λ rest. length rest.now < length text.now) }
    {
        if self.predicate.is_some() {
            return self.read_any_first(alloc, text);
        }
        if let [b'p', b'a', b'r', b't', b'\n', after @ ..] = text {
            self.read_part(alloc, &[])?;
            return Ok(after);
        }
        self.read_any_first(alloc, text)
    }

    // Reads another first line, where an error is told apart, so that the reader of rows needs no
    // place for one. The text itself comes back where the line is refused.
    #[inline(never)]
    fn read_first_other_apart<'a>(
        &mut self,
        alloc: Global,
        text: &'a [u8],
        refused: &mut LineError,
    ) -> &'a [u8]
        requires some { 0 < length text.now }
        requires fits { FitsTogether (reading_of self.old) }
        ensures { IsFirstApart (reading_of self.old) (reading_of self.new) text.now result.now
            refused.new }
    {
        match self.read_first_other(alloc, text) {
            Ok(after) => after,
            Err(error) => {
                *refused = error;
                text
            }
        }
    }

    /// Reads the first line of a text. The text after it comes back, or none where the line is
    /// refused, and then why. A line that isn't UTF-8 is bad.
    #[inline(always)]
    pub fn read_first<'a>(
        &mut self,
        alloc: Global,
        text: &'a [u8],
        refused: &mut LineError,
    ) -> Option<&'a [u8]>
        requires some { 0 < length text.now }
        requires fits { FitsTogether (reading_of self.old) }
        ensures read { let old = reading_of self.old in
            GivesAndChanges (λ rest. lines rest.now) (ok_or result refused.new)
            (first_read old (lines text.now)) (reading_of self.new) }
        // Memory is refused to a line that takes some, or while a part takes rows.
        ensures memory { IsErrOf (ok_or result refused.new) LineError.Memory
            → IsTrue (may_take (reading_of self.old) (lines text.now)) }
        ensures shorter { IfSome result (λ rest. length rest.now < length text.now) }
    {
        if self.predicate.is_none() {
            if let Some(values) = behind_row(text) {
                return self.read_first_row(alloc, values, refused);
            }
        }
        let after = match text {
            [b's', b't', b'a', b't', said @ ..] if self.predicate.is_none() => {
                self.parse_stat_line(alloc, text, said, refused)
            }
            _ => self.read_first_other_apart(alloc, text, refused),
        };
        if after.len() < text.len() {
            Some(after)
        } else {
            None
        }
    }

    /// All the parts and the predicate, if there is one.
    pub fn into_query(self, alloc: Global) -> Result<Option<Query>, AllocError>
        requires { FitsTogether (reading_of self) }
        ensures query { let read = reading_of self in
            IfOk result (λ o. MatchOption o (read.predicate ≡ None)
            (λ q. (read.predicate ≡ Some q.predicate) × (q.parts ≡ parts_of read))) }
        ensures fits { IfOk result (λ o. IfSome o
            (λ q. IsQueryOver q.scope q.parts q.predicate)) }
        ensures memory { let read = reading_of self in
            OnErr result (IsTrue (is_some read.current || is_some read.predicate)) }
    {
        let mut draft = self;
        draft.end_part()?;
        let DocumentParser {
            columns,
            store,
            predicate,
            ..
        } = draft;
        match predicate {
            Some(predicate) => {
                let parts = ended_parts(alloc, columns.as_slice(), store)?;
                Ok(Some(Query {
                    scope: Scope::new_unchecked(columns.into_vec()),
                    parts,
                    predicate,
                }))
            }
            None => Ok(None),
        }
    }
}
