//! Queries that a whole text names.
ghost use Rattle.std.specs.Prelude.{◌≡◌, ◌↔◌, ◌<◌, ◌≤◌, ◌+◌, ◌^◌, ℕ, List, IfOk, IsErrOf, OnOk, Ok, Err, length};
ghost use Rattle.std.specs.Str.Lines.{lines};
ghost use Rattle.vortex_expr.specs.Trees.Tree.{Tree, Place};
ghost use Rattle.vortex_prune.specs.Part.{PartData};
ghost use Rattle.vortex_text.specs.Blocks.{MayRefuse, ReadsTo};
ghost use Rattle.vortex_text.specs.Drafts.{reading_of};
ghost use Rattle.vortex_text.specs.Fitting.{FitsTogether, IsQuery, IsQueryOver};
ghost use Rattle.vortex_text.specs.MemoryTaken.{TakesMemory};
ghost use Rattle.vortex_text.specs.Naming.{IsFirstBad, IsNamed, NamesQuery, named, named_from};

use crate::bad_line::BadLine;
use crate::document_parser::DocumentParser;
use crate::query::Query;
use std::alloc::{AllocError, Global};
use vortex_syntax::expected::Expected;
use vortex_syntax::line_error::{Fault, LineError};
use vortex_syntax::lines::next_line;

/// Why a text was not read.
#[derive(Debug, Drop)]
pub enum InputError<'a> {
    /// A growth was refused.
    Memory,
    /// The first bad line. Where no line is bad and there is no predicate, it is the line after the
    /// last.
    BadLine(BadLine<'a>),
}

// The line that a text begins with, which is bad.
fn bad_line(number: usize, text: &[u8], fault: Fault) -> BadLine<'_>
    requires { 0 < length text.now }
    ensures { result.number ≡ number }
{
    let (line, _) = next_line(text);
    BadLine {
        number,
        line,
        fault,
    }
}

// The line after the last, where no predicate was read.
fn without_predicate(number: usize) -> BadLine<'static>
    ensures { result.number ≡ number }
{
    let fault = Fault::at(0, Expected::Predicate);
    BadLine {
        number,
        line: &[],
        fault,
    }
}

/// Reads lines after those that were read, of which the first has this number. The number of the
/// line after them comes back.
pub(crate) fn read_lines<'a>(
    alloc: Global,
    draft: &mut DocumentParser,
    first: usize,
    text: &'a [u8],
) -> Result<usize, InputError<'a>>
    requires fits { FitsTogether (reading_of draft.old) }
    requires few { first + length text.now < 2 ^ 64 }
    ensures read { ReadsTo first (reading_of draft.old) (lines text.now) result
        (reading_of draft.new) }
    ensures fits { OnOk result (FitsTogether (reading_of draft.new)) }
    ensures few { IfOk result (λ n. n ≤ first + length text.now) }
{
    let mut rest = text;
    let mut number = first;
    let mut refused = LineError::Memory;
    'lines: loop {
        let (rows, after) = draft.read_rows(rest);
        rest = after;
        number += rows;
        if rest.is_empty() {
            return Ok(number);
        }
        let Some(after) = draft.read_first(alloc, rest, &mut refused) else {
            return match refused {
                LineError::Memory => Err(InputError::Memory),
                LineError::Bad(fault) => Err(InputError::BadLine(bad_line(number, rest, fault))),
            };
        };
        rest = after;
        number += 1;
    }
}

/// Reads the last lines of a text after those that were read. The parts and the predicate that all
/// of them name come back, with their scope.
pub(crate) fn read_last(
    alloc: Global,
    draft: DocumentParser,
    first: usize,
    text: &[u8],
) -> Result<Query, InputError<'_>>
    requires fits { FitsTogether (reading_of draft) }
    requires few { first + length text.now < 2 ^ 64 }
    ensures named { IsNamed (λ q. (q.parts, q.predicate)) result
        (named_from first (reading_of draft) (lines text.now)) }
    ensures fits { IfOk result (λ q. IsQueryOver q.scope q.parts q.predicate) }
    ensures memory { IsErrOf result InputError.Memory
        → MayRefuse (reading_of draft) (lines text.now) }
{
    let mut draft = draft;
    let number = read_lines(alloc, &mut draft, first, text)?;
    match draft.into_query(alloc) {
        Ok(Some(query)) => Ok(query),
        Ok(None) => Err(InputError::BadLine(without_predicate(number))),
        Err(AllocError) => Err(InputError::Memory),
    }
}

/// The parts and the predicate that a text names, with their scope.
pub fn read_input(alloc: Global, text: &[u8]) -> Result<Query, InputError<'_>>
    ensures named { IsNamed (λ q. (q.parts, q.predicate)) result (named text.now) }
    ensures fits { IfOk result (λ q. IsQueryOver q.scope q.parts q.predicate) }
    ensures memory { IsErrOf result InputError.Memory → TakesMemory text.now }
{
    read_last(alloc, DocumentParser::new(alloc), 1, text)
}

/// The law of what a text names, over all its lines at once: parts and a predicate exactly if every
/// line is fine after those before it and there is a predicate, and else the first bad line.
pub fn what_texts_name()
    ensures query { (text : List ℕ) (parts : List PartData) (predicate : Tree Place)
        → (named text ≡ Ok (parts, predicate)) ↔ NamesQuery text parts predicate }
    ensures bad { (text : List ℕ) (n : ℕ) → (named text ≡ Err n) ↔ IsFirstBad text n }
    // Named parts are parts of one scope, and the predicate is one over it.
    ensures fits { (text : List ℕ) (parts : List PartData) (predicate : Tree Place)
        → named text ≡ Ok (parts, predicate) → IsQuery parts predicate }
{}
