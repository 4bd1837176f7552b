//! The row at the front of a text, whose line isn't cut out before.
ghost use Rattle.std.specs.Prelude.{◌≡◌, ◌<◌, ◌≤◌, IfSome, Some, length, ok_or};
ghost use Rattle.std.specs.Str.Lines.{lines};
ghost use Rattle.vortex_syntax.specs.Fails.{Fails, GivesAndChanges};
ghost use Rattle.vortex_syntax.specs.Plain.{EndsWord};
ghost use Rattle.vortex_text.specs.FirstLines.{BeginsRow, first_row};

use crate::column_builder::{ColumnBuilder, push_row};
use std::alloc::Global;
use vortex_syntax::expected::Expected;
use vortex_syntax::line_error::LineError;
use vortex_syntax::lines::{is_utf8, next_line};

// Gives columns the values in plain form at the front of a text, as far as those go: how many
// columns have one, and what follows.
#[inline(always)]
fn take_plain<'a>(columns: &mut [ColumnBuilder], text: &'a [u8]) -> (usize, &'a [u8])
    requires { EndsWord text.now }
    ensures row { BeginsRow columns.old columns.new text.now result.1.now result.0 }
    ensures count { result.0 ≤ length columns.new }
    ensures ends { EndsWord result.1.now }
    ensures shorter { length result.1.now ≤ length text.now }
{
    let mut rest = text;
    let mut count = 0;
    for column in columns.iter_mut() {
        match column.take_plain(rest) {
            Some(after) => rest = after,
            None => return (count, rest),
        }
        count += 1;
    }
    (count, rest)
}

// Adds the row whose words the first line of a text has: to each column the value of its word. The
// text after the line comes back, or the text itself where the line is refused.
#[inline(never)]
fn push_words<'a>(
    alloc: Global,
    columns: &mut [ColumnBuilder],
    text: &'a [u8],
    refused: &mut LineError,
) -> &'a [u8]
    requires { 0 < length text.now }
    ensures row { length result.now < length text.now
        → first_row columns.old (lines text.now) ≡ Some (columns.new, lines result.now) }
    ensures refused { length text.now ≤ length result.now
        → Fails refused.new (first_row columns.old (lines text.now)) }
{
    let (line, after) = next_line(text);
    if !is_utf8(line) {
        *refused = LineError::at(line.len(), Expected::Utf8);
        return text;
    }
    match push_row(alloc, columns, line) {
        Ok(()) => after,
        Err(error) => {
            *refused = error;
            text
        }
    }
}

/// Adds the row that a text begins with, behind its first word: to each column the value of its
/// word. The text after the line comes back, or none where the line is refused. Values in plain
/// form are read from the text itself, and from the first other one on the words of the line are.
#[inline(always)]
pub fn push_first_row<'a>(
    alloc: Global,
    columns: &mut [ColumnBuilder],
    text: &'a [u8],
    refused: &mut LineError,
) -> Option<&'a [u8]>
    requires { EndsWord text.now }
    ensures row { GivesAndChanges (λ rest. lines rest.now) (ok_or result refused.new)
        (first_row columns.old (lines text.now)) columns.new }
    ensures shorter { IfSome result (λ rest. length rest.now < length text.now) }
{
    let (count, rest) = take_plain(columns, text);
    if count == columns.len() {
        if let [b'\n', after @ ..] = rest {
            return Some(after);
        }
    }
    let after = push_words(alloc, &mut columns[count..], rest, refused);
    if after.len() < rest.len() {
        Some(after)
    } else {
        None
    }
}
