//! The words that begin a line.
ghost use Rattle.std.specs.Prelude.{◌≡◌};
ghost use Rattle.vortex_syntax.specs.LineKinds.{kind_of};

use crate::names::is;

/// The kind of a line.
#[derive(Clone, Copy, Debug)]
pub enum LineKind {
    /// The next column.
    Column,
    /// A part begins.
    Part,
    /// A statistic of a column of the current part.
    Stat,
    /// A row of the current part.
    Row,
    /// Two neighbouring parts become one.
    Join,
    /// The predicate.
    Where,
}

/// The kind of line that a word begins.
pub fn kind_of(word: &[u8]) -> Option<LineKind>
    ensures { result ≡ kind_of word.now }
{
    if is(word, b"row") {
        return Some(LineKind::Row);
    }
    if is(word, b"stat") {
        return Some(LineKind::Stat);
    }
    if is(word, b"part") {
        return Some(LineKind::Part);
    }
    if is(word, b"join") {
        return Some(LineKind::Join);
    }
    if is(word, b"column") {
        return Some(LineKind::Column);
    }
    if is(word, b"where") {
        return Some(LineKind::Where);
    }
    None
}
