//! A piece of a pattern of LIKE, the items before its next `%`, and where in a text it may match.
ghost use Rattle.std.specs.Prelude.{◌≡◌, ℕ, ◌≤◌, Bool, true, List, length};
ghost use Rattle.vortex_expr.specs.Patterns.Like.{items, like, some_end};
ghost use Rattle.vortex_expr.specs.Patterns.LikeSearch.{characters};
ghost use Rattle.vortex_expr.specs.Patterns.Piece.{IsPieceOf};

use super::chance::from_chance;
use super::substring::{Letters, from_first};
use super::{Characters, Front, Item, match_front, next_item};

// A piece, as far as a text may match it.
#[derive(Clone, Copy)]
enum Piece {
    /// So many letters alone, before a `%`.
    Letters(usize),
    /// A `_` is among the items, and a `%` behind them.
    WithAnyChar,
    /// So many items, with no `%` behind them.
    Last(usize),
    /// More items than the text has characters.
    TooLong,
}

// Reads the first piece, no further than the text goes.
fn read_piece(mut pattern: Characters, mut text: Characters) -> Piece
    ensures { IsPieceOf (items (characters pattern.entry)) (characters text.entry) result }
{
    let most = text.most();
    let mut count = 0;
    let mut only_letters = true;
    while let Some((item, rest)) = next_item(pattern) {
        match item {
            Item::AnyRun if only_letters => return Piece::Letters(count),
            Item::AnyRun => return Piece::WithAnyChar,
            Item::AnyChar => only_letters = false,
            Item::Char(_) => {}
        }
        let Some((_, text_rest)) = text.split_first() else {
            return Piece::TooLong;
        };
        pattern = rest;
        text = text_rest;
        prove!(count < most);
        count += 1;
    }
    Piece::Last(count)
}

// The last characters of the text, so many or all.
fn last_characters<'a>(mut text: Characters<'a>, count: usize) -> Characters<'a>
    ensures same { (test : List ℕ → Bool) → ((ds : List ℕ) → test ds ≡ true → length ds ≡ count)
        → some_end test (characters result) ≡ some_end test (characters text.entry) }
    ensures shorter { length (characters result) ≤ length (characters text.entry) }
{
    let mut ahead = Letters::of_text(text).skip(count).rest();
    while let (Some((_, ahead_rest)), Some((_, rest))) = (ahead.split_first(), text.split_first()) {
        ahead = ahead_rest;
        text = rest;
    }
    text
}

// The text from the first place on at which the piece matches, each tried in turn.
fn from_front<'a>(pattern: Characters<'a>, mut text: Characters<'a>) -> Characters<'a>
    ensures same { let test = like (items (characters pattern.entry)) in
        some_end test (characters result) ≡ some_end test (characters text.entry) }
    ensures shorter { length (characters result) ≤ length (characters text.entry) }
{
    while let Front::Mismatch(_) = match_front(pattern, text) {
        match text.split_first() {
            Some((_, rest)) => text = from_chance(pattern, rest),
            None => return text,
        }
    }
    text
}

// The text from the first place on at which the first piece may match.
pub(super) fn from_piece<'a>(pattern: Characters<'a>, text: Characters<'a>) -> Characters<'a>
    ensures same { let test = like (items (characters pattern.entry)) in
        some_end test (characters result) ≡ some_end test (characters text.entry) }
    ensures shorter { length (characters result) ≤ length (characters text.entry) }
{
    match read_piece(pattern, text) {
        Piece::Letters(0) => text,
        Piece::Letters(count) => {
            let needle = Letters::of_pattern(pattern);
            from_first(needle, Letters::of_text(text), count).rest()
        }
        Piece::WithAnyChar => from_front(pattern, text),
        Piece::Last(count) => last_characters(text, count),
        Piece::TooLong => text.end(),
    }
}
