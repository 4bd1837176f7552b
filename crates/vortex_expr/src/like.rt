//! LIKE: whether a text matches a pattern.
//!
//! `%` stands for any run of characters, `_` for any one character, and `\` makes the next
//! character literal. The search goes back to the last `%` alone. Where its attempts take too many
//! steps, a run of letters between two `%` is found by the two-way search, and what follows the
//! last `%` is compared at the text's end alone. So the search takes linear time, but for a run
//! with `_` between two `%`, which may take its length times the text's.
ghost use Rattle.std.specs.Prelude.{◌≡◌, ◌<◌, ◌≤◌, ◌∷◌, [], length, MatchOption, IfSome};
ghost use Rattle.std.specs.Str.{chars};
ghost use Rattle.vortex_expr.specs.Patterns.Like.{folded, items, like, some_end};
ghost use Rattle.vortex_expr.specs.Patterns.LikeSearch.{characters, reached, stop};

mod ascii;
mod chance;
mod piece;
mod substring;

use ascii::past_same;
use chance::from_chance;
use piece::from_piece;

// The steps that attempts at one place after another may take at first, and for each place.
const PATIENCE: usize = 256;

const PATIENCE_AT_PLACE: usize = 4;

/// How a text is compared with a pattern. The default regards case and is not negated.
#[derive(Clone, Copy, Debug, Default, PartialEq, Eq)]
pub struct LikeOptions {
    /// The answer is turned round.
    pub negated: bool,
    /// ASCII letters of both are compared in lower case, other characters as they are.
    pub case_insensitive: bool,
}

impl LikeOptions {
    ghost use Rattle.vortex_expr.specs.Patterns.Like.{matches};

    /// Whether the whole text matches the pattern or, where negated, doesn't.
    pub fn matches(&self, text: &str, pattern: &str) -> bool
        ensures { result ≡ matches self.now pattern.now text.now }
    {
        let ignore_case = self.case_insensitive;
        let pattern = Characters {
            text: pattern,
            ignore_case,
        };
        let text = Characters { text, ignore_case };
        is_match(pattern, text) != self.negated
    }
}

// The characters that are left of a text, as they are compared: where case is ignored, ASCII
// letters are lowered.
#[derive(Clone, Copy)]
pub(crate) struct Characters<'a> {
    text: &'a str,
    ignore_case: bool,
}

/// One part of a pattern.
#[derive(Clone, Copy)]
pub enum Item {
    Char(char),
    AnyChar,
    AnyRun,
}

// Where the items before a pattern's first run end.
#[derive(Clone, Copy)]
enum Front<'a> {
    /// After so many items that matched.
    Mismatch(usize),
    Whole,
    BeforeRun(Characters<'a>, Characters<'a>),
}

fn split_char(text: &str) -> Option<(char, &str)>
    ensures { MatchOption result (chars text.now ≡ []) (λ p. chars text.now ≡ p.0 ∷ chars p.1.now) }
{
    let mut left = text.chars();
    let first = left.next()?;
    Some((first, left.as_str()))
}

impl<'a> Characters<'a> {
    pub(crate) fn as_written(text: &'a str) -> Characters<'a>
        ensures { characters result ≡ chars text.now }
    {
        Characters {
            text,
            ignore_case: false,
        }
    }

    // No fewer than the characters that are left.
    fn most(self) -> usize
        ensures { length (characters self.entry) ≤ result }
    {
        self.text.len()
    }

    // The rest at the text's end.
    fn end(self) -> Characters<'a>
        ensures { characters result ≡ [] }
    {
        Characters {
            text: "",
            ignore_case: self.ignore_case,
        }
    }

    fn split_first(self) -> Option<(char, Characters<'a>)>
        ensures { MatchOption result (characters self.entry ≡ [])
            (λ p. characters self.entry ≡ p.0 ∷ characters p.1) }
    {
        let ignore_case = self.ignore_case;
        let (first, text) = split_char(self.text)?;
        let rest = Characters { text, ignore_case };
        if ignore_case {
            Some((first.to_ascii_lowercase(), rest))
        } else {
            Some((first, rest))
        }
    }
}

pub(crate) fn next_item<'a>(pattern: Characters<'a>) -> Option<(Item, Characters<'a>)>
    ensures items { MatchOption result (items (characters pattern.entry) ≡ [])
        (λ p. items (characters pattern.entry) ≡ p.0 ∷ items (characters p.1)) }
    ensures shorter { IfSome result
        (λ p. length (characters p.1) < length (characters pattern.entry)) }
{
    let (first, rest) = pattern.split_first()?;
    match first {
        '%' => Some((Item::AnyRun, rest)),
        '_' => Some((Item::AnyChar, rest)),
        '\\' => match rest.split_first() {
            Some((literal, rest)) => Some((Item::Char(literal), rest)),
            None => Some((Item::Char('\\'), rest)),
        },
        _ => Some((Item::Char(first), rest)),
    }
}

// Where the items before the first run end. Letters are compared byte by byte at first.
fn match_front<'a>(pattern: Characters<'a>, text: Characters<'a>) -> Front<'a>
    ensures { reached result ≡ stop (items (characters pattern.entry)) (characters text.entry) }
{
    let (pattern_ignores, text_ignores) = (pattern.ignore_case, text.ignore_case);
    match past_same(pattern.text, pattern_ignores, text.text, text_ignores) {
        Err(steps) => Front::Mismatch(steps),
        Ok((left, text_left)) => {
            let steps = pattern.text.len().saturating_sub(left.len());
            match_items(left, pattern_ignores, text_left, text_ignores, steps)
        }
    }
}

// Matches item by item, after so many that matched.
#[inline(never)]
fn match_items<'a>(
    left: &'a str,
    pattern_ignores: bool,
    text_left: &'a str,
    text_ignores: bool,
    passed: usize,
) -> Front<'a>
    ensures { reached result ≡ stop (items (folded pattern_ignores (chars left.entry.now)))
        (folded text_ignores (chars text_left.entry.now)) }
{
    let mut pattern = Characters {
        text: left,
        ignore_case: pattern_ignores,
    };
    let mut text = Characters {
        text: text_left,
        ignore_case: text_ignores,
    };
    let mut steps = passed;
    while let Some((item, rest)) = next_item(pattern) {
        pattern = rest;
        match item {
            Item::AnyRun => return Front::BeforeRun(pattern, text),
            Item::AnyChar => match text.split_first() {
                Some((_, rest)) => text = rest,
                None => return Front::Mismatch(steps),
            },
            Item::Char(literal) => match text.split_first() {
                Some((first, rest)) if first == literal => text = rest,
                _ => return Front::Mismatch(steps),
            },
        }
        steps = steps.saturating_add(1);
    }
    match text.split_first() {
        Some(_) => Front::Mismatch(steps),
        None => Front::Whole,
    }
}

fn is_match<'a>(pattern: Characters<'a>, text: Characters<'a>) -> bool
    ensures { result ≡ like (items (characters pattern.entry)) (characters text.entry) }
{
    match match_front(pattern, text) {
        Front::Mismatch(_) => false,
        Front::Whole => true,
        Front::BeforeRun(pattern, text) => is_match_at_some_end(pattern, text),
    }
}

fn is_match_at_some_end<'a>(mut pattern: Characters<'a>, mut text: Characters<'a>) -> bool
    ensures { result ≡ some_end (like (items (characters pattern.entry))) (characters text.entry) }
{
    let mut patience = PATIENCE;
    loop {
        match match_front(pattern, text) {
            Front::Whole => return true,
            Front::BeforeRun(next, rest) => {
                text = from_chance(next, rest);
                pattern = next;
            }
            Front::Mismatch(steps) => match text.split_first() {
                Some((_, rest)) => {
                    if steps > patience {
                        text = from_piece(pattern, rest);
                    } else {
                        patience = (patience - steps).saturating_add(PATIENCE_AT_PLACE);
                        text = from_chance(pattern, rest);
                    }
                }
                None => return false,
            },
        }
    }
}
