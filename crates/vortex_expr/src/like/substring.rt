//! Where in a text a run of letters stands first: the two-way search of Crochemore and Perrin, in
//! linear time and with no memory. Both are read forward alone, so the letters may be a pattern's.
ghost use Rattle.std.specs.Prelude.{◌≡◌, ◌+◌, ◌<◌, ◌≤◌, ◌∷◌, ◌↔◌, [], true, false, length, drop, slice_index, IsTrue, MatchOption, IfSome};
ghost use Rattle.memchr.specs.Critical.{IsSuffixAt, IsCutPlace};
ghost use Rattle.std.specs.declared.cmp.Ordering.TheVariants.{Less, Equal, Greater};
ghost use Rattle.vortex_expr.specs.Patterns.Like.{items};
ghost use Rattle.vortex_expr.specs.Patterns.LikeSearch.{characters};
ghost use Rattle.vortex_expr.specs.Patterns.Prefix.{literal_prefix};
ghost use Rattle.vortex_expr.specs.Patterns.Substring.{letters, AreSame, Compared, IsCutOf, IsPast, Precedes};

use super::{Characters, Item, next_item};
use std::cmp::Ordering;

// The letters that are left of a text or, at a pattern, those before its next wildcard.
#[derive(Clone, Copy)]
pub(super) struct Letters<'a> {
    rest: Characters<'a>,
    of_pattern: bool,
}

// The greatest suffix by an order, and its least period.
#[derive(Clone, Copy)]
struct Suffix {
    pos: usize,
    period: usize,
}

// Where a needle is cut. A mismatch left of the cut moves the search by `shift`, and `keep`
// letters of the needle are then known to stand.
#[derive(Clone, Copy)]
struct Cut {
    critical: usize,
    shift: usize,
    keep: usize,
}

// How letters compare with a text.
#[derive(Clone, Copy)]
enum Comparison<'a> {
    /// All stand there, and this follows them.
    Same(Letters<'a>),
    /// So many stand there, and this follows the letter that differs.
    Differs(usize, Letters<'a>),
    /// The text ends before them.
    Short,
}

impl<'a> Letters<'a> {
    pub(super) fn of_pattern(pattern: Characters<'a>) -> Letters<'a>
        ensures letters { letters result ≡ literal_prefix (items (characters pattern.entry)) }
        ensures kind { result.of_pattern ≡ true }
    {
        Letters {
            rest: pattern,
            of_pattern: true,
        }
    }

    pub(super) fn of_text(text: Characters<'a>) -> Letters<'a>
        ensures text { result.of_pattern ≡ false }
        ensures same { result.rest ≡ text.entry }
    {
        Letters {
            rest: text,
            of_pattern: false,
        }
    }

    pub(super) fn rest(self) -> Characters<'a>
        ensures { result ≡ self.entry.rest }
    {
        self.rest
    }

    fn split_first(self) -> Option<(char, Letters<'a>)>
        ensures first { MatchOption result (letters self.entry ≡ [])
            (λ p. letters self.entry ≡ p.0 ∷ letters p.1) }
        ensures kind { IfSome result (λ p. p.1.of_pattern ≡ self.entry.of_pattern) }
    {
        if self.of_pattern {
            match next_item(self.rest) {
                Some((Item::Char(first), rest)) => Some((first, Letters::of_pattern(rest))),
                _ => None,
            }
        } else {
            match self.rest.split_first() {
                Some((first, rest)) => Some((first, Letters::of_text(rest))),
                None => None,
            }
        }
    }

    fn end(self) -> Letters<'a>
        ensures left { letters result ≡ [] }
        ensures kind { result.of_pattern ≡ self.entry.of_pattern }
    {
        Letters {
            rest: self.rest.end(),
            of_pattern: self.of_pattern,
        }
    }

    pub(super) fn skip(self, count: usize) -> Letters<'a>
        ensures left { letters result ≡ drop count (letters self.entry) }
        ensures kind { result.of_pattern ≡ self.entry.of_pattern }
    {
        let mut left = self;
        for _passed in 0..count {
            match left.split_first() {
                Some((_, rest)) => left = rest,
                None => return left,
            }
        }
        left
    }
}

// Compares so many letters of the needle.
fn compare<'a>(mut needle: Letters<'a>, mut text: Letters<'a>, count: usize) -> Comparison<'a>
    requires { count ≤ length (letters needle) }
    ensures { Compared (letters needle.entry) (letters text.entry) count result }
{
    let mut same = 0;
    while same < count {
        let Some((found, text_rest)) = text.split_first() else {
            return Comparison::Short;
        };
        text = text_rest;
        match needle.split_first() {
            Some((letter, rest)) if letter == found => needle = rest,
            _ => return Comparison::Differs(same, text),
        }
        same += 1;
    }
    Comparison::Same(text)
}

// Whether so many letters of the needle stand at the text's front.
fn stands(needle: Letters, text: Letters, count: usize) -> bool
    requires needle { count ≤ length (letters needle) }
    requires text { count ≤ length (letters text) }
    ensures { IsTrue result ↔ AreSame (letters needle.entry) (letters text.entry) count }
{
    match compare(needle, text, count) {
        Comparison::Same(_) => true,
        Comparison::Differs(_, _) => false,
        Comparison::Short => false,
    }
}

fn order(reversed: bool, a: char, b: char) -> Ordering
    ensures less { (result ≡ Less) → Precedes reversed a b }
    ensures greater { (result ≡ Greater) → Precedes reversed b a }
    ensures equal { (result ≡ Equal) → a ≡ b }
{
    if reversed { b.cmp(&a) } else { a.cmp(&b) }
}

// Cursors stand at `pos` and `candidate`, and others `offset` letters on.
fn greatest_suffix(needle: Letters, reversed: bool, count: usize) -> Suffix
    requires some { 0 < count }
    requires count { count ≡ length (letters needle) }
    ensures { IsSuffixAt (Precedes reversed) (slice_index (letters needle.entry)) count
        result.pos result.period }
{
    let (mut pos, mut period) = (0, 1);
    let (mut candidate, mut offset) = (1, 0);
    let mut at_pos = needle;
    let mut at_candidate = needle.skip(1);
    let (mut before, mut after) = (at_pos, at_candidate);
    while let (Some((current, before_rest)), Some((other, after_rest))) = (
        before.split_first(),
        after.split_first(),
    ) {
        match order(reversed, current, other) {
            Ordering::Less => {
                pos = candidate;
                at_pos = at_candidate;
                period = 1;
                candidate += 1;
                at_candidate = at_candidate.skip(1);
                offset = 0;
                before = at_pos;
                after = at_candidate;
            }
            Ordering::Greater => {
                candidate += offset + 1;
                at_candidate = after_rest;
                offset = 0;
                period = candidate - pos;
                before = at_pos;
                after = at_candidate;
            }
            Ordering::Equal => {
                if offset + 1 == period {
                    candidate += period;
                    at_candidate = after_rest;
                    offset = 0;
                    before = at_pos;
                } else {
                    offset += 1;
                    before = before_rest;
                }
                after = after_rest;
            }
        }
    }
    Suffix { pos, period }
}

// Cuts a needle at the later of its greatest suffixes by the two orders.
fn cut_in_two(needle: Letters, count: usize) -> Cut
    requires some { 0 < count }
    requires count { count ≡ length (letters needle) }
    ensures { IsCutOf (slice_index (letters needle.entry)) count result }
{
    let least = greatest_suffix(needle, true, count);
    let most = greatest_suffix(needle, false, count);
    if least.pos > most.pos {
        cut_at(needle, count, least)
    } else {
        cut_at(needle, count, most)
    }
}

fn cut_at(needle: Letters, count: usize, suffix: Suffix) -> Cut
    requires place { IsCutPlace (slice_index (letters needle)) count suffix.pos suffix.period }
    requires count { count ≡ length (letters needle) }
    ensures { IsCutOf (slice_index (letters needle.entry)) count result }
{
    let critical = suffix.pos;
    let long = Cut {
        critical,
        shift: critical.max(count - critical),
        keep: 0,
    };
    if critical >= count - critical {
        return long;
    }
    if stands(needle, needle.skip(suffix.period), critical) {
        Cut {
            critical,
            shift: suffix.period,
            keep: count - suffix.period,
        }
    } else {
        long
    }
}

// The text from the first place on at which the needle stands, or its end. The needle has `count`
// letters.
pub(super) fn from_first<'a>(needle: Letters<'a>, text: Letters<'a>, count: usize) -> Letters<'a>
    requires some { 0 < count }
    requires count { count ≡ length (letters needle) }
    ensures kind { result.of_pattern ≡ text.entry.of_pattern }
    ensures past { IsPast (letters needle.entry) (letters text.entry) (letters result) }
{
    let Cut {
        critical,
        shift,
        keep,
    } = cut_in_two(needle, count);
    let most = critical.max(keep);
    let right = needle.skip(critical);
    let beyond = needle.skip(most);
    let mut begin = text;
    let mut front = text.skip(critical);
    let mut known = 0;
    let mut start = critical;
    let mut compared = right;
    loop {
        match compare(compared, front, count - start) {
            Comparison::Short => return begin.end(),
            Comparison::Differs(same, rest) => {
                begin = begin.skip(start - critical + same + 1);
                front = rest;
                known = 0;
                start = critical;
                compared = right;
            }
            Comparison::Same(rest) => {
                if known >= critical {
                    return begin;
                }
                if stands(needle.skip(known), begin.skip(known), critical - known) {
                    return begin;
                }
                begin = begin.skip(shift);
                front = rest.skip(most - (count - shift));
                known = keep;
                start = most;
                compared = beyond;
            }
        }
    }
}
