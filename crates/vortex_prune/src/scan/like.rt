//! LIKE of the texts of a column with one pattern.
ghost use Rattle.std.specs.Prelude.{◌≡◌, ◌+◌, ◌^◌, ◌<◌, ◌&&◌, ◌++◌, false, length};
ghost use Rattle.std.specs.Str.{chars};
ghost use Rattle.vortex_expr.specs.Patterns.Like.{items};
ghost use Rattle.vortex_prune.specs.Scanning.Likes.{is_liked_at, letters, passes_items_at};
ghost use Rattle.vortex_prune.specs.Scanning.Marks.{marked};

use crate::scan::pattern::{
    EndTail, InnerTail, NoTail, PatternTail, Rest, Tail, begins_so, read_rest, split_letters,
};
use vortex_base::utf8_array::Utf8Array;
use vortex_expr::like::LikeOptions;

// Whether a mark stays at a text that may be there, which isn't looked at without a mark.
fn stays_liked(
    mark: bool,
    texts: &Utf8Array,
    place: usize,
    options: LikeOptions,
    pattern: &str,
) -> bool
    ensures { result ≡ (mark && is_liked_at options pattern.now texts.now place) }
{
    if !mark {
        return false;
    }
    match texts.get(place) {
        Some(text) => options.matches(text, pattern),
        None => false,
    }
}

// Takes away the marks, from a place on, at which a text doesn't match a pattern under options.
fn keep_liked(
    texts: &Utf8Array,
    options: LikeOptions,
    pattern: &str,
    from: usize,
    marks: &mut [bool],
)
    requires { from + length marks.old < 2 ^ 64 }
    ensures { marks.new ≡ marked (is_liked_at options pattern.now texts.now) from marks.old }
{
    for k in 0..marks.len() {
        marks[k] = stays_liked(marks[k], texts, from + k, options, pattern);
    }
}

// Whether a mark stays at a text that may be there, by the characters at its front and its rest.
#[inline]
fn stays_begun<T: Tail>(
    mark: bool,
    texts: &Utf8Array,
    place: usize,
    negated: bool,
    front: &str,
    tail: &T,
) -> bool
    ensures { let wanted = letters (chars front.now) ++ T.items tail.now in
        result ≡ (mark && passes_items_at negated wanted texts.now place) }
{
    if !mark {
        return false;
    }
    match texts.get(place) {
        Some(text) => begins_so(text, front, tail) != negated,
        None => false,
    }
}

// Takes away the marks, from a place on, at which a text doesn't begin so with a rest that matches
// or, where negated, does.
fn keep_begun<T: Tail>(
    texts: &Utf8Array,
    negated: bool,
    front: &str,
    tail: &T,
    from: usize,
    marks: &mut [bool],
)
    requires { from + length marks.old < 2 ^ 64 }
    ensures { let wanted = letters (chars front.now) ++ T.items tail.now in
        marks.new ≡ marked (passes_items_at negated wanted texts.now) from marks.old }
{
    for k in 0..marks.len() {
        marks[k] = stays_begun(marks[k], texts, from + k, negated, front, tail);
    }
}

// Takes away the marks, from a place on, at which a text doesn't match a pattern, case regarded, or
// where negated does. The pattern is read once.
fn keep_read(texts: &Utf8Array, negated: bool, pattern: &str, from: usize, marks: &mut [bool])
    requires { from + length marks.old < 2 ^ 64 }
    ensures { let wanted = items (chars pattern.now) in
        marks.new ≡ marked (passes_items_at negated wanted texts.now) from marks.old }
{
    let (front, rest) = split_letters(pattern);
    match read_rest(rest) {
        Rest::Nothing => keep_begun(texts, negated, front, &NoTail, from, marks),
        Rest::Ends(end) => keep_begun(texts, negated, front, &EndTail(end), from, marks),
        Rest::Within(part) => keep_begun(texts, negated, front, &InnerTail(part), from, marks),
        Rest::Other(rest) => keep_begun(texts, negated, front, &PatternTail(rest), from, marks),
    }
}

/// Takes away the marks, from a place on, at which a text doesn't match a pattern under options.
pub(crate) fn keep_like(
    texts: &Utf8Array,
    options: LikeOptions,
    pattern: &str,
    from: usize,
    marks: &mut [bool],
)
    requires { from + length marks.old < 2 ^ 64 }
    ensures { marks.new ≡ marked (is_liked_at options pattern.now texts.now) from marks.old }
{
    if options.case_insensitive {
        keep_liked(texts, options, pattern, from, marks);
    } else {
        keep_read(texts, options.negated, pattern, from, marks);
    }
}
