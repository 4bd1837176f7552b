//! Patterns of LIKE with case regarded, read once for many texts: literal characters at the front,
//! and what follows them. What follows is of four kinds, each a type, so that a loop over many
//! texts is made for each.
ghost use Rattle.std.specs.Prelude.{◌≡◌, ◌++◌, []};
ghost use Rattle.std.specs.Str.{chars};
ghost use Rattle.vortex_expr.specs.Patterns.Like.{items, like};
ghost use Rattle.vortex_prune.specs.Scanning.Likes.{ends_in, letters, rest_items, within};

use vortex_expr::like::LikeOptions;

/// The rest of a pattern behind the literal characters at its front.
#[derive(Clone, Copy)]
pub(crate) enum Rest<'a> {
    /// Nothing: the pattern is one text.
    Nothing,
    /// `%` and then literal characters to the end, or `%` alone.
    Ends(&'a str),
    /// Literal characters between two `%`.
    Within(&'a str),
    /// Any other pattern.
    Other(&'a str),
}

/// Splits a pattern before its first wildcard or backslash.
pub(crate) fn split_letters(pattern: &str) -> (&str, &str)
    ensures { items (chars pattern.entry.now)
        ≡ letters (chars result.0.now) ++ items (chars result.1.now) }
{
    match pattern.find(['%', '_', '\\']) {
        Some(place) => pattern.split_at(place),
        None => (pattern, ""),
    }
}

/// Reads what follows the literal characters at a pattern's front.
pub(crate) fn read_rest(rest: &str) -> Rest<'_>
    ensures { rest_items result ≡ items (chars rest.entry.now) }
{
    match rest.strip_prefix('%') {
        Some(tail) => {
            let (letters, left) = split_letters(tail);
            if left.is_empty() {
                Rest::Ends(letters)
            } else if left == "%" {
                Rest::Within(letters)
            } else {
                Rest::Other(rest)
            }
        }
        None => {
            if rest.is_empty() {
                Rest::Nothing
            } else {
                Rest::Other(rest)
            }
        }
    }
}

/// A test of what a text has behind the literal characters of a pattern.
pub(crate) trait Tail {
    ghost use Rattle.std.specs.Prelude.{◌≡◌, List};
    ghost use Rattle.std.specs.Str.{chars};
    ghost use Rattle.vortex_expr.specs.Patterns.Like.{like};
    ghost use Rattle.vortex_expr.specs.declared.like.Item.{Item};

    ghost items: { Self → List Item };

    /// Whether the items match what is left of a text.
    fn is_match(&self, text: &str) -> bool
        ensures { result ≡ like (items self.now) (chars text.now) };
}

/// Nothing follows.
#[derive(Clone, Copy)]
pub(crate) struct NoTail;

/// The text has to end so.
#[derive(Clone, Copy)]
pub(crate) struct EndTail<'a>(pub(crate) &'a str);

/// These characters have to stand in the text.
#[derive(Clone, Copy)]
pub(crate) struct InnerTail<'a>(pub(crate) &'a str);

/// The text has to match a pattern.
#[derive(Clone, Copy)]
pub(crate) struct PatternTail<'a>(pub(crate) &'a str);

#[inline]
fn is_end(text: &str) -> bool
    ensures { result ≡ like [] (chars text.now) }
{
    text.is_empty()
}

#[inline]
fn is_ended(text: &str, end: &str) -> bool
    ensures { result ≡ like (ends_in (chars end.now)) (chars text.now) }
{
    text.ends_with(end)
}

#[inline]
fn has_within(text: &str, part: &str) -> bool
    ensures { result ≡ like (within (chars part.now)) (chars text.now) }
{
    text.contains(part)
}

fn is_like(text: &str, pattern: &str) -> bool
    ensures { result ≡ like (items (chars pattern.now)) (chars text.now) }
{
    LikeOptions::default().matches(text, pattern)
}

impl Tail for NoTail {
    ghost use Rattle.std.specs.Prelude.{[]};

    ghost items = { λ t. [] };

    #[inline]
    fn is_match(&self, text: &str) -> bool {
        is_end(text)
    }
}

impl<'a> Tail for EndTail<'a> {
    ghost use Rattle.std.specs.Str.{chars};
    ghost use Rattle.vortex_prune.specs.Scanning.Likes.{ends_in};

    ghost items = { λ t. ends_in (chars t.0.now) };

    #[inline]
    fn is_match(&self, text: &str) -> bool {
        is_ended(text, self.0)
    }
}

impl<'a> Tail for InnerTail<'a> {
    ghost use Rattle.std.specs.Str.{chars};
    ghost use Rattle.vortex_prune.specs.Scanning.Likes.{within};

    ghost items = { λ t. within (chars t.0.now) };

    #[inline]
    fn is_match(&self, text: &str) -> bool {
        has_within(text, self.0)
    }
}

impl<'a> Tail for PatternTail<'a> {
    ghost use Rattle.std.specs.Str.{chars};
    ghost use Rattle.vortex_expr.specs.Patterns.Like as pattern;

    ghost items = { λ t. pattern.items (chars t.0.now) };

    fn is_match(&self, text: &str) -> bool {
        is_like(text, self.0)
    }
}

/// Whether a text has literal characters at its front, and its rest matches.
#[inline]
pub(crate) fn begins_so<T: Tail>(text: &str, front: &str, tail: &T) -> bool
    ensures { result ≡ like (letters (chars front.now) ++ T.items tail.now) (chars text.now) }
{
    match text.strip_prefix(front) {
        Some(rest) => tail.is_match(rest),
        None => false,
    }
}
