//! The ASCII characters at the fronts of a pattern and a text, read straight from their bytes.
ghost use Rattle.std.specs.Prelude.{◌≡◌, ◌<◌, ◌∷◌, length, IfSome, MatchResult};
ghost use Rattle.std.specs.Str.{chars};
ghost use Rattle.vortex_expr.specs.Patterns.Like.{folded, items};
ghost use Rattle.vortex_expr.specs.Patterns.LikeSearch.{Mismatch, stop};

// The first character, if it is ASCII, as it is compared, and what follows it.
#[inline(always)]
pub(super) fn split_ascii(text: &str, ignore_case: bool) -> Option<(u8, &str)>
    ensures first { IfSome result (λ p. folded ignore_case (chars text.now)
        ≡ p.0 ∷ folded ignore_case (chars p.1.now)) }
    ensures ascii { IfSome result (λ p. p.0 < 128) }
    ensures shorter { IfSome result (λ p. length p.1.now < length text.now) }
{
    let bytes = text.as_bytes();
    if bytes.is_empty() || bytes[0] >= 128 {
        return None;
    }
    let first = bytes[0];
    let rest = &text[1..];
    if ignore_case {
        Some((first.to_ascii_lowercase(), rest))
    } else {
        Some((first, rest))
    }
}

// The rest of a pattern and of a text after the letters at their fronts that are the same, or how
// many were the same, where the next ones differ.
pub(super) fn past_same<'a>(
    pattern: &'a str,
    pattern_ignores: bool,
    text: &'a str,
    text_ignores: bool,
) -> Result<(&'a str, &'a str), usize>
    ensures { let wanted = folded pattern_ignores (chars pattern.entry.now) in
        let found = stop (items wanted) (folded text_ignores (chars text.entry.now)) in
        MatchResult result
        (λ p. let left = folded pattern_ignores (chars p.0.now) in
        stop (items left) (folded text_ignores (chars p.1.now)) ≡ found)
        (λ n. found ≡ Mismatch) }
{
    let mut left = pattern;
    let mut text = text;
    while let (Some((wanted, left_rest)), Some((found, text_rest))) = (
        split_ascii(left, pattern_ignores),
        split_ascii(text, text_ignores),
    ) {
        if wanted == b'%' || wanted == b'_' || wanted == b'\\' {
            return Ok((left, text));
        }
        if wanted != found {
            return Err(pattern.len().saturating_sub(left.len()));
        }
        left = left_rest;
        text = text_rest;
    }
    Ok((left, text))
}
