//! LIKE, as comparisons of its text where they say the same.
ghost use Rattle.std.specs.Prelude.{◌≡◌, ◌++◌, ◌∷◌, [], encode_utf8_all, false, true};
ghost use Rattle.std.specs.Prelude.{IfErr, IfOk, IfSome, IsOk, IsTrue, MatchOption, option_copied};
ghost use Rattle.std.specs.Str.{chars, is_utf8, IsUtf8};
ghost use Rattle.vortex_expr.specs.Trees.Tree as tree;
ghost use Rattle.vortex_expr.specs.Meanings.Typing.{type_of};
ghost use Rattle.vortex_expr.specs.Patterns.Like.{items};
ghost use Rattle.vortex_expr.specs.Patterns.Prefix.{has_next as is_followed};
ghost use Rattle.vortex_expr.specs.Patterns.Prefix.{is_exact, literal_prefix};
ghost use Rattle.vortex_rewrite.specs.Answers.{IsMemory, Makes, OkOrMemory};
ghost use Rattle.vortex_rewrite.specs.Rewriting.Falsifiers.{bytes_literal, text_in as text_of};
ghost use Rattle.vortex_rewrite.specs.Rewriting.Predicates.{is_text};
ghost use Rattle.vortex_normal.specs.Pushed as normal;
ghost use Rattle.vortex_normal.specs.Signs.{IsBeforeSigns, ends_in_sign};

use crate::leaves::{comparison, connected, is_null_literal, operator_as, settled};
use std::alloc::Global;
use vortex_base::dtype::DType;
use vortex_base::scalar::Scalar;
use vortex_base::scalar_value::ScalarValue;
use vortex_base::text::Text;
use vortex_base::types::Nullability;
use vortex_expr::bound;
use vortex_expr::bound_expression::BoundExpression;
use vortex_expr::like::LikeOptions;
use vortex_expr::like_pattern::{LikePattern, successor};
use vortex_expr::scalar_fn::{Connective, Operator};
use vortex_rewrite::built::expect_memory_only;
use vortex_rewrite::predicate::Predicate;
use vortex_stats::error::StatsError;

fn utf8_literal(alloc: Global, text: Text) -> Result<BoundExpression, StatsError>
    requires { IsTrue (is_utf8 text) }
    ensures { Makes (bytes_literal text) result }
{
    let dtype = DType::Utf8(Nullability::NonNullable);
    match Scalar::try_new(dtype, Some(ScalarValue::Utf8(text))) {
        Ok(scalar) => expect_memory_only(bound::lit(alloc, scalar)),
        Err(_) => unreachable!(),
    }
}

fn text_literal(alloc: Global, text: &str) -> Result<BoundExpression, StatsError>
    ensures value { IfOk result (λ e. e ≡ bytes_literal text.now) }
    ensures text { IfOk result (λ e. IsTrue (is_text e)) }
    ensures memory { IfErr result IsMemory }
{
    let value = Text::new(String::from_str(alloc, text)?);
    utf8_literal(alloc, value)
}

// The text that a literal is.
fn text_in(e: &BoundExpression) -> Option<&str>
    ensures { option_copied result ≡ text_of e.now }
{
    match e.literal()?.value()? {
        ScalarValue::Utf8(text) => Some(text.as_str()),
        _ => None,
    }
}

// Whether a text is this one, or whether it isn't.
fn same_text(
    alloc: Global,
    wanted: bool,
    text: &BoundExpression,
    other: &str,
) -> Result<Predicate, StatsError>
    requires { IsTrue (is_text text.now) }
    ensures { Makes (normal.same_text wanted text.now other.now) result }
{
    let other = text_literal(alloc, other)?;
    comparison(alloc, operator_as(wanted, Operator::Eq), text, &other)
}

// Whether a text is at least the one and below the other, or whether it isn't.
fn text_range(
    alloc: Global,
    wanted: bool,
    text: &BoundExpression,
    from: &str,
    below: &str,
) -> Result<Predicate, StatsError>
    requires { IsTrue (is_text text.now) }
    ensures { Makes (normal.text_range wanted text.now from.now below.now) result }
{
    let from = text_literal(alloc, from)?;
    let below = text_literal(alloc, below)?;
    let from = comparison(alloc, operator_as(wanted, Operator::Gte), text, &from)?;
    let below = comparison(alloc, operator_as(wanted, Operator::Lt), text, &below)?;
    connected(alloc, Connective::And.for_truth(wanted), from, below)
}

fn split_last_char(text: &str) -> Option<(char, &str)>
    ensures split { MatchOption result (chars text.now ≡ [])
        (λ p. chars text.now ≡ chars p.1.now ++ p.0 ∷ []) }
    ensures utf8 { IfSome result (λ p. IsUtf8 p.1.now) }
{
    let mut left = text.chars();
    match left.next_back() {
        Some(last) => Some((last, left.as_str())),
        None => None,
    }
}

fn has_next(c: char) -> bool
    ensures { result ≡ is_followed c }
{
    c != '\u{D7FF}' && c != char::MAX
}

fn is_last_raised(text: &str) -> bool
    ensures { result ≡ normal.is_last_raised (chars text.now) }
{
    match split_last_char(text) {
        Some((last, _)) => has_next(last),
        None => false,
    }
}

// The text before the percent sign at the end, if one stands there.
fn without_sign(text: &str) -> Option<&str>
    ensures split { MatchOption result (ends_in_sign (chars text.now) ≡ false)
        (λ front. chars text.now ≡ chars front.now ++ 37 ∷ []) }
    ensures utf8 { IfSome result (λ front. IsUtf8 front.now) }
{
    match split_last_char(text) {
        Some((last, front)) => { if last == '%' { Some(front) } else { None } }
        None => None,
    }
}

// Splits off the percent signs at a pattern's end: what stands before them, and with the first.
fn split_signs(pattern: &str) -> Option<(&str, &str)>
    ensures split { MatchOption result (ends_in_sign (chars pattern.now) ≡ false)
        (λ p. IsBeforeSigns (chars pattern.now) (chars p.0.now) (chars p.1.now)) }
    ensures utf8 { IfSome result (λ p. IsUtf8 p.0.now × IsUtf8 p.1.now) }
{
    let mut front = without_sign(pattern)?;
    let mut first = pattern;
    while let Some(before) = without_sign(front) {
        first = front;
        front = before;
    }
    Some((front, first))
}

// Reads a pattern, if it has no wildcard.
fn read_exact(alloc: Global, pattern: &str) -> Result<Option<LikePattern>, StatsError>
    ensures { let read = items (chars pattern.now) in OkOrMemory result (λ o. MatchOption o
        (is_exact read ≡ false)
        (λ p. (is_exact read ≡ true) × (p.prefix ≡ encode_utf8_all (literal_prefix read)))) }
{
    let read = expect_memory_only(LikePattern::try_read(alloc, pattern))?;
    match read.exact() {
        Some(_) => Ok(Some(read)),
        None => Ok(None),
    }
}

// Reads a pattern with a wildcard, if it has none but runs, which are last. The first percent
// sign may be literal, behind a backslash.
fn beginning(alloc: Global, pattern: &str) -> Result<Option<LikePattern>, StatsError>
    requires { is_exact (items (chars pattern.now)) ≡ false }
    ensures { let read = items (chars pattern.now) in OkOrMemory result (λ o. MatchOption o
        (normal.is_beginning read ≡ false)
        (λ p. (normal.is_beginning read ≡ true)
        × (p.prefix ≡ encode_utf8_all (literal_prefix read)))) }
{
    match split_signs(pattern) {
        Some((front, first)) => match read_exact(alloc, first)? {
            Some(escaped) => Ok(Some(escaped)),
            None => read_exact(alloc, front),
        },
        None => Ok(None),
    }
}

// Whether there is a text, or false, since each text matches.
fn any_text(alloc: Global, wanted: bool, text: &BoundExpression) -> Result<Predicate, StatsError>
    ensures { Makes (normal.any_text wanted text.now) result }
{
    if wanted {
        settled(alloc, Predicate::is_not_null(alloc, text)?)
    } else {
        Predicate::truth(alloc, false)
    }
}

// A LIKE with a pattern with wildcards, as a range or a test of null, if it has none but runs,
// which are last.
fn begins(
    alloc: Global,
    wanted: bool,
    text: &BoundExpression,
    pattern: &str,
) -> Result<Option<Predicate>, StatsError>
    requires text { IsTrue (is_text text.now) }
    requires wildcard { is_exact (items (chars pattern.now)) ≡ false }
    ensures { Makes (normal.items_matched wanted text.now (items (chars pattern.now))) result }
{
    match beginning(alloc, pattern)? {
        Some(read) => {
            let from = read.prefix();
            if from.is_empty() {
                return Ok(Some(any_text(alloc, wanted, text)?));
            }
            if !is_last_raised(from) {
                return Ok(None);
            }
            match successor(alloc, from)? {
                Some(below) => Ok(Some(text_range(alloc, wanted, text, from, below.as_str())?)),
                None => Ok(None),
            }
        }
        None => Ok(None),
    }
}

// A LIKE with a pattern, as comparisons.
fn items_matched(
    alloc: Global,
    wanted: bool,
    text: &BoundExpression,
    pattern: &str,
) -> Result<Option<Predicate>, StatsError>
    requires { IsTrue (is_text text.now) }
    ensures { Makes (normal.items_matched wanted text.now (items (chars pattern.now))) result }
{
    let read = expect_memory_only(LikePattern::try_read(alloc, pattern))?;
    match read.exact() {
        Some(exact) => Ok(Some(same_text(alloc, wanted, text, exact)?)),
        None => begins(alloc, wanted, text, pattern),
    }
}

fn as_comparisons(
    alloc: Global,
    options: LikeOptions,
    text: &BoundExpression,
    pattern: &BoundExpression,
) -> Result<Option<Predicate>, StatsError>
    requires { IsTrue (is_text text.now) }
    ensures { Makes (normal.as_comparisons options text.now pattern.now) result }
{
    if options.case_insensitive {
        return Ok(None);
    }
    match text_in(pattern) {
        Some(pattern) => items_matched(alloc, !options.negated, text, pattern),
        None => Ok(None),
    }
}

/// A LIKE, which of null is never true.
#[tactic(auto, unfolding(crate::specs::Pushed::liked))]
pub(crate) fn liked(
    alloc: Global,
    options: LikeOptions,
    text: &BoundExpression,
    pattern: &BoundExpression,
) -> Result<Predicate, StatsError>
    requires { IsOk (type_of (tree.like options text.now pattern.now)) }
    ensures { Makes (normal.liked options text.now pattern.now) result }
{
    if is_null_literal(text) || is_null_literal(pattern) {
        return Predicate::truth(alloc, false);
    }
    match as_comparisons(alloc, options, text, pattern)? {
        Some(compared) => Ok(compared),
        None => settled(alloc, Predicate::like(alloc, options, text, pattern)?),
    }
}

pub(crate) fn like_as(wanted: bool, options: LikeOptions) -> LikeOptions
    ensures { result ≡ normal.like_as wanted options }
{
    if wanted {
        options
    } else {
        LikeOptions {
            negated: !options.negated,
            case_insensitive: options.case_insensitive,
        }
    }
}
