//! The words that begin an expression.
ghost use Rattle.std.specs.Prelude.{◌≡◌};
ghost use Rattle.vortex_syntax.specs.Expressions.{form_of, like_of, operator_of, strictness_of};

use crate::names::is;
use vortex_expr::like::LikeOptions;
use vortex_expr::scalar_fn::{Operator, StrictComparison};

/// The form of an expression behind its first word.
#[derive(Clone, Copy, Debug)]
pub enum Form {
    Column,
    Literal,
    Binary(Operator),
    Between,
    IsNull,
    IsNotNull,
    Not,
    Like(LikeOptions),
}

// The operator of two operands that a word names.
fn operator_of(word: &[u8]) -> Option<Operator>
    ensures { result ≡ operator_of word.now }
{
    if is(word, b"eq") {
        return Some(Operator::Eq);
    }
    if is(word, b"ne") {
        return Some(Operator::NotEq);
    }
    if is(word, b"gt") {
        return Some(Operator::Gt);
    }
    if is(word, b"ge") {
        return Some(Operator::Gte);
    }
    if is(word, b"lt") {
        return Some(Operator::Lt);
    }
    if is(word, b"le") {
        return Some(Operator::Lte);
    }
    if is(word, b"and") {
        return Some(Operator::And);
    }
    if is(word, b"or") {
        return Some(Operator::Or);
    }
    None
}

// How a LIKE compares that a word names.
fn like_of(word: &[u8]) -> Option<LikeOptions>
    ensures { result ≡ like_of word.now }
{
    let options = |negated: bool, case_insensitive: bool| LikeOptions {
        negated,
        case_insensitive,
    };
    if is(word, b"like") {
        return Some(options(false, false));
    }
    if is(word, b"notlike") {
        return Some(options(true, false));
    }
    if is(word, b"ilike") {
        return Some(options(false, true));
    }
    if is(word, b"notilike") {
        return Some(options(true, true));
    }
    None
}

/// The form that the first word of an expression begins.
pub fn form_of(word: &[u8]) -> Option<Form>
    ensures { result ≡ form_of word.now }
{
    if is(word, b"col") {
        return Some(Form::Column);
    }
    if is(word, b"lit") {
        return Some(Form::Literal);
    }
    if is(word, b"between") {
        return Some(Form::Between);
    }
    if is(word, b"isnull") {
        return Some(Form::IsNull);
    }
    if is(word, b"notnull") {
        return Some(Form::IsNotNull);
    }
    if is(word, b"not") {
        return Some(Form::Not);
    }
    match operator_of(word) {
        Some(operator) => Some(Form::Binary(operator)),
        None => Some(Form::Like(like_of(word)?)),
    }
}

/// Whether an end of a BETWEEN is left out: `<` leaves it out, `<=` doesn't.
pub fn strictness_of(word: &[u8]) -> Option<StrictComparison>
    ensures { result ≡ strictness_of word.now }
{
    if is(word, b"<") {
        return Some(StrictComparison::Strict);
    }
    if is(word, b"<=") {
        return Some(StrictComparison::NonStrict);
    }
    None
}
