//! Predicates behind an operand: BETWEEN, IN, LIKE, a comparison, IS.
use crate::syntax::cursor::Cursor;
use crate::syntax::error::ParseError;
use crate::syntax::operand::{arithmetic, goes_on, operand};
use crate::syntax::part::{Form, Unary, has_operands, put_operand, put_test, take_operand, wrap};
use crate::syntax::token::Kind;
use crate::syntax::tree::{Escape, Operand, Test};
use sqlite_items::Items;
use vortex_logical::comparison::Comparison;

// A test that begins with a keyword.
#[derive(Clone, Copy)]
enum Match {
    Between,
    In,
    Like,
    /// ILIKE and SIMILAR TO, which aren't read.
    Unread,
}

fn comparison_of(kind: Kind) -> Option<Comparison> {
    match kind {
        Kind::Eq => Some(Comparison::Eq),
        Kind::NotEq => Some(Comparison::NotEq),
        Kind::Gt => Some(Comparison::Gt),
        Kind::Gte => Some(Comparison::Gte),
        Kind::Lt => Some(Comparison::Lt),
        Kind::Lte => Some(Comparison::Lte),
        _ => None,
    }
}

// Goes past the keyword of a test.
fn match_of(at: &mut Cursor) -> Result<Option<Match>, ParseError> {
    if at.eat_word(b"between") {
        Ok(Some(Match::Between))
    } else if at.eat_word(b"in") {
        Ok(Some(Match::In))
    } else if at.eat_word(b"like") {
        Ok(Some(Match::Like))
    } else if at.eat_word(b"ilike") {
        Ok(Some(Match::Unread))
    } else if at.eat_word(b"similar") {
        at.expect_word(b"to")?;
        Ok(Some(Match::Unread))
    } else {
        Ok(None)
    }
}

// Reads what stands behind BETWEEN.
fn between(at: &mut Cursor, x: Operand) -> Result<Test, ParseError> {
    let is_symmetric = at.eat_word(b"symmetric");
    if !is_symmetric {
        let _ = at.eat_word(b"asymmetric");
    }
    let lower = operand(at)?;
    at.expect_word(b"and")?;
    let upper = operand(at)?;
    if is_symmetric {
        Ok(Test::BetweenSymmetric(x, lower, upper))
    } else {
        Ok(Test::Between(x, lower, upper))
    }
}

// Reads the operands of a list up to its closing parenthesis.
fn items(at: &mut Cursor) -> Result<Items<Operand>, ParseError> {
    let mut items = Items::new(at.alloc);
    for _turn in 0..at.len() {
        items.push(operand(at)?)?;
        if !at.eat(Kind::Comma) {
            break;
        }
    }
    at.expect(Kind::Close)?;
    Ok(items)
}

// Reads the list behind IN. A query and a list of anything but operands aren't read.
fn member(at: &mut Cursor, x: Operand) -> Result<Test, ParseError> {
    at.expect(Kind::Open)?;
    if at.sees(Kind::Close) {
        return Err(at.refuse());
    }
    let begin = *at;
    match items(at) {
        Ok(items) => Ok(Test::In(x, items)),
        Err(ParseError::Memory) => Err(ParseError::Memory),
        Err(_) => {
            *at = begin;
            at.skip_group()?;
            Ok(Test::Other)
        }
    }
}

fn escape_of(bytes: &[u8]) -> Option<Escape> {
    match bytes {
        [] => Some(Escape::Nothing),
        [b'\\'] => Some(Escape::Backslash),
        [byte] if *byte < 128 => Some(Escape::Byte(*byte)),
        _ => None,
    }
}

// Reads an ESCAPE, of which one character of ASCII or none is read.
fn escape(at: &mut Cursor) -> Result<Option<Escape>, ParseError> {
    if !at.eat_word(b"escape") {
        return Ok(Some(Escape::Backslash));
    }
    match operand(at)? {
        Operand::Text(text) => Ok(escape_of(text.as_str().as_bytes())),
        _ => Ok(None),
    }
}

// Reads what stands behind LIKE.
fn like(at: &mut Cursor, x: Operand) -> Result<Test, ParseError> {
    let pattern = operand(at)?;
    match escape(at)? {
        Some(escape) => Ok(Test::Like(x, pattern, escape)),
        None => Ok(Test::Other),
    }
}

// Goes past what stands behind ILIKE or SIMILAR TO.
fn unread(at: &mut Cursor) -> Result<Test, ParseError> {
    let _ = operand(at)?;
    let _ = escape(at)?;
    Ok(Test::Other)
}

// Reads what stands behind the keyword of a test.
fn test_of(at: &mut Cursor, kind: Match, x: Operand) -> Result<Test, ParseError> {
    match kind {
        Match::Between => between(at, x),
        Match::In => member(at, x),
        Match::Like => like(at, x),
        Match::Unread => unread(at),
    }
}

// Puts NOT over a test that was read from a place on, if it is negated. One with an operand that
// isn't read is carried along with its NOT.
fn not_if(at: &Cursor, is_negated: bool, start: usize, form: &mut Form) -> Result<(), ParseError> {
    if is_negated && has_operands(form) {
        wrap(at.alloc, form, Unary::Not, start, at.end())?;
    }
    Ok(())
}

// Reads BETWEEN, IN or LIKE behind what was read, if one stands there.
fn matched(at: &mut Cursor, start: usize, form: &mut Form) -> Result<(), ParseError> {
    let is_negated = at.eat_word(b"not");
    let Some(kind) = match_of(at)? else {
        if is_negated {
            return Err(at.refuse());
        }
        return Ok(());
    };
    let test = test_of(at, kind, take_operand(form))?;
    put_test(at.alloc, form, test, start, at.end())?;
    not_if(at, is_negated, start, form)
}

// Reads an operand with BETWEEN, IN or LIKE behind it.
fn right_side(at: &mut Cursor, form: &mut Form) -> Result<(), ParseError> {
    let start = at.start();
    let read = operand(at)?;
    put_operand(form, read);
    matched(at, start, form)
}

// Reads a comparison behind what was read, if one stands there.
fn compared(at: &mut Cursor, start: usize, form: &mut Form) -> Result<(), ParseError> {
    let Some(comparison) = comparison_of(at.kind()) else {
        return Ok(());
    };
    at.take();
    let left = take_operand(form);
    right_side(at, form)?;
    let test = Test::Compare(comparison, left, take_operand(form));
    put_test(at.alloc, form, test, start, at.end())
}

// Reads what stands behind IS DISTINCT FROM.
fn distinct(at: &mut Cursor, start: usize, form: &mut Form) -> Result<(), ParseError> {
    at.expect_word(b"from")?;
    let left = take_operand(form);
    let second = at.start();
    right_side(at, form)?;
    compared(at, second, form)?;
    let test = Test::Distinct(left, take_operand(form));
    put_test(at.alloc, form, test, start, at.end())
}

// Puts a test for null of what was read between two places.
fn null_test(at: &Cursor, start: usize, end: usize, form: &mut Form) -> Result<(), ParseError> {
    if matches!(form, Form::Condition(_)) {
        return wrap(at.alloc, form, Unary::IsNull, start, end);
    }
    let test = Test::IsNull(take_operand(form));
    put_test(at.alloc, form, test, start, at.end())
}

fn truth_of(at: &mut Cursor) -> Result<Unary, ParseError> {
    if at.eat_word(b"true") {
        Ok(Unary::IsTrue)
    } else if at.eat_word(b"false") {
        Ok(Unary::IsFalse)
    } else if at.eat_word(b"unknown") {
        Ok(Unary::IsNull)
    } else {
        Err(at.refuse())
    }
}

// Reads what stands behind IS and perhaps NOT.
fn is(at: &mut Cursor, start: usize, end: usize, form: &mut Form) -> Result<(), ParseError> {
    if at.eat_word(b"distinct") {
        return distinct(at, start, form);
    }
    if at.eat_word(b"null") {
        return null_test(at, start, end, form);
    }
    let unary = truth_of(at)?;
    wrap(at.alloc, form, unary, start, end)
}

// Reads IS behind what was read, if it stands there.
fn truth_tested(at: &mut Cursor, start: usize, form: &mut Form) -> Result<(), ParseError> {
    let end = at.end();
    if at.eat_word(b"isnull") {
        return null_test(at, start, end, form);
    }
    if at.eat_word(b"notnull") {
        null_test(at, start, end, form)?;
        return not_if(at, true, start, form);
    }
    if !at.eat_word(b"is") {
        return Ok(());
    }
    let is_negated = at.eat_word(b"not");
    is(at, start, end, form)?;
    not_if(at, is_negated, start, form)
}

/// Reads the rest of a test that begins with what was read from a place on.
pub(crate) fn tested(at: &mut Cursor, start: usize, form: &mut Form) -> Result<(), ParseError> {
    if goes_on(at) {
        let read = arithmetic(at, take_operand(form))?;
        put_operand(form, read);
    }
    matched(at, start, form)?;
    compared(at, start, form)?;
    truth_tested(at, start, form)
}
