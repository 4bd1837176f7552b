//! The operands of tests.
ghost use Rattle.std.specs.Prelude.{◌≡◌, IfOk};
ghost use Rattle.vortex_sql.specs.Parsing.Naming as spec;
ghost use Rattle.vortex_sql.specs.declared.syntax.cursor.Names.TheVariants.{Plain};
ghost use Rattle.vortex_sql.specs.declared.syntax.tree.Operand.TheVariants.{Other};

use crate::syntax::cursor::{Cursor, Names};
use crate::syntax::error::ParseError;
use crate::syntax::keyword::{is_called, is_of_type, is_reserved};
use crate::syntax::literal::{blob_of, negative, number_of, text_of, typed, unquoted};
use crate::syntax::token::{Kind, between};
use crate::syntax::tree::Operand;

// Returns the column of the name that stands at the cursor.
fn column(at: &mut Cursor) -> Result<Operand, ParseError> {
    let start = at.start();
    let name = if at.sees(Kind::Name) {
        unquoted(at.alloc, at.spelling())?
    } else {
        Vec::from_slice(at.alloc, at.spelling())?
    };
    at.take();
    Ok(Operand::Column(text_of(name, start)?))
}

// Returns what a name of several parts is read as, by its last one.
fn read_as(names: Names, last: Operand) -> Operand
    ensures { result ≡ spec.read_as names last }
{
    match names {
        Names::Plain => Operand::Other,
        Names::Last => last,
    }
}

// Reads a name behind a dot, of which the last part may be a column's.
fn qualified(at: &mut Cursor) -> Result<Operand, ParseError>
    ensures { at.old.names ≡ Plain → IfOk result (λ x. x ≡ Other) }
{
    let names = at.names;
    let mut last = Operand::Other;
    for _turn in 0..at.len() {
        if !at.eat(Kind::Dot) {
            break;
        }
        if !at.sees(Kind::Word) && !at.sees(Kind::Name) {
            return Err(at.refuse());
        }
        last = column(at)?;
    }
    if at.eat(Kind::Open) {
        at.skip_group()?;
        return Ok(Operand::Other);
    }
    Ok(read_as(names, last))
}

// Reads the text of a typed literal as DATE '2024-01-01', whose type was taken.
fn typed_literal(at: &mut Cursor, type_name: &[u8]) -> Result<Operand, ParseError> {
    let start = at.start();
    let text = text_of(unquoted(at.alloc, at.spelling())?, start)?;
    at.take();
    Ok(typed(type_name, text.as_str()))
}

// Reads a name, a call, or a typed literal.
fn named(at: &mut Cursor) -> Result<Operand, ParseError> {
    let is_word = at.sees(Kind::Word);
    let spelling = at.spelling();
    let is_call = is_word && is_called(spelling);
    let name = column(at)?;
    if at.eat(Kind::Open) {
        at.skip_group()?;
        return Ok(Operand::Other);
    }
    if is_call {
        return Ok(Operand::Other);
    }
    if at.sees(Kind::String) {
        return typed_literal(at, if is_word { spelling } else { b"" });
    }
    if at.sees(Kind::Dot) {
        return qualified(at);
    }
    Ok(name)
}

fn word(at: &mut Cursor) -> Result<Operand, ParseError> {
    if at.eat_word(b"null") {
        Ok(Operand::Null)
    } else if at.eat_word(b"true") {
        Ok(Operand::Truth(true))
    } else if at.eat_word(b"false") {
        Ok(Operand::Truth(false))
    } else if at.eat_word(b"case") {
        at.skip_case()?;
        Ok(Operand::Other)
    } else if is_reserved(at.spelling()) {
        Err(at.refuse())
    } else {
        named(at)
    }
}

fn string(at: &mut Cursor) -> Result<Operand, ParseError> {
    let start = at.start();
    let bytes = unquoted(at.alloc, at.spelling())?;
    at.take();
    Ok(Operand::Text(text_of(bytes, start)?))
}

fn blob(at: &mut Cursor) -> Result<Operand, ParseError> {
    let start = at.start();
    let spelling = at.spelling();
    let digits = between(spelling, 2, spelling.len().saturating_sub(1));
    let bytes = blob_of(at.alloc, digits, start)?;
    at.take();
    Ok(Operand::Binary(bytes))
}

/// Reads a literal, a name, a call or a CASE.
pub(crate) fn primary(at: &mut Cursor) -> Result<Operand, ParseError> {
    let spelling = at.spelling();
    match at.kind() {
        Kind::Word => word(at),
        Kind::Name => named(at),
        Kind::String => string(at),
        Kind::Blob => blob(at),
        Kind::Integer | Kind::Decimal => {
            at.take();
            Ok(number_of(spelling))
        }
        _ => Err(at.refuse()),
    }
}

// Reads a literal or a name within parentheses, of which one was taken.
fn single(at: &mut Cursor) -> Result<Operand, ParseError> {
    let mut open: usize = 1;
    for _turn in 0..at.len() {
        if !at.eat(Kind::Open) {
            break;
        }
        open = open.saturating_add(1);
    }
    let is_negative = at.eat(Kind::Minus);
    let read = primary(at)?;
    for _turn in 0..open {
        at.expect(Kind::Close)?;
    }
    if is_negative {
        Ok(negative(read))
    } else {
        Ok(read)
    }
}

// Reads what stands in a parenthesis that was taken: a literal or a name, or what isn't read.
fn grouped(at: &mut Cursor) -> Result<Operand, ParseError> {
    let begin = *at;
    match single(at) {
        Ok(read) => Ok(read),
        Err(ParseError::Memory) => Err(ParseError::Memory),
        Err(_) => {
            *at = begin;
            at.skip_group()?;
            Ok(Operand::Other)
        }
    }
}

// Goes past signs before an operand, and tells whether they make up a minus, or `None` of others.
fn signs(at: &mut Cursor) -> Option<bool> {
    let mut read = Some(false);
    for _turn in 0..at.len() {
        if at.sees(Kind::Sign) && at.spelling() != b"+".as_slice() {
            read = None;
        }
        if at.sees(Kind::Minus) {
            read = read.map(|is_negative| !is_negative);
        }
        if !at.eat(Kind::Minus) && !at.eat(Kind::Sign) {
            break;
        }
    }
    read
}

// Reads an operand with the signs before it.
fn signed(at: &mut Cursor) -> Result<Operand, ParseError> {
    let sign = signs(at);
    let read = if at.eat(Kind::Open) {
        grouped(at)?
    } else {
        primary(at)?
    };
    match sign {
        Some(false) => Ok(read),
        Some(true) => Ok(negative(read)),
        None => Ok(Operand::Other),
    }
}

// Goes past the name of a type.
fn type_name(at: &mut Cursor) -> Result<(), ParseError> {
    if !at.eat(Kind::Name) {
        at.expect(Kind::Word)?;
    }
    for _turn in 0..at.len() {
        if at.eat(Kind::Open) {
            at.skip_group()?;
        } else if at.sees(Kind::Word) && is_of_type(at.spelling()) {
            at.take();
        } else {
            break;
        }
    }
    Ok(())
}

/// Tells whether a sign follows that makes another operand of the last one.
pub(crate) fn goes_on(at: &Cursor) -> bool {
    matches!(at.kind(), Kind::Minus | Kind::Sign | Kind::Cast)
}

/// Goes past the signs and operands that make another operand of one that was read.
pub(crate) fn arithmetic(at: &mut Cursor, read: Operand) -> Result<Operand, ParseError> {
    if !goes_on(at) {
        return Ok(read);
    }
    for _turn in 0..at.len() {
        if at.eat(Kind::Cast) {
            type_name(at)?;
        } else if goes_on(at) {
            at.take();
            let _ = signed(at)?;
        } else {
            break;
        }
    }
    Ok(Operand::Other)
}

/// Reads an operand.
pub(crate) fn operand(at: &mut Cursor) -> Result<Operand, ParseError> {
    let read = signed(at)?;
    arithmetic(at, read)
}
