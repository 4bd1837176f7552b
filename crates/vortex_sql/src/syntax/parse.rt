//! The condition that a text is, by a loop over its words.
ghost use Rattle.std.specs.Prelude.{◌∷◌, IfErr, IfOk, false, length};
ghost use Rattle.vortex_sql.specs.Parsing.Joining.{Joins, ands};
ghost use Rattle.vortex_sql.specs.Parsing.Naming.{AreNamed};
ghost use Rattle.vortex_sql.specs.Parsing.Places.{Ascends, leaves};
ghost use Rattle.vortex_sql.specs.Parsing.Refusals.{IsPlaced};

use crate::syntax::cursor::Cursor;
pub use crate::syntax::cursor::Names;
use crate::syntax::error::ParseError;
use crate::syntax::frame::{Frame, Opening, open};
use crate::syntax::naming::are_named;
use crate::syntax::operand::operand;
pub use crate::syntax::part::MAX_LEVELS;
use crate::syntax::part::{Form, Unary, condition_in, put_operand, take_condition, wrap};
use crate::syntax::predicate::tested;
use crate::syntax::spans::{is_ascending, is_joined};
use crate::syntax::token::Kind;
use crate::syntax::tree::{Condition, Operand};
use std::alloc::Global;

// The part of a condition that comes next.
#[derive(Clone, Copy)]
enum Next {
    /// The beginning of a test.
    Test,
    /// A word that joins the part that was read, or closes the frame around it.
    Joint,
    /// Nothing: the text has ended.
    End,
}

// A text, what is open of it, and the part that was read last with its places.
#[derive(Drop)]
struct Reader<'a> {
    at: Cursor<'a>,
    frames: Vec<Frame>,
    form: Form,
    start: usize,
    end: usize,
}

impl<'a> Reader<'a> {
    // Notes that a part ends here which began at a place.
    fn ends(&mut self, start: usize) -> Next {
        self.start = start;
        self.end = self.at.end();
        Next::Joint
    }

    // Reads on behind an operand that began at a place.
    fn tested(&mut self, start: usize, read: Operand) -> Result<Next, ParseError> {
        put_operand(&mut self.form, read);
        tested(&mut self.at, start, &mut self.form)?;
        Ok(self.ends(start))
    }

    fn open(&mut self, opening: Opening) -> Result<Next, ParseError> {
        let start = self.at.start();
        self.at.take();
        let alloc = self.at.alloc;
        open(alloc, &mut self.frames, opening, start)?;
        Ok(Next::Test)
    }

    // Opens a parenthesis, or goes past a query.
    fn begin_group(&mut self) -> Result<Next, ParseError> {
        let mut inner = self.at;
        inner.take();
        if !inner.sees_word(b"select") && !inner.sees_word(b"with") {
            return self.open(Opening::Parenthesis);
        }
        let start = self.at.start();
        self.at.take();
        self.at.skip_group()?;
        self.tested(start, Operand::Other)
    }

    // Reads the beginning of a test, or opens what stands before it.
    fn begin(&mut self) -> Result<Next, ParseError> {
        if self.at.sees_word(b"not") {
            return self.open(Opening::Not);
        }
        if self.at.sees(Kind::Open) {
            return self.begin_group();
        }
        let start = self.at.start();
        let read = operand(&mut self.at)?;
        self.tested(start, read)
    }

    // Tells what opened the last frame.
    fn opening(&self) -> Option<Opening> {
        match self.frames.last() {
            Some(frame) => Some(frame.opening),
            None => None,
        }
    }

    // Closes the NOTs before the part.
    fn negated(&mut self) -> Result<(), ParseError> {
        for _turn in 0..self.frames.len() {
            if self.opening() != Some(Opening::Not) {
                break;
            }
            let _ = self.frames.pop();
            let (alloc, start, end) = (self.at.alloc, self.start, self.end);
            wrap(alloc, &mut self.form, Unary::Not, start, end)?;
        }
        Ok(())
    }

    // Makes the part of the last frame and closes that, and returns where it began.
    fn close(&mut self) -> Result<usize, ParseError> {
        let (alloc, start, end) = (self.at.alloc, self.start, self.end);
        let refused = self.at.refuse();
        let Some(frame) = self.frames.last_mut() else {
            return Err(refused);
        };
        let first = frame.start;
        frame.close(alloc, start, end, &mut self.form)?;
        let _ = self.frames.pop();
        Ok(first)
    }

    // Closes the parenthesis that is open.
    fn close_group(&mut self) -> Result<Next, ParseError> {
        let start = self.close()?;
        self.at.take();
        tested(&mut self.at, start, &mut self.form)?;
        Ok(self.ends(start))
    }

    // Goes past the rest of a row, of which the first operand was read.
    fn row(&mut self) -> Result<Next, ParseError> {
        let start = match self.frames.pop() {
            Some(frame) => frame.start,
            None => 0,
        };
        self.at.skip_group()?;
        self.tested(start, Operand::Other)
    }

    // Joins the part to the chain that is open.
    fn connective(&mut self, is_or: bool) -> Result<Next, ParseError> {
        let (alloc, start, end) = (self.at.alloc, self.start, self.end);
        let refused = self.at.refuse();
        let item = take_condition(alloc, &mut self.form, start, end)?;
        match self.frames.last_mut() {
            Some(frame) if is_or => frame.or(alloc, end, item)?,
            Some(frame) => frame.and(item)?,
            None => return Err(refused),
        }
        self.at.take();
        Ok(Next::Test)
    }

    // Ends the text, or refuses what stands there.
    fn ended(&mut self) -> Result<Next, ParseError> {
        if !self.at.sees(Kind::End) || self.opening() != Some(Opening::Whole) {
            return Err(self.at.refuse());
        }
        let _ = self.close()?;
        Ok(Next::End)
    }

    // Goes on behind a part.
    fn follow(&mut self) -> Result<Next, ParseError> {
        self.negated()?;
        let is_within = self.opening() == Some(Opening::Parenthesis);
        if self.at.sees_word(b"and") {
            self.connective(false)
        } else if self.at.sees_word(b"or") {
            self.connective(true)
        } else if is_within && self.at.sees(Kind::Close) {
            self.close_group()
        } else if is_within && self.at.sees(Kind::Comma) {
            self.row()
        } else {
            self.ended()
        }
    }

    // Reads the whole text.
    fn read(&mut self) -> Result<(), ParseError> {
        let alloc = self.at.alloc;
        open(alloc, &mut self.frames, Opening::Whole, 0)?;
        let mut next = Next::Test;
        for _turn in 0..self.at.len().saturating_mul(2).saturating_add(2) {
            next = match next {
                Next::Test => self.begin()?,
                Next::Joint => self.follow()?,
                Next::End => return Ok(()),
            };
        }
        match next {
            Next::End => Ok(()),
            _ => Err(self.at.refuse()),
        }
    }
}

fn condition(alloc: Global, text: &[u8], names: Names) -> Result<Condition, ParseError> {
    let mut reader = Reader {
        at: Cursor::new(alloc, names, text),
        frames: Vec::new(alloc),
        form: Form::Operand(Operand::Other),
        start: 0,
        end: 0,
    };
    reader.read()?;
    let (start, end) = (reader.start, reader.end);
    Ok(condition_in(take_condition(alloc, &mut reader.form, start, end)?))
}

/// Returns the condition that a text is. Its leaves ascend, each within the text and of a byte at
/// least, and AND stands between two of them exactly where AND joins them.
pub fn parse(alloc: Global, text: &str, names: Names) -> Result<Condition, ParseError>
    ensures places { IfOk result (λ c. Ascends 0 (leaves c) (length text.now)) }
    // No AND stands before the first leaf.
    ensures joined { IfOk result (λ c. Joins text.now 0 (leaves c) (false ∷ ands c)) }
    // A name of several parts at the front of a leaf, or beside the sign of a comparison, is the
    // column of its last part where that is wanted, and else isn't read.
    ensures named { IfOk result (AreNamed text.now names) }
    // A refusal other than for memory has a place in the text.
    ensures refused { IfErr result (IsPlaced (length text.now)) }
{
    let bytes = text.as_bytes();
    let condition = match condition(alloc, bytes, names) {
        Ok(condition) => condition,
        Err(refused) => return Err(refused.within(text.len())),
    };
    if !is_ascending(&condition, text.len()) || !is_joined(&condition, bytes) {
        return Err(ParseError::Unexpected(0));
    }
    if !are_named(bytes, names, &condition) {
        return Err(ParseError::Unexpected(0));
    }
    Ok(condition)
}
