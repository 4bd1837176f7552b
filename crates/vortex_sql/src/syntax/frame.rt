//! Open parentheses and NOTs of a condition.
use crate::syntax::chain::{Items, chained};
use crate::syntax::error::ParseError;
use crate::syntax::part::{Built, Form, MAX_LEVELS, put, take_condition};
use std::alloc::Global;
use vortex_expr::scalar_fn::Connective;

/// The word or sign that opened a frame.
#[derive(Clone, Copy, PartialEq, Eq)]
pub(crate) enum Opening {
    /// The text itself.
    Whole,
    Parenthesis,
    Not,
}

/// A part of a condition that isn't closed yet.
#[derive(Drop)]
pub(crate) struct Frame {
    pub opening: Opening,
    /// Where it begins.
    pub start: usize,
    // The items of the last chain of AND, and the chains before it, which OR joins.
    ands: Items,
    ors: Items,
}

/// Opens a frame at a place.
pub(crate) fn open(
    alloc: Global,
    frames: &mut Vec<Frame>,
    opening: Opening,
    start: usize,
) -> Result<(), ParseError> {
    if frames.len() > MAX_LEVELS {
        return Err(ParseError::TooDeep(start));
    }
    frames.push(Frame {
        opening,
        start,
        ands: Vec::new(alloc),
        ors: Vec::new(alloc),
    })?;
    Ok(())
}

impl Frame {
    /// Adds a condition that AND follows.
    pub fn and(&mut self, item: Built) -> Result<(), ParseError> {
        self.ands.push(Some(item))?;
        Ok(())
    }

    /// Adds a condition that ends at a place and that OR follows.
    pub fn or(&mut self, alloc: Global, place: usize, item: Built) -> Result<(), ParseError> {
        self.ands.push(Some(item))?;
        let chain = chained(alloc, place, Connective::And, &mut self.ands)?;
        self.ors.push(Some(chain))?;
        Ok(())
    }

    /// Makes the whole of the frame of its last part, which stands between two places.
    pub fn close(
        &mut self,
        alloc: Global,
        start: usize,
        end: usize,
        last: &mut Form,
    ) -> Result<(), ParseError> {
        if self.ands.is_empty() && self.ors.is_empty() {
            return Ok(());
        }
        self.or(alloc, end, take_condition(alloc, last, start, end)?)?;
        put(last, chained(alloc, end, Connective::Or, &mut self.ors)?);
        Ok(())
    }
}
