//! A text that comes in piece by piece and isn't held.
ghost use Rattle.std.specs.Prelude.{◌≡◌, ◌≤◌, ◌<◌, ◌+◌, ◌++◌, ◌↔◌, [], ℕ, List, Err, IfOk, OnOk};
ghost use Rattle.std.specs.Prelude.{IsErr, IsErrOf, length};
ghost use Rattle.vortex_text.specs.Fitting.{IsQueryOver};
ghost use Rattle.vortex_text.specs.Naming.{named};
ghost use Rattle.vortex_text.specs.OpenTexts.{IsOpenText, IsRefused, StateTakes, Tells};
ghost use Rattle.vortex_text.specs.Progress.{StateFits};
ghost use Rattle.vortex_text.specs.declared.bad_line.TextError.TheVariants as text_error;
ghost use Rattle.vortex_text.specs.declared.open_text.PushError.TheVariants.{Memory};
ghost use Rattle.vortex_text.specs.declared.open_text.State.TheVariants as state;
ghost use Rattle.vortex_text.specs.declared.streams.TheConstants.{INPUT_LIMIT};

use crate::bad_line::{BadInput, TextError};
use crate::open_line::OpenLine;
use crate::query::Query;
use crate::streams::INPUT_LIMIT;
use std::alloc::{AllocError, Global};
use std::marker::Model;
use std::mem;

/// Why bytes of a text were not taken.
#[derive(Debug, Drop)]
pub enum PushError {
    /// A growth was refused. The text can't go on: each later push and its end are refused.
    Memory,
    /// The text would go past `INPUT_LIMIT`. It stays as it was.
    TooLong,
}

impl From<AllocError> for PushError {
    ghost from_gives = { λ _ e. e ≡ Memory };

    fn from(_e: AllocError) -> PushError {
        PushError::Memory
    }
}

/// How far a text has come.
#[derive(Drop)]
pub enum State {
    /// Each line that has ended is fine.
    Open(OpenLine),
    /// A line is bad. What comes behind it isn't looked at.
    Bad(BadInput),
    /// Memory was refused.
    Refused,
}

impl State {
    // Takes more bytes of the text.
    fn push(self, alloc: Global, bytes: &[u8]) -> Result<State, AllocError>
        requires few { length bytes.now ≤ INPUT_LIMIT }
        requires fits { StateFits INPUT_LIMIT self }
        ensures takes { StateTakes self bytes.now result }
        ensures refused { self ≡ state.Refused → IsErr result }
        ensures fits { IfOk result (λ state. (taken : ℕ) → StateFits taken self
            → StateFits (taken + length bytes.now) state) }
    {
        match self {
            State::Open(line) => match line.push(alloc, bytes) {
                Ok(line) => Ok(State::Open(line)),
                Err(TextError::BadLine(bad)) => Ok(State::Bad(bad)),
                Err(TextError::Memory) => Err(AllocError),
            },
            State::Bad(bad) => Ok(State::Bad(bad)),
            State::Refused => Err(AllocError),
        }
    }
}

/// A text that comes in piece by piece. What its lines say is kept, and of its bytes only those of
/// the last line. So it is for a stream of one's own what `program::run` is for a reader.
#[derive(Drop)]
pub struct OpenText {
    taken: usize,
    state: State,
}

impl Model for OpenText {
    ghost use Rattle.std.specs.Coded.{codes};
    ghost use Rattle.vortex_expr.specs.contracts.bound_expression.BoundExpression as expression;
    ghost use Rattle.vortex_text.specs.Progress.{Progress, ProgressFits};

    ghost Value = { Progress };

    ghost coded = { Prim.hlevel (codes, expression.the_row.coded) };

    ghost view = { λ t. record { taken = t.taken; state = t.state } };

    ghost invariant = { λ t. ProgressFits (record { taken = t.taken; state = t.state }) };
}

impl OpenText {
    /// A text without bytes.
    pub fn new(alloc: Global) -> OpenText
        ensures { IsOpenText [] result }
    {
        OpenText {
            taken: 0,
            state: State::Open(OpenLine::new(alloc)),
        }
    }

    /// Takes more bytes of the text, which may end anywhere, in a line or in a character. Once a
    /// growth is refused, each later push and the end of the text are refused too.
    pub fn push(&mut self, alloc: Global, bytes: &[u8]) -> Result<(), PushError>
        ensures read { (text : List ℕ) → IsOpenText text self.old
            → OnOk result (IsOpenText (text ++ bytes.now) self.new) }
        ensures taken { OnOk result (self.new.taken ≡ self.old.taken + length bytes.now) }
        ensures too_long { IsErrOf result PushError.TooLong
            ↔ (INPUT_LIMIT < self.old.taken + length bytes.now) }
        ensures same { IsErrOf result PushError.TooLong → self.new ≡ self.old }
        ensures memory { IsErrOf result PushError.Memory → IsRefused self.new }
        ensures refused { IsRefused self.old → IsErr result }
        ensures stays_refused { IsRefused self.old → IsRefused self.new }
    {
        if bytes.len() > INPUT_LIMIT - self.taken {
            return Err(PushError::TooLong);
        }
        let state = mem::replace(&mut self.state, State::Refused);
        self.taken += bytes.len();
        self.state = state.push(alloc, bytes)?;
        Ok(())
    }

    /// The parts and the predicate that the text names, which ends here, with their scope; or its
    /// first bad line.
    pub fn close(self, alloc: Global) -> Result<Query, TextError>
        ensures named { (text : List ℕ) → IsOpenText text self
            → Tells (λ q. (q.parts, q.predicate)) result (named text) }
        ensures fits { IfOk result (λ q. IsQueryOver q.scope q.parts q.predicate) }
        // Where a growth was refused, the text has no answer.
        ensures refused { IsRefused self → result ≡ Err text_error.Memory }
    {
        let OpenText { state, .. } = self;
        match state {
            State::Open(line) => line.close(alloc),
            State::Bad(bad) => Err(TextError::BadLine(bad)),
            State::Refused => Err(TextError::Memory),
        }
    }
}
