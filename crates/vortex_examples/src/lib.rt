//! Rules, binders and callers of a user, written and proved by the public calls alone: to begin
//! from, and to see what the contracts are good for.
#![tactic(auto)]

pub mod columnar;
pub mod known;
pub mod measured;
pub mod null_operands;
pub mod planner;
pub mod reader;
pub mod writer;
