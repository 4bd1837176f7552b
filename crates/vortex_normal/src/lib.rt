//! Predicates in a normal form that is satisfied by the same rows, and that the rules see through.
#![tactic(auto)]

mod balanced;
mod ends;
mod groups;
mod interval;
pub mod laws;
mod leaves;
pub mod levels;
mod likes;
mod links;
mod narrowed;
pub mod normalize;
mod pushed;
mod range_predicate;
mod ranges;
mod strict;
mod tested;
