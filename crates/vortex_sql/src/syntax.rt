//! Reads the text of a condition in SQL as a tree.
//!
//! The precedence is PostgreSQL's. An expression that is neither a column nor a literal is kept as
//! a leaf by its place in the text, and what would end elsewhere in SQL is refused.

mod chain;
mod cursor;
pub mod error;
mod frame;
mod keyword;
pub mod laws;
mod literal;
mod naming;
mod operand;
pub mod parse;
mod part;
mod predicate;
pub mod print;
mod spans;
pub(crate) mod token;
pub mod tree;
