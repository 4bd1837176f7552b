//! Reads expressions in prefix form, and joins each chain of AND and of OR in halves.
//!
//! A chain of any length and shape is read by a loop, so a bound on the levels of the expression
//! bounds how deep the calls nest.

pub mod error;
mod item;
mod joining;
pub mod laws;
mod nested;
mod reader;
mod shape;
pub mod text;
