//! Lowers conditions of SQL to predicates over the columns of a schema.
//!
//! A part of a condition that the pruner has no words for becomes a column of its own, of which
//! nothing has to be known.
#![tactic(auto)]

pub mod cells;
mod column;
mod compare;
mod comparison;
pub mod condition;
pub mod error;
pub mod fault;
mod float;
pub mod found;
mod halves;
mod joined;
pub mod laws;
mod literal;
pub mod lower;
mod number;
mod reading;
pub mod schema;
pub mod syntax;
pub mod typing;
