//! Texts that name parts of columns, their statistics and a predicate, and what their scan prints.
#![tactic(auto)]

pub mod bad_line;
mod batches;
mod column_builder;
mod document_parser;
pub mod explain;
mod first_row;
pub mod input;
pub mod naming;
mod open_line;
pub mod open_text;
mod page;
mod parts;
mod printing;
pub mod program;
mod query;
mod starts;
mod store;
pub mod streams;
