//! The words of the language: names, types, values, numbers, statistics and expressions of a line.
#![tactic(auto)]

pub mod columns;
pub mod expected;
pub mod expression;
pub mod form;
pub mod laws;
pub mod line_error;
pub mod line_kind;
pub mod lines;
pub mod names;
pub mod number;
pub mod plain;
pub mod plain_statistic;
pub mod statistic;
pub mod value;
pub mod word;
