//! Nodes, scopes and rules of a user, and parts, tables, scans and binders of a user, which tests
//! of rewriting and of pruning share.
#![tactic(auto)]

pub mod binders;
pub mod hooks;
pub mod nodes;
pub mod parts;
