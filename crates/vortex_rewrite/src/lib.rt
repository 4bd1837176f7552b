//! Rewriting: from a predicate to what proves that none or all of the rows satisfy it.
#![tactic(auto)]

pub mod built;
pub mod expr;
pub mod hook_fault;
pub mod laws;
pub mod predicate;
pub mod rewrite;

pub use hook_fault::HookFault;
pub use rewrite::rule::{StatsRewriteRule, StatsRewriteRuleRef};
pub use rewrite::rules::{BuiltinRule, Rules};
