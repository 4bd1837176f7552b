//! Tests of `vortex_rewrite` and `vortex_normal` by their public calls: ample memory and refused
//! memory, deep and long predicates, and a user's rules.
#![tactic(auto)]

#[cfg(test)]
mod expr;
#[cfg(test)]
mod normalize;
#[cfg(test)]
mod rewrite;
