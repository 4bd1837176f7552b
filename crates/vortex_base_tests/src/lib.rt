//! Tests of `vortex_base`, `vortex_expr` and `vortex_stats` by their public calls: ample memory and
//! refused memory, printed texts, deep and long inputs, and each call of the built code once; and
//! callers that are proved from the contracts alone.
#![tactic(auto)]

#[cfg(test)]
mod cells;
#[cfg(test)]
mod chunk;
#[cfg(test)]
mod expressions;
#[cfg(test)]
mod like;
#[cfg(test)]
mod like_pattern;
#[cfg(test)]
mod scope;
#[cfg(test)]
mod statistics;
#[cfg(test)]
mod testing;
#[cfg(test)]
mod values;
