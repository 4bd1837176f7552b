//! Tests of `vortex_capi`, `vortex_sql`, `vortex_parquet` and the conditions of
//! `vortex_predicates` by their public calls.
#![tactic(auto)]

#[cfg(test)]
mod calls;
#[cfg(test)]
mod logical;
#[cfg(test)]
mod many_columns;
#[cfg(test)]
mod nested;
#[cfg(test)]
mod parquet;
#[cfg(test)]
mod predicates;
#[cfg(test)]
mod sql;
#[cfg(test)]
mod tables;
