//! The call of other languages that prunes by a condition in SQL: arrays in, arrays out.
//!
//! `vortex_ffi` exports it under the name of `callers/c/vortex.h`. It keeps nothing, and every
//! array is the caller's.

pub(crate) mod condition;
pub mod prune_sql;
pub(crate) mod refusal;
