//! The static library for callers in C and in whatever calls C: arrays of bytes and numbers in,
//! arrays out.
//!
//! `callers/c/vortex.h` declares what crosses and says what each call needs. No call keeps
//! anything, and every array is the caller's. Each is a call of `vortex_capi` or of `vortex_text`
//! under the name of the header.
#![tactic(auto)]

pub mod calls;
pub mod parquet;
pub mod run;
#[cfg(test)]
mod tests;
pub mod version;
