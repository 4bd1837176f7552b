//! Why a part is skipped, taken whole or tested, in words.

pub mod explanation;
mod leaves;
pub mod program;
mod proofs;
pub mod shown;
pub mod text;
