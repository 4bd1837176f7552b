//! The two kinds of proof.

// Which proof is asked for.
#[derive(Clone, Copy)]
pub(crate) enum Side {
    /// Proofs that no row satisfies a predicate.
    Falsify,
    /// Proofs that every row does.
    Satisfy,
}
