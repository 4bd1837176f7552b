//! Byte strings, seen as the list of their bytes.
ghost use Rattle.std.specs.Prelude.{◌≡◌, ◌==◌, IfOk};
ghost use Rattle.vortex_base.specs.Made.{Makes};
ghost use Rattle.std.specs.Ordering.{nat_cmp, as_partial_cmp};
ghost use Rattle.std.specs.Cmp.Lexicographic.{slice_cmp};
ghost use Rattle.std.specs.Cmp.Rules.{comparing};
ghost use Rattle.std.specs.Cmp.{partial_order_from_own_ties};
ghost use Rattle.std.proofs.Common.{rules};
ghost use lib.Pointwise.{pointwise};

use crate::error::BaseError;
use crate::var_bin_array::BytesRef;
use std::alloc::AllocError;
use std::cmp::Ordering;
use std::marker::Model;

/// A string of bytes of any kind, ordered byte by byte.
#[derive(Drop, Debug)]
pub struct Bytes {
    bytes: Vec<u8>,
}

impl Model for Bytes {
    ghost use Rattle.std.specs.Prelude.{ℕ, List};

    ghost Value = { List ℕ };

    ghost view = { λ b. b.bytes.items };
}

impl Bytes {
    pub fn new(bytes: Vec<u8>) -> Bytes
        ensures { result ≡ bytes.items }
    {
        Bytes { bytes }
    }

    /// The bytes themselves.
    pub fn as_slice(&self) -> &[u8]
        ensures { result.now ≡ self.now }
    {
        self.bytes.as_slice()
    }

    /// The bytes, lent.
    #[inline]
    pub fn lend(&self) -> BytesRef<'_>
        ensures { result.bytes.now ≡ self.now }
    {
        BytesRef::new(self.bytes.as_slice(), *self.bytes.allocator())
    }

    // A copy of the vector, by the bytes' allocator.
    pub(crate) fn try_clone_vec(&self) -> Result<Vec<u8>, AllocError>
        ensures { IfOk result (λ v. v.items ≡ self.now) }
    {
        self.bytes.clone()
    }

    /// A copy, by the bytes' allocator.
    pub fn try_clone(&self) -> Result<Bytes, BaseError>
        ensures { Makes self.now result }
    {
        Ok(self.clone()?)
    }

    /// The vector itself.
    pub fn into_vec(self) -> Vec<u8>
        ensures { result.items ≡ self }
    {
        self.bytes
    }
}

impl Clone for Bytes {
    ghost is_clone = { λ s t. t ≡ s };

    fn clone(&self) -> Result<Bytes, AllocError> {
        Ok(Bytes {
            bytes: self.bytes.clone()?,
        })
    }
}

impl PartialEq for Bytes {
    ghost eq = { pointwise ◌==◌ };

    ghost laws = { Prim.search (comparing, rules) };

    fn eq(&self, other: &Bytes) -> bool {
        self.as_slice() == other.as_slice()
    }
}

impl Eq for Bytes {
    ghost laws = { Prim.search (comparing, rules) };
}

impl Ord for Bytes {
    ghost cmp = { slice_cmp nat_cmp };

    ghost total = { Prim.search (comparing, rules) };

    ghost matches_partial_cmp = { Prim.search (comparing, rules) };

    ghost matches_eq = { Prim.search (comparing, rules) };

    fn cmp(&self, other: &Bytes) -> Ordering {
        self.as_slice().cmp(other.as_slice())
    }
}

impl PartialOrd for Bytes {
    ghost partial_cmp = { as_partial_cmp (slice_cmp nat_cmp) };

    ghost laws = { partial_order_from_own_ties
        (Prim.search (comparing, rules)) (Prim.search (comparing, rules)) };

    fn partial_cmp(&self, other: &Bytes) -> Option<Ordering> {
        Some(self.cmp(other))
    }
}
