//! Optional byte strings, one behind another in one heap.
ghost use Rattle.std.specs.Prelude.{◌≡◌, ◌<◌, ◌++◌, ◌∷◌, [], IfOk, OnErr, OnOk, length, option_copied, slice_get, take};
ghost use Rattle.vortex_base.specs.Data.VarBinArray.{blob_at};

use crate::offsets::Offsets;
use std::alloc::{AllocError, Global};
use std::marker::Model;

/// Optional byte strings in order: where each ends in the heap that they share, the bytes of all,
/// and which of them are there. Each begins where the one before it ends.
#[derive(Debug, Drop)]
pub struct VarBinArray {
    ends: Offsets,
    heap: Vec<u8>,
    validity: Vec<bool>,
}

impl Model for VarBinArray {
    ghost use Rattle.std.specs.Prelude.{ℕ, List, Option};
    ghost use Rattle.vortex_base.specs.Data.VarBinArray.{AreBlobs, blobs};

    ghost Value = { List (Option (List ℕ)) };

    ghost view = { λ b. blobs b.ends b.heap.items b.validity.items };

    ghost invariant = { λ b. AreBlobs b.ends b.heap.items b.validity.items };
}

impl VarBinArray {
    /// No byte strings yet.
    pub fn new(alloc: Global) -> VarBinArray
        ensures { result ≡ [] }
    {
        VarBinArray {
            ends: Offsets::new(alloc),
            heap: Vec::new(alloc),
            validity: Vec::new(alloc),
        }
    }

    /// No byte strings yet, with room for some that are empty or null.
    pub fn with_capacity(alloc: Global, count: usize) -> Result<VarBinArray, AllocError>
        ensures empty { IfOk result (λ blobs. blobs ≡ []) }
        ensures memory { OnErr result (0 < count) }
    {
        let ends = Offsets::with_capacity(alloc, count)?;
        let heap = Vec::new(alloc);
        let validity = Vec::with_capacity(alloc, count)?;
        Ok(VarBinArray {
            ends,
            heap,
            validity,
        })
    }

    /// The number of byte strings and nulls.
    #[inline]
    pub fn len(&self) -> usize
        ensures { result ≡ length self.now }
    {
        self.validity.len()
    }

    /// The allocator of the byte strings.
    #[inline]
    pub fn allocator(&self) -> Global {
        *self.heap.allocator()
    }

    /// The byte string at a place, `None` for null and past the end.
    #[inline]
    pub fn get(&self, i: usize) -> Option<&[u8]>
        ensures { option_copied result ≡ blob_at (slice_get self.now i) }
    {
        if i < self.validity.len() && self.validity[i] {
            let (start, end) = self.ends.range(i);
            Some(&self.heap[start..end])
        } else {
            None
        }
    }

    /// Adds a byte string, or null. If memory is refused, the byte strings are as they were.
    #[inline]
    pub fn push(&mut self, value: Option<&[u8]>) -> Result<(), AllocError>
        ensures pushed { OnOk result (self.new ≡ self.old ++ option_copied value.entry ∷ []) }
        ensures refused { OnErr result (self.new ≡ self.old) }
    {
        self.validity.reserve(1)?;
        let start = self.heap.len();
        self.heap.extend_from_slice(value.unwrap_or(&[]))?;
        if self.ends.push(self.heap.len()).is_err() {
            self.heap.truncate(start);
            return Err(AllocError);
        }
        self.validity.push_reserved(value.is_some());
        Ok(())
    }

    // Adds copies of other byte strings. If memory is refused, the byte strings are as they were.
    pub(crate) fn extend_from(&mut self, others: &VarBinArray) -> Result<(), AllocError>
        ensures extended { OnOk result (self.new ≡ self.old ++ others.now) }
        ensures refused { OnErr result (self.new ≡ self.old) }
    {
        self.validity.reserve(others.validity.len())?;
        let by = self.heap.len();
        self.heap.extend_from_slice(&others.heap)?;
        let stop = self.heap.len();
        if self.ends.extend_from(&others.ends, by, stop).is_err() {
            self.heap.truncate(by);
            return Err(AllocError);
        }
        let _ = self.validity.extend_from_slice(&others.validity);
        Ok(())
    }

    /// Drops the byte strings behind the first ones of this number.
    pub fn truncate(&mut self, len: usize)
        ensures { self.new ≡ take len self.old }
    {
        if len < self.validity.len() {
            let end = self.ends.start_at(len);
            self.ends.truncate(len);
            self.heap.truncate(end);
            self.validity.truncate(len);
        }
    }

    /// Gives back the room that no byte string takes.
    pub fn shrink_to_fit(&mut self)
        ensures { self.new ≡ self.old }
    {
        self.ends.shrink_to_fit();
        self.heap.shrink_to_fit();
        self.validity.shrink_to_fit();
    }
}

/// Bytes that are lent, with the allocator of what they are lent from.
#[derive(Clone, Copy, Debug)]
pub struct BytesRef<'a> {
    pub bytes: &'a [u8],
    alloc: Global,
}

impl<'a> BytesRef<'a> {
    /// The bytes, with the allocator of their copies.
    #[inline]
    pub fn new(bytes: &'a [u8], alloc: Global) -> BytesRef<'a>
        ensures { result.bytes.now ≡ bytes.entry.now }
    {
        BytesRef { bytes, alloc }
    }

    /// The bytes themselves.
    #[inline]
    pub fn as_slice(self) -> &'a [u8]
        ensures { result.now ≡ self.entry.bytes.now }
    {
        self.bytes
    }

    /// A copy of the bytes.
    pub fn to_vec_in(self) -> Result<Vec<u8>, AllocError>
        ensures { IfOk result (λ v. v.items ≡ self.entry.bytes.now) }
    {
        self.bytes.to_vec(self.alloc)
    }
}
