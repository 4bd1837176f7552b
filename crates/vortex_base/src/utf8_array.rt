//! Optional texts, one behind another in one heap.
ghost use Rattle.std.specs.Prelude.{◌≡◌, ◌<◌, ◌++◌, ◌∷◌, [], IfOk, IsTrue, OnErr, OnOk, length, option_copied, slice_get, string_bytes, take};
ghost use Rattle.vortex_base.specs.Data.VarBinArray.{blob_at};

use crate::var_bin_array::VarBinArray;
use std::alloc::{AllocError, Global};
use std::marker::Model;

/// Optional texts in order, kept as byte strings that are UTF-8.
#[derive(Debug, Drop)]
pub struct Utf8Array {
    blobs: VarBinArray,
}

impl Model for Utf8Array {
    ghost use Rattle.std.specs.Prelude.{ℕ, IsTrue, List, Option};
    ghost use Rattle.vortex_base.specs.Data.Utf8Array.{are_texts};

    ghost Value = { List (Option (List ℕ)) };

    ghost view = { λ t. t.blobs };

    ghost invariant = { λ t. IsTrue (are_texts t.blobs) };
}

impl Utf8Array {
    /// No texts yet.
    pub fn new(alloc: Global) -> Utf8Array
        ensures { result ≡ [] }
    {
        Utf8Array {
            blobs: VarBinArray::new(alloc),
        }
    }

    /// No texts yet, with room for some that are empty or null.
    pub fn with_capacity(alloc: Global, count: usize) -> Result<Utf8Array, AllocError>
        ensures empty { IfOk result (λ texts. texts ≡ []) }
        ensures memory { OnErr result (0 < count) }
    {
        let blobs = VarBinArray::with_capacity(alloc, count)?;
        Ok(Utf8Array { blobs })
    }

    /// The number of texts and nulls.
    #[inline]
    pub fn len(&self) -> usize
        ensures { result ≡ length self.now }
    {
        self.blobs.len()
    }

    /// The allocator of the texts.
    #[inline]
    pub fn allocator(&self) -> Global {
        self.blobs.allocator()
    }

    /// The text at a place, `None` for null and past the end.
    #[inline]
    pub fn get(&self, i: usize) -> Option<&str>
        ensures { option_copied result ≡ blob_at (slice_get self.now i) }
    {
        match self.blobs.get(i) {
            // Each that is there is UTF-8, as the invariant says.
            Some(bytes) => Some(unsafe { str::from_utf8_unchecked(bytes) }),
            None => None,
        }
    }

    /// Adds a text, or null. If memory is refused, the texts are as they were.
    #[inline]
    pub fn push(&mut self, text: Option<&str>) -> Result<(), AllocError>
        ensures pushed { OnOk result (self.new ≡ self.old ++ option_copied text.entry ∷ []) }
        ensures refused { OnErr result (self.new ≡ self.old) }
    {
        match text {
            Some(text) => self.blobs.push(Some(text.as_bytes())),
            None => self.blobs.push(None),
        }
    }

    // Adds copies of other texts. If memory is refused, the texts are as they were.
    pub(crate) fn extend_from(&mut self, others: &Utf8Array) -> Result<(), AllocError>
        ensures extended { OnOk result (self.new ≡ self.old ++ others.now) }
        ensures refused { OnErr result (self.new ≡ self.old) }
    {
        self.blobs.extend_from(&others.blobs)
    }

    /// Drops the texts behind the first ones of this number.
    pub fn truncate(&mut self, len: usize)
        ensures { self.new ≡ take len self.old }
    {
        self.blobs.truncate(len);
    }

    /// Gives back the room that no text takes.
    pub fn shrink_to_fit(&mut self)
        ensures { self.new ≡ self.old }
    {
        self.blobs.shrink_to_fit();
    }
}

/// A text that is lent, with the allocator of what it is lent from.
#[derive(Clone, Copy, Debug)]
pub struct TextRef<'a> {
    pub text: &'a str,
    alloc: Global,
}

impl<'a> TextRef<'a> {
    /// The text, with the allocator of its copies.
    #[inline]
    pub fn new(text: &'a str, alloc: Global) -> TextRef<'a>
        ensures { result.text.now ≡ text.entry.now }
    {
        TextRef { text, alloc }
    }

    /// The text itself.
    #[inline]
    pub fn as_str(self) -> &'a str
        ensures { result.now ≡ self.entry.text.now }
    {
        self.text
    }

    /// A copy of the text.
    pub fn to_string_in(self) -> Result<String, AllocError>
        ensures { IfOk result (λ s. string_bytes s ≡ self.entry.text.now) }
    {
        String::from_str(self.alloc, self.text)
    }
}
