//! Texts, seen as the list of their bytes.
ghost use Rattle.std.specs.Prelude.{◌≡◌, ◌==◌, IfOk, string_bytes, IsTrue};
ghost use Rattle.vortex_base.specs.Made.{Makes};
ghost use Rattle.std.specs.Str.{is_utf8};
ghost use Rattle.std.specs.Ordering.{nat_cmp, as_partial_cmp};
ghost use Rattle.std.specs.Cmp.Lexicographic.{slice_cmp};
ghost use Rattle.std.specs.Cmp.Rules.{comparing};
ghost use Rattle.std.specs.Cmp.{partial_order_from_own_ties};
ghost use Rattle.std.proofs.Common.{rules};
ghost use lib.Pointwise.{pointwise};

use crate::error::BaseError;
use crate::utf8_array::TextRef;
use std::alloc::AllocError;
use std::cmp::Ordering;
use std::marker::Model;

/// A text, ordered by its bytes. They are UTF-8.
#[derive(Drop, Debug)]
pub struct Text {
    text: String,
}

impl Model for Text {
    ghost use Rattle.std.specs.Prelude.{ℕ, List, string_bytes};

    ghost Value = { List ℕ };

    ghost view = { λ t. string_bytes t.text };
}

impl Text {
    pub fn new(text: String) -> Text
        ensures { result ≡ string_bytes text }
    {
        Text { text }
    }

    /// The text itself.
    pub fn as_str(&self) -> &str
        ensures value { result.now ≡ self.now }
        ensures utf8 { IsTrue (is_utf8 self.now) }
    {
        self.text.as_str()
    }

    /// The text, lent.
    #[inline]
    pub fn lend(&self) -> TextRef<'_>
        ensures { result.text.now ≡ self.now }
    {
        TextRef::new(self.text.as_str(), *self.text.allocator())
    }

    // A copy of the string, by the text's allocator.
    pub(crate) fn try_clone_string(&self) -> Result<String, AllocError>
        ensures { IfOk result (λ s. string_bytes s ≡ self.now) }
    {
        self.text.clone()
    }

    /// A copy, by the text's allocator.
    pub fn try_clone(&self) -> Result<Text, BaseError>
        ensures { Makes self.now result }
    {
        Ok(self.clone()?)
    }

    /// The string itself.
    pub fn into_string(self) -> String
        ensures { string_bytes result ≡ self }
    {
        self.text
    }
}

impl Clone for Text {
    ghost is_clone = { λ s t. t ≡ s };

    fn clone(&self) -> Result<Text, AllocError> {
        Ok(Text {
            text: self.text.clone()?,
        })
    }
}

impl PartialEq for Text {
    ghost eq = { pointwise ◌==◌ };

    ghost laws = { Prim.search (comparing, rules) };

    fn eq(&self, other: &Text) -> bool {
        self.as_str() == other.as_str()
    }
}

impl Eq for Text {
    ghost laws = { Prim.search (comparing, rules) };
}

impl Ord for Text {
    ghost cmp = { slice_cmp nat_cmp };

    ghost total = { Prim.search (comparing, rules) };

    ghost matches_partial_cmp = { Prim.search (comparing, rules) };

    ghost matches_eq = { Prim.search (comparing, rules) };

    fn cmp(&self, other: &Text) -> Ordering {
        self.as_str().cmp(other.as_str())
    }
}

impl PartialOrd for Text {
    ghost partial_cmp = { as_partial_cmp (slice_cmp nat_cmp) };

    ghost laws = { partial_order_from_own_ties
        (Prim.search (comparing, rules)) (Prim.search (comparing, rules)) };

    fn partial_cmp(&self, other: &Text) -> Option<Ordering> {
        Some(self.cmp(other))
    }
}
