//! Texts and byte strings of a column, which compare as their bytes do.
ghost use Rattle.std.specs.Prelude.{◌≡◌, ◌+◌, ◌^◌, ◌<◌, ◌&&◌, length, map, option_map};
ghost use Rattle.vortex_prune.specs.Scanning.Leaves.{compares_at};
ghost use Rattle.vortex_prune.specs.Scanning.Marks.{marked};

use crate::scan::comparison::{Comparison, match_each_comparison};
use std::cmp::Ordering;
use vortex_base::utf8_array::Utf8Array;
use vortex_base::value_ref::ValueRef;
use vortex_base::var_bin_array::VarBinArray;
use vortex_expr::scalar_fn::Operator;

/// Optional texts or byte strings in order.
pub(crate) trait Strings {
    ghost use Rattle.std.specs.Prelude.{◌≡◌, ℕ, IfSome, List, Option, option_map, slice_get};
    ghost use Rattle.vortex_base.specs.Data.VarBinArray.{blob_at};
    ghost use Rattle.vortex_base.specs.Data.ArrayData.{value_of};
    ghost use Rattle.vortex_base.specs.Data.Values.{value_cmp};
    ghost use Rattle.vortex_base.specs.declared.scalar_value.ScalarValue.{ScalarValue};

    ghost scalar: { List ℕ → ScalarValue };

    ghost strings: { Self → List (Option (List ℕ)) };

    /// How the one at a place, if it is there, compares with another of these bytes.
    fn order(&self, place: usize, other: &[u8]) -> Option<Ordering>
        ensures { result
            ≡ option_map (λ bytes. value_cmp (scalar bytes) (scalar other.now))
            (blob_at (slice_get (strings self.now) place)) };

    /// The bytes of a value that is lent, if it is of this kind.
    fn bytes_of<'a>(value: ValueRef<'a>) -> Option<&'a [u8]>
        ensures { IfSome result (λ bytes. scalar bytes.now ≡ value_of value.entry) };
}

impl Strings for Utf8Array {
    ghost use Rattle.vortex_base.specs.declared.scalar_value.ScalarValue.TheVariants as value;

    ghost scalar = { value.Utf8 };

    ghost strings = { λ texts. texts };

    #[inline]
    fn order(&self, place: usize, other: &[u8]) -> Option<Ordering> {
        match self.get(place) {
            Some(text) => Some(text.as_bytes().cmp(other)),
            None => None,
        }
    }

    #[inline]
    fn bytes_of<'a>(value: ValueRef<'a>) -> Option<&'a [u8]> {
        match value {
            ValueRef::Utf8(text) => Some(text.as_str().as_bytes()),
            _ => None,
        }
    }
}

impl Strings for VarBinArray {
    ghost use Rattle.vortex_base.specs.declared.scalar_value.ScalarValue.TheVariants as value;

    ghost scalar = { value.Binary };

    ghost strings = { λ blobs. blobs };

    #[inline]
    fn order(&self, place: usize, other: &[u8]) -> Option<Ordering> {
        match self.get(place) {
            Some(bytes) => Some(bytes.cmp(other)),
            None => None,
        }
    }

    #[inline]
    fn bytes_of<'a>(value: ValueRef<'a>) -> Option<&'a [u8]> {
        match value {
            ValueRef::Binary(bytes) => Some(bytes.as_slice()),
            _ => None,
        }
    }
}

// Whether a string that may be there compares so with another.
#[inline]
fn is_so<S: Strings, C: Comparison>(strings: &S, place: usize, other: &[u8]) -> bool
    ensures { let cells = map (option_map S.scalar) (S.strings strings.now) in
        result ≡ compares_at C.operator (S.scalar other.now) cells place }
{
    match strings.order(place, other) {
        Some(order) => C::is_true_of(order),
        None => false,
    }
}

// Whether a mark stays at a string that may be there, which isn't looked at without a mark.
#[inline]
fn stays<S: Strings, C: Comparison>(mark: bool, strings: &S, place: usize, other: &[u8]) -> bool
    ensures { let cells = map (option_map S.scalar) (S.strings strings.now) in
        result ≡ (mark && compares_at C.operator (S.scalar other.now) cells place) }
{
    mark && is_so::<S, C>(strings, place, other)
}

// Takes away the marks, from a place on, at which a comparison with a string isn't true.
fn keep_compared<S: Strings, C: Comparison>(
    strings: &S,
    other: &[u8],
    from: usize,
    marks: &mut [bool],
)
    requires { from + length marks.old < 2 ^ 64 }
    ensures { let cells = map (option_map S.scalar) (S.strings strings.now) in
        marks.new ≡ marked (compares_at C.operator (S.scalar other.now) cells) from marks.old }
{
    for k in 0..marks.len() {
        marks[k] = stays::<S, C>(marks[k], strings, from + k, other);
    }
}

/// Takes away the marks, from a place on, at which the comparison with a string isn't true.
pub(crate) fn keep_strings<S: Strings>(
    strings: &S,
    operator: Operator,
    other: &[u8],
    from: usize,
    marks: &mut [bool],
)
    requires { from + length marks.old < 2 ^ 64 }
    ensures { let cells = map (option_map S.scalar) (S.strings strings.now) in
        marks.new ≡ marked (compares_at operator (S.scalar other.now) cells) from marks.old }
{
    match_each_comparison!(
        operator,
        keep_compared::<S>(strings, other, from, marks),
        marks.fill(false)
    )
}
