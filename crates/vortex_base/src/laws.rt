//! Laws of this layer, in the words of its definitions. The functions carry them by their
//! contracts.
ghost use Rattle.std.specs.Prelude.{◌≡◌, ◌↔◌, IfOk, IsTrue};
ghost use Rattle.vortex_base.specs.Worked.Examples.{TypeExamples, ValueExamples, OrderExamples};
ghost use Rattle.vortex_base.specs.Worked.Examples.{ScopeExamples, ChunkExamples};
ghost use Rattle.vortex_base.specs.Worked.KeptExamples.{BlobExamples, CellExamples, NativeExamples};
ghost use Rattle.vortex_base.specs.Data.Orders.{ValuesAreOrdered, NumbersAreOrdered, pvalue_cmp};
ghost use Rattle.vortex_base.specs.Data.Values.{value_cmp};

use crate::bytes::Bytes;
use crate::pvalue::PValue;
use crate::scalar_value::ScalarValue;
use crate::text::Text;
use std::alloc::AllocError;
use std::cmp::Ordering;

/// The order of values is total, and values that tie are equal.
pub fn values_are_ordered()
    ensures { ValuesAreOrdered }
{}

/// The order of numbers is total, and numbers that tie are equal.
pub fn numbers_are_ordered()
    ensures { NumbersAreOrdered }
{}

/// `cmp` of values is their order, and `==` tells whether they are one.
pub fn values_compare(left: &ScalarValue, right: &ScalarValue) -> (Ordering, bool)
    ensures order { result.0 ≡ value_cmp left.now right.now }
    ensures same { IsTrue result.1 ↔ (left.now ≡ right.now) }
{
    (left.cmp(right), left == right)
}

/// `cmp` of numbers is their order, and `==` tells whether they are one.
pub fn numbers_compare(left: PValue, right: PValue) -> (Ordering, bool)
    ensures order { result.0 ≡ pvalue_cmp left right }
    ensures same { IsTrue result.1 ↔ (left ≡ right) }
{
    (left.cmp(&right), left == right)
}

/// A clone in generic code equals its source, where the type's clones do.
pub fn clone_of<T: Clone>(source: &T) -> Result<T, AllocError>
    requires { (a b : T) → T.is_clone a b → b ≡ a }
    ensures { IfOk result (λ copy. copy ≡ source.now) }
{
    source.clone()
}

/// The clones of values equal their sources, in generic code too.
pub fn clone_of_value(source: &ScalarValue) -> Result<ScalarValue, AllocError>
    ensures { IfOk result (λ copy. copy ≡ source.now) }
{
    clone_of(source)
}

/// The clones of texts equal their sources, in generic code too.
pub fn clone_of_text(source: &Text) -> Result<Text, AllocError>
    ensures { IfOk result (λ copy. copy ≡ source.now) }
{
    clone_of(source)
}

/// The clones of bytes equal their sources, in generic code too.
pub fn clone_of_bytes(source: &Bytes) -> Result<Bytes, AllocError>
    ensures { IfOk result (λ copy. copy ≡ source.now) }
{
    clone_of(source)
}

/// Worked cases of the definitions: types, values and their order, scopes, columns, chunks and
/// rows.
pub fn examples_hold()
    ensures types { TypeExamples }
    ensures values { ValueExamples }
    ensures order { OrderExamples }
    ensures scopes { ScopeExamples }
    ensures chunks { ChunkExamples }
{}

/// Worked cases of the definitions of the forms in which a column keeps its values.
pub fn kept_examples_hold()
    ensures natives { NativeExamples }
    ensures blobs { BlobExamples }
    ensures cells { CellExamples }
{}
