//! Where a test stands in a text.
ghost use Rattle.std.specs.Prelude.{◌≡◌, ◌≤◌, ◌++◌, IfOk, drop, length, map};
ghost use Rattle.vortex_capi.specs.Spans.{span_at};

use std::alloc::{AllocError, Global};

/// The bytes of a text from where a test begins up to where it ends: `vortex_span` of the header.
#[repr(C)]
#[derive(Clone, Copy, Debug, PartialEq, Eq)]
pub struct Span {
    /// The first byte.
    pub start: usize,
    /// The byte behind the last one.
    pub end: usize,
}

fn span_at(place: (usize, usize)) -> Span
    ensures { result ≡ span_at place }
{
    let (start, end) = place;
    Span { start, end }
}

/// Returns the spans at places.
pub(crate) fn spans_of(alloc: Global, places: &[(usize, usize)]) -> Result<Vec<Span>, AllocError>
    ensures { IfOk result (λ spans. spans.items ≡ map span_at places.now) }
{
    places
        .iter()
        .map(|place| Span {
            start: place.0,
            end: place.1,
        })
        .collect(alloc)
}

/// Puts the spans at places at the front of an array that has room for them.
pub(crate) fn put_places(places: &[(usize, usize)], spans: &mut [Span])
    requires { length places.now ≤ length spans.old }
    ensures { spans.new ≡ map span_at places.now ++ drop (length places.now) spans.old }
{
    for place in 0..places.len() {
        spans[place] = span_at(places[place]);
    }
}

/// Puts spans at the front of an array that has room for them.
pub(crate) fn put_spans(found: &[Span], spans: &mut [Span])
    requires { length found.now ≤ length spans.old }
    ensures { spans.new ≡ found.now ++ drop (length found.now) spans.old }
{
    spans[..found.len()].copy_from_slice(found);
}
