//! Values as a caller hands them in.
ghost use Rattle.std.specs.Prelude.{◌≡◌, ◌*◌, ◌==◌, MatchResult, Ok, Err, option_map};
ghost use Rattle.vortex_capi.specs.Given as spec;

use crate::status::Status;
use crate::types::width;
use vortex_base::dtype::DType;

/// Values one behind the other, and where each of them ends where the type doesn't tell it.
#[derive(Clone, Copy)]
pub(crate) struct Given<'a> {
    pub(crate) values: &'a [u8],
    /// Where the first text or bytes begin.
    pub(crate) start: u64,
    pub(crate) ends: &'a [u64],
}

// The bytes from one place up to another, where they are there.
#[inline]
fn part_of(values: &[u8], from: usize, to: usize) -> Option<&[u8]>
    ensures { option_map (λ s. s.now) result ≡ spec.part_of values.now from to }
{
    values.get(from..to)
}

/// Value i of those that take so many bytes each.
#[inline]
pub(crate) fn fixed(values: &[u8], width: usize, i: usize) -> Option<&[u8]>
    ensures { option_map (λ s. s.now) result ≡ spec.fixed values.now width i }
{
    let from = i.checked_mul(width)?;
    part_of(values, from, from.checked_add(width)?)
}

// Whether a number is the product of two others.
fn is_product(number: usize, left: usize, right: usize) -> bool
    ensures { result ≡ (number == left * right) }
{
    match left.checked_mul(right) {
        Some(product) => number == product,
        None => false,
    }
}

impl<'a> Given<'a> {
    /// Returns whether the arrays hold a value of the type for each of so many places and no more.
    /// The heap of texts and bytes may go on behind the last end.
    pub(crate) fn fill(&self, dtype: DType, count: usize) -> bool
        ensures { result ≡ spec.fill dtype count self.now.values.now self.now.ends.now }
    {
        match width(dtype) {
            Some(width) => is_product(self.values.len(), count, width) && self.ends.is_empty(),
            None => self.ends.len() == count,
        }
    }

    // Where text i begins.
    fn begin(&self, i: usize) -> u64
        ensures { result ≡ spec.begin self.now.start self.now.ends.now i }
    {
        if i == 0 {
            return self.start;
        }
        match self.ends.get(i - 1) {
            Some(end) => *end,
            None => 0,
        }
    }

    // Text i.
    fn long(&self, i: usize) -> Result<&'a [u8], Status>
        ensures { MatchResult result
            (λ s. spec.long self.now.values.now self.now.start self.now.ends.now i ≡ Ok s.now)
            (λ e. spec.long self.now.values.now self.now.start self.now.ends.now i ≡ Err e) }
    {
        let Some(end) = self.ends.get(i) else {
            return Err(Status::BadLength);
        };
        match part_of(self.values, self.begin(i) as usize, *end as usize) {
            Some(bytes) => Ok(bytes),
            None => Err(Status::BadEnds),
        }
    }

    /// The bytes of value i.
    pub(crate) fn bytes_at(&self, dtype: DType, i: usize) -> Result<&'a [u8], Status>
        ensures { MatchResult result
            (λ s. spec.bytes_at dtype self.now.values.now self.now.start self.now.ends.now i
            ≡ Ok s.now)
            (λ e. spec.bytes_at dtype self.now.values.now self.now.start self.now.ends.now i
            ≡ Err e) }
    {
        match width(dtype) {
            Some(width) => match fixed(self.values, width, i) {
                Some(bytes) => Ok(bytes),
                None => Err(Status::BadLength),
            },
            None => self.long(i),
        }
    }
}
