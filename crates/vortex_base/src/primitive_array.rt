//! Optional values of one type, kept as a vector of that type beside which of them are there.
ghost use Rattle.std.specs.Prelude.{◌≡◌, ◌<◌, ◌+◌, ◌++◌, ◌∷◌, [], IfOk, None, OnErr, OnOk, Some, length, map, replicate, slice_get, slice_set, take, vec_capacity, vec_len};
ghost use Rattle.vortex_base.specs.Data.PrimitiveArray.{native_at, optionals};

use std::alloc::{AllocError, Global};
use std::marker::Model;

/// Optional values in order: the values, any where there is none, and which of them are there.
#[derive(Debug, Drop)]
pub struct PrimitiveArray<T> {
    values: Vec<T>,
    validity: Vec<bool>,
}

impl<T> Model for PrimitiveArray<T> {
    ghost use Rattle.std.specs.Prelude.{◌≡◌, List, Option, length};
    ghost use Rattle.vortex_base.specs.Data.PrimitiveArray.{optionals};

    ghost Value = { List (Option T) };

    ghost view = { λ n. optionals n.values.items n.validity.items };

    ghost invariant = { λ n. length n.values.items ≡ length n.validity.items };
}

// Makes room for one more value and for whether it is there.
#[inline(never)]
fn make_room<T>(values: &mut Vec<T>, validity: &mut Vec<bool>) -> Result<(), AllocError>
    ensures values { values.new.items ≡ values.old.items }
    ensures validity { validity.new.items ≡ validity.old.items }
    ensures room { OnOk result (vec_len values.new < vec_capacity values.new) }
    ensures room_there { OnOk result (vec_len validity.new < vec_capacity validity.new) }
{
    values.reserve(1)?;
    validity.reserve(1)?;
    Ok(())
}

// Makes room for one more value where there is none yet.
#[inline(always)]
fn have_room<T>(values: &mut Vec<T>, validity: &mut Vec<bool>) -> Result<(), AllocError>
    ensures values { values.new.items ≡ values.old.items }
    ensures validity { validity.new.items ≡ validity.old.items }
    ensures room { OnOk result (vec_len values.new < vec_capacity values.new) }
    ensures room_there { OnOk result (vec_len validity.new < vec_capacity validity.new) }
{
    if values.len() < values.capacity() && validity.len() < validity.capacity() {
        Ok(())
    } else {
        make_room(values, validity)
    }
}

impl<T: Copy + Default> PrimitiveArray<T> {
    /// No values yet.
    pub fn new(alloc: Global) -> PrimitiveArray<T>
        ensures { result ≡ [] }
    {
        PrimitiveArray {
            values: Vec::new(alloc),
            validity: Vec::new(alloc),
        }
    }

    /// No values yet, with room for some.
    pub fn with_capacity(alloc: Global, count: usize) -> Result<PrimitiveArray<T>, AllocError>
        ensures empty { IfOk result (λ natives. natives ≡ []) }
        ensures memory { OnErr result (0 < count) }
    {
        let values = Vec::with_capacity(alloc, count)?;
        let validity = Vec::with_capacity(alloc, count)?;
        Ok(PrimitiveArray { values, validity })
    }

    /// A column of `count` nulls, in whose place values can be set in no more memory.
    pub fn nulls(alloc: Global, count: usize) -> Result<PrimitiveArray<T>, AllocError>
        ensures { IfOk result (λ natives. natives ≡ replicate count None) }
    {
        let mut values = Vec::new(alloc);
        values.resize(count, T::default())?;
        let mut validity = Vec::new(alloc);
        validity.resize(count, false)?;
        Ok(PrimitiveArray { values, validity })
    }

    /// The values, each of which is there.
    pub fn from_slice(alloc: Global, values: &[T]) -> Result<PrimitiveArray<T>, AllocError>
        ensures { IfOk result (λ natives. natives ≡ map Some values.now) }
    {
        let mut copies = Vec::new(alloc);
        copies.extend_from_slice(values)?;
        PrimitiveArray::from_vec(alloc, copies)
    }

    /// The values of which it is told that they are there, and nulls in the place of the others.
    pub fn from_slices(
        alloc: Global,
        values: &[T],
        validity: &[bool],
    ) -> Result<PrimitiveArray<T>, AllocError>
        requires { length values.now ≡ length validity.now }
        ensures { IfOk result (λ natives. natives ≡ optionals values.now validity.now) }
    {
        let mut copies = Vec::new(alloc);
        copies.extend_from_slice(values)?;
        let mut told = Vec::new(alloc);
        told.extend_from_slice(validity)?;
        Ok(PrimitiveArray::from_vecs(copies, told))
    }

    /// The values of a vector, each of which is there.
    pub fn from_vec(alloc: Global, values: Vec<T>) -> Result<PrimitiveArray<T>, AllocError>
        ensures { IfOk result (λ natives. natives ≡ map Some values.items) }
    {
        let mut validity = Vec::new(alloc);
        validity.resize(values.len(), true)?;
        Ok(PrimitiveArray { values, validity })
    }

    /// The values of a vector of which it is told that they are there, and nulls in the place of
    /// the others.
    pub fn from_vecs(values: Vec<T>, validity: Vec<bool>) -> PrimitiveArray<T>
        requires { vec_len values ≡ vec_len validity }
        ensures { result ≡ optionals values.items validity.items }
    {
        PrimitiveArray { values, validity }
    }

    // The allocator of the values.
    pub(crate) fn allocator(&self) -> Global {
        *self.values.allocator()
    }

    // Adds copies of other values. If memory is refused, the values are as they were.
    #[inline]
    pub(crate) fn extend_from(&mut self, others: &PrimitiveArray<T>) -> Result<(), AllocError>
        ensures extended { OnOk result (self.new ≡ self.old ++ others.now) }
        ensures refused { OnErr result (self.new ≡ self.old) }
    {
        self.validity.reserve(others.validity.len())?;
        self.values.extend_from_slice(&others.values)?;
        let _ = self.validity.extend_from_slice(&others.validity);
        Ok(())
    }

    /// The number of values and nulls.
    #[inline]
    pub fn len(&self) -> usize
        ensures { result ≡ length self.now }
    {
        self.values.len()
    }

    /// The value at a place, `None` for null and past the end.
    #[inline]
    pub fn get(&self, i: usize) -> Option<T>
        ensures { result ≡ native_at (slice_get self.now i) }
    {
        if i < self.validity.len() && self.validity[i] {
            Some(self.values[i])
        } else {
            None
        }
    }

    /// The values, any where there is none, and which of them are there.
    #[inline]
    pub fn as_slices(&self) -> (&[T], &[bool])
        ensures values { self.now ≡ optionals result.0.now result.1.now }
        ensures long { length result.0.now ≡ length result.1.now }
    {
        (&self.values, &self.validity)
    }

    /// Adds a value, or null. If memory is refused, the values are as they were.
    #[inline(always)]
    pub fn push(&mut self, value: Option<T>) -> Result<(), AllocError>
        ensures pushed { OnOk result (self.new ≡ self.old ++ value ∷ []) }
        ensures refused { OnErr result (self.new ≡ self.old) }
    {
        have_room(&mut self.values, &mut self.validity)?;
        match value {
            Some(value) => {
                self.values.push_reserved(value);
                self.validity.push_reserved(true);
            }
            None => {
                self.values.push_reserved(T::default());
                self.validity.push_reserved(false);
            }
        }
        Ok(())
    }

    /// Puts a value, or null, in the place of another.
    #[inline]
    pub fn set(&mut self, place: usize, value: Option<T>)
        requires { place < length self.old }
        ensures { self.new ≡ slice_set self.old place value }
    {
        match value {
            Some(value) => {
                self.values[place] = value;
                self.validity[place] = true;
            }
            None => self.validity[place] = false,
        }
    }

    /// Drops the values behind the first ones of this number.
    pub fn truncate(&mut self, len: usize)
        ensures { self.new ≡ take len self.old }
    {
        self.values.truncate(len);
        self.validity.truncate(len);
    }

    /// Gives back the room that no value takes.
    pub fn shrink_to_fit(&mut self)
        ensures { self.new ≡ self.old }
    {
        self.values.shrink_to_fit();
        self.validity.shrink_to_fit();
    }
}
