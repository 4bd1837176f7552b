//! Statistics as bytes, one behind the other, and the arrays that they are written to.
ghost use Rattle.std.specs.Prelude.{◌≡◌, ◌++◌, ◌∷◌, ◌≤◌, ℕ, [], List, OnOk, Result, drop, length};
ghost use Rattle.vortex_capi.specs.Slots as spec;
ghost use Rattle.vortex_capi.specs.Slots.{AreSlots, IsOpen, IsTold, IsWritten, Makes, Slot};
ghost use Rattle.vortex_capi.specs.declared.fault.Refusal.{Refusal};

use crate::encoding::push_value;
use crate::fault::{Fault, Refusal};
use crate::status::Status;
use crate::types::width;
use std::alloc::{AllocError, Global};
use vortex_base::dtype::DType;
use vortex_base::scalar_value::ScalarValue;
use vortex_stats::precision::Precision;
use vortex_stats::stat::Stat;

const BLANK: [u8; 8] = [0; 8];

/// Statistics as bytes: how each is known, where its value ends, and the values.
#[derive(Drop)]
pub(crate) struct Slots {
    known: Vec<u8>,
    ends: Vec<u64>,
    values: Vec<u8>,
}

// How many bytes stand for a value of a statistic that isn't known.
fn blank_len(stat: Stat, dtype: DType) -> usize
    ensures value { result ≡ spec.blank_len stat dtype }
    ensures short { result ≤ 8 }
{
    match stat.dtype(&dtype) {
        Some(dtype) => width(dtype).unwrap_or(0),
        None => 0,
    }
}

// Adds so many zeros.
fn push_zeros(bytes: &mut Vec<u8>, len: usize) -> Result<(), AllocError>
    requires { len ≤ 8 }
    ensures { OnOk result (bytes.new.items ≡ bytes.old.items ++ spec.zeros len) }
{
    bytes.extend_from_slice(&BLANK[..len])
}

// Copies bytes to the front of an array.
fn copy_front(bytes: &[u8], array: &mut [u8])
    requires { length bytes.now ≤ length array.old }
    ensures { array.new ≡ bytes.now ++ drop (length bytes.now) array.old }
{
    array[..bytes.len()].copy_from_slice(bytes);
}

impl Slots {
    pub(crate) fn new(alloc: Global) -> Slots
        ensures { AreSlots result [] }
    {
        Slots {
            known: Vec::new(alloc),
            ends: Vec::new(alloc),
            values: Vec::new(alloc),
        }
    }

    // How many bytes the values take.
    fn heap_len(&self) -> u64
        ensures { result ≡ length self.now.values.items }
    {
        self.values.len() as u64
    }

    // Adds a value that is known so.
    fn push_known(&mut self, known: u8, value: &ScalarValue) -> Result<(), AllocError>
        ensures { (slots : List Slot) → AreSlots self.old slots
            → OnOk result (AreSlots self.new (slots ++ spec.known_slot known value.now ∷ [])) }
    {
        push_value(&mut self.values, value)?;
        self.close(known)
    }

    // Adds a statistic that isn't known, for whose value stand so many zeros.
    fn push_blank(&mut self, len: usize) -> Result<(), AllocError>
        requires { len ≤ 8 }
        ensures { (slots : List Slot) → AreSlots self.old slots
            → OnOk result (AreSlots self.new (slots ++ (0, spec.zeros len) ∷ [])) }
    {
        push_zeros(&mut self.values, len)?;
        self.close(0)
    }

    // Ends the value whose bytes were added, and tells how it is known.
    fn close(&mut self, known: u8) -> Result<(), AllocError>
        ensures { (slots : List Slot) → (bytes : List ℕ) → IsOpen self.old slots bytes
            → OnOk result (AreSlots self.new (slots ++ (known, bytes) ∷ [])) }
    {
        let end = self.heap_len();
        self.ends.push(end)?;
        Ok(self.known.push(known)?)
    }

    /// Adds a statistic of a column of this type.
    pub(crate) fn push(
        &mut self,
        dtype: DType,
        stat: Stat,
        value: &Precision<ScalarValue>,
    ) -> Result<(), AllocError>
        ensures { (slots : List Slot) → AreSlots self.old slots
            → OnOk result (AreSlots self.new (slots ++ spec.slot_of dtype stat value.now ∷ [])) }
    {
        match value {
            Precision::Absent => self.push_blank(blank_len(stat, dtype)),
            Precision::Exact(value) => self.push_known(1, value),
            Precision::Inexact(value) => self.push_known(2, value),
        }
    }

    // Writes the statistics to arrays that have room, and how many bytes the values take in any
    // case.
    #[tactic(auto, using(crate::proofs::SlotLemmas::length_ends))]
    fn write(
        &self,
        known: &mut [u8],
        ends: &mut [u64],
        values: &mut [u8],
        len: &mut usize,
    ) -> Result<(), Status>
        ensures { (slots : List Slot) → AreSlots self.now slots
            → IsWritten slots
            (record { known = known.old; ends = ends.old; values = values.old }) result
            (record { known = known.new; ends = ends.new; values = values.new }) len.new }
    {
        *len = self.values.len();
        if known.len() != self.known.len() {
            return Err(Status::BadLength);
        }
        if ends.len() != self.ends.len() {
            return Err(Status::BadLength);
        }
        if values.len() < self.values.len() {
            return Err(Status::TooShort);
        }
        known.copy_from_slice(&self.known);
        ends.copy_from_slice(&self.ends);
        copy_front(&self.values, values);
        Ok(())
    }
}

/// Writes what was found to a caller's arrays, or where it was refused. The status of the call.
pub(crate) fn tell(
    found: Result<Slots, Refusal>,
    known: &mut [u8],
    ends: &mut [u64],
    values: &mut [u8],
    len: &mut usize,
    fault: &mut Fault,
) -> u8
    ensures { (told : Result (List Slot) Refusal) → Makes found told
        → IsTold told (record { known = known.old; ends = ends.old; values = values.old }) result
        (record { known = known.new; ends = ends.new; values = values.new }) len.new
        fault.new }
{
    match found {
        Ok(slots) => match slots.write(known, ends, values, len) {
            Ok(()) => 0,
            Err(status) => status.number(),
        },
        Err(refusal) => {
            *fault = refusal.fault;
            refusal.status.number()
        }
    }
}
