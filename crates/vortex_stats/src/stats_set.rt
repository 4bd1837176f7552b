//! Sets of statistics.
ghost use Rattle.std.specs.Prelude.{◌≡◌, ◌≤◌, ◌==◌, ◌∷◌, [], slice_set, IfErr, IfOk, IsOk, IsOkAnd, OnErr};
ghost use Rattle.std.specs.Prelude.{IsTrue, alloc_error, length};
ghost use Rattle.std.specs.List.{list_any};
ghost use Rattle.std.specs.Iterator.{YieldsFirst, YieldsFirstRef, item_count, IsFinite};
ghost use Rattle.vortex_stats.specs.Sets.Reading.{IsPreciselyReadAs};
ghost use Rattle.vortex_stats.specs.Copies.{is_copied, set_copies};
ghost use Rattle.vortex_stats.specs.Precision.{precision_map};
ghost use Rattle.vortex_stats.specs.Stat.{stat_eq, stat_number};
ghost use Rattle.vortex_stats.specs.Sets.Slots.{slot_of, IsFiled};
ghost use Rattle.vortex_stats.specs.declared.error.StatsError.TheVariants.{Memory};
ghost use Rattle.vortex_stats.specs.Sets.Entries.{entry_value, with_entry, without_entry, retained_entries};
ghost use Rattle.vortex_stats.specs.Sets.Entries.{value_fits, entries_fit, AreDistinct, SetsAll};
ghost use Rattle.vortex_stats.specs.Sets.Entries.{is_value_of as value_is_of};

use crate::error::StatsError;
use crate::precision::{self, Precision};
use crate::reading;
use crate::stat::Stat;
use smallvec::SmallVec;
use std::alloc::Global;
use std::marker::Model;
use vortex_base::dtype::DType;
use vortex_base::from_scalar::FromScalar;
use vortex_base::scalar_value::ScalarValue;

/// The entries that make a set: up to four stand in the value itself.
pub type StatsArray = SmallVec<Entry, 4>;

// A statistic and its value.
type Entry = (Stat, Precision<ScalarValue>);

/// The statistics of one column: a list of entries, a statistic and its value each, no two of one
/// statistic. An entry may hold Absent, and then it still counts.
#[derive(Debug, Drop)]
pub struct StatsSet {
    // Slot k is empty or holds the entry of the statistic with number k.
    slots: [Option<Entry>; 9],
    // The statistics of the filled slots. There are nine at most, so they all stand in place.
    order: SmallVec<Stat, 9>,
}

impl Model for StatsSet {
    ghost use Rattle.std.specs.Prelude.{List};
    ghost use Rattle.vortex_base.specs.declared.scalar_value.ScalarValue.{ScalarValue};
    ghost use Rattle.vortex_stats.specs.declared.stat.Stat.{Stat};
    ghost use Rattle.vortex_stats.specs.declared.precision.Precision.{Precision};
    ghost use Rattle.vortex_stats.specs.Sets.Slots.{slot_entries, IsSound};

    ghost Value = { List (Stat × Precision ScalarValue) };

    ghost view = { λ s. slot_entries s.slots s.order.items };

    ghost invariant = { λ s. IsSound s.slots s.order.items s.order.capacity };
}

impl StatsSet {
    /// A set with no entry.
    pub fn new(alloc: Global) -> Self
        ensures { result ≡ [] }
    {
        StatsSet {
            slots: [None, None, None, None, None, None, None, None, None],
            order: SmallVec::new(alloc),
        }
    }

    /// A set of one entry, which may be Absent.
    pub fn of(alloc: Global, stat: Stat, value: Precision<ScalarValue>) -> Self
        ensures { result ≡ (stat, value) ∷ [] }
    {
        let mut set = StatsSet::new(alloc);
        set.put(stat, value);
        set
    }

    /// The set of these entries. The caller knows that no two are of one statistic.
    pub fn new_unchecked(alloc: Global, entries: StatsArray) -> Self
        requires { AreDistinct entries.items }
        ensures { result ≡ entries.items }
    {
        let mut set = StatsSet::new(alloc);
        for entry in entries {
            set.put(entry.0, entry.1);
        }
        set
    }

    /// The number of entries, Absent ones too.
    pub fn len(&self) -> usize
        ensures value { result ≡ length self.now }
        ensures distinct { AreDistinct self.now }
    {
        self.order.len()
    }

    /// Whether there is no entry.
    pub fn is_empty(&self) -> bool
        ensures { result ≡ (length self.now == 0) }
    {
        self.len() == 0
    }

    /// Sets the statistic's value, as `put` does. It is never refused; Vortex's call of this name
    /// may be.
    pub fn set(&mut self, stat: Stat, value: Precision<ScalarValue>) -> Result<(), StatsError>
        ensures set { self.new ≡ with_entry stat value self.old }
        ensures answered { IsOk result }
    {
        self.put(stat, value);
        Ok(())
    }

    /// Sets the statistic's value: a present one keeps its place, a new one goes last.
    pub fn put(&mut self, stat: Stat, value: Precision<ScalarValue>)
        ensures { self.new ≡ with_entry stat value self.old }
    {
        let place = stat.number() as usize;
        if self.slots[place].is_none() {
            self.order.push_reserved(stat);
            self.slots[place] = Some((stat, value));
            return;
        }
        self.slots[place] = Some((stat, value));
    }

    /// Removes the statistic's entry, if there is one. The others keep their order.
    pub fn clear(&mut self, stat: Stat)
        ensures { self.new ≡ without_entry stat self.old }
    {
        let place = stat.number() as usize;
        if self.slots[place].is_none() {
            return;
        }
        self.order.retain(|listed| !is_same(*listed, stat));
        self.slots[place] = None;
    }

    /// Removes the entries of all other statistics. Those that stay keep their order.
    pub fn retain_only(&mut self, stats: &[Stat])
        ensures { self.new ≡ retained_entries stats.now self.old }
    {
        for stat in Stat::all() {
            if !is_among(stats, stat) {
                self.clear(stat);
            }
        }
    }

    /// A clone of the statistic's value, and Absent where there is no entry. A text or bytes alone
    /// take memory.
    pub fn get(&self, stat: Stat) -> Result<Precision<ScalarValue>, StatsError>
        ensures value { IfOk result (λ value. value ≡ entry_value stat self.now) }
        ensures refused { OnErr result (IsTrue (is_copied (entry_value stat self.now))) }
        ensures memory { IfErr result (λ error. error ≡ Memory alloc_error) }
    {
        Ok(precision::copied(self.find(stat))?)
    }

    /// The statistic's value, read under this type, and Absent where there is no entry. `Mismatch`
    /// if the value is none of the type, or is no `T`; `Memory` if the copy of a text
    /// or bytes is refused, or `T`'s reading is.
    pub fn get_as<T: FromScalar>(
        &self,
        stat: Stat,
        dtype: &DType,
    ) -> Result<Precision<T>, StatsError>
        ensures { let value = entry_value stat self.now in
            IsPreciselyReadAs T.can_read T.reads T.takes_memory dtype.now value result }
    {
        reading::read_precision(self.find(stat), *dtype)
    }

    // The statistic's value by reference, and Absent where there is no entry.
    pub(crate) fn find(&self, stat: Stat) -> Precision<&ScalarValue>
        ensures { precision_map (λ v. v.now) result ≡ entry_value stat self.now }
    {
        match &self.slots[stat.number() as usize] {
            Some(entry) => entry.1.as_ref(),
            None => Precision::Absent,
        }
    }

    // The allocator.
    pub(crate) fn allocator(&self) -> Global {
        *self.order.allocator()
    }

    /// The entries in order.
    pub fn iter(&self) -> StatsSetIter<'_>
        ensures entries { result ≡ self.now }
        ensures distinct { AreDistinct self.now }
        ensures few { length self.now ≤ 9 }
    {
        StatsSetIter {
            slots: &self.slots,
            order: self.order.as_slice(),
        }
    }

    /// Sets each item in order.
    pub fn try_extend<I: Iterator<Item = (Stat, Precision<ScalarValue>)> + Drop>(
        &mut self,
        items: I,
    ) -> Result<(), StatsError>
        requires can { I.can_next items }
        requires ends { IsFinite (I.remaining items) }
        ensures all { SetsAll I.next_gives items self.old self.new }
        ensures answered { IsOk result }
    {
        for item in items {
            self.put(item.0, item.1);
        }
        Ok(())
    }

    /// The set that setting each item in order makes.
    pub fn try_from_iter<I: Iterator<Item = (Stat, Precision<ScalarValue>)> + Drop>(
        alloc: Global,
        items: I,
    ) -> Result<Self, MergeRefused>
        requires can { I.can_next items }
        requires ends { IsFinite (I.remaining items) }
        ensures { IsOkAnd result (λ set. SetsAll I.next_gives items [] set) }
    {
        let mut set = StatsSet::new(alloc);
        for item in items {
            set.put(item.0, item.1);
        }
        Ok(set)
    }

    /// An equal set, with the same allocator. The texts and bytes among its values alone take
    /// memory.
    pub fn try_clone(&self) -> Result<Self, StatsError>
        ensures value { IfOk result (λ set. set ≡ self.now) }
        ensures refused { OnErr result (IsTrue (set_copies self.now)) }
        ensures memory { IfErr result (λ error. error ≡ Memory alloc_error) }
    {
        let mut set = StatsSet::new(self.allocator());
        for entry in self.iter() {
            set.put(entry.0, precision::copied(entry.1.as_ref())?);
        }
        Ok(set)
    }

    /// Whether the value, if present, is one of the statistic's type in a column of this type.
    pub fn value_fits(stat: Stat, dtype: &DType, value: &Precision<ScalarValue>) -> bool
        ensures { result ≡ value_fits stat dtype.now value.now }
    {
        match value {
            Precision::Exact(v) | Precision::Inexact(v) => is_value_of(v, stat.dtype(dtype)),
            Precision::Absent => true,
        }
    }

    /// Whether each value that is present is one of its statistic's type in a column of this type.
    pub fn fits(&self, dtype: &DType) -> bool
        ensures { result ≡ entries_fit self.now dtype.now }
    {
        self.iter()
            .all(|entry| StatsSet::value_fits(entry.0, dtype, &entry.1))
    }
}

/// A set that is handed back beside the cause of a refusal.
#[derive(Debug, Drop)]
pub struct MergeRefused {
    /// Why the call was refused.
    pub error: StatsError,
    /// The set as the call left it.
    pub set: StatsSet,
}

// Whether there is a type and the value is one of it.
fn is_value_of(value: &ScalarValue, expected: Option<DType>) -> bool
    ensures { result ≡ value_is_of expected value.now }
{
    match expected {
        Some(dtype) => value.fits(&dtype),
        None => false,
    }
}

// Whether both are the same statistic.
fn is_same(a: Stat, b: Stat) -> bool
    ensures { result ≡ stat_eq a b }
{
    a.number() == b.number()
}

// Whether the statistic is one of the list.
fn is_among(stats: &[Stat], stat: Stat) -> bool
    ensures { result ≡ list_any (stat_eq stat) stats.now }
{
    stats.iter().any(|listed| is_same(stat, *listed))
}

// The statistic's entry, whose slot is empty from here on.
fn taken(slots: &mut [Option<Entry>], stat: Stat) -> Entry
    requires nine { length slots.old ≡ 9 }
    requires filed { IsFiled (slot_of slots.old stat) stat }
    ensures taken { slot_of slots.old stat ≡ Some result }
    ensures emptied { slots.new ≡ slice_set slots.old (stat_number stat) None }
{
    match slots[stat.number() as usize].take() {
        Some(entry) => entry,
        None => unreachable!(),
    }
}

/// The entries of a set that are left, in order.
#[derive(Drop)]
pub struct StatsSetIter<'a> {
    slots: &'a [Option<Entry>],
    order: &'a [Stat],
}

impl<'a> Model for StatsSetIter<'a> {
    ghost use Rattle.std.specs.Prelude.{List};
    ghost use Rattle.vortex_base.specs.declared.scalar_value.ScalarValue.{ScalarValue};
    ghost use Rattle.vortex_stats.specs.declared.stat.Stat.{Stat};
    ghost use Rattle.vortex_stats.specs.declared.precision.Precision.{Precision};
    ghost use Rattle.vortex_stats.specs.Sets.Slots.{slot_entries, AreLeft};

    ghost Value = { List (Stat × Precision ScalarValue) };

    ghost view = { λ s. slot_entries s.slots.now s.order.now };

    ghost invariant = { λ s. AreLeft s.slots.now s.order.now };
}

impl<'a> Iterator for StatsSetIter<'a> {
    type Item = &'a (Stat, Precision<ScalarValue>);

    ghost next_gives = { YieldsFirstRef (λ s. s) };

    ghost remaining = { item_count (λ s. s) };

    fn next(&mut self) -> Option<&'a (Stat, Precision<ScalarValue>)> {
        let (first, others) = self.order.split_first()?;
        let slots = self.slots;
        let place = first.number() as usize;
        self.order = others;
        slots[place].as_ref()
    }
}

/// The entries of a set that are left, by value and in order.
#[derive(Drop)]
pub struct StatsSetIntoIter {
    slots: [Option<Entry>; 9],
    order: smallvec::IntoIter<Stat, 9>,
}

impl Model for StatsSetIntoIter {
    ghost use Rattle.std.specs.Prelude.{List};
    ghost use Rattle.vortex_base.specs.declared.scalar_value.ScalarValue.{ScalarValue};
    ghost use Rattle.vortex_stats.specs.declared.stat.Stat.{Stat};
    ghost use Rattle.vortex_stats.specs.declared.precision.Precision.{Precision};
    ghost use Rattle.vortex_stats.specs.Sets.Slots.{slot_entries, AreLeft};

    ghost Value = { List (Stat × Precision ScalarValue) };

    ghost view = { λ s. slot_entries s.slots s.order };

    ghost invariant = { λ s. AreLeft s.slots s.order };
}

impl Iterator for StatsSetIntoIter {
    type Item = (Stat, Precision<ScalarValue>);

    ghost next_gives = { YieldsFirst (λ s. s) };

    ghost remaining = { item_count (λ s. s) };

    fn next(&mut self) -> Option<(Stat, Precision<ScalarValue>)> {
        let first = self.order.next()?;
        Some(taken(&mut self.slots, first))
    }
}

impl IntoIterator for StatsSet {
    type Item = (Stat, Precision<ScalarValue>);

    type IntoIter = StatsSetIntoIter;

    ghost into_iter_gives = { λ s it. it ≡ s };

    fn into_iter(self) -> StatsSetIntoIter {
        StatsSetIntoIter {
            slots: self.slots,
            order: self.order.into_iter(),
        }
    }
}
