//! Views of a set under the type of its column, which its values fit.
ghost use Rattle.std.specs.Prelude.{◌≡◌, IfOk, IfErr, OnErr, IsOk, IsTrue, Some, alloc_error};
ghost use Rattle.vortex_stats.specs.declared.error.StatsError.TheVariants.{Memory};
ghost use Rattle.vortex_stats.specs.Merging.Merges.{merged_ordered, merged_unordered};
ghost use Rattle.vortex_stats.specs.Merging.Combined.{combined, Combines};
ghost use Rattle.vortex_base.specs.Data.Scalars.{is_long};
ghost use Rattle.vortex_stats.specs.Copies.{is_copied, merge_copies, combination_copies};
ghost use Rattle.vortex_stats.specs.StatsError.{OnMemory};
ghost use Rattle.std.specs.Borrow.{sem};
ghost use Rattle.vortex_base.specs.Data.Values.{is_value};
ghost use Rattle.vortex_stats.specs.Precision.{precision_map, IfPresent};
ghost use Rattle.vortex_stats.specs.Scalars.{scalar_of};
ghost use Rattle.vortex_stats.specs.Sets.Reading.{IsReadFrom};
ghost use Rattle.vortex_stats.specs.Sets.Entries.{entry_value, entries_fit, value_fits, AreDistinct};
ghost use Rattle.vortex_stats.specs.Sets.TypedStats.{typed_value, with_value, without_value, with_values, AreFitting};

use crate::error::StatsError;
use crate::precision::{Precision, copy_of};
use crate::provider::StatsProvider;
use crate::reading;
use crate::stat::Stat;
use crate::stats_set::StatsSet;
use std::alloc::AllocError;
use std::marker::Model;
use vortex_base::dtype::DType;
use vortex_base::from_scalar::FromScalar;
use vortex_base::scalar::Scalar;
use vortex_base::scalar_value::ScalarValue;

/// A set whose values fit the type of their column.
#[derive(Drop)]
pub struct TypedStatsSetRef<'a> {
    values: &'a StatsSet,
    dtype: DType,
}

impl<'a> Model for TypedStatsSetRef<'a> {
    ghost use Rattle.vortex_stats.specs.Sets.TypedStats.{TypedStats, AreFitting};

    ghost Value = { TypedStats };

    ghost view = { λ v. record { values = v.values.now; dtype = v.dtype } };

    ghost invariant = { λ v. AreFitting (record { values = v.values.now; dtype = v.dtype }) };
}

impl StatsSet {
    /// A view of the set under the type of its column, which the set fits, as `fits` tells.
    pub fn as_typed_ref(&self, dtype: &DType) -> TypedStatsSetRef<'_>
        requires { IsTrue (entries_fit self.now dtype.now) }
        ensures { result ≡ record { values = self.now; dtype = dtype.now } }
    {
        TypedStatsSetRef {
            values: self,
            dtype: *dtype,
        }
    }
}

impl<'a> TypedStatsSetRef<'a> {
    /// The set.
    pub fn values(&self) -> &StatsSet
        ensures values { result.now ≡ self.now.values }
        ensures fits { AreFitting self.now }
    {
        self.values
    }

    /// The type of the column.
    pub fn dtype(&self) -> &DType
        ensures dtype { result.now ≡ self.now.dtype }
        ensures fits { AreFitting self.now }
    {
        &self.dtype
    }

    /// The statistic's value, read under the statistic's type, and Absent where there is no entry.
    /// `Mismatch` if the value is no `T`; `Memory` if the copy of a text or bytes is
    /// refused, or `T`'s reading is.
    pub fn get_as<T: FromScalar>(&self, stat: Stat) -> Result<Precision<T>, StatsError>
        ensures { IsReadFrom T.can_read T.reads T.takes_memory stat self.now result }
    {
        match stat.dtype(&self.dtype) {
            Some(expected) => reading::read_precision(self.values.find(stat), expected),
            None => Ok(Precision::Absent),
        }
    }
}

impl<'a> StatsProvider for TypedStatsSetRef<'a> {
    ghost typed = { λ v. v };

    fn get(&self, stat: Stat) -> Result<Precision<Scalar>, AllocError> {
        get_typed(self.values, &self.dtype, stat)
    }

    fn len(&self) -> usize {
        self.values.len()
    }
}

// The statistic's value under the statistic's type in a column of this type.
fn get_typed(values: &StatsSet, dtype: &DType, stat: Stat) -> Result<Precision<Scalar>, AllocError>
    requires { IsTrue (entries_fit values.now dtype.now) }
    ensures value { IfOk result (λ p. p ≡ typed_value stat
        (record { values = values.now; dtype = dtype.now })) }
    ensures refused { OnErr result (IsTrue (is_copied (entry_value stat values.now))) }
{
    match stat.dtype(dtype) {
        Some(expected) => scalar_of_found(values.find(stat), expected),
        None => Ok(Precision::Absent),
    }
}

// The precision of the value, around the scalar of a clone.
fn scalar_of_found(
    value: Precision<&ScalarValue>,
    dtype: DType,
) -> Result<Precision<Scalar>, AllocError>
    requires { IfPresent value (λ v. IsTrue (is_value v.now dtype)) }
    ensures value { IfOk result (λ p. p ≡ precision_map (λ v. scalar_of v.now dtype) value.entry) }
    ensures refused { OnErr result (IsTrue (is_copied (precision_map (λ v. v.now) value.entry))) }
{
    match value {
        Precision::Exact(v) => Ok(Precision::Exact(scalar_of_clone(v, dtype)?)),
        Precision::Inexact(v) => Ok(Precision::Inexact(scalar_of_clone(v, dtype)?)),
        Precision::Absent => Ok(Precision::Absent),
    }
}

fn scalar_of_clone(value: &ScalarValue, dtype: DType) -> Result<Scalar, AllocError>
    requires { IsTrue (is_value value.now dtype) }
    ensures value { IfOk result (λ s. s ≡ scalar_of value.now dtype) }
    ensures refused { OnErr result (IsTrue (is_long (Some value.now))) }
{
    match Scalar::try_new(dtype, Some(copy_of(value)?)) {
        Ok(scalar) => Ok(scalar),
        Err(_) => unreachable!(),
    }
}

/// A set whose values fit the type of their column, and can be written.
#[derive(Drop)]
pub struct MutTypedStatsSetRef<'a> {
    values: &'a mut StatsSet,
    dtype: DType,
    ghost fitting: { IsTrue (entries_fit values.now dtype) },
}

impl StatsSet {
    ghost use Rattle.vortex_stats.specs.Sets.MutTypedStats.{typed_stats};

    /// A view of the set under the type of its column, which the set fits, as `fits` tells, and
    /// keeps fitting at each write.
    pub fn as_mut_typed_ref(&mut self, dtype: &DType) -> MutTypedStatsSetRef<'_>
        requires { IsTrue (entries_fit self.old dtype.now) }
        ensures typed { typed_stats result ≡ record { values = self.old; dtype = dtype.now } }
        ensures same_set { result.values.ghost_name ≡ self.entry.ghost_name }
    {
        MutTypedStatsSetRef {
            values: self,
            dtype: *dtype,
        }
    }
}

#[tactic(auto, using(crate::proofs::Sets::Fitting::fitting))]
impl<'a> MutTypedStatsSetRef<'a> {
    ghost use Rattle.vortex_stats.specs.Sets.MutTypedStats.{typed_stats};

    /// The set.
    pub fn values(&self) -> &StatsSet
        ensures values { result.now ≡ (typed_stats self.now).values }
        ensures fits { AreFitting (typed_stats self.now) }
    {
        self.values
    }

    /// The type of the column.
    pub fn dtype(&self) -> &DType
        ensures dtype { result.now ≡ (typed_stats self.now).dtype }
        ensures fits { AreFitting (typed_stats self.now) }
    {
        &self.dtype
    }

    /// Sets the statistic's value, which fits, as `StatsSet::value_fits` tells: a present one keeps
    /// its place, a new one goes last.
    pub fn set(&mut self, stat: Stat, value: Precision<ScalarValue>) -> Result<(), StatsError>
        requires { IsTrue (value_fits stat (typed_stats self.old).dtype value) }
        ensures set { typed_stats self.new ≡ with_value stat value (typed_stats self.old) }
        ensures answered { IsOk result }
        ensures same_set { self.new.values.ghost_name ≡ self.old.values.ghost_name }
    {
        self.values.set(stat, value)
    }

    /// Removes the statistic's entry, if there is one. The others keep their order.
    pub fn clear(&mut self, stat: Stat)
        ensures cleared { typed_stats self.new ≡ without_value stat (typed_stats self.old) }
        ensures same_set { self.new.values.ghost_name ≡ self.old.values.ghost_name }
    {
        self.values.clear(stat);
    }

    /// The statistic's value, read under the statistic's type, and Absent where there is no entry.
    /// `Mismatch` if the value is no `T`; `Memory` if the copy of a text or bytes is
    /// refused, or `T`'s reading is.
    pub fn get_as<T: FromScalar>(&self, stat: Stat) -> Result<Precision<T>, StatsError>
        ensures { IsReadFrom T.can_read T.reads T.takes_memory stat (typed_stats self.now) result }
    {
        match stat.dtype(&self.dtype) {
            Some(expected) => reading::read_precision(self.values.find(stat), expected),
            None => Ok(Precision::Absent),
        }
    }
}

#[tactic(auto, using(crate::proofs::Sets::Fitting::fitting))]
impl<'a> MutTypedStatsSetRef<'a> {
    ghost use Rattle.vortex_stats.specs.Sets.MutTypedStats.{typed_stats, rests_if_refused};

    /// The statistics of the array of this set followed by the array of the other, which is viewed
    /// under the same type. `Memory` if a copy of a text or bytes is refused, and then the set that
    /// was borrowed is as it was.
    pub fn merge_ordered(self, other: &TypedStatsSetRef<'_>) -> Result<Self, StatsError>
        requires { other.now.dtype ≡ (typed_stats self).dtype }
        ensures merged { let left = typed_stats self.entry in
            IfOk result (λ view. typed_stats view
            ≡ with_values (merged_ordered left.values other.now.values) left) }
        ensures same_set { let name = self.entry.values.ghost_name in
            IfOk result (λ view. view.values.ghost_name ≡ name) }
        ensures* unchanged { sem 𝓛 (rests_if_refused self.entry result) }
        ensures memory { IfErr result (λ e. e ≡ Memory alloc_error) }
        ensures copies { let left = (typed_stats self.entry).values in
            OnErr result (IsTrue (merge_copies left other.now.values)) }
    {
        let MutTypedStatsSetRef { values, dtype } = self;
        values.append(other.values(), &dtype)?;
        Ok(MutTypedStatsSetRef { values, dtype })
    }

    /// The statistics of any arrangement of the rows of both arrays; the other set is viewed under
    /// the same type. `Memory` if a copy of a text or bytes is refused, and then the set that was
    /// borrowed is as it was.
    pub fn merge_unordered(self, other: &TypedStatsSetRef<'_>) -> Result<Self, StatsError>
        requires { other.now.dtype ≡ (typed_stats self).dtype }
        ensures merged { let left = typed_stats self.entry in
            IfOk result (λ view. typed_stats view
            ≡ with_values (merged_unordered left.values other.now.values) left) }
        ensures same_set { let name = self.entry.values.ghost_name in
            IfOk result (λ view. view.values.ghost_name ≡ name) }
        ensures* unchanged { sem 𝓛 (rests_if_refused self.entry result) }
        ensures memory { IfErr result (λ e. e ≡ Memory alloc_error) }
        ensures copies { let left = (typed_stats self.entry).values in
            OnErr result (IsTrue (merge_copies left other.now.values)) }
    {
        let MutTypedStatsSetRef { values, dtype } = self;
        values.mix(other.values(), &dtype)?;
        Ok(MutTypedStatsSetRef { values, dtype })
    }

    /// Combines what another set, viewed under the same type, tells of the same array. `Conflict`
    /// if two values of a statistic contradict each other, and then the other set's earlier entries
    /// stay combined; `Memory` if a copy of a text or bytes is refused, and then the set stays as
    /// it was.
    pub fn combine_sets(&mut self, other: &TypedStatsSetRef<'_>) -> Result<(), StatsError>
        requires { other.now.dtype ≡ (typed_stats self.old).dtype }
        ensures combined { let old = (typed_stats self.old).values in
            Combines (combined old other.now.values) old (typed_stats self.new).values result }
        ensures copies { let old = (typed_stats self.old).values in
            OnMemory result (IsTrue (combination_copies old other.now.values)) }
        ensures distinct { AreDistinct other.now.values }
        ensures same_type { (typed_stats self.new).dtype ≡ (typed_stats self.old).dtype }
        ensures same_set { self.new.values.ghost_name ≡ self.old.values.ghost_name }
    {
        self.values.combine_sets(other.values(), &self.dtype)
    }
}

impl<'a> StatsProvider for MutTypedStatsSetRef<'a> {
    ghost use Rattle.vortex_stats.specs.Sets.MutTypedStats.{typed_stats};

    ghost typed = { typed_stats };

    fn get(&self, stat: Stat) -> Result<Precision<Scalar>, AllocError> {
        get_typed(self.values, &self.dtype, stat)
    }

    fn len(&self) -> usize {
        self.values.len()
    }
}
