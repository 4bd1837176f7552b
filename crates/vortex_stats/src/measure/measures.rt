//! Measures of a pass over the values of a column, and the values of statistics that follow of it.
ghost use Rattle.std.specs.Prelude.{◌≡◌, IfOk, IsTrue, OnErr, OnOk, option_map};
ghost use Rattle.vortex_base.specs.Data.ArrayData.{value_of};
ghost use Rattle.vortex_base.specs.Data.Scalars.{is_long};
ghost use Rattle.vortex_stats.specs.Measuring.Measured.{measured_value};
ghost use Rattle.vortex_stats.specs.Measuring.Measures.{AreMeasuresOf, IsWithin, found};
ghost use Rattle.vortex_stats.specs.Measuring.Told.{with_told};

use crate::precision::Precision;
use crate::stat::Stat;
use crate::stats_set::StatsSet;
use std::alloc::AllocError;
use vortex_base::column::Column;
use vortex_base::pvalue::PValue;
use vortex_base::scalar_value::ScalarValue;
use vortex_base::value_ref::ValueRef;

// Measures of a pass over the values of a column. Of the values only the places are kept.
#[derive(Clone, Copy)]
pub(super) struct Measures {
    /// How many are null.
    pub(super) nulls: usize,
    /// Whether all are equal, a null being equal to nulls alone.
    pub(super) is_constant: bool,
    /// Whether they ascend, nulls left out.
    pub(super) is_sorted: bool,
    /// Whether they ascend strictly, nulls left out.
    pub(super) is_strict_sorted: bool,
    /// Where the greatest stands, if there is a value.
    pub(super) greatest: Option<usize>,
    /// Where the least stands, if there is a value.
    pub(super) least: Option<usize>,
    /// Their sum, if they have one and it stays in its type.
    pub(super) sum: Option<PValue>,
}

// The value of a column at a place, if there is a place.
pub(super) fn lent(column: &Column, place: Option<usize>) -> Option<ValueRef<'_>>
    requires { IsWithin column.now.values place }
    ensures { option_map value_of result ≡ found column.entry.now.values place }
{
    match place {
        Some(i) => column.get(i),
        None => None,
    }
}

// A copy of that value.
fn copied(column: &Column, place: Option<usize>) -> Result<Option<ScalarValue>, AllocError>
    requires { IsWithin column.now.values place }
    ensures value { IfOk result (λ value. value ≡ found column.now.values place) }
    ensures copies { OnErr result (IsTrue (is_long (found column.now.values place))) }
{
    match lent(column, place) {
        Some(value) => Ok(Some(value.to_value()?)),
        None => Ok(None),
    }
}

impl Measures {
    // The value of a statistic of the column, if it has one.
    fn value(&self, stat: Stat, column: &Column) -> Result<Option<ScalarValue>, AllocError>
        requires { AreMeasuresOf self.now column.now.dtype column.now.values }
        ensures value { IfOk result (λ value. value ≡ measured_value stat column.now) }
        ensures copies { OnErr result (IsTrue (is_long (measured_value stat column.now))) }
    {
        match stat {
            Stat::IsConstant => Ok(Some(ScalarValue::Bool(self.is_constant))),
            Stat::IsSorted => Ok(Some(ScalarValue::Bool(self.is_sorted))),
            Stat::IsStrictSorted => Ok(Some(ScalarValue::Bool(self.is_strict_sorted))),
            Stat::Max => copied(column, self.greatest),
            Stat::Min => copied(column, self.least),
            Stat::Sum => Ok(self.sum.map(ScalarValue::Primitive)),
            Stat::NullCount => Ok(Some(ScalarValue::from(self.nulls as u64))),
            Stat::UncompressedSizeInBytes => Ok(Some(ScalarValue::from(column.size()))),
            Stat::NaNCount => Ok(None),
        }
    }

    // Adds the statistic to a set, unless it is there or the column has no value of it.
    pub(super) fn tell(
        &self,
        set: &mut StatsSet,
        stat: Stat,
        column: &Column,
    ) -> Result<(), AllocError>
        requires { AreMeasuresOf self.now column.now.dtype column.now.values }
        ensures told { OnOk result (set.new ≡ with_told column.now stat set.old) }
        ensures copies { OnErr result (IsTrue (is_long (measured_value stat column.now))) }
    {
        if !set.find(stat).is_absent() {
            return Ok(());
        }
        if let Some(value) = self.value(stat, column)? {
            set.put(stat, Precision::Exact(value));
        }
        Ok(())
    }
}
