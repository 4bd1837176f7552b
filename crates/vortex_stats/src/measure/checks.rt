//! Whether what a statistic claims holds of a column that was measured.
ghost use Rattle.std.specs.Prelude.{◌≡◌, option_map};
ghost use Rattle.std.specs.List.{list_all};
ghost use Rattle.vortex_base.specs.declared.scalar_value.ScalarValue.TheVariants as scalar;
ghost use Rattle.vortex_base.specs.Data.ArrayData.{value_of};
ghost use Rattle.vortex_stats.specs.Measuring.Checks as check;
ghost use Rattle.vortex_stats.specs.Measuring.Measures.{AreMeasuresOf};
ghost use Rattle.vortex_stats.specs.Precision.{precision_map};
ghost use Rattle.vortex_stats.specs.Sets.Entries.{AreDistinct};

use crate::measure::measures::{Measures, lent};
use crate::merge::is_exact_truth;
use crate::precision::Precision;
use crate::stat::Stat;
use crate::stats_set::StatsSet;
use vortex_base::column::Column;
use vortex_base::pvalue::PValue;
use vortex_base::scalar_value::ScalarValue;
use vortex_base::value_ref::ValueRef;

fn allows_truth(value: Precision<&ScalarValue>, holds: bool) -> bool
    ensures { result ≡ check.allows_truth (precision_map (λ v. v.now) value.entry) holds }
{
    !value.is_exact() || is_exact_truth(holds, value)
}

fn allows_count(value: Precision<&ScalarValue>, count: u64) -> bool
    ensures { result ≡ check.allows_count (precision_map (λ v. v.now) value.entry) count }
{
    match value {
        Precision::Exact(ScalarValue::Primitive(PValue::U64(n))) => *n == count,
        Precision::Inexact(ScalarValue::Primitive(PValue::U64(n))) => count <= *n,
        Precision::Absent => true,
        _ => false,
    }
}

fn allows_max(value: Precision<&ScalarValue>, max: Option<ValueRef<'_>>) -> bool
    ensures { result ≡ check.allows_max (precision_map (λ v. v.now) value.entry)
        (option_map value_of max.entry) }
{
    match value {
        Precision::Exact(value) => match max {
            Some(max) => value.lend().order(max).is_eq(),
            None => false,
        },
        Precision::Inexact(value) => match max {
            Some(max) => !max.order(value.lend()).is_gt(),
            None => true,
        },
        Precision::Absent => true,
    }
}

fn allows_min(value: Precision<&ScalarValue>, min: Option<ValueRef<'_>>) -> bool
    ensures { result ≡ check.allows_min (precision_map (λ v. v.now) value.entry)
        (option_map value_of min.entry) }
{
    match value {
        Precision::Exact(value) => match min {
            Some(min) => value.lend().order(min).is_eq(),
            None => false,
        },
        Precision::Inexact(value) => match min {
            Some(min) => !value.lend().order(min).is_gt(),
            None => true,
        },
        Precision::Absent => true,
    }
}

fn allows_sum(value: Precision<&ScalarValue>, sum: Option<PValue>) -> bool
    ensures { result ≡ check.allows_sum (precision_map (λ v. v.now) value.entry)
        (option_map scalar.Primitive sum) }
{
    match value {
        Precision::Exact(value) => match sum {
            Some(sum) => value.lend().order(ValueRef::Primitive(sum)).is_eq(),
            None => false,
        },
        Precision::Inexact(_) | Precision::Absent => true,
    }
}

impl Measures {
    // Whether a statistic's value, which is of its type, claims what holds of the column.
    pub(super) fn allows(&self, stat: Stat, value: Precision<&ScalarValue>, column: &Column) -> bool
        requires { AreMeasuresOf self.now column.now.dtype column.now.values }
        ensures { result ≡ check.allows stat (precision_map (λ v. v.now) value.entry) column.now }
    {
        match stat {
            Stat::IsConstant => allows_truth(value, self.is_constant),
            Stat::IsSorted => allows_truth(value, self.is_sorted),
            Stat::IsStrictSorted => allows_truth(value, self.is_strict_sorted),
            Stat::Max => allows_max(value, lent(column, self.greatest)),
            Stat::Min => allows_min(value, lent(column, self.least)),
            Stat::Sum => allows_sum(value, self.sum),
            Stat::NullCount => allows_count(value, self.nulls as u64),
            Stat::UncompressedSizeInBytes => allows_count(value, column.size()),
            Stat::NaNCount => true,
        }
    }

    // Whether each entry of a set that fits the column's type claims what holds.
    pub(super) fn allows_each(&self, set: &StatsSet, column: &Column) -> bool
        requires { AreMeasuresOf self.now column.now.dtype column.now.values }
        ensures value { result ≡ list_all (λ e. check.allows e.0 e.1 column.now) set.now }
        ensures distinct { AreDistinct set.now }
    {
        for entry in set.iter() {
            if !self.allows(entry.0, entry.1.as_ref(), column) {
                return false;
            }
        }
        true
    }
}
