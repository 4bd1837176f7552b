//! Statistics of zones as a caller hands them in.
ghost use Rattle.std.specs.Prelude.{◌≡◌, IfOk, IsTrue};
ghost use Rattle.std.specs.Bool.{OnTrue};
ghost use Rattle.vortex_capi.specs.Refusals.{Gives};
ghost use Rattle.vortex_capi.specs.Statistics as spec;
ghost use Rattle.vortex_stats.specs.Sets.Entries.{is_value_of, value_fits};
ghost use Rattle.vortex_stats.specs.Stat.{stat_dtype};

use crate::given::Given;
use crate::measure::stat_of;
use crate::status::Status;
use crate::values::{has_value, value_at};
use std::alloc::Global;
use vortex_base::dtype::DType;
use vortex_base::scalar_value::ScalarValue;
use vortex_stats::precision::Precision;
use vortex_stats::stat::Stat;

/// One statistic of one column in each zone of a table: `vortex_statistic` of the header.
#[repr(C)]
#[derive(Clone, Copy)]
pub struct Statistic<'a> {
    /// The column's place.
    pub column: usize,
    /// The statistic's number.
    pub stat: u8,
    /// Where the first text or bytes begin.
    pub start: u64,
    /// For each zone 0 for an absent value, 1 for an exact and 2 for an inexact one.
    pub known: &'a [u8],
    /// The values, one behind the other.
    pub values: &'a [u8],
    /// Where each text or bytes end.
    pub ends: &'a [u64],
}

/// A statistic with its value.
pub(crate) type Entry = (Stat, Precision<ScalarValue>);

impl Statistic<'_> {
    // Its values.
    fn given(&self) -> Given<'_>
        ensures values { result.values.now ≡ self.now.values.now }
        ensures start { result.start ≡ self.now.start }
        ensures ends { result.ends.now ≡ self.now.ends.now }
    {
        Given {
            values: self.values,
            start: self.start,
            ends: self.ends,
        }
    }

    /// Returns whether the arrays have an element for each zone and no more.
    pub(crate) fn fills(&self, dtype: DType, stat: Stat, zones: usize) -> bool
        ensures { result ≡ spec.fills_zones dtype stat zones self.now }
    {
        match stat.dtype(&dtype) {
            Some(dtype) => self.known.len() == zones && self.given().fill(dtype, zones),
            None => false,
        }
    }

    // The value that stands for a zone, of the statistic's type in a column of this one.
    fn present_value(
        &self,
        alloc: Global,
        dtype: DType,
        stat: Stat,
        zone: usize,
    ) -> Result<ScalarValue, Status>
        ensures read { Gives result (spec.present_value dtype stat self.now.values.now
            self.now.start self.now.ends.now zone) }
        ensures fits { IfOk result (λ value. IsTrue (is_value_of (stat_dtype stat dtype) value)) }
    {
        match stat.dtype(&dtype) {
            Some(dtype) => value_at(alloc, &self.given(), dtype, zone),
            None => Err(Status::BadStat),
        }
    }

    /// Whether a value stands for a zone, of the statistic's type in a column of this one.
    pub(crate) fn has_value(&self, dtype: DType, stat: Stat, zone: usize) -> bool
        ensures { OnTrue result (spec.HasPresent dtype stat (spec.present_value dtype stat
            self.now.values.now self.now.start self.now.ends.now zone)) }
    {
        match stat.dtype(&dtype) {
            Some(dtype) => has_value(&self.given(), dtype, zone),
            None => false,
        }
    }

    /// The value of a statistic in a zone, as the table says it.
    pub(crate) fn value_in(
        &self,
        alloc: Global,
        dtype: DType,
        stat: Stat,
        zone: usize,
    ) -> Result<Precision<ScalarValue>, Status>
        ensures read { Gives result (spec.value_in dtype stat self.now.known.now
            self.now.values.now self.now.start self.now.ends.now zone) }
        ensures fits { IfOk result (λ value. IsTrue (value_fits stat dtype value)) }
    {
        match self.known.get(zone) {
            None => Err(Status::BadLength),
            Some(0) => Ok(Precision::Absent),
            Some(1) => match self.present_value(alloc, dtype, stat, zone) {
                Ok(value) => Ok(Precision::Exact(value)),
                Err(status) => Err(status),
            },
            Some(2) => match self.present_value(alloc, dtype, stat, zone) {
                Ok(value) => Ok(Precision::Inexact(value)),
                Err(status) => Err(status),
            },
            Some(_) => Err(Status::BadKnown),
        }
    }

    /// The statistic and its value in a zone.
    pub(crate) fn entry(&self, alloc: Global, dtype: DType, zone: usize) -> Result<Entry, Status>
        ensures read { Gives result (spec.entry dtype zone self.now) }
        ensures fits { IfOk result (λ entry. IsTrue (value_fits entry.0 dtype entry.1)) }
    {
        let stat = stat_of(dtype, self.stat)?;
        match self.value_in(alloc, dtype, stat, zone) {
            Ok(value) => Ok((stat, value)),
            Err(status) => Err(status),
        }
    }
}
