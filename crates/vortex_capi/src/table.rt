//! Zones as a table of columns.
ghost use Rattle.std.specs.Prelude.{◌≡◌, ◌<◌, All, IfOk, IsTrue, Ok, Some, length, slice_get};
ghost use Rattle.std.specs.Bool.{OnTrue};
ghost use Rattle.vortex_stats.specs.Sets.Entries.{value_fits};
ghost use Rattle.vortex_capi.specs.MapCells.{IsRead};
ghost use Rattle.vortex_capi.specs.Refusals.{Answers, Gives};
ghost use Rattle.vortex_capi.specs.Tables as spec;

use crate::fault::Refusal;
use crate::measure::stat_of;
use crate::statistic::Statistic;
use crate::status::Status;
use std::alloc::Global;
use vortex_base::dtype::DType;
use vortex_base::scalar_value::ScalarValue;
use vortex_base::scope::Scope;
use vortex_stats::precision::Precision;
use vortex_stats::stat::Stat;

/// A statistic of a table beside its column's type.
#[derive(Clone, Copy)]
pub(crate) struct Source<'a> {
    pub(crate) statistic: Statistic<'a>,
    pub(crate) dtype: DType,
    pub(crate) stat: Stat,
}

// The statistic beside its column's type.
fn source_of<'a>(scope: &Scope, statistic: &Statistic<'a>) -> Result<Source<'a>, Status>
    ensures read { result
        ≡ spec.source_of statistic.now (slice_get scope.now statistic.now.column) }
    ensures typed { IfOk result (spec.IsTypedBy scope.now) }
{
    if statistic.column >= scope.len() {
        return Err(Status::BadColumn);
    }
    let dtype = scope.dtype(statistic.column);
    match stat_of(dtype, statistic.stat) {
        Ok(stat) => Ok(Source {
            statistic: *statistic,
            dtype,
            stat,
        }),
        Err(status) => Err(status),
    }
}

// Refuses a statistic whose arrays are of more zones or fewer.
fn filled(source: Source<'_>, zones: usize) -> Result<Source<'_>, Status>
    ensures { result ≡ spec.source_filled zones (Ok source.entry) }
{
    if source.statistic.fills(source.dtype, source.stat, zones) {
        Ok(source)
    } else {
        Err(Status::BadLength)
    }
}

// The statistic at a place of a table.
fn source_at<'a>(
    scope: &Scope,
    zones: usize,
    table: &[Statistic<'a>],
    entry: usize,
) -> Result<Source<'a>, Status>
    ensures read { result ≡ spec.source_or scope.now zones (slice_get table.now entry) }
    ensures typed { IfOk result (spec.IsTypedBy scope.now) }
{
    let Some(statistic) = table.get(entry) else {
        return Err(Status::BadLength);
    };
    match source_of(scope, statistic) {
        Ok(source) => filled(source, zones),
        Err(status) => Err(status),
    }
}

/// The statistics of a table of so many zones, each beside its column's type.
pub(crate) fn sources_given<'a>(
    alloc: Global,
    scope: &Scope,
    zones: usize,
    table: &[Statistic<'a>],
) -> Result<Vec<Source<'a>>, Refusal>
    ensures read { Answers (λ v. v.items) result (spec.sources_given scope.now zones table.now) }
    ensures typed { IfOk result (λ v. All (spec.IsTypedBy scope.now) v.items) }
{
    let mut sources = Vec::with_capacity(alloc, table.len())?;
    for entry in 0..table.len() {
        match source_at(scope, zones, table, entry) {
            Ok(source) => sources.push(source)?,
            Err(status) => return Err(Refusal::at_entry(status, entry)),
        }
    }
    Ok(sources)
}

impl Source<'_> {
    /// The value in a zone, as its array says it.
    pub(crate) fn value(&self, alloc: Global, zone: usize) -> Result<Precision<ScalarValue>, Status>
        ensures read { Gives result (spec.value_of_source self.now zone) }
        ensures fits { IfOk result (λ value.
            IsTrue (value_fits self.now.stat self.now.dtype value)) }
    {
        self.statistic.value_in(alloc, self.dtype, self.stat, zone)
    }

    /// Whether it says anything of a zone, absent or not, without a value made.
    pub(crate) fn is_read(&self, zone: usize) -> bool
        ensures { OnTrue result (IsRead self.now zone) }
    {
        match self.statistic.known.get(zone) {
            None => false,
            Some(0) => true,
            Some(code) => *code <= 2 && self.statistic.has_value(self.dtype, self.stat, zone),
        }
    }
}

/// The statistic at a place.
pub(crate) fn source_there<'b, 'a>(sources: &'b [Source<'a>], entry: usize) -> &'b Source<'a>
    requires { entry < length sources.now }
    ensures { slice_get sources.now entry ≡ Some result.now }
{
    &sources[entry]
}
