//! The first value of a table's statistics that can't be read.
ghost use Rattle.std.specs.Prelude.{◌≡◌, ◌≢◌, ℕ, Err, IfErr, List, Ok, OnOk, Some, length, slice_get};
ghost use Rattle.vortex_base.specs.Data.Scopes.{Named};
ghost use Rattle.vortex_capi.specs.MapCells.{AllRead, IsRead};
ghost use Rattle.vortex_capi.specs.Tables.{zone_sets, zones_given};
ghost use Rattle.vortex_capi.specs.declared.status.Status.TheVariants.{NoMemory};
ghost use Rattle.vortex_capi.specs.declared.table.Source.{Source};
ghost use Rattle.vortex_zone_map.specs.Zone.{Entries};

use crate::fault::Refusal;
use crate::table::{Source, source_there};
use std::alloc::Global;

// Refuses the first statistic whose value in a zone can't be read.
fn check_zone(alloc: Global, sources: &[Source<'_>], zone: usize) -> Result<(), Refusal>
    ensures read { OnOk result ((i : ℕ) (x : Source) → slice_get sources.now i ≡ Some x
        → IsRead x zone) }
    ensures found { OnOk result ((scope : List Named)
        → (sets : List Entries) × (zone_sets scope sources.now zone ≡ Ok sets)) }
    ensures refused { IfErr result (λ r. r.status ≢ NoMemory
        → (scope : List Named) → zone_sets scope sources.now zone ≡ Err r) }
{
    for entry in 0..sources.len() {
        let source = source_there(sources, entry);
        match source.value(alloc, zone) {
            Ok(_value) => {}
            Err(status) => {
                let column = source.statistic.column;
                return Err(Refusal::in_column(status, zone, column, entry));
            }
        }
    }
    Ok(())
}

/// Refuses the first value that can't be read, zone by zone and in each by the order of the
/// statistics.
pub(crate) fn check_values(
    alloc: Global,
    sources: &[Source<'_>],
    rows: &[u64],
) -> Result<(), Refusal>
    ensures read { OnOk result (AllRead sources.now (length rows.now)) }
    ensures refused { IfErr result (λ r. r.status ≢ NoMemory
        → (scope : List Named) → zones_given scope sources.now rows.now ≡ Err r) }
{
    for zone in 0..rows.len() {
        match check_zone(alloc, sources, zone) {
            Ok(()) => {}
            Err(refusal) => return Err(refusal),
        }
    }
    Ok(())
}
