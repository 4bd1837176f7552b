//! Row groups as zones.
ghost use Rattle.std.specs.Prelude.{◌≡◌, ◌⊎◌, IfErr, IfOk, false, map};
ghost use Rattle.vortex_predicates.specs.RowGroups.Pruning.{zone_data};
ghost use Rattle.vortex_rewrite.specs.Answers.{IsMemory};
ghost use Rattle.vortex_stats.specs.declared.error.StatsError.TheVariants.{Mismatch};
ghost use Rattle.vortex_zone_map.specs.Zone.{zones_fit};
ghost use Rattle.vortex_zone_map.specs.ZoneMaps.{IsMapOf, zone_map};

use std::alloc::{AllocError, Global};
use vortex_base::scope::Scope;
use vortex_parquet::stats::GroupStats;
use vortex_stats::error::StatsError;
use vortex_zone_map::{Zone, ZoneMap};

fn zone_of(group: &GroupStats) -> Zone<'_>
    ensures { result ≡ zone_data group.now }
{
    Zone::new(group.rows, &group.stats)
}

fn zones_in<'a>(alloc: Global, groups: &'a [GroupStats]) -> Result<Vec<Zone<'a>>, AllocError>
    ensures { IfOk result (λ zones. zones.items ≡ map zone_data groups.now) }
{
    let mut zones = Vec::with_capacity(alloc, groups.len())?;
    for group in groups {
        zones.push(zone_of(group))?;
    }
    Ok(zones)
}

/// Returns the map of row groups, under a scope of the columns whose statistics they have.
///
/// `Mismatch` if there is another number of columns, or a value is none of its column's type.
pub fn map_of(alloc: Global, scope: Scope, groups: &[GroupStats]) -> Result<ZoneMap, StatsError>
    ensures made { IfOk result (λ made. made ≡ zone_map scope (map zone_data groups.now)) }
    ensures is_map { IfOk result (IsMapOf (map zone_data groups.now)) }
    // `Mismatch` is told only where a set fits no column, and else memory alone is refused.
    ensures refused { IfErr result (λ e. IsMemory e
        ⊎ ((zones_fit scope (map zone_data groups.now) ≡ false) × (e ≡ Mismatch))) }
{
    let zones = zones_in(alloc, groups)?;
    match ZoneMap::try_new(alloc, scope, &zones) {
        Ok(map) => Ok(map),
        Err(refused) => Err(refused.error),
    }
}
