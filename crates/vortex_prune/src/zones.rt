//! Parts of one scope, with the map of their statistics.
ghost use Rattle.std.specs.Prelude.{◌≡◌, IfErr, IfOk, alloc_error, map};
ghost use Rattle.vortex_prune.specs.Part.{AreParts};
ghost use Rattle.vortex_prune.specs.Zones as spec;
ghost use Rattle.vortex_prune.specs.Zones.{HaveScope, zones_of};
ghost use Rattle.vortex_zone_map.specs.ZoneMaps.{IsMapOf, zone_map, zone_table};
ghost use Rattle.vortex_stats.specs.declared.error.StatsError.TheVariants.{Memory};

use crate::part::Part;
use std::alloc::{AllocError, Global};
use std::marker::Model;
use vortex_base::chunk::Chunk;
use vortex_base::scope::Scope;
use vortex_stats::error::StatsError;
use vortex_zone_map::zone::Zone;
use vortex_zone_map::zone_map::{ZoneMap, ZoneMapRefused, map_of};

// The parts as they are known without their rows.
fn zones_of<'a>(alloc: Global, parts: &'a [Part]) -> Result<Vec<Zone<'a>>, AllocError>
    ensures zones { IfOk result (λ zones. zones.items ≡ zones_of parts.now) }
    ensures parts { IfOk result (λ _. AreParts parts.now) }
{
    let mut zones = Vec::with_capacity(alloc, parts.len())?;
    for place in 0..parts.len() {
        zones.push(parts[place].zone())?;
    }
    Ok(zones)
}

// Their map.
fn map_of_parts(alloc: Global, scope: Scope, parts: &[Part]) -> Result<ZoneMap, ZoneMapRefused>
    requires { HaveScope scope parts.now }
    ensures made { IfOk result (λ made. made ≡ zone_map scope (zones_of parts.now)) }
    ensures parts { IfOk result (λ _. AreParts parts.now) }
    ensures error { IfErr result (λ refused. refused.error ≡ Memory alloc_error) }
    ensures scope_back { IfErr result (λ refused. refused.scope ≡ scope) }
{
    match zones_of(alloc, parts) {
        Ok(zones) => map_of(alloc, scope, &zones),
        Err(refused) => {
            let error = StatsError::Memory(refused);
            Err(ZoneMapRefused { error, scope })
        }
    }
}

/// Parts of one scope with the map of their statistics.
#[derive(Debug, Drop)]
pub struct Zones {
    map: ZoneMap,
    parts: Vec<Part>,
}

impl Model for Zones {
    ghost use Rattle.vortex_prune.specs.Zones.{ZonesData, AreZones};

    ghost Value = { ZonesData };

    ghost view = { λ z. record { scope = z.map.scope; parts = z.parts.items } };

    ghost invariant = { λ z.
        let zones : ZonesData = record { scope = z.map.scope; parts = z.parts.items } in
        AreZones zones z.map };
}

/// A scope and parts of which no table was made, handed back beside the cause.
#[derive(Debug, Drop)]
pub struct ZonesRefused {
    /// `Memory`.
    pub error: StatsError,
    /// The scope as it was given.
    pub scope: Scope,
    /// The parts as they were given.
    pub parts: Vec<Part>,
}

impl Zones {
    /// The parts with their map. Each has this scope, as the caller knows. `Memory` alone is
    /// refused, and what was given comes back with the refusal.
    pub fn try_new(alloc: Global, scope: Scope, parts: Vec<Part>) -> Result<Zones, ZonesRefused>
        requires { HaveScope scope parts.items }
        ensures made { let made : spec.ZonesData = record { scope = scope; parts = parts.items } in
            IfOk result (λ zones. zones ≡ made) }
        ensures error { IfErr result (λ refused. refused.error ≡ Memory alloc_error) }
        ensures scope_back { IfErr result (λ refused. refused.scope ≡ scope) }
        ensures parts_back { IfErr result (λ refused. refused.parts ≡ parts) }
    {
        match map_of_parts(alloc, scope, &parts) {
            Ok(map) => Ok(Zones { map, parts }),
            Err(refused) => {
                let ZoneMapRefused { error, scope } = refused;
                Err(ZonesRefused {
                    error,
                    scope,
                    parts,
                })
            }
        }
    }

    /// The scope of the parts.
    pub fn scope(&self) -> &Scope
        ensures { result.now ≡ self.now.scope }
    {
        self.map.scope()
    }

    /// The parts.
    pub fn parts(&self) -> &[Part]
        ensures value { result.now ≡ self.now.parts }
        ensures scoped { HaveScope self.now.scope self.now.parts }
        ensures are_parts { AreParts self.now.parts }
    {
        &self.parts
    }

    /// The parts as they are known without their rows, as a map with one zone a part.
    pub fn map(&self) -> &ZoneMap
        ensures value { result.now ≡ zone_map self.now.scope (zones_of self.now.parts) }
        ensures is_map { IsMapOf (zones_of self.now.parts) result.now }
    {
        &self.map
    }

    /// The table of the map.
    pub fn table(&self) -> &Chunk
        ensures { result.now ≡ zone_table self.now.scope (zones_of self.now.parts) }
    {
        self.map().table()
    }
}
