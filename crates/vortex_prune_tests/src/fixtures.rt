//! Logs of zones, whose contracts tell what the calls ask for.
ghost use Rattle.std.specs.Prelude.{◌≡◌, ◌++◌, ◌∷◌, [], IfOk, OnOk};
ghost use Rattle.vortex_base.specs.Data.Scopes.{named_columns};
ghost use Rattle.vortex_zone_map.specs.Zone.{AreZonesOf};
ghost use Rattle.vortex_zone_map.specs.Logs.{empty_sets};
ghost use Rattle.vortex_prune_tests.specs.Zones as spec;

use std::alloc::{AllocError, Global};
use vortex_base::{Bytes, DType, Nullability, PType, PValue, ScalarValue, Scope, ValueRef};
use vortex_stats::{Precision, Stat};
use vortex_zone_map::{ZoneMap, ZoneMapBuilder};

// The columns of the zones: numbers and bytes.
fn columns(alloc: Global) -> Result<Vec<(String, DType)>, AllocError>
    ensures { IfOk result (λ columns. named_columns columns.items ≡ spec.columns) }
{
    let mut columns = Vec::new(alloc);
    let numbers = DType::Primitive(PType::I64, Nullability::Nullable);
    columns.push((String::from_str(alloc, "a")?, numbers))?;
    columns.push((
        String::from_str(alloc, "b")?,
        DType::Binary(Nullability::Nullable),
    ))?;
    Ok(columns)
}

fn exact(number: PValue) -> Precision<ScalarValue>
    ensures { result ≡ Precision.Exact (ScalarValue.Primitive number) }
{
    Precision::Exact(ScalarValue::Primitive(number))
}

// Bytes as a bound of bytes.
fn at_most(alloc: Global, last: &[u8]) -> Result<Precision<ScalarValue>, AllocError>
    ensures { IfOk result (λ v. v ≡ Precision.Inexact (ScalarValue.Binary last.now)) }
{
    let bytes = Bytes::new(Vec::from_slice(alloc, last)?);
    Ok(Precision::Inexact(ScalarValue::Binary(bytes)))
}

// Tells bounds of the numbers, the nulls of the bytes and which bytes none are above, and ends the
// zone. The greatest number is told twice.
fn tell_zone(
    alloc: Global,
    log: &mut ZoneMapBuilder,
    numbers: (i64, i64),
    nulls: u64,
    last: &[u8],
    rows: u64,
) -> Result<(), AllocError>
    requires { log.old.current ≡ empty_sets 2 }
    ensures zones { OnOk result (log.new.zones
        ≡ log.old.zones ++ spec.zone numbers.0 numbers.1 nulls last.now rows ∷ []) }
    ensures current { OnOk result (log.new.current ≡ empty_sets 2) }
{
    let (low, high) = numbers;
    log.put(0, Stat::Max, exact(PValue::I64(low)))?;
    log.put(0, Stat::Min, exact(PValue::I64(low)))?;
    log.put(0, Stat::Max, exact(PValue::I64(high)))?;
    log.put(1, Stat::NullCount, exact(PValue::U64(nulls)))?;
    log.put(1, Stat::Max, at_most(alloc, last)?)?;
    log.end_zone(rows)?;
    Ok(())
}

/// Three zones.
pub fn three_zones(alloc: Global) -> Result<ZoneMapBuilder, AllocError>
    ensures zones { IfOk result (λ log. log.zones ≡ spec.three) }
    ensures fit { IfOk result (λ log. AreZonesOf spec.columns log.zones) }
{
    let mut log = ZoneMapBuilder::new(alloc, 2);
    tell_zone(alloc, &mut log, (2, 7), 0, b"pear", 3)?;
    tell_zone(alloc, &mut log, (8, 9), 1, b"quince", 4)?;
    tell_zone(alloc, &mut log, (-5, 1), 5, b"fig", 5)?;
    Ok(log)
}

/// Joins the first two of them.
pub fn join_first(alloc: Global, log: &mut ZoneMapBuilder) -> Result<(), AllocError>
    requires { log.old.zones ≡ spec.three }
    ensures zones { OnOk result (log.new.zones ≡ spec.two) }
    ensures fit { OnOk result (AreZonesOf spec.columns log.new.zones) }
{
    let columns = columns(alloc)?;
    log.join_at(alloc, 0, &columns)?;
    Ok(())
}

/// The map of all zones.
pub fn map_of(alloc: Global, log: &ZoneMapBuilder) -> Result<ZoneMap, AllocError>
    requires { AreZonesOf spec.columns log.now.zones }
{
    let scope = Scope::new_unchecked(columns(alloc)?);
    log.map(alloc, scope, 0, log.len())
}

/// The map of the last two of the three zones.
pub fn map_of_last_two(alloc: Global, log: &ZoneMapBuilder) -> Result<ZoneMap, AllocError>
    requires { log.now.zones ≡ spec.three }
{
    let scope = Scope::new_unchecked(columns(alloc)?);
    log.map(alloc, scope, 1, 2)
}

/// The value that a map tells of a zone in a column of its table.
pub fn told(map: &ZoneMap, head: usize, zone: usize) -> Option<ValueRef<'_>> {
    let table = map.table();
    if head >= table.scope().len() {
        return None;
    }
    let column = table.column(head);
    if zone >= column.len() {
        return None;
    }
    column.get(zone)
}
