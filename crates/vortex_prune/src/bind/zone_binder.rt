//! The binder over the rows of the table of a map of zones.
ghost use Rattle.std.specs.Prelude.{◌≡◌, ℕ, IsTrue, Some, slice_get};
ghost use Rattle.vortex_base.specs.Data.Columns.{row_of};
ghost use Rattle.vortex_prune.specs.Binding.Binders.{IsHonestOver};
ghost use Rattle.std.specs.Prelude.{List};
ghost use Rattle.vortex_prune.specs.Part.{IsPartOf, IsTruePart, PartData};
ghost use Rattle.vortex_zone_map.specs.Zone.{ZoneData};
ghost use Rattle.vortex_zone_map.specs.ZoneMaps.{IsMapOf};

use crate::bind::stat_binder::StatBinder;
use std::alloc::Global;
use std::marker::Model;
use vortex_base::aggregate::AggregateFnRef;
use vortex_base::dtype::DType;
use vortex_expr::bound;
use vortex_expr::bound_expression::BoundExpression;
use vortex_expr::bound_expression::parts::Parts;
use vortex_rewrite::hook_fault::HookFault;
use vortex_zone_map::zone_map::ZoneMap;

/// Binds the placeholders of a proof to the columns of the table of a map of zones, so that one
/// bound proof is evaluated on the row of each zone. What it answers is read on the rows of its own
/// table alone: over the row with no columns, on which `scan` evaluates, it isn't faithful. It is
/// for `prune` and `scan_zones`, and for who evaluates on the rows of `ZoneMap::table`.
#[derive(Drop)]
pub struct ZoneBinder<'a> {
    map: &'a ZoneMap,
}

impl<'a> Model for ZoneBinder<'a> {
    ghost use Rattle.vortex_zone_map.specs.ZoneMaps.{MapData};

    ghost Value = { MapData };

    ghost view = { λ b. b.map.now };
}

impl<'a> ZoneBinder<'a> {
    /// The binder of a map. It answers by a reference to a column of the table, where a
    /// `StatsBinder` of a part would answer by a literal.
    pub fn new(map: &'a ZoneMap) -> ZoneBinder<'a>
        ensures map { result ≡ map.now }
        // It is faithful over each row of the table, with each row count.
        ensures faithful { (r n : ℕ) → let row = row_of r map.now.table.columns in
            IsTrue (⟦<ZoneBinder<'a> as StatBinder>⟧.is_faithful_over result row n) }
        // It is honest for whatever rows stand in a zone, if the zone's statistics are true of
        // them, and the zone's row.
        ensures honest { (zones : List ZoneData) (r : ℕ) (zone : ZoneData) (part : PartData)
            → IsMapOf zones map.now → slice_get zones r ≡ Some zone
            → IsPartOf map.now.scope zone part → IsTruePart part
            → let row = row_of r map.now.table.columns in
            IsHonestOver (⟦<ZoneBinder<'a> as StatBinder>⟧.is_faithful_over result)
            (⟦<ZoneBinder<'a> as StatBinder>⟧.value result) row part.chunk }
    {
        let table = map.table();
        // That the table is a chunk.
        let _rows = table.rows();
        ZoneBinder { map }
    }
}

impl<'a> StatBinder for ZoneBinder<'a> {
    ghost use Rattle.std.specs.Prelude.{false, refl};
    ghost use Rattle.vortex_prune.specs.Binding.PartBinder.{IsNullOf};
    ghost use Rattle.vortex_prune.specs.Binding.ZoneFaithful.{zone_is_faithful};
    ghost use Rattle.vortex_prune.specs.Zones.{is_zone_row, zone_answer, zone_values};

    ghost answer = { λ z. zone_answer z.scope };

    ghost is_missing = { λ z. IsNullOf };

    ghost allows_null = { λ z t. refl };

    ghost can_fault = { λ z k. false };

    ghost value = { λ z row n. zone_values z.scope row };

    ghost is_faithful_over = { λ z row n. is_zone_row z.scope row };

    ghost is_faithful = { λ z row n h. zone_is_faithful z.scope row n h };

    fn bind_aggregate(
        &self,
        alloc: Global,
        input: &BoundExpression,
        aggregate: &AggregateFnRef,
        _stat_dtype: &DType,
    ) -> Result<Option<BoundExpression>, HookFault> {
        match input.parts() {
            Parts::Column(place, dtype) => match self.map.place_of(place, *aggregate, dtype) {
                None => Ok(None),
                Some((at, dtype)) => Ok(Some(bound::col(alloc, at, dtype)?)),
            },
            _ => Ok(None),
        }
    }
}
