//! The binders over the statistics of a part and of a zone.
ghost use Rattle.std.specs.Prelude.{◌≡◌, ◌<◌, ℕ, List, IfErr, IfOk, IsTrue, MatchResult};
ghost use Rattle.std.specs.Prelude.{alloc_error, is_ok, length, slice_get};
ghost use Rattle.std.specs.Bool.{OnTrue};
ghost use Rattle.vortex_base.specs.Data.Scalars.{Constant};
ghost use Rattle.vortex_rewrite.specs.declared.hook_fault.HookFault.TheVariants as fault;
ghost use Rattle.vortex_prune.specs.Binding.Binders.{IsHonestOver};
ghost use Rattle.vortex_prune.specs.Binding.PartAnswers.{declares};
ghost use Rattle.vortex_prune.specs.Binding.PartBinder as spec;
ghost use Rattle.vortex_prune.specs.Binding.PartBinder.{told_answer};
ghost use Rattle.vortex_prune.specs.Part.{IsPartOf, IsTruePart, PartData};
ghost use Rattle.vortex_zone_map.specs.Zone.{IsZone, fits_zone};
ghost use Rattle.vortex_base.specs.declared.dtype.DType.{DType};
ghost use Rattle.vortex_stats.specs.declared.error.StatsError.TheVariants.{Mismatch};

use crate::bind::stat_binder::StatBinder;
use crate::part::Part;
use std::alloc::{AllocError, Global};
use std::marker::Model;
use vortex_base::aggregate::AggregateFnRef;
use vortex_base::dtype::DType;
use vortex_base::scope::Scope;
use vortex_expr::bound;
use vortex_expr::bound_expression::BoundExpression;
use vortex_expr::bound_expression::parts::Parts;
use vortex_rewrite::hook_fault::HookFault;
use vortex_stats::error::StatsError;
use vortex_zone_map::stat_fn::scalar_of;
use vortex_zone_map::zone::{Zone, sets_fit};

/// Binds the placeholders of a proof to literals from the statistics of a part.
#[derive(Drop)]
pub struct StatsBinder<'a> {
    part: &'a Part,
}

impl<'a> Model for StatsBinder<'a> {
    ghost use Rattle.vortex_prune.specs.Part.{PartData};

    ghost Value = { PartData };

    ghost view = { λ b. b.part.now };
}

impl<'a> StatsBinder<'a> {
    /// The binder of a part.
    pub fn new(part: &'a Part) -> StatsBinder<'a>
        ensures part { result ≡ part.now }
        // It is faithful over each row of statistics, with each row count.
        ensures faithful { (row : List Constant) (n : ℕ)
            → IsTrue (⟦<StatsBinder<'a> as StatBinder>⟧.is_faithful_over result row n) }
        // It is honest for its part, where the part's statistics are true.
        ensures honest { IsTruePart part.now → (row : List Constant)
            → IsHonestOver (⟦<StatsBinder<'a> as StatBinder>⟧.is_faithful_over result)
            (⟦<StatsBinder<'a> as StatBinder>⟧.value result) row part.now.chunk }
    {
        // That the part is one.
        let _chunk = part.chunk();
        StatsBinder { part }
    }

    /// The binder of each of some parts, in their order. Memory alone is refused.
    pub fn of_parts(alloc: Global, parts: &'a [Part]) -> Result<Vec<StatsBinder<'a>>, AllocError>
        ensures { IfOk result (λ binders. binders.items ≡ parts.entry.now) }
    {
        let mut binders = Vec::with_capacity(alloc, parts.len())?;
        for part in parts {
            binders.push(StatsBinder::new(part))?;
        }
        Ok(binders)
    }
}

// Whether a scope has a column of this place and type, nullability aside.
fn has_column(scope: &Scope, place: usize, dtype: DType) -> bool
    ensures value { result ≡ declares dtype (slice_get scope.now place) }
    ensures within { OnTrue result (place < length scope.now) }
{
    place < scope.len() && scope.dtype(place).eq_ignore_nullability(&dtype)
}

// The literal of what the set of a zone's column tells, or `None` where the aggregate does not
// support the column.
fn column_literal(
    alloc: Global,
    scope: &Scope,
    zone: &Zone<'_>,
    place: usize,
    aggregate: AggregateFnRef,
) -> Result<Option<BoundExpression>, HookFault>
    requires within { place < length scope.now }
    requires fits { IsZone scope.now zone.now }
    ensures { let known = spec.column_literal aggregate (slice_get scope.now place)
        (slice_get zone.now.stats place) in
        MatchResult result (λ o. o ≡ known zone.now.rows) (λ f. f ≡ fault.Memory alloc_error) }
{
    let set = zone.set(place);
    let dtype = scope.dtype(place);
    match scalar_of(aggregate, set, &dtype, zone.rows()) {
        Ok(value) => Ok(Some(bound::lit(alloc, value)?)),
        Err(StatsError::Memory(refused)) => Err(HookFault::Memory(refused)),
        Err(_) => Ok(None),
    }
}

// The answer of a zone's statistics to the placeholder of an aggregate of an input.
fn told_literal(
    alloc: Global,
    scope: &Scope,
    zone: &Zone<'_>,
    input: &BoundExpression,
    aggregate: AggregateFnRef,
) -> Result<Option<BoundExpression>, HookFault>
    requires { IsZone scope.now zone.now }
    ensures { (t : DType)
        → MatchResult result (λ o. o ≡ told_answer scope.now zone.now aggregate input.now t)
        (λ f. f ≡ fault.Memory alloc_error) }
{
    match input.parts() {
        Parts::Column(place, dtype) if has_column(scope, place, dtype) => {
            column_literal(alloc, scope, zone, place, aggregate)
        }
        _ => Ok(None),
    }
}

impl<'a> StatBinder for StatsBinder<'a> {
    ghost use Rattle.std.specs.Prelude.{false, true, refl};
    ghost use Rattle.vortex_prune.specs.Binding.PartAnswers.{part_values};
    ghost use Rattle.vortex_prune.specs.Binding.PartBinder.{IsNullOf, part_answer};
    ghost use Rattle.vortex_prune.specs.Binding.PartFaithful.{part_is_faithful};

    ghost answer = { part_answer };

    ghost is_missing = { λ p. IsNullOf };

    ghost allows_null = { λ p t. refl };

    ghost can_fault = { λ p k. false };

    ghost value = { λ p row n. part_values p };

    ghost is_faithful_over = { λ p row n. true };

    ghost is_faithful = { λ p row n h. part_is_faithful p row n };

    fn bind_aggregate(
        &self,
        alloc: Global,
        input: &BoundExpression,
        aggregate: &AggregateFnRef,
        _stat_dtype: &DType,
    ) -> Result<Option<BoundExpression>, HookFault> {
        told_literal(
            alloc,
            self.part.chunk().scope(),
            &self.part.zone(),
            input,
            *aggregate,
        )
    }
}

/// Binds the placeholders of a proof to literals from the statistics of a zone, without rows.
#[derive(Drop)]
pub struct ZoneStatsBinder<'a> {
    scope: &'a Scope,
    zone: &'a Zone<'a>,
}

impl<'a> Model for ZoneStatsBinder<'a> {
    ghost use Rattle.vortex_zone_map.specs.Zone.{IsZone, ScopedZone};

    ghost Value = { ScopedZone };

    ghost view = { λ b. record { scope = b.scope.now; zone = b.zone.now } };

    ghost invariant = { λ b. IsZone b.scope.now b.zone.now };
}

impl<'a> ZoneStatsBinder<'a> {
    /// The binder of a zone, by the scope of its columns. `Mismatch` unless the zone has one set a
    /// column that fits its column's type. No memory is taken.
    pub fn try_new(scope: &'a Scope, zone: &'a Zone<'a>) -> Result<ZoneStatsBinder<'a>, StatsError>
        ensures made { IfOk result (λ b. b ≡ record { scope = scope.now; zone = zone.now }) }
        ensures fits { is_ok result ≡ fits_zone scope.now zone.now.stats }
        ensures error { IfErr result (λ f. f ≡ Mismatch) }
        // It is faithful over each row of statistics, with each row count.
        ensures faithful { IfOk result (λ b. (row : List Constant) (n : ℕ)
            → IsTrue (⟦<ZoneStatsBinder<'a> as StatBinder>⟧.is_faithful_over b row n)) }
        // It is honest for whatever rows stand in the zone, if the zone's statistics are true of
        // them.
        ensures honest { IfOk result (λ b. (part : PartData)
            → IsPartOf scope.now zone.now part → IsTruePart part → (row : List Constant)
            → IsHonestOver (⟦<ZoneStatsBinder<'a> as StatBinder>⟧.is_faithful_over b)
            (⟦<ZoneStatsBinder<'a> as StatBinder>⟧.value b) row part.chunk) }
    {
        if !sets_fit(scope, zone) {
            return Err(StatsError::Mismatch);
        }
        Ok(ZoneStatsBinder { scope, zone })
    }
}

impl<'a> StatBinder for ZoneStatsBinder<'a> {
    ghost use Rattle.std.specs.Prelude.{false, true, refl};
    ghost use Rattle.vortex_prune.specs.Binding.PartAnswers.{told_values};
    ghost use Rattle.vortex_prune.specs.Binding.PartBinder.{IsNullOf, told_answer};
    ghost use Rattle.vortex_prune.specs.Binding.PartFaithful.{told_is_faithful};

    ghost answer = { λ z. told_answer z.scope z.zone };

    ghost is_missing = { λ z. IsNullOf };

    ghost allows_null = { λ z t. refl };

    ghost can_fault = { λ z k. false };

    ghost value = { λ z row n. told_values z.scope z.zone };

    ghost is_faithful_over = { λ z row n. true };

    ghost is_faithful = { λ z row n h. told_is_faithful z.scope z.zone row n };

    fn bind_aggregate(
        &self,
        alloc: Global,
        input: &BoundExpression,
        aggregate: &AggregateFnRef,
        _stat_dtype: &DType,
    ) -> Result<Option<BoundExpression>, HookFault> {
        told_literal(alloc, self.scope, self.zone, input, *aggregate)
    }
}
