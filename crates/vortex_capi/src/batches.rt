//! The answers for zones by maps whose tables are filled straight from a caller's arrays, some
//! thousands of zones at a time.
ghost use Rattle.std.specs.Prelude.{◌≡◌, ◌≢◌, ◌+◌, ◌<◌, ◌≤◌, All, Err, IfErr, IfOk, IfSome, IsTrue};
ghost use Rattle.std.specs.Prelude.{List, Ok, OnOk, length, map, true};
ghost use Rattle.vortex_base.specs.Data.ArrayData.{cell_values};
ghost use Rattle.vortex_base.specs.Data.Scopes.{Named};
ghost use Rattle.vortex_capi.specs.MapCells as spec;
ghost use Rattle.vortex_capi.specs.NamedStats.{AreNamed, HasNamed, names_head};
ghost use Rattle.vortex_capi.specs.Prunes.{AreClosed, zone_answers};
ghost use Rattle.vortex_capi.specs.Prunes.{table_answers as answers_of_table};
ghost use Rattle.vortex_capi.specs.Refusals.{Answers};
ghost use Rattle.vortex_capi.specs.Tables.{IsTypedBy, zones_given};
ghost use Rattle.vortex_capi.specs.declared.status.Status.TheVariants.{NoMemory};
ghost use Rattle.vortex_zone_map.specs.Zone.{ZoneData, zones_fit};
ghost use Rattle.vortex_zone_map.specs.ZoneMaps.{TellsOf, zone_column};

use crate::cells::{all_read, head_entries, null_cells, told_cells};
use crate::fault::Refusal;
use crate::first_fault::check_values;
use crate::named::{map_answers, named_heads};
use crate::status::Status;
use crate::table::Source;
use std::alloc::Global;
use vortex_base::array_data::ArrayData;
use vortex_base::column::Column;
use vortex_base::scope::Scope;
use vortex_expr::bound_expression::BoundExpression;
use vortex_predicates::PruningPredicate;
use vortex_prune::block_size;
use vortex_zone_map::{StatColumn, ZoneMap};

// How many cells are made at once of statistics. Each takes up to 9 bytes, and a text its own more.
const BATCH_CELLS: usize = 32768;

// The heads of a scope, with whether the proofs name each, and where the statistic stands that
// counts for it. Where none is, it is the number of statistics.
#[derive(Drop)]
struct Lookups {
    heads: Vec<StatColumn>,
    named: Vec<bool>,
    entries: Vec<usize>,
}

// Some zones of a table, one behind the other.
#[derive(Clone, Copy)]
struct Batch<'a> {
    scope: &'a Scope,
    sources: &'a [Source<'a>],
    rows: &'a [u64],
    from: usize,
    count: usize,
}

impl Batch<'_> {
    // The cells below a head, by the statistic that stands at an entry, if one does.
    fn cells(&self, alloc: Global, head: &StatColumn, entry: usize) -> Option<ArrayData>
        requires within { self.now.from + self.now.count ≤ length self.now.rows.now }
        requires counting { spec.IsCounting self.now.sources.now head.now entry }
        ensures { IfSome result (λ cells. spec.AreCells self.now head.now (cell_values cells)) }
    {
        match self.sources.get(entry) {
            None => Some(null_cells(alloc, self.count)),
            Some(source) => told_cells(
                alloc,
                source,
                head.aggregate(),
                self.rows,
                self.from,
                self.count,
            ),
        }
    }

    // The column below a head, by the statistic that stands at an entry, if one does.
    fn column(&self, alloc: Global, head: &StatColumn, entry: usize) -> Option<Column>
        requires batch { spec.IsBatch self.now }
        requires tells { TellsOf self.now.scope.now head.now }
        requires counting { spec.IsCounting self.now.sources.now head.now entry }
        ensures { IfSome result (λ column. (zones : List ZoneData)
            → spec.batch_zones self.now ≡ Ok zones → column ≡ zone_column zones head.now) }
    {
        let cells = self.cells(alloc, head, entry)?;
        Some(Column::new_unchecked(head.dtype(), cells, 0))
    }

    // Nulls below a head.
    fn null_column(&self, alloc: Global, head: &StatColumn) -> Column
        requires { TellsOf self.now.scope.now head.now }
        ensures { result ≡ spec.null_column head.now self.now.count }
    {
        Column::new_unchecked(head.dtype(), null_cells(alloc, self.count), 0)
    }

    // The column below a head if that is named, or else nulls.
    fn column_if(
        &self,
        alloc: Global,
        head: &StatColumn,
        is_named: bool,
        entry: usize,
    ) -> Option<Column>
        requires batch { spec.IsBatch self.now }
        requires tells { TellsOf self.now.scope.now head.now }
        requires counting { spec.IsCounting self.now.sources.now head.now entry }
        ensures { IfSome result (λ column. (zones : List ZoneData)
            → spec.batch_zones self.now ≡ Ok zones → is_named ≡ true
            → column ≡ zone_column zones head.now) }
    {
        if is_named {
            self.column(alloc, head, entry)
        } else {
            Some(self.null_column(alloc, head))
        }
    }

    // The columns below all heads of the scope.
    fn columns(&self, alloc: Global, lookups: &Lookups) -> Option<Vec<Column>>
        requires batch { spec.IsBatch self.now }
        requires lookups { spec.AreLookups self.now.scope.now self.now.sources.now lookups.now }
        ensures { IfSome result (λ columns. (zones : List ZoneData)
            → spec.batch_zones self.now ≡ Ok zones
            → AreNamed lookups.now.named.items lookups.now.heads.items zones columns.items) }
    {
        let (heads, named, entries) = (&lookups.heads, &lookups.named, &lookups.entries);
        let mut columns = Vec::with_capacity(alloc, heads.len()).ok()?;
        for place in 0..heads.len() {
            let column = self.column_if(alloc, &heads[place], named[place], entries[place])?;
            columns.push(column).ok()?;
        }
        Some(columns)
    }

    // The row counts of the zones.
    fn row_counts(&self, alloc: Global) -> Option<Vec<u64>>
        requires { spec.IsBatch self.now }
        ensures { IfSome result (λ counts. (zones : List ZoneData)
            → spec.batch_zones self.now ≡ Ok zones
            → counts.items ≡ map (λ zone. zone.rows) zones) }
    {
        let end = self.from + self.count;
        match Vec::from_slice(alloc, &self.rows[self.from..end]) {
            Ok(counts) => Some(counts),
            Err(_) => None,
        }
    }

    // The map of the zones, with what is named.
    fn map(&self, alloc: Global, lookups: &Lookups) -> Option<ZoneMap>
        requires batch { spec.IsBatch self.now }
        requires lookups { spec.AreLookups self.now.scope.now self.now.sources.now lookups.now }
        ensures scoped { IfSome result (λ made. made.scope ≡ self.now.scope.now) }
        ensures has { IfSome result (λ made. (zones : List ZoneData)
            → spec.batch_zones self.now ≡ Ok zones → HasNamed lookups.now.named.items zones made) }
    {
        let Ok(scope) = self.scope.try_clone() else {
            return None;
        };
        let rows = self.row_counts(alloc)?;
        let columns = self.columns(alloc, lookups)?;
        match ZoneMap::of_table(alloc, scope, rows, columns) {
            Ok(made) => Some(made),
            Err(_) => None,
        }
    }

    // The answers for the zones.
    fn answers(
        &self,
        alloc: Global,
        lookups: &Lookups,
        proofs: &PruningPredicate,
    ) -> Option<Vec<u8>>
        requires batch { spec.IsBatch self.now }
        requires lookups { spec.AreLookups self.now.scope.now self.now.sources.now lookups.now }
        requires named { lookups.now.named.items
            ≡ map (names_head proofs.now.falsifier proofs.now.satisfier) lookups.now.heads.items }
        requires closed { AreClosed proofs.now.falsifier proofs.now.satisfier }
        ensures { IfSome result (λ answers. (zones : List ZoneData)
            → spec.batch_zones self.now ≡ Ok zones
            → answers.items ≡ zone_answers proofs.now.falsifier proofs.now.satisfier
            self.now.scope.now zones) }
    {
        let map = self.map(alloc, lookups)?;
        match map_answers(alloc, proofs, &map) {
            Ok(answers) => Some(answers),
            Err(_) => None,
        }
    }
}

// How many heads are named.
fn count_named(named: &[bool]) -> usize {
    named.iter().filter(|named| **named).count()
}

// How many zones are answered next, of those that are left.
fn next_count(size: usize, left: usize) -> usize
    requires size { 0 < size }
    requires left { 0 < left }
    ensures some { 0 < result }
    ensures within { result ≤ left }
{
    if left < size { left } else { size }
}

// How many zones a proof, if there is one, is bound for at once at least.
fn zones_of(proof: Option<&BoundExpression>) -> usize {
    match proof {
        Some(proof) => block_size(proof),
        None => 0,
    }
}

// How many zones a map has: as many as fill a batch with cells, or more under many heads, below
// each of which each map has a column, or under long proofs, which are bound anew for each map.
fn batch_size(named: &[bool], proofs: &PruningPredicate) -> usize
    ensures { 0 < result }
{
    let by_cells = 1 + BATCH_CELLS.max(named.len()) / count_named(named).max(1);
    let by_proofs = zones_of(proofs.falsifier()).max(zones_of(proofs.satisfier()));
    if by_cells < by_proofs {
        by_proofs
    } else {
        by_cells
    }
}

// The heads of a scope with all that is looked up for them once a call.
fn lookups_of(
    alloc: Global,
    scope: &Scope,
    proofs: &PruningPredicate,
    sources: &[Source<'_>],
) -> Option<Lookups>
    ensures lookups { IfSome result (spec.AreLookups scope.now sources.now) }
    ensures named { IfSome result (λ lookups. lookups.named.items
        ≡ map (names_head proofs.now.falsifier proofs.now.satisfier) lookups.heads.items) }
{
    let Ok(heads) = ZoneMap::heads(alloc, scope) else {
        return None;
    };
    let named = named_heads(alloc, proofs, scope, &heads)?;
    let entries = head_entries(alloc, scope, sources, &heads)?;
    Some(Lookups {
        heads,
        named,
        entries,
    })
}

// The answers for all zones, batch by batch.
fn batches_answers<'a>(
    alloc: Global,
    scope: &'a Scope,
    proofs: &PruningPredicate,
    sources: &'a [Source<'a>],
    rows: &'a [u64],
) -> Option<Vec<u8>>
    requires closed { AreClosed proofs.now.falsifier proofs.now.satisfier }
    requires typed { All (IsTypedBy scope.now) sources.now }
    requires read { spec.AllRead sources.now (length rows.now) }
    ensures { IfSome result (λ v. (zones : List ZoneData)
        → zones_given scope.now sources.now rows.now ≡ Ok zones
        → v.items ≡ zone_answers proofs.now.falsifier proofs.now.satisfier scope.now zones) }
{
    let lookups = lookups_of(alloc, scope, proofs, sources)?;
    let size = batch_size(&lookups.named, proofs);
    let mut answers = Vec::with_capacity(alloc, rows.len()).ok()?;
    'batches: while answers.len() < rows.len() {
        let from = answers.len();
        let count = next_count(size, rows.len() - from);
        let batch = Batch {
            scope,
            sources,
            rows,
            from,
            count,
        };
        let mut more = batch.answers(alloc, &lookups, proofs)?;
        match answers.append(&mut more) {
            Ok(()) => {}
            Err(_) => return None,
        }
    }
    Some(answers)
}

// Refuses the first value that can't be read.
fn check_read(alloc: Global, sources: &[Source<'_>], rows: &[u64]) -> Result<(), Refusal>
    ensures read { OnOk result (spec.AllRead sources.now (length rows.now)) }
    ensures refused { IfErr result (λ r. r.status ≢ NoMemory
        → (scope : List Named) → zones_given scope sources.now rows.now ≡ Err r) }
{
    if all_read(sources, rows.len()) {
        Ok(())
    } else {
        check_values(alloc, sources, rows)
    }
}

/// The answers for the zones of a table, or the first value that is refused. Arrays are made below
/// the heads alone that the proofs name.
pub(crate) fn table_answers(
    alloc: Global,
    scope: &Scope,
    proofs: &PruningPredicate,
    sources: &[Source<'_>],
    rows: &[u64],
) -> Result<Vec<u8>, Refusal>
    requires closed { AreClosed proofs.now.falsifier proofs.now.satisfier }
    requires typed { All (IsTypedBy scope.now) sources.now }
    ensures read { Answers (λ v. v.items) result (answers_of_table proofs.now.falsifier
        proofs.now.satisfier scope.now (zones_given scope.now sources.now rows.now)) }
    ensures zones { IfOk result (λ v. IfOk (zones_given scope.now sources.now rows.now)
        (λ zones. IsTrue (zones_fit scope.now zones))) }
    ensures long { IfOk result (λ v. length v.items ≡ length rows.now) }
{
    match check_read(alloc, sources, rows) {
        Ok(()) => match batches_answers(alloc, scope, proofs, sources, rows) {
            Some(answers) => Ok(answers),
            None => Err(Refusal::at_entry(Status::NoMemory, 0)),
        },
        Err(refusal) => Err(refusal),
    }
}
