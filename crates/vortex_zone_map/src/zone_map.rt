//! Maps of zones: how many rows each zone has, and a table of their statistics with one row a zone.
ghost use Rattle.std.specs.Prelude.{◌≡◌, ◌<◌, ◌++◌, ◌∷◌, ℕ, IfErr, IfOk, IsTrue, List};
ghost use Rattle.std.specs.Prelude.{MatchOption, OnErr, OnOk, Ok, Some};
ghost use Rattle.std.specs.Prelude.{◌+◌, ◌≤◌, [], vec_capacity, vec_len};
ghost use Rattle.std.specs.Prelude.{alloc_error, false, length, map, option_map, slice_get, string_bytes};
ghost use Rattle.std.specs.Bool.{MatchBool};
ghost use Rattle.std.specs.List.{list_all, zip};
ghost use Rattle.vortex_base.specs.Data.ArrayData.{cell_values};
ghost use Rattle.vortex_base.specs.Data.Columns.{chunk_of, row_count};
ghost use Rattle.vortex_base.specs.Data.Scopes.{IsScope, Named, named_columns};
ghost use Rattle.vortex_expr.specs.Meanings.Typing.{stat_type};
ghost use Rattle.vortex_zone_map.specs.GivenTables.{IsNoTable, IsTableOf, all_stand, chunk_with};
ghost use Rattle.vortex_zone_map.specs.GivenTables.{is_table, map_with, stands_under};
ghost use Rattle.vortex_zone_map.specs.Zone.{AreZonesOf, IsZone, ZoneData, fits_zone, zones_fit};
ghost use Rattle.vortex_zone_map.specs.ZoneMaps as spec;
ghost use Rattle.vortex_zone_map.specs.ZoneMaps.{EachTells, IsMapOf, appended_map, emptied_map};
ghost use Rattle.vortex_zone_map.specs.ZoneMaps.{head, head_if, heads, is_typed, starts_from};
ghost use Rattle.vortex_zone_map.specs.ZoneMaps.{supporting, told_of, value_if, zone_map};
ghost use Rattle.vortex_zone_map.specs.ZoneMaps.{zone_table, zone_value};
ghost use Rattle.vortex_rewrite.specs.Answers.{IsMemory};
ghost use Rattle.vortex_stats.specs.declared.error.StatsError.TheVariants.{Memory, Mismatch};

use crate::stat_fn::stat_value;
use crate::zone::{Zone, sets_fit};
use std::alloc::{AllocError, Global};
use std::marker::Model;
use vortex_base::aggregate::AggregateFnRef;
use vortex_base::array_data::ArrayData;
use vortex_base::chunk::Chunk;
use vortex_base::column::Column;
use vortex_base::dtype::DType;
use vortex_base::scalar_value::ScalarValue;
use vortex_base::scope::Scope;
use vortex_rewrite::built::expect_memory_only;
use vortex_stats::error::StatsError;

/// A column of a map's table without its values: of which column of the scope it tells and what.
#[derive(Debug, Drop)]
pub struct StatColumn {
    source: usize,
    aggregate: AggregateFnRef,
    name: String,
    dtype: DType,
}

impl Model for StatColumn {
    ghost use Rattle.std.specs.Prelude.{string_bytes};
    ghost use Rattle.vortex_zone_map.specs.ZoneMaps.{StatColumn};

    ghost Value = { StatColumn };

    ghost view = { λ h. record {
      source = h.source;
      aggregate = h.aggregate;
      name = string_bytes h.name;
      dtype = h.dtype;
    } };
}

impl StatColumn {
    /// The place in the scope of the column that it tells of.
    pub fn source(&self) -> usize
        ensures { result ≡ self.now.source }
    {
        self.source
    }

    /// The aggregate that it tells of that column in each zone.
    pub fn aggregate(&self) -> AggregateFnRef
        ensures { result ≡ self.now.aggregate }
    {
        self.aggregate
    }

    /// Its name: that of the column that it tells of, and `#0` to `#6` for the aggregate.
    pub fn name(&self) -> &str
        ensures { result.now ≡ self.now.name }
    {
        &self.name
    }

    /// The type of its values, which has null.
    pub fn dtype(&self) -> DType
        ensures { result ≡ self.now.dtype }
    {
        self.dtype
    }
}

// The aggregates of a table, in its order.
fn aggregates() -> [AggregateFnRef; 7]
    ensures { result ≡ spec.aggregates }
{
    [
        AggregateFnRef::Max,
        AggregateFnRef::Min,
        AggregateFnRef::Sum,
        AggregateFnRef::NullCount,
        AggregateFnRef::UncompressedSizeInBytes,
        AggregateFnRef::AllNull,
        AggregateFnRef::AllNonNull,
    ]
}

// The suffix of a column's name in that of its column of the table.
fn suffix(aggregate: AggregateFnRef) -> &'static str
    ensures { result.now ≡ spec.suffix aggregate }
{
    match aggregate {
        AggregateFnRef::Max => "#0",
        AggregateFnRef::Min => "#1",
        AggregateFnRef::Sum => "#2",
        AggregateFnRef::NullCount => "#3",
        AggregateFnRef::UncompressedSizeInBytes => "#4",
        AggregateFnRef::AllNull => "#5",
        AggregateFnRef::AllNonNull => "#6",
        AggregateFnRef::MinMax | AggregateFnRef::NanCount => "",
    }
}

fn zone_name(alloc: Global, name: &str, aggregate: AggregateFnRef) -> Result<String, AllocError>
    ensures { IfOk result (λ s. string_bytes s ≡ name.now ++ spec.suffix aggregate) }
{
    let mut whole = String::from_str(alloc, name)?;
    whole.push_str(suffix(aggregate))?;
    Ok(whole)
}

// The type of the column for an aggregate, if it supports the type.
fn zone_type(aggregate: AggregateFnRef, dtype: DType) -> Option<DType>
    ensures { let typed = stat_type aggregate dtype in
        MatchOption result (is_typed typed ≡ false) (λ t. typed ≡ Ok t) }
{
    match aggregate.state_dtype(&dtype) {
        None => None,
        Some(state) => Some(state.as_nullable()),
    }
}

// Adds the column for an aggregate of the scope's column at a place, if it supports its type.
fn push_head(
    alloc: Global,
    heads: &mut Vec<StatColumn>,
    scope: &Scope,
    source: usize,
    aggregate: AggregateFnRef,
) -> Result<(), AllocError>
    requires { source < length scope.now }
    ensures { OnOk result ((c : Named) → slice_get scope.now source ≡ Some c
        → let more = head_if (is_typed (stat_type aggregate c.1)) (head source c aggregate) in
        heads.new.items ≡ heads.old.items ++ more) }
{
    match zone_type(aggregate, scope.dtype(source)) {
        None => Ok(()),
        Some(dtype) => {
            let name = zone_name(alloc, scope.name(source), aggregate)?;
            heads.push(StatColumn {
                source,
                aggregate,
                name,
                dtype,
            })?;
            Ok(())
        }
    }
}

// Adds those of the scope's column at a place for each aggregate that supports its type.
fn push_heads(
    alloc: Global,
    heads: &mut Vec<StatColumn>,
    scope: &Scope,
    source: usize,
) -> Result<(), AllocError>
    requires { source < length scope.now }
    ensures { OnOk result ((c : Named) → slice_get scope.now source ≡ Some c
        → heads.new.items ≡ heads.old.items ++ map (head source c) (supporting c.1)) }
{
    let all = aggregates();
    for k in 0..7 {
        push_head(alloc, heads, scope, source, all[k])?;
    }
    Ok(())
}

// The columns of the table, and where those of each column of the scope start.
fn all_heads(
    alloc: Global,
    scope: &Scope,
    starts: &mut Vec<usize>,
) -> Result<Vec<StatColumn>, AllocError>
    requires { length starts.old.items ≡ 0 }
    ensures heads { IfOk result (λ hs. hs.items ≡ heads scope.now) }
    ensures starts { IfOk result (λ hs. starts.new.items ≡ starts_from 0 scope.now) }
    ensures is_scope { IsScope scope.now }
{
    let mut heads = Vec::new(alloc);
    for place in 0..scope.len() {
        starts.push(heads.len())?;
        push_heads(alloc, &mut heads, scope, place)?;
    }
    Ok(heads)
}

// The value that a zone tells of its column at a place.
fn zone_value(
    zone: &Zone<'_>,
    source: usize,
    aggregate: AggregateFnRef,
) -> Result<Option<ScalarValue>, StatsError>
    requires { source < length zone.now.stats }
    ensures value { IfOk result (λ v. v ≡ zone_value aggregate source zone.now) }
    ensures memory { IfErr result (λ f. f ≡ Memory alloc_error) }
{
    stat_value(aggregate, zone.set(source), zone.rows())
}

// The values of a column of the table.
fn zone_cells(alloc: Global, zones: &[Zone<'_>], head: &StatColumn) -> Result<ArrayData, StatsError>
    requires { EachTells zones.now head.now }
    ensures values { let told = zone_value head.now.aggregate head.now.source in
        IfOk result (λ cells. cell_values cells ≡ map told zones.now) }
    ensures memory { IfErr result (λ f. f ≡ Memory alloc_error) }
{
    let mut cells = ArrayData::with_capacity(alloc, head.dtype, zones.len())?;
    for place in 0..zones.len() {
        cells.push(zone_value(&zones[place], head.source, head.aggregate)?)?;
    }
    Ok(cells)
}

// Adds what a zone tells for an aggregate of its column at a place, if that supports its type.
fn push_value(
    values: &mut Vec<Option<ScalarValue>>,
    scope: &Scope,
    zone: &Zone<'_>,
    source: usize,
    aggregate: AggregateFnRef,
) -> Result<(), StatsError>
    requires within { source < length scope.now }
    requires fits { IsZone scope.now zone.now }
    ensures value { OnOk result ((c : Named) → slice_get scope.now source ≡ Some c
        → let value = zone_value aggregate source zone.now in
        let more = value_if (is_typed (stat_type aggregate c.1)) value in
        values.new.items ≡ values.old.items ++ more) }
    ensures memory { IfErr result IsMemory }
{
    match zone_type(aggregate, scope.dtype(source)) {
        None => Ok(()),
        Some(_) => {
            values.push(zone_value(zone, source, aggregate)?)?;
            Ok(())
        }
    }
}

// Adds those of its column at a place for each aggregate that supports its type.
fn push_values(
    values: &mut Vec<Option<ScalarValue>>,
    scope: &Scope,
    zone: &Zone<'_>,
    source: usize,
) -> Result<(), StatsError>
    requires within { source < length scope.now }
    requires fits { IsZone scope.now zone.now }
    ensures values { OnOk result ((c : Named) → slice_get scope.now source ≡ Some c
        → let more = map (λ f. zone_value f source zone.now) (supporting c.1) in
        values.new.items ≡ values.old.items ++ more) }
    ensures memory { IfErr result IsMemory }
{
    let all = aggregates();
    for k in 0..7 {
        push_value(values, scope, zone, source, all[k])?;
    }
    Ok(())
}

// The row of the table for a zone, in its own order.
fn row_of(
    alloc: Global,
    scope: &Scope,
    zone: &Zone<'_>,
) -> Result<Vec<Option<ScalarValue>>, StatsError>
    requires { IsZone scope.now zone.now }
    ensures row { IfOk result (λ vs. vs.items ≡ map (told_of zone.now) (heads scope.now)) }
    ensures memory { IfErr result IsMemory }
{
    let mut values = Vec::new(alloc);
    for place in 0..scope.len() {
        push_values(&mut values, scope, zone, place)?;
    }
    Ok(values)
}

// A column of the table.
fn zone_column(alloc: Global, zones: &[Zone<'_>], head: &StatColumn) -> Result<Column, StatsError>
    requires { EachTells zones.now head.now }
    ensures column { IfOk result (λ c. c ≡ spec.zone_column zones.now head.now) }
    ensures memory { IfErr result (λ f. f ≡ Memory alloc_error) }
{
    let cells = zone_cells(alloc, zones, head)?;
    Ok(Column::new_unchecked(head.dtype, cells, 0))
}

// The columns of the table.
fn zone_columns(
    alloc: Global,
    zones: &[Zone<'_>],
    heads: &[StatColumn],
) -> Result<Vec<Column>, StatsError>
    requires { (k : ℕ) (h : spec.StatColumn) → slice_get heads.now k ≡ Some h
        → EachTells zones.now h }
    ensures columns { IfOk result (λ cs. cs.items ≡ map (spec.zone_column zones.now) heads.now) }
    ensures memory { IfErr result (λ f. f ≡ Memory alloc_error) }
{
    let mut columns = Vec::new(alloc);
    for k in 0..heads.len() {
        columns.push(zone_column(alloc, zones, &heads[k])?)?;
    }
    Ok(columns)
}

// Their names and types.
fn names_of(alloc: Global, heads: Vec<StatColumn>) -> Result<Vec<(String, DType)>, AllocError>
    ensures { IfOk result (λ ns. named_columns ns.items ≡ map spec.named_head heads.items) }
{
    let mut names = Vec::new(alloc);
    for head in heads {
        let StatColumn {
            source: _,
            aggregate: _,
            name,
            dtype,
        } = head;
        names.push((name, dtype))?;
    }
    Ok(names)
}

// The table, and where the columns start that tell of each column of the scope.
fn table_of(
    alloc: Global,
    scope: &Scope,
    zones: &[Zone<'_>],
    starts: &mut Vec<usize>,
) -> Result<Chunk, StatsError>
    requires empty { length starts.old.items ≡ 0 }
    requires are_zones { AreZonesOf scope.now zones.now }
    ensures table { IfOk result (λ t. t ≡ zone_table scope.now zones.now) }
    ensures starts { IfOk result (λ _. starts.new.items ≡ starts_from 0 scope.now) }
    ensures memory { IfErr result (λ f. f ≡ Memory alloc_error) }
{
    let heads = all_heads(alloc, scope, starts)?;
    let columns = zone_columns(alloc, zones, &heads)?;
    let names = names_of(alloc, heads)?;
    match Chunk::try_new(Scope::new_unchecked(names), columns) {
        Ok(table) => Ok(table),
        Err(_) => unreachable!(),
    }
}

// Whether a column may stand under a head in a table of so many zones.
fn stands_under(zones: usize, head: &StatColumn, column: &Column) -> bool
    ensures { result ≡ stands_under zones head.now column.now }
{
    head.dtype == column.dtype() && column.len() == zones && column.size() == 0
}

// Whether each may under the head beside it.
fn pairs_stand(zones: usize, heads: &[StatColumn], columns: &[Column]) -> bool
    ensures { result ≡ list_all (λ p. stands_under zones p.0 p.1) (zip heads.now columns.now) }
{
    heads
        .iter()
        .zip(columns.iter())
        .all(|(head, column)| stands_under(zones, head, column))
}

// Whether there is one column a head, which may stand under it.
fn all_stand(zones: usize, heads: &[StatColumn], columns: &[Column]) -> bool
    ensures { result ≡ all_stand zones heads.now columns.now }
{
    heads.len() == columns.len() && pairs_stand(zones, heads, columns)
}

// The names and types of the columns of the table, if those that are given may be its columns.
fn tested_names(
    alloc: Global,
    scope: &Scope,
    zones: usize,
    columns: &[Column],
    starts: &mut Vec<usize>,
) -> Result<Vec<(String, DType)>, StatsError>
    requires { length starts.old.items ≡ 0 }
    ensures names { IfOk result (λ ns.
        named_columns ns.items ≡ map spec.named_head (heads scope.now)) }
    ensures starts { IfOk result (λ _. starts.new.items ≡ starts_from 0 scope.now) }
    ensures is_scope { IfOk result (λ _. IsScope scope.now) }
    ensures table { OnOk result (IsTrue (is_table zones scope.now columns.now)) }
    ensures error { IfErr result (IsNoTable zones scope.now columns.now) }
{
    let heads = all_heads(alloc, scope, starts)?;
    if !all_stand(zones, &heads, columns) {
        return Err(StatsError::Mismatch);
    }
    Ok(names_of(alloc, heads)?)
}

// The chunk of columns that are known to make one.
fn chunk_with(names: Vec<(String, DType)>, columns: Vec<Column>) -> Chunk
    requires scope { IsScope (named_columns names.items) }
    requires chunk { let made = chunk_with (named_columns names.items) columns.items in
        chunk_of (named_columns names.items) columns.items ≡ Ok made }
    ensures { result ≡ chunk_with (named_columns names.items) columns.items }
{
    match Chunk::try_new(Scope::new_unchecked(names), columns) {
        Ok(table) => table,
        Err(_) => unreachable!(),
    }
}

// How many rows each zone has.
fn rows_of(alloc: Global, zones: &[Zone<'_>]) -> Result<Vec<u64>, AllocError>
    ensures { IfOk result (λ rows. rows.items ≡ map (λ zone. zone.rows) zones.now) }
{
    let mut rows = Vec::with_capacity(alloc, zones.len())?;
    for zone in zones {
        rows.push(zone.rows())?;
    }
    Ok(rows)
}

// Whether the sets of each zone fit a scope.
fn zones_fit(scope: &Scope, zones: &[Zone<'_>]) -> bool
    ensures { result ≡ zones_fit scope.now zones.now }
{
    for zone in zones {
        if !sets_fit(scope, zone) {
            return false;
        }
    }
    true
}

/// How many rows each of some zones of one scope has, and a table of their statistics, which has
/// one row a zone. Neither the rows of the zones nor their sets are kept.
#[derive(Debug, Drop)]
pub struct ZoneMap {
    scope: Scope,
    rows: Vec<u64>,
    table: Chunk,
    starts: Vec<usize>,
}

impl Model for ZoneMap {
    ghost use Rattle.vortex_zone_map.specs.ZoneMaps.{IsMap, MapData};

    ghost Value = { MapData };

    ghost view = { λ m. record { scope = m.scope; rows = m.rows.items; table = m.table } };

    ghost invariant = { λ m.
        let seen : MapData = record { scope = m.scope; rows = m.rows.items; table = m.table } in
        IsMap seen m.starts.items };
}

/// A scope of which no map was made, handed back beside the cause.
#[derive(Debug, Drop)]
pub struct ZoneMapRefused {
    /// `Mismatch` or `Memory`.
    pub error: StatsError,
    /// The scope as it was given.
    pub scope: Scope,
}

/// A table of which no map was made, handed back beside the cause.
#[derive(Debug, Drop)]
pub struct TableRefused {
    /// `Mismatch` or `Memory`.
    pub error: StatsError,
    /// The scope as it was given.
    pub scope: Scope,
    /// The row counts as they were given.
    pub rows: Vec<u64>,
    /// The columns as they were given.
    pub columns: Vec<Column>,
}

// The map of zones that are known to fit the scope.
pub fn map_of(alloc: Global, scope: Scope, zones: &[Zone<'_>]) -> Result<ZoneMap, ZoneMapRefused>
    requires { AreZonesOf scope zones.now }
    ensures made { IfOk result (λ made. made ≡ zone_map scope zones.now) }
    ensures error { IfErr result (λ refused. refused.error ≡ Memory alloc_error) }
    ensures scope_back { IfErr result (λ refused. refused.scope ≡ scope) }
{
    let rows = match rows_of(alloc, zones) {
        Ok(rows) => rows,
        Err(refused) => {
            let error = StatsError::Memory(refused);
            return Err(ZoneMapRefused { error, scope });
        }
    };
    let mut starts = Vec::new(alloc);
    match table_of(alloc, &scope, zones, &mut starts) {
        Ok(table) => {
            // That the table is a chunk.
            let _rows = table.rows();
            Ok(ZoneMap {
                scope,
                rows,
                table,
                starts,
            })
        }
        Err(error) => Err(ZoneMapRefused { error, scope }),
    }
}

// Moves numbers behind others, for which there is room.
fn move_behind(rows: &mut Vec<u64>, others: &mut Vec<u64>)
    requires { vec_len rows.old + vec_len others.old ≤ vec_capacity rows.old }
    ensures items { rows.new.items ≡ rows.old.items ++ others.old.items }
    ensures emptied { others.new.items ≡ [] }
{
    let _ = rows.append(others);
}

impl ZoneMap {
    /// The map of zones of a scope, in their order. `Mismatch` unless each zone has one set a
    /// column that fits its column's type, and else `Memory` alone. The zones are only read, and
    /// the scope comes back with the refusal.
    pub fn try_new(
        alloc: Global,
        scope: Scope,
        zones: &[Zone<'_>],
    ) -> Result<ZoneMap, ZoneMapRefused>
        ensures made { IfOk result (λ made. made ≡ zone_map scope zones.now) }
        ensures is_map { IfOk result (IsMapOf zones.now) }
        ensures error { IfErr result (λ refused. MatchBool (zones_fit scope zones.now)
            (IsMemory refused.error) (refused.error ≡ Mismatch)) }
        ensures scope_back { IfErr result (λ refused. refused.scope ≡ scope) }
    {
        if !zones_fit(&scope, zones) {
            let error = StatsError::Mismatch;
            return Err(ZoneMapRefused { error, scope });
        }
        map_of(alloc, scope, zones)
    }

    /// The columns of the table of each map of a scope, in their order: for each column of the
    /// scope one for each aggregate that supports its type.
    pub fn heads(alloc: Global, scope: &Scope) -> Result<Vec<StatColumn>, AllocError>
        ensures { IfOk result (λ found. found.items ≡ heads scope.now) }
    {
        let mut starts = Vec::new(alloc);
        all_heads(alloc, scope, &mut starts)
    }

    /// The map of zones whose table is at hand, as a footer keeps one: how many rows each zone has,
    /// and a column under each of the `heads` of the scope, in their order. It prunes as the map of
    /// the zones' sets does where each value is what these tell (`StatFn`).
    ///
    /// `Mismatch` where the columns make no table of so many zones and memory isn't refused first:
    /// there is one more or less than heads, or one is of another type than its head, is shorter or
    /// longer than the row counts, or declares a size. `Memory` only where memory is refused. What
    /// was given comes back.
    pub fn of_table(
        alloc: Global,
        scope: Scope,
        rows: Vec<u64>,
        columns: Vec<Column>,
    ) -> Result<ZoneMap, TableRefused>
        ensures made { IfOk result (λ made. made ≡ map_with scope rows.items columns.items) }
        ensures is_map { IfOk result (λ made. (zones : List ZoneData)
            → IsTableOf scope zones rows.items columns.items → IsMapOf zones made) }
        ensures table { OnOk result (IsTrue (is_table (length rows.items) scope columns.items)) }
        ensures error { IfErr result (λ refused.
            IsNoTable (length rows.items) scope columns.items refused.error) }
        ensures scope_back { IfErr result (λ refused. refused.scope ≡ scope) }
        ensures rows_back { IfErr result (λ refused. refused.rows ≡ rows) }
        ensures columns_back { IfErr result (λ refused. refused.columns ≡ columns) }
    {
        let mut starts = Vec::new(alloc);
        match tested_names(alloc, &scope, rows.len(), &columns, &mut starts) {
            Ok(names) => {
                let table = chunk_with(names, columns);
                // That it is a chunk.
                let _rows = table.rows();
                Ok(ZoneMap {
                    scope,
                    rows,
                    table,
                    starts,
                })
            }
            Err(error) => Err(TableRefused {
                error,
                scope,
                rows,
                columns,
            }),
        }
    }

    /// Moves the zones of another map of the same scope behind this one's. The other is left
    /// without zones. Where memory is refused, both are as they were.
    pub fn append(&mut self, other: &mut ZoneMap) -> Result<(), StatsError>
        requires { self.old.scope ≡ other.old.scope }
        ensures appended { OnOk result (self.new ≡ appended_map self.old other.old) }
        ensures is_map { OnOk result ((zones more : List ZoneData) → IsMapOf zones self.old
            → IsMapOf more other.old → IsMapOf (zones ++ more) self.new) }
        ensures emptied { OnOk result (other.new ≡ emptied_map other.old) }
        ensures refused { OnErr result ((self.new ≡ self.old) × (other.new ≡ other.old)) }
        ensures memory { IfErr result IsMemory }
    {
        // That both tables are chunks.
        let _rows = self.table.rows();
        let _others = other.table.rows();
        self.rows.reserve(other.rows.len())?;
        match self.table.append(&mut other.table) {
            Ok(()) => {
                move_behind(&mut self.rows, &mut other.rows);
                Ok(())
            }
            Err(_) => Err(StatsError::Memory(AllocError)),
        }
    }

    /// Adds zones behind those that there are. `Mismatch` unless each has one set a column that
    /// fits its column's type, and else `Memory` alone. From a refusal the map is as it was.
    pub fn extend(&mut self, alloc: Global, zones: &[Zone<'_>]) -> Result<(), StatsError>
        ensures appended { let more = zone_map self.old.scope zones.now in
            OnOk result (self.new ≡ appended_map self.old more) }
        ensures fits { OnOk result (IsTrue (zones_fit self.old.scope zones.now)) }
        ensures is_map { OnOk result ((known : List ZoneData) → IsMapOf known self.old
            → IsMapOf (known ++ zones.now) self.new) }
        ensures refused { OnErr result (self.new ≡ self.old) }
        ensures error { IfErr result (λ f. MatchBool (zones_fit self.old.scope zones.now)
            (IsMemory f) (f ≡ Mismatch)) }
    {
        if !zones_fit(&self.scope, zones) {
            return Err(StatsError::Mismatch);
        }
        let scope = self.scope.try_clone()?;
        match map_of(alloc, scope, zones) {
            Ok(mut more) => self.append(&mut more),
            Err(refused) => Err(refused.error),
        }
    }

    /// Adds one zone behind those that there are. `Mismatch` unless it has one set a column that
    /// fits its column's type, and else `Memory` alone. From a refusal the map is as it was.
    pub fn push(&mut self, alloc: Global, zone: &Zone<'_>) -> Result<(), StatsError>
        ensures appended { let more = zone_map self.old.scope (zone.now ∷ []) in
            OnOk result (self.new ≡ appended_map self.old more) }
        ensures fits { OnOk result (IsTrue (fits_zone self.old.scope zone.now.stats)) }
        ensures is_map { OnOk result ((known : List ZoneData) → IsMapOf known self.old
            → IsMapOf (known ++ zone.now ∷ []) self.new) }
        ensures refused { OnErr result (self.new ≡ self.old) }
        ensures error { IfErr result (λ f. MatchBool (fits_zone self.old.scope zone.now.stats)
            (IsMemory f) (f ≡ Mismatch)) }
    {
        if !sets_fit(&self.scope, zone) {
            return Err(StatsError::Mismatch);
        }
        let values = row_of(alloc, &self.scope, zone)?;
        // The table is a chunk.
        let _rows = self.table.rows();
        self.rows.reserve(1)?;
        match self.table.push_row(values) {
            Ok(()) => {
                self.rows.push_reserved(zone.rows());
                Ok(())
            }
            Err(refused) => expect_memory_only(Err(refused)),
        }
    }

    /// The scope of the zones.
    pub fn scope(&self) -> &Scope
        ensures { result.now ≡ self.now.scope }
    {
        &self.scope
    }

    /// How many zones there are.
    pub fn len(&self) -> usize
        ensures { result ≡ length self.now.rows }
    {
        self.rows.len()
    }

    // How many rows each zone has.
    pub fn counts(&self) -> &[u64]
        ensures { result.now ≡ self.now.rows }
    {
        &self.rows
    }

    /// How many rows the zone at a place has.
    pub fn rows(&self, i: usize) -> u64
        requires { i < length self.now.rows }
        ensures { slice_get self.now.rows i ≡ Some result }
    {
        self.rows[i]
    }

    /// The table. For each column of the scope it has one for each aggregate that supports the
    /// column's type, named by the column's name and `#0` to `#6`; its row r tells what the
    /// statistics of zone r do.
    pub fn table(&self) -> &Chunk
        ensures value { result.now ≡ self.now.table }
        ensures named { self.now.table.scope ≡ map spec.named_head (heads self.now.scope) }
        ensures counted { length self.now.rows ≡ row_count self.now.table.columns }
    {
        &self.table
    }

    // Where the column of the table stands for an aggregate of the scope's column at a place, if
    // that has this type, nullability aside, and the table has it; and its type.
    pub fn place_of(
        &self,
        place: usize,
        aggregate: AggregateFnRef,
        dtype: DType,
    ) -> Option<(usize, DType)>
        ensures { let there = spec.zone_place self.now.scope place aggregate dtype in
            result ≡ option_map (λ k. (k, spec.zone_type aggregate dtype)) there }
    {
        place_in(
            &self.scope,
            &self.starts,
            &self.table,
            place,
            aggregate,
            dtype,
        )
    }
}

// The type of the column for an aggregate that supports the type.
fn zone_dtype(aggregate: AggregateFnRef, dtype: DType) -> DType
    ensures { result ≡ spec.zone_type aggregate dtype }
{
    match aggregate.state_dtype(&dtype) {
        None => DType::Null,
        Some(state) => state.as_nullable(),
    }
}

// The place of an aggregate's column, from where the columns of the table start that tell of each
// column of the scope.
fn place_in(
    scope: &Scope,
    starts: &[usize],
    table: &Chunk,
    place: usize,
    aggregate: AggregateFnRef,
    dtype: DType,
) -> Option<(usize, DType)>
    requires started { starts.now ≡ starts_from 0 scope.now }
    requires tabled { table.now.scope ≡ map spec.named_head (heads scope.now) }
    ensures { let there = spec.zone_place scope.now place aggregate dtype in
        result ≡ option_map (λ k. (k, spec.zone_type aggregate dtype)) there }
{
    match starts.get(place) {
        None => None,
        Some(start) => {
            let declared = scope.dtype(place);
            if !declared.eq_ignore_nullability(&dtype) {
                return None;
            }
            // That the table has no more columns than an index can count.
            let _columns = table.scope().len();
            match offset(aggregate, declared) {
                None => None,
                Some(offset) => Some((*start + offset, zone_dtype(aggregate, dtype))),
            }
        }
    }
}

// The place of an aggregate among those that support a type.
fn offset(aggregate: AggregateFnRef, dtype: DType) -> Option<usize>
    ensures { result ≡ spec.offset aggregate dtype }
{
    let ends = !matches!(dtype, DType::Null | DType::MinMaxState(_, _));
    let sums = matches!(dtype, DType::Bool(_) | DType::Primitive(_, _));
    let first = if ends { 2 } else { 0 } + if sums { 1 } else { 0 };
    match aggregate {
        AggregateFnRef::Max if ends => Some(0),
        AggregateFnRef::Min if ends => Some(1),
        AggregateFnRef::Sum if sums => Some(2),
        AggregateFnRef::NullCount => Some(first),
        AggregateFnRef::UncompressedSizeInBytes => Some(first + 1),
        AggregateFnRef::AllNull => Some(first + 2),
        AggregateFnRef::AllNonNull => Some(first + 3),
        _ => None,
    }
}
