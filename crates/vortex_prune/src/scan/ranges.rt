//! Scans of one chunk by a map of zones, each of which is a range of its rows.
ghost use Rattle.std.specs.Prelude.{◌≡◌, ◌+◌, ◌<◌, ◌≤◌, List, [], IfErr, IfOk, IsTrue, MatchOption};
ghost use Rattle.std.specs.Prelude.{alloc_error, length, sum};
ghost use Rattle.std.specs.List.{AllByRecursion};
ghost use Rattle.vortex_base.specs.Data.Columns.{row_count};
ghost use Rattle.vortex_expr.specs.Meanings.Fitting.{fits_scope};
ghost use Rattle.vortex_expr.specs.Trees.Tree.{is_plain};
ghost use Rattle.vortex_rewrite.specs.Rewriting.ReadOnce.{has_disjoint_ands};
ghost use Rattle.vortex_prune.specs.Part.{IsTruePart, PartData};
ghost use Rattle.vortex_zone_map.specs.Zone.{ZoneData};
ghost use Rattle.vortex_prune.specs.Scanning.Complete.{ZonesSkipExactly};
ghost use Rattle.vortex_prune.specs.Scanning.Found.{found_by, found_in};
ghost use Rattle.vortex_prune.specs.Scanning.Promises.{RefusesRanges, ScansRanges};
ghost use Rattle.vortex_prune.specs.Scanning.RangeScans.{AreRanges, AreRangesBehind, has_ranges};
ghost use Rattle.vortex_prune.specs.Scanning.RangeScans.{has_ranges_from, ranges_by, rows_in_chunk};
ghost use Rattle.vortex_prune.specs.Scanning.RangeScans.{tested_by};
ghost use Rattle.vortex_prune.specs.Scanning.Selection.{full, is_skipped, is_whole, places_where};
ghost use Rattle.vortex_prune.specs.Scanning.Selection.{satisfying};
ghost use Rattle.vortex_prune.specs.Scanning.TrueRows.{AreTrueRanges};
ghost use Rattle.vortex_zone_map.specs.ZoneMaps.{IsMapOf};
ghost use Rattle.vortex_stats.specs.declared.error.StatsError.TheVariants.{Memory};

use crate::scan::outcome::{RangeScan, Scan};
use crate::scan::prune::{has_table, verdicts};
use crate::scan::select::RowRange;
use crate::scan::selected_rows::SelectedRows;
use crate::scan::verdict::Verdict;
use std::alloc::Global;
use vortex_base::chunk::Chunk;
use vortex_expr::bound_expression::BoundExpression;
use vortex_rewrite::rewrite::rules::{OwnRules, Rules};
use vortex_stats::error::StatsError;
use vortex_zone_map::zone_map::ZoneMap;

// How many of some rows stand behind as many as counts say, if there are as many.
fn rows_behind(counts: &[u64], rows: usize) -> Option<u64>
    ensures { MatchOption result (rows < sum counts.now) (λ left. left + sum counts.now ≡ rows) }
{
    let mut left = rows as u64;
    for place in 0..counts.len() {
        let count = counts[place];
        if count > left {
            return None;
        }
        left -= count;
    }
    Some(left)
}

// Whether the zones of a map are ranges of a chunk.
fn has_ranges(chunk: &Chunk, map: &ZoneMap) -> bool
    ensures { result ≡ has_ranges chunk.now map.now }
{
    *chunk.scope() == *map.scope() && rows_behind(map.counts(), chunk.rows()) == Some(0)
}

// Whether they are ranges of its rows from one on.
fn has_ranges_from(chunk: &Chunk, first: usize, map: &ZoneMap) -> bool
    ensures { result ≡ has_ranges_from chunk.now first map.now }
{
    if *chunk.scope() != *map.scope() || chunk.rows() < first {
        return false;
    }
    rows_behind(map.counts(), chunk.rows() - first).is_some()
}

// The scan by a row count and a verdict for each range, the first of which begins at a row.
fn scan_counts(
    alloc: Global,
    chunk: &Chunk,
    from: usize,
    counts: &[u64],
    verdicts: &[Verdict],
    predicate: &BoundExpression,
) -> Result<RangeScan, StatsError>
    requires long { length verdicts.now ≡ length counts.now }
    requires within { from + sum counts.now ≤ row_count chunk.now.columns }
    ensures skipped { IfOk result (λ scan.
        scan.skipped.items ≡ places_where is_skipped verdicts.now) }
    ensures whole { IfOk result (λ scan.
        scan.whole.items ≡ places_where is_whole verdicts.now) }
    ensures selected { IfOk result (λ scan. scan.selected
        ≡ ranges_by predicate.now chunk.now 0 from verdicts.now counts.now) }
    ensures evaluated { IfOk result (λ scan.
        scan.evaluated ≡ tested_by verdicts.now counts.now) }
    ensures memory { IfErr result (λ f. f ≡ Memory alloc_error) }
{
    let _rows = chunk.rows();
    let mut scan = RangeScan {
        selected: SelectedRows::new(alloc),
        skipped: Vec::new(alloc),
        whole: Vec::new(alloc),
        evaluated: 0,
    };
    let mut first = from;
    for place in 0..verdicts.len() {
        let rows = counts[place] as usize;
        let range = RowRange { chunk, first, rows };
        scan.record_range(place, range, verdicts[place], predicate)?;
        first += rows;
    }
    Ok(scan)
}

/// Selects the rows of a stretch of a chunk that satisfy a predicate, by a map of zones, as
/// `scan_ranges` does of all rows: the first zone begins at the row `first`, and rows behind the
/// last one have no part in it. So a long map can be made and scanned some zones at a time.
/// Selected rows are told as zone and row in its range, zones by their places in the map.
///
/// The caller knows that the predicate is plain (`BoundExpression::is_plain`) and fits the scope
/// (`BoundExpression::fits_scope`).
///
/// `Mismatch`, before anything else, unless the chunk has the map's scope and the zones' counts add
/// up to no more rows than it has from `first` on. The other refusals are those of `scan_ranges`.
pub fn scan_ranges_from(
    alloc: Global,
    chunk: &Chunk,
    first: usize,
    map: &ZoneMap,
    predicate: &BoundExpression,
    rules: &Rules,
) -> Result<RangeScan, StatsError>
    requires plain { IsTrue (is_plain predicate.now) }
    requires fits { IsTrue (fits_scope predicate.now chunk.now.scope) }
    // Where each zone's statistics are true of its range no wanted row of the stretch is lost and
    // no other is told, whichever lawful rules took part.
    ensures full { IfOk result (λ scan. (parts : List PartData)
        → AreRangesBehind chunk.now first map.now parts → AllByRecursion IsTruePart parts
        → scan.selected ≡ full predicate.now parts) }
    // By built-in rules a predicate whose ANDs are apart skips a zone exactly if no values within
    // its bounds satisfy it.
    ensures complete { IfOk result (λ scan. (zones : List ZoneData) → IsMapOf zones map.now
        → rules.now.own.items ≡ [] → IsTrue (has_disjoint_ands predicate.now)
        → ZonesSkipExactly predicate.now zones scan.skipped.items) }
    // Which zones are skipped and whole, which rows are selected and how many tested, by any table
    // and by that of zones; and that no open proof was bound.
    ensures answered { let own = ⟦<Rules as OwnRules>⟧.own rules.now in
        IfOk result (λ scan.
        ScansRanges own predicate.now chunk.now first map.now (found_in scan)) }
    // When each refusal comes.
    ensures refused { let own = ⟦<Rules as OwnRules>⟧.own rules.now in
        let are_ranges = has_ranges_from chunk.now first map.now in
        RefusesRanges are_ranges own predicate.now map.now result }
{
    if !has_ranges_from(chunk, first, map) {
        return Err(StatsError::Mismatch);
    }
    has_table(map);
    let verdicts = verdicts(alloc, map, predicate, rules)?;
    scan_counts(alloc, chunk, first, map.counts(), &verdicts, predicate)
}

/// Selects the rows of a chunk that satisfy a predicate, by a map of zones, each a range of its
/// rows: the zones stand one after another, each with as many rows as its count says
/// (`ZoneMap::rows`). It finds what `scan_zones` finds in the ranges as parts, without making parts:
/// the columns stay whole, and no cell is copied. Selected rows are told as zone and row in its
/// range. A zone whose falsifier is true by its row of the table is skipped, its range left out
/// unread; of another zone whose satisfier is true all rows are selected and none is tested. Both
/// proofs are found, bound and looked at as `prune` does.
///
/// The caller knows that the predicate is plain (`BoundExpression::is_plain`) and fits the scope
/// (`BoundExpression::fits_scope`).
///
/// `Mismatch`, before anything else, unless the chunk has the map's scope and the zones' counts add
/// up to its rows. Then `NotPredicate` if the predicate isn't of type Bool, also where there are no
/// zones. `Rule` if a rule of the user failed or proved by an expression that isn't of type Bool,
/// `OpenProof` if a proof that is about to be bound has a column outside its placeholders, which
/// would be read in the table.
pub fn scan_ranges(
    alloc: Global,
    chunk: &Chunk,
    map: &ZoneMap,
    predicate: &BoundExpression,
    rules: &Rules,
) -> Result<Scan, StatsError>
    requires plain { IsTrue (is_plain predicate.now) }
    requires fits { IsTrue (fits_scope predicate.now chunk.now.scope) }
    // Where each zone's statistics are true of its range no wanted row of the chunk is lost and no
    // other is told, whichever lawful rules took part.
    ensures selected { IfOk result (λ scan. (parts : List PartData)
        → AreRanges chunk.now map.now parts → AllByRecursion IsTruePart parts
        → rows_in_chunk map.now.rows scan.selected.items
        ≡ satisfying predicate.now chunk.now) }
    // The same of the ranges as parts.
    ensures full { IfOk result (λ scan. (parts : List PartData)
        → AreRanges chunk.now map.now parts → AllByRecursion IsTruePart parts
        → scan.selected.items ≡ full predicate.now parts) }
    // Whatever the table was made of: where each row of it is true of its range, the selected rows
    // are the chunk's rows that satisfy the predicate.
    ensures rows_selected { IfOk result (λ scan. AreTrueRanges chunk.now 0 map.now
        → rows_in_chunk map.now.rows scan.selected.items
        ≡ satisfying predicate.now chunk.now) }
    // By built-in rules a predicate whose ANDs are apart skips a zone exactly if no values within
    // its bounds satisfy it.
    ensures complete { IfOk result (λ scan. (zones : List ZoneData) → IsMapOf zones map.now
        → rules.now.own.items ≡ [] → IsTrue (has_disjoint_ands predicate.now)
        → ZonesSkipExactly predicate.now zones scan.skipped.items) }
    // All that `scan_ranges_from` finds from the first row on.
    ensures answered { let own = ⟦<Rules as OwnRules>⟧.own rules.now in
        IfOk result (λ scan.
        ScansRanges own predicate.now chunk.now 0 map.now (found_by scan)) }
    // When each refusal comes.
    ensures refused { let own = ⟦<Rules as OwnRules>⟧.own rules.now in
        let are_ranges = has_ranges chunk.now map.now in
        RefusesRanges are_ranges own predicate.now map.now result }
{
    if !has_ranges(chunk, map) {
        return Err(StatsError::Mismatch);
    }
    let found = scan_ranges_from(alloc, chunk, 0, map, predicate, rules)?;
    Ok(found.into_scan()?)
}
