//! On which rows of a table an expression is true, a truth a row, found for many rows together: a
//! leaf goes over the values of its column, AND and OR over the marks that their sides leave, and
//! any other expression over the rows. The rows are those of a part, or a map's, one a zone.
ghost use Rattle.std.specs.Prelude.{◌≡◌, ◌+◌, ◌<◌, ◌≤◌, ◌&&◌, IfOk, IsTrue, Some, length};
ghost use Rattle.std.specs.Prelude.{false, option_copied, vec_len};
ghost use Rattle.std.specs.List.{list_any};
ghost use Rattle.vortex_base.specs.Data.Columns.{row_count};
ghost use Rattle.vortex_expr.specs.Trees.Tree.{between, binary};
ghost use Rattle.vortex_expr.specs.declared.scalar_fn.Operator.TheVariants.{Or};
ghost use Rattle.vortex_prune.specs.Scanning.Gaps.{AreAlike, IsGathered, are_true_at, is_untrue_at};
ghost use Rattle.vortex_prune.specs.Scanning.Marks.{HasCounts, count_at, either_marked, is_told};
ghost use Rattle.vortex_prune.specs.Scanning.Marks.{is_true_at, left_marked, marked};

use crate::scan::columns::{keep_lying, keep_passing};
use crate::scan::gaps::{Gap, asked, keep_passed, put_beside, put_gap, put_in_order};
use crate::scan::leaf::{compared, leaf_of};
use crate::scan::search::keep_ordered;
use crate::scan::within::within;
use std::alloc::{AllocError, Global};
use vortex_base::chunk::Chunk;
use vortex_expr::bound_expression::BoundExpression;
use vortex_expr::bound_expression::parts::Parts;
use vortex_expr::scalar_fn::{BetweenOptions, Operator};
use vortex_zone_map::zone_map::ZoneMap;

/// How many rows are looked at together: their cells of a column fill some 16 KB.
pub(crate) const BLOCK: usize = 1024;

// From how many rows on it pays to look for two ends between which a column's values lie.
const MANY: usize = 128;

// How many zones are looked at together for each pair of a long proof.
const ZONES_PER_PAIR: usize = 64;

/// The worth of the row count on the rows of a table.
#[derive(Clone, Copy)]
pub(crate) enum Counts<'a> {
    /// One number on each row.
    Same(u64),
    /// One for each.
    Each(&'a [u64]),
}

/// Rows that are tested together.
#[derive(Clone, Copy)]
pub(crate) struct Table<'a> {
    pub(crate) chunk: &'a Chunk,
    pub(crate) counts: Counts<'a>,
}

// The worth of the row count on the row at a place.
#[inline]
fn count_at(counts: Counts<'_>, place: usize) -> u64
    ensures { result ≡ count_at counts.entry place }
{
    match counts {
        Counts::Same(count) => count,
        Counts::Each(counts) => match counts.get(place) {
            Some(count) => *count,
            None => 0,
        },
    }
}

// Whether a mark stays on a row.
fn stays_on(mark: bool, table: Table<'_>, place: usize, e: &BoundExpression) -> bool
    requires { place < row_count table.chunk.now.columns }
    ensures { result
        ≡ (mark && is_true_at e.now table.entry.chunk.now.columns table.entry.counts place) }
{
    mark && e.is_satisfied(&table.chunk.row(place), count_at(table.counts, place))
}

// Takes away the marks of the rows, from a place on, on which an expression isn't true.
#[inline(never)]
fn keep_rows(table: Table<'_>, e: &BoundExpression, from: usize, marks: &mut [bool])
    requires { from + length marks.old ≤ row_count table.chunk.now.columns }
    ensures { let test = is_true_at e.now table.entry.chunk.now.columns table.entry.counts in
        marks.new ≡ marked test from marks.old }
{
    let _rows = table.chunk.rows();
    for k in 0..marks.len() {
        marks[k] = stays_on(marks[k], table, from + k, e);
    }
}

// Keeps marks by the values of a column, if the expression asks something of these.
fn keep_asked(table: Table<'_>, e: &BoundExpression, from: usize, marks: &mut [bool])
    requires { from + length marks.old ≤ row_count table.chunk.now.columns }
    ensures { let test = is_true_at e.now table.entry.chunk.now.columns table.entry.counts in
        marks.new ≡ marked test from marks.old }
{
    let _rows = table.chunk.rows();
    match leaf_of(table.chunk, e) {
        Some(leaf) => keep_passing(leaf.column, leaf.test, from, marks),
        None => keep_rows(table, e, from, marks),
    }
}

// Keeps the marks of many rows by the values of a column, if the expression says that these lie
// between two ends. Returns whether it does, and else leaves the marks as they are.
#[inline]
fn keep_within(table: Table<'_>, e: &BoundExpression, from: usize, marks: &mut [bool]) -> bool
    requires { from + length marks.old ≤ row_count table.chunk.now.columns }
    ensures kept { let test = is_true_at e.now table.entry.chunk.now.columns table.entry.counts in
        IsTrue result → marks.new ≡ marked test from marks.old }
    ensures same { result ≡ false → marks.new ≡ marks.old }
{
    if marks.len() < MANY {
        return false;
    }
    let _rows = table.chunk.rows();
    match within(table.chunk, e) {
        Some(ends) => {
            keep_lying(ends, from, marks);
            true
        }
        None => false,
    }
}

// Keeps the marks of a BETWEEN, which is a comparison with each end.
fn keep_between(
    table: Table<'_>,
    e: &BoundExpression,
    options: BetweenOptions,
    x: &BoundExpression,
    lower: &BoundExpression,
    upper: &BoundExpression,
    from: usize,
    marks: &mut [bool],
)
    requires within { from + length marks.old ≤ row_count table.chunk.now.columns }
    requires between { e.now ≡ between options x.now lower.now upper.now }
    ensures { let test = is_true_at e.now table.entry.chunk.now.columns table.entry.counts in
        marks.new ≡ marked test from marks.old }
{
    let _rows = table.chunk.rows();
    if keep_within(table, e, from, marks) {
        return;
    }
    let (low, high) = (
        options.lower_strict.to_operator(),
        options.upper_strict.to_operator(),
    );
    if let (Some(above), Some(below)) = (
        compared(table.chunk, low, lower, x),
        compared(table.chunk, high, x, upper),
    ) {
        keep_passing(above.column, above.test, from, marks);
        keep_passing(below.column, below.test, from, marks);
    } else {
        keep_rows(table, e, from, marks);
    }
}

// Whether a mark is among any.
fn is_any(marks: &[bool]) -> bool
    ensures { result ≡ list_any (λ mark. mark) marks.now }
{
    marks.iter().any(|mark| *mark)
}

// Adds the marks of others, as many, to some.
fn add_marks(marks: &mut [bool], others: &[bool])
    requires { length marks.old ≡ length others.now }
    ensures { marks.new ≡ either_marked marks.old others.now }
{
    for k in 0..marks.len() {
        marks[k] = marks[k] | others[k];
    }
}

// Takes away the marks of others, as many.
fn take_marks(marks: &mut [bool], others: &[bool])
    requires { length marks.old ≡ length others.now }
    ensures { marks.new ≡ left_marked marks.old others.now }
{
    for k in 0..marks.len() {
        marks[k] = marks[k] & !others[k];
    }
}

// Takes away the marks of the rows on which not every one of some gaps is passed.
fn keep_gaps(alloc: Global, table: Table<'_>, gaps: &mut [Gap<'_>], from: usize, marks: &mut [bool])
    requires alike { AreAlike table.chunk.now.columns gaps.old }
    requires within { from + length marks.old ≤ row_count table.chunk.now.columns }
    ensures { let test = are_true_at gaps.old table.entry.chunk.now.columns table.entry.counts in
        marks.new ≡ marked test from marks.old }
{
    let _rows = table.chunk.rows();
    let in_order = put_in_order(gaps);
    let Some(first) = gaps.get(0) else {
        return;
    };
    let asked = asked(first);
    if in_order {
        keep_ordered(alloc, gaps, first, asked, from, marks);
    } else {
        keep_passed(gaps, false, asked, from, marks);
    }
}

// The left side of a connective, if an expression is one.
fn left_of(e: &BoundExpression, connective: Operator) -> Option<&BoundExpression> {
    match e.parts() {
        Parts::Binary(operator, left, _) if operator == connective => Some(left),
        _ => None,
    }
}

// Whether a connective stands within itself within itself, so that it may have many sides.
fn is_long(e: &BoundExpression, connective: Operator) -> bool {
    let Some(left) = left_of(e, connective) else {
        return false;
    };
    let Some(left) = left_of(left, connective) else {
        return false;
    };
    left_of(left, connective).is_some()
}

// Whether a mark stays on a row where an expression isn't true.
fn is_left_on(mark: bool, table: Table<'_>, place: usize, e: &BoundExpression) -> bool
    requires { place < row_count table.chunk.now.columns }
    ensures { result
        ≡ (mark && is_untrue_at e.now table.entry.chunk.now.columns table.entry.counts place) }
{
    mark && !e.is_satisfied(&table.chunk.row(place), count_at(table.counts, place))
}

// Takes away the marks of the rows on which an expression is true, row by row.
#[inline(never)]
fn drop_rows(table: Table<'_>, e: &BoundExpression, from: usize, marks: &mut [bool])
    requires { from + length marks.old ≤ row_count table.chunk.now.columns }
    ensures { let test = is_untrue_at e.now table.entry.chunk.now.columns table.entry.counts in
        marks.new ≡ marked test from marks.old }
{
    let _rows = table.chunk.rows();
    for k in 0..marks.len() {
        marks[k] = is_left_on(marks[k], table, from + k, e);
    }
}

// Takes away the marks of the rows, from a place on, on which an expression is true.
#[cycle(keep)]
#[inline(never)]
fn drop_true(alloc: Global, table: Table<'_>, e: &BoundExpression, from: usize, marks: &mut [bool])
    requires { from + length marks.old ≤ row_count table.chunk.now.columns }
    ensures { let test = is_untrue_at e.now table.entry.chunk.now.columns table.entry.counts in
        marks.new ≡ marked test from marks.old }
{
    match Vec::from_slice(alloc, marks) {
        Ok(mut others) => {
            keep_true(alloc, table, e, from, &mut others);
            take_marks(marks, &others);
        }
        Err(AllocError) => drop_rows(table, e, from, marks),
    }
}

// Takes away the marks of the rows on which an expression is true, but for those sides of an OR
// that are spans like each other, for which it puts the gap beside each behind others.
#[cycle(keep)]
fn sift<'a>(
    alloc: Global,
    table: Table<'a>,
    e: &'a BoundExpression,
    from: usize,
    marks: &mut [bool],
    gaps: &mut Vec<Gap<'a>>,
)
    requires within { from + length marks.old ≤ row_count table.chunk.now.columns }
    requires alike { AreAlike table.chunk.now.columns gaps.old.items }
    ensures gathered { let test = is_untrue_at e.entry.now table.entry.chunk.now.columns
        table.entry.counts in
        IsGathered table.entry.chunk.now.columns table.entry.counts test from
        gaps.old.items gaps.new.items marks.old marks.new }
    ensures alike { AreAlike table.entry.chunk.now.columns gaps.new.items }
{
    match e.parts() {
        Parts::Binary(Operator::Or, left, right) => {
            sift(alloc, table, left, from, marks, gaps);
            sift(alloc, table, right, from, marks, gaps);
        }
        Parts::Binary(Operator::And, left, right) => {
            if put_beside(table.chunk, left, right, gaps) {
                return;
            }
            drop_true(alloc, table, e, from, marks);
        }
        _ => drop_true(alloc, table, e, from, marks),
    }
}

// Takes away the marks of the rows on which either side of a long OR is true: those on which not
// every gap beside its spans is passed, or on which another of its sides is true.
#[cycle(keep)]
fn drop_any(
    alloc: Global,
    table: Table<'_>,
    e: &BoundExpression,
    left: &BoundExpression,
    right: &BoundExpression,
    from: usize,
    marks: &mut [bool],
)
    requires within { from + length marks.old ≤ row_count table.chunk.now.columns }
    requires either { e.now ≡ binary Or left.now right.now }
    ensures { let test = is_untrue_at e.now table.entry.chunk.now.columns table.entry.counts in
        marks.new ≡ marked test from marks.old }
{
    let mut gaps = Vec::new(alloc);
    sift(alloc, table, left, from, marks, &mut gaps);
    sift(alloc, table, right, from, marks, &mut gaps);
    keep_gaps(alloc, table, &mut gaps, from, marks);
}

// The marks of the rows on which either side of a long OR is true. Where there is no memory for
// the marks that it leaves, each row is tested by itself.
#[cycle(keep)]
fn keep_any(
    alloc: Global,
    table: Table<'_>,
    e: &BoundExpression,
    left: &BoundExpression,
    right: &BoundExpression,
    from: usize,
    marks: &mut [bool],
)
    requires within { from + length marks.old ≤ row_count table.chunk.now.columns }
    requires either { e.now ≡ binary Or left.now right.now }
    ensures { let test = is_true_at e.now table.entry.chunk.now.columns table.entry.counts in
        marks.new ≡ marked test from marks.old }
{
    match Vec::from_slice(alloc, marks) {
        Ok(mut others) => {
            drop_any(alloc, table, e, left, right, from, &mut others);
            take_marks(marks, &others);
        }
        Err(AllocError) => keep_rows(table, e, from, marks),
    }
}

// The marks of the rows on which either of two expressions is true. Where there is no memory for
// the marks that the left one leaves to the other, each row is tested by itself.
#[cycle(keep)]
fn keep_either(
    alloc: Global,
    table: Table<'_>,
    e: &BoundExpression,
    left: &BoundExpression,
    right: &BoundExpression,
    from: usize,
    marks: &mut [bool],
)
    requires within { from + length marks.old ≤ row_count table.chunk.now.columns }
    requires either { e.now ≡ binary Or left.now right.now }
    ensures { let test = is_true_at e.now table.entry.chunk.now.columns table.entry.counts in
        marks.new ≡ marked test from marks.old }
{
    match Vec::from_slice(alloc, marks) {
        Ok(mut others) => {
            keep_true(alloc, table, left, from, marks);
            take_marks(&mut others, marks);
            keep_true(alloc, table, right, from, &mut others);
            add_marks(marks, &others);
        }
        Err(AllocError) => keep_rows(table, e, from, marks),
    }
}

// Takes away the marks of the rows on which an expression isn't true, but for those sides of an AND
// that are gaps like each other, which it puts behind others.
#[cycle(keep)]
fn gather<'a>(
    alloc: Global,
    table: Table<'a>,
    searched: bool,
    e: &'a BoundExpression,
    from: usize,
    marks: &mut [bool],
    gaps: &mut Vec<Gap<'a>>,
)
    requires within { from + length marks.old ≤ row_count table.chunk.now.columns }
    requires alike { AreAlike table.chunk.now.columns gaps.old.items }
    ensures gathered { let test = is_true_at e.entry.now table.entry.chunk.now.columns
        table.entry.counts in
        IsGathered table.entry.chunk.now.columns table.entry.counts test from
        gaps.old.items gaps.new.items marks.old marks.new }
    ensures alike { AreAlike table.entry.chunk.now.columns gaps.new.items }
{
    match e.parts() {
        Parts::Binary(Operator::And, left, right) => {
            if keep_within(table, e, from, marks) {
                return;
            }
            gather(alloc, table, searched, left, from, marks, gaps);
            gather(alloc, table, searched, right, from, marks, gaps);
        }
        Parts::Binary(Operator::Or, left, right) => {
            if searched && put_gap(table.chunk, left, right, gaps) {
                return;
            }
            if is_long(e, Operator::Or) {
                keep_any(alloc, table, e, left, right, from, marks);
            } else {
                keep_either(alloc, table, e, left, right, from, marks);
            }
        }
        Parts::Between(options, x, lower, upper) => {
            keep_between(table, e, options, x, lower, upper, from, marks);
        }
        _ => keep_asked(table, e, from, marks),
    }
}

// Takes away the marks of the rows, from a place on, on which an expression isn't true. Nothing is
// looked at where no mark is left, and the sides of a long AND that are gaps are searched, as are
// those of a long OR that are spans.
#[cycle(keep)]
pub(crate) fn keep_true(
    alloc: Global,
    table: Table<'_>,
    e: &BoundExpression,
    from: usize,
    marks: &mut [bool],
)
    requires { from + length marks.old ≤ row_count table.chunk.now.columns }
    ensures { let test = is_true_at e.now table.entry.chunk.now.columns table.entry.counts in
        marks.new ≡ marked test from marks.old }
{
    if !is_any(marks) {
        return;
    }
    let mut gaps = Vec::new(alloc);
    let searched = is_long(e, Operator::And);
    gather(alloc, table, searched, e, from, marks, &mut gaps);
    keep_gaps(alloc, table, &mut gaps, from, marks);
}

// Returns where a block of at most so many rows ends that begins at a place, before the end of all.
pub(crate) fn block_end(from: usize, end: usize, size: usize) -> usize
    requires before { from < end }
    requires some { 0 < size }
    ensures after { from < result }
    ensures within { result ≤ end }
    ensures short { result ≤ from + size }
{
    if end - from < size { end } else { from + size }
}

// Returns how many pairs of expressions are compared or connected.
fn count_pairs(e: &BoundExpression) -> usize {
    match e.parts() {
        Parts::Binary(_, left, right) => {
            let pairs = count_pairs(left).saturating_add(count_pairs(right));
            pairs.saturating_add(1)
        }
        _ => 0,
    }
}

/// Returns how many zones are looked at together by a proof. A proof of many comparisons is bound
/// and collected anew for each block of zones, so blocks grow with its comparisons.
pub fn block_size(bound: &BoundExpression) -> usize
    ensures { 0 < result }
{
    let size = count_pairs(bound).saturating_mul(ZONES_PER_PAIR);
    if size < BLOCK { BLOCK } else { size }
}

// The rows of a map's table, one a zone.
fn zones_of(map: &ZoneMap) -> Table<'_>
    ensures chunk { result.chunk.now ≡ map.entry.now.table }
    ensures counts { HasCounts result.counts map.entry.now.rows }
    ensures counted { length map.entry.now.rows ≡ row_count result.chunk.now.columns }
{
    let (chunk, counts) = (map.table(), Counts::Each(map.counts()));
    Table { chunk, counts }
}

// The marks of a block of zones, from a place on, that stay.
fn block_passing(
    alloc: Global,
    map: &ZoneMap,
    bound: &BoundExpression,
    from: usize,
    marks: &[bool],
) -> Result<Vec<bool>, AllocError>
    requires { from + length marks.now ≤ length map.now.rows }
    ensures told { IfOk result (λ told.
        told.items ≡ marked (is_told (Some bound.now) map.now) from marks.now) }
    ensures long { IfOk result (λ told. vec_len told ≡ length marks.now) }
{
    let mut told = Vec::from_slice(alloc, marks)?;
    if !is_any(marks) {
        return Ok(told);
    }
    keep_true(alloc, zones_of(map), bound, from, &mut told);
    Ok(told)
}

// The marks of all zones that stay, block by block.
fn all_passing(
    alloc: Global,
    map: &ZoneMap,
    bound: &BoundExpression,
    marks: &[bool],
) -> Result<Vec<bool>, AllocError>
    requires { length marks.now ≡ length map.now.rows }
    ensures { IfOk result (λ told.
        told.items ≡ marked (is_told (Some bound.now) map.now) 0 marks.now) }
{
    let size = block_size(bound);
    let mut told = Vec::with_capacity(alloc, marks.len())?;
    'runs: while told.len() < marks.len() {
        let from = told.len();
        let to = block_end(from, marks.len(), size);
        let mut block = block_passing(alloc, map, bound, from, &marks[from..to])?;
        told.append(&mut block)?;
    }
    Ok(told)
}

// The marks of the zones that stay: those of which a bound proof, if there is one, is true.
pub(crate) fn zones_passing(
    alloc: Global,
    map: &ZoneMap,
    bound: Option<&BoundExpression>,
    marks: &[bool],
) -> Result<Vec<bool>, AllocError>
    requires { length marks.now ≡ length map.now.rows }
    ensures { IfOk result (λ told.
        told.items ≡ marked (is_told (option_copied bound.entry) map.now) 0 marks.now) }
{
    match bound {
        Some(bound) => all_passing(alloc, map, bound, marks),
        None => Ok(vec![in alloc; false; marks.len()]?),
    }
}
