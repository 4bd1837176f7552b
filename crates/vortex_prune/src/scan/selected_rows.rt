//! The rows that a scan selects, each as its part and its place there.
ghost use Rattle.std.specs.Prelude.{◌≡◌, ◌==◌, ◌↔◌, ◌+◌, ◌^◌, ◌<◌, ◌≤◌, ◌++◌, ◌∷◌, []};
ghost use Rattle.std.specs.Prelude.{IfOk, IsTrue, OnErr, OnOk};
ghost use Rattle.std.specs.Prelude.{length, nat_lt, slice_get, vec_capacity, vec_len};
ghost use Rattle.std.specs.Cmp.{partial_equiv_from_equiv};
ghost use Rattle.std.specs.Iterator.{YieldsFirst, item_count};
ghost use Rattle.vortex_base.specs.Data.Exact.{exact_equivalence};
ghost use Rattle.vortex_prune.specs.Scanning.Marks.{marked_rows};
ghost use Rattle.vortex_prune.specs.Scanning.RangeScans.{range_all};
ghost use Rattle.vortex_prune.specs.Scanning.SelectedRows.{rows_eq, rows_eq_is_exact};
ghost use Rattle.vortex_prune.specs.Scanning.Selection.{row_if};

use std::alloc::{AllocError, Global};
use std::marker::Model;

/// Rows in order, each as its part and its place there. They take 8 bytes each as long as all these
/// numbers fit 32 bits, and 16 from the first one on that doesn't.
#[derive(Debug, Drop)]
pub struct SelectedRows {
    short: Vec<(u32, u32)>,
    long: Vec<(usize, usize)>,
}

impl Model for SelectedRows {
    ghost use Rattle.std.specs.Prelude.{◌++◌, ℕ, List};

    ghost Value = { List (ℕ × ℕ) };

    ghost view = { λ s. s.short.items ++ s.long.items };
}

// Whether a number fits 32 bits.
#[inline(always)]
fn is_short(number: usize) -> bool
    ensures { result ≡ nat_lt number (2 ^ 32) }
{
    number <= u32::MAX as usize
}

// Adds a row of a part, if it is marked. There is room for it. It's put there in any case and taken
// away again, for which no jump is made that depends on the mark.
#[inline(always)]
fn push_if(rows: &mut Vec<(u32, u32)>, mark: bool, part: u32, row: u32)
    requires { vec_len rows.old < vec_capacity rows.old }
    ensures rows { rows.new.items ≡ rows.old.items ++ row_if mark part row }
    ensures len { vec_len rows.new ≤ vec_len rows.old + 1 }
    ensures capacity { vec_capacity rows.new ≡ vec_capacity rows.old }
{
    let before = rows.len();
    rows.push_reserved((part, row));
    if !mark {
        rows.truncate(before);
    }
}

// Adds the marked rows of a part, from one of them on.
fn push_marked(
    rows: &mut Vec<(u32, u32)>,
    part: u32,
    from: u32,
    marks: &[bool],
) -> Result<(), AllocError>
    requires { from + length marks.now < 2 ^ 32 }
    ensures { OnOk result (rows.new.items ≡ rows.old.items ++ marked_rows part from marks.now) }
{
    rows.reserve(marks.len())?;
    for k in 0..marks.len() {
        push_if(rows, marks[k], part, from + k as u32);
    }
    Ok(())
}

// Adds so many rows of a part, from the first on.
fn push_all(rows: &mut Vec<(u32, u32)>, part: u32, count: u32) -> Result<(), AllocError>
    ensures { OnOk result (rows.new.items ≡ rows.old.items ++ range_all part count) }
{
    rows.reserve(count as usize)?;
    for row in 0..count {
        rows.push_reserved((part, row));
    }
    Ok(())
}

// Adds rows in 32 bits.
fn push_pairs(pairs: &mut Vec<(usize, usize)>, rows: &[(u32, u32)]) -> Result<(), AllocError>
    ensures { OnOk result (pairs.new.items ≡ pairs.old.items ++ rows.now) }
{
    for (part, row) in rows {
        pairs.push((*part as usize, *row as usize))?;
    }
    Ok(())
}

impl SelectedRows {
    /// No rows yet.
    pub fn new(alloc: Global) -> SelectedRows
        ensures { result ≡ [] }
    {
        SelectedRows {
            short: Vec::new(alloc),
            long: Vec::new(alloc),
        }
    }

    /// The number of rows.
    #[inline]
    pub fn len(&self) -> usize
        ensures { result ≡ length self.now }
    {
        self.short.len() + self.long.len()
    }

    /// Whether there are no rows.
    #[inline]
    pub fn is_empty(&self) -> bool
        ensures { result ≡ (length self.now == 0) }
    {
        self.len() == 0
    }

    /// The row at a place, as its part and its place there; `None` past the end.
    #[inline]
    pub fn get(&self, i: usize) -> Option<(usize, usize)>
        ensures { result ≡ slice_get self.now i }
    {
        if i < self.short.len() {
            let (part, row) = self.short[i];
            Some((part as usize, row as usize))
        } else {
            self.long.get(i - self.short.len()).copied()
        }
    }

    // Adds a row in 64 bits.
    #[inline(never)]
    fn push_long(&mut self, part: usize, row: usize) -> Result<(), AllocError>
        ensures pushed { OnOk result (self.new ≡ self.old ++ (part, row) ∷ []) }
        ensures refused { OnErr result (self.new ≡ self.old) }
    {
        self.long.push((part, row))?;
        Ok(())
    }

    /// Adds a row of a part. If memory is refused, the rows are as they were.
    #[inline]
    pub fn push(&mut self, part: usize, row: usize) -> Result<(), AllocError>
        ensures pushed { OnOk result (self.new ≡ self.old ++ (part, row) ∷ []) }
        ensures refused { OnErr result (self.new ≡ self.old) }
    {
        if is_short(part) && is_short(row) && self.long.is_empty() {
            self.short.push((part as u32, row as u32))?;
            Ok(())
        } else {
            self.push_long(part, row)
        }
    }

    // Adds a row of a part, if it is marked.
    fn push_where(&mut self, mark: bool, part: usize, row: usize) -> Result<(), AllocError>
        ensures { OnOk result (self.new ≡ self.old ++ row_if mark part row) }
    {
        if mark { self.push(part, row) } else { Ok(()) }
    }

    // Adds the marked rows of a part, from one of them on, row by row.
    #[inline(never)]
    fn push_each(&mut self, part: usize, from: usize, marks: &[bool]) -> Result<(), AllocError>
        requires { from + length marks.now < 2 ^ 64 }
        ensures { OnOk result (self.new ≡ self.old ++ marked_rows part from marks.now) }
    {
        for k in 0..marks.len() {
            self.push_where(marks[k], part, from + k)?;
        }
        Ok(())
    }

    // Adds the marked rows of a part, from one of them on.
    pub(crate) fn push_marked(
        &mut self,
        part: usize,
        from: usize,
        marks: &[bool],
    ) -> Result<(), AllocError>
        requires { from + length marks.now < 2 ^ 64 }
        ensures { OnOk result (self.new ≡ self.old ++ marked_rows part from marks.now) }
    {
        if is_short(part) && is_short(from + marks.len()) && self.long.is_empty() {
            push_marked(&mut self.short, part as u32, from as u32, marks)
        } else {
            self.push_each(part, from, marks)
        }
    }

    // Adds so many rows of a part, from the first on, row by row.
    #[inline(never)]
    fn push_all_each(&mut self, part: usize, count: usize) -> Result<(), AllocError>
        ensures { OnOk result (self.new ≡ self.old ++ range_all part count) }
    {
        for row in 0..count {
            self.push(part, row)?;
        }
        Ok(())
    }

    // Adds so many rows of a part, from the first on.
    pub(crate) fn push_all(&mut self, part: usize, count: usize) -> Result<(), AllocError>
        ensures { OnOk result (self.new ≡ self.old ++ range_all part count) }
    {
        if is_short(part) && is_short(count) && self.long.is_empty() {
            push_all(&mut self.short, part as u32, count as u32)
        } else {
            self.push_all_each(part, count)
        }
    }

    /// Returns the rows as pairs, each as its part and its place there. If memory is refused, they
    /// are dropped.
    pub fn into_pairs(self) -> Result<Vec<(usize, usize)>, AllocError>
        ensures { IfOk result (λ pairs. pairs.items ≡ self) }
    {
        let SelectedRows { short, long } = self;
        if short.is_empty() {
            return Ok(long);
        }
        let mut pairs = Vec::with_capacity(*short.allocator(), short.len() + long.len())?;
        push_pairs(&mut pairs, &short)?;
        pairs.extend_from_slice(&long)?;
        Ok(pairs)
    }

    /// The rows in order.
    #[inline]
    pub fn iter(&self) -> SelectedRowsIter<'_>
        ensures { result ≡ self.now }
    {
        SelectedRowsIter {
            rows: self,
            next: 0,
        }
    }

    // The allocator of the rows.
    pub(crate) fn allocator(&self) -> Global {
        *self.short.allocator()
    }
}

/// The selected rows that are left to go through, in order.
#[derive(Drop)]
pub struct SelectedRowsIter<'a> {
    rows: &'a SelectedRows,
    next: usize,
}

impl<'a> Model for SelectedRowsIter<'a> {
    ghost use Rattle.std.specs.Prelude.{◌≤◌, ℕ, List, drop, length};

    ghost Value = { List (ℕ × ℕ) };

    ghost view = { λ s. drop s.next s.rows.now };

    ghost invariant = { λ s. s.next ≤ length s.rows.now };
}

impl<'a> Iterator for SelectedRowsIter<'a> {
    type Item = (usize, usize);

    ghost next_gives = { YieldsFirst (λ s. s) };

    ghost remaining = { item_count (λ s. s) };

    #[inline]
    fn next(&mut self) -> Option<(usize, usize)> {
        // Shows that their number is one of 64 bits.
        let _len = self.rows.len();
        let row = self.rows.get(self.next)?;
        self.next += 1;
        Some(row)
    }
}

impl PartialEq for SelectedRows {
    ghost eq = { rows_eq };

    ghost laws = { partial_equiv_from_equiv (exact_equivalence rows_eq rows_eq_is_exact) };

    fn eq(&self, other: &SelectedRows) -> bool
        ensures value { result ≡ rows_eq self.now other.now }
        ensures same { IsTrue result ↔ (self.now ≡ other.now) }
    {
        if self.len() != other.len() {
            return false;
        }
        for i in 0..self.len() {
            if self.get(i) != other.get(i) {
                return false;
            }
        }
        true
    }
}

impl Eq for SelectedRows {
    ghost laws = { exact_equivalence rows_eq rows_eq_is_exact };
}
