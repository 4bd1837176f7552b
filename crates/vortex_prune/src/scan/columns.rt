//! Marks that are taken away by the values of one column, a truth a row.
ghost use Rattle.std.specs.Prelude.{◌≡◌, ◌+◌, ◌<◌, ◌≤◌, ◌^◌, ◌&&◌, None, false, length, map, not, option_map, replicate, slice_index_or};
ghost use Rattle.vortex_base.specs.Data.PrimitiveArray.{optionals};
ghost use Rattle.vortex_base.specs.declared.scalar_value.ScalarValue.TheVariants as value;
ghost use Rattle.vortex_prune.specs.Scanning.Leaves.{compares_at, is_between_at, lies_at, passes_at};
ghost use Rattle.vortex_prune.specs.Scanning.Marks.{marked};

use crate::scan::comparison::{Above, AtLeast, AtMost, Below, Comparison, match_each_comparison};
use crate::scan::leaf::{Ends, Test, passes};
use crate::scan::like::keep_like;
use crate::scan::strings::{Strings, keep_strings};
use vortex_base::array_data::ArrayData;
use vortex_base::column::Column;
use vortex_base::match_each_native;
use vortex_base::native::Native;
use vortex_base::primitive_array::PrimitiveArray;
use vortex_base::utf8_array::Utf8Array;
use vortex_expr::scalar_fn::Operator;

// Whether a value that may be there compares so with another.
#[inline]
fn is_so<T: Native, C: Comparison>(values: &[T], validity: &[bool], place: usize, number: T) -> bool
    requires long { length values.now ≡ length validity.now }
    requires within { place < length validity.now }
    ensures { let cells = map (option_map T.scalar) (optionals values.now validity.now) in
        result ≡ compares_at C.operator (T.scalar number) cells place }
{
    validity[place] & C::is_true_of(values[place].order(number))
}

// Takes away the marks, from a place on, at which a comparison with a number isn't true. Each value
// is looked at, so that no branch depends on a mark.
fn keep_compared<T: Native, C: Comparison>(
    values: &[T],
    validity: &[bool],
    number: T,
    from: usize,
    marks: &mut [bool],
)
    requires long { length values.now ≡ length validity.now }
    requires within { from + length marks.old ≤ length validity.now }
    ensures { let cells = map (option_map T.scalar) (optionals values.now validity.now) in
        marks.new ≡ marked (compares_at C.operator (T.scalar number) cells) from marks.old }
{
    for k in 0..marks.len() {
        marks[k] = marks[k] & is_so::<T, C>(values, validity, from + k, number);
    }
}

// Takes away the marks, from a place on, at which the comparison with a number isn't true.
fn keep_natives<T: Native>(
    values: &[T],
    validity: &[bool],
    operator: Operator,
    number: T,
    from: usize,
    marks: &mut [bool],
)
    requires long { length values.now ≡ length validity.now }
    requires within { from + length marks.old ≤ length validity.now }
    ensures { let cells = map (option_map T.scalar) (optionals values.now validity.now) in
        marks.new ≡ marked (compares_at operator (T.scalar number) cells) from marks.old }
{
    match_each_comparison!(
        operator,
        keep_compared::<T>(values, validity, number, from, marks),
        marks.fill(false)
    )
}

// Takes away the marks, from a place on, at which a truth is set.
fn keep_unset(validity: &[bool], from: usize, marks: &mut [bool])
    requires { from + length marks.old ≤ length validity.now }
    ensures { marks.new ≡ marked (λ i. not (slice_index_or validity.now i false)) from marks.old }
{
    for k in 0..marks.len() {
        marks[k] = marks[k] & !validity[from + k];
    }
}

// Takes away the marks, from a place on, at which a truth isn't set.
fn keep_set(validity: &[bool], from: usize, marks: &mut [bool])
    requires { from + length marks.old ≤ length validity.now }
    ensures { marks.new ≡ marked (λ i. slice_index_or validity.now i false) from marks.old }
{
    for k in 0..marks.len() {
        marks[k] = marks[k] & validity[from + k];
    }
}

// Takes away the marks, from a place on, at which null doesn't pass.
fn keep_at_nulls(test: Test<'_>, count: usize, from: usize, marks: &mut [bool])
    ensures { marks.new ≡ marked (passes_at test.entry (replicate count None)) from marks.old }
{
    if !passes(test, None) {
        marks.fill(false);
    }
}

// Whether a mark stays at a value of a column. Past the end stands null.
#[inline]
fn stays_by(mark: bool, column: &Column, place: usize, test: Test<'_>) -> bool
    ensures { result ≡ (mark && passes_at test.entry column.now.values place) }
{
    if !mark {
        return false;
    }
    let value = if place < column.len() {
        column.get(place)
    } else {
        None
    };
    passes(test, value)
}

// Takes away the marks, from a place on, at which a value of a column doesn't pass.
fn keep_values(column: &Column, test: Test<'_>, from: usize, marks: &mut [bool])
    requires { from + length marks.old < 2 ^ 64 }
    ensures { marks.new ≡ marked (passes_at test.entry column.now.values) from marks.old }
{
    for k in 0..marks.len() {
        marks[k] = stays_by(marks[k], column, from + k, test);
    }
}

// Keeps the rows that pass of a column whose values are truths or numbers of one type.
fn keep_typed<T: Native>(
    column: &Column,
    natives: &PrimitiveArray<T>,
    test: Test<'_>,
    from: usize,
    marks: &mut [bool],
)
    requires room { from + length marks.old < 2 ^ 64 }
    requires same { column.now.values ≡ map (option_map T.scalar) natives.now }
    ensures { marks.new ≡ marked (passes_at test.entry column.now.values) from marks.old }
{
    let (values, validity) = natives.as_slices();
    if from + marks.len() > validity.len() {
        return keep_values(column, test, from, marks);
    }
    match test {
        Test::Null => keep_unset(validity, from, marks),
        Test::NotNull => keep_set(validity, from, marks),
        Test::Is(operator, other) => match T::of_lent(other) {
            Some(number) => keep_natives(values, validity, operator, number, from, marks),
            None => keep_values(column, test, from, marks),
        },
        Test::Like(_, _) => keep_values(column, test, from, marks),
    }
}

// Keeps the rows that pass of a column of texts or byte strings.
fn keep_lent<S: Strings>(
    column: &Column,
    strings: &S,
    test: Test<'_>,
    from: usize,
    marks: &mut [bool],
)
    requires room { from + length marks.old < 2 ^ 64 }
    requires same { column.now.values ≡ map (option_map S.scalar) (S.strings strings.now) }
    ensures { marks.new ≡ marked (passes_at test.entry column.now.values) from marks.old }
{
    if let Test::Is(operator, other) = test {
        if let Some(bytes) = S::bytes_of(other) {
            return keep_strings(strings, operator, bytes, from, marks);
        }
    }
    keep_values(column, test, from, marks)
}

// Keeps the rows that pass of a column of texts.
fn keep_texts(column: &Column, texts: &Utf8Array, test: Test<'_>, from: usize, marks: &mut [bool])
    requires room { from + length marks.old < 2 ^ 64 }
    requires same { column.now.values ≡ map (option_map value.Utf8) texts.now }
    ensures { marks.new ≡ marked (passes_at test.entry column.now.values) from marks.old }
{
    match test {
        Test::Like(options, pattern) => keep_like(texts, options, pattern, from, marks),
        _ => keep_lent(column, texts, test, from, marks),
    }
}

/// Takes away the marks, from a place on, at which a value of a column doesn't pass.
pub(crate) fn keep_passing(column: &Column, test: Test<'_>, from: usize, marks: &mut [bool])
    requires { from + length marks.old < 2 ^ 64 }
    ensures { marks.new ≡ marked (passes_at test.entry column.now.values) from marks.old }
{
    match_each_native!(column.cells(),
        natives => keep_typed(column, natives, test, from, marks),
        ArrayData::Nulls(nulls) => keep_at_nulls(test, nulls.count(), from, marks),
        ArrayData::Utf8(texts) => keep_texts(column, texts, test, from, marks),
        ArrayData::Binary(blobs) => keep_lent(column, blobs, test, from, marks),
        _ => keep_values(column, test, from, marks))
}

// Takes away the marks, from a place on, at which a number doesn't lie between two ends. Each is
// looked at once for both.
fn keep_within<T: Native, L: Comparison, U: Comparison>(
    values: &[T],
    validity: &[bool],
    low: T,
    high: T,
    from: usize,
    marks: &mut [bool],
)
    requires long { length values.now ≡ length validity.now }
    requires within { from + length marks.old ≤ length validity.now }
    ensures { let cells = map (option_map T.scalar) (optionals values.now validity.now) in
        let test = is_between_at L.operator U.operator (T.scalar low) (T.scalar high) cells in
        marks.new ≡ marked test from marks.old }
{
    for k in 0..marks.len() {
        let is_above = is_so::<T, L>(values, validity, from + k, low);
        let is_below = is_so::<T, U>(values, validity, from + k, high);
        marks[k] = marks[k] & (is_above & is_below);
    }
}

// Takes away the marks, from a place on, at which a column's value doesn't meet both ends, one
// after the other.
fn keep_apart(ends: Ends<'_>, from: usize, marks: &mut [bool])
    requires { from + length marks.old < 2 ^ 64 }
    ensures { marks.new ≡ marked (lies_at ends.entry) from marks.old }
{
    keep_passing(ends.column, Test::Is(ends.lower, ends.low), from, marks);
    keep_passing(ends.column, Test::Is(ends.upper, ends.high), from, marks);
}

// Keeps the rows between the ends of a column whose values are truths or numbers of one type.
fn keep_lying_natives<T: Native>(
    ends: Ends<'_>,
    natives: &PrimitiveArray<T>,
    from: usize,
    marks: &mut [bool],
)
    requires room { from + length marks.old < 2 ^ 64 }
    requires same { ends.column.now.values ≡ map (option_map T.scalar) natives.now }
    ensures { marks.new ≡ marked (lies_at ends.entry) from marks.old }
{
    let (values, validity) = natives.as_slices();
    if from + marks.len() > validity.len() {
        return keep_apart(ends, from, marks);
    }
    let (Some(low), Some(high)) = (T::of_lent(ends.low), T::of_lent(ends.high)) else {
        return keep_apart(ends, from, marks);
    };
    match (ends.lower, ends.upper) {
        (Operator::Gt, Operator::Lt) => {
            keep_within::<T, Above, Below>(values, validity, low, high, from, marks);
        }
        (Operator::Gt, Operator::Lte) => {
            keep_within::<T, Above, AtMost>(values, validity, low, high, from, marks);
        }
        (Operator::Gte, Operator::Lt) => {
            keep_within::<T, AtLeast, Below>(values, validity, low, high, from, marks);
        }
        (Operator::Gte, Operator::Lte) => {
            keep_within::<T, AtLeast, AtMost>(values, validity, low, high, from, marks);
        }
        _ => keep_apart(ends, from, marks),
    }
}

/// Takes away the marks, from a place on, at which a column's value doesn't lie between two ends.
pub(crate) fn keep_lying(ends: Ends<'_>, from: usize, marks: &mut [bool])
    requires { from + length marks.old < 2 ^ 64 }
    ensures { marks.new ≡ marked (lies_at ends.entry) from marks.old }
{
    match_each_native!(ends.column.cells(),
        natives => keep_lying_natives(ends, natives, from, marks),
        _ => keep_apart(ends, from, marks))
}
