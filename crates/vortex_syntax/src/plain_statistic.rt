//! A `stat` line in plain form, read straight from the bytes of a text, whose line isn't cut out
//! before. What isn't in this form is left to the reader of words, by which it is specified.
ghost use Rattle.std.specs.Prelude.{◌≡◌, ◌<◌, IfSome, Some, length};
ghost use Rattle.vortex_base.specs.Data.Scopes.{named_columns};
ghost use Rattle.vortex_stats.specs.Stat.{stat_dtype};
ghost use Rattle.vortex_syntax.specs.PlainStatistics.{BeginsClaim, BeginsPlainValue, BeginsSpaced, BeginsSpacedStat, BeginsSpacedValue, BeginsStat, precision_name};

use crate::columns::Columns;
use crate::plain::{plain_number, truth, word};
use crate::statistic::{Claim, precise, stat_of};
use vortex_base::dtype::DType;
use vortex_base::scalar_value::ScalarValue;
use vortex_stats::precision::Precision;
use vortex_stats::stat::Stat;

/// A statistic that a line tells of a column.
#[derive(Debug, Drop)]
pub struct StatLine {
    /// The place of the column.
    pub place: usize,
    pub stat: Stat,
    pub value: Precision<ScalarValue>,
}

// The word in plain form behind one space at the front of a text, and what follows it. None where
// nothing follows.
#[inline(always)]
fn spaced_word(text: &[u8]) -> Option<(&[u8], &[u8])>
    ensures word { IfSome result (λ x. BeginsSpaced text.now x.0.now x.1.now) }
    ensures shorter { IfSome result (λ x. length x.1.now < length text.now) }
{
    let [b' ', behind @ ..] = text else {
        return None;
    };
    let (word, rest) = word(behind)?;
    Some((word, rest))
}

// The statistic whose name stands behind one space at the front of a text, its type of a column of
// this type, and what follows it.
#[inline(never)]
fn other_stat(column: DType, text: &[u8]) -> Option<(Stat, DType, &[u8])>
    ensures stat { IfSome result (λ x. BeginsSpacedStat text.now x.0 x.2.now) }
    ensures dtype { IfSome result (λ x. stat_dtype x.0 column ≡ Some x.1) }
    ensures shorter { IfSome result (λ x. length x.2.now < length text.now) }
{
    let (word, rest) = spaced_word(text)?;
    let stat = stat_of(word)?;
    Some((stat, stat.dtype(&column)?, rest))
}

// Reads the word of a statistic behind one space, by its bytes where it is a bound.
#[inline(always)]
fn spaced_stat(column: DType, text: &[u8]) -> Option<(Stat, DType, &[u8])>
    ensures stat { IfSome result (λ x. BeginsSpacedStat text.now x.0 x.2.now) }
    ensures dtype { IfSome result (λ x. stat_dtype x.0 column ≡ Some x.1) }
    ensures shorter { IfSome result (λ x. length x.2.now < length text.now) }
{
    match text {
        [b' ', b'm', b'i', b'n', rest @ ..] => Some((Stat::Min, Stat::Min.dtype(&column)?, rest)),
        [b' ', b'm', b'a', b'x', rest @ ..] => Some((Stat::Max, Stat::Max.dtype(&column)?, rest)),
        _ => {
            let (stat, dtype, rest) = other_stat(column, text)?;
            Some((stat, dtype, rest))
        }
    }
}

// Whether `exact` stands behind one space at the front of a text, or else `inexact`, and what
// follows it.
#[inline(always)]
fn spaced_precision(text: &[u8]) -> Option<(bool, &[u8])>
    ensures word { IfSome result (λ x. BeginsSpaced text.now (precision_name x.0) x.1.now) }
    ensures shorter { IfSome result (λ x. length x.1.now < length text.now) }
{
    if let [b' ', b'e', b'x', b'a', b'c', b't', rest @ ..] = text {
        return Some((true, rest));
    }
    if let [b' ', b'i', b'n', b'e', b'x', b'a', b'c', b't', rest @ ..] = text {
        return Some((false, rest));
    }
    None
}

// The truth at the front of a text, if that is of this type, and what follows it.
#[inline(never)]
fn truth_value(dtype: DType, text: &[u8]) -> Option<(ScalarValue, &[u8])>
    ensures value { IfSome result (λ x. BeginsPlainValue dtype text.now x.0 x.1.now) }
    ensures shorter { IfSome result (λ x. length x.1.now < length text.now) }
{
    match dtype {
        DType::Bool(_) => {
            let (truth, rest) = truth(text)?;
            Some((ScalarValue::Bool(truth), rest))
        }
        _ => None,
    }
}

// The number or truth of a type at the front of a text, and what follows it.
#[inline(always)]
fn plain_scalar(dtype: DType, text: &[u8]) -> Option<(ScalarValue, &[u8])>
    ensures value { IfSome result (λ x. BeginsPlainValue dtype text.now x.0 x.1.now) }
    ensures shorter { IfSome result (λ x. length x.1.now < length text.now) }
{
    match dtype {
        DType::Primitive(ptype, _) => {
            let (number, rest) = plain_number(ptype, text)?;
            Some((ScalarValue::Primitive(number), rest))
        }
        _ => {
            let (truth, rest) = truth_value(dtype, text)?;
            Some((truth, rest))
        }
    }
}

// Reads a value behind one space.
#[inline(always)]
fn spaced_value(dtype: DType, text: &[u8]) -> Option<(ScalarValue, &[u8])>
    ensures value { IfSome result (λ x. BeginsSpacedValue dtype text.now x.0 x.1.now) }
    ensures shorter { IfSome result (λ x. length x.1.now < length text.now) }
{
    match text {
        [b' ', behind @ ..] => plain_scalar(dtype, behind),
        _ => None,
    }
}

// The column and the statistic that two words in plain form name at the front of a text, and what
// follows them. The column is found soonest near this place.
#[inline(always)]
fn plain_claim<'a>(columns: &Columns, near: usize, text: &'a [u8]) -> Option<(Claim, &'a [u8])>
    ensures claim { IfSome result (λ x. BeginsClaim (named_columns columns.now) text.now
        (x.0.place, x.0.stat, x.0.dtype) x.1.now) }
    ensures shorter { IfSome result (λ x. length x.1.now < length text.now) }
{
    let (name, named) = spaced_word(text)?;
    let (place, column) = columns.find_near(near, name)?;
    let (stat, dtype, rest) = spaced_stat(column, named)?;
    Some((Claim { place, stat, dtype }, rest))
}

/// Reads a line of which the word `stat` was passed, and gives the text after it: one space
/// in front of each word, the last of them a truth or a number in up to 19 digits, and a line feed.
/// None where anything else stands there. The column is found soonest near this place.
#[inline(always)]
pub fn plain_stat<'a>(
    columns: &Columns,
    near: usize,
    text: &'a [u8],
) -> Option<(StatLine, &'a [u8])>
    ensures told { IfSome result (λ x. BeginsStat (named_columns columns.now) text.now
        (x.0.place, x.0.stat, x.0.value) x.1.now) }
    ensures shorter { IfSome result (λ x. length x.1.now < length text.now) }
{
    let (claim, claimed) = plain_claim(columns, near, text)?;
    let (is_exact, behind) = spaced_precision(claimed)?;
    let (value, rest) = spaced_value(claim.dtype, behind)?;
    let [b'\n', after @ ..] = rest else {
        return None;
    };
    let told = StatLine {
        place: claim.place,
        stat: claim.stat,
        value: precise(is_exact, value),
    };
    Some((told, after))
}
