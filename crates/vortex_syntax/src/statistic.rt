//! The words of a `stat` line.
ghost use Rattle.std.specs.Prelude.{◌≡◌, IfErr, IsErrOf, IsTrue, option_map};
ghost use Rattle.vortex_base.specs.Data.Scopes.{named_columns};
ghost use Rattle.vortex_base.specs.declared.scalar_value.ScalarValue.{ScalarValue};
ghost use Rattle.vortex_syntax.specs.Copies.{claim_takes};
ghost use Rattle.vortex_syntax.specs.Fails.{Gives, IsBad};
ghost use Rattle.vortex_syntax.specs.PlainStatistics.{precise};
ghost use Rattle.vortex_syntax.specs.Statistics.{claimed, claimed_value, precision_of, stat_of, truth_stat_of};
ghost use Rattle.vortex_syntax.specs.Words.{words};

use crate::columns::Columns;
use crate::expected::Expected;
use crate::line_error::LineError;
use crate::names::is;
use crate::value::value_of;
use crate::word::{first_word, no_word, plain_word};
use std::alloc::Global;
use vortex_base::dtype::DType;
use vortex_base::scalar_value::ScalarValue;
use vortex_stats::precision::Precision;
use vortex_stats::stat::Stat;

// The statistic of a name, among the three truths and the count that no type has.
fn truth_stat_of(word: &[u8]) -> Option<Stat>
    ensures { result ≡ truth_stat_of word.now }
{
    if is(word, Stat::IsConstant.name().as_bytes()) {
        return Some(Stat::IsConstant);
    }
    if is(word, Stat::IsSorted.name().as_bytes()) {
        return Some(Stat::IsSorted);
    }
    if is(word, Stat::IsStrictSorted.name().as_bytes()) {
        return Some(Stat::IsStrictSorted);
    }
    if is(word, Stat::NaNCount.name().as_bytes()) {
        return Some(Stat::NaNCount);
    }
    None
}

/// The statistic of a name.
pub fn stat_of(word: &[u8]) -> Option<Stat>
    ensures { result ≡ stat_of word.now }
{
    if is(word, Stat::Min.name().as_bytes()) {
        return Some(Stat::Min);
    }
    if is(word, Stat::Max.name().as_bytes()) {
        return Some(Stat::Max);
    }
    if is(word, Stat::NullCount.name().as_bytes()) {
        return Some(Stat::NullCount);
    }
    if is(word, Stat::Sum.name().as_bytes()) {
        return Some(Stat::Sum);
    }
    if is(word, Stat::UncompressedSizeInBytes.name().as_bytes()) {
        return Some(Stat::UncompressedSizeInBytes);
    }
    truth_stat_of(word)
}

/// The value, exact or not.
#[inline(always)]
pub(crate) fn precise(is_exact: bool, value: ScalarValue) -> Precision<ScalarValue>
    ensures { result ≡ precise is_exact value }
{
    if is_exact {
        Precision::Exact(value)
    } else {
        Precision::Inexact(value)
    }
}

// Whether a word is `exact`, where it is that or `inexact`.
fn exactness_of(word: &[u8]) -> Option<bool>
    ensures { (v : ScalarValue) → precision_of word.now v ≡ option_map (λ e. precise e v) result }
{
    if is(word, b"exact") {
        return Some(true);
    }
    if is(word, b"inexact") {
        return Some(false);
    }
    None
}

/// A statistic that a line claims of a column.
#[derive(Debug, Drop)]
pub struct Claim {
    /// The place of the column.
    pub place: usize,
    pub stat: Stat,
    /// The type of the statistic's value.
    pub dtype: DType,
}

/// The column and the statistic that a line begins with, and the line after them.
pub fn read_claim<'a>(columns: &Columns, line: &'a [u8]) -> Result<(Claim, &'a [u8]), LineError>
    ensures claim { Gives (λ x. ((x.0.place, x.0.stat, x.0.dtype), words x.1.now)) result
        (claimed (named_columns columns.now) (words line.now)) }
    ensures bad { IfErr result IsBad }
{
    let (name, named) = plain_word(line, Expected::Column)?;
    let Some((place, column)) = columns.find(name) else {
        return Err(LineError::at(line.len(), Expected::Column));
    };
    let (word, rest) = plain_word(named, Expected::Stat)?;
    let Some(stat) = stat_of(word) else {
        return Err(LineError::at(named.len(), Expected::Stat));
    };
    let Some(dtype) = stat.dtype(&column) else {
        return Err(LineError::at(named.len(), Expected::StatOf(column)));
    };
    Ok((Claim { place, stat, dtype }, rest))
}

/// The value of a statistic, with its precision. Nothing may stand behind it.
pub fn read_claimed(
    alloc: Global,
    dtype: DType,
    line: &[u8],
) -> Result<Precision<ScalarValue>, LineError>
    ensures value { Gives (λ p. p) result (claimed_value dtype (words line.now)) }
    ensures memory { IsErrOf result LineError.Memory
        → IsTrue (claim_takes dtype (words line.now)) }
{
    let (precision, behind) = plain_word(line, Expected::Precision)?;
    let Some(is_exact) = exactness_of(precision) else {
        return Err(LineError::at(line.len(), Expected::Precision));
    };
    let (word, rest) = first_word(alloc, behind, Expected::Value(dtype))?;
    let value = value_of(alloc, dtype, word, behind.len())?;
    no_word(rest)?;
    Ok(precise(is_exact, value))
}
