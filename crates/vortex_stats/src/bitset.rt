//! Sets of statistics as bytes.
ghost use Rattle.std.specs.Prelude.{◌≡◌, ◌≤◌, IfErr, IfOk, alloc_error};
ghost use Rattle.vortex_stats.specs.Stat.{stat_number};
ghost use Rattle.vortex_stats.specs.declared.error.StatsError.TheVariants.{Memory};
ghost use Rattle.vortex_stats.specs.Sets.Bitset.{is_set, stats_in, IsBitsetOf};
ghost use Rattle.vortex_stats.specs.Sets.Bitset.{bit, is_listed, number_of, low_bits, high_bits};

use crate::error::StatsError;
use crate::stat::Stat;
use std::alloc::{AllocError, Global};

/// The statistics of the list as two bytes: bit k of byte j, counted from the least, stands for the
/// number 8j + k.
#[tactic(auto, using(crate::proofs::Sets::Bits::bitset_of_items))]
pub fn as_stat_bitset_bytes(alloc: Global, stats: &[Stat]) -> Result<Vec<u8>, AllocError>
    ensures { IfOk result (λ bytes. IsBitsetOf stats.now bytes.items) }
{
    Vec::from_slice(alloc, &[low_byte(stats), high_byte(stats)])
}

/// The statistics whose numbers are set in the bytes, ascending. Bytes may be missing, and numbers
/// that are no statistic's are passed over.
pub fn stats_from_bitset_bytes(alloc: Global, bytes: &[u8]) -> Result<Vec<Stat>, StatsError>
    ensures value { IfOk result (λ stats. stats.items ≡ stats_in bytes.now) }
    ensures memory { IfErr result (λ error. error ≡ Memory alloc_error) }
{
    let stats: Vec<Stat> = Stat::all()
        .filter(|stat| is_set_in(bytes, *stat))
        .collect(alloc)?;
    Ok(stats)
}

// Whether the statistic's number is set in the bytes.
fn is_set_in(bytes: &[u8], stat: Stat) -> bool
    ensures { result ≡ is_set bytes.now (stat_number stat) }
{
    let number = stat.number();
    match bytes.get(number as usize / 8) {
        Some(byte) => (*byte >> (number % 8)) % 2 == 1,
        None => false,
    }
}

// Whether the statistic is listed.
fn is_listed_in(stats: &[Stat], stat: Stat) -> bool
    ensures { result ≡ is_listed stats.now stat }
{
    stats.iter().any(|listed| listed.number() == stat.number())
}

// 1 where the statistic is listed, else 0.
fn bit_for(stats: &[Stat], stat: Stat) -> u8
    ensures value { result ≡ bit (is_listed stats.now stat) }
    ensures small { result ≤ 1 }
{
    if is_listed_in(stats, stat) { 1 } else { 0 }
}

// The byte of the numbers 0 to 7.
fn low_byte(stats: &[Stat]) -> u8
    ensures { result ≡ number_of (low_bits stats.now) }
{
    let high_half = bit_for(stats, Stat::Min)
        + 2 * (bit_for(stats, Stat::Sum)
            + 2 * (bit_for(stats, Stat::NullCount)
                + 2 * bit_for(stats, Stat::UncompressedSizeInBytes)));
    bit_for(stats, Stat::IsConstant)
        + 2 * (bit_for(stats, Stat::IsSorted)
            + 2 * (bit_for(stats, Stat::IsStrictSorted)
                + 2 * (bit_for(stats, Stat::Max) + 2 * high_half)))
}

// The byte of the numbers 8 to 15, of which 8 alone is a statistic's.
fn high_byte(stats: &[Stat]) -> u8
    ensures { result ≡ number_of (high_bits stats.now) }
{
    bit_for(stats, Stat::NaNCount)
}
