//! The kinds of statistics.
ghost use Rattle.std.specs.Prelude.{◌≡◌, Some};
ghost use Rattle.std.specs.Iterator.{YieldsFirst, item_count};
ghost use Rattle.vortex_stats.specs.Stat.{
  all_stats,
  stat_number,
  stat_at,
  stat_name,
  is_commutative,
  has_same_dtype_as_array,
  stat_dtype,
  sum_dtype,
  sum_ptype,
  stat_aggregate,
  aggregate_stat,
};

use crate::bound::{LowerBound, UpperBound};
use crate::precision::Precision;
use crate::stat_bound::StatType;
use std::fmt;
use std::marker::Model;
use vortex_base::aggregate::AggregateFnRef;
use vortex_base::dtype::DType;
use vortex_base::types::{Nullability, PType};

/// A kind of statistic of a column. Each has a number, and they are ordered by it.
#[derive(Debug, Clone, Copy, PartialEq, Eq, PartialOrd, Ord, Hash)]
pub enum Stat {
    /// 0: whether all values are the same, where a null is the same as nulls alone.
    IsConstant,
    /// 1: whether the values, nulls left out, ascend.
    IsSorted,
    /// 2: whether the values, nulls left out, ascend strictly.
    IsStrictSorted,
    /// 3: the greatest value, nulls left out.
    Max,
    /// 4: the least value, nulls left out.
    Min,
    /// 5: the sum of the values, nulls left out; a true counts 1.
    Sum,
    /// 6: the number of nulls.
    NullCount,
    /// 7: the size of the values in bytes, before any compression.
    UncompressedSizeInBytes,
    /// 8: the number of values that are no numbers. No column type of today has one.
    NaNCount,
}

/// All statistics in the order of their numbers.
pub const ALL_STATS: &[Stat] = &[
    Stat::IsConstant,
    Stat::IsSorted,
    Stat::IsStrictSorted,
    Stat::Max,
    Stat::Min,
    Stat::Sum,
    Stat::NullCount,
    Stat::UncompressedSizeInBytes,
    Stat::NaNCount,
];

/// The statistics that pruning reads.
pub const PRUNING_STATS: &[Stat] = &[
    Stat::Min,
    Stat::Max,
    Stat::Sum,
    Stat::NullCount,
    Stat::NaNCount,
];

impl Stat {
    /// All statistics, ascending.
    #[tactic(auto, unfolding(crate::specs::Stat::all_stats))]
    pub fn all() -> StatAll
        ensures { result ≡ all_stats }
    {
        StatAll { rest: ALL_STATS }
    }

    /// The number of the statistic, from 0 to 8.
    pub fn number(self) -> u8
        ensures { result ≡ stat_number self }
    {
        self as u8
    }

    /// The statistic of a number, and None for a number above 8.
    pub fn from_number(number: u8) -> Option<Self>
        ensures { result ≡ stat_at number }
    {
        match number {
            0 => Some(Stat::IsConstant),
            1 => Some(Stat::IsSorted),
            2 => Some(Stat::IsStrictSorted),
            3 => Some(Stat::Max),
            4 => Some(Stat::Min),
            5 => Some(Stat::Sum),
            6 => Some(Stat::NullCount),
            7 => Some(Stat::UncompressedSizeInBytes),
            8 => Some(Stat::NaNCount),
            _ => None,
        }
    }

    /// The name of the statistic, in lower case with underscores.
    pub fn name(&self) -> &'static str
        ensures { result.now ≡ stat_name self.now }
    {
        match self {
            Stat::IsConstant => "is_constant",
            Stat::IsSorted => "is_sorted",
            Stat::IsStrictSorted => "is_strict_sorted",
            Stat::Max => "max",
            Stat::Min => "min",
            Stat::Sum => "sum",
            Stat::NullCount => "null_count",
            Stat::UncompressedSizeInBytes => "uncompressed_size_in_bytes",
            Stat::NaNCount => "nan_count",
        }
    }

    /// Whether the statistics of parts may be merged in any order.
    pub fn is_commutative(&self) -> bool
        ensures { result ≡ is_commutative self.now }
    {
        !matches!(self, Stat::IsSorted | Stat::IsStrictSorted)
    }

    /// Whether the statistic's value is of the column's type.
    pub fn has_same_dtype_as_array(&self) -> bool
        ensures { result ≡ has_same_dtype_as_array self.now }
    {
        matches!(self, Stat::Max | Stat::Min)
    }

    /// The type of the statistic of a column of this type, and None where it has no such statistic.
    pub fn dtype(&self, dtype: &DType) -> Option<DType>
        ensures { result ≡ stat_dtype self.now dtype.now }
    {
        match self {
            Stat::IsConstant | Stat::IsSorted | Stat::IsStrictSorted => {
                Some(DType::Bool(Nullability::NonNullable))
            }
            Stat::Max | Stat::Min => match *dtype {
                DType::Null => None,
                other => Some(other),
            },
            Stat::Sum => sum_type(*dtype),
            Stat::NullCount | Stat::UncompressedSizeInBytes => {
                Some(DType::Primitive(PType::U64, Nullability::NonNullable))
            }
            Stat::NaNCount => None,
        }
    }

    /// The aggregate that computes the statistic, if there is one.
    pub fn aggregate_fn(&self) -> Option<AggregateFnRef>
        ensures { result ≡ stat_aggregate self.now }
    {
        match self {
            Stat::IsConstant | Stat::IsSorted | Stat::IsStrictSorted => None,
            Stat::Max => Some(AggregateFnRef::Max),
            Stat::Min => Some(AggregateFnRef::Min),
            Stat::Sum => Some(AggregateFnRef::Sum),
            Stat::NullCount => Some(AggregateFnRef::NullCount),
            Stat::UncompressedSizeInBytes => Some(AggregateFnRef::UncompressedSizeInBytes),
            Stat::NaNCount => Some(AggregateFnRef::NanCount),
        }
    }

    /// The statistic that the aggregate computes, if there is one.
    pub fn from_aggregate_fn(aggregate: &AggregateFnRef) -> Option<Self>
        ensures { result ≡ aggregate_stat aggregate.now }
    {
        match aggregate {
            AggregateFnRef::Max => Some(Stat::Max),
            AggregateFnRef::Min => Some(Stat::Min),
            AggregateFnRef::Sum => Some(Stat::Sum),
            AggregateFnRef::NullCount => Some(Stat::NullCount),
            AggregateFnRef::NanCount => Some(Stat::NaNCount),
            AggregateFnRef::UncompressedSizeInBytes => Some(Stat::UncompressedSizeInBytes),
            AggregateFnRef::AllNull | AggregateFnRef::AllNonNull | AggregateFnRef::MinMax => None,
        }
    }
}

// The type of the sum of a column of this type, and None where it has no sum.
fn sum_type(dtype: DType) -> Option<DType>
    ensures { result ≡ sum_dtype dtype }
{
    match dtype {
        DType::Bool(_) => Some(DType::Primitive(PType::U64, Nullability::Nullable)),
        DType::Primitive(ptype, _) => Some(DType::Primitive(
            sum_type_of(ptype),
            Nullability::Nullable,
        )),
        DType::Null | DType::Utf8(_) | DType::Binary(_) | DType::MinMaxState(_, _) => None,
    }
}

// The widest type of the same sign.
fn sum_type_of(ptype: PType) -> PType
    ensures { result ≡ sum_ptype ptype }
{
    match ptype {
        PType::U8 | PType::U16 | PType::U32 | PType::U64 => PType::U64,
        PType::I8 | PType::I16 | PType::I32 | PType::I64 => PType::I64,
    }
}

/// The statistic's name.
impl fmt::Display for Stat {
    ghost output = { λ s. Some (stat_name s) };

    fn fmt<W: fmt::Write>(&self, f: &mut fmt::Formatter<W>) -> fmt::Result {
        write!(f, "{}", self.name())
    }
}

/// The statistic that stands in free places of a small vector.
impl Default for Stat {
    ghost use Rattle.std.specs.Prelude.{◌≡◌};
    ghost use Rattle.vortex_stats.specs.declared.stat.Stat.TheVariants.{IsConstant};

    ghost is_default = { λ s. s ≡ IsConstant };

    fn default() -> Self {
        Stat::IsConstant
    }
}

/// The statistics that are left, ascending.
#[derive(Drop)]
pub struct StatAll {
    rest: &'static [Stat],
}

impl Model for StatAll {
    ghost use Rattle.std.specs.Prelude.{List};
    ghost use Rattle.vortex_stats.specs.declared.stat.Stat.{Stat};

    ghost Value = { List Stat };

    ghost view = { λ s. s.rest.now };
}

impl Iterator for StatAll {
    type Item = Stat;

    ghost next_gives = { YieldsFirst (λ s. s) };

    ghost remaining = { item_count (λ s. s) };

    fn next(&mut self) -> Option<Stat> {
        let (first, rest) = self.rest.split_first()?;
        self.rest = rest;
        Some(*first)
    }
}

/// The marker of [`Stat::IsConstant`].
pub struct IsConstant;

impl StatType<bool> for IsConstant {
    ghost use Rattle.vortex_stats.specs.declared.stat.Stat.TheVariants.{IsConstant};

    type Bound = Precision<bool>;

    ghost STAT = { IsConstant };

    const STAT: Stat = Stat::IsConstant;
}

/// The marker of [`Stat::IsSorted`].
pub struct IsSorted;

impl StatType<bool> for IsSorted {
    ghost use Rattle.vortex_stats.specs.declared.stat.Stat.TheVariants.{IsSorted};

    type Bound = Precision<bool>;

    ghost STAT = { IsSorted };

    const STAT: Stat = Stat::IsSorted;
}

/// The marker of [`Stat::IsStrictSorted`].
pub struct IsStrictSorted;

impl StatType<bool> for IsStrictSorted {
    ghost use Rattle.vortex_stats.specs.declared.stat.Stat.TheVariants.{IsStrictSorted};

    type Bound = Precision<bool>;

    ghost STAT = { IsStrictSorted };

    const STAT: Stat = Stat::IsStrictSorted;
}

/// The marker of [`Stat::Max`].
pub struct Max;

impl<T: Ord + Clone> StatType<T> for Max {
    ghost use Rattle.vortex_stats.specs.declared.stat.Stat.TheVariants.{Max};

    type Bound = UpperBound<T>;

    ghost STAT = { Max };

    const STAT: Stat = Stat::Max;
}

/// The marker of [`Stat::Min`].
pub struct Min;

impl<T: Ord + Clone> StatType<T> for Min {
    ghost use Rattle.vortex_stats.specs.declared.stat.Stat.TheVariants.{Min};

    type Bound = LowerBound<T>;

    ghost STAT = { Min };

    const STAT: Stat = Stat::Min;
}

/// The marker of [`Stat::Sum`].
pub struct Sum;

impl<T: Ord + Clone> StatType<T> for Sum {
    ghost use Rattle.vortex_stats.specs.declared.stat.Stat.TheVariants.{Sum};

    type Bound = Precision<T>;

    ghost STAT = { Sum };

    const STAT: Stat = Stat::Sum;
}

/// The marker of [`Stat::NullCount`].
pub struct NullCount;

impl<T: Ord + Clone> StatType<T> for NullCount {
    ghost use Rattle.vortex_stats.specs.declared.stat.Stat.TheVariants.{NullCount};

    type Bound = UpperBound<T>;

    ghost STAT = { NullCount };

    const STAT: Stat = Stat::NullCount;
}

/// The marker of [`Stat::UncompressedSizeInBytes`].
pub struct UncompressedSizeInBytes;

impl<T: Ord + Clone> StatType<T> for UncompressedSizeInBytes {
    ghost use Rattle.vortex_stats.specs.declared.stat.Stat.TheVariants.{UncompressedSizeInBytes};

    type Bound = UpperBound<T>;

    ghost STAT = { UncompressedSizeInBytes };

    const STAT: Stat = Stat::UncompressedSizeInBytes;
}

/// The marker of [`Stat::NaNCount`].
pub struct NaNCount;

impl<T: Ord + Clone> StatType<T> for NaNCount {
    ghost use Rattle.vortex_stats.specs.declared.stat.Stat.TheVariants.{NaNCount};

    type Bound = UpperBound<T>;

    ghost STAT = { NaNCount };

    const STAT: Stat = Stat::NaNCount;
}
