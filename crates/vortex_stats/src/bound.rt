//! Upper and lower bounds over values with a total order.
ghost use Rattle.std.specs.Prelude.{◌≡◌, IfErr, IfOk, OnErr, alloc_error};
ghost use Rattle.vortex_stats.specs.Precision.{is_exact, is_exactly, IsPresentAnd};
ghost use Rattle.vortex_stats.specs.Bounds.Bound.{ClonesEqual, IsOkOrElse, IsValueAnd};
ghost use Rattle.vortex_stats.specs.Bounds.UpperBound.{upper_compared};
ghost use Rattle.vortex_stats.specs.Bounds.LowerBound.{lower_compared};
ghost use Rattle.vortex_stats.specs.declared.error.StatsError.TheVariants.{Memory};

use crate::chosen;
use crate::error::StatsError;
use crate::precision::Precision;
use crate::stat_bound::StatBound;
use std::alloc::AllocError;
use std::cmp::Ordering;
use std::marker::Model;

/// The values that two bounds allow in common.
#[derive(Debug, PartialEq, Eq, Drop)]
pub enum IntersectionResult<T> {
    /// The bound on the common values.
    Value(T),
    /// No value is allowed by both.
    Empty,
}

impl<T> IntersectionResult<T> {
    /// The value, or what `err` gives in place of Empty.
    pub fn ok_or_else<E, F: FnOnce() -> E>(self, err: F) -> Result<T, E>
    where
        F: Drop,
        requires { F.pre err }
        ensures { IsOkOrElse (F.post err) self result }
    {
        match self {
            IntersectionResult::Value(v) => Ok(v),
            IntersectionResult::Empty => Err(err()),
        }
    }
}

impl<T: Clone> IntersectionResult<T> {
    /// An equal result.
    pub fn try_clone(&self) -> Result<Self, StatsError>
        requires { ClonesEqual T.is_clone }
        ensures value { IfOk result (λ r. r ≡ self.now) }
        ensures refused { OnErr result (IsValueAnd self.now (λ v. ¬ (T.is_infallible v))) }
        ensures memory { IfErr result (λ error. error ≡ Memory alloc_error) }
    {
        match self {
            IntersectionResult::Value(v) => Ok(IntersectionResult::Value(v.clone()?)),
            IntersectionResult::Empty => Ok(IntersectionResult::Empty),
        }
    }
}

/// No value is greater: an inexact upper bound allows every value up to its own.
#[derive(Debug, PartialEq, Eq, Drop)]
pub struct UpperBound<T>(Precision<T>);

impl<T> Model for UpperBound<T> {
    ghost use Rattle.vortex_stats.specs.declared.precision.Precision.{Precision};

    ghost Value = { Precision T };

    ghost view = { λ b. b.0 };

    ghost inverse = { λ p. record { 0 = p } };
}

impl<T: Ord + Clone> StatBound<T> for UpperBound<T> {
    ghost use Rattle.vortex_stats.specs.Bounds.UpperBound.{
      upper_allows,
      greater,
      upper_union,
      upper_intersection,
      upper_allows-tied,
      upper_union-law,
      upper_intersection-law,
    };

    ghost precision = { λ b. b };

    ghost allows = { upper_allows T.cmp };

    ghost pick = { greater T.cmp };

    ghost union = { upper_union T.cmp };

    ghost intersection = { upper_intersection T.cmp };

    fn lift(value: Precision<T>) -> Self
        ensures { result ≡ value }
    {
        UpperBound(value)
    }

    fn into_value(self) -> Precision<T> {
        self.0
    }

    fn to_exact(&self) -> Option<&T> {
        self.0.to_exact()
    }

    fn union(&self, other: &Self) -> Result<Option<Self>, AllocError> {
        match chosen::union_of_uppers(&self.0, &other.0) {
            Some(value) => Ok(Some(UpperBound(value.cloned()?))),
            None => Ok(None),
        }
    }

    fn intersection(&self, other: &Self) -> Result<Option<IntersectionResult<Self>>, AllocError> {
        match chosen::intersection_of_uppers(&self.0, &other.0) {
            Some(IntersectionResult::Value(value)) => Ok(Some(IntersectionResult::Value(UpperBound(
                value.cloned()?,
            )))),
            Some(IntersectionResult::Empty) => Ok(Some(IntersectionResult::Empty)),
            None => Ok(None),
        }
    }

    ghost allows_law = { upper_allows-tied T.total };

    ghost union_law = { upper_union-law T.total };

    ghost intersection_law = { upper_intersection-law T.total };
}

impl<T: Ord> UpperBound<T> {
    /// Whether the bound is an exact value that equals `value`. An inexact bound never does, also
    /// where its value equals `value`.
    pub fn eq_value(&self, value: &T) -> bool
        ensures { result ≡ is_exactly T.eq self.now value.now }
    {
        self.0.eq_value(value)
    }

    /// The order of the bound's value and `value`, where it is known. Of an inexact bound whose
    /// value is greater it isn't, nor of an absent one.
    pub fn partial_cmp_value(&self, value: &T) -> Option<Ordering>
        ensures { result ≡ upper_compared T.cmp self.now value.now }
    {
        match &self.0 {
            Precision::Exact(v) => Some(v.cmp(value)),
            Precision::Inexact(v) => match v.cmp(value) {
                Ordering::Greater => None,
                order => Some(order),
            },
            Precision::Absent => None,
        }
    }
}

impl<T: Clone> UpperBound<T> {
    /// An equal bound.
    pub fn try_clone(&self) -> Result<Self, StatsError>
        requires { ClonesEqual T.is_clone }
        ensures value { IfOk result (λ r. r ≡ self.now) }
        ensures refused { OnErr result (IsPresentAnd self.now (λ v. ¬ (T.is_infallible v))) }
        ensures memory { IfErr result (λ error. error ≡ Memory alloc_error) }
    {
        Ok(UpperBound(self.0.as_ref().cloned()?))
    }
}

/// No value is less: an inexact lower bound allows every value from its own on.
#[derive(Debug, PartialEq, Eq, Drop)]
pub struct LowerBound<T>(Precision<T>);

impl<T> Model for LowerBound<T> {
    ghost use Rattle.vortex_stats.specs.declared.precision.Precision.{Precision};

    ghost Value = { Precision T };

    ghost view = { λ b. b.0 };

    ghost inverse = { λ p. record { 0 = p } };
}

impl<T: Ord + Clone> StatBound<T> for LowerBound<T> {
    ghost use Rattle.vortex_stats.specs.Bounds.LowerBound.{
      lower_allows,
      lesser,
      lower_union,
      lower_intersection,
      lower_allows-tied,
      lower_union-law,
      lower_intersection-law,
    };

    ghost precision = { λ b. b };

    ghost allows = { lower_allows T.cmp };

    ghost pick = { lesser T.cmp };

    ghost union = { lower_union T.cmp };

    ghost intersection = { lower_intersection T.cmp };

    fn lift(value: Precision<T>) -> Self
        ensures { result ≡ value }
    {
        LowerBound(value)
    }

    fn into_value(self) -> Precision<T> {
        self.0
    }

    fn to_exact(&self) -> Option<&T> {
        self.0.to_exact()
    }

    fn union(&self, other: &Self) -> Result<Option<Self>, AllocError> {
        match chosen::union_of_lowers(&self.0, &other.0) {
            Some(value) => Ok(Some(LowerBound(value.cloned()?))),
            None => Ok(None),
        }
    }

    fn intersection(&self, other: &Self) -> Result<Option<IntersectionResult<Self>>, AllocError> {
        match chosen::intersection_of_lowers(&self.0, &other.0) {
            Some(IntersectionResult::Value(value)) => Ok(Some(IntersectionResult::Value(LowerBound(
                value.cloned()?,
            )))),
            Some(IntersectionResult::Empty) => Ok(Some(IntersectionResult::Empty)),
            None => Ok(None),
        }
    }

    ghost allows_law = { lower_allows-tied T.total };

    ghost union_law = { lower_union-law T.total };

    ghost intersection_law = { lower_intersection-law T.total };
}

impl<T> LowerBound<T> {
    /// Whether the bound's value is exact.
    pub fn is_exact(&self) -> bool
        ensures { result ≡ is_exact self.now }
    {
        self.0.is_exact()
    }
}

impl<T: Ord> LowerBound<T> {
    /// Whether the bound is an exact value that equals `value`. An inexact bound never does, also
    /// where its value equals `value`.
    pub fn eq_value(&self, value: &T) -> bool
        ensures { result ≡ is_exactly T.eq self.now value.now }
    {
        self.0.eq_value(value)
    }

    /// The order of the bound's value and `value`, where it is known. Of an inexact bound whose
    /// value is less it isn't, nor of an absent one.
    pub fn partial_cmp_value(&self, value: &T) -> Option<Ordering>
        ensures { result ≡ lower_compared T.cmp self.now value.now }
    {
        match &self.0 {
            Precision::Exact(v) => Some(v.cmp(value)),
            Precision::Inexact(v) => match v.cmp(value) {
                Ordering::Less => None,
                order => Some(order),
            },
            Precision::Absent => None,
        }
    }
}

impl<T: Clone> LowerBound<T> {
    /// An equal bound.
    pub fn try_clone(&self) -> Result<Self, StatsError>
        requires { ClonesEqual T.is_clone }
        ensures value { IfOk result (λ r. r ≡ self.now) }
        ensures refused { OnErr result (IsPresentAnd self.now (λ v. ¬ (T.is_infallible v))) }
        ensures memory { IfErr result (λ error. error ≡ Memory alloc_error) }
    {
        Ok(LowerBound(self.0.as_ref().cloned()?))
    }
}
