//! A value with a precision.
ghost use Rattle.std.specs.Prelude.{◌≡◌, Ok, Err, Some, IfOk, OnErr, IsTrue};
ghost use Rattle.std.specs.Option.{option_map};
ghost use Rattle.vortex_stats.specs.declared.precision.Precision.{Precision};
ghost use Rattle.vortex_stats.specs.declared.error.StatsError.TheVariants.{Mismatch};
ghost use Rattle.vortex_stats.specs.Bounds.Bound.{ClonesEqual};
ghost use Rattle.vortex_stats.specs.Scalars.{precise_scalar, checked_scalar, IsAnswerOrMemory};
ghost use Rattle.vortex_base.specs.Data.Scalars.{is_long};
ghost use Rattle.vortex_stats.specs.Copies.{is_copied};
ghost use Rattle.vortex_stats.specs.StatsError.{OnMemory};
ghost use Rattle.vortex_stats.specs.Precision.{
  is_exact,
  is_absent,
  is_exactly,
  exact_value,
  inexact_value,
  present_value,
  inexact_of,
  precision_map,
  precision_zip,
  transposed,
  present_only,
  IsExactAnd,
  IsInexactAnd,
  IfPresent,
  IsPresentAnd,
  IsMapped,
  IsMappedOrAbsent,
};

use crate::error::StatsError;
use crate::stat_bound::{StatBound, StatType};
use std::alloc::AllocError;
use std::fmt;
use vortex_base::dtype::DType;
use vortex_base::scalar::Scalar;
use vortex_base::scalar_value::ScalarValue;

/// A statistic's value and how far it can be trusted.
///
/// An exact value is the statistic. An inexact one confines it, and how is for the statistic to
/// say: of a maximum it is an upper bound, of a minimum a lower one. Of an absent one nothing is
/// known.
#[derive(Debug, Clone, Copy, PartialEq, Eq, Drop)]
pub enum Precision<T> {
    /// The statistic's value.
    Exact(T),
    /// A value that confines the statistic.
    Inexact(T),
    /// Nothing is known.
    Absent,
}

impl<T> Default for Precision<T> {
    ghost use Rattle.std.specs.Prelude.{◌≡◌};
    ghost use Rattle.vortex_stats.specs.declared.precision.Precision.TheVariants.{Absent};

    ghost is_default = { λ p. p ≡ Absent };

    fn default() -> Self {
        Precision::Absent
    }
}

impl<T> Precision<T> {
    /// An exact value.
    pub fn exact<S: Into<T>>(value: S) -> Self
        ensures { IsExactAnd result (S.converts value) }
    {
        Precision::Exact(value.into())
    }

    /// An inexact value.
    pub fn inexact<S: Into<T>>(value: S) -> Self
        ensures { IsInexactAnd result (S.converts value) }
    {
        Precision::Inexact(value.into())
    }

    /// Borrows the value, in the same case.
    pub fn as_ref(&self) -> Precision<&T>
        ensures { precision_map (λ r. r.now) result ≡ self.now }
    {
        match self {
            Precision::Exact(v) => Precision::Exact(v),
            Precision::Inexact(v) => Precision::Inexact(v),
            Precision::Absent => Precision::Absent,
        }
    }

    /// The value, from here on inexact.
    pub fn into_inexact(self) -> Self
        ensures { result ≡ inexact_of self }
    {
        match self {
            Precision::Exact(v) => Precision::Inexact(v),
            other => other,
        }
    }

    /// The value if it is exact.
    pub fn as_exact(self) -> Option<T>
    where
        T: Drop,
        ensures { result ≡ exact_value self }
    {
        match self {
            Precision::Exact(v) => Some(v),
            _ => None,
        }
    }

    /// The value if it is inexact.
    pub fn as_inexact(self) -> Option<T>
    where
        T: Drop,
        ensures { result ≡ inexact_value self }
    {
        match self {
            Precision::Inexact(v) => Some(v),
            _ => None,
        }
    }

    /// The value at either precision.
    pub fn into_inner(self) -> Option<T>
        ensures { result ≡ present_value self }
    {
        match self {
            Precision::Exact(v) | Precision::Inexact(v) => Some(v),
            Precision::Absent => None,
        }
    }

    /// Whether the value is exact.
    pub fn is_exact(&self) -> bool
        ensures { result ≡ is_exact self.now }
    {
        matches!(self, Precision::Exact(_))
    }

    /// Whether nothing is known.
    pub fn is_absent(&self) -> bool
        ensures { result ≡ is_absent self.now }
    {
        matches!(self, Precision::Absent)
    }

    /// Applies `f` to the value, in the same case.
    pub fn map<U, F: FnOnce(T) -> U>(self, f: F) -> Precision<U>
    where
        F: Drop,
        requires { IfPresent self (F.pre f) }
        ensures { IsMapped (F.post f) self result }
    {
        match self {
            Precision::Exact(v) => Precision::Exact(f(v)),
            Precision::Inexact(v) => Precision::Inexact(f(v)),
            Precision::Absent => Precision::Absent,
        }
    }

    /// Applies `f` to the value, in the same case, and answers Absent where it answers None.
    pub fn and_then<U, F: FnOnce(T) -> Option<U>>(self, f: F) -> Precision<U>
    where
        F: Drop,
        requires { IfPresent self (F.pre f) }
        ensures { IsMappedOrAbsent (F.post f) self result }
    {
        match self {
            Precision::Exact(v) => match f(v) {
                Some(u) => Precision::Exact(u),
                None => Precision::Absent,
            },
            Precision::Inexact(v) => match f(v) {
                Some(u) => Precision::Inexact(u),
                None => Precision::Absent,
            },
            Precision::Absent => Precision::Absent,
        }
    }

    /// Both values: exact if both are, and Absent if either is.
    pub fn zip<U>(self, other: Precision<U>) -> Precision<(T, U)>
    where
        T: Drop,
        U: Drop,
        ensures { result ≡ precision_zip self other }
    {
        match (self, other) {
            (Precision::Exact(a), Precision::Exact(b)) => Precision::Exact((a, b)),
            (
                Precision::Exact(a) | Precision::Inexact(a),
                Precision::Exact(b) | Precision::Inexact(b),
            ) => Precision::Inexact((a, b)),
            _ => Precision::Absent,
        }
    }

    /// Whether this is an exact value that equals `value`. An inexact one never does.
    pub fn eq_value(&self, value: &T) -> bool
    where
        T: PartialEq,
        ensures { result ≡ is_exactly T.eq self.now value.now }
    {
        match self {
            Precision::Exact(v) => *v == *value,
            _ => false,
        }
    }
}

impl<T: Copy> Precision<T> {
    /// A copy of the value, inexact.
    pub fn to_inexact(&self) -> Self
        ensures { result ≡ inexact_of self.now }
    {
        self.into_inexact()
    }
}

impl<T: Ord + Clone> Precision<T> {
    /// The bound of the statistic `S` with this value, and None where nothing is known.
    pub fn bound<S: StatType<T>>(self) -> Option<S::Bound>
        ensures { option_map S.Bound.precision result ≡ present_only self }
    {
        if self.is_absent() {
            return None;
        }
        Some(<S::Bound as StatBound<T>>::lift(self))
    }
}

impl Precision<ScalarValue> {
    /// Makes the value a scalar of this type, in the same case. `Mismatch` if the value is none of
    /// the type.
    pub fn into_scalar(self, dtype: DType) -> Result<Precision<Scalar>, StatsError>
        ensures { result ≡ precise_scalar self dtype }
    {
        match self {
            Precision::Exact(v) => Ok(Precision::Exact(typed(v, dtype)?)),
            Precision::Inexact(v) => Ok(Precision::Inexact(typed(v, dtype)?)),
            Precision::Absent => Ok(Precision::Absent),
        }
    }
}

impl Precision<&ScalarValue> {
    /// Makes a clone of the value a scalar of this type, in the same case. `Mismatch` if the
    /// value is none of the type, which is found before anything is cloned; `Memory` if the clone
    /// of a text or bytes is refused.
    pub fn into_scalar(self, dtype: DType) -> Result<Precision<Scalar>, StatsError>
        ensures answer { let value = precision_map (λ v. v.now) self.entry in
            IsAnswerOrMemory (precise_scalar value dtype) result }
        ensures memory { let value = precision_map (λ v. v.now) self.entry in
            OnMemory result (IsTrue (is_copied value)) }
    {
        match self {
            Precision::Exact(v) => Ok(Precision::Exact(typed_clone(v, dtype)?)),
            Precision::Inexact(v) => Ok(Precision::Inexact(typed_clone(v, dtype)?)),
            Precision::Absent => Ok(Precision::Absent),
        }
    }
}

// The scalar of a value and its type.
pub(crate) fn typed(value: ScalarValue, dtype: DType) -> Result<Scalar, StatsError>
    ensures { result ≡ checked_scalar value dtype }
{
    match Scalar::try_new(dtype, Some(value)) {
        Ok(scalar) => Ok(scalar),
        Err(_) => Err(StatsError::Mismatch),
    }
}

// A copy of a value, by the value's allocator. A text or bytes alone take memory.
pub(crate) fn copy_of(value: &ScalarValue) -> Result<ScalarValue, AllocError>
    ensures value { IfOk result (λ copy. copy ≡ value.now) }
    ensures refused { OnErr result (IsTrue (is_long (Some value.now))) }
{
    match value {
        ScalarValue::Bool(holds) => Ok(ScalarValue::Bool(*holds)),
        ScalarValue::Primitive(number) => Ok(ScalarValue::Primitive(*number)),
        ScalarValue::Utf8(_) | ScalarValue::Binary(_) => value.clone(),
    }
}

// Copies the value, in the same case. A text or bytes alone take memory.
pub(crate) fn copied(value: Precision<&ScalarValue>) -> Result<Precision<ScalarValue>, AllocError>
    ensures value { IfOk result (λ copy. copy ≡ precision_map (λ v. v.now) value.entry) }
    ensures refused { OnErr result (IsTrue (is_copied (precision_map (λ v. v.now) value.entry))) }
{
    match value {
        Precision::Exact(v) => Ok(Precision::Exact(copy_of(v)?)),
        Precision::Inexact(v) => Ok(Precision::Inexact(copy_of(v)?)),
        Precision::Absent => Ok(Precision::Absent),
    }
}

// The scalar of a clone of a value and its type.
fn typed_clone(value: &ScalarValue, dtype: DType) -> Result<Scalar, StatsError>
    ensures answer { IsAnswerOrMemory (checked_scalar value.now dtype) result }
    ensures memory { OnMemory result (IsTrue (is_long (Some value.now))) }
{
    if !value.fits(&dtype) {
        return Err(StatsError::Mismatch);
    }
    typed(copy_of(value)?, dtype)
}

impl<T: Clone> Precision<&T> {
    /// Clones the value, in the same case.
    pub fn cloned(self) -> Result<Precision<T>, AllocError>
        requires { ClonesEqual T.is_clone }
        ensures value { IfOk result (λ p. p ≡ precision_map (λ v. v.now) self.entry) }
        ensures refused { OnErr result (IsPresentAnd self.entry (λ v. ¬ (T.is_infallible v.now))) }
    {
        match self {
            Precision::Exact(v) => Ok(Precision::Exact(v.clone()?)),
            Precision::Inexact(v) => Ok(Precision::Inexact(v.clone()?)),
            Precision::Absent => Ok(Precision::Absent),
        }
    }
}

impl<T, E> Precision<Result<T, E>> {
    /// The error that a present case holds, else the case around the value.
    pub fn transpose(self) -> Result<Precision<T>, E>
        ensures { result ≡ transposed self }
    {
        match self {
            Precision::Exact(Ok(v)) => Ok(Precision::Exact(v)),
            Precision::Inexact(Ok(v)) => Ok(Precision::Inexact(v)),
            Precision::Exact(Err(e)) | Precision::Inexact(Err(e)) => Err(e),
            Precision::Absent => Ok(Precision::Absent),
        }
    }
}

/// `v` for an exact value, `~v` for an inexact one, `{empty}` for none.
impl<T: fmt::Display> fmt::Display for Precision<T> {
    ghost use Rattle.vortex_stats.specs.Precision.{precision_text};

    ghost output = { precision_text T.output };

    fn fmt<W: fmt::Write>(&self, f: &mut fmt::Formatter<W>) -> fmt::Result {
        match self {
            Precision::Exact(v) => write!(f, "{v}"),
            Precision::Inexact(v) => write!(f, "~{v}"),
            Precision::Absent => write!(f, "{{empty}}"),
        }
    }
}
