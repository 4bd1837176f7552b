//! Rust's own values, read out of the values of a set.
ghost use Rattle.vortex_stats.specs.Precision.{precision_map};
ghost use Rattle.vortex_stats.specs.Sets.Reading.{IsReadAs, IsPreciselyReadAs};

use crate::error::StatsError;
use crate::precision::{self, Precision};
use vortex_base::dtype::DType;
use vortex_base::error::BaseError;
use vortex_base::from_scalar::FromScalar;
use vortex_base::scalar_value::ScalarValue;

// Reads the value under this type, in the same case.
pub(crate) fn read_precision<T: FromScalar>(
    value: Precision<&ScalarValue>,
    dtype: DType,
) -> Result<Precision<T>, StatsError>
    ensures { let read = precision_map (λ v. v.now) value.entry in
        IsPreciselyReadAs T.can_read T.reads T.takes_memory dtype read result }
{
    match value {
        Precision::Exact(v) => Ok(Precision::Exact(read_value(v, dtype)?)),
        Precision::Inexact(v) => Ok(Precision::Inexact(read_value(v, dtype)?)),
        Precision::Absent => Ok(Precision::Absent),
    }
}

// Reads the value under this type.
fn read_value<T: FromScalar>(value: &ScalarValue, dtype: DType) -> Result<T, StatsError>
    ensures { IsReadAs T.can_read T.reads T.takes_memory dtype value.now result }
{
    if !value.fits(&dtype) {
        return Err(StatsError::Mismatch);
    }
    let scalar = precision::typed(precision::copy_of(value)?, dtype)?;
    match T::from_scalar(&scalar) {
        Ok(read) => Ok(read),
        Err(BaseError::Memory(refused)) => Err(StatsError::Memory(refused)),
        Err(_) => Err(StatsError::Mismatch),
    }
}
