//! Cells that truths and numbers tell for an aggregate, as a table keeps them.
ghost use Rattle.std.specs.Prelude.{◌≡◌, IfSome, List, None, Some};
ghost use Rattle.vortex_base.specs.Data.ArrayData.{short_value};
ghost use Rattle.vortex_base.specs.declared.scalar_value.ScalarValue.{ScalarValue};
ghost use Rattle.vortex_zone_map.specs.Kept.{kept_value};
ghost use Rattle.vortex_zone_map.specs.StatValues.{count_of, told_value};

use crate::stored_value::{StoredValue, ValueTag};
use crate::told::Told;
use vortex_base::aggregate::AggregateFnRef;
use vortex_base::array_data::PrimitiveScalar;

// The count that a cell is, if it is one.
#[inline]
fn count_in(cell: PrimitiveScalar) -> Option<u64>
    ensures value { (v : ScalarValue) → short_value cell ≡ Some v → result ≡ count_of v }
    ensures null { short_value cell ≡ None → result ≡ None }
{
    match cell {
        PrimitiveScalar::U64(count) => Some(count),
        _ => None,
    }
}

/// The cell that a truth or a number tells for an aggregate of a column of so many rows. `None`
/// where it tells nothing, and where a text or bytes are kept.
#[inline]
pub fn short_told(
    aggregate: AggregateFnRef,
    kept: StoredValue,
    rows: u64,
) -> Option<PrimitiveScalar>
    ensures { IfSome result (λ cell. (var_len_values : List ScalarValue)
        → short_value cell ≡ told_value aggregate (kept_value var_len_values kept) rows) }
{
    let is_exact = match kept.form {
        ValueTag::Exact => true,
        ValueTag::Inexact => false,
        ValueTag::Absent | ValueTag::LongExact | ValueTag::LongInexact => return None,
    };
    match Told::of(aggregate, is_exact, count_in(kept.cell), rows) {
        Told::Value => Some(kept.cell),
        Told::Truth(truth) => Some(PrimitiveScalar::Bool(truth)),
        Told::Nothing => None,
    }
}
