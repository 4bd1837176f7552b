//! Conditions on a column's optional cells.
ghost use Rattle.std.specs.Prelude.{◌≡◌, IfOk, ℤ, Option};
ghost use Rattle.std.specs.Ordering.{nat_cmp};
ghost use Rattle.std.specs.Cmp.Lexicographic.{slice_cmp};
ghost use Rattle.vortex_logical.specs.Meaning.{fraction_cmp, fraction_of, holds};
ghost use Rattle.vortex_logical.specs.LogicalTypes.{range as range_of, value as value_of};
ghost use Rattle.vortex_logical.specs.Lowering.{IsIn};
ghost use Rattle.vortex_logical.specs.Sortable.{sortable_bytes};
ghost use Rattle.vortex_logical.specs.Conditions as spec;

use crate::bytes::sortable;
use crate::comparison::Comparison;
use crate::exact::Exact;
use crate::logical_type::LogicalType;
use crate::lower::CellTest;
use std::alloc::{AllocError, Global};

/// A comparison of a column's sixteen bytes with some.
#[derive(Clone, Copy)]
pub struct BytesTest {
    pub comparison: Comparison,
    pub bytes: [u8; 16],
}

/// Returns the comparison of a column's sixteen bytes that says the same as the one of its values
/// with a literal.
pub fn compare_bytes(logical: LogicalType, comparison: Comparison, literal: Exact) -> BytesTest
    ensures { (n : ℤ) → IsIn (range_of logical) n
        → holds comparison (fraction_cmp (value_of logical n) (fraction_of literal))
        ≡ holds result.comparison (slice_cmp nat_cmp (sortable_bytes n) result.bytes) }
{
    let test = logical.compare(comparison, literal);
    let bytes = sortable(test.number);
    BytesTest {
        comparison: test.comparison,
        bytes,
    }
}

/// Returns the tests that both say of a column's whole number what BETWEEN says of its value.
pub fn between(logical: LogicalType, low: Exact, high: Exact) -> (CellTest, CellTest)
    ensures { (cell : Option ℤ) → spec.IsCell logical cell → spec.within logical cell low high
        ≡ spec.both (spec.tested cell result.0) (spec.tested cell result.1) }
{
    let first = logical.compare(Comparison::Gte, low);
    let second = logical.compare(Comparison::Lte, high);
    (first, second)
}

/// Returns the tests of which one says of a column's whole number what IN says of its value.
pub fn among(
    alloc: Global,
    logical: LogicalType,
    literals: &[Exact],
) -> Result<Vec<CellTest>, AllocError>
    ensures { IfOk result (λ tests. (cell : Option ℤ) → spec.IsCell logical cell
        → spec.among logical cell literals.now ≡ spec.any_tested cell tests.items) }
{
    let mut tests = Vec::new(alloc);
    for literal in literals {
        tests.push(logical.compare(Comparison::Eq, *literal))?;
    }
    Ok(tests)
}
