//! The nodes that proofs are made of, over operands that are known to fit.
ghost use Rattle.std.specs.Prelude.{◌≡◌, IfErr, IfOk, IsOk, IsTrue, Some};
ghost use Rattle.vortex_base.specs.Data.Scalars.{is_optional_value};
ghost use Rattle.vortex_expr.specs.Trees.Tree as tree;
ghost use Rattle.vortex_expr.specs.Meanings.Typing.{type_of};
ghost use Rattle.vortex_rewrite.specs.Rewriting.Predicates.{is_text};
ghost use Rattle.vortex_rewrite.specs.Rewriting.Falsifiers.{bytes_literal, count_literal as count_literal_of, null_count_of};
ghost use Rattle.vortex_rewrite.specs.Answers.{IsMemory, Makes};

use crate::built::{cloned, expect_memory_only};
use std::alloc::Global;
use vortex_base::aggregate::AggregateFnRef;
use vortex_base::dtype::DType;
use vortex_base::scalar::Scalar;
use vortex_base::scalar_value::ScalarValue;
use vortex_base::text::Text;
use vortex_base::types::{Nullability, PType};
use vortex_expr::bound;
use vortex_expr::bound_expression::BoundExpression;
use vortex_stats::error::StatsError;

// The literal of a type and a value that fits it.
pub(crate) fn literal(
    alloc: Global,
    dtype: DType,
    value: ScalarValue,
) -> Result<BoundExpression, StatsError>
    requires { IsTrue (is_optional_value (Some value) dtype) }
    ensures { Makes (tree.literal (record { dtype = dtype; value = Some value })) result }
{
    match Scalar::try_new(dtype, Some(value)) {
        Ok(scalar) => expect_memory_only(bound::lit(alloc, scalar)),
        Err(_) => unreachable!(),
    }
}

pub(crate) fn count_literal(alloc: Global, count: u64) -> Result<BoundExpression, StatsError>
    ensures { Makes (count_literal_of count) result }
{
    literal(
        alloc,
        DType::Primitive(PType::U64, Nullability::NonNullable),
        ScalarValue::from(count),
    )
}

pub(crate) fn text_literal(alloc: Global, text: &str) -> Result<BoundExpression, StatsError>
    ensures value { IfOk result (λ e. e ≡ bytes_literal text.now) }
    ensures text { IfOk result (λ e. IsTrue (is_text e)) }
    ensures memory { IfErr result IsMemory }
{
    let value = Text::new(String::from_str(alloc, text)?);
    literal(
        alloc,
        DType::Utf8(Nullability::NonNullable),
        ScalarValue::Utf8(value),
    )
}

// The placeholder for an aggregate of an operand that it supports.
pub(crate) fn stat(
    alloc: Global,
    aggregate: AggregateFnRef,
    x: &BoundExpression,
) -> Result<BoundExpression, StatsError>
    requires { IsOk (type_of (tree.stat aggregate x.now)) }
    ensures { Makes (tree.stat aggregate x.now) result }
{
    let input = cloned(x)?;
    expect_memory_only(bound::new_stat(alloc, input, aggregate))
}

// The number of an operand's nulls, which of a literal is known.
pub(crate) fn null_count(alloc: Global, x: &BoundExpression) -> Result<BoundExpression, StatsError>
    ensures { Makes (null_count_of x.now) result }
{
    // That the operand has a type, so that its nulls can be counted.
    let _typed = x.dtype();
    match x.literal() {
        Some(value) => count_literal(alloc, if value.value().is_none() { 1 } else { 0 }),
        None => stat(alloc, AggregateFnRef::NullCount, x),
    }
}

pub(crate) fn row_count(alloc: Global) -> Result<BoundExpression, StatsError>
    ensures { Makes tree.row_count result }
{
    expect_memory_only(bound::row_count(alloc))
}
