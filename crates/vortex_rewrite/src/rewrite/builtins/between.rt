//! The ends by which a BETWEEN is rewritten.
ghost use Rattle.std.specs.Prelude.{◌≡◌, IsOk, Some, option_map, true};
ghost use Rattle.vortex_expr.specs.Trees.Tree as tree;
ghost use Rattle.vortex_base.specs.Data.Types.{eq_ignore_nullability};
ghost use Rattle.vortex_expr.specs.Meanings.Typing.{type_of};
ghost use Rattle.vortex_base.specs.Data.Values.{value_cmp};
ghost use Rattle.vortex_base.specs.declared.scalar_value.ScalarValue.TheVariants as value;
ghost use Rattle.vortex_rewrite.specs.Rewriting.BuiltIn.{ends_from, ordered_ends, raised_end, lowered_end};
ghost use Rattle.vortex_rewrite.specs.Rewriting.Falsifiers.{ends as ends_of, is_closed_end, is_crossed as is_crossed_by, number_ends as number_ends_of};
ghost use Rattle.vortex_rewrite.specs.Answers.{OkOrMemory};

use crate::built::cloned;
use crate::rewrite::nodes::literal;
use std::alloc::Global;
use std::cmp::Ordering;
use vortex_base::pvalue::PValue;
use vortex_base::scalar::Scalar;
use vortex_base::scalar_value::ScalarValue;
use vortex_expr::bound_expression::BoundExpression;
use vortex_expr::scalar_fn::{BetweenOptions, Operator, StrictComparison};
use vortex_stats::error::StatsError;

fn is_closed(end: StrictComparison) -> bool
    ensures { result ≡ is_closed_end end }
{
    match end {
        StrictComparison::Strict => false,
        StrictComparison::NonStrict => true,
    }
}

// Whether the order of the two ends leaves no value between.
fn is_crossed(options: BetweenOptions, order: Ordering) -> bool
    ensures { result ≡ is_crossed_by options order }
{
    match order {
        Ordering::Less => false,
        Ordering::Equal => !(is_closed(options.lower_strict) && is_closed(options.upper_strict)),
        Ordering::Greater => true,
    }
}

fn value_order(left: &ScalarValue, right: &ScalarValue) -> Ordering
    ensures { result ≡ value_cmp left.now right.now }
{
    left.cmp(right)
}

// The least number that a lower end lets through, if its type has one.
fn raised(end: StrictComparison, number: PValue) -> Option<PValue>
    ensures { result ≡ raised_end end number }
{
    match end {
        StrictComparison::Strict => number.next(),
        StrictComparison::NonStrict => Some(number),
    }
}

// The greatest number that an upper end lets through, if its type has one.
fn lowered(end: StrictComparison, number: PValue) -> Option<PValue>
    ensures { result ≡ lowered_end end number }
{
    match end {
        StrictComparison::Strict => number.prev(),
        StrictComparison::NonStrict => Some(number),
    }
}

// Two numbers, if both are there and the first is at most the second.
fn ordered(low: Option<PValue>, high: Option<PValue>) -> Option<(PValue, PValue)>
    ensures { result ≡ ordered_ends low high }
{
    let low = low?;
    let high = high?;
    if low.cmp(&high).is_gt() {
        None
    } else {
        Some((low, high))
    }
}

fn number_ends(
    alloc: Global,
    options: BetweenOptions,
    lower: (&Scalar, PValue),
    upper: (&Scalar, PValue),
) -> Result<Option<(BetweenOptions, BoundExpression, BoundExpression)>, StatsError>
    requires lower { lower.0.now.value ≡ Some (value.Primitive lower.1) }
    requires upper { upper.0.now.value ≡ Some (value.Primitive upper.1) }
    requires alike { eq_ignore_nullability lower.0.now.dtype upper.0.now.dtype ≡ true }
    ensures { OkOrMemory result (λ o. option_map ends_from o ≡
        number_ends_of options lower.entry.0.now upper.entry.0.now lower.entry.1 upper.entry.1) }
{
    let low_type = lower.0.dtype();
    let high_type = upper.0.dtype();
    match ordered(
        raised(options.lower_strict, lower.1),
        lowered(options.upper_strict, upper.1),
    ) {
        None => Ok(None),
        Some((low, high)) => {
            let closed = BetweenOptions {
                lower_strict: StrictComparison::NonStrict,
                upper_strict: StrictComparison::NonStrict,
            };
            let low = literal(alloc, low_type, ScalarValue::Primitive(low))?;
            let high = literal(alloc, high_type, ScalarValue::Primitive(high))?;
            Ok(Some((closed, low, high)))
        }
    }
}

fn as_they_stand(
    options: BetweenOptions,
    lower: &BoundExpression,
    upper: &BoundExpression,
) -> Result<Option<(BetweenOptions, BoundExpression, BoundExpression)>, StatsError>
    ensures { OkOrMemory result (λ o.
        option_map ends_from o ≡ Some (ends_from (options, lower.now, upper.now))) }
{
    Ok(Some((options, cloned(lower)?, cloned(upper)?)))
}

// The ends by which a BETWEEN is rewritten; none if they are literals between which no value lies.
pub(crate) fn ends(
    alloc: Global,
    options: BetweenOptions,
    lower: &BoundExpression,
    upper: &BoundExpression,
) -> Result<Option<(BetweenOptions, BoundExpression, BoundExpression)>, StatsError>
    requires { IsOk (type_of (tree.binary Operator.Eq lower.now upper.now)) }
    ensures { OkOrMemory result (λ o.
        option_map ends_from o ≡ ends_of options lower.now upper.now) }
{
    let Some(c) = lower.literal() else {
        return as_they_stand(options, lower, upper);
    };
    let Some(d) = upper.literal() else {
        return as_they_stand(options, lower, upper);
    };
    let Some(v) = c.value() else {
        return as_they_stand(options, lower, upper);
    };
    let Some(w) = d.value() else {
        return as_they_stand(options, lower, upper);
    };
    if let ScalarValue::Primitive(p) = v {
        if let ScalarValue::Primitive(q) = w {
            return number_ends(alloc, options, (c, *p), (d, *q));
        }
    }
    if is_crossed(options, value_order(v, w)) {
        Ok(None)
    } else {
        as_they_stand(options, lower, upper)
    }
}
