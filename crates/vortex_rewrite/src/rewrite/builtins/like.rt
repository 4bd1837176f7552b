//! The built-in proofs of LIKE.
ghost use Rattle.std.specs.Prelude.{◌≡◌, IsOk, IsTrue, Some, false, option_copied};
ghost use Rattle.vortex_expr.specs.Trees.Tree as tree;
ghost use Rattle.vortex_expr.specs.Meanings.Typing.{type_of};
ghost use Rattle.vortex_rewrite.specs.Rewriting.Predicates.{is_connective, is_text};
ghost use Rattle.vortex_rewrite.specs.Rewriting.Falsifiers.{beyond as beyond_of, like_falsifier, text_falsifier, text_in};
ghost use Rattle.vortex_rewrite.specs.Answers.{Makes};

use crate::built::expect_memory_only;
use crate::predicate::Predicate;
use crate::rewrite::builtins::comparison::{both_joined, compared};
use crate::rewrite::nodes::text_literal;
use std::alloc::Global;
use vortex_base::aggregate::AggregateFnRef;
use vortex_base::scalar_value::ScalarValue;
use vortex_expr::bound_expression::BoundExpression;
use vortex_expr::like::LikeOptions;
use vortex_expr::like_pattern::{LikePattern, successor};
use vortex_expr::scalar_fn::Operator;
use vortex_stats::error::StatsError;

// The text that a literal is.
fn text_in(e: &BoundExpression) -> Option<&str>
    ensures { option_copied result ≡ text_in e.now }
{
    match e.literal()?.value()? {
        ScalarValue::Utf8(text) => Some(text.as_str()),
        _ => None,
    }
}

// The proof that every value lies above one text, as the operator says, or below another.
fn beyond(
    alloc: Global,
    x: &BoundExpression,
    operator: Operator,
    above: &str,
    below: &str,
) -> Result<Option<Predicate>, StatsError>
    requires text { IsTrue (is_text x.now) }
    requires comparison { is_connective operator ≡ false }
    ensures { Makes (beyond_of x.now operator above.now below.now) result }
{
    let above = text_literal(alloc, above)?;
    let below = text_literal(alloc, below)?;
    let least = (AggregateFnRef::Min, x);
    let greatest = (AggregateFnRef::Max, x);
    let above = compared(alloc, operator, least, (AggregateFnRef::Max, &above))?;
    let below = compared(alloc, Operator::Lt, greatest, (AggregateFnRef::Min, &below))?;
    both_joined(alloc, Operator::Or, above, below)
}

// The proof that no value is a text that a pattern matches.
fn pattern_proof(
    alloc: Global,
    x: &BoundExpression,
    pattern: &str,
) -> Result<Option<Predicate>, StatsError>
    requires { IsTrue (is_text x.now) }
    ensures { Makes (text_falsifier x.now (Some pattern.now)) result }
{
    let pattern = expect_memory_only(LikePattern::try_read(alloc, pattern))?;
    if let Some(exact) = pattern.exact() {
        return beyond(alloc, x, Operator::Gt, exact, exact);
    }
    let prefix = pattern.prefix();
    match successor(alloc, prefix)? {
        Some(next) => beyond(alloc, x, Operator::Gte, next.as_str(), prefix),
        None => Ok(None),
    }
}

// The built-in proof that no text matches a pattern, which is a literal and compared as it stands.
pub(crate) fn like_proof(
    alloc: Global,
    options: LikeOptions,
    text: &BoundExpression,
    pattern: &BoundExpression,
) -> Result<Option<Predicate>, StatsError>
    requires { IsOk (type_of (tree.like options text.now pattern.now)) }
    ensures { Makes (like_falsifier options text.now pattern.now) result }
{
    if options.negated || options.case_insensitive {
        return Ok(None);
    }
    match text_in(pattern) {
        Some(pattern) => pattern_proof(alloc, text, pattern),
        None => Ok(None),
    }
}
