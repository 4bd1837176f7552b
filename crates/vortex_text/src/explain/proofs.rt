//! The falsifier and the satisfier of a predicate, and what they say of a part.
use crate::explain::leaves::push_placeholders;
use crate::explain::shown::Shown;
use std::alloc::{AllocError, Global};
use vortex_base::aggregate::AggregateFnRef;
use vortex_base::error::BaseError;
use vortex_base::scalar_value::ScalarValue;
use vortex_base::scope::Scope;
use vortex_expr::bound_expression::BoundExpression;
use vortex_expr::bound_expression::parts::Parts;
use vortex_expr::evaluate::evaluate;
use vortex_prune::bind::bind_stats;
use vortex_prune::bind::zone_binder::ZoneBinder;
use vortex_rewrite::built::expect_memory_only;
use vortex_rewrite::expr::bound::{all_null, null_count};
use vortex_rewrite::rewrite::rules::Rules;
use vortex_rewrite::rewrite::{falsify, satisfy};
use vortex_stats::error::StatsError;
use vortex_stats::stat::Stat;
use vortex_zone_map::stat_fn::StatFn;
use vortex_zone_map::zone_map::ZoneMap;

/// The proofs of a predicate by the built-in rules, where there are any.
#[derive(Debug, Drop)]
pub(crate) struct Proofs {
    pub(crate) falsifier: Option<BoundExpression>,
    pub(crate) satisfier: Option<BoundExpression>,
}

impl Proofs {
    /// The proofs of a predicate.
    pub(crate) fn of(
        alloc: Global,
        predicate: &BoundExpression,
        rules: &Rules,
    ) -> Result<Proofs, StatsError> {
        let falsifier = falsify(alloc, predicate, rules)?;
        let satisfier = satisfy(alloc, predicate, rules)?;
        Ok(Proofs {
            falsifier,
            satisfier,
        })
    }
}

/// One of the parts whose statistics a map has.
#[derive(Clone, Copy, Debug)]
pub(crate) struct PartAt<'a> {
    pub(crate) map: &'a ZoneMap,
    pub(crate) place: usize,
}

// The value of a proof, or of a placeholder, by the statistics of a part.
fn value_of(
    alloc: Global,
    proof: &BoundExpression,
    part: PartAt<'_>,
) -> Result<Option<ScalarValue>, StatsError> {
    let table = part.map.table();
    if part.place >= table.rows() || part.place >= part.map.len() {
        return Ok(None);
    }
    let kept = expect_memory_only(proof.try_clone())?;
    let bound = bind_stats(alloc, kept, &ZoneBinder::new(part.map))?;
    match evaluate(&bound, &table.row(part.place), part.map.rows(part.place)) {
        Ok(value) => Ok(value),
        Err(BaseError::Memory(refused)) => Err(StatsError::Memory(refused)),
        // What still has a column tells nothing.
        Err(_) => Ok(None),
    }
}

/// A proof's answer for a part: it holds, it doesn't, or nothing is known for want of a statistic.
pub(crate) fn told(
    alloc: Global,
    proof: &BoundExpression,
    part: PartAt<'_>,
) -> Result<Option<bool>, StatsError> {
    match value_of(alloc, proof, part)? {
        Some(ScalarValue::Bool(truth)) => Ok(Some(truth)),
        _ => Ok(None),
    }
}

/// Whether a proof, if there is one, is true of a part.
pub(crate) fn holds(
    alloc: Global,
    proof: Option<&BoundExpression>,
    part: PartAt<'_>,
) -> Result<bool, StatsError> {
    match proof {
        Some(proof) => Ok(told(alloc, proof, part)? == Some(true)),
        None => Ok(false),
    }
}

// The words before a missing statistic.
fn separator(is_first: bool) -> &'static str {
    if is_first { " for want of " } else { ", " }
}

// The words around a statistic that only a count of nulls answers: before it and behind
// it. An inexact count is told apart from none.
fn count_words(aggregate: AggregateFnRef, is_inexact: bool) -> (&'static str, &'static str) {
    match (StatFn::reads(aggregate), aggregate, is_inexact) {
        (Some(Stat::NullCount), AggregateFnRef::NullCount, false) => ("an exact ", ""),
        (Some(Stat::NullCount), AggregateFnRef::NullCount, true) => {
            ("an exact ", " (an inexact one is given)")
        }
        (Some(Stat::NullCount), _, false) => ("", " (an exact null_count answers it)"),
        (Some(Stat::NullCount), _, true) => (
            "",
            " (an exact null_count answers it, an inexact one is given)",
        ),
        _ => ("", ""),
    }
}

// Whether the statistics of a part have an inexact count of an input's nulls: they tell that not
// every value is null, and not how many are.
fn has_inexact_count(
    alloc: Global,
    input: &BoundExpression,
    part: PartAt<'_>,
) -> Result<bool, StatsError> {
    let all_null = all_null(alloc, expect_memory_only(input.try_clone())?)?;
    let count = null_count(alloc, expect_memory_only(input.try_clone())?)?;
    Ok(told(alloc, &all_null, part)? == Some(false) && value_of(alloc, &count, part)?.is_none())
}

// A placeholder of which a part's statistics say nothing, and what would answer it.
fn wanted(
    alloc: Global,
    scope: &Scope,
    placeholder: &BoundExpression,
    part: PartAt<'_>,
) -> Result<String, StatsError> {
    let shown = Shown::new(placeholder, scope);
    let (before, behind) = match placeholder.parts() {
        Parts::Stat(aggregate, input) => {
            count_words(aggregate, has_inexact_count(alloc, input, part)?)
        }
        _ => ("", ""),
    };
    Ok(format!(in alloc; "{before}{shown}{behind}")?)
}

// Whether a text is among some.
fn contains(texts: &[String], text: &str) -> bool {
    texts.iter().any(|other| other.as_str() == text)
}

// Adds the placeholders of a proof of which a part's statistics say nothing, each once.
fn push_missing(
    alloc: Global,
    text: &mut String,
    scope: &Scope,
    proof: &BoundExpression,
    part: PartAt<'_>,
) -> Result<(), StatsError> {
    let mut placeholders = Vec::new(alloc);
    push_placeholders(&mut placeholders, proof)?;
    let mut missing = Vec::new(alloc);
    for placeholder in placeholders {
        if value_of(alloc, placeholder, part)?.is_some() {
            continue;
        }
        let wanted = wanted(alloc, scope, placeholder, part)?;
        if !contains(&missing, &wanted) {
            text.push_str(separator(missing.is_empty()))?;
            text.push_str(&wanted)?;
            missing.push(wanted)?;
        }
    }
    Ok(())
}

/// Adds an expression.
pub(crate) fn push_shown(
    alloc: Global,
    text: &mut String,
    scope: &Scope,
    expression: &BoundExpression,
) -> Result<(), AllocError> {
    let shown = Shown::new(expression, scope);
    let shown = format!(in alloc; "{shown}")?;
    text.push_str(&shown)
}

/// Adds what a proof of this kind says of a part.
pub(crate) fn push_told(
    alloc: Global,
    text: &mut String,
    scope: &Scope,
    kind: &str,
    proof: Option<&BoundExpression>,
    part: PartAt<'_>,
) -> Result<(), StatsError> {
    text.push_str(kind)?;
    let Some(proof) = proof else {
        return Ok(text.push_str(" none")?);
    };
    match told(alloc, proof, part)? {
        Some(true) => Ok(text.push_str(" true")?),
        Some(false) => Ok(text.push_str(" false")?),
        None => {
            text.push_str(" null")?;
            push_missing(alloc, text, scope, proof, part)
        }
    }
}
