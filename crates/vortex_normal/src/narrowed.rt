//! Leaves below an OR, beside what the ANDs around it say of their columns.
ghost use Rattle.std.specs.Prelude.{◌≡◌, ◌<◌, ◌++◌, IfSome, IsTrue, find, length, map, option_copied};
ghost use Rattle.std.specs.Prelude.{position, take};
ghost use Rattle.vortex_rewrite.specs.Answers.{Makes, OkOrMemory};
ghost use Rattle.vortex_rewrite.specs.Rewriting.Predicates.{is_predicate};
ghost use Rattle.vortex_normal.specs.Narrowed as spec;

use crate::groups::grouped;
use crate::links::linked;
use crate::pushed::pushed;
use crate::strict::{column_beside, range_column};
use std::alloc::Global;
use vortex_expr::bound_expression::BoundExpression;
use vortex_expr::bound_expression::parts::Parts;
use vortex_expr::scalar_fn::Operator;
use vortex_rewrite::predicate::Predicate;
use vortex_stats::error::StatsError;

// How many facts are used below an OR: each leaf there looks through them.
const MAX_FACTS: usize = 32;

// Returns the column of a null test, if it is of one.
fn tested_column(x: &BoundExpression) -> Option<&BoundExpression>
    ensures { option_copied result ≡ spec.tested_column x.now }
{
    match x.parts() {
        Parts::Column(_, _) => Some(x),
        _ => None,
    }
}

// Returns the column of a leaf that speaks of one column alone.
fn fact_column(e: &BoundExpression) -> Option<&BoundExpression>
    ensures { option_copied result ≡ spec.fact_column e.now }
{
    match e.parts() {
        Parts::Binary(Operator::And | Operator::Or, _, _) => None,
        Parts::Binary(_, left, right) => column_beside(left, right),
        Parts::Between(_, x, lower, upper) => range_column(x, lower, upper),
        Parts::IsNull(x) | Parts::IsNotNull(x) => tested_column(x),
        _ => None,
    }
}

fn is_about(column: &BoundExpression, fact: &BoundExpression) -> bool
    ensures { result ≡ spec.is_about column.now fact.now }
{
    match fact_column(fact) {
        Some(other) => *other == *column,
        None => false,
    }
}

fn place_about(known: &[&BoundExpression], column: &BoundExpression) -> Option<usize>
    ensures value { result ≡ position (λ f. spec.is_about column.now f.now) known.now }
    ensures in_range { IfSome result (λ i. i < length known.now) }
{
    known.iter().position(|fact| is_about(column, fact))
}

// Returns the first fact of a column.
fn first_about<'a>(
    known: &[&'a BoundExpression],
    column: &BoundExpression,
) -> Option<&'a BoundExpression>
    ensures { option_copied result ≡ find (spec.is_about column.now) (map (λ f. f.now) known.now) }
{
    match place_about(known, column) {
        Some(place) => Some(known[place]),
        None => None,
    }
}

// Returns what is known of the column of a leaf.
fn known_fact<'a>(
    known: &[&'a BoundExpression],
    leaf: &BoundExpression,
) -> Option<&'a BoundExpression>
    ensures { let facts = map (λ f. f.now) known.now in
        option_copied result ≡ spec.known_fact facts (spec.fact_column leaf.now) }
{
    match fact_column(leaf) {
        Some(column) => first_about(known, column),
        None => None,
    }
}

// Copies a leaf, with what is known of its column.
fn beside(
    alloc: Global,
    known: &[&BoundExpression],
    leaf: &BoundExpression,
) -> Result<Predicate, StatsError>
    requires { IsTrue (is_predicate leaf.now) }
    ensures { Makes (spec.beside (map (λ f. f.now) known.now) leaf.now) result }
{
    let copied = Predicate::copied(leaf)?;
    match known_fact(known, leaf) {
        Some(fact) => {
            let _typed = fact.dtype();
            let fact = Predicate::copied(fact)?;
            Predicate::connect(alloc, Operator::And, copied, fact)
        }
        None => Ok(copied),
    }
}

// Whether an OR is joined by the AND at the top, or is the predicate itself.
fn has_or(e: &BoundExpression) -> bool
    ensures { result ≡ spec.has_or e.now }
{
    match e.parts() {
        Parts::Binary(Operator::And, left, right) => has_or(left) || has_or(right),
        Parts::Binary(Operator::Or, _, _) => true,
        _ => false,
    }
}

// Whether an AND at the top joins an OR.
fn joins_or(e: &BoundExpression) -> bool
    ensures { result ≡ spec.joins_or e.now }
{
    match e.parts() {
        Parts::Binary(Operator::And, left, right) => has_or(left) || has_or(right),
        _ => false,
    }
}

// Adds the facts that the AND at the top joins.
fn push_facts<'a>(
    e: &'a BoundExpression,
    facts: &mut Vec<&'a BoundExpression>,
) -> Result<(), StatsError>
    ensures { OkOrMemory result (λ _. map (λ f. f.now) facts.new.items
        ≡ map (λ f. f.now) facts.old.items ++ spec.facts e.now) }
{
    match e.parts() {
        Parts::Binary(Operator::And, left, right) => {
            push_facts(left, facts)?;
            push_facts(right, facts)
        }
        _ => match fact_column(e) {
            Some(_) => Ok(facts.push(e)?),
            None => Ok(()),
        },
    }
}

// Returns the facts of the AND at the top, and then those that are known around it.
fn joined_facts<'a>(
    alloc: Global,
    known: &[&'a BoundExpression],
    e: &'a BoundExpression,
) -> Result<Vec<&'a BoundExpression>, StatsError>
    ensures { let around = map (λ f. f.now) known.now in OkOrMemory result
        (λ facts. map (λ f. f.now) facts.items ≡ take 32 (spec.facts e.now ++ around)) }
{
    let mut facts = Vec::new(alloc);
    push_facts(e, &mut facts)?;
    facts.extend_from_slice(known)?;
    facts.truncate(MAX_FACTS);
    Ok(facts)
}

// Narrows a part of an AND by what is known around the AND, and below its ORs by what is within.
#[cycle(narrowed)]
fn chain<'a>(
    alloc: Global,
    outer: &[&'a BoundExpression],
    inner: &[&'a BoundExpression],
    e: &'a BoundExpression,
) -> Result<Predicate, StatsError>
    requires { IsTrue (is_predicate e.now) }
    ensures { let around = map (λ f. f.now) outer.now in let within = map (λ f. f.now) inner.now in
        Makes (spec.chain around within e.now) result }
{
    match e.parts() {
        Parts::Binary(Operator::And, left, right) => {
            let left = chain(alloc, outer, inner, left)?;
            let right = chain(alloc, outer, inner, right)?;
            Predicate::connect(alloc, Operator::And, left, right)
        }
        Parts::Binary(Operator::Or, left, right) => {
            let left = narrowed_by(alloc, inner, left)?;
            let right = narrowed_by(alloc, inner, right)?;
            Predicate::connect(alloc, Operator::Or, left, right)
        }
        _ => beside(alloc, outer, e),
    }
}

// Narrows a predicate by what is known around it.
#[cycle(narrowed)]
fn narrowed_by<'a>(
    alloc: Global,
    known: &[&'a BoundExpression],
    e: &'a BoundExpression,
) -> Result<Predicate, StatsError>
    requires { IsTrue (is_predicate e.now) }
    ensures { Makes (spec.narrowed_by (map (λ f. f.now) known.now) e.now) result }
{
    let narrowed = if joins_or(e) {
        let within = joined_facts(alloc, known, e)?;
        chain(alloc, known, &within, e)?
    } else {
        chain(alloc, known, known, e)?
    };
    linked(alloc, e, narrowed)
}

/// Returns a predicate that is satisfied by the same rows, with what its ANDs say of a column put
/// beside the leaves of that column that stand below an OR within the AND.
pub(crate) fn narrowed(alloc: Global, e: &BoundExpression) -> Result<Predicate, StatsError>
    requires { IsTrue (is_predicate e.now) }
    ensures { Makes (spec.narrowed e.now) result }
{
    narrowed_by(alloc, &[], e)
}

/// Returns a predicate that is satisfied by the same rows, narrowed, and grouped anew if it gained
/// a fact.
#[tactic(auto, using(crate::proofs::Narrowing::narrow_left, crate::proofs::Narrowing::narrow_anew))]
pub(crate) fn narrow(alloc: Global, e: &BoundExpression) -> Result<Predicate, StatsError>
    requires { IsTrue (is_predicate e.now) }
    ensures { Makes (spec.narrow e.now) result }
{
    let narrowed = narrowed(alloc, e)?;
    if *narrowed.expression() == *e {
        return Ok(narrowed);
    }
    let pushed = pushed(alloc, true, narrowed.expression())?;
    grouped(alloc, pushed.expression())
}
