//! Comparisons of columns, and what they carry over within an AND.
ghost use Rattle.std.specs.Prelude.{◌≡◌, ◌++◌, IfSome, false, filter_map, map, option_to_list};
ghost use Rattle.vortex_expr.specs.Trees.Tree as tree;
ghost use Rattle.vortex_expr.specs.declared.scalar_fn.Operator.TheVariants.{Eq};
ghost use Rattle.vortex_rewrite.specs.Answers.{Makes, OkOrMemory};
ghost use Rattle.vortex_rewrite.specs.Rewriting.Predicates.{is_connective, is_predicate};
ghost use Rattle.vortex_normal.specs.Links as spec;
ghost use Rattle.vortex_normal.specs.Links.{link_of};

use crate::balanced::balanced;
use crate::interval::swapped;
use crate::leaves::is_reflexive;
use std::alloc::Global;
use vortex_base::dtype::DType;
use vortex_expr::bound_expression::BoundExpression;
use vortex_expr::bound_expression::parts::Parts;
use vortex_expr::scalar_fn::{Connective, Operator};
use vortex_rewrite::built::cloned;
use vortex_rewrite::predicate::Predicate;
use vortex_stats::error::StatsError;

// Each comparison of columns is two links. Their number is limited since each is tried with each.
const MAX_COLUMN_LINKS: usize = 16;

const MAX_BOUND_LINKS: usize = 32;

const MAX_CONSEQUENCES: usize = 32;

/// A comparison of a column with another one or with a literal.
#[derive(Clone, Copy)]
pub(crate) struct Link<'a> {
    left: &'a BoundExpression,
    operator: Operator,
    right: &'a BoundExpression,
}

// Adds a comparison of two columns, read from each of them.
fn push_columns<'a>(
    operator: Operator,
    left: &'a BoundExpression,
    right: &'a BoundExpression,
    links: &mut Vec<Link<'a>>,
) -> Result<(), StatsError>
    ensures { OkOrMemory result (λ _. map link_of links.new.items
        ≡ map link_of links.old.items ++ spec.columns_linked operator left.now right.now) }
{
    match (left.parts(), right.parts()) {
        (Parts::Column(_, _), Parts::Column(_, _)) => {
            links.push(Link {
                left,
                operator,
                right,
            })?;
            links.push(Link {
                left: right,
                operator: swapped(operator),
                right: left,
            })?;
            Ok(())
        }
        _ => Ok(()),
    }
}

// Adds the comparisons of columns that the AND at the top joins.
fn push_column_links<'a>(
    e: &'a BoundExpression,
    links: &mut Vec<Link<'a>>,
) -> Result<(), StatsError>
    ensures { OkOrMemory result (λ _. map link_of links.new.items
        ≡ map link_of links.old.items ++ spec.column_links e.now) }
{
    match e.parts() {
        Parts::Binary(Operator::And, left, right) => {
            push_column_links(left, links)?;
            push_column_links(right, links)
        }
        Parts::Binary(Operator::Or, _, _) => Ok(()),
        Parts::Binary(operator, left, right) => push_columns(operator, left, right, links),
        _ => Ok(()),
    }
}

// Adds a comparison of a column with a literal, read from the column.
fn push_bound<'a>(
    operator: Operator,
    left: &'a BoundExpression,
    right: &'a BoundExpression,
    links: &mut Vec<Link<'a>>,
) -> Result<(), StatsError>
    ensures { OkOrMemory result (λ _. map link_of links.new.items
        ≡ map link_of links.old.items ++ spec.bound_linked operator left.now right.now) }
{
    match (left.parts(), right.parts()) {
        (Parts::Column(_, _), Parts::Literal(_)) => {
            links.push(Link {
                left,
                operator,
                right,
            })?;
            Ok(())
        }
        (Parts::Literal(_), Parts::Column(_, _)) => {
            links.push(Link {
                left: right,
                operator: swapped(operator),
                right: left,
            })?;
            Ok(())
        }
        _ => Ok(()),
    }
}

// Adds the comparisons of columns with literals that the AND at the top joins.
fn push_bound_links<'a>(e: &'a BoundExpression, links: &mut Vec<Link<'a>>) -> Result<(), StatsError>
    ensures { OkOrMemory result (λ _. map link_of links.new.items
        ≡ map link_of links.old.items ++ spec.bound_links e.now) }
{
    match e.parts() {
        Parts::Binary(Operator::And, left, right) => {
            push_bound_links(left, links)?;
            push_bound_links(right, links)
        }
        Parts::Binary(Operator::Or, _, _) => Ok(()),
        Parts::Binary(operator, left, right) => push_bound(operator, left, right, links),
        Parts::Between(options, x, lower, upper) => {
            push_bound(options.lower_strict.to_operator(), lower, x, links)?;
            push_bound(options.upper_strict.to_operator(), x, upper, links)
        }
        _ => Ok(()),
    }
}

// Returns the comparison of x with z that follows from one of x with y and one of y with z.
fn chained(first: Operator, second: Operator) -> Option<Operator>
    ensures { result ≡ spec.chained first second }
{
    match (first, second) {
        (_, Operator::And | Operator::Or) => None,
        (Operator::Eq, _) => Some(second),
        (Operator::Lt | Operator::Lte | Operator::Gt | Operator::Gte, Operator::Eq) => Some(first),
        (Operator::Lt, Operator::Lt | Operator::Lte) => Some(Operator::Lt),
        (Operator::Lte, Operator::Lt | Operator::Lte) => Some(second),
        (Operator::Gt, Operator::Gt | Operator::Gte) => Some(Operator::Gt),
        (Operator::Gte, Operator::Gt | Operator::Gte) => Some(second),
        _ => None,
    }
}

// Whether two operands can be compared.
fn can_compare(left: &BoundExpression, right: &BoundExpression) -> bool
    ensures { result ≡ is_predicate (tree.binary Eq left.now right.now) }
{
    let dtype = left.dtype();
    dtype.eq_ignore_nullability(&right.dtype()) && !matches!(dtype, DType::MinMaxState(_, _))
}

fn chained_test(
    alloc: Global,
    operator: Option<Operator>,
    left: &BoundExpression,
    right: &BoundExpression,
) -> Result<Option<Predicate>, StatsError>
    requires { IfSome operator (λ o. is_connective o ≡ false) }
    ensures { Makes (spec.chained_test operator left.now right.now) result }
{
    let Some(operator) = operator else {
        return Ok(None);
    };
    if can_compare(left, right) && !(*left == *right && is_reflexive(operator)) {
        let test = Predicate::binary(alloc, operator, cloned(left)?, cloned(right)?)?;
        Ok(Some(test))
    } else {
        Ok(None)
    }
}

// Returns what follows from two links, if the second begins where the first ends.
fn consequence(
    alloc: Global,
    first: &Link<'_>,
    second: &Link<'_>,
) -> Result<Option<Predicate>, StatsError>
    ensures { Makes (spec.consequence (link_of first.now) (link_of second.now)) result }
{
    if *first.right == *second.left {
        let operator = chained(first.operator, second.operator);
        chained_test(alloc, operator, first.left, second.right)
    } else {
        Ok(None)
    }
}

fn push_found(test: Option<Predicate>, found: &mut Vec<Predicate>) -> Result<(), StatsError>
    ensures { OkOrMemory result (λ _. found.new.items ≡ found.old.items ++ option_to_list test) }
{
    match test {
        Some(test) => Ok(found.push(test)?),
        None => Ok(()),
    }
}

// Adds what follows from a link and each of some others.
fn push_consequences(
    alloc: Global,
    link: &Link<'_>,
    others: &[Link<'_>],
    found: &mut Vec<Predicate>,
) -> Result<(), StatsError>
    ensures { OkOrMemory result (λ _. found.new.items ≡ found.old.items
        ++ filter_map (spec.consequence (link_of link.now)) (map link_of others.now)) }
{
    for other in others {
        let test = consequence(alloc, link, other)?;
        push_found(test, found)?;
    }
    Ok(())
}

// Adds what follows from each link and those behind it.
fn push_paired(
    alloc: Global,
    links: &[Link<'_>],
    found: &mut Vec<Predicate>,
) -> Result<(), StatsError>
    ensures { OkOrMemory result (λ _. found.new.items
        ≡ found.old.items ++ spec.paired_links (map link_of links.now)) }
{
    for (place, link) in links.iter().enumerate() {
        push_consequences(alloc, link, &links[place + 1..], found)?;
    }
    Ok(())
}

// Adds what follows from each of some links and each of others.
fn push_crossed(
    alloc: Global,
    links: &[Link<'_>],
    others: &[Link<'_>],
    found: &mut Vec<Predicate>,
) -> Result<(), StatsError>
    ensures { OkOrMemory result (λ _. found.new.items ≡ found.old.items
        ++ spec.crossed_links (map link_of links.now) (map link_of others.now)) }
{
    for link in links {
        push_consequences(alloc, link, others, found)?;
    }
    Ok(())
}

// Returns what follows from the comparisons of columns that the AND at the top joins.
fn consequences(alloc: Global, e: &BoundExpression) -> Result<Vec<Predicate>, StatsError>
    ensures { OkOrMemory result (λ found. found.items ≡ spec.consequences e.now) }
{
    let mut found = Vec::new(alloc);
    let mut columns = Vec::new(alloc);
    push_column_links(e, &mut columns)?;
    columns.truncate(MAX_COLUMN_LINKS);
    if columns.is_empty() {
        return Ok(found);
    }
    let mut bounds = Vec::new(alloc);
    push_bound_links(e, &mut bounds)?;
    bounds.truncate(MAX_BOUND_LINKS);
    push_paired(alloc, &columns, &mut found)?;
    push_crossed(alloc, &columns, &bounds, &mut found)?;
    found.truncate(MAX_CONSEQUENCES);
    Ok(found)
}

/// Joins to a predicate what follows from the comparisons of columns that the AND at the top of
/// another joins.
pub(crate) fn linked(
    alloc: Global,
    e: &BoundExpression,
    narrowed: Predicate,
) -> Result<Predicate, StatsError>
    ensures { Makes (spec.linked e.now narrowed) result }
{
    let found = consequences(alloc, e)?;
    if found.is_empty() {
        return Ok(narrowed);
    }
    let joined = balanced(alloc, Connective::And, found)?;
    Predicate::connect(alloc, Operator::And, narrowed, joined)
}
