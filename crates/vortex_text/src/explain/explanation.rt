//! Explanations of a scan by the built-in rules: the verdict on each part, and why.
use crate::explain::leaves::push_leaves;
use crate::explain::proofs::{PartAt, Proofs, holds, push_shown, push_told};
use std::alloc::{AllocError, Global};
use vortex_base::scope::Scope;
use vortex_expr::bound_expression::BoundExpression;
use vortex_normal::normalize::normalize;
use vortex_prune::Verdict;
use vortex_rewrite::rewrite::rules::Rules;
use vortex_stats::error::StatsError;
use vortex_zone_map::zone_map::ZoneMap;

// How many parts are told one by one.
const TOLD: usize = 50;

// How many of more parts are told one by one, and how many signs the strip of all has.
const MOST_TESTED: usize = 10;

const SIGNS: usize = 100;

// The word for what becomes of a part.
fn word(verdict: Verdict) -> &'static str {
    match verdict {
        Verdict::Skipped => "skipped",
        Verdict::Whole => "whole",
        Verdict::Tested => "tested",
    }
}

// The sign for what becomes of a part.
fn sign(verdict: Verdict) -> &'static str {
    match verdict {
        Verdict::Skipped => ".",
        Verdict::Whole => "#",
        Verdict::Tested => "?",
    }
}

// The verdict on a part by the proofs of the predicate.
fn verdict_on(alloc: Global, proofs: &Proofs, part: PartAt<'_>) -> Result<Verdict, StatsError> {
    if holds(alloc, proofs.falsifier.as_ref(), part)? {
        return Ok(Verdict::Skipped);
    }
    if holds(alloc, proofs.satisfier.as_ref(), part)? {
        return Ok(Verdict::Whole);
    }
    Ok(Verdict::Tested)
}

// A line with an expression, if there is one.
fn push_line(
    alloc: Global,
    text: &mut String,
    scope: &Scope,
    name: &str,
    expression: Option<&BoundExpression>,
) -> Result<(), AllocError> {
    text.push_str(name)?;
    match expression {
        Some(expression) => push_shown(alloc, text, scope, expression)?,
        None => text.push_str("none")?,
    }
    text.push_str("\n")
}

// The lines of a predicate and its proofs.
fn push_proofs(
    alloc: Global,
    text: &mut String,
    scope: &Scope,
    proofs: &Proofs,
) -> Result<(), AllocError> {
    push_line(
        alloc,
        text,
        scope,
        "  falsifier: ",
        proofs.falsifier.as_ref(),
    )?;
    push_line(
        alloc,
        text,
        scope,
        "  satisfier: ",
        proofs.satisfier.as_ref(),
    )
}

// A leaf of a predicate, and what proves it.
#[derive(Debug, Drop)]
struct Leaf<'a> {
    expression: &'a BoundExpression,
    proofs: Proofs,
}

fn leaves_of<'a>(
    alloc: Global,
    predicate: &'a BoundExpression,
    rules: &Rules,
) -> Result<Vec<Leaf<'a>>, StatsError> {
    let mut found = Vec::new(alloc);
    push_leaves(&mut found, predicate)?;
    let mut leaves = Vec::new(alloc);
    for expression in found {
        let proofs = Proofs::of(alloc, expression, rules)?;
        leaves.push(Leaf { expression, proofs })?;
    }
    Ok(leaves)
}

// How many rows the part at a place has.
fn rows_of(map: &ZoneMap, place: usize) -> u64 {
    if place < map.len() {
        map.rows(place)
    } else {
        0
    }
}

// The lines of a part: what becomes of it, and what each leaf's proofs say.
fn push_part(
    alloc: Global,
    text: &mut String,
    scope: &Scope,
    leaves: &[Leaf<'_>],
    part: PartAt<'_>,
    verdict: Verdict,
) -> Result<(), StatsError> {
    let place = part.place;
    let word = word(verdict);
    let rows = rows_of(part.map, place);
    let line = format!(in alloc; "part {place}: {word}, {rows} rows\n")?;
    text.push_str(&line)?;
    for leaf in leaves {
        text.push_str("  ")?;
        push_shown(alloc, text, scope, leaf.expression)?;
        let falsifier = leaf.proofs.falsifier.as_ref();
        push_told(alloc, text, scope, ": falsifier", falsifier, part)?;
        let satisfier = leaf.proofs.satisfier.as_ref();
        push_told(alloc, text, scope, ", satisfier", satisfier, part)?;
        text.push_str("\n")?;
    }
    Ok(())
}

// The signs of many parts, each of them for as many neighbours as it takes, among which one that is
// tested goes before a whole one and that before a skipped one.
fn push_strip(alloc: Global, text: &mut String, verdicts: &[Verdict]) -> Result<(), AllocError> {
    let run = 1 + verdicts.len().saturating_sub(1) / SIGNS;
    let line = format!(in alloc; "parts, {run} a sign (. skipped, # whole, ? tested): ")?;
    text.push_str(&line)?;
    for neighbours in verdicts.chunks(run) {
        let mut verdict = Verdict::Skipped;
        for each in neighbours {
            if *each == Verdict::Tested || verdict == Verdict::Skipped {
                verdict = *each;
            }
        }
        text.push_str(sign(verdict))?;
    }
    text.push_str("\n")
}

// The places of the tested parts with the most rows, those first.
fn most_tested(
    alloc: Global,
    map: &ZoneMap,
    verdicts: &[Verdict],
) -> Result<Vec<(u64, usize)>, AllocError> {
    let mut tested = Vec::new(alloc);
    for (place, verdict) in verdicts.iter().enumerate() {
        if *verdict == Verdict::Tested {
            tested.push((u64::MAX - rows_of(map, place), place))?;
        }
    }
    tested.sort()?;
    tested.truncate(MOST_TESTED);
    Ok(tested)
}

// The lines of the parts.
fn push_parts(
    alloc: Global,
    text: &mut String,
    scope: &Scope,
    leaves: &[Leaf<'_>],
    map: &ZoneMap,
    verdicts: &[Verdict],
) -> Result<(), StatsError> {
    if verdicts.len() <= TOLD {
        for (place, verdict) in verdicts.iter().enumerate() {
            push_part(alloc, text, scope, leaves, PartAt { map, place }, *verdict)?;
        }
        return Ok(());
    }
    push_strip(alloc, text, verdicts)?;
    for (_, place) in most_tested(alloc, map, verdicts)? {
        if let Some(verdict) = verdicts.get(place) {
            push_part(alloc, text, scope, leaves, PartAt { map, place }, *verdict)?;
        }
    }
    Ok(())
}

/// Explains a scan of parts by the built-in rules, as lines of text: the predicate with its
/// falsifier and its satisfier, its normal form with those of it, and for each part, of which the
/// map has the statistics, whether it is skipped, whole or tested, with what the proofs of each leaf
/// of the predicate say by its statistics: true, false, or null for want of the statistics that are
/// named. Of more than 50 parts a strip of signs tells what becomes of them, and the ten tested ones
/// with the most rows are told.
///
/// `NotPredicate` if the predicate isn't of type Bool, else `Memory` alone.
pub fn explain(
    alloc: Global,
    scope: &Scope,
    map: &ZoneMap,
    predicate: &BoundExpression,
) -> Result<String, StatsError> {
    let rules = Rules::builtin(alloc);
    let proofs = Proofs::of(alloc, predicate, &rules)?;
    let mut text = String::new(alloc);
    push_line(alloc, &mut text, scope, "predicate: ", Some(predicate))?;
    push_proofs(alloc, &mut text, scope, &proofs)?;
    let normal = normalize(alloc, predicate)?;
    push_line(alloc, &mut text, scope, "normal form: ", Some(&normal))?;
    push_proofs(
        alloc,
        &mut text,
        scope,
        &Proofs::of(alloc, &normal, &rules)?,
    )?;
    let leaves = leaves_of(alloc, predicate, &rules)?;
    let mut verdicts = Vec::with_capacity(alloc, map.len())?;
    for place in 0..map.len() {
        verdicts.push(verdict_on(alloc, &proofs, PartAt { map, place })?)?;
    }
    push_parts(alloc, &mut text, scope, &leaves, map, &verdicts)?;
    Ok(text)
}
