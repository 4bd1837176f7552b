//! The proofs of a predicate, the aggregates that they name, and what they answer for zones.
ghost use Rattle.std.specs.Prelude.{◌≡◌, ◌*◌, ◌<◌, ◌^◌, ◌||◌, ℕ, Bool, IfErr, IfOk, IfSome, IsTrue};
ghost use Rattle.std.specs.Prelude.{List, [], Some, length, map, option_copied};
ghost use Rattle.vortex_base.specs.declared.aggregate.AggregateFnRef.{AggregateFnRef};
ghost use Rattle.vortex_capi.specs.NamedStats as spec;
ghost use Rattle.vortex_capi.specs.Prunes.{AreClosed, AreRowAnswers, zone_answers};
ghost use Rattle.vortex_capi.specs.Scopes.{max_depth};
ghost use Rattle.vortex_expr.specs.Trees.Tree.{is_plain};
ghost use Rattle.vortex_predicates.specs.Pruning.{IsMadeBy, IsRight};
ghost use Rattle.vortex_zone_map.specs.Zone.{ZoneData};
ghost use Rattle.vortex_zone_map.specs.ZoneMaps.{IsMapOf, heads as all_heads};
ghost use Rattle.vortex_rewrite.specs.Answers.{IsMemory};
ghost use Rattle.vortex_rewrite.specs.Rewriting.Predicates.{is_predicate};

use crate::answers::answers_of;
use crate::predicate::MAX_DEPTH;
use std::alloc::{AllocError, Global};
use vortex_base::aggregate::AggregateFnRef;
use vortex_base::scope::Scope;
use vortex_expr::bound_expression::BoundExpression;
use vortex_expr::bound_expression::parts::Parts;
use vortex_predicates::PruningPredicate;
use vortex_prune::Rules;
use vortex_prune::scan::prune::prune_by;
use vortex_stats::StatsError;
use vortex_zone_map::{StatColumn, ZoneMap};

/// The proofs of a predicate by built-in rules, those of its forms left out that are deeper than a
/// call's stack bears.
pub(crate) fn pruning_of(
    alloc: Global,
    predicate: &BoundExpression,
) -> Result<PruningPredicate, AllocError>
    requires plain { IsTrue (is_plain predicate.now) }
    requires predicate { IsTrue (is_predicate predicate.now) }
    ensures predicate { IfOk result (λ made. made.predicate ≡ predicate.now) }
    ensures made { IfOk result (IsMadeBy [] (Some max_depth)) }
    ensures closed { IfOk result (λ made. AreClosed made.falsifier made.satisfier) }
    ensures right { IfOk result IsRight }
{
    let rules = Rules::builtin(alloc);
    match PruningPredicate::try_new_within(alloc, predicate, &rules, MAX_DEPTH) {
        Ok(made) => Ok(made),
        Err(fault) => match fault {
            StatsError::Memory(refused) => Err(refused),
            _ => unreachable!(),
        },
    }
}

/// The answer for each zone of a map by proofs that have no column outside their placeholders.
pub(crate) fn map_answers(
    alloc: Global,
    proofs: &PruningPredicate,
    map: &ZoneMap,
) -> Result<Vec<u8>, StatsError>
    requires { AreClosed proofs.now.falsifier proofs.now.satisfier }
    ensures rows { IfOk result (λ answers. AreRowAnswers proofs.now.falsifier
        proofs.now.satisfier map.now answers.items) }
    ensures told { IfOk result (λ answers. (zones : List ZoneData) → IsMapOf zones map.now
        → answers.items
        ≡ zone_answers proofs.now.falsifier proofs.now.satisfier map.now.scope zones) }
    ensures memory { IfErr result IsMemory }
{
    let verdicts = prune_by(alloc, map, proofs.falsifier(), proofs.satisfier())?;
    Ok(answers_of(alloc, &verdicts)?)
}

// Where the mark of an aggregate of a column stands among those of all columns.
fn mark_place(column: usize, aggregate: AggregateFnRef) -> usize
    requires { spec.mark_place column aggregate < 2 ^ 64 }
    ensures { result ≡ spec.mark_place column aggregate }
{
    column * 9 + aggregate as usize
}

// Marks an aggregate of an input, if that is a column.
fn mark_input(
    marks: &mut [bool],
    columns: usize,
    aggregate: AggregateFnRef,
    input: &BoundExpression,
)
    requires { length marks.old ≡ columns * 9 }
    ensures { (asked : ℕ → AggregateFnRef → Bool) → spec.AreMarks asked marks.old
        → spec.AreMarks (λ i g. asked i g || spec.asks aggregate input.now i g) marks.new }
{
    if let Parts::Column(place, _) = input.parts() {
        if place < columns {
            marks[mark_place(place, aggregate)] = true;
        }
    }
}

// Marks what the placeholders of an expression ask for.
fn mark(marks: &mut [bool], columns: usize, e: &BoundExpression)
    requires { length marks.old ≡ columns * 9 }
    ensures { (asked : ℕ → AggregateFnRef → Bool) → spec.AreMarks asked marks.old
        → spec.AreMarks (λ i g. asked i g || spec.names e.now i g) marks.new }
{
    match e.parts() {
        Parts::Column(_, _) | Parts::Literal(_) | Parts::RowCount => {}
        Parts::Binary(_, left, right) | Parts::Like(_, left, right) => {
            mark(marks, columns, left);
            mark(marks, columns, right);
        }
        Parts::Between(_, x, lower, upper) => {
            mark(marks, columns, x);
            mark(marks, columns, lower);
            mark(marks, columns, upper);
        }
        Parts::IsNull(x) | Parts::IsNotNull(x) | Parts::Not(x) => mark(marks, columns, x),
        Parts::Stat(aggregate, input) => mark_input(marks, columns, aggregate, input),
    }
}

// Marks what a proof, if there is one, asks for.
fn mark_if(marks: &mut [bool], columns: usize, proof: Option<&BoundExpression>)
    requires { length marks.old ≡ columns * 9 }
    ensures { (asked : ℕ → AggregateFnRef → Bool) → spec.AreMarks asked marks.old
        → spec.AreMarks (λ i g. asked i g || spec.names_if (option_copied proof.entry) i g)
        marks.new }
{
    if let Some(proof) = proof {
        mark(marks, columns, proof);
    }
}

// The mark of what a head tells.
fn head_mark(marks: &[bool], head: &StatColumn) -> bool
    requires { spec.mark_place head.now.source head.now.aggregate < length marks.now }
    ensures { (asked : ℕ → AggregateFnRef → Bool) → spec.AreMarks asked marks.now
        → result ≡ asked head.now.source head.now.aggregate }
{
    marks[mark_place(head.source(), head.aggregate())]
}

// The marks of what the proofs ask for, with the places of so many columns.
fn marks_of(alloc: Global, proofs: &PruningPredicate, columns: usize) -> Option<Vec<bool>>
    ensures wide { IfSome result (λ marks. length marks.items ≡ columns * 9) }
    ensures told { IfSome result (λ marks. spec.AreMarks
        (spec.either_names proofs.now.falsifier proofs.now.satisfier) marks.items) }
{
    let mut marks = vec![in alloc; false; columns.checked_mul(9)?].ok()?;
    mark_if(&mut marks, columns, proofs.falsifier());
    mark_if(&mut marks, columns, proofs.satisfier());
    Some(marks)
}

/// Whether the proofs ask for what stands below each head of a scope.
pub(crate) fn named_heads(
    alloc: Global,
    proofs: &PruningPredicate,
    scope: &Scope,
    heads: &[StatColumn],
) -> Option<Vec<bool>>
    requires { heads.now ≡ all_heads scope.now }
    ensures { IfSome result (λ named. named.items
        ≡ map (spec.names_head proofs.now.falsifier proofs.now.satisfier) heads.now) }
{
    let marks = marks_of(alloc, proofs, scope.len())?;
    let mut named = Vec::with_capacity(alloc, heads.len()).ok()?;
    for place in 0..heads.len() {
        named.push(head_mark(&marks, &heads[place])).ok()?;
    }
    Some(named)
}
