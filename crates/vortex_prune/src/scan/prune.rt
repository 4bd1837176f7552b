//! Pruning by a map of zones: each proof is bound once, for all zones.
ghost use Rattle.std.specs.Prelude.{◌≡◌, ◌<◌, ◌++◌, Contains, List, [], Err, IfErr, IfOk, IsTrue, OnOk};
ghost use Rattle.std.specs.List.{list_all};
ghost use Rattle.std.specs.Prelude.{Some, alloc_error, false, length, map, not, option_copied};
ghost use Rattle.std.specs.Prelude.{true};
ghost use Rattle.vortex_expr.specs.Meanings.Fitting.{fits_scope};
ghost use Rattle.vortex_expr.specs.Trees.Tree.{Place, Tree, has_bare_column, is_plain};
ghost use Rattle.vortex_rewrite.specs.Answers.{IsMemory};
ghost use Rattle.vortex_rewrite.specs.Causes.{IsRefusal, either_causes};
ghost use Rattle.vortex_rewrite.specs.Rewriting.Falsifiers.{falsifier as falsifier_of};
ghost use Rattle.vortex_rewrite.specs.Rewriting.Falsifiers.{satisfier as satisfier_of};
ghost use Rattle.vortex_rewrite.specs.Rewriting.Lawful.{OwnRule};
ghost use Rattle.vortex_rewrite.specs.Rewriting.Predicates.{is_predicate};
ghost use Rattle.vortex_rewrite.specs.Rewriting.Proof.{is_open};
ghost use Rattle.vortex_rewrite.specs.Rewriting.ReadOnce.{has_disjoint_ands};
ghost use Rattle.vortex_zone_map.specs.Zone.{ZoneData};
ghost use Rattle.vortex_prune.specs.Scanning.Complete.{ZonesSkipExactly};
ghost use Rattle.vortex_prune.specs.Scanning.Selection.{is_skipped, is_whole, place_if};
ghost use Rattle.vortex_prune.specs.Scanning.Selection.{places_where};
ghost use Rattle.vortex_prune.specs.Scanning.TrueRows.{EachRowOf};
ghost use Rattle.vortex_prune.specs.Scanning.ZoneScans.{AllTold, AreRowVerdicts, row_verdicts};
ghost use Rattle.vortex_prune.specs.Scanning.ZoneScans.{IsShutIfKept, IsShutIfVerdict};
ghost use Rattle.vortex_prune.specs.Scanning.ZoneScans.{IsSoundPruning, TellsAs, is_left_open};
ghost use Rattle.vortex_prune.specs.Scanning.ZoneScans.{IsTableRefused, most_causes, open_causes};
ghost use Rattle.vortex_prune.specs.Scanning.ZoneScans.{kept_zones, pruning_causes, skipped_zones};
ghost use Rattle.vortex_prune.specs.Scanning.ZoneScans.{whole_zones};
ghost use Rattle.vortex_prune.specs.Scanning.Marks.{marked_verdict, marked_verdicts};
ghost use Rattle.vortex_prune.specs.Scanning.ZoneScans.{zone_verdicts};
ghost use Rattle.vortex_zone_map.specs.ZoneMaps.{HasTable, IsMapOf};
ghost use Rattle.vortex_stats.specs.declared.error.StatsError.TheVariants.{Memory, NotPredicate};

use crate::bind::bind_stats_of;
use crate::bind::zone_binder::ZoneBinder;
use crate::scan::marks::zones_passing;
use crate::scan::verdict::Verdict;
use std::alloc::{AllocError, Global};
use vortex_expr::bound_expression::BoundExpression;
use vortex_rewrite::rewrite::rules::{OwnRules, Rules};
use vortex_rewrite::rewrite::{falsify, satisfy};
use vortex_stats::error::StatsError;
use vortex_zone_map::zone_map::ZoneMap;

// Tells that the table of a map is a chunk, with a row for each zone.
pub(crate) fn has_table(map: &ZoneMap)
    ensures { HasTable map.now }
{
    let _rows = map.table().rows();
}

// A proof bound to the table. `OpenProof` if it has a column outside its placeholders, which would
// be read in the table.
fn bound_proof(
    alloc: Global,
    map: &ZoneMap,
    proof: &BoundExpression,
) -> Result<BoundExpression, StatsError>
    ensures tells { IfOk result (λ b. TellsAs (Some b) (Some proof.now) map.now) }
    ensures shut { IfOk result (λ _. has_bare_column proof.now ≡ false) }
    ensures refusal { let causes = open_causes (Some proof.now) map.now.rows in
        0 < length map.now.rows → IfErr result (IsRefusal causes) }
{
    if proof.has_bare_column() {
        return Err(StatsError::OpenProof);
    }
    let binder = ZoneBinder::new(map);
    bind_stats_of(alloc, proof, &binder)
}

// Binds a proof, if there is one and a zone to be proved by it; else nothing is bound.
fn bound_once(
    alloc: Global,
    map: &ZoneMap,
    proof: Option<&BoundExpression>,
) -> Result<Option<BoundExpression>, StatsError>
    ensures tells { IfOk result (λ b. TellsAs b (option_copied proof.entry) map.now) }
    ensures shut { let left_open = is_left_open (option_copied proof.entry) map.now.rows in
        IfOk result (λ _. left_open ≡ false) }
    ensures refusal { let causes = open_causes (option_copied proof.entry) map.now.rows in
        IfErr result (IsRefusal causes) }
{
    match proof {
        Some(proof) if map.len() > 0 => Ok(Some(bound_proof(alloc, map, proof)?)),
        _ => Ok(None),
    }
}

// Whether each mark is set.
fn are_all(marks: &[bool]) -> bool
    ensures { result ≡ list_all (λ mark. mark) marks.now }
{
    marks.iter().all(|mark| *mark)
}

// The satisfier bound to the table, if there is one and some zone isn't skipped.
fn bound_rest(
    alloc: Global,
    map: &ZoneMap,
    satisfier: Option<&BoundExpression>,
    skipped: &[bool],
) -> Result<Option<BoundExpression>, StatsError>
    requires { length skipped.now ≡ length map.now.rows }
    ensures tells { IfOk result (λ b. Contains skipped.now false
        → TellsAs b (option_copied satisfier.entry) map.now) }
    ensures shut { IfOk result (λ _. Contains skipped.now false
        → is_open (option_copied satisfier.entry) ≡ false) }
    ensures refusal { let causes = open_causes (option_copied satisfier.entry) map.now.rows in
        IfErr result (λ f. Contains skipped.now false × IsRefusal causes f) }
{
    if are_all(skipped) {
        return Ok(None);
    }
    bound_once(alloc, map, satisfier)
}

// Turns each mark round.
fn turn(marks: &mut [bool])
    ensures { marks.new ≡ map not marks.old }
{
    for place in 0..marks.len() {
        marks[place] = !marks[place];
    }
}

// The marks of the zones that aren't marked.
fn unmarked(alloc: Global, marks: &[bool]) -> Result<Vec<bool>, AllocError>
    ensures { IfOk result (λ others. others.items ≡ map not marks.now) }
{
    let mut others = Vec::from_slice(alloc, marks)?;
    turn(&mut others);
    Ok(others)
}

// The verdict on a zone that is marked as skipped or not, and as whole or not.
fn marked_verdict(skipped: bool, whole: bool) -> Verdict
    ensures { result ≡ marked_verdict skipped whole }
{
    if skipped {
        Verdict::Skipped
    } else if whole {
        Verdict::Whole
    } else {
        Verdict::Tested
    }
}

// Puts that on each zone in its place.
fn put_verdicts(skipped: &[bool], whole: &[bool], verdicts: &mut [Verdict])
    requires same { length skipped.now ≡ length whole.now }
    requires places { length verdicts.old ≡ length skipped.now }
    ensures { verdicts.new ≡ marked_verdicts skipped.now whole.now }
{
    for place in 0..verdicts.len() {
        verdicts[place] = marked_verdict(skipped[place], whole[place]);
    }
}

// The verdict on each zone, by marks.
fn marked_verdicts(
    alloc: Global,
    skipped: &[bool],
    whole: &[bool],
) -> Result<Vec<Verdict>, AllocError>
    requires { length skipped.now ≡ length whole.now }
    ensures { IfOk result (λ verdicts.
        verdicts.items ≡ marked_verdicts skipped.now whole.now) }
{
    let mut verdicts = Vec::new(alloc);
    verdicts.resize(skipped.len(), Verdict::Tested)?;
    put_verdicts(skipped, whole, &mut verdicts);
    Ok(verdicts)
}

// The verdict on each zone by a falsifier that was bound, if there is one, and by a satisfier,
// which is bound where some zone isn't skipped.
fn verdicts_by(
    alloc: Global,
    map: &ZoneMap,
    falsifier: Option<&BoundExpression>,
    satisfier: Option<&BoundExpression>,
) -> Result<Vec<Verdict>, StatsError>
    ensures told { IfOk result (λ vs. AllTold (option_copied falsifier.entry)
        (option_copied satisfier.entry) map.now vs.items) }
    ensures long { IfOk result (λ vs. length vs.items ≡ length map.now.rows) }
    ensures refusal { IfErr result (IsTableRefused (option_copied falsifier.entry)
        (option_copied satisfier.entry) map.now) }
{
    let all = vec![in alloc; true; map.len()]?;
    let skipped = zones_passing(alloc, map, falsifier, &all)?;
    let bound = bound_rest(alloc, map, satisfier, &skipped)?;
    let others = unmarked(alloc, &skipped)?;
    let whole = zones_passing(alloc, map, bound.as_ref(), &others)?;
    Ok(marked_verdicts(alloc, &skipped, &whole)?)
}

// The verdict on each zone by the falsifier and the satisfier of the predicate.
pub(crate) fn verdicts(
    alloc: Global,
    map: &ZoneMap,
    predicate: &BoundExpression,
    rules: &Rules,
) -> Result<Vec<Verdict>, StatsError>
    ensures rows { let own = ⟦<Rules as OwnRules>⟧.own rules.now in
        let f = falsifier_of own predicate.now in
        let s = satisfier_of own predicate.now in
        IfOk result (λ vs. AreRowVerdicts f s map.now vs.items) }
    ensures verdicts { let own = ⟦<Rules as OwnRules>⟧.own rules.now in
        let f = falsifier_of own predicate.now in
        let s = satisfier_of own predicate.now in
        IfOk result (λ vs. (zones : List ZoneData) → IsMapOf zones map.now
        → vs.items ≡ zone_verdicts f s map.now.scope zones) }
    ensures long { IfOk result (λ vs. length vs.items ≡ length map.now.rows) }
    ensures predicate { IfOk result (λ _. IsTrue (is_predicate predicate.now)) }
    ensures not_predicate { is_predicate predicate.now ≡ false → result ≡ Err NotPredicate }
    ensures closed { let own = ⟦<Rules as OwnRules>⟧.own rules.now in
        let proof = falsifier_of own predicate.now in
        IfOk result (λ _. is_left_open proof map.now.rows ≡ false) }
    ensures kept_closed { let own = ⟦<Rules as OwnRules>⟧.own rules.now in
        let s = satisfier_of own predicate.now in
        IfOk result (λ vs. IsShutIfVerdict s vs.items) }
    ensures refusal { let own = ⟦<Rules as OwnRules>⟧.own rules.now in
        IsTrue (is_predicate predicate.now) → IfErr result (λ e. (zones : List ZoneData)
        → IsMapOf zones map.now
        → IsRefusal (pruning_causes own predicate.now map.now.scope zones) e) }
    ensures at_most { let own = ⟦<Rules as OwnRules>⟧.own rules.now in
        let causes = most_causes own predicate.now map.now.rows in
        IsTrue (is_predicate predicate.now) → IfErr result (IsRefusal causes) }
{
    let falsifier = falsify(alloc, predicate, rules)?;
    let satisfier = satisfy(alloc, predicate, rules)?;
    let bound = bound_once(alloc, map, falsifier.as_ref())?;
    verdicts_by(alloc, map, bound.as_ref(), satisfier.as_ref())
}

/// The verdict on each zone of a map by a falsifier and a satisfier at hand, as `falsify` and
/// `satisfy` make them: for who prunes many maps under one predicate, whose proofs are so made once.
/// Each is bound once, as in `prune`.
///
/// `OpenProof` if a proof that is about to be bound has a column outside its placeholders, and else
/// `Memory` alone.
pub fn prune_by(
    alloc: Global,
    map: &ZoneMap,
    falsifier: Option<&BoundExpression>,
    satisfier: Option<&BoundExpression>,
) -> Result<Vec<Verdict>, StatsError>
    // On each row of the table, whatever it was made of: its zone is skipped exactly if the
    // falsifier is true by what the row holds, and whole exactly if it isn't skipped and the
    // satisfier is.
    ensures rows { let f = option_copied falsifier.entry in
        let s = option_copied satisfier.entry in
        IfOk result (λ vs. AreRowVerdicts f s map.now vs.items) }
    // So where the map is that of zones, by their statistics.
    ensures verdicts { let f = option_copied falsifier.entry in
        let s = option_copied satisfier.entry in
        IfOk result (λ vs. (zones : List ZoneData) → IsMapOf zones map.now
        → vs.items ≡ zone_verdicts f s map.now.scope zones) }
    ensures long { IfOk result (λ vs. length vs.items ≡ length map.now.rows) }
    // Where they are the proofs of a predicate by lawful rules, whatever rows stand in a zone of
    // which its statistics are true: of a skipped zone none satisfies the predicate, and of a whole
    // one each does.
    ensures sound { let f = option_copied falsifier.entry in
        let s = option_copied satisfier.entry in
        IfOk result (λ vs. (zones : List ZoneData) (own : List OwnRule) (p : Tree Place)
        → IsMapOf zones map.now → IsTrue (is_predicate p) → IsTrue (is_plain p)
        → IsTrue (fits_scope p map.now.scope) → f ≡ falsifier_of own p → s ≡ satisfier_of own p
        → IsSoundPruning p map.now.scope zones (places_where is_skipped vs.items)
        (places_where is_whole vs.items)) }
    // The satisfier and what the table was made of are no matter here. Where the falsifier is that
    // of a predicate by lawful rules, no row in a skipped zone satisfies the predicate, if the
    // zone's row of the table is true of the rows in it.
    ensures skipped_sound { let f = option_copied falsifier.entry in
        IfOk result (λ vs. (own : List OwnRule) (p : Tree Place) → IsTrue (is_predicate p)
        → IsTrue (is_plain p) → IsTrue (fits_scope p map.now.scope) → f ≡ falsifier_of own p
        → EachRowOf false p map.now (places_where is_skipped vs.items)) }
    // The falsifier is no matter here. Where the satisfier is that of the predicate, each row in a
    // whole zone satisfies it.
    ensures whole_sound { let s = option_copied satisfier.entry in
        IfOk result (λ vs. (own : List OwnRule) (p : Tree Place) → IsTrue (is_predicate p)
        → IsTrue (is_plain p) → IsTrue (fits_scope p map.now.scope) → s ≡ satisfier_of own p
        → EachRowOf true p map.now (places_where is_whole vs.items)) }
    // Where the falsifier is that of a predicate by built-in rules, whose ANDs are apart, a zone is
    // skipped exactly if no values within its bounds satisfy the predicate.
    ensures complete { let f = option_copied falsifier.entry in
        IfOk result (λ vs. (zones : List ZoneData) (p : Tree Place) → IsMapOf zones map.now
        → IsTrue (is_predicate p) → IsTrue (fits_scope p map.now.scope) → f ≡ falsifier_of [] p
        → IsTrue (has_disjoint_ands p)
        → ZonesSkipExactly p zones (places_where is_skipped vs.items)) }
    // No falsifier that has a column outside its placeholders was bound.
    ensures closed { let f = option_copied falsifier.entry in
        IfOk result (λ _. is_left_open f map.now.rows ≡ false) }
    // Nor such a satisfier, for a zone that isn't skipped.
    ensures kept_closed { let s = option_copied satisfier.entry in
        IfOk result (λ vs. IsShutIfVerdict s vs.items) }
    // A refusal other than for memory has its cause: such a falsifier and a zone, or such a
    // satisfier and a zone that isn't skipped.
    ensures refusal { let f = option_copied falsifier.entry in
        let s = option_copied satisfier.entry in
        IfErr result (λ e. (zones : List ZoneData) → IsMapOf zones map.now
        → IsRefusal (either_causes (open_causes f map.now.rows)
        (open_causes s (kept_zones f map.now.scope zones))) e) }
    // Whatever the table was made of, it has such a falsifier or such a satisfier, and a zone.
    ensures at_most { let f = open_causes (option_copied falsifier.entry) map.now.rows in
        let s = open_causes (option_copied satisfier.entry) map.now.rows in
        IfErr result (IsRefusal (either_causes f s)) }
{
    has_table(map);
    let bound = bound_once(alloc, map, falsifier)?;
    verdicts_by(alloc, map, bound.as_ref(), satisfier)
}

/// The zones that pruning skips and finds whole. Zones count from 0.
#[derive(Debug, PartialEq, Eq, Drop)]
pub struct Pruned {
    /// The zones of which no row satisfies the predicate, ascending.
    pub skipped: Vec<usize>,
    /// The zones of which every row does, ascending.
    pub whole: Vec<usize>,
}

impl Pruned {
    // Records the verdict on a zone.
    fn record(&mut self, place: usize, verdict: Verdict) -> Result<(), StatsError>
        ensures skipped { OnOk result (self.new.skipped.items
            ≡ self.old.skipped.items ++ place_if (is_skipped verdict) place) }
        ensures whole { OnOk result (self.new.whole.items
            ≡ self.old.whole.items ++ place_if (is_whole verdict) place) }
        ensures memory { IfErr result (λ f. f ≡ Memory alloc_error) }
    {
        match verdict {
            Verdict::Skipped => Ok(self.skipped.push(place)?),
            Verdict::Whole => Ok(self.whole.push(place)?),
            Verdict::Tested => Ok(()),
        }
    }
}

// The places of the zones that are skipped, and of those that are whole.
fn listed(alloc: Global, verdicts: &[Verdict]) -> Result<Pruned, StatsError>
    ensures skipped { IfOk result (λ pruned.
        pruned.skipped.items ≡ places_where is_skipped verdicts.now) }
    ensures whole { IfOk result (λ pruned.
        pruned.whole.items ≡ places_where is_whole verdicts.now) }
    ensures memory { IfErr result (λ f. f ≡ Memory alloc_error) }
{
    let mut pruned = Pruned {
        skipped: Vec::new(alloc),
        whole: Vec::new(alloc),
    };
    for place in 0..verdicts.len() {
        let verdict = &verdicts[place];
        pruned.record(place, *verdict)?;
    }
    Ok(pruned)
}

// Pruning by the falsifier and the satisfier of the predicate.
fn prune_rules(
    alloc: Global,
    map: &ZoneMap,
    predicate: &BoundExpression,
    rules: &Rules,
) -> Result<Pruned, StatsError>
    ensures rows_skipped { let own = ⟦<Rules as OwnRules>⟧.own rules.now in
        let f = falsifier_of own predicate.now in
        let s = satisfier_of own predicate.now in
        let places = places_where is_skipped (row_verdicts f s map.now) in
        IfOk result (λ pruned. pruned.skipped.items ≡ places) }
    ensures rows_whole { let own = ⟦<Rules as OwnRules>⟧.own rules.now in
        let f = falsifier_of own predicate.now in
        let s = satisfier_of own predicate.now in
        let places = places_where is_whole (row_verdicts f s map.now) in
        IfOk result (λ pruned. pruned.whole.items ≡ places) }
    ensures skipped { let own = ⟦<Rules as OwnRules>⟧.own rules.now in
        let proof = falsifier_of own predicate.now in
        IfOk result (λ pruned. (zones : List ZoneData) → IsMapOf zones map.now
        → pruned.skipped.items ≡ skipped_zones proof map.now.scope zones) }
    ensures whole { let own = ⟦<Rules as OwnRules>⟧.own rules.now in
        let f = falsifier_of own predicate.now in
        let s = satisfier_of own predicate.now in
        IfOk result (λ pruned. (zones : List ZoneData) → IsMapOf zones map.now
        → pruned.whole.items ≡ whole_zones f s map.now.scope zones) }
    ensures predicate { IfOk result (λ _. IsTrue (is_predicate predicate.now)) }
    ensures not_predicate { is_predicate predicate.now ≡ false → result ≡ Err NotPredicate }
    ensures closed { let own = ⟦<Rules as OwnRules>⟧.own rules.now in
        let proof = falsifier_of own predicate.now in
        IfOk result (λ _. is_left_open proof map.now.rows ≡ false) }
    ensures kept_closed { let own = ⟦<Rules as OwnRules>⟧.own rules.now in
        let s = satisfier_of own predicate.now in
        IfOk result (λ pruned. IsShutIfKept pruned.skipped.items s map.now.rows) }
    ensures refusal { let own = ⟦<Rules as OwnRules>⟧.own rules.now in
        IsTrue (is_predicate predicate.now) → IfErr result (λ e. (zones : List ZoneData)
        → IsMapOf zones map.now
        → IsRefusal (pruning_causes own predicate.now map.now.scope zones) e) }
    ensures at_most { let own = ⟦<Rules as OwnRules>⟧.own rules.now in
        let causes = most_causes own predicate.now map.now.rows in
        IsTrue (is_predicate predicate.now) → IfErr result (IsRefusal causes) }
{
    let verdicts = verdicts(alloc, map, predicate, rules)?;
    listed(alloc, &verdicts)
}

/// Tells by a map of zones which of them hold no row that satisfies a predicate, and which hold
/// none that doesn't. No row is at hand: these are what statistics prove. The predicate is
/// rewritten once into a falsifier and a satisfier, and each is bound once: the falsifier at first,
/// the satisfier if some zone isn't skipped. Each is looked at for many zones together, where it
/// compares a column with a literal by the column's values. Without zones nothing is bound.
///
/// The caller knows that the predicate is plain (`BoundExpression::is_plain`) and fits the scope
/// (`BoundExpression::fits_scope`).
///
/// `NotPredicate` if the predicate isn't of type Bool, also where there are no zones. `Rule` if a
/// rule of the user failed or proved by an expression that isn't of type Bool, `OpenProof` if a
/// proof that is about to be bound has a column outside its placeholders, which would be read in
/// the table.
pub fn prune(
    alloc: Global,
    map: &ZoneMap,
    predicate: &BoundExpression,
    rules: &Rules,
) -> Result<Pruned, StatsError>
    requires plain { IsTrue (is_plain predicate.now) }
    requires fits { IsTrue (fits_scope predicate.now map.now.scope) }
    // Whatever rows stand in a zone, if its statistics are true of them: of a skipped zone none
    // satisfies the predicate and of a whole one each does, whichever lawful rules took part.
    ensures sound { IfOk result (λ pruned. (zones : List ZoneData) → IsMapOf zones map.now
        → IsSoundPruning predicate.now map.now.scope zones pruned.skipped.items
        pruned.whole.items) }
    // On each row of the table, whatever it was made of: its zone is skipped exactly if the
    // falsifier is true by what the row holds.
    ensures rows_skipped { let own = ⟦<Rules as OwnRules>⟧.own rules.now in
        let f = falsifier_of own predicate.now in
        let s = satisfier_of own predicate.now in
        let places = places_where is_skipped (row_verdicts f s map.now) in
        IfOk result (λ pruned. pruned.skipped.items ≡ places) }
    // And whole exactly if it isn't skipped and the satisfier is.
    ensures rows_whole { let own = ⟦<Rules as OwnRules>⟧.own rules.now in
        let f = falsifier_of own predicate.now in
        let s = satisfier_of own predicate.now in
        let places = places_where is_whole (row_verdicts f s map.now) in
        IfOk result (λ pruned. pruned.whole.items ≡ places) }
    // Whatever rows stand in a skipped zone, if its row of the table is true of them: none
    // satisfies the predicate.
    ensures skipped_sound { IfOk result (λ pruned.
        EachRowOf false predicate.now map.now pruned.skipped.items) }
    // And of a whole one each does.
    ensures whole_sound { IfOk result (λ pruned.
        EachRowOf true predicate.now map.now pruned.whole.items) }
    // So where the map is that of zones: one is skipped exactly if the falsifier is true by its
    // statistics.
    ensures skipped { let own = ⟦<Rules as OwnRules>⟧.own rules.now in
        let proof = falsifier_of own predicate.now in
        IfOk result (λ pruned. (zones : List ZoneData) → IsMapOf zones map.now
        → pruned.skipped.items ≡ skipped_zones proof map.now.scope zones) }
    // And whole exactly if it isn't skipped and the satisfier is.
    ensures whole { let own = ⟦<Rules as OwnRules>⟧.own rules.now in
        let f = falsifier_of own predicate.now in
        let s = satisfier_of own predicate.now in
        IfOk result (λ pruned. (zones : List ZoneData) → IsMapOf zones map.now
        → pruned.whole.items ≡ whole_zones f s map.now.scope zones) }
    // By built-in rules a predicate whose ANDs are apart skips a zone exactly if no values within
    // its bounds satisfy it.
    ensures complete { IfOk result (λ pruned. (zones : List ZoneData) → IsMapOf zones map.now
        → rules.now.own.items ≡ [] → IsTrue (has_disjoint_ands predicate.now)
        → ZonesSkipExactly predicate.now zones pruned.skipped.items) }
    // By built-in rules a predicate is refused for memory alone.
    ensures memory { IsTrue (is_predicate predicate.now) → rules.now.own.items ≡ []
        → IfErr result IsMemory }
    ensures not_predicate { is_predicate predicate.now ≡ false → result ≡ Err NotPredicate }
    // No falsifier that has a column outside its placeholders was bound.
    ensures closed { let own = ⟦<Rules as OwnRules>⟧.own rules.now in
        let proof = falsifier_of own predicate.now in
        IfOk result (λ _. is_left_open proof map.now.rows ≡ false) }
    // Nor such a satisfier, for a zone that isn't skipped.
    ensures kept_closed { let own = ⟦<Rules as OwnRules>⟧.own rules.now in
        let s = satisfier_of own predicate.now in
        IfOk result (λ pruned. IsShutIfKept pruned.skipped.items s map.now.rows) }
    // A refusal has its cause: a rule asked at a visited node, such a falsifier and a zone, or such
    // a satisfier and a zone that isn't skipped.
    ensures refusal { let own = ⟦<Rules as OwnRules>⟧.own rules.now in
        IsTrue (is_predicate predicate.now) → IfErr result (λ e. (zones : List ZoneData)
        → IsMapOf zones map.now
        → IsRefusal (pruning_causes own predicate.now map.now.scope zones) e) }
    // Whatever the table was made of, it has such a rule, or such a falsifier or satisfier and a
    // zone.
    ensures at_most { let own = ⟦<Rules as OwnRules>⟧.own rules.now in
        let causes = most_causes own predicate.now map.now.rows in
        IsTrue (is_predicate predicate.now) → IfErr result (IsRefusal causes) }
{
    has_table(map);
    prune_rules(alloc, map, predicate, rules)
}
