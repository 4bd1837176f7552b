//! A predicate with all proofs that are worth trying, made once and good for any map of zones.
ghost use Rattle.std.specs.Prelude.{◌≡◌, ℕ, List, [], Err, IfErr, IfOk, IfSome, IsTrue, false};
ghost use Rattle.std.specs.Prelude.{None, Option, Some, length, option_copied, true};
ghost use Rattle.std.specs.Prelude.{if◌then◌else◌};
ghost use Rattle.vortex_expr.specs.Meanings.Fitting.{fits_scope};
ghost use Rattle.vortex_expr.specs.Trees.Tree.{Place, is_plain};
ghost use Rattle.vortex_stats.specs.declared.error.StatsError.TheVariants.{NotPredicate};
ghost use Rattle.vortex_rewrite.specs.Answers.{IsMemory};
ghost use Rattle.vortex_rewrite.specs.Causes.{IsRefusal, either_causes};
ghost use Rattle.vortex_rewrite.specs.Rewriting.Falsifiers.{falsifier as falsifier_of};
ghost use Rattle.vortex_rewrite.specs.Rewriting.Falsifiers.{satisfier as satisfier_of};
ghost use Rattle.vortex_rewrite.specs.Rewriting.Lawful.{OwnRule};
ghost use Rattle.vortex_rewrite.specs.Rewriting.Predicates.{is_predicate};
ghost use Rattle.vortex_rewrite.specs.Rewriting.ReadOnce.{has_disjoint_ands};
ghost use Rattle.vortex_zone_map.specs.Zone.{ZoneData};
ghost use Rattle.vortex_prune.specs.Scanning.ZoneScans.{AreRowVerdicts, IsSoundPruning, kept_zones};
ghost use Rattle.vortex_prune.specs.Scanning.ZoneScans.{open_causes, zone_verdicts};
ghost use Rattle.vortex_zone_map.specs.ZoneMaps.{IsMapOf};
ghost use Rattle.vortex_normal.specs.Groups.{normal as normal_of};
ghost use Rattle.vortex_normal.specs.OneColumn.{IsJoining, IsSelective, are_ends_seen, is_over};
ghost use Rattle.vortex_normal.specs.Strict.{narrow_test as narrow_of, strict_test as strict_of};
ghost use Rattle.vortex_predicates.specs.Complete.{is_decided};
ghost use Rattle.vortex_predicates.specs.NullBoxes.{FindsCertain, HasTestForms, SkipsImpossible};
ghost use Rattle.vortex_predicates.specs.NullBoxes.{is_null_decided};
ghost use Rattle.vortex_predicates.specs.Pruning.{FindsNoFewerWhole, IsMadeBy, IsRight, IsTestForm};
ghost use Rattle.vortex_predicates.specs.Pruning.{SkipsNoFewer, SkipsUnsatisfiable};
ghost use Rattle.vortex_predicates.specs.Pruning.{falsifying_causes, is_test_within, is_within, making_causes};
ghost use Rattle.vortex_predicates.specs.Pruning.{satisfying_causes, skip_causes};
ghost use Rattle.vortex_predicates.specs.Pruning.{skip_proof as skip_proof_of};
ghost use Rattle.vortex_predicates.specs.Pruning.{test_proof as test_proof_of};
ghost use Rattle.vortex_predicates.specs.Pruning.{whole_proof as whole_proof_of};
ghost use Rattle.vortex_predicates.specs.Pruning.{skipped_places, unless_deep};
ghost use Rattle.vortex_predicates.specs.Pruning.{whole_causes, whole_places};

use crate::equal_bounds::form_proof;
use crate::joint::joint;
use std::alloc::Global;
use std::marker::Model;
use vortex_expr::bound_expression::BoundExpression;
use vortex_normal::levels::is_within as levels_within;
use vortex_normal::normalize::{narrow, normal_test, normalize, strict};
use vortex_prune::scan::prune::prune_by;
use vortex_prune::scan::verdict::Verdict;
use vortex_rewrite::built::cloned;
use vortex_rewrite::rewrite::rules::{OwnRules, Rules};
use vortex_rewrite::rewrite::{falsify, satisfy};
use vortex_stats::error::StatsError;
use vortex_zone_map::zone_map::ZoneMap;

/// A predicate with a proof over statistics that no row satisfies it and one that every row does,
/// where there are such.
#[derive(Drop)]
pub struct PruningPredicate {
    predicate: BoundExpression,
    falsifier: Option<BoundExpression>,
    satisfier: Option<BoundExpression>,
}

impl Model for PruningPredicate {
    ghost use Rattle.vortex_predicates.specs.Pruning.{IsRight, Pruning};
    ghost use Rattle.vortex_predicates.specs.PruningCode.{pruning_code};

    ghost Value = { Pruning };

    ghost coded = { pruning_code };

    ghost view = { λ x. record {
      predicate = x.predicate;
      falsifier = x.falsifier;
      satisfier = x.satisfier;
    } };

    ghost invariant = { λ x.
        let seen : Pruning =
        record { predicate = x.predicate; falsifier = x.falsifier; satisfier = x.satisfier } in
        IsRight seen };
}

// Whether a form has no more than so many levels, if they are limited.
pub(crate) fn is_shallow(form: &BoundExpression, levels: Option<u32>) -> bool
    ensures { result ≡ is_within levels form.now }
{
    match levels {
        Some(levels) => levels_within(form, levels),
        None => true,
    }
}

// The narrowed test of a predicate's truth, unless that or the normal test is deeper.
pub(crate) fn narrowed_test(
    alloc: Global,
    levels: Option<u32>,
    wanted: bool,
    with_null: bool,
    predicate: &BoundExpression,
) -> Result<Option<BoundExpression>, StatsError>
    ensures value { let p = predicate.now in
        let within = is_test_within levels wanted with_null p in
        let narrowed = narrow_of wanted with_null p in
        IfOk result (λ test. test ≡ (if within then Some narrowed else None)) }
    ensures form { IfOk result (λ test. IfSome test (IsTestForm wanted with_null predicate.now)) }
    ensures not_predicate { is_predicate predicate.now ≡ false → result ≡ Err NotPredicate }
    ensures memory { IsTrue (is_predicate predicate.now) → IfErr result IsMemory }
{
    let test = normal_test(alloc, wanted, with_null, predicate)?;
    if !is_shallow(&test, levels) {
        return Ok(None);
    }
    let narrowed = narrow(alloc, &test)?;
    if is_shallow(&narrowed, levels) {
        Ok(Some(narrowed))
    } else {
        Ok(None)
    }
}

// The proof that no row satisfies a test of a predicate's truth, unless a form of that is deeper.
fn test_proof(
    alloc: Global,
    levels: Option<u32>,
    wanted: bool,
    with_null: bool,
    predicate: &BoundExpression,
    rules: &Rules,
) -> Result<Option<BoundExpression>, StatsError>
    requires { IsTrue (is_predicate predicate.now) }
    ensures value { let own = ⟦<Rules as OwnRules>⟧.own rules.now in
        IfOk result (λ proof. proof ≡ test_proof_of own levels wanted with_null predicate.now) }
    ensures truth { IfOk result (λ proof. IfSome proof (λ e. IsTrue (is_predicate e))) }
    ensures form { let p = predicate.now in
        IfOk result (λ _. IsTrue (is_test_within levels wanted with_null p)
        → IsTestForm wanted with_null p (strict_of wanted with_null p)) }
    ensures refusal { let own = ⟦<Rules as OwnRules>⟧.own rules.now in
        IfErr result (IsRefusal
        (falsifying_causes own (strict_of wanted with_null predicate.now))) }
{
    let Some(test) = narrowed_test(alloc, levels, wanted, with_null, predicate)? else {
        return Ok(None);
    };
    let form = strict(alloc, &test)?;
    let proof = form_proof(alloc, &form, rules)?;
    Ok(proof)
}

// The falsifier of a normal form, unless that is deeper.
fn normal_falsifier(
    alloc: Global,
    levels: Option<u32>,
    normal: &BoundExpression,
    rules: &Rules,
) -> Result<Option<BoundExpression>, StatsError>
    requires { IsTrue (is_predicate normal.now) }
    ensures value { let own = ⟦<Rules as OwnRules>⟧.own rules.now in
        IfOk result (λ proof.
        proof ≡ unless_deep levels normal.now (falsifier_of own normal.now)) }
    ensures truth { IfOk result (λ proof. IfSome proof (λ e. IsTrue (is_predicate e))) }
    ensures refusal { let own = ⟦<Rules as OwnRules>⟧.own rules.now in
        IfErr result (IsRefusal (falsifying_causes own normal.now)) }
{
    if is_shallow(normal, levels) {
        falsify(alloc, normal, rules)
    } else {
        Ok(None)
    }
}

// The satisfier of a normal form, unless that is deeper.
fn normal_satisfier(
    alloc: Global,
    levels: Option<u32>,
    normal: &BoundExpression,
    rules: &Rules,
) -> Result<Option<BoundExpression>, StatsError>
    requires { IsTrue (is_predicate normal.now) }
    ensures value { let own = ⟦<Rules as OwnRules>⟧.own rules.now in
        IfOk result (λ proof.
        proof ≡ unless_deep levels normal.now (satisfier_of own normal.now)) }
    ensures truth { IfOk result (λ proof. IfSome proof (λ e. IsTrue (is_predicate e))) }
    ensures refusal { let own = ⟦<Rules as OwnRules>⟧.own rules.now in
        IfErr result (IsRefusal (satisfying_causes own normal.now)) }
{
    if is_shallow(normal, levels) {
        satisfy(alloc, normal, rules)
    } else {
        Ok(None)
    }
}

// The proof that no row satisfies a predicate, whose normal form is given too.
fn skip_proof(
    alloc: Global,
    levels: Option<u32>,
    predicate: &BoundExpression,
    normal: &BoundExpression,
    rules: &Rules,
) -> Result<Option<BoundExpression>, StatsError>
    requires predicate { IsTrue (is_predicate predicate.now) }
    requires normal { normal.now ≡ normal_of predicate.now }
    requires truth { IsTrue (is_predicate normal.now) }
    ensures value { let own = ⟦<Rules as OwnRules>⟧.own rules.now in
        IfOk result (λ proof. proof ≡ skip_proof_of own levels predicate.now) }
    ensures form { let p = predicate.now in
        IfOk result (λ _. IsTrue (is_test_within levels true false p)
        → IsTestForm true false p (strict_of true false p)) }
    ensures truth { IfOk result (λ proof. IfSome proof (λ e. IsTrue (is_predicate e))) }
    ensures refusal { let own = ⟦<Rules as OwnRules>⟧.own rules.now in
        IfErr result (IsRefusal (skip_causes own predicate.now)) }
{
    let by_test = test_proof(alloc, levels, true, false, predicate, rules)?;
    let by_normal = normal_falsifier(alloc, levels, normal, rules)?;
    let as_given = falsify(alloc, predicate, rules)?;
    let by_forms = joint(alloc, by_normal, by_test)?;
    joint(alloc, as_given, by_forms)
}

// The proof that every row does.
fn whole_proof(
    alloc: Global,
    levels: Option<u32>,
    predicate: &BoundExpression,
    normal: &BoundExpression,
    rules: &Rules,
) -> Result<Option<BoundExpression>, StatsError>
    requires predicate { IsTrue (is_predicate predicate.now) }
    requires normal { normal.now ≡ normal_of predicate.now }
    requires truth { IsTrue (is_predicate normal.now) }
    ensures value { let own = ⟦<Rules as OwnRules>⟧.own rules.now in
        IfOk result (λ proof. proof ≡ whole_proof_of own levels predicate.now) }
    ensures form { let p = predicate.now in
        IfOk result (λ _. IsTrue (is_test_within levels false true p)
        → IsTestForm false true p (strict_of false true p)) }
    ensures truth { IfOk result (λ proof. IfSome proof (λ e. IsTrue (is_predicate e))) }
    ensures refusal { let own = ⟦<Rules as OwnRules>⟧.own rules.now in
        IfErr result (IsRefusal (whole_causes own predicate.now)) }
{
    let by_test = test_proof(alloc, levels, false, true, predicate, rules)?;
    let by_normal = normal_satisfier(alloc, levels, normal, rules)?;
    let as_given = satisfy(alloc, predicate, rules)?;
    let by_forms = joint(alloc, by_normal, by_test)?;
    joint(alloc, as_given, by_forms)
}

// A predicate with the proofs of its forms that have no more than so many levels.
fn made(
    alloc: Global,
    levels: Option<u32>,
    predicate: &BoundExpression,
    rules: &Rules,
) -> Result<PruningPredicate, StatsError>
    requires { IsTrue (is_plain predicate.now) }
    ensures predicate { IfOk result (λ made. made.predicate ≡ predicate.now) }
    ensures made { let own = ⟦<Rules as OwnRules>⟧.own rules.now in
        IfOk result (IsMadeBy own levels) }
    ensures right { IfOk result IsRight }
    ensures forms { IfOk result (λ made. HasTestForms levels made.predicate) }
    ensures not_predicate { is_predicate predicate.now ≡ false → result ≡ Err NotPredicate }
    ensures memory { IsTrue (is_predicate predicate.now) → rules.now.own.items ≡ []
        → IfErr result IsMemory }
    ensures refusal { let own = ⟦<Rules as OwnRules>⟧.own rules.now in
        let causes = making_causes own predicate.now in
        IsTrue (is_predicate predicate.now) → IfErr result (IsRefusal causes) }
{
    let normal = normalize(alloc, predicate)?;
    let falsifier = skip_proof(alloc, levels, predicate, &normal, rules)?;
    let satisfier = whole_proof(alloc, levels, predicate, &normal, rules)?;
    let predicate = cloned(predicate)?;
    Ok(PruningPredicate {
        predicate,
        falsifier,
        satisfier,
    })
}

impl PruningPredicate {
    /// Makes the proofs of a predicate by the built-in rules and those of a user: by the predicate
    /// as it is, by its normal form, and by tests that it is true and that it isn't, in which
    /// truths that are compared or null-tested are pushed down to their columns and a column of
    /// nulls alone is seen. A proof that another one covers is left out.
    ///
    /// `NotPredicate` if the expression isn't of type Bool, which is found before anything is
    /// taken. `Rule` if a rule of the user failed or proved by an expression that isn't of type
    /// Bool.
    pub fn try_new(
        alloc: Global,
        predicate: &BoundExpression,
        rules: &Rules,
    ) -> Result<PruningPredicate, StatsError>
        requires { IsTrue (is_plain predicate.now) }
        ensures predicate { IfOk result (λ made. made.predicate ≡ predicate.now) }
        // By these rules it has the proofs of the definitions.
        ensures made { let own = ⟦<Rules as OwnRules>⟧.own rules.now in
            IfOk result (IsMadeBy own None) }
        // They mean what they are for, whichever lawful rules took part.
        ensures right { IfOk result IsRight }
        // The tests of its truth are satisfied where they are to be.
        ensures forms { IfOk result (λ made. HasTestForms None made.predicate) }
        ensures not_predicate { is_predicate predicate.now ≡ false → result ≡ Err NotPredicate }
        // By built-in rules a predicate is refused for memory alone.
        ensures memory { IsTrue (is_predicate predicate.now) → rules.now.own.items ≡ []
            → IfErr result IsMemory }
        // A refusal other than for memory has its cause: a rule asked at a visited node of the
        // predicate, of its normal form or of a strict one.
        ensures refusal { let own = ⟦<Rules as OwnRules>⟧.own rules.now in
            let causes = making_causes own predicate.now in
            IsTrue (is_predicate predicate.now) → IfErr result (IsRefusal causes) }
    {
        made(alloc, None, predicate, rules)
    }

    /// Makes them as `try_new` does, but for the normal forms that have more than so many levels:
    /// for a caller whose stack is bounded. The predicate as it is takes part whatever its depth.
    /// Refuses what `try_new` refuses.
    pub fn try_new_within(
        alloc: Global,
        predicate: &BoundExpression,
        rules: &Rules,
        levels: u32,
    ) -> Result<PruningPredicate, StatsError>
        requires { IsTrue (is_plain predicate.now) }
        ensures predicate { IfOk result (λ made. made.predicate ≡ predicate.now) }
        ensures made { let own = ⟦<Rules as OwnRules>⟧.own rules.now in
            IfOk result (IsMadeBy own (Some levels)) }
        ensures right { IfOk result IsRight }
        ensures forms { IfOk result (λ made. HasTestForms (Some levels) made.predicate) }
        ensures not_predicate { is_predicate predicate.now ≡ false → result ≡ Err NotPredicate }
        ensures memory { IsTrue (is_predicate predicate.now) → rules.now.own.items ≡ []
            → IfErr result IsMemory }
        ensures refusal { let own = ⟦<Rules as OwnRules>⟧.own rules.now in
            let causes = making_causes own predicate.now in
            IsTrue (is_predicate predicate.now) → IfErr result (IsRefusal causes) }
    {
        made(alloc, Some(levels), predicate, rules)
    }

    /// The predicate as it was given.
    pub fn predicate(&self) -> &BoundExpression
        ensures { result.now ≡ self.now.predicate }
    {
        &self.predicate
    }

    /// The proof that no row satisfies the predicate, if there is one.
    pub fn falsifier(&self) -> Option<&BoundExpression>
        ensures { option_copied result ≡ self.now.falsifier }
    {
        self.falsifier.as_ref()
    }

    /// The proof that every row does, if there is one.
    pub fn satisfier(&self) -> Option<&BoundExpression>
        ensures { option_copied result ≡ self.now.satisfier }
    {
        self.satisfier.as_ref()
    }

    /// The verdict on each zone of a map: it is skipped if no row of it satisfies the predicate,
    /// and whole if each does. Each proof is bound once, for all zones.
    ///
    /// The caller knows that the predicate fits the map's scope (`BoundExpression::fits_scope`).
    ///
    /// `OpenProof` if a proof that is about to be bound has a column outside its placeholders,
    /// which a user's rule may have named, and else `Memory` alone.
    pub fn prune(&self, alloc: Global, map: &ZoneMap) -> Result<Vec<Verdict>, StatsError>
        requires { IsTrue (fits_scope self.now.predicate map.now.scope) }
        // On each row of the table, whatever it was made of, by what the row holds.
        ensures rows { IfOk result (λ vs.
            AreRowVerdicts self.now.falsifier self.now.satisfier map.now vs.items) }
        // So where the map is that of zones, by their statistics.
        ensures verdicts { IfOk result (λ vs. (zones : List ZoneData) → IsMapOf zones map.now
            → vs.items ≡ zone_verdicts self.now.falsifier self.now.satisfier map.now.scope zones) }
        ensures long { IfOk result (λ vs. length vs.items ≡ length map.now.rows) }
        // Whatever rows stand in a zone, if its statistics are true of them: of a skipped zone none
        // satisfies the predicate as it was given and of a whole one each does, whichever lawful
        // rules took part.
        ensures sound { IfOk result (λ vs. (zones : List ZoneData) → IsMapOf zones map.now
            → IsSoundPruning self.now.predicate map.now.scope zones (skipped_places vs.items)
            (whole_places vs.items)) }
        // Each zone is skipped that `prune` skips by the same rules.
        ensures no_fewer_skipped { IfOk result (λ vs. (zones : List ZoneData) (own : List OwnRule)
            (levels : Option ℕ) → IsMapOf zones map.now → IsMadeBy own levels self.now
            → SkipsNoFewer own self.now.predicate map.now.scope zones (skipped_places vs.items)) }
        // And each is whole or skipped that `prune` finds whole.
        ensures no_fewer_whole { IfOk result (λ vs. (zones : List ZoneData) (own : List OwnRule)
            (levels : Option ℕ) → IsMapOf zones map.now → IsMadeBy own levels self.now
            → FindsNoFewerWhole own self.now.predicate map.now.scope zones
            (skipped_places vs.items) (whole_places vs.items)) }
        // By built-in rules, where the ANDs of the normal form are apart and it isn't left out for
        // its depth, a zone is skipped if no values within its bounds satisfy the normal form.
        ensures complete { IfOk result (λ vs. (zones : List ZoneData) → IsMapOf zones map.now
            → (levels : Option ℕ) → IsMadeBy [] levels self.now
            → IsTrue (is_within levels (normal_of self.now.predicate))
            → IsTrue (has_disjoint_ands (normal_of self.now.predicate))
            → SkipsUnsatisfiable (normal_of self.now.predicate) zones (skipped_places vs.items)) }
        // And if none satisfy the predicate as it was given.
        ensures as_given { IfOk result (λ vs. (zones : List ZoneData) → IsMapOf zones map.now
            → (levels : Option ℕ) → IsMadeBy [] levels self.now
            → IsTrue (is_within levels (normal_of self.now.predicate))
            → IsTrue (has_disjoint_ands (normal_of self.now.predicate))
            → SkipsUnsatisfiable self.now.predicate zones (skipped_places vs.items)) }
        // So it is of every predicate over one column that neither null satisfies nor every
        // value; of texts, bytes and truths where it comes to no range that is open at both ends.
        ensures one_column { IfOk result (λ vs. (zones : List ZoneData) → IsMapOf zones map.now
            → (levels : Option ℕ) → IsMadeBy [] levels self.now
            → IsTrue (is_within levels (normal_of self.now.predicate))
            → (c : Place) → IsTrue (is_over c self.now.predicate)
            → IsTrue (are_ends_seen c self.now.predicate) → IsSelective c self.now.predicate
            → SkipsUnsatisfiable self.now.predicate zones (skipped_places vs.items)) }
        // And of every joining of such predicates over different columns.
        ensures joining { IfOk result (λ vs. (zones : List ZoneData) → IsMapOf zones map.now
            → (levels : Option ℕ) → IsMadeBy [] levels self.now
            → IsTrue (is_within levels (normal_of self.now.predicate))
            → IsJoining true self.now.predicate
            → SkipsUnsatisfiable self.now.predicate zones (skipped_places vs.items)) }
        // So is a zone wherever `is_complete_for` answers true of the predicate and these levels.
        ensures complete_for { IfOk result (λ vs. (zones : List ZoneData) → IsMapOf zones map.now
            → (levels : Option ℕ) → IsMadeBy [] levels self.now
            → IsTrue (is_decided levels self.now.predicate)
            → SkipsUnsatisfiable self.now.predicate zones (skipped_places vs.items)) }
        // By built-in rules, where the narrowed test that the predicate is true is a tree of AND
        // and OR over comparisons, ranges, truths and null tests in which the sides of no AND share
        // a column, a zone is skipped if its bounds and null counts leave no row that satisfies the
        // predicate. For a bound that it lacks any value of the column's type may stand with which
        // the test's comparisons hold that read the bound. `try_new` tells what the tests mean.
        ensures complete_with_nulls { IfOk result (λ vs. (zones : List ZoneData)
            → IsMapOf zones map.now → (levels : Option ℕ) → IsMadeBy [] levels self.now
            → HasTestForms levels self.now.predicate
            → IsTrue (is_null_decided levels true false self.now.predicate)
            → SkipsImpossible self.now.predicate zones (skipped_places vs.items)) }
        // And where the test that it isn't true is such a tree, a zone is skipped or whole if they
        // leave only rows that satisfy the predicate, whichever bounds it lacks.
        ensures complete_whole { IfOk result (λ vs. (zones : List ZoneData) → IsMapOf zones map.now
            → (levels : Option ℕ) → IsMadeBy [] levels self.now
            → HasTestForms levels self.now.predicate
            → IsTrue (is_null_decided levels false true self.now.predicate)
            → FindsCertain self.now.predicate zones (skipped_places vs.items)
            (whole_places vs.items)) }
        // By built-in rules memory alone is refused.
        ensures memory { IfErr result (λ e. (zones : List ZoneData) → IsMapOf zones map.now
            → (levels : Option ℕ) → IsMadeBy [] levels self.now → IsMemory e) }
        // A refusal other than for memory has its cause: a proof that a user's rule left open.
        ensures refusal { IfErr result (λ e. (zones : List ZoneData) → IsMapOf zones map.now
            → IsRefusal (either_causes (open_causes self.now.falsifier map.now.rows)
            (open_causes self.now.satisfier
            (kept_zones self.now.falsifier map.now.scope zones))) e) }
    {
        prune_by(alloc, map, self.falsifier.as_ref(), self.satisfier.as_ref())
    }
}
