//! A binder that answers what it was told, and a scan by such binders.
ghost use Rattle.std.specs.Prelude.{◌≡◌, [], All, Err, IfErr, IfOk, IsTrue, MatchResult, false, length};
ghost use Rattle.vortex_expr.specs.Meanings.Fitting.{fits_scope};
ghost use Rattle.vortex_expr.specs.Trees.Tree.{is_plain};
ghost use Rattle.vortex_examples.specs.Known.{KnownFactsAreHonest, is_for as is_for_of};
ghost use Rattle.vortex_examples.specs.Known.{known_answer as known_answer_of};
ghost use Rattle.vortex_examples.specs.KnownParts.{AreKnown};
ghost use Rattle.vortex_prune.specs.Scanning.Selection.{full};
ghost use Rattle.vortex_rewrite.specs.Answers.{IsMemory};
ghost use Rattle.vortex_rewrite.specs.HookFaults.{IsHookFault};
ghost use Rattle.vortex_rewrite.specs.Rewriting.Predicates.{is_predicate};
ghost use Rattle.vortex_stats.specs.declared.error.StatsError.TheVariants.{NotPredicate};

use std::alloc::Global;
use vortex_base::{AggregateFnRef, DType, Scalar};
use vortex_expr::{BoundExpression, bound};
use vortex_prune::scan::scan;
use vortex_prune::{HookFault, Part, Rules, Scan, StatBinder};
use vortex_stats::StatsError;

/// A fact of an aggregate of an input.
#[derive(Drop)]
pub struct Entry {
    /// The expression whose values are meant.
    pub input: BoundExpression,
    /// The aggregate whose value is known.
    pub aggregate: AggregateFnRef,
    /// Its value.
    pub value: Scalar,
}

/// Answers each placeholder by the first entry of its input and its aggregate whose value is of the
/// placeholder's type, nullability aside.
#[derive(Drop)]
pub struct Known {
    /// The entries, the first that fits before later ones.
    pub entries: Vec<Entry>,
}

fn is_for(entry: &Entry, aggregate: AggregateFnRef, input: &BoundExpression, dtype: DType) -> bool
    ensures { result ≡ is_for_of aggregate input.now dtype entry.now }
{
    entry.aggregate == aggregate
        && entry.input == *input
        && entry.value.dtype().eq_ignore_nullability(&dtype)
}

fn known_answer(
    alloc: Global,
    entries: &[Entry],
    aggregate: AggregateFnRef,
    input: &BoundExpression,
    dtype: DType,
) -> Result<Option<BoundExpression>, HookFault>
    ensures { MatchResult result
        (λ o. o ≡ known_answer_of entries.now aggregate input.now dtype)
        (IsHookFault (λ k. false)) }
{
    for entry in entries {
        if is_for(entry, aggregate, input, dtype) {
            return Ok(Some(bound::lit(alloc, entry.value.try_clone()?)?));
        }
    }
    Ok(None)
}

impl StatBinder for Known {
    ghost use Rattle.std.specs.Prelude.{false, true, refl};
    ghost use Rattle.vortex_examples.specs.Known.{known_answer, known_values};
    ghost use Rattle.vortex_examples.specs.KnownFaithful.{known_is_faithful};
    ghost use Rattle.vortex_prune.specs.Binding.PartBinder.{IsNullOf};

    // What it answers.
    ghost answer = { λ b. known_answer b.entries.items };
    // Null stands for what it doesn't know.
    ghost is_missing = { λ b. IsNullOf };

    ghost allows_null = { λ b t. refl };
    // It has no faults of its own.
    ghost can_fault = { λ b k. false };
    // The values of its answers, whatever the row of statistics and the row count.
    ghost value = { λ b row n. known_values b.entries.items };

    ghost is_faithful_over = { λ b row n. true };

    ghost is_faithful = { λ b row n h. known_is_faithful b.entries.items row n };

    fn bind_aggregate(
        &self,
        alloc: Global,
        input: &BoundExpression,
        aggregate: &AggregateFnRef,
        stat_dtype: &DType,
    ) -> Result<Option<BoundExpression>, HookFault> {
        known_answer(alloc, &self.entries, *aggregate, input, *stat_dtype)
    }
}

/// A binder of entries is honest for columns of which each entry is a fact.
pub fn known_facts_are_honest()
    ensures { KnownFactsAreHonest }
{}

/// Selects the rows of the parts that satisfy the predicate: where what was told are facts of the
/// parts, exactly those of the full scan.
pub fn scan_by_known(
    alloc: Global,
    parts: &[Part],
    told: &[Known],
    predicate: &BoundExpression,
    rules: &Rules,
) -> Result<Scan, StatsError>
    requires told { length told.now ≡ length parts.now }
    requires plain { IsTrue (is_plain predicate.now) }
    requires fits { All (λ part. IsTrue (fits_scope predicate.now part.chunk.scope)) parts.now }
    ensures selected { AreKnown parts.now told.now
        → IfOk result (λ scan. scan.selected.items ≡ full predicate.now parts.now) }
    // Such binders have no faults of their own, so by built-in rules memory alone is refused.
    ensures memory { IsTrue (is_predicate predicate.now) → rules.now.own.items ≡ []
        → IfErr result IsMemory }
    ensures not_predicate { is_predicate predicate.now ≡ false → result ≡ Err NotPredicate }
{
    scan(alloc, parts, told, predicate, rules)
}
