//! The normal form of a predicate.
ghost use Rattle.std.specs.Prelude.{◌≡◌, Err, IfErr, IfOk, IsTrue, false};
ghost use Rattle.vortex_stats.specs.declared.error.StatsError.TheVariants.{NotPredicate};
ghost use Rattle.vortex_rewrite.specs.Answers.{IsMemory};
ghost use Rattle.vortex_rewrite.specs.Rewriting.Predicates.{is_predicate};
ghost use Rattle.vortex_normal.specs.Groups.{normal};
ghost use Rattle.vortex_normal.specs.Narrowed.{narrow as narrow_of};
ghost use Rattle.vortex_normal.specs.Same.{HasNoOther, Same, StaysPlain};
ghost use Rattle.vortex_normal.specs.Strict.{normal_test as test_of, strict as strict_of};
ghost use Rattle.vortex_normal.specs.Tested.{IsTestOf};

use crate::groups::grouped;
use crate::narrowed;
use crate::pushed::pushed;
use crate::strict::with_values;
use crate::tested::tested;
use std::alloc::Global;
use vortex_expr::bound_expression::BoundExpression;
use vortex_rewrite::predicate::is_truth;
use vortex_stats::error::StatsError;

fn normal_form(alloc: Global, predicate: &BoundExpression) -> Result<BoundExpression, StatsError>
    requires { IsTrue (is_predicate predicate.now) }
    ensures same { IfOk result (λ e. Same predicate.now e) }
    ensures form { IfOk result (λ e. e ≡ normal predicate.now) }
    ensures truth { IfOk result (λ e. IsTrue (is_predicate e)) }
    ensures columns { IfOk result (λ e. HasNoOther predicate.now e) }
    ensures plain { IfOk result (λ e. StaysPlain predicate.now e) }
    ensures memory { IfErr result IsMemory }
{
    let pushed = pushed(alloc, true, predicate)?;
    Ok(grouped(alloc, pushed.expression())?.into_expression())
}

/// A predicate that is satisfied by the same rows, in a form that rules see through: without NOT
/// but of a placeholder, with what doesn't depend on a row settled, and with all that an AND or OR
/// chain says of one column in one place, as ranges that are apart. `NotPredicate` if the
/// expression isn't of type Bool, which is found before anything is taken.
pub fn normalize(alloc: Global, predicate: &BoundExpression) -> Result<BoundExpression, StatsError>
    ensures not_predicate { is_predicate predicate.now ≡ false → result ≡ Err NotPredicate }
    ensures same { IfOk result (λ e. Same predicate.now e) }
    ensures form { IfOk result (λ e. e ≡ normal predicate.now) }
    ensures truth { IfOk result (λ e. IsTrue (is_predicate e)) }
    ensures columns { IfOk result (λ e. HasNoOther predicate.now e) }
    ensures plain { IfOk result (λ e. StaysPlain predicate.now e) }
    ensures memory { IsTrue (is_predicate predicate.now) → IfErr result IsMemory }
{
    if !is_truth(predicate) {
        return Err(StatsError::NotPredicate);
    }
    normal_form(alloc, predicate)
}

// How many null tests of predicates are pushed down within one another. Each doubles what is below.
const NULL_TESTS: u8 = 3;

fn test_form(
    alloc: Global,
    wanted: bool,
    with_null: bool,
    predicate: &BoundExpression,
) -> Result<BoundExpression, StatsError>
    requires { IsTrue (is_predicate predicate.now) }
    ensures test { IfOk result (λ e. IsTestOf wanted with_null predicate.now e) }
    ensures form { IfOk result (λ e. e ≡ test_of wanted with_null predicate.now) }
    ensures truth { IfOk result (λ e. IsTrue (is_predicate e)) }
    ensures columns { IfOk result (λ e. HasNoOther predicate.now e) }
    ensures plain { IfOk result (λ e. StaysPlain predicate.now e) }
    ensures memory { IfErr result IsMemory }
{
    let tested = tested(alloc, NULL_TESTS, wanted, with_null, predicate)?;
    normal_form(alloc, tested.expression())
}

/// A predicate in normal form that is satisfied where the truth of the given one is the wanted one,
/// or null if that counts: that it is true, by `true` and `false`; that it isn't, by `false` and
/// `true`. Truths that are compared with literals or null-tested are pushed down to their columns.
/// `NotPredicate` if the expression isn't of type Bool, which is found before anything is taken.
pub fn normal_test(
    alloc: Global,
    wanted: bool,
    with_null: bool,
    predicate: &BoundExpression,
) -> Result<BoundExpression, StatsError>
    ensures not_predicate { is_predicate predicate.now ≡ false → result ≡ Err NotPredicate }
    ensures test { IfOk result (λ e. IsTestOf wanted with_null predicate.now e) }
    ensures form { IfOk result (λ e. e ≡ test_of wanted with_null predicate.now) }
    ensures truth { IfOk result (λ e. IsTrue (is_predicate e)) }
    ensures columns { IfOk result (λ e. HasNoOther predicate.now e) }
    ensures plain { IfOk result (λ e. StaysPlain predicate.now e) }
    ensures memory { IsTrue (is_predicate predicate.now) → IfErr result IsMemory }
{
    if !is_truth(predicate) {
        return Err(StatsError::NotPredicate);
    }
    test_form(alloc, wanted, with_null, predicate)
}

fn narrow_form(alloc: Global, predicate: &BoundExpression) -> Result<BoundExpression, StatsError>
    requires { IsTrue (is_predicate predicate.now) }
    ensures same { IfOk result (λ e. Same predicate.now e) }
    ensures form { IfOk result (λ e. e ≡ narrow_of predicate.now) }
    ensures truth { IfOk result (λ e. IsTrue (is_predicate e)) }
    ensures columns { IfOk result (λ e. HasNoOther predicate.now e) }
    ensures plain { IfOk result (λ e. StaysPlain predicate.now e) }
    ensures memory { IfErr result IsMemory }
{
    Ok(narrowed::narrow(alloc, predicate)?.into_expression())
}

/// Returns a predicate that is satisfied by the same rows, in which the leaves below an OR allow
/// only what the ANDs around it allow of their column: `b > 2 AND a > 5` for `(a < 3 OR b > 2) AND
/// a > 5`. A predicate in normal form stays in it. `NotPredicate` if the expression isn't of type
/// Bool, which is found before anything is taken.
pub fn narrow(alloc: Global, predicate: &BoundExpression) -> Result<BoundExpression, StatsError>
    ensures not_predicate { is_predicate predicate.now ≡ false → result ≡ Err NotPredicate }
    ensures same { IfOk result (λ e. Same predicate.now e) }
    ensures form { IfOk result (λ e. e ≡ narrow_of predicate.now) }
    ensures truth { IfOk result (λ e. IsTrue (is_predicate e)) }
    ensures columns { IfOk result (λ e. HasNoOther predicate.now e) }
    ensures plain { IfOk result (λ e. StaysPlain predicate.now e) }
    ensures memory { IsTrue (is_predicate predicate.now) → IfErr result IsMemory }
{
    if !is_truth(predicate) {
        return Err(StatsError::NotPredicate);
    }
    narrow_form(alloc, predicate)
}

fn strict_form(alloc: Global, predicate: &BoundExpression) -> Result<BoundExpression, StatsError>
    requires { IsTrue (is_predicate predicate.now) }
    ensures same { IfOk result (λ e. Same predicate.now e) }
    ensures form { IfOk result (λ e. e ≡ strict_of predicate.now) }
    ensures truth { IfOk result (λ e. IsTrue (is_predicate e)) }
    ensures columns { IfOk result (λ e. HasNoOther predicate.now e) }
    ensures plain { IfOk result (λ e. StaysPlain predicate.now e) }
    ensures memory { IfErr result IsMemory }
{
    Ok(with_values(alloc, predicate)?.into_expression())
}

/// A predicate that is satisfied by the same rows, with a test that each column has a value which it
/// compares with a literal or another column, or matches with a pattern: so that rules see through
/// it where all values are null. `NotPredicate` if the expression isn't of type Bool, which is found
/// before anything is taken.
pub fn strict(alloc: Global, predicate: &BoundExpression) -> Result<BoundExpression, StatsError>
    ensures not_predicate { is_predicate predicate.now ≡ false → result ≡ Err NotPredicate }
    ensures same { IfOk result (λ e. Same predicate.now e) }
    ensures form { IfOk result (λ e. e ≡ strict_of predicate.now) }
    ensures truth { IfOk result (λ e. IsTrue (is_predicate e)) }
    ensures columns { IfOk result (λ e. HasNoOther predicate.now e) }
    ensures plain { IfOk result (λ e. StaysPlain predicate.now e) }
    ensures memory { IsTrue (is_predicate predicate.now) → IfErr result IsMemory }
{
    if !is_truth(predicate) {
        return Err(StatsError::NotPredicate);
    }
    strict_form(alloc, predicate)
}
