//! The condition that a caller writes.
ghost use Rattle.std.specs.Prelude.{◌≡◌, ◌≢◌, IfErr, IfOk};
ghost use Rattle.std.specs.Str.{IsUtf8};
ghost use Rattle.vortex_capi.specs.Prunes.{AreClosed};
ghost use Rattle.vortex_capi.specs.declared.status.Status.TheVariants.{NoMemory};
ghost use Rattle.vortex_capi.specs.SqlCalls.SqlPrunes as spec;

use crate::fault::Refusal;
use crate::sql::refusal::{no_text, of_sql};
use crate::status::Status;
use std::alloc::Global;
use std::str;
use vortex_predicates::{ConditionError, PruningCondition};
use vortex_prune::Rules;
use vortex_sql::schema::Schema;
use vortex_sql::syntax::parse::Names;

/// Returns how names of several parts are read, or refuses a flag that isn't known.
pub(crate) fn names_of(flags: u8) -> Result<Names, Refusal>
    ensures { result ≡ spec.names_of flags }
{
    match flags {
        0 => Ok(Names::Plain),
        2 => Ok(Names::Last),
        _ => Err(Refusal::at_entry(Status::BadFlag, 0)),
    }
}

/// Returns the text that bytes are, or refuses them at the first that isn't UTF-8.
pub(crate) fn text_of(bytes: &[u8]) -> Result<&str, Refusal>
    ensures text { IfOk result (λ text. text.now ≡ bytes.now) }
    ensures utf8 { IfOk result (λ text. IsUtf8 bytes.now) }
    ensures refused { IfErr result (spec.IsNoText bytes.now) }
{
    match str::from_utf8(bytes) {
        Ok(text) => Ok(text),
        Err(fault) => Err(no_text(fault.valid_up_to())),
    }
}

// Returns why no proofs are made by built-in rules.
fn refusal_of(error: ConditionError) -> Refusal
    ensures { result ≡ spec.of_condition error }
{
    match error {
        ConditionError::Sql(error) => of_sql(error),
        ConditionError::Stats(_) => Refusal::at_entry(Status::NoMemory, 0),
    }
}

/// Returns the condition over columns that a text is, with its proofs by built-in rules.
pub(crate) fn condition_given(
    alloc: Global,
    schema: Schema,
    text: &[u8],
    names: Names,
) -> Result<PruningCondition, Refusal>
    ensures read { IfOk result
        (spec.IsConditionOf text.now (spec.columns_by schema names)) }
    ensures closed { IfOk result (λ x. AreClosed x.falsifier x.satisfier) }
    ensures refused { IfErr result (λ r. r.status ≢ NoMemory
        → spec.IsTextFault text.now schema r) }
{
    let text = text_of(text)?;
    let rules = Rules::builtin(alloc);
    match PruningCondition::try_new(alloc, text, schema, names, &rules) {
        Ok(condition) => Ok(condition),
        Err(error) => Err(refusal_of(error)),
    }
}
