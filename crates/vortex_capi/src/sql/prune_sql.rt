//! The answers for the zones of a table under a condition in SQL.
ghost use Rattle.std.specs.Prelude.{◌≡◌, ◌≢◌, IfOk, length};
ghost use Rattle.vortex_capi.specs.Prunes.{AreClosed, table_answers, zones_asked};
ghost use Rattle.vortex_capi.specs.Refusals.{Answers};
ghost use Rattle.vortex_capi.specs.SqlCalls.SqlPrunes as spec;

use crate::by_proofs::answers_by_proofs;
use crate::fault::{Fault, Refusal};
use crate::field::{Field, schema_given};
use crate::span::{Span, put_places};
use crate::sql::condition::{condition_given, names_of};
use crate::statistic::Statistic;
use crate::status::Status;
use std::alloc::Global;
use vortex_predicates::PruningCondition;
use vortex_sql::schema::Schema;
use vortex_sql::syntax::parse::Names;

// Returns the columns of the condition, and how it writes names.
fn columns_asked(
    alloc: Global,
    fields: &[Field<'_>],
    rows: &[u64],
    flags: u8,
    room: usize,
) -> Result<(Schema, Names), Refusal>
    ensures read { Answers (λ x. spec.columns_by x.0 x.1) result
        (spec.columns_asked fields.now rows.now flags room) }
    ensures room { IfOk result (λ _. room ≡ length rows.now) }
{
    let names = names_of(flags)?;
    if room != rows.len() {
        return Err(Refusal::at_entry(Status::BadLength, 0));
    }
    Ok((schema_given(alloc, fields)?, names))
}

// Returns the answers by the proofs of a condition.
fn condition_answers(
    alloc: Global,
    condition: &PruningCondition,
    rows: &[u64],
    stats: &[Statistic<'_>],
) -> Result<Vec<u8>, Refusal>
    requires closed { AreClosed condition.now.falsifier condition.now.satisfier }
    ensures read { Answers (λ v. v.items) result (table_answers condition.now.falsifier
        condition.now.satisfier condition.now.scope
        (zones_asked condition.now.scope rows.now stats.now)) }
    ensures long { IfOk result (λ v. length v.items ≡ length rows.now) }
{
    answers_by_proofs(alloc, condition.scope(), condition.proofs(), rows, stats)
}

// Answers by a condition, and tells which leaves of it aren't read.
fn answered(
    alloc: Global,
    condition: &PruningCondition,
    rows: &[u64],
    stats: &[Statistic<'_>],
    answers: &mut [u8],
    unread: &mut [Span],
    len: &mut usize,
    fault: &mut Fault,
) -> u8
    requires closed { AreClosed condition.now.falsifier condition.now.satisfier }
    requires room { length answers.old ≡ length rows.now }
    ensures { spec.IsAnsweredBy condition.now (zones_asked condition.now.scope rows.now stats.now)
        (record { answers = answers.old; unread = unread.old })
        (record { answers = answers.new; unread = unread.new })
        len.old len.new result fault.old fault.new }
{
    let places = condition.unread();
    if unread.len() < places.len() {
        *len = places.len();
        return Status::TooShort.number();
    }
    match condition_answers(alloc, condition, rows, stats) {
        Ok(found) => {
            *len = places.len();
            answers.copy_from_slice(&found);
            put_places(places, unread);
            0
        }
        Err(refusal) => refusal.tell(fault),
    }
}

/// Answers for each zone of a table under a condition in SQL, and tells which tests of it aren't
/// read: `vortex_prune_sql` of the header.
pub fn prune_sql(
    alloc: Global,
    scope: &[Field<'_>],
    rows: &[u64],
    stats: &[Statistic<'_>],
    text: &[u8],
    flags: u8,
    answers: &mut [u8],
    unread: &mut [Span],
    len: &mut usize,
    fault: &mut Fault,
) -> u8
    // Of an answer: the text is a condition over the columns. The arrays have the answer for each
    // zone that its proofs give, and where each leaf stands that isn't read. Whatever rows a zone
    // holds, if its statistics are true of them, and whatever those leaves mean: of a skipped zone
    // none satisfies the condition, and of a whole one each does.
    ensures answered { result ≡ 0 → spec.AreAnswered scope.now rows.now stats.now text.now flags
        (record { answers = answers.old; unread = unread.old })
        (record { answers = answers.new; unread = unread.new }) len.new }
    // Of a refusal the arrays are as they were.
    ensures answers { result ≢ 0 → answers.new ≡ answers.old }
    ensures unread { result ≢ 0 → unread.new ≡ unread.old }
    // How many leaves aren't read is told of an answer, and where the room for them is too little.
    ensures counted { result ≢ 0 → result ≢ 3 → len.new ≡ len.old }
    // A place is told where the call is refused.
    ensures told { result ≡ 0 → fault.new ≡ fault.old }
    // A refusal other than for memory has its cause, the first of several.
    ensures refused { result ≢ 0 → result ≢ 4 → spec.IsRefusedFor
        (spec.columns_asked scope.now rows.now flags (length answers.old)) rows.now stats.now
        text.now (length unread.old) result len.new fault.new }
{
    match columns_asked(alloc, scope, rows, flags, answers.len()) {
        Ok((schema, names)) => {
            let condition = match condition_given(alloc, schema, text, names) {
                Ok(condition) => condition,
                Err(refusal) => return refusal.tell(fault),
            };
            answered(alloc, &condition, rows, stats, answers, unread, len, fault)
        }
        Err(refusal) => refusal.tell(fault),
    }
}
