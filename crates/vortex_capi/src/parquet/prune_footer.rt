//! Row groups of a Parquet file, and what to do with each under a condition in SQL.
ghost use Rattle.std.specs.Prelude.{◌≡◌, IfErr, IfOk, map};
ghost use Rattle.vortex_parquet.specs.Records.{file_view};
ghost use Rattle.vortex_parquet.specs.Stats.{groups_of};
ghost use Rattle.vortex_capi.specs.ParquetCalls.FooterPrunes as spec;
ghost use Rattle.vortex_capi.specs.Spans.{leaf_span};
ghost use Rattle.vortex_predicates.specs.Footers.Refusals.{IsGroupFault};

use crate::fault::Fault;
use crate::parquet::asked::{Asked, asked_of};
use crate::parquet::refusal::of_footer;
use crate::parquet::row_group::{RowGroup, all_told, put_groups};
use crate::span::{Span, put_spans, spans_of};
use crate::status::Status;
use std::alloc::Global;
use vortex_predicates::FooterError;

// The row groups as they are told, and where each leaf stands that isn't read.
#[derive(Drop)]
struct Found {
    groups: Vec<RowGroup>,
    unread: Vec<Span>,
}

fn found_for(alloc: Global, asked: &Asked<'_>) -> Result<Found, FooterError>
    ensures groups { IfOk result (λ found. spec.AreFound (file_view asked.now.file)
        asked.now.count asked.now.condition.leaves.items asked.now.condition.condition
        found.groups.items) }
    ensures unread { IfOk result (λ found. found.unread.items
        ≡ map leaf_span (spec.unread_leaves asked.now.condition.condition)) }
    ensures refused { IfErr result (IsGroupFault asked.now.condition.condition
        (groups_of asked.now.condition.leaves.items asked.now.count (file_view asked.now.file))) }
{
    let unread = spans_of(alloc, asked.condition.unread())?;
    let pruned = asked.condition.prune(alloc, asked.count, &asked.file)?;
    let groups = all_told(alloc, &pruned.groups, &pruned.verdicts)?;
    Ok(Found { groups, unread })
}

// Answers what is asked.
fn answered(
    alloc: Global,
    asked: &Asked<'_>,
    groups: &mut [RowGroup],
    unread: &mut [Span],
    found_len: &mut usize,
    unread_len: &mut usize,
    fault: &mut Fault,
) -> u8
    ensures { spec.IsAnsweredBy (file_view asked.now.file) asked.now.count
        asked.now.condition.leaves.items asked.now.condition.condition
        (record {
          groups = groups.old;
          unread = unread.old;
          found_len = found_len.old;
          unread_len = unread_len.old;
          fault = fault.old;
        })
        (record {
          groups = groups.new;
          unread = unread.new;
          found_len = found_len.new;
          unread_len = unread_len.new;
          fault = fault.new;
        }) result }
{
    let places = asked.condition.unread();
    let count = asked.file.groups.count;
    if groups.len() < count || unread.len() < places.len() {
        *found_len = count;
        *unread_len = places.len();
        return Status::TooShort.number();
    }
    match found_for(alloc, asked) {
        Ok(found) => {
            *found_len = count;
            *unread_len = places.len();
            put_groups(&found.groups, groups);
            put_spans(&found.unread, unread);
            0
        }
        Err(error) => of_footer(error).tell(fault),
    }
}

/// The row groups of a file with what to do with each under a condition in SQL, by the footer
/// alone: `vortex_parquet_prune` of the header.
pub fn prune_footer(
    alloc: Global,
    footer: &[u8],
    text: &[u8],
    flags: u8,
    groups: &mut [RowGroup],
    unread: &mut [Span],
    found_len: &mut usize,
    unread_len: &mut usize,
    fault: &mut Fault,
) -> u8
    // Of an answer: the bytes are a footer, and the text is a condition over its columns. The
    // arrays have what is told of each row group, and where each leaf stands that isn't read. If
    // the footer's statistics are true of the rows of a row group, then whatever those leaves
    // mean, of a skipped one none satisfies the condition, and of a whole one each does. Of a
    // refusal the arrays are as they were, and but for memory its cause is told, the first.
    ensures { spec.IsPruned footer.now text.now flags
        (record {
          groups = groups.old;
          unread = unread.old;
          found_len = found_len.old;
          unread_len = unread_len.old;
          fault = fault.old;
        })
        (record {
          groups = groups.new;
          unread = unread.new;
          found_len = found_len.new;
          unread_len = unread_len.new;
          fault = fault.new;
        }) result }
{
    match asked_of(alloc, footer, text, flags) {
        Ok(asked) => answered(alloc, &asked, groups, unread, found_len, unread_len, fault),
        Err(refusal) => refusal.tell(fault),
    }
}
