//! Rows of a Parquet file, and what to do with them under a condition in SQL, by its page indexes.
ghost use Rattle.std.specs.Prelude.{◌≡◌, IfErr, IfOk, map};
ghost use Rattle.vortex_parquet.specs.GroupPages.{tail_view};
ghost use Rattle.vortex_parquet.specs.Records.{file_view};
ghost use Rattle.vortex_capi.specs.ParquetCalls.FooterPrunes.{unread_leaves};
ghost use Rattle.vortex_capi.specs.Spans.{leaf_span};
ghost use Rattle.vortex_capi.specs.ParquetCalls.PagePrunes as spec;
ghost use Rattle.vortex_predicates.specs.Footers.PagePruning.{IsPageFault};

use crate::fault::Fault;
use crate::parquet::asked::{Asked, asked_of};
use crate::parquet::refusal::of_footer;
use crate::parquet::row_range::{RowRange, all_ranges, put_ranges};
use crate::span::{Span, put_spans, spans_of};
use crate::status::Status;
use std::alloc::Global;
use vortex_parquet::group_pages::FileTail;
use vortex_predicates::FooterError;

// The stretches as they are told, and where each leaf stands that isn't read.
#[derive(Drop)]
struct Found {
    ranges: Vec<RowRange>,
    unread: Vec<Span>,
}

fn found_for(alloc: Global, asked: &Asked<'_>, tail: FileTail<'_>) -> Result<Found, FooterError>
    ensures ranges { IfOk result (λ found. spec.AreRangesFound (tail_view tail.entry)
        (file_view asked.now.file) asked.now.count asked.now.condition.leaves.items
        asked.now.condition.condition found.ranges.items) }
    ensures unread { IfOk result (λ found. found.unread.items
        ≡ map leaf_span (unread_leaves asked.now.condition.condition)) }
    ensures refused { IfErr result (IsPageFault asked.now.condition.condition (tail_view tail.entry)
        asked.now.condition.leaves.items asked.now.count (file_view asked.now.file)) }
{
    let unread = spans_of(alloc, asked.condition.unread())?;
    let pruned = asked
        .condition
        .prune_pages(alloc, tail, asked.count, &asked.file)?;
    let ranges = all_ranges(alloc, &pruned.ranges, &pruned.verdicts)?;
    Ok(Found { ranges, unread })
}

// Answers what is asked.
fn answered(
    alloc: Global,
    asked: &Asked<'_>,
    tail: FileTail<'_>,
    ranges: &mut [RowRange],
    unread: &mut [Span],
    found_len: &mut usize,
    unread_len: &mut usize,
    fault: &mut Fault,
) -> u8
    ensures { spec.IsAnsweredByPages (tail_view tail.entry) (file_view asked.now.file)
        asked.now.count asked.now.condition.leaves.items asked.now.condition.condition
        (record {
          ranges = ranges.old;
          unread = unread.old;
          found_len = found_len.old;
          unread_len = unread_len.old;
          fault = fault.old;
        })
        (record {
          ranges = ranges.new;
          unread = unread.new;
          found_len = found_len.new;
          unread_len = unread_len.new;
          fault = fault.new;
        }) result }
{
    match found_for(alloc, asked, tail) {
        Ok(found) => {
            *found_len = found.ranges.len();
            *unread_len = found.unread.len();
            if ranges.len() < found.ranges.len() || unread.len() < found.unread.len() {
                return Status::TooShort.number();
            }
            put_ranges(&found.ranges, ranges);
            put_spans(&found.unread, unread);
            0
        }
        Err(error) => of_footer(error).tell(fault),
    }
}

/// The rows of a file with what to do with them under a condition in SQL, by the page indexes among
/// the file's last bytes, which begin at a byte: `vortex_parquet_prune_pages` of the header.
pub fn prune_pages(
    alloc: Global,
    footer: &[u8],
    tail: &[u8],
    tail_begin: u64,
    text: &[u8],
    flags: u8,
    ranges: &mut [RowRange],
    unread: &mut [Span],
    found_len: &mut usize,
    unread_len: &mut usize,
    fault: &mut Fault,
) -> u8
    // Of an answer: the bytes are a footer, and the text is a condition over its columns. The
    // arrays have what is told of each stretch of rows, and where each leaf stands that isn't read.
    // If the footer's statistics and those of its pages are true of the rows of a row group, then
    // whatever those leaves mean, of a skipped stretch none satisfies the condition, and of a whole
    // one each does. No fewer rows are skipped or whole than by the footer alone.
    // Of a refusal the arrays are as they were, and but for memory its cause is told, the first.
    ensures { spec.ArePagesPruned footer.now text.now
        (record { begin = tail_begin; bytes = tail.now }) flags
        (record {
          ranges = ranges.old;
          unread = unread.old;
          found_len = found_len.old;
          unread_len = unread_len.old;
          fault = fault.old;
        })
        (record {
          ranges = ranges.new;
          unread = unread.new;
          found_len = found_len.new;
          unread_len = unread_len.new;
          fault = fault.new;
        }) result }
{
    match asked_of(alloc, footer, text, flags) {
        Ok(asked) => {
            let tail = FileTail {
                begin: tail_begin,
                bytes: tail,
            };
            answered(
                alloc, &asked, tail, ranges, unread, found_len, unread_len, fault,
            )
        }
        Err(refusal) => refusal.tell(fault),
    }
}
