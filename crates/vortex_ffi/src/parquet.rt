//! The calls over footers of Parquet files, under the names of the header.
ghost use Rattle.vortex_capi.specs.ParquetCalls.DataPages as told;
ghost use Rattle.vortex_capi.specs.ParquetCalls.FooterPrunes as footers;
ghost use Rattle.vortex_capi.specs.ParquetCalls.IndexBegins as indexes;
ghost use Rattle.vortex_capi.specs.ParquetCalls.PagePrunes as pages;

use std::alloc::Global;
use vortex_capi::fault::Fault;
use vortex_capi::parquet::data_pages::data_pages;
use vortex_capi::parquet::indexes::indexes_begin;
use vortex_capi::parquet::prune_footer::prune_footer;
use vortex_capi::parquet::prune_pages::prune_pages;
use vortex_capi::parquet::row_group::RowGroup;
use vortex_capi::parquet::row_range::RowRange;
use vortex_capi::parquet::tail::footer_length;
use vortex_capi::span::Span;
use vortex_parquet::data_pages::DataPage;

/// How many bytes the footer has that stands before the last eight bytes of a file,
/// `vortex_parquet_footer` of the header.
#[unsafe(no_mangle)]
pub extern "C" fn vortex_parquet_footer(tail: &[u8], length: &mut usize, fault: &mut Fault) -> u8
    // The length is told, or it is as it was.
    ensures { footers.IsLengthTold tail.now length.old length.new result fault.old fault.new }
{
    footer_length(tail, length, fault)
}

/// The row groups of a file with what to do with each under a condition in SQL, by the footer
/// alone, `vortex_parquet_prune` of the header.
#[unsafe(no_mangle)]
pub extern "C" fn vortex_parquet_prune(
    alloc: Global,
    footer: &[u8],
    text: &[u8],
    flags: u8,
    groups: &mut [RowGroup],
    unread: &mut [Span],
    groups_found: &mut usize,
    unread_found: &mut usize,
    fault: &mut Fault,
) -> u8
    // Of an answer: the bytes are a footer, and the text is a condition over its columns. The
    // arrays have what is told of each row group, and where each leaf stands that isn't read. If
    // the footer's statistics are true of the rows of a row group, then whatever those leaves
    // mean, of a skipped one none satisfies the condition, and of a whole one each does. Of a
    // refusal the arrays are as they were, and but for memory its cause is told, the first.
    ensures { footers.IsPruned footer.now text.now flags
        (record {
          groups = groups.old;
          unread = unread.old;
          found_len = groups_found.old;
          unread_len = unread_found.old;
          fault = fault.old;
        })
        (record {
          groups = groups.new;
          unread = unread.new;
          found_len = groups_found.new;
          unread_len = unread_found.new;
          fault = fault.new;
        }) result }
{
    prune_footer(
        alloc,
        footer,
        text,
        flags,
        groups,
        unread,
        groups_found,
        unread_found,
        fault,
    )
}

/// The byte of a file at which its first page index begins, by the file's footer,
/// `vortex_parquet_indexes` of the header.
#[unsafe(no_mangle)]
pub extern "C" fn vortex_parquet_indexes(
    alloc: Global,
    footer: &[u8],
    begin: &mut u64,
    fault: &mut Fault,
) -> u8
    // The least offset of an index is told that the footer names, or the greatest number of 64 bits
    // where it names none; of a refusal it is as it was, and but for memory its cause is told.
    ensures { indexes.IsIndexAnswer footer.now begin.old begin.new result fault.old fault.new }
{
    indexes_begin(alloc, footer, begin, fault)
}

/// The rows of a file with what to do with them under a condition in SQL, by the page indexes among
/// the file's last bytes, `vortex_parquet_prune_pages` of the header.
#[unsafe(no_mangle)]
pub extern "C" fn vortex_parquet_prune_pages(
    alloc: Global,
    footer: &[u8],
    tail: &[u8],
    tail_begin: u64,
    text: &[u8],
    flags: u8,
    ranges: &mut [RowRange],
    unread: &mut [Span],
    ranges_found: &mut usize,
    unread_found: &mut usize,
    fault: &mut Fault,
) -> u8
    // Of an answer: the bytes are a footer, and the text is a condition over its columns. The
    // arrays have what is told of each stretch of rows, and where each leaf stands that isn't read.
    // If the statistics of its pages are true of the rows of a row group, then whatever those
    // leaves mean, of a skipped stretch none satisfies the condition, and of a whole one each does.
    // Of a refusal the arrays are as they were, and but for memory its cause is told, the first.
    ensures { pages.ArePagesPruned footer.now text.now
        (record { begin = tail_begin; bytes = tail.now }) flags
        (record {
          ranges = ranges.old;
          unread = unread.old;
          found_len = ranges_found.old;
          unread_len = unread_found.old;
          fault = fault.old;
        })
        (record {
          ranges = ranges.new;
          unread = unread.new;
          found_len = ranges_found.new;
          unread_len = unread_found.new;
          fault = fault.new;
        }) result }
{
    prune_pages(
        alloc,
        footer,
        tail,
        tail_begin,
        text,
        flags,
        ranges,
        unread,
        ranges_found,
        unread_found,
        fault,
    )
}

/// The data pages of a file with the rows and the bytes of each, by the offset indexes among the
/// file's last bytes, `vortex_parquet_data_pages` of the header.
#[unsafe(no_mangle)]
pub extern "C" fn vortex_parquet_data_pages(
    alloc: Global,
    footer: &[u8],
    tail: &[u8],
    tail_begin: u64,
    pages: &mut [DataPage],
    pages_found: &mut usize,
    fault: &mut Fault,
) -> u8
    // Of an answer the array has each page at its front that an offset index tells. Of a refusal it
    // is as it was, and but for memory its cause is told, the first.
    ensures { told.ArePagesTold footer.now (record { begin = tail_begin; bytes = tail.now })
        (record { pages = pages.old; found_len = pages_found.old; fault = fault.old })
        (record { pages = pages.new; found_len = pages_found.new; fault = fault.new }) result }
{
    data_pages(alloc, footer, tail, tail_begin, pages, pages_found, fault)
}
