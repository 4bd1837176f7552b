//! The data pages of a Parquet file, by its offset indexes.
ghost use Rattle.std.specs.Prelude.{◌≡◌, ◌≤◌, ◌++◌, drop, length, map};
ghost use Rattle.vortex_capi.specs.ParquetCalls.DataPages as spec;
ghost use Rattle.vortex_parquet.specs.GroupPages.{tail_view};
ghost use Rattle.vortex_parquet.specs.Reading.{Gives};
ghost use Rattle.vortex_parquet.specs.Records.{element_view};

use crate::fault::Fault;
use crate::parquet::refusal::of_read;
use crate::status::Status;
use std::alloc::Global;
use vortex_parquet::ReadError;
use vortex_parquet::columns::columns_of;
use vortex_parquet::data_pages::{self, DataPage};
use vortex_parquet::group_pages::FileTail;
use vortex_parquet::records::{SchemaElement, file_of};

// Returns how many leaf columns a schema has.
#[tactic(auto, unfolding(crate::specs::ParquetCalls::DataPages::leaf_count))]
fn leaf_count(alloc: Global, elements: &[SchemaElement<'_>]) -> Result<usize, ReadError>
    ensures { Gives (λ n. n) result (spec.leaf_count (map element_view elements.now)) }
{
    let columns = columns_of(alloc, elements)?;
    Ok(columns.leaves)
}

// Returns the data pages that the offset indexes of a footer tell.
#[tactic(auto, unfolding(crate::specs::ParquetCalls::DataPages::told_pages))]
fn told_pages(alloc: Global, footer: &[u8], tail: FileTail<'_>) -> Result<Vec<DataPage>, ReadError>
    ensures { Gives (λ v. v.items) result (spec.told_pages footer.now (tail_view tail.entry)) }
{
    let file = file_of(alloc, footer)?;
    let count = leaf_count(alloc, &file.schema)?;
    data_pages::data_pages(alloc, tail, count, &file)
}

// Puts pages at the front of an array that has room for them.
fn put_pages(told: &[DataPage], pages: &mut [DataPage])
    requires { length told.now ≤ length pages.old }
    ensures { pages.new ≡ told.now ++ drop (length told.now) pages.old }
{
    pages[..told.len()].copy_from_slice(told);
}

/// The data pages of a file with the rows and the bytes of each, by the offset indexes among the
/// file's last bytes, which begin at a byte: `vortex_parquet_data_pages` of the header.
pub fn data_pages(
    alloc: Global,
    footer: &[u8],
    tail: &[u8],
    tail_begin: u64,
    pages: &mut [DataPage],
    found_len: &mut usize,
    fault: &mut Fault,
) -> u8
    // Of an answer the array has each page at its front that an offset index tells. Of a refusal it
    // is as it was, and but for memory its cause is told, the first.
    ensures { spec.ArePagesTold footer.now (record { begin = tail_begin; bytes = tail.now })
        (record { pages = pages.old; found_len = found_len.old; fault = fault.old })
        (record { pages = pages.new; found_len = found_len.new; fault = fault.new }) result }
{
    let tail = FileTail {
        begin: tail_begin,
        bytes: tail,
    };
    match told_pages(alloc, footer, tail) {
        Ok(found) => {
            *found_len = found.len();
            if pages.len() < found.len() {
                return Status::TooShort.number();
            }
            put_pages(&found, pages);
            0
        }
        Err(error) => of_read(error).tell(fault),
    }
}
