//! Where the page indexes of a Parquet file begin.
ghost use Rattle.std.specs.Prelude.{IfErr, IfOk};
ghost use Rattle.vortex_capi.specs.ParquetCalls.IndexBegins as spec;

use crate::fault::Fault;
use crate::parquet::refusal::of_read;
use std::alloc::Global;
use vortex_parquet::records::file_of;
use vortex_parquet::{ReadError, page_indexes};

// Returns the offset at which the first page index begins that a footer names.
fn begin_in(alloc: Global, footer: &[u8]) -> Result<Option<u64>, ReadError>
    ensures begin { IfOk result (spec.IsBeginFound footer.now) }
    ensures refused { IfErr result (spec.IsIndexRefusal footer.now) }
{
    let file = file_of(alloc, footer)?;
    page_indexes::indexes_begin(alloc, &file)
}

/// Tells at which byte of a file its first page index begins, by the file's footer:
/// `vortex_parquet_indexes` of the header.
pub fn indexes_begin(alloc: Global, footer: &[u8], begin: &mut u64, fault: &mut Fault) -> u8
    // The least offset of an index is told that the footer names, or the greatest number of 64 bits
    // where it names none; of a refusal it is as it was, and but for memory its cause is told.
    ensures { spec.IsIndexAnswer footer.now begin.old begin.new result fault.old fault.new }
{
    match begin_in(alloc, footer) {
        Ok(found) => {
            *begin = found.unwrap_or(u64::MAX);
            0
        }
        Err(error) => of_read(error).tell(fault),
    }
}
