//! How many bytes of the end of a file are wanted.
ghost use Rattle.vortex_capi.specs.ParquetCalls.FooterPrunes as spec;

use crate::fault::Fault;
use crate::parquet::refusal::of_read;
use vortex_parquet::footer::length_of;

/// Tells by the last eight bytes of a file how many bytes stand before these in its footer,
/// `vortex_parquet_footer` of the header.
pub fn footer_length(tail: &[u8], length: &mut usize, fault: &mut Fault) -> u8
    // The length is told, or it is as it was.
    ensures { spec.IsLengthTold tail.now length.old length.new result fault.old fault.new }
{
    match length_of(tail) {
        Ok(found) => {
            *length = found as usize;
            0
        }
        Err(refused) => of_read(refused).tell(fault),
    }
}
