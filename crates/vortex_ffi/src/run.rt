//! The program's answer to a text.
ghost use Rattle.std.specs.Prelude.{◌≡◌, take};
ghost use Rattle.vortex_ffi.specs.Runs.{IsDelivered, Replies};
ghost use Rattle.vortex_text.specs.Program.{IsFullScan};

use std::alloc::Global;
use std::io;
use vortex_capi::status::Status;
use vortex_text::program::run;

// Writes an answer to the front of an array that is long enough for it, and its length in any case.
fn deliver(status: u8, answer: &[u8], output: &mut [u8], len: &mut usize) -> u8
    ensures { IsDelivered status answer.now output.old result output.new len.new }
{
    *len = answer.len();
    if answer.len() > output.len() {
        return Status::TooShort.number();
    }
    output[..answer.len()].copy_from_slice(answer);
    status
}

/// Answers a text as the program does, `vortex_run` of the header. The statuses are the program's,
/// or 3 where the array is too short for the answer.
#[unsafe(no_mangle)]
pub extern "C" fn vortex_run(alloc: Global, input: &[u8], output: &mut [u8], len: &mut usize) -> u8
    // An answer of the program to the text with its status, which stands in the array or is too
    // long for it.
    ensures answered { Replies input.now output.old result output.new len.new }
    // Where all statistics that the text names are true, the answer has the full scan's rows.
    ensures lossless { result ≡ 0 → IsFullScan input.now (take len.new output.new) }
{
    let mut reader = input;
    let mut answer = Vec::new(alloc);
    let status = run(alloc, &mut reader, &mut answer, &mut io::sink());
    deliver(status, &answer, output, len)
}
