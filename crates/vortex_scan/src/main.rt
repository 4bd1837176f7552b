// Reads parts and a predicate from standard input, and prints the skipped parts and selected rows.
// Standard error gets a line that says why there is no answer.
#![tactic(auto)]

use std::io;
use std::process::ExitCode;
use vortex_text::program;

fn main(rt: HostRuntime) -> ExitCode {
    let mut reader = rt.reader();
    let mut writer = io::writer(&rt);
    let mut reasons = rt.stderr();
    let status = program::run(rt.alloc(), &mut reader, &mut writer, &mut reasons);
    ExitCode::from(status)
}
