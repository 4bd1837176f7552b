// The command-line tool over the library: what a predicate leaves of tables, by their statistics.
#![tactic(auto)]

mod command;
mod footers;
mod known;
mod pruning;
mod scanning;
mod showing;
mod underlining;
mod values;

use command::{Request, requested, status_of};
use pruning::prune_files;
use scanning::{scan_files, scan_input};
use showing::show_files;
use std::process::ExitCode;
use std::{env, io};

// The status where the words of the command line can't be read.
const BAD_WORDS: u8 = 64;

// Does what the command line asks for, and returns the status.
fn answered(rt: &HostRuntime, request: &Request<'_>) -> u8 {
    let alloc = rt.alloc();
    let mut writer = io::writer(rt);
    let mut reasons = rt.stderr();
    match request {
        Request::Scan(scan) if scan.files.is_empty() => {
            scan_input(
                alloc,
                scan.is_explained,
                rt.reader(),
                &mut writer,
                &mut reasons,
            )
            .0
        }
        Request::Scan(scan) => scan_files(rt, alloc, scan, &mut writer, &mut reasons),
        Request::Prune(prune) => prune_files(rt, alloc, prune, &mut writer, &mut reasons),
        Request::Show(show) => show_files(rt, alloc, show, &mut writer, &mut reasons),
    }
}

// The words of the command line, of which the first is the program's name.
fn words_of(rt: &HostRuntime) -> io::Result<Vec<String>> {
    Ok(env::args(rt)?.collect(rt.alloc())?)
}

fn main(rt: HostRuntime) -> ExitCode {
    let Ok(words) = words_of(&rt) else {
        let _ = eprintln!(rt; "foalmorrow: the words of the command line can't be read");
        return ExitCode::from(BAD_WORDS);
    };
    match requested(rt.alloc(), words.as_slice()) {
        Ok(request) => ExitCode::from(answered(&rt, &request)),
        Err(error) => {
            let _ = error.print(&rt);
            ExitCode::from(status_of(&error))
        }
    }
}
