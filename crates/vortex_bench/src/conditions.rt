// The print of conditions in SQL, by which a judge compares how a text is read.
use std::alloc::{AllocError, Global};
use std::io;
use std::str::Lines;
use vortex_sql::syntax::parse::{Names, parse};
use vortex_sql::syntax::print::print;

// The text as it was read: each part that is joined or tested stands in parentheses, and each leaf
// that isn't read in one pair more. Of a text that is refused it is the reason.
fn printed(alloc: Global, text: &str) -> Result<String, AllocError> {
    match parse(alloc, text, Names::Plain) {
        Ok(condition) => print(alloc, text, &condition),
        Err(e) => format!(in alloc; "refused: {e}"),
    }
}

/// Prints each line of a text as a condition is read.
pub fn print_all(rt: &HostRuntime, lines: Lines<'_>) -> io::Result<()> {
    for line in lines {
        let text = printed(rt.alloc(), line)?;
        println!(rt; "{text}")?;
    }
    Ok(())
}
