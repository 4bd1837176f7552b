// Conditions with the parts underlined that aren't read.
use std::alloc::{AllocError, Global};

// The longest line of a condition that is underlined.
const WIDEST: usize = 120;

// Returns a line without the carriage return that it may end with.
fn without_return(line: &str) -> &str {
    line.strip_suffix('\r').unwrap_or(line)
}

// Tells whether each character of a line takes one column, tabs aside.
fn is_plain(line: &str) -> bool {
    line.bytes()
        .all(|byte| byte == b'\t' || (b' '..=b'~').contains(&byte))
}

// Tells whether marks beneath each line of a text stand where its characters do.
fn lines_up(text: &str) -> bool {
    for line in text.split('\n') {
        let line = without_return(line);
        if line.len() > WIDEST || !is_plain(line) {
            return false;
        }
    }
    true
}

// Returns a mark for each byte of a text: a tab stays one. No part is empty, so at most one ends at
// a byte.
fn marks_of(alloc: Global, text: &str, unread: &[(usize, usize)]) -> Result<Vec<u8>, AllocError> {
    let mut marks = Vec::with_capacity(alloc, text.len())?;
    let mut place: usize = 0;
    for (at, byte) in text.bytes().enumerate() {
        if let Some((_, end)) = unread.get(place) {
            if *end <= at {
                place = place.saturating_add(1);
            }
        }
        let is_unread = match unread.get(place) {
            Some((start, _)) => *start <= at,
            None => false,
        };
        marks.push(match byte {
            b'\t' => b'\t',
            b'\r' => b' ',
            _ if is_unread => b'~',
            _ => b' ',
        })?;
    }
    Ok(marks)
}

// Adds the marks beneath a line, if it has any.
fn push_marks(shown: &mut String, marks: &[u8]) -> Result<(), AllocError> {
    let Some(last) = marks.iter().rposition(|mark| *mark == b'~') else {
        return Ok(());
    };
    for mark in marks.iter().take(last.saturating_add(1)) {
        shown.push(char::from(*mark))?;
    }
    shown.push_str(" not read\n")
}

// Returns a condition, and a line for each part that isn't read with the byte at which it begins.
fn placed(alloc: Global, text: &str, unread: &[(usize, usize)]) -> Result<String, AllocError> {
    let mut shown = format!(in alloc; "{text}\n")?;
    for (start, end) in unread {
        let part = text.get(*start..*end).unwrap_or("");
        writeln!(shown, "not read, at byte {start}: {part}")?;
    }
    Ok(shown)
}

/// Returns a condition with a line beneath each of its lines that marks the parts which aren't
/// read. These ascend. Where marks may not line up, each part is told by its place.
pub fn underlined(
    alloc: Global,
    text: &str,
    unread: &[(usize, usize)],
) -> Result<String, AllocError> {
    if !lines_up(text) {
        return placed(alloc, text, unread);
    }
    let marks = marks_of(alloc, text, unread)?;
    let mut shown = String::new(alloc);
    let mut start: usize = 0;
    for line in text.split('\n') {
        let end = start.saturating_add(line.len());
        shown.push_str(without_return(line))?;
        shown.push('\n')?;
        push_marks(&mut shown, marks.get(start..end).unwrap_or(&[]))?;
        start = end.saturating_add(1);
    }
    Ok(shown)
}
