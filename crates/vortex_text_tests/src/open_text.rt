//! Texts that come in piece by piece.
use std::alloc::Global;
use std::process::Abort;
use std::test::Fail;
use vortex_text::bad_line::TextError;
use vortex_text::open_text::{OpenText, PushError};

// A column of texts and one of numbers, two parts of two rows and of one.
const TEXT: &str =
    "column s utf8\r\ncolumn n i64?\npart\nstat n min exact 1\nrow \"h\u{e9} \u{1f600}\" 1\n\
        row \"\" null\n\n  \npart\r\nrow \"\\\"\" -2\nwhere eq col n lit i64 1";

// The bytes of a text up to a place, and those behind it.
fn cut(text: &[u8], at: usize) -> (&[u8], &[u8]) {
    text.split_at(at.min(text.len()))
}

// The parts of a text, and the rows of each, after which a text ends that came in two pieces.
fn rows_of(alloc: Global, front: &[u8], back: &[u8]) -> Result<Vec<usize>, Fail> {
    let mut text = OpenText::new(alloc);
    if text.push(alloc, front).is_err() || text.push(alloc, back).is_err() {
        return Err(Fail::from("bytes were not taken"));
    }
    let Ok(query) = text.close(alloc) else {
        return Err(Fail::from("the text names nothing"));
    };
    let map = query.map(alloc)?;
    let mut rows = Vec::new(alloc);
    for place in 0..map.len() {
        rows.push(map.rows(place) as usize)?;
    }
    Ok(rows)
}

// The first bad line of a text that came in two pieces: its number, its bytes and why it is bad.
fn expect_bad(
    rt: &impl Abort,
    alloc: Global,
    pieces: (&[u8], &[u8]),
    number: usize,
    line: &[u8],
    reason: &str,
) -> Result<(), Fail> {
    let mut text = OpenText::new(alloc);
    if text.push(alloc, pieces.0).is_err() || text.push(alloc, pieces.1).is_err() {
        return Err(Fail::from("bytes were not taken"));
    }
    match text.close(alloc) {
        Err(TextError::BadLine(bad)) => {
            assert_eq!(rt; bad.number, number);
            assert_eq!(rt; bad.line.as_slice(), line);
            assert_eq!(rt; bad.reason(alloc)?.as_str(), reason);
            Ok(())
        }
        _ => Err(Fail::from("no line is bad")),
    }
}

// A line that two pieces share, a return parted from its line feed, a character cut in two, and a
// last line without its line feed.
#[test]
fn a_text_cut_at_each_place(rt: HostRuntime) -> Result<(), Fail> {
    let text = TEXT.as_bytes();
    for at in 0..=text.len() {
        let (front, back) = cut(text, at);
        let rows = rows_of(rt.alloc(), front, back)?;
        assert_eq!(&rt; rows.as_slice(), [2, 1].as_slice(), "cut at {at}");
    }
    Ok(())
}

#[test]
fn a_text_of_one_byte_a_push(rt: HostRuntime) -> Result<(), Fail> {
    let alloc = rt.alloc();
    let mut text = OpenText::new(alloc);
    for byte in TEXT.as_bytes() {
        if text.push(alloc, &[*byte]).is_err() || text.push(alloc, &[]).is_err() {
            return Err(Fail::from("a byte was not taken"));
        }
    }
    let Ok(query) = text.close(alloc) else {
        return Err(Fail::from("the text names nothing"));
    };
    assert_eq!(&rt; query.parts.len(), 2);
    assert_eq!(&rt; query.scope.len(), 2);
    Ok(())
}

// The second line is bad, wherever the text is cut; later ones aren't looked at.
#[test]
fn a_bad_line_across_pushes(rt: HostRuntime) -> Result<(), Fail> {
    let text = b"column a i64\npart\nrow 1\nrow x\nrow y\n".as_slice();
    let reason = "line 4: word 2 \"x\": i64 is -9223372036854775808 to 9223372036854775807\n";
    for at in 0..=text.len() {
        expect_bad(
            &rt,
            rt.alloc(),
            cut(text, at),
            4,
            b"row x".as_slice(),
            reason,
        )?;
    }
    Ok(())
}

#[test]
fn a_last_line_that_is_bad(rt: HostRuntime) -> Result<(), Fail> {
    let text = b"column a i64\npart\npart 1".as_slice();
    let reason = "line 3: word 2 \"1\": the line ends before this word\n";
    for at in 0..=text.len() {
        expect_bad(
            &rt,
            rt.alloc(),
            cut(text, at),
            3,
            b"part 1".as_slice(),
            reason,
        )?;
    }
    Ok(())
}

#[test]
fn texts_without_a_predicate(rt: HostRuntime) -> Result<(), Fail> {
    let reason = "line 1: a text ends with a line where and the predicate\n";
    let none = b"".as_slice();
    expect_bad(&rt, rt.alloc(), (none, none), 1, none, reason)?;
    let text = b"column a i64\n\n".as_slice();
    let reason = "line 3: a text ends with a line where and the predicate\n";
    for at in 0..=text.len() {
        expect_bad(&rt, rt.alloc(), cut(text, at), 3, none, reason)?;
    }
    Ok(())
}

// A byte that begins a character, and none of those that have to follow it.
#[test]
fn a_line_that_is_not_utf8(rt: HostRuntime) -> Result<(), Fail> {
    let text = b"column s utf8\npart\nrow \"\xf0\x9f\x98\"\nwhere lit bool true\n".as_slice();
    let line = b"row \"\xf0\x9f\x98\"".as_slice();
    for at in 0..=text.len() {
        expect_bad(
            &rt,
            rt.alloc(),
            cut(text, at),
            3,
            line,
            "line 3: the line is not UTF-8\n",
        )?;
    }
    Ok(())
}

// A value that doesn't fit is not taken, and the text goes on.
#[test]
fn a_text_of_the_limit(rt: HostRuntime) -> Result<(), Fail> {
    let alloc = rt.alloc();
    let mut text = OpenText::new(alloc);
    let spaces = [b' '; 65_536];
    let line = b"column a i64\npart\nwhere lit bool true\n".as_slice();
    assert!(&rt; text.push(alloc, line).is_ok());
    for _ in 0..255 {
        assert!(&rt; text.push(alloc, &spaces).is_ok());
    }
    assert!(&rt; matches!(text.push(alloc, &spaces), Err(PushError::TooLong)));
    let room = spaces.len().saturating_sub(line.len());
    assert!(&rt; text.push(alloc, &spaces[..room]).is_ok());
    assert!(&rt; matches!(text.push(alloc, &[b' ']), Err(PushError::TooLong)));
    assert!(&rt; text.push(alloc, &[]).is_ok());
    assert!(&rt; text.close(alloc).is_ok());
    Ok(())
}
