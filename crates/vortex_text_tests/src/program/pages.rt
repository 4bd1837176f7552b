//! Answers that are longer than the page in which their bytes gather before they go out.
use super::*;
use std::alloc::AllocError;

// So many rows are selected: their answer has 68,903 bytes, five pages.
const ROWS: usize = 10_000;

fn rows(alloc: Global) -> Result<String, AllocError> {
    let mut text = String::from_str(alloc, "column a i64\npart\n")?;
    for _ in 0..ROWS {
        text.push_str("row 1\n")?;
    }
    text.push_str("where ge col a lit i64 1\n")?;
    Ok(text)
}

fn push_row(text: &mut String, alloc: Global, row: usize) -> Result<(), AllocError> {
    let row = format!(in alloc; " 0:{row}")?;
    text.push_str(&row)
}

fn long_answer(alloc: Global) -> Result<String, AllocError> {
    let mut text = String::from_str(alloc, "skipped\nrows")?;
    for row in 0..ROWS {
        push_row(&mut text, alloc, row)?;
    }
    text.push_str("\n")?;
    Ok(text)
}

// Takes so many bytes, some a write, and then fails.
#[derive(Drop)]
struct Bounded {
    bytes: Vec<u8>,
    room: usize,
}

impl Write for Bounded {
    fn write(&mut self, buf: &[u8]) -> io::Result<usize> {
        let count = buf.len().min(self.room.saturating_sub(self.bytes.len()));
        if count == 0 || self.bytes.extend_from_slice(&buf[..count]).is_err() {
            return Err(io::Error::from(ErrorKind::Interrupted));
        }
        Ok(count)
    }

    fn flush(&mut self) -> io::Result<()> {
        Ok(())
    }
}

#[test]
fn are_written_whole(rt: HostRuntime) {
    let text = rows(rt.alloc()).expect(&rt, "text");
    let answer = long_answer(rt.alloc()).expect(&rt, "answer");
    let mut written = Vec::new(rt.alloc());
    assert_eq!(rt; answer.len(), 68_903);
    assert_eq!(rt; run(rt.alloc(), &mut text.as_bytes(), &mut written), 0);
    assert!(rt; written.as_slice() == answer.as_bytes());
}

// Expects the front of an answer to be written, as far as there is room.
fn expect_cut(rt: &impl Abort, alloc: Global, text: &str, answer: &[u8], room: usize) {
    let mut writer = Bounded {
        bytes: Vec::new(alloc),
        room,
    };
    assert_eq!(rt; run(alloc, &mut text.as_bytes(), &mut writer), 1, "{room}");
    assert!(rt; Some(writer.bytes.as_slice()) == answer.get(..room));
}

#[test]
fn are_cut_off_by_a_failure(rt: HostRuntime) {
    let text = rows(rt.alloc()).expect(&rt, "text");
    let answer = long_answer(rt.alloc()).expect(&rt, "answer");
    for room in [0, 1, 16_384, 20_000, 68_902] {
        expect_cut(&rt, rt.alloc(), &text, answer.as_bytes(), room);
    }
}
