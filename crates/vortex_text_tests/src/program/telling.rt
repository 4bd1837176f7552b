//! Streams that tell whether a read or a write of them has failed. Each fails at most once, and
//! goes on after that.
ghost use Rattle.std.specs.Prelude.{Some};

use super::*;

// Gives one byte a read, and fails at the read behind so many others.
#[derive(Drop)]
struct TellingReader<'a> {
    bytes: &'a [u8],
    reads: usize,
    has_failed: bool,
}

impl Source for TellingReader<'_> {
    ghost remaining = { λ r. Some r.bytes.now };

    ghost has_failed = { λ r. Some r.has_failed };

    fn read_once(&mut self, buf: &mut [u8]) -> io::Result<usize> {
        if self.reads == 0 {
            self.reads = usize::MAX;
            self.has_failed = true;
            return Err(io::Error::from(ErrorKind::Interrupted));
        }
        self.reads -= 1;
        let count = self.bytes.len().min(buf.len()).min(1);
        buf[..count].copy_from_slice(&self.bytes[..count]);
        self.bytes = &self.bytes[count..];
        Ok(count)
    }
}

// Takes one byte a write, and fails at the write behind so many others.
#[derive(Drop)]
struct TellingWriter {
    bytes: Vec<u8>,
    writes: usize,
    has_failed: bool,
}

impl Sink for TellingWriter {
    ghost contents = { λ w. Some w.bytes.items };

    ghost has_failed = { λ w. Some w.has_failed };

    fn write_once(&mut self, bytes: &[u8]) -> io::Result<usize> {
        if self.writes > 0
            && let [byte, ..] = bytes
            && self.bytes.push(*byte).is_ok()
        {
            self.writes -= 1;
            return Ok(1);
        }
        self.writes = usize::MAX;
        self.has_failed = true;
        Err(io::Error::from(ErrorKind::Interrupted))
    }
}

// A run of a text, of which a read fails behind so many others and a write behind so many, has this
// status and writes this. Whether the reader and the writer have failed comes back.
fn expect_told(
    rt: &impl Abort,
    alloc: Global,
    text: &str,
    (reads, writes): (usize, usize),
    status: u8,
    want: &[u8],
) -> (bool, bool) {
    let mut reader = TellingReader {
        bytes: text.as_bytes(),
        reads,
        has_failed: false,
    };
    let mut writer = TellingWriter {
        bytes: Vec::new(alloc),
        writes,
        has_failed: false,
    };
    assert_eq!(rt;
        run(alloc, &mut reader, &mut writer),
        status,
        "{reads} {writes}"
    );
    assert_eq!(rt; writer.bytes.as_slice(), want, "{reads} {writes}");
    (reader.has_failed, writer.has_failed)
}

// Behind so many calls none of these runs is.
const NEVER: usize = 1_000_000;

const BAD_LINE: &str = "column a i64\npart\nrow x\n";

const NO_PREDICATE: &str = "column a i64\nwhere col a\n";

#[test]
fn a_whole_answer_has_no_failure(rt: HostRuntime) {
    for (text, status, want) in [
        (FIRST_RUN, 0, FIRST_ANSWER),
        (BAD_LINE, 2, "line 3: bad\n"),
        (NO_PREDICATE, 1, "predicate\n"),
    ] {
        let want = want.as_bytes();
        let told = expect_told(&rt, rt.alloc(), text, (NEVER, NEVER), status, want);
        assert_eq!(&rt; told, (false, false));
    }
}

#[test]
fn a_failed_read_ends_the_run_at_each_place(rt: HostRuntime) {
    for text in [FIRST_RUN, BAD_LINE, NO_PREDICATE] {
        for reads in 0..=text.len() {
            let at = (reads, NEVER);
            let told = expect_told(&rt, rt.alloc(), text, at, 1, b"read\n");
            assert_eq!(&rt; told, (true, false));
        }
    }
}

// The read behind the one that finds the end is never made.
#[test]
fn no_read_follows_the_end(rt: HostRuntime) {
    let reads = FIRST_RUN.len() + 1;
    let want = FIRST_ANSWER.as_bytes();
    let told = expect_told(&rt, rt.alloc(), FIRST_RUN, (reads, NEVER), 0, want);
    assert_eq!(&rt; told, (false, false));
}

#[test]
fn a_failed_write_cuts_an_answer_off_at_each_place(rt: HostRuntime) {
    for (text, answer) in [
        (FIRST_RUN, FIRST_ANSWER),
        (BAD_LINE, "line 3: bad\n"),
        (NO_PREDICATE, "predicate\n"),
    ] {
        for writes in 0..answer.len() {
            let want = answer.as_bytes().get(..writes).unwrap_or(&[]);
            let told = expect_told(&rt, rt.alloc(), text, (NEVER, writes), 1, want);
            assert_eq!(&rt; told, (false, true));
        }
    }
}

#[test]
fn a_failed_write_cuts_a_word_off(rt: HostRuntime) {
    for writes in 0..5 {
        let want = b"read\n".get(..writes).unwrap_or(&[]);
        let told = expect_told(&rt, rt.alloc(), FIRST_RUN, (20, writes), 1, want);
        assert_eq!(&rt; told, (true, true));
    }
}
