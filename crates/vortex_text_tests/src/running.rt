//! Runs with an explanation: each status, and streams that fail or end once and then go on.
ghost use Rattle.std.specs.Prelude.{◌≡◌, IfOk};

use std::alloc::Global;
use std::io;
use std::io::{ErrorKind, Read, Write};
use std::process::Abort;
use vortex_text::explain::program::run_explained;

const TEXT: &str = "column a i64?\npart\nstat a max exact 5\nrow 5\nwhere gt col a lit i64 5\n";

const ANSWER: &str = "skipped 0\nrows\n";

const BAD_LINE: &str = "column a i64?\npart\nrow x\n";

const NO_PREDICATE: &str = "column a i64?\nwhere col a\n";

// Says how one call ends.
#[derive(Clone, Copy, Debug)]
enum Stumble {
    Fails,
    // It gives or takes nothing.
    IsEmpty,
}

fn outcome(how: Stumble) -> io::Result<usize>
    ensures { IfOk result (λ n. n ≡ 0) }
{
    match how {
        Stumble::Fails => Err(io::Error::from(ErrorKind::Interrupted)),
        Stumble::IsEmpty => Ok(0),
    }
}

// Gives a few bytes a read, and stumbles at the read behind so many others.
#[derive(Drop)]
struct StumblingReader<'a> {
    bytes: &'a [u8],
    reads: usize,
    how: Stumble,
}

impl Read for StumblingReader<'_> {
    fn read(&mut self, buf: &mut [u8]) -> io::Result<usize> {
        if self.reads == 0 {
            self.reads = usize::MAX;
            return outcome(self.how);
        }
        self.reads -= 1;
        let count = self.bytes.len().min(buf.len()).min(10);
        buf[..count].copy_from_slice(&self.bytes[..count]);
        self.bytes = &self.bytes[count..];
        Ok(count)
    }
}

// Takes one byte a write, and stumbles at the write behind so many others.
#[derive(Drop)]
struct StumblingWriter {
    bytes: Vec<u8>,
    writes: usize,
    how: Stumble,
}

impl Write for StumblingWriter {
    fn write(&mut self, buf: &[u8]) -> io::Result<usize> {
        if self.writes == 0 {
            self.writes = usize::MAX;
            return outcome(self.how);
        }
        self.writes -= 1;
        match buf.first() {
            Some(byte) if self.bytes.push(*byte).is_ok() => Ok(1),
            _ => Ok(0),
        }
    }

    fn flush(&mut self) -> io::Result<()> {
        Ok(())
    }
}

// A run of a text has this status, prints this, and what it tells begins so.
fn expect_run(rt: &impl Abort, alloc: Global, text: &str, status: u8, want: &str, told: &str) {
    let mut answer = Vec::new(alloc);
    let mut reasons = Vec::new(alloc);
    let (found, rest) = run_explained(alloc, text.as_bytes(), &mut answer, &mut reasons);
    assert_eq!(rt; found, status, "{text}");
    assert!(rt; rest.is_empty(), "{text}");
    assert_eq!(rt; answer.as_slice(), want.as_bytes(), "{text}");
    assert!(rt; reasons.starts_with(told.as_bytes()), "{text}");
}

// The answer and the status are the program's; the explanation stands behind nothing else.
#[test]
fn a_run_beside_its_answer(rt: HostRuntime) {
    let told = "predicate: ($.a > 5i64)\n  falsifier: (stat($.a, max) <= 5i64)\n";
    expect_run(&rt, rt.alloc(), TEXT, 0, ANSWER, told);
}

#[test]
fn a_run_of_a_bad_line(rt: HostRuntime) {
    let told = "line 3: word 2 \"x\": i64 is ";
    expect_run(&rt, rt.alloc(), BAD_LINE, 2, "line 3: bad\n", told);
}

#[test]
fn a_run_without_a_predicate_of_type_bool(rt: HostRuntime) {
    let told = "predicate: the expression behind where is not of type bool\n";
    expect_run(&rt, rt.alloc(), NO_PREDICATE, 1, "predicate\n", told);
}

#[test]
fn a_read_that_fails_once_ends_the_run(rt: HostRuntime) {
    let alloc = rt.alloc();
    for text in [TEXT, BAD_LINE, NO_PREDICATE] {
        for reads in 0..=text.len() / 10 {
            let reader = StumblingReader {
                bytes: text.as_bytes(),
                reads,
                how: Stumble::Fails,
            };
            let mut answer = Vec::new(alloc);
            let mut reasons = Vec::new(alloc);
            let (status, _) = run_explained(alloc, reader, &mut answer, &mut reasons);
            assert_eq!(&rt; status, 1, "{reads}");
            assert_eq!(&rt; answer.as_slice(), b"read\n".as_slice(), "{reads}");
            let told = b"read: the input could not be read to its end\n".as_slice();
            assert_eq!(&rt; reasons.as_slice(), told, "{reads}");
        }
    }
}

// The answer is that to the bytes before, and those behind are not asked for.
#[test]
fn a_read_of_no_bytes_is_the_end(rt: HostRuntime) {
    let alloc = rt.alloc();
    let reader = StumblingReader {
        bytes: TEXT.as_bytes(),
        reads: 2,
        how: Stumble::IsEmpty,
    };
    let mut answer = Vec::new(alloc);
    let (status, left) = run_explained(alloc, reader, &mut answer, &mut io::sink());
    assert_eq!(&rt; status, 2);
    assert_eq!(&rt; answer.as_slice(), b"line 3: bad\n".as_slice());
    assert_eq!(&rt; left.bytes.len(), TEXT.len().saturating_sub(20));
}

// Whichever of its writes fails or takes nothing, an answer ends there.
#[test]
fn a_write_that_stumbles_once_cuts_the_answer_off(rt: HostRuntime) {
    let alloc = rt.alloc();
    for (text, want) in [
        (TEXT, ANSWER),
        (BAD_LINE, "line 3: bad\n"),
        (NO_PREDICATE, "predicate\n"),
    ] {
        for writes in 0..want.len() {
            for how in [Stumble::Fails, Stumble::IsEmpty] {
                let mut writer = StumblingWriter {
                    bytes: Vec::new(alloc),
                    writes,
                    how,
                };
                let mut reasons = Vec::new(alloc);
                let run = run_explained(alloc, text.as_bytes(), &mut writer, &mut reasons);
                assert_eq!(&rt; run.0, 1, "{writes} {how:?}");
                let front = want.as_bytes().get(..writes);
                assert!(&rt; Some(writer.bytes.as_slice()) == front, "{writes} {how:?}");
                let told = b"write: the answer could not be written to its end\n";
                assert!(&rt; reasons.ends_with(told), "{writes} {how:?}");
            }
        }
    }
}
