//! Readers and writers that fail once, or give or take nothing once, and then go on.
ghost use Rattle.std.specs.Prelude.{◌≡◌, IfOk};

use super::*;

// Says how one call ends.
#[derive(Clone, Copy, Debug, PartialEq, Eq)]
enum Stumble {
    Fails,
    // It gives or takes nothing.
    IsEmpty,
}

const STUMBLES: [Stumble; 2] = [Stumble::Fails, Stumble::IsEmpty];

fn outcome(how: Stumble) -> io::Result<usize>
    ensures { IfOk result (λ n. n ≡ 0) }
{
    match how {
        Stumble::Fails => Err(io::Error::from(ErrorKind::Interrupted)),
        Stumble::IsEmpty => Ok(0),
    }
}

// Gives a few bytes a read, and stumbles at the read behind so many others.
#[derive(Drop)]
struct StumblingReader<'a> {
    bytes: &'a [u8],
    reads: usize,
    how: Stumble,
}

impl Read for StumblingReader<'_> {
    fn read(&mut self, buf: &mut [u8]) -> io::Result<usize> {
        if self.reads == 0 {
            self.reads = usize::MAX;
            return outcome(self.how);
        }
        self.reads -= 1;
        let count = self.bytes.len().min(buf.len()).min(10);
        buf[..count].copy_from_slice(&self.bytes[..count]);
        self.bytes = &self.bytes[count..];
        Ok(count)
    }
}

// Takes one byte a write, and stumbles at the write behind so many others.
#[derive(Drop)]
struct StumblingWriter {
    bytes: Vec<u8>,
    writes: usize,
    how: Stumble,
}

impl Write for StumblingWriter {
    fn write(&mut self, buf: &[u8]) -> io::Result<usize> {
        if self.writes == 0 {
            self.writes = usize::MAX;
            return outcome(self.how);
        }
        self.writes -= 1;
        match buf.first() {
            Some(byte) if self.bytes.push(*byte).is_ok() => Ok(1),
            _ => Ok(0),
        }
    }

    fn flush(&mut self) -> io::Result<()> {
        Ok(())
    }
}

const BAD_LINE: &str = "column a i64\npart\nrow x\n";

const NO_PREDICATE: &str = "column a i64\nwhere col a\n";

#[test]
fn a_read_that_fails_once_ends_the_run(rt: HostRuntime) {
    for text in [FIRST_RUN, BAD_LINE, NO_PREDICATE] {
        for reads in 0..=text.len() / 10 {
            let mut reader = StumblingReader {
                bytes: text.as_bytes(),
                reads,
                how: Stumble::Fails,
            };
            let mut written = Vec::new(rt.alloc());
            assert_eq!(&rt; run(rt.alloc(), &mut reader, &mut written), 1, "{reads}");
            assert_eq!(&rt; written.as_slice(), b"read\n".as_slice(), "{reads}");
        }
    }
}

// The answer is that to the bytes before, and those behind are not asked for.
#[test]
fn a_read_of_no_bytes_is_the_end(rt: HostRuntime) {
    for reads in 0..=FIRST_RUN.len() / 10 {
        let mut reader = StumblingReader {
            bytes: FIRST_RUN.as_bytes(),
            reads,
            how: Stumble::IsEmpty,
        };
        let mut written = Vec::new(rt.alloc());
        let status = run(rt.alloc(), &mut reader, &mut written);
        let left = reader.bytes.len();
        let read = FIRST_RUN.len().saturating_sub(left);
        assert_eq!(&rt; read, reads * 10, "{reads}");
        let mut front = FIRST_RUN.as_bytes().get(..read).unwrap_or(&[]);
        let mut want = Vec::new(rt.alloc());
        assert_eq!(&rt; status, run(rt.alloc(), &mut front, &mut want), "{reads}");
        assert_eq!(&rt; written.as_slice(), want.as_slice(), "{reads}");
    }
}

// Whichever of its writes fails or takes nothing, an answer ends there.
#[test]
fn a_write_that_stumbles_once_cuts_the_answer_off(rt: HostRuntime) {
    for (text, answer) in [
        (FIRST_RUN, FIRST_ANSWER),
        (BAD_LINE, "line 3: bad\n"),
        (NO_PREDICATE, "predicate\n"),
    ] {
        for writes in 0..answer.len() {
            for how in STUMBLES {
                let mut writer = StumblingWriter {
                    bytes: Vec::new(rt.alloc()),
                    writes,
                    how,
                };
                let status = run(rt.alloc(), &mut text.as_bytes(), &mut writer);
                assert_eq!(&rt; status, 1, "{writes} {how:?}");
                let want = answer.as_bytes().get(..writes);
                assert!(&rt; Some(writer.bytes.as_slice()) == want, "{writes} {how:?}");
            }
        }
    }
}

// Expects a reason to be told of a run into a writer whose fourth write stumbles.
fn expect_not_written(rt: &impl Abort, alloc: Global, text: &str, before: &str) {
    for how in STUMBLES {
        let mut writer = StumblingWriter {
            bytes: Vec::new(alloc),
            writes: 3,
            how,
        };
        let mut told = Vec::new(alloc);
        program::run(alloc, &mut text.as_bytes(), &mut writer, &mut told);
        let mut want = Vec::from_slice(alloc, before.as_bytes()).expect(rt, "want");
        want.extend_from_slice(b"write: the answer could not be written to its end\n")
            .expect(rt, "want");
        assert_eq!(rt; told.as_slice(), want.as_slice(), "{how:?}");
    }
}

#[test]
fn a_failed_write_of_an_answer_is_told(rt: HostRuntime) {
    let alloc = rt.alloc();
    expect_not_written(&rt, alloc, FIRST_RUN, "");
    let bad = "line 3: word 2 \"x\": i64 is -9223372036854775808 to 9223372036854775807\n";
    expect_not_written(&rt, alloc, BAD_LINE, bad);
    let other = "predicate: the expression behind where is not of type bool\n";
    expect_not_written(&rt, alloc, NO_PREDICATE, other);
}

// Of the word `read` likewise.
#[test]
fn a_failed_write_of_a_word_is_told(rt: HostRuntime) {
    let alloc = rt.alloc();
    let mut reader = StumblingReader {
        bytes: FIRST_RUN.as_bytes(),
        reads: 1,
        how: Stumble::Fails,
    };
    let mut writer = StumblingWriter {
        bytes: Vec::new(alloc),
        writes: 2,
        how: Stumble::Fails,
    };
    let mut told = Vec::new(alloc);
    let status = program::run(alloc, &mut reader, &mut writer, &mut told);
    assert_eq!(&rt; status, 1);
    assert_eq!(&rt; writer.bytes.as_slice(), b"re".as_slice());
    let want = b"read: the input could not be read to its end\n\
        write: the answer could not be written to its end\n";
    assert_eq!(&rt; told.as_slice(), want.as_slice());
}
