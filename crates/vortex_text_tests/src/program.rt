//! The program's answers to whole inputs, over readers and writers that are slow or fail.
use std::alloc::{AllocError, Global};
use std::io;
use std::io::{ErrorKind, Read, Write};
use std::process::Abort;
use vortex_text::program;
use vortex_text::streams::{Sink, Source};

mod bad_lines;
mod batches;
mod deep;
mod joined_parts;
mod nulls;
mod one_column;
mod pages;
mod plain_rows;
mod plain_statistics;
mod ranges;
mod reasons;
mod skipping;
mod stumbling;
mod telling;
mod text_lines;
mod typed_values;
mod whole;
mod worked;

const FIRST_RUN: &str =
    "column a i64?\npart\nstat a min exact 1\nstat a max exact 10\nrow 1\nrow 5\nrow 10\n\
        part\nstat a min exact 8\nstat a max inexact 25\nrow 8\nrow null\nrow 20\n\
        where gt col a lit i64 10\n";

const FIRST_ANSWER: &str = "skipped 0\nrows 1:2\n";

// A run of which no one asks why there is no answer.
fn run<R: Source, W: Sink>(alloc: Global, reader: &mut R, writer: &mut W) -> u8 {
    program::run(alloc, reader, writer, &mut io::sink())
}

// Gives some bytes, so many a read, and then ends or fails.
#[derive(Drop)]
struct Slow<'a> {
    bytes: &'a [u8],
    step: usize,
    fails: bool,
}

impl Read for Slow<'_> {
    fn read(&mut self, buf: &mut [u8]) -> io::Result<usize> {
        let count = self.bytes.len().min(buf.len()).min(self.step);
        if count == 0 && self.fails {
            return Err(io::Error::from(ErrorKind::Interrupted));
        }
        buf[..count].copy_from_slice(&self.bytes[..count]);
        self.bytes = &self.bytes[count..];
        Ok(count)
    }
}

// Takes one byte a write into a fixed place, and fails once so many are taken.
#[derive(Drop)]
struct OneByte {
    bytes: [u8; 32],
    len: usize,
    room: usize,
}

impl OneByte {
    fn new(room: usize) -> OneByte {
        OneByte {
            bytes: [0; 32],
            len: 0,
            room,
        }
    }

    fn written(&self) -> &[u8] {
        self.bytes.get(..self.len).unwrap_or(&[])
    }
}

impl Write for OneByte {
    fn write(&mut self, buf: &[u8]) -> io::Result<usize> {
        match (buf.first(), self.bytes.get_mut(self.len)) {
            (Some(byte), Some(place)) if self.len < self.room => {
                *place = *byte;
                self.len += 1;
                Ok(1)
            }
            _ => Err(io::Error::from(ErrorKind::Interrupted)),
        }
    }

    fn flush(&mut self) -> io::Result<()> {
        Ok(())
    }
}

// A run of the bytes has this status and prints this.
fn expect_reply(rt: &impl Abort, alloc: Global, input: &[u8], status: u8, want: &str) {
    let mut reader = input;
    let mut written = Vec::new(alloc);
    assert_eq!(rt; run(alloc, &mut reader, &mut written), status, "{want}");
    assert_eq!(rt; written.as_slice(), want.as_bytes(), "{want}");
}

// A run of the text has this status and prints this.
fn expect_answer(rt: &impl Abort, alloc: Global, text: &str, status: u8, want: &str) {
    expect_reply(rt, alloc, text.as_bytes(), status, want);
}

// The status with which a text is printed.
fn status_of(printed: &str) -> u8 {
    if printed.starts_with("skipped") {
        return 0;
    }
    if printed.starts_with("line ") {
        return 2;
    }
    1
}

// The text in which ` / ` stands for a line feed, with one at its end.
fn push_lines(text: &mut String, lines: &str) -> Result<(), AllocError> {
    for line in lines.split(" / ") {
        text.push_str(line)?;
        text.push_str("\n")?;
    }
    Ok(())
}

// The cases are the ends of inputs that begin with this front. Each goes up to `=>`, behind which
// stands what a run of it prints; ` / ` stands for a line feed.
fn expect_each(rt: &impl Abort, alloc: Global, front: &str, cases: &str) {
    let mut text = String::from_str(alloc, front).expect(rt, "text");
    for line in cases.lines() {
        let Some((end, printed)) = line.trim().split_once(" => ") else {
            if !line.trim().is_empty() {
                push_lines(&mut text, line.trim()).expect(rt, "push lines");
            }
            continue;
        };
        push_lines(&mut text, end).expect(rt, "push lines");
        let mut want = String::new(alloc);
        push_lines(&mut want, printed).expect(rt, "push lines");
        let mut reader = text.as_bytes();
        let mut written = Vec::new(alloc);
        assert_eq!(rt;
            run(alloc, &mut reader, &mut written),
            status_of(printed),
            "{text}"
        );
        assert_eq!(rt; written.as_slice(), want.as_bytes(), "{text}");
        text = String::from_str(alloc, front).expect(rt, "from str");
    }
    assert_eq!(rt; text.as_str(), front, "a case without its answer");
}

#[test]
fn the_first_run(rt: HostRuntime) {
    expect_answer(&rt, rt.alloc(), FIRST_RUN, 0, FIRST_ANSWER);
}

#[test]
fn joined_parts_of_two_columns(rt: HostRuntime) {
    let text = "column s utf8\ncolumn n u8?\npart\nrow \"an \\\"a\\\"\" 3\npart\nrow \"b\" null\n\
            join 0\npart\nstat s min exact \"c\"\nrow \"c\" 7\n\
            where or eq col s lit utf8 \"b\" lt col n lit u8 4\n";
    expect_answer(&rt, rt.alloc(), text, 0, "skipped\nrows 0:0 0:1\n");
}

#[test]
fn a_predicate_of_another_type(rt: HostRuntime) {
    let text = "column a i64\npart\nrow 1\nwhere col a\n";
    expect_answer(&rt, rt.alloc(), text, 1, "predicate\n");
}

#[test]
fn a_bad_line(rt: HostRuntime) {
    let text = "column a i64\npart\nrow 1\nrow 1 2\nx\n";
    expect_answer(&rt, rt.alloc(), text, 2, "line 4: bad\n");
}

#[test]
fn no_predicate(rt: HostRuntime) {
    expect_answer(&rt, rt.alloc(), "column a i64\n", 2, "line 2: bad\n");
}

// A run of what the reader gives has this status and prints this.
fn expect_slow(rt: &impl Abort, alloc: Global, reader: Slow<'_>, status: u8, want: &str) {
    let mut reader = reader;
    let mut written = Vec::new(alloc);
    assert_eq!(rt; run(alloc, &mut reader, &mut written), status);
    assert_eq!(rt; written.as_slice(), want.as_bytes());
}

#[test]
fn a_slow_reader(rt: HostRuntime) {
    let reader = Slow {
        bytes: FIRST_RUN.as_bytes(),
        step: 1,
        fails: false,
    };
    expect_slow(&rt, rt.alloc(), reader, 0, FIRST_ANSWER);
}

#[test]
fn a_failing_reader(rt: HostRuntime) {
    let reader = Slow {
        bytes: FIRST_RUN.as_bytes(),
        step: 7,
        fails: true,
    };
    expect_slow(&rt, rt.alloc(), reader, 1, "read\n");
}

#[test]
fn a_bad_line_before_a_read_that_fails(rt: HostRuntime) {
    let reader = Slow {
        bytes: b"column a\npart\n",
        step: 5,
        fails: true,
    };
    expect_slow(&rt, rt.alloc(), reader, 1, "read\n");
}

#[test]
fn a_slow_writer(rt: HostRuntime) {
    let mut writer = OneByte::new(19);
    assert_eq!(rt; run(rt.alloc(), &mut FIRST_RUN.as_bytes(), &mut writer), 0);
    assert_eq!(rt; writer.written(), FIRST_ANSWER.as_bytes());
}

// A growth may be refused, and the answer is then that it was.
#[test]
fn a_run_that_is_refused(rt: HostRuntime) {
    let mut writer = OneByte::new(32);
    let status = run(rt.alloc(), &mut FIRST_RUN.as_bytes(), &mut writer);
    assert!(rt; status <= 1);
    let wanted = if status == 0 {
        FIRST_ANSWER
    } else {
        "memory\n"
    };
    assert_eq!(rt; writer.written(), wanted.as_bytes());
}

#[test]
fn a_reader_that_fails_after_20_bytes(rt: HostRuntime) {
    let bytes = FIRST_RUN.as_bytes().get(..20);
    let reader = Slow {
        bytes: bytes.expect(&rt, "a longer text"),
        step: 65_536,
        fails: true,
    };
    expect_slow(&rt, rt.alloc(), reader, 1, "read\n");
}

// Gives a text and then so many spaces.
#[derive(Drop)]
struct Padded<'a> {
    text: &'a [u8],
    spaces: usize,
}

impl Read for Padded<'_> {
    fn read(&mut self, buf: &mut [u8]) -> io::Result<usize> {
        if !self.text.is_empty() {
            return self.text.read(buf);
        }
        let count = self.spaces.min(buf.len());
        for place in &mut buf[..count] {
            *place = b' ';
        }
        self.spaces -= count;
        Ok(count)
    }
}

// A run of a text behind which spaces stand, so many bytes in all.
fn expect_padded(rt: &impl Abort, alloc: Global, text: &str, len: usize, status: u8, want: &str) {
    let text = text.as_bytes();
    let mut reader = Padded {
        text,
        spaces: len.saturating_sub(text.len()),
    };
    let mut written = Vec::new(alloc);
    assert_eq!(rt; run(alloc, &mut reader, &mut written), status);
    assert_eq!(rt; written.as_slice(), want.as_bytes());
}

#[test]
fn an_input_of_the_limit_and_one_byte_more(rt: HostRuntime) {
    let alloc = rt.alloc();
    expect_padded(&rt, alloc, FIRST_RUN, 16_777_215, 0, FIRST_ANSWER);
    expect_padded(&rt, alloc, FIRST_RUN, 16_777_216, 0, FIRST_ANSWER);
    expect_padded(&rt, alloc, FIRST_RUN, 16_777_217, 1, "input\n");
}

// Behind a bad line the input is read to its end all the same.
#[test]
fn a_bad_line_before_the_limit(rt: HostRuntime) {
    let alloc = rt.alloc();
    expect_padded(&rt, alloc, "column a\n", 16_777_216, 2, "line 1: bad\n");
    expect_padded(&rt, alloc, "column a\n", 16_777_217, 1, "input\n");
}

// A reader without an end, which fails once its bytes are past the limit.
#[derive(Drop)]
struct Endless {
    reads: usize,
}

impl Read for Endless {
    fn read(&mut self, buf: &mut [u8]) -> io::Result<usize> {
        if self.reads > 257 {
            return Err(io::Error::from(ErrorKind::Interrupted));
        }
        self.reads += 1;
        Ok(buf.len())
    }
}

// No read comes after the one that goes past the limit.
#[test]
fn an_endless_reader(rt: HostRuntime) {
    let mut written = Vec::new(rt.alloc());
    assert_eq!(rt; run(rt.alloc(), &mut Endless { reads: 0 }, &mut written), 1);
    assert_eq!(rt; written.as_slice(), b"input\n".as_slice());
}

// A run into a writer that fails once so many bytes are taken, which are these.
fn expect_cut(rt: &impl Abort, alloc: Global, room: usize, taken: &[u8]) {
    let mut writer = OneByte::new(room);
    assert_eq!(rt; run(alloc, &mut FIRST_RUN.as_bytes(), &mut writer), 1);
    assert_eq!(rt; writer.written(), taken);
}

#[test]
fn a_failing_writer(rt: HostRuntime) {
    expect_cut(&rt, rt.alloc(), 0, b"".as_slice());
    expect_cut(&rt, rt.alloc(), 1, b"s".as_slice());
    expect_cut(&rt, rt.alloc(), 7, b"skipped".as_slice());
}
