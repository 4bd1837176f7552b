// Footers of Parquet files, read from the files' ends.
use std::alloc::{AllocError, AllocFailed, Global};
use std::fs::Files;
use std::io::{Read, Seek, SeekFrom};
use std::{fs, io};
use thiserror::Error;
use vortex_parquet::footer::{TAIL, length_of};
use vortex_parquet::{Fault, ReadError};
use vortex_predicates::FooterError;
use vortex_text::streams::{Sink, write_out};

// The statuses of a file without an answer: for want of memory or because a write failed, because
// it is no Parquet file or the text no condition over it, and because it can't be opened or read.
const NO_ANSWER: u8 = 1;

const BAD_INPUT: u8 = 2;

const NOT_READ: u8 = 66;

/// Says why there is no answer for a file.
#[derive(Debug, Drop, Error)]
pub enum FileError {
    #[error("out of memory")]
    Memory,
    #[error("it can't be opened")]
    Unopened,
    #[error("it can't be read")]
    Unread,
    #[error("it has no Parquet footer that can be read: {0:?}")]
    Footer(Fault),
    #[error("its row groups have more than 2^64 rows")]
    Rows,
    #[error("{0}")]
    Condition(FooterError),
}

impl From<AllocError> for FileError {
    fn from(_: AllocError) -> FileError {
        FileError::Memory
    }
}

impl<T: Drop> From<AllocFailed<T>> for FileError {
    fn from(_: AllocFailed<T>) -> FileError {
        FileError::Memory
    }
}

impl From<io::Error> for FileError {
    fn from(_: io::Error) -> FileError {
        FileError::Unread
    }
}

impl From<ReadError> for FileError {
    fn from(e: ReadError) -> FileError {
        match e {
            ReadError::Memory => FileError::Memory,
            ReadError::Fault(fault) => FileError::Footer(fault),
        }
    }
}

impl From<FooterError> for FileError {
    fn from(e: FooterError) -> FileError {
        match e {
            FooterError::Memory => FileError::Memory,
            FooterError::Footer(fault) => FileError::Footer(fault),
            other => FileError::Condition(other),
        }
    }
}

// Reads so many bytes from a place on.
fn read_at<F: Read + Seek>(
    alloc: Global,
    file: &mut F,
    start: u64,
    count: usize,
) -> Result<Vec<u8>, FileError> {
    file.seek(SeekFrom::Start(start))?;
    let mut bytes = Vec::new(alloc);
    bytes.resize(count, 0)?;
    file.read_exact(&mut bytes)?;
    Ok(bytes)
}

// Reads the last bytes of a file, from its footer on.
fn read_end<F: Read + Seek>(alloc: Global, file: &mut F) -> Result<Vec<u8>, FileError> {
    let size = file.seek(SeekFrom::End(0))?;
    let Some(before) = size.checked_sub(TAIL as u64) else {
        return Err(FileError::Footer(Fault::NotParquet));
    };
    let tail = read_at(alloc, file, before, TAIL)?;
    let length = length_of(&tail)?;
    let Some(start) = before.checked_sub(length as u64) else {
        return Err(FileError::Footer(Fault::FooterLength));
    };
    read_at(alloc, file, start, length as usize + TAIL)
}

/// Reads the last bytes of the file at a path, from its footer on, and no other byte but the last
/// eight twice.
pub fn footer_end<F: Files>(rt: &F, alloc: Global, path: &str) -> Result<Vec<u8>, FileError> {
    match fs::open(rt, path) {
        Ok(mut file) => read_end(alloc, &mut file),
        Err(_) => Err(FileError::Unopened),
    }
}

// Returns the status that says why there is no answer.
fn number_of(error: &FileError) -> u8 {
    match error {
        FileError::Memory => NO_ANSWER,
        FileError::Unopened | FileError::Unread => NOT_READ,
        FileError::Footer(_) | FileError::Rows | FileError::Condition(_) => BAD_INPUT,
    }
}

// Returns the line for an answer that wasn't written whole.
fn unwritten_line(alloc: Global, file: &str) -> Result<String, AllocError> {
    Ok(format!(in alloc; "{file}: the answer could not be written\n")?)
}

// Returns the line for a file without an answer.
fn refused_line(alloc: Global, file: &str, error: &FileError) -> Result<String, AllocError> {
    Ok(format!(in alloc; "{file}: {error}\n")?)
}

/// Returns the status of a file's answer, which was written whole or not, and says why there is
/// none.
pub fn status_of<E: Sink>(
    alloc: Global,
    file: &str,
    done: Result<bool, FileError>,
    reasons: &mut E,
) -> u8 {
    let (status, line) = match done {
        Ok(true) => return 0,
        Ok(false) => (NO_ANSWER, unwritten_line(alloc, file)),
        Err(error) => (number_of(&error), refused_line(alloc, file, &error)),
    };
    let _ = match line {
        Ok(line) => write_out(reasons, line.as_bytes()),
        Err(_) => write_out(reasons, b"out of memory\n"),
    };
    status
}
