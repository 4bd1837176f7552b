//! Where the footer of a file stands.
ghost use Rattle.vortex_parquet.specs.Footer.{footer_of, last_of, length_of};
ghost use Rattle.vortex_parquet.specs.Reading.{Gives};

use crate::fault::{Fault, ReadError};

/// How many bytes stand behind the footer of a file: its length and a mark.
pub const TAIL: usize = 8;

/// Returns the length of a footer by the last eight bytes of its file: so the footer and these are
/// the last `length + 8` bytes.
///
/// `Encrypted` if the footer is encrypted, `NotParquet` if there are other bytes than those of a
/// Parquet file or not eight.
#[tactic(auto, unfolding(crate::specs::Footer::length_of))]
pub fn length_of(tail: &[u8]) -> Result<u32, ReadError>
    ensures { Gives (λ n. n) result (length_of tail.now) }
{
    if tail.len() != TAIL {
        return Err(ReadError::Fault(Fault::NotParquet));
    }
    let (length, mark) = tail.split_at(4);
    if mark == b"PARE".as_slice() {
        return Err(ReadError::Fault(Fault::Encrypted));
    }
    if mark != b"PAR1".as_slice() {
        return Err(ReadError::Fault(Fault::NotParquet));
    }
    Ok(u32::from_le_bytes([length[0], length[1], length[2], length[3]]))
}

// The last so many bytes.
#[tactic(auto, unfolding(crate::specs::Footer::last_of))]
fn last_of(count: usize, bytes: &[u8]) -> Result<&[u8], ReadError>
    ensures { Gives (λ last. last.now) result (last_of count bytes.now) }
{
    if bytes.len() < count {
        return Err(ReadError::Fault(Fault::FooterLength));
    }
    Ok(&bytes[bytes.len() - count..])
}

/// Returns the footer of a file from the file's bytes, or from the last ones.
#[tactic(auto, unfolding(crate::specs::Footer::footer_of))]
pub fn footer_of(file: &[u8]) -> Result<&[u8], ReadError>
    ensures { Gives (λ footer. footer.now) result (footer_of file.now) }
{
    if file.len() < TAIL {
        return Err(ReadError::Fault(Fault::NotParquet));
    }
    let (before, tail) = file.split_at(file.len() - TAIL);
    let length = length_of(tail)?;
    last_of(length as usize, before)
}
