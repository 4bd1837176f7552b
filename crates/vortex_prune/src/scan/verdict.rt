//! Verdicts of a scan on a part.

/// A scan's verdict on a part.
#[derive(Clone, Copy, Debug, PartialEq, Eq)]
pub enum Verdict {
    /// The falsifier is true of it: it is left out unread.
    Skipped,
    /// The satisfier is true of it: all its rows are selected, and none is tested.
    Whole,
    /// Neither is true of it: its rows are tested.
    Tested,
}
