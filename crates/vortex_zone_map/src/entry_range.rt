//! Where in a log the statistics of each zone stand.

/// How many rows a zone has, and from where to where the log tells of it.
#[derive(Clone, Copy, Debug)]
pub struct EntryRange {
    pub rows: u64,
    pub from: usize,
    pub to: usize,
}
