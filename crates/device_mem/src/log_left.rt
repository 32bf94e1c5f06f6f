//! How much a crash leaves of the log.

/// Of the calls on the log that weren't synced: none, all, or all with the last write cut after so many bytes.
#[derive(Clone, Copy, Debug, PartialEq, Eq)]
pub enum LogLeft {
    Lost,
    Kept,
    Cut(usize),
}
