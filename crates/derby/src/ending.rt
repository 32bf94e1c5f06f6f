//! How a run ends.

use run_sources::files::{FileError, ReadError};

/// Why a run doesn't begin.
#[derive(Clone, Copy, Debug, PartialEq, Eq)]
pub enum InputError {
    /// The plan isn't read.
    Plan(ReadError),
    /// The plan's first malformed line, counted from 1.
    Malformed(u64),
    /// The first script that isn't read, counted from 0.
    Script(FileError),
    /// So many scripts, more than connections.
    Crowded(usize),
    /// There was no memory for the plan's lines, or for the connections.
    Starved,
}

/// How a run ends, faults of printing apart.
#[derive(Clone, Copy, Debug, PartialEq, Eq)]
pub enum Ending {
    /// The words are not of the one form.
    Usage,
    /// It didn't begin.
    Unready(InputError),
    /// There was no memory to begin a statement.
    Cut,
    /// The plan was walked to its end.
    Ran,
}
