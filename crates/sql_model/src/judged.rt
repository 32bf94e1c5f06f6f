//! What WHERE says of a tuple.

use dby_types::state::SqlState;

/// A tuple is kept, or it isn't, or its evaluation refuses with an SQLSTATE.
#[derive(Clone, Copy, Debug, PartialEq, Eq)]
pub enum Judged {
    Meets,
    Fails,
    Refuses(SqlState),
}
