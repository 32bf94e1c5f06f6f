//! What an evaluation gives.

use dby_types::state::SqlState;
use dby_types::value::Value;

/// A value, or why there is none.
#[derive(Debug, Drop, PartialEq, Eq)]
pub enum Evaluated {
    Value(Value),
    Sql(SqlState),
}
