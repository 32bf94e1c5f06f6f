//! Why a statement isn't bound.

use dby_types::state::SqlState;

/// Why a statement isn't bound: the refusal that is told, or want of memory.
#[derive(Clone, Copy, Debug, PartialEq, Eq)]
pub enum BindAnswer {
    Sql(SqlState),
    Memory,
}
