//! Why a part of a text isn't read.

/// No statement goes on with the next token, or none within the limit of depth; or memory is wanting.
#[derive(Clone, Copy, Debug, PartialEq, Eq)]
pub enum Failing {
    Wrong,
    Deep,
    Memory,
}
