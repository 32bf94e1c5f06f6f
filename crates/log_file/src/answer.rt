//! Why a record isn't appended.

/// The disk's count of failures rose; or a new segment is needed, and its number would be this one, the greatest.
#[derive(Clone, Copy, Debug, PartialEq, Eq)]
pub enum LogAnswer {
    Failed,
    Full { segment: u32 },
}
