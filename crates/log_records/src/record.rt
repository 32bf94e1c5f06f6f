//! A log record.

use dby_types::number::Lsn;

/// A change of a page, or of the containers, that can be taken back.
#[derive(Clone, Copy, Debug, PartialEq, Eq)]
pub enum Base<'a> {
    /// A row's slot: its flags and its bytes. Both texts have one length.
    Heap {
        container: u32,
        page: u32,
        slot: u16,
        flags_before: u8,
        flags_after: u8,
        before: &'a [u8],
        after: &'a [u8],
    },
    /// An entry of a leaf; `what` is 1 for put, 2 for mark, 3 for unmark, 4 for use again. Both texts have one length.
    Entry {
        container: u32,
        page: u32,
        place: u16,
        what: u8,
        before: &'a [u8],
        after: &'a [u8],
    },
    /// A container was made.
    Create {
        container: u32,
        is_tree: bool,
    },
    /// A container is given up.
    Discard {
        container: u32,
    },
}

/// What a record says.
#[derive(Clone, Copy, Debug, PartialEq, Eq)]
pub enum Body<'a> {
    /// A change of a transaction.
    Change(Base<'a>),
    /// A change taken back, and the record to take back next.
    Compensation {
        next: Lsn,
        base: Base<'a>,
    },
    /// The pages after a split: for each its number and its 4,096 bytes, with 0 for sum and LSN.
    Split {
        container: u32,
        count: u8,
        pages: &'a [u8],
    },
    /// A new page of a container.
    Grow {
        container: u32,
        page: u32,
        kind: u8,
    },
    /// The transaction's changes stand.
    Commit,
    /// Nothing of the transaction stands.
    RolledBack,
    /// Where redo starts, the numbers given next, and for each open transaction its number and last record.
    Checkpoint {
        redo: Lsn,
        next_container: u32,
        next_txn: u64,
        count: u16,
        txns: &'a [u8],
    },
    /// The log goes on in the segment of this number.
    NextSegment {
        segment: u32,
    },
    /// A marked row or entry was taken away.
    Purge {
        container: u32,
        page: u32,
        place: u16,
    },
}

/// A log record: its transaction, 0 for none; the place of the transaction's record before, 0.0 for none; what it says.
#[derive(Clone, Copy, Debug, PartialEq, Eq)]
pub struct Record<'a> {
    pub txn: u64,
    pub back: Lsn,
    pub body: Body<'a>,
}
