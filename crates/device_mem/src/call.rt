//! The calls of a disk that change it.

use crate::page_bytes::PageBytes;

/// A call that changes what a disk holds, or what a crash may leave of it.
#[derive(Debug, Drop)]
pub enum Call {
    WritePage {
        container: u32,
        page: u32,
        bytes: PageBytes,
    },
    SyncPages,
    DropContainer(u32),
    WriteLog {
        segment: u32,
        at: u32,
        bytes: Vec<u8>,
    },
    SyncLog,
    DropLog(u32),
}
