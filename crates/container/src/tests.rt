//! The last page of a container.

use crate::allocation::Allocation;
use dby_types::number::PageId;
use slotted_page::flags::Flags;
use slotted_page::kind::Kind;
use slotted_page::page_mut::PageMut;

const ID: PageId = PageId {
    container: 16,
    page: 0,
};

#[test]
fn last_page(rt: HostRuntime) {
    let mut frame = [0; 4096];
    let mut page = PageMut::make(&mut frame, ID, Kind::Allocation);
    page.insert(0, Flags(0), &[0, 0xff, 0xff, 0xff]);
    assert!(rt; Allocation::grow(&mut page) == Some(16_777_215));
    assert!(rt; Allocation::grow(&mut page).is_none());
}
