//! A page made, sealed and read again and again.

use dby_bytes::get_u64;
use dby_types::number::PageId;
use slotted_page::flags::Flags;
use slotted_page::kind::Kind;
use slotted_page::page_mut::PageMut;
use slotted_page::read::read_page;

const ID: PageId = PageId {
    container: 16,
    page: 1,
};

/// Puts seventy records of fifty bytes in a page, each before the others.
fn fill(page: &mut PageMut<'_>) {
    for number in 0..70 {
        if page.fits(50) {
            page.insert(0, Flags(0), &[number; 50]);
        }
    }
}

/// Makes and fills a page, so often. The answer is the sum of the numbers of records.
pub fn fill_again(times: u32) -> u64 {
    let mut frame = [0; 4096];
    let mut found = 0_u64;
    for _ in 0..times {
        let mut page = PageMut::make(&mut frame, ID, Kind::Heap);
        fill(&mut page);
        found = found.wrapping_add(u64::from(page.len()));
    }
    found
}

/// Seals the page with another right neighbour, so often. The answer is the sum of the sums.
fn seal_each(page: &mut PageMut<'_>, times: u32) -> u64 {
    let mut found = 0_u64;
    for neighbour in 0..times {
        page.set_right(neighbour);
        page.seal();
        found = found.wrapping_add(get_u64(page.bytes, 0));
    }
    found
}

/// Seals the page as above, and reads it each time. The answer is the sum of the sums of those that were read.
fn read_each(page: &mut PageMut<'_>, times: u32) -> u64 {
    let mut found = 0_u64;
    for neighbour in 0..times {
        page.set_right(neighbour);
        page.seal();
        if let Ok(read) = read_page(page.bytes, ID) {
            let bytes = read.bytes;
            found = found.wrapping_add(get_u64(bytes, 0));
        }
    }
    found
}

/// Seals a full page so often.
pub fn seal_again(times: u32) -> u64 {
    let mut frame = [0; 4096];
    let mut page = PageMut::make(&mut frame, ID, Kind::Heap);
    fill(&mut page);
    seal_each(&mut page, times)
}

/// Seals and reads a full page so often.
pub fn read_again(times: u32) -> u64 {
    let mut frame = [0; 4096];
    let mut page = PageMut::make(&mut frame, ID, Kind::Heap);
    fill(&mut page);
    read_each(&mut page, times)
}
