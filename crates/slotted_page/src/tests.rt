//! Worked pages.

use crate::flags::Flags;
use crate::kind::Kind;
use crate::page_mut::PageMut;
use crate::read::{PageFault, read_page};
use crate::sum::right_sum;
use dby_bytes::put_u64;
use dby_types::number::{Lsn, PageId};

/// The page of the worked example.
const WORKED: PageId = PageId {
    container: 16,
    page: 1,
};

#[test]
fn one_record(rt: HostRuntime) {
    let mut frame = [0; 4096];
    let id = PageId {
        container: 5,
        page: 3,
    };
    let mut page = PageMut::make(&mut frame, id, Kind::Heap);
    assert!(rt; page.fits(4059));
    assert!(rt; !page.fits(4060));
    page.insert(0, Flags(0), &[7]);
    page.seal();
    assert!(rt; frame[32] == 0x0F && frame[33] == 0xFE && frame[34] == 0 && frame[35] == 2);
    assert!(rt; frame[4094] == 0 && frame[4095] == 7);
    assert!(rt; read_page(&frame, id).is_ok());
}

/// Makes the frame the page of the worked example, with its sum.
fn make_worked(frame: &mut [u8; 4096]) {
    let mut page = PageMut::make(frame, WORKED, Kind::Heap);
    page.set_lsn(Lsn {
        segment: 1,
        offset: 200,
    });
    page.insert(0, Flags(0), &[1, 0, 0, 0, 7, 1, 0, 2, 0x61, 0x62, 0, 0]);
    page.insert(1, Flags(1), &[1, 0, 0, 0, 8, 1, 0, 1, 0x78, 0, 0, 0]);
    page.seal();
}

/// The sum of the worked page is the one that Python's hashlib computes.
#[test]
fn worked_sum(rt: HostRuntime) {
    let mut frame = [0; 4096];
    make_worked(&mut frame);
    assert!(rt; frame[..8] == [0xd5, 0x83, 0x7c, 0x2e, 0x17, 0x35, 0x80, 0x5e]);
    assert!(rt; frame[32..40] == [0x0f, 0xf3, 0, 0x0d, 0x0f, 0xe6, 0, 0x0d]);
}

/// The field of the worked page that the format names first where the highest bit of a byte is turned and the sum is right.
fn broken_field(at: usize) -> Option<u32> {
    match at {
        8..=11 => Some(8),
        12..=15 => Some(12),
        19 => Some(40),
        33..=35 => Some(34),
        37..=39 => Some(38),
        16..=18 | 32 | 36 | 40..=4070 | 4083 => Some(at as u32),
        _ => None,
    }
}

/// Writes the sum of the bytes, whatever they say.
fn make_sum_right(frame: &mut [u8; 4096]) {
    let sum = right_sum(frame);
    put_u64(frame, 0, sum);
}

/// Whether the page is refused for its sum.
fn is_sum_wrong(frame: &[u8; 4096]) -> bool {
    match read_page(frame, WORKED) {
        Err(PageFault::Sum { stored, computed }) => stored != computed,
        _ => false,
    }
}

/// The field that the page is refused for.
fn wrong_field(frame: &[u8; 4096]) -> Option<u32> {
    match read_page(frame, WORKED) {
        Err(PageFault::Field { offset }) => Some(offset),
        _ => None,
    }
}

#[test]
fn each_byte_broken(rt: HostRuntime) {
    let mut frame = [0; 4096];
    make_worked(&mut frame);
    for at in 0..4096 {
        frame[at] ^= 0x80;
        assert!(rt; is_sum_wrong(&frame));
        make_sum_right(&mut frame);
        assert!(rt; wrong_field(&frame) == broken_field(at));
        frame[at] ^= 0x80;
        make_sum_right(&mut frame);
    }
}
