//! A disk in memory: each call once, a listed call, and a fuse.

use crate::disk::{Images, MemDisk};
use device::Disk;

const PAGE: [u8; 4096] = [7; 4096];

#[test]
fn pages_are_kept_until_they_are_dropped(rt: HostRuntime) {
    let mut disk = MemDisk::new(rt.alloc());
    let mut page = [0; 4096];
    assert!(rt; disk.page_read(1, 0, &mut page) == Ok(false));
    assert!(rt; disk.page_write(1, 0, &PAGE).is_ok());
    assert!(rt; disk.page_sync().is_ok());
    assert!(rt; disk.page_read(1, 0, &mut page) == Ok(true));
    assert!(rt; page == PAGE);
    assert!(rt; disk.container_drop(1).is_ok());
    assert!(rt; disk.page_read(1, 0, &mut page) == Ok(false));
    assert!(rt; disk.clock() == 3);
}

#[test]
fn log_is_written_over_and_dropped(rt: HostRuntime) {
    let mut disk = MemDisk::new(rt.alloc());
    let mut bytes = [9; 4];
    assert!(rt; disk.log_write(1, 1, &[5, 6]).is_ok());
    assert!(rt; disk.log_write(1, 2, &[7]).is_ok());
    assert!(rt; disk.log_sync().is_ok());
    assert!(rt; disk.log_read(1, 0, &mut bytes) == Ok(3));
    assert!(rt; bytes == [0, 5, 7, 9]);
    assert!(rt; disk.log_read(1, 3, &mut bytes) == Ok(0));
    assert!(rt; disk.log_drop(1).is_ok());
    assert!(rt; disk.log_read(1, 0, &mut bytes) == Ok(0));
    assert!(rt; disk.faults() == 0);
}

#[test]
fn listed_calls_and_calls_behind_the_fuse_fail(rt: HostRuntime) {
    let mut disk = MemDisk::new(rt.alloc());
    assert!(rt; disk.fail_at(&[1]).is_ok());
    assert!(rt; disk.page_sync().is_ok());
    assert!(rt; disk.page_sync().is_err());
    assert!(rt; disk.page_sync().is_ok());
    disk.fuse(1);
    assert!(rt; disk.log_sync().is_ok());
    assert!(rt; disk.log_sync().is_err());
    assert!(rt; disk.log_read(1, 0, &mut [0; 4]).is_err());
    assert!(rt; disk.faults() == 3);
}

/// How many of these disks have a page.
fn having_page(images: &mut Images) -> usize {
    let mut n: usize = 0;
    for image in images.iter_mut() {
        if image.page_read(1, 0, &mut [0; 4096]) == Ok(true) {
            n = n.saturating_add(1);
        }
    }
    n
}

#[test]
fn half_of_the_images_have_a_page_that_was_not_synced(rt: HostRuntime) {
    let mut disk = MemDisk::new(rt.alloc());
    assert!(rt; disk.page_write(1, 0, &PAGE).is_ok());
    let images = disk.images(1);
    assert!(rt; images.is_ok());
    if let Ok(mut images) = images {
        assert!(rt; images.len() == 4);
        assert!(rt; having_page(&mut images) == 2);
    }
}

/// How many of these disks have so many bytes of the log, of these.
fn having_bytes(images: &mut Images, n: usize, text: [u8; 5]) -> usize {
    let mut found: usize = 0;
    for image in images.iter_mut() {
        let mut bytes = [0; 5];
        if image.log_read(1, 0, &mut bytes) == Ok(n) && bytes == text {
            found = found.saturating_add(1);
        }
    }
    found
}

#[test]
fn last_write_of_the_log_is_cut_at_each_byte(rt: HostRuntime) {
    let mut disk = MemDisk::new(rt.alloc());
    assert!(rt; disk.log_write(1, 0, &[1, 2, 3]).is_ok());
    assert!(rt; disk.log_sync().is_ok());
    assert!(rt; disk.log_write(1, 3, &[4, 5]).is_ok());
    let images = disk.images(3);
    assert!(rt; images.is_ok());
    if let Ok(mut images) = images {
        assert!(rt; images.len() == 8);
        assert!(rt; having_bytes(&mut images, 3, [1, 2, 3, 0, 0]) == 4);
        assert!(rt; having_bytes(&mut images, 4, [1, 2, 3, 4, 0]) == 2);
        assert!(rt; having_bytes(&mut images, 5, [1, 2, 3, 4, 5]) == 2);
    }
}
