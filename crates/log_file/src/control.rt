//! The control page.

ghost use Rattle.std.specs.Prelude.{◌≤◌, ◌+◌, ◌≡◌, Some, OnOk};
ghost use Rattle.device.specs.Counts.{HasCause};
ghost use Rattle.device.specs.Disk.{IsImage, LeavesOnly, NewPage, NoNewLog, OnlyPages, SameLog};
ghost use Rattle.log_file.specs.Control.{blank, control_numbers, control_page};
ghost use Rattle.log_file.specs.Crash.{OrControl};

use dby_bytes::{put_u32, put_u64};
use dby_types::number::Lsn;
use device::{Disk, Failed};
use log_records::sum::record_sum;

fn clear(page: &mut [u8; 4096])
    ensures { page.new ≡ blank }
{
    page.fill(0);
}

/// Format, next segment, and the checkpoint's place.
fn put_numbers(page: &mut [u8; 4096], next: u32, point: Lsn)
    ensures { page.new ≡ control_numbers next point }
{
    clear(page);
    put_u32(page, 32, 1);
    put_u32(page, 36, next);
    put_u32(page, 40, point.segment);
    put_u32(page, 44, point.offset);
}

/// Makes the bytes a control page.
fn put_control(page: &mut [u8; 4096], next: u32, point: Lsn)
    ensures { page.new ≡ control_page next point }
{
    put_numbers(page, next, point);
    let sum = record_sum(&page[8..]);
    put_u64(page, 0, sum);
}

/// Writes and syncs the control page with this next segment and this place of the checkpoint.
pub fn raise<D: Disk>(disk: &mut D, next: u32, point: Lsn) -> Result<(), Failed>
    ensures raised { D.tells → OnOk result ((D.page disk.new 0 0 ≡ Some (control_page next point)) × OnlyPages (D.page disk.new) (D.may_hold disk.new)) }
    ensures log { D.tells → OnOk result (SameLog (D.log disk.old) (D.log disk.new)) }
    ensures crash { D.tells → NewPage 0 0 (Some (control_page next point)) (D.may_hold disk.old) (D.may_hold disk.new) × NoNewLog (D.may_log disk.old) (D.may_log disk.new) }
    ensures moments { D.tells → LeavesOnly D.moment D.left_since disk.old disk.new (IsImage (OrControl next point (D.may_hold disk.old)) (D.may_log disk.old)) }
    ensures clock { D.tells → D.moment disk.new ≤ D.moment disk.old + 2 }
    ensures cause { HasCause (D.fault_count disk.old) (D.fault_count disk.new) result }
{
    let mut page = [0; 4096];
    put_control(&mut page, next, point);
    match disk.page_write(0, 0, &page) {
        Ok(()) => {}
        Err(_) => {
            return Err(Failed);
        }
    }
    match disk.page_sync() {
        Ok(()) => Ok(()),
        Err(_) => Err(Failed),
    }
}
