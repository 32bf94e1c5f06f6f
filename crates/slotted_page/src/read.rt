//! A page read from a frame: its sum, then its fields.

ghost use Rattle.std.specs.Prelude.{◌≡◌, IfErr, IfOk, OnOk};
ghost use Rattle.slotted_page.specs.Fault.{HasFault};
ghost use Rattle.slotted_page.specs.Format.{IsSound};

use crate::check::first_wrong;
use crate::page::Page;
use crate::sum::right_sum;
use dby_bytes::get_u64;
use dby_types::number::PageId;

/// What is wrong with a page.
#[derive(Clone, Copy, Debug, PartialEq, Eq)]
pub enum PageFault {
    /// The sum that the page has isn't the sum of its bytes.
    Sum { stored: u64, computed: u64 },
    /// The sum is right, and the field at this byte is the first that breaks the format.
    Field { offset: u32 },
}

/// Reads a frame as the page of this number. The sum is judged before the fields, and these in the order of their places.
pub fn read_page(b: &[u8; 4096], id: PageId) -> Result<Page<'_>, PageFault>
    ensures ok { OnOk result (IsSound id b.now) }
    ensures exact { IfOk result (λ p. p.bytes.now ≡ b.now) }
    ensures cause { IfErr result (HasFault id b.now) }
{
    let stored = get_u64(b, 0);
    let computed = right_sum(b);
    if stored != computed {
        return Err(PageFault::Sum { stored, computed });
    }
    match first_wrong(b, id) {
        Some(offset) => Err(PageFault::Field { offset }),
        None => Ok(Page { bytes: b }),
    }
}
