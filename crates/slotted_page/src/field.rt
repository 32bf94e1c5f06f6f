//! The fields of a page's first 32 bytes, written.

ghost use Rattle.std.specs.Prelude.{◌≡◌};
ghost use Rattle.slotted_page.specs.Content.{empty_page};
ghost use Rattle.slotted_page.specs.Layout.{IsPage, IsPageOf, content_of};
ghost use Rattle.slotted_page.specs.Sum.{right_sum, stored_sum};

use crate::edit::{clear, overwrite};
use crate::kind::Kind;
use crate::sum;
use dby_bytes::{put_u32, put_u64};

/// Makes the bytes those of an empty page.
pub fn make(b: &mut [u8; 4096], container: u32, page: u32, kind: Kind)
    ensures exact { IsPageOf b.new (empty_page (record { container = container; page = page }) kind) }
{
    clear(b, 0, 4096);
    put_u32(b, 8, container);
    put_u32(b, 12, page);
    overwrite(b, 16, &[kind.byte()]);
}

/// Writes the LSN of the last change.
pub fn set_lsn(b: &mut [u8; 4096], segment: u32, offset: u32)
    requires { IsPage b.old }
    ensures exact { IsPageOf b.new (record (content_of b.old) { lsn = record { segment = segment; offset = offset } }) }
{
    put_u32(b, 20, segment);
    put_u32(b, 24, offset);
}

/// Writes the page of the right neighbour.
pub fn set_right(b: &mut [u8; 4096], p: u32)
    requires { IsPage b.old }
    ensures exact { IsPageOf b.new (record (content_of b.old) { right = p }) }
{
    put_u32(b, 28, p);
}

/// Writes the sum.
pub fn seal(b: &mut [u8; 4096])
    requires { IsPage b.old }
    ensures exact { IsPageOf b.new (content_of b.old) }
    ensures ok { stored_sum b.new ≡ right_sum b.new }
{
    let found = sum::right_sum(b);
    put_u64(b, 0, found);
}
