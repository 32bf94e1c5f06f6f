//! The allocation page.

ghost use Rattle.std.specs.Prelude.{◌≡◌, ◌↔◌, ◌≤◌, ◌^◌, IfSome, IsNone, IfNone};
ghost use Rattle.container.specs.Allocation.{HasGrown, IsAllocation, count_of};
ghost use Rattle.slotted_page.specs.Layout.{content_of};

use dby_bytes::{get_u32, put_u32};
use slotted_page::page::Page;
use slotted_page::page_mut::PageMut;

/// The most pages that a container has.
pub const MOST_PAGES: u32 = 16_777_216;

/// What an allocation page says.
pub struct Allocation;

impl Allocation {
    /// The number of pages of the container.
    pub fn count(p: &Page<'_>) -> u32
        requires { IsAllocation (content_of p.now.bytes.now) }
        ensures exact { result ≡ count_of (content_of p.now.bytes.now) }
    {
        get_u32(p.item(0), 0)
    }

    /// The number of a fresh page, the next one; none exactly where the container has 2^24 pages.
    pub fn grow(p: &mut PageMut<'_>) -> Option<u32>
        requires { IsAllocation (content_of p.old.bytes.now) }
        ensures none { IsNone result ↔ (2 ^ 24 ≤ count_of (content_of p.old.bytes.now)) }
        ensures ok { IfSome result (HasGrown (content_of p.old.bytes.now) (content_of p.new.bytes.now)) }
        ensures keeps { IfNone result (p.new.bytes.now ≡ p.old.bytes.now) }
        ensures same { p.new.bytes.ghost_name ≡ p.old.bytes.ghost_name }
    {
        let count = get_u32(p.item(0), 0);
        if count >= MOST_PAGES {
            return None;
        }
        let mut number = [0; 4];
        put_u32(&mut number, 0, count + 1);
        p.set(0, &number);
        Some(count)
    }
}
