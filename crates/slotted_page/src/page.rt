//! A page that is read.

ghost use Rattle.std.specs.Prelude.{◌≡◌, ◌↔◌, ◌<◌, IsTrue, length};
ghost use Rattle.slotted_page.specs.Content.{HasRoom, record_at};
ghost use Rattle.slotted_page.specs.Layout.{IsPage, content_of};

use crate::flags::Flags;
use crate::place;

/// A page over a frame that is lent to be read.
#[derive(Drop)]
pub struct Page<'a> {
    pub bytes: &'a [u8; 4096],
    ghost formed: { IsPage bytes.now },
}

impl Page<'_> {
    /// The number of records.
    pub fn len(&self) -> u16
        ensures exact { result ≡ length (content_of self.now.bytes.now).records }
    {
        place::record_count(self.bytes) as u16
    }

    /// The bytes of a record.
    pub fn item(&self, i: u16) -> &[u8]
        requires { i < length (content_of self.now.bytes.now).records }
        ensures exact { result.now ≡ (record_at (content_of self.now.bytes.now) i).bytes }
    {
        place::item_of(self.bytes, i as usize)
    }

    /// The flags of a record.
    pub fn flags(&self, i: u16) -> Flags
        requires { i < length (content_of self.now.bytes.now).records }
        ensures exact { result.0 ≡ (record_at (content_of self.now.bytes.now) i).flags }
    {
        place::flags_of(self.bytes, i as usize)
    }

    /// Whether a record of n bytes, without its flags, has room.
    pub fn fits(&self, n: u16) -> bool
        ensures exact { IsTrue result ↔ HasRoom (content_of self.now.bytes.now) n }
    {
        place::has_room(self.bytes, n)
    }
}
