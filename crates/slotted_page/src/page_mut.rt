//! A page that is written.

ghost use Rattle.std.specs.Prelude.{◌≡◌, ◌↔◌, ◌≤◌, ◌<◌, IsTrue, length};
ghost use Rattle.slotted_page.specs.Content.{HasRoom, empty_page, known, record_at, with_changed, with_record, without_record};
ghost use Rattle.slotted_page.specs.Layout.{IsPage, content_of};
ghost use Rattle.slotted_page.specs.Sum.{right_sum, stored_sum};

use crate::flags::Flags;
use crate::kind::Kind;
use crate::{edit, field, place};
use dby_types::number::{Lsn, PageId};

/// A page over a frame that is lent to be written. Its bytes are those of a page at every call's end.
#[derive(Drop)]
pub struct PageMut<'a> {
    pub bytes: &'a mut [u8; 4096],
    ghost formed: { IsPage bytes.now },
}

impl<'a> PageMut<'a> {
    /// Makes the frame an empty page.
    pub fn make(b: &'a mut [u8; 4096], id: PageId, kind: Kind) -> PageMut<'a>
        ensures same { result.bytes.ghost_name ≡ b.entry.ghost_name }
        ensures exact { content_of result.bytes.now ≡ empty_page id kind }
    {
        field::make(b, id.container, id.page, kind);
        PageMut { bytes: b }
    }

    /// Takes a frame that is a page.
    pub fn over(b: &'a mut [u8; 4096]) -> PageMut<'a>
        requires { IsPage b.old }
        ensures same { result.bytes.ghost_name ≡ b.entry.ghost_name }
        ensures exact { result.bytes.now ≡ b.old }
    {
        PageMut { bytes: b }
    }

    /// The number of records.
    pub fn len(&self) -> u16
        ensures exact { result ≡ length (content_of self.now.bytes.now).records }
    {
        place::record_count(self.bytes) as u16
    }

    /// The bytes of a record.
    pub fn item(&self, i: u16) -> &[u8]
        requires { i < length (content_of self.now.bytes.now).records }
        ensures exact { result.now ≡ (record_at (content_of self.now.bytes.now) i).bytes }
    {
        place::item_of(self.bytes, i as usize)
    }

    /// The flags of a record.
    pub fn flags(&self, i: u16) -> Flags
        requires { i < length (content_of self.now.bytes.now).records }
        ensures exact { result.0 ≡ (record_at (content_of self.now.bytes.now) i).flags }
    {
        place::flags_of(self.bytes, i as usize)
    }

    /// Whether a record of n bytes, without its flags, has room.
    pub fn fits(&self, n: u16) -> bool
        ensures exact { IsTrue result ↔ HasRoom (content_of self.now.bytes.now) n }
    {
        place::has_room(self.bytes, n)
    }

    /// Puts a record at a place, before those that stood from there on.
    pub fn insert(&mut self, at: u16, flags: Flags, bytes: &[u8])
        requires inside { at ≤ length (content_of self.old.bytes.now).records }
        requires room { HasRoom (content_of self.old.bytes.now) (length bytes.now) }
        ensures same { self.new.bytes.ghost_name ≡ self.old.bytes.ghost_name }
        ensures exact { content_of self.new.bytes.now ≡ with_record (content_of self.old.bytes.now) at (record { flags = known flags.0; bytes = bytes.now }) }
    {
        edit::insert_record(self.bytes, at as usize, flags.0, bytes);
    }

    /// Writes the bytes of a record, as many as it has.
    pub fn set(&mut self, i: u16, bytes: &[u8])
        requires inside { i < length (content_of self.old.bytes.now).records }
        requires room { length bytes.now ≡ length (record_at (content_of self.old.bytes.now) i).bytes }
        ensures same { self.new.bytes.ghost_name ≡ self.old.bytes.ghost_name }
        ensures exact { content_of self.new.bytes.now ≡ with_changed (content_of self.old.bytes.now) i (record (record_at (content_of self.old.bytes.now) i) { bytes = bytes.now }) }
    {
        edit::set_record(self.bytes, i as usize, bytes);
    }

    /// Writes the flags of a record.
    pub fn mark(&mut self, i: u16, flags: Flags)
        requires { i < length (content_of self.old.bytes.now).records }
        ensures same { self.new.bytes.ghost_name ≡ self.old.bytes.ghost_name }
        ensures exact { content_of self.new.bytes.now ≡ with_changed (content_of self.old.bytes.now) i (record (record_at (content_of self.old.bytes.now) i) { flags = known flags.0 }) }
    {
        edit::mark_record(self.bytes, i as usize, flags.0);
    }

    /// Takes a record away, and closes up.
    pub fn purge(&mut self, i: u16)
        requires { i < length (content_of self.old.bytes.now).records }
        ensures same { self.new.bytes.ghost_name ≡ self.old.bytes.ghost_name }
        ensures exact { content_of self.new.bytes.now ≡ without_record (content_of self.old.bytes.now) i }
    {
        edit::purge_record(self.bytes, i as usize);
    }

    /// Writes the LSN of the last change.
    pub fn set_lsn(&mut self, l: Lsn)
        ensures same { self.new.bytes.ghost_name ≡ self.old.bytes.ghost_name }
        ensures exact { content_of self.new.bytes.now ≡ record (content_of self.old.bytes.now) { lsn = l } }
    {
        field::set_lsn(self.bytes, l.segment, l.offset);
    }

    /// Writes the page of the right neighbour, 0 for none.
    pub fn set_right(&mut self, p: u32)
        ensures same { self.new.bytes.ghost_name ≡ self.old.bytes.ghost_name }
        ensures exact { content_of self.new.bytes.now ≡ record (content_of self.old.bytes.now) { right = p } }
    {
        field::set_right(self.bytes, p);
    }

    /// Writes the sum.
    pub fn seal(&mut self)
        ensures same { self.new.bytes.ghost_name ≡ self.old.bytes.ghost_name }
        ensures exact { content_of self.new.bytes.now ≡ content_of self.old.bytes.now }
        ensures ok { stored_sum self.new.bytes.now ≡ right_sum self.new.bytes.now }
    {
        field::seal(self.bytes);
    }
}
