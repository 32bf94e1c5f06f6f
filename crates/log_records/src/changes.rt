//! Changes, read from the bodies of their records.

ghost use Rattle.std.specs.Prelude.{◌≡◌, Bool, ◌<◌, length};
ghost use Rattle.log_records.specs.Reading.{ReadsBase};

use crate::field::get_byte;
use crate::record::Base;
use crate::texts::{is_create, is_discard, is_entry, is_heap};
use dby_bytes::{get_u16, get_u32};

/// The change that the bytes are, of the kind of this number.
pub fn read_base(kind: u8, b: &[u8]) -> Option<Base<'_>>
    ensures { ReadsBase kind b.now result }
{
    match kind {
        1 => read_heap(b),
        2 => read_entry(b),
        10 => read_create(b),
        11 => read_discard(b),
        _ => None,
    }
}

fn read_heap(b: &[u8]) -> Option<Base<'_>>
    ensures { ReadsBase 1 b.now result }
{
    if !is_heap(b) {
        return None;
    }
    let n = get_u16(b, 12) as usize;
    Some(Base::Heap {
        container: get_u32(b, 0),
        page: get_u32(b, 4),
        slot: get_u16(b, 8),
        flags_before: get_byte(b, 10),
        flags_after: get_byte(b, 11),
        before: &b[14..14 + n],
        after: &b[14 + n..],
    })
}

fn read_entry(b: &[u8]) -> Option<Base<'_>>
    ensures { ReadsBase 2 b.now result }
{
    if !is_entry(b) {
        return None;
    }
    let n = get_u16(b, 11) as usize;
    Some(Base::Entry {
        container: get_u32(b, 0),
        page: get_u32(b, 4),
        place: get_u16(b, 8),
        what: get_byte(b, 10),
        before: &b[13..13 + n],
        after: &b[13 + n..],
    })
}

fn read_create(b: &[u8]) -> Option<Base<'_>>
    ensures { ReadsBase 10 b.now result }
{
    if !is_create(b) {
        return None;
    }
    Some(Base::Create {
        container: get_u32(b, 0),
        is_tree: get_byte(b, 4) == 1,
    })
}

fn read_discard(b: &[u8]) -> Option<Base<'_>>
    ensures { ReadsBase 11 b.now result }
{
    if !is_discard(b) {
        return None;
    }
    Some(Base::Discard {
        container: get_u32(b, 0),
    })
}
