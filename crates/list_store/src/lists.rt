//! What the store keeps.

use crate::begun::Begun;
use crate::heap::Heaps;
use crate::holders::Holders;
use arrayvec::ArrayVec;
use std::alloc::Global;
use std::collections::HashMap;
use std::marker::Model;

/// A row store over vectors.
#[derive(Drop)]
pub struct ListStore {
    pub(crate) alloc: Global,
    pub(crate) heaps: Heaps,
    pub(crate) begun: Begun,
    pub(crate) holders: Holders,
    pub(crate) next_txn: u64,
    pub(crate) next_container: u32,
    pub(crate) no_pages: u64,
    pub(crate) no_log: u64,
}

impl Model for ListStore {
    ghost use Rattle.list_store.specs.Lists.{Lists, IsKept};

    ghost Value = { Lists };

    ghost view = { λ s. record { heaps = s.heaps.entries; begun = s.begun.entries; holders = s.holders.items; next_txn = s.next_txn; next_container = s.next_container; no_pages = s.no_pages; no_log = s.no_log } };

    ghost invariant = { λ s. IsKept (record { heaps = s.heaps.entries; begun = s.begun.entries; holders = s.holders.items; next_txn = s.next_txn; next_container = s.next_container; no_pages = s.no_pages; no_log = s.no_log }) };
}

impl ListStore {
    ghost use Rattle.std.specs.Prelude.{◌≡◌, []};

    /// A store with the catalog's heaps, which are empty.
    pub fn new(alloc: Global) -> ListStore
        ensures { result ≡ record { heaps = []; begun = []; holders = []; next_txn = 1; next_container = 16; no_pages = 0; no_log = 0 } }
    {
        ListStore {
            alloc,
            heaps: HashMap::new(alloc),
            begun: HashMap::new(alloc),
            holders: ArrayVec::new(),
            next_txn: 1,
            next_container: 16,
            no_pages: 0,
            no_log: 0,
        }
    }
}
