//! Heaps over vectors, found by table number.

ghost use Rattle.std.specs.Prelude.{◌≡◌, ◌≢◌, ◌<◌, ◌≤◌, ◌^◌, ◌++◌, ◌∷◌, [], length, reverse, true, false, Some, None, MatchOption, IfOk, IfSome, OnOk, OnErr, slice_get, slice_set, vec_len, vec_capacity};
ghost use Rattle.list_store.specs.Begun.{Pushes, IsSame, changes_of};
ghost use Rattle.list_store.specs.Heaps.{rid_at, number_of, is_place, rows_in, row_at, heap_in, first_behind, next_number, RowsBecome, GivenBecomes, Drops, DropsAll, AreSame, PutsBack};
ghost use Rattle.store_api.specs.declared.slot.Slot.{Slot as Seen};
ghost use Rattle.store_api.specs.declared.slot.Item.TheVariants.{Changed};

use crate::begun::{self, Begun, Open};
use dby_types::copies::copy_text;
use dby_types::definition::{ColumnDef, Columns};
use dby_types::number::{RowId, TxnNo};
use dby_types::seq::Seq;
use std::alloc::{AllocError, Global};
use std::collections::HashMap;
use store_api::slot::{Item, Slot};

/// The rows of a table, in the order in which they were put, and its columns where it was described. The n-th row, from 0, has the
/// row id (1 + n / 65536, n mod 65536).
#[derive(Debug, Drop)]
pub struct Heap {
    pub columns: Option<Columns>,
    pub rows: Vec<Slot>,
}

/// The heaps by table number. A table that isn't there has no rows yet.
pub type Heaps = HashMap<u32, Heap>;

/// As many rows as there are row ids for: 24 bits of page, less one, and 16 of slot.
pub const MOST_ROWS: usize = ((1 << 24) - 1) * 65536;

/// The row id of the n-th row.
pub fn rid_of(n: usize) -> RowId
    requires { n < 2 ^ 47 }
    ensures { result ≡ rid_at n }
{
    RowId {
        page: 1 + (n / 65536) as u32,
        slot: (n % 65536) as u16,
    }
}

/// The number of the row with this row id; None where no row can have it.
pub fn number(rid: RowId) -> Option<usize>
    ensures { MatchOption result (is_place rid ≡ false) (λ n. (is_place rid ≡ true) × (n ≡ number_of rid)) }
{
    if rid.page == 0 {
        return None;
    }
    Some((rid.page as usize - 1) * 65536 + rid.slot as usize)
}

/// The rows of a table.
pub fn rows(heaps: &Heaps, table: u32) -> &[Slot]
    ensures { result.now ≡ rows_in heaps.now.entries table }
{
    match heaps.get(&table) {
        Some(heap) => heap.rows.as_slice(),
        None => &[],
    }
}

/// The row of a row id, live or marked.
pub fn slot_at(rows: &[Slot], rid: RowId) -> Option<&Slot>
    ensures { MatchOption result (row_at rows.now rid ≡ None) (λ s. row_at rows.now rid ≡ Some s.now) }
{
    match number(rid) {
        Some(n) => rows.get(n),
        None => None,
    }
}

/// The number of the first row behind a row id.
fn next_behind(after: Option<RowId>) -> usize
    ensures { result ≡ next_number after }
{
    match after {
        Some(rid) => if rid.page == 0 {
            0
        } else {
            (rid.page as usize - 1) * 65536 + rid.slot as usize + 1
        },
        None => 0,
    }
}

/// The first row behind a row id.
pub fn first(rows: &[Slot], after: Option<RowId>) -> Option<RowId>
    requires { length rows.now < 2 ^ 47 }
    ensures { result ≡ first_behind rows.now after }
{
    let n = next_behind(after);
    if n < rows.len() {
        Some(rid_of(n))
    } else {
        None
    }
}

/// A table has a heap, if only an empty one.
fn make(heaps: &mut Heaps, alloc: Global, table: u32) -> Result<(), AllocError>
    ensures same { AreSame heaps.old.entries heaps.new.entries }
    ensures ok { OnOk result (heap_in heaps.new.entries table ≢ None) }
{
    if heaps.contains_key(&table) {
        return Ok(());
    }
    heaps.insert(
        table,
        Heap {
            columns: None,
            rows: Vec::new(alloc),
        },
    )?;
    Ok(())
}

/// A second list of columns like this one.
fn copy_columns(alloc: Global, columns: &[ColumnDef]) -> Result<Columns, AllocError>
    ensures { IfOk result (λ c. c ≡ columns.now) }
{
    let mut copy = Vec::with_capacity(alloc, columns.len())?;
    for column in columns {
        copy.push(ColumnDef {
            name: copy_text(alloc, column.name.as_slice())?,
            ty: column.ty,
            not_null: column.not_null,
        })?;
    }
    Ok(Seq::from_vec(copy))
}

/// A table has these columns from now on.
pub fn describe(
    heaps: &mut Heaps,
    alloc: Global,
    table: u32,
    columns: &[ColumnDef],
) -> Result<(), AllocError>
    ensures ok { OnOk result (GivenBecomes heaps.old.entries heaps.new.entries table columns.now) }
    ensures err { OnErr result (AreSame heaps.old.entries heaps.new.entries) }
{
    let copy = copy_columns(alloc, columns)?;
    make(heaps, alloc, table)?;
    if let Some(heap) = heaps.get_mut(&table) {
        heap.columns = Some(copy);
    }
    Ok(())
}

/// Puts an item into room that is there.
fn push_reserved<T: Drop>(items: &mut Vec<T>, item: T)
    requires { vec_len items.old < vec_capacity items.old }
    ensures { items.new.items ≡ items.old.items ++ item ∷ [] }
{
    match items.push(item) {
        Ok(()) => {}
        Err(_) => unreachable!(),
    }
}

/// Puts a row at the end of a heap, and notes the change.
fn put_into(
    rows: &mut Vec<Slot>,
    begun: &mut Begun,
    t: TxnNo,
    table: u32,
    slot: Slot,
) -> Result<RowId, AllocError>
    requires begun { changes_of begun.old.entries t.0 ≢ None }
    requires room { vec_len rows.old < 2 ^ 47 }
    ensures ok { IfOk result (λ rid. (rid ≡ rid_at (vec_len rows.old)) × Pushes begun.old.entries begun.new.entries t.0 (Changed table rid None)) }
    ensures rows { OnOk result (rows.new.items ≡ rows.old.items ++ slot ∷ []) }
    ensures err { OnErr result ((rows.new.items ≡ rows.old.items) × IsSame begun.old.entries begun.new.entries) }
{
    let rid = rid_of(rows.len());
    rows.reserve(1)?;
    begun::push(
        begun,
        t,
        Item::Changed {
            table,
            rid,
            before: None,
        },
    )?;
    push_reserved(rows, slot);
    Ok(rid)
}

/// Puts a row into a table, and notes the change. There is room for it, as `is_spent` says.
pub fn put(
    heaps: &mut Heaps,
    begun: &mut Begun,
    alloc: Global,
    t: TxnNo,
    table: u32,
    slot: Slot,
) -> Result<RowId, AllocError>
    requires begun { changes_of begun.old.entries t.0 ≢ None }
    requires room { length (rows_in heaps.old.entries table) < 2 ^ 40 }
    ensures ok { IfOk result (λ rid. (rid ≡ rid_at (length (rows_in heaps.old.entries table))) × Pushes begun.old.entries begun.new.entries t.0 (Changed table rid None)) }
    ensures rows { OnOk result (RowsBecome heaps.old.entries heaps.new.entries table (rows_in heaps.old.entries table ++ slot ∷ [])) }
    ensures err { OnErr result (AreSame heaps.old.entries heaps.new.entries × IsSame begun.old.entries begun.new.entries) }
{
    make(heaps, alloc, table)?;
    match heaps.get_mut(&table) {
        Some(heap) => put_into(&mut heap.rows, begun, t, table, slot),
        None => unreachable!(),
    }
}

/// Writes a row over another, and gives that one.
pub fn replace(heaps: &mut Heaps, table: u32, n: usize, slot: Slot) -> Slot
    requires { n < length (rows_in heaps.old.entries table) }
    ensures old { slice_get (rows_in heaps.old.entries table) n ≡ Some result }
    ensures rows { RowsBecome heaps.old.entries heaps.new.entries table (slice_set (rows_in heaps.old.entries table) n slot) }
{
    match heaps.get_mut(&table) {
        Some(heap) => swap_in(&mut heap.rows, n, slot),
        None => unreachable!(),
    }
}

fn swap_in(rows: &mut Vec<Slot>, n: usize, slot: Slot) -> Slot
    requires { n < vec_len rows.old }
    ensures old { slice_get rows.old.items n ≡ Some result }
    ensures rows { rows.new.items ≡ slice_set rows.old.items n slot }
{
    std::mem::replace(&mut rows[n], slot)
}

/// Writes a row over another, and notes the change.
fn overwrite_noting(
    heaps: &mut Heaps,
    items: &mut Vec<Item>,
    table: u32,
    n: usize,
    slot: Slot,
) -> Result<(), AllocError>
    requires within { n < length (rows_in heaps.old.entries table) }
    requires short { n < 2 ^ 47 }
    ensures ok { OnOk result ((before : Seen) × (slice_get (rows_in heaps.old.entries table) n ≡ Some before) × (items.new.items ≡ items.old.items ++ Changed table (rid_at n) (Some before) ∷ [])) }
    ensures rows { OnOk result (RowsBecome heaps.old.entries heaps.new.entries table (slice_set (rows_in heaps.old.entries table) n slot)) }
    ensures err { OnErr result ((items.new.items ≡ items.old.items) × (heaps.new.entries ≡ heaps.old.entries)) }
{
    items.reserve(1)?;
    let before = replace(heaps, table, n, slot);
    push_reserved(
        items,
        Item::Changed {
            table,
            rid: rid_of(n),
            before: Some(before),
        },
    );
    Ok(())
}

/// Writes a row over another, and notes the change.
pub fn overwrite(
    heaps: &mut Heaps,
    begun: &mut Begun,
    t: TxnNo,
    table: u32,
    n: usize,
    slot: Slot,
) -> Result<(), AllocError>
    requires begun { changes_of begun.old.entries t.0 ≢ None }
    requires within { n < length (rows_in heaps.old.entries table) }
    requires short { n < 2 ^ 47 }
    ensures ok { OnOk result ((before : Seen) × (slice_get (rows_in heaps.old.entries table) n ≡ Some before) × Pushes begun.old.entries begun.new.entries t.0 (Changed table (rid_at n) (Some before))) }
    ensures rows { OnOk result (RowsBecome heaps.old.entries heaps.new.entries table (slice_set (rows_in heaps.old.entries table) n slot)) }
    ensures err { OnErr result ((heaps.new.entries ≡ heaps.old.entries) × IsSame begun.old.entries begun.new.entries) }
{
    match begun.get_mut(&t) {
        Some(open) => overwrite_noting(heaps, &mut open.items, table, n, slot),
        None => unreachable!(),
    }
}

/// Marks a row as deleted.
fn mark(heaps: &mut Heaps, table: u32, n: usize)
    requires { n < length (rows_in heaps.old.entries table) }
    ensures { (s : Seen) × (slice_get (rows_in heaps.old.entries table) n ≡ Some s)
        × RowsBecome heaps.old.entries heaps.new.entries table (slice_set (rows_in heaps.old.entries table) n (record s { marked = true })) }
{
    match heaps.get_mut(&table) {
        Some(heap) => mark_in(&mut heap.rows, n),
        None => unreachable!(),
    }
}

fn mark_in(rows: &mut Vec<Slot>, n: usize)
    requires { n < vec_len rows.old }
    ensures { (s : Seen) × (slice_get rows.old.items n ≡ Some s) × (rows.new.items ≡ slice_set rows.old.items n (record s { marked = true })) }
{
    rows[n].marked = true;
}

/// Puts back what stood before a change, where a row stands still: a row that was put stays as a marked one.
pub fn put_back(heaps: &mut Heaps, table: u32, rid: RowId, before: Option<Slot>)
    ensures { PutsBack heaps.old.entries heaps.new.entries table rid before }
{
    if let Some(n) = number(rid) {
        if n < rows(heaps, table).len() {
            match before {
                Some(slot) => {
                    let _ = replace(heaps, table, n, slot);
                }
                None => mark(heaps, table, n),
            }
        }
    }
}

/// Nothing stands any more of the containers that a transaction discarded.
pub fn drop_discarded(heaps: &mut Heaps, ended: Open)
    ensures { DropsAll heaps.old.entries heaps.new.entries (reverse ended.items.items) }
{
    let mut items = ended.items;
    while let Some(item) = items.pop() {
        drop_if_discarded(heaps, item);
    }
}

fn drop_if_discarded(heaps: &mut Heaps, item: Item)
    ensures { DropsAll heaps.old.entries heaps.new.entries (item ∷ []) }
{
    if let Item::Discarded(c) = item {
        drop_heap(heaps, c);
    }
}

/// Nothing stands of a table any more.
pub fn drop_heap(heaps: &mut Heaps, table: u32)
    ensures { Drops heaps.old.entries heaps.new.entries table }
{
    let _ = heaps.remove(&table);
}
