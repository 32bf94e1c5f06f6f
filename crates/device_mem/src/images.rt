//! The disks that a crash may have left.

ghost use Rattle.std.specs.Prelude.{◌≡◌, ◌≤◌, ◌+◌, ℕ, true, false, [], length, take, reverse, if◌then◌else◌, IfOk, OnOk};
ghost use Rattle.device_mem.specs.Calls.{page_of, log_of};
ghost use Rattle.device_mem.specs.Cuts.{cuts_of};
ghost use Rattle.device_mem.specs.Images.{is_sync, synced, surviving, log_left, Holds, IsDurable, IsNamed, IsBelow, page_after, Adds, AddsMoment, AreLeft};
ghost use Rattle.device_mem.specs.Latest.{log_after};

use crate::call::Call;
use crate::calls::Calls;
use crate::cut::{cuts, repeat_log_cut};
use crate::disk::MemDisk;
use crate::log_left::LogLeft;
use std::alloc::{AllocError, Global};

/// Adds a call that changes pages; any other changes nothing.
fn repeat_on_pages(alloc: Global, to: &mut Calls, call: &Call) -> Result<(), AllocError>
    ensures pages { OnOk result ((c p : ℕ) → page_of to.new c p ≡ page_after call.now (page_of to.old) c p) }
    ensures log { OnOk result ((s : ℕ) → log_of to.new s ≡ log_of to.old s) }
{
    match call {
        Call::WritePage {
            container,
            page,
            bytes,
        } => {
            let bytes = bytes.copied(alloc)?;
            to.add(Call::WritePage {
                container: *container,
                page: *page,
                bytes,
            })
        }
        Call::DropContainer(c) => to.add(Call::DropContainer(*c)),
        _ => Ok(()),
    }
}

/// Adds a call that changes the log; any other changes nothing.
pub fn repeat_on_log(alloc: Global, to: &mut Calls, call: &Call) -> Result<(), AllocError>
    ensures log { OnOk result ((s : ℕ) → log_of to.new s ≡ log_after call.now (log_of to.old) s) }
    ensures pages { OnOk result ((c p : ℕ) → page_of to.new c p ≡ page_of to.old c p) }
{
    match call {
        Call::WriteLog { segment, at, bytes } => {
            let bytes = Vec::from_slice(alloc, bytes.as_slice())?;
            to.add(Call::WriteLog {
                segment: *segment,
                at: *at,
                bytes,
            })
        }
        Call::DropLog(s) => to.add(Call::DropLog(*s)),
        _ => Ok(()),
    }
}

/// Adds the calls that change pages to an empty list.
fn repeat_pages(alloc: Global, to: &mut Calls, calls: &[Call]) -> Result<(), AllocError>
    ensures pages { OnOk result (to.old ≡ [] → (c p : ℕ) → page_of to.new c p ≡ page_of (reverse calls.now) c p) }
    ensures log { OnOk result ((s : ℕ) → log_of to.new s ≡ log_of to.old s) }
{
    for call in calls {
        repeat_on_pages(alloc, to, call)?;
    }
    Ok(())
}

/// Adds the calls that change the log to a list that says nothing of it.
pub fn repeat_log(alloc: Global, to: &mut Calls, calls: &[Call]) -> Result<(), AllocError>
    ensures log { OnOk result (((s : ℕ) → log_of to.old s ≡ []) → (s : ℕ) → log_of to.new s ≡ log_of (reverse calls.now) s) }
    ensures pages { OnOk result ((c p : ℕ) → page_of to.new c p ≡ page_of to.old c p) }
{
    for call in calls {
        repeat_on_log(alloc, to, call)?;
    }
    Ok(())
}

/// How many calls there were before the last sync, as far as this call tells, which is the one after so many.
fn before_sync(call: &Call, of_pages: bool, before: usize, known: usize) -> usize
    ensures { result ≡ (if is_sync of_pages call.now then before else known) }
{
    match call {
        Call::SyncPages => {
            if of_pages {
                return before;
            }
            known
        }
        Call::SyncLog => {
            if of_pages {
                return known;
            }
            before
        }
        _ => known,
    }
}

/// How many calls there were before the last sync of the pages, or of the log.
fn count_synced(calls: &[Call], of_pages: bool) -> usize
    ensures within { result ≤ length calls.now }
    ensures exact { reverse (take result calls.now) ≡ synced of_pages (reverse calls.now) }
{
    let mut count = 0;
    for i in 0..calls.len() {
        count = before_sync(&calls[i], of_pages, i, count);
    }
    count
}

/// The calls that a crash leaves done which keeps all that wasn't synced, or loses all of it.
fn done(calls: &[Call], of_pages: bool, is_kept: bool) -> &[Call]
    ensures { reverse result.now ≡ surviving of_pages is_kept (reverse calls.now) }
{
    if is_kept {
        return calls;
    }
    &calls[..count_synced(calls, of_pages)]
}

/// Adds the calls that change the log to a list that says nothing of it, as many of them as a crash leaves.
fn repeat_left(
    alloc: Global,
    to: &mut Calls,
    calls: &[Call],
    left: LogLeft,
) -> Result<(), AllocError>
    ensures log { OnOk result (((s : ℕ) → log_of to.old s ≡ []) → (s : ℕ) → log_of to.new s ≡ log_left left (reverse calls.now) s) }
    ensures pages { OnOk result ((c p : ℕ) → page_of to.new c p ≡ page_of to.old c p) }
{
    match left {
        LogLeft::Lost => repeat_log(alloc, to, done(calls, false, false)),
        LogLeft::Kept => repeat_log(alloc, to, calls),
        LogLeft::Cut(n) => repeat_log_cut(alloc, to, calls, n),
    }
}

/// The calls of a disk that a crash left, of which the next crash leaves what it holds.
fn image(
    alloc: Global,
    calls: &[Call],
    keeps_pages: bool,
    left: LogLeft,
) -> Result<Calls, AllocError>
    ensures holds { IfOk result (λ i. Holds keeps_pages left (reverse calls.now) i) }
    ensures durable { IfOk result (λ i. IsDurable i) }
{
    let mut image = Calls::new(alloc);
    repeat_pages(alloc, &mut image, done(calls, true, keeps_pages))?;
    repeat_left(alloc, &mut image, calls, left)?;
    image.add(Call::SyncPages)?;
    image.add(Call::SyncLog)?;
    Ok(image)
}

fn push_image(
    alloc: Global,
    calls: &[Call],
    keeps_pages: bool,
    left: LogLeft,
    images: &mut Vec<MemDisk>,
) -> Result<(), AllocError>
    ensures { OnOk result (Adds keeps_pages (reverse calls.now) (λ l. l ≡ left) images.old.items images.new.items) }
{
    let disk = MemDisk::made(alloc, image(alloc, calls, keeps_pages, left)?);
    images.push(disk)?;
    Ok(())
}

/// Adds the images whose last write of the log was cut at each of its bytes.
fn push_cuts(
    alloc: Global,
    calls: &[Call],
    keeps_pages: bool,
    images: &mut Vec<MemDisk>,
) -> Result<(), AllocError>
    ensures { OnOk result (Adds keeps_pages (reverse calls.now) (IsBelow (cuts_of (reverse calls.now))) images.old.items images.new.items) }
{
    for n in 0..cuts(calls) {
        push_image(alloc, calls, keeps_pages, LogLeft::Cut(n), images)?;
    }
    Ok(())
}

/// Adds the images in which unsynced pages are kept, or lost.
fn push_kinds(
    alloc: Global,
    calls: &[Call],
    keeps_pages: bool,
    images: &mut Vec<MemDisk>,
) -> Result<(), AllocError>
    ensures { OnOk result (Adds keeps_pages (reverse calls.now) (IsNamed (reverse calls.now)) images.old.items images.new.items) }
{
    push_image(alloc, calls, keeps_pages, LogLeft::Lost, images)?;
    push_cuts(alloc, calls, keeps_pages, images)?;
    push_image(alloc, calls, keeps_pages, LogLeft::Kept, images)
}

/// Adds what a crash after these calls may have left.
fn push_moment(alloc: Global, calls: &[Call], images: &mut Vec<MemDisk>) -> Result<(), AllocError>
    ensures { OnOk result (AddsMoment (reverse calls.now) images.old.items images.new.items) }
{
    push_kinds(alloc, calls, false, images)?;
    push_kinds(alloc, calls, true, images)
}

/// Adds what a crash at each moment since this one may have left.
pub fn push_moments(
    alloc: Global,
    calls: &Calls,
    since: usize,
    images: &mut Vec<MemDisk>,
) -> Result<(), AllocError>
    ensures { OnOk result (images.old.items ≡ [] → AreLeft calls.now since (length calls.now + 1) images.new.items) }
{
    for m in since..calls.len() + 1 {
        push_moment(alloc, calls.first(m), images)?;
    }
    Ok(())
}
