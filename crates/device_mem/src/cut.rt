//! The last write of the log, cut short by a crash.

ghost use Rattle.std.specs.Prelude.{◌≡◌, ℕ, true, [], length, take, reverse, if◌then◌else◌, OnOk};
ghost use Rattle.device_mem.specs.Calls.{page_of, log_of};
ghost use Rattle.device_mem.specs.Cuts.{cuts_of, cuts_after, last_write, last_after, log_cut, part_after, log_cut_at};

use crate::call::Call;
use crate::calls::Calls;
use crate::images::{repeat_log, repeat_on_log};
use std::alloc::{AllocError, Global};

/// How many bytes the last write of the log has that wasn't synced, as far as this call tells.
fn count_after(call: &Call, known: usize) -> usize
    ensures { result ≡ cuts_after call.now known }
{
    match call {
        Call::WriteLog { bytes, .. } => bytes.len(),
        Call::SyncLog => 0,
        _ => known,
    }
}

/// How many bytes the last write of the log has that wasn't synced; 0 where all was synced.
pub fn cuts(calls: &[Call]) -> usize
    ensures { result ≡ cuts_of (reverse calls.now) }
{
    let mut count = 0;
    for call in calls {
        count = count_after(call, count);
    }
    count
}

/// Which call wrote to the log last, as far as this call tells, which is the one after so many.
fn place_after(call: &Call, before: usize, known: Option<usize>) -> Option<usize>
    ensures { result ≡ last_after call.now before known }
{
    match call {
        Call::WriteLog { .. } => Some(before),
        Call::SyncLog => None,
        _ => known,
    }
}

/// Which call wrote to the log last, if that wasn't synced.
fn place(calls: &[Call]) -> Option<usize>
    ensures { result ≡ last_write (reverse calls.now) }
{
    let mut place = None;
    for i in 0..calls.len() {
        place = place_after(&calls[i], i, place);
    }
    place
}

/// Adds a call that changes the log, a write of it cut after n bytes; any other changes nothing.
fn repeat_cut(alloc: Global, to: &mut Calls, call: &Call, n: usize) -> Result<(), AllocError>
    ensures log { OnOk result ((s : ℕ) → log_of to.new s ≡ part_after true n call.now (log_of to.old) s) }
    ensures pages { OnOk result ((c p : ℕ) → page_of to.new c p ≡ page_of to.old c p) }
{
    match call {
        Call::WriteLog { segment, at, bytes } => {
            let mut bytes = Vec::from_slice(alloc, bytes.as_slice())?;
            bytes.truncate(n);
            to.add(Call::WriteLog {
                segment: *segment,
                at: *at,
                bytes,
            })
        }
        _ => repeat_on_log(alloc, to, call),
    }
}

/// Adds a call that changes the log, cut or whole.
fn repeat_part(
    alloc: Global,
    to: &mut Calls,
    call: &Call,
    is_cut: bool,
    n: usize,
) -> Result<(), AllocError>
    ensures log { OnOk result ((s : ℕ) → log_of to.new s ≡ part_after is_cut n call.now (log_of to.old) s) }
    ensures pages { OnOk result ((c p : ℕ) → page_of to.new c p ≡ page_of to.old c p) }
{
    if is_cut {
        return repeat_cut(alloc, to, call, n);
    }
    repeat_on_log(alloc, to, call)
}

/// Adds the calls that change the log to a list that says nothing of it, the write at this place cut after n bytes.
fn repeat_cut_at(
    alloc: Global,
    to: &mut Calls,
    calls: &[Call],
    at: usize,
    n: usize,
) -> Result<(), AllocError>
    ensures log { OnOk result (((s : ℕ) → log_of to.old s ≡ []) → (s : ℕ) → log_of to.new s ≡ log_cut_at at n (reverse calls.now) s) }
    ensures pages { OnOk result ((c p : ℕ) → page_of to.new c p ≡ page_of to.old c p) }
{
    for i in 0..calls.len() {
        repeat_part(alloc, to, &calls[i], i == at, n)?;
    }
    Ok(())
}

/// Adds the calls that change the log to a list that says nothing of it, the last write that wasn't synced cut after n bytes.
pub fn repeat_log_cut(
    alloc: Global,
    to: &mut Calls,
    calls: &[Call],
    n: usize,
) -> Result<(), AllocError>
    ensures log { OnOk result (((s : ℕ) → log_of to.old s ≡ []) → (s : ℕ) → log_of to.new s ≡ log_cut n (reverse calls.now) s) }
    ensures pages { OnOk result ((c p : ℕ) → page_of to.new c p ≡ page_of to.old c p) }
{
    match place(calls) {
        Some(at) => repeat_cut_at(alloc, to, calls, at, n),
        None => repeat_log(alloc, to, calls),
    }
}
