//! The next request of a line for a name that was freed.

ghost use Rattle.std.specs.Prelude.{◌≡◌, ◌≤◌, ◌<◌, ◌⊎◌, true, false, length};
ghost use Rattle.std.specs.Vec.{vec_len};
ghost use Rattle.lock_modes.specs.Modes.{is_held};
ghost use Rattle.lock_modes.specs.Names.{same_name};
ghost use Rattle.lock_manager.specs.Asked.{asked_before};
ghost use Rattle.lock_manager.specs.ByName.{modes_at};
ghost use Rattle.lock_manager.specs.Freed.{asks, frees, Skips};
ghost use Rattle.lock_manager.specs.Owners.{modes_of};

use crate::freed::{Freed, is_freed};
use crate::ledger::Ledger;
use crate::line::Line;
use crate::owner::Owner;
use lock_modes::entry::Request;
use lock_modes::modes::Modes;
use lock_modes::name::LockName;
use std::collections::HashMap;

/// For each name that was freed, so many requests are looked at one by one before the name's list is asked for the place of its
/// next one, which takes about as long.
const STRETCH: usize = 64;

/// Whether the request at a place of a name's list stands before a place of the line.
fn is_before(ledger: &Ledger, line: &Line, name: LockName, number: usize, i: usize) -> bool
    ensures before { result ≡ true → number < asked_before name line.now.line.items i }
    ensures behind { result ≡ false → asked_before name line.now.line.items i ≤ number }
{
    match line.place_at(ledger, name, number) {
        Some(place) => place < i,
        None => false,
    }
}

/// How many requests for a name stand before a place.
fn count_before(ledger: &Ledger, line: &Line, name: LockName, i: usize) -> usize
    ensures exact { result ≡ asked_before name line.now.line.items i }
{
    let mut low = 0;
    let mut high = line.line.len();
    'halve: while low < high {
        let middle = low + (high - low) / 2;
        if is_before(ledger, line, name, middle, i) {
            low = middle + 1;
        } else {
            high = middle;
        }
    }
    low
}

/// The first place, from one on, of a request for a name.
fn next_asked(ledger: &Ledger, line: &Line, name: LockName, i: usize) -> usize
    requires within { i ≤ vec_len line.now.line }
    ensures skips { Skips (same_name name) line.now.line.items i result }
{
    let number = count_before(ledger, line, name, i);
    match line.place_at(ledger, name, number) {
        Some(place) => place,
        None => line.line.len(),
    }
}

/// The first place, from one on and up to another, of a request for one of some names.
fn next_of_names(
    ledger: &Ledger,
    line: &Line,
    names: &HashMap<LockName, Modes>,
    i: usize,
    end: usize,
) -> usize
    requires start { i ≤ end }
    requires within { end ≤ vec_len line.now.line }
    ensures skips { Skips (λ n. is_held (modes_at names.now n)) line.now.line.items i result }
    ensures end { result ≤ end }
{
    let mut first = end;
    for (name, _) in names {
        first = lesser(first, next_asked(ledger, line, *name, i));
    }
    first
}

fn lesser(a: usize, b: usize) -> usize
    ensures first { result ≤ a }
    ensures second { result ≤ b }
    ensures least { (result ≡ a) ⊎ (result ≡ b) }
{
    if a < b { a } else { b }
}

/// The same, for all that a transaction had.
fn next_had(ledger: &Ledger, line: &Line, had: &Option<Owner>, i: usize, end: usize) -> usize
    requires start { i ≤ end }
    requires within { end ≤ vec_len line.now.line }
    ensures skips { Skips (λ n. is_held (modes_of had.now n)) line.now.line.items i result }
    ensures end { result ≤ end }
{
    match had {
        Some(owner) => next_of_names(ledger, line, &owner.holdings.modes, i, end),
        None => end,
    }
}

/// The same, for the name that a transaction asked for.
fn next_wanted(ledger: &Ledger, line: &Line, asked: Option<LockName>, i: usize) -> usize
    requires within { i ≤ vec_len line.now.line }
    ensures skips { Skips (asks asked) line.now.line.items i result }
{
    match asked {
        Some(name) => next_asked(ledger, line, name, i),
        None => line.line.len(),
    }
}

/// The next request for a name that was freed, as the names' lists tell. Of the rows of a table they aren't asked.
fn next_listed(ledger: &Ledger, freed: &Freed, line: &Line, i: usize) -> usize
    requires within { i ≤ vec_len line.now.line }
    ensures skips { Skips (frees freed.now) line.now.line.items i result }
{
    match freed {
        Freed::Name(name) => next_asked(ledger, line, *name, i),
        Freed::Rows(_) => i,
        Freed::All { had, asked } => {
            let end = next_wanted(ledger, line, *asked, i);
            next_had(ledger, line, had, i, end)
        }
    }
}

/// The first request, from one place on and up to another, for a name that was freed.
fn walk(line: &[Request], freed: &Freed, i: usize, end: usize) -> usize
    requires start { i ≤ end }
    requires within { end ≤ length line.now }
    ensures skips { Skips (frees freed.now) line.now i result }
    ensures end { result ≤ end }
{
    let mut at = i;
    'each: while at < end {
        if is_freed(freed, line[at].name) {
            return at;
        }
        at += 1;
    }
    at
}

/// How many names were freed, of which a table's rows count as one.
fn names(freed: &Freed) -> usize {
    match freed {
        Freed::Name(_) | Freed::Rows(_) => 1,
        Freed::All {
            had: Some(owner),
            ..
        } => owner.holdings.modes.len().saturating_add(1),
        Freed::All { had: None, .. } => 1,
    }
}

/// How far requests are looked at one by one.
fn reach(len: usize, i: usize, names: usize) -> usize
    requires within { i ≤ len }
    ensures start { i ≤ result }
    ensures within { result ≤ len }
{
    let stretch = names.saturating_mul(STRETCH);
    if len - i <= stretch { len } else { i + stretch }
}

/// The next place, from one on, at which a request for a name that was freed may stand: between them there is none.
pub fn next_freed(ledger: &Ledger, freed: &Freed, line: &Line, i: usize) -> usize
    requires within { i ≤ vec_len line.now.line }
    ensures skips { Skips (frees freed.now) line.now.line.items i result }
{
    let len = line.line.len();
    let end = reach(len, i, names(freed));
    let near = walk(&line.line, freed, i, end);
    if near < end || end == len {
        return near;
    }
    next_listed(ledger, freed, line, near)
}
