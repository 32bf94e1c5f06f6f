//! The search for a cycle: depth first, lower numbers first.

ghost use Rattle.std.specs.Prelude.{◌≡◌, ◌≤◌, ◌<◌, false, [], length, MatchOption, IfSome};
ghost use Rattle.lock_modes.specs.Lock.{queue};
ghost use Rattle.lock_modes.specs.Names.{same_txn};
ghost use Rattle.lock_manager.specs.Blocking.{IsBlocker, IsUnblocked};
ghost use Rattle.lock_manager.specs.Table.{lock};
ghost use Rattle.deadlock_cycle.specs.First.{IsFirst};
ghost use Rattle.deadlock_cycle.specs.Search.{IsCycleThrough, NoCycle, Searching, is_passed};
ghost use Rattle.deadlock_cycle.specs.Steps.{IsSearching, IsStep};

use crate::seen::Seen;
use dby_types::number::TxnNo;
use lock_manager::table::LockTable;
use lock_modes::cycle::{Cycle, Edge};
use lock_modes::name::is_same_txn;

/// How far a search has come.
#[derive(Drop)]
pub struct Search {
    /// The waits that led here.
    path: Cycle,
    /// Every transaction that the search has come to.
    seen: Seen,
    node: TxnNo,
    /// The last of those for whom the node waits that was looked at.
    above: Option<TxnNo>,
}

/// What a step of the search tells.
#[derive(Clone, Copy, Debug, PartialEq, Eq)]
pub enum Next {
    Goes,
    /// There is no cycle.
    Ends,
    /// The path is a cycle.
    Closes,
}

/// A cycle of waits through a transaction that stands and has no chosen victim in it; None exactly where there is none. The
/// search goes depth first, lower numbers first: of all such cycles that come to nobody twice, each walked from the transaction,
/// it finds the one that goes on to the lower number wherever it parts from another. At most 64 requests may wait.
pub fn after_wait(l: &LockTable, t: TxnNo) -> Option<Cycle>
    requires { length (queue (lock l.now)) ≤ 64 }
    ensures exact { MatchOption result (NoCycle (lock l.now) t) (λ c. IsCycleThrough (lock l.now) t c) }
    ensures first { IfSome result (λ c. IsFirst (lock l.now) t c) }
{
    if is_passed(l, &Seen::new(), t) {
        return None;
    }
    let mut s = begin(l, t);
    'steps: loop {
        match step(l, t, &mut s) {
            Next::Goes => {}
            Next::Ends => return None,
            Next::Closes => return Some(s.path),
        }
    }
}

/// A search that has come to its first transaction.
fn begin(l: &LockTable, t: TxnNo) -> Search
    requires few { length (queue (lock l.now)) ≤ 64 }
    requires waits { is_passed (lock l.now) [] t ≡ false }
    ensures begun { IsSearching (lock l.now) t result }
{
    let mut seen = Seen::new();
    seen.push(t);
    Search {
        path: Cycle::new(),
        seen,
        node: t,
        above: None,
    }
}

/// Asks for the next transaction for which the node waits.
fn step(l: &LockTable, t: TxnNo, s: &mut Search) -> Next
    requires { IsSearching (lock l.now) t s.old }
    ensures step { IsStep (lock l.now) t s.old s.new result }
{
    match l.blocker(s.node, s.above) {
        None => back(l, t, s),
        Some(edge) => forth(l, t, s, edge),
    }
}

/// Goes back by the last edge, where nobody is left for whom the node waits.
fn back(l: &LockTable, t: TxnNo, s: &mut Search) -> Next
    requires searching { IsSearching (lock l.now) t s.old }
    requires none { IsUnblocked (lock l.now) s.old.node s.old.above }
    ensures step { IsStep (lock l.now) t s.old s.new result }
{
    if s.path.is_empty() {
        return Next::Ends;
    }
    let edge = s.path.pop();
    s.node = edge.waiter;
    s.above = Some(edge.holder);
    Next::Goes
}

/// Looks at the next transaction for which the node waits.
fn forth(l: &LockTable, t: TxnNo, s: &mut Search, edge: Edge) -> Next
    requires searching { IsSearching (lock l.now) t s.old }
    requires edge { IsBlocker (lock l.now) s.old.node s.old.above edge }
    ensures step { IsStep (lock l.now) t s.old s.new result }
{
    if is_same_txn(edge.holder, t) {
        s.path.push(edge);
        return Next::Closes;
    }
    if is_passed(l, &s.seen, edge.holder) {
        let _ = bounded(edge.holder.0);
        s.above = Some(edge.holder);
        return Next::Goes;
    }
    enter(l, t, s, edge)
}

/// Goes on by an edge.
fn enter(l: &LockTable, t: TxnNo, s: &mut Search, edge: Edge) -> Next
    requires searching { IsSearching (lock l.now) t s.old }
    requires edge { IsBlocker (lock l.now) s.old.node s.old.above edge }
    requires other { same_txn edge.holder t ≡ false }
    requires fresh { is_passed (lock l.now) s.old.seen edge.holder ≡ false }
    ensures step { IsStep (lock l.now) t s.old s.new result }
{
    s.path.push(edge);
    s.seen.push(edge.holder);
    s.node = edge.holder;
    s.above = None;
    Next::Goes
}

/// A number as it is, with the bound of its type.
fn bounded(n: u64) -> u64
    ensures exact { (result ≡ n) × (n < 18446744073709551616) }
{
    n
}

/// Whether nothing more is to be asked of a transaction: it was chosen, waits for nothing, or was come to before.
fn is_passed(l: &LockTable, seen: &Seen, h: TxnNo) -> bool
    ensures exact { result ≡ is_passed (lock l.now) seen.now h }
{
    l.is_victim(h) || (l.granted(h) || seen.has(h))
}
