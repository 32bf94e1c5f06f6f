//! The victim of a cycle.

ghost use Rattle.std.specs.Prelude.{◌≡◌, ◌<◌, length};
ghost use Rattle.lock_modes.specs.Waits.{IsVictim};
ghost use Rattle.deadlock_cycle.specs.Choice.{is_weaker, weakest};

use dby_types::number::TxnNo;
use lock_modes::cycle::{Cycle, Edge};

/// Whether one edge's waiter has fewer locks than another's, or as many and a greater number.
fn is_weaker(e: Edge, f: Edge) -> bool
    ensures exact { result ≡ is_weaker e f }
{
    e.locks < f.locks || (e.locks == f.locks && f.waiter.0 < e.waiter.0)
}

/// The transaction of a cycle that has locks on the fewest names, and the greatest number of those that have as few.
pub fn victim(c: &Cycle) -> TxnNo
    requires { 0 < length c.now }
    ensures exact { IsVictim c.now result }
{
    let edges = c.as_slice();
    weakest(edges[0], edges).waiter
}

/// The weakest of some edges and the best one so far.
fn weakest(mut best: Edge, edges: &[Edge]) -> Edge
    ensures exact { result ≡ weakest best edges.now }
{
    for e in edges {
        if is_weaker(*e, best) {
            best = *e;
        }
    }
    best
}
