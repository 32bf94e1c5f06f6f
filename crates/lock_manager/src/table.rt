//! The lock table: who has which locks, and who waits.

ghost use Rattle.std.specs.Prelude.{◌≡◌, ◌⊎◌, ◌≤◌, ◌<◌, ◌+◌, ◌-◌, ◌&&◌, ◌||◌, ℕ, true, false, not, [], ◌∷◌, ◌++◌, Some, None, OnOk, OnErr, IfOk, if◌then◌else◌, MatchOption, IsTrue, ◌↔◌, is_ok, length};
ghost use Rattle.dby_types.specs.declared.number.TxnNo.{TxnNo};
ghost use Rattle.lock_modes.specs.Names.{same_txn, is_row_name};
ghost use Rattle.lock_modes.specs.Lock.{no_locks, apply, request, has_grant, queue};
ghost use Rattle.lock_modes.specs.Waits.{waiting, IsSettled, IsBlocked, AllBlocked, IsNumber};
ghost use Rattle.lock_modes.specs.Proper.{IsRefused, MayHave};
ghost use Rattle.lock_modes.specs.Apart.{IsApart};
ghost use Rattle.lock_modes.specs.declared.event.LockEvent.TheVariants.{Granted, Queued, Released, ReleasedAll};
ghost use Rattle.lock_manager.specs.Room.{HasRoom, Waiters-prop, AllBlocked-prop, IsApart-prop};
ghost use Rattle.lock_manager.specs.Owners.{left_sum, waits_in, grants_in};
ghost use Rattle.lock_manager.specs.Serve.{Waiters, is_among};

use crate::blocking::{least_blocker, request_of};
use crate::freed::Freed;
use crate::holders::{self, Holders};
use crate::ledger::Ledger;
use crate::line::Line;
use crate::owners;
use crate::queue::{
    asked_by, drop_both, in_way_of_conversion, in_way_of_request, make_room, serve_both,
};
use crate::tickets::next_ticket;
use crate::tried::Tried;
use dby_types::number::TxnNo;
use lock_modes::cycle::Edge;
use lock_modes::entry::Request;
use lock_modes::mode::Mode;
use lock_modes::name::LockName;
use std::alloc::{AllocError, Global};
use std::collections::VecDeque;

/// Who has which locks, and who waits.
#[derive(Drop)]
pub struct LockTable {
    alloc: Global,
    ledger: Ledger,
    /// For how many names more all transactions may ask.
    left: usize,
    conversions: Line,
    requests: Line,
    woken: VecDeque<Request>,
    ghost total: { left ≡ left_sum ledger.owners.entries },
    ghost room: { HasRoom left conversions requests woken },
    ghost waiters: { Waiters ledger.owners.entries (conversions.line.items ++ requests.line.items) } by { Waiters-prop _ _ },
    ghost only: { (t : TxnNo) → waits_in ledger.owners.entries t ≡ is_among t (conversions.line.items ++ requests.line.items) },
    ghost settled: { AllBlocked (grants_in ledger.owners.entries) [] (conversions.line.items ++ requests.line.items) } by { AllBlocked-prop _ _ _ },
    ghost apart: { IsApart (grants_in ledger.owners.entries) } by { IsApart-prop _ },
}

impl LockTable {
    ghost use Rattle.lock_modes.specs.declared.name.LockName.TheVariants.{Table};
    ghost use Rattle.lock_manager.specs.Blocking.{IsBlocker, IsUnblocked};
    ghost use Rattle.lock_manager.specs.Holders.{IsHolders};
    ghost use Rattle.lock_manager.specs.Table.{lock, spare_of, woken_of, IsCause, IsHindrance, IsSpent, IsUncontested, IsNoted, Gives, WritesIn, HoldsGap, GivesRows, Escalates};

    /// A table without locks.
    pub fn new(alloc: Global) -> LockTable
        ensures none { lock result ≡ no_locks }
        ensures room { (t : TxnNo) → spare_of result t ≡ 0 }
        ensures woken { woken_of result ≡ [] }
    {
        LockTable {
            alloc,
            ledger: Ledger::new(alloc),
            left: 0,
            conversions: Line::new(alloc),
            requests: Line::new(alloc),
            woken: VecDeque::new(alloc),
        }
    }

    /// What holds of every table: grants of two transactions on one name never conflict, and no request that could be granted
    /// waits. The call does nothing.
    pub fn laws(&self)
        ensures apart { IsApart (lock self.now).grants }
        ensures settled { IsSettled (lock self.now) }
    {}

    /// For how many names more a transaction may ask.
    pub fn spare(&self, t: TxnNo) -> u32
        ensures exact { result ≡ spare_of self.now t }
    {
        owners::left(&self.ledger.owners, t)
    }

    /// How many requests wait.
    pub fn waiters(&self) -> usize
        ensures exact { result ≡ length (queue (lock self.now)) }
    {
        self.conversions.line.len() + self.requests.line.len()
    }

    /// The edge from a transaction to the least one, above a given number, for which it waits.
    pub fn blocker(&self, t: TxnNo, above: Option<TxnNo>) -> Option<Edge>
        ensures edge { MatchOption result (IsUnblocked (lock self.now) t above) (λ e. IsBlocker (lock self.now) t above e) }
    {
        let Some(r) = request_of(&self.conversions.line, &self.requests.line, t) else {
            return None;
        };
        let Some(holder) = least_blocker(
            &self.ledger,
            &self.conversions.line,
            &self.requests.line,
            r,
            above,
        ) else {
            return None;
        };
        let locks = owners::count(&self.ledger.owners, t);
        Some(Edge {
            waiter: t,
            holder,
            name: r.name,
            asked: r.mode,
            locks,
        })
    }

    /// On how many names a transaction has a grant.
    pub fn count(&self, t: TxnNo) -> u64
        ensures exact { IsNumber (λ n. has_grant (lock self.now).grants t n) result }
    {
        owners::count(&self.ledger.owners, t)
    }

    /// Every transaction with each mode that it has on a name, each pair once; or want of memory.
    pub fn holders(&self, name: LockName) -> Result<Holders, AllocError>
        ensures ok { IfOk result (λ hs. IsHolders (lock self.now).grants name hs) }
    {
        holders::holders(&self.ledger.owners, self.alloc, name)
    }

    /// On how many rows and places before a first entry of a table a transaction has a grant.
    pub fn row_count(&self, t: TxnNo, table: u32) -> u64
        ensures exact { IsNumber (λ n. is_row_name table n && has_grant (lock self.now).grants t n) result }
    {
        owners::row_count(&self.ledger.owners, t, table)
    }

    /// Whether a transaction has a mode of one who changes on a row, or a place before a first entry, of a table.
    pub fn writes(&self, t: TxnNo, table: u32) -> bool
        ensures exact { IsTrue result ↔ WritesIn (lock self.now) t table }
    {
        owners::written_count(&self.ledger.owners, t, table) > 0
    }

    /// Whether a transaction has a mode that also holds the gap, on any name.
    pub fn ranged(&self, t: TxnNo) -> bool
        ensures exact { IsTrue result ↔ HoldsGap (lock self.now) t }
    {
        owners::ranged_count(&self.ledger.owners, t) > 0
    }

    /// Whether a transaction was chosen as a victim.
    pub fn is_victim(&self, t: TxnNo) -> bool
        ensures exact { result ≡ (lock self.now).victims t }
    {
        owners::is_victim(&self.ledger.owners, t)
    }

    /// A queued request that was granted and not given yet, in the order of the grants.
    pub fn woken(&mut self) -> Option<(TxnNo, LockName, Mode)>
        ensures given { MatchOption result (woken_of self.old ≡ []) (λ g. woken_of self.old ≡ request g.0 g.1 g.2 ∷ woken_of self.new) }
        ensures none { result ≡ None → woken_of self.new ≡ [] }
        ensures same { lock self.new ≡ lock self.old }
        ensures room { (t : TxnNo) → spare_of self.new t ≡ spare_of self.old t }
    {
        let r = self.woken.pop_front()?;
        Some((r.txn, r.name, r.mode))
    }

    /// Whether a transaction waits for nothing.
    pub fn granted(&self, t: TxnNo) -> bool
        ensures exact { IsTrue result ↔ (waiting (lock self.now) t ≡ None) }
    {
        !owners::waits(&self.ledger.owners, t)
    }

    /// Whether the mode is compatible with all that is granted and asked for on the name.
    pub fn would_grant(&self, name: LockName, mode: Mode) -> bool
        ensures exact { IsTrue result ↔ IsUncontested (lock self.now) name mode }
    {
        let held = self.ledger.hinders(name, mode).is_some();
        let asked = self.conversions.is_contested(name, mode);
        let queued = self.requests.is_contested(name, mode);
        !held && (!asked && !queued)
    }

    /// Notes a transaction as the victim of a cycle. One that has and asks for nothing, and has no spare, may go without a note.
    pub fn choose(&mut self, t: TxnNo)
        ensures events { IsNoted self.old self.new t }
        ensures woken { woken_of self.new ≡ woken_of self.old }
        ensures room { (u : TxnNo) → spare_of self.new u ≡ spare_of self.old u }
    {
        self.ledger.choose(t);
    }

    /// Who is in the way of a request: nobody where what the transaction has covers it.
    fn hindrance(&self, r: Request) -> Option<TxnNo>
        ensures cause { IsHindrance (lock self.now) r result }
    {
        let modes = owners::modes_of(&self.ledger.owners, r.txn, r.name);
        if modes.covers(r.mode) {
            return None;
        }
        if modes.is_held() {
            in_way_of_conversion(&self.ledger, &self.conversions, r)
        } else {
            in_way_of_request(&self.ledger, &self.conversions, &self.requests, r)
        }
    }

    /// Lets a transaction ask for at least n names more. Nothing else takes memory: what its requests need, and the grants of
    /// those that are queued, is taken here.
    pub fn reserve(&mut self, t: TxnNo, n: u32) -> Result<(), AllocError>
        ensures ok { OnOk result (n ≤ spare_of self.new t) }
        ensures keeps { (u : TxnNo) → spare_of self.old u ≤ spare_of self.new u }
        ensures err { OnErr result ((u : TxnNo) → spare_of self.new u ≡ spare_of self.old u) }
        ensures same { lock self.new ≡ lock self.old }
        ensures woken { woken_of self.new ≡ woken_of self.old }
    {
        let had = owners::left(&self.ledger.owners, t);
        if n <= had {
            return Ok(());
        }
        let Some(left) = self.left.checked_add((n - had) as usize) else {
            return Err(AllocError);
        };
        self.widen(t, n, left)
    }

    fn widen(&mut self, t: TxnNo, n: u32, left: usize) -> Result<(), AllocError>
        requires more { spare_of self.old t ≤ n }
        requires sum { left ≡ self.old.left + (n - spare_of self.old t) }
        ensures ok { (u : TxnNo) → spare_of self.new u ≡ (if is_ok result && same_txn t u then n else spare_of self.old u) }
        ensures same { lock self.new ≡ lock self.old }
        ensures woken { woken_of self.new ≡ woken_of self.old }
    {
        make_room(
            &mut self.conversions,
            &mut self.requests,
            &mut self.woken,
            left,
        )?;
        self.ledger.open(self.alloc, t)?;
        match self.ledger.reserve(t, n) {
            Ok(()) => {
                self.left = left;
                Ok(())
            }
            Err(e) => Err(e),
        }
    }

    /// Asks for a mode on a name, and has it at once or not at all.
    pub fn try_lock(&mut self, t: TxnNo, name: LockName, mode: Mode) -> Tried
        requires idle { waiting (lock self.old) t ≡ None }
        requires room { (has_grant (lock self.old).grants t name ≡ true) ⊎ (0 < spare_of self.old t) }
        ensures cause { IsCause (lock self.old) (request t name mode) result }
        ensures ok { result ≡ Tried.Granted → lock self.new ≡ apply (lock self.old) (Granted t name mode) }
        ensures err { (h : TxnNo) → result ≡ Tried.Conflict h → lock self.new ≡ lock self.old }
        ensures room { result ≡ Tried.Granted → IsSpent self.old self.new t (has_grant (lock self.old).grants t name) }
        ensures woken { woken_of self.new ≡ woken_of self.old }
        ensures held { (h : TxnNo) → result ≡ Tried.Conflict h → (u : TxnNo) → spare_of self.new u ≡ spare_of self.old u }
    {
        let r = Request { txn: t, name, mode };
        match self.hindrance(r) {
            Some(h) => Tried::Conflict(h),
            None => {
                self.grant(r);
                Tried::Granted
            }
        }
    }

    /// Queues a request that would be refused now: behind those of its kind.
    pub fn enqueue(&mut self, t: TxnNo, name: LockName, mode: Mode)
        requires idle { waiting (lock self.old) t ≡ None }
        requires room { 0 < spare_of self.old t }
        requires refused { IsRefused (lock self.old) (request t name mode) }
        ensures ok { lock self.new ≡ apply (lock self.old) (Queued t name mode) }
        ensures room { (u : TxnNo) → spare_of self.new u ≡ (if same_txn t u then spare_of self.old u - 1 else spare_of self.old u) }
        ensures woken { woken_of self.new ≡ woken_of self.old }
    {
        let r = Request { txn: t, name, mode };
        if owners::modes_of(&self.ledger.owners, t, name).is_held() {
            self.queue_conversion(r);
        } else {
            self.queue_request(r);
        }
    }

    fn queue_conversion(&mut self, r: Request)
        requires idle { waiting (lock self.old) r.txn ≡ None }
        requires room { 0 < spare_of self.old r.txn }
        requires blocked { IsBlocked (lock self.old).grants (lock self.old).conversions r }
        ensures ok { lock self.new ≡ record (lock self.old) { conversions = (lock self.old).conversions ++ r ∷ [] } }
        ensures room { (u : TxnNo) → spare_of self.new u ≡ (if same_txn r.txn u then spare_of self.old u - 1 else spare_of self.old u) }
        ensures woken { woken_of self.new ≡ woken_of self.old }
    {
        let ticket = next_ticket(&self.ledger, &self.conversions.line);
        self.ledger.wait(r.txn, ticket);
        self.left -= 1;
        self.conversions.push(r);
    }

    fn queue_request(&mut self, r: Request)
        requires idle { waiting (lock self.old) r.txn ≡ None }
        requires room { 0 < spare_of self.old r.txn }
        requires blocked { IsBlocked (lock self.old).grants (queue (lock self.old)) r }
        ensures ok { lock self.new ≡ record (lock self.old) { requests = (lock self.old).requests ++ r ∷ [] } }
        ensures room { (u : TxnNo) → spare_of self.new u ≡ (if same_txn r.txn u then spare_of self.old u - 1 else spare_of self.old u) }
        ensures woken { woken_of self.new ≡ woken_of self.old }
    {
        let ticket = next_ticket(&self.ledger, &self.requests.line);
        self.ledger.wait(r.txn, ticket);
        self.left -= 1;
        self.requests.push(r);
    }

    /// Gives back all that a transaction has on a name, and grants what can be granted then.
    pub fn release(&mut self, t: TxnNo, name: LockName)
        requires idle { waiting (lock self.old) t ≡ None }
        ensures ok { Gives self.old self.new (Released t name ∷ []) }
        ensures settled { IsSettled (lock self.new) }
        ensures room { (u : TxnNo) → spare_of self.new u ≡ spare_of self.old u }
    {
        self.ledger.release(t, name);
        serve_both(
            self.alloc,
            &mut self.ledger,
            &Freed::Name(name),
            &mut self.conversions,
            &mut self.requests,
            &mut self.woken,
        );
    }

    /// Asks for a mode on a table on which the transaction has something already, and has it at once or not at all. Then it gives
    /// back its rows, and places before a first entry, of the table, and grants what can be granted then.
    pub fn escalate(&mut self, t: TxnNo, table: u32, mode: Mode) -> Tried
        requires idle { waiting (lock self.old) t ≡ None }
        requires held { has_grant (lock self.old).grants t (Table table) ≡ true }
        ensures cause { IsCause (lock self.old) (request t (Table table) mode) result }
        ensures ok { result ≡ Tried.Granted → Escalates self.old self.new t table mode }
        ensures err { (h : TxnNo) → result ≡ Tried.Conflict h → lock self.new ≡ lock self.old }
        ensures woken { (h : TxnNo) → result ≡ Tried.Conflict h → woken_of self.new ≡ woken_of self.old }
        ensures room { (u : TxnNo) → spare_of self.new u ≡ spare_of self.old u }
    {
        let r = Request {
            txn: t,
            name: LockName::Table(table),
            mode,
        };
        match self.hindrance(r) {
            Some(h) => Tried::Conflict(h),
            None => {
                self.grant(r);
                self.give_rows(t, table);
                Tried::Granted
            }
        }
    }

    /// Gives back all rows of a table, and grants what can be granted then.
    fn give_rows(&mut self, t: TxnNo, table: u32)
        ensures ok { GivesRows self.old self.new t table }
        ensures room { (u : TxnNo) → spare_of self.new u ≡ spare_of self.old u }
    {
        self.ledger.release_rows(t, table);
        serve_both(
            self.alloc,
            &mut self.ledger,
            &Freed::Rows(table),
            &mut self.conversions,
            &mut self.requests,
            &mut self.woken,
        );
    }

    /// Gives back all that a transaction has and asks for, with its spare and its note as a victim, and grants what can be
    /// granted then.
    pub fn release_all(&mut self, t: TxnNo)
        ensures ok { Gives self.old self.new (ReleasedAll t ∷ []) }
        ensures settled { IsSettled (lock self.new) }
        ensures room { (u : TxnNo) → spare_of self.new u ≡ (if same_txn t u then 0 else spare_of self.old u) }
    {
        let left = owners::left(&self.ledger.owners, t);
        let waits = owners::waits(&self.ledger.owners, t);
        let asked = asked_by(&self.conversions, &self.requests, t, waits);
        let had = self.ledger.remove(t);
        self.left -= left as usize;
        drop_both(&mut self.conversions, &mut self.requests, t, waits);
        serve_both(
            self.alloc,
            &mut self.ledger,
            &Freed::All { had, asked },
            &mut self.conversions,
            &mut self.requests,
            &mut self.woken,
        );
    }

    /// Adds a mode to what a transaction has.
    fn grant(&mut self, r: Request)
        requires idle { waiting (lock self.old) r.txn ≡ None }
        requires may { MayHave (lock self.old) r }
        requires room { (has_grant (lock self.old).grants r.txn r.name ≡ true) ⊎ (0 < spare_of self.old r.txn) }
        ensures ok { lock self.new ≡ apply (lock self.old) (Granted r.txn r.name r.mode) }
        ensures room { IsSpent self.old self.new r.txn (has_grant (lock self.old).grants r.txn r.name) }
        ensures woken { woken_of self.new ≡ woken_of self.old }
    {
        let held = owners::modes_of(&self.ledger.owners, r.txn, r.name).is_held();
        self.ledger.grant(r);
        self.left = less_one(self.left, held);
    }
}

/// What is left after a grant, where a name that is held already costs nothing.
fn less_one(left: usize, held: bool) -> usize
    requires { (held ≡ true) ⊎ (0 < left) }
    ensures exact { result ≡ (if held then left else left - 1) }
{
    if held { left } else { left - 1 }
}
