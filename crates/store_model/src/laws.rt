//! Laws of stores over a log of transactions. Each call is a proof and does nothing.

ghost use Rattle.dby_types.specs.declared.number.RowId.{RowId};
ghost use Rattle.log_model.specs.Crash.{IsLeft};
ghost use Rattle.log_model.specs.Places.{Change, reversed};
ghost use Rattle.log_model.specs.States.{IsOpen, MayFollow, State, after, recovered, stepped};
ghost use Rattle.log_model.specs.Steps.{Step, newest_of};
ghost use Rattle.log_model.specs.Steps.Step.{change, commit, compensation, rolled_back};
ghost use Rattle.store_api.specs.Crashes.{IsSomeCommits, Net, net_in, with_commit};
ghost use Rattle.store_api.specs.declared.slot.Item.TheVariants.{Changed, Created, Discarded};
ghost use Rattle.store_api.specs.declared.slot.Item.{Item};
ghost use Rattle.store_api.specs.declared.slot.Slot.{Slot};
ghost use Rattle.store_api.specs.Effects.{IsElsewhere, IsOutside, committed, taken_back, with_item, with_slot, without_txn};
ghost use Rattle.store_api.specs.View.{Content, at_number, changes_in, live};
ghost use Rattle.store_model.specs.Effects.{AreEmptied, container_change, made, row_change};
ghost use Rattle.store_model.specs.Nets.{IsRead, Row, Shows};
ghost use Rattle.store_model.specs.Standing.{StandsFor};
ghost use Rattle.table_model.specs.Tables.{Each, Tables};
ghost use Rattle.std.specs.Prelude.{◌≡◌, ◌≢◌, ℕ, List, [], ◌∷◌, ◌++◌, None, Option, Some, length};

/// A step that commits nothing leaves what the log stands for.
pub fn stands_on()
    ensures { (s : State Row) (log : List (Step Row)) (r : Step Row) (forced : ℕ) (base : Tables) (commits : List (List Net)) (durable : ℕ) → StandsFor s log forced base commits durable
        → MayFollow (after s log) r → (stepped (after s log) r).commits ≡ (after s log).commits → StandsFor s (log ++ r ∷ []) forced base commits durable }
{}

/// A commit is one commit more, with the net changes of what is stored.
pub fn stands_committed()
    ensures { (s : State Row) (log : List (Step Row)) (d : Content) (t forced : ℕ) (base : Tables) (commits : List (List Net)) (durable : ℕ) → StandsFor s log forced base commits durable
        → MayFollow (after s log) (commit t) → Shows d (after s log) → StandsFor s (log ++ commit t ∷ []) forced base (with_commit (net_in d t) commits) durable }
{}

/// A force makes all commits durable.
pub fn stands_forced()
    ensures { (s : State Row) (log : List (Step Row)) (forced : ℕ) (base : Tables) (commits : List (List Net)) (durable : ℕ) → StandsFor s log forced base commits durable
        → StandsFor s log (length log) base commits (length commits) }
{}

/// What a crash leaves has the base after some of the commits, as the store's contract asks.
pub fn stands_crashed()
    ensures { (s : State Row) (log left : List (Step Row)) (forced : ℕ) (base : Tables) (commits : List (List Net)) (durable : ℕ) (tables : Tables) → StandsFor s log forced base commits durable
        → IsLeft log forced left → IsRead (recovered (after s left)) tables → IsSomeCommits base commits durable tables }
{}

/// A row that is put, set or marked is a change that may follow, and what is stored goes on showing the log's state.
pub fn rows_change()
    ensures may { (d : Content) (s : State Row) (t table : ℕ) (rid : RowId) (slot : Slot) → Shows d s → IsOpen t s → ((u : ℕ) → u ≢ t → Each (IsElsewhere table rid) (changes_in (d.changes u)))
        → MayFollow s (change (row_change d t table rid slot)) }
    ensures shown { (d : Content) (s : State Row) (t table : ℕ) (rid : RowId) (slot : Slot) → Shows d s → Shows (with_slot d t table rid slot) (stepped s (change (row_change d t table rid slot))) }
{}

/// A row that is taken back is the compensation of its transaction's newest change.
pub fn rows_are_undone()
    ensures { (d : Content) (s : State Row) (t table : ℕ) (rid : RowId) (before : Option Slot) (rest : List Item) (c : Change Row) → Shows d s → newest_of t s.standing ≡ Some c
        → d.changes t ≡ Some (Changed table rid before ∷ rest) → d.heaps table rid ≢ None
        → Shows (record (taken_back d (Changed table rid before)) { changes = at_number d.changes t (Some rest) }) (stepped s (compensation (reversed c))) }
{}

/// A container that is made or given up is a change that may follow where no other transaction's list names it, and what is stored goes on showing the log's state, also once it is taken back.
pub fn containers_change()
    ensures may { (d : Content) (s : State Row) (t n : ℕ) (x : Row) → Shows d s → IsOpen t s → ((u : ℕ) → u ≢ t → Each (IsOutside n) (changes_in (d.changes u))) → MayFollow s (change (container_change s t n x)) }
    ensures made { (d : Content) (s : State Row) (t n next : ℕ) → Shows d s → Shows (record (with_item d t (Created n)) { next_container = next }) (stepped s (change (container_change s t n made))) }
    ensures given_up { (d : Content) (s : State Row) (t n : ℕ) → Shows d s → Shows (with_item d t (Discarded n)) (stepped s (change (container_change s t n None))) }
    ensures making_undone { (d : Content) (s : State Row) (t n : ℕ) (rest : List Item) (c : Change Row) → Shows d s → newest_of t s.standing ≡ Some c → d.changes t ≡ Some (Created n ∷ rest)
        → ((rid : RowId) → live (d.heaps n rid) ≡ None) → Shows (record (taken_back d (Created n)) { changes = at_number d.changes t (Some rest) }) (stepped s (compensation (reversed c))) }
    ensures giving_up_undone { (d : Content) (s : State Row) (t n : ℕ) (rest : List Item) (c : Change Row) → Shows d s → newest_of t s.standing ≡ Some c → d.changes t ≡ Some (Discarded n ∷ rest)
        → Shows (record (taken_back d (Discarded n)) { changes = at_number d.changes t (Some rest) }) (stepped s (compensation (reversed c))) }
{}

/// A transaction's end is shown; that of a commit where no live row stands in a container that it gives up.
pub fn ends_are_shown()
    ensures rollback { (d : Content) (s : State Row) (t : ℕ) → Shows d s → Shows (without_txn d t) (stepped s (rolled_back t)) }
    ensures commit { (d : Content) (s : State Row) (t : ℕ) → Shows d s → AreEmptied d.heaps (changes_in (d.changes t)) → Shows (committed d t) (stepped s (commit t)) }
{}
