//! Laws of lock tables: what holds of every state and every event. Each call is a proof and does nothing.

ghost use Rattle.std.specs.Prelude.{◌≡◌, true, false, Bool, ℕ, List};
ghost use Rattle.dby_types.specs.declared.number.TxnNo.{TxnNo};
ghost use Rattle.lock_modes.specs.declared.event.LockEvent.{LockEvent};
ghost use Rattle.lock_modes.specs.declared.event.LockEvent.TheVariants.{ReleasedAll};
ghost use Rattle.lock_modes.specs.declared.mode.Mode.{Mode};
ghost use Rattle.lock_modes.specs.declared.name.LockName.{LockName};
ghost use Rattle.lock_modes.specs.Apart.{IsApart, IsGone, takes};
ghost use Rattle.lock_modes.specs.Escalation.{IsAllRows, released_rows, releases};
ghost use Rattle.lock_modes.specs.Lock.{Lock, apply, apply_all};
ghost use Rattle.lock_modes.specs.Modes.{compatible, covers, has_mode};
ghost use Rattle.lock_modes.specs.Proper.{IsProper};

/// Two modes are compatible in either order.
#[tactic(auto, using(crate::proofs::TablesLemmas::compatible_sym))]
pub fn modes_agree()
    ensures { (a b : Mode) → compatible a b ≡ compatible b a }
{}

/// What is compatible with a mode is compatible with each mode that it covers.
pub fn covering_is_enough()
    ensures { (a b m : Mode) → covers a b ≡ true → compatible a m ≡ true → compatible b m ≡ true }
{}

/// Grants of two transactions on one name never conflict: no event that may come makes two conflict.
pub fn grants_never_conflict()
    ensures { (l : Lock) (ever : TxnNo → Bool) (e : LockEvent) → IsApart l.grants → IsProper l ever e → IsApart (apply l e).grants }
{}

/// A mode of a transaction on a name leaves only with an event that takes that name, or all, from it.
#[tactic(auto, using(crate::proofs::ApartLemmas::stays))]
pub fn grants_stay()
    ensures { (l : Lock) (e : LockEvent) (t : TxnNo) (n : LockName) (m : Mode) → takes e t n ≡ false → has_mode (l.grants t n) m ≡ true → has_mode ((apply l e).grants t n) m ≡ true }
{}

/// Who gave all back has nothing, waits for nothing and is no victim.
#[tactic(auto, using(crate::proofs::ApartLemmas::gone))]
pub fn nothing_is_left()
    ensures { (l : Lock) (t : TxnNo) → IsGone (apply l (ReleasedAll t)) t }
{}

/// Names that are given back in any order leave the same state, and all rows of a table leave none of them.
pub fn rows_are_given_back()
    ensures { (l : Lock) (t : TxnNo) (table : ℕ) (names : List LockName) → IsAllRows l t table names → apply_all l (releases t names) ≡ record l { grants = released_rows l.grants t table } }
{}
