//! How a table is made.

ghost use Rattle.std.specs.Prelude.{◌≡◌, ◌≤◌, length, IfOk, IfErr, OnOk};
ghost use Rattle.row_codec.specs.StoredRow.{row_len};
ghost use Rattle.std.specs.Str.{bytes_eq};
ghost use Rattle.journal_model.specs.Meaning.{has_name, names_twice};
ghost use Rattle.store_api.specs.Effects.{IsOpen, MayDescribe};
ghost use Rattle.store_api.specs.View.{MayHold};
ghost use Rattle.session_engine.specs.Creating.{Stays, Remains, IsTaken, IsContained, IsDescribedBy, IsBare, TurnsIn};
ghost use Rattle.session_engine.specs.Pacing.{Acts};
ghost use Rattle.session_engine.specs.Stepped.{Refuses};

use crate::session::{Make, Plan, Session};
use dby_types::definition::{ColumnDef, TableDef};
use dby_types::number::TxnNo;
use dby_types::state::SqlState;
use std::mem;
use store_api::answers::{Made, StoreAnswer};
use store_api::places::Actor;
use store_api::store::RowStore;

fn is_same(a: &[u8], b: &[u8]) -> bool
    ensures { result ≡ bytes_eq a.now b.now }
{
    a == b
}

/// Whether a column has this name.
fn is_name_of(name: &[u8], columns: &[ColumnDef]) -> bool
    ensures { result ≡ has_name name.now columns.now }
{
    for column in columns {
        if is_same(name, column.name.as_slice()) {
            return true;
        }
    }
    false
}

/// Whether a column's name stands twice.
pub(crate) fn has_names_twice(columns: &[ColumnDef]) -> bool
    ensures { result ≡ names_twice columns.now }
{
    for (i, column) in columns.iter().enumerate() {
        if is_name_of(column.name.as_slice(), &columns[i + 1..]) {
            return true;
        }
    }
    false
}

/// How the making of a table's container ended.
#[derive(Clone, Copy, Debug, PartialEq, Eq)]
pub(crate) enum Contained {
    Made,
    /// One more page was fixed, and the call is to be made again.
    Onward,
    /// No further container is left, or no log room.
    NoPages,
    NoLog,
}

/// A CREATE TABLE that has no container yet, taken out of a connection's plan.
pub(crate) fn take_unmade(session: &mut Session) -> Option<Make>
    ensures { IsTaken session.old session.new result }
{
    let planned = mem::replace(&mut session.plan, Plan::Nothing);
    match planned {
        Plan::Create(make) => if make.made {
            session.plan = Plan::Create(make);
            None
        } else {
            Some(make)
        },
        other => {
            session.plan = other;
            None
        }
    }
}

/// The rows of a container are a table's from now on.
#[tactic(auto, using(crate::proofs::KeptLemmas::refuses_for))]
fn describe<S: RowStore>(store: &mut S, def: &TableDef) -> Result<(), StoreAnswer>
    requires { MayDescribe (S.view store.old) def.now }
    ensures stays { Remains (S.view store.old) (S.view store.new) }
    ensures pages { (S.view store.new).pages ≡ (S.view store.old).pages }
    ensures ok { OnOk result (IsDescribedBy def.now (S.view store.old) (S.view store.new)) }
    ensures err { IfErr result (λ e. (S.view store.new).content ≡ (S.view store.old).content) }
    ensures cause { IfErr result (Refuses (S.view store.new)) }
{
    match store.describe_table(def) {
        Ok(()) => Ok(()),
        Err(answer) => Err(answer),
    }
}

/// Makes the container of a table, which gives it its number, and describes it.
#[tactic(auto, using(crate::proofs::KeptLemmas::refuses_for, crate::proofs::KeptLemmas::refuses_full, crate::proofs::KeptLemmas::spends_both))]
pub(crate) fn new_heap<S: RowStore>(
    store: &mut S,
    actor: Actor,
    txn: TxnNo,
    make: &mut Make,
) -> Result<Contained, StoreAnswer>
    requires begun { IsOpen (S.view store.old) txn.0 }
    requires hold { MayHold (S.view store.old) actor }
    requires few { length make.old.def.columns ≤ 64 }
    requires short { row_len make.old.def.columns ≤ 1900 }
    ensures stays { Stays actor (S.view store.old) (S.view store.new) }
    ensures made { IfOk result (IsContained txn.0 make.old make.new (S.view store.old) (S.view store.new)) }
    ensures acts { Acts actor (S.view store.old) (S.view store.new) }
    ensures turns { IfOk result (TurnsIn actor (S.view store.old) (S.view store.new)) }
    ensures err { IfErr result (λ e. IsBare txn.0 make.old make.new (S.view store.old) (S.view store.new)) }
    ensures cause { IfErr result (Refuses (S.view store.new)) }
{
    match store.create(actor, txn, false) {
        Ok(Made::Number(n)) => {
            store.law();
            make.def.number = n;
            match describe(store, &make.def) {
                Ok(()) => {
                    make.made = true;
                    Ok(Contained::Made)
                }
                Err(answer) => Err(answer),
            }
        }
        Ok(Made::Onward) => Ok(Contained::Onward),
        Err(StoreAnswer::Full(state)) => match state {
            SqlState::PagesSpent => Ok(Contained::NoPages),
            SqlState::LogSpent => Ok(Contained::NoLog),
            _ => unreachable!(),
        },
        Err(answer) => Err(answer),
    }
}
