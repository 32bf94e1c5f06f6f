//! How a query finds and keeps its rows.

ghost use Rattle.std.specs.Prelude.{◌≡◌, ◌∷◌, [], IfErr, IfOk, OnOk};
ghost use Rattle.store_api.specs.Effects.{IsDescribed};
ghost use Rattle.store_api.specs.Frames.{Frame};
ghost use Rattle.store_api.specs.View.{MayHold};
ghost use Rattle.session_engine.specs.Scanning.{IsKeptFrom, IsSought, IsSeen, Takes, TurnsTo, passed, told_rows};
ghost use Rattle.session_engine.specs.Stepped.{Refuses};

use crate::session::{Scan, Where};
use dby_types::answer::{Answer, Component};
use dby_types::copies::copy_row;
use dby_types::number::{RowId, TxnNo};
use dby_types::seq::Seq;
use dby_types::value::Row;
use journal_model::journal::Entry;
use std::alloc::{AllocError, Global};
use store_api::answers::{Moved, RowRead, StoreAnswer};
use store_api::places::{Actor, At, Target};
use store_api::store::RowStore;

/// How a look for a row ended.
#[derive(Clone, Copy, Debug, PartialEq, Eq)]
pub(crate) enum Sought {
    Came(Where),
    /// One more page was fixed, and the look is to be made again.
    Onward,
    /// This actor holds the page that is wanted, and nothing changed.
    Held(Actor),
}

/// Looks for the first row of a table behind a row id, live or marked.
#[tactic(auto, using(crate::proofs::KeptLemmas::refuses_sure, crate::proofs::KeptLemmas::refuses_held))]
pub(crate) fn seek_row<S: RowStore>(
    store: &mut S,
    actor: Actor,
    table: u32,
    after: Option<RowId>,
) -> Result<Sought, StoreAnswer>
    requires described { IsDescribed (S.view store.old) table }
    requires few { MayHold (S.view store.old) actor }
    ensures frame { Frame actor (S.view store.old) (S.view store.new) }
    ensures content { (S.view store.new).content ≡ (S.view store.old).content }
    ensures cause { IfErr result (Refuses (S.view store.new)) }
    ensures sought { IfOk result (IsSought (S.view store.old).content.heaps table after) }
    ensures turns { IfOk result (TurnsTo actor (S.view store.old) (S.view store.new)) }
{
    let target = Target::Heap { table, after };
    match store.reach(actor, &target) {
        Ok(Moved::Reached) => match store.held(actor) {
            Ok(
                Some(
                    At::Row {
                        rid,
                        marked: _marked,
                    },
                ),
            ) => Ok(Sought::Came(Where::At(rid))),
            Ok(Some(At::End)) => Ok(Sought::Came(Where::Ended)),
            Ok(None) => unreachable!(),
            Err(answer) => Err(answer),
        },
        Ok(Moved::Onward) => Ok(Sought::Onward),
        Ok(Moved::Held(b)) => Ok(Sought::Held(b)),
        Err(answer) => Err(answer),
    }
}

/// What a look at a row found.
#[derive(Debug, Drop)]
pub(crate) enum Saw {
    Live(Row),
    /// It is marked as deleted.
    Passed,
    /// This actor holds the page that is wanted, and nothing changed.
    Held(Actor),
}

/// Looks at a row.
#[tactic(auto, using(crate::proofs::KeptLemmas::refuses_for))]
pub(crate) fn read_row<S: RowStore>(
    store: &mut S,
    actor: Actor,
    table: u32,
    rid: RowId,
) -> Result<Saw, StoreAnswer>
    requires described { IsDescribed (S.view store.old) table }
    requires few { MayHold (S.view store.old) actor }
    ensures frame { Frame actor (S.view store.old) (S.view store.new) }
    ensures content { (S.view store.new).content ≡ (S.view store.old).content }
    ensures cause { IfErr result (Refuses (S.view store.new)) }
    ensures saw { IfOk result (IsSeen (S.view store.old).content.heaps table rid) }
    ensures kept { IfOk result (IsKeptFrom actor (S.view store.old)) }
{
    match store.row(actor, table, rid) {
        Ok(RowRead::Row { row, marked }) => if marked {
            Ok(Saw::Passed)
        } else {
            Ok(Saw::Live(row))
        },
        Ok(RowRead::Absent) => Ok(Saw::Passed),
        Ok(RowRead::Held(b)) => Ok(Saw::Held(b)),
        Err(answer) => Err(answer),
    }
}

/// A tuple of one row.
fn single(alloc: Global, rid: RowId, row: Row) -> Result<Seq<Component>, AllocError>
    ensures { IfOk result (λ t. t ≡ record { rid = rid; row = row } ∷ []) }
{
    let mut tuple = Vec::with_capacity(alloc, 1)?;
    tuple.push(Component { rid, row })?;
    Ok(Seq::from_vec(tuple))
}

/// The row that stands here is read. Where memory is wanting the scan is of no use any more.
pub(crate) fn take(alloc: Global, scan: &mut Scan, rid: RowId, row: Row) -> Result<(), AllocError>
    ensures { OnOk result (Takes scan.old scan.new rid row) }
{
    let shown = copy_row(alloc, row.as_slice())?;
    scan.rows.push(shown)?;
    scan.tuples.push(single(alloc, rid, row)?)?;
    scan.after = Some(rid);
    scan.at = Where::Lost;
    Ok(())
}

/// The row here is marked as deleted: it is passed.
pub(crate) fn pass(scan: &mut Scan, rid: RowId)
    ensures { scan.new ≡ passed scan.old rid }
{
    scan.after = Some(rid);
    scan.at = Where::Lost;
}

/// The entry of a query's answer.
pub(crate) fn told_rows(txn: TxnNo, place: u64, scan: Scan) -> Entry
    ensures { result ≡ told_rows txn place scan }
{
    Entry::Answered {
        txn,
        answer: Answer::Rows {
            columns: scan.names,
            rows: Seq::from_vec(scan.rows),
        },
        joined: Seq::from_vec(scan.tuples),
        from: place,
        to: place,
    }
}
