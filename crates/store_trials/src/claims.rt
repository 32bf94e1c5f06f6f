//! A caller that writes over no row that another open transaction has changed.

ghost use Rattle.std.specs.Prelude.{◌≡◌, IfOk, IfErr, OnErr};
ghost use Rattle.store_api.specs.Effects.{IsOpen, FitsTable};
ghost use Rattle.store_api.specs.View.{MayHold};
ghost use Rattle.store_trials.specs.Claims.{is_of as is_of_row, is_claimed as is_claimed_in, AreListed, Refuses, Ends};

use dby_types::number::{RowId, TxnNo};
use dby_types::value::Row;
use store_api::answers::{RowRead, StoreAnswer};
use store_api::places::Actor;
use store_api::store::RowStore;

/// A row that an open transaction has changed.
#[derive(Clone, Copy, Debug, PartialEq, Eq)]
pub struct Claim {
    pub table: u32,
    pub rid: RowId,
}

/// What became of a row that was to be written.
#[derive(Clone, Copy, Debug, PartialEq, Eq)]
pub enum Written {
    Done,
    /// Another open transaction may have changed it.
    Claimed,
    /// Nothing stands there.
    Absent,
    /// This actor holds the page.
    Held(Actor),
}

/// Whether one of the claims is of this row.
pub fn is_claimed(claims: &[Claim], table: u32, rid: RowId) -> bool
    ensures { result ≡ is_claimed_in claims.now table rid }
{
    for claim in claims {
        if is_of(claim, table, rid) {
            return true;
        }
    }
    false
}

fn is_of(claim: &Claim, table: u32, rid: RowId) -> bool
    ensures { result ≡ is_of_row table rid claim.now }
{
    claim.table == table && claim.rid.page == rid.page && claim.rid.slot == rid.slot
}

/// Writes a row over the one at a place, unless another open transaction has changed that one. These are among the claims.
pub fn write_over<S: RowStore>(
    store: &mut S,
    a: Actor,
    t: TxnNo,
    at: Claim,
    row: &Row,
    claims: &[Claim],
) -> Result<Written, StoreAnswer>
    requires begun { IsOpen (S.view store.old) t.0 }
    requires few { MayHold (S.view store.old) a }
    requires fits { FitsTable (S.view store.old) at.table row.now }
    requires claims { AreListed (S.view store.old) t.0 claims.now }
    ensures ok { IfOk result (Ends t.0 at.table at.rid row.now claims.now (S.view store.old).content (S.view store.new).content) }
    ensures err { OnErr result ((S.view store.new).content ≡ (S.view store.old).content) }
    ensures cause { IfErr result (Refuses (S.view store.old) (S.view store.new)) }
{
    if is_claimed(claims, at.table, at.rid) {
        return Ok(Written::Claimed);
    }
    match store.row(a, at.table, at.rid) {
        Ok(
            RowRead::Row {
                row: _old,
                marked: _was,
            },
        ) => {
            match store.set_row(a, t, at.table, at.rid, row) {
                Ok(()) => Ok(Written::Done),
                Err(e) => Err(e),
            }
        }
        Ok(RowRead::Absent) => Ok(Written::Absent),
        Ok(RowRead::Held(b)) => Ok(Written::Held(b)),
        Err(e) => Err(e),
    }
}
