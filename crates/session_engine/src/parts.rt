//! What an engine leaves to the one who closes it.

use crate::session::Session;
use crate::step::Stop;
use journal_model::journal::Entry;
use session_model::journal::Locked;
use store_api::store::RowStore;

/// The parts of an engine in which nobody makes a step any more: what `IsLeft` says of them holds.
#[derive(Drop)]
pub struct Parts<S: RowStore> {
    pub store: S,
    pub entries: Vec<Entry>,
    pub events: Vec<Locked>,
    pub sessions: Vec<Session>,
    pub stop: Option<Stop>,
}
