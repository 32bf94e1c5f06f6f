//! How a bound statement is carried out.

use crate::bound::BoundStatement;
use dby_types::definition::Places;
use dby_types::seq::Seq;

/// The scan of a table: the index that it goes by, or the heap, and the places of the conjuncts judged in it.
#[derive(Debug, Drop)]
pub struct ScanPlan {
    pub table: u32,
    pub index: Option<u32>,
    pub conjuncts: Places,
}

pub type ScanPlans = Seq<ScanPlan>;

/// How a table is joined to those before it: by hashing on the conjunct at this place, or by nested loops.
#[derive(Clone, Copy, Debug, PartialEq, Eq)]
pub struct JoinPlan {
    pub hash: Option<u32>,
}

pub type JoinPlans = Seq<JoinPlan>;

/// A bound statement with its scans in FROM order and its joins from left to right.
#[derive(Debug, Drop)]
pub struct Plan {
    pub bound: BoundStatement,
    pub scans: ScanPlans,
    pub joins: JoinPlans,
}
