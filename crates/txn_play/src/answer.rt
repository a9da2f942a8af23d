//! What a statement comes to, as a value: it is printed at the edge.

use crate::finding::Finding;
use sqlite_items::Items;
use store_trait::Named;
use txn_key::{Docs, TxnId};
use txn_record::{Entry, State};

/// A transaction with the state of its record.
#[derive(Clone, Copy, Debug, PartialEq, Eq)]
pub struct RecordState {
    pub id: TxnId,
    pub state: State,
}

/// What a statement comes to: nothing to print, the transactions of a batch with their states, the
/// documents, the cells in the order of names, the decisions of all Runs, or what an audit finds, if something.
#[derive(Drop)]
pub enum Answer {
    Nothing,
    States(Items<RecordState>),
    Documents(Docs),
    Cells(Items<Named>),
    Order(Items<Entry>),
    Audited(Option<Finding>),
}
