//! The rule `InQueues`: which tokens wait on which key.
ghost use Rattle.std.specs.Prelude.{◌≡◌, ◌<◌, ◌↔◌, [], Some, IfOk, IsTrue, IfSome, MatchOption, length, slice_index_or};
ghost use Rattle.store_laws.specs.Readiness.{In};
ghost use Rattle.store_laws.specs.Soundness.{IsInQueues};
ghost use Rattle.store_laws.specs.View.{look, record_at, is_queued_state};
ghost use Rattle.listed_cells.specs.Listing.{IsListing, content_of};
ghost use Rattle.store_trait.specs.declared.cell.Named.{Named as NamedValue};
ghost use Rattle.listed_cells.specs.Standing.{AllWait, AreQueues, IsSetOf, queue_in};

use crate::cells::{doc_place, owner_at, stash_place};
use doc_value::OutOfMemory;
use std::alloc::Global;
use std::collections::BTreeSet;
use store_trait::{Cell, Named, Side};
use txn_key::{Key, Token};
use txn_record::{Op, Record, State};

/// The tokens of each cell's queue, in order, so that one is looked up by halving.
#[derive(Drop)]
pub struct Standing {
    pub queues: Vec<BTreeSet<([u8; 12], u32)>>,
}

impl Standing {
    /// Walks every queue once.
    pub fn new(alloc: Global, cells: &[Named]) -> Result<Standing, OutOfMemory>
        ensures { IfOk result (λ standing. AreQueues cells.now standing.queues.items) }
    {
        let mut queues = Vec::new(alloc);
        for named in cells {
            queues.push(set_of(alloc, queue_of(&named.cell))?)?;
        }
        Ok(Standing { queues })
    }

    /// Whether a record's token waits on each of its keys, where it has to.
    pub fn is_in_queues(&self, cells: &[Named], rec: &Record) -> bool
        requires listed { IsListing cells.now }
        requires queues { AreQueues cells.now self.now.queues.items }
        requires there { record_at (content_of cells.now) rec.now.id ≡ Some rec.now }
        ensures { IsTrue result ↔ IsInQueues (content_of cells.now) rec.now.id }
    {
        match rec.nonce {
            Some(nonce) if is_queued(rec.state) => {
                let token = Token { id: rec.id, nonce };
                self.waits_on_all(cells, &token, rec.ops.as_slice())
            }
            _ => true,
        }
    }

    /// Whether a token waits on the key of each operation.
    fn waits_on_all(&self, cells: &[Named], token: &Token, ops: &[Op]) -> bool
        requires listed { IsListing cells.now }
        requires queues { AreQueues cells.now self.now.queues.items }
        ensures { IsTrue result ↔ AllWait (look (content_of cells.now)) token.now ops.now }
    {
        for op in ops {
            if !self.waits_on(cells, token, &op.key) {
                return false;
            }
        }
        true
    }

    /// Whether a token waits on a key.
    fn waits_on(&self, cells: &[Named], token: &Token, key: &Key) -> bool
        requires listed { IsListing cells.now }
        requires queues { AreQueues cells.now self.now.queues.items }
        ensures { IsTrue result ↔ In token.now ((look (content_of cells.now)).queue_at key.now) }
    {
        match owner_place(cells, key) {
            Some(place) => self.queues[place].contains(&(token.id.0, token.nonce)),
            None => false,
        }
    }
}

/// Where the owner of a key stands among the cells, if it has one.
fn owner_place(cells: &[Named], key: &Key) -> Option<usize>
    requires { IsListing cells.now }
    ensures within { IfSome result (λ place. place < length cells.now) }
    ensures queue { MatchOption result ((look (content_of cells.now)).queue_at key.now ≡ [])
        (λ place. (d : NamedValue) → queue_in (slice_index_or cells.now place d).cell ≡
        (look (content_of cells.now)).queue_at key.now) }
{
    match owner_at(cells, key) {
        Side::Document => doc_place(cells, key),
        Side::Stash => stash_place(cells, key),
        Side::Neither => None,
    }
}

/// Whether a record's token has to wait on its keys: where it is prepared or applying.
fn is_queued(state: State) -> bool
    ensures { result ≡ is_queued_state state }
{
    matches!(state, State::Prepared | State::Applying)
}

/// The queue of a cell.
fn queue_of(cell: &Cell) -> &[Token]
    ensures { result.now ≡ queue_in cell.now }
{
    match cell {
        Cell::Doc(doc) => doc.queue.as_slice(),
        Cell::Stash(stash) => stash.queue.as_slice(),
        _ => &[],
    }
}

/// The tokens of a queue.
fn set_of(alloc: Global, queue: &[Token]) -> Result<BTreeSet<([u8; 12], u32)>, OutOfMemory>
    ensures { IfOk result (λ tokens. IsSetOf queue.now tokens) }
{
    let mut tokens = BTreeSet::new(alloc);
    for token in queue {
        tokens.insert((token.id.0, token.nonce))?;
    }
    Ok(tokens)
}
