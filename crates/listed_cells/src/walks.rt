//! Walks over the owner queues of a store: who waits for whom there.
ghost use Rattle.std.specs.Prelude.{◌≡◌, ◌++◌, ℕ, ◌<◌, ◌⊎◌, ◌↔◌, length, OnOk, IfOk, IfSome, IsTrue, Some, Contains, AllPairs, ◌||◌, not, map};
ghost use Rattle.listed_cells.specs.Queues.{ids_of};
ghost use Rattle.std.specs.declared.cmp.Ordering.TheVariants.{Less};
ghost use Rattle.txn_key.specs.Ids.{id_cmp};
ghost use Rattle.store_laws.specs.View.{look, record_at, valid_nonce, was_prepared, settled};
ghost use Rattle.listed_cells.specs.Listing.{IsListing, content_of};
ghost use Rattle.listed_cells.specs.Orders.{link, later, IsVertexAt, IsRoster, IsPlace, AddsMark, IsChained, IsMarked, IsWalked};

use crate::cells::record_at;
use crate::queues::owner_queue;
use cycle_order::Edge;
use doc_value::OutOfMemory;
use std::alloc::Global;
use store_trait::{Name, Named};
use txn_key::{Token, TxnId};

/// The vertex of a token, where the token is valid.
pub(crate) fn vertex_of(cells: &[Named], ids: &[TxnId], token: &Token) -> Option<usize>
    requires listed { IsListing cells.now }
    requires roster { IsRoster (content_of cells.now) ids.now }
    ensures { IsVertexAt (look (content_of cells.now)) ids.now token.now result }
{
    if is_valid(cells, token) {
        place_of(ids, &token.id)
    } else {
        None
    }
}

/// Where an id stands among ids that rise.
pub(crate) fn place_of(ids: &[TxnId], id: &TxnId) -> Option<usize>
    requires { AllPairs (λ s t. id_cmp s t ≡ Less) ids.now }
    ensures { IsPlace ids.now id.now result }
{
    match ids.binary_search_by(|other| other.compare(id)) {
        Ok(place) => Some(place),
        Err(_) => None,
    }
}

/// Whether a token has the nonce of a record that was prepared.
pub(crate) fn is_valid(cells: &[Named], token: &Token) -> bool
    requires { IsListing cells.now }
    ensures { IsTrue result ↔
        (valid_nonce (look (content_of cells.now)) token.now.id ≡ Some token.now.nonce) }
{
    match record_at(cells, &token.id) {
        Some(rec) => rec.is_decided() && rec.nonce == Some(token.nonce),
        None => false,
    }
}

/// Whether a record was prepared.
fn is_prepared(cells: &[Named], id: &TxnId) -> bool
    requires { IsListing cells.now }
    ensures { result ≡ was_prepared (look (content_of cells.now)) id.now }
{
    match record_at(cells, id) {
        Some(rec) => rec.is_decided(),
        None => false,
    }
}

/// Whether a record that was never prepared was passed, one token on.
fn is_passed(cells: &[Named], passed: bool, id: &TxnId) -> bool
    requires { IsListing cells.now }
    ensures { result ≡ (passed || not (was_prepared (look (content_of cells.now)) id.now)) }
{
    passed || !is_prepared(cells, id)
}

/// Adds the edge to a token's vertex from the last vertex before it.
fn add_link(
    edges: &mut Vec<Edge>,
    last: Option<usize>,
    vertex: Option<usize>,
) -> Result<(), OutOfMemory>
    ensures { OnOk result (edges.new.items ≡ edges.old.items ++ link last vertex) }
{
    if let (Some(before), Some(after)) = (last, vertex) {
        edges.push(Edge {
            before: before as u64,
            after: after as u64,
        })?;
    }
    Ok(())
}

/// Marks a token's vertex, where a token of a record that was never prepared stands before it.
fn add_mark(marks: &mut Vec<bool>, passed: bool, vertex: Option<usize>)
    requires { IfSome vertex (λ v. v < length marks.old.items) }
    ensures size { length marks.new.items ≡ length marks.old.items }
    ensures marked { AddsMark marks.old.items passed vertex marks.new.items }
{
    if let Some(v) = vertex
        && passed
    {
        marks[v] = true;
    }
}

/// The ids of all records, in their order.
pub(crate) fn gather_ids(alloc: Global, cells: &[Named]) -> Result<Vec<TxnId>, OutOfMemory>
    ensures { IfOk result (λ ids. ids.items ≡ ids_of cells.now) }
{
    let mut ids = Vec::new(alloc);
    for named in cells {
        if let Name::Record(id) = &named.name {
            ids.push(*id)?;
        }
    }
    Ok(ids)
}

/// Whether a record is settled.
fn is_settled(cells: &[Named], id: &TxnId) -> bool
    requires { IsListing cells.now }
    ensures { result ≡ settled (look (content_of cells.now)) id.now }
{
    match record_at(cells, id) {
        Some(rec) => rec.is_settled(),
        None => false,
    }
}

/// A flag for each record: whether it is settled.
pub(crate) fn gather_settled(
    alloc: Global,
    cells: &[Named],
    ids: &[TxnId],
) -> Result<Vec<bool>, OutOfMemory>
    requires { IsListing cells.now }
    ensures { IfOk result (λ flags. flags.items ≡
        map (settled (look (content_of cells.now))) ids.now) }
{
    ids.iter().map(|id| is_settled(cells, id)).collect(alloc)
}

/// The edges and the marks that come from all owner queues.
#[derive(Drop)]
pub(crate) struct Walked {
    pub edges: Vec<Edge>,
    pub marks: Vec<bool>,
}

/// Walks all owner queues.
pub(crate) fn walk_all(alloc: Global, cells: &[Named], ids: &[TxnId]) -> Result<Walked, OutOfMemory>
    requires listed { IsListing cells.now }
    requires roster { IsRoster (content_of cells.now) ids.now }
    ensures { IfOk result (λ walked.
        IsWalked (content_of cells.now) ids.now walked.edges.items walked.marks.items) }
{
    let mut edges = Vec::new(alloc);
    let mut marks = vec![in alloc; false; ids.len()]?;
    for place in 0..cells.len() {
        let queue = owner_queue(cells, &cells[place].name);
        walk(cells, ids, &mut edges, &mut marks, queue)?;
    }
    Ok(Walked { edges, marks })
}

/// Walks one owner queue: an edge from each valid token to the next one, and a mark for each that stands
/// after a token of a record that was never prepared.
fn walk(
    cells: &[Named],
    ids: &[TxnId],
    edges: &mut Vec<Edge>,
    marks: &mut Vec<bool>,
    queue: &[Token],
) -> Result<(), OutOfMemory>
    requires listed { IsListing cells.now }
    requires roster { IsRoster (content_of cells.now) ids.now }
    requires size { length marks.old.items ≡ length ids.now }
    ensures edges { OnOk result (IsChained (look (content_of cells.now)) ids.now edges.old.items
        edges.new.items queue.now) }
    ensures marks { OnOk result (IsMarked (look (content_of cells.now)) ids.now marks.old.items
        marks.new.items queue.now) }
{
    let mut last = None;
    let mut passed = false;
    for token in queue {
        let vertex = vertex_of(cells, ids, token);
        add_link(edges, last, vertex)?;
        add_mark(marks, passed, vertex);
        last = later(last, vertex);
        passed = is_passed(cells, passed, &token.id);
    }
    Ok(())
}

/// The vertex of the last valid token, one token on.
fn later(last: Option<usize>, vertex: Option<usize>) -> Option<usize>
    ensures { result ≡ later last vertex }
{
    match vertex {
        None => last,
        Some(_) => vertex,
    }
}
