//! Whether what is pending fits, and the documents that the cells of a store mean.
ghost use Rattle.std.specs.Prelude.{◌≡◌, ◌<◌, true, length, IsTrue, IfOk, None, unwrap_or, [], ◌∷◌, nat_le, unsigned_abs};
ghost use Rattle.std.specs.List.{All, list_any};
ghost use Rattle.store_laws.specs.Meaning.{not_done};
ghost use Rattle.store_laws.specs.Soundness.{Rule, rule_number};
ghost use Rattle.store_laws.specs.View.{look, epoch_at};
ghost use Rattle.txn_audit.specs.Bodies.{kept, pending_in, applying_ops, to_do, first_unfit};
ghost use Rattle.txn_audit.specs.Completion.{IsCompletion};
ghost use Rattle.txn_audit.specs.Flaws.{HoldsAtAll};
ghost use Rattle.listed_cells.specs.Listing.{IsListing, content_of};
ghost use Rattle.txn_key.specs.Keys.{same_key};
ghost use Rattle.txn_key.specs.Places.{keys_rise};
ghost use Rattle.txn_record.specs.Effects.{effect, changes_fit};

use crate::bodies::{bodies_at, documents, is_applying, keys_in, run};
use doc_value::{OutOfMemory, Value};
use listed_cells::number_at;
use sqlite_items::Items;
use std::alloc::Global;
use store_trait::{Cell, Named};
use txn_key::{Docs, Key};
use txn_record::{Op, Record};

/// What comes of completing all that is pending.
#[derive(Drop)]
pub(crate) enum Completion {
    Docs(Docs),
    /// The place of the first cell that has to do what doesn't fit.
    Unfit(usize),
}

/// Completes all that is pending in a store that keeps every rule but the last. What is pending may
/// not fit, and then the first cell is named where it doesn't.
pub(crate) fn complete(alloc: Global, cells: &[Named]) -> Result<Completion, OutOfMemory>
    requires listed { IsListing cells.now }
    requires sound { (r : Rule) → rule_number r < 10 → HoldsAtAll (content_of cells.now) r }
    ensures { IfOk result (IsCompletion cells.now) }
{
    let keys = keys_in(alloc, cells)?;
    let mut bodies = bodies_at(alloc, cells, keys.as_slice())?;
    match run_all(alloc, cells, keys.as_slice(), &mut bodies)? {
        Some(place) => Ok(Completion::Unfit(place)),
        None => Ok(Completion::Docs(documents(alloc, keys.as_slice(), bodies.as_slice())?)),
    }
}

/// Runs what the cells have to do, in turn, as far as the first cell where it doesn't fit.
fn run_all(
    alloc: Global,
    cells: &[Named],
    keys: &[Key],
    bodies: &mut Items<Option<Value>>,
) -> Result<Option<usize>, OutOfMemory>
    requires listed { IsListing cells.now }
    requires rise { keys_rise keys.now ≡ true }
    requires there { All (λ x. All (λ op. list_any (same_key op.key) keys.now ≡ true)
        (applying_ops x.cell)) cells.now }
    requires count { length bodies.old ≡ length keys.now }
    ensures count { length bodies.new ≡ length keys.now }
    ensures found { IfOk result (λ found. found ≡
        first_unfit (look (content_of cells.now)) cells.now (kept keys.now bodies.old)) }
    ensures runs { IfOk result (λ found. found ≡ None → kept keys.now bodies.new ≡
        effect (to_do (look (content_of cells.now)) cells.now) (kept keys.now bodies.old)) }
{
    for place in 0..cells.len() {
        if !run_cell(alloc, cells, keys, bodies, &cells[place].cell)? {
            return Ok(Some(place));
        }
    }
    Ok(None)
}

/// Runs what one cell has to do. It is false where that doesn't fit.
fn run_cell(
    alloc: Global,
    cells: &[Named],
    keys: &[Key],
    bodies: &mut Items<Option<Value>>,
    cell: &Cell,
) -> Result<bool, OutOfMemory>
    requires listed { IsListing cells.now }
    requires rise { keys_rise keys.now ≡ true }
    requires there { All (λ op. list_any (same_key op.key) keys.now ≡ true)
        (applying_ops cell.now) }
    requires count { length bodies.old ≡ length keys.now }
    ensures count { length bodies.new ≡ length keys.now }
    ensures fits { IfOk result (λ fits. fits ≡ changes_fit
        (pending_in (look (content_of cells.now)) cell.now) (kept keys.now bodies.old)) }
    ensures runs { IfOk result (λ fits. IsTrue fits → kept keys.now bodies.new ≡
        effect (pending_in (look (content_of cells.now)) cell.now) (kept keys.now bodies.old)) }
{
    match cell {
        Cell::Record(rec) if is_applying(rec) => {
            run_pending(alloc, cells, keys, bodies, rec.ops.as_slice(), numbers(rec))
        }
        _ => Ok(true),
    }
}

/// The revision numbers of a record, none where it has no chain.
fn numbers(rec: &Record) -> &[i64]
    ensures { result.now ≡ unwrap_or rec.now.revnos [] }
{
    match &rec.revnos {
        Some(revnos) => revnos.as_slice(),
        None => &[],
    }
}

/// Runs the operations that are not done, in turn. It is false where one of them doesn't fit.
fn run_pending(
    alloc: Global,
    cells: &[Named],
    keys: &[Key],
    bodies: &mut Items<Option<Value>>,
    ops: &[Op],
    revnos: &[i64],
) -> Result<bool, OutOfMemory>
    requires listed { IsListing cells.now }
    requires rise { keys_rise keys.now ≡ true }
    requires there { All (λ op. list_any (same_key op.key) keys.now ≡ true) ops.now }
    requires count { length bodies.old ≡ length keys.now }
    ensures count { length bodies.new ≡ length keys.now }
    ensures fits { IfOk result (λ fits. fits ≡ changes_fit
        (not_done (look (content_of cells.now)) ops.now revnos.now) (kept keys.now bodies.old)) }
    ensures runs { IfOk result (λ fits. IsTrue fits → kept keys.now bodies.new ≡ effect
        (not_done (look (content_of cells.now)) ops.now revnos.now) (kept keys.now bodies.old)) }
{
    let count = ops.len().min(revnos.len());
    for place in 0..count {
        if !run_one(alloc, cells, keys, bodies, &ops[place], revnos[place])? {
            return Ok(false);
        }
    }
    Ok(true)
}

/// Runs one operation, unless it is done.
fn run_one(
    alloc: Global,
    cells: &[Named],
    keys: &[Key],
    bodies: &mut Items<Option<Value>>,
    op: &Op,
    revno: i64,
) -> Result<bool, OutOfMemory>
    requires listed { IsListing cells.now }
    requires rise { keys_rise keys.now ≡ true }
    requires there { list_any (same_key op.now.key) keys.now ≡ true }
    requires count { length bodies.old ≡ length keys.now }
    ensures count { length bodies.new ≡ length keys.now }
    ensures fits { IfOk result (λ fits. fits ≡ changes_fit
        (not_done (look (content_of cells.now)) (op.now ∷ []) (revno ∷ []))
        (kept keys.now bodies.old)) }
    ensures runs { IfOk result (λ fits. IsTrue fits → kept keys.now bodies.new ≡ effect
        (not_done (look (content_of cells.now)) (op.now ∷ []) (revno ∷ []))
        (kept keys.now bodies.old)) }
{
    if is_pending(cells, &op.key, revno) {
        run(alloc, keys, bodies, op)
    } else {
        Ok(true)
    }
}

/// Whether a number isn't yet below the epoch of a key's owner.
fn is_pending(cells: &[Named], key: &Key, revno: i64) -> bool
    requires { IsListing cells.now }
    ensures { result ≡
        nat_le (epoch_at (look (content_of cells.now)) key.now) (unsigned_abs revno) }
{
    number_at(cells, key).unsigned_abs() <= revno.unsigned_abs()
}
