//! The bodies of documents while operations run, each at the place of its key among keys in order.
ghost use Rattle.std.specs.Prelude.{◌≡◌, ◌<◌, ◌++◌, true, length, map, IsTrue, IfOk, OnOk, Some};
ghost use Rattle.std.specs.Option.{option_copied};
ghost use Rattle.std.specs.FinMap.{get};
ghost use Rattle.std.specs.List.{list_any};
ghost use Rattle.txn_audit.specs.Bodies.{added, kept, held_body, after_change, op_keys, keys_under, keys_in, applying_ops};
ghost use Rattle.txn_audit.specs.Became.{after, fits, put_at};
ghost use Rattle.listed_cells.specs.Listing.{IsListing, content_of};
ghost use Rattle.txn_key.specs.Documents.{IsPast};
ghost use Rattle.txn_key.specs.KeySets.{distinct};
ghost use Rattle.txn_key.specs.Keys.{same_key};
ghost use Rattle.txn_key.specs.Places.{keys_rise};
ghost use Rattle.txn_record.specs.Effects.{effect_of, change_fits};
ghost use Rattle.txn_record.specs.declared.op.Change.TheVariants as change_of;
ghost use Rattle.txn_record.specs.declared.state.State.TheVariants as state;
ghost use Rattle.store_trait.specs.Names.{same_state};

use doc_apply::apply;
use doc_update::Update;
use doc_value::{OutOfMemory, Value};
use listed_cells::body_at;
use sqlite_items::Items;
use std::alloc::Global;
use store_trait::{Cell, Name, Named};
use txn_key::{Doc, Docs, Key, distinct_keys, documents_rise, place_of};
use txn_record::{Change, Op, Record, State};

/// The keys of all documents and of what applying records do, each once, in key order.
pub(crate) fn keys_in(alloc: Global, cells: &[Named]) -> Result<Items<Key>, OutOfMemory>
    ensures all { IfOk result (λ keys. keys ≡ distinct (keys_in cells.now)) }
    ensures rise { IfOk result (λ keys. keys_rise keys ≡ true) }
{
    distinct_keys(alloc, each_key(alloc, cells)?)
}

/// The same keys as the cells list them.
fn each_key<'a>(alloc: Global, cells: &'a [Named]) -> Result<Vec<&'a Key>, OutOfMemory>
    ensures { IfOk result (λ keys. map (λ key. key.now) keys.items ≡ keys_in cells.now) }
{
    let mut keys = Vec::new(alloc);
    for named in cells {
        add_keys(&mut keys, named)?;
    }
    Ok(keys)
}

/// Adds the keys of one cell.
fn add_keys<'a>(keys: &mut Vec<&'a Key>, named: &'a Named) -> Result<(), OutOfMemory>
    ensures { OnOk result (map (λ key. key.now) keys.new.items ≡
        map (λ key. key.now) keys.old.items ++ keys_under named.now.name named.now.cell) }
{
    match &named.name {
        Name::Doc(key) => keys.push(key)?,
        _ => add_op_keys(keys, operations(&named.cell))?,
    }
    Ok(())
}

/// Adds the key of each operation.
fn add_op_keys<'a>(keys: &mut Vec<&'a Key>, ops: &'a [Op]) -> Result<(), OutOfMemory>
    ensures { OnOk result (map (λ key. key.now) keys.new.items ≡
        map (λ key. key.now) keys.old.items ++ op_keys ops.now) }
{
    for op in ops {
        keys.push(&op.key)?;
    }
    Ok(())
}

/// The operations of a record that is applying.
fn operations(cell: &Cell) -> &[Op]
    ensures { result.now ≡ applying_ops cell.now }
{
    match cell {
        Cell::Record(rec) if is_applying(rec) => rec.ops.as_slice(),
        _ => &[],
    }
}

/// Whether a record is applying.
pub(crate) fn is_applying(rec: &Record) -> bool
    ensures { result ≡ same_state state.Applying rec.now.state }
{
    matches!(rec.state, State::Applying)
}

/// The bodies under keys, as the owners of the keys hold them.
pub(crate) fn bodies_at(
    alloc: Global,
    cells: &[Named],
    keys: &[Key],
) -> Result<Items<Option<Value>>, OutOfMemory>
    requires { IsListing cells.now }
    ensures { IfOk result (λ bodies. bodies ≡ map (held_body (content_of cells.now)) keys.now) }
{
    let mut bodies = Items::new(alloc);
    for key in keys {
        bodies.push(copy_body(alloc, body_at(cells, key))?)?;
    }
    Ok(bodies)
}

/// A copy of a body, where there is one.
fn copy_body(alloc: Global, body: Option<&Value>) -> Result<Option<Value>, OutOfMemory>
    ensures { IfOk result (λ copy. copy ≡ option_copied body.entry) }
{
    match body {
        Some(body) => Ok(Some(body.copy(alloc)?)),
        None => Ok(None),
    }
}

/// What becomes of a body by a change.
#[derive(Drop)]
enum Became {
    /// The change doesn't fit.
    Unfit,
    Same,
    Body(Option<Value>),
}

/// Runs one operation on the bodies. It is false, and they stay, where its change doesn't fit.
pub(crate) fn run(
    alloc: Global,
    keys: &[Key],
    bodies: &mut Items<Option<Value>>,
    op: &Op,
) -> Result<bool, OutOfMemory>
    requires rise { keys_rise keys.now ≡ true }
    requires there { list_any (same_key op.now.key) keys.now ≡ true }
    requires count { length bodies.old ≡ length keys.now }
    ensures count { length bodies.new ≡ length keys.now }
    ensures fits { IfOk result (λ fits. fits ≡
        change_fits op.now.change (get (kept keys.now bodies.old) op.now.key)) }
    ensures runs { IfOk result (λ fits. IsTrue fits →
        kept keys.now bodies.new ≡ effect_of op.now (kept keys.now bodies.old)) }
{
    let place = place_of(keys, &op.key);
    let became = changed(alloc, &op.change, &bodies.as_slice()[place])?;
    Ok(put(bodies, place, became))
}

/// What a change makes of a body.
fn changed(alloc: Global, change: &Change, found: &Option<Value>) -> Result<Became, OutOfMemory>
    ensures { IfOk result (λ became. after became found.now ≡ after_change change.now found.now) }
{
    match (change, found) {
        (Change::Insert(body), None) => Ok(Became::Body(Some(body.copy(alloc)?))),
        (Change::Update(update), Some(body)) => updated(alloc, update, body),
        (Change::Remove, Some(_)) => Ok(Became::Body(None)),
        _ => Ok(Became::Same),
    }
}

/// What an update makes of a body.
fn updated(alloc: Global, update: &Update, body: &Value) -> Result<Became, OutOfMemory>
    ensures { IfOk result (λ became. after became (Some body.now) ≡
        after_change (change_of.Update update.now) (Some body.now)) }
{
    match apply(alloc, update, body)? {
        Some(body) => Ok(Became::Body(Some(body))),
        None => Ok(Became::Unfit),
    }
}

/// Puts what a body became at its place. It is false where the change doesn't fit.
fn put(bodies: &mut Items<Option<Value>>, place: usize, became: Became) -> bool
    requires { place < length bodies.old }
    ensures fits { result ≡ fits became }
    ensures bodies { bodies.new ≡ put_at bodies.old place became }
{
    match became {
        Became::Unfit => false,
        Became::Same => true,
        Became::Body(body) => {
            bodies.set(place, body);
            true
        }
    }
}

/// The documents that the bodies mean.
pub(crate) fn documents(
    alloc: Global,
    keys: &[Key],
    bodies: &[Option<Value>],
) -> Result<Docs, OutOfMemory>
    requires rise { keys_rise keys.now ≡ true }
    requires count { length bodies.now ≡ length keys.now }
    ensures { IfOk result (λ docs. docs ≡ kept keys.now bodies.now) }
{
    documents_rise();
    let mut docs = Docs::new(alloc);
    for place in 0..keys.len() {
        add_document(alloc, &mut docs, &keys[place], &bodies[place])?;
    }
    Ok(docs)
}

/// Adds the document of a key, where it has a body.
fn add_document(
    alloc: Global,
    docs: &mut Docs,
    key: &Key,
    body: &Option<Value>,
) -> Result<(), OutOfMemory>
    requires { IsPast key.now docs.old }
    ensures { OnOk result (docs.new ≡ added key.now body.now docs.old) }
{
    if let Some(body) = body {
        docs.push(Doc {
            key: key.copy(alloc)?,
            body: body.copy(alloc)?,
        })?;
    }
    Ok(())
}
