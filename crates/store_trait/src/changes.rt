//! What an edit makes of its cell, where its guard holds.
ghost use Rattle.std.specs.Prelude.{◌≡◌, Option, Some, IfOk, IsTrue};
ghost use Rattle.std.specs.Option.{option_copied};
ghost use Rattle.store_trait.specs.Edits.{with_token, without_token, moved, may_leave, hit, hit_insert_record, hit_move, hit_add_token, hit_doc_update, hit_update, hit_mark_remove, hit_mark_insert, hit_put_doc_newer, hit_put_stash_newer, hit_drop_doc, hit_pull, hit_draw_nonce, hit_place, hit_erase, hit_replace};
ghost use Rattle.store_trait.specs.Changes.{as_hit};
ghost use Rattle.store_trait.specs.Names.{may_hold};
ghost use Rattle.store_trait.specs.declared.edit.Edit.{Edit as EditValue};
ghost use Rattle.store_trait.specs.declared.name.Name.{Name as NameValue};
ghost use Rattle.store_trait.specs.declared.cell.Cell.{Cell as CellValue};
ghost use Rattle.store_trait.specs.declared.cell.Cell.TheVariants as cell;

use crate::cell::{Cell, DocCell, StashCell, Tokens};
use crate::edit::Edit;
use crate::equality::{same_id, same_token};
use crate::guards::{
    has_nonce, has_token, is_at, is_erased, is_free_doc, is_free_stash, is_in, is_newer_doc,
    is_newer_stash, is_replaced, may_stand, takes_update,
};
use crate::name::Name;
use doc_apply::apply;
use doc_update::Update;
use doc_value::{OutOfMemory, Value};
use sqlite_items::Items;
use std::alloc::Global;
use txn_key::Token;
use txn_record::{Record, State};

/// What an edit came to: nothing where it missed, a cell under its name, or none there.
#[derive(Drop)]
pub enum Changed {
    Missed,
    Put(Cell),
    Gone,
}

/// What an edit makes of the cell that stands under a name, if one does.
pub fn change(
    alloc: Global,
    name: &Name,
    edit: &Edit,
    cell: Option<&Cell>,
) -> Result<Changed, OutOfMemory>
    ensures { IfOk result
        (λ changed. as_hit changed ≡ hit edit.now name.now (option_copied cell.entry)) }
{
    match edit {
        Edit::InsertRecord { rec } => insert_record(alloc, rec, name, cell),
        Edit::Move {
            from,
            to,
            nonce,
            revnos,
        } => move_record(alloc, *from, *to, *nonce, revnos, name, cell),
        Edit::AddToken { token } => add_token(alloc, token, name, cell),
        Edit::Update {
            revno,
            token,
            update,
        } => update_doc(alloc, *revno, token, update, name, cell),
        Edit::MarkRemove { revno, token } => mark_remove(alloc, *revno, token, name, cell),
        Edit::MarkInsert { revno, token } => mark_insert(alloc, *revno, token, name, cell),
        Edit::PutDocNewer { revno, body, queue } => {
            put_doc_newer(alloc, *revno, body, queue.as_slice(), name, cell)
        }
        Edit::PutStashNewer { revno, queue } => {
            put_stash_newer(alloc, *revno, queue.as_slice(), name, cell)
        }
        Edit::DropDoc { revno } => Ok(drop_doc(*revno, name, cell)),
        Edit::Pull { revno, token } => pull(alloc, *revno, token, name, cell),
        Edit::DrawNonce => Ok(draw_nonce(name, cell)),
        Edit::Place { cell: placed } => place(alloc, placed, name, cell),
        Edit::Erase { cell: erased } => Ok(erase(erased, name, cell)),
        Edit::Replace { old, new } => replace(alloc, old, new, name, cell),
    }
}

fn insert_record(
    alloc: Global,
    rec: &Record,
    name: &Name,
    cell: Option<&Cell>,
) -> Result<Changed, OutOfMemory>
    ensures { IfOk result (λ changed. as_hit changed ≡
        hit_insert_record rec.now name.now (option_copied cell.entry)) }
{
    match (name, cell) {
        (Name::Record(id), None) if same_id(id, &rec.id) => {
            Ok(Changed::Put(Cell::Record(rec.copy(alloc)?)))
        }
        _ => Ok(Changed::Missed),
    }
}

fn move_record(
    alloc: Global,
    from: State,
    to: State,
    nonce: Option<u32>,
    revnos: &Option<Items<i64>>,
    name: &Name,
    cell: Option<&Cell>,
) -> Result<Changed, OutOfMemory>
    ensures { IfOk result (λ changed. as_hit changed ≡
        hit_move from to nonce revnos.now name.now (option_copied cell.entry)) }
{
    match (name, cell) {
        (Name::Record(_), Some(Cell::Record(rec))) if is_in(rec, from) => {
            Ok(Changed::Put(Cell::Record(moved(alloc, to, nonce, revnos, rec)?)))
        }
        _ => Ok(Changed::Missed),
    }
}

fn moved(
    alloc: Global,
    to: State,
    nonce: Option<u32>,
    revnos: &Option<Items<i64>>,
    rec: &Record,
) -> Result<Record, OutOfMemory>
    ensures { IfOk result (λ after. after ≡ moved to nonce revnos.now rec.now) }
{
    let mut after = rec.copy(alloc)?;
    after.state = to;
    after.nonce = nonce.or(rec.nonce);
    if let Some(list) = revnos {
        after.revnos = Some(Items::from_slice(alloc, list.as_slice())?);
    }
    Ok(after)
}

fn add_token(
    alloc: Global,
    token: &Token,
    name: &Name,
    cell: Option<&Cell>,
) -> Result<Changed, OutOfMemory>
    ensures { IfOk result (λ changed. as_hit changed ≡
        hit_add_token token.now name.now (option_copied cell.entry)) }
{
    match (name, cell) {
        (Name::Doc(_), Some(Cell::Doc(doc))) if doc.remove.is_none() => {
            let queue = with_token(alloc, token, doc.queue.as_slice())?;
            doc_with_queue(alloc, doc, queue)
        }
        (Name::Stash(_), None) => {
            let mut queue = Items::new(alloc);
            queue.push(*token)?;
            Ok(stash_at(-1, queue))
        }
        (Name::Stash(_), Some(Cell::Stash(stash))) if stash.insert.is_none() => {
            let queue = with_token(alloc, token, stash.queue.as_slice())?;
            Ok(stash_with_queue(stash, queue))
        }
        _ => Ok(Changed::Missed),
    }
}

fn with_token(alloc: Global, token: &Token, queue: &[Token]) -> Result<Tokens, OutOfMemory>
    ensures { IfOk result (λ longer. longer ≡ with_token token.now queue.now) }
{
    let mut longer = Items::from_slice(alloc, queue)?;
    if !has_token(queue, token) {
        longer.push(*token)?;
    }
    Ok(longer)
}

fn pull(
    alloc: Global,
    revno: i64,
    token: &Token,
    name: &Name,
    cell: Option<&Cell>,
) -> Result<Changed, OutOfMemory>
    ensures { IfOk result (λ changed. as_hit changed ≡
        hit_pull revno token.now name.now (option_copied cell.entry)) }
{
    match (name, cell) {
        (Name::Doc(_), Some(Cell::Doc(doc))) if is_free_doc(doc, revno, token) => {
            let left = without_token(alloc, token, doc.queue.as_slice())?;
            doc_with_queue(alloc, doc, left)
        }
        (Name::Stash(_), Some(Cell::Stash(stash))) if is_free_stash(stash, revno, token) => {
            let left = without_token(alloc, token, stash.queue.as_slice())?;
            Ok(stash_with_queue(stash, left))
        }
        _ => Ok(Changed::Missed),
    }
}

fn without_token(alloc: Global, token: &Token, queue: &[Token]) -> Result<Tokens, OutOfMemory>
    ensures { IfOk result (λ shorter. shorter ≡ without_token token.now queue.now) }
{
    let mut shorter = Items::new(alloc);
    for other in queue {
        if !same_token(token, other) {
            shorter.push(*other)?;
        }
    }
    Ok(shorter)
}

/// A document with another queue.
fn doc_with_queue(alloc: Global, doc: &DocCell, queue: Tokens) -> Result<Changed, OutOfMemory>
    ensures { IfOk result
        (λ changed. changed ≡ Changed.Put (cell.Doc (record doc.now { queue = queue }))) }
{
    let body = doc.body.copy(alloc)?;
    Ok(Changed::Put(Cell::Doc(DocCell {
        body,
        revno: doc.revno,
        queue,
        remove: doc.remove,
    })))
}

/// A stash entry with another queue.
fn stash_with_queue(stash: &StashCell, queue: Tokens) -> Changed
    ensures { result ≡ Changed.Put (cell.Stash (record stash.now { queue = queue })) }
{
    Changed::Put(Cell::Stash(StashCell {
        revno: stash.revno,
        queue,
        insert: stash.insert,
    }))
}

/// An unmarked stash entry.
fn stash_at(revno: i64, queue: Tokens) -> Changed
    ensures { result ≡
        Changed.Put (cell.Stash (record { revno = revno; queue = queue; insert = None })) }
{
    Changed::Put(Cell::Stash(StashCell {
        revno,
        queue,
        insert: None,
    }))
}

fn update_doc(
    alloc: Global,
    revno: i64,
    token: &Token,
    update: &Update,
    name: &Name,
    cell: Option<&Cell>,
) -> Result<Changed, OutOfMemory>
    ensures { IfOk result (λ changed. as_hit changed ≡
        hit_update revno token.now update.now name.now (option_copied cell.entry)) }
{
    match (name, cell) {
        (Name::Doc(_), Some(Cell::Doc(doc))) => updated_doc(alloc, revno, token, update, doc),
        _ => Ok(Changed::Missed),
    }
}

fn updated_doc(
    alloc: Global,
    revno: i64,
    token: &Token,
    update: &Update,
    doc: &DocCell,
) -> Result<Changed, OutOfMemory>
    ensures { IfOk result
        (λ changed. as_hit changed ≡ hit_doc_update revno token.now update.now doc.now) }
{
    if !takes_update(doc, revno, token) {
        return Ok(Changed::Missed);
    }
    match apply(alloc, update, &doc.body)? {
        None => Ok(Changed::Missed),
        Some(body) => {
            let queue = Items::from_slice(alloc, doc.queue.as_slice())?;
            Ok(Changed::Put(Cell::Doc(DocCell {
                body,
                revno: doc.revno + 1,
                queue,
                remove: doc.remove,
            })))
        }
    }
}

fn mark_remove(
    alloc: Global,
    revno: i64,
    token: &Token,
    name: &Name,
    cell: Option<&Cell>,
) -> Result<Changed, OutOfMemory>
    ensures { IfOk result (λ changed. as_hit changed ≡
        hit_mark_remove revno token.now name.now (option_copied cell.entry)) }
{
    match (name, cell) {
        (Name::Doc(_), Some(Cell::Doc(doc))) if is_free_doc(doc, revno, token) => {
            let mut after = doc.copy(alloc)?;
            after.remove = Some(*token);
            Ok(Changed::Put(Cell::Doc(after)))
        }
        _ => Ok(Changed::Missed),
    }
}

fn mark_insert(
    alloc: Global,
    revno: i64,
    token: &Token,
    name: &Name,
    cell: Option<&Cell>,
) -> Result<Changed, OutOfMemory>
    ensures { IfOk result (λ changed. as_hit changed ≡
        hit_mark_insert revno token.now name.now (option_copied cell.entry)) }
{
    match (name, cell) {
        (Name::Stash(_), Some(Cell::Stash(stash))) if is_free_stash(stash, revno, token) => {
            let mut after = stash.copy(alloc)?;
            after.insert = Some(*token);
            Ok(Changed::Put(Cell::Stash(after)))
        }
        _ => Ok(Changed::Missed),
    }
}

fn put_doc_newer(
    alloc: Global,
    revno: i64,
    body: &Value,
    queue: &[Token],
    name: &Name,
    cell: Option<&Cell>,
) -> Result<Changed, OutOfMemory>
    ensures { IfOk result (λ changed. as_hit changed ≡
        hit_put_doc_newer revno body.now queue.now name.now (option_copied cell.entry)) }
{
    if !is_newer_doc(revno, name, cell) {
        return Ok(Changed::Missed);
    }
    let body = body.copy(alloc)?;
    let queue = Items::from_slice(alloc, queue)?;
    Ok(Changed::Put(Cell::Doc(DocCell {
        body,
        revno,
        queue,
        remove: None,
    })))
}

fn put_stash_newer(
    alloc: Global,
    revno: i64,
    queue: &[Token],
    name: &Name,
    cell: Option<&Cell>,
) -> Result<Changed, OutOfMemory>
    ensures { IfOk result (λ changed. as_hit changed ≡
        hit_put_stash_newer revno queue.now name.now (option_copied cell.entry)) }
{
    if !is_newer_stash(revno, name, cell) {
        return Ok(Changed::Missed);
    }
    let queue = Items::from_slice(alloc, queue)?;
    Ok(stash_at(revno, queue))
}

fn drop_doc(revno: i64, name: &Name, cell: Option<&Cell>) -> Changed
    ensures { as_hit result ≡ hit_drop_doc revno name.now (option_copied cell.entry) }
{
    match (name, cell) {
        (Name::Doc(_), Some(Cell::Doc(doc))) if is_at(doc, revno) => Changed::Gone,
        _ => Changed::Missed,
    }
}

fn draw_nonce(name: &Name, cell: Option<&Cell>) -> Changed
    ensures { as_hit result ≡ hit_draw_nonce name.now (option_copied cell.entry) }
{
    match (name, cell) {
        (Name::Nonce, None) => Changed::Put(Cell::Nonce(1)),
        (Name::Nonce, Some(Cell::Nonce(counter))) if has_nonce(*counter) => {
            Changed::Put(Cell::Nonce(*counter + 1))
        }
        _ => Changed::Missed,
    }
}

fn place(
    alloc: Global,
    placed: &Cell,
    name: &Name,
    cell: Option<&Cell>,
) -> Result<Changed, OutOfMemory>
    ensures { IfOk result (λ changed. as_hit changed ≡
        hit_place placed.now name.now (option_copied cell.entry)) }
{
    match cell {
        None if may_stand(name, placed) => Ok(Changed::Put(placed.copy(alloc)?)),
        _ => Ok(Changed::Missed),
    }
}

fn erase(erased: &Cell, name: &Name, cell: Option<&Cell>) -> Changed
    ensures { as_hit result ≡ hit_erase erased.now name.now (option_copied cell.entry) }
{
    match cell {
        Some(held) if is_erased(name, erased, held) => Changed::Gone,
        _ => Changed::Missed,
    }
}

fn replace(
    alloc: Global,
    old: &Cell,
    new: &Cell,
    name: &Name,
    cell: Option<&Cell>,
) -> Result<Changed, OutOfMemory>
    ensures { IfOk result (λ changed. as_hit changed ≡
        hit_replace old.now new.now name.now (option_copied cell.entry)) }
{
    match cell {
        Some(held) if is_replaced(name, old, new, held) => Ok(Changed::Put(new.copy(alloc)?)),
        _ => Ok(Changed::Missed),
    }
}

/// A law: what an edit leaves under a name may stand there, if what it found there might.
pub fn edits_keep_kinds()
    ensures { (edit : EditValue) (name : NameValue) (cell : Option CellValue)
        → IsTrue (may_hold name cell) → IsTrue (may_leave name (hit edit name cell)) }
{}
