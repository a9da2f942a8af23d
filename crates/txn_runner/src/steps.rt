//! The steps by which a transaction is settled, one stage after the other. Each makes one call on the
//! store at most, and answers what is left to do after it.

ghost use Rattle.std.specs.Prelude.{◌≡◌, ◌<◌, ℕ, List, [], ◌∷◌, true, false, None, IsTrue, IfOk, IfErr, OnOk, OnErr, is_some, ◌++◌};
ghost use Rattle.std.specs.FinMap.{get};
ghost use Rattle.store_trait.specs.Edits.{hit, edited};
ghost use Rattle.store_trait.specs.Stores.{OneCall};
ghost use Rattle.txn_record.specs.declared.entry.Entry.{Entry as LogEntry};
ghost use Rattle.txn_record.specs.Revnos.{has_effect};
ghost use Rattle.store_laws.specs.View.{record_at};
ghost use Rattle.txn_runner.specs.Calm.{IsCalm};
ghost use Rattle.txn_runner.specs.Causes.{AnsweredEdit, EndIsShown, HasCause, IsMissed, IsOfStore, LastShows, ShowsRepeated, drawn_of};
ghost use Rattle.txn_runner.specs.Settling.{IsWorth, WorksOn, ComesToStage, IsSubmitted, deciding, preparing_record};
ghost use Rattle.txn_runner.specs.Built.{is_built, is_built_change, is_update, updates};
ghost use Rattle.txn_runner.specs.Numbers.{Uses};
ghost use Rattle.txn_runner.specs.Stages.{steps_left, suits, UsesUpTo};

use crate::assertions::tests_hold;
use crate::built::{only, update_of};
use crate::calls::{edit, make_decision, may_hit, must_hit, read_document};
use crate::error::StepError;
use crate::stage::Stage;
use crate::waiting::Waiting;
use doc_value::OutOfMemory;
use sqlite_items::Items;
use std::alloc::Global;
use store_trait::{Edit, Name, Store, counter_in};
use txn_key::{Token, TxnId};
use txn_record::{Change, Entry, Op, Outcome, Record, State, copy_info, has_room};

/// The counter of nonces at which none is left.
const LAST_COUNTER: u32 = u32::MAX;

/// Puts the record of a transaction into the store, preparing; answers whether there was none.
pub fn submit<S: Store>(alloc: Global, store: &mut S, txn: &Waiting) -> Result<bool, StepError>
    requires calm { IsTrue S.tells → IsCalm (S.content store.old) }
    requires fresh { IsTrue S.tells → record_at (S.content store.old) txn.now.id ≡ None }
    ensures works { IsTrue S.tells → (order : List LogEntry) →
        WorksOn S.Store store.old store.new order order txn.now.id }
    ensures calm { IsTrue S.tells → IsCalm (S.content store.new) }
    ensures stands { IsTrue S.tells → IfOk result
        (λ hits. (hits ≡ true) × IsSubmitted (S.content store.new) txn.now) }
    ensures stays { IsTrue S.tells → OnErr result (record_at (S.content store.new) txn.now.id ≡ record_at (S.content store.old) txn.now.id) }
    ensures uses { IsTrue S.tells → Uses (S.content store.old) (S.content store.new) 0 0 0 0 }
    ensures kind { IfErr result IsOfStore }
    ensures answered { IfOk result (λ hits. AnsweredEdit S.Store store.old (Name.Record txn.now.id) (Edit.InsertRecord (preparing_record txn.now)) hits store.new) }
    ensures repeated { IfOk result (λ hits. hits ≡ false →
        LastShows S.Store store.old store.new (ShowsRepeated txn.now.id)) }
    ensures call { OneCall S.Store store.old store.new result StepError.StoreFault }
{
    let rec = preparing(alloc, txn)?;
    let change = Edit::InsertRecord { rec };
    let hits = may_hit(alloc, store, &Name::Record(txn.id), &change);
    drop(change);
    hits
}

/// The record of a transaction as it is submitted, with what is noted with it.
fn preparing(alloc: Global, txn: &Waiting) -> Result<Record, OutOfMemory>
    ensures { IfOk result (λ rec. rec ≡ preparing_record txn.now) }
{
    let info = copy_info(alloc, &txn.info)?;
    let ops = txn.ops.copy(alloc)?;
    Ok(Record {
        id: txn.id,
        state: State::Preparing,
        info,
        ops,
        nonce: None,
        revnos: None,
    })
}

/// Draws the transaction's nonce.
pub fn draw<S: Store>(alloc: Global, store: &mut S, txn: &Waiting) -> Result<Stage, StepError>
    requires worth { IsTrue S.tells → IsWorth (S.content store.old) txn.now Stage.Draw }
    ensures works { IsTrue S.tells → (order : List LogEntry) →
        WorksOn S.Store store.old store.new order order txn.now.id }
    ensures comes { IsTrue S.tells → ComesToStage (S.content store.new) txn.now result }
    ensures stays { IsTrue S.tells → OnErr result (record_at (S.content store.new) txn.now.id ≡ record_at (S.content store.old) txn.now.id) }
    ensures nearer { IfOk result (λ next. steps_left next ≡ 6) }
    ensures uses { IsTrue S.tells → UsesUpTo (S.content store.old) (S.content store.new) Stage.Draw result }
    ensures suits { IfOk result (λ next. suits txn.now.ops next ≡ true) }
    ensures shown { IfOk result (λ next. EndIsShown S.Store store.old store.new txn.now.id next) }
    ensures cause { IfErr result (HasCause S.Store store.old store.new txn.now.id) }
    ensures call { OneCall S.Store store.old store.new result StepError.StoreFault }
{
    let drawn = edit(alloc, store, &Name::Nonce, &Edit::DrawNonce)?;
    let nonce = read_drawn(txn.id, drawn.hit, counter_in(drawn.cell))?;
    Ok(Stage::Queue { nonce })
}

/// The nonce that was drawn, by the counter after the call.
fn read_drawn(id: TxnId, hit: bool, counter: Option<u32>) -> Result<u32, StepError>
    ensures { result ≡ drawn_of id hit counter }
{
    match counter {
        Some(counter) if hit && counter > 0 => Ok(counter - 1),
        Some(counter) if !hit && counter >= LAST_COUNTER => Err(StepError::NoncesSpent),
        _ => Err(StepError::Clash {
            id,
            at: Name::Nonce,
        }),
    }
}

/// Puts the transaction's token at the end of its document's queue.
pub fn queue<S: Store>(
    alloc: Global,
    store: &mut S,
    txn: &Waiting,
    nonce: u32,
) -> Result<Stage, StepError>
    requires worth { IsTrue S.tells → IsWorth (S.content store.old) txn.now (Stage.Queue nonce) }
    requires built { is_built txn.now.ops ≡ true }
    ensures works { IsTrue S.tells → (order : List LogEntry) →
        WorksOn S.Store store.old store.new order order txn.now.id }
    ensures comes { IsTrue S.tells → ComesToStage (S.content store.new) txn.now result }
    ensures stays { IsTrue S.tells → OnErr result (record_at (S.content store.new) txn.now.id ≡ record_at (S.content store.old) txn.now.id) }
    ensures drawn { IfOk result (λ next. next ≡ Stage.Prepare nonce) }
    ensures nearer { IfOk result (λ next. steps_left next ≡ 5) }
    ensures uses { IsTrue S.tells → UsesUpTo (S.content store.old) (S.content store.new) (Stage.Queue nonce) result }
    ensures suits { IfOk result (λ next. suits txn.now.ops next ≡ true) }
    ensures shown { IfOk result (λ next. EndIsShown S.Store store.old store.new txn.now.id next) }
    ensures cause { IfErr result (HasCause S.Store store.old store.new txn.now.id) }
    ensures call { OneCall S.Store store.old store.new result StepError.StoreFault }
{
    let id = txn.id;
    let name = Name::Doc(only(&txn.ops).key.copy(alloc)?);
    let token = Token { id, nonce };
    must_hit(alloc, store, id, name, Edit::AddToken { token })?;
    Ok(Stage::Prepare { nonce })
}

/// Moves the transaction's record to prepared.
pub fn prepare<S: Store>(
    alloc: Global,
    store: &mut S,
    txn: &Waiting,
    nonce: u32,
) -> Result<Stage, StepError>
    requires worth { IsTrue S.tells → IsWorth (S.content store.old) txn.now (Stage.Prepare nonce) }
    ensures works { IsTrue S.tells → (order : List LogEntry) →
        WorksOn S.Store store.old store.new order order txn.now.id }
    ensures comes { IsTrue S.tells → ComesToStage (S.content store.new) txn.now result }
    ensures stays { IsTrue S.tells → OnErr result (record_at (S.content store.new) txn.now.id ≡ record_at (S.content store.old) txn.now.id) }
    ensures nearer { IfOk result (λ next. steps_left next ≡ 4) }
    ensures uses { IsTrue S.tells → UsesUpTo (S.content store.old) (S.content store.new) (Stage.Prepare nonce) result }
    ensures suits { IfOk result (λ next. suits txn.now.ops next ≡ true) }
    ensures shown { IfOk result (λ next. EndIsShown S.Store store.old store.new txn.now.id next) }
    ensures cause { IfErr result (HasCause S.Store store.old store.new txn.now.id) }
    ensures call { OneCall S.Store store.old store.new result StepError.StoreFault }
{
    let change = Edit::Move {
        from: State::Preparing,
        to: State::Prepared,
        nonce: Some(nonce),
        revnos: None,
    };
    must_hit(alloc, store, txn.id, Name::Record(txn.id), change)?;
    Ok(Stage::Look { nonce })
}

/// Reads the transaction's document: its number, and whether the transaction's tests hold there.
pub fn look<S: Store>(
    alloc: Global,
    store: &mut S,
    txn: &Waiting,
    nonce: u32,
) -> Result<Stage, StepError>
    requires worth { IsTrue S.tells → IsWorth (S.content store.old) txn.now (Stage.Look nonce) }
    requires built { is_built txn.now.ops ≡ true }
    ensures works { IsTrue S.tells → (order : List LogEntry) →
        WorksOn S.Store store.old store.new order order txn.now.id }
    ensures comes { IsTrue S.tells → ComesToStage (S.content store.new) txn.now result }
    ensures stays { IsTrue S.tells → OnErr result (record_at (S.content store.new) txn.now.id ≡ record_at (S.content store.old) txn.now.id) }
    ensures nearer { IfOk result (λ next. steps_left next ≡ 3) }
    ensures uses { IsTrue S.tells → UsesUpTo (S.content store.old) (S.content store.new) (Stage.Look nonce) result }
    ensures suits { IfOk result (λ next. suits txn.now.ops next ≡ true) }
    ensures shown { IfOk result (λ next. EndIsShown S.Store store.old store.new txn.now.id next) }
    ensures cause { IfErr result (HasCause S.Store store.old store.new txn.now.id) }
    ensures call { OneCall S.Store store.old store.new result StepError.StoreFault }
{
    let op = only(&txn.ops);
    let key = op.key.copy(alloc)?;
    let doc = read_document(alloc, store, txn.id, &op.key)?;
    if has_room(doc.revno) {
        Ok(Stage::Decide {
            nonce,
            revno: doc.revno,
            holds: tests_hold(op, &doc.body),
        })
    } else {
        Err(StepError::RevnoSpent { key })
    }
}

/// Decides the transaction: from this call on it has applied, or has aborted, as a whole. The
/// decision is added to the order.
pub fn decide<S: Store>(
    alloc: Global,
    store: &mut S,
    order: &mut Vec<Entry>,
    txn: &Waiting,
    nonce: u32,
    revno: i64,
    holds: bool,
) -> Result<Stage, StepError>
    requires worth { IsTrue S.tells → IsWorth (S.content store.old) txn.now (Stage.Decide nonce revno holds) }
    requires built { is_built txn.now.ops ≡ true }
    ensures works { IsTrue S.tells →
        WorksOn S.Store store.old store.new order.old.items order.new.items txn.now.id }
    ensures comes { IsTrue S.tells → ComesToStage (S.content store.new) txn.now result }
    ensures stays { IsTrue S.tells → OnErr result (record_at (S.content store.new) txn.now.id ≡ record_at (S.content store.old) txn.now.id) }
    ensures nearer { IfOk result (λ next. steps_left next < 3) }
    ensures uses { IsTrue S.tells → UsesUpTo (S.content store.old) (S.content store.new) (Stage.Decide nonce revno holds) result }
    ensures suits { IfOk result (λ next. suits txn.now.ops next ≡ true) }
    ensures shown { IfOk result (λ next. EndIsShown S.Store store.old store.new txn.now.id next) }
    ensures cause { IfErr result (HasCause S.Store store.old store.new txn.now.id) }
    ensures call { OneCall S.Store store.old store.new result StepError.StoreFault }
{
    if holds {
        decide_to_apply(alloc, store, order, txn, nonce, revno)
    } else {
        decide_to_abort(alloc, store, order, txn, nonce, revno)
    }
}

/// Its tests hold: its record starts to apply, with the number that its operation found.
fn decide_to_apply<S: Store>(
    alloc: Global,
    store: &mut S,
    order: &mut Vec<Entry>,
    txn: &Waiting,
    nonce: u32,
    revno: i64,
) -> Result<Stage, StepError>
    requires worth { IsTrue S.tells → IsWorth (S.content store.old) txn.now (Stage.Decide nonce revno true) }
    requires built { is_built txn.now.ops ≡ true }
    ensures works { IsTrue S.tells →
        WorksOn S.Store store.old store.new order.old.items order.new.items txn.now.id }
    ensures comes { IsTrue S.tells → ComesToStage (S.content store.new) txn.now result }
    ensures stays { IsTrue S.tells → OnErr result (record_at (S.content store.new) txn.now.id ≡ record_at (S.content store.old) txn.now.id) }
    ensures nearer { IfOk result (λ next. steps_left next < 3) }
    ensures uses { IsTrue S.tells → UsesUpTo (S.content store.old) (S.content store.new) (Stage.Decide nonce revno true) result }
    ensures suits { IfOk result (λ next. suits txn.now.ops next ≡ true) }
    ensures shown { IfOk result (λ next. EndIsShown S.Store store.old store.new txn.now.id next) }
    ensures cause { IfErr result (HasCause S.Store store.old store.new txn.now.id) }
    ensures call { OneCall S.Store store.old store.new result StepError.StoreFault }
{
    record_decision(alloc, store, order, txn, Outcome::Applied, &[revno])?;
    Ok(after_decision(only(&txn.ops), nonce, revno))
}

/// What is left to do for a transaction that applies: its update, where its operation makes one.
fn after_decision(op: &Op, nonce: u32, revno: i64) -> Stage
    requires built { is_built_change op.now.change ≡ true }
    ensures goes_on { 0 < steps_left result }
    ensures nearer { steps_left result < 3 }
    ensures idle { has_effect op.now.change revno ≡ false → result ≡ Stage.Finish }
    ensures changes { has_effect op.now.change revno ≡ true → result ≡ Stage.Update nonce revno }
    ensures suits { suits (op.now ∷ []) result ≡ true }
{
    match &op.change {
        Change::Update(_) if revno >= 0 => Stage::Update { nonce, revno },
        _ => Stage::Finish,
    }
}

/// A test fails: its record is to be aborted.
fn decide_to_abort<S: Store>(
    alloc: Global,
    store: &mut S,
    order: &mut Vec<Entry>,
    txn: &Waiting,
    nonce: u32,
    revno: i64,
) -> Result<Stage, StepError>
    requires worth { IsTrue S.tells → IsWorth (S.content store.old) txn.now (Stage.Decide nonce revno false) }
    ensures works { IsTrue S.tells →
        WorksOn S.Store store.old store.new order.old.items order.new.items txn.now.id }
    ensures comes { IsTrue S.tells → ComesToStage (S.content store.new) txn.now result }
    ensures stays { IsTrue S.tells → OnErr result (record_at (S.content store.new) txn.now.id ≡ record_at (S.content store.old) txn.now.id) }
    ensures nearer { IfOk result (λ next. steps_left next < 3) }
    ensures uses { IsTrue S.tells → UsesUpTo (S.content store.old) (S.content store.new) (Stage.Decide nonce revno false) result }
    ensures suits { IfOk result (λ next. suits txn.now.ops next ≡ true) }
    ensures shown { IfOk result (λ next. EndIsShown S.Store store.old store.new txn.now.id next) }
    ensures cause { IfErr result (HasCause S.Store store.old store.new txn.now.id) }
    ensures call { OneCall S.Store store.old store.new result StepError.StoreFault }
{
    record_decision(alloc, store, order, txn, Outcome::Aborted, &[])?;
    Ok(Stage::Abort)
}

/// Moves a transaction's record by the call that decides it, and adds the decision to the order. Memory
/// is taken first, so that no decision is missing there.
fn record_decision<S: Store>(
    alloc: Global,
    store: &mut S,
    order: &mut Vec<Entry>,
    txn: &Waiting,
    outcome: Outcome,
    revnos: &[i64],
) -> Result<(), StepError>
    ensures made { IsTrue S.tells → OnOk result (S.content store.new ≡
        edited (S.content store.old) (Name.Record txn.now.id) (deciding outcome revnos.now)) }
    ensures added { OnOk result (order.new.items ≡ order.old.items
        ++ record { id = txn.now.id; ops = txn.now.ops; outcome = outcome; revnos = revnos.now; at = S.calls store.new } ∷ []) }
    ensures kept { OnErr result (order.new.items ≡ order.old.items) }
    ensures left { IsTrue S.tells →
        is_some (hit (deciding outcome revnos.now) (Name.Record txn.now.id)
        (get (S.content store.old) (Name.Record txn.now.id))) ≡ true →
        OnErr result (S.content store.new ≡ S.content store.old) }
    ensures never { IsTrue S.tells →
        is_some (hit (deciding outcome revnos.now) (Name.Record txn.now.id)
        (get (S.content store.old) (Name.Record txn.now.id))) ≡ true →
        IfErr result IsOfStore }
    ensures cause { IfErr result (IsMissed S.Store store.old txn.now.id (Name.Record txn.now.id)
        (deciding outcome revnos.now) store.new) }
    ensures call { OneCall S.Store store.old store.new result StepError.StoreFault }
{
    let mut entry = entry_of(alloc, txn, outcome, revnos)?;
    order.reserve(1)?;
    make_decision(alloc, store, txn.id, outcome, revnos)?;
    entry.at = store.calls();
    match order.push(entry) {
        Ok(()) => Ok(()),
        Err(_) => unreachable!(),
    }
}

/// The entry of a decided transaction, before its place is known.
fn entry_of(
    alloc: Global,
    txn: &Waiting,
    outcome: Outcome,
    revnos: &[i64],
) -> Result<Entry, OutOfMemory>
    ensures { IfOk result (λ entry. entry ≡ record { id = txn.now.id; ops = txn.now.ops; outcome = outcome; revnos = revnos.now; at = 0 }) }
{
    let ops = txn.ops.copy(alloc)?;
    let revnos = Items::from_slice(alloc, revnos)?;
    Ok(Entry {
        id: txn.id,
        ops,
        outcome,
        revnos,
        at: 0,
    })
}

/// Makes the update of the transaction, where it wasn't made yet.
pub fn update<S: Store>(
    alloc: Global,
    store: &mut S,
    txn: &Waiting,
    nonce: u32,
    revno: i64,
) -> Result<Stage, StepError>
    requires worth { IsTrue S.tells → IsWorth (S.content store.old) txn.now (Stage.Update nonce revno) }
    requires built { is_built txn.now.ops ≡ true }
    requires updates { updates txn.now.ops ≡ true }
    ensures works { IsTrue S.tells → (order : List LogEntry) →
        WorksOn S.Store store.old store.new order order txn.now.id }
    ensures comes { IsTrue S.tells → ComesToStage (S.content store.new) txn.now result }
    ensures stays { IsTrue S.tells → OnErr result (record_at (S.content store.new) txn.now.id ≡ record_at (S.content store.old) txn.now.id) }
    ensures nearer { IfOk result (λ next. steps_left next ≡ 1) }
    ensures uses { IsTrue S.tells → UsesUpTo (S.content store.old) (S.content store.new) (Stage.Update nonce revno) result }
    ensures suits { IfOk result (λ next. suits txn.now.ops next ≡ true) }
    ensures shown { IfOk result (λ next. EndIsShown S.Store store.old store.new txn.now.id next) }
    ensures cause { IfErr result (HasCause S.Store store.old store.new txn.now.id) }
    ensures call { OneCall S.Store store.old store.new result StepError.StoreFault }
{
    let op = only(&txn.ops);
    let name = Name::Doc(op.key.copy(alloc)?);
    let update = update_of(op).copy(alloc)?;
    let token = Token { id: txn.id, nonce };
    let change = Edit::Update {
        revno,
        token,
        update,
    };
    let hits = may_hit(alloc, store, &name, &change);
    drop(change);
    hits?;
    Ok(Stage::Finish)
}

/// Moves the transaction's record to applied.
pub fn finish<S: Store>(alloc: Global, store: &mut S, txn: &Waiting) -> Result<Stage, StepError>
    requires worth { IsTrue S.tells → IsWorth (S.content store.old) txn.now Stage.Finish }
    ensures works { IsTrue S.tells → (order : List LogEntry) →
        WorksOn S.Store store.old store.new order order txn.now.id }
    ensures comes { IsTrue S.tells → ComesToStage (S.content store.new) txn.now result }
    ensures stays { IsTrue S.tells → OnErr result (record_at (S.content store.new) txn.now.id ≡ record_at (S.content store.old) txn.now.id) }
    ensures nearer { IfOk result (λ next. steps_left next ≡ 0) }
    ensures uses { IsTrue S.tells → UsesUpTo (S.content store.old) (S.content store.new) Stage.Finish result }
    ensures suits { IfOk result (λ next. suits txn.now.ops next ≡ true) }
    ensures shown { IfOk result (λ next. EndIsShown S.Store store.old store.new txn.now.id next) }
    ensures cause { IfErr result (HasCause S.Store store.old store.new txn.now.id) }
    ensures call { OneCall S.Store store.old store.new result StepError.StoreFault }
{
    let change = Edit::Move {
        from: State::Applying,
        to: State::Applied,
        nonce: None,
        revnos: None,
    };
    must_hit(alloc, store, txn.id, Name::Record(txn.id), change)?;
    Ok(Stage::Settled(Outcome::Applied))
}

/// Moves the transaction's record to aborted.
pub fn abort<S: Store>(alloc: Global, store: &mut S, txn: &Waiting) -> Result<Stage, StepError>
    requires worth { IsTrue S.tells → IsWorth (S.content store.old) txn.now Stage.Abort }
    ensures works { IsTrue S.tells → (order : List LogEntry) →
        WorksOn S.Store store.old store.new order order txn.now.id }
    ensures comes { IsTrue S.tells → ComesToStage (S.content store.new) txn.now result }
    ensures stays { IsTrue S.tells → OnErr result (record_at (S.content store.new) txn.now.id ≡ record_at (S.content store.old) txn.now.id) }
    ensures nearer { IfOk result (λ next. steps_left next ≡ 0) }
    ensures uses { IsTrue S.tells → UsesUpTo (S.content store.old) (S.content store.new) Stage.Abort result }
    ensures suits { IfOk result (λ next. suits txn.now.ops next ≡ true) }
    ensures shown { IfOk result (λ next. EndIsShown S.Store store.old store.new txn.now.id next) }
    ensures cause { IfErr result (HasCause S.Store store.old store.new txn.now.id) }
    ensures call { OneCall S.Store store.old store.new result StepError.StoreFault }
{
    let change = Edit::Move {
        from: State::Aborting,
        to: State::Aborted,
        nonce: None,
        revnos: None,
    };
    must_hit(alloc, store, txn.id, Name::Record(txn.id), change)?;
    Ok(Stage::Settled(Outcome::Aborted))
}
