//! How a batch is submitted and settled.

ghost use Rattle.std.specs.Prelude.{◌≡◌, true, List, length, IsTrue, IfOk, IfErr, OnOk, IsErrOf};
ghost use Rattle.store_trait.specs.Calls.{Rose};
ghost use Rattle.store_trait.specs.Stores.{CallsGoOn};
ghost use Rattle.txn_runner.specs.Calm.{IsCalm};
ghost use Rattle.txn_play.specs.Batches.{MayRun, IsBegun, IsDoneWith, Every, HasOwnOperations, LeavesRecords, WorksOnBatch, are_built};
ghost use Rattle.txn_runner.specs.Numbers.{Suffices, Uses};
ghost use Rattle.txn_runner.specs.Settling.{settled_state};
ghost use Rattle.txn_play.specs.Progress.{HasRunBatch};
ghost use Rattle.txn_play.specs.Refusals.{IsNoObjection, IsOfSteps, IsUnspent, HasCause, HasReason};
ghost use Rattle.txn_play.specs.Remains.{HasLeft, LeavesUnfinished};
ghost use Rattle.txn_play.specs.Runs.{RunsGoOn};
ghost use Rattle.txn_record.specs.declared.entry.Entry.{Entry as LogEntry};

use crate::answer::RecordState;
use crate::reading::documents;
use crate::refusal::{Refusal, refusal_of};
use crate::run::Run;
use sqlite_items::Items;
use std::alloc::Global;
use store_trait::Store;
use txn_record::{Entry, Outcome, State};
use txn_runner::{Waiting, settle, submit};

/// Runs a batch: its records are submitted, and then each transaction is settled in turn. Answers
/// the states of its records. The Run is kept, also where the batch isn't run to its end.
pub fn run_batch<S: Store>(
    alloc: Global,
    store: &mut S,
    runs: &mut Vec<Run>,
    batch: &[Waiting],
) -> Result<Items<RecordState>, Refusal>
    requires may_run { IsTrue S.tells → MayRun (S.content store.old) batch.now }
    requires runs { IsTrue S.tells → RunsGoOn (S.trail store.old) runs.old.items
        (S.calls store.old) }
    requires built { are_built batch.now ≡ true }
    ensures runs { IsTrue S.tells → RunsGoOn (S.trail store.new) runs.new.items
        (S.calls store.new) }
    ensures done { IsTrue S.tells → IfOk result
        (λ states. HasRunBatch
        (record { content = S.content store.old; calls = S.calls store.old; runs = runs.old.items })
        (record { content = S.content store.new; calls = S.calls store.new; runs = runs.new.items })
        batch.now states) }
    ensures calm { IsTrue S.tells → OnOk result (IsCalm (S.content store.new)) }
    ensures left { IsTrue S.tells → IfErr result (HasLeft true batch.now (S.trail store.new)
        (record { content = S.content store.old; calls = S.calls store.old; runs = runs.old.items })
        (record {
          content = S.content store.new;
          calls = S.calls store.new;
          runs = runs.new.items;
        })) }
    ensures reason { IsTrue S.tells → IfErr result (HasReason (S.content store.new)) }
    ensures enough { IsTrue S.tells → Suffices (S.content store.old) (length batch.now) →
        IfErr result IsUnspent }
    ensures cause { IfErr result (HasCause S.Store store.old store.new) }
    ensures kind { IfErr result IsNoObjection }
    ensures calls { CallsGoOn S.Store store.old store.new }
    ensures fault { IsErrOf result Refusal.Store → Rose (S.faults store.old) (S.faults store.new) }
{
    runs.reserve(1)?;
    let base = documents(alloc, store)?;
    let mark = store.calls();
    let mut order = Vec::new(alloc);
    let states = run_all(alloc, store, &mut order, batch);
    let run = Run {
        base,
        order: Items::from_vec(order),
        mark,
        turns: Items::new(alloc),
    };
    match runs.push(run) {
        Ok(()) => states,
        Err(_) => unreachable!(),
    }
}

fn run_all<S: Store>(
    alloc: Global,
    store: &mut S,
    order: &mut Vec<Entry>,
    batch: &[Waiting],
) -> Result<Items<RecordState>, Refusal>
    requires may_run { IsTrue S.tells → MayRun (S.content store.old) batch.now }
    requires built { are_built batch.now ≡ true }
    ensures works { IsTrue S.tells →
        WorksOnBatch S.Store store.old store.new order.old.items order.new.items batch.now }
    ensures done { IsTrue S.tells → IfOk result (λ states.
        IsDoneWith (S.content store.new) batch.now states) }
    ensures uses { IsTrue S.tells → Uses (S.content store.old) (S.content store.new)
        (length batch.now) (length batch.now) 0 0 }
    ensures records { IsTrue S.tells → LeavesRecords (S.content store.new) order.old.items
        order.new.items batch.now }
    ensures unfinished { IsTrue S.tells →
        IfErr result (LeavesUnfinished (S.content store.new) batch.now) }
    ensures reason { IsTrue S.tells → IfErr result (HasReason (S.content store.new)) }
    ensures cause { IfErr result (HasCause S.Store store.old store.new) }
    ensures kind { IfErr result IsOfSteps }
    ensures calls { CallsGoOn S.Store store.old store.new }
    ensures fault { IsErrOf result Refusal.Store → Rose (S.faults store.old) (S.faults store.new) }
{
    match submit_all(alloc, store, batch) {
        Ok(()) => settle_all(alloc, store, order, batch),
        Err(fault) => Err(fault),
    }
}

/// Puts the record of each transaction into the store.
fn submit_all<S: Store>(alloc: Global, store: &mut S, batch: &[Waiting]) -> Result<(), Refusal>
    requires may_run { IsTrue S.tells → MayRun (S.content store.old) batch.now }
    ensures works { IsTrue S.tells → (order : List LogEntry) →
        WorksOnBatch S.Store store.old store.new order order batch.now }
    ensures begun { IsTrue S.tells → OnOk result (IsBegun (S.content store.new) batch.now) }
    ensures uses { IsTrue S.tells → Uses (S.content store.old) (S.content store.new) 0 0 0 0 }
    ensures own { IsTrue S.tells → Every (HasOwnOperations (S.content store.new)) batch.now }
    ensures unfinished { IsTrue S.tells →
        IfErr result (LeavesUnfinished (S.content store.new) batch.now) }
    ensures reason { IsTrue S.tells → IfErr result (HasReason (S.content store.new)) }
    ensures cause { IfErr result (HasCause S.Store store.old store.new) }
    ensures kind { IfErr result IsOfSteps }
    ensures calls { CallsGoOn S.Store store.old store.new }
    ensures fault { IsErrOf result Refusal.Store → Rose (S.faults store.old) (S.faults store.new) }
{
    for txn in batch {
        match submit(alloc, store, txn) {
            Ok(true) => {}
            Ok(false) => return Err(Refusal::Repeated(txn.id)),
            Err(error) => return Err(refusal_of(error)),
        }
    }
    Ok(())
}

/// Settles one transaction after the other.
fn settle_all<S: Store>(
    alloc: Global,
    store: &mut S,
    order: &mut Vec<Entry>,
    batch: &[Waiting],
) -> Result<Items<RecordState>, Refusal>
    requires begun { IsTrue S.tells → IsBegun (S.content store.old) batch.now }
    requires built { are_built batch.now ≡ true }
    ensures works { IsTrue S.tells →
        WorksOnBatch S.Store store.old store.new order.old.items order.new.items batch.now }
    ensures done { IsTrue S.tells → IfOk result (λ states.
        IsDoneWith (S.content store.new) batch.now states) }
    ensures uses { IsTrue S.tells → Uses (S.content store.old) (S.content store.new)
        (length batch.now) (length batch.now) 0 0 }
    ensures unfinished { IsTrue S.tells →
        IfErr result (LeavesUnfinished (S.content store.new) batch.now) }
    ensures reason { IsTrue S.tells → IfErr result (HasReason (S.content store.new)) }
    ensures cause { IfErr result (HasCause S.Store store.old store.new) }
    ensures kind { IfErr result IsOfSteps }
    ensures calls { CallsGoOn S.Store store.old store.new }
    ensures fault { IsErrOf result Refusal.Store → Rose (S.faults store.old) (S.faults store.new) }
{
    let mut states = Items::new(alloc);
    for txn in batch {
        match settle(alloc, store, order, txn) {
            Ok(outcome) => states.push(RecordState {
                id: txn.id,
                state: end_of(outcome),
            })?,
            Err(error) => return Err(refusal_of(error)),
        }
    }
    Ok(states)
}

/// The state in which a transaction's record comes to its end.
fn end_of(outcome: Outcome) -> State
    ensures { result ≡ settled_state outcome }
{
    match outcome {
        Outcome::Applied => State::Applied,
        Outcome::Aborted => State::Aborted,
    }
}
