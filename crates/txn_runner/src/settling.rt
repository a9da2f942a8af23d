//! How a runner settles one transaction after the other.

ghost use Rattle.std.specs.Prelude.{◌≡◌, ◌<◌, true, false, IsTrue, IfOk, IfErr, OnErr, IsErrOf};
ghost use Rattle.store_trait.specs.Calls.{Rose};
ghost use Rattle.store_trait.specs.Stores.{CallsGoOn, OneCall};
ghost use Rattle.store_laws.specs.View.{record_at};
ghost use Rattle.txn_runner.specs.Causes.{EndIsShown, HasCause, LastShows, ShowsEnd};
ghost use Rattle.txn_runner.specs.Settling.{IsWorth, WorksOn, ComesToStage, MayStop, has_ended};
ghost use Rattle.txn_runner.specs.Built.{is_built};
ghost use Rattle.txn_runner.specs.Numbers.{Uses, numbers_left};
ghost use Rattle.txn_runner.specs.Stages.{steps_left, suits, UsesUpTo};

use crate::error::StepError;
use crate::stage::Stage;
use crate::steps;
use crate::waiting::Waiting;
use std::alloc::Global;
use store_trait::Store;
use txn_record::{Entry, Outcome};

/// Settles a transaction whose record stands in the store, preparing. Its decision is added to the
/// order as it is made, so that the order has it also where a later step is refused.
pub fn settle<S: Store>(
    alloc: Global,
    store: &mut S,
    order: &mut Vec<Entry>,
    txn: &Waiting,
) -> Result<Outcome, StepError>
    requires worth { IsTrue S.tells → IsWorth (S.content store.old) txn.now Stage.Draw }
    requires built { is_built txn.now.ops ≡ true }
    ensures works { IsTrue S.tells →
        WorksOn S.Store store.old store.new order.old.items order.new.items txn.now.id }
    ensures settled { IsTrue S.tells → IfOk result
        (λ outcome. IsWorth (S.content store.new) txn.now (Stage.Settled outcome)) }
    ensures shown { IfOk result (λ outcome. LastShows S.Store store.old store.new (ShowsEnd txn.now.id outcome)) }
    ensures unended { IsTrue S.tells → OnErr result (has_ended (S.content store.new) txn.now.id ≡ false) }
    ensures reason { IsTrue S.tells → IfErr result (MayStop (S.content store.new)) }
    ensures cause { IfErr result (HasCause S.Store store.old store.new txn.now.id) }
    ensures uses { IsTrue S.tells → Uses (S.content store.old) (S.content store.new) 1 1 0 0 }
    ensures spares { IsTrue S.tells → IfOk result
        (λ outcome. Uses (S.content store.old) (S.content store.new) 1 1 0 (numbers_left (Stage.Settled outcome))) }
    ensures calls { CallsGoOn S.Store store.old store.new }
    ensures fault { IsErrOf result StepError.StoreFault → Rose (S.faults store.old) (S.faults store.new) }
{
    let mut stage = Stage::Draw;
    loop {
        if let Stage::Settled(outcome) = stage {
            return Ok(outcome);
        }
        stage = advance(alloc, store, order, txn, stage)?;
    }
}

/// Makes the next call on the store, and answers what is left to do after it.
fn advance<S: Store>(
    alloc: Global,
    store: &mut S,
    order: &mut Vec<Entry>,
    txn: &Waiting,
    stage: Stage,
) -> Result<Stage, StepError>
    requires worth { IsTrue S.tells → IsWorth (S.content store.old) txn.now stage }
    requires left { 0 < steps_left stage }
    requires built { is_built txn.now.ops ≡ true }
    requires suits { suits txn.now.ops stage ≡ true }
    ensures works { IsTrue S.tells →
        WorksOn S.Store store.old store.new order.old.items order.new.items txn.now.id }
    ensures comes { IsTrue S.tells → ComesToStage (S.content store.new) txn.now result }
    ensures stays { IsTrue S.tells → OnErr result (record_at (S.content store.new) txn.now.id ≡ record_at (S.content store.old) txn.now.id) }
    ensures shown { IfOk result (λ next. EndIsShown S.Store store.old store.new txn.now.id next) }
    ensures nearer { IfOk result (λ next. steps_left next < steps_left stage) }
    ensures uses { IsTrue S.tells → UsesUpTo (S.content store.old) (S.content store.new) stage result }
    ensures suits { IfOk result (λ next. suits txn.now.ops next ≡ true) }
    ensures cause { IfErr result (HasCause S.Store store.old store.new txn.now.id) }
    ensures call { OneCall S.Store store.old store.new result StepError.StoreFault }
{
    match stage {
        Stage::Draw => steps::draw(alloc, store, txn),
        Stage::Queue { nonce } => steps::queue(alloc, store, txn, nonce),
        Stage::Prepare { nonce } => steps::prepare(alloc, store, txn, nonce),
        Stage::Look { nonce } => steps::look(alloc, store, txn, nonce),
        Stage::Decide {
            nonce,
            revno,
            holds,
        } => steps::decide(alloc, store, order, txn, nonce, revno, holds),
        Stage::Update { nonce, revno } => steps::update(alloc, store, txn, nonce, revno),
        Stage::Finish => steps::finish(alloc, store, txn),
        Stage::Abort => steps::abort(alloc, store, txn),
        Stage::Settled(_) => unreachable!(),
    }
}
