//! Which transactions the runner settles so far: those of one operation, on a document that is there,
//! that only asks of it or updates it.

ghost use Rattle.std.specs.Prelude.{◌≡◌, true, [], ◌∷◌};
ghost use Rattle.txn_runner.specs.Built.{is_built, is_built_change, is_update};

use doc_update::Update;
use txn_record::{Change, Op, Ops};

/// Whether a transaction of these operations can be settled.
pub fn is_built(ops: &Ops) -> bool
    ensures { result ≡ is_built ops.now }
{
    match ops.as_slice() {
        [op] => is_built_change(&op.change),
        _ => false,
    }
}

fn is_built_change(change: &Change) -> bool
    ensures { result ≡ is_built_change change.now }
{
    match change {
        Change::Nothing | Change::Update(_) => true,
        Change::Insert(_) | Change::Remove => false,
    }
}

/// The one operation of a transaction that can be settled.
pub fn only(ops: &Ops) -> &Op
    requires { is_built ops.now ≡ true }
    ensures only { ops.now ≡ result.now ∷ [] }
    ensures built { is_built_change result.now.change ≡ true }
{
    match ops.as_slice() {
        [op] => op,
        _ => unreachable!(),
    }
}

/// The update of an operation that makes one.
pub fn update_of(op: &Op) -> &Update
    requires { is_update op.now.change ≡ true }
    ensures { Change.Update result.now ≡ op.now.change }
{
    match &op.change {
        Change::Update(update) => update,
        _ => unreachable!(),
    }
}
