//! Why a statement was refused, and how the refusal of a store or of a runner's step comes to that.

ghost use Rattle.std.specs.Prelude.{◌≡◌};
ghost use Rattle.store_trait.specs.Contents.{Content};
ghost use Rattle.txn_play.specs.Refusals.{refusal_of_step, HasReason, IsOfSteps, IsUnspent};
ghost use Rattle.txn_runner.specs.Causes.{IsOfStore};
ghost use Rattle.txn_runner.specs.Settling.{MayStop};

use crate::finding::Finding;
use crate::objection::Objection;
use std::alloc::AllocError;
use store_trait::StoreError;
use txn_audit::AuditError;
use txn_key::TxnId;
use txn_runner::StepError;

/// Why a statement was refused.
#[derive(Drop)]
pub enum Refusal {
    /// Something stands against the statement.
    Objected(Objection),
    /// An audit finds something against the store.
    Found(Finding),
    Store,
    OutOfMemory,
    /// Nonces or revision numbers are used up.
    Spent(StepError),
    /// The store answered what no sound store does.
    Broken(StepError),
    /// A record of a submitted transaction's id was there.
    Repeated(TxnId),
}

impl From<AllocError> for Refusal {
    ghost use Rattle.std.specs.Prelude.{◌≡◌};
    ghost use Rattle.txn_play.specs.declared.refusal.Refusal.TheVariants.{OutOfMemory as NoMemory};

    ghost from_gives = { λ _ refusal. refusal ≡ NoMemory };

    fn from(_: AllocError) -> Refusal {
        Refusal::OutOfMemory
    }
}

impl From<Objection> for Refusal {
    ghost use Rattle.std.specs.Prelude.{◌≡◌};
    ghost use Rattle.txn_play.specs.declared.refusal.Refusal.TheVariants.{Objected};

    ghost from_gives = { λ why refusal. refusal ≡ Objected why };

    fn from(why: Objection) -> Refusal {
        Refusal::Objected(why)
    }
}

impl From<StoreError> for Refusal {
    ghost use Rattle.std.specs.Prelude.{◌≡◌};
    ghost use Rattle.txn_play.specs.Refusals.{refusal_of_store};

    ghost from_gives = { λ error refusal. refusal ≡ refusal_of_store error };

    fn from(error: StoreError) -> Refusal {
        match error {
            StoreError::Failed => Refusal::Store,
            StoreError::OutOfMemory => Refusal::OutOfMemory,
        }
    }
}

impl From<AuditError> for Refusal {
    ghost use Rattle.std.specs.Prelude.{◌≡◌};
    ghost use Rattle.txn_play.specs.Refusals.{refusal_of_audit};

    ghost from_gives = { λ error refusal. refusal ≡ refusal_of_audit error };

    fn from(error: AuditError) -> Refusal {
        match error {
            AuditError::Unsound { rule, name } => Refusal::Found(Finding::Unsound { rule, name }),
            AuditError::TooMany => Refusal::Found(Finding::TooManyCells),
            AuditError::StoreFault => Refusal::Store,
            AuditError::OutOfMemory => Refusal::OutOfMemory,
        }
    }
}

/// How the refusal of a step refuses the statement.
pub(crate) fn refusal_of(error: StepError) -> Refusal
    ensures exact { result ≡ refusal_of_step error }
    ensures kind { IsOfSteps result }
    ensures reason { (c : Content) → MayStop c error → HasReason c result }
    ensures unspent { IsOfStore error → IsUnspent result }
    ensures store { result ≡ Refusal.Store → error ≡ StepError.StoreFault }
{
    match error {
        StepError::StoreFault => Refusal::Store,
        StepError::OutOfMemory => Refusal::OutOfMemory,
        StepError::NoncesSpent => Refusal::Spent(StepError::NoncesSpent),
        StepError::RevnoSpent { key } => Refusal::Spent(StepError::RevnoSpent { key }),
        StepError::Lost { token } => Refusal::Broken(StepError::Lost { token }),
        StepError::Clash { id, at } => Refusal::Broken(StepError::Clash { id, at }),
    }
}
