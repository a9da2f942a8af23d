use std::alloc::AllocError;
use store_trait::{Name, StoreError};
use txn_key::{Key, Token, TxnId};

/// Why a step of a runner was refused. The step may be made again.
#[derive(Drop)]
pub enum StepError {
    /// The store failed.
    StoreFault,
    /// The counter of nonces stands at its last value.
    NoncesSpent,
    /// The revision number of the key's owner has no room for another chain. No part answers this yet.
    RevnoSpent { key: Key },
    /// The record of a token is absent. No part answers this yet.
    Lost { token: Token },
    /// A record and what was read or answered at a name disagree.
    Clash { id: TxnId, at: Name },
    OutOfMemory,
}

impl From<AllocError> for StepError {
    ghost use Rattle.std.specs.Prelude.{◌≡◌};
    ghost use Rattle.flush_prepare.specs.declared.error.StepError.TheVariants.{OutOfMemory as NoMemory};

    ghost from_gives = { λ _ error. error ≡ NoMemory };

    fn from(_: AllocError) -> StepError {
        StepError::OutOfMemory
    }
}

impl From<StoreError> for StepError {
    ghost use Rattle.std.specs.Prelude.{◌≡◌};
    ghost use Rattle.flush_prepare.specs.Refusals.{step_error_of};

    ghost from_gives = { λ error step. step ≡ step_error_of error };

    fn from(error: StoreError) -> StepError {
        match error {
            StoreError::Failed => StepError::StoreFault,
            StoreError::OutOfMemory => StepError::OutOfMemory,
        }
    }
}
