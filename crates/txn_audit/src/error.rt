//! Why a store was not judged, and the first rule that fails of one that is not sound.

use std::alloc::AllocError;
use store_trait::{Name, StoreError};

/// Why an audit came to no answer, or what it found.
#[derive(Drop)]
pub enum AuditError {
    /// A call on the store failed.
    StoreFault,
    /// The store holds more than 200,000 cells.
    TooMany,
    /// The first rule that fails, by its number from 1 to 10, and the first name where it does.
    Unsound { rule: u8, name: Name },
    OutOfMemory,
}

impl From<AllocError> for AuditError {
    ghost use Rattle.std.specs.Prelude.{◌≡◌};
    ghost use Rattle.txn_audit.specs.declared.error.AuditError.TheVariants.{OutOfMemory as NoMemory};

    ghost from_gives = { λ _ error. error ≡ NoMemory };

    fn from(_: AllocError) -> AuditError {
        AuditError::OutOfMemory
    }
}

impl From<StoreError> for AuditError {
    ghost use Rattle.std.specs.Prelude.{◌≡◌};
    ghost use Rattle.txn_audit.specs.Errors.{error_of_store};

    ghost from_gives = { λ error why. why ≡ error_of_store error };

    fn from(error: StoreError) -> AuditError {
        match error {
            StoreError::Failed => AuditError::StoreFault,
            StoreError::OutOfMemory => AuditError::OutOfMemory,
        }
    }
}
