use std::alloc::AllocError;

/// Why a value is refused as an operation, in the order of the tests.
#[derive(Clone, Copy, Debug, PartialEq, Eq)]
pub enum OpFault {
    /// No object, a field that no operation has, `c` no text, or `r` no truth value.
    BadOperation,
    /// `c` missing or empty, `d` missing or null.
    KeyMissing,
    /// `c` is no collection's name, or `d` no document's id.
    BadKey,
    /// Two of an insertion, an update and a removal.
    SeveralChanges,
    /// No assertion and no change.
    NothingSet,
    /// An insertion with an assertion other than `d-`.
    InsertAssert,
    /// A part nested more than 90 deep.
    TooDeep,
    /// `i` is no body of that document.
    BadInsert,
    /// `u` is no update.
    BadUpdate,
    /// `a` is neither `d+` nor `d-` nor a query.
    BadAssert,
}

/// Why a value is refused as the operations of a transaction, in the order of the tests.
#[derive(Debug, Drop, PartialEq, Eq)]
pub enum OpsFault {
    NotList,
    /// No operation.
    Empty,
    /// More than 1,000 operations.
    TooMany,
    /// The first faulty operation and its first fault. Operations are counted from 0.
    At { op: u32, why: OpFault },
    OutOfMemory,
}

impl From<AllocError> for OpsFault {
    ghost use Rattle.std.specs.Prelude.{◌≡◌};
    ghost use Rattle.txn_record.specs.declared.fault.OpsFault.TheVariants.{OutOfMemory};

    ghost from_gives = { λ _ fault. fault ≡ OutOfMemory };

    fn from(_error: AllocError) -> OpsFault {
        OpsFault::OutOfMemory
    }
}

/// What ends the reading of one operation.
#[derive(Drop)]
pub(crate) enum Refusal {
    Fault(OpFault),
    OutOfMemory,
}

impl From<AllocError> for Refusal {
    ghost use Rattle.std.specs.Prelude.{◌≡◌};
    ghost use Rattle.txn_record.specs.declared.fault.Refusal.TheVariants.{OutOfMemory};

    ghost from_gives = { λ _ refusal. refusal ≡ OutOfMemory };

    fn from(_error: AllocError) -> Refusal {
        Refusal::OutOfMemory
    }
}

impl From<OpFault> for Refusal {
    ghost use Rattle.std.specs.Prelude.{◌≡◌};
    ghost use Rattle.txn_record.specs.declared.fault.Refusal.TheVariants.{Fault};

    ghost from_gives = { λ why refusal. refusal ≡ Fault why };

    fn from(why: OpFault) -> Refusal {
        Refusal::Fault(why)
    }
}
