use crate::text::Text;
use std::alloc::AllocError;

/// Why bytes are refused as a value, in the order of the tests.
#[derive(Debug, Drop, PartialEq, Eq)]
pub enum ValueFault {
    /// No JSON text, or one nested more than 127 deep.
    NotJson,
    /// Nested more than 100 deep.
    TooDeep,
    /// A field's name is empty or holds a NUL.
    BadName,
    /// A number that is no whole number of 64 bits: a fraction, an exponent, `-0`, a wider one.
    NotWhole,
    OutOfMemory,
}

impl From<AllocError> for ValueFault {
    ghost use Rattle.std.specs.Prelude.{◌≡◌};
    ghost use Rattle.doc_value.specs.declared.fault.ValueFault.TheVariants.{OutOfMemory};

    ghost from_gives = { λ _ fault. fault ≡ OutOfMemory };

    fn from(_error: AllocError) -> ValueFault {
        ValueFault::OutOfMemory
    }
}

/// Why a value is refused as a body, in the order of the tests.
#[derive(Drop)]
pub enum BodyFault {
    NotObject,
    /// Nested more than 90 deep.
    TooDeep,
    /// The first name, in the order of a walk, that a body may not have: at any depth one that holds a
    /// dot or begins with `$`, at the top one that begins with `txn-` too, or an `_id` that is not the
    /// document's id.
    BadField(Text),
    OutOfMemory,
}

impl From<AllocError> for BodyFault {
    ghost use Rattle.std.specs.Prelude.{◌≡◌};
    ghost use Rattle.doc_value.specs.declared.fault.BodyFault.TheVariants.{OutOfMemory};

    ghost from_gives = { λ _ fault. fault ≡ OutOfMemory };

    fn from(_error: AllocError) -> BodyFault {
        BodyFault::OutOfMemory
    }
}

/// Why bytes are refused as a path, in the order of the tests.
#[derive(Debug, Drop, PartialEq, Eq)]
pub enum PathFault {
    /// Some part is empty.
    EmptyPart,
    /// A part begins with `$` or holds a NUL, the path is longer than 1,024 bytes, or it is no UTF-8,
    /// which is tested first of all.
    BadPart,
    /// The first part is `_id` or begins with `txn-`.
    Reserved,
    OutOfMemory,
}

impl From<AllocError> for PathFault {
    ghost use Rattle.std.specs.Prelude.{◌≡◌};
    ghost use Rattle.doc_value.specs.declared.fault.PathFault.TheVariants.{OutOfMemory};

    ghost from_gives = { λ _ fault. fault ≡ OutOfMemory };

    fn from(_error: AllocError) -> PathFault {
        PathFault::OutOfMemory
    }
}
