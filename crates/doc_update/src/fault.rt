use doc_value::Text;
use std::alloc::AllocError;

/// Why a value is refused as an update, in the order of the tests.
#[derive(Drop)]
pub enum UpdateFault {
    /// No object, or a field of it whose name doesn't begin with `$` or whose value is no object.
    NotOperators,
    /// No operator, or an operator with no path.
    Empty,
    /// The first operator, by its name, that there is none of.
    UnknownOperator(Text),
    /// The first name under an operator that is no path.
    BadPath(Text),
    /// The first path whose operand is not of its operator's kind, or holds at some depth a name that
    /// holds a dot or begins with `$`.
    BadOperand(Text),
    /// The first path, in the order of operators and of the paths under each, that equals one before it,
    /// leads on from it or leads to it.
    Conflict(Text),
    OutOfMemory,
}

impl From<AllocError> for UpdateFault {
    ghost use Rattle.std.specs.Prelude.{◌≡◌};
    ghost use Rattle.doc_update.specs.declared.fault.UpdateFault.TheVariants.{OutOfMemory};

    ghost from_gives = { λ _ fault. fault ≡ OutOfMemory };

    fn from(_error: AllocError) -> UpdateFault {
        UpdateFault::OutOfMemory
    }
}
