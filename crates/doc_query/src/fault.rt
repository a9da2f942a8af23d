use doc_value::Text;
use std::alloc::AllocError;

/// Why a value is refused as a query. Each name and path is the one that stands in the value.
#[derive(Drop)]
pub enum QueryFault {
    /// The value is no object.
    NotObject,
    /// A name that begins with `$`, and is no operator there.
    UnknownOperator(Text),
    /// A name that is no path.
    BadPath(Text),
    /// The operand of the operator of that name is not of the operator's kind. A member of the list of an
    /// operator that joins queries is such an operand too.
    BadOperand(Text),
    /// The operator of that name joins no queries.
    EmptyList(Text),
    /// The object under that path has names of operators and other names.
    Mixed(Text),
    OutOfMemory,
}

impl From<AllocError> for QueryFault {
    ghost use Rattle.std.specs.Prelude.{◌≡◌};
    ghost use Rattle.doc_query.specs.declared.fault.QueryFault.TheVariants.{OutOfMemory};

    ghost from_gives = { λ _ fault. fault ≡ OutOfMemory };

    fn from(_error: AllocError) -> QueryFault {
        QueryFault::OutOfMemory
    }
}
