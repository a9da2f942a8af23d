//! Why a line is no statement, and the words for it.
ghost use Rattle.std.specs.Prelude.{◌≡◌, IfOk};
ghost use Rattle.txn_script.specs.Faults.{fault_text, op_text};

use cell_text::CellFault;
use doc_value::{OutOfMemory, Text, ValueFault};
use std::alloc::{AllocError, Global};
use txn_record::{OpFault, OpsFault};

/// Why a line is no statement, in the order of the tests.
#[derive(Clone, Copy, Debug, PartialEq, Eq)]
pub enum ScriptFault {
    NotJson,
    /// Nested more than 100 deep.
    TooDeep,
    /// A field's name is empty or holds a NUL.
    BadName,
    NotWhole,
    /// The value is none of the statements.
    BadStatement,
    /// It has a field `cell` and is no cell.
    BadCell,
    /// `txn` is no id of a transaction, or `resume` neither an id nor `"all"`.
    BadId,
    /// `doc` is no collection and id that an operation may name, or `body` no body of that document.
    BadBody,
    /// `info` is nested more than 90 deep.
    BadInfo,
    /// `ops` is no list, or an empty one.
    NoOperations,
    /// More than 1,000 operations.
    TooManyOperations,
    /// The first faulty operation and its first fault. Operations are counted from 0.
    Operation { number: u32, why: OpFault },
    /// The statement asks for what is not built yet.
    NotBuilt,
    OutOfMemory,
}

impl ScriptFault {
    /// The text that refuses the line. Want of memory is no fault of a line and is told by itself: its
    /// words are the ones that are printed then.
    pub fn text(&self, alloc: Global) -> Result<Text, OutOfMemory>
        ensures exact { IfOk result (λ text. text ≡ fault_text self.now) }
    {
        match self {
            ScriptFault::NotJson => Text::from_str(alloc, "not JSON"),
            ScriptFault::TooDeep => Text::from_str(alloc, "nested too deep"),
            ScriptFault::BadName => Text::from_str(alloc, "bad field name"),
            ScriptFault::NotWhole => Text::from_str(alloc, "number not whole"),
            ScriptFault::BadStatement => Text::from_str(alloc, "bad statement"),
            ScriptFault::BadCell => Text::from_str(alloc, "bad cell"),
            ScriptFault::BadId => Text::from_str(alloc, "bad id"),
            ScriptFault::BadBody => Text::from_str(alloc, "bad body"),
            ScriptFault::BadInfo => Text::from_str(alloc, "bad info"),
            ScriptFault::NoOperations => Text::from_str(alloc, "no operations"),
            ScriptFault::TooManyOperations => Text::from_str(alloc, "too many operations"),
            ScriptFault::Operation { number, why } => operation_text(alloc, *number, *why),
            ScriptFault::NotBuilt => Text::from_str(alloc, "not built yet"),
            ScriptFault::OutOfMemory => Text::from_str(alloc, "out of memory"),
        }
    }
}

fn operation_text(alloc: Global, number: u32, why: OpFault) -> Result<Text, OutOfMemory>
    ensures { IfOk result (λ text. text ≡ fault_text (ScriptFault.Operation number why)) }
{
    let why = op_text(why);
    let text = format!(in alloc; "error in transaction op {number}: {why}")?;
    Text::from_str(alloc, text.as_str())
}

fn op_text(why: OpFault) -> &'static str
    ensures { result.now ≡ op_text why }
{
    match why {
        OpFault::BadOperation => "bad operation",
        OpFault::KeyMissing => "C or Id missing",
        OpFault::BadKey => "bad collection or id",
        OpFault::SeveralChanges => "more than one of Insert/Update/Remove set",
        OpFault::NothingSet => "none of Assert/Insert/Update/Remove set",
        OpFault::InsertAssert => "Insert can only Assert d-",
        OpFault::TooDeep => "nested too deep",
        OpFault::BadInsert => "bad insert",
        OpFault::BadUpdate => "bad update",
        OpFault::BadAssert => "bad assert",
    }
}

impl From<AllocError> for ScriptFault {
    ghost use Rattle.std.specs.Prelude.{◌≡◌};
    ghost use Rattle.txn_script.specs.declared.fault.ScriptFault.TheVariants.{OutOfMemory as NoMemory};

    ghost from_gives = { λ _ fault. fault ≡ NoMemory };

    fn from(_: AllocError) -> ScriptFault {
        ScriptFault::OutOfMemory
    }
}

impl From<CellFault> for ScriptFault {
    ghost use Rattle.std.specs.Prelude.{◌≡◌};
    ghost use Rattle.txn_script.specs.Faults.{fault_of_cell};

    ghost from_gives = { λ why fault. fault ≡ fault_of_cell why };

    fn from(why: CellFault) -> ScriptFault {
        match why {
            CellFault::Bad => ScriptFault::BadCell,
            CellFault::OutOfMemory => ScriptFault::OutOfMemory,
        }
    }
}

impl From<ValueFault> for ScriptFault {
    ghost use Rattle.std.specs.Prelude.{◌≡◌};
    ghost use Rattle.txn_script.specs.Faults.{fault_of_value};

    ghost from_gives = { λ why fault. fault ≡ fault_of_value why };

    fn from(why: ValueFault) -> ScriptFault {
        match why {
            ValueFault::NotJson => ScriptFault::NotJson,
            ValueFault::TooDeep => ScriptFault::TooDeep,
            ValueFault::BadName => ScriptFault::BadName,
            ValueFault::NotWhole => ScriptFault::NotWhole,
            ValueFault::OutOfMemory => ScriptFault::OutOfMemory,
        }
    }
}

impl From<OpsFault> for ScriptFault {
    ghost use Rattle.std.specs.Prelude.{◌≡◌};
    ghost use Rattle.txn_script.specs.Faults.{fault_of_ops};

    ghost from_gives = { λ why fault. fault ≡ fault_of_ops why };

    fn from(why: OpsFault) -> ScriptFault {
        match why {
            OpsFault::NotList => ScriptFault::NoOperations,
            OpsFault::Empty => ScriptFault::NoOperations,
            OpsFault::TooMany => ScriptFault::TooManyOperations,
            OpsFault::At { op, why } => ScriptFault::Operation { number: op, why },
            OpsFault::OutOfMemory => ScriptFault::OutOfMemory,
        }
    }
}
