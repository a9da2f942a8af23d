//! Why a line was not done to its end.

ghost use Rattle.std.specs.Prelude.{◌≡◌, ◌⊎◌};
ghost use Rattle.txn_cli.specs.Faults.{fault_of_finding, fault_of_stop, objection_text, stop_of_reading, OrShort};
ghost use Rattle.txn_script.specs.Faults.{fault_text as script_text};

use crate::fault::Fault;
use doc_value::Text;
use std::alloc::Global;
use txn_play::{Finding, Objection, Refusal};
use txn_script::ScriptFault;

/// Why a line was not done to its end. Its number is put on it by the loop over lines.
#[derive(Drop)]
pub enum Stop {
    /// The line is no statement.
    Misread(ScriptFault),
    Refused(Refusal),
    /// The output failed before all was written.
    Output,
}

impl From<Refusal> for Stop {
    ghost use Rattle.std.specs.Prelude.{◌≡◌};
    ghost use Rattle.txn_cli.specs.declared.stop.Stop.TheVariants.{Refused};

    ghost from_gives = { λ refusal stop. stop ≡ Refused refusal };

    fn from(refusal: Refusal) -> Stop {
        Stop::Refused(refusal)
    }
}

impl Stop {
    /// How a line stops that was read as no statement.
    pub fn misread(why: ScriptFault) -> Stop
        ensures { result ≡ stop_of_reading why }
    {
        match why {
            ScriptFault::OutOfMemory => Stop::Refused(Refusal::OutOfMemory),
            why => Stop::Misread(why),
        }
    }

    /// How the call ends, where that line has the number: as the refusal of it, unless memory for its text
    /// is wanting.
    pub fn at_line(self, alloc: Global, number: u64) -> Fault
        ensures { OrShort (fault_of_stop number self) result }
    {
        match self {
            Stop::Misread(why) => refused_as(alloc, number, why),
            Stop::Refused(Refusal::Objected(why)) => refused_by(alloc, number, text_of(why)),
            Stop::Refused(Refusal::Found(found)) => found_fault(found),
            Stop::Refused(Refusal::Store) => Fault::Store,
            Stop::Refused(Refusal::OutOfMemory) => Fault::OutOfMemory,
            Stop::Refused(Refusal::Spent(error)) => Fault::Spent(error),
            Stop::Refused(Refusal::Broken(error)) => Fault::Broken(error),
            Stop::Refused(Refusal::Repeated(id)) => Fault::Repeated(id),
            Stop::Output => Fault::Output,
        }
    }
}

/// How what an audit finds ends the call.
fn found_fault(found: Finding) -> Fault
    ensures { result ≡ fault_of_finding found }
{
    match found {
        Finding::Unsound { rule, name } => Fault::Unsound { rule, name },
        Finding::TooManyCells => Fault::TooManyCells,
    }
}

/// The refusal of a line by the text of a fault.
fn refused_as(alloc: Global, line: u64, why: ScriptFault) -> Fault
    ensures { (result ≡ Fault.Line line (script_text why)) ⊎ (result ≡ Fault.OutOfMemory) }
{
    match why.text(alloc) {
        Ok(text) => Fault::Line { line, text },
        Err(_) => Fault::OutOfMemory,
    }
}

/// The text by which a line is refused for what stands against its statement.
fn text_of(why: Objection) -> &'static str
    ensures { result.now ≡ objection_text why }
{
    match why {
        Objection::PlacedTooLate => "placed too late",
        Objection::PlacedTwice => "placed twice",
        Objection::TooManyWaiting => "too many waiting",
        Objection::IdExists => "id exists",
        Objection::NotBuilt => "not built yet",
    }
}

/// The refusal of a line by a text.
pub fn refused_by(alloc: Global, line: u64, text: &str) -> Fault
    ensures { (result ≡ Fault.Line line text.now) ⊎ (result ≡ Fault.OutOfMemory) }
{
    match Text::from_str(alloc, text) {
        Ok(text) => Fault::Line { line, text },
        Err(_) => Fault::OutOfMemory,
    }
}
