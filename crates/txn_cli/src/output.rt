//! What is written: the lines of answers, and the last line of a refusal.

ghost use Rattle.std.specs.Prelude.{◌≡◌, ◌≢◌, ◌≤◌, ◌⊎◌, [], Err, true, IsTrue, OnOk, OnErr, IfErr};
ghost use Rattle.txn_cli.specs.Causes.{FailsOnly, counts, HasRisen};
ghost use Rattle.txn_cli.specs.Output.{Wrote, WroteOrFailed, WrotePart, answer_text, fault_text, prints, writing};
ghost use Rattle.txn_play.specs.declared.refusal.Refusal.TheVariants.{OutOfMemory as NoMemory};

use crate::fault::Fault;
use crate::print::{last_line, lines_of};
use crate::stop::Stop;
use std::alloc::Global;
use txn_io::{Sink, pour};
use txn_play::{Answer, Refusal};

/// Writes the lines of an answer. Nothing is written where memory for them is wanting.
pub fn write_answer<O: Sink>(alloc: Global, output: &mut O, answer: &Answer) -> Result<(), Stop>
    ensures whole { OnOk result (Wrote (writing O.Sink output.old output.new)
        (answer_text answer.now)) }
    ensures part { result ≡ Err Stop.Output →
        WrotePart (writing O.Sink output.old output.new) [] (answer_text answer.now) }
    ensures none { result ≡ Err (Stop.Refused NoMemory) →
        Wrote (writing O.Sink output.old output.new) [] }
    ensures lines { result ≡ Err (Stop.Refused NoMemory) → prints answer.now ≡ true }
    ensures kind { IfErr result (λ stop. (stop ≡ Stop.Output) ⊎ (stop ≡ Stop.Refused NoMemory)) }
    ensures kept { FailsOnly (counts (O.faults output.old) (O.faults output.new)) result
        Stop.Output }
{
    match lines_of(alloc, answer) {
        Ok(lines) => match pour(output, lines.as_slice()) {
            Ok(()) => Ok(()),
            Err(_) => Err(Stop::Output),
        },
        Err(_) => Err(Stop::Refused(Refusal::OutOfMemory)),
    }
}

/// Writes the last line of a refusal, and answers the refusal that the call ends with: another one
/// where the line can't be made or written. After a fault of the output there is none.
pub fn tell<O: Sink>(alloc: Global, output: &mut O, fault: Fault) -> Fault
    ensures result_is { (result ≡ fault) ⊎ (result ≡ Fault.OutOfMemory)
        ⊎ ((result ≡ Fault.Output) × HasRisen
        (counts (O.faults output.old) (O.faults output.new))) }
    ensures output { fault ≡ Fault.Output →
        (result ≡ Fault.Output) × Wrote (writing O.Sink output.old output.new) [] }
    ensures memory { fault ≡ Fault.OutOfMemory → result ≡ Fault.OutOfMemory }
    ensures told { result ≢ Fault.Output → result ≢ Fault.OutOfMemory →
        Wrote (writing O.Sink output.old output.new) (fault_text result) }
    ensures short { result ≡ Fault.OutOfMemory →
        WroteOrFailed (writing O.Sink output.old output.new) []
        (fault_text Fault.OutOfMemory) (HasRisen
        (counts (O.faults output.old) (O.faults output.new))) }
    ensures cut { fault ≢ Fault.Output → result ≡ Fault.Output →
        WrotePart (writing O.Sink output.old output.new) [] (fault_text fault) }
    ensures later { O.faults output.old ≤ O.faults output.new }
{
    if fault.is_output() {
        return fault;
    }
    let line = match last_line(alloc, &fault) {
        Ok(line) if !fault.is_memory() => line,
        _ => {
            write_first(output, b"out of memory\n");
            return Fault::OutOfMemory;
        }
    };
    match pour(output, line.as_slice()) {
        Ok(()) => fault,
        Err(_) => Fault::Output,
    }
}

/// Writes as much of a line as the output takes.
fn write_first<O: Sink>(output: &mut O, line: &[u8])
    ensures put { WroteOrFailed (writing O.Sink output.old output.new) [] line.now
        (HasRisen (counts (O.faults output.old) (O.faults output.new))) }
    ensures later { O.faults output.old ≤ O.faults output.new }
{
    let _ = pour(output, line);
}
