//! The top call.

ghost use Rattle.std.specs.Prelude.{◌≡◌, ◌≢◌, ◌≤◌, ◌⊎◌, [], Err, true, false, IsTrue, OnOk, IfErr, IfSome, IfNone, map, string_bytes, if◌then◌else◌};
ghost use Rattle.std.specs.List.{list_any};
ghost use Rattle.store_trait.specs.Stores.{CallsGoOn};
ghost use Rattle.txn_cli.specs.Call.{HasFaithfulRuns, HasPlayed, HasStopped, PlayedAll, PlayedPart, given, held, judged, returned, start, taken};
ghost use Rattle.txn_cli.specs.Causes.{IsCaused, IsOfLine, NothingFailed, circumstances, counts, told_script};
ghost use Rattle.txn_cli.specs.Faults.{fault_of_line, OrShort};
ghost use Rattle.txn_cli.specs.Outcomes.{has_aborted, is_aborted};
ghost use Rattle.txn_cli.specs.Output.{HasTold, writing};
ghost use Rattle.txn_cli.specs.Words.{is_grammar};
ghost use Rattle.txn_play.specs.Runs.{RunsGoOn};
ghost use Rattle.txn_play.specs.Sessions.{IsNew};

use crate::done::Done;
use crate::fault::Fault;
use crate::line::{play_line, run_waiting};
use crate::output::tell;
use crate::stop::{Stop, refused_by};
use std::alloc::Global;
use store_trait::Store;
use txn_io::{LineFault, Lines, Sink, Source};
use txn_play::{Batch, Run, Session, is_empty};
use txn_record::{Entry, Outcome};

/// Plays the script of the input, where the words are the single word `run`.
///
/// What a statement prints is written once its work on the store is done. `status`, `fault` and the
/// last line of the output say how the call ended; the store comes back, whatever happened.
pub fn command<S: Store, I: Source, O: Sink>(
    alloc: Global,
    words: &[String],
    input: &mut I,
    output: &mut O,
    store: S,
) -> Done<S>
    // However the call ended, each Run is faithful up to the mark of the next, or to the last call: at
    // every place of the trail the store is sound and means the Run's base after the decisions so far.
    ensures runs { HasFaithfulRuns S.Store result }

    // Over a source and a store that tell: where no fault came, each line was read and done, and what all
    // print was written.
    ensures played { IfNone result.fault (PlayedAll S.Store I.Source O.Sink
        (given words.now store input.old output.old) (returned result input.new output.new)) }

    // Any refusal says which first lines were done, and what it leaves and writes behind them.
    ensures refused { IfSome result.fault (PlayedPart S.Store I.Source O.Sink
        (given words.now store input.old output.old) (returned result input.new output.new)) }

    // 1 says that some transaction was aborted; else the fault has the status and the last line.
    ensures ended { IfNone result.fault
        (result.status ≡ (if list_any has_aborted result.runs.items then 1 else 0)) }
    ensures told { IfSome result.fault (HasTold O.Sink output.new result.status) }
    ensures read { IsTrue I.tells → IfNone result.fault (I.rest input.new ≡ []) }

    // Status 2 comes exactly where the words aren't in the grammar, unless the usage text can't be
    // made or written. Then nothing is read and no call is made on the store.
    ensures usage { is_grammar (map string_bytes words.now) ≡ false →
        ((result.status ≡ 2) ⊎ (result.status ≡ 7) ⊎ (result.status ≡ 8))
        × (result.store ≡ store) × (input.new ≡ input.old) × (result.runs.items ≡ []) }
    ensures caused { IfSome result.fault (IsCaused S.Store (judged I.Source O.Sink
        (given words.now store input.old output.old) (returned result input.new output.new))) }

    // Where the words are in the grammar and nothing failed, every line is done, unless one is refused or
    // memory is wanting: a script has fewer lines than there are nonces, or numbers for a document.
    ensures complete { IsTrue I.tells → IsTrue S.tells →
        IsTrue (is_grammar (map string_bytes words.now)) →
        NothingFailed S.Store (judged I.Source O.Sink
        (given words.now store input.old output.old) (returned result input.new output.new)) →
        IfSome result.fault IsOfLine }
    ensures kept { CallsGoOn S.Store store result.store }
{
    let mut session = Session {
        store,
        runs: Vec::new(alloc),
        batch: Batch::new(alloc),
        begun: false,
        documents_alone: true,
    };
    let played = run(alloc, words, &mut session, input, output);
    let Session {
        store,
        runs,
        batch: _,
        begun: _,
        documents_alone: _,
    } = session;
    match played {
        Ok(()) => Done {
            status: finished_status(runs.as_slice()),
            fault: None,
            store,
            runs,
        },
        Err(fault) => {
            let fault = tell(alloc, output, fault);
            Done {
                status: fault.status(),
                fault: Some(fault),
                store,
                runs,
            }
        }
    }
}

/// Plays the input line by line, to its end, where the words are in the grammar.
fn run<S: Store, I: Source, O: Sink>(
    alloc: Global,
    words: &[String],
    session: &mut Session<S>,
    input: &mut I,
    output: &mut O,
) -> Result<(), Fault>
    requires begins { IsNew session.old }
    ensures usage { is_grammar (map string_bytes words.now) ≡ false →
        (result ≡ Err Fault.Words) × (session.new ≡ session.old) × (input.new ≡ input.old) }
    ensures played { IsTrue I.tells → IsTrue S.tells → OnOk result
        (HasPlayed (I.rest input.old) (start S.Store session.old.store)
        (held S.Store session.new.store session.new.runs.items)
        (writing O.Sink output.old output.new)) }
    ensures stopped { IsTrue I.tells → IsTrue S.tells → IfErr result
        (HasStopped (taken (I.rest input.old) (I.rest input.new)) (start S.Store session.old.store)
        (held S.Store session.new.store session.new.runs.items)
        (writing O.Sink output.old output.new)) }
    ensures read { IsTrue I.tells → OnOk result (I.rest input.new ≡ []) }
    ensures runs { IsTrue S.tells →
        RunsGoOn (S.trail session.new.store) session.new.runs.items (S.calls session.new.store) }
    ensures caused { IfErr result
        (IsCaused S.Store (circumstances (is_grammar (map string_bytes words.now))
        (told_script I.Source input.old) session.old.store session.new.store
        (counts (I.faults input.old) (I.faults input.new))
        (counts (O.faults output.old) (O.faults output.new)))) }
    ensures kept { CallsGoOn S.Store session.old.store session.new.store }
    ensures later { O.faults output.old ≤ O.faults output.new }
{
    if !is_run(words) {
        return Err(Fault::Words);
    }
    match is_empty(alloc, &mut session.store) {
        Ok(answer) => session.documents_alone = answer,
        Err(refusal) => return Err(Stop::Refused(refusal).at_line(alloc, 1)),
    }
    let mut lines = Lines::new();
    for done in 0..u64::MAX - 1 {
        let number = done + 1;
        match lines.next(alloc, input) {
            Ok(Some(line)) => match play_line(alloc, session, output, line.as_slice()) {
                Ok(()) => {}
                Err(stop) => return Err(stop.at_line(alloc, number)),
            },
            Ok(None) => {
                return match run_waiting(alloc, session, output) {
                    Ok(()) => Ok(()),
                    Err(stop) => Err(stop.at_line(alloc, number)),
                };
            }
            Err(fault) => return Err(line_fault(alloc, number, fault)),
        }
    }
    unreachable!()
}

/// The words are in the grammar of this stage: the one word `run`.
fn is_run(words: &[String]) -> bool
    ensures { result ≡ is_grammar (map string_bytes words.now) }
{
    match words {
        [word] => word.as_str() == "run",
        _ => false,
    }
}

/// 1 where some transaction was aborted, else 0.
fn finished_status(runs: &[Run]) -> u8
    ensures { result ≡ (if list_any has_aborted runs.now then 1 else 0) }
{
    for run in runs {
        if has_aborted(run.order.as_slice()) {
            return 1;
        }
    }
    0
}

fn has_aborted(order: &[Entry]) -> bool
    ensures { result ≡ list_any is_aborted order.now }
{
    for entry in order {
        if is_aborted(entry) {
            return true;
        }
    }
    false
}

fn is_aborted(entry: &Entry) -> bool
    ensures { result ≡ is_aborted entry.now }
{
    match entry.outcome {
        Outcome::Aborted => true,
        Outcome::Applied => false,
    }
}

/// How a line that wasn't read ends the call: as its refusal, unless memory for the text is wanting.
fn line_fault(alloc: Global, number: u64, fault: LineFault) -> Fault
    ensures { OrShort (fault_of_line number fault) result }
{
    match fault {
        LineFault::ReadFault => Fault::Input,
        LineFault::TooLong => refused_by(alloc, number, "too long"),
        LineFault::ScriptTooLong => refused_by(alloc, number, "script too long"),
        LineFault::OutOfMemory => Fault::OutOfMemory,
    }
}
