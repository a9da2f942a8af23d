//! One line of a script: what it states is done, and what that answers is written.

ghost use Rattle.std.specs.Prelude.{◌≡◌, [], true, IsTrue, OnOk, IfErr};
ghost use Rattle.txn_cli.specs.Causes.{counts};
ghost use Rattle.txn_cli.specs.Line.{HasDone, HasDoneLine, HasStoppedLine, IsKeptLine, IsOfStatement, LeftBy, MayStop, RunsFirst, RunsWaiting, StoppedByFinding, StoppedFirst, StoppedFor, StoppedWaiting, performing, running, running_first};
ghost use Rattle.txn_cli.specs.Output.{writing};
ghost use Rattle.txn_play.specs.Progress.{Does, lets_run, objection_to};
ghost use Rattle.txn_play.specs.Sessions.{Stands, at};
ghost use Rattle.txn_script.specs.Statements.{line_in};

use crate::output::write_answer;
use crate::stop::Stop;
use std::alloc::Global;
use store_trait::Store;
use txn_io::Sink;
use txn_play::{Session, lets_run};
use txn_script::{Statement, read_line};

/// Does what a line states, and writes what that answers. A batch that waits is run first, as a statement of
/// its own, where the line lets it.
pub fn play_line<S: Store, O: Sink>(
    alloc: Global,
    session: &mut Session<S>,
    output: &mut O,
    line: &[u8],
) -> Result<(), Stop>
    requires stands { Stands S.Store session.old }
    ensures done { IsTrue S.tells → OnOk result
        (HasDoneLine S.Store line.now session.old session.new
        (writing O.Sink output.old output.new)) }
    ensures stopped { IsTrue S.tells → IfErr result
        (HasStoppedLine S.Store line.now session.old session.new
        (writing O.Sink output.old output.new)) }
    ensures may { IfErr result (MayStop (line_in line.now)) }
    ensures kept { IsKeptLine S.Store session.old session.new
        (counts (O.faults output.old) (O.faults output.new)) result }
{
    match read_line(alloc, line) {
        Ok(None) => Ok(()),
        Ok(Some(statement)) => {
            run_first(alloc, session, output, &statement)?;
            play_statement(alloc, session, output, statement)
        }
        Err(why) => Err(Stop::misread(why)),
    }
}

/// Runs a batch that waits, where the statement lets it run first.
fn run_first<S: Store, O: Sink>(
    alloc: Global,
    session: &mut Session<S>,
    output: &mut O,
    statement: &Statement,
) -> Result<(), Stop>
    requires stands { Stands S.Store session.old }
    ensures done { IsTrue S.tells → OnOk result
        (HasDone S.Store (RunsFirst (lets_run statement.now))
        session.old session.new (writing O.Sink output.old output.new)) }
    ensures left { IsTrue S.tells → IfErr result
        (LeftBy S.Store (running_first (lets_run statement.now))
        session.old session.new (writing O.Sink output.old output.new)) }
    ensures cleared { lets_run statement.now ≡ true → OnOk result (session.new.batch ≡ []) }
    ensures against { IfErr result
        (StoppedFirst (lets_run statement.now) (at S.Store session.old)) }
    ensures kept { IsKeptLine S.Store session.old session.new
        (counts (O.faults output.old) (O.faults output.new)) result }
{
    if lets_run(statement) {
        run_waiting(alloc, session, output)
    } else {
        Ok(())
    }
}

/// Runs the batch, where one waits, and writes how its records stand.
pub fn run_waiting<S: Store, O: Sink>(
    alloc: Global,
    session: &mut Session<S>,
    output: &mut O,
) -> Result<(), Stop>
    requires stands { Stands S.Store session.old }
    ensures done { IsTrue S.tells → OnOk result (HasDone S.Store (RunsWaiting session.old.batch)
        session.old session.new (writing O.Sink output.old output.new)) }
    ensures left { IsTrue S.tells → IfErr result (LeftBy S.Store running
        session.old session.new (writing O.Sink output.old output.new)) }
    ensures cleared { OnOk result (session.new.batch ≡ []) }
    ensures against { IfErr result (StoppedWaiting (at S.Store session.old)) }
    ensures kept { IsKeptLine S.Store session.old session.new
        (counts (O.faults output.old) (O.faults output.new)) result }
{
    if session.batch.is_empty() {
        return Ok(());
    }
    let answer = session.go(alloc)?;
    write_answer(alloc, output, &answer)
}

/// Does a statement, and writes what it answers.
fn play_statement<S: Store, O: Sink>(
    alloc: Global,
    session: &mut Session<S>,
    output: &mut O,
    statement: Statement,
) -> Result<(), Stop>
    requires stands { Stands S.Store session.old }
    requires cleared { lets_run statement ≡ true → session.old.batch ≡ [] }
    ensures done { IsTrue S.tells → OnOk result (HasDone S.Store (Does statement)
        session.old session.new (writing O.Sink output.old output.new)) }
    ensures left { IsTrue S.tells → IfErr result (LeftBy S.Store (performing statement)
        session.old session.new (writing O.Sink output.old output.new)) }
    ensures against { IsTrue S.tells → IfErr result
        (StoppedFor (objection_to (at S.Store session.old) statement)) }
    ensures found { IfErr result (StoppedByFinding statement) }
    ensures read { IfErr result IsOfStatement }
    ensures kept { IsKeptLine S.Store session.old session.new
        (counts (O.faults output.old) (O.faults output.new)) result }
{
    let answer = session.perform(alloc, statement)?;
    write_answer(alloc, output, &answer)
}
