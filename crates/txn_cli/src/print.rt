//! The lines that the program prints.

ghost use Rattle.std.specs.Prelude.{◌≡◌, ◌++◌, OnErr, OnOk, IfOk, true};
ghost use Rattle.std.specs.List.{flat_map};
ghost use Rattle.std.specs.Option.{option_copied};
ghost use Rattle.txn_key.specs.Documents.{pairs_of};
ghost use Rattle.txn_cli.specs.Output.{answer_text, fault_text, finding_text, order_text, prints, state_line, state_word, step_text, verdict_text};
ghost use Rattle.txn_script.specs.Texts.{cell_line, document_line};

use crate::fault::Fault;
use doc_value::OutOfMemory;
use std::alloc::Global;
use store_trait::{Name, Named};
use txn_key::{Doc, Key, Token, TxnId};
use txn_play::{Answer, Finding, RecordState};
use txn_record::{Entry, State};
use txn_runner::StepError;
use txn_script::{push_cell, push_document, push_entry, push_key, push_name};

/// The lines of what a statement answers.
pub fn lines_of(alloc: Global, answer: &Answer) -> Result<Vec<u8>, OutOfMemory>
    ensures text { IfOk result (λ lines. lines.items ≡ answer_text answer.now) }
    ensures wanting { OnErr result (prints answer.now ≡ true) }
{
    let mut lines = Vec::new(alloc);
    match answer {
        Answer::Nothing => {}
        Answer::States(states) => push_states(alloc, &mut lines, states.as_slice())?,
        Answer::Documents(docs) => push_documents(&mut lines, docs.as_slice())?,
        Answer::Cells(cells) => push_cells(alloc, &mut lines, cells.as_slice())?,
        Answer::Order(entries) => push_order(alloc, &mut lines, entries.as_slice())?,
        Answer::Audited(found) => push_verdict(alloc, &mut lines, found.as_ref())?,
    }
    Ok(lines)
}

/// A line for each document, in their order.
fn push_documents(lines: &mut Vec<u8>, docs: &[Doc]) -> Result<(), OutOfMemory>
    ensures { OnOk result (lines.new.items ≡ lines.old.items ++ flat_map document_line
        (pairs_of docs.now)) }
{
    for doc in docs {
        push_document(lines, doc)?;
    }
    Ok(())
}

/// A line for each cell, in their order.
fn push_cells(alloc: Global, lines: &mut Vec<u8>, cells: &[Named]) -> Result<(), OutOfMemory>
    ensures { OnOk result (lines.new.items ≡ lines.old.items ++ flat_map cell_line cells.now) }
{
    for named in cells {
        push_cell(alloc, lines, named)?;
    }
    Ok(())
}

/// A line for each decision, numbered from 1.
fn push_order(alloc: Global, lines: &mut Vec<u8>, entries: &[Entry]) -> Result<(), OutOfMemory>
    ensures { OnOk result (lines.new.items ≡ lines.old.items ++ order_text 1 entries.now) }
{
    for index in 0..entries.len() {
        push_entry(alloc, lines, index as u64 + 1, &entries[index])?;
    }
    Ok(())
}

/// The line of what an audit finds, if something.
fn push_verdict(
    alloc: Global,
    out: &mut Vec<u8>,
    found: Option<&Finding>,
) -> Result<(), OutOfMemory>
    ensures { OnOk result (out.new.items ≡ out.old.items ++
        verdict_text (option_copied found.entry)) }
{
    match found {
        None => out.extend_from_slice(b"sound\n"),
        Some(Finding::Unsound { rule, name }) => push_unsound(alloc, out, *rule, name),
        Some(Finding::TooManyCells) => out.extend_from_slice(TOO_MANY_CELLS),
    }
}

/// The line of a rule that fails at a name.
fn push_unsound(alloc: Global, out: &mut Vec<u8>, rule: u8, name: &Name) -> Result<(), OutOfMemory>
    ensures { OnOk result (out.new.items ≡ out.old.items ++
        finding_text (Finding.Unsound rule name.now)) }
{
    out.extend_from_slice(b"unsound: rule ")?;
    let mut buffer = itoa::Buffer::new();
    out.extend_from_slice(buffer.format(rule).as_bytes())?;
    out.extend_from_slice(b" at ")?;
    push_name(alloc, out, name)?;
    out.push(b'\n')?;
    Ok(())
}

const TOO_MANY_CELLS: &[u8] = b"unsound: more than 200000 cells\n";

/// A line for each transaction, in their order.
fn push_states(
    alloc: Global,
    lines: &mut Vec<u8>,
    states: &[RecordState],
) -> Result<(), OutOfMemory>
    ensures { OnOk result (lines.new.items ≡ lines.old.items ++ flat_map state_line states.now) }
{
    for it in states {
        push_state(alloc, lines, it)?;
    }
    Ok(())
}

/// The line of a transaction: its id, a blank and the word of its record's state.
fn push_state(alloc: Global, out: &mut Vec<u8>, it: &RecordState) -> Result<(), OutOfMemory>
    ensures { OnOk result (out.new.items ≡ out.old.items ++ state_line it.now) }
{
    let digits = it.id.print(alloc)?;
    out.extend_from_slice(digits.as_slice())?;
    out.push(b' ')?;
    out.extend_from_slice(word_of(it.state))?;
    out.push(b'\n')?;
    Ok(())
}

fn word_of(state: State) -> &'static [u8]
    ensures { result.now ≡ state_word state }
{
    match state {
        State::Preparing => b"preparing",
        State::Prepared => b"prepared",
        State::Aborting => b"aborting",
        State::Applying => b"applying",
        State::Aborted => b"aborted",
        State::Applied => b"applied",
    }
}

const USAGE: &[u8] =
    b"usage: txn run [--db FILE] [--log FILE] | txn race [--log FILE] | txn grind N [--db FILE] [--log FILE]\n";

/// The last line of the output after a refusal. After a fault of the output there is none.
pub fn last_line(alloc: Global, fault: &Fault) -> Result<Vec<u8>, OutOfMemory>
    ensures { IfOk result (λ text. text.items ≡ fault_text fault.now) }
{
    match fault {
        Fault::Words => Vec::from_slice(alloc, USAGE),
        Fault::Line { line, text } => refusal_line(alloc, *line, text.as_str()),
        Fault::Unsound { rule, name } => unsound_line(alloc, *rule, name),
        Fault::TooManyCells => Vec::from_slice(alloc, TOO_MANY_CELLS),
        Fault::Store => Vec::from_slice(alloc, b"store fault\n"),
        Fault::Input => Vec::from_slice(alloc, b"input fault\n"),
        Fault::Output => Ok(Vec::new(alloc)),
        Fault::OutOfMemory => Vec::from_slice(alloc, b"out of memory\n"),
        Fault::Spent(error) => step_line(alloc, error),
        Fault::Broken(error) => step_line(alloc, error),
        Fault::Repeated(id) => clash_line(alloc, *id),
    }
}

fn unsound_line(alloc: Global, rule: u8, name: &Name) -> Result<Vec<u8>, OutOfMemory>
    ensures { IfOk result (λ out. out.items ≡ finding_text (Finding.Unsound rule name.now)) }
{
    let mut out = Vec::new(alloc);
    push_unsound(alloc, &mut out, rule, name)?;
    Ok(out)
}

fn refusal_line(alloc: Global, line: u64, text: &str) -> Result<Vec<u8>, OutOfMemory>
    ensures { IfOk result (λ out. out.items ≡ fault_text (Fault.Line line text.now)) }
{
    let mut out = Vec::from_slice(alloc, b"line ")?;
    let mut buffer = itoa::Buffer::new();
    out.extend_from_slice(buffer.format(line).as_bytes())?;
    out.extend_from_slice(b": ")?;
    out.extend_from_slice(text.as_bytes())?;
    out.push(b'\n')?;
    Ok(out)
}

/// The last line where a step of a runner was refused.
fn step_line(alloc: Global, error: &StepError) -> Result<Vec<u8>, OutOfMemory>
    ensures { IfOk result (λ out. out.items ≡ step_text error.now) }
{
    match error {
        StepError::StoreFault => Vec::from_slice(alloc, b"store fault\n"),
        StepError::NoncesSpent => Vec::from_slice(alloc, b"nonces spent\n"),
        StepError::RevnoSpent { key } => revno_line(alloc, key),
        StepError::Lost { token } => lost_line(alloc, token),
        StepError::Clash { id, .. } => clash_line(alloc, *id),
        StepError::OutOfMemory => Vec::from_slice(alloc, b"out of memory\n"),
    }
}

fn revno_line(alloc: Global, key: &Key) -> Result<Vec<u8>, OutOfMemory>
    ensures { IfOk result (λ out. out.items ≡ step_text (StepError.RevnoSpent key.now)) }
{
    let mut out = Vec::from_slice(alloc, b"revno spent at doc ")?;
    push_key(&mut out, key)?;
    out.push(b'\n')?;
    Ok(out)
}

fn lost_line(alloc: Global, token: &Token) -> Result<Vec<u8>, OutOfMemory>
    ensures { IfOk result (λ out. out.items ≡ step_text (StepError.Lost token.now)) }
{
    let mut out = Vec::from_slice(alloc, b"lost ")?;
    out.extend_from_slice(token.print(alloc)?.as_slice())?;
    out.push(b'\n')?;
    Ok(out)
}

fn clash_line(alloc: Global, id: TxnId) -> Result<Vec<u8>, OutOfMemory>
    ensures { IfOk result (λ out. out.items ≡ fault_text (Fault.Repeated id)) }
{
    let mut out = Vec::from_slice(alloc, b"clash ")?;
    out.extend_from_slice(id.print(alloc)?.as_slice())?;
    out.push(b'\n')?;
    Ok(out)
}
