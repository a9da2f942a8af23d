ghost use Rattle.std.specs.Prelude.{◌≡◌, ◌<◌, ◌≤◌, ◌+◌, ◌==◌, [], length, option_map, IfOk, IfErr, IsSome, OnOk, IsTrue, MatchResult, true, false};
ghost use Rattle.std.specs.List.{position};
ghost use Rattle.txn_io.specs.declared.lines.LineFault.TheVariants.{OutOfMemory, ReadFault};
ghost use Rattle.txn_io.specs.Faults.{StaysUnless};
ghost use Rattle.txn_io.specs.LineParts.{Ends, GoesOn, IsUngathered};
ghost use Rattle.txn_io.specs.Lines.{LinesView, limit_passed};
ghost use Rattle.txn_io.specs.Unread.{HasRead, IsRefused, unread, unread_behind};

use super::read_ahead::ReadAhead;
use super::source::Source;
use std::alloc::{AllocError, Global};
use std::marker::Model;
use thiserror::Error;

/// The longest line, in bytes.
const LONGEST_LINE: u64 = 16_777_216;

/// The longest script, in bytes.
const LONGEST_SCRIPT: u64 = 268_435_456;

const NEWLINE: u8 = b'\n';

/// Why no line was read.
#[derive(Clone, Copy, Debug, PartialEq, Eq, Error)]
pub enum LineFault {
    #[error("the input failed")]
    ReadFault,
    #[error("the line is too long")]
    TooLong,
    #[error("the script is too long")]
    ScriptTooLong,
    #[error("out of memory")]
    OutOfMemory,
}

impl From<AllocError> for LineFault {
    ghost from_gives = { λ _ fault. fault ≡ OutOfMemory };

    fn from(_: AllocError) -> LineFault {
        LineFault::OutOfMemory
    }
}

/// Reads a script line by line. It keeps what it took from the source and has not handed out.
#[derive(Drop)]
pub struct Lines {
    ahead: ReadAhead,
    taken: u64,
    fault: Option<LineFault>,
}

impl Model for Lines {
    ghost Value = { LinesView };

    ghost view = { λ l. record { pending = l.ahead; taken = l.taken; fault = l.fault } };

    ghost invariant = { λ l. l.taken ≤ 268435456 };
}

impl Lines {
    /// A reader at the beginning of a script. It takes no memory.
    pub fn new() -> Lines
        ensures { result ≡ record { pending = []; taken = 0; fault = None } }
    {
        Lines {
            ahead: ReadAhead::new(),
            taken: 0,
            fault: None,
        }
    }

    /// The next line without its newline, or None at the end of the input.
    ///
    /// A last line without a newline counts. A line has at most 16,777,216 bytes, and a script
    /// at most 268,435,456, its newlines among them. After a refusal each further call answers the
    /// same. Where the source failed, no whole line was taken that hasn't been handed out.
    pub fn next<S: Source>(
        &mut self,
        alloc: Global,
        source: &mut S,
    ) -> Result<Option<Vec<u8>>, LineFault>
        ensures done { IsTrue S.tells → IfOk result (λ line.
            HasRead (unread S.Source self.old source.old) (unread S.Source self.new source.new)
            (option_map (λ bytes. bytes.items) line)) }
        ensures refused { self.old.fault ≡ None → IfErr result
            (IsRefused S.Source source.old source.new (unread S.Source self.old source.old)) }
        ensures again { (fault : LineFault) → self.old.fault ≡ Some fault →
            (result ≡ Err fault) × (source.new ≡ source.old) }
        ensures standing { MatchResult result
            (λ _. (self.old.fault ≡ None) × (self.new.fault ≡ None))
            (λ fault. self.new.fault ≡ Some fault) }
        ensures kept { StaysUnless ReadFault (S.faults source.old) (S.faults source.new) result }
        ensures more { IfOk result (λ line. IsSome line → self.old.taken < self.new.taken) }
        ensures within { self.new.taken ≤ 268435456 }
    {
        if let Some(fault) = self.fault {
            return Err(fault);
        }
        let line = read_line(alloc, &mut self.taken, &mut self.ahead, source);
        if let Err(fault) = &line {
            self.fault = Some(*fault);
        }
        line
    }
}

/// Reads the bytes up to the next newline or the end of the input.
fn read_line<S: Source>(
    alloc: Global,
    taken: &mut u64,
    ahead: &mut ReadAhead,
    source: &mut S,
) -> Result<Option<Vec<u8>>, LineFault>
    requires { taken.old ≤ 268435456 }
    ensures done { IsTrue S.tells → IfOk result (λ line.
        HasRead (unread_behind S.Source taken.old ahead.old source.old)
        (unread_behind S.Source taken.new ahead.new source.new)
        (option_map (λ bytes. bytes.items) line)) }
    ensures refused { IfErr result (IsRefused S.Source source.old source.new
        (unread_behind S.Source taken.old ahead.old source.old)) }
    ensures kept { StaysUnless ReadFault (S.faults source.old) (S.faults source.new) result }
    ensures more { IfOk result (λ line. IsSome line → taken.old < taken.new) }
    ensures within { taken.new ≤ 268435456 }
{
    let mut line = Vec::new(alloc);
    loop {
        if ahead.bytes().is_empty() {
            match ahead.fill(source) {
                Ok(()) => {}
                Err(_) => return Err(LineFault::ReadFault),
            }
        }
        if ahead.bytes().is_empty() {
            *taken += line.len() as u64;
            return Ok(if line.is_empty() { None } else { Some(line) });
        }
        if gather(*taken, ahead, &mut line)? {
            *taken += line.len() as u64 + 1;
            return Ok(Some(line));
        }
    }
}

/// Moves bytes of the line from those that were taken, and answers whether its newline stood among
/// them.
fn gather(taken: u64, ahead: &mut ReadAhead, line: &mut Vec<u8>) -> Result<bool, LineFault>
    requires within { taken + length line.old.items ≤ 268435456 }
    ensures ends { result ≡ Ok true →
        Ends taken line.old.items ahead.old line.new.items ahead.new }
    ensures goes_on { result ≡ Ok false →
        GoesOn taken line.old.items ahead.old line.new.items ahead.new }
    ensures refused { IfErr result (IsUngathered taken line.old.items ahead.old) }
{
    let bytes = ahead.bytes();
    let before = line.len() as u64;
    match newline_at(bytes) {
        Some(count) => {
            let size = before + count as u64;
            check_limits(taken, size, size + 1)?;
            line.extend_from_slice(&bytes[..count])?;
            ahead.advance(count + 1);
            Ok(true)
        }
        None => {
            let count = bytes.len();
            let size = before + count as u64;
            check_limits(taken, size, size)?;
            line.extend_from_slice(bytes)?;
            ahead.advance(count);
            Ok(false)
        }
    }
}

/// Where the first newline stands.
fn newline_at(bytes: &[u8]) -> Option<usize>
    ensures { result ≡ position (λ byte. byte == 10) bytes.now }
{
    bytes.iter().position(|byte| *byte == NEWLINE)
}

/// Refuses a line that passes a limit, of which so many bytes are known, `cost` with its newline.
pub fn check_limits(taken: u64, size: u64, cost: u64) -> Result<(), LineFault>
    requires { taken + cost < 18446744073709551616 }
    ensures within { OnOk result (limit_passed taken size cost ≡ None) }
    ensures passed { IfErr result (λ fault. limit_passed taken size cost ≡ Some fault) }
{
    if size > LONGEST_LINE && taken <= LONGEST_SCRIPT - LONGEST_LINE {
        Err(LineFault::TooLong)
    } else if taken + cost > LONGEST_SCRIPT {
        Err(LineFault::ScriptTooLong)
    } else {
        Ok(())
    }
}
