//! Lines of a source, and pieces put to a sink.
ghost use Rattle.std.specs.Prelude.{[], false};

use doc_value::OutOfMemory;
use std::alloc::Global;
use std::test::Fail;
use txn_io::{Failed, LineFault, Lines, MemorySink, MemorySource, PourFault, Sink, Source, pour};

/// A source or a sink that handles one byte a call.
#[derive(Drop)]
struct ByteWise<T>(T);

impl<T: Source> Source for ByteWise<T> {
    ghost tells = { false };

    ghost rest = { λ _. [] };

    ghost faults = { λ s. T.faults s.0 };

    fn take(&mut self, into: &mut [u8]) -> Result<usize, Failed> {
        if into.is_empty() {
            return Ok(0);
        }
        self.0.take(&mut into[..1])
    }
}

impl<T: Sink> Sink for ByteWise<T> {
    ghost tells = { false };

    ghost written = { λ _. [] };

    ghost faults = { λ s. T.faults s.0 };

    fn put(&mut self, bytes: &[u8]) -> Result<usize, Failed> {
        if bytes.is_empty() {
            return Ok(0);
        }
        self.0.put(&bytes[..1])
    }
}

/// Scripts, and their lines, each followed by a bar.
const SCRIPTS: [(&[u8], &[u8]); 6] = [
    (b"", b""),
    (b"\n", b"|"),
    (b"a", b"a|"),
    (b"ab\ncd\n", b"ab|cd|"),
    (b"ab\n\ncd", b"ab||cd|"),
    (b"\r\n{}\n\n", b"\r|{}||"),
];

/// A source of lines of so many bytes, the last number for the first line.
#[derive(Drop)]
struct LongLines {
    lengths: Vec<usize>,
}

impl Source for LongLines {
    ghost tells = { false };

    ghost rest = { λ _. [] };

    ghost faults = { λ _. 0 };

    fn take(&mut self, into: &mut [u8]) -> Result<usize, Failed> {
        if into.is_empty() {
            return Ok(0);
        }
        let Some(left) = self.lengths.last_mut() else {
            return Ok(0);
        };
        if *left > 0 {
            let count = into.len().min(*left);
            into[..count].fill(b'x');
            *left -= count;
            return Ok(count);
        }
        let _ = self.lengths.pop();
        into[0] = b'\n';
        Ok(1)
    }
}

/// The lines of a short script, each followed by a bar.
fn barred<S: Source>(alloc: Global, source: &mut S) -> Result<Vec<u8>, LineFault> {
    let mut lines = Lines::new();
    let mut all = Vec::new(alloc);
    for _ in 0..10 {
        let Some(line) = lines.next(alloc, source)? else {
            break;
        };
        all.extend_from_slice(&line)?;
        all.extend_from_slice(b"|")?;
    }
    Ok(all)
}

/// Whether a script has those lines, taken at once and byte by byte.
fn has_lines(alloc: Global, script: &[u8], expected: &[u8]) -> Result<bool, Fail> {
    let mut whole = MemorySource::new(script.to_vec(alloc)?, Vec::new(alloc));
    let mut slow = ByteWise(MemorySource::new(script.to_vec(alloc)?, Vec::new(alloc)));
    Ok(
        barred(alloc, &mut whole)?.as_slice() == expected
            && barred(alloc, &mut slow)?.as_slice() == expected,
    )
}

/// How many lines are read, and the fault behind them, told twice.
fn refused<S: Source>(alloc: Global, source: &mut S) -> (u64, Option<LineFault>) {
    let mut lines = Lines::new();
    for count in 0..3 {
        if let Err(fault) = lines.next(alloc, source) {
            let again = lines.next(alloc, source).err();
            return (count, again.filter(|other| *other == fault));
        }
    }
    (3, None)
}

/// Whether a failing source, and a line that is too long, are told behind a first line.
fn are_refusals_told(alloc: Global) -> Result<bool, Fail> {
    let bytes = b"a\nb".to_vec(alloc)?;
    let mut failing = ByteWise(MemorySource::new(bytes, [3].to_vec(alloc)?));
    let lengths = vec![in alloc; 16_777_217, 16_777_216]?;
    let mut long = LongLines { lengths };
    Ok(
        refused(alloc, &mut failing) == (1, Some(LineFault::ReadFault))
            && refused(alloc, &mut long) == (1, Some(LineFault::TooLong)),
    )
}

#[test]
fn lines_are_the_bytes_between_newlines(rt: HostRuntime) -> Result<(), Fail> {
    for (script, expected) in SCRIPTS {
        assert!(rt; has_lines(rt.alloc(), script, expected)?);
    }
    assert!(rt; are_refusals_told(rt.alloc())?);
    Ok(())
}

/// A sink with so much room, of which the numbered call fails.
fn sink(alloc: Global, room: u64, fails: u64) -> Result<MemorySink, OutOfMemory> {
    MemorySink::new(alloc, room, vec![in alloc; fails]?)
}

/// Whether a piece goes byte by byte into a sink that has room for it, and no more.
fn is_put_slowly(alloc: Global) -> Result<bool, OutOfMemory> {
    let mut slow = ByteWise(sink(alloc, 4, 0)?);
    Ok(
        pour(&mut slow, b"abcd") == Ok(())
            && slow.0.written() == b"abcd".as_slice()
            && pour(&mut slow, b"") == Ok(())
            && pour(&mut slow, b"e") == Err(PourFault::Sink),
    )
}

/// Whether as much is put as there is room for.
fn is_put_in_part(alloc: Global) -> Result<bool, OutOfMemory> {
    let mut small = sink(alloc, 3, 0)?;
    Ok(pour(&mut small, b"abcd") == Err(PourFault::Sink) && small.written() == b"abc".as_slice())
}

/// Whether a sink that failed once takes what comes behind.
fn is_put_again(alloc: Global) -> Result<bool, OutOfMemory> {
    let mut failing = sink(alloc, 8, 2)?;
    Ok(
        pour(&mut failing, b"ab") == Ok(())
            && pour(&mut failing, b"cd") == Err(PourFault::Sink)
            && pour(&mut failing, b"ef") == Ok(())
            && failing.written() == b"abef".as_slice(),
    )
}

#[test]
fn pieces_are_put_whole_or_a_fault_is_told(rt: HostRuntime) -> Result<(), Fail> {
    assert!(rt; is_put_slowly(rt.alloc())?);
    assert!(rt; is_put_in_part(rt.alloc())?);
    assert!(rt; is_put_again(rt.alloc())?);
    Ok(())
}
