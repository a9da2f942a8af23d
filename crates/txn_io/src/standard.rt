ghost use Rattle.std.specs.Prelude.{◌≡◌, [], false};

use super::sink::Sink;
use super::source::{Failed, Source};
use std::io::{Read, Stdin, Stdout, Write};

/// Standard input. It tells nothing of its bytes.
#[derive(Drop)]
pub struct StdSource {
    stdin: Stdin,
    faults: u64,
}

impl StdSource {
    pub fn new(stdin: Stdin) -> StdSource
        ensures { result.faults ≡ 0 }
    {
        StdSource { stdin, faults: 0 }
    }
}

impl Source for StdSource {
    ghost tells = { false };

    ghost rest = { λ _. [] };

    ghost faults = { λ s. s.faults };

    fn take(&mut self, into: &mut [u8]) -> Result<usize, Failed> {
        match self.stdin.read(into) {
            Ok(count) => Ok(count),
            Err(_) => {
                self.faults = self.faults.saturating_add(1);
                Err(Failed)
            }
        }
    }
}

/// Standard output. It tells nothing of its bytes.
#[derive(Drop)]
pub struct StdSink {
    stdout: Stdout,
    faults: u64,
}

impl StdSink {
    pub fn new(stdout: Stdout) -> StdSink
        ensures { result.faults ≡ 0 }
    {
        StdSink { stdout, faults: 0 }
    }
}

impl Sink for StdSink {
    ghost tells = { false };

    ghost written = { λ _. [] };

    ghost faults = { λ s. s.faults };

    /// A write that takes nothing of a piece is a failure.
    fn put(&mut self, bytes: &[u8]) -> Result<usize, Failed> {
        match self.stdout.write(bytes) {
            Ok(count) if count > 0 || bytes.is_empty() => Ok(count),
            _ => {
                self.faults = self.faults.saturating_add(1);
                Err(Failed)
            }
        }
    }
}
