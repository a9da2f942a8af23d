//! The program `txn`: it plays a script of statements over a store in memory.
//!
//! `command` is the top call. It reads statements from a source, line by line, makes one call on the
//! store at a time, and writes to a sink what each statement prints. How it ended is a status with a
//! cause; the store comes back with it.
#![tactic(auto)]

mod command;
mod done;
mod fault;
mod line;
mod output;
mod print;
mod stop;

use command::command;
use std::env;
use std::io::ErrorKind;
use std::process::ExitCode;
use store_memory::MemoryStore;
use txn_io::{Sink, StdSink, StdSource};

#[cfg(test)]
mod tests;

/// The status of want of memory, where it comes before the top call.
const NO_MEMORY: u8 = 8;

fn main(rt: HostRuntime) -> ExitCode {
    let alloc = rt.alloc();
    let mut words = Vec::new(alloc);
    match env::args(&rt) {
        // The first is the program's own name.
        Ok(args) => {
            for word in args.skip(1) {
                if words.push(word).is_err() {
                    return ExitCode::from(NO_MEMORY);
                }
            }
        }
        // A word that is no UTF-8 is in no grammar: the call without words says so.
        Err(error) => {
            if error.kind() == ErrorKind::OutOfMemory {
                return ExitCode::from(NO_MEMORY);
            }
        }
    }
    let mut input = StdSource::new(rt.stdin());
    let mut output = StdSink::new(rt.stdout());
    match MemoryStore::new(alloc, Vec::new(alloc)) {
        Ok(store) => {
            let done = command(alloc, words.as_slice(), &mut input, &mut output, store);
            ExitCode::from(done.status)
        }
        Err(_) => ExitCode::from(NO_MEMORY),
    }
}
