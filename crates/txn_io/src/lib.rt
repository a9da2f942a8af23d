//! Where the program meets its input and output: bytes come from a source and go to a sink.
//!
//! The traits say what a call gives over a source or sink that tells its bytes, and that a
//! failure comes only from the outside, where its count rose. The script is read by lines.
#![tactic(auto)]

mod lines;
mod memory_sink;
mod memory_source;
mod pouring;
mod read_ahead;
mod sink;
mod source;
mod standard;

pub use lines::{LineFault, Lines};
pub use memory_sink::MemorySink;
pub use memory_source::MemorySource;
pub use pouring::{PourFault, pour};
pub use sink::Sink;
pub use source::{Failed, Source};
pub use standard::{StdSink, StdSource};
