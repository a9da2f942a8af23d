//! A store in memory, which tells its content after each call: for runs and for tests.
//!
//! Each call is counted, whatever it answers. It fails exactly where its number was chosen, or 2^63
//! calls were made; otherwise it answers by the content, or is refused for memory, and then the
//! content stays (`MemoryStore::edit#answered`). What is told afterwards is said whole: the log of
//! the edits that changed cells, and the counts of calls and of faults.
#![tactic(auto)]

mod log;
mod memory;
mod positions;
mod silent;
mod slot;
mod store;

pub use memory::MemoryStore;
pub use silent::SilentStore;
