//! Whether a store is sound, and what it means.
//!
//! `audit` reads a store, one cell a call (`audit#once`), and answers its cells and the documents that it
//! means where all ten rules hold at every name (`audit#sound`); else exactly the first rule that fails and
//! the first name at which it does (`audit#fault`).
#![tactic(auto)]

mod bodies;
mod checked;
mod checking;
mod completion;
mod entries;
mod error;
mod marks;
mod nonces;
mod numbers;
mod on_chain;
mod reading;

pub use checked::{Checked, audit, check};
pub use error::AuditError;
pub use reading::list_cells;
