//! The first parts of a runner: a record is prepared, and what stands before it is scanned.
//!
//! A part is made from a record, and each of its steps makes one call on the store. Between two steps
//! anybody may change the store by calls of runners (`Since`): what a part knows is kept by those, as long as
//! nobody else gives a preparation's record the nonce that was drawn for it (`IsNotGiven`). A step asks for
//! nothing else.
#![tactic(auto)]

mod calls;
mod error;
mod key_queue;
mod laws;
mod prepare;
mod scan;
mod sight;
mod token_list;

pub use calls::{edit, read};
pub use error::StepError;
pub use laws::{preparations_last, reading_a_record, reading_a_scan, scans_last};
pub use prepare::{Prepare, PrepareStep};
pub use scan::{Scan, ScanStep};
