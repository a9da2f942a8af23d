//! A script as it is played over a store, statement by statement: cells are placed, transactions wait, a batch
//! is run, and documents, cells and decisions are shown.
//!
//! A statement does what `Performs` says of it, or is refused by the first objection to it, or leaves what
//! `HasLeft` says with its cause; each keeps what holds between two statements (`Session::perform#done`,
//! `#against`, `#refused`, `#kept`). What comes of a statement is a value: lines are the program's.
#![tactic(auto)]

mod admission;
mod answer;
mod batch;
mod finding;
mod objection;
mod reading;
mod refusal;
mod run;
mod session;
mod settling;

pub use admission::is_empty;
pub use answer::{Answer, RecordState};
pub use batch::Batch;
pub use finding::Finding;
pub use objection::Objection;
pub use refusal::Refusal;
pub use run::Run;
pub use session::{Session, lets_run};
