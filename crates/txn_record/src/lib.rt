//! Transactions as they are kept: operations, records and entries.
//!
//! A value is read as exactly the operations that it is, or refused by the first fault of the first faulty
//! operation (`Ops::read`), and what they print as is read as them again. `chain` gives the revision number
//! that each operation finds, and where each key ends.
#![tactic(auto)]

mod entry;
mod equality;
mod fault;
mod keys;
mod laws;
mod op;
mod ops;
mod print;
mod read;
mod record;
mod revnos;
mod state;

pub use entry::{Entry, Outcome};
pub use equality::same_record_is_equality;
pub use fault::{OpFault, OpsFault};
pub use laws::{
    chains_follow, changes_are_local, numbers_stand, operations_alone, operations_read_back,
    orders_grow,
};
pub use op::{Assert, Change, Op};
pub use ops::Ops;
pub use print::{id_value, push_field};
pub use record::{Record, copy_info, copy_revnos};
pub use revnos::{Chained, chain, has_room};
pub use state::State;
