//! Updates: changes of a document's body by operators at paths.
//!
//! What is read is exactly the update that a value is, or the first fault by the format's order. What a
//! body is after it stands in `specs/`, and the laws of that here: the order of an update's operators
//! makes no difference, and an object stays one.
#![tactic(auto)]

mod change;
mod conflict;
mod fault;
mod laws;
mod operator;
mod path_order;
mod read;
mod shape;
mod update;

pub use change::{Change, changes_in};
pub use fault::UpdateFault;
pub use laws::{order_makes_no_difference, updates_keep_bodies};
pub use operator::Operator;
pub use path_order::sort_by_path;
pub use shape::{fields_of, is_object};
pub use update::Update;
