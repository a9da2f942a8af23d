//! Cells under names, the edits of one cell, and the trait of a store that makes them.
//!
//! An edit changes its cell where its guard holds, and nothing else: what it makes of the cell is `hit`,
//! by which both `hits` and `change` are stated. A call on a store (`Store`) that tells its content
//! answers what that held, or the cell after an edit, and a refused call leaves it; the trail of contents
//! goes on. On any store each call is counted, whatever it answers, and fails only where the count of
//! faults rose.
#![tactic(auto)]

mod cell;
mod changes;
mod edit;
mod equality;
mod guards;
mod hit;
mod name;
mod side;
mod store;

pub use cell::{Cell, DocCell, Named, StashCell, Tokens, counter_in, doc_in, record_in, stash_in};
pub use changes::{Changed, change, edits_keep_kinds};
pub use edit::{Edit, Edited};
pub use equality::same_cell_is_equality;
pub use hit::hits;
pub use name::{Name, names_are_ordered};
pub use side::{Side, owner};
pub use store::{Store, StoreError};
