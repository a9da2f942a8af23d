//! Values, bodies, paths and their JSON text.
//!
//! What is read is exactly the value of the text, or the first fault by the format's order; what is
//! printed is exactly the value's compact text, which reads back as the value (`reads_back`). A body, a
//! path and what a path leads to are exactly those of the definitions in `specs/`; where the names of a
//! value are known to be in order (`is_ordered`), fields are found by halving. Copies are equal, and
//! looking up, equality and order take no memory.
#![tactic(auto)]

mod body;
mod doc_id;
mod equality;
mod fault;
mod laws;
mod lookup;
mod name;
mod nesting;
mod ordered;
mod path;
mod print;
mod read;
mod text;
mod value;

pub use body::{MAX_BODY_NESTING, read_body};
pub use doc_id::DocId;
pub use fault::{BodyFault, PathFault, ValueFault};
pub use laws::{reads_back, same_is_equality};
pub use lookup::{Lookup, get};
pub use ordered::is_ordered;
pub use path::{Path, is_path, split_parts};
pub use print::{print_value, push_text, push_value};
pub use read::read_value;
pub use text::{OutOfMemory, Text};
pub use value::{Field, Fields, Named, Value, copy_items};
