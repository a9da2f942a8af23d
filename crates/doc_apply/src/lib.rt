//! Updates made to bodies.
//!
//! `apply` gives exactly the body after an update by the definition `updated` of `doc_update`, and None
//! exactly where it doesn't fit; body and update are gone over once. `fits` tells that from the body as
//! it is, without memory.
#![tactic(auto)]

mod applying;
mod effect;
mod fitting;
mod place;
mod put;
mod together;

pub use applying::apply;
pub use fitting::fits;
