//! The cells of a store as they are listed: in the order of their names, each name once.
//!
//! What a content says of an id or a key is looked up among them by halving (`record_at`, `doc_at` and the
//! like). `Order` walks every owner queue once, and then tells which records are sealed and which ready;
//! `Standing` keeps the tokens of each queue as a set, and tells which tokens wait on which key.
#![tactic(auto)]

mod cells;
mod order;
mod queues;
mod standing;
mod tokens;
mod walks;

pub use cells::{body_at, counter, doc_at, number_at, owner_at, record_at, stash_at};
pub use order::Order;
pub use standing::Standing;
pub use tokens::has_tokens;
