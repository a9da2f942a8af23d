//! What names transactions and documents: ids, tokens and keys; and documents in the order of their keys.
//!
//! Ids, tokens and keys are read exactly from texts and values, or are none (`TxnId::read`, `Token::read`,
//! `Key::read`), and what is printed of a token reads as it again. Their orders are total, and only equal
//! ones tie. `distinct_keys` gives keys in order, each once; `Docs` is the map from keys to bodies.
#![tactic(auto)]

mod docs;
mod id;
mod key;
mod keys;

pub use docs::{Doc, Docs, documents_rise};
pub use id::{Token, TxnId, ids_are_ordered, read_nonce, tokens_read_back};
pub use key::{Key, keys_are_ordered};
pub use keys::{distinct_keys, place_of};
