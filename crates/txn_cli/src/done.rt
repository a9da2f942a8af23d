//! What a call came to.

use crate::fault::Fault;
use txn_play::Run;

/// What a call came to. The store comes back with it.
#[derive(Drop)]
pub struct Done<S> {
    pub status: u8,
    pub fault: Option<Fault>,
    pub store: S,
    pub runs: Vec<Run>,
}
