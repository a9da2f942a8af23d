//! What an audit finds against a store.

use store_trait::Name;

/// The first of the ten rules that fails, with the first name at which it does; or more cells than an audit
/// reads.
#[derive(Drop)]
pub enum Finding {
    Unsound { rule: u8, name: Name },
    TooManyCells,
}
