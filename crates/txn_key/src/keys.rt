//! Keys in order, each once, and where a key stands among them.
ghost use Rattle.std.specs.Prelude.{◌≡◌, ◌<◌, ◌≤◌, true, map, length, IfOk, IfErr, OnOk};
ghost use Rattle.std.specs.FinMap.{insert};
ghost use Rattle.std.specs.List.{list_any};
ghost use Rattle.txn_key.specs.KeySets.{distinct, set_of};
ghost use Rattle.txn_key.specs.Keys.{same_key};
ghost use Rattle.txn_key.specs.Places.{GoesAt, StandsAt, keys_rise};

use crate::key::Key;
use doc_value::OutOfMemory;
use sqlite_items::Items;
use std::alloc::Global;

/// The keys, each once, in key order. They are sorted first, so that each new key goes to the end and no key
/// moves.
pub fn distinct_keys(alloc: Global, keys: Vec<&Key>) -> Result<Items<Key>, OutOfMemory>
    ensures all { IfOk result (λ distinct_keys. distinct_keys ≡
        distinct (map (λ key. key.now) keys.entry.items)) }
    ensures rise { IfOk result (λ distinct_keys. keys_rise distinct_keys ≡ true) }
{
    let mut sorted = keys;
    sorted.sort_by(|key, other| key.compare(other))?;
    let mut found = Vec::new(alloc);
    for key in &sorted {
        add_key(alloc, &mut found, key)?;
    }
    Ok(Items::from_vec(found))
}

/// Adds a key to keys that rise, unless it is there.
fn add_key(alloc: Global, keys: &mut Vec<Key>, key: &Key) -> Result<(), OutOfMemory>
    requires { keys_rise keys.old.items ≡ true }
    ensures set { OnOk result (set_of keys.new.items ≡ insert (set_of keys.old.items) key.now tt) }
    ensures rise { OnOk result (keys_rise keys.new.items ≡ true) }
{
    if let Err(place) = seek(keys, key) {
        keys.insert(place, key.copy(alloc)?)?;
    }
    Ok(())
}

/// Where a key stands among keys that rise, or else where it would go.
fn seek(keys: &[Key], key: &Key) -> Result<usize, usize>
    requires { keys_rise keys.now ≡ true }
    ensures stands { IfOk result (λ place. StandsAt key.now place keys.now) }
    ensures goes { IfErr result (λ place. GoesAt key.now place keys.now) }
    ensures within { IfOk result (λ place. place < length keys.now) }
    ensures at_most { IfErr result (λ place. place ≤ length keys.now) }
{
    keys.binary_search_by(|other| other.compare(key))
}

/// Where a key stands that is there, among keys that rise.
pub fn place_of(keys: &[Key], key: &Key) -> usize
    requires rise { keys_rise keys.now ≡ true }
    requires there { list_any (same_key key.now) keys.now ≡ true }
    ensures stands { StandsAt key.now result keys.now }
    ensures within { result < length keys.now }
{
    match seek(keys, key) {
        Ok(place) => place,
        Err(place) => place,
    }
}
