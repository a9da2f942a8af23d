ghost use Rattle.std.specs.Prelude.{◌≡◌, ◌↔◌, IfOk, IsTrue};
ghost use Rattle.std.specs.Cmp.{IsTotalOrder};
ghost use Rattle.std.specs.FinMap.{IsAntisymmetric};
ghost use Rattle.doc_value.specs.declared.value.Value.{out-Value};
ghost use Rattle.txn_key.specs.Keys.{key_cmp};
ghost use Rattle.txn_key.specs.Syntax.{is_collection, is_text_id, doc_id_of, key_in};

use doc_value::{DocId, OutOfMemory, Text, Value};
use std::alloc::Global;
use std::cmp::Ordering;

/// The most bytes of a collection's name.
const MAX_COLLECTION: usize = 120;

/// The most bytes of a text that is a document's id.
const MAX_TEXT_ID: usize = 1024;

/// Which document: the name of its collection, and its id there. Keys are ordered by collection name in
/// bytes, then text ids before whole-number ids, then texts by bytes and numbers by value.
#[derive(Drop)]
pub struct Key {
    pub c: Text,
    pub d: DocId,
}

impl Key {
    /// Reads a key from a collection and an id: a text of 1 to 120 bytes with no NUL that is not `_id`, and
    /// a text of at most 1,024 bytes with no NUL or a whole number. Other values are no key.
    pub fn read(alloc: Global, c: &Value, d: &Value) -> Result<Option<Key>, OutOfMemory>
        ensures { IfOk result (λ key. key ≡ key_in c.now d.now) }
    {
        let Value::Text(c) = c else {
            return Ok(None);
        };
        if !is_collection_name(c.as_bytes()) {
            return Ok(None);
        }
        let Some(d) = read_id(alloc, d)? else {
            return Ok(None);
        };
        let c = c.copy(alloc)?;
        Ok(Some(Key { c, d }))
    }

    /// An equal key.
    pub fn copy(&self, alloc: Global) -> Result<Key, OutOfMemory>
        ensures { IfOk result (λ copy. copy ≡ self.now) }
    {
        let c = self.c.copy(alloc)?;
        let d = self.d.copy(alloc)?;
        Ok(Key { c, d })
    }

    /// How the key stands to another in the order of keys.
    pub fn compare(&self, other: &Key) -> Ordering
        ensures { result ≡ key_cmp self.now other.now }
    {
        match self.c.compare(&other.c) {
            Ordering::Equal => self.d.compare(&other.d),
            unequal => unequal,
        }
    }

    /// Whether it is the same key.
    pub fn equals(&self, other: &Key) -> bool
        ensures { IsTrue result ↔ (self.now ≡ other.now) }
    {
        self.compare(other) == Ordering::Equal
    }
}

fn read_id(alloc: Global, d: &Value) -> Result<Option<DocId>, OutOfMemory>
    ensures { IfOk result (λ id. id ≡ doc_id_of (out-Value d.now)) }
{
    match d {
        Value::Text(text) => {
            if is_id_text(text.as_bytes()) {
                Ok(Some(DocId::Text(text.copy(alloc)?)))
            } else {
                Ok(None)
            }
        }
        Value::Int(number) => Ok(Some(DocId::Int(*number))),
        _ => Ok(None),
    }
}

fn is_collection_name(name: &[u8]) -> bool
    ensures { result ≡ is_collection name.now }
{
    !(name.is_empty()
        || name.len() > MAX_COLLECTION
        || name.contains(&0)
        || name == b"_id".as_slice())
}

fn is_id_text(text: &[u8]) -> bool
    ensures { result ≡ is_text_id text.now }
{
    !(text.len() > MAX_TEXT_ID || text.contains(&0))
}

/// A law: the order of keys is total, and only equal keys tie in it.
pub fn keys_are_ordered()
    ensures total { IsTotalOrder key_cmp }
    ensures same { IsAntisymmetric key_cmp }
{}
