ghost use Rattle.std.specs.Prelude.{◌≡◌, IfOk, ◌↔◌, IsTrue};
ghost use Rattle.doc_value.specs.Ids.{is_value_of_id, id_cmp};

use crate::text::{OutOfMemory, Text};
use crate::value::Value;
use std::alloc::Global;
use std::cmp::Ordering;

/// The id of a document in its collection: a text or a whole number.
#[derive(Drop)]
pub enum DocId {
    Text(Text),
    Int(i64),
}

impl DocId {
    /// An equal id.
    pub fn copy(&self, alloc: Global) -> Result<DocId, OutOfMemory>
        ensures { IfOk result (λ copy. copy ≡ self.now) }
    {
        match self {
            DocId::Text(text) => Ok(DocId::Text(text.copy(alloc)?)),
            DocId::Int(number) => Ok(DocId::Int(*number)),
        }
    }

    pub fn equals(&self, other: &DocId) -> bool
        ensures { IsTrue result ↔ (self.now ≡ other.now) }
    {
        match (self, other) {
            (DocId::Text(text), DocId::Text(other)) => text.equals(other),
            (DocId::Int(number), DocId::Int(other)) => *number == *other,
            (DocId::Text(_), DocId::Int(_)) => false,
            (DocId::Int(_), DocId::Text(_)) => false,
        }
    }

    /// The order of ids: texts by their bytes, before whole numbers by their values.
    pub fn compare(&self, other: &DocId) -> Ordering
        ensures { result ≡ id_cmp self.now other.now }
    {
        match (self, other) {
            (DocId::Text(text), DocId::Text(other)) => text.compare(other),
            (DocId::Text(_), DocId::Int(_)) => Ordering::Less,
            (DocId::Int(_), DocId::Text(_)) => Ordering::Greater,
            (DocId::Int(number), DocId::Int(other)) => number.cmp(other),
        }
    }

    /// Whether the value is the id.
    pub fn is_value(&self, value: &Value) -> bool
        ensures { result ≡ is_value_of_id self.now value.now }
    {
        match (self, value) {
            (DocId::Text(text), Value::Text(other)) => text.as_bytes() == other.as_bytes(),
            (DocId::Int(number), Value::Int(other)) => *number == *other,
            _ => false,
        }
    }
}
