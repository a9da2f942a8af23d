ghost use Rattle.std.specs.Prelude.{◌≡◌, IfOk, OnOk, OnErr};
ghost use Rattle.std.specs.declared.cmp.Ordering.TheVariants.{Less};
ghost use Rattle.std.specs.FinMap as map;
ghost use Rattle.doc_value.specs.declared.value.Value.{Value as Body};
ghost use Rattle.txn_key.specs.declared.key.Key.{Key as KeyValue};
ghost use Rattle.txn_key.specs.Documents.{Docs as Documents, pairs_of, IsPast};
ghost use Rattle.txn_key.specs.Keys.{key_cmp};

use crate::key::Key;
use doc_value::{OutOfMemory, Value};
use sqlite_items::Items;
use std::alloc::Global;
use std::marker::Model;

/// A document: its key and its body.
#[derive(Drop)]
pub struct Doc {
    pub key: Key,
    pub body: Value,
}

impl Doc {
    /// An equal document.
    pub fn copy(&self, alloc: Global) -> Result<Doc, OutOfMemory>
        ensures { IfOk result (λ copy. copy ≡ self.now) }
    {
        let key = self.key.copy(alloc)?;
        let body = self.body.copy(alloc)?;
        Ok(Doc { key, body })
    }
}

/// Documents in the order of their keys. Contracts see the map from keys to bodies.
#[derive(Drop)]
pub struct Docs {
    list: Items<Doc>,
}

impl Model for Docs {
    ghost use Rattle.std.specs.Prelude.{◌≡◌, true};
    ghost use Rattle.std.specs.FinMap.{FinMap, code, from_sorted, is_sorted};
    ghost use Rattle.doc_value.specs.contracts.value.Value as value;
    ghost use Rattle.doc_value.specs.declared.value.Value.{Value as Tree};
    ghost use Rattle.txn_key.specs.Documents.{pairs_of};
    ghost use Rattle.txn_key.specs.Keys.{key_cmp};
    ghost use Rattle.txn_key.specs.contracts.key.Key as key;

    ghost Value = { FinMap key_cmp Tree };

    ghost coded = { code key.the_row.coded value.the_row.coded };

    ghost view = { λ d. from_sorted (pairs_of d.list) };

    ghost invariant = { λ d. is_sorted key_cmp (pairs_of d.list) ≡ true };
}

impl Docs {
    /// No documents.
    pub fn new(alloc: Global) -> Docs
        ensures { result ≡ map.empty }
    {
        Docs {
            list: Items::new(alloc),
        }
    }

    /// The documents, in the order of their keys.
    pub fn as_slice(&self) -> &[Doc]
        ensures { pairs_of result.now ≡ map.entries self.now }
    {
        self.list.as_slice()
    }

    /// Adds a document whose key stands after all keys there.
    pub fn push(&mut self, doc: Doc) -> Result<(), OutOfMemory>
        requires { IsPast doc.key self.old }
        ensures ok { OnOk result (self.new ≡ map.insert self.old doc.key doc.body) }
        ensures err { OnErr result (self.new ≡ self.old) }
    {
        self.list.push(doc)
    }

    /// Equal documents.
    pub fn copy(&self, alloc: Global) -> Result<Docs, OutOfMemory>
        ensures { IfOk result (λ copy. copy ≡ self.now) }
    {
        let docs = self.list.as_slice();
        let mut list = Items::new(alloc);
        for doc in docs {
            list.push(doc.copy(alloc)?)?;
        }
        Ok(Docs { list })
    }
}

/// A law: a key stands after the documents' keys until one that isn't below it is added.
pub fn documents_rise()
    ensures empty { (key : KeyValue) → IsPast key map.empty }
    ensures push { (docs : Documents) (last : KeyValue) (body : Body) (key : KeyValue) →
        IsPast last docs → key_cmp last key ≡ Less →
        IsPast key (map.insert docs last body) }
{}
