ghost use Rattle.std.specs.Prelude.{◌≡◌, IfOk};
ghost use Rattle.std.specs.Cmp.{IsTotalOrder};
ghost use Rattle.std.specs.FinMap.{IsAntisymmetric};
ghost use Rattle.store_trait.specs.Names.{name_cmp};

use doc_value::OutOfMemory;
use std::alloc::Global;
use std::cmp::Ordering;
use txn_key::{Key, TxnId};

/// What a cell stands under. Names are ordered by kind as listed here, then by id or key.
#[derive(Drop)]
pub enum Name {
    Record(TxnId),
    Doc(Key),
    Stash(Key),
    Nonce,
}

impl Name {
    /// An equal name.
    pub fn copy(&self, alloc: Global) -> Result<Name, OutOfMemory>
        ensures { IfOk result (λ copy. copy ≡ self.now) }
    {
        match self {
            Name::Record(id) => Ok(Name::Record(*id)),
            Name::Doc(key) => Ok(Name::Doc(key.copy(alloc)?)),
            Name::Stash(key) => Ok(Name::Stash(key.copy(alloc)?)),
            Name::Nonce => Ok(Name::Nonce),
        }
    }

    /// How the name stands to another in the order of names.
    pub fn compare(&self, other: &Name) -> Ordering
        ensures { result ≡ name_cmp self.now other.now }
    {
        match (self, other) {
            (Name::Record(a), Name::Record(b)) => a.compare(b),
            (Name::Doc(a), Name::Doc(b)) => a.compare(b),
            (Name::Stash(a), Name::Stash(b)) => a.compare(b),
            (Name::Nonce, Name::Nonce) => Ordering::Equal,
            (Name::Record(_), _) => Ordering::Less,
            (_, Name::Record(_)) => Ordering::Greater,
            (Name::Doc(_), _) => Ordering::Less,
            (_, Name::Doc(_)) => Ordering::Greater,
            (Name::Stash(_), Name::Nonce) => Ordering::Less,
            (Name::Nonce, Name::Stash(_)) => Ordering::Greater,
        }
    }
}

/// A law: the order of names is total, and only equal names tie in it.
pub fn names_are_ordered()
    ensures total { IsTotalOrder name_cmp }
    ensures same { IsAntisymmetric name_cmp }
{}
