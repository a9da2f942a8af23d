//! Two reads of a key, one after the other while others go on, show it as it was at one moment.
ghost use Rattle.std.specs.Prelude.{◌≡◌, ℕ, Some, List, Option};
ghost use Rattle.txn_key.specs.declared.id.Token.{Token};
ghost use Rattle.txn_key.specs.declared.id.TxnId.{TxnId};
ghost use Rattle.txn_key.specs.declared.key.Key.{Key};
ghost use Rattle.store_trait.specs.Contents.{Content};
ghost use Rattle.store_trait.specs.declared.cell.DocCell.{DocCell};
ghost use Rattle.store_trait.specs.declared.cell.StashCell.{StashCell};
ghost use Rattle.store_laws.specs.Found.{IsListed};
ghost use Rattle.store_laws.specs.Readiness.{token, In, Before};
ghost use Rattle.store_laws.specs.Since.{Since, IsOwnedAs, IsMoment};
ghost use Rattle.store_laws.specs.Soundness.{IsSound};
ghost use Rattle.store_laws.specs.View.{look, doc_at, stash_at, valid_nonce, owner_queue, owner_held};

/// A key's document is read first, and its stash entry later. At one moment between, the owner of the key
/// was the cell that these two show as its owner. So what a sound content says of owners held then.
pub fn reading_a_key()
    ensures one_moment { (first last : Content) (key : Key) → IsSound first → Since first last →
        IsMoment first last key (doc_at first key) (stash_at last key) }
    ensures queue { (c : Content) (key : Key) (doc : Option DocCell) (stash : Option StashCell) →
        IsOwnedAs c key doc stash →
        (look c).queue_at key ≡ owner_queue doc stash }
    ensures held { (c : Content) (key : Key) (doc : Option DocCell) (stash : Option StashCell) →
        IsOwnedAs c key doc stash →
        (look c).held_at key ≡ owner_held doc stash }
    ensures listed { (c : Content) (key : Key) (id : TxnId) (doc : Option DocCell)
        (stash : Option StashCell) (nonce : ℕ) (found : List Token) →
        IsOwnedAs c key doc stash → valid_nonce (look c) id ≡ Some nonce →
        ((x : Token) → Before x (token id nonce) (owner_queue doc stash) → In x found) →
        IsListed (look c) key id found }
{}
