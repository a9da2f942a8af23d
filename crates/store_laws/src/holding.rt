//! What the owner of a key holds, by the key's two cells.
ghost use Rattle.std.specs.Prelude.{◌≡◌};
ghost use Rattle.txn_key.specs.declared.key.Key.{Key};
ghost use Rattle.store_trait.specs.Contents.{Content};
ghost use Rattle.store_laws.specs.View.{look, doc_at, stash_at, owner_queue, owner_held};

/// The owner queue of a key is its owner's, and what is held is the owner's number, and its body where it
/// is a document. Which cell owns is said by the two cells alone.
pub fn owning_a_key()
    ensures queue { (c : Content) (key : Key) →
        (look c).queue_at key ≡ owner_queue (doc_at c key) (stash_at c key) }
    ensures held { (c : Content) (key : Key) →
        (look c).held_at key ≡ owner_held (doc_at c key) (stash_at c key) }
{}
