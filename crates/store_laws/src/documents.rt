//! What a content means where no transaction is under way, and where nothing was removed yet.
ghost use Rattle.std.specs.Prelude.{◌≡◌};
ghost use Rattle.std.specs.FinMap.{get};
ghost use Rattle.txn_key.specs.Documents.{Docs};
ghost use Rattle.txn_key.specs.declared.key.Key.{Key};
ghost use Rattle.store_trait.specs.Contents.{Content};
ghost use Rattle.store_laws.specs.Meaning.{bodies, meaning};
ghost use Rattle.store_laws.specs.Soundness.{IsSound};
ghost use Rattle.store_laws.specs.View.{look};
ghost use Rattle.store_laws.specs.Alone.{IsAtRest};
ghost use Rattle.store_laws.specs.Plain.{IsPlain, body_at};

/// At rest nothing is pending: an applying record's token would stand in the queue of each of its keys.
/// So a content means the bodies that it holds.
pub fn meaning_at_rest()
    ensures { (c : Content) → IsSound c → IsAtRest (look c) → meaning c ≡ bodies c }
{}

/// In a content of documents alone each document owns its key. So its bodies are those of the
/// documents as they lie, and no other documents have the same body at each key.
pub fn bodies_as_they_lie()
    ensures body { (c : Content) (key : Key) → IsPlain c → get (bodies c) key ≡ body_at c key }
    ensures only { (c : Content) (docs : Docs) → IsPlain c →
        ((key : Key) → get docs key ≡ body_at c key) → docs ≡ bodies c }
{}
