//! How a record comes to wait on a key that no document owns.
ghost use Rattle.std.specs.Prelude.{◌≡◌, ◌≢◌, ◌<◌, true, Some, is_some};
ghost use Rattle.std.specs.FinMap.{get};
ghost use Rattle.txn_key.specs.declared.id.Token.{Token};
ghost use Rattle.txn_key.specs.declared.key.Key.{Key};
ghost use Rattle.store_trait.specs.Contents.{Content};
ghost use Rattle.store_trait.specs.Edits.{hit, edited};
ghost use Rattle.store_laws.specs.Known.{HasNoDocAlone};
ghost use Rattle.store_laws.specs.Readiness.{In};
ghost use Rattle.store_laws.specs.Soundness.{IsSound};
ghost use Rattle.store_laws.specs.Steps.{IsQuiet};
ghost use Rattle.store_laws.specs.View.{look, counter, valid_nonce, HasKey};
ghost use Rattle.store_trait.specs.declared.edit.Edit.TheVariants as edit;
ghost use Rattle.store_trait.specs.declared.name.Name.TheVariants as name;

/// Adding a token to a stash entry, or to the entry that this makes, decides nothing, and the meaning
/// stays: a token that was drawn, of a record that is there, has the key and doesn't have that nonce yet.
/// An entry is made only where the key has no document, which it would not own. Where the token was
/// added, it waits in the owner queue.
pub fn adding_to_an_entry()
    ensures quiet { (c : Content) (key : Key) (token : Token) →
        IsSound c → HasKey (look c) token.id key → token.nonce < counter c →
        valid_nonce (look c) token.id ≢ Some token.nonce → HasNoDocAlone c key →
        IsQuiet c (edited c (name.Stash key) (edit.AddToken token)) }
    ensures waits { (c : Content) (key : Key) (token : Token) →
        IsSound c → HasKey (look c) token.id key → token.nonce < counter c →
        valid_nonce (look c) token.id ≢ Some token.nonce → HasNoDocAlone c key →
        is_some (hit (edit.AddToken token) (name.Stash key) (get c (name.Stash key))) ≡ true →
        In token ((look (edited c (name.Stash key) (edit.AddToken token))).queue_at key) }
{}
