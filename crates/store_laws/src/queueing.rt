//! How a record comes to wait on its keys: a nonce is drawn for it, and its token is added.
ghost use Rattle.std.specs.Prelude.{◌≡◌, ◌≢◌, ℕ, ◌<◌, ℤ, List, Option, Some, None, ◌⊎◌};
ghost use Rattle.txn_key.specs.declared.id.Token.{Token};
ghost use Rattle.txn_key.specs.declared.id.TxnId.{TxnId};
ghost use Rattle.txn_key.specs.declared.key.Key.{Key};
ghost use Rattle.txn_record.specs.declared.record.Record.{Record};
ghost use Rattle.txn_record.specs.declared.state.State.{State};
ghost use Rattle.txn_record.specs.declared.state.State.TheVariants as state;
ghost use Rattle.store_trait.specs.Contents.{Content};
ghost use Rattle.store_trait.specs.Edits.{edited};
ghost use Rattle.store_laws.specs.Soundness.{IsSound};
ghost use Rattle.store_laws.specs.Steps.{IsQuiet};
ghost use Rattle.store_laws.specs.View.{look, record_at, counter, valid_nonce, HasKey};
ghost use Rattle.store_trait.specs.declared.edit.Edit.{Edit};
ghost use Rattle.store_trait.specs.declared.edit.Edit.TheVariants as edit;
ghost use Rattle.store_trait.specs.declared.name.Name.TheVariants as name;
ghost use Rattle.store_trait.specs.Owners.{epoch};
ghost use Rattle.store_laws.specs.Entries.{stash_epoch};
ghost use Rattle.store_laws.specs.Hits.{HasAdded};
ghost use Rattle.store_laws.specs.Nonces.{NoncesCome, NoncesStay};
ghost use Rattle.store_laws.specs.Readiness.{In};

/// Drawing a nonce decides nothing, and the meaning stays.
pub fn drawing_a_nonce()
    ensures { (c : Content) → IsSound c → IsQuiet c (edited c name.Nonce edit.DrawNonce) }
{}

/// The nonce of a prepared record was drawn, and a preparing record has none: so no record has the nonce
/// that is drawn next.
pub fn nonces_are_fresh()
    ensures below { (c : Content) (id : TxnId) (nonce : ℕ) → IsSound c →
        valid_nonce (look c) id ≡ Some nonce → nonce < counter c }
    ensures preparing { (c : Content) (id : TxnId) (rec : Record) → record_at c id ≡ Some rec →
        rec.state ≡ state.Preparing →
        valid_nonce (look c) id ≡ None }
    ensures same { (c d : Content) (id : TxnId) → record_at d id ≡ record_at c id →
        valid_nonce (look d) id ≡ valid_nonce (look c) id }
{}

/// A record comes to have a nonce only by the move that gives it. So a nonce that one runner drew is no
/// record's until that runner gives it.
pub fn nonces_are_given()
    ensures moved { (c : Content) (id : TxnId) (from to : State) (nonce : Option ℕ)
        (revnos : Option (List ℤ)) → IsSound c →
        NoncesCome (look c) (look (edited c (name.Record id) (edit.Move from to nonce revnos))) id
        nonce }
    ensures inserted { (c : Content) (id : TxnId) (rec : Record) → rec.state ≡ state.Preparing →
        NoncesStay (look c) (look (edited c (name.Record id) (edit.InsertRecord rec))) }
    ensures docs { (c : Content) (key : Key) (e : Edit) →
        NoncesStay (look c) (look (edited c (name.Doc key) e)) }
    ensures stashes { (c : Content) (key : Key) (e : Edit) →
        NoncesStay (look c) (look (edited c (name.Stash key) e)) }
    ensures drawn { (c : Content) (e : Edit) → NoncesStay (look c) (look (edited c name.Nonce e)) }
{}

/// Adding a token decides nothing, and the meaning stays: a token that was drawn, of a record that is
/// there, has the key and doesn't have that nonce yet. Where it was added, it waits in the owner queue,
/// or a stash entry is past the document.
pub fn adding_a_token()
    ensures quiet { (c : Content) (key : Key) (token : Token) →
        IsSound c → HasKey (look c) token.id key → token.nonce < counter c →
        valid_nonce (look c) token.id ≢ Some token.nonce →
        IsQuiet c (edited c (name.Doc key) (edit.AddToken token)) }
    ensures waits { (c d : Content) (key : Key) (token : Token) (added : HasAdded c d key token) →
        In token ((look d).queue_at key) ⊎ (epoch added.doc.revno < stash_epoch d key) }
{}
