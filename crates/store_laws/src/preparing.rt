//! The move of a record that waits on its keys.
ghost use Rattle.std.specs.Prelude.{◌≡◌, ℕ, ◌<◌, Some, None};
ghost use Rattle.txn_key.specs.declared.id.TxnId.{TxnId};
ghost use Rattle.txn_key.specs.declared.key.Key.{Key};
ghost use Rattle.txn_record.specs.declared.record.Record.{Record};
ghost use Rattle.txn_record.specs.declared.state.State.TheVariants as state;
ghost use Rattle.store_trait.specs.Contents.{Content};
ghost use Rattle.store_trait.specs.Edits.{edited};
ghost use Rattle.store_laws.specs.Readiness.{token, In};
ghost use Rattle.store_laws.specs.Soundness.{IsSound};
ghost use Rattle.store_laws.specs.Steps.{IsQuiet};
ghost use Rattle.store_laws.specs.View.{look, record_at, counter, IsOn};
ghost use Rattle.store_trait.specs.declared.edit.Edit.TheVariants as edit;
ghost use Rattle.store_trait.specs.declared.name.Name.TheVariants as name;

/// A preparing record becomes prepared with a nonce that was drawn, once its token with that nonce
/// stands in the owner queue of each of its keys. Nothing is decided, and the meaning stays.
pub fn preparing_a_record()
    ensures { (c : Content) (id : TxnId) (nonce : ℕ) →
        IsSound c → nonce < counter c →
        ((rec : Record) (key : Key) → record_at c id ≡ Some rec → rec.state ≡ state.Preparing →
        IsOn key rec.ops → In (token id nonce) ((look c).queue_at key)) →
        IsQuiet c (edited c (name.Record id) (edit.Move state.Preparing state.Prepared (Some nonce)
        None)) }
{}
