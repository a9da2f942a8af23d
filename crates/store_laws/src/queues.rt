//! What a call changes of owner queues: nothing, or one token comes to the end of one.
ghost use Rattle.txn_key.specs.declared.id.Token.{Token};
ghost use Rattle.txn_key.specs.declared.id.TxnId.{TxnId};
ghost use Rattle.txn_key.specs.declared.key.Key.{Key};
ghost use Rattle.store_trait.specs.Contents.{Content};
ghost use Rattle.store_trait.specs.Edits.{edited};
ghost use Rattle.store_laws.specs.Known.{HasNoDocAlone};
ghost use Rattle.store_laws.specs.Queues.{AddsAtEnd, QueuesStay};
ghost use Rattle.store_laws.specs.Soundness.{IsSound};
ghost use Rattle.store_laws.specs.View.{look};
ghost use Rattle.store_trait.specs.declared.edit.Edit.{Edit};
ghost use Rattle.store_trait.specs.declared.edit.Edit.TheVariants as edit;
ghost use Rattle.store_trait.specs.declared.name.Name.TheVariants as name;

/// A token that is added comes to the end of its key's owner queue, or to none; edits of records and of
/// the counter leave all owner queues.
pub fn adding_to_one_queue()
    ensures docs { (c : Content) (key : Key) (token : Token) →
        AddsAtEnd (look c) (look (edited c (name.Doc key) (edit.AddToken token))) key token }
    ensures entries { (c : Content) (key : Key) (token : Token) →
        IsSound c → HasNoDocAlone c key →
        AddsAtEnd (look c) (look (edited c (name.Stash key) (edit.AddToken token))) key token }
    ensures records { (c : Content) (id : TxnId) (e : Edit) →
        QueuesStay (look c) (look (edited c (name.Record id) e)) }
    ensures nonce { (c : Content) (e : Edit) →
        QueuesStay (look c) (look (edited c name.Nonce e)) }
{}
