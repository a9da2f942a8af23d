//! A store of documents alone, in which nothing was removed yet: the edits built so far leave it so.
ghost use Rattle.std.specs.Prelude.{ℤ};
ghost use Rattle.std.specs.FinMap.{empty};
ghost use Rattle.doc_value.specs.declared.value.Value.{Value};
ghost use Rattle.txn_key.specs.declared.id.Token.{Token};
ghost use Rattle.txn_key.specs.declared.id.TxnId.{TxnId};
ghost use Rattle.txn_key.specs.declared.key.Key.{Key};
ghost use Rattle.store_trait.specs.Contents.{Content};
ghost use Rattle.store_trait.specs.Edits.{edited};
ghost use Rattle.store_trait.specs.declared.cell.Cell.TheVariants as cell;
ghost use Rattle.store_trait.specs.declared.edit.Edit.{Edit};
ghost use Rattle.store_trait.specs.declared.edit.Edit.TheVariants as edit;
ghost use Rattle.store_trait.specs.declared.name.Name.TheVariants as name;
ghost use Rattle.store_laws.specs.Placed.{new_doc};
ghost use Rattle.store_laws.specs.Plain.{IsPlain};

/// No key comes to have a stash entry, and no document is marked, by an edit of a record or of the
/// counter, by a token, an update, or a new document.
pub fn staying_plain()
    ensures nothing { IsPlain empty }
    ensures records { (c : Content) (id : TxnId) (e : Edit) → IsPlain c →
        IsPlain (edited c (name.Record id) e) }
    ensures nonce { (c : Content) (e : Edit) → IsPlain c → IsPlain (edited c name.Nonce e) }
    ensures tokens { (c : Content) (key : Key) (token : Token) → IsPlain c →
        IsPlain (edited c (name.Doc key) (edit.AddToken token)) }
    ensures updates { (c : Content) (key : Key) (revno : ℤ) (token : Token) (update : Value) →
        IsPlain c →
        IsPlain (edited c (name.Doc key) (edit.Update revno token update)) }
    ensures places { (c : Content) (key : Key) (body : Value) → IsPlain c →
        IsPlain (edited c (name.Doc key) (edit.Place (cell.Doc (new_doc body)))) }
{}
