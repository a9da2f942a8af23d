//! A runner that settles one transaction at a time finds each ready without gathering: every token that
//! it meets in a queue is its own transaction's, or of a settled one.
ghost use Rattle.std.specs.Prelude.{◌≡◌, ℤ, true, None};
ghost use Rattle.doc_value.specs.declared.value.Value.{Value};
ghost use Rattle.txn_key.specs.declared.id.Token.{Token};
ghost use Rattle.txn_key.specs.declared.id.TxnId.{TxnId};
ghost use Rattle.txn_key.specs.declared.key.Key.{Key};
ghost use Rattle.store_trait.specs.Contents.{Content};
ghost use Rattle.store_trait.specs.Edits.{edited};
ghost use Rattle.store_laws.specs.Later.{Later};
ghost use Rattle.store_laws.specs.Readiness.{In, IsReady};
ghost use Rattle.store_laws.specs.View.{View, look, stash_at, was_prepared, settled};
ghost use Rattle.store_trait.specs.declared.cell.Cell.TheVariants as cell;
ghost use Rattle.store_trait.specs.declared.edit.Edit.{Edit};
ghost use Rattle.store_trait.specs.declared.edit.Edit.TheVariants as edit;
ghost use Rattle.store_trait.specs.declared.name.Name.TheVariants as name;
ghost use Rattle.store_laws.specs.Alone.{IsAlone, IsAtRest};
ghost use Rattle.store_laws.specs.Hits.{HasAdded};
ghost use Rattle.store_laws.specs.Placed.{new_doc};

/// A prepared record among settled ones is ready. It may begin where all is at rest, and where it is
/// settled all is at rest again.
pub fn being_alone_makes_ready()
    ensures ready { (view : View) (id : TxnId) → IsAlone view id → was_prepared view id ≡ true →
        IsReady view id }
    ensures begins { (view : View) (id : TxnId) → IsAtRest view → IsAlone view id }
    ensures ends { (view : View) (id : TxnId) → IsAlone view id → settled view id ≡ true →
        IsAtRest view }
{}

/// Only an added token comes to a queue. So a record stays alone, and a content at rest, at each edit
/// that goes forward and adds no other record's token. On keys with no stash entry.
pub fn being_alone_lasts()
    ensures records { (c : Content) (id t : TxnId) (e : Edit) →
        Later c (edited c (name.Record t) e) →
        IsAlone (look c) id → IsAlone (look (edited c (name.Record t) e)) id }
    ensures nonce { (c : Content) (id : TxnId) (e : Edit) → Later c (edited c name.Nonce e) →
        IsAlone (look c) id → IsAlone (look (edited c name.Nonce e)) id }
    ensures updates { (c : Content) (id : TxnId) (key : Key) (revno : ℤ) (token : Token)
        (update : Value) → stash_at c key ≡ None →
        Later c (edited c (name.Doc key) (edit.Update revno token update)) →
        IsAlone (look c) id → IsAlone (look
        (edited c (name.Doc key) (edit.Update revno token update))) id }
    ensures tokens { (c : Content) (key : Key) (token : Token) → stash_at c key ≡ None →
        Later c (edited c (name.Doc key) (edit.AddToken token)) →
        IsAlone (look c) token.id → IsAlone (look (edited c (name.Doc key) (edit.AddToken token)))
        token.id }
    ensures added { (c d : Content) (key : Key) (token : Token) → HasAdded c d key token →
        stash_at d key ≡ None →
        In token ((look d).queue_at key) }
    ensures rests { (c : Content) (t : TxnId) (e : Edit) → Later c (edited c (name.Record t) e) →
        IsAtRest (look c) → IsAtRest (look (edited c (name.Record t) e)) }
    ensures places { (c : Content) (key : Key) (body : Value) → stash_at c key ≡ None →
        Later c (edited c (name.Doc key) (edit.Place (cell.Doc (new_doc body)))) →
        IsAtRest (look c) → IsAtRest (look
        (edited c (name.Doc key) (edit.Place (cell.Doc (new_doc body))))) }
{}
