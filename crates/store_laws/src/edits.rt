//! What an edit changes: one cell, where it hits, and that exactly as its kind says.
ghost use Rattle.std.specs.Prelude.{◌≡◌, ◌≢◌, ℕ, ◌<◌, ℤ, true, List, Option, Some, None, is_some, unwrap_or};
ghost use Rattle.std.specs.FinMap.{get};
ghost use Rattle.doc_value.specs.declared.value.Value.{Value};
ghost use Rattle.doc_update.specs.Updates.{updated};
ghost use Rattle.txn_key.specs.declared.id.Token.{Token};
ghost use Rattle.txn_key.specs.declared.id.TxnId.{TxnId};
ghost use Rattle.txn_key.specs.declared.key.Key.{Key};
ghost use Rattle.txn_record.specs.declared.record.Record.{Record};
ghost use Rattle.txn_record.specs.declared.state.State.{State};
ghost use Rattle.store_trait.specs.Contents.{Content};
ghost use Rattle.store_trait.specs.Edits.{hit, edited, is_updatable, nonce_limit};
ghost use Rattle.store_trait.specs.Names.{may_stand};
ghost use Rattle.store_laws.specs.Soundness.{IsSound};
ghost use Rattle.store_laws.specs.View.{record_at, doc_at, stash_at, counter};
ghost use Rattle.store_trait.specs.declared.cell.Cell.{Cell};
ghost use Rattle.store_trait.specs.declared.cell.DocCell.{DocCell};
ghost use Rattle.store_trait.specs.declared.edit.Edit.{Edit};
ghost use Rattle.store_trait.specs.declared.edit.Edit.TheVariants as edit;
ghost use Rattle.store_trait.specs.declared.name.Name.{Name};
ghost use Rattle.store_trait.specs.declared.name.Name.TheVariants as name;
ghost use Rattle.store_laws.specs.Hits.{HasInserted, HasMoved, HasAdded, HasUpdated, HasDrawn};

/// An edit changes at most the cell under its name.
pub fn edits_are_local()
    ensures here { (c : Content) (n : Name) (e : Edit) →
        get (edited c n e) n ≡ unwrap_or (hit e n (get c n)) (get c n) }
    ensures others { (c : Content) (n : Name) (e : Edit) (m : Name) → m ≢ n →
        get (edited c n e) m ≡ get c m }
    ensures records { (c : Content) (n : Name) (e : Edit) (id : TxnId) → name.Record id ≢ n →
        record_at (edited c n e) id ≡ record_at c id }
    ensures docs { (c : Content) (n : Name) (e : Edit) (key : Key) → name.Doc key ≢ n →
        doc_at (edited c n e) key ≡ doc_at c key }
    ensures stashes { (c : Content) (n : Name) (e : Edit) (key : Key) → name.Stash key ≢ n →
        stash_at (edited c n e) key ≡ stash_at c key }
    ensures counter { (c : Content) (n : Name) (e : Edit) → name.Nonce ≢ n →
        counter (edited c n e) ≡ counter c }
{}

/// What an edit that hit had found, and what it left.
pub fn edits_leave()
    ensures inserted { (c : Content) (id : TxnId) (rec : Record) →
        is_some (hit (edit.InsertRecord rec) (name.Record id) (get c (name.Record id))) ≡ true →
        HasInserted c (edited c (name.Record id) (edit.InsertRecord rec)) id rec }
    ensures moved { (c : Content) (id : TxnId) (from to : State) (nonce : Option ℕ)
        (revnos : Option (List ℤ)) →
        is_some (hit (edit.Move from to nonce revnos) (name.Record id) (get c (name.Record id))) ≡
        true →
        HasMoved c (edited c (name.Record id) (edit.Move from to nonce revnos)) id from to nonce
        revnos }
    ensures added { (c : Content) (key : Key) (token : Token) →
        is_some (hit (edit.AddToken token) (name.Doc key) (get c (name.Doc key))) ≡ true →
        HasAdded c (edited c (name.Doc key) (edit.AddToken token)) key token }
    ensures updated { (c : Content) (key : Key) (revno : ℤ) (token : Token) (update : Value) →
        is_some (hit (edit.Update revno token update) (name.Doc key) (get c (name.Doc key))) ≡
        true →
        HasUpdated c (edited c (name.Doc key) (edit.Update revno token update)) key revno token
        update }
    ensures drawn { (c : Content) →
        is_some (hit edit.DrawNonce name.Nonce (get c name.Nonce)) ≡ true →
        HasDrawn c (edited c name.Nonce edit.DrawNonce) }
{}

/// Where an edit hits.
pub fn edits_hit()
    ensures inserts { (c : Content) (id : TxnId) (rec : Record) → get c (name.Record id) ≡ None →
        id ≡ rec.id →
        is_some (hit (edit.InsertRecord rec) (name.Record id) (get c (name.Record id))) ≡ true }
    ensures moves { (c : Content) (id : TxnId) (from to : State) (nonce : Option ℕ)
        (revnos : Option (List ℤ)) (rec : Record) →
        record_at c id ≡ Some rec → rec.state ≡ from →
        is_some (hit (edit.Move from to nonce revnos) (name.Record id) (get c (name.Record id))) ≡
        true }
    ensures adds { (c : Content) (key : Key) (token : Token) (doc : DocCell) →
        doc_at c key ≡ Some doc → doc.remove ≡ None →
        is_some (hit (edit.AddToken token) (name.Doc key) (get c (name.Doc key))) ≡ true }
    ensures updates { (c : Content) (key : Key) (revno : ℤ) (token : Token) (update body : Value)
        (doc : DocCell) →
        doc_at c key ≡ Some doc → is_updatable doc revno token ≡ true →
        updated update doc.body ≡ Some body →
        is_some (hit (edit.Update revno token update) (name.Doc key) (get c (name.Doc key))) ≡
        true }
    ensures draws { (c : Content) → IsSound c → counter c < nonce_limit →
        is_some (hit edit.DrawNonce name.Nonce (get c name.Nonce)) ≡ true }
    ensures places { (c : Content) (n : Name) (x : Cell) → get c n ≡ None → may_stand n x ≡ true →
        is_some (hit (edit.Place x) n (get c n)) ≡ true }
{}
