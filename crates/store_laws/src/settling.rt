//! How a decided record comes to its end: its updates, and the moves to applied and aborted. Whoever
//! makes these calls, and however often, the meaning stays.
ghost use Rattle.std.specs.Prelude.{◌≡◌, ◌<◌, ◌≤◌, unsigned_abs, false, ℕ, ℤ, List, [], ◌∷◌, Some, None, ◌⊎◌};
ghost use Rattle.doc_value.specs.declared.value.Value.{Value};
ghost use Rattle.txn_key.specs.declared.id.Token.{Token};
ghost use Rattle.txn_key.specs.declared.id.TxnId.{TxnId};
ghost use Rattle.txn_record.specs.Revnos.{has_effect};
ghost use Rattle.txn_record.specs.declared.op.Change.TheVariants.{Update};
ghost use Rattle.txn_record.specs.declared.op.Op.{Op};
ghost use Rattle.txn_record.specs.declared.record.Record.{Record};
ghost use Rattle.txn_record.specs.declared.state.State.TheVariants as state;
ghost use Rattle.store_trait.specs.Contents.{Content};
ghost use Rattle.store_laws.specs.Done.{HasPassed, AllPassed, IsTurn};
ghost use Rattle.store_trait.specs.Edits.{edited};
ghost use Rattle.store_laws.specs.Readiness.{token};
ghost use Rattle.store_laws.specs.Soundness.{IsSound};
ghost use Rattle.store_laws.specs.Steps.{IsStep, IsQuiet};
ghost use Rattle.store_laws.specs.View.{View, look, record_at, stash_at, epoch_at};
ghost use Rattle.store_trait.specs.declared.edit.Edit.TheVariants as edit;
ghost use Rattle.store_trait.specs.declared.name.Name.TheVariants as name;
ghost use Rattle.store_laws.specs.Chains.{AppliesAt, AppliesUpdate};

/// An applying record's update at its number decides nothing and leaves the meaning. After it, hit or
/// miss, the operation has passed, once its key had come to its number: so it is where its turn is.
pub fn updating_a_document()
    ensures quiet { (c : Content) (id : TxnId) (rec : Record) (op : Op) (revno : ℤ) (update : Value)
        (waiting : Token) →
        IsSound c → AppliesUpdate c id rec op revno update →
        IsQuiet c (edited c (name.Doc op.key) (edit.Update revno waiting update)) }
    ensures passes { (c : Content) (id : TxnId) (rec : Record) (op : Op) (revno : ℤ)
        (update : Value) (nonce : ℕ) →
        IsSound c → AppliesUpdate c id rec op revno update → rec.nonce ≡ Some nonce →
        unsigned_abs revno ≤ epoch_at (look c) op.key →
        HasPassed (look (edited c (name.Doc op.key) (edit.Update revno (token id nonce) update))) op
        revno }
    ensures reached { (c : Content) (id : TxnId) (rec : Record) (op : Op) (revno : ℤ)
        (a : AppliesAt c id rec op revno) →
        IsSound c → IsTurn (look c) op revno rec.ops a.numbers →
        unsigned_abs revno ≤ epoch_at (look c) op.key }
{}

/// The update of an operation that has passed decides nothing and leaves the meaning, whoever makes it
/// and whatever has become of its record. Where the key has no stash entry it changes nothing.
pub fn updating_too_late()
    ensures quiet { (c : Content) (op : Op) (revno : ℤ) (waiting : Token) (update : Value) →
        IsSound c → op.change ≡ Update update → HasPassed (look c) op revno →
        IsQuiet c (edited c (name.Doc op.key) (edit.Update revno waiting update)) }
    ensures alone { (c : Content) (op : Op) (revno : ℤ) (waiting : Token) (update : Value) →
        IsSound c → op.change ≡ Update update → HasPassed (look c) op revno →
        stash_at c op.key ≡ None →
        edited c (name.Doc op.key) (edit.Update revno waiting update) ≡ c }
{}

/// An operation that does nothing at its number has passed from the start, and a transaction of one
/// operation has passed with it: so a record whose operation has no effect may close at once. And an
/// applying record's operation has passed where its key's owner is past its number.
pub fn passing_an_operation()
    ensures nothing { (view : View) (op : Op) (revno : ℤ) → has_effect op.change revno ≡ false →
        HasPassed view op revno }
    ensures alone { (view : View) (ops : List Op) (op : Op) (revno : ℤ) →
        ops ≡ op ∷ [] → HasPassed view op revno → AllPassed view ops (revno ∷ []) }
    ensures beyond { (c : Content) (id : TxnId) (rec : Record) (op : Op) (revno : ℤ) →
        IsSound c → AppliesAt c id rec op revno → unsigned_abs revno < epoch_at (look c) op.key →
        HasPassed (look c) op revno }
{}

/// An applying record stays so, with its numbers, until all its operations have passed.
pub fn staying_done()
    ensures { (c d : Content) (id : TxnId) (rec now : Record) (revnos : List ℤ) →
        IsStep c d → record_at c id ≡ Some rec → rec.state ≡ state.Applying →
        rec.revnos ≡ Some revnos →
        record_at d id ≡ Some now → (now.state ≡ state.Applying) ⊎
        AllPassed (look d) rec.ops revnos }
{}

/// An applying record whose operations have passed closes as applied: nothing is decided, and the
/// meaning stays. In any other state the move misses.
pub fn closing_an_applied_record()
    ensures { (c : Content) (id : TxnId) →
        IsSound c →
        ((rec : Record) (revnos : List ℤ) → record_at c id ≡ Some rec → rec.state ≡ state.Applying →
        rec.revnos ≡ Some revnos →
        AllPassed (look c) rec.ops revnos) →
        IsQuiet c (edited c (name.Record id) (edit.Move state.Applying state.Applied None None)) }
{}

/// An aborting record closes as aborted: nothing is decided, and the meaning stays.
pub fn closing_an_aborted_record()
    ensures { (c : Content) (id : TxnId) →
        IsSound c → IsQuiet c (edited c (name.Record id) (edit.Move state.Aborting state.Aborted
        None None)) }
{}
