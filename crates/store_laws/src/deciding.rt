//! The moves of a prepared record. Either is the decision on its transaction, made by one call.
ghost use Rattle.std.specs.Prelude.{◌≡◌, ◌&&◌, true, false, ℤ, List, [], ◌∷◌, Some, None};
ghost use Rattle.std.specs.FinMap.{get};
ghost use Rattle.txn_key.specs.declared.id.TxnId.{TxnId};
ghost use Rattle.txn_key.specs.declared.key.Key.{Key};
ghost use Rattle.txn_record.specs.Effects.{tests, assertion_holds, change_fits};
ghost use Rattle.txn_record.specs.Revnos.{is_within, number_after};
ghost use Rattle.txn_record.specs.declared.op.Op.{Op};
ghost use Rattle.txn_record.specs.declared.record.Record.{Record};
ghost use Rattle.txn_record.specs.declared.state.State.TheVariants as state;
ghost use Rattle.store_trait.specs.Contents.{Content};
ghost use Rattle.store_trait.specs.Edits.{moved, edited};
ghost use Rattle.store_laws.specs.Meaning.{meaning};
ghost use Rattle.store_laws.specs.Readiness.{IsReady};
ghost use Rattle.store_laws.specs.Soundness.{IsSound};
ghost use Rattle.store_laws.specs.Steps.{Applies, Aborts};
ghost use Rattle.store_laws.specs.View.{look, record_at, IsOn, held_number};
ghost use Rattle.store_trait.specs.declared.edit.Edit.TheVariants as edit;
ghost use Rattle.store_trait.specs.declared.name.Name.TheVariants as name;
ghost use Rattle.store_laws.specs.Chains.{IsChainFrom};
ghost use Rattle.store_laws.specs.Held.{body_in};

/// On the keys of a ready prepared record the content means what the owners hold: nothing is pending
/// there, so its tests can be made on the cells.
pub fn testing_a_ready_record()
    ensures { (c : Content) (id : TxnId) (rec : Record) (key : Key) →
        IsSound c → record_at c id ≡ Some rec → rec.state ≡ state.Prepared → IsReady (look c) id →
        IsOn key rec.ops →
        get (meaning c) key ≡ body_in ((look c).held_at key) }
{}

/// The tests of a ready prepared record of one operation, from what the owner of its key holds.
pub fn testing_one_operation()
    ensures { (c : Content) (id : TxnId) (rec : Record) (op : Op) →
        IsSound c → record_at c id ≡ Some rec → rec.state ≡ state.Prepared → IsReady (look c) id →
        rec.ops ≡ op ∷ [] →
        tests rec.ops (meaning c) ≡ (assertion_holds op.assert
        (body_in ((look c).held_at op.key)) &&
        change_fits op.change (body_in ((look c).held_at op.key))) }
{}

/// The chain of one operation is the number of its key's owner, where the number that it leaves is
/// within the limits.
pub fn beginning_a_chain()
    ensures { (c : Content) (op : Op) →
        IsSound c → is_within (number_after op.change (held_number ((look c).held_at op.key))) ≡
        true →
        IsChainFrom (look c) (op ∷ []) (held_number ((look c).held_at op.key) ∷ []) }
{}

/// A ready prepared record whose tests hold starts to apply, with the numbers that its operations
/// find. This decides its transaction alone, and the meaning becomes the effect of the whole of it.
pub fn deciding_to_apply()
    ensures { (c : Content) (id : TxnId) (rec : Record) (revnos : List ℤ) →
        IsSound c → record_at c id ≡ Some rec → rec.state ≡ state.Prepared → IsReady (look c) id →
        IsChainFrom (look c) rec.ops revnos → tests rec.ops (meaning c) ≡ true →
        Applies c (edited c (name.Record id) (edit.Move state.Prepared state.Applying None
        (Some revnos))) (moved state.Applying None (Some revnos) rec) }
{}

/// A ready prepared record of which a test fails is to be aborted. This decides its transaction alone,
/// and the meaning stays.
pub fn deciding_to_abort()
    ensures { (c : Content) (id : TxnId) (rec : Record) →
        IsSound c → record_at c id ≡ Some rec → rec.state ≡ state.Prepared → IsReady (look c) id →
        tests rec.ops (meaning c) ≡ false →
        Aborts c (edited c (name.Record id) (edit.Move state.Prepared state.Aborting None None))
        (moved state.Aborting None None rec) }
{}
