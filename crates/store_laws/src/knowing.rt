//! What a runner knows between its calls lasts while others make theirs, each fact by itself.
ghost use Rattle.std.specs.Prelude.{◌≡◌, ℕ, ◌<◌, ℤ, Some, List, ◌⊎◌};
ghost use Rattle.txn_key.specs.declared.id.Token.{Token};
ghost use Rattle.txn_key.specs.declared.id.TxnId.{TxnId};
ghost use Rattle.txn_key.specs.declared.key.Key.{Key};
ghost use Rattle.txn_record.specs.declared.op.Op.{Op};
ghost use Rattle.txn_record.specs.declared.record.Record.{Record};
ghost use Rattle.txn_record.specs.declared.state.State.TheVariants as state;
ghost use Rattle.store_trait.specs.Contents.{Content};
ghost use Rattle.store_trait.specs.declared.cell.DocCell.{DocCell};
ghost use Rattle.store_trait.specs.declared.cell.StashCell.{StashCell};
ghost use Rattle.store_laws.specs.Done.{HasPassed, AllPassed};
ghost use Rattle.store_laws.specs.Entries.{stash_epoch, DocStays, EntryStays};
ghost use Rattle.store_laws.specs.Known.{HasQueued, HasNoDocAlone, PassedIfApplied};
ghost use Rattle.store_laws.specs.Later.{GoesTo, IsStillThere};
ghost use Rattle.store_laws.specs.Soundness.{IsSound, HasSoundTokens, AllBelow};
ghost use Rattle.store_laws.specs.Steps.{IsStep};
ghost use Rattle.store_laws.specs.View.{look, record_at, counter};

/// A record that was read is there still, as it was or further on. One that was applying is applying or
/// applied.
pub fn records_last()
    ensures there { (c : Content) (id : TxnId) (rec : Record) → record_at c id ≡ Some rec →
        IsStillThere (look c) id rec }
    ensures still { (c d : Content) (id : TxnId) (rec : Record) → IsStep c d →
        IsStillThere (look c) id rec → IsStillThere (look d) id rec }
    ensures applying { (rec now : Record) → GoesTo rec now → rec.state ≡ state.Applying →
        (now.state ≡ state.Applying) ⊎ (now.state ≡ state.Applied) }
{}

/// A nonce that was drawn stays below the counter. A token that was added stands in its queue until its
/// record was prepared. And a key with neither cell gets no document alone.
pub fn queueing_lasts()
    ensures counted { (c d : Content) (nonce : ℕ) → IsStep c d → nonce < counter c →
        nonce < counter d }
    ensures queued { (c d : Content) (key : Key) (x : Token) → IsStep c d →
        HasQueued (look c) key x → HasQueued (look d) key x }
    ensures no_doc { (c d : Content) (key : Key) → IsSound c → IsStep c d → HasNoDocAlone c key →
        HasNoDocAlone d key }
{}

/// A marked cell that was read stands there still, or a stash entry is past it; what a stash entry is past
/// stays so. And the tokens of a cell stay sound and drawn, wherever they are put.
pub fn marked_cells_last()
    ensures doc { (c d : Content) (key : Key) (doc : DocCell) (mark : Token) → IsStep c d →
        doc.remove ≡ Some mark →
        DocStays c key doc → DocStays d key doc }
    ensures entry { (c d : Content) (key : Key) (entry : StashCell) (mark : Token) → IsStep c d →
        entry.insert ≡ Some mark →
        EntryStays c key entry → EntryStays d key entry }
    ensures behind { (c d : Content) (key : Key) (epoch : ℕ) → IsStep c d →
        epoch < stash_epoch c key → epoch < stash_epoch d key }
    ensures tokens { (c d : Content) (key : Key) (queue tokens : List Token) → IsStep c d →
        HasSoundTokens (look c) key queue tokens → HasSoundTokens (look d) key queue tokens }
    ensures nonces { (c d : Content) (tokens : List Token) → IsStep c d →
        AllBelow (counter c) tokens → AllBelow (counter d) tokens }
{}

/// An operation that has passed stays so. And a record that was applying is applied later only with all
/// its operations passed.
pub fn passing_lasts()
    ensures passed { (c d : Content) (op : Op) (revno : ℤ) → IsStep c d →
        HasPassed (look c) op revno → HasPassed (look d) op revno }
    ensures all { (c d : Content) (ops : List Op) (revnos : List ℤ) → IsStep c d →
        AllPassed (look c) ops revnos → AllPassed (look d) ops revnos }
    ensures applying { (c : Content) (id : TxnId) (rec : Record) (revnos : List ℤ) →
        record_at c id ≡ Some rec →
        rec.state ≡ state.Applying → PassedIfApplied (look c) id rec.ops revnos }
    ensures applied { (c d : Content) (id : TxnId) (rec : Record) (revnos : List ℤ) → IsStep c d →
        IsStillThere (look c) id rec → rec.state ≡ state.Applying → rec.revnos ≡ Some revnos →
        PassedIfApplied (look c) id rec.ops revnos → PassedIfApplied (look d) id rec.ops revnos }
{}
