//! Laws of going forward: steps follow one another, and what one runner knows lasts while others make
//! theirs.
ghost use Rattle.std.specs.Prelude.{◌≡◌, ◌≢◌, true, false, is_some};
ghost use Rattle.std.specs.FinMap.{get};
ghost use Rattle.txn_key.specs.declared.id.Token.{Token};
ghost use Rattle.txn_key.specs.declared.id.TxnId.{TxnId};
ghost use Rattle.txn_key.specs.declared.key.Key.{Key};
ghost use Rattle.store_trait.specs.Contents.{Content};
ghost use Rattle.store_trait.specs.Edits.{hit, edited};
ghost use Rattle.store_laws.specs.Later.{IsUndecided, Later};
ghost use Rattle.store_laws.specs.Readiness.{IsReady, IsClean, IsSpent};
ghost use Rattle.store_laws.specs.Since.{Since};
ghost use Rattle.store_laws.specs.Soundness.{IsSound};
ghost use Rattle.store_laws.specs.Steps.{IsStep, IsQuiet};
ghost use Rattle.store_laws.specs.View.{look, was_prepared, settled, is_queued, applying, HasKey};
ghost use Rattle.store_trait.specs.declared.edit.Edit.{Edit};
ghost use Rattle.store_trait.specs.declared.name.Name.{Name};

/// No call at all is a quiet step, as is a call that only reads or that misses. Two steps, one after
/// the other, are one, and so is a chain of calls; two chains are one chain.
pub fn steps_follow()
    ensures none { (c : Content) → IsSound c → IsQuiet c c }
    ensures missed { (c : Content) (n : Name) (e : Edit) → is_some (hit e n (get c n)) ≡ false →
        edited c n e ≡ c }
    ensures both { (a b c : Content) → IsStep a b → IsStep b c → IsStep a c }
    ensures chained { (c d : Content) → IsSound c → Since c d → IsStep c d }
    ensures joined { (b c d : Content) → Since b c → Since c d → Since b d }
{}

/// A record that is ready stays so until it is settled, and until it is decided, what the owners of its
/// keys hold stays. One that is clean stays so, and so does a token that may be taken out.
pub fn readiness_lasts()
    ensures ready { (c d : Content) (id : TxnId) → Later c d → was_prepared (look c) id ≡ true →
        settled (look d) id ≡ false →
        IsReady (look c) id → IsReady (look d) id }
    ensures held { (c d : Content) (id : TxnId) (key : Key) → Later c d → IsUndecided (look c) id →
        IsReady (look c) id →
        IsUndecided (look d) id → HasKey (look c) id key →
        (look d).held_at key ≡ (look c).held_at key }
    ensures clean { (c d : Content) (id : TxnId) → IsSound c → Later c d → IsClean (look c) id →
        IsClean (look d) id }
    ensures spent { (c d : Content) (x : Token) → IsSound c → Later c d → IsSpent (look c) x →
        IsSpent (look d) x }
{}

/// No two ready records that wait have a key in common. So at most one applying record is on a key, and
/// none on a key of a ready record that isn't decided yet.
pub fn ready_records_share_no_key()
    ensures queued { (c : Content) (key : Key) (t u : TxnId) → IsSound c → HasKey (look c) t key →
        HasKey (look c) u key →
        is_queued (look c) t ≡ true → is_queued (look c) u ≡ true → t ≢ u → IsReady (look c) t →
        IsReady (look c) u → ⊥ }
    ensures applying { (c : Content) (key : Key) (t u : TxnId) → IsSound c → HasKey (look c) t key →
        HasKey (look c) u key →
        applying (look c) t ≡ true → applying (look c) u ≡ true → t ≢ u → ⊥ }
    ensures undecided { (c : Content) (key : Key) (t u : TxnId) → IsSound c →
        HasKey (look c) t key → HasKey (look c) u key →
        IsUndecided (look c) t → IsReady (look c) t → applying (look c) u ≡ true → ⊥ }
{}
