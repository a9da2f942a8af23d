//! The history of a store's content: a trail of calls, each quiet or the decision on one transaction.
ghost use Rattle.std.specs.Prelude.{◌≡◌, ℕ, ◌+◌, ◌≤◌, true, Some, ◌++◌, ◌⊎◌, All};
ghost use Rattle.txn_key.specs.Documents.{Docs};
ghost use Rattle.txn_key.specs.declared.id.TxnId.{TxnId};
ghost use Rattle.txn_record.specs.Orders.{after, legal};
ghost use Rattle.txn_record.specs.States.{was_decided_state};
ghost use Rattle.txn_record.specs.declared.record.Record.{Record};
ghost use Rattle.store_trait.specs.Contents.{Content};
ghost use Rattle.store_laws.specs.Decisions.{decided_by, decisions};
ghost use Rattle.store_laws.specs.History.{IsFaithful};
ghost use Rattle.store_laws.specs.Meaning.{meaning};
ghost use Rattle.store_laws.specs.Soundness.{IsSound};
ghost use Rattle.store_laws.specs.Since.{Since};
ghost use Rattle.store_laws.specs.View.{look, record_at, was_decided};
ghost use Rattle.store_laws.specs.Trail.{IsCall, IsTrail, IsKept, IsRecorded};

/// A trail opens at any sound content, grows by one call after another, and is the same over places
/// that are the same so far. So are its decisions.
pub fn growing_a_trail()
    ensures opens { (trail : ℕ → Content) (mark : ℕ) → IsSound (trail mark) →
        IsTrail trail mark 0 (meaning (trail mark)) }
    ensures more { (trail : ℕ → Content) (mark n : ℕ) (base : Docs) →
        IsTrail trail mark n base → IsCall (trail (mark + n)) (trail (mark + n + 1)) →
        IsTrail trail mark (n + 1) base }
    ensures decides { (trail : ℕ → Content) (mark n : ℕ) →
        decisions trail mark (n + 1) ≡ decisions trail mark n ++ decided_by (trail (mark + n))
        (trail (mark + n + 1)) (mark + n + 1) }
    ensures same { (trail other : ℕ → Content) (mark n : ℕ) (base : Docs) →
        ((k : ℕ) → k ≤ mark + n → other k ≡ trail k) →
        IsTrail trail mark n base → IsTrail other mark n base }
    ensures decides_same { (trail other : ℕ → Content) (mark n : ℕ) →
        ((k : ℕ) → k ≤ mark + n → other k ≡ trail k) →
        decisions other mark n ≡ decisions trail mark n }
{}

/// A trail is a faithful history: every place is sound, and means the base after the decisions so far,
/// one whole transaction after another, in an order that is legal. And its calls lead from each place
/// to each later one.
pub fn trusting_a_trail()
    ensures faithful { (trail : ℕ → Content) (mark n : ℕ) (base : Docs) →
        IsTrail trail mark n base → IsFaithful trail mark n base }
    ensures legal { (trail : ℕ → Content) (mark n : ℕ) (base : Docs) →
        IsTrail trail mark n base → legal base (decisions trail mark n) ≡ true }
    ensures means { (trail : ℕ → Content) (mark n : ℕ) (base : Docs) →
        IsTrail trail mark n base → meaning (trail (mark + n)) ≡ after base
        (decisions trail mark n) }
    ensures calls { (trail : ℕ → Content) (mark n : ℕ) (base : Docs) (j k : ℕ) →
        IsTrail trail mark n base → j ≤ k → k ≤ n → Since (trail (mark + j)) (trail (mark + k)) }
{}

/// A trail consists of trails, one from each place on: so what comes of a part of its calls can be told by
/// itself, and the decisions of the whole are those of its parts in turn.
pub fn dividing_a_trail()
    ensures first { (trail : ℕ → Content) (mark n m : ℕ) (base : Docs) →
        IsTrail trail mark (n + m) base → IsTrail trail mark n base }
    ensures rest { (trail : ℕ → Content) (mark n m : ℕ) (base : Docs) →
        IsTrail trail mark (n + m) base →
        IsTrail trail (mark + n) m (after base (decisions trail mark n)) }
    ensures joined { (trail : ℕ → Content) (mark n m : ℕ) (base between : Docs) →
        IsTrail trail mark n base → IsTrail trail (mark + n) m between →
        IsTrail trail mark (n + m) base }
    ensures order { (trail : ℕ → Content) (mark n m : ℕ) →
        decisions trail mark (n + m) ≡ decisions trail mark n ++ decisions trail (mark + n) m }
{}

/// The decisions of a trail tell of just the records that came to be decided in it: each entry of one that
/// is there, and of each decided record one entry, unless it was decided before the mark.
pub fn reading_an_order()
    ensures keeps { (trail : ℕ → Content) (mark n : ℕ) (base : Docs) →
        IsTrail trail mark n base → All (IsKept (trail (mark + n))) (decisions trail mark n) }
    ensures tells { (trail : ℕ → Content) (mark n : ℕ) (base : Docs) (id : TxnId) (rec : Record) →
        IsTrail trail mark n base → record_at (trail (mark + n)) id ≡ Some rec →
        was_decided_state rec.state ≡ true →
        (was_decided (look (trail mark)) id ≡ true) ⊎ IsRecorded (decisions trail mark n) rec }
{}
