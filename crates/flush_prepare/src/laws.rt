//! Laws of the parts: what a part knows is kept by whatever runners do between its steps.
ghost use Rattle.std.specs.Prelude.{◌≡◌, ℕ, true, List, Option, Some};
ghost use Rattle.txn_key.specs.declared.id.Token.{Token};
ghost use Rattle.txn_key.specs.declared.id.TxnId.{TxnId};
ghost use Rattle.txn_key.specs.declared.key.Key.{Key};
ghost use Rattle.txn_record.specs.Chain.{keys_of};
ghost use Rattle.txn_record.specs.States.{was_prepared_state};
ghost use Rattle.txn_record.specs.declared.record.Record.{Record};
ghost use Rattle.store_trait.specs.Contents.{Content};
ghost use Rattle.store_laws.specs.Found.{IsListed};
ghost use Rattle.store_laws.specs.Nonces.{NoncesCome};
ghost use Rattle.store_laws.specs.Readiness.{In};
ghost use Rattle.store_laws.specs.Since.{Since};
ghost use Rattle.store_laws.specs.Soundness.{IsSound};
ghost use Rattle.store_laws.specs.View.{look, record_at, IsOn};
ghost use Rattle.flush_prepare.specs.Moments.{WasStored};
ghost use Rattle.flush_prepare.specs.PrepareFacts.{IsPreparing, IsBlocked, IsNotGiven, nonce_of};
ghost use Rattle.flush_prepare.specs.Scans.{IsScanning, HasScanned, IsFoundOn};
ghost use Rattle.flush_prepare.specs.declared.prepare.Prepare.{Prepare};
ghost use Rattle.flush_prepare.specs.declared.scan.Scan.{Scan};

/// A record that was read as it is stored may be handed to a part, then or later.
pub fn reading_a_record()
    ensures now { (c : Content) (rec : Record) → IsSound c → record_at c rec.id ≡ Some rec →
        WasStored c rec }
    ensures later { (c d : Content) (rec : Record) → IsSound c → Since c d → WasStored c rec →
        WasStored d rec }
{}

/// Between two steps of a scan any calls of runners may be made. What was found on a key lasts too.
pub fn scans_last()
    ensures scanning { (c d : Content) (scan : Scan) → Since c d → IsScanning c scan →
        IsScanning d scan }
    ensures scanned { (c d : Content) (rec : Record) (keys : List Key) (found : List Token) →
        Since c d → HasScanned c rec keys found → HasScanned d rec keys found }
{}

/// Once all keys of a record were scanned, all that stand before it now are among the tokens found; and
/// each of these stands before it still, or may be taken out.
pub fn reading_a_scan()
    ensures listed { (c : Content) (rec : Record) (found : List Token) →
        HasScanned c rec (keys_of rec.ops) found → was_prepared_state rec.state ≡ true →
        (key : Key) → IsOn key rec.ops → IsListed (look c) key rec.id found }
    ensures found { (c : Content) (rec : Record) (found : List Token) →
        HasScanned c rec (keys_of rec.ops) found → was_prepared_state rec.state ≡ true →
        (x : Token) → In x found → IsFoundOn c rec x }
{}

/// Between two steps of a preparation any calls of runners may be made that don't give its record the
/// nonce that was drawn for it. A call that gives a nonce to another record, or another nonce, doesn't. What
/// was said of a mark lasts under any calls of runners.
pub fn preparations_last()
    ensures preparing { (c d : Content) (prepare : Prepare) → Since c d → IsNotGiven c d prepare →
        IsPreparing c prepare → IsPreparing d prepare }
    ensures apart { (c d : Content) (prepare : Prepare) (id : TxnId) (given : Option ℕ) →
        NoncesCome (look c) (look d) id given → ((nonce : ℕ) → id ≡ prepare.rec.id →
        given ≡ Some nonce → nonce_of prepare ≡ Some nonce → ⊥) → IsNotGiven c d prepare }
    ensures joined { (b c d : Content) (prepare : Prepare) → IsNotGiven b c prepare →
        IsNotGiven c d prepare → IsNotGiven b d prepare }
    ensures blocked { (c d : Content) (rec : Record) (key : Key) (id : TxnId) → Since c d →
        IsBlocked c rec key id → IsBlocked d rec key id }
{}
