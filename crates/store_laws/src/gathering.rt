//! Laws of a gathering: a runner reads queues and records one at a time while others go on, and may
//! still name a record that is ready, or one that is clean.
ghost use Rattle.std.specs.Prelude.{◌≡◌, ◌≢◌, ℕ, false, true, Some, ◌⊎◌, List, []};
ghost use Rattle.txn_key.specs.declared.id.Token.{Token};
ghost use Rattle.txn_key.specs.declared.id.TxnId.{TxnId};
ghost use Rattle.txn_key.specs.declared.key.Key.{Key};
ghost use Rattle.store_trait.specs.Contents.{Content};
ghost use Rattle.store_laws.specs.Later.{Later};
ghost use Rattle.store_laws.specs.Readiness.{token, In, Precedes, IsClean, IsReady};
ghost use Rattle.store_laws.specs.Soundness.{IsSound};
ghost use Rattle.store_laws.specs.View.{View, look, was_prepared, settled, valid_nonce, HasKey};
ghost use Rattle.store_laws.specs.Found.{IsFoundAt, IsListed};
ghost use Rattle.cycle_order.specs.ByIds.{ReadyId, CleanId};
ghost use Rattle.cycle_order.specs.Graphs.{IsGraph, IsPicked, id_at};
ghost use Rattle.cycle_order.specs.declared.graph.Graph.{Graph};
ghost use Rattle.store_laws.specs.Gathered.{Member, Grows, IsGathered, IsFollowed, IsScanned};

/// What was found in queues lasts. A token that was found before a record stands there still or may be
/// taken out, and if it is valid, its record precedes or is clean. All that stand before a record now
/// are among those once listed. A record whose own token is missing has nothing before it and is
/// settled.
pub fn findings_last()
    ensures found { (c d : Content) (key : Key) (x : Token) (id : TxnId) → IsSound c → Later c d →
        IsFoundAt (look c) key x id → IsFoundAt (look d) key x id }
    ensures edge { (view : View) (key : Key) (x : Token) (id : TxnId) → IsFoundAt view key x id →
        valid_nonce view x.id ≡ Some x.nonce → x.id ≢ id → Precedes view x.id id ⊎
        IsClean view x.id }
    ensures listed { (c d : Content) (key : Key) (id : TxnId) (found : List Token) → Later c d →
        was_prepared (look c) id ≡ true → IsListed (look c) key id found →
        IsListed (look d) key id found }
    ensures missing { (c : Content) (key : Key) (id : TxnId) (nonce : ℕ) → IsSound c →
        HasKey (look c) id key →
        valid_nonce (look c) id ≡ Some nonce → (In (token id nonce) ((look c).queue_at key) → ⊥) →
        IsListed (look c) key id [] × (settled (look c) id ≡ true) }
{}

/// What a gathering knows lasts, while others go on and while it grows: its members and edges, each
/// followed token and each scanned key.
pub fn gatherings_last()
    ensures gathered { (c d : Content) (g : Graph) → IsSound c → Later c d →
        IsGathered (look c) g → IsGathered (look d) g }
    ensures followed { (c d : Content) (g : Graph) (x : Token) (id : TxnId) → Later c d →
        IsFollowed (look c) g x id → IsFollowed (look d) g x id }
    ensures scanned { (c d : Content) (g : Graph) (id : TxnId) (key : Key) → Later c d →
        was_prepared (look c) id ≡ true → IsScanned (look c) g id key →
        IsScanned (look d) g id key }
    ensures followed_more { (view : View) (g h : Graph) (x : Token) (id : TxnId) → Grows g h →
        IsFollowed view g x id → IsFollowed view h x id }
    ensures scanned_more { (view : View) (g h : Graph) (id : TxnId) (key : Key) → Grows g h →
        IsScanned view g id key → IsScanned view h id key }
{}

/// A key is scanned once each token listed on it was followed, and a member's own keys are all that
/// have to be scanned.
pub fn scanning_own_keys()
    ensures listed { (view : View) (g : Graph) (id : TxnId) (key : Key) (found : List Token) →
        IsListed view key id found → ((x : Token) → In x found → IsFollowed view g x id) →
        IsScanned view g id key }
    ensures own { (c : Content) (g : Graph) (id : TxnId) → IsSound c →
        ((key : Key) → HasKey (look c) id key → IsScanned (look c) g id key) → (key : Key) →
        IsScanned (look c) g id key }
{}

/// Of a gathering whose members' keys are all scanned, a member that isn't settled and is ready by the
/// graph is ready, and one that is clean by the graph is clean. So the vertex that the graph picks is
/// ready, or was settled since.
pub fn gathering_the_ready()
    ensures ready { (view : View) (g : Graph) →
        IsGathered view g → ((id : TxnId) → Member g id → (key : Key) → IsScanned view g id key) →
        (id : TxnId) → Member g id → settled view id ≡ false → ReadyId g id → IsReady view id }
    ensures clean { (view : View) (g : Graph) →
        IsGathered view g → ((id : TxnId) → Member g id → (key : Key) → IsScanned view g id key) →
        (id : TxnId) → Member g id → CleanId g id → IsClean view id }
    ensures picked { (view : View) (g : Graph) (v : ℕ) →
        IsGathered view g → ((id : TxnId) → Member g id → (key : Key) → IsScanned view g id key) →
        IsGraph g → IsPicked g v → settled view (id_at g v) ≡ false → IsReady view (id_at g v) }
{}
