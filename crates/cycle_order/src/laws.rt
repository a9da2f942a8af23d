//! Laws of graphs: of walks, and of readiness as a graph changes. The crates above cite them by these
//! contracts.
ghost use Rattle.std.specs.Prelude.{◌≡◌, ◌≢◌, ◌⊎◌, ◌↔◌, ℕ, ◌<◌, Bool, List, [], ◌∷◌, length, Contains};
ghost use Rattle.txn_key.specs.declared.id.TxnId.{TxnId};
ghost use Rattle.txn_record.specs.Walks.{Leads};
ghost use Rattle.cycle_order.specs.ByIds.{ReadyId, CleanId};
ghost use Rattle.cycle_order.specs.Graphs.{IsGraph, HasEdge, Ancestor, IsUnsettled, IsReady, IsClean, edge_of, id_at, with_vertex, with_settled, with_edges};
ghost use Rattle.cycle_order.specs.declared.graph.Edge.{Edge};
ghost use Rattle.cycle_order.specs.declared.graph.Graph.{Graph};

/// A graph stays one as a vertex of a new id, a settled flag or an edge between its vertices comes.
pub fn graphs_grow()
    ensures empty { IsGraph (record { ids = []; settled = []; edges = [] }) }
    ensures vertex { (graph : Graph) (id : TxnId) (settled : Bool) → IsGraph graph →
        (Contains graph.ids id → ⊥) → IsGraph (with_vertex graph id settled) }
    ensures settled { (graph : Graph) (v : ℕ) → IsGraph graph → IsGraph (with_settled graph v) }
    ensures edge { (graph : Graph) (u t : ℕ) → IsGraph graph →
        u < length graph.ids → t < length graph.ids →
        IsGraph (with_edges graph (edge_of u t ∷ [])) }
{}

/// Walks join, stay as edges come, and go through a given vertex or along edges that don't end there.
pub fn walks_go_on()
    ensures joined { (graph : Graph) (a b c : ℕ) →
        Ancestor graph a b → Ancestor graph b c → Ancestor graph a c }
    ensures kept { (graph : Graph) (more : List Edge) (a v : ℕ) →
        Ancestor graph a v → Ancestor (with_edges graph more) a v }
    ensures cut { (graph : Graph) (x a v : ℕ) → Ancestor graph a v →
        (Ancestor graph a x × Ancestor graph x v)
        ⊎ Leads (λ u t. HasEdge graph.edges u t × (t ≢ x)) a v }
{}

/// Two unsettled vertices, each an ancestor of the other, are never both ready.
pub fn cycles_have_one_ready_vertex()
    ensures { (graph : Graph) (v w : ℕ) → v ≢ w → IsUnsettled graph v → IsUnsettled graph w →
        Ancestor graph v w → Ancestor graph w v → IsReady graph v → IsReady graph w → ⊥ }
{}

/// What is ready or clean stays so as a vertex is settled.
pub fn settling_keeps_the_ready()
    ensures ready { (graph : Graph) (v w : ℕ) → IsReady graph w → IsReady (with_settled graph v) w }
    ensures clean { (graph : Graph) (v w : ℕ) → IsClean graph w → IsClean (with_settled graph v) w }
{}

/// What is ready or clean stays so as edges come that end at none of its ancestors, itself among them.
pub fn late_edges_keep_the_ready()
    ensures ready { (graph : Graph) (more : List Edge) (v : ℕ) →
        ((u t : ℕ) → HasEdge more u t → Ancestor graph t v → ⊥) →
        IsReady graph v → IsReady (with_edges graph more) v }
    ensures clean { (graph : Graph) (more : List Edge) (v : ℕ) →
        ((u t : ℕ) → HasEdge more u t → Ancestor graph t v → ⊥) →
        IsClean graph v → IsClean (with_edges graph more) v }
{}

/// Where a vertex is unsettled, some unsettled vertex is ready.
pub fn unsettled_graphs_have_a_ready_vertex()
    ensures { (graph : Graph) (v : ℕ) → IsGraph graph → IsUnsettled graph v →
        (r : ℕ) × IsUnsettled graph r × IsReady graph r }
{}

/// A vertex is ready, and clean, exactly where its transaction is by the edges between ids.
pub fn readiness_by_ids()
    ensures ready { (graph : Graph) (v : ℕ) → IsGraph graph → v < length graph.ids →
        IsReady graph v ↔ ReadyId graph (id_at graph v) }
    ensures clean { (graph : Graph) (v : ℕ) → IsGraph graph → v < length graph.ids →
        IsClean graph v ↔ CleanId graph (id_at graph v) }
{}
