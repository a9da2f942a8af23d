//! Who goes first where transactions wait for each other.
//!
//! A graph has an edge from each transaction to those that wait for it. The ancestors of a vertex are
//! itself and all that lead to it; it is ready where each other unsettled ancestor waits for it in turn
//! and has a greater id. An unsettled graph always has a ready vertex, and `pick` answers the ready
//! unsettled one of least id.
#![tactic(auto)]

mod ancestry;
mod choice;
mod cleanness;
mod graph;
mod incoming;
mod laws;
mod least;
mod links;
mod ready;
mod search;

pub use ancestry::{ancestors, descendants};
pub use choice::pick;
pub use cleanness::clean;
pub use graph::{Edge, Graph};
pub use laws::{
    cycles_have_one_ready_vertex, graphs_grow, late_edges_keep_the_ready, readiness_by_ids,
    settling_keeps_the_ready, unsettled_graphs_have_a_ready_vertex, walks_go_on,
};
pub use ready::is_ready;
