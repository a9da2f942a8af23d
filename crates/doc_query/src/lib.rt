//! Queries: what an assertion asks of a document.
//!
//! A value is read as a query exactly where it is one, and else refused by its first fault in the order of
//! its names (`Query::read`). Whether a query holds on a body is exactly the truth that `holds` defines by
//! cases (`matches`), and takes no memory.
#![tactic(auto)]

mod condition;
mod fault;
mod laws;
mod matching;
mod operator;
mod query;
mod reading;

pub use fault::QueryFault;
pub use laws::truth_by_cases;
pub use matching::matches;
pub use query::Query;
