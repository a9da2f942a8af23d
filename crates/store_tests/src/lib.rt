//! Tests of the store, of who goes first, of a runner's first parts and of audits, and of nothing else:
//! public calls of `store_trait`, `store_memory`, `cycle_order`, `flush_prepare` and `txn_audit` on worked
//! rows.
//!
//! They stand here so that those crates are proved once and not twice. What a contract says of all inputs
//! isn't repeated: the rows show that the definitions mean what was meant, and that calls succeed.
#![tactic(auto)]

#[cfg(test)]
mod audits;
#[cfg(test)]
mod cells;
#[cfg(test)]
mod graphs;
#[cfg(test)]
mod interleaved;
#[cfg(test)]
mod memory;
#[cfg(test)]
mod parts;
