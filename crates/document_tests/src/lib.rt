//! Tests of values, updates and queries, and of nothing else: public calls of `doc_value`, `doc_update`,
//! `doc_apply` and `doc_query` on tables of worked rows.
//!
//! They stand here so that those crates are proved once and not twice. What a contract says of all inputs
//! isn't repeated: the rows show that the definitions mean what was meant, and that calls succeed.
#![tactic(auto)]

#[cfg(test)]
mod paths;
#[cfg(test)]
mod queries;
#[cfg(test)]
mod updates;
#[cfg(test)]
mod values;
